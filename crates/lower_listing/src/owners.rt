//! What owns the bindings that are printed.

use super::numbering::Numbering;
use hir_store::ids::ExprId;
use itoa::Buffer;
use std::alloc::{AllocError, Global};

/// The expressions that own printed bindings, and their numbers by first printing.
///
/// An expression is printed in front of the bindings that it owns, and only these show that it owns one that is printed. So it is
/// noted where each expression stands in the text, and the numbers are put in when all is printed.
#[derive(Drop)]
pub struct Owners {
    alloc: Global,
    found: Numbering,
    numbered: Numbering,
    places: Vec<(usize, ExprId)>,
}

impl Owners {
    /// None, as long as nothing is printed. It takes no memory.
    pub fn new(alloc: Global) -> Owners {
        Owners {
            alloc,
            found: Numbering::new(alloc),
            numbered: Numbering::new(alloc),
            places: Vec::new(alloc),
        }
    }

    /// What owns a binding that is printed, where something does.
    pub fn find(&mut self, owner: Option<ExprId>) -> Result<(), AllocError> {
        if let Some(owner) = owner {
            self.found.number(owner.0)?;
        }
        Ok(())
    }

    /// Notes that an expression stands at a place of the text, behind all that were noted before.
    pub fn track(&mut self, place: usize, id: ExprId) -> Result<(), AllocError> {
        self.places.push((place, id))?;
        Ok(())
    }

    /// Whether there are any.
    pub fn are_any(&self) -> bool {
        !self.found.as_slice().is_empty()
    }

    /// The number of an expression that owns a printed binding, the next free one where it has none yet.
    pub fn number(&mut self, id: ExprId) -> Result<Option<usize>, AllocError> {
        if self.found.has(id.0) {
            let number = self.numbered.number(id.0)?;
            return Ok(Some(number));
        }
        Ok(None)
    }

    /// The text with `ok=` where an expression stands that owns a printed binding, the k-th to do so.
    pub fn marked(&mut self, text: &str) -> Result<String, AllocError> {
        let mut marked = String::with_capacity(self.alloc, text.len())?;
        let mut start = 0;
        for (place, id) in &self.places {
            if self.found.has(id.0) {
                let number = self.numbered.number(id.0)?;
                marked.push_str(between(text, start, *place))?;
                marked.push('o')?;
                marked.push_str(Buffer::new().format(number))?;
                marked.push('=')?;
                start = *place;
            }
        }
        marked.push_str(between(text, start, text.len()))?;
        Ok(marked)
    }
}

/// What stands in a text from one place to another. Nothing, where they aren't places of it in this order.
fn between(text: &str, start: usize, end: usize) -> &str {
    match text.split_at_checked(end) {
        Some((front, _)) => match front.split_at_checked(start) {
            Some((_, between)) => between,
            None => "",
        },
        None => "",
    }
}

//! The modes, by the numbers that the header gives them.

ghost use Rattle.std.specs.Prelude.{◌≡◌, IfOk, string_bytes};
ghost use Rattle.lower_c.specs.Answers.{mode_of, CameOfCall};
ghost use Rattle.lower_c.specs.Results.{IsResult};

use crate::result::result_json;
use lower_run::failure::Failure;
use lower_run::mode::Mode;
use lower_run::run::{listing_among_many, lowered_among_many};
use std::alloc::Global;

/// The mode with a number.
pub fn mode_with(number: u32) -> Option<Mode>
    ensures { result ≡ mode_of number }
{
    match number {
        0 => Some(Mode::Body),
        1 => Some(Mode::Path),
        2 => Some(Mode::Type_),
        3 => Some(Mode::Pat),
        4 => Some(Mode::Fn),
        _ => None,
    }
}

/// The listing of a document in a mode, if a number names one.
pub fn lower(alloc: Global, mode: Option<Mode>, document: &[u8]) -> Result<String, Failure>
    ensures { CameOfCall mode document.now result }
{
    match mode {
        Some(mode) => listing_among_many(alloc, mode, document),
        None => Err(Failure::Usage),
    }
}

/// The same with all that it is lowered to, as JSON.
pub fn lower_json(alloc: Global, mode: Option<Mode>, document: &[u8]) -> Result<String, Failure>
    ensures came { CameOfCall mode document.now result }
    ensures json { IfOk result (λ s. IsResult (string_bytes s)) }
{
    let Some(mode) = mode else {
        return Err(Failure::Usage);
    };
    let lowered = lowered_among_many(alloc, mode, document)?;
    let text = result_json(alloc, &lowered);
    drop(lowered);
    text.map_err(|_| Failure::Memory)
}

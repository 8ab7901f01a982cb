//! Documents that tests ask about, and how they are answered.

use hir_lower::LowerError;
use hir_syntax::ast::{ConstArg, GenericArg, Path, Type_};
use lower_json::document::{Document, Root, Tree};
use lower_json::fault::ReadError;
use lower_json::read::read_tree;
use std::alloc::Global;

/// How a question is answered.
#[derive(Clone, Copy, PartialEq, Eq)]
pub enum Said {
    /// As it has to be.
    Own,
    /// The call is refused for memory.
    Memory,
    /// Memory is refused beside the call: where its document is read, or what it answers is listed.
    Beside,
    Other,
}

/// `Own` where this is so, else `Other`.
pub fn own_if(is_so: bool) -> Said {
    if is_so { Said::Own } else { Said::Other }
}

/// Of a call that has no error of its own.
pub fn said_by_error(error: LowerError) -> Said {
    match error {
        LowerError::Memory => Said::Memory,
        LowerError::Full | LowerError::Failed => Said::Other,
    }
}

/// A question to a document, with the answer that it has to have.
pub trait AskOfDocument {
    fn said(&self, alloc: Global, document: &mut Document) -> Said;
}

/// How the document that a text is answers. No other function owns a document, since it is dear to prove that one is dropped.
pub fn said_of<A: AskOfDocument>(alloc: Global, want: Root, text: &str, ask: &A) -> Said {
    match read_tree(alloc, want, text.as_bytes()) {
        Ok(read) => {
            let mut document = read;
            let said = ask.said(alloc, &mut document);
            drop(document);
            said
        }
        Err(ReadError::Memory) => Said::Beside,
        Err(ReadError::Fault(_)) => Said::Other,
    }
}

/// The path that a document is.
pub fn path_in(document: &Document) -> Option<&Path> {
    match &document.tree {
        Tree::Path(path) => Some(path),
        Tree::Fn(_) | Tree::Type_(_) | Tree::Pat(_) => None,
    }
}

/// The only argument beside the only name of a document's path.
fn argument_in(document: &Document) -> Option<&GenericArg> {
    match path_in(document)?.segs.as_slice() {
        [Some(segment)] => match segment.generics.as_ref()?.as_slice() {
            [argument] => Some(argument),
            _ => None,
        },
        _ => None,
    }
}

/// The constant in the document of a path: the only argument beside its only name.
pub fn constant_in(document: &Document) -> Option<&ConstArg> {
    match argument_in(document)? {
        GenericArg::ConstArg(constant) => Some(constant),
        _ => None,
    }
}

/// The type in the document of a path, as the constant is.
pub fn type_in(document: &Document) -> Option<&Type_> {
    match argument_in(document)? {
        GenericArg::TypeArg(argument) => Some(argument.as_ref()?.get()),
        _ => None,
    }
}

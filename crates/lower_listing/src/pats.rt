//! The parts of patterns and of what holds them, in the order in which they are printed.

use super::waiting::{ABSENT, Piece, Waiting};
use hir_store::hir::RecordFieldPat;
use hir_store::ids::{PatId, TypeRefId};
use hir_store::path::Path;

/// A pattern that is there or isn't, as what waits.
pub fn pat_or_absent(pat: Option<PatId>) -> Piece<'static> {
    match pat {
        Some(id) => Piece::Pat(id),
        None => ABSENT,
    }
}

/// A type that is there or isn't, as what waits.
pub fn type_or_absent(ty: Option<TypeRefId>) -> Piece<'static> {
    match ty {
        Some(id) => Piece::Type_(id),
        None => ABSENT,
    }
}

/// The place at which two dots stand.
fn place_or_absent(ellipsis: Option<u32>) -> Piece<'static> {
    match ellipsis {
        Some(place) => Piece::Number(place),
        None => ABSENT,
    }
}

/// Whether two dots stand behind the fields.
pub fn dots_or_absent(ellipsis: bool) -> Piece<'static> {
    if ellipsis { Piece::Word("..") } else { ABSENT }
}

/// What is let wait here waits before all others, and the bracket after it.
impl<'a> Waiting<'a> {
    /// Lets the parts of a pattern wait that begins with a path.
    pub fn push_tuple_struct(&mut self, path: &'a Path, ellipsis: Option<u32>, args: &'a [PatId]) {
        self.push_parts(&[
            Piece::PlainPath(path),
            place_or_absent(ellipsis),
            Piece::Pats(args),
        ])
    }

    /// Lets a list of the parameters of a closure wait.
    pub fn push_closure_param_list(&mut self, pats: &'a [PatId], types: &'a [Option<TypeRefId>]) {
        self.push_all(&[
            Piece::Word("["),
            Piece::ClosureParams("", pats, types),
            Piece::Word("]"),
        ])
    }

    /// Lets a list of the fields of a record pattern wait.
    pub fn push_pat_field_list(&mut self, fields: &'a [RecordFieldPat]) {
        self.push_all(&[
            Piece::Word("["),
            Piece::PatFields("", fields),
            Piece::Word("]"),
        ])
    }
}

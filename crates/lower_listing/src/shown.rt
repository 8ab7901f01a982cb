//! What a listing begins with, except for a path's, which holds a tree and so is handed on by itself.

use super::signatures::Signature;
use hir_store::ids::{BindingId, PatId, TypeRefId};
use hir_store::param::Param;

/// What the first lines of a listing show.
#[derive(Clone, Copy)]
pub enum Shown<'a> {
    /// A body: its `self`, where it has one, its other parameters, and itself.
    Body(Option<BindingId>, &'a [Param<PatId>]),
    /// Parameters without their body.
    Params(&'a [Param<PatId>]),
    Type_(TypeRefId),
    /// The types of a function, with its generic parameters.
    Function(Signature<'a>),
}

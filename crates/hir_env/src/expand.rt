//! What a macro call is expanded to.

use hir_base::node::{HirFileId, InFile, NodeId};
use hir_store::ids::MacroDefId;
use hir_store::path::ModPath;
use hir_syntax::ast::Fragment;

/// What a call has to stand for where it stands.
#[derive(Clone, Copy, PartialEq, Eq)]
pub enum FragmentKind {
    Expr,
    Stmts,
    Pat,
    Type_,
}

/// What is lent of a call. Where it has an expansion: its file, its tree, and other calls that were expanded for it, with their files.
#[derive(Clone, Copy)]
pub enum Expansion<'a> {
    Unresolved(&'a ModPath),
    NoExpansion,
    Expanded(HirFileId, Option<&'a Fragment>, &'a [(InFile<NodeId>, HirFileId)]),
}

/// The macro that a context came from.
#[derive(Clone, Copy)]
pub struct OuterMacro {
    pub def: MacroDefId,
    /// Whether a path of one name that stands directly in a call in it begins at the root of the crate.
    pub local_inner: bool,
}

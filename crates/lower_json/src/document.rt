//! What a document says.

use hir_base::Seq;
use hir_env::ctx::LoweringMode;
use hir_store::ids::{DefWithBodyId, TypeAliasId};
use hir_syntax::ast::{ParamList, Path, Type_};
use hir_syntax::items::{Fn, TypeAlias};
use hir_tables::table::TableEnv;

/// What the root of a document has to be.
#[derive(Clone, Copy, PartialEq, Eq)]
pub enum Root {
    Fn,
    Path,
    /// A type, or nothing at all.
    Type_,
    /// A pattern, or nothing at all.
    Pat,
}

/// The tree of a document, by its root.
pub enum Tree {
    Fn(Fn),
    Path(Path),
    Type_(Option<Type_>),
    /// The pattern in the only parameter of a function. Parameter and list have the last of all numbers.
    Pat(ParamList),
}

impl Drop for Tree {
    fn drop(self) {
        match self {
            Tree::Fn(_) => {}
            Tree::Path(_) => {}
            Tree::Type_(_) => {}
            Tree::Pat(_) => {}
        }
    }
}

/// What a path may stand for: an alias of a type, by its number.
pub struct Alias {
    pub id: TypeAliasId,
    pub item: TypeAlias,
}

impl Drop for Alias {
    fn drop(self) {
        let Alias { id: _, item: _ } = self;
    }
}

/// A tree with its owner and its environment. File, module and item have the number 0.
#[derive(Drop)]
pub struct Document {
    pub tree: Tree,
    pub owner: DefWithBodyId,
    /// Whether the listing names the nodes that things come from.
    pub sources: bool,
    /// The mode that a path is lowered in. A body is always analysed.
    pub mode: LoweringMode,
    /// The tables of answers, among them whether the body is skipped, and what its owner stands in.
    pub env: TableEnv,
    /// The aliases that the environment names, in order. Of those with one number the first counts. They are no part of its tables,
    /// which hold what they are lowered to.
    pub aliases: Seq<Alias>,
}

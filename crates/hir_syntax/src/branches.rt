//! What stands in a `match` and behind a `let`.

use crate::ast::{BlockExpr, Expr};
use crate::pats::Pat;
use hir_base::Boxed;
use hir_base::node::{NodeId, TextRange};

/// An arm of a `match`.
#[cycle(ast)]
pub struct MatchArm {
    pub id: NodeId,
    pub range: TextRange,
    pub pat: Option<Boxed<Pat>>,
    pub guard: Option<Guard>,
    pub expr: Option<Boxed<Expr>>,
}

impl Drop for MatchArm {
    #[cycle(ast_drop)]
    fn drop(self) {
        let MatchArm {
            id: _,
            range: _,
            pat: _,
            guard: _,
            expr: _,
        } = self;
    }
}

/// The condition behind the pattern of an arm.
pub type Guard = Option<Boxed<Expr>>;

/// The block behind the `else` of a `let`.
pub type LetElse = Option<Boxed<BlockExpr>>;

//! Macro calls, and what they are expanded to.

use crate::ast::{Expr, Path, Stmt};
use crate::pats::Pat;
use crate::types::Type_;
use hir_base::node::{NodeId, TextRange};
use hir_base::{Boxed, Seq};

/// A macro call. Its path is for those who expand it.
#[cycle(ast)]
pub struct MacroCall {
    pub id: NodeId,
    pub range: TextRange,
    pub path: Option<Boxed<Path>>,
}

impl Drop for MacroCall {
    #[cycle(ast_drop)]
    fn drop(self) {
        let MacroCall {
            id: _,
            range: _,
            path: _,
        } = self;
    }
}

/// Statements, and an expression behind them.
pub struct MacroStmts {
    pub id: NodeId,
    pub range: TextRange,
    pub stmts: Seq<Stmt>,
    pub expr: Option<Boxed<Expr>>,
}

impl Drop for MacroStmts {
    fn drop(self) {
        let MacroStmts {
            id: _,
            range: _,
            stmts: _,
            expr: _,
        } = self;
    }
}

/// What a macro call is expanded to.
#[derive(Drop)]
pub enum Fragment {
    Expr(Boxed<Expr>),
    Stmts(Boxed<MacroStmts>),
    Pat(Boxed<Pat>),
    Type_(Boxed<Type_>),
}

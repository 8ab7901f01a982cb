//! Labels, and the jumps to them.

ghost use Rattle.hir_env.specs.ResolvedTree as tree;
ghost use Rattle.hir_env.specs.Whole.{jump_part};
ghost use Rattle.hir_lower_builder.specs.Methods.{LowersExpr};

use crate::part::ExprPart;
use hir_base::node::{AstPtr, InFile};
use hir_lower_builder::builder::BodyBuilder;
use hir_lower_builder::parts::{LowerAll, Lowerer};
use hir_lower_builder::store_sink::StoreSink;
use hir_store::error::StoreError;
use hir_store::hir::Expr;
use hir_store::ids::ExprId;
use hir_syntax::ast;

/// A `continue`. Where its label has no target, that is told, and it has none.
#[tactic(auto, unfolding(hir_lower_builder::specs::Forms::continue_form))]
#[inline(never)]
pub fn continue_form<I: StoreSink, P: LowerAll<I>>(
    lowerer: &Lowerer<P>,
    state: &mut BodyBuilder<I>,
    at: InFile<AstPtr>,
    lifetime: &Option<ast::Lifetime>,
) -> Result<ExprId, StoreError>
    ensures { LowersExpr (tree.continue_expr at (jump_part (P.rctx lowerer.now.parts) lifetime.now)) state.old result state.new }
{
    let label = lowerer.jump_target(state, lifetime)?;
    state.alloc_expr(Expr::Continue { label }, Some(at))
}

/// A `break`: its target first, then its value. Where its label has no target, that is told, and it has none.
#[tactic(auto, unfolding(hir_lower_builder::specs::Forms::break_form))]
#[inline(never)]
pub fn break_form<I: StoreSink, P: LowerAll<I>, E: ExprPart>(
    lowerer: &Lowerer<P>,
    state: &mut BodyBuilder<I>,
    at: InFile<AstPtr>,
    lifetime: &Option<ast::Lifetime>,
    value: &E,
) -> Result<ExprId, StoreError>
    requires { E.can (P.can lowerer.now.parts) value.now }
    ensures { LowersExpr (tree.break_expr at
        (jump_part (P.rctx lowerer.now.parts) lifetime.now)
        (E.read (P.rctx lowerer.now.parts) value.now)) state.old result state.new }
{
    let label = lowerer.jump_target(state, lifetime)?;
    let expr = value.lower_if_present(lowerer, state)?;
    state.alloc_expr(Expr::Break { label, expr }, Some(at))
}

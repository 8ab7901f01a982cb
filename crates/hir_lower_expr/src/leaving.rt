//! What leaves the body, and what comes back to it.

ghost use Rattle.hir_env.specs.ResolvedTree as tree;
ghost use Rattle.hir_lower_builder.specs.Methods.{LowersExpr};

use crate::part::ExprPart;
use hir_base::node::{AstPtr, InFile};
use hir_lower_builder::builder::BodyBuilder;
use hir_lower_builder::parts::{LowerAll, Lowerer};
use hir_lower_builder::store_sink::StoreSink;
use hir_store::error::StoreError;
use hir_store::hir::Expr;
use hir_store::ids::ExprId;

/// A `return`, with its value if it has one.
#[tactic(auto, unfolding(hir_lower_builder::specs::Forms::value_form))]
#[inline(never)]
pub fn return_form<I: StoreSink, P: LowerAll<I>, E: ExprPart>(
    lowerer: &Lowerer<P>,
    state: &mut BodyBuilder<I>,
    at: InFile<AstPtr>,
    value: &E,
) -> Result<ExprId, StoreError>
    requires { E.can (P.can lowerer.now.parts) value.now }
    ensures { LowersExpr (tree.leaving_expr at
        tree.returning
        (E.read (P.rctx lowerer.now.parts) value.now)) state.old result state.new }
{
    let expr = value.lower_if_present(lowerer, state)?;
    state.alloc_expr(Expr::Return { expr }, Some(at))
}

/// A `do yeet`, with its value if it has one.
#[tactic(auto, unfolding(hir_lower_builder::specs::Forms::value_form))]
#[inline(never)]
pub fn yeet_form<I: StoreSink, P: LowerAll<I>, E: ExprPart>(
    lowerer: &Lowerer<P>,
    state: &mut BodyBuilder<I>,
    at: InFile<AstPtr>,
    value: &E,
) -> Result<ExprId, StoreError>
    requires { E.can (P.can lowerer.now.parts) value.now }
    ensures { LowersExpr (tree.leaving_expr at
        tree.yeeting
        (E.read (P.rctx lowerer.now.parts) value.now)) state.old result state.new }
{
    let expr = value.lower_if_present(lowerer, state)?;
    state.alloc_expr(Expr::Yeet { expr }, Some(at))
}

/// A `yield`, with its value if it has one. It is noted before its value is lowered.
#[tactic(auto, unfolding(hir_lower_builder::specs::Forms::yield_form))]
#[inline(never)]
pub fn yield_form<I: StoreSink, P: LowerAll<I>, E: ExprPart>(
    lowerer: &Lowerer<P>,
    state: &mut BodyBuilder<I>,
    at: InFile<AstPtr>,
    value: &E,
) -> Result<ExprId, StoreError>
    requires { E.can (P.can lowerer.now.parts) value.now }
    ensures { LowersExpr (tree.yield_expr at (E.read (P.rctx lowerer.now.parts) value.now)) state.old result state.new }
{
    state.track_yield();
    let expr = value.lower_if_present(lowerer, state)?;
    state.alloc_expr(Expr::Yield { expr }, Some(at))
}

/// The call that it becomes is missing where it is absent.
#[tactic(auto, unfolding(hir_lower_builder::specs::Forms::operand_form))]
#[inline(never)]
pub fn become_form<I: StoreSink, P: LowerAll<I>, E: ExprPart>(
    lowerer: &Lowerer<P>,
    state: &mut BodyBuilder<I>,
    at: InFile<AstPtr>,
    call: &E,
) -> Result<ExprId, StoreError>
    requires { E.can (P.can lowerer.now.parts) call.now }
    ensures { LowersExpr (tree.become_expr at (E.read (P.rctx lowerer.now.parts) call.now)) state.old result state.new }
{
    let expr = call.lower(lowerer, state)?;
    state.alloc_expr(Expr::Become { expr }, Some(at))
}

//! Assignments, and which binary expressions are none.

ghost use Rattle.hir_env.specs.ResolvedTree as tree;
ghost use Rattle.hir_env.specs.Answering.{bin_expr};
ghost use Rattle.hir_env.specs.Targets.{resolves, target_of};
ghost use Rattle.hir_lower_builder.specs.Methods.{LowersExpr};

use crate::operators::binary_form;
use crate::part::ExprPart;
use hir_base::node::{AstPtr, InFile};
use hir_lower_builder::builder::BodyBuilder;
use hir_lower_builder::parts::{LowerAll, Lowerer};
use hir_lower_builder::store_sink::StoreSink;
use hir_store::error::StoreError;
use hir_store::hir::Expr;
use hir_store::ids::ExprId;
use hir_syntax::ast;

/// The target before the value, which is read first where it runs.
#[tactic(auto, unfolding(hir_lower_builder::specs::Forms::assign_form))]
#[inline(never)]
pub(crate) fn assign_form<I: StoreSink, P: LowerAll<I>, E: ExprPart>(
    lowerer: &Lowerer<P>,
    state: &mut BodyBuilder<I>,
    at: InFile<AstPtr>,
    lhs: &E,
    rhs: &E,
) -> Result<ExprId, StoreError>
    requires lhs { E.can_assignee (P.can lowerer.now.parts) (P.rctx lowerer.now.parts).place lhs.now }
    requires rhs { E.can (P.can lowerer.now.parts) rhs.now }
    ensures { let rctx = P.rctx lowerer.now.parts in
        LowersExpr (tree.assign_expr at
        (E.read rctx lhs.now)
        (target_of (resolves rctx.answers rctx.place) (E.read rctx lhs.now))
        (E.read rctx rhs.now)) state.old result state.new }
{
    let target = lhs.lower_assignee(lowerer, state)?;
    let value = rhs.lower(lowerer, state)?;
    state.alloc_expr(Expr::Assignment { target, value }, Some(at))
}

/// By the operator: what is on the left of `=` is no operand.
#[inline(never)]
pub fn bin_form<I: StoreSink, P: LowerAll<I>, E: ExprPart>(
    lowerer: &Lowerer<P>,
    state: &mut BodyBuilder<I>,
    at: InFile<AstPtr>,
    op: Option<ast::BinaryOp>,
    lhs: &E,
    rhs: &E,
) -> Result<ExprId, StoreError>
    requires lhs { E.can (P.can lowerer.now.parts) lhs.now }
    requires rhs { E.can (P.can lowerer.now.parts) rhs.now }
    requires target { E.can_assignee (P.can lowerer.now.parts) (P.rctx lowerer.now.parts).place lhs.now }
    ensures { let rctx = P.rctx lowerer.now.parts in
        LowersExpr (bin_expr (resolves rctx.answers rctx.place) at op
        (E.read rctx lhs.now)
        (E.read rctx rhs.now)) state.old result state.new }
{
    match op {
        Some(ast::BinaryOp::Assign) => assign_form(lowerer, state, at, lhs, rhs),
        _ => binary_form(lowerer, state, at, op, lhs, rhs),
    }
}

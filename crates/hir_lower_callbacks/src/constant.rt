//! Constants: the lengths of arrays, and arguments.

ghost use Rattle.hir_store.specs.Range.{HasConst};
ghost use Rattle.hir_env.specs.ResolvedTree as tree;
ghost use Rattle.hir_env.specs.Whole.{resolved_expr, expr_part};
ghost use Rattle.hir_lower_builder.specs.Lower.{lower_rooted};
ghost use Rattle.hir_lower_builder.specs.Lowering.{Lowers};
ghost use Rattle.hir_lower_builder.specs.Methods.{LowersConstant, LowersExpr, LowersExprOpt};
ghost use Rattle.hir_lower_builder.specs.Nests.{IfPresent};
ghost use Rattle.hir_lower_callbacks.specs.Nests.{HandlesExpr};
ghost use Rattle.hir_lower_callbacks.specs.ResolveCtxs.{rctx_at};

use hir_env::ctx::LowerCtx;
use hir_env::env::LowerEnv;
use hir_lower_builder::builder::StoredBody;
use hir_store::error::StoreError;
use hir_store::ids::ExprId;
use hir_store::type_ref::ConstRef;
use hir_syntax::{Boxed, ast};
use std::alloc::Global;

/// The expression, missing where a condition disables it.
#[tactic(auto, using(hir_lower_builder::proofs::Kept::lower_on))]
fn expr_of<
    E: LowerEnv,
    F: Fn(Global, &E, LowerCtx, &mut StoredBody, &ast::Expr) -> Result<Option<ExprId>, StoreError>,
>(
    alloc: Global,
    env: &E,
    place: LowerCtx,
    state: &mut StoredBody,
    lower: &F,
    node: &ast::Expr,
) -> Result<ExprId, StoreError>
    requires { HandlesExpr E.answers (F.pre lower.now) (F.post lower.now) env.now place node.now }
    ensures { LowersExpr (resolved_expr (rctx_at (E.answers env.now) place) node.now) state.old result state.new }
{
    match lower(alloc, env, place, state, node)? {
        Some(id) => Ok(id),
        None => state.missing_expr(),
    }
}

/// The expression, missing where it is absent or a condition disables it.
fn expr_or_missing<
    E: LowerEnv,
    F: Fn(Global, &E, LowerCtx, &mut StoredBody, &ast::Expr) -> Result<Option<ExprId>, StoreError>,
>(
    alloc: Global,
    env: &E,
    place: LowerCtx,
    state: &mut StoredBody,
    lower: &F,
    expr: &Option<Boxed<ast::Expr>>,
) -> Result<ExprId, StoreError>
    requires { IfPresent (HandlesExpr E.answers (F.pre lower.now) (F.post lower.now) env.now place) expr.now }
    ensures { LowersExprOpt (expr_part (rctx_at (E.answers env.now) place) expr.now) state.old result state.new }
{
    match expr {
        None => state.missing_expr(),
        Some(expr) => expr_of(alloc, env, place, state, lower, expr.get()),
    }
}

/// The expression, read at this place, as a constant: no jump in it reaches what is open around it, and it is recorded as a
/// root unless one is being lowered.
#[tactic(auto, unfolding(hir_lower_builder::specs::Forms::constant_form))]
fn rooted_constant<
    E: LowerEnv,
    F: Fn(Global, &E, LowerCtx, &mut StoredBody, &ast::Expr) -> Result<Option<ExprId>, StoreError>,
>(
    alloc: Global,
    env: &E,
    place: LowerCtx,
    state: &mut StoredBody,
    lower: &F,
    expr: &Option<Boxed<ast::Expr>>,
) -> Result<ConstRef, StoreError>
    requires { IfPresent (HandlesExpr E.answers (F.pre lower.now) (F.post lower.now) env.now place) expr.now }
    ensures { let part = expr_part (rctx_at (E.answers env.now) place) expr.now in
        Lowers HasConst (lower_rooted (tree.constant part)) state.old result state.new }
{
    let outside = state.open_barrier()?;
    let outer = state.enter_root();
    let id = expr_or_missing(alloc, env, place, state, lower, expr)?;
    let _ = state.close_barrier(outside);
    state.leave_root(outer, id)?;
    Ok(ConstRef { expr: id })
}

/// The same, which owns the bindings that are made in it.
#[tactic(auto, unfolding(hir_lower_builder::specs::Lowering::owning))]
pub fn constant_form<
    E: LowerEnv,
    F: Fn(Global, &E, LowerCtx, &mut StoredBody, &ast::Expr) -> Result<Option<ExprId>, StoreError>,
>(
    alloc: Global,
    env: &E,
    place: LowerCtx,
    state: &mut StoredBody,
    lower: &F,
    expr: &Option<Boxed<ast::Expr>>,
) -> Result<ConstRef, StoreError>
    requires { IfPresent (HandlesExpr E.answers (F.pre lower.now) (F.post lower.now) env.now place) expr.now }
    ensures { LowersConstant (tree.constant (expr_part (rctx_at (E.answers env.now) place) expr.now)) state.old result state.new }
{
    let start = state.bindings_end();
    let constant = rooted_constant(alloc, env, place, state, lower, expr)?;
    state.own(start, constant.expr);
    Ok(constant)
}

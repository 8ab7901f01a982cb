//! What items hold besides types and paths: bounds and constants.

ghost use Rattle.hir_store.specs.Range.{HasBound};
ghost use Rattle.hir_env.specs.Whole.{resolved_bound};
ghost use Rattle.hir_lower_builder.specs.Lower.{lower_bound as bound_steps};
ghost use Rattle.hir_lower_builder.specs.Lowering.{Lowers};
ghost use Rattle.hir_lower_builder.specs.Methods.{LowersConstant, constant_at};
ghost use Rattle.hir_lower_callbacks.specs.ResolveCtxs.{rctx_at};

use crate::knot::{
    collect_block_inside, lower_arg_list, lower_type_node, maybe_collect_expr, read_path_segments,
};
use crate::nodes;
use hir_env::ctx::LowerCtx;
use hir_env::env::LowerEnv;
use hir_lower_builder::builder::StoredBody;
use hir_lower_callbacks::callbacks::Callbacks;
use hir_lower_callbacks::lower_callbacks::LowerCallbacks;
use hir_store::error::StoreError;
use hir_store::type_ref::{ConstRef, TypeBound};
use hir_syntax::{Boxed, ast};
use std::alloc::Global;

/// The bound.
pub fn lower_bound<E: LowerEnv>(
    alloc: Global,
    env: &E,
    place: LowerCtx,
    state: &mut StoredBody,
    node: &ast::TypeBound,
) -> Result<TypeBound, StoreError>
    ensures { Lowers HasBound (bound_steps (resolved_bound (rctx_at (E.answers env.now) place) node.now)) state.old result state.new }
{
    let callbacks = Callbacks {
        alloc,
        env,
        place,
        expr: maybe_collect_expr::<E>,
        block: collect_block_inside::<E>,
        path: read_path_segments::<E>,
        type_ref: lower_type_node::<E>,
        args: lower_arg_list::<E>,
    };
    nodes::bound_node(alloc, &callbacks, state, place, node)
}

/// The constant with this expression, which is missing where it is absent or a condition disables it.
pub fn lower_constant<E: LowerEnv>(
    alloc: Global,
    env: &E,
    place: LowerCtx,
    state: &mut StoredBody,
    expr: &Option<Boxed<ast::Expr>>,
) -> Result<ConstRef, StoreError>
    ensures { LowersConstant (constant_at (rctx_at (E.answers env.now) place) expr.now) state.old result state.new }
{
    let parts = Callbacks {
        alloc,
        env,
        place,
        expr: maybe_collect_expr::<E>,
        block: collect_block_inside::<E>,
        path: read_path_segments::<E>,
        type_ref: lower_type_node::<E>,
        args: lower_arg_list::<E>,
    };
    parts.collect_constant(state, place, expr)
}

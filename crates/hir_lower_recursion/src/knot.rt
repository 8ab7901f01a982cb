//! The functions that lower a node call each other through the forms: each hands the others to the forms by name.

ghost use Rattle.hir_env.specs.ResolvedTree.{some_arg_list, some_path};
ghost use Rattle.hir_env.specs.TypePats.{bare_part};
ghost use Rattle.hir_env.specs.Whole.{resolved_expr, resolved_arg_list, resolved_path, resolved_path_as, resolved_plain, resolved_type};
ghost use Rattle.hir_env.specs.Whole.{pat_part};
ghost use Rattle.hir_lower_builder.specs.Methods.{HasRole, HasWalk, LowersArgs, LowersExpr, LowersInside, LowersPath};
ghost use Rattle.hir_lower_builder.specs.Methods.{LowersTop, LowersType, MaybeLowersExpr, ReadsPath};
ghost use Rattle.hir_lower_callbacks.specs.ResolveCtxs.{rctx_at};

use crate::nodes;
use hir_env::ctx::LowerCtx;
use hir_env::env::LowerEnv;
use hir_lower_builder::builder::StoredBody;
use hir_lower_builder::parts::BlockRole;
use hir_lower_builder::walk::{PathWalk, Reading};
use hir_lower_callbacks::callbacks::Callbacks;
use hir_lower_callbacks::numbers::enter;
use hir_store::error::StoreError;
use hir_store::ids::{ExprId, PatId, TypeRefId};
use hir_store::name::Name;
use hir_store::path::{GenericArgs, Path};
use hir_syntax::{Boxed, Seq, ast};
use std::alloc::Global;

/// The expression, none where a condition disables it.
#[cycle(lower)]
pub fn maybe_collect_expr<E: LowerEnv>(
    alloc: Global,
    env: &E,
    place: LowerCtx,
    state: &mut StoredBody,
    node: &ast::Expr,
) -> Result<Option<ExprId>, StoreError>
    ensures { MaybeLowersExpr (resolved_expr (rctx_at (E.answers env.now) place) node.now) state.old result state.new }
{
    let callbacks = Callbacks {
        alloc,
        env,
        place,
        expr: maybe_collect_expr::<E>,
        block: collect_block_inside::<E>,
        path: read_path_segments::<E>,
        type_ref: lower_type_node::<E>,
        args: lower_arg_list::<E>,
    };
    nodes::expr_node(alloc, &callbacks, state, node)
}

/// The block, as one of this role.
#[cycle(lower)]
pub fn collect_block_inside<E: LowerEnv>(
    alloc: Global,
    env: &E,
    place: LowerCtx,
    state: &mut StoredBody,
    role: BlockRole,
    node: &ast::BlockExpr,
) -> Result<ExprId, StoreError>
    requires { HasRole state.old.stored role }
    ensures { LowersInside role (resolved_plain (rctx_at (E.answers env.now) place) node.now) state.old result state.new }
{
    let mut callbacks = Callbacks {
        alloc,
        env,
        place,
        expr: maybe_collect_expr::<E>,
        block: collect_block_inside::<E>,
        path: read_path_segments::<E>,
        type_ref: lower_type_node::<E>,
        args: lower_arg_list::<E>,
    };
    let block = enter(env, &mut callbacks.place, node.id);
    nodes::block_node(alloc, &callbacks, state, role, block, node)
}

/// Goes on with the segments of the path, which is read alone or as the use tree around another one, and then with those of the use
/// tree around it.
#[cycle(lower)]
pub fn read_path_segments<E: LowerEnv>(
    alloc: Global,
    env: &E,
    place: LowerCtx,
    state: &mut StoredBody,
    walk: PathWalk,
    alone: bool,
    node: &ast::Path,
) -> Result<Reading, StoreError>
    requires { HasWalk state.old.stored walk }
    ensures { ReadsPath (resolved_path_as alone (rctx_at (E.answers env.now) place) node.now) walk state.old result state.new }
{
    let callbacks = Callbacks {
        alloc,
        env,
        place,
        expr: maybe_collect_expr::<E>,
        block: collect_block_inside::<E>,
        path: read_path_segments::<E>,
        type_ref: lower_type_node::<E>,
        args: lower_arg_list::<E>,
    };
    nodes::path_node(alloc, &callbacks, state, walk, alone, node)
}

/// The type, with the binder of a `for` that stands directly around it.
#[cycle(lower)]
pub fn lower_type_node<E: LowerEnv>(
    alloc: Global,
    env: &E,
    place: LowerCtx,
    state: &mut StoredBody,
    binder: &Option<Seq<Name>>,
    node: &ast::Type_,
) -> Result<TypeRefId, StoreError>
    ensures { LowersType binder.now (resolved_type (rctx_at (E.answers env.now) place) node.now) state.old result state.new }
{
    let callbacks = Callbacks {
        alloc,
        env,
        place,
        expr: maybe_collect_expr::<E>,
        block: collect_block_inside::<E>,
        path: read_path_segments::<E>,
        type_ref: lower_type_node::<E>,
        args: lower_arg_list::<E>,
    };
    nodes::type_node(alloc, &callbacks, state, binder, node)
}

/// The list of arguments, or none where it has neither an argument nor a binding.
#[cycle(lower)]
pub fn lower_arg_list<E: LowerEnv>(
    alloc: Global,
    env: &E,
    place: LowerCtx,
    state: &mut StoredBody,
    node: &ast::GenericArgList,
) -> Result<Option<GenericArgs>, StoreError>
    ensures { let at = rctx_at (E.answers env.now) place in
        LowersArgs (some_arg_list (resolved_arg_list at node.now)) state.old result state.new }
{
    let callbacks = Callbacks {
        alloc,
        env,
        place,
        expr: maybe_collect_expr::<E>,
        block: collect_block_inside::<E>,
        path: read_path_segments::<E>,
        type_ref: lower_type_node::<E>,
        args: lower_arg_list::<E>,
    };
    nodes::args_node(alloc, &callbacks, state, node)
}

/// The path, or none where it is refused.
pub fn lower_path<E: LowerEnv>(
    alloc: Global,
    env: &E,
    place: LowerCtx,
    state: &mut StoredBody,
    node: &ast::Path,
) -> Result<Option<Path>, StoreError>
    ensures { LowersPath (some_path (resolved_path (rctx_at (E.answers env.now) place) node.now)) state.old result state.new }
{
    let callbacks = Callbacks {
        alloc,
        env,
        place,
        expr: maybe_collect_expr::<E>,
        block: collect_block_inside::<E>,
        path: read_path_segments::<E>,
        type_ref: lower_type_node::<E>,
        args: lower_arg_list::<E>,
    };
    nodes::lower_path(alloc, &callbacks, state, place, node)
}

/// The expression, missing where a condition disables it.
#[tactic(auto, using(hir_lower_builder::proofs::Kept::lower_on))]
pub fn collect_expr<E: LowerEnv>(
    alloc: Global,
    env: &E,
    place: LowerCtx,
    state: &mut StoredBody,
    node: &ast::Expr,
) -> Result<ExprId, StoreError>
    ensures { LowersExpr (resolved_expr (rctx_at (E.answers env.now) place) node.now) state.old result state.new }
{
    match maybe_collect_expr(alloc, env, place, state, node)? {
        Some(id) => Ok(id),
        None => state.missing_expr(),
    }
}

/// A whole pattern, missing where it is absent.
pub fn top_pat<E: LowerEnv>(
    alloc: Global,
    env: &E,
    place: LowerCtx,
    state: &mut StoredBody,
    part: &Option<Boxed<ast::Pat>>,
) -> Result<PatId, StoreError>
    ensures { LowersTop (pat_part (rctx_at (E.answers env.now) place) part.now) state.old result state.new }
{
    let callbacks = Callbacks {
        alloc,
        env,
        place,
        expr: maybe_collect_expr::<E>,
        block: collect_block_inside::<E>,
        path: read_path_segments::<E>,
        type_ref: lower_type_node::<E>,
        args: lower_arg_list::<E>,
    };
    nodes::top_pat(alloc, &callbacks, state, part)
}

/// The pattern of a parameter that may only be a plain name, which binds whatever it stands for elsewhere, or `_`: missing where it is
/// absent.
pub fn bare_top<E: LowerEnv>(
    alloc: Global,
    env: &E,
    place: LowerCtx,
    state: &mut StoredBody,
    part: &Option<Boxed<ast::Pat>>,
) -> Result<PatId, StoreError>
    ensures { LowersTop (bare_part (pat_part (rctx_at (E.answers env.now) place) part.now)) state.old result state.new }
{
    let callbacks = Callbacks {
        alloc,
        env,
        place,
        expr: maybe_collect_expr::<E>,
        block: collect_block_inside::<E>,
        path: read_path_segments::<E>,
        type_ref: lower_type_node::<E>,
        args: lower_arg_list::<E>,
    };
    nodes::bare_top(alloc, &callbacks, state, part)
}

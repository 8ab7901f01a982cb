//! What a node is lowered to by what handles its parts, which is a type parameter here: what a form wants of it is owed of no function
//! of the knot.

ghost use Rattle.hir_syntax.specs.declared.ast.BlockExpr.{out-BlockExpr};
ghost use Rattle.hir_syntax.specs.declared.ast.ExprKind.{out-ExprKind};
ghost use Rattle.hir_syntax.specs.declared.ast.Path.{out-Path};
ghost use Rattle.hir_syntax.specs.declared.types.TypeBound.{out-TypeBound};
ghost use Rattle.hir_syntax.specs.declared.types.TypeKind.{out-TypeKind};
ghost use Rattle.hir_store.specs.Range.{HasBound, HasExpr};
ghost use Rattle.hir_env.specs.ResolvedTree.{some_arg_list, some_path};
ghost use Rattle.hir_env.specs.TypePats.{bare_part};
ghost use Rattle.hir_env.specs.Whole.{resolved_bound, resolved_path, arg_list_level, asked_expr, pat_part, path_level_as, type_level};
ghost use Rattle.hir_lower_builder.specs.Lower as spec;
ghost use Rattle.hir_lower_builder.specs.Lowering.{Lowers};
ghost use Rattle.hir_lower_builder.specs.Methods.{HasRole, HasWalk, LowersArgs, LowersPath, LowersTop, LowersType, MaybeLowersExpr};
ghost use Rattle.hir_lower_builder.specs.Methods.{ReadsPath, at_place, block_steps_at};
ghost use Rattle.hir_lower_builder.specs.Nests.{IfPresent, KidsArgs, KidsBlock, KidsBound, KidsExpr, KidsPath, KidsType};

use hir_env::ctx::LowerCtx;
use hir_lower_bind::{bare, top};
use hir_lower_builder::builder::StoredBody;
use hir_lower_builder::parts::{BlockRole, Lowerer};
use hir_lower_builder::walk::{PathWalk, Reading};
use hir_lower_callbacks::by::ViaCallbacks;
use hir_lower_callbacks::lower_callbacks::LowerCallbacks;
use hir_lower_dispatch::exprs;
use hir_lower_expr::blocks;
use hir_lower_path::path;
use hir_lower_type::{args, bounds, types};
use hir_store::error::StoreError;
use hir_store::ids::{BlockId, ExprId, PatId, TypeRefId};
use hir_store::name::Name;
use hir_store::path::{GenericArgs, Path};
use hir_store::type_ref::TypeBound;
use hir_syntax::{Boxed, Seq, ast};
use std::alloc::Global;

/// The expression, none where a condition disables it.
pub fn expr_node<H: LowerCallbacks>(
    alloc: Global,
    by: &H,
    state: &mut StoredBody,
    node: &ast::Expr,
) -> Result<Option<ExprId>, StoreError>
    requires { KidsExpr (H.can by.now) (H.rctx by.now).place (out-ExprKind node.now.kind) }
    ensures { MaybeLowersExpr (asked_expr (H.rctx by.now) node.now) state.old result state.new }
{
    let parts = ViaCallbacks { alloc, by: *by };
    exprs::expr_node(&Lowerer { alloc, parts }, state, node)
}

/// A block that is read here, of this role.
pub fn block_node<H: LowerCallbacks>(
    alloc: Global,
    by: &H,
    state: &mut StoredBody,
    role: BlockRole,
    number: Option<BlockId>,
    node: &ast::BlockExpr,
) -> Result<ExprId, StoreError>
    requires parts { KidsBlock (H.can by.now) (H.rctx by.now).place (out-BlockExpr node.now) }
    requires role { HasRole state.old.stored role }
    ensures { Lowers HasExpr (block_steps_at (H.rctx by.now) role number node.now) state.old result state.new }
{
    let parts = ViaCallbacks { alloc, by: *by };
    blocks::block_node(&Lowerer { alloc, parts }, state, role, number, node)
}

/// Goes on with the segments of a path that is read here, alone or as the use tree around another one, and then with those of the use
/// tree around it.
pub fn path_node<H: LowerCallbacks>(
    alloc: Global,
    by: &H,
    state: &mut StoredBody,
    walk: PathWalk,
    alone: bool,
    node: &ast::Path,
) -> Result<Reading, StoreError>
    requires parts { KidsPath (H.can by.now) (H.rctx by.now).place (out-Path node.now) }
    requires walk { HasWalk state.old.stored walk }
    ensures { ReadsPath (path_level_as alone (H.rctx by.now) node.now) walk state.old result state.new }
{
    let parts = ViaCallbacks { alloc, by: *by };
    path::path_node(&Lowerer { alloc, parts }, state, walk, alone, node)
}

/// A type that is read here, with the names of the `for<..>` directly around it, where one stands there.
pub fn type_node<H: LowerCallbacks>(
    alloc: Global,
    by: &H,
    state: &mut StoredBody,
    binder: &Option<Seq<Name>>,
    node: &ast::Type_,
) -> Result<TypeRefId, StoreError>
    requires { KidsType (H.can by.now) (H.rctx by.now).place (out-TypeKind node.now.kind) }
    ensures { LowersType binder.now (type_level (H.rctx by.now) node.now) state.old result state.new }
{
    let parts = ViaCallbacks { alloc, by: *by };
    types::type_node(&Lowerer { alloc, parts }, state, binder, node)
}

/// The arguments of a list that is read here, or none where it yields nothing.
pub fn args_node<H: LowerCallbacks>(
    alloc: Global,
    by: &H,
    state: &mut StoredBody,
    node: &ast::GenericArgList,
) -> Result<Option<GenericArgs>, StoreError>
    requires { KidsArgs (H.can by.now) (H.rctx by.now).place node.now }
    ensures { LowersArgs (some_arg_list (arg_list_level (H.rctx by.now) node.now)) state.old result state.new }
{
    let parts = ViaCallbacks { alloc, by: *by };
    args::args_node(&Lowerer { alloc, parts }, state, node)
}

/// A bound, read at this place.
pub fn bound_node<H: LowerCallbacks>(
    alloc: Global,
    by: &H,
    state: &mut StoredBody,
    place: LowerCtx,
    node: &ast::TypeBound,
) -> Result<TypeBound, StoreError>
    requires { KidsBound (H.can by.now) place (out-TypeBound node.now) }
    ensures { let read = resolved_bound (at_place (H.rctx by.now) place) node.now in
        Lowers HasBound (spec.lower_bound read) state.old result state.new }
{
    let parts = ViaCallbacks { alloc, by: *by };
    bounds::bound_node(&Lowerer { alloc, parts }, state, place, node)
}

/// The whole path, read at this place, or none where it is refused.
pub fn lower_path<H: LowerCallbacks>(
    alloc: Global,
    by: &H,
    state: &mut StoredBody,
    place: LowerCtx,
    node: &ast::Path,
) -> Result<Option<Path>, StoreError>
    requires { (H.can by.now).path place node.now }
    ensures { LowersPath (some_path (resolved_path (at_place (H.rctx by.now) place) node.now)) state.old result state.new }
{
    let parts = ViaCallbacks { alloc, by: *by };
    Lowerer { alloc, parts }.lower_path(state, place, node)
}

/// A whole pattern, missing where it is absent. Each name of it gets one binding, and this the problem that it shows.
pub fn top_pat<H: LowerCallbacks>(
    alloc: Global,
    by: &H,
    state: &mut StoredBody,
    part: &Option<Boxed<ast::Pat>>,
) -> Result<PatId, StoreError>
    requires { IfPresent ((H.can by.now).pat (H.rctx by.now).place) part.now }
    ensures { LowersTop (pat_part (H.rctx by.now) part.now) state.old result state.new }
{
    let parts = ViaCallbacks { alloc, by: *by };
    top::top_pat(&Lowerer { alloc, parts }, state, part)
}

/// The pattern of a parameter that may only be a plain name or `_`, missing where it is absent.
pub fn bare_top<H: LowerCallbacks>(
    alloc: Global,
    by: &H,
    state: &mut StoredBody,
    part: &Option<Boxed<ast::Pat>>,
) -> Result<PatId, StoreError>
    requires { IfPresent ((H.can by.now).pat (H.rctx by.now).place) part.now }
    ensures { LowersTop (bare_part (pat_part (H.rctx by.now) part.now)) state.old result state.new }
{
    let parts = ViaCallbacks { alloc, by: *by };
    bare::bare_top(&Lowerer { alloc, parts }, state, part)
}

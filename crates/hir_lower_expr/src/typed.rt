//! Expressions with a path or a type.

ghost use Rattle.std.specs.Prelude.{◌≡◌, IfOk, Some};
ghost use Rattle.hir_store.specs.Range.{HasExpr, HasPathOption};
ghost use Rattle.hir_env.specs.ResolvedTree as tree;
ghost use Rattle.hir_env.specs.Answering.{names_of, site_of};
ghost use Rattle.hir_lower_builder.specs.Forms.{path_or_missing};
ghost use Rattle.hir_lower_builder.specs.Lowering as step;
ghost use Rattle.hir_lower_builder.specs.Lowering.{Lowers};
ghost use Rattle.hir_lower_builder.specs.Methods.{LowersExpr};

use crate::part::{ExprPart, PathPart, TypePart};
use hir_base::node::{AstPtr, InFile};
use hir_lower_builder::builder::BodyBuilder;
use hir_lower_builder::names::{names_of, path_expr};
use hir_lower_builder::parts::{LowerAll, Lowerer, site};
use hir_lower_builder::store_sink::StoreSink;
use hir_store::error::StoreError;
use hir_store::hir::Expr;
use hir_store::ids::{ExprId, HygieneId};
use hir_store::name::Name;
use hir_store::path::Path;
use hir_syntax::{Seq, ast};
use std::alloc::{AllocError, Global};

/// What was read of a path, which is missing where it is absent or refused.
fn read_path_expr<I: StoreSink>(
    state: &mut BodyBuilder<I>,
    at: InFile<AstPtr>,
    path: Option<Path>,
    hygiene: HygieneId,
) -> Result<ExprId, StoreError>
    requires { HasPathOption state.old.stored path }
    ensures { Lowers HasExpr (step.alloc_expr (path_or_missing hygiene path) (Some at)) state.old result state.new }
{
    state.alloc_expr(path_expr(path, hygiene), Some(at))
}

/// A path that is absent or refused is missing.
#[tactic(auto, unfolding(hir_lower_builder::specs::Forms::path_form))]
#[inline(never)]
pub fn path_form<I: StoreSink, P: LowerAll<I>, W: PathPart>(
    lowerer: &Lowerer<P>,
    state: &mut BodyBuilder<I>,
    at: InFile<AstPtr>,
    path: &W,
) -> Result<ExprId, StoreError>
    requires { W.can (P.can lowerer.now.parts) (P.rctx lowerer.now.parts).place path.now }
    ensures { let rctx = P.rctx lowerer.now.parts in
        LowersExpr (tree.path_expr at (W.read rctx path.now) (rctx.answers.hygiene (site_of at))) state.old result state.new }
{
    let hygiene = lowerer.parts.hygiene(site(at));
    let path = path.lower(lowerer, state)?;
    read_path_expr(state, at, path, hygiene)
}

/// A cast: what is cast, then the type.
#[tactic(auto, unfolding(hir_lower_builder::specs::Forms::cast_form))]
#[inline(never)]
pub fn cast_form<I: StoreSink, P: LowerAll<I>, E: ExprPart, T: TypePart>(
    lowerer: &Lowerer<P>,
    state: &mut BodyBuilder<I>,
    at: InFile<AstPtr>,
    operand: &E,
    ty: &T,
) -> Result<ExprId, StoreError>
    requires operand { E.can (P.can lowerer.now.parts) operand.now }
    requires ty { T.can (P.can lowerer.now.parts) (P.rctx lowerer.now.parts).place ty.now }
    ensures { let rctx = P.rctx lowerer.now.parts in
        LowersExpr (tree.cast_expr at (E.read rctx operand.now) (T.read rctx ty.now)) state.old result state.new }
{
    let expr = operand.lower(lowerer, state)?;
    let type_ref = ty.lower(lowerer, state)?;
    state.alloc_expr(Expr::Cast { expr, type_ref }, Some(at))
}

/// The names that lead to the field.
fn field_names(alloc: Global, names: &Seq<ast::Name>) -> Result<Seq<Name>, AllocError>
    ensures { IfOk result (λ ns. ns ≡ names_of names.now) }
{
    names_of(alloc, names.as_slice())
}

/// `offset_of!`: the type, then the names of the fields.
#[tactic(auto, unfolding(hir_lower_builder::specs::Forms::offset_of_form))]
#[inline(never)]
pub fn offset_of_form<I: StoreSink, P: LowerAll<I>, T: TypePart>(
    lowerer: &Lowerer<P>,
    state: &mut BodyBuilder<I>,
    at: InFile<AstPtr>,
    ty: &T,
    names: &Seq<ast::Name>,
) -> Result<ExprId, StoreError>
    requires { T.can (P.can lowerer.now.parts) (P.rctx lowerer.now.parts).place ty.now }
    ensures { let container = T.read (P.rctx lowerer.now.parts) ty.now in
        LowersExpr (tree.offset_of_expr at container (names_of names.now)) state.old result state.new }
{
    let container = ty.lower(lowerer, state)?;
    let fields = field_names(lowerer.alloc, names)?;
    state.alloc_expr(Expr::OffsetOf { container, fields }, Some(at))
}

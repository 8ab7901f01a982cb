//! `const` blocks, which are bodies of their own.

ghost use Rattle.std.specs.Prelude.{◌≡◌, None, false};
ghost use Rattle.hir_store.specs.Range.{HasConst, HasExpr};
ghost use Rattle.hir_env.specs.Paths as of;
ghost use Rattle.hir_env.specs.Whole.{in_const_block};
ghost use Rattle.hir_lower_builder.specs.Lower as spec;
ghost use Rattle.hir_lower_builder.specs.Lowering.{Lowers};
ghost use Rattle.hir_lower_builder.specs.Methods.{LowersInside};
ghost use Rattle.hir_lower_builder.specs.declared.parts.BlockRole.TheVariants as role;

use crate::stored::store_const;
use crate::written::WrittenBlock;
use hir_base::node::{AstPtr, InFile};
use hir_env::ctx::LowerCtx;
use hir_lower_builder::builder::BodyBuilder;
use hir_lower_builder::parts::{BlockRole, LowerAll, Lowerer};
use hir_lower_builder::store_sink::StoreSink;
use hir_store::diagnostics::AwaitLocation;
use hir_store::error::StoreError;
use hir_store::ids::ExprId;
use hir_store::type_ref::ConstRef;

/// Where what is in a `const` block is read that is written at this place.
fn inside_const_block(place: LowerCtx) -> LowerCtx
    ensures { result ≡ of.inside_const_block place }
{
    LowerCtx {
        await_location: Some(AwaitLocation::ConstantBlock),
        ..place
    }
}

/// The block in a `const` block, which is a plain one.
fn inner_block<I: StoreSink, P: LowerAll<I>, N: WrittenBlock>(
    lowerer: &Lowerer<P>,
    state: &mut BodyBuilder<I>,
    node: &N,
) -> Result<ExprId, StoreError>
    requires { N.can (P.can lowerer.now.parts) (of.inside_const_block (P.rctx lowerer.now.parts).place) node.now }
    ensures { let inside = in_const_block (P.rctx lowerer.now.parts) in
        LowersInside (role.Plain false None) (N.read inside node.now) state.old result state.new }
{
    let role = BlockRole::Plain {
        is_unsafe: false,
        label: None,
    };
    node.lower_inside(
        lowerer,
        state,
        inside_const_block(lowerer.parts.place()),
        role,
    )
}

/// The same as a constant: no jump in it reaches what is open around it.
#[tactic(auto, unfolding(hir_lower_builder::specs::Forms::constant_form))]
fn inner_constant<I: StoreSink, P: LowerAll<I>, N: WrittenBlock>(
    lowerer: &Lowerer<P>,
    state: &mut BodyBuilder<I>,
    node: &N,
) -> Result<ConstRef, StoreError>
    requires { N.can (P.can lowerer.now.parts) (of.inside_const_block (P.rctx lowerer.now.parts).place) node.now }
    ensures { let inside = in_const_block (P.rctx lowerer.now.parts) in
        let inner = spec.lower_inside (role.Plain false None) (N.read inside node.now) in
        Lowers HasConst (spec.constant_form inner) state.old result state.new }
{
    let outside = state.open_barrier()?;
    let outer = state.enter_root();
    let id = inner_block(lowerer, state, node)?;
    let _ = state.close_barrier(outside);
    state.leave_root(outer, id)?;
    Ok(ConstRef { expr: id })
}

/// The constant as an expression.
#[tactic(auto, unfolding(hir_lower_builder::specs::Forms::const_form))]
fn stored_const<I: StoreSink, P: LowerAll<I>, N: WrittenBlock>(
    lowerer: &Lowerer<P>,
    state: &mut BodyBuilder<I>,
    at: InFile<AstPtr>,
    node: &N,
) -> Result<ExprId, StoreError>
    requires { N.can (P.can lowerer.now.parts) (of.inside_const_block (P.rctx lowerer.now.parts).place) node.now }
    ensures { let rctx = P.rctx lowerer.now.parts in
        let inner = spec.lower_inside (role.Plain false None) (N.read (in_const_block rctx) node.now) in
        Lowers HasExpr (spec.const_form at (spec.constant_form inner)) state.old result state.new }
{
    let constant = inner_constant(lowerer, state, node)?;
    store_const(state, at, constant)
}

/// A `const` block, of which neither a label nor a type counts. It owns the bindings that are made in it.
///
/// `const { s; t }` becomes a constant, as the length of an array is one, around
///
/// ```text
/// { s; t }
/// ```
#[tactic(auto, unfolding(hir_lower_builder::specs::Lowering::owning))]
pub(crate) fn const_form<I: StoreSink, P: LowerAll<I>, N: WrittenBlock>(
    lowerer: &Lowerer<P>,
    state: &mut BodyBuilder<I>,
    at: InFile<AstPtr>,
    node: &N,
) -> Result<ExprId, StoreError>
    requires { N.can (P.can lowerer.now.parts) (of.inside_const_block (P.rctx lowerer.now.parts).place) node.now }
    ensures { let rctx = P.rctx lowerer.now.parts in
        let inner = spec.lower_inside (role.Plain false None) (N.read (in_const_block rctx) node.now) in
        let form = spec.const_form at (spec.constant_form inner) in
        Lowers HasExpr (spec.owning (λ i. i) form) state.old result state.new }
{
    let start = state.bindings_end();
    let id = stored_const(lowerer, state, at, node)?;
    state.own(start, id);
    Ok(id)
}

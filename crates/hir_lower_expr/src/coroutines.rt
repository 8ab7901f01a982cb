//! `async`, `gen` and `async gen` blocks: coroutines, whose blocks are bodies of their own.

ghost use Rattle.std.specs.Prelude.{◌≡◌, Some};
ghost use Rattle.hir_store.specs.Range.{HasExpr};
ghost use Rattle.hir_env.specs.Paths as of;
ghost use Rattle.hir_env.specs.Whole.{in_coroutine};
ghost use Rattle.hir_lower_builder.specs.Forms as form;
ghost use Rattle.hir_lower_builder.specs.Lower as spec;
ghost use Rattle.hir_lower_builder.specs.Lowering.{Lowers};
ghost use Rattle.hir_lower_builder.specs.Lowering as step;
ghost use Rattle.hir_lower_builder.specs.Methods.{LowersInside};
ghost use Rattle.hir_lower_builder.specs.declared.parts.BlockRole.TheVariants as role;

use crate::closures::capture_by;
use crate::written::WrittenBlock;
use hir_base::node::{AstPtr, InFile};
use hir_env::ctx::LowerCtx;
use hir_lower_builder::builder::BodyBuilder;
use hir_lower_builder::parts::{BlockRole, LowerAll, Lowerer};
use hir_lower_builder::store_sink::StoreSink;
use hir_store::diagnostics::AwaitLocation;
use hir_store::error::StoreError;
use hir_store::hir::{ClosureKind, CoroutineKind, CoroutineSource, Expr};
use hir_store::ids::ExprId;
use hir_syntax::Seq;
use std::alloc::Global;

/// Where what is in such a block is read that is written at this place.
fn inside_coroutine(kind: CoroutineKind, place: LowerCtx) -> LowerCtx
    ensures { result ≡ of.inside_coroutine kind place }
{
    let await_location = match kind {
        CoroutineKind::Async | CoroutineKind::AsyncGen => None,
        CoroutineKind::Gen => Some(AwaitLocation::NonAsyncGenBlock),
    };
    LowerCtx {
        await_location,
        ..place
    }
}

/// The coroutine around the block that is its body.
fn coroutine(alloc: Global, kind: CoroutineKind, moves: bool, body: ExprId) -> Expr
    ensures { result ≡ form.stored_coroutine kind moves body }
{
    let source = CoroutineSource::Block;
    Expr::Closure {
        args: Seq::new(alloc),
        arg_types: Seq::new(alloc),
        ret_type: None,
        body,
        closure_kind: ClosureKind::Coroutine { kind, source },
        capture_by: capture_by(moves),
    }
}

/// Stores it.
#[inline(never)]
pub(crate) fn store_coroutine<I: StoreSink>(
    alloc: Global,
    state: &mut BodyBuilder<I>,
    at: InFile<AstPtr>,
    kind: CoroutineKind,
    moves: bool,
    body: ExprId,
) -> Result<ExprId, StoreError>
    requires { HasExpr state.old.stored body }
    ensures { Lowers HasExpr (step.alloc_expr (form.stored_coroutine kind moves body) (Some at)) state.old result state.new }
{
    state.alloc_expr(coroutine(alloc, kind, moves, body), Some(at))
}

/// The block, read inside of it, and the coroutine around that.
fn inner_coroutine<I: StoreSink, P: LowerAll<I>, N: WrittenBlock>(
    lowerer: &Lowerer<P>,
    state: &mut BodyBuilder<I>,
    kind: CoroutineKind,
    moves: bool,
    node: &N,
) -> Result<ExprId, StoreError>
    requires { N.can (P.can lowerer.now.parts) (of.inside_coroutine kind (P.rctx lowerer.now.parts).place) node.now }
    ensures { let inside = in_coroutine kind (P.rctx lowerer.now.parts) in
        let own = role.Coroutine kind moves in
        LowersInside own (N.read inside node.now) state.old result state.new }
{
    let role = BlockRole::Coroutine { kind, moves };
    let inside = inside_coroutine(kind, lowerer.parts.place());
    node.lower_inside(lowerer, state, inside, role)
}

/// The same behind a border: no jump in it reaches what is open around it, and a `yield` in it is its own.
#[tactic(auto, unfolding(hir_lower_builder::specs::Forms::coroutine_form))]
fn bordered_coroutine<I: StoreSink, P: LowerAll<I>, N: WrittenBlock>(
    lowerer: &Lowerer<P>,
    state: &mut BodyBuilder<I>,
    kind: CoroutineKind,
    moves: bool,
    node: &N,
) -> Result<ExprId, StoreError>
    requires { N.can (P.can lowerer.now.parts) (of.inside_coroutine kind (P.rctx lowerer.now.parts).place) node.now }
    ensures { let inside = in_coroutine kind (P.rctx lowerer.now.parts) in
        let own = role.Coroutine kind moves in
        Lowers HasExpr (spec.coroutine_form (spec.lower_inside own (N.read inside node.now))) state.old result state.new }
{
    let outside = state.open_barrier()?;
    let id = inner_coroutine(lowerer, state, kind, moves, node)?;
    let _ = state.close_barrier(outside);
    Ok(id)
}

/// Such a block, of which neither a label nor a type counts. The coroutine owns the bindings that are made in it.
///
/// `async { s; t }` becomes, as a coroutine without parameters,
///
/// ```text
/// || { s; t }
/// ```
#[tactic(auto, unfolding(hir_lower_builder::specs::Lowering::owning))]
#[inline(always)]
pub(crate) fn coroutine_form<I: StoreSink, P: LowerAll<I>, N: WrittenBlock>(
    lowerer: &Lowerer<P>,
    state: &mut BodyBuilder<I>,
    kind: CoroutineKind,
    moves: bool,
    node: &N,
) -> Result<ExprId, StoreError>
    requires { N.can (P.can lowerer.now.parts) (of.inside_coroutine kind (P.rctx lowerer.now.parts).place) node.now }
    ensures { let inside = in_coroutine kind (P.rctx lowerer.now.parts) in
        let own = role.Coroutine kind moves in
        let form = spec.coroutine_form (spec.lower_inside own (N.read inside node.now)) in
        Lowers HasExpr (spec.owning (λ i. i) form) state.old result state.new }
{
    let start = state.bindings_end();
    let id = bordered_coroutine(lowerer, state, kind, moves, node)?;
    state.own(start, id);
    Ok(id)
}

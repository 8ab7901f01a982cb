//! Closures with `async`, `gen` or both, whose bodies are coroutines.

ghost use Rattle.std.specs.Prelude.{[], ◌≡◌, Some};
ghost use Rattle.hir_store.specs.Range.{HasExpr, HasParts, HasPats};
ghost use Rattle.hir_env.specs.ResolvedTree as tree;
ghost use Rattle.hir_env.specs.Paths as of;
ghost use Rattle.hir_env.specs.Whole.{in_closure};
ghost use Rattle.hir_lower_builder.specs.Forms.{no_closure_params};
ghost use Rattle.hir_lower_builder.specs.Lower.{lower_params, lower_part, present_type};
ghost use Rattle.hir_lower_builder.specs.Lowering.{Lowers, owning};
ghost use Rattle.hir_lower_builder.specs.Lowering as step;
ghost use Rattle.hir_lower_builder.specs.Methods.{HasWithin, LowersExpr};
ghost use Rattle.hir_lower_builder.specs.Preludes as spec;

use crate::closures::{ParamsPart, RetPart, body_opt, capture_by};
use crate::part::ExprPart;
use hir_base::node::{AstPtr, InFile};
use hir_lower_builder::builder::BodyBuilder;
use hir_lower_builder::closures::ClosureParams;
use hir_lower_builder::parts::{LowerAll, Lowerer};
use hir_lower_builder::preludes::{Prelude, Within, let_params, lower_handed};
use hir_lower_builder::store_sink::StoreSink;
use hir_store::error::StoreError;
use hir_store::hir::{ClosureKind, CoroutineKind, CoroutineSource, Expr};
use hir_store::ids::{ExprId, PatId};
use hir_syntax::Seq;

/// The coroutine of its body, in front of which its parameters are handed in.
#[tactic(auto, unfolding(hir_lower_builder::specs::Preludes::within_form))]
fn within<I: StoreSink, P: LowerAll<I>, A: ParamsPart, R: RetPart, E: ExprPart>(
    lowerer: &Lowerer<P>,
    state: &mut BodyBuilder<I>,
    params: &A,
    ret: &R,
    body: &E,
    is_async: bool,
    kind: CoroutineKind,
) -> Result<Within, StoreError>
    requires params { A.can (P.can lowerer.now.parts) (P.rctx lowerer.now.parts).place params.now }
    requires ret { R.can (P.can lowerer.now.parts) (P.rctx lowerer.now.parts).place ret.now }
    requires body { let place = (P.rctx lowerer.now.parts).place in
        E.can_inside (P.can lowerer.now.parts) (of.inside_closure is_async place) body.now }
    ensures { let rctx = P.rctx lowerer.now.parts in
        let lowered = lower_params no_closure_params (A.read rctx params.now) in
        let returned = present_type (R.read rctx ret.now) in
        let inner = lower_part (E.read (in_closure is_async rctx) body.now) in
        Lowers HasWithin (spec.within_form kind lowered returned inner) state.old result state.new }
{
    let alloc = lowerer.alloc;
    let ClosureParams { args, arg_types } = params.lower(lowerer, state)?;
    let ret = ret.lower(lowerer, state)?;
    let body = body_opt(lowerer, state, is_async, body)?;
    let Prelude { handed, lets } = let_params(alloc, state, Prelude::new(alloc), args.as_slice())?;
    let coroutine = state.made_coroutine(alloc, kind, CoroutineSource::Closure, lets, body)?;
    Ok(Within {
        arg_types,
        ret,
        handed,
        coroutine,
    })
}

/// The same, where the coroutine owns the bindings that are made in it.
#[tactic(auto, unfolding(hir_lower_builder::specs::Lowering::owning))]
fn owned_within<I: StoreSink, P: LowerAll<I>, A: ParamsPart, R: RetPart, E: ExprPart>(
    lowerer: &Lowerer<P>,
    state: &mut BodyBuilder<I>,
    params: &A,
    ret: &R,
    body: &E,
    is_async: bool,
    kind: CoroutineKind,
) -> Result<Within, StoreError>
    requires params { A.can (P.can lowerer.now.parts) (P.rctx lowerer.now.parts).place params.now }
    requires ret { R.can (P.can lowerer.now.parts) (P.rctx lowerer.now.parts).place ret.now }
    requires body { let place = (P.rctx lowerer.now.parts).place in
        E.can_inside (P.can lowerer.now.parts) (of.inside_closure is_async place) body.now }
    ensures { let rctx = P.rctx lowerer.now.parts in
        let lowered = lower_params no_closure_params (A.read rctx params.now) in
        let returned = present_type (R.read rctx ret.now) in
        let inner = lower_part (E.read (in_closure is_async rctx) body.now) in
        Lowers HasWithin (owning (λ w. w.coroutine) (spec.within_form kind lowered returned inner)) state.old result state.new }
{
    let start = state.bindings_end();
    let inner = within(lowerer, state, params, ret, body, is_async, kind)?;
    state.own(start, inner.coroutine);
    Ok(inner)
}

/// The closure around the coroutine, with what the outside hands its parameters to.
fn coroutine_closure(kind: CoroutineKind, moves: bool, args: Seq<PatId>, inner: Within) -> Expr
    ensures { result ≡ spec.stored_coroutine_closure kind moves args inner }
{
    let Within {
        arg_types,
        ret,
        handed: _,
        coroutine,
    } = inner;
    Expr::Closure {
        args,
        arg_types,
        ret_type: ret,
        body: coroutine,
        closure_kind: ClosureKind::CoroutineClosure(kind),
        capture_by: capture_by(moves),
    }
}

/// Stores it.
#[inline(never)]
fn store_coroutine_closure<I: StoreSink>(
    state: &mut BodyBuilder<I>,
    at: InFile<AstPtr>,
    kind: CoroutineKind,
    moves: bool,
    args: Seq<PatId>,
    inner: Within,
) -> Result<ExprId, StoreError>
    requires { HasParts state.old.stored (spec.stored_coroutine_closure kind moves args inner) }
    ensures { let node = spec.stored_coroutine_closure kind moves args inner in
        Lowers HasExpr (step.alloc_expr node (Some at)) state.old result state.new }
{
    state.alloc_expr(coroutine_closure(kind, moves, args, inner), Some(at))
}

/// The coroutine, and what the outside hands its parameters to. No jump in it reaches what is open around it, and a `yield` in it is its
/// own.
#[tactic(auto, unfolding(hir_lower_builder::specs::Preludes::coroutine_closure_form))]
fn bordered_coroutine_closure<I: StoreSink, P: LowerAll<I>, A: ParamsPart, R: RetPart, E: ExprPart>(
    lowerer: &Lowerer<P>,
    state: &mut BodyBuilder<I>,
    at: InFile<AstPtr>,
    params: &A,
    ret: &R,
    body: &E,
    is_async: bool,
    kind: CoroutineKind,
    moves: bool,
) -> Result<ExprId, StoreError>
    requires params { A.can (P.can lowerer.now.parts) (P.rctx lowerer.now.parts).place params.now }
    requires ret { R.can (P.can lowerer.now.parts) (P.rctx lowerer.now.parts).place ret.now }
    requires body { let place = (P.rctx lowerer.now.parts).place in
        E.can_inside (P.can lowerer.now.parts) (of.inside_closure is_async place) body.now }
    ensures { let rctx = P.rctx lowerer.now.parts in
        let lowered = lower_params no_closure_params (A.read rctx params.now) in
        let returned = present_type (R.read rctx ret.now) in
        let inner = lower_part (E.read (in_closure is_async rctx) body.now) in
        Lowers HasExpr (spec.coroutine_closure_form at kind moves lowered returned inner) state.old result state.new }
{
    let outside = state.open_barrier()?;
    let inner = owned_within(lowerer, state, params, ret, body, is_async, kind)?;
    let args = lower_handed(lowerer.alloc, state, inner.handed.as_slice())?;
    let _ = state.close_barrier(outside);
    store_coroutine_closure(state, at, kind, moves, args, inner)
}

/// A closure with `async`, `gen` or both, which owns what the outside hands its parameters to.
///
/// `async |x, (y, z)| b` becomes, around a coroutine,
///
/// ```text
/// |mut x, mut made| || { let x = x; let mut made = made; let (y, z) = made; b }
/// ```
#[tactic(auto, unfolding(hir_lower_builder::specs::Lowering::owning))]
#[inline(never)]
pub(crate) fn coroutine_closure_form<
    I: StoreSink,
    P: LowerAll<I>,
    A: ParamsPart,
    R: RetPart,
    E: ExprPart,
>(
    lowerer: &Lowerer<P>,
    state: &mut BodyBuilder<I>,
    at: InFile<AstPtr>,
    params: &A,
    ret: &R,
    body: &E,
    is_async: bool,
    kind: CoroutineKind,
    moves: bool,
) -> Result<ExprId, StoreError>
    requires params { A.can (P.can lowerer.now.parts) (P.rctx lowerer.now.parts).place params.now }
    requires ret { R.can (P.can lowerer.now.parts) (P.rctx lowerer.now.parts).place ret.now }
    requires body { let place = (P.rctx lowerer.now.parts).place in
        E.can_inside (P.can lowerer.now.parts) (of.inside_closure is_async place) body.now }
    ensures { let rctx = P.rctx lowerer.now.parts in
        LowersExpr (tree.coroutine_closure_expr at
        kind
        moves
        (A.read rctx params.now)
        (R.read rctx ret.now)
        (E.read (in_closure is_async rctx) body.now)) state.old result state.new }
{
    let start = state.bindings_end();
    let id = bordered_coroutine_closure(
        lowerer, state, at, params, ret, body, is_async, kind, moves,
    )?;
    state.own(start, id);
    Ok(id)
}

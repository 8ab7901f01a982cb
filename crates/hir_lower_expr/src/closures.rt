//! Closures, whose bodies are bodies of their own.

ghost use Rattle.std.specs.Prelude.{◌≡◌, false};
ghost use Rattle.hir_syntax.specs.declared.types.Param.{out-Param};
ghost use Rattle.hir_store.specs.Range.{HasExpr};
ghost use Rattle.hir_env.specs.ResolvedTree as tree;
ghost use Rattle.hir_env.specs.Answering.{closure_of, coroutine_kind};
ghost use Rattle.hir_env.specs.Paths as of;
ghost use Rattle.hir_env.specs.ResolvedTree.{OptionType, Params};
ghost use Rattle.hir_env.specs.declared.ctx.LowerCtx.{LowerCtx as AtCtx};
ghost use Rattle.hir_env.specs.ResolveCtx.{ResolveCtx};
ghost use Rattle.hir_env.specs.Whole.{answer_part, resolved_closure_param, closure_params_or_none_part, closure_params_part};
ghost use Rattle.hir_env.specs.Whole.{in_closure, param_level};
ghost use Rattle.hir_lower_builder.specs.Forms as spec;
ghost use Rattle.hir_lower_builder.specs.Lower.{lower_params, lower_part, present_type};
ghost use Rattle.hir_lower_builder.specs.Lowering.{Lowers};
ghost use Rattle.hir_lower_builder.specs.Methods.{HasClosureParams, LowersExpr, LowersExprOpt, LowersParam, LowersParams};
ghost use Rattle.hir_lower_builder.specs.Methods.{LowersTypeIfPresent};
ghost use Rattle.hir_lower_builder.specs.Nests.{Claims, IfPresent, KidsClosureParam, KidsClosureParams, KidsRet};

use crate::coroutine_closures::coroutine_closure_form;
use crate::part::{ExprPart, PatPart, TypePart};
use hir_base::node::{AstPtr, InFile};
use hir_env::ctx::LowerCtx;
use hir_lower_builder::builder::BodyBuilder;
use hir_lower_builder::closures::ClosureParams;
use hir_lower_builder::parts::{LowerAll, Lowerer, site};
use hir_lower_builder::store_sink::StoreSink;
use hir_store::diagnostics::{AwaitLocation, ExpressionStoreDiagnostics};
use hir_store::error::StoreError;
use hir_store::hir::{CaptureBy, ClosureKind, CoroutineKind, Expr, Movability};
use hir_store::ids::{ExprId, TypeRefId};
use hir_syntax::{Seq, ast};

/// Where the body of a closure is read that is written at this place.
fn inside_closure(is_async: bool, place: LowerCtx) -> LowerCtx
    ensures { result ≡ of.inside_closure is_async place }
{
    let await_location = if is_async {
        None
    } else {
        Some(AwaitLocation::NonAsyncClosure)
    };
    LowerCtx {
        await_location,
        ..place
    }
}

/// What a closure is, by whether a `yield` stands in its body, and whether `static` stands in front of it.
fn closure_kind(yields: bool, is_static: bool) -> ClosureKind
    ensures { result ≡ spec.closure_kind yields is_static }
{
    if !yields {
        ClosureKind::Closure
    } else if is_static {
        ClosureKind::OldCoroutine(Movability::Static)
    } else {
        ClosureKind::OldCoroutine(Movability::Movable)
    }
}

/// How a closure or a coroutine takes what its body uses of the outside, by whether `move` is written.
pub(crate) fn capture_by(moves: bool) -> CaptureBy
    ensures { result ≡ spec.capture_by moves }
{
    if moves {
        CaptureBy::Value
    } else {
        CaptureBy::Ref
    }
}

/// A parameter that no condition disables: its pattern, its type.
#[tactic(auto, unfolding(hir_lower_builder::specs::Forms::param_form))]
fn kept_param<I: StoreSink, P: LowerAll<I>, Q: PatPart, T: TypePart>(
    lowerer: &Lowerer<P>,
    state: &mut BodyBuilder<I>,
    params: ClosureParams,
    pat: &Q,
    ty: &T,
) -> Result<ClosureParams, StoreError>
    requires pat { Q.can (P.can lowerer.now.parts) (P.rctx lowerer.now.parts).place pat.now }
    requires ty { T.can (P.can lowerer.now.parts) (P.rctx lowerer.now.parts).place ty.now }
    requires params { HasClosureParams state.old.stored params }
    ensures { let rctx = P.rctx lowerer.now.parts in
        LowersParam params (tree.param (Q.read rctx pat.now) (T.read rctx ty.now)) state.old result state.new }
{
    let pat = pat.lower(lowerer, state)?;
    let ty = ty.lower_if_present(lowerer, state)?;
    Ok(params.with_param(pat, ty)?)
}

/// A parameter behind others, which stay alone where a condition disables it.
#[inline(never)]
fn param_form<I: StoreSink, P: LowerAll<I>>(
    lowerer: &Lowerer<P>,
    state: &mut BodyBuilder<I>,
    params: ClosureParams,
    node: &ast::Param,
) -> Result<ClosureParams, StoreError>
    requires part { KidsClosureParam (P.can lowerer.now.parts) (P.rctx lowerer.now.parts).place (out-Param node.now) }
    requires params { HasClosureParams state.old.stored params }
    ensures { LowersParam params (param_level (P.rctx lowerer.now.parts) node.now).own state.old result state.new }
{
    let at = lowerer.pointer(node.id, node.range);
    match lowerer.parts.cfg(site(at)) {
        Err(cfg) => {
            state.report(ExpressionStoreDiagnostics::InactiveCode { node: at, cfg })?;
            Ok(params)
        }
        Ok(()) => kept_param(lowerer, state, params, &node.pat, &node.ty),
    }
}

fn param<I: StoreSink, P: LowerAll<I>>(
    lowerer: &Lowerer<P>,
    state: &mut BodyBuilder<I>,
    params: ClosureParams,
    node: &ast::Param,
) -> Result<ClosureParams, StoreError>
    requires part { KidsClosureParam (P.can lowerer.now.parts) (P.rctx lowerer.now.parts).place (out-Param node.now) }
    requires params { HasClosureParams state.old.stored params }
    ensures { LowersParam params (resolved_closure_param (P.rctx lowerer.now.parts) node.now) state.old result state.new }
{
    param_form(lowerer, state, params, node)
}

/// The parameters that no condition disables, behind others.
fn params<I: StoreSink, P: LowerAll<I>>(
    lowerer: &Lowerer<P>,
    state: &mut BodyBuilder<I>,
    mut params: ClosureParams,
    mut left: &[ast::Param],
) -> Result<ClosureParams, StoreError>
    requires parts { KidsClosureParams (P.can lowerer.now.parts) (P.rctx lowerer.now.parts).place left.now }
    requires params { HasClosureParams state.old.stored params }
    ensures { LowersParams params (closure_params_part (P.rctx lowerer.now.parts) left.entry.now) state.old result state.new }
{
    while let [one, rest @ ..] = left {
        params = param(lowerer, state, params, one)?;
        left = rest;
    }
    Ok(params)
}

/// The parameters of a closure, none where they are absent.
pub trait ParamsPart {
    ghost can: { Claims → AtCtx → Self → Type 0 };

    ghost read: { ResolveCtx → Self → Params };

    fn lower<I: StoreSink, P: LowerAll<I>>(
        &self,
        lowerer: &Lowerer<P>,
        state: &mut BodyBuilder<I>,
    ) -> Result<ClosureParams, StoreError>
        requires { can (P.can lowerer.now.parts) (P.rctx lowerer.now.parts).place self.now }
        ensures { LowersParams spec.no_closure_params (read (P.rctx lowerer.now.parts) self.now) state.old result state.new };
}

impl ParamsPart for Option<Seq<ast::Param>> {
    ghost can = { λ claims place. IfPresent (KidsClosureParams claims place) };

    ghost read = { closure_params_or_none_part };

    fn lower<I: StoreSink, P: LowerAll<I>>(
        &self,
        lowerer: &Lowerer<P>,
        state: &mut BodyBuilder<I>,
    ) -> Result<ClosureParams, StoreError> {
        let none = ClosureParams::new(lowerer.alloc);
        match self {
            None => Ok(none),
            Some(all) => params(lowerer, state, none, all.as_slice()),
        }
    }
}

/// What a closure returns, none where no type is written.
pub trait RetPart {
    ghost can: { Claims → AtCtx → Self → Type 0 };

    ghost read: { ResolveCtx → Self → OptionType };

    fn lower<I: StoreSink, P: LowerAll<I>>(
        &self,
        lowerer: &Lowerer<P>,
        state: &mut BodyBuilder<I>,
    ) -> Result<Option<TypeRefId>, StoreError>
        requires { can (P.can lowerer.now.parts) (P.rctx lowerer.now.parts).place self.now }
        ensures { LowersTypeIfPresent (read (P.rctx lowerer.now.parts) self.now) state.old result state.new };
}

impl RetPart for Option<ast::RetType> {
    ghost can = { λ claims place. IfPresent (KidsRet claims place) };

    ghost read = { answer_part };

    fn lower<I: StoreSink, P: LowerAll<I>>(
        &self,
        lowerer: &Lowerer<P>,
        state: &mut BodyBuilder<I>,
    ) -> Result<Option<TypeRefId>, StoreError> {
        match self {
            None => Ok(None),
            Some(ty) => ty.lower_if_present(lowerer, state),
        }
    }
}

/// The body, missing where it is absent or a condition disables it.
pub(crate) fn body_opt<I: StoreSink, P: LowerAll<I>, E: ExprPart>(
    lowerer: &Lowerer<P>,
    state: &mut BodyBuilder<I>,
    is_async: bool,
    body: &E,
) -> Result<ExprId, StoreError>
    requires { let place = (P.rctx lowerer.now.parts).place in
        E.can_inside (P.can lowerer.now.parts) (of.inside_closure is_async place) body.now }
    ensures { LowersExprOpt (E.read (in_closure is_async (P.rctx lowerer.now.parts)) body.now) state.old result state.new }
{
    body.lower_inside(
        lowerer,
        state,
        inside_closure(is_async, lowerer.parts.place()),
    )
}

/// The parameters, what it returns, its body. No jump in it reaches what is open around it, and whether a `yield` stands in its body,
/// and in none inside of that, decides what it is.
#[tactic(auto, unfolding(hir_lower_builder::specs::Forms::closure_form))]
fn bordered_closure<I: StoreSink, P: LowerAll<I>, A: ParamsPart, R: RetPart, E: ExprPart>(
    lowerer: &Lowerer<P>,
    state: &mut BodyBuilder<I>,
    at: InFile<AstPtr>,
    params: &A,
    ret: &R,
    body: &E,
    moves: bool,
    is_static: bool,
) -> Result<ExprId, StoreError>
    requires params { A.can (P.can lowerer.now.parts) (P.rctx lowerer.now.parts).place params.now }
    requires ret { R.can (P.can lowerer.now.parts) (P.rctx lowerer.now.parts).place ret.now }
    requires body { let place = (P.rctx lowerer.now.parts).place in
        E.can_inside (P.can lowerer.now.parts) (of.inside_closure false place) body.now }
    ensures { let rctx = P.rctx lowerer.now.parts in
        let lowered = lower_params spec.no_closure_params (A.read rctx params.now) in
        let returned = present_type (R.read rctx ret.now) in
        let inner = lower_part (E.read (in_closure false rctx) body.now) in
        Lowers HasExpr (spec.closure_form at moves is_static lowered returned inner) state.old result state.new }
{
    let outside = state.open_barrier()?;
    let ClosureParams { args, arg_types } = params.lower(lowerer, state)?;
    let ret_type = ret.lower(lowerer, state)?;
    let body = body_opt(lowerer, state, false, body)?;
    let yields = state.close_barrier(outside);
    let closure_kind = closure_kind(yields, is_static);
    let capture_by = capture_by(moves);
    let closure = Expr::Closure {
        args,
        arg_types,
        ret_type,
        body,
        closure_kind,
        capture_by,
    };
    state.alloc_expr(closure, Some(at))
}

/// A closure without `async` and `gen`, which owns the bindings that are made in it.
#[tactic(auto, unfolding(hir_lower_builder::specs::Lowering::owning))]
#[inline(never)]
fn plain_closure<I: StoreSink, P: LowerAll<I>, A: ParamsPart, R: RetPart, E: ExprPart>(
    lowerer: &Lowerer<P>,
    state: &mut BodyBuilder<I>,
    at: InFile<AstPtr>,
    params: &A,
    ret: &R,
    body: &E,
    moves: bool,
    is_static: bool,
) -> Result<ExprId, StoreError>
    requires params { A.can (P.can lowerer.now.parts) (P.rctx lowerer.now.parts).place params.now }
    requires ret { R.can (P.can lowerer.now.parts) (P.rctx lowerer.now.parts).place ret.now }
    requires body { let place = (P.rctx lowerer.now.parts).place in
        E.can_inside (P.can lowerer.now.parts) (of.inside_closure false place) body.now }
    ensures { let rctx = P.rctx lowerer.now.parts in
        LowersExpr (tree.closure_expr at
        moves
        is_static
        (A.read rctx params.now)
        (R.read rctx ret.now)
        (E.read (in_closure false rctx) body.now)) state.old result state.new }
{
    let start = state.bindings_end();
    let id = bordered_closure(lowerer, state, at, params, ret, body, moves, is_static)?;
    state.own(start, id);
    Ok(id)
}

/// A closure with `async`, `gen` or both, whose body is a coroutine, or with neither.
pub fn closure_form<I: StoreSink, P: LowerAll<I>, A: ParamsPart, R: RetPart, E: ExprPart>(
    lowerer: &Lowerer<P>,
    state: &mut BodyBuilder<I>,
    at: InFile<AstPtr>,
    params: &A,
    ret: &R,
    body: &E,
    is_async: bool,
    is_gen: bool,
    moves: bool,
    is_static: bool,
) -> Result<ExprId, StoreError>
    requires params { A.can (P.can lowerer.now.parts) (P.rctx lowerer.now.parts).place params.now }
    requires ret { R.can (P.can lowerer.now.parts) (P.rctx lowerer.now.parts).place ret.now }
    requires body { let place = (P.rctx lowerer.now.parts).place in
        E.can_inside (P.can lowerer.now.parts) (of.inside_closure is_async place) body.now }
    ensures { let rctx = P.rctx lowerer.now.parts in
        LowersExpr (closure_of (coroutine_kind is_async is_gen)
        at
        moves
        is_static
        (A.read rctx params.now)
        (R.read rctx ret.now)
        (E.read (in_closure is_async rctx) body.now)) state.old result state.new }
{
    match (is_async, is_gen) {
        (false, false) => plain_closure(lowerer, state, at, params, ret, body, moves, is_static),
        (true, false) => {
            let kind = CoroutineKind::Async;
            coroutine_closure_form(lowerer, state, at, params, ret, body, true, kind, moves)
        }
        (false, true) => {
            let kind = CoroutineKind::Gen;
            coroutine_closure_form(lowerer, state, at, params, ret, body, false, kind, moves)
        }
        (true, true) => {
            let kind = CoroutineKind::AsyncGen;
            coroutine_closure_form(lowerer, state, at, params, ret, body, true, kind, moves)
        }
    }
}

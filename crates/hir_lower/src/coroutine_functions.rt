//! Functions with `async`, `gen` or both, whose bodies are coroutines.

ghost use Rattle.std.specs.Prelude.{◌≡◌, option_copied};
ghost use Rattle.hir_env.specs.Formals.{resolved_formals};
ghost use Rattle.hir_env.specs.Whole.{expr_part};
ghost use Rattle.hir_lower_builder.specs.Lowering.{Lowers, owning};
ghost use Rattle.hir_lower_callbacks.specs.ResolveCtxs.{rctx_at};
ghost use Rattle.thm_body_result.specs.Formals as spec;
ghost use Rattle.hir_lower.specs.Formals as forms;
ghost use Rattle.hir_lower.specs.Formals.{HasInFunction, HasSelf, outside_place, outside_the_body};
ghost use Rattle.hir_lower.specs.Roots.{HasGivenBody};

use crate::collector::collect_expr_opt;
use crate::formals::{Given, Received, pats_form, self_form};
use hir_env::ctx::LowerCtx;
use hir_env::env::LowerEnv;
use hir_lower_builder::builder::StoredBody;
use hir_lower_builder::preludes::{Handed, Prelude, let_params, lower_handed};
use hir_store::diagnostics::AwaitLocation;
use hir_store::error::StoreError;
use hir_store::hir::{CoroutineKind, CoroutineSource};
use hir_store::ids::{BindingId, ExprId};
use hir_syntax::{Seq, ast};
use std::alloc::Global;

/// What is in such a function: what was written of its parameters, how each but `self` is handed in, and the coroutine.
type InFunction = (Received, (Seq<Handed>, ExprId));

/// The place around a body, where parameters are read. Nothing async is around an `await` there, which stands in a constant.
pub(crate) fn around(place: LowerCtx) -> LowerCtx
    ensures { result ≡ outside_place place }
{
    LowerCtx {
        await_location: Some(AwaitLocation::Unknown),
        ..place
    }
}

/// The parameters behind `self`, the body, the `let`s, and the coroutine that begins with them.
#[tactic(auto, unfolding(thm_body_result::specs::Formals::in_function))]
fn in_function<E: LowerEnv>(
    alloc: Global,
    env: &E,
    place: LowerCtx,
    state: &mut StoredBody,
    kind: CoroutineKind,
    skipped: bool,
    bare: bool,
    receiver: Option<BindingId>,
    params: Option<&ast::ParamList>,
    body: Option<&ast::Expr>,
) -> Result<InFunction, StoreError>
    requires { HasSelf state.old.stored receiver }
    ensures { let at = rctx_at (E.answers env.now) place in
        let formals = (resolved_formals (outside_the_body at) bare (option_copied params.entry)).formals in
        let read = expr_part at (option_copied body.entry) in
        Lowers HasInFunction (spec.in_function kind skipped receiver formals read) state.old result state.new }
{
    let pats = pats_form(alloc, env, around(place), state, skipped, bare, params)?;
    let body = collect_expr_opt(alloc, env, place, state, body)?;
    let (own, prelude) = state.let_self(alloc, receiver)?;
    let Prelude { handed, lets } = let_params(alloc, state, prelude, pats.as_slice())?;
    let coroutine = state.made_coroutine(alloc, kind, CoroutineSource::Fn, lets, body)?;
    Ok(((own, pats), (handed, coroutine)))
}

/// The same, where the coroutine owns the bindings that are made in it.
#[tactic(auto, unfolding(hir_lower_builder::specs::Lowering::owning))]
fn owned_in_function<E: LowerEnv>(
    alloc: Global,
    env: &E,
    place: LowerCtx,
    state: &mut StoredBody,
    kind: CoroutineKind,
    skipped: bool,
    bare: bool,
    receiver: Option<BindingId>,
    params: Option<&ast::ParamList>,
    body: Option<&ast::Expr>,
) -> Result<InFunction, StoreError>
    requires { HasSelf state.old.stored receiver }
    ensures { let at = rctx_at (E.answers env.now) place in
        let formals = (resolved_formals (outside_the_body at) bare (option_copied params.entry)).formals in
        let read = expr_part at (option_copied body.entry) in
        let steps = spec.in_function kind skipped receiver formals read in
        Lowers HasInFunction (owning (λ r. r.1.1) steps) state.old result state.new }
{
    let start = state.bindings_end();
    let inner = in_function(
        alloc, env, place, state, kind, skipped, bare, receiver, params, body,
    )?;
    state.own(start, inner.1.1);
    Ok(inner)
}

/// The coroutine, and then what the outside hands its arguments to.
#[tactic(auto, unfolding(crate::specs::Formals::behind_self))]
fn behind_self<E: LowerEnv>(
    alloc: Global,
    env: &E,
    place: LowerCtx,
    state: &mut StoredBody,
    kind: CoroutineKind,
    skipped: bool,
    bare: bool,
    receiver: Option<BindingId>,
    params: Option<&ast::ParamList>,
    body: Option<&ast::Expr>,
) -> Result<(Given, ExprId), StoreError>
    requires { HasSelf state.old.stored receiver }
    ensures { let at = rctx_at (E.answers env.now) place in
        let formals = (resolved_formals (outside_the_body at) bare (option_copied params.entry)).formals in
        let read = expr_part at (option_copied body.entry) in
        Lowers HasGivenBody (forms.behind_self kind skipped receiver formals read) state.old result state.new }
{
    let (written, (handed, coroutine)) = owned_in_function(
        alloc, env, place, state, kind, skipped, bare, receiver, params, body,
    )?;
    let formals = lower_handed(alloc, state, handed.as_slice())?;
    Ok((((receiver, formals), written), coroutine))
}

/// Lowers parameters, `self` first, and behind them a body that is a coroutine. It begins with a `let` of each parameter; what the
/// outside hands its arguments to comes last.
///
/// `async fn f(self, (y, z): T) b` becomes, with a coroutine for its body,
///
/// ```text
/// fn f(self, mut made) || { let self = self; let mut made = made; let (y, z) = made; b }
/// ```
#[tactic(auto, unfolding(thm_body_result::specs::Formals::coroutine_body, crate::specs::Formals::behind_self))]
pub(crate) fn coroutine_form<E: LowerEnv>(
    alloc: Global,
    env: &E,
    place: LowerCtx,
    state: &mut StoredBody,
    kind: CoroutineKind,
    skipped: bool,
    bare: bool,
    params: Option<&ast::ParamList>,
    body: Option<&ast::Expr>,
) -> Result<(Given, ExprId), StoreError>
    ensures { let at = rctx_at (E.answers env.now) place in
        let formals = resolved_formals (outside_the_body at) bare (option_copied params.entry) in
        let read = expr_part at (option_copied body.entry) in
        Lowers HasGivenBody (spec.coroutine_body kind skipped formals read) state.old result state.new }
{
    match params {
        None => behind_self(
            alloc, env, place, state, kind, skipped, bare, None, None, body,
        ),
        Some(list) => {
            let receiver = self_form(alloc, env, around(place), state, &list.self_)?;
            behind_self(
                alloc, env, place, state, kind, skipped, bare, receiver, params, body,
            )
        }
    }
}

//! The parameters of a body.

ghost use Rattle.std.specs.Prelude.{◌≡◌, [], Some, true, option_copied};
ghost use Rattle.hir_store.specs.Range.{HasBindingId, HasPatOption, HasPats};
ghost use Rattle.hir_env.specs.Formals.{resolved_formal, resolved_formals, resolved_self, are_bare, formal_part, formals_part};
ghost use Rattle.hir_env.specs.Formals.{self_mode, self_use};
ghost use Rattle.hir_env.specs.Pats.{name_hygiene};
ghost use Rattle.hir_env.specs.ResolveCtx.{in_file, ptr};
ghost use Rattle.hir_env.specs.Whole.{pat_part};
ghost use Rattle.hir_lower_builder.specs.Lowering.{Lowers, alloc_binding};
ghost use Rattle.hir_lower_builder.specs.Methods.{LowersTop};
ghost use Rattle.hir_lower_builder.specs.Pats.{new_binding};
ghost use Rattle.hir_lower_callbacks.specs.ResolveCtxs.{rctx_at};
ghost use Rattle.hir_lower.specs.Formals.{HasReceived, HasSelf, each_formal, lower_formal, lower_formals, lower_self, self_source};

use hir_base::node::{AstPtr, InFile, NodeId, TextRange};
use hir_base::{Boxed, Seq, Text};
use hir_env::ctx::LowerCtx;
use hir_env::env::LowerEnv;
use hir_lower_builder::builder::StoredBody;
use hir_lower_builder::parts::site;
use hir_lower_recursion::knot::{bare_top, top_pat};
use hir_store::diagnostics::ExpressionStoreDiagnostics;
use hir_store::error::StoreError;
use hir_store::hir::{Binding, BindingAnnotation};
use hir_store::ids::{BindingId, HygieneId, ItemContainerId, PatId};
use hir_store::lists::push_pat;
use hir_store::name::Name;
use hir_syntax::ast;
use std::alloc::Global;

/// The binding of `self`, and the patterns of the other parameters.
pub(crate) type Received = (Option<BindingId>, Seq<PatId>);

/// What the outside hands its arguments to, and what was written.
pub(crate) type Given = (Received, Received);

/// The pointer to a node of the file.
fn pointer(place: LowerCtx, node: NodeId, range: TextRange) -> InFile<AstPtr>
    ensures { result ≡ in_file place (ptr node range) }
{
    InFile {
        file_id: place.file_id,
        value: AstPtr { node, range },
    }
}

/// The pattern of a parameter that is kept.
fn kept_form<E: LowerEnv>(
    alloc: Global,
    env: &E,
    place: LowerCtx,
    state: &mut StoredBody,
    bare: bool,
    part: &Option<Boxed<ast::Pat>>,
) -> Result<PatId, StoreError>
    ensures { let at = rctx_at (E.answers env.now) place in
        LowersTop (formal_part bare (pat_part at part.now)) state.old result state.new }
{
    if bare {
        bare_top(alloc, env, place, state, part)
    } else {
        top_pat(alloc, env, place, state, part)
    }
}

/// A parameter, none where a condition disables it. Of a skipped body its pattern isn't read.
fn formal<E: LowerEnv>(
    alloc: Global,
    env: &E,
    place: LowerCtx,
    state: &mut StoredBody,
    skipped: bool,
    bare: bool,
    node: &ast::Param,
) -> Result<Option<PatId>, StoreError>
    ensures { let at = rctx_at (E.answers env.now) place in
        Lowers HasPatOption (lower_formal skipped (resolved_formal at bare node.now)) state.old result state.new }
{
    let at = pointer(place, node.id, node.range);
    match env.cfg(site(at)) {
        Err(cfg) => {
            state.report(ExpressionStoreDiagnostics::InactiveCode { node: at, cfg })?;
            Ok(None)
        }
        Ok(()) => {
            if skipped {
                Ok(Some(state.missing_pat()?))
            } else {
                Ok(Some(kept_form(alloc, env, place, state, bare, &node.pat)?))
            }
        }
    }
}

/// The parameters that are kept, in order.
fn each_form<E: LowerEnv>(
    alloc: Global,
    env: &E,
    place: LowerCtx,
    state: &mut StoredBody,
    skipped: bool,
    bare: bool,
    mut left: &[ast::Param],
) -> Result<Seq<PatId>, StoreError>
    ensures { let at = rctx_at (E.answers env.now) place in
        Lowers HasPats (each_formal skipped [] (formals_part at bare left.entry.now)) state.old result state.new }
{
    let mut pats = Seq::new(alloc);
    while let [one, rest @ ..] = left {
        if let Some(pat) = formal(alloc, env, place, state, skipped, bare, one)? {
            push_pat(&mut pats, pat)?;
        }
        left = rest;
    }
    Ok(pats)
}

/// It is `mut` where `mut` stands without `&`.
fn mode_of_self(is_ref: bool, is_mut: bool) -> BindingAnnotation
    ensures { result ≡ self_mode is_ref is_mut }
{
    if is_mut && !is_ref {
        BindingAnnotation::Mutable
    } else {
        BindingAnnotation::Unannotated
    }
}

/// The hygiene of the name, that of the root where it is absent.
fn hygiene_of_name<E: LowerEnv>(env: &E, place: LowerCtx, name: &Option<ast::Name>) -> HygieneId
    ensures { result ≡ name_hygiene (E.answers env.now) place name.now }
{
    match name {
        None => HygieneId::ROOT,
        Some(name) => env.hygiene(site(pointer(place, name.id, name.range))),
    }
}

/// The binding of a `self`, which no pattern defines.
fn self_binding<E: LowerEnv>(
    alloc: Global,
    env: &E,
    place: LowerCtx,
    state: &mut StoredBody,
    node: &ast::SelfParam,
) -> Result<BindingId, StoreError>
    ensures { let at = rctx_at (E.answers env.now) place in
        Lowers HasBindingId (alloc_binding (new_binding (self_use at node.now))) state.old result state.new }
{
    state.alloc_binding(Binding {
        name: Name::Text(Text::new(alloc, "self")?),
        mode: mode_of_self(node.ref_, node.mut_),
        hygiene: hygiene_of_name(env, place, &node.name),
        problems: None,
    })
}

/// The binding of `self`, none where it is absent or a condition disables it.
pub(crate) fn self_form<E: LowerEnv>(
    alloc: Global,
    env: &E,
    place: LowerCtx,
    state: &mut StoredBody,
    part: &Option<ast::SelfParam>,
) -> Result<Option<BindingId>, StoreError>
    ensures { Lowers HasSelf (lower_self (resolved_self (rctx_at (E.answers env.now) place) part.now)) state.old result state.new }
{
    match part {
        None => Ok(None),
        Some(node) => {
            let at = pointer(place, node.id, node.range);
            match env.cfg(site(at)) {
                Err(cfg) => {
                    state.report(ExpressionStoreDiagnostics::InactiveCode { node: at, cfg })?;
                    Ok(None)
                }
                Ok(()) => Ok(Some(self_binding(alloc, env, place, state, node)?)),
            }
        }
    }
}

/// The node of a `self` that is kept.
pub(crate) fn self_node<E: LowerEnv>(
    env: &E,
    place: LowerCtx,
    params: Option<&ast::ParamList>,
) -> Option<InFile<AstPtr>>
    ensures { let at = rctx_at (E.answers env.now) place in
        result ≡ self_source (resolved_formals at true (option_copied params.entry)).receiver }
{
    match params {
        None => None,
        Some(params) => match &params.self_ {
            None => None,
            Some(node) => {
                let at = pointer(place, node.id, node.range);
                match env.cfg(site(at)) {
                    Err(_) => None,
                    Ok(()) => Some(at),
                }
            }
        },
    }
}

/// Whether the parameters of a function may only be plain names: in an extern block, and in a trait where it has no body.
pub(crate) fn must_be_bare(container: ItemContainerId, has_body: bool) -> bool
    ensures { result ≡ are_bare container has_body }
{
    match container {
        ItemContainerId::ExternBlockId(_) => true,
        ItemContainerId::TraitId(_) => !has_body,
        ItemContainerId::ModuleId(_) | ItemContainerId::ImplId(_) => false,
    }
}

/// The patterns of the parameters behind `self` that are kept. Those of a skipped body are missing.
pub(crate) fn pats_form<E: LowerEnv>(
    alloc: Global,
    env: &E,
    place: LowerCtx,
    state: &mut StoredBody,
    skipped: bool,
    bare: bool,
    params: Option<&ast::ParamList>,
) -> Result<Seq<PatId>, StoreError>
    ensures { let at = rctx_at (E.answers env.now) place in
        let formals = (resolved_formals at bare (option_copied params.entry)).formals in
        Lowers HasPats (each_formal skipped [] formals) state.old result state.new }
{
    match params {
        None => Ok(Seq::new(alloc)),
        Some(params) => {
            each_form(
                alloc,
                env,
                place,
                state,
                skipped,
                bare,
                params.params.as_slice(),
            )
        }
    }
}

/// The binding of `self`, and then the patterns of the other parameters that are kept. Those of a skipped body are missing.
#[tactic(auto, unfolding(thm_body_result::specs::Formals::lower_formals))]
pub(crate) fn formals_form<E: LowerEnv>(
    alloc: Global,
    env: &E,
    place: LowerCtx,
    state: &mut StoredBody,
    skipped: bool,
    bare: bool,
    params: Option<&ast::ParamList>,
) -> Result<Received, StoreError>
    ensures { let at = rctx_at (E.answers env.now) place in
        Lowers HasReceived (lower_formals skipped (resolved_formals at bare (option_copied params.entry))) state.old result state.new }
{
    match params {
        None => Ok((None, Seq::new(alloc))),
        Some(list) => {
            let receiver = self_form(alloc, env, place, state, &list.self_)?;
            let params = list.params.as_slice();
            let pats = each_form(alloc, env, place, state, skipped, bare, params)?;
            Ok((receiver, pats))
        }
    }
}

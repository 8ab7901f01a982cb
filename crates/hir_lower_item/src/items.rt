//! Traits, implementations and aliases of types.

ghost use Rattle.std.specs.Prelude.{◌≡◌, []};
ghost use Rattle.hir_store.specs.Range.{HasBounds, HasNone, HasPathOption};
ghost use Rattle.hir_env.specs.Whole.{bounds_part};
ghost use Rattle.hir_lower_builder.specs.Lower.{lower_bounds};
ghost use Rattle.hir_lower_builder.specs.Lowering.{Lowers};
ghost use Rattle.hir_lower_callbacks.specs.ResolveCtxs.{rctx_at};
ghost use Rattle.hir_lower_item.specs.Answering as of;
ghost use Rattle.hir_lower_item.specs.Answering.{at_place};
ghost use Rattle.hir_lower_item.specs.Has.{HasAlias, HasImpl, HasTraitOption};
ghost use Rattle.hir_lower_item.specs.Lower as spec;

use crate::constants::{type_if_present, type_or_error};
use crate::params::{generics, type_param_form};
use crate::places::{in_opaque, in_plain, in_self_bounds, pointer};
use hir_base::node::{AstPtr, InFile};
use hir_env::ctx::LowerCtx;
use hir_env::env::LowerEnv;
use hir_lower_builder::builder::StoredBody;
use hir_lower_recursion::items::lower_bound;
use hir_lower_recursion::knot::lower_path;
use hir_store::diagnostics::{ExpressionStoreDiagnostics, MissingBodyItemKind};
use hir_store::error::StoreError;
use hir_store::generics::TypeParamProvenance;
use hir_store::ids::{GenericDefId, ItemContainerId, TypeRefId};
use hir_store::lists::push_bound;
use hir_store::name::Name;
use hir_store::path::Path;
use hir_store::type_ref::{TraitRef, TypeBound, TypeRef};
use hir_syntax::items::{Impl, Trait, TypeAlias};
use hir_syntax::{Boxed, Seq, Text, ast};
use std::alloc::Global;

/// The parameter that the `Self` of a trait is, with these bounds.
fn self_param<E: LowerEnv>(
    alloc: Global,
    env: &E,
    place: LowerCtx,
    state: &mut StoredBody,
    def: GenericDefId,
    bounds: &Seq<ast::TypeBound>,
) -> Result<(), StoreError>
    ensures { let at = at_place (of.in_self_bounds def) (rctx_at (E.answers env.now) place) in
        Lowers HasNone (spec.self_param def (bounds_part at bounds.now)) state.old result state.new }
{
    let name = Name::Text(Text::new(alloc, "Self")?);
    let from = TypeParamProvenance::TraitSelf;
    let inside = in_self_bounds(def, place);
    type_param_form(alloc, env, inside, state, def, name, None, from, bounds)
}

/// The parameters and the predicates of a trait, of which `Self` is the first parameter.
pub fn trait_form<E: LowerEnv>(
    alloc: Global,
    env: &E,
    place: LowerCtx,
    state: &mut StoredBody,
    def: GenericDefId,
    node: &Trait,
) -> Result<(), StoreError>
    ensures { let at = rctx_at (E.answers env.now) place in
        Lowers HasNone (spec.lower_trait def (of.resolved_trait at def node.now)) state.old result state.new }
{
    let params = node.generics.as_ref();
    let asked = node.where_.as_ref();
    self_param(alloc, env, place, state, def, &node.bounds)?;
    generics(alloc, env, place, state, def, params, asked)
}

/// The path is stored as a type from this node; one that is refused is no trait.
fn stored_trait(
    state: &mut StoredBody,
    at: InFile<AstPtr>,
    path: Option<Path>,
) -> Result<Option<TraitRef>, StoreError>
    requires { HasPathOption state.old.stored path }
    ensures { Lowers HasTraitOption (spec.stored_trait at path) state.old result state.new }
{
    match path {
        None => Ok(None),
        Some(path) => {
            let path = state.alloc_type(TypeRef::Path(path), Some(at))?;
            Ok(Some(TraitRef { path }))
        }
    }
}

/// The trait, none where it is absent, isn't written as a path, or is refused.
fn trait_ref<E: LowerEnv>(
    alloc: Global,
    env: &E,
    place: LowerCtx,
    state: &mut StoredBody,
    part: &Option<Boxed<ast::Type_>>,
) -> Result<Option<TraitRef>, StoreError>
    ensures { let at = rctx_at (E.answers env.now) place in
        Lowers HasTraitOption (spec.lower_trait_ref (of.trait_of at part.now)) state.old result state.new }
{
    let Some(part) = part else {
        return Ok(None);
    };
    let node = part.get();
    match &node.kind {
        ast::TypeKind::PathType { path: Some(path) } => {
            let at = pointer(place, node.id, node.range);
            let path = lower_path(alloc, env, place, state, path.get())?;
            stored_trait(state, at, path)
        }
        _ => Ok(None),
    }
}

/// The type of an `impl`, its trait, where it has one, and then its parameters and predicates.
pub fn impl_form<E: LowerEnv>(
    alloc: Global,
    env: &E,
    place: LowerCtx,
    state: &mut StoredBody,
    def: GenericDefId,
    node: &Impl,
) -> Result<(TypeRefId, Option<TraitRef>), StoreError>
    ensures { let at = rctx_at (E.answers env.now) place in
        Lowers HasImpl (spec.lower_impl def (of.resolved_impl at def node.now)) state.old result state.new }
{
    let self_type = type_or_error(alloc, env, in_plain(place), state, &node.self_ty)?;
    let trait_ = trait_ref(alloc, env, in_opaque(place), state, &node.trait_)?;
    let list = node.generics.as_ref();
    let clause = node.where_.as_ref();
    generics(alloc, env, place, state, def, list, clause)?;
    Ok((self_type, trait_))
}

fn each_bound<E: LowerEnv>(
    alloc: Global,
    env: &E,
    place: LowerCtx,
    state: &mut StoredBody,
    mut left: &[ast::TypeBound],
) -> Result<Seq<TypeBound>, StoreError>
    ensures { let at = rctx_at (E.answers env.now) place in
        Lowers HasBounds (lower_bounds [] (bounds_part at left.entry.now)) state.old result state.new }
{
    let mut done = Seq::new(alloc);
    while let [one, rest @ ..] = left {
        let bound = lower_bound(alloc, env, place, state, one)?;
        push_bound(&mut done, bound)?;
        left = rest;
    }
    Ok(done)
}

/// The kind of the fault that an alias without a type owes.
fn required_type(container: ItemContainerId) -> Option<MissingBodyItemKind>
    ensures { result ≡ of.required_type container }
{
    match container {
        ItemContainerId::ModuleId(_) => Some(MissingBodyItemKind::TypeAlias),
        ItemContainerId::ImplId(_) => Some(MissingBodyItemKind::AssocType),
        ItemContainerId::ExternBlockId(_) | ItemContainerId::TraitId(_) => None,
    }
}

/// Reports an alias that lacks a type and owes one.
fn report_missing(
    state: &mut StoredBody,
    node: InFile<AstPtr>,
    container: ItemContainerId,
    ty: &Option<Boxed<ast::Type_>>,
) -> Result<(), StoreError>
    ensures { let fault = of.missing_type node ty.now (of.required_type container) in
        Lowers HasNone (spec.report_missing fault) state.old result state.new }
{
    match (ty, required_type(container)) {
        (None, Some(kind)) => {
            state.report(ExpressionStoreDiagnostics::MissingBody { node, kind })
        }
        _ => Ok(()),
    }
}

/// The bounds of an alias, its parameters and predicates, and then its type, where one is written.
pub fn alias_form<E: LowerEnv>(
    alloc: Global,
    env: &E,
    place: LowerCtx,
    state: &mut StoredBody,
    def: GenericDefId,
    container: ItemContainerId,
    node: &TypeAlias,
) -> Result<(Seq<TypeBound>, Option<TypeRefId>), StoreError>
    ensures { let at = rctx_at (E.answers env.now) place in
        Lowers HasAlias (spec.lower_alias def (of.resolved_alias at def container node.now)) state.old result state.new }
{
    let inside = in_opaque(place);
    let bounds = each_bound(alloc, env, inside, state, node.bounds.as_slice())?;
    let list = node.generics.as_ref();
    let clause = node.where_.as_ref();
    generics(alloc, env, place, state, def, list, clause)?;
    let ty = type_if_present(alloc, env, inside, state, &node.ty)?;
    report_missing(
        state,
        pointer(place, node.id, node.range),
        container,
        &node.ty,
    )?;
    Ok((bounds, ty))
}

//! Generic parameters.

ghost use Rattle.std.specs.Prelude.{◌≡◌, None, Some, option_copied, option_map};
ghost use Rattle.hir_store.specs.Range.{HasNone, HasType};
ghost use Rattle.hir_env.specs.Answering.{name_or_missing};
ghost use Rattle.hir_env.specs.Paths.{lifetime_of};
ghost use Rattle.hir_env.specs.Whole.{resolved_constant, bounds_part, type_part};
ghost use Rattle.hir_lower_builder.specs.Lower as steps;
ghost use Rattle.hir_lower_builder.specs.Lowering.{Lowers, alloc_type, param_type};
ghost use Rattle.hir_lower_callbacks.specs.ResolveCtxs.{rctx_at};
ghost use Rattle.hir_lower_item.specs.Answering as of;
ghost use Rattle.hir_lower_item.specs.Answering.{at_place};
ghost use Rattle.hir_lower_item.specs.Items as item;
ghost use Rattle.hir_lower_item.specs.Lower as spec;

use crate::constants::{constant_if_present, stored_name, type_if_present, type_or_error};
use crate::places::{in_bounds, in_plain, pointer};
use crate::predicates::{Bounded, ask_each, predicates};
use hir_base::node::{AstPtr, InFile};
use hir_env::ctx::LowerCtx;
use hir_env::env::LowerEnv;
use hir_lower_builder::builder::StoredBody;
use hir_lower_builder::parts::site;
use hir_lower_type::lifetimes::{lifetime, lifetime_ref};
use hir_store::diagnostics::ExpressionStoreDiagnostics;
use hir_store::error::StoreError;
use hir_store::generics::{
    ConstParamData, LifetimeBoundType, LifetimeParamData, TypeOrConstParamData, TypeParamData,
    TypeParamProvenance,
};
use hir_store::ids::{GenericDefId, LocalTypeOrConstParamId, TypeParamId, TypeRefId};
use hir_store::name::Name;
use hir_store::type_ref::{LifetimeRef, TypeRef};
use hir_syntax::items::{GenericParam, GenericParamList, WhereClause};
use hir_syntax::{Boxed, Seq, ast};
use std::alloc::Global;

/// The type that a parameter of this number is, which comes from no node.
fn own_type(
    state: &mut StoredBody,
    parent: GenericDefId,
    number: u32,
) -> Result<TypeRefId, StoreError>
    ensures { Lowers HasType (alloc_type (param_type parent number) None) state.old result state.new }
{
    let local_id = LocalTypeOrConstParamId(number);
    state.alloc_type(TypeRef::TypeParam(TypeParamId { parent, local_id }), None)
}

/// A type parameter, the type that it is, and its bounds, which are read at this place.
pub(crate) fn type_param_form<E: LowerEnv>(
    alloc: Global,
    env: &E,
    place: LowerCtx,
    state: &mut StoredBody,
    def: GenericDefId,
    name: Name,
    default: Option<TypeRefId>,
    provenance: TypeParamProvenance,
    bounds: &Seq<ast::TypeBound>,
) -> Result<(), StoreError>
    ensures { let at = rctx_at (E.answers env.now) place in
        Lowers HasNone (spec.type_param_form def name default provenance (bounds_part at bounds.now)) state.old result state.new }
{
    let number = state.add_param(TypeOrConstParamData::TypeParamData(TypeParamData {
        name: Some(name),
        default,
        provenance,
    }))?;
    let target = Bounded::Type_(own_type(state, def, number)?);
    ask_each(alloc, env, place, state, &None, &target, bounds.as_slice())
}

fn type_param<E: LowerEnv>(
    alloc: Global,
    env: &E,
    place: LowerCtx,
    state: &mut StoredBody,
    def: GenericDefId,
    name: &Option<ast::Name>,
    default: &Option<Boxed<ast::Type_>>,
    bounds: &Seq<ast::TypeBound>,
) -> Result<(), StoreError>
    ensures { let at = rctx_at (E.answers env.now) place in
        Lowers HasNone (spec.lower_param def (item.type_param (name_or_missing name.now) (type_part (at_place of.in_plain at) default.now)
        (bounds_part (at_place (of.in_bounds def) at) bounds.now))) state.old result state.new }
{
    let default = type_if_present(alloc, env, in_plain(place), state, default)?;
    let name = stored_name(name)?;
    let from = TypeParamProvenance::TypeParamList;
    let inside = in_bounds(def, place);
    type_param_form(alloc, env, inside, state, def, name, default, from, bounds)
}

fn const_param<E: LowerEnv>(
    alloc: Global,
    env: &E,
    place: LowerCtx,
    state: &mut StoredBody,
    name: &Option<ast::Name>,
    ty: &Option<Boxed<ast::Type_>>,
    default: &Option<ast::ConstArg>,
) -> Result<(), StoreError>
    ensures { let at = at_place of.in_plain (rctx_at (E.answers env.now) place) in
        Lowers HasNone (spec.const_param_form (name_or_missing name.now) (steps.type_part None (type_part at ty.now))
        (spec.present_constant (option_map (resolved_constant at) default.now))) state.old result state.new }
{
    let inside = in_plain(place);
    let ty = type_or_error(alloc, env, inside, state, ty)?;
    let default = constant_if_present(alloc, env, inside, state, default)?;
    let name = stored_name(name)?;
    let data = ConstParamData { name, ty, default };
    let _ = state.add_param(TypeOrConstParamData::ConstParamData(data))?;
    Ok(())
}

/// A lifetime that is written: a parameter where it has a name.
fn written_lifetime<E: LowerEnv>(
    alloc: Global,
    env: &E,
    place: LowerCtx,
    state: &mut StoredBody,
    def: GenericDefId,
    written: &ast::Lifetime,
    bounds: &Seq<ast::TypeBound>,
) -> Result<(), StoreError>
    ensures { let at = rctx_at (E.answers env.now) place in
        Lowers HasNone (spec.lower_param def (of.lifetime_param_of (Some (lifetime_of (of.in_plain place) written.now))
        (bounds_part (at_place (of.in_bounds def) at) bounds.now))) state.old result state.new }
{
    let id = lifetime(state, in_plain(place), written)?;
    let text = lifetime_ref(written)?;
    let LifetimeRef::Named(name) = &text else {
        return Ok(());
    };
    state.add_lifetime_param(LifetimeParamData {
        name: name.clone()?,
        bound_type: LifetimeBoundType::EarlyBound,
    })?;
    let target = Bounded::Lifetime(text, id);
    let inside = in_bounds(def, place);
    ask_each(alloc, env, inside, state, &None, &target, bounds.as_slice())
}

/// A lifetime parameter. Where it is absent a placeholder is stored that comes from no node.
fn lifetime_param<E: LowerEnv>(
    alloc: Global,
    env: &E,
    place: LowerCtx,
    state: &mut StoredBody,
    def: GenericDefId,
    lifetime: &Option<ast::Lifetime>,
    bounds: &Seq<ast::TypeBound>,
) -> Result<(), StoreError>
    ensures { let at = rctx_at (E.answers env.now) place in
        Lowers HasNone (spec.lower_param def (of.lifetime_param_of (option_map (lifetime_of (of.in_plain place)) lifetime.now)
        (bounds_part (at_place (of.in_bounds def) at) bounds.now))) state.old result state.new }
{
    match lifetime {
        None => {
            let _ = state.alloc_lifetime(LifetimeRef::Placeholder, None)?;
            Ok(())
        }
        Some(written) => written_lifetime(alloc, env, place, state, def, written, bounds),
    }
}

/// A parameter that no condition disables.
fn kept_param<E: LowerEnv>(
    alloc: Global,
    env: &E,
    place: LowerCtx,
    state: &mut StoredBody,
    def: GenericDefId,
    node: &GenericParam,
) -> Result<(), StoreError>
    ensures { let at = rctx_at (E.answers env.now) place in
        Lowers HasNone (spec.lower_param def (of.kept_param at def node.now)) state.old result state.new }
{
    match node {
        GenericParam::TypeParam {
            id: _,
            range: _,
            name,
            bounds,
            default,
        } => type_param(alloc, env, place, state, def, name, default, bounds),
        GenericParam::ConstParam {
            id: _,
            range: _,
            name,
            ty,
            default,
        } => const_param(alloc, env, place, state, name, ty, default),
        GenericParam::LifetimeParam {
            id: _,
            range: _,
            lifetime,
            bounds,
        } => lifetime_param(alloc, env, place, state, def, lifetime, bounds),
    }
}

/// A parameter's own node.
fn param_node(place: LowerCtx, node: &GenericParam) -> InFile<AstPtr>
    ensures { result ≡ of.param_pointer place node.now }
{
    match node {
        GenericParam::TypeParam { id, range, .. } => pointer(place, *id, *range),
        GenericParam::ConstParam { id, range, .. } => pointer(place, *id, *range),
        GenericParam::LifetimeParam { id, range, .. } => pointer(place, *id, *range),
    }
}

fn param<E: LowerEnv>(
    alloc: Global,
    env: &E,
    place: LowerCtx,
    state: &mut StoredBody,
    def: GenericDefId,
    node: &GenericParam,
) -> Result<(), StoreError>
    ensures { let at = rctx_at (E.answers env.now) place in
        Lowers HasNone (spec.lower_param def (of.resolved_param at def node.now)) state.old result state.new }
{
    let at = param_node(place, node);
    match env.cfg(site(at)) {
        Err(cfg) => state.report(ExpressionStoreDiagnostics::InactiveCode { node: at, cfg }),
        Ok(()) => kept_param(alloc, env, place, state, def, node),
    }
}

fn each_param<E: LowerEnv>(
    alloc: Global,
    env: &E,
    place: LowerCtx,
    state: &mut StoredBody,
    def: GenericDefId,
    mut left: &[GenericParam],
) -> Result<(), StoreError>
    ensures { let at = rctx_at (E.answers env.now) place in
        Lowers HasNone (spec.lower_params def (of.params_part at def left.entry.now)) state.old result state.new }
{
    while let [one, rest @ ..] = left {
        param(alloc, env, place, state, def, one)?;
        left = rest;
    }
    Ok(())
}

/// The parameters of a list, none where it is absent.
fn params<E: LowerEnv>(
    alloc: Global,
    env: &E,
    place: LowerCtx,
    state: &mut StoredBody,
    def: GenericDefId,
    list: Option<&GenericParamList>,
) -> Result<(), StoreError>
    ensures { let at = rctx_at (E.answers env.now) place in
        Lowers HasNone (spec.lower_params def (of.list_part at def (option_copied list.entry))) state.old result state.new }
{
    match list {
        None => Ok(()),
        Some(list) => each_param(alloc, env, place, state, def, list.as_slice()),
    }
}

/// The parameters, then the where predicates, of this item. An absent list is empty.
pub fn generics<E: LowerEnv>(
    alloc: Global,
    env: &E,
    place: LowerCtx,
    state: &mut StoredBody,
    def: GenericDefId,
    list: Option<&GenericParamList>,
    clause: Option<&WhereClause>,
) -> Result<(), StoreError>
    ensures { let at = rctx_at (E.answers env.now) place in
        let read = of.resolved_generics at def (option_copied list.entry) (option_copied clause.entry) in
        Lowers HasNone (spec.lower_generics def read) state.old result state.new }
{
    params(alloc, env, place, state, def, list)?;
    predicates(alloc, env, place, state, def, clause)
}

//! Bounds, and the predicates that they become.

ghost use Rattle.std.specs.Prelude.{◌≡◌, IfOk, None, option_copied, option_map};
ghost use Rattle.hir_store.specs.Range.{HasNone};
ghost use Rattle.hir_env.specs.Whole.{resolved_type, bounds_part};
ghost use Rattle.hir_env.specs.Paths.{lifetime_of};
ghost use Rattle.hir_lower_builder.specs.Lowering.{Lowers};
ghost use Rattle.hir_lower_callbacks.specs.ResolveCtxs.{rctx_at};
ghost use Rattle.hir_lower_item.specs.Answering as of;
ghost use Rattle.hir_lower_item.specs.Answering.{at_place};
ghost use Rattle.hir_lower_item.specs.Items.{of_lifetime, of_type};
ghost use Rattle.hir_lower_item.specs.Lower as spec;

use crate::places::{in_bounds, in_target};
use hir_env::ctx::{LifetimeScope, LowerCtx};
use hir_env::env::LowerEnv;
use hir_lower_builder::builder::StoredBody;
use hir_lower_recursion::items::lower_bound;
use hir_lower_recursion::knot::lower_type_node;
use hir_lower_type::lifetimes::{lifetime, lifetime_ref};
use hir_store::error::StoreError;
use hir_store::generics::WherePredicate;
use hir_store::ids::{GenericDefId, LifetimeRefId, TypeRefId};
use hir_store::name::Name;
use hir_store::shared::SharedNames;
use hir_store::type_ref::{LifetimeRef, TypeBound};
use hir_syntax::items::{WhereClause, WherePred};
use hir_syntax::{Seq, ast};
use std::alloc::{AllocError, Global};

/// What bounds are of: a type, or a lifetime, with what its text says.
#[derive(Drop)]
pub enum Bounded {
    Type_(TypeRefId),
    Lifetime(LifetimeRef, LifetimeRefId),
}

/// The names of a `for<..>`, where one stands there, for one predicate more. They aren't copied.
fn share_binder(names: &Option<SharedNames>) -> Result<Option<SharedNames>, AllocError>
    ensures { IfOk result (λ shared. shared ≡ names.now) }
{
    match names {
        None => Ok(None),
        Some(names) => Ok(Some(names.clone()?)),
    }
}

/// What a bound of a type becomes.
fn ask_of_type(
    state: &mut StoredBody,
    binder: &Option<SharedNames>,
    target: TypeRefId,
    bound: TypeBound,
) -> Result<(), StoreError>
    ensures { Lowers HasNone (spec.ask binder.now (Bounded.Type_ target) bound) state.old result state.new }
{
    match &bound {
        TypeBound::Error | TypeBound::Use(_) => Ok(()),
        TypeBound::Path(_, _) | TypeBound::ForLifetime(_, _) | TypeBound::Lifetime(_) => {
            let lifetimes = share_binder(binder)?;
            state.add_predicate(WherePredicate::TypeBound {
                lifetimes,
                target,
                bound,
            })
        }
    }
}

/// What a bound of a lifetime becomes: a predicate only where it is a lifetime, too.
fn ask_of_lifetime(
    state: &mut StoredBody,
    text: &LifetimeRef,
    target: LifetimeRefId,
    bound: TypeBound,
) -> Result<(), StoreError>
    ensures { Lowers HasNone (spec.ask None (Bounded.Lifetime text.now target) bound) state.old result state.new }
{
    match &bound {
        TypeBound::Lifetime(bound) => {
            let bound = *bound;
            state.track_lifetime(LifetimeScope::Bound, text)?;
            state.add_predicate(WherePredicate::Lifetime { target, bound })
        }
        TypeBound::Path(_, _) | TypeBound::ForLifetime(_, _) => Ok(()),
        TypeBound::Use(_) | TypeBound::Error => Ok(()),
    }
}

/// What a bound becomes, behind the names of a `for<..>`, where one stands there.
fn ask(
    state: &mut StoredBody,
    binder: &Option<SharedNames>,
    target: &Bounded,
    bound: TypeBound,
) -> Result<(), StoreError>
    ensures { Lowers HasNone (spec.ask binder.now target.now bound) state.old result state.new }
{
    match target {
        Bounded::Type_(target) => ask_of_type(state, binder, *target, bound),
        Bounded::Lifetime(text, target) => ask_of_lifetime(state, text, *target, bound),
    }
}

/// Each bound, read at this place, and what becomes of it before the next.
pub(crate) fn ask_each<E: LowerEnv>(
    alloc: Global,
    env: &E,
    place: LowerCtx,
    state: &mut StoredBody,
    binder: &Option<SharedNames>,
    target: &Bounded,
    mut left: &[ast::TypeBound],
) -> Result<(), StoreError>
    ensures { let at = rctx_at (E.answers env.now) place in
        Lowers HasNone (spec.ask_each binder.now target.now (bounds_part at left.entry.now)) state.old result state.new }
{
    while let [one, rest @ ..] = left {
        let bound = lower_bound(alloc, env, place, state, one)?;
        ask(state, binder, target, bound)?;
        left = rest;
    }
    Ok(())
}

/// The name of a lifetime of a `for<..>`, missing where it is absent.
fn binder_name(lifetime: &Option<ast::Lifetime>) -> Result<Name, AllocError>
    ensures { IfOk result (λ n. n ≡ of.binder_name lifetime.now) }
{
    match lifetime {
        None => Ok(Name::Missing),
        Some(lifetime) => Ok(Name::Text(lifetime.t.clone()?)),
    }
}

fn binder_names(alloc: Global, mut left: &[Option<ast::Lifetime>]) -> Result<Seq<Name>, AllocError>
    ensures { IfOk result (λ names. names ≡ of.binder_names left.entry.now) }
{
    let mut names = Seq::new(alloc);
    while let [one, rest @ ..] = left {
        names.push(binder_name(one)?)?;
        left = rest;
    }
    Ok(names)
}

/// The names of a `for<..>`.
fn where_binder(alloc: Global, binder: &ast::ForBinder) -> Result<SharedNames, AllocError>
    ensures { IfOk result (λ names. names ≡ of.where_binder binder.now) }
{
    let names = binder_names(alloc, binder.params.as_slice())?;
    SharedNames::new(alloc, names)
}

/// The names of a `for<..>`, where one stands there.
fn binder_if_present(
    alloc: Global,
    binder: &Option<ast::ForBinder>,
) -> Result<Option<SharedNames>, AllocError>
    ensures { IfOk result (λ names. names ≡ option_map of.where_binder binder.now) }
{
    match binder {
        None => Ok(None),
        Some(binder) => Ok(Some(where_binder(alloc, binder)?)),
    }
}

/// A predicate of a type.
fn of_type<E: LowerEnv>(
    alloc: Global,
    env: &E,
    place: LowerCtx,
    state: &mut StoredBody,
    def: GenericDefId,
    ty: &ast::Type_,
    binder: &Option<ast::ForBinder>,
    bounds: &Seq<ast::TypeBound>,
) -> Result<(), StoreError>
    ensures { let at = rctx_at (E.answers env.now) place in
        Lowers HasNone (spec.lower_predicate (of_type (resolved_type (at_place of.in_target at) ty.now)
        (option_map of.where_binder binder.now) (bounds_part (at_place (of.in_bounds def) at) bounds.now))) state.old result state.new }
{
    let id = lower_type_node(alloc, env, in_target(place), state, &None, ty)?;
    let names = binder_if_present(alloc, binder)?;
    let target = Bounded::Type_(id);
    let inside = in_bounds(def, place);
    ask_each(
        alloc,
        env,
        inside,
        state,
        &names,
        &target,
        bounds.as_slice(),
    )
}

/// A predicate of a lifetime.
fn of_lifetime<E: LowerEnv>(
    alloc: Global,
    env: &E,
    place: LowerCtx,
    state: &mut StoredBody,
    def: GenericDefId,
    written: &ast::Lifetime,
    bounds: &Seq<ast::TypeBound>,
) -> Result<(), StoreError>
    ensures { let at = rctx_at (E.answers env.now) place in
        Lowers HasNone (spec.lower_predicate (of_lifetime (lifetime_of (of.in_target place) written.now)
        (bounds_part (at_place (of.in_bounds def) at) bounds.now))) state.old result state.new }
{
    let id = lifetime(state, in_target(place), written)?;
    let target = Bounded::Lifetime(lifetime_ref(written)?, id);
    let inside = in_bounds(def, place);
    ask_each(alloc, env, inside, state, &None, &target, bounds.as_slice())
}

fn predicate<E: LowerEnv>(
    alloc: Global,
    env: &E,
    place: LowerCtx,
    state: &mut StoredBody,
    def: GenericDefId,
    node: &WherePred,
) -> Result<(), StoreError>
    ensures { let at = rctx_at (E.answers env.now) place in
        Lowers HasNone (spec.lower_predicate (of.resolved_predicate at def node.now)) state.old result state.new }
{
    match (&node.ty, &node.lifetime) {
        (Some(ty), _) => {
            let ty = ty.get();
            of_type(
                alloc,
                env,
                place,
                state,
                def,
                ty,
                &node.binder,
                &node.bounds,
            )
        }
        (None, Some(written)) => {
            of_lifetime(alloc, env, place, state, def, written, &node.bounds)
        }
        (None, None) => Ok(()),
    }
}

fn each_predicate<E: LowerEnv>(
    alloc: Global,
    env: &E,
    place: LowerCtx,
    state: &mut StoredBody,
    def: GenericDefId,
    mut left: &[WherePred],
) -> Result<(), StoreError>
    ensures { let at = rctx_at (E.answers env.now) place in
        Lowers HasNone (spec.lower_predicates (of.predicates_part at def left.entry.now)) state.old result state.new }
{
    while let [one, rest @ ..] = left {
        predicate(alloc, env, place, state, def, one)?;
        left = rest;
    }
    Ok(())
}

/// The predicates of a where clause, none where it is absent.
pub(crate) fn predicates<E: LowerEnv>(
    alloc: Global,
    env: &E,
    place: LowerCtx,
    state: &mut StoredBody,
    def: GenericDefId,
    clause: Option<&WhereClause>,
) -> Result<(), StoreError>
    ensures { let at = rctx_at (E.answers env.now) place in
        Lowers HasNone (spec.lower_predicates (of.where_part at def (option_copied clause.entry))) state.old result state.new }
{
    match clause {
        None => Ok(()),
        Some(clause) => each_predicate(alloc, env, place, state, def, clause.as_slice()),
    }
}

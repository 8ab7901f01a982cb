//! How a walk goes from one scope to another one.

ghost use Rattle.std.specs.Prelude.{◌≡◌, ◌<◌, ◌+◌, ◌++◌, List, MatchOption, Option, IfOk, Some, slice_get};
ghost use Rattle.std.specs.List.{flat_map};
ghost use Rattle.hir_lower_scope.specs.ScopeRibs.{Rib};
ghost use Rattle.hir_names.specs.Steps.{IsStep};
ghost use Rattle.hir_names.specs.Walk.{IsInScope, Leads, how_far, macro_ribs, own_ribs};
ghost use Rattle.hir_scopes.specs.Bounds.{IsBefore};
ghost use Rattle.hir_scopes.specs.declared.scope.ScopeId.{ScopeId as Scope};
ghost use Rattle.hir_store.specs.Stored.{Store};
ghost use Rattle.hir_store.specs.declared.ids.BindingId.{BindingId as Id};
ghost use Rattle.spec_scopes.specs.Scopes.{binding_rib, binding_ribs};

use crate::stacks::NameStacks;
use hir_base::Seq;
use hir_scopes::scope::{ExprScopes, ScopeId};
use hir_store::ids::{BindingId, MacroDefId};
use hir_store::store::ExpressionStore;
use std::alloc::{AllocError, Global};

/// Brings a binding in scope, if the store has it.
#[tactic(auto, using(crate::proofs::PlaceLemmas::entered_binding, crate::proofs::PlaceLemmas::no_binding_entered))]
fn enter_binding(
    store: &ExpressionStore,
    stacks: &mut NameStacks,
    id: BindingId,
) -> Result<(), AllocError>
    ensures { IfOk result (λ _. stacks.new ≡ binding_rib store.now id (slice_get store.now.bindings id.0) ++ stacks.old) }
{
    match store.binding(id) {
        None => Ok(()),
        Some(binding) => {
            stacks.enter_binding(id, binding)?;
            Ok(())
        }
    }
}

/// Leaves a binding, if the store has it.
#[tactic(auto, using(crate::proofs::PlaceLemmas::binding_left, crate::proofs::PlaceLemmas::no_binding_left))]
fn leave_binding(store: &ExpressionStore, stacks: &mut NameStacks, id: BindingId)
    ensures { (rs : List (Rib Id)) → binding_rib store.now id (slice_get store.now.bindings id.0) ++ rs ≡ stacks.old → stacks.new ≡ rs }
{
    match store.binding(id) {
        None => {}
        Some(_) => stacks.leave(),
    }
}

/// Brings these bindings in scope, the last one first: the first is then the innermost.
fn enter_bindings(
    store: &ExpressionStore,
    stacks: &mut NameStacks,
    mut left: &[BindingId],
) -> Result<(), AllocError>
    ensures { IfOk result (λ _. stacks.new ≡ binding_ribs store.now left.entry.now ++ stacks.old) }
{
    while let Some(split) = left.split_last() {
        enter_binding(store, stacks, *split.0)?;
        left = split.1;
    }
    Ok(())
}

/// Leaves these bindings.
fn leave_bindings(store: &ExpressionStore, stacks: &mut NameStacks, mut left: &[BindingId])
    ensures { (rs : List (Rib Id)) → binding_ribs store.now left.entry.now ++ rs ≡ stacks.old → stacks.new ≡ rs }
{
    while let Some(split) = left.split_first() {
        leave_binding(store, stacks, *split.0);
        left = split.1;
    }
}

fn enter_macro(stacks: &mut NameStacks, def: Option<MacroDefId>) -> Result<(), AllocError>
    ensures { IfOk result (λ _. stacks.new ≡ macro_ribs def ++ stacks.old) }
{
    match def {
        None => Ok(()),
        Some(def) => stacks.enter_macro(def),
    }
}

fn leave_macro(stacks: &mut NameStacks, def: Option<MacroDefId>)
    ensures { (rs : List (Rib Id)) → macro_ribs def ++ rs ≡ stacks.old → stacks.new ≡ rs }
{
    match def {
        None => {}
        Some(_) => stacks.leave(),
    }
}

/// Enters a scope, from the one around it.
fn enter_scope(
    store: &ExpressionStore,
    scopes: &ExprScopes,
    stacks: &mut NameStacks,
    scope: ScopeId,
) -> Result<(), AllocError>
    ensures { IfOk result (λ _. stacks.new ≡ own_ribs store.now scopes.now scope ++ stacks.old) }
{
    enter_macro(stacks, scopes.macro_def(scope))?;
    enter_bindings(store, stacks, scopes.entries(scope))?;
    Ok(())
}

/// Leaves a scope, for the one around it.
fn leave_scope(
    store: &ExpressionStore,
    scopes: &ExprScopes,
    stacks: &mut NameStacks,
    scope: ScopeId,
)
    ensures { (rs : List (Rib Id)) → own_ribs store.now scopes.now scope ++ rs ≡ stacks.old → stacks.new ≡ rs }
{
    leave_bindings(store, stacks, scopes.entries(scope));
    leave_macro(stacks, scopes.macro_def(scope));
}

/// Two scopes: the one where the walk stands, and the one that it is to enter next of those on its way.
#[derive(Clone, Copy)]
struct Ends {
    here: Option<ScopeId>,
    there: Option<ScopeId>,
}

/// A step outward: the scope where the walk stands is left, or the other one is put on the way.
#[derive(Clone, Copy)]
enum Step {
    Out(ScopeId),
    OnWay(ScopeId),
}

/// Of two scopes the step from the one with the greater id; none if the two are one.
fn later_one(here: ScopeId, there: ScopeId) -> Option<Step>
    ensures { MatchOption result (here ≡ there) (λ s. IsStep (record { here = Some here; there = Some there }) s) }
{
    if here == there {
        None
    } else if here.0 < there.0 {
        Some(Step::OnWay(there))
    } else {
        Some(Step::Out(here))
    }
}

/// The next step, from the scope that was opened later; none if the two are one.
fn next_step(ends: Ends) -> Option<Step>
    ensures { MatchOption result (ends.here ≡ ends.there) (λ s. IsStep ends s) }
{
    match (ends.here, ends.there) {
        (None, None) => None,
        (Some(here), None) => Some(Step::Out(here)),
        (None, Some(there)) => Some(Step::OnWay(there)),
        (Some(here), Some(there)) => later_one(here, there),
    }
}

/// Leaves this scope. Returns the one around it.
fn go_out(
    store: &ExpressionStore,
    scopes: &ExprScopes,
    stacks: &mut NameStacks,
    here: ScopeId,
) -> Option<ScopeId>
    requires { IsInScope store.now scopes.now (Some here) stacks.old }
    ensures here { IsInScope store.now scopes.now result stacks.new }
    ensures before { IsBefore result here.0 }
{
    leave_scope(store, scopes, stacks, here);
    scopes.parent(here)
}

/// Puts this scope on the way. Returns the one around it.
fn put_on_way(
    scopes: &ExprScopes,
    way: &mut Seq<ScopeId>,
    there: ScopeId,
) -> Result<Option<ScopeId>, AllocError>
    ensures way { IfOk result (λ r. (store : Store) (to : Option Scope) → Leads store scopes.now to (Some there) way.old
        → Leads store scopes.now to r way.new) }
    ensures before { IfOk result (λ r. IsBefore r there.0) }
{
    way.push(there)?;
    Ok(scopes.parent(there))
}

/// Goes one step.
fn take_step(
    store: &ExpressionStore,
    scopes: &ExprScopes,
    stacks: &mut NameStacks,
    way: &mut Seq<ScopeId>,
    ends: Ends,
    step: Step,
) -> Result<Ends, AllocError>
    requires step { IsStep ends step }
    requires here { IsInScope store.now scopes.now ends.here stacks.old }
    ensures here { IfOk result (λ r. IsInScope store.now scopes.now r.here stacks.new) }
    ensures way { IfOk result (λ r. (to : Option Scope) → Leads store.now scopes.now to ends.there way.old
        → Leads store.now scopes.now to r.there way.new) }
    ensures nearer { IfOk result (λ r. how_far r.here + how_far r.there < how_far ends.here + how_far ends.there) }
{
    match step {
        Step::Out(here) => {
            let outer = go_out(store, scopes, stacks, here);
            Ok(Ends {
                here: outer,
                there: ends.there,
            })
        }
        Step::OnWay(there) => {
            let outer = put_on_way(scopes, way, there)?;
            Ok(Ends {
                here: ends.here,
                there: outer,
            })
        }
    }
}

/// Enters these scopes, the last one first.
fn enter_way(
    store: &ExpressionStore,
    scopes: &ExprScopes,
    stacks: &mut NameStacks,
    mut left: Seq<ScopeId>,
) -> Result<(), AllocError>
    ensures { IfOk result (λ _. stacks.new ≡ flat_map (own_ribs store.now scopes.now) left ++ stacks.old) }
{
    while let Some(scope) = left.pop() {
        enter_scope(store, scopes, stacks, scope)?;
    }
    Ok(())
}

/// Goes from one scope to another one, out to the innermost that is around both and in again.
pub(crate) fn move_to(
    alloc: Global,
    store: &ExpressionStore,
    scopes: &ExprScopes,
    stacks: &mut NameStacks,
    from: Option<ScopeId>,
    to: Option<ScopeId>,
) -> Result<(), AllocError>
    requires { IsInScope store.now scopes.now from stacks.old }
    ensures { IfOk result (λ _. IsInScope store.now scopes.now to stacks.new) }
{
    let mut way = Seq::new(alloc);
    let mut ends = Ends {
        here: from,
        there: to,
    };
    while let Some(step) = next_step(ends) {
        ends = take_step(store, scopes, stacks, &mut way, ends, step)?;
    }
    enter_way(store, scopes, stacks, way)
}

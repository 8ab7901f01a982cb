//! The scopes of what a condition or a pattern guards.

ghost use Rattle.std.specs.Prelude.{◌∷◌, ◌++◌, [], IfOk, Some};
ghost use Rattle.std.specs.List.{flat_map};
ghost use Rattle.hir_scopes.specs.Chains.{Grown, InRange};
ghost use Rattle.hir_scopes.specs.Records.{Kept, Recorded, Walked};
ghost use Rattle.spec_scopes.specs.Placed as spec;
ghost use Rattle.spec_scopes.specs.Placed.{after_part, in_scope};
ghost use Rattle.spec_scopes.specs.Scopes.{binding_scope, pat_scope};

use crate::compute::{part, part_option};
use crate::opening::{Around, open_empty, open_pat};
use crate::scope::ExprScopes;
use hir_store::error::StoreError;
use hir_store::hir::MatchArm;
use hir_store::ids::{ExprId, PatId};
use hir_store::store::ExpressionStore;
use std::alloc::Global;

/// A guard stands in the scope of its arm, and the value behind the guard.
#[cycle(scopes)]
fn guard_scopes(
    alloc: Global,
    store: &ExpressionStore,
    scopes: &mut ExprScopes,
    whole: ExprId,
    guard: ExprId,
    value: ExprId,
    around: Around,
) -> Result<(), StoreError>
    requires { InRange scopes.old around }
    ensures grown { IfOk result (λ _. Grown scopes.old scopes.new) }
    ensures recorded { IfOk result (λ _. Recorded store.now whole scopes.old scopes.new around
        (spec.placed_guarded store.now (after_part store.now whole) (Some guard) value)) }
{
    let scope = open_empty(scopes, around.scope)?;
    let inner = Around {
        scope,
        const_scope: around.const_scope,
    };
    let behind = part(alloc, store, scopes, whole, guard, inner)?;
    part(alloc, store, scopes, whole, value, behind)?;
    Ok(())
}

/// The bindings of an arm are in scope in its guard and its value.
#[cycle(scopes)]
fn arm_scopes(
    alloc: Global,
    store: &ExpressionStore,
    scopes: &mut ExprScopes,
    whole: ExprId,
    arm: MatchArm,
    around: Around,
) -> Result<(), StoreError>
    requires { InRange scopes.old around }
    ensures grown { IfOk result (λ _. Grown scopes.old scopes.new) }
    ensures recorded { IfOk result (λ _. Recorded store.now whole scopes.old scopes.new around
        (λ x. spec.placed_arm store.now (after_part store.now whole) x arm)) }
{
    let scope = open_pat(store, scopes, around.scope, arm.pat)?;
    let inner = Around {
        scope,
        const_scope: around.const_scope,
    };
    match arm.guard {
        None => {
            part(alloc, store, scopes, whole, arm.expr, inner)?;
            Ok(())
        }
        Some(guard) => {
            guard_scopes(alloc, store, scopes, whole, guard, arm.expr, inner)?;
            Ok(())
        }
    }
}

#[cycle(scopes)]
fn arms_scopes(
    alloc: Global,
    store: &ExpressionStore,
    scopes: &mut ExprScopes,
    whole: ExprId,
    mut left: &[MatchArm],
    around: Around,
) -> Result<(), StoreError>
    requires { InRange scopes.old around }
    ensures grown { IfOk result (λ _. Grown scopes.old scopes.new) }
    ensures recorded { IfOk result (λ _. Recorded store.now whole scopes.old scopes.new around
        (λ x. flat_map (spec.placed_arm store.now (after_part store.now whole) x) left.entry.now)) }
{
    while let [arm, rest @ ..] = left {
        arm_scopes(alloc, store, scopes, whole, *arm, around)?;
        left = rest;
    }
    Ok(())
}

/// What is matched stands in front of the arms.
#[cycle(scopes)]
pub(crate) fn match_scopes(
    alloc: Global,
    store: &ExpressionStore,
    scopes: &mut ExprScopes,
    whole: ExprId,
    scrutinee: ExprId,
    arms: &[MatchArm],
    around: Around,
) -> Result<Around, StoreError>
    requires { InRange scopes.old around }
    ensures kept { IfOk result (Kept scopes.old scopes.new) }
    ensures walked { let after = after_part store.now whole in
        IfOk result (Walked store.now whole scopes.old scopes.new around
        (λ x. (scrutinee, x) ∷ flat_map (spec.placed_arm store.now after (spec.past store.now after scrutinee x)) arms.now)
        (spec.past store.now after scrutinee)) }
{
    let behind = part(alloc, store, scopes, whole, scrutinee, around)?;
    arms_scopes(alloc, store, scopes, whole, arms, behind)?;
    Ok(behind)
}

/// The bindings of a condition are in scope in its branch, not in the `else`.
#[cycle(scopes)]
pub(crate) fn if_scopes(
    alloc: Global,
    store: &ExpressionStore,
    scopes: &mut ExprScopes,
    whole: ExprId,
    condition: ExprId,
    then_branch: ExprId,
    else_branch: Option<ExprId>,
    around: Around,
) -> Result<Around, StoreError>
    requires { InRange scopes.old around }
    ensures kept { IfOk result (Kept scopes.old scopes.new) }
    ensures walked { let after = after_part store.now whole in
        IfOk result (Walked store.now whole scopes.old scopes.new around
        (λ x. spec.placed_branch store.now after condition then_branch (in_scope x (binding_scope [] ∷ x.names))
        ++ spec.placed_option store.now after else_branch x)
        (spec.past_option store.now after else_branch)) }
{
    let scope = open_empty(scopes, around.scope)?;
    let inner = Around {
        scope,
        const_scope: around.const_scope,
    };
    let behind = part(alloc, store, scopes, whole, condition, inner)?;
    part(alloc, store, scopes, whole, then_branch, behind)?;
    let behind_else = part_option(alloc, store, scopes, whole, else_branch, around)?;
    Ok(behind_else)
}

/// The bindings of a `let` that is a condition are in scope behind it.
#[cycle(scopes)]
pub(crate) fn condition_scopes(
    alloc: Global,
    store: &ExpressionStore,
    scopes: &mut ExprScopes,
    whole: ExprId,
    pat: PatId,
    scrutinee: ExprId,
    around: Around,
) -> Result<Around, StoreError>
    requires { InRange scopes.old around }
    ensures kept { IfOk result (Kept scopes.old scopes.new) }
    ensures walked { IfOk result (Walked store.now whole scopes.old scopes.new around (λ x. (scrutinee, x) ∷ [])
        (λ x. in_scope x (pat_scope store.now pat ∷ after_part store.now whole scrutinee x.names))) }
{
    let behind = part(alloc, store, scopes, whole, scrutinee, around)?;
    let scope = open_pat(store, scopes, behind.scope, pat)?;
    Ok(Around {
        scope,
        const_scope: behind.const_scope,
    })
}

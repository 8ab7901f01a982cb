//! The scopes of constants, loops and closures.

ghost use Rattle.std.specs.Prelude.{◌∷◌, [], IfOk};
ghost use Rattle.hir_scopes.specs.Chains.{Grown, InRange};
ghost use Rattle.hir_scopes.specs.Records.{Kept, Recorded, Walked};
ghost use Rattle.spec_scopes.specs.Placed as spec;
ghost use Rattle.spec_scopes.specs.Placed.{after_part, in_constant, in_scope};
ghost use Rattle.spec_scopes.specs.Scopes.{loop_scope, pats_scope};

use crate::compute::part;
use crate::opening::{Around, open_loop, open_pats};
use crate::scope::ExprScopes;
use hir_store::error::StoreError;
use hir_store::ids::{ExprId, LabelId, PatId};
use hir_store::store::ExpressionStore;
use std::alloc::Global;

/// A constant sees what is in scope for constants.
#[cycle(scopes)]
pub(crate) fn constant_scopes(
    alloc: Global,
    store: &ExpressionStore,
    scopes: &mut ExprScopes,
    whole: ExprId,
    id: ExprId,
    around: Around,
) -> Result<(), StoreError>
    requires { InRange scopes.old around }
    ensures grown { IfOk result (λ _. Grown scopes.old scopes.new) }
    ensures recorded { IfOk result (λ _. Recorded store.now whole scopes.old scopes.new around
        (λ x. (id, in_constant x) ∷ [])) }
{
    let inner = Around {
        scope: around.const_scope,
        const_scope: around.const_scope,
    };
    part(alloc, store, scopes, whole, id, inner)?;
    Ok(())
}

/// What is repeated, and how often, which is a constant.
#[cycle(scopes)]
pub(crate) fn repeat_scopes(
    alloc: Global,
    store: &ExpressionStore,
    scopes: &mut ExprScopes,
    whole: ExprId,
    initializer: ExprId,
    length: ExprId,
    around: Around,
) -> Result<Around, StoreError>
    requires { InRange scopes.old around }
    ensures kept { IfOk result (Kept scopes.old scopes.new) }
    ensures walked { IfOk result (Walked store.now whole scopes.old scopes.new around
        (λ x. (initializer, x) ∷ (length, in_constant x) ∷ [])
        (spec.past store.now (after_part store.now whole) initializer)) }
{
    let behind = part(alloc, store, scopes, whole, initializer, around)?;
    constant_scopes(alloc, store, scopes, whole, length, around)?;
    Ok(behind)
}

#[cycle(scopes)]
pub(crate) fn loop_scopes(
    alloc: Global,
    store: &ExpressionStore,
    scopes: &mut ExprScopes,
    whole: ExprId,
    body: ExprId,
    label: Option<LabelId>,
    around: Around,
) -> Result<(), StoreError>
    requires { InRange scopes.old around }
    ensures grown { IfOk result (λ _. Grown scopes.old scopes.new) }
    ensures recorded { IfOk result (λ _. Recorded store.now whole scopes.old scopes.new around
        (λ x. (body, in_scope x (loop_scope label ∷ x.names)) ∷ [])) }
{
    let scope = open_loop(scopes, around.scope, label)?;
    let inner = Around {
        scope,
        const_scope: around.const_scope,
    };
    part(alloc, store, scopes, whole, body, inner)?;
    Ok(())
}

/// The bindings of all parameters of a closure are in one scope.
#[cycle(scopes)]
pub(crate) fn closure_scopes(
    alloc: Global,
    store: &ExpressionStore,
    scopes: &mut ExprScopes,
    whole: ExprId,
    args: &[PatId],
    body: ExprId,
    around: Around,
) -> Result<(), StoreError>
    requires { InRange scopes.old around }
    ensures grown { IfOk result (λ _. Grown scopes.old scopes.new) }
    ensures recorded { IfOk result (λ _. Recorded store.now whole scopes.old scopes.new around
        (λ x. (body, in_scope x (pats_scope store.now args.now ∷ x.names)) ∷ [])) }
{
    let scope = open_pats(store, scopes, around.scope, args)?;
    let inner = Around {
        scope,
        const_scope: around.const_scope,
    };
    part(alloc, store, scopes, whole, body, inner)?;
    Ok(())
}

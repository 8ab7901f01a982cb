//! All patterns inside a pattern, and their bindings.

ghost use Rattle.std.specs.Prelude.{◌≡◌, ◌≤◌, ◌-◌, ℕ, IfOk, length, take};
ghost use Rattle.hir_store.specs.declared.ids.PatId.{PatId as PatNumber};
ghost use Rattle.hir_store.specs.declared.ids.BindingId.{BindingId as BindingNumber};
ghost use Rattle.hir_walks.specs.Pats.{binding_at, bindings_in, pats_in, pats_to, taken};

use crate::pats::PatChildren;
use hir_store::error::StoreError;
use hir_store::ids::{BindingId, PatId};
use hir_store::pat::Pat;
use hir_store::store::ExpressionStore;

/// What is handed patterns, one after another. It doesn't walk itself.
pub trait PatSink {
    /// What it is after a pattern.
    ghost after: { Self → PatNumber → Self };

    fn take(&mut self, id: PatId) -> Result<(), StoreError>
        ensures { IfOk result (λ _. self.new ≡ after self.old id) };
}

/// Hands on the pattern and all inside it, each whole before its parts, and no more than `room`. Returns what room is left.
#[cycle(walk)]
#[tactic(auto, using(crate::proofs::PatLemmas::none_walked, crate::proofs::PatLemmas::part_walked, crate::proofs::PatLemmas::part_counted))]
pub(crate) fn walk_some<S: PatSink>(
    store: &ExpressionStore,
    id: PatId,
    room: u32,
    sink: &mut S,
) -> Result<u32, StoreError>
    ensures sink { IfOk result (λ _. (d : ℕ) → room ≤ d → sink.new ≡ taken S.after (take room (pats_to store.now d id)) sink.old) }
    ensures left { IfOk result (λ left. (d : ℕ) → room ≤ d → left ≡ room - length (pats_to store.now d id)) }
{
    if room == 0 {
        return Ok(0);
    }
    let Some(pat) = store.pat(id) else {
        return Ok(room);
    };
    sink.take(id)?;
    let mut left = room - 1;
    let mut parts = PatChildren::of(pat);
    while let Some(part) = parts.next() {
        if left == 0 {
            return Ok(0);
        }
        left = walk_some(store, part, left, sink)?;
    }
    Ok(left)
}

/// Hands on the pattern and all inside it, each whole before its parts, and no more than the store has.
pub fn walk_pats<S: PatSink>(
    store: &ExpressionStore,
    id: PatId,
    sink: &mut S,
) -> Result<(), StoreError>
    ensures { IfOk result (λ _. sink.new ≡ taken S.after (pats_in store.now id) sink.old) }
{
    walk_some(store, id, store.pats_len(), sink)?;
    Ok(())
}

/// What is handed bindings, one after another. It doesn't walk itself.
pub trait BindingSink {
    /// What it is after a binding.
    ghost after: { Self → BindingNumber → Self };

    fn take(&mut self, id: BindingId) -> Result<(), StoreError>
        ensures { IfOk result (λ _. self.new ≡ after self.old id) };
}

/// Is handed patterns, and hands on the bindings that these make.
#[derive(Drop)]
struct Bindings<'s, 'a, S> {
    store: &'s ExpressionStore,
    sink: &'a mut S,
}

impl<'s, 'a, S: BindingSink> PatSink for Bindings<'s, 'a, S> {
    ghost after = { λ v i. record v { sink = record v.sink { now = taken S.after (binding_at v.store.now i) v.sink.now } } };

    fn take(&mut self, id: PatId) -> Result<(), StoreError> {
        match self.store.pat(id) {
            Some(Pat::Bind { id, .. }) => self.sink.take(*id),
            _ => Ok(()),
        }
    }
}

/// Hands on the bindings that the pattern and those inside it make, as often as they stand there, in the order of `walk_pats`.
pub fn walk_bindings_in_pat<S: BindingSink>(
    store: &ExpressionStore,
    id: PatId,
    sink: &mut S,
) -> Result<(), StoreError>
    ensures { IfOk result (λ _. sink.new ≡ taken S.after (bindings_in store.now id) sink.old) }
{
    let mut bindings = Bindings { store, sink };
    walk_pats(store, id, &mut bindings)?;
    Ok(())
}

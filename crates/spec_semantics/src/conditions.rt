//! When the temporaries of the condition of a `while` end, with a `let` in it and without, and what ends none.

ghost use Rattle.spec_semantics.specs.Conditions.{ItemsAreSilent};
ghost use Rattle.spec_semantics.specs.Whiles.{EndsItsTemporaries, KeepsItsTemporaries};

/// The temporaries of the condition of `while a {}` end before it is tested.
#[tactic(auto, using(crate::proofs::Whiles::ends_its_temporaries))]
pub fn ends_its_temporaries()
    ensures { EndsItsTemporaries }
{}

/// Those of `while a && (let x = b) {}` don't.
#[tactic(auto, using(crate::proofs::Whiles::keeps_its_temporaries))]
pub fn keeps_its_temporaries()
    ensures { KeepsItsTemporaries }
{}

/// In `{ ITEM a }` only a happens: neither an item nor a tail ends temporaries.
#[tactic(auto, using(crate::proofs::Whiles::items_are_silent))]
pub fn items_are_silent()
    ensures { ItemsAreSilent }
{}

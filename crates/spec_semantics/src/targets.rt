//! Theorems of small assignments with macro calls in the assignee expression: what that is read as, and what they do.

ghost use Rattle.spec_semantics.specs.ReadTargets.{DestructuresThroughCalls, FindsDotsInTargets, KeepsDotsBehindCalls};
ghost use Rattle.spec_semantics.specs.ReadTargets.{CallsThroughCallees, IgnoresThroughCalls, MissesWhatIsGone};
ghost use Rattle.spec_semantics.specs.ReadTargets.{GoesThroughDisabledCalls, LandsWhereNothingCorresponds, LeadsBehindTheDots};
ghost use Rattle.spec_semantics.specs.ReadTargets.{LeadsFromFields, TakesPartsFromTheirNodes};
ghost use Rattle.spec_semantics.specs.ReadTargets.{CountsDisabledCallees, CountsDisabledDots, KeepsDisabledPlaces};

/// `m!() = 1` where m stands for a call of n and n for `(1, 2)` reads the value, then both places, and assigns to the tuple.
#[tactic(auto, using(crate::proofs::ReadTargets::destructures_through_calls))]
pub fn destructures_through_calls()
    ensures { DestructuresThroughCalls }
{}

/// `(m!(), 2) = 1` and `[m!(), 2] = 1` where n stands for `..` have two dots in front.
pub fn finds_dots_in_targets()
    ensures { FindsDotsInTargets }
{}

/// `(m!()) = 1` where n stands for `..` assigns to a place, and `(..) = 1` to a tuple.
pub fn keeps_dots_behind_calls()
    ensures { KeepsDotsBehindCalls }
{}

/// `m!()(2) = 1` where n stands for a path is read as the path with that argument, and runs so.
#[tactic(auto, using(crate::proofs::ReadTargets::calls_through_callees))]
pub fn calls_through_callees()
    ensures { CallsThroughCallees }
{}

/// `(m!(),) = 1` and `m!() = 1` where n stands for `_` assign to nothing.
pub fn ignores_through_calls()
    ensures { IgnoresThroughCalls }
{}

/// In `(m!(),) = 1` where n stands for `(1,)` the tuple inside comes from the call, and the place in it from its own node.
#[tactic(auto, using(crate::proofs::ReadTargets::takes_parts_from_their_nodes))]
pub fn takes_parts_from_their_nodes()
    ensures { TakesPartsFromTheirNodes }
{}

/// In `[.., m!()] = 1` where n stands for `_` the node of the call leads to that.
#[tactic(auto, using(crate::proofs::ReadTargets::leads_behind_the_dots))]
pub fn leads_behind_the_dots()
    ensures { LeadsBehindTheDots }
{}

/// In `R { a: m!() } = 1` where n stands for `_` the node of the call leads to that.
#[tactic(auto, using(crate::proofs::ReadTargets::leads_from_fields))]
pub fn leads_from_fields()
    ensures { LeadsFromFields }
{}

/// `(m!(),) = 1` and `m!() = 1` where n stands for what a condition disables read the value, and end as missing.
pub fn misses_what_is_gone()
    ensures { MissesWhatIsGone }
{}

/// `m!() = 1` with a disabled call ends as missing, and `(m!(),) = 1` is that of what n stands for.
pub fn goes_through_disabled_calls()
    ensures { GoesThroughDisabledCalls }
{}

/// In `[.., m!()] = 1` and `R { a: m!() } = 1` a call that a condition disables is a place.
#[tactic(auto, using(crate::proofs::ReadTargets::keeps_disabled_places))]
pub fn keeps_disabled_places()
    ensures { KeepsDisabledPlaces }
{}

/// `x(2) = 1`, and `m!()(2) = 1` where n stands for a path, assign to the path's parts though a condition disables the callee.
pub fn counts_disabled_callees()
    ensures { CountsDisabledCallees }
{}

/// `(..) = 1`, and `(m!(), 2) = 1` and `[m!(), 2] = 1` where n stands for `..`, have two dots though a condition disables these.
pub fn counts_disabled_dots()
    ensures { CountsDisabledDots }
{}

/// `(m!(),) = 1`, where m has no expansion, has an element that is missing at the call, and `m!() = 1` is missing at no node.
pub fn lands_where_nothing_corresponds()
    ensures { LandsWhereNothingCorresponds }
{}

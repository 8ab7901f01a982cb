//! What is written and what is stored as data, the same on both sides: lifetimes, types, paths, arguments, bounds and patterns. A
//! theorem is a function whose contract is the theorem; those of single paths, types and patterns are computed.
#![tactic(auto)]

pub mod sets;

ghost use Rattle.spec_data.specs.Arguments.{ArgumentTheorem};
ghost use Rattle.spec_data.specs.Segments.{SegmentTheorem};
ghost use Rattle.spec_data.specs.Examples.{SuperAfterSelf, KeywordsInside, CrateHidesSupers, DollarCrateIsARoot, SupersInside};
ghost use Rattle.spec_data.specs.Examples.{SelfAlone, UseTreesStandInFront, AbsentIsMissing};
ghost use Rattle.spec_data.specs.Examples.{TraitInPlace, TypeInFront, OutputIsBound, BinderOfFunctions, LengthsBySites};
ghost use Rattle.spec_data.specs.Examples.{BoundsOfKinds, FirstOfLists, BindingsOfLists, WhatCallsStandFor};
ghost use Rattle.spec_data.specs.Trees.{ImplsInside, LifetimesOfTexts, AbisOfTexts, VarargsAtTheEnd};
ghost use Rattle.spec_data.specs.PatternRows.{ModesOfFirstUses, NamelessFieldsBind, RefusedBindsNothing, DotsHaveAPlace};
ghost use Rattle.spec_data.specs.PatternRows.{DotsElsewhere, OneAlternative, SidesOfRanges, LimitsOfTypes, DataOfTargets};
ghost use Rattle.spec_data.specs.PatternRows.{DataOfElements, ProblemsOfPatterns};
ghost use Rattle.spec_data.specs.TargetRows.{WholeCallsLead, ElementsComeFromCalls, LackingIsMissing, DisabledCalls, CallsOfDisabled};
ghost use Rattle.spec_data.specs.TargetRows.{DotsThroughCalls, DotsInParentheses, CalleesThroughCalls};

/// The names of a path are those of its named segments, where no use tree stands around it or its trait, no segment of
/// either is missing, and the trait has no qualified type.
#[tactic(auto, using(crate::proofs::Segments::segment_theorem))]
pub fn segment_theorem()
    ensures { SegmentTheorem }
{}

/// The arguments of a list are those of its kept arguments, and its bindings are those of its kept bindings.
pub fn argument_theorem()
    ensures { ArgumentTheorem }
{}

/// `self::super::A` is `super::A`.
#[tactic(auto, using(crate::proofs::Examples::counts_super_after_self))]
pub fn counts_super_after_self()
    ensures { SuperAfterSelf }
{}

/// `crate` and `self` inside of a path refuse it.
#[tactic(auto, using(crate::proofs::Examples::refuses_keywords_inside))]
pub fn refuses_keywords_inside()
    ensures { KeywordsInside }
{}

/// `crate::super::super::A` is `crate::A`, and so is `::crate::A`.
#[tactic(auto, using(crate::proofs::Examples::hides_supers_by_crate))]
pub fn hides_supers_by_crate()
    ensures { CrateHidesSupers }
{}

/// `$crate::A` is `A` of the root of the context's crate, or `crate::A` where it has none.
#[tactic(auto, using(crate::proofs::Examples::reads_dollar_crate))]
pub fn reads_dollar_crate()
    ensures { DollarCrateIsARoot }
{}

/// `A::super::B::super::super::C` is `super::super::super::A::B::C`.
#[tactic(auto, using(crate::proofs::Examples::counts_supers_inside))]
pub fn counts_supers_inside()
    ensures { SupersInside }
{}

/// `self` alone is a path.
#[tactic(auto, using(crate::proofs::Examples::reads_self_alone))]
pub fn reads_self_alone()
    ensures { SelfAlone }
{}

/// `foo::{self}` is `foo`, `foo::{self::A}` is `self::A`, and `foo::{A}` is `foo::A`.
#[tactic(auto, using(crate::proofs::Examples::reads_use_trees_in_front))]
pub fn reads_use_trees_in_front()
    ensures { UseTreesStandInFront }
{}

/// `A::` ends with the missing name.
#[tactic(auto, using(crate::proofs::Examples::names_what_is_absent))]
pub fn names_what_is_absent()
    ensures { AbsentIsMissing }
{}

/// `<T as B::D>::E` is `B::D::E` with `T` before D's arguments, `<T as B>` is `B`, but isn't bare, and a trait without names refuses.
#[tactic(auto, using(crate::proofs::Examples::puts_traits_in_place))]
pub fn puts_traits_in_place()
    ensures { TraitInPlace }
{}

/// `<T>::E` is `E` relative to `T`.
#[tactic(auto, using(crate::proofs::Examples::reads_types_in_front))]
pub fn reads_types_in_front()
    ensures { TypeInFront }
{}

/// `Fn(A) -> B` binds `Output` to `B`, `Fn(A)` to `()`, and `Fn(A) ->` to an error.
#[tactic(auto, using(crate::proofs::Examples::binds_output))]
pub fn binds_output()
    ensures { OutputIsBound }
{}

/// A `for` reaches a function pointer through parentheses, no other type, and none inside of that pointer.
#[tactic(auto, using(crate::proofs::Examples::hands_binders_on))]
pub fn hands_binders_on()
    ensures { BinderOfFunctions }
{}

/// A bound by a path is a plain one, one with `?`, or behind `for<..>` one with its names and without `?`; it is an error where
/// the path is refused.
#[tactic(auto, using(crate::proofs::Examples::reads_bounds))]
pub fn reads_bounds()
    ensures { BoundsOfKinds }
{}

/// Of `A<T>(B)` the first list counts, of `A<>(B)` the second, and of `A<>(..)` the dots do.
#[tactic(auto, using(crate::proofs::Examples::takes_the_first_list))]
pub fn takes_the_first_list()
    ensures { FirstOfLists }
{}

/// A list has its bindings apart from its arguments; in `N<T>(..)` the dots don't count; a list of nothing is none.
#[tactic(auto, using(crate::proofs::Examples::reads_bindings))]
pub fn reads_bindings()
    ensures { BindingsOfLists }
{}

/// The length of an array is named by the node of its expression, through parentheses and calls; one that becomes a missing
/// expression without node by none, and one that a call does not stand for by the node of the call.
#[tactic(auto, using(crate::proofs::Examples::names_lengths_by_sites))]
pub fn names_lengths_by_sites()
    ensures { LengthsBySites }
{}

/// A macro call is what it stands for, as a type and as a pattern. One that stands for no type is an error, which comes from the
/// node of the call where the text lacks it.
#[tactic(auto, using(crate::proofs::Examples::reads_calls))]
pub fn reads_calls()
    ensures { WhatCallsStandFor }
{}

/// As they are written, `impl A<impl B>` and `impl Fn(!) -> impl B` have an error inside, and `impl A<T = impl B>` has an `impl`.
pub fn reads_impls()
    ensures { ImplsInside }
{}

/// The empty text and `'` are errors, `'static` and `'_` are no names, and `'a` is one.
pub fn reads_lifetimes()
    ensures { LifetimesOfTexts }
{}

/// No `extern` is `Rust`, one without a text is `C`, and so is one whose text isn't known.
pub fn reads_abis()
    ensures { AbisOfTexts }
{}

/// `fn(!, ...)` has varargs, and `fn(..., !)` has none: a variadic parameter is no type, wherever it stands.
pub fn reads_varargs()
    ensures { VarargsAtTheEnd }
{}

/// A name has the mode of its first use in a pattern, and what stands behind `@` is used first; two hygienes are two names.
#[tactic(auto, using(crate::proofs::PatternRows::gives_the_first_mode))]
pub fn gives_the_first_mode()
    ensures { ModesOfFirstUses }
{}

/// A field of a record pattern that has no name is no part of it, but what it uses counts; one that is disabled does not.
#[tactic(auto, using(crate::proofs::PatternRows::counts_nameless_fields))]
pub fn counts_nameless_fields()
    ensures { NamelessFieldsBind }
{}

/// A call or a record pattern whose path is refused is missing from no node and binds nothing.
#[tactic(auto, using(crate::proofs::PatternRows::binds_nothing_where_refused))]
pub fn binds_nothing_where_refused()
    ensures { RefusedBindsNothing }
{}

/// In a tuple the first two dots are a place among the parts, later ones are nothing, and a comma in front has a part before it.
#[tactic(auto, using(crate::proofs::PatternRows::places_two_dots))]
pub fn places_two_dots()
    ensures { DotsHaveAPlace }
{}

/// Two dots in a slice or among alternatives are a pattern.
#[tactic(auto, using(crate::proofs::PatternRows::keeps_other_dots))]
pub fn keeps_other_dots()
    ensures { DotsElsewhere }
{}

/// An or-pattern of one alternative is that pattern, with its node; one without any stays.
#[tactic(auto, using(crate::proofs::PatternRows::drops_the_or_of_one))]
pub fn drops_the_or_of_one()
    ensures { OneAlternative }
{}

/// A side of a range pattern is a literal, a name or a path; another one and a refused one are absent.
#[tactic(auto, using(crate::proofs::PatternRows::reads_sides))]
pub fn reads_sides()
    ensures { SidesOfRanges }
{}

/// In a type with a pattern a range has both ends, by an item where one is absent, and an excluded end is that and a call.
#[tactic(auto, using(crate::proofs::PatternRows::reads_limits_of_types))]
pub fn reads_limits_of_types()
    ensures { LimitsOfTypes }
{}

/// The assignee expression is read as a pattern, whose places only say that one is there; `(..)` is the tuple of no parts.
#[tactic(auto, using(crate::proofs::PatternRows::reads_targets))]
pub fn reads_targets()
    ensures { DataOfTargets }
{}

/// An element that comes out of calls has the node of the outermost one, also where it is missing.
#[tactic(auto, using(crate::proofs::PatternRows::reads_elements))]
pub fn reads_elements()
    ensures { DataOfElements }
{}

/// A call that is all that is assigned to is what it stands for, through parentheses, and its node leads there.
#[tactic(auto, using(crate::proofs::TargetRows::leads_from_whole_calls))]
pub fn leads_from_whole_calls()
    ensures { WholeCallsLead }
{}

/// An element that is a call is what that stands for, with the node of the outermost call, also in parentheses that a call stands for.
#[tactic(auto, using(crate::proofs::TargetRows::reads_elements_by_calls))]
pub fn reads_elements_by_calls()
    ensures { ElementsComeFromCalls }
{}

/// A call that the text lacks is missing as an element, and its node leads there; as the whole, and as what that stands for, it is a
/// place.
#[tactic(auto, using(crate::proofs::TargetRows::misses_lacking_calls))]
pub fn misses_lacking_calls()
    ensures { LackingIsMissing }
{}

/// A disabled call is gone through as an element, where only what it stands for can be disabled; as the whole it is a place, and where
/// what it stands for is disabled, that is one.
#[tactic(auto, using(crate::proofs::TargetRows::goes_through_disabled_calls))]
pub fn goes_through_disabled_calls()
    ensures { DisabledCalls }
{}

/// A call of what is disabled leads to the place that this is, through other calls and parentheses; where a condition disables the call
/// itself, the call is the place.
#[tactic(auto, using(crate::proofs::TargetRows::leads_to_disabled_places))]
pub fn leads_to_disabled_places()
    ensures { CallsOfDisabled }
{}

/// Two dots come out of calls: in a tuple with a note of these, in an array with the node of the outermost one. Parentheses are in
/// the way.
#[tactic(auto, using(crate::proofs::TargetRows::finds_dots_through_calls))]
pub fn finds_dots_through_calls()
    ensures { DotsThroughCalls }
{}

/// `(..)` is the tuple of no parts where the dots stand in the parentheses themselves, and no call of them does.
#[tactic(auto, using(crate::proofs::TargetRows::keeps_dots_in_parentheses))]
pub fn keeps_dots_in_parentheses()
    ensures { DotsInParentheses }
{}

/// A callee that calls stand for is its path; parentheses are in the way.
#[tactic(auto, using(crate::proofs::TargetRows::finds_callees_through_calls))]
pub fn finds_callees_through_calls()
    ensures { CalleesThroughCalls }
{}

/// Small patterns and the problem that their name shows.
#[tactic(auto, using(crate::proofs::PatternRows::finds_problems))]
pub fn finds_problems()
    ensures { ProblemsOfPatterns }
{}

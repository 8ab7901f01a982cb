//! What a body does when it runs, as written and as stored: definitions, and theorems that show what they say. A theorem is a
//! function whose contract is the theorem. Those of small bodies are computed, as they are written and as they are stored.
#![tactic(auto)]

pub mod conditions;
pub mod definitions;
pub mod inner_bodies;
pub mod listing;
pub mod reading;
pub mod targets;

ghost use Rattle.spec_semantics.specs.Examples.{RunsAsExample};
ghost use Rattle.spec_semantics.specs.Rows.{LeavesTheLoop, LeavesTheBlock, HasNoIteration, StraysFromBlock, HasTwoSites, EntersItsNumber};
ghost use Rattle.spec_semantics.specs.Rows.{MissingIsNoLiteral, ParenthesesAreSilent, DisabledIsNothing, RunsAlone};
ghost use Rattle.spec_semantics.specs.Fuel.{EndsTheIteration, ContinuesTheOuter, BreaksTheOuter, HygienesDiffer, UndeclaredIsPlain};
ghost use Rattle.spec_semantics.specs.Fuel.{HasFreshFuel};
ghost use Rattle.spec_semantics.specs.Forms.{OperatesInOrder, DecidesByLeft, DecidesByRight, ReturnsFromInside, EmptyTupleIsSilent};
ghost use Rattle.spec_semantics.specs.Forms.{MissesItsFront, LeavesOutTheSecond, ElementIsNothing, EntersTheUnsafe};
ghost use Rattle.spec_semantics.specs.Forms.{MakesAPair, MakesARecord, MakesOfDefaults, CallsTheMethod, YieldsUnit, YeetsItsValue};
ghost use Rattle.spec_semantics.specs.Macros.{RunsWhatItCorrespondsTo, CallsAreSilent, LeavesNoArgument, UnenteredIsMissing, CallIsNothing};
ghost use Rattle.spec_semantics.specs.Typed.{CastsToItsType, NamesAnOffset, CallsWithArguments};
ghost use Rattle.spec_semantics.specs.Endings.{MissingEndsTheLoop, StraysWithItsValue, StrayIsNoValue, InnerLabelHides};
ghost use Rattle.spec_semantics.specs.Endings.{ContinuesPastTheBlock, AnswersNoPastTheEnd, ValueEndsTheLoop, ForeignIsNotEnclosed};
ghost use Rattle.spec_semantics.specs.Patterned.{AssignsInOrder, TestsThePattern, TriesTheArms, LeavesByElse, BindsNoValue, MakesRanges};
ghost use Rattle.spec_semantics.specs.Patterned.{CallsForTheLast};
ghost use Rattle.spec_semantics.specs.Whiles.{WhileHasNoIteration, AsksAgain, ContinuesTheWhile, JumpsInItsCondition, LeavesByItsCondition};
ghost use Rattle.spec_semantics.specs.Questions.{GoesOn, ReturnsTheResidual, IsOfNeitherKind, LacksItsConversion, ItemlessIsMissing};
ghost use Rattle.spec_semantics.specs.Questions.{AsksOfTheAnswer, NamesKeepTheirValues};
ghost use Rattle.spec_semantics.specs.Tries.{LeavesTheTry, LacksItsConversionInside, LacksItsOutput, LeavesTheInnerTry, GoesOnToTheOutput};
ghost use Rattle.spec_semantics.specs.Tries.{LeavesPastTheLoop, GoesThroughTheOutput, BindsToItsType, ConvertsAsForABody, JumpsPassTheTry};
ghost use Rattle.spec_semantics.specs.Tries.{BarrierHidesTheTry};
ghost use Rattle.spec_semantics.specs.Fors.{AsksForTheNext, HasItsFuel, IsNeitherNoneNorGiven, KeepsItsIterator, LeavesByItsBody};
ghost use Rattle.spec_semantics.specs.Fors.{ContinuesTheFor, LeavesByItsHead, HeadAsWritten, ForItemlessIsMissing, RefersSilently};
ghost use Rattle.spec_semantics.specs.InnerRows.{TypesInOrder, PathsInOrder, ExprsInOrder, PatternsInOrder, StoredInOrder};

/// `'a: { loop { break 'a 1 } }` with one turn is the literal and its value.
#[tactic(auto, using(crate::proofs::Computed::leaves_the_loop))]
pub fn leaves_the_loop()
    ensures { LeavesTheLoop }
{}

/// `'a: { loop { break 'a 1 }; 2 }` with one turn is that literal and its value too.
#[tactic(auto, using(crate::proofs::Computed::leaves_the_block))]
pub fn leaves_the_block()
    ensures { LeavesTheBlock }
{}

/// With no turn the first is cut before anything happens.
#[tactic(auto, using(crate::proofs::Computed::has_no_iteration))]
pub fn has_no_iteration()
    ensures { HasNoIteration }
{}

/// `'a: { continue 'a }` is a stray continue.
#[tactic(auto, using(crate::proofs::Computed::strays_from_block))]
pub fn strays_from_block()
    ensures { StraysFromBlock }
{}

/// The two calls of `f(g())` happen at two sites.
#[tactic(auto, using(crate::proofs::Computed::has_two_sites))]
pub fn has_two_sites()
    ensures { HasTwoSites }
{}

/// A block with a number is entered before what is in it happens.
#[tactic(auto, using(crate::proofs::Computed::enters_its_number))]
pub fn enters_its_number()
    ensures { EntersItsNumber }
{}

/// `loop { 1; continue; 2 }` is the first literal, turn after turn.
#[tactic(auto, using(crate::proofs::Computed::ends_the_iteration))]
pub fn ends_the_iteration()
    ensures { EndsTheIteration }
{}

/// `'a: loop { loop { 1; continue 'a }; 2 }` is the first literal, turn after turn of the outer loop.
#[tactic(auto, using(crate::proofs::Computed::continues_the_outer))]
pub fn continues_the_outer()
    ensures { ContinuesTheOuter }
{}

/// `'a: loop { loop { break 'a 1 }; 2 }` is the first literal and its value.
#[tactic(auto, using(crate::proofs::Computed::breaks_the_outer))]
pub fn breaks_the_outer()
    ensures { BreaksTheOuter }
{}

/// Two labels of one name and two hygienes are two labels.
#[tactic(auto, using(crate::proofs::Computed::hygienes_differ))]
pub fn hygienes_differ()
    ensures { HygienesDiffer }
{}

/// A jump to a label that is nowhere is one without a label.
#[tactic(auto, using(crate::proofs::Computed::undeclared_is_plain))]
pub fn undeclared_is_plain()
    ensures { UndeclaredIsPlain }
{}

/// A loop inside a loop has all its turns at each entry.
#[tactic(auto, using(crate::proofs::Computed::has_fresh_fuel))]
pub fn has_fresh_fuel()
    ensures { HasFreshFuel }
{}

/// `a + b` reads a, reads b, and then adds them.
#[tactic(auto, using(crate::proofs::Forms::operates_in_order))]
pub fn operates_in_order()
    ensures { OperatesInOrder }
{}

/// Where the left side of `a && b` or `a || b` decides, b is not read.
#[tactic(auto, using(crate::proofs::Forms::decides_by_left))]
pub fn decides_by_left()
    ensures { DecidesByLeft }
{}

/// Where it does not, the value is that of b.
#[tactic(auto, using(crate::proofs::Forms::decides_by_right))]
pub fn decides_by_right()
    ensures { DecidesByRight }
{}

/// `f(loop { return 1 })` ends as returned, and f is not called.
#[tactic(auto, using(crate::proofs::Forms::returns_from_inside))]
pub fn returns_from_inside()
    ensures { ReturnsFromInside }
{}

/// `()` is unit, and nothing happens.
#[tactic(auto, using(crate::proofs::Forms::empty_tuple_is_silent))]
pub fn empty_tuple_is_silent()
    ensures { EmptyTupleIsSilent }
{}

/// `(, a)` ends as missing before a is read.
#[tactic(auto, using(crate::proofs::Forms::misses_its_front))]
pub fn misses_its_front()
    ensures { MissesItsFront }
{}

/// `(a, b)` with a disabled b is a tuple of one element.
#[tactic(auto, using(crate::proofs::Forms::leaves_out_the_second))]
pub fn leaves_out_the_second()
    ensures { LeavesOutTheSecond }
{}

/// A disabled element of a list changes nothing, wherever it stands.
pub fn element_is_nothing()
    ensures { ElementIsNothing }
{}

/// An unsafe block without a number is entered before what is in it happens.
#[tactic(auto, using(crate::proofs::Forms::enters_the_unsafe))]
pub fn enters_the_unsafe()
    ensures { EntersTheUnsafe }
{}

/// `(a, b)` is one tuple of both values.
#[tactic(auto, using(crate::proofs::Forms::makes_a_pair))]
pub fn makes_a_pair()
    ensures { MakesAPair }
{}

/// `a.m(b)` reads a, then b, and calls the method of that name with both.
#[tactic(auto, using(crate::proofs::Forms::calls_the_method))]
pub fn calls_the_method()
    ensures { CallsTheMethod }
{}

/// `c { m: a, m: a, ..b }` with a disabled second field is one record of the values of a and b.
#[tactic(auto, using(crate::proofs::Forms::makes_a_record))]
pub fn makes_a_record()
    ensures { MakesARecord }
{}

/// `c { m: a, .. }` is one record of the value of a, whose other fields have their defaults.
#[tactic(auto, using(crate::proofs::Forms::makes_of_defaults))]
pub fn makes_of_defaults()
    ensures { MakesOfDefaults }
{}

/// `a as !` reads a and casts its value to the type.
#[tactic(auto, using(crate::proofs::Typed::casts_to_its_type))]
pub fn casts_to_its_type()
    ensures { CastsToItsType }
{}

/// `offset_of!(!, m.n)` is one event with the type, and the names in their order.
#[tactic(auto, using(crate::proofs::Typed::names_an_offset))]
pub fn names_an_offset()
    ensures { NamesAnOffset }
{}

/// `a.m::<!>()` calls the method with the type as an argument.
#[tactic(auto, using(crate::proofs::Typed::calls_with_arguments))]
pub fn calls_with_arguments()
    ensures { CallsWithArguments }
{}

/// `yield` yields unit, and its value is the answer.
#[tactic(auto, using(crate::proofs::Forms::yields_unit))]
pub fn yields_unit()
    ensures { YieldsUnit }
{}

/// `do yeet 1` leaves with its value, and is no return.
#[tactic(auto, using(crate::proofs::Forms::yeets_its_value))]
pub fn yeets_its_value()
    ensures { YeetsItsValue }
{}

/// The body that docs/MEANING.md works out.
#[tactic(auto, using(crate::proofs::Computed::runs_as_example))]
pub fn runs_as_example()
    ensures { RunsAsExample }
{}

/// A store of one missing expression does not run as a literal.
#[tactic(auto, using(crate::proofs::Computed::missing_is_no_literal))]
pub fn missing_is_no_literal()
    ensures { MissingIsNoLiteral }
{}

/// Parentheses change nothing.
#[tactic(auto, using(crate::proofs::Computed::parentheses_are_silent))]
pub fn parentheses_are_silent()
    ensures { ParenthesesAreSilent }
{}

/// A disabled statement of a block changes nothing, wherever it stands.
pub fn disabled_is_nothing()
    ensures { DisabledIsNothing }
{}

/// `m!()` for `a` is a, which is read where it stands.
#[tactic(auto, using(crate::proofs::Macros::runs_what_it_corresponds_to))]
pub fn runs_what_it_corresponds_to()
    ensures { RunsWhatItCorrespondsTo }
{}

/// A macro call runs as what it stands for.
#[tactic(auto, using(crate::proofs::Macros::calls_are_silent))]
pub fn calls_are_silent()
    ensures { CallsAreSilent }
{}

/// `f(m!(), a)` where what m stands for is disabled is `f(a)`.
#[tactic(auto, using(crate::proofs::Macros::leaves_no_argument))]
pub fn leaves_no_argument()
    ensures { LeavesNoArgument }
{}

/// `f(m!())` where m has no expansion reads f, and ends since the argument is missing.
#[tactic(auto, using(crate::proofs::Macros::unentered_is_missing))]
pub fn unentered_is_missing()
    ensures { UnenteredIsMissing }
{}

/// A call that stands for the statements behind it changes nothing, wherever it stands.
pub fn call_is_nothing()
    ensures { CallIsNothing }
{}

/// A body behind a barrier runs as if nothing were outside.
pub fn runs_alone()
    ensures { RunsAlone }
{}

/// `loop { 1; _ }`, where _ is missing, is the literal and ends as missing in its first turn.
#[tactic(auto, using(crate::proofs::Endings::missing_ends_the_loop))]
pub fn missing_ends_the_loop()
    ensures { MissingEndsTheLoop }
{}

/// `break 1` is the literal and a stray break with its value.
#[tactic(auto, using(crate::proofs::Endings::strays_with_its_value))]
pub fn strays_with_its_value()
    ensures { StraysWithItsValue }
{}

/// A store of one literal does not run as `break 1`, though their events are the same.
#[tactic(auto, using(crate::proofs::Endings::stray_is_no_value))]
pub fn stray_is_no_value()
    ensures { StrayIsNoValue }
{}

/// `'a: loop { 'a: loop { break 'a 1 }; 2 }` leaves the inner loop.
#[tactic(auto, using(crate::proofs::Endings::inner_label_hides))]
pub fn inner_label_hides()
    ensures { InnerLabelHides }
{}

/// `loop { 'a: { 1; continue } }` is the literal, turn after turn.
#[tactic(auto, using(crate::proofs::Endings::continues_past_the_block))]
pub fn continues_past_the_block()
    ensures { ContinuesPastTheBlock }
{}

/// `if 1 { 2 }` without answers: past their end a value is 0 and a test says no.
#[tactic(auto, using(crate::proofs::Endings::answers_no_past_the_end))]
pub fn answers_no_past_the_end()
    ensures { AnswersNoPastTheEnd }
{}

/// A turn that ends with a value for the loop ends the loop with it.
#[tactic(auto, using(crate::proofs::Endings::value_ends_the_loop))]
pub fn value_ends_the_loop()
    ensures { ValueEndsTheLoop }
{}

/// A jump for a label that is not around it is not enclosed.
#[tactic(auto, using(crate::proofs::Endings::foreign_is_not_enclosed))]
pub fn foreign_is_not_enclosed()
    ensures { ForeignIsNotEnclosed }
{}

/// The bodies inside `[[!; a]; b]` are a and b, inside `[!; a as [!; b]]` the cast and b; inside a refused path, and in
/// arguments that go again, there are none. Arguments come before bindings, and of a method call those in `<..>` before the
/// others; of an arm those of its guard before those of its body; of a `try` those of its type; of a `for` those of its head, its
/// pattern and its body; of a repeat array those of what is repeated before its length and what is in that; of a const block the
/// block and what is in that; of a closure those of each parameter, in its pattern before its type, and of what it returns before its
/// body and what is in that. So they are stored, too.
pub fn inner_bodies_in_order()
    ensures types { TypesInOrder }
    ensures paths { PathsInOrder }
    ensures exprs { ExprsInOrder }
    ensures patterns { PatternsInOrder }
    ensures stored { StoredInOrder }
{}

/// `(a, .., S) = c` reads c, then the place a, and then assigns both to the tuple of a place and S.
pub fn assigns_in_order()
    ensures { AssignsInOrder }
{}

/// `let x = a` as a condition reads a, and is whether x fits it.
#[tactic(auto, using(crate::proofs::Patterned::tests_the_pattern))]
pub fn tests_the_pattern()
    ensures { TestsThePattern }
{}

/// `match a { x if b => 1, _ => 2 }` tries x, its guard and `_`, each where the one before doesn't do; a disabled arm is none.
pub fn tries_the_arms()
    ensures { TriesTheArms }
{}

/// `{ let x = a else { 1 }; 2 }` is 2 where x fits a; else it is the block, and ends as unmatched.
#[tactic(auto, using(crate::proofs::Patterned::leaves_by_else))]
pub fn leaves_by_else()
    ensures { LeavesByElse }
{}

/// `let x;` is bound to nothing, and a disabled `let` is none.
pub fn binds_no_value()
    ensures { BindsNoValue }
{}

/// `a..=b` is a record of a language item, or a call of one; `..` is a record without fields, and one without its item is missing.
pub fn makes_ranges()
    ensures { MakesRanges }
{}

/// In a type, the last before the end of a range is what a call of an item answers, at no node.
pub fn calls_for_the_last()
    ensures { CallsForTheLast }
{}

/// With no turn `while a {}` is cut before anything happens.
#[tactic(auto, using(crate::proofs::Whiles::while_has_no_iteration))]
pub fn while_has_no_iteration()
    ensures { WhileHasNoIteration }
{}

/// The second turn of `while a {}` reads a again and tests it; where that fails the loop ends with unit.
#[tactic(auto, using(crate::proofs::Whiles::asks_again))]
pub fn asks_again()
    ensures { AsksAgain }
{}

/// `while a { continue; 1 }` reads and tests a, turn after turn.
#[tactic(auto, using(crate::proofs::Whiles::continues_the_while))]
pub fn continues_the_while()
    ensures { ContinuesTheWhile }
{}

/// `while continue {}` goes from turn to turn without a test, and the value of `while break 1 {}` is the literal's.
#[tactic(auto, using(crate::proofs::Whiles::jumps_in_its_condition))]
pub fn jumps_in_its_condition()
    ensures { JumpsInItsCondition }
{}

/// `'a: while match a { _ => break 'a } {}` reads a, tries `_` and ends with unit, without a test of the condition.
#[tactic(auto, using(crate::proofs::Whiles::leaves_by_its_condition))]
pub fn leaves_by_its_condition()
    ensures { LeavesByItsCondition }
{}

/// `a?` reads a, calls the item with it and asks of which kind the answer is: of the first, the answer to that is the value.
#[tactic(auto, using(crate::proofs::Questions::goes_on))]
pub fn goes_on()
    ensures { GoesOn }
{}

/// Of the second, and outside of a `try`, the body returns what a call makes of the answer to that.
#[tactic(auto, using(crate::proofs::Questions::returns_the_residual))]
pub fn returns_the_residual()
    ensures { ReturnsTheResidual }
{}

/// Of neither, the body ends as unmatched.
#[tactic(auto, using(crate::proofs::Questions::is_of_neither_kind))]
pub fn is_of_neither_kind()
    ensures { IsOfNeitherKind }
{}

/// Without the item of that call the body ends as missing, but only where it would be called.
#[tactic(auto, using(crate::proofs::Questions::lacks_its_conversion))]
pub fn lacks_its_conversion()
    ensures { LacksItsConversion }
{}

/// `a?` without one of the items that it can't do without is missing, and a is not read.
#[tactic(auto, using(crate::proofs::Questions::itemless_is_missing))]
pub fn itemless_is_missing()
    ensures { ItemlessIsMissing }
{}

/// `a??` asks of what the inner `?` answers.
#[tactic(auto, using(crate::proofs::Questions::asks_of_the_answer))]
pub fn asks_of_the_answer()
    ensures { AsksOfTheAnswer }
{}

/// Of two made names each has its own value, and binding and reading them is silent; one that took none is missing.
#[tactic(auto, using(crate::proofs::Questions::names_keep_their_values))]
pub fn names_keep_their_values()
    ensures { NamesKeepTheirValues }
{}

/// `try { a?; b }`, told no and yes: what a call makes of the residual is the value of the `try`, and b is not read.
#[tactic(auto, using(crate::proofs::Tries::leaves_the_try))]
pub fn leaves_the_try()
    ensures { LeavesTheTry }
{}

/// Without the item of that call the body ends as missing there.
#[tactic(auto, using(crate::proofs::Tries::lacks_its_conversion_inside))]
pub fn lacks_its_conversion_inside()
    ensures { LacksItsConversionInside }
{}

/// Without the item for its value a `try` ends as missing behind its statements and before its tail.
#[tactic(auto, using(crate::proofs::Tries::lacks_its_output))]
pub fn lacks_its_output()
    ensures { LacksItsOutput }
{}

/// `try { try { a? }; b }`, told no and yes, reads b: the inner `try` alone is left, and its value goes through no item.
#[tactic(auto, using(crate::proofs::Tries::leaves_the_inner_try))]
pub fn leaves_the_inner_try()
    ensures { LeavesTheInnerTry }
{}

/// `try { loop { a? } }`, told no and yes, leaves the loop and the `try`.
#[tactic(auto, using(crate::proofs::Tries::leaves_past_the_loop))]
pub fn leaves_past_the_loop()
    ensures { LeavesPastTheLoop }
{}

/// `try { a? }`, told yes: the value goes through the item. What is made of a residual doesn't.
#[tactic(auto, using(crate::proofs::Tries::goes_on_to_the_output))]
pub fn goes_on_to_the_output()
    ensures { GoesOnToTheOutput }
{}

/// The value of a `try` goes through a call of its item, be it of a tail, of a last statement or unit.
#[tactic(auto, using(crate::proofs::Tries::goes_through_the_output))]
pub fn goes_through_the_output()
    ensures { GoesThroughTheOutput }
{}

/// With a written type the value is bound to it, at no node, and the answer to that is the value.
#[tactic(auto, using(crate::proofs::Tries::binds_to_its_type))]
pub fn binds_to_its_type()
    ensures { BindsToItsType }
{}

/// There what makes a value of a residual is what does so for a body, and that is bound to the type, too.
#[tactic(auto, using(crate::proofs::Tries::converts_as_for_a_body))]
pub fn converts_as_for_a_body()
    ensures { ConvertsAsForABody }
{}

/// A break or a continue in a `try` is for the loop around it, and a break by name for what bears the name.
#[tactic(auto, using(crate::proofs::Tries::jumps_pass_the_try))]
pub fn jumps_pass_the_try()
    ensures { JumpsPassTheTry }
{}

/// Behind a barrier `a?` returns, though a `try` is outside.
pub fn barrier_hides_the_try()
    ensures { BarrierHidesTheTry }
{}

/// `for x in a {}` reads a and makes an iterator of it; turn after turn that is asked, until there is none: then unit.
#[tactic(auto, using(crate::proofs::Fors::asks_for_the_next))]
pub fn asks_for_the_next()
    ensures { AsksForTheNext }
{}

/// With one turn it is cut before the iterator is asked again, and with none before it is asked.
#[tactic(auto, using(crate::proofs::Fors::has_its_fuel))]
pub fn has_its_fuel()
    ensures { HasItsFuel }
{}

/// What the iterator answers and is neither none nor fits the pattern ends the body as unmatched.
#[tactic(auto, using(crate::proofs::Fors::is_neither_none_nor_given))]
pub fn is_neither_none_nor_given()
    ensures { IsNeitherNoneNorGiven }
{}

/// `for x in a { for _ in b {} }` asks the iterator of a again, behind the inner loop, which asks that of b.
#[tactic(auto, using(crate::proofs::Fors::keeps_its_iterator))]
pub fn keeps_its_iterator()
    ensures { KeepsItsIterator }
{}

/// `'a: for _ in a { loop { break 'a 1 } }`, given one, has the literal's value.
#[tactic(auto, using(crate::proofs::Fors::leaves_by_its_body))]
pub fn leaves_by_its_body()
    ensures { LeavesByItsBody }
{}

/// `for _ in a { continue; 1 }` asks again, and the literal never is.
#[tactic(auto, using(crate::proofs::Fors::continues_the_for))]
pub fn continues_the_for()
    ensures { ContinuesTheFor }
{}

/// A break in the head of a `for` is for the loop around that: one by no name, by a name that both bear, or by that of the loop alone.
#[tactic(auto, using(crate::proofs::Fors::leaves_by_its_head))]
pub fn leaves_by_its_head()
    ensures { LeavesByItsHead }
{}

/// What makes an iterator of the head of a `for` comes from the head's own node, also where that is in parentheses or disabled, and
/// without a head from the form's.
#[tactic(auto, using(crate::proofs::Fors::head_as_written))]
pub fn head_as_written()
    ensures { HeadAsWritten }
{}

/// A `for` without one of its four items is missing, and nothing happens.
pub fn for_itemless_is_missing()
    ensures { ForItemlessIsMissing }
{}

/// A mutable reference to what a made name stands for is silent; any other reference to it is not, nor is any that is written.
#[tactic(auto, using(crate::proofs::Fors::refers_silently))]
pub fn refers_silently()
    ensures { RefersSilently }
{}

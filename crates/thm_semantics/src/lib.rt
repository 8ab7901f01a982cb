//! A stored body does what the written one does.
#![tactic(auto)]

ghost use Rattle.thm_semantics.specs.Functions.{FunctionHeadline};
ghost use Rattle.thm_semantics.specs.Headline.{Headline, Deeper};
ghost use Rattle.thm_semantics.specs.Reached.{ReachedOnce};
ghost use Rattle.thm_semantics.specs.Examples.{ExampleIsStored, ExamplesAreStored};

/// Each body that is lowered has the meaning that it has as written: for every oracle and every number of turns the
/// same events in the same order and the same ending, and its labelled jumps are for what encloses them.
pub fn same_meaning()
    ensures { Headline }
{}

/// Each function with `async` or `gen` that is lowered makes its coroutine, which binds what it is handed to its parameters as they are
/// written, `self` first, and then does what its body does as it is written; and so do the bodies inside.
pub fn same_coroutine()
    ensures { FunctionHeadline }
{}

/// To look deeper into the store than it has expressions changes nothing.
pub fn deeper()
    ensures { Deeper }
{}

/// Each expression that a body reaches is reached in one way only, and its number is one that its lowering gave out.
pub fn reached_once()
    ensures { ReachedOnce }
{}

/// The body that docs/MEANING.md works out becomes the list that stands there.
pub fn example_is_stored()
    ensures { ExampleIsStored }
{}

/// So do the small bodies of the theorems on runs become the lists that stand beside them.
pub fn examples_are_stored()
    ensures { ExamplesAreStored }
{}

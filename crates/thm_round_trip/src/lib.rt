//! What lowering stores for paths, types and patterns reads back as what is written. A theorem is a function whose contract is the theorem.
#![tactic(auto)]

ghost use Rattle.thm_round_trip.specs.Asked.{NameTheorem};
ghost use Rattle.thm_round_trip.specs.Theorems.{PathTheorem, TypeTheorem, ArgsTheorem, PatTheorem, TargetTheorem, FormalsTheorem};
ghost use Rattle.thm_round_trip.specs.Theorems.{YieldsTheorem};

/// A path reads back as it is written, and none is answered exactly where it is absent or refused.
pub fn path_theorem()
    ensures { PathTheorem }
{}

/// A type reads back as it is written.
pub fn type_theorem()
    ensures { TypeTheorem }
{}

/// A list of arguments reads back as it is written.
pub fn args_theorem()
    ensures { ArgsTheorem }
{}

/// A whole pattern reads back as it is written, with the mode of the first use of each name.
pub fn pat_theorem()
    ensures { PatTheorem }
{}

/// The assignee expression reads back as it is written.
pub fn target_theorem()
    ensures { TargetTheorem }
{}

/// What a closure with `async`, `gen` or both is handed its arguments by reads back as the formal parameters of what is written: each is
/// a `mut` binding of the parameter's name, where its pattern is a name as a whole, or else of one that is made up.
pub fn formals_theorem()
    ensures { FormalsTheorem }
{}

/// What is asked about a path in a pattern, or in the assignee expression, is asked about the path that the rule says it is.
pub fn name_theorem()
    ensures { NameTheorem }
{}

/// What lowering notes of `yield`s is what is written.
pub fn yields_theorem()
    ensures { YieldsTheorem }
{}

//! What the steps of lowering do to what is stored and to what is open: the logic that the theorems about lowering stand
//! on, and its first theorems.
#![tactic(auto)]

ghost use Rattle.thm_logic.specs.Keeps.{Keeping, KeepsApart, PathsKeep, TypesKeep};

/// Lowering stores behind what is stored, where it is refused too; where it answers, what was open is open again.
pub fn keeps()
    ensures { Keeping }
{}

/// Types and paths by themselves, with the expressions of their constants, are stored behind what is stored too.
pub fn keeps_alone()
    ensures types { TypesKeep }
    ensures paths { PathsKeep }
{}

/// No two names that lowering makes up are the same, and none is made up twice: one by which a closure is handed an argument is of two
/// bindings, of which its formal parameter is one, and each other one is of one binding or label.
pub fn made_apart()
    ensures { KeepsApart }
{}

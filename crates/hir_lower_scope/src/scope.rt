//! The scopes of labels: definitions, and theorems that show what they say. A theorem is a function whose contract is the theorem.

ghost use Rattle.hir_lower_scope.specs.Theorems.{NothingOutside, ClimbsOut, StaysInside, TurnsInCircles};
ghost use Rattle.hir_lower_scope.specs.Theorems.{ClimbsTwice, RootStays, BehindBarriers, InnerHides};
ghost use Rattle.hir_lower_scope.specs.Theorems.{TriesAgree, InnermostTry};

/// Behind a barrier a jump has the target that it would have if nothing were outside.
pub fn nothing_outside()
    ensures { NothingOutside }
{}

/// A jump that a macro wrote is for a label that was open at the macro's definition.
pub fn climbs_out()
    ensures { ClimbsOut }
{}

/// At the definition of another macro it keeps its hygiene.
pub fn stays_inside()
    ensures { StaysInside }
{}

/// A context that is its own parent does no harm.
pub fn turns_in_circles()
    ensures { TurnsInCircles }
{}

/// Each climb is to the hygiene of the context that the last one was made in, and the next asks for the macro of that context.
pub fn climbs_twice()
    ensures { ClimbsTwice }
{}

/// A jump of the root's hygiene keeps it at each macro, whatever is answered of the root.
pub fn root_stays()
    ensures { RootStays }
{}

/// Behind a border a label that is there is out of reach, and one that is nowhere is not declared.
pub fn behind_barriers()
    ensures { BehindBarriers }
{}

/// Of two labels of one name and one hygiene the inner one is meant, and a label of another name never.
pub fn inner_hides()
    ensures { InnerHides }
{}

/// The `try` that a residual is for is the innermost one, by what it meets on its way out as by kind.
pub fn tries_agree()
    ensures { TriesAgree }
{}

/// No border is passed for a `try`, and a jump by name passes each.
pub fn innermost_try_found()
    ensures { InnermostTry }
{}

//! What lowering notes beside what it stores: the parameters that `impl`s become, what must hold of them, and the names of lifetimes.
//! Theorems that say it of the whole tree, each the contract of a function.
#![tactic(auto)]

ghost use Rattle.thm_generics.specs.Theorems.{BoundsTracked, ConstantsTracked, ExprsTracked, PathsTracked, TypesTracked};

/// Lowering a type, a path or a bound adds a parameter for each `impl` that becomes one, those inside of its bounds in front of it, with
/// a predicate for each of its bounds, in their order, which read back as they are written, and the bodies inside them run so; and the
/// names of lifetimes, by where they stand. Of an alias in an argument only those at the places count that its type names.
pub fn tracked()
    ensures types { TypesTracked }
    ensures paths { PathsTracked }
    ensures bounds { BoundsTracked }
{}

/// So does lowering a constant or an expression, with what stands in it.
pub fn tracked_inside()
    ensures constants { ConstantsTracked }
    ensures expressions { ExprsTracked }
{}

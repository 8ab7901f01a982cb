//! Which names are in scope at each expression of a resolved tree: definitions, and theorems that show what they say. A theorem is a
//! function whose contract is the theorem.
#![tactic(auto)]

ghost use Rattle.spec_scoping.specs.Examples.{Chained, Guarded, Head, InConstant, Otherwise, OwnInitializer, Parameter, Reads, Repeated};

/// A `let` is not in scope in its own initializer.
pub fn let_begins_behind_itself()
    ensures { OwnInitializer }
{}

/// The `else` of a `let` does not see the names of the `let`.
pub fn else_sees_no_let()
    ensures { Otherwise }
{}

/// A guard sees the names of its arm, and no arm those of another.
pub fn guard_sees_its_arm()
    ensures { Guarded }
{}

/// A `let` in a chain binds for what stands behind it in the chain and for the branch, and not for `else`.
pub fn chain_binds_for_its_rest()
    ensures { Chained }
{}

/// So it binds for the body of a `while`.
pub fn chain_binds_for_the_body()
    ensures { Repeated }
{}

/// A closure's parameter is in scope in its body, and not behind it.
pub fn parameter_ends_with_its_closure()
    ensures { Parameter }
{}

/// The head of a `for` does not see its pattern.
pub fn head_stands_outside()
    ensures { Head }
{}

/// A constant does not see a `let` around it.
pub fn constant_sees_no_let()
    ensures { InConstant }
{}

/// What a name means: shadowing, alternatives, and names that macros wrote.
pub fn names_mean()
    ensures { Reads }
{}

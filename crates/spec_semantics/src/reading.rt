//! Theorems of small written trees, most with calls or definitions of macros: what they are read as, with the answers written into them.

ghost use Rattle.spec_semantics.specs.ReadCalls.{EntersBelowTheLimit};
ghost use Rattle.spec_semantics.specs.ReadBlocks.{SplicesStatements, CountsDefinitions};
ghost use Rattle.spec_semantics.specs.ReadParts.{BeginsAtTheLocalRoot};
ghost use Rattle.spec_semantics.specs.ReadAwaits.{AwaitsInConstants};

/// `m!()` where m stands for a call of m is entered as often as calls may be: what it stands for is read in the file of that.
pub fn enters_below_the_limit()
    ensures { EntersBelowTheLimit }
{}

/// `{ m!() }` where m stands for `1; n!()` and n for `2` is `{ 1; 2 }`, and `{ m!(); }` is `{ 1; 2; }`.
pub fn splices_statements()
    ensures { SplicesStatements }
{}

/// Of each name the definitions by `macro_rules` are counted that are enabled.
#[tactic(auto, using(crate::proofs::ReadBlocks::counts_definitions))]
pub fn counts_definitions()
    ensures { CountsDefinitions }
{}

/// `a` alone in a macro call that is local to its crate is `$crate::a`; a segment that is absent there refuses. A use tree that stands
/// there is never alone.
pub fn begins_at_the_local_root()
    ensures { BeginsAtTheLocalRoot }
{}

/// An `await` that is a length or an argument stands in a constant, and one in a `const` block, a closure or a coroutine there in that.
pub fn awaits_stand_in_constants()
    ensures { AwaitsInConstants }
{}

//! Theorems of small bodies with splices and with definitions of macros.

ghost use Rattle.spec_semantics.specs.Macros.{SplicesItsTail, KeepsItsSemicolon, ReachesTheLabel, MissesTheLabel, EndsWithItsBlock};
ghost use Rattle.spec_semantics.specs.Macros.{BeginsWhereItCorresponds, KeepsTheCallsSemicolon};

/// `{ m!() }` where m stands for `1; 2` reads 1, and has the value of 2.
#[tactic(auto, using(crate::proofs::Macros::splices_its_tail))]
pub fn splices_its_tail()
    ensures { SplicesItsTail }
{}

/// `{ m!() }` where m stands for `1;` reads 1, and is unit.
#[tactic(auto, using(crate::proofs::Macros::keeps_its_semicolon))]
pub fn keeps_its_semicolon()
    ensures { KeepsItsSemicolon }
{}

/// `{ m!(); }` where m stands for `1; 2` reads both, and is unit: the semicolon is that of the 2.
#[tactic(auto, using(crate::proofs::Macros::keeps_the_calls_semicolon))]
pub fn keeps_the_calls_semicolon()
    ensures { KeepsTheCallsSemicolon }
{}

/// `'a: loop { macro_rules! m {..} loop { m!() }; break 2 }` where m stands for `break 'a 1` is 1.
#[tactic(auto, using(crate::proofs::Macros::reaches_the_label))]
pub fn reaches_the_label()
    ensures { ReachesTheLabel }
{}

/// The same where another macro wrote the jump is 2: the jump is for the loop around it.
#[tactic(auto, using(crate::proofs::Macros::misses_the_label))]
pub fn misses_the_label()
    ensures { MissesTheLabel }
{}

/// `'a: loop { { macro_rules! m {..} } loop { m!() }; break 2 }` is 2: behind its block a definition is no more.
#[tactic(auto, using(crate::proofs::Macros::ends_with_its_block))]
pub fn ends_with_its_block()
    ensures { EndsWithItsBlock }
{}

/// `'a: loop { loop { m!() }; macro_rules! m {..} break 2 }` is 2: in front of it a definition isn't yet.
#[tactic(auto, using(crate::proofs::Macros::begins_where_it_corresponds))]
pub fn begins_where_it_corresponds()
    ensures { BeginsWhereItCorresponds }
{}

//! What closures, coroutines and constants do when they run: each has a body of its own inside of the one that it stands in.

ghost use Rattle.spec_semantics.specs.Closures.{CountsNoYieldInside, IsAnOldCoroutine, MakesAClosure, StraysFromItsClosure};
ghost use Rattle.spec_semantics.specs.Constants.{RepeatsItsOperand, HasItsBlockInside, StraysFromItsLength, ReturnsFromItsLength};
ghost use Rattle.spec_semantics.specs.Coroutines.{MakesACoroutine, EntersAtNoNode, KeepsItsYield, StraysFromItsCoroutine};
ghost use Rattle.spec_semantics.specs.Coroutines.{ReturnsFromItsCoroutine};
ghost use Rattle.spec_semantics.specs.CoroutineClosures.{HandsInByName, HandsInByItsName, HandsInByGeneratedNames, MissesItsBody};
ghost use Rattle.spec_semantics.specs.CoroutineClosures.{StraysFromItsCoroutineClosure};
ghost use Rattle.spec_semantics.specs.CoroutineFunctions.{HandsInInOrder, KeepsConstantsInItsCoroutine};

/// `[1; 2]` is the literal and one event with its value; the length is a body inside, and runs by itself.
#[tactic(auto, using(crate::proofs::Constants::repeats_its_operand))]
pub fn repeats_its_operand()
    ensures { RepeatsItsOperand }
{}

/// `const { 1 }` is one event without operands; the block is a body inside, and runs by itself.
#[tactic(auto, using(crate::proofs::Constants::has_its_block_inside))]
pub fn has_its_block_inside()
    ensures { HasItsBlockInside }
{}

/// `'a: loop { [1; break 'a] }` makes the array turn after turn, and the length by itself is a stray break.
#[tactic(auto, using(crate::proofs::Constants::strays_from_its_length))]
pub fn strays_from_its_length()
    ensures { StraysFromItsLength }
{}

/// `try { [1; a?] }` has the array's value, and the length by itself returns what is made of the residual as for a body.
#[tactic(auto, using(crate::proofs::Constants::returns_from_its_length))]
pub fn returns_from_its_length()
    ensures { ReturnsFromItsLength }
{}

/// `|_: !, x, #[cfg(..)] x| -> ! 1` is one event with what is left of its parameters and what it returns; its body is a body inside, and
/// runs by itself.
pub fn makes_a_closure()
    ensures { MakesAClosure }
{}

/// `static move || yield` is an old coroutine, since its body yields; nothing is yielded by making it.
#[tactic(auto, using(crate::proofs::Closures::is_an_old_coroutine))]
pub fn is_an_old_coroutine()
    ensures { IsAnOldCoroutine }
{}

/// A `yield` in a body inside is that body's own: `|| || yield` and `|| [1; yield]` are closures that don't yield.
#[tactic(auto, using(crate::proofs::Closures::counts_no_yield_inside))]
pub fn counts_no_yield_inside()
    ensures { CountsNoYieldInside }
{}

/// `'a: loop { || break 'a }` makes the closure turn after turn, and its body by itself is a stray break.
#[tactic(auto, using(crate::proofs::Closures::strays_from_its_closure))]
pub fn strays_from_its_closure()
    ensures { StraysFromItsClosure }
{}

/// `async { 1 }`, and the same of another kind, is one event, which says its kind and whether it moves; what is in it is a body inside,
/// and runs by itself.
pub fn makes_a_coroutine()
    ensures { MakesACoroutine }
{}

/// With a number what is in it is entered at no node, when it runs.
pub fn enters_at_no_node()
    ensures { EntersAtNoNode }
{}

/// `|| gen { yield a }` is a closure that doesn't yield: the `yield` is the coroutine's.
#[tactic(auto, using(crate::proofs::Coroutines::keeps_its_yield))]
pub fn keeps_its_yield()
    ensures { KeepsItsYield }
{}

/// `loop { async { break } }` makes the coroutine turn after turn, and by itself what is in it is a stray break; so it is with
/// `'a: loop { gen { continue 'a } }`, a stray continue.
#[tactic(auto, using(crate::proofs::Coroutines::strays_from_its_coroutine))]
pub fn strays_from_its_coroutine()
    ensures { StraysFromItsCoroutine }
{}

/// `try { async { a? } }` has the coroutine's value, and by itself what is in it returns what is made of the residual as for a body.
#[tactic(auto, using(crate::proofs::Coroutines::returns_from_its_coroutine))]
pub fn returns_from_its_coroutine()
    ensures { ReturnsFromItsCoroutine }
{}

/// `async |x| x`, also with `mut x` and with `move`, is made with a `mut x`. Inside it are what makes its coroutine, one event, and the
/// coroutine, which reads x at no node and binds it.
pub fn hands_in_by_name()
    ensures { HandsInByName }
{}

/// In `async |ref x| x` and `async |x @ _| x` the coroutine binds x to `mut x` first.
pub fn hands_in_by_its_name()
    ensures { HandsInByItsName }
{}

/// In `async |(y, z), #[cfg(..)] x, _: !| y` the coroutine reads no name: the pair is bound to argument 0, and `_` to argument 1.
pub fn hands_in_by_generated_names()
    ensures { HandsInByGeneratedNames }
{}

/// Without a body the coroutine of `async |x|` ends as missing, behind its prelude.
pub fn misses_its_body()
    ensures { MissesItsBody }
{}

/// `loop { async || break }` makes the closure turn after turn, and by itself the coroutine is a stray break.
pub fn strays_from_its_coroutine_closure()
    ensures { StraysFromItsCoroutineClosure }
{}

/// The body of `async fn f(self, x: A, (y, z): B) {}` makes a coroutine, which binds `self`, then x, and then the pair to argument 1.
pub fn hands_in_in_order()
    ensures { HandsInInOrder }
{}

/// Of `async |<[!; 1]>::A: [!; 2]| ..` the length in the type is inside of the closure, and that in the pattern inside of its coroutine. So
/// it is in a function with that parameter.
pub fn keeps_constants_in_its_coroutine()
    ensures { KeepsConstantsInItsCoroutine }
{}

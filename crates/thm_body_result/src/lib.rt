//! Store, source map and diagnostics are one result of tree and environment. Each theorem is the contract of an empty
//! function.
#![tactic(auto)]

pub mod emitted;

ghost use Rattle.thm_body_result.specs.Theorems.{AllFit, TypesFit, PathsFit, BodiesFit, AllStand, DiagnosticsAre, ScopesAround, BlocksAre};
ghost use Rattle.thm_body_result.specs.OneResult.{OneResults};
ghost use Rattle.thm_body_result.specs.Examples.{Jumps, Statements, EntersInOrder, Leaves, PlainForms, Patterned, Tries, Fors};
ghost use Rattle.thm_body_result.specs.Examples.{Consts, Closures, Coroutines, Owners};
ghost use Rattle.thm_body_result.specs.ExamplePreludes.{CoroutineClosures, OwnersOfCoroutines};
ghost use Rattle.thm_body_result.specs.ExampleCalls.{Calls};
ghost use Rattle.thm_body_result.specs.ExampleDefinitions.{Definitions};
ghost use Rattle.thm_body_result.specs.ExampleOwners.{OwnersStand};
ghost use Rattle.thm_body_result.specs.ExampleWhiles.{Whiles};

/// Each expression of the answered one, through its parts, is of the form of its written node and came from it, or is
/// missing where the written one is absent or disabled, or is one that the form of a node makes besides; no other is stored; each
/// label came from its written one, and each pattern reads back as what is written, its names as one binding each. What owns a binding
/// is the innermost closure, coroutine, `const` block, length or argument around what is written, or nothing. The source map leads back
/// from each written expression and label to what it became, from parentheses to what is in them, and from no other node.
pub fn sources()
    ensures { AllStand }
{}

/// The faults are those of what is read of the tree, in the order of lowering: one for each disabled node that is asked about, one for
/// each macro call that isn't found, one for each named jump that has no target, or none in reach, one for each await outside of
/// async code, one for each expression behind the two dots of a record that is assigned to, and one for each parameter that may only be
/// a name and isn't.
pub fn diagnostics()
    ensures are { DiagnosticsAre }
    ensures scopes { ScopesAround }
{}

/// The numbers of the entered blocks are those of the tree, in the order in which lowering reads it.
pub fn blocks()
    ensures { BlocksAre }
{}

/// A tree becomes so many expressions, labels and bindings as are counted in it, each binding with the number of what owns it, and
/// patterns, types and lifetimes from just those of its nodes that become one, in the order of lowering, and patterns that are made up for
/// the nodes of parameters, which don't lead to them. The assignee expression leads to its pattern in a map of its own, except for a place.
/// Lowering is refused only where there is no room for so many, or where a path, the dots of a pattern, definitions of a name or the type
/// parameters that `impl`s become count further than is counted. So it is of a body behind its parameters, also where it is a coroutine.
pub fn numbers()
    ensures trees { AllFit }
    ensures types { TypesFit }
    ensures paths { PathsFit }
    ensures bodies { BodiesFit }
{}

/// A whole body, lowered into an empty store, is one result of its tree, also where it is a coroutine.
pub fn one_result()
    ensures { OneResults }
{}

/// Small trees: a jump past a label of its name and another hygiene, a statement that becomes the tail, what is disabled, the blocks of
/// an `if`, paths and parentheses; of the plain forms, operands in their order, a method's name, what is disabled in a tuple, a leading
/// comma, an await, an unsafe block and a prefix without operator; a name that is bound twice, and which problem one shows of which two
/// are true, and an assignment; for which `try` a `?` is, and a `try` that a jump by name passes; of a `for`, the name that its turn
/// refers to, where its label is open, and its blocks; of a `while`, the block that its condition stands in, or that it is a `let`; of a
/// repeat array, that no label around is open in its length, and its blocks; of a `const` block, what leads to it and to what is in it;
/// of a closure, that no label around is open in its body, its blocks, and a disabled parameter; of a coroutine block, what it is, with
/// `move` and without, that no label around is open in it, and its blocks; what owns the bindings in closures, lengths, arguments,
/// `const` and coroutine blocks, and behind them; of a closure that is a coroutine, its formal parameter, the coroutine right in front of
/// it, the `let` in front of the body, and where the node of the parameter leads; what owns the bindings in such closures and functions,
/// and in front of and behind them; of macro calls, what leads to what they stand for, and what is wrong; of definitions of macros,
/// that just those that are written are stored, which jumps go past one, and how far they are counted; and of whatever stands for some of
/// these, what owns each binding.
pub fn small_trees()
    ensures jumps { Jumps }
    ensures statements { Statements }
    ensures blocks { EntersInOrder }
    ensures leaves { Leaves }
    ensures plain_forms { PlainForms }
    ensures patterned { Patterned }
    ensures tries { Tries }
    ensures fors { Fors }
    ensures whiles { Whiles }
    ensures consts { Consts }
    ensures closures { Closures }
    ensures coroutines { Coroutines }
    ensures owners { Owners }
    ensures coroutine_closures { CoroutineClosures }
    ensures owners_of_coroutines { OwnersOfCoroutines }
    ensures calls { Calls }
    ensures definitions { Definitions }
    ensures owners_stand { OwnersStand }
{}

//! Store and source map of an item that is lowered are one result of its parts, in the order in which they are read. Each theorem is the
//! contract of an empty function.
#![tactic(auto)]

ghost use Rattle.thm_item_result.specs.Answers.{AliasesRead, FunctionsRead, ImplsRead};
ghost use Rattle.thm_item_result.specs.Apart.{ItemsApart};
ghost use Rattle.thm_item_result.specs.Exceeding.{RoomIsThere};
ghost use Rattle.thm_item_result.specs.Fits.{FittingItems, ItemsFit, RefusedItems};
ghost use Rattle.thm_item_result.specs.Inside.{AliasesHoldOnce, FunctionsHoldOnce, GenericsHoldOnce, HeldApart, ImplsHoldOnce};
ghost use Rattle.thm_item_result.specs.Inside.{TraitsHoldOnce, TwoDefaults};
ghost use Rattle.thm_item_result.specs.ItemResult.{ItemResults};
ghost use Rattle.thm_item_result.specs.Once.{AliasesOnce, FunctionsOnce, GenericsOnce, ImplsOnce, TraitsOnce};
ghost use Rattle.thm_item_result.specs.Roots.{FirstItemRoots, ItemRoots};
ghost use Rattle.thm_item_result.specs.Stored.{FirstItemsStore, ItemsStore};
ghost use Rattle.thm_item_result.specs.Words.{SameWords};
ghost use Rattle.thm_item_result.specs.Examples.{CountsArguments, CountsParts};

/// Where no root is being lowered, each constant in an item is recorded as one, in the order in which its parts are read, and does what
/// the written one does: also what stands in a path that is refused, in arguments that are dropped, or in the bounds of an `impl` that
/// becomes an error. From nothing on, the store has no other root.
pub fn item_roots()
    ensures from_any { ItemRoots }
    ensures first { FirstItemRoots }
{}

/// An item, lowered into an empty store, is one result of its parts.
pub fn item_results()
    ensures { ItemResults }
{}

/// Lowering an item stores as much as its parts become, and makes as many parameters; it is refused only where there is no room for as
/// many patterns, types and lifetimes as are counted in them, or for as many expressions, labels and bindings as are in the bodies inside
/// them, or where something counts further than is counted, be it names that are made up or parameters, of which lifetimes are counted
/// apart. Nor is it answered where it doesn't fit: as much of each sort as is counted in its parts fits into an arena of the limit, and as
/// many names and parameters as are made are counted.
pub fn refused_items()
    ensures from_any { ItemsFit }
    ensures first { RefusedItems }
    ensures fits { FittingItems }
{}

/// What lowering a tree, a type, a path or a body behind its parameters stores, and the names and parameters that it makes, there was room
/// for. So where there is no room it is refused. It leaves no arena with more than it may hold, and counts as far as 32 bits do.
pub fn room_is_there()
    ensures { RoomIsThere }
{}

/// What lowering an item answers reads back as what is written, and each body inside it does what the written one does: the type and the
/// trait of an `impl`, the bounds and the type of an alias, and of a function the types of what it is given and of what it returns, `self`
/// as `Self` or a reference to it where no type is written, and a coroutine as an `impl` of its trait.
pub fn items_read_back()
    ensures impls { ImplsRead }
    ensures aliases { AliasesRead }
    ensures functions { FunctionsRead }
{}

/// All types and lifetimes that lowering an item stores read back, in their order, as its parts say, in each later store: what is written,
/// or what is made. So do those that nothing reaches: of each parameter the type that it is, and of each lifetime parameter its lifetime,
/// which bears its name.
pub fn items_store()
    ensures from_any { ItemsStore }
    ensures first { FirstItemsStore }
{}

/// What an item is answered with names types, its parameters and predicates do, and they reach through them others, each in one way only,
/// and none that an expression or a pattern names: the default of a parameter, the type of a constant one, what a predicate is of, once
/// for all that are of it, and its bound. A parameter that an `impl` became is named where the `impl` stood, and its bounds are by the
/// predicates.
pub fn answers_reach_once()
    ensures generics { GenericsOnce }
    ensures traits { TraitsOnce }
    ensures impls { ImplsOnce }
    ensures aliases { AliasesOnce }
    ensures functions { FunctionsOnce }
{}

/// The constants and the ends of ranges that are held by what an item is answered with, and by its parameters and predicates, reach
/// expressions, and so does what one of those holds and doesn't run: each in one way only. So each is an expression of its own, as the
/// defaults of two constant parameters are, and none stands in another one, also in the bounds of an `impl` that became a parameter.
pub fn answers_hold_once()
    ensures generics { GenericsHoldOnce }
    ensures traits { TraitsHoldOnce }
    ensures impls { ImplsHoldOnce }
    ensures aliases { AliasesHoldOnce }
    ensures functions { FunctionsHoldOnce }
{}

/// Of a function with an argument `impl A<[!; 1]>` the path, the array, its element and its length are reached, each once, through what is
/// asked of the parameter that the `impl` became.
pub fn counts_arguments()
    ensures { CountsArguments }
{}

/// Of small items everything is reached, each once: of `<T = [!; 1], const N: [!; 2] = 3>` with `where [!; 4]: A<5> + A<6>` the defaults,
/// the type of the constant, what the predicates are of, and their bounds; of an alias its bound and its type, of an `impl` its type and
/// its trait, of a function the type that it returns.
pub fn counts_parts()
    ensures { CountsParts }
{}

/// Where each expression is reached in one way only by what is held, no two that are held are one. So the defaults of two constant
/// parameters are two expressions, also where both are absent.
pub fn held_are_apart()
    ensures any { HeldApart }
    ensures defaults { TwoDefaults }
{}

/// What stands in a description of what is answered for `Self`, for the names of a coroutine's trait and of what it gives, for the type
/// that a parameter is, and for whether a function has a `self` or is variadic, is what the steps say.
pub fn same_words()
    ensures { SameWords }
{}

/// Where each name that lowering made up is of one binding or label at most, or of two bindings, of which one is a formal parameter, so it
/// is behind an item.
pub fn items_made_apart()
    ensures { ItemsApart }
{}

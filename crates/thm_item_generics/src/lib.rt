//! What lowering an item notes: its parameters, those that `impl`s become among them, its lifetime parameters, and the names of lifetimes;
//! and from these the kinds of the lifetime parameters. And what it asks of types and lifetimes: its predicates, in their order, those of
//! the parameters that `impl`s become among them, each with what it is of and its bound read back. Theorems, each the contract of a
//! function.
#![tactic(auto)]

ghost use Rattle.thm_item_generics.specs.AskedTheorems.{ItemsAsk};
ghost use Rattle.thm_item_generics.specs.Theorems.{ItemsMake, ItemsTrack};
ghost use Rattle.thm_item_generics.specs.Words.{SameWords};

/// Lowering an item notes its parameters in the order of their numbers, by name or as those of `impl`s, its lifetime parameters, and the
/// names of lifetimes by where they count, in the order in which its parts are read. Of each parameter the default of a type and the type
/// of a constant read back as they are written, the default of a constant came from the node of the written one, and the bodies in them do
/// what the written ones do; of each that is a type the type that it is, is stored, and bears its number.
pub fn items_track()
    ensures { ItemsTrack }
{}

/// What is answered has these parameters; its lifetimes are early bound, except for those of a function that no bound names and, where what
/// is returned names them, an argument constrains.
pub fn items_make()
    ensures { ItemsMake }
{}

/// The name of a trait's `Self`, and the type that a parameter is, are those of the steps.
pub fn same_words()
    ensures { SameWords }
{}

/// To the predicates of an item come as many as its parts ask, in the order in which these are read: of a parameter, which has the number
/// that it has among all, of a written type, or of a lifetime; with the names of the `for<..>` in front of it and the bound as it is
/// written. An error and a `use<..>` ask nothing, but of an `impl` that becomes a parameter, nor does a trait of a lifetime.
pub fn items_ask()
    ensures { ItemsAsk }
{}

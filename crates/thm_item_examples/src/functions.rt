//! Theorems of small functions.

ghost use Rattle.thm_item_examples.specs.FunctionRows.{ArgumentImplsAreRead, ArgumentsAreRead, CoroutinesAreRead, FunctionsAreRead};
ghost use Rattle.thm_item_examples.specs.FunctionRows.{ReceiversAreRead, ReturnedIsRead};

/// `self` is `Self`, a reference to it, or the type that is written; a lifetime is read without a reference, too.
#[tactic(auto, using(crate::proofs::FunctionRows::reads_receivers))]
pub fn reads_receivers()
    ensures { ReceiversAreRead }
{}

/// What is disabled is told before the types of all but `self`, is no `self` and makes nothing variadic; of dots nothing is read.
pub fn reads_arguments()
    ensures { ArgumentsAreRead }
{}

/// An `impl` that is given is a parameter, of which each bound is asked, whatever it is. It comes behind those that are written and behind
/// the one in a binding inside of it; elsewhere inside of it one is an error.
pub fn reads_argument_impls()
    ensures { ArgumentImplsAreRead }
{}

/// What is returned is absent, an error, or a type, in which an `impl` stays.
pub fn reads_what_is_returned()
    ensures { ReturnedIsRead }
{}

/// `async`, `gen` and `async gen` return an `impl` of the trait of their coroutine, of `()` where nothing is written.
pub fn reads_coroutines()
    ensures { CoroutinesAreRead }
{}

/// The parameters, the where clause, `self`, the other types, and what is returned.
#[tactic(auto, using(crate::proofs::FunctionRows::reads_functions))]
pub fn reads_functions()
    ensures { FunctionsAreRead }
{}

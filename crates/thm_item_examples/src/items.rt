//! Theorems of small traits, implementations and aliases.

ghost use Rattle.thm_item_examples.specs.ItemRows.{AliasesAreRead, ImplementationsAreRead, OtherTraitsAreNone, TraitsAreRead};

/// `Self` is the first parameter of a trait, whose bounds it asks first; what `impl`s in these become is numbered before the others.
pub fn reads_traits()
    ensures { TraitsAreRead }
{}

/// The type, the trait, in which an `impl` stays, and then the parameters; a type that is lacking is an error, and so is an `impl`.
pub fn reads_implementations()
    ensures { ImplementationsAreRead }
{}

/// A trait is only read where it is a path as it stands, and there is none where that is absent or refused.
pub fn reads_other_traits_as_none()
    ensures { OtherTraitsAreNone }
{}

/// The bounds, in which an `impl` stays, the parameters, and the type, in which one stays too. Last a fault is told where an alias of a
/// module or of an `impl` lacks its type; none is of a trait or an extern block.
pub fn reads_aliases()
    ensures { AliasesAreRead }
{}

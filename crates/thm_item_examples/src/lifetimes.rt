//! Theorems of small functions with lifetime parameters.

ghost use Rattle.thm_item_examples.specs.LifetimeRows.{AliasesConstrainWhatTheyName, BoundsDecide, DefaultsNameNothing};
ghost use Rattle.thm_item_examples.specs.LifetimeRows.{ImplsDecide, ProjectionsConstrainNothing, TypesDecide};

/// A lifetime is early bound where what is returned alone names it, and late bound where what is given does, or nothing.
pub fn types_decide()
    ensures { TypesDecide }
{}

/// One that a bound names, or a where clause, is early bound; a bound that is a lifetime names the one that it is of, too, and a trait
/// doesn't.
pub fn bounds_decide()
    ensures { BoundsDecide }
{}

/// An `impl` that is given names it as a bound does, and one that is returned as what is returned; a default names nothing, except for an
/// `impl` in it, nor does the type of a constant.
pub fn impls_decide()
    ensures { ImplsDecide }
{}

/// The default of a type or of a constant counts neither as what is given nor as what is returned, nor as a bound; nor does the type of a
/// constant.
pub fn defaults_name_nothing()
    ensures { DefaultsNameNothing }
{}

/// What is given constrains nothing by the type or the trait of a projection; a `for<'a>` hides no `'a`.
pub fn projections_constrain_nothing()
    ensures { ProjectionsConstrainNothing }
{}

/// Of the arguments of an alias only those constrain that its type names, and none does where it has no answer.
pub fn aliases_constrain_what_they_name()
    ensures { AliasesConstrainWhatTheyName }
{}

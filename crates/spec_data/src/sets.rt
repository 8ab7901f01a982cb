//! What is noted of a tree: the lifetimes that it names, by where they count, and the parameters that its `impl`s become; and whether a
//! lifetime parameter is bound early or late. Nothing here runs: what is said is in `specs`, and each function's contract is a row of it.

ghost use Rattle.spec_data.specs.SetsExample.{AliasConstrainsWhatItNames, BoundIsEarly, ConstantsCount, ConstrainedIsLate, ImplsTrack};
ghost use Rattle.spec_data.specs.SetsExample.{InnerImplsFirst, NamelessCountNowhere, ProjectionConstrainsNothing, RefusedConstrainsByAll};
ghost use Rattle.spec_data.specs.SetsExample.{ReturnedAloneIsEarly};
ghost use Rattle.spec_data.specs.Places.{AliasesCount, CountsInImpls, CountsInProjections, CountsWhereItCorresponds, ImplsAreParameters};
ghost use Rattle.spec_data.specs.Places.{PathsSayAliases};

/// Of `fn f<'a>(_: &'a !) -> &'a !` `'a` is late.
#[tactic(auto, using(crate::proofs::SetsExample::constrained_is_late))]
pub fn constrained_is_late()
    ensures { ConstrainedIsLate }
{}

/// Of `fn f<'a>() -> &'a !` `'a` is early, and where nothing names it it is late.
#[tactic(auto, using(crate::proofs::SetsExample::returned_alone_is_early))]
pub fn returned_alone_is_early()
    ensures { ReturnedAloneIsEarly }
{}

/// Of `fn f<'a: 'b, 'b>(_: &'a !)` both are early.
#[tactic(auto, using(crate::proofs::SetsExample::bound_is_early))]
pub fn bound_is_early()
    ensures { BoundIsEarly }
{}

/// `'static`, `'_` and an error count nowhere.
#[tactic(auto, using(crate::proofs::SetsExample::nameless_count_nowhere))]
pub fn nameless_count_nowhere()
    ensures { NamelessCountNowhere }
{}

/// Of `fn f<'a>(_: <! as A<'a>>::Q) -> &'a !` `'a` is early.
#[tactic(auto, using(crate::proofs::SetsExample::projection_constrains_nothing))]
pub fn projection_constrains_nothing()
    ensures { ProjectionConstrainsNothing }
{}

/// Of an alias in an argument only those constrain that its type names, by their place among all lifetimes there; of one without an
/// answer none does.
#[tactic(auto, using(crate::proofs::SetsExample::alias_constrains_what_it_names))]
pub fn alias_constrains_what_it_names()
    ensures { AliasConstrainsWhatItNames }
{}

/// An alias without arguments beside its last name, and one that is refused, constrain by all that they name.
#[tactic(auto, using(crate::proofs::SetsExample::refused_constrains_by_all))]
pub fn refused_constrains_by_all()
    ensures { RefusedConstrainsByAll }
{}

/// What a constant names counts as what the type around it does.
#[tactic(auto, using(crate::proofs::SetsExample::constants_count))]
pub fn constants_count()
    ensures { ConstantsCount }
{}

/// An `impl` in an argument is a parameter, named in bounds with as many as it has; a `dyn` names as an argument.
#[tactic(auto, using(crate::proofs::SetsExample::impls_track))]
pub fn impls_track()
    ensures { ImplsTrack }
{}

/// An `impl` inside of another one becomes a parameter in front of it.
#[tactic(auto, using(crate::proofs::SetsExample::inner_impls_first))]
pub fn inner_impls_first()
    ensures { InnerImplsFirst }
{}

/// A lifetime counts by the place of its type.
#[tactic(auto, using(crate::proofs::Places::counts_where_it_corresponds))]
pub fn counts_where_it_corresponds()
    ensures { CountsWhereItCorresponds }
{}

/// In an `impl` a lifetime counts as in a bound where that stands in an argument, a projection of one or a bound, and else as returned.
pub fn counts_in_impls()
    ensures { CountsInImpls }
{}

/// In the type and the trait of a projection a lifetime counts nowhere where that stands in an argument, and else as around it.
pub fn counts_in_projections()
    ensures { CountsInProjections }
{}

/// A path in an argument that is an alias says which of its lifetime parameters its type names; any other path says nothing.
pub fn paths_say_aliases()
    ensures { PathsSayAliases }
{}

/// Of an alias in an argument that counts which its type names, and elsewhere all does.
pub fn aliases_count()
    ensures { AliasesCount }
{}

/// An `impl` in an argument is a parameter of the item.
pub fn impls_are_parameters()
    ensures { ImplsAreParameters }
{}

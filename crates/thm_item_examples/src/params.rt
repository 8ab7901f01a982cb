//! Theorems of small generic parameters and where clauses.

ghost use Rattle.thm_item_examples.specs.ParamRows.{AsksByBounds, DisabledAnywhere, Everywhere, InWrittenOrder, ParametersFirst};
ghost use Rattle.thm_item_examples.specs.ParamRows.{ReadsConstParams};
ghost use Rattle.thm_item_examples.specs.ParamRows.{ReadsImpls, ReadsLifetimeParams, ReadsTypeParams, ReadsWhereClauses};

/// `<T>` is a parameter of this name, one without a name has the missing one; a default is read first, then the bounds.
#[tactic(auto, using(crate::proofs::ParamRows::reads_type_params))]
pub fn reads_type_params()
    ensures { Everywhere ReadsTypeParams }
{}

/// A constant has a name, a type, and maybe a default, in this order; a type that it lacks is an error.
pub fn reads_const_params()
    ensures { Everywhere ReadsConstParams }
{}

/// A lifetime that has a name is a parameter, and early bound; another one is none, and its bounds aren't read.
#[tactic(auto, using(crate::proofs::ParamRows::reads_lifetime_params))]
pub fn reads_lifetime_params()
    ensures { Everywhere ReadsLifetimeParams }
{}

/// Parameters come as they are written, and are numbered so; lifetimes stand apart.
#[tactic(auto, using(crate::proofs::ParamRows::keeps_the_order))]
pub fn keeps_the_order()
    ensures { Everywhere InWrittenOrder }
{}

/// Of a disabled parameter nothing but the fault is left: it has no number, and nothing in it is read.
#[tactic(auto, using(crate::proofs::ParamRows::emits_what_is_disabled))]
pub fn emits_what_is_disabled()
    ensures { DisabledAnywhere }
{}

/// Each bound asks, as it is marked, except for an error and `use<..>`; of a lifetime only lifetimes do.
pub fn asks_by_bounds()
    ensures { Everywhere AsksByBounds }
{}

/// A where clause is of a type, with what its `for` introduces, or of a lifetime; of one that has neither nothing is read.
pub fn reads_where_clauses()
    ensures { Everywhere ReadsWhereClauses }
{}

/// The parameters come before the where clause.
#[tactic(auto, using(crate::proofs::ParamRows::reads_parameters_first))]
pub fn reads_parameters_first()
    ensures { Everywhere ParametersFirst }
{}

/// An `impl` in a bound is a parameter, numbered behind the one that the bound is of, and what it asks comes first, of a lifetime too; in
/// a default, in the type of a constant and where a where clause says of what it is, one is an error.
pub fn reads_impls()
    ensures { Everywhere ReadsImpls }
{}

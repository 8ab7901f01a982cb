//! An environment that answers from tables.
//!
//! It stands beside what asks an environment, since whatever may drop a tree is dear to check, and tables hold trees.
#![tactic(auto)]

ghost use Rattle.hir_tables.specs.Theorems.{PathsAsKeys, SamePathsAreOne, NamesAsKeys, PlacesAsKeys};
ghost use Rattle.hir_tables.specs.Theorems.{FirstOfAlias, FirstOfCall, FirstOfDefinition, FirstOfLegacy, FirstOfPath};

mod first_below;
mod first_of;
pub mod table;

/// A path is found by the same path alone: one that begins alike, and has the same names one by one.
pub fn finds_the_same_path()
    ensures { PathsAsKeys }
{}

/// Paths that are the same differ in nothing.
pub fn same_paths_are_one()
    ensures { SamePathsAreOne }
{}

/// A name is found by the same name alone.
pub fn finds_the_same_name()
    ensures { NamesAsKeys }
{}

/// A node is found by the same node alone: the one of its number in its file.
pub fn finds_the_same_node()
    ensures { PlacesAsKeys }
{}

/// Of two answers for one call the first counts, and another call's answer is left alone.
pub fn first_of_a_call_counts()
    ensures { FirstOfCall }
{}

/// Of two answers for one alias the first counts, and another alias's answer is left alone.
pub fn first_of_an_alias_counts()
    ensures { FirstOfAlias }
{}

/// Of two numbers of a macro of one name in one module the first counts.
pub fn first_of_a_definition_counts()
    ensures { FirstOfDefinition }
{}

/// So it does of a macro that `macro_rules` has defined, in the same place among those of its name.
pub fn first_of_a_legacy_macro_counts()
    ensures { FirstOfLegacy }
{}

/// A path stands for what the first entry of the same path in the module says, and without such an entry for nothing.
pub fn first_of_a_path_counts()
    ensures { FirstOfPath }
{}

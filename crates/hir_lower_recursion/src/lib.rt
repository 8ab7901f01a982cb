//! The functions that lower expressions, blocks, paths, types and arguments, each of which calls the others through the forms.
#![tactic(auto)]

pub mod items;
pub mod knot;
mod nodes;

//! Type aliases: an alias with its type in a store of its own, and which of its lifetime parameters the type names.
#![tactic(auto)]

pub mod places;
pub mod signature;
pub mod visitor;

//! Lowering of items: generic parameters, where predicates, and the types of functions, traits, implementations and aliases. Each function
//! here works on a builder, and meets the description of what lowering makes of the item with the answers written into it.
#![tactic(auto)]

mod constants;
mod coroutines;
pub mod function;
pub mod items;
pub mod kinds;
pub mod params;
mod places;
mod predicates;

//! The bindings of a pattern, and what is wrong with them.
//!
//! A name with its hygiene is a number here: what the caller's table of the top pattern gives it in the order of first use. One
//! table serves the whole pattern, its or-patterns included, so that two uses have one number exactly where they are one binding.
#![tactic(auto)]

pub mod binding;
pub mod list;
pub mod seen;
pub mod theorems;

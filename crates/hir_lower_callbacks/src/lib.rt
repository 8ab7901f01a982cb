//! What lowers the parts of a form, of functions that lower expressions, blocks, paths, types and arguments; no function here calls
//! itself.
#![tactic(auto)]

pub mod aliases;
pub mod by;
pub mod callbacks;
mod constant;
pub mod lower_callbacks;
pub mod numbers;

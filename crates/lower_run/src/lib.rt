//! The program except for what it takes from the system: from an input to the listing on an output, and the status.
#![tactic(auto)]

pub mod disposal;
pub mod failure;
pub mod input;
pub mod lowered;
pub mod mode;
pub mod run;

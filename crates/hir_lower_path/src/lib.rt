//! How a path is read, segment by segment, with what lowers its parts handed in.
#![tactic(auto)]

mod args;
mod local;
pub mod path;
mod places;

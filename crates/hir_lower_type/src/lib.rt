//! Forms of types, arguments and bounds. No form calls lowering; what lowers its parts is handed in.
#![tactic(auto)]

pub mod args;
pub mod bounds;
mod calls;
mod functions;
pub mod lifetimes;
mod limits;
pub mod one_arg;
mod part;
mod places;
mod simple;
pub mod type_pats;
pub mod types;

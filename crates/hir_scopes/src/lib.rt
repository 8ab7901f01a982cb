//! The scopes of a body: which bindings, labels, blocks and definitions of macros each expression of a store sees.
#![tactic(auto)]

mod blocks;
mod bodies;
mod body;
mod branches;
mod compute;
mod opening;
mod parts;
mod resolve;
pub mod scope;

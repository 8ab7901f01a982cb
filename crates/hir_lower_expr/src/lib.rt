//! Forms of expressions: nodes made of the numbers of their lowered parts. No form calls lowering; what lowers its
//! parts is handed in.
#![tactic(auto)]

pub mod assignments;
pub mod blocks;
pub mod calls;
pub mod closures;
mod conditions;
mod consts;
pub mod control;
mod coroutine_closures;
mod coroutines;
mod definitions;
pub mod fors;
pub mod jumps;
mod kept;
pub mod leaves;
pub mod leaving;
pub mod lets;
pub mod lists;
pub mod macros;
pub mod matches;
pub mod operators;
pub mod part;
pub mod questions;
pub mod ranges;
pub mod records;
mod runs;
mod stored;
mod tries;
pub mod typed;
mod written;

//! Patterns that bind, and the assignee expression.
#![tactic(auto)]

mod alternatives;
pub mod bare;
mod names;
mod part;
pub mod pats;
mod plain;
mod records;
mod sides;
mod target_arrays;
mod target_calls;
mod target_elements;
mod target_records;
pub mod targets;
pub mod top;
mod tuples;

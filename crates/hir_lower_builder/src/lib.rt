//! What all forms stand on: the builder, names, and what lowers parts. In its definitions stands the description of
//! lowering.
#![tactic(auto)]

mod absent;
pub mod args;
pub mod builder;
pub mod calls;
pub mod closures;
mod constants;
mod each;
pub mod generics;
mod labels;
pub mod made;
pub mod names;
pub mod parts;
pub mod preludes;
pub mod store_sink;
pub mod targets;
mod tracking;
mod types;
pub mod walk;

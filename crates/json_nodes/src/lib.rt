//! What a node of each kind says: its fields, and the parts that it names.
#![tactic(auto)]

pub mod args;
pub mod bounds;
pub mod branches;
pub mod code_parts;
pub mod exprs;
pub mod field;
pub mod fields;
pub mod generics;
pub mod items;
pub mod leaving;
pub mod listed;
pub mod literal;
pub mod macros;
pub mod members;
pub mod name_parts;
pub mod node;
pub mod operations;
pub mod operators;
pub mod others;
pub mod param_parts;
pub mod params;
pub mod part;
pub mod partless;
pub mod path_parts;
pub mod paths;
pub mod pats;
pub mod sorts;
pub mod type_parts;
pub mod typed;
pub mod types;

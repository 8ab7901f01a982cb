//! Documents in JSON: the first fault of one that is none.
#![tactic(auto)]

mod aliases;
mod by_word;
pub mod document;
mod env;
mod expansions;
pub mod fault;
pub mod field;
mod floats;
pub mod group;
pub mod kind;
pub mod kinds;
mod kinds_table;
mod levels;
mod listed;
mod literal;
pub mod members;
mod nodes;
mod path_text;
pub mod refusal;
mod table;
pub mod value;
pub mod words;

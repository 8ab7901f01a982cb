//! Walks over a store: what an expression and a pattern name, and what is inside a pattern.
#![tactic(auto)]

pub mod constants;
pub mod entries;
pub mod expr_pats;
pub mod exprs;
pub mod generics;
pub mod path;
pub mod pats;
pub mod roots;
pub mod visit;
pub mod walks;

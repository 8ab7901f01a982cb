//! What patterns and targets are lowered with: their parts, bindings and aims, paths and literals, items that the language names, and calls
//! of macros that stand for them. Their definitions and lemmas stand here, too.
#![tactic(auto)]

pub mod assignees;
pub mod bindings;
pub mod callees;
pub mod calls;
pub mod items;
pub mod literals;
pub mod parts;
pub mod paths;

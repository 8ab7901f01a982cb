//! Uses of `hir_lower`, which its page `CALLING.md` quotes.
#![tactic(auto)]

pub mod aliases;
pub mod bodies;
pub mod calls;
pub mod kept;
pub mod nodes;
pub mod owners;
pub mod plain;

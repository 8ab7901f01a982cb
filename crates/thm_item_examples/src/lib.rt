//! Theorems of small written items: what is read off them, whatever an environment answers besides. Each begins at a written tree, and says
//! which parameters it makes, what it asks of types and lifetimes, what is stored of it, and what is answered.
#![tactic(auto)]

pub mod functions;
pub mod items;
pub mod lifetimes;
pub mod params;

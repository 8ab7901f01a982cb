//! A function of written trees by one step for each sort, and induction over them.
#![tactic(auto)]

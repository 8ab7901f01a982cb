//! An expression by its kind: which form each kind has, and what a condition disables. It stands above the forms, since what
//! takes all kinds apart is dear to prove, and would be proved again for each change of a form.
#![tactic(auto)]

pub mod exprs;
mod families;

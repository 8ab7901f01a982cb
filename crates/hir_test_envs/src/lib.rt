//! Environments that no table is, for tests.
#![tactic(auto)]

pub mod beforehand;
pub mod cyclic;
pub mod endless;
pub mod lacking;
pub mod one_module;
pub mod one_shadow;

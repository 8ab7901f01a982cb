//! The parameters of a lowered body.
//!
//! They stand beside lowering, since what shows them needs nothing of it.

/// A parameter: what the caller hands its argument to, and what was written for it. The two differ where the body begins with
/// `let`s of its parameters.
#[derive_where(Clone, Copy; T)]
pub struct Param<T> {
    pub formal: T,
    pub user_written: T,
}

//! What a search among the open labels answers.

use hir_store::ids::LabelId;

/// Why a jump by name has no target.
#[derive(Clone, Copy, PartialEq, Eq)]
pub enum NoTarget {
    /// Its label lies behind a closure, a coroutine or a constant.
    Unreachable,
    /// No label around it has its name and its hygiene.
    Undeclared,
}

/// The label of a `try`, and whether its type is written.
#[derive(Clone, Copy)]
pub struct TryLabel {
    pub label: LabelId,
    pub typed: bool,
}

//! Why an entry was refused.

ghost use Rattle.std.specs.Prelude.{◌≡◌};

use std::alloc::AllocError;
use thiserror::Error;

/// Memory was refused, an arena has reached its limit, or a counter its end.
#[derive(Debug, Clone, Copy, PartialEq, Eq, Error)]
pub enum StoreError {
    #[error("memory")]
    Memory,
    #[error("full")]
    Full,
}

impl From<AllocError> for StoreError {
    ghost use Rattle.hir_store.specs.declared.error.StoreError.TheVariants.{Memory};

    ghost from_gives = { λ _ fault. fault ≡ Memory };

    fn from(_: AllocError) -> StoreError {
        StoreError::Memory
    }
}

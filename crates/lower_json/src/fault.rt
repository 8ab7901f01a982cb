//! Why a text is not read.

ghost use Rattle.std.specs.Prelude.{◌≡◌};

use json_errors::refusal::Refusal;
use std::alloc::AllocError;
use thiserror::Error;

/// What is wrong with a text: it isn't JSON, or the document that it is has a fault.
#[derive(Debug, Clone, Copy, PartialEq, Eq, Error)]
pub enum Fault {
    #[error("not JSON")]
    NotJson,
    #[error("{0}")]
    Document(json_errors::fault::Fault),
}

/// A text was faulty, or memory was refused.
#[derive(Debug, Clone, Copy, PartialEq, Eq, Error)]
pub enum ReadError {
    #[error("memory")]
    Memory,
    #[error("{0}")]
    Fault(Fault),
}

impl From<AllocError> for ReadError {
    ghost use Rattle.lower_json.specs.declared.fault.ReadError.TheVariants.{Memory};

    ghost from_gives = { λ _ error. error ≡ Memory };

    fn from(_: AllocError) -> ReadError {
        ReadError::Memory
    }
}

impl From<Refusal> for ReadError {
    ghost use Rattle.lower_json.specs.Refusals.{error_of};

    ghost from_gives = { λ refusal error. error ≡ error_of refusal };

    fn from(refusal: Refusal) -> ReadError {
        match refusal {
            Refusal::Memory => ReadError::Memory,
            Refusal::Fault(fault) => ReadError::Fault(Fault::Document(fault)),
        }
    }
}

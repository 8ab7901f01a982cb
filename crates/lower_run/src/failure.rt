//! Why a run ends without a listing.

ghost use Rattle.std.specs.Prelude.{◌≡◌};
ghost use Rattle.lower_run.specs.Statuses.{status_of, not_read, not_lowered};

use hir_lower::LowerError;
use lower_json::fault::{Fault, ReadError};
use std::alloc::AllocError;
use std::io::{self, ErrorKind, Write};
use thiserror::Error;

/// A run that ends without a listing.
#[derive(Debug, Drop, Error)]
pub enum Failure {
    #[error("usage: lower_tool path|type|pat|body|fn")]
    Usage,
    /// Standard input failed.
    #[error("fault: input")]
    Input,
    /// Standard output didn't take all.
    #[error("fault: output")]
    Output,
    /// The document is bad.
    #[error("fault: {0}")]
    Document(Fault),
    #[error("refused: memory")]
    Memory,
    #[error("refused: full")]
    Full,
}

impl Failure {
    /// Why the program's words couldn't be had: one that isn't UTF-8 is no mode, and all else is memory.
    pub fn of_words(error: &io::Error) -> Failure {
        match error.kind() {
            ErrorKind::InvalidData => Failure::Usage,
            _ => Failure::Memory,
        }
    }

    /// The status that the run ends with.
    pub fn status(&self) -> u8
        ensures { result ≡ status_of self.now }
    {
        match self {
            Failure::Usage | Failure::Input | Failure::Output | Failure::Document(_) => 2,
            Failure::Memory | Failure::Full => 3,
        }
    }

    /// Says why, where `errors` takes it, and answers the status that the run ends with.
    pub fn report<X: Write>(&self, errors: &mut X) -> u8
        ensures { result ≡ status_of self.now }
    {
        let _ = writeln!(errors, "{}", self);
        self.status()
    }
}

impl From<AllocError> for Failure {
    ghost use Rattle.lower_run.specs.declared.failure.Failure.TheVariants.{Memory};

    ghost from_gives = { λ _ failure. failure ≡ Memory };

    fn from(_: AllocError) -> Failure {
        Failure::Memory
    }
}

impl From<ReadError> for Failure {
    ghost from_gives = { λ error failure. failure ≡ not_read error };

    fn from(error: ReadError) -> Failure {
        match error {
            ReadError::Memory => Failure::Memory,
            ReadError::Fault(fault) => Failure::Document(fault),
        }
    }
}

impl From<LowerError> for Failure {
    ghost from_gives = { λ error failure. failure ≡ not_lowered error };

    /// A fresh collector hasn't failed before, so `Failed` isn't met.
    fn from(error: LowerError) -> Failure {
        match error {
            LowerError::Full => Failure::Full,
            LowerError::Memory | LowerError::Failed => Failure::Memory,
        }
    }
}

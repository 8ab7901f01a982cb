//! All of an input.

ghost use Rattle.std.specs.Prelude.{◌≡◌, ◌⊎◌, IfOk, OnOk, IfErr};
ghost use Rattle.std.specs.Io.KnownBytes.{Consumes, IsAtEnd};

use crate::failure::Failure;
use std::alloc::Global;
use std::io::{ErrorKind, Read};

const MOST_READS: u64 = 4_294_967_296;

/// Reads to the end. A reader that hasn't ended after 4,294,967,296 reads counts as one that fails.
pub fn read_all<R: Read>(alloc: Global, input: &mut R) -> Result<Vec<u8>, Failure>
    ensures read { IfOk result (λ all. Consumes (R.remaining input.old) (R.remaining input.new) all.items) }
    ensures end { OnOk result (IsAtEnd (R.remaining input.new)) }
    ensures err { IfErr result (λ e. (e ≡ Failure.Input) ⊎ (e ≡ Failure.Memory)) }
{
    let mut all = Vec::new(alloc);
    let mut buf = [0u8; 8192];
    for _ in 0..MOST_READS {
        match input.read(&mut buf) {
            Ok(0) => return Ok(all),
            Ok(n) => all
                .extend_from_slice(&buf[..n])
                .map_err(|_| Failure::Memory)?,
            Err(e) => if e.kind() != ErrorKind::Interrupted {
                return Err(Failure::Input);
            },
        }
    }
    Err(Failure::Input)
}

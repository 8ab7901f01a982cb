//! What crosses the border: a text to a buffer of the caller's.

ghost use Rattle.std.specs.Prelude.{◌⊎◌, Err};
ghost use Rattle.lower_run.specs.Statuses.{status_of};
ghost use Rattle.lower_c.specs.Answers.{HandsOver, HandsOverSome, Reports};

use lower_run::failure::Failure;
use std::alloc::Global;

const TOO_SHORT: u32 = 4;

const REFUSED: u32 = 3;

const NO_MEMORY: &[u8] = b"refused: memory\n";

/// Writes a text to the head of a buffer, and answers the status that it goes with. A buffer that is too short stays as it is.
fn hand_over(status: u32, text: &[u8], out: &mut [u8], needed: &mut usize) -> u32
    ensures { HandsOver status text.now result needed.new out.old out.new }
{
    let length = text.len();
    *needed = length;
    if length > out.len() {
        return TOO_SHORT;
    }
    out[..length].copy_from_slice(text);
    status
}

/// Hands over that memory is refused, which takes no memory.
fn hand_over_refusal(out: &mut [u8], needed: &mut usize) -> u32
    ensures { Reports (Err Failure.Memory) result needed.new out.old out.new }
{
    hand_over(REFUSED, NO_MEMORY, out, needed)
}

/// Hands over what is printed of a failure. If memory is refused for that, that is said.
fn hand_over_words(alloc: Global, failure: &Failure, out: &mut [u8], needed: &mut usize) -> u32
    ensures { HandsOverSome (status_of failure.now) result needed.new out.old out.new
        ⊎ Reports (Err Failure.Memory) result needed.new out.old out.new }
{
    let status = u32::from(failure.status());
    match format!(in alloc; "{}\n", failure) {
        Ok(text) => hand_over(status, text.as_str().as_bytes(), out, needed),
        Err(_) => hand_over_refusal(out, needed),
    }
}

/// Hands over why a document isn't lowered.
fn hand_over_failure(alloc: Global, failure: &Failure, out: &mut [u8], needed: &mut usize) -> u32
    ensures { Reports (Err failure.now) result needed.new out.old out.new
        ⊎ Reports (Err Failure.Memory) result needed.new out.old out.new }
{
    match failure {
        Failure::Memory => hand_over_refusal(out, needed),
        Failure::Usage | Failure::Input | Failure::Output | Failure::Document(_) | Failure::Full =>
            hand_over_words(alloc, failure, out, needed),
    }
}

/// Hands over what came of a document, and drops it.
pub fn hand_over_result(
    alloc: Global,
    came: Result<String, Failure>,
    out: &mut [u8],
    needed: &mut usize,
) -> u32
    ensures { Reports came result needed.new out.old out.new ⊎ Reports (Err Failure.Memory) result needed.new out.old out.new }
{
    match came {
        Ok(made) => hand_over(0, made.as_str().as_bytes(), out, needed),
        Err(failure) => hand_over_failure(alloc, &failure, out, needed),
    }
}

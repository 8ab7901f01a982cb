//! Documents, one a line, and their answers.

ghost use Rattle.std.specs.Prelude.{◌≡◌, ◌⊎◌, OnOk, IfOk, IfErr};
ghost use Rattle.std.specs.Io.KnownBytes.{Appends};
ghost use Rattle.lower_lines.specs.Lines.{AnswersAll, AnswersOne, IsNextLine};

use crate::answer::{Answer, REFUSED};
use lower_run::failure::Failure;
use lower_run::mode::Mode;
use std::alloc::Global;
use std::io::{BufRead, ErrorKind, Write};

/// A line as it was read.
#[derive(Drop)]
enum Line {
    /// One that a newline ends, without it.
    Ended(Vec<u8>),
    /// What stands behind the last newline, which may be nothing.
    Rest(Vec<u8>),
}

/// The next line.
fn next_line<R: BufRead>(alloc: Global, input: &mut R) -> Result<Line, Failure>
    ensures line { IfOk result (IsNextLine (R.remaining input.old) (R.remaining input.new)) }
    ensures err { IfErr result (λ e. (e ≡ Failure.Input) ⊎ (e ≡ Failure.Memory)) }
{
    let mut line = Vec::new(alloc);
    if let Err(error) = input.read_until(b'\n', &mut line) {
        return Err(match error.kind() {
            ErrorKind::OutOfMemory => Failure::Memory,
            _ => Failure::Input,
        });
    }
    if line.last() == Some(&b'\n') {
        line.pop();
        Ok(Line::Ended(line))
    } else {
        Ok(Line::Rest(line))
    }
}

/// Writes all of a line at once.
fn send<O: Write>(out: &mut O, line: &str) -> Result<(), Failure>
    ensures sent { OnOk result (Appends (O.contents out.old) (O.contents out.new) line.now) }
    ensures err { IfErr result (λ e. e ≡ Failure.Output) }
{
    match out.write_all(line.as_bytes()) {
        Ok(()) => out.flush().map_err(|_| Failure::Output),
        Err(_) => Err(Failure::Output),
    }
}

/// Answers a document.
fn answer_one<O: Write>(alloc: Global, mode: Mode, line: &[u8], out: &mut O) -> Result<(), Failure>
    ensures answered { OnOk result (AnswersOne mode line.now (O.contents out.old) (O.contents out.new)) }
    ensures err { IfErr result (λ e. e ≡ Failure.Output) }
{
    match Answer::of(alloc, mode, line).line(alloc) {
        Ok(answer) => send(out, answer.as_str()),
        Err(_) => send(out, REFUSED),
    }
}

/// Answers each line of an input.
fn answer_all<R: BufRead, O: Write>(
    alloc: Global,
    mode: Mode,
    input: &mut R,
    out: &mut O,
) -> Result<(), Failure>
    ensures answered { OnOk result
        (AnswersAll mode (R.remaining input.old) (R.remaining input.new) (O.contents out.old) (O.contents out.new)) }
    ensures err { IfErr result (λ e. (e ≡ Failure.Input) ⊎ (e ≡ Failure.Output) ⊎ (e ≡ Failure.Memory)) }
{
    for _ in 0..u64::MAX {
        match next_line(alloc, input)? {
            Line::Ended(text) => answer_one(alloc, mode, text.as_slice(), out)?,
            Line::Rest(text) if text.is_empty() => return Ok(()),
            Line::Rest(text) => return answer_one(alloc, mode, text.as_slice(), out),
        }
    }
    Err(Failure::Input)
}

/// Answers each line of an input as the document that it is in a mode, and answers the status: 0, or 2 where a read or a write failed, or
/// 3 where memory was refused for a line. A run that doesn't end with status 0 says on `errors` why.
///
/// Each answer is written before the next line is read, and nothing is kept of a document but its answer. What is wrong with a document
/// stands in its answer alone.
pub fn lower_lines<R: BufRead, O: Write, X: Write>(
    alloc: Global,
    mode: Mode,
    input: &mut R,
    out: &mut O,
    errors: &mut X,
) -> u8
    ensures status { (result ≡ 0) ⊎ (result ≡ 2) ⊎ (result ≡ 3) }
    ensures answered { result ≡ 0 →
        AnswersAll mode (R.remaining input.old) (R.remaining input.new) (O.contents out.old) (O.contents out.new) }
    ensures silent { result ≡ 0 → errors.new ≡ errors.old }
{
    match answer_all(alloc, mode, input, out) {
        Ok(()) => 0,
        Err(failure) => failure.report(errors),
    }
}

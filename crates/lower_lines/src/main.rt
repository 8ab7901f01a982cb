//! Lowers the documents on standard input, one a line, and answers each with a line of JSON.
#![tactic(auto)]

mod answer;
mod call;
mod lines;
mod place;

use crate::call::Call;
use crate::lines::lower_lines;
use lower_run::failure::Failure;
use lower_run::mode::Mode;
use lower_run::run::written;
use std::env;
use std::io::{BufReader, Write};
use std::process::ExitCode;
use std::rt::Env;

const USAGE: &str = "usage: lower_lines path|type|pat|body|fn\n";

const VERSION: &str = "lower_lines 1\n";

const HELP: &str = "\
usage: lower_lines path|type|pat|body|fn
       lower_lines --help|--version

Lowers the documents on standard input, one a line. Each is answered by a line on standard output, in order:

{\"ok\":LISTING}
    what lower_tool prints of the document
{\"fault\":{\"status\":STATUS,\"text\":TEXT}}
    the status that lower_tool ends with, and what it says
{\"fault\":{\"column\":COLUMN,\"line\":LINE,\"status\":2,\"text\":TEXT}}
    the same of a text that isn't JSON, and where it stops being JSON

The status is 0 once each line is answered, also by faults; 2 if the words are wrong or a stream failed; 3 if memory was refused for
holding a line.
";

/// The words that the program was given, without its own name.
fn words(rt: &(impl Env + AllocGlobal)) -> Result<Vec<String>, Failure> {
    let all = env::args(rt).map_err(|error| Failure::of_words(&error))?;
    Ok(all.skip(1).collect(rt.alloc())?)
}

/// Says that the words are no call.
fn refuse_words<X: Write>(errors: &mut X) -> u8 {
    let _ = errors.write_all(USAGE.as_bytes());
    2
}

/// The status of a run on standard input and output.
fn run_lines(rt: &HostRuntime, mode: Mode) -> u8 {
    let alloc = rt.alloc();
    match BufReader::new(alloc, rt.stdin().lock()) {
        Ok(mut input) => lower_lines(alloc, mode, &mut input, &mut rt.stdout(), &mut rt.stderr()),
        Err(_) => Failure::Memory.report(&mut rt.stderr()),
    }
}

/// The status of a call.
fn status_of(rt: &HostRuntime, words: &[String]) -> u8 {
    match Call::of(words) {
        Some(Call::Help) => written(&mut rt.stdout(), &mut rt.stderr(), HELP),
        Some(Call::Version) => written(&mut rt.stdout(), &mut rt.stderr(), VERSION),
        Some(Call::Lines(mode)) => run_lines(rt, mode),
        None => refuse_words(&mut rt.stderr()),
    }
}

fn main(rt: HostRuntime) -> ExitCode {
    let status = match words(&rt) {
        Ok(words) => status_of(&rt, words.as_slice()),
        Err(Failure::Usage) => refuse_words(&mut rt.stderr()),
        Err(failure) => failure.report(&mut rt.stderr()),
    };
    ExitCode::from(status)
}

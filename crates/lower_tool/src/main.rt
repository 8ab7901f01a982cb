//! Reads a document from standard input and prints what it is lowered to.
#![tactic(auto)]

#[cfg(test)]
mod streams;

use lower_run::failure::Failure;
use lower_run::run::{ByTables, run};
use std::env;
use std::process::ExitCode;
use std::rt::Env;

/// The words that the program was given, without its own name.
fn words(rt: &(impl Env + AllocGlobal)) -> Result<Vec<String>, Failure> {
    let all = env::args(rt).map_err(|error| Failure::of_words(&error))?;
    Ok(all.skip(1).collect(rt.alloc())?)
}

fn main(rt: HostRuntime) -> ExitCode {
    let mut errors = rt.stderr();
    let status = match words(&rt) {
        Ok(words) => run(
            rt.alloc(),
            &ByTables,
            words.as_slice(),
            &mut rt.stdin().lock(),
            &mut rt.stdout(),
            &mut errors,
        ),
        Err(failure) => failure.report(&mut errors),
    };
    ExitCode::from(status)
}

//! Lowers the document on standard input once more, with other answers to all that wasn't asked, and prints what it is lowered to then.
//!
//! It is called as `lower_tool`, and prints what that prints, as long as a lowering hangs on nothing but what a recorder kept. With the
//! word `each` in front it says of each answer whether it counts, and with `log` it prints what is asked.
#![tactic(auto)]

mod line;
mod otherwise;
mod question;
mod task;

use crate::task::{Again, Each, Log};
use lower_run::failure::Failure;
use lower_run::run::run;
use std::env;
use std::process::ExitCode;
use std::rt::Env;

/// The words that the program was given, without its own name.
fn words(rt: &(impl Env + AllocGlobal)) -> Result<Vec<String>, Failure> {
    let all = env::args(rt).map_err(|error| Failure::of_words(&error))?;
    Ok(all.skip(1).collect(rt.alloc())?)
}

/// The status of a run on standard input and output.
fn status_of(rt: &HostRuntime, words: &[String]) -> u8 {
    let alloc = rt.alloc();
    let input = &mut rt.stdin().lock();
    match words {
        [first, behind @ ..] if first.as_str() == "each" => {
            run(
                alloc,
                &Each,
                behind,
                input,
                &mut rt.stdout(),
                &mut rt.stderr(),
            )
        }
        [first, behind @ ..] if first.as_str() == "log" => {
            run(
                alloc,
                &Log,
                behind,
                input,
                &mut rt.stdout(),
                &mut rt.stderr(),
            )
        }
        _ => run(
            alloc,
            &Again,
            words,
            input,
            &mut rt.stdout(),
            &mut rt.stderr(),
        ),
    }
}

fn main(rt: HostRuntime) -> ExitCode {
    let status = match words(&rt) {
        Ok(words) => status_of(&rt, words.as_slice()),
        Err(failure) => failure.report(&mut rt.stderr()),
    };
    ExitCode::from(status)
}

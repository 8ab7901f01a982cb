//! What is answered to a document.

ghost use Rattle.std.specs.Prelude.{◌≡◌, IfOk, string_bytes};
ghost use Rattle.serde_json.specs.View.{view};
ghost use Rattle.lower_run.specs.Answers.{CameOf};
ghost use Rattle.lower_lines.specs.Answers.{came_of, fault_data, SaysWhatCame, IsLineOf};

use crate::place::{Place, place_in};
use lower_json::fault::Fault;
use lower_run::failure::Failure;
use lower_run::mode::Mode;
use lower_run::run::listing_among_many;
use serde_json::{Value, json};
use std::alloc::{AllocError, Global};

/// What is answered to a document. Another form of a result, as the whole of it in JSON, is a variant of its own here.
#[derive(Drop)]
pub enum Answer {
    Listing(String),
    /// Why there is none, and where a text stops being JSON.
    Fault(Failure, Option<Place>),
}

/// The line that is answered if memory is refused for any other.
pub const REFUSED: &str = "{\"fault\":{\"status\":3,\"text\":\"refused: memory\"}}\n";

impl Answer {
    /// What is answered to the document that a line is in a mode.
    pub fn of(alloc: Global, mode: Mode, line: &[u8]) -> Answer
        ensures { CameOf mode line.now (came_of result) }
    {
        match listing_among_many(alloc, mode, line) {
            Ok(listing) => Answer::Listing(listing),
            Err(Failure::Document(Fault::NotJson)) => {
                Answer::Fault(Failure::Document(Fault::NotJson), place_in(alloc, line))
            }
            Err(failure) => Answer::Fault(failure, None),
        }
    }

    fn json(&self, alloc: Global) -> Result<Value, AllocError>
        ensures { IfOk result (λ v. SaysWhatCame (came_of self.now) (view v)) }
    {
        match self {
            Answer::Listing(listing) => json!(in alloc; {"ok": listing.as_str()}),
            Answer::Fault(failure, place) => {
                let text = format!(in alloc; "{}", failure)?;
                fault_json(alloc, failure.status(), text.as_str(), *place)
            }
        }
    }

    /// The answer as a line of JSON.
    pub fn line(&self, alloc: Global) -> Result<String, AllocError>
        ensures { IfOk result (λ s. IsLineOf (came_of self.now) (string_bytes s)) }
    {
        let mut line = self.json(alloc)?.to_string(alloc)?;
        line.push_str("\n")?;
        Ok(line)
    }
}

/// What is answered without a listing.
fn fault_json(
    alloc: Global,
    status: u8,
    text: &str,
    place: Option<Place>,
) -> Result<Value, AllocError>
    ensures { IfOk result (λ v. view v ≡ fault_data status text.now place) }
{
    let status = u64::from(status);
    match place {
        None => json!(in alloc; {"fault": {"status": status, "text": text}}),
        Some(at) => {
            let line = at.line as u64;
            let column = at.column as u64;
            json!(in alloc; {"fault": {"column": column, "line": line, "status": status, "text": text}})
        }
    }
}

//! What the program is asked for.

ghost use Rattle.std.specs.Prelude.{◌≡◌};
ghost use Rattle.lower_run.specs.Words.{called, mode_with, root_of};

use lower_json::document::Root;
use std::convert::AsStr;

/// What of a document is lowered.
#[derive(Clone, Copy, PartialEq, Eq)]
pub enum Mode {
    Path,
    Type_,
    Pat,
    Body,
    Fn,
}

impl Mode {
    /// The mode whose word it is.
    pub fn with_word(word: &str) -> Option<Mode>
        ensures { result ≡ mode_with word.now }
    {
        match word {
            "path" => Some(Mode::Path),
            "type" => Some(Mode::Type_),
            "pat" => Some(Mode::Pat),
            "body" => Some(Mode::Body),
            "fn" => Some(Mode::Fn),
            _ => None,
        }
    }

    /// The mode that the words call for: exactly one word, which is a mode's.
    #[tactic(auto, using(crate::proofs::Calls::more_is_no_call))]
    pub fn called<W: AsStr>(words: &[W]) -> Option<Mode>
        ensures { result ≡ called W.text words.now }
    {
        let (word, more) = words.split_first()?;
        if !more.is_empty() {
            return None;
        }
        Mode::with_word(word.as_str())
    }

    /// What the root of a document has to be.
    pub fn root(self) -> Root
        ensures { result ≡ root_of self }
    {
        match self {
            Mode::Path => Root::Path,
            Mode::Type_ => Root::Type_,
            Mode::Pat => Root::Pat,
            Mode::Body | Mode::Fn => Root::Fn,
        }
    }
}

//! What the words of a call ask for.

ghost use Rattle.std.specs.Prelude.{◌≡◌};
ghost use Rattle.lower_lines.specs.Calls.{asked, asked_by, call_of};

use lower_run::mode::Mode;
use std::convert::AsStr;

/// What the program is asked for.
#[derive(Clone, Copy)]
pub enum Call {
    Help,
    Version,
    Lines(Mode),
}

impl Call {
    fn with_word(word: &str) -> Option<Call>
        ensures { result ≡ asked_by word.now }
    {
        match word {
            "--help" => Some(Call::Help),
            "--version" => Some(Call::Version),
            _ => None,
        }
    }

    /// What words ask for that call for no mode.
    #[tactic(auto, using(crate::proofs::Calls::more_is_not_asked))]
    fn asked<W: AsStr>(words: &[W]) -> Option<Call>
        ensures { result ≡ asked W.text words.now }
    {
        let (word, more) = words.split_first()?;
        if !more.is_empty() {
            return None;
        }
        Call::with_word(word.as_str())
    }

    /// What the words ask for: exactly one word, which is a mode's or one of `--help` and `--version`.
    pub fn of<W: AsStr>(words: &[W]) -> Option<Call>
        ensures { result ≡ call_of W.text words.now }
    {
        match Mode::called(words) {
            Some(mode) => Some(Call::Lines(mode)),
            None => Call::asked(words),
        }
    }
}

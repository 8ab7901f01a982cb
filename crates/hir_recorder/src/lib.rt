//! An environment that answers as another one does, and keeps what it was asked, with the answers.
#![tactic(auto)]

ghost use Rattle.hir_recorder.specs.Alike.{CoveredAlike, CoveredByFiles, KeptAlike};

pub mod asked;
pub mod recorder;

pub use asked::{Asked, are_answered_alike};
pub use recorder::Recorder;

/// Two environments that answer all of this as it was answered answer it alike: each question but those about single contexts, since
/// contexts are one question as a whole, and about expansions, which nobody is known to answer so.
pub fn kept_alike()
    ensures { KeptAlike }
{}

/// So they answer alike each list whose questions are all among what was asked. Where expansions are among it, that is so of two
/// environments that know a call by its node, and give each expansion a file of its own, if both have the files that were kept.
pub fn covered_alike()
    ensures answers { CoveredAlike }
    ensures files { CoveredByFiles }
{}

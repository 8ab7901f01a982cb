//! Theorems that show what the steps and the rule say. A theorem is a function whose contract is the theorem.

ghost use Rattle.hir_binding.specs.Theorems.{ShowsWhatIsTrue, EndsOverRecent, Examples};

/// A binding shows none where the rule says that it is right, and else a problem that is true of it.
pub fn shows_what_is_true()
    ensures { ShowsWhatIsTrue }
{}

/// The end of an alternative need not look at names that were left unmarked before.
pub fn ends_over_recent()
    ensures { EndsOverRecent }
{}

/// Small patterns.
pub fn examples()
    ensures { Examples }
{}

//! How a name is bound, and what can be wrong with a binding.

ghost use Rattle.std.specs.Prelude.{◌≡◌};

/// How a use of a name binds it.
#[derive(Clone, Copy, PartialEq, Eq)]
pub enum BindingAnnotation {
    Unannotated,
    Mutable,
    Ref,
    RefMut,
}

impl BindingAnnotation {
    ghost use Rattle.hir_binding.specs.Steps.{same_mode};

    /// Whether the modes are the same.
    pub fn is_same(self, other: BindingAnnotation) -> bool
        ensures { result ≡ same_mode self other }
    {
        self == other
    }
}

/// What can be wrong with a binding.
#[derive(Clone, Copy, PartialEq, Eq)]
pub enum BindingProblems {
    /// Two parts of one product bind it.
    BoundMoreThanOnce,
    /// Its uses have two modes.
    BoundInconsistently,
    /// An or-pattern binds it in some of its alternatives only.
    NotBoundAcrossAll,
}

/// Whether a set of seen names has a name, and which alternative used it last.
#[derive(Clone, Copy, PartialEq, Eq)]
pub enum Mark {
    /// None has used it.
    Unseen,
    /// One that came before the alternative before.
    Missing,
    /// The alternative before.
    Unmarked,
    /// The alternative at hand.
    Marked,
}

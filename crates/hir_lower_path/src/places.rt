//! Where the type and the trait of a projection are read.

ghost use Rattle.std.specs.Prelude.{◌≡◌};
ghost use Rattle.hir_env.specs.Paths as spec;

use hir_env::ctx::{LifetimeScope, LowerCtx};

/// A lifetime in a projection in an argument doesn't count.
fn in_projection_scope(scope: LifetimeScope) -> LifetimeScope
    ensures { result ≡ spec.in_projection_scope scope }
{
    match scope {
        LifetimeScope::Nowhere => LifetimeScope::Nowhere,
        LifetimeScope::Bound => LifetimeScope::Bound,
        LifetimeScope::Input => LifetimeScope::Projection,
        LifetimeScope::Projection => LifetimeScope::Projection,
        LifetimeScope::Output => LifetimeScope::Output,
    }
}

pub(crate) fn inside_projection(place: LowerCtx) -> LowerCtx
    ensures { result ≡ spec.inside_projection place }
{
    LowerCtx {
        lifetimes: in_projection_scope(place.lifetimes),
        ..place
    }
}

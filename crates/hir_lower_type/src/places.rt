//! Places inside of an `impl`, and inside of a written binding, where another `impl` may stand.

ghost use Rattle.std.specs.Prelude.{◌≡◌};
ghost use Rattle.hir_env.specs.Paths as spec;

use hir_env::ctx::{LifetimeScope, LowerCtx};

/// Where a lifetime counts in an `impl`.
fn in_impl_scope(scope: LifetimeScope) -> LifetimeScope
    ensures { result ≡ spec.in_impl_scope scope }
{
    match scope {
        LifetimeScope::Nowhere => LifetimeScope::Output,
        LifetimeScope::Bound => LifetimeScope::Bound,
        LifetimeScope::Input => LifetimeScope::Bound,
        LifetimeScope::Projection => LifetimeScope::Bound,
        LifetimeScope::Output => LifetimeScope::Output,
    }
}

pub(crate) fn inside_impl(place: LowerCtx) -> LowerCtx
    ensures { result ≡ spec.inside_impl place }
{
    LowerCtx {
        in_impl: true,
        lifetimes: in_impl_scope(place.lifetimes),
        ..place
    }
}

pub(crate) fn outside_impl(place: LowerCtx) -> LowerCtx
    ensures { result ≡ spec.outside_impl place }
{
    LowerCtx {
        in_impl: false,
        ..place
    }
}

//! At which depths something is open, by what it is.

ghost use Rattle.std.specs.Prelude.{◌≡◌};
ghost use Rattle.std.specs.BTreeSet.{contains};
ghost use Rattle.hir_lower_scope.specs.Depths.{IsDeepest, by_key, deeper};

use std::collections::BTreeSet;

/// The deepest of those of this key that are less deep.
pub(crate) fn deepest<K: Copy + Ord>(
    depths: &BTreeSet<(K, usize)>,
    key: K,
    below: usize,
) -> Option<usize>
    ensures { IsDeepest (λ q. contains (by_key K.cmp) depths.now (key, q)) below result }
{
    let (_, depth) = depths.range((key, 0)..(key, below)).next_back()?;
    Some(*depth)
}

/// The deeper of two depths.
pub(crate) fn deeper(left: Option<usize>, right: Option<usize>) -> Option<usize>
    ensures { result ≡ deeper left right }
{
    match (left, right) {
        (Some(left), Some(right)) => Some(if left < right { right } else { left }),
        (Some(left), None) => Some(left),
        (None, right) => right,
    }
}

//! The bindings that a closure owns.

ghost use Rattle.std.specs.Prelude.{All, IfOk, length};
ghost use Rattle.hir_lower_uses.specs.Uses.{AllOwnedBelow, IsOwned};

use hir_store::ids::{BindingId, ExprId};
use hir_store::store::ExpressionStore;
use std::alloc::{AllocError, Global};

/// The bindings that a closure owns, ascending. So it goes for a coroutine, a `const` block, a length and a constant argument.
pub fn bindings_of(
    alloc: Global,
    store: &ExpressionStore,
    closure: ExprId,
) -> Result<Vec<BindingId>, AllocError>
    ensures owned { IfOk result (λ bs. All (IsOwned store.now closure) bs.items) }
    ensures all { IfOk result (λ bs. AllOwnedBelow (length store.now.bindings) store.now closure bs.items) }
{
    let mut owned = Vec::new(alloc);
    for number in 0..store.bindings_len() {
        let binding = BindingId(number);
        if store.binding_owner(binding) == Some(closure) {
            owned.push(binding)?;
        }
    }
    Ok(owned)
}

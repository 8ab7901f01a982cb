//! An order of scopes in which all that are inside a scope come right behind it. Which place a scope has changes no answer, only how far a
//! walk goes that takes them in this order.

ghost use Rattle.std.specs.Prelude.{◌≡◌, ◌-◌, ◌^◌, IfOk, length, min, option_map, slice_get, unwrap_or};
ghost use Rattle.hir_scopes.specs.Parts.{parent_in};

use hir_scopes::scope::{ExprScopes, ScopeId};
use std::alloc::{AllocError, Global};

/// The number at this index; 0 behind the last one.
pub(crate) fn number_at(numbers: &[u32], index: usize) -> u32
    ensures { result ≡ unwrap_or (slice_get numbers.now index) 0 }
{
    match numbers.get(index) {
        None => 0,
        Some(number) => *number,
    }
}

/// Adds to the number at this index.
fn add_at(numbers: &mut Vec<u32>, index: usize, more: u32)
    ensures { length numbers.new.items ≡ length numbers.old.items }
{
    if index < numbers.len() {
        numbers[index] = numbers[index].saturating_add(more);
    }
}

/// How many scopes there are, or as many as a number can say.
fn scopes_len(scopes: &ExprScopes) -> u32
    ensures { result ≡ min (length scopes.now.scopes) (2 ^ 32 - 1) }
{
    let len = scopes.len();
    if len < u32::MAX as usize {
        len as u32
    } else {
        u32::MAX
    }
}

/// How many scopes are inside each scope, itself among them. Those inside have greater ids.
fn sizes(alloc: Global, scopes: &ExprScopes) -> Result<Vec<u32>, AllocError>
    ensures { IfOk result (λ ns. length ns.items ≡ min (length scopes.now.scopes) (2 ^ 32 - 1)) }
{
    let len = scopes_len(scopes);
    let mut sizes = vec![in alloc; 1u32; len as usize]?;
    let mut left = len;
    while left > 0 {
        left -= 1;
        add_to_parent(scopes, &mut sizes, left);
    }
    Ok(sizes)
}

/// Adds the number of a scope to that of its parent.
fn add_to_parent(scopes: &ExprScopes, sizes: &mut Vec<u32>, scope: u32)
    ensures { length sizes.new.items ≡ length sizes.old.items }
{
    if let Some(parent) = scopes.parent(ScopeId(scope)) {
        let size = number_at(sizes.as_slice(), scope as usize);
        add_at(sizes, parent.0 as usize, size);
    }
}

/// The index of a scope's parent; this one if it has none.
fn parent_or(scopes: &ExprScopes, scope: u32, none: u32) -> u32
    ensures { result ≡ unwrap_or (option_map (λ p. p.0) (parent_in (slice_get scopes.now.scopes scope))) none }
{
    match scopes.parent(ScopeId(scope)) {
        None => none,
        Some(parent) => parent.0,
    }
}

/// The place of each scope, by its id. What is inside a scope takes the places behind its own, as many as there are.
pub(crate) fn places(alloc: Global, scopes: &ExprScopes) -> Result<Vec<u32>, AllocError>
    ensures { IfOk result (λ ns. length ns.items ≡ min (length scopes.now.scopes) (2 ^ 32 - 1)) }
{
    let len = scopes_len(scopes);
    let sizes = sizes(alloc, scopes)?;
    let mut places = vec![in alloc; 0u32; len as usize]?;
    // of each scope the first place inside it that isn't taken; the last one is for scopes inside of none
    let mut free = vec![in alloc; 0u32; len as usize + 1]?;
    for scope in 0..len {
        let parent = parent_or(scopes, scope, len) as usize;
        let place = number_at(free.as_slice(), parent);
        add_at(
            &mut free,
            parent,
            number_at(sizes.as_slice(), scope as usize),
        );
        add_at(&mut free, scope as usize, place.saturating_add(1));
        add_at(&mut places, scope as usize, place);
    }
    Ok(places)
}

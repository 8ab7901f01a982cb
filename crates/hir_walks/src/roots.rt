//! The root that an entry of a store came with, and the coroutine of a closure.

ghost use Rattle.std.specs.Prelude.{◌≡◌, slice_get};
ghost use Rattle.std.specs.List.Sorted.{IsNonDecreasingBy};
ghost use Rattle.hir_walks.specs.declared.roots.EntryKind.TheVariants as entry;
ghost use Rattle.hir_walks.specs.Roots.{coroutine_of, end_of, root_of};

use hir_store::hir::{ClosureKind, Expr};
use hir_store::ids::{BindingId, ExprId, PatId};
use hir_store::roots::ExprRoot;
use hir_store::store::ExpressionStore;

/// What the ends of roots are compared by.
#[derive(Clone, Copy)]
enum EntryKind {
    Expr,
    Pat,
    Binding,
}

fn end_of(kind: EntryKind, root: &ExprRoot) -> u32
    ensures { result ≡ end_of kind root.now }
{
    match kind {
        EntryKind::Expr => root.exprs_end.0,
        EntryKind::Pat => root.pats_end.0,
        EntryKind::Binding => root.bindings_end.0,
    }
}

/// The first root that ends past this number, by halving: roots are recorded in the order of their ends.
fn root_past(roots: &[ExprRoot], kind: EntryKind, number: u32) -> Option<ExprId>
    ensures { IsNonDecreasingBy (end_of kind) roots.now → result ≡ root_of kind number roots.now }
{
    let mut low = 0;
    let mut high = roots.len();
    while low < high {
        let middle = low + (high - low) / 2;
        if end_of(kind, &roots[middle]) <= number {
            low = middle + 1;
        } else {
            high = middle;
        }
    }
    match roots.get(low) {
        Some(root) => Some(root.root),
        None => None,
    }
}

/// The root that the expression came with: the first one that was done when it was stored. None where no root was.
pub fn find_root_for_expr(store: &ExpressionStore, id: ExprId) -> Option<ExprId>
    ensures { IsNonDecreasingBy (end_of entry.Expr) store.now.roots → result ≡ root_of entry.Expr id.0 store.now.roots }
{
    root_past(store.expr_roots(), EntryKind::Expr, id.0)
}

/// The root that the pattern came with.
pub fn find_root_for_pat(store: &ExpressionStore, id: PatId) -> Option<ExprId>
    ensures { IsNonDecreasingBy (end_of entry.Pat) store.now.roots → result ≡ root_of entry.Pat id.0 store.now.roots }
{
    root_past(store.expr_roots(), EntryKind::Pat, id.0)
}

/// The root that the binding came with.
pub fn find_root_for_binding(store: &ExpressionStore, id: BindingId) -> Option<ExprId>
    ensures { IsNonDecreasingBy (end_of entry.Binding) store.now.roots → result ≡ root_of entry.Binding id.0 store.now.roots }
{
    root_past(store.expr_roots(), EntryKind::Binding, id.0)
}

/// The coroutine that a coroutine closure makes: its body. None of another expression.
pub fn coroutine_for_closure(store: &ExpressionStore, id: ExprId) -> Option<ExprId>
    ensures { result ≡ coroutine_of (slice_get store.now.exprs id.0) }
{
    match store.expr(id) {
        Some(
            Expr::Closure {
                body,
                closure_kind: ClosureKind::CoroutineClosure(_),
                ..
            },
        ) => Some(*body),
        _ => None,
    }
}

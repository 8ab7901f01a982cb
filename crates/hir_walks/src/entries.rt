//! Entries by ids that are in range, as indexing has them.

ghost use Rattle.std.specs.Prelude.{◌≡◌, ◌<◌, length, slice_get, Some};

use hir_store::hir::{Binding, Expr, Label, Pat};
use hir_store::ids::{BindingId, ExprId, LabelId, LifetimeRefId, PatId, TypeRefId};
use hir_store::store::ExpressionStore;
use hir_store::type_ref::{LifetimeRef, TypeRef};

/// The expression with this id.
pub fn expr(store: &ExpressionStore, id: ExprId) -> &Expr
    requires { id.0 < length store.now.exprs }
    ensures { slice_get store.now.exprs id.0 ≡ Some result.now }
{
    match store.expr(id) {
        Some(expr) => expr,
        None => unreachable!(),
    }
}

/// The pattern with this id.
pub fn pat(store: &ExpressionStore, id: PatId) -> &Pat
    requires { id.0 < length store.now.pats }
    ensures { slice_get store.now.pats id.0 ≡ Some result.now }
{
    match store.pat(id) {
        Some(pat) => pat,
        None => unreachable!(),
    }
}

/// The binding with this id.
pub fn binding(store: &ExpressionStore, id: BindingId) -> &Binding
    requires { id.0 < length store.now.bindings }
    ensures { slice_get store.now.bindings id.0 ≡ Some result.now }
{
    match store.binding(id) {
        Some(binding) => binding,
        None => unreachable!(),
    }
}

/// The label with this id.
pub fn label(store: &ExpressionStore, id: LabelId) -> &Label
    requires { id.0 < length store.now.labels }
    ensures { slice_get store.now.labels id.0 ≡ Some result.now }
{
    match store.label(id) {
        Some(label) => label,
        None => unreachable!(),
    }
}

/// The type with this id.
pub fn type_ref(store: &ExpressionStore, id: TypeRefId) -> &TypeRef
    requires { id.0 < length store.now.types }
    ensures { slice_get store.now.types id.0 ≡ Some result.now }
{
    match store.type_ref(id) {
        Some(ty) => ty,
        None => unreachable!(),
    }
}

/// The lifetime with this id.
pub fn lifetime(store: &ExpressionStore, id: LifetimeRefId) -> &LifetimeRef
    requires { id.0 < length store.now.lifetimes }
    ensures { slice_get store.now.lifetimes id.0 ≡ Some result.now }
{
    match store.lifetime(id) {
        Some(lifetime) => lifetime,
        None => unreachable!(),
    }
}

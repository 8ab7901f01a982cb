//! The expressions of a store that are names.

ghost use Rattle.std.specs.Prelude.{◌≡◌, ℕ, IfOk, None, slice_get};
ghost use Rattle.std.specs.List.{Contains};
ghost use Rattle.std.specs.Option.{option_copied};
ghost use Rattle.hir_names.specs.Reads.{Reads, name_in};
ghost use Rattle.hir_store.specs.declared.ids.ExprId.{ExprId as Id};

use crate::order::{number_at, places};
use hir_scopes::scope::ExprScopes;
use hir_store::hir::Expr;
use hir_store::ids::ExprId;
use hir_store::name::Name;
use hir_store::path::Path;
use hir_store::store::ExpressionStore;
use hir_walks::path::as_ident;
use std::alloc::{AllocError, Global};

/// The name that the expression is, if it is a path of one plain segment.
pub(crate) fn name_read(store: &ExpressionStore, expr: ExprId) -> Option<&Name>
    ensures { option_copied result ≡ name_in (slice_get store.now.exprs expr.0) }
{
    match store.expr(expr) {
        Some(
            Expr::Path {
                path: Path::BarePath(path),
                ..
            },
        ) => as_ident(path),
        _ => None,
    }
}

/// The place of the scope that a name stands in; none if the expression is no name, or has no scope.
fn place_of(
    store: &ExpressionStore,
    scopes: &ExprScopes,
    places: &[u32],
    expr: ExprId,
) -> Option<u32>
    ensures { result ≡ None → Reads store.now scopes.now expr → ⊥ }
{
    let Some(_) = name_read(store, expr) else {
        return None;
    };
    let Some(scope) = scopes.scope_for(expr) else {
        return None;
    };
    Some(number_at(places, scope.0 as usize))
}

/// Adds an expression, behind the place of its scope, if it is a name that has one.
fn add_name(
    store: &ExpressionStore,
    scopes: &ExprScopes,
    places: &[u32],
    names: &mut Vec<(u32, ExprId)>,
    expr: ExprId,
) -> Result<(), AllocError>
    ensures kept { IfOk result (λ _. (r : ℕ × Id) → Contains names.old.items r → Contains names.new.items r) }
    ensures added { IfOk result (λ _. Reads store.now scopes.now expr → (place : ℕ) × Contains names.new.items (place, expr)) }
{
    match place_of(store, scopes, places, expr) {
        None => Ok(()),
        Some(place) => {
            names.push((place, expr))?;
            Ok(())
        }
    }
}

/// All names that have a scope, each behind the place of that scope, in the order of these places.
pub(crate) fn names_in_order(
    alloc: Global,
    store: &ExpressionStore,
    scopes: &ExprScopes,
) -> Result<Vec<(u32, ExprId)>, AllocError>
    ensures { IfOk result (λ rs. (e : Id) → Reads store.now scopes.now e → (place : ℕ) × Contains rs.items (place, e)) }
{
    let places = places(alloc, scopes)?;
    let mut names = Vec::new(alloc);
    for number in 0..store.exprs_len() {
        add_name(store, scopes, places.as_slice(), &mut names, ExprId(number))?;
    }
    names.sort_unstable();
    Ok(names)
}

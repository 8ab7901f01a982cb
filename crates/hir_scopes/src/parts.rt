//! The parts of an expression that opens no scope.

ghost use Rattle.std.specs.Prelude.{◌≡◌, ◌++◌, ◌∷◌, [], IfOk, Some, slice_get};
ghost use Rattle.spec_scopes.specs.Placed.{plain_parts};

use hir_base::Seq;
use hir_store::error::StoreError;
use hir_store::hir::Expr;
use hir_store::ids::ExprId;
use hir_store::store::ExpressionStore;
use hir_walks::constants::ExprSink;
use hir_walks::exprs::{walk_child_exprs_without_pats, walk_exprs_in_pat};
use std::alloc::Global;

/// Expressions in the order in which they were handed on.
#[derive(Drop)]
struct Listed {
    ids: Seq<ExprId>,
}

impl ExprSink for Listed {
    ghost after = { λ v i. record v { ids = v.ids ++ i ∷ [] } };

    fn take(&mut self, id: ExprId) -> Result<(), StoreError> {
        self.ids.push(id)?;
        Ok(())
    }
}

/// Hands on the parts.
fn walk_plain_parts(
    store: &ExpressionStore,
    id: ExprId,
    expr: &Expr,
    listed: &mut Listed,
) -> Result<(), StoreError>
    requires { slice_get store.now.exprs id.0 ≡ Some expr.now }
    ensures { IfOk result (λ _. listed.new.ids ≡ listed.old.ids ++ plain_parts store.now expr.now) }
{
    match expr {
        Expr::Assignment { target, value } => {
            walk_exprs_in_pat(store, *target, listed)?;
            listed.take(*value)?;
            Ok(())
        }
        _ => {
            walk_child_exprs_without_pats(store, id, listed)?;
            Ok(())
        }
    }
}

/// The parts of an expression in the order in which scopes go through them: of an assignment the places in its target, then the value.
pub(crate) fn plain_parts(
    alloc: Global,
    store: &ExpressionStore,
    id: ExprId,
    expr: &Expr,
) -> Result<Seq<ExprId>, StoreError>
    requires { slice_get store.now.exprs id.0 ≡ Some expr.now }
    ensures { IfOk result (λ ids. ids ≡ plain_parts store.now expr.now) }
{
    let mut listed = Listed {
        ids: Seq::new(alloc),
    };
    walk_plain_parts(store, id, expr, &mut listed)?;
    let Listed { ids } = listed;
    Ok(ids)
}

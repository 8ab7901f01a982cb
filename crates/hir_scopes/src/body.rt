//! The scopes of a body, and of the constants of a signature.

ghost use Rattle.std.specs.Prelude.{◌≡◌, ◌<◌, IfOk, length};
ghost use Rattle.hir_scopes.specs.Chains.{IsChain};
ghost use Rattle.hir_scopes.specs.Records.{HasScope};
ghost use Rattle.hir_scopes.specs.declared.scope.ScopeId.{ScopeId as Id};
ghost use Rattle.hir_store.specs.declared.ids.ExprId.{ExprId as Expr};
ghost use Rattle.spec_scopes.specs.Placed.{Sees, Spot, outermost, recorded};

use crate::compute::compute_expr_scopes;
use crate::opening::{Around, add_params_bindings, add_self};
use crate::scope::{ExprScopes, no_scopes};
use hir_store::error::StoreError;
use hir_store::ids::{BindingId, ExprId, PatId};
use hir_store::store::ExpressionStore;
use std::alloc::Global;

impl ExprScopes {
    /// The scopes of a body: `self` and the parameters are in scope in its root, and in constants.
    pub fn body_scopes(
        alloc: Global,
        store: &ExpressionStore,
        self_param: Option<BindingId>,
        params: &[PatId],
        root: ExprId,
    ) -> Result<ExprScopes, StoreError>
        ensures seen { IfOk result (λ m. (e : Expr) (s : Id) → HasScope m e s
            → (x : Spot) × Sees store.now root (outermost store.now self_param params.now) e x
            × IsChain m (Some s) (recorded store.now e x)) }
        ensures all { IfOk result (λ m. (e : Expr) (x : Spot) → Sees store.now root (outermost store.now self_param params.now) e x
            → e.0 < length store.now.exprs → (s : Id) × HasScope m e s) }
    {
        let mut scopes = no_scopes(alloc, store.exprs_len())?;
        add_self(&mut scopes, self_param)?;
        add_params_bindings(store, &mut scopes, params)?;
        let outermost = scopes.new_binding_scope(None, 0)?;
        let around = Around {
            scope: outermost,
            const_scope: outermost,
        };
        compute_expr_scopes(alloc, store, &mut scopes, root, around)?;
        Ok(scopes)
    }
}

//! The calls of a body.

ghost use Rattle.std.specs.Prelude.{◌≡◌, count_by, slice_get};
ghost use Rattle.hir_lower_uses.specs.Uses.{is_call, is_call_there};

use hir_store::hir::Expr;
use hir_store::ids::ExprId;
use hir_store::store::ExpressionStore;

fn is_call(store: &ExpressionStore, id: ExprId) -> bool
    ensures { result ≡ is_call_there (slice_get store.now.exprs id.0) }
{
    matches!(
        store.expr(id),
        Some(Expr::Call { .. } | Expr::MethodCall { .. })
    )
}

/// How many calls are stored, of functions and of methods. All that is stored of a body belongs to it.
#[tactic(auto, using(crate::proofs::Counts::counts_yes, crate::proofs::Counts::counts_no))]
pub fn count_calls(store: &ExpressionStore) -> u32
    ensures { result ≡ count_by is_call store.now.exprs }
{
    let mut calls = 0;
    for number in 0..store.exprs_len() {
        if is_call(store, ExprId(number)) {
            calls += 1;
        }
    }
    calls
}

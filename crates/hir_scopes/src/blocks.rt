//! The scopes of the statements of a block.

ghost use Rattle.std.specs.Prelude.{◌∷◌, ◌++◌, IfOk};
ghost use Rattle.hir_scopes.specs.Chains.{Grown, InRange};
ghost use Rattle.hir_scopes.specs.Records.{Kept, Recorded, Walked};
ghost use Rattle.spec_scopes.specs.Placed as spec;
ghost use Rattle.spec_scopes.specs.Placed.{after_part, in_scope};
ghost use Rattle.spec_scopes.specs.Scopes.{pat_scope};

use crate::compute::{part, part_option};
use crate::opening::{Around, open_macro_def, open_pat};
use crate::scope::ExprScopes;
use hir_store::error::StoreError;
use hir_store::hir::Statement;
use hir_store::ids::{ExprId, PatId};
use hir_store::store::ExpressionStore;
use std::alloc::Global;

/// The bindings of a `let` are in scope behind it, not in its initializer and its `else`.
#[cycle(scopes)]
fn let_scopes(
    alloc: Global,
    store: &ExpressionStore,
    scopes: &mut ExprScopes,
    whole: ExprId,
    pat: PatId,
    initializer: Option<ExprId>,
    else_branch: Option<ExprId>,
    around: Around,
) -> Result<Around, StoreError>
    requires { InRange scopes.old around }
    ensures kept { IfOk result (Kept scopes.old scopes.new) }
    ensures walked { let after = after_part store.now whole in
        IfOk result (Walked store.now whole scopes.old scopes.new around
        (λ x. spec.placed_option store.now after initializer x
        ++ spec.placed_option store.now after else_branch (spec.past_option store.now after initializer x))
        (λ x. in_scope x (pat_scope store.now pat
        ∷ spec.after_option store.now after else_branch (spec.after_option store.now after initializer x.names)))) }
{
    let behind = part_option(alloc, store, scopes, whole, initializer, around)?;
    let behind_else = part_option(alloc, store, scopes, whole, else_branch, behind)?;
    let scope = open_pat(store, scopes, behind_else.scope, pat)?;
    Ok(Around {
        scope,
        const_scope: behind_else.const_scope,
    })
}

#[cycle(scopes)]
fn statement_scopes(
    alloc: Global,
    store: &ExpressionStore,
    scopes: &mut ExprScopes,
    whole: ExprId,
    statement: &Statement,
    around: Around,
) -> Result<Around, StoreError>
    requires { InRange scopes.old around }
    ensures kept { IfOk result (Kept scopes.old scopes.new) }
    ensures walked { IfOk result (Walked store.now whole scopes.old scopes.new around
        (spec.placed_statement store.now (after_part store.now whole) statement.now)
        (spec.past_statement store.now (after_part store.now whole) statement.now)) }
{
    match statement {
        Statement::Let {
            pat,
            initializer,
            else_branch,
            ..
        } => let_scopes(
            alloc,
            store,
            scopes,
            whole,
            *pat,
            *initializer,
            *else_branch,
            around,
        ),
        Statement::Expr { expr, .. } => part(alloc, store, scopes, whole, *expr, around),
        Statement::Item => Ok(around),
        Statement::MacroDef(def) => {
            let behind = open_macro_def(scopes, around, *def)?;
            Ok(behind)
        }
    }
}

/// Each statement stands behind those before it, and the tail behind all.
#[cycle(scopes)]
pub(crate) fn compute_block_scopes(
    alloc: Global,
    store: &ExpressionStore,
    scopes: &mut ExprScopes,
    whole: ExprId,
    mut left: &[Statement],
    tail: Option<ExprId>,
    around: Around,
) -> Result<(), StoreError>
    requires { InRange scopes.old around }
    ensures grown { IfOk result (λ _. Grown scopes.old scopes.new) }
    ensures recorded { IfOk result (λ _. Recorded store.now whole scopes.old scopes.new around
        (spec.placed_block store.now (after_part store.now whole) left.entry.now tail)) }
{
    let mut behind = around;
    while let [statement, rest @ ..] = left {
        behind = statement_scopes(alloc, store, scopes, whole, statement, behind)?;
        left = rest;
    }
    part_option(alloc, store, scopes, whole, tail, behind)?;
    Ok(())
}

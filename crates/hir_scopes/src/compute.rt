//! Which scopes an expression opens around its parts.

ghost use Rattle.std.specs.Prelude.{◌≡◌, ◌⊎◌, ◌∷◌, [], IfOk, Some, false, true, slice_get};
ghost use Rattle.hir_scopes.specs.Chains.{Grown, InRange, Stands, in_block};
ghost use Rattle.hir_scopes.specs.Forms.{is_block, is_plain};
ghost use Rattle.hir_scopes.specs.Records.{Is, Kept, Records, SeenFrom, Walked};
ghost use Rattle.spec_scopes.specs.Placed as spec;
ghost use Rattle.spec_scopes.specs.Placed.{Sees, Spot, after, after_part, in_scope};
ghost use Rattle.spec_scopes.specs.Scopes.{block_scope};

use crate::blocks::compute_block_scopes;
use crate::bodies::{closure_scopes, constant_scopes, loop_scopes, repeat_scopes};
use crate::branches::{condition_scopes, if_scopes, match_scopes};
use crate::opening::{Around, open_block};
use crate::parts::plain_parts;
use crate::scope::ExprScopes;
use hir_store::error::StoreError;
use hir_store::hir::{Array, Expr, Statement};
use hir_store::ids::{BlockId, ExprId, LabelId};
use hir_store::store::ExpressionStore;
use std::alloc::Global;

/// The scopes of a part, which is gone into if its id is less than the whole's. Returns the scopes around what comes behind it, here and
/// below.
#[cycle(scopes)]
pub(crate) fn part(
    alloc: Global,
    store: &ExpressionStore,
    scopes: &mut ExprScopes,
    whole: ExprId,
    id: ExprId,
    around: Around,
) -> Result<Around, StoreError>
    requires { InRange scopes.old around }
    ensures kept { IfOk result (Kept scopes.old scopes.new) }
    ensures walked { IfOk result (Walked store.now whole scopes.old scopes.new around (λ x. (id, x) ∷ [])
        (spec.past store.now (after_part store.now whole) id)) }
{
    if id.0 < whole.0 {
        let behind = compute_expr_scopes(alloc, store, scopes, id, around)?;
        Ok(behind)
    } else {
        Ok(around)
    }
}

#[cycle(scopes)]
pub(crate) fn part_option(
    alloc: Global,
    store: &ExpressionStore,
    scopes: &mut ExprScopes,
    whole: ExprId,
    id: Option<ExprId>,
    around: Around,
) -> Result<Around, StoreError>
    requires { InRange scopes.old around }
    ensures kept { IfOk result (Kept scopes.old scopes.new) }
    ensures walked { IfOk result (Walked store.now whole scopes.old scopes.new around
        (spec.placed_option store.now (after_part store.now whole) id) (spec.past_option store.now (after_part store.now whole) id)) }
{
    match id {
        None => Ok(around),
        Some(id) => part(alloc, store, scopes, whole, id, around),
    }
}

#[cycle(scopes)]
fn each_part(
    alloc: Global,
    store: &ExpressionStore,
    scopes: &mut ExprScopes,
    whole: ExprId,
    mut left: &[ExprId],
    around: Around,
) -> Result<Around, StoreError>
    requires { InRange scopes.old around }
    ensures kept { IfOk result (Kept scopes.old scopes.new) }
    ensures walked { IfOk result (Walked store.now whole scopes.old scopes.new around
        (spec.placed_each store.now (after_part store.now whole) left.entry.now)
        (λ x. in_scope x (spec.after_each store.now (after_part store.now whole) left.entry.now x.names))) }
{
    let mut behind = around;
    while let [id, rest @ ..] = left {
        behind = part(alloc, store, scopes, whole, *id, behind)?;
        left = rest;
    }
    Ok(behind)
}

/// An expression that opens no scope.
#[cycle(scopes)]
fn plain_scopes(
    alloc: Global,
    store: &ExpressionStore,
    scopes: &mut ExprScopes,
    id: ExprId,
    expr: &Expr,
    around: Around,
) -> Result<Around, StoreError>
    requires in_range { InRange scopes.old around }
    requires is_there { slice_get store.now.exprs id.0 ≡ Some expr.now }
    requires plain { is_plain expr.now ≡ true }
    ensures kept { IfOk result (Kept scopes.old scopes.new) }
    ensures walked { IfOk result (Walked store.now id scopes.old scopes.new around
        (spec.placed store.now (after_part store.now id) expr.now)
        (λ x. in_scope x (spec.after_form store.now (after_part store.now id) expr.now x.names))) }
{
    let parts = plain_parts(alloc, store, id, expr)?;
    let behind = each_part(alloc, store, scopes, id, parts.as_slice(), around)?;
    Ok(behind)
}

/// The scopes of the parts of an expression that is no block.
#[cycle(scopes)]
fn form_scopes(
    alloc: Global,
    store: &ExpressionStore,
    scopes: &mut ExprScopes,
    id: ExprId,
    expr: &Expr,
    around: Around,
) -> Result<Around, StoreError>
    requires in_range { InRange scopes.old around }
    requires is_there { slice_get store.now.exprs id.0 ≡ Some expr.now }
    requires no_block { is_block expr.now ≡ false }
    ensures kept { IfOk result (Kept scopes.old scopes.new) }
    ensures walked { IfOk result (Walked store.now id scopes.old scopes.new around
        (spec.placed store.now (after_part store.now id) expr.now)
        (λ x. in_scope x (spec.after_form store.now (after_part store.now id) expr.now x.names))) }
{
    match expr {
        Expr::Const(constant) => {
            constant_scopes(alloc, store, scopes, id, constant.expr, around)?;
            Ok(around)
        }
        Expr::Array(
            Array::Repeat {
                initializer,
                repeat,
            },
        ) => repeat_scopes(alloc, store, scopes, id, *initializer, repeat.expr, around),
        Expr::Loop { body, label, .. } => {
            loop_scopes(alloc, store, scopes, id, *body, *label, around)?;
            Ok(around)
        }
        Expr::Closure { args, body, .. } => {
            closure_scopes(alloc, store, scopes, id, args.as_slice(), *body, around)?;
            Ok(around)
        }
        Expr::Match { expr, arms } => {
            let behind = match_scopes(alloc, store, scopes, id, *expr, arms.as_slice(), around)?;
            Ok(behind)
        }
        Expr::If {
            condition,
            then_branch,
            else_branch,
        } => if_scopes(
            alloc,
            store,
            scopes,
            id,
            *condition,
            *then_branch,
            *else_branch,
            around,
        ),
        Expr::Let { pat, expr } => {
            condition_scopes(alloc, store, scopes, id, *pat, *expr, around)
        }
        _ => plain_scopes(alloc, store, scopes, id, expr, around),
    }
}

/// A block stands in its own scope, and so does what is recorded for it.
#[cycle(scopes)]
fn block_scopes(
    alloc: Global,
    store: &ExpressionStore,
    scopes: &mut ExprScopes,
    id: ExprId,
    block: Option<BlockId>,
    label: Option<LabelId>,
    statements: &[Statement],
    tail: Option<ExprId>,
    around: Around,
) -> Result<(), StoreError>
    requires { InRange scopes.old around }
    ensures grown { IfOk result (λ _. Grown scopes.old scopes.new) }
    ensures recorded { IfOk result (λ _. (x : Spot) → Stands scopes.old around x
        → spec.recorded store.now id x ≡ block_scope block label ∷ x.names
        → Records store.now scopes.old scopes.new (λ e y. Is id x e y
        ⊎ SeenFrom store.now id (spec.placed_block store.now (after_part store.now id) statements.now tail (in_block block label x)) e y)) }
{
    let inner = open_block(scopes, around, block, label)?;
    scopes.set_scope(id, inner.scope);
    compute_block_scopes(alloc, store, scopes, id, statements, tail, inner)?;
    Ok(())
}

/// The scopes of an expression that is there.
#[cycle(scopes)]
fn expr_scopes(
    alloc: Global,
    store: &ExpressionStore,
    scopes: &mut ExprScopes,
    id: ExprId,
    expr: &Expr,
    around: Around,
) -> Result<Around, StoreError>
    requires in_range { InRange scopes.old around }
    requires is_there { slice_get store.now.exprs id.0 ≡ Some expr.now }
    ensures kept { IfOk result (Kept scopes.old scopes.new) }
    ensures recorded { IfOk result (λ _. (x : Spot) → Stands scopes.old around x
        → Records store.now scopes.old scopes.new (Sees store.now id x)) }
    ensures behind { IfOk result (λ r. (x : Spot) → Stands scopes.old around x
        → Stands scopes.new r (in_scope x (after store.now id x.names))) }
{
    match expr {
        Expr::Block {
            label,
            id: block,
            statements,
            tail,
            ..
        } => {
            block_scopes(
                alloc,
                store,
                scopes,
                id,
                *block,
                *label,
                statements.as_slice(),
                *tail,
                around,
            )?;
            Ok(around)
        }
        _ => {
            scopes.set_scope(id, around.scope);
            let behind = form_scopes(alloc, store, scopes, id, expr, around)?;
            Ok(behind)
        }
    }
}

/// The scopes of an expression and of all inside it.
#[cycle(scopes)]
pub(crate) fn compute_expr_scopes(
    alloc: Global,
    store: &ExpressionStore,
    scopes: &mut ExprScopes,
    id: ExprId,
    around: Around,
) -> Result<Around, StoreError>
    requires { InRange scopes.old around }
    ensures kept { IfOk result (Kept scopes.old scopes.new) }
    ensures recorded { IfOk result (λ _. (x : Spot) → Stands scopes.old around x
        → Records store.now scopes.old scopes.new (Sees store.now id x)) }
    ensures behind { IfOk result (λ r. (x : Spot) → Stands scopes.old around x
        → Stands scopes.new r (in_scope x (after store.now id x.names))) }
{
    match store.expr(id) {
        None => {
            scopes.set_scope(id, around.scope);
            Ok(around)
        }
        Some(expr) => expr_scopes(alloc, store, scopes, id, expr, around),
    }
}

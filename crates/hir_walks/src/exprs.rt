//! The expressions that an expression or a pattern names, with and without those inside its patterns.

ghost use Rattle.std.specs.Prelude.{◌≡◌, ◌∷◌, ◌++◌, [], IfOk, slice_get};
ghost use Rattle.std.specs.List.{flat_map};
ghost use Rattle.std.specs.Option.{option_to_list};
ghost use Rattle.hir_store.specs.Children.{children};
ghost use Rattle.hir_walks.specs.Pats.{of_found, pats_in_all, taken};
ghost use Rattle.hir_walks.specs.Exprs.{expr_constants, expr_pats, exprs_at, exprs_in_pat, exprs_with_pats, exprs_without_pats, pat_exprs};

use crate::constants::{ExprSink, walk_args_option, walk_path_constants};
use crate::expr_pats::ExprPats;
use crate::walks::{PatSink, walk_pats, walk_some};
use hir_base::Seq;
use hir_store::children::Children;
use hir_store::error::StoreError;
use hir_store::hir::Expr;
use hir_store::ids::{ExprId, PatId};
use hir_store::pat::Pat;
use hir_store::store::ExpressionStore;
use std::alloc::Global;

fn take_option<S: ExprSink>(id: Option<ExprId>, sink: &mut S) -> Result<(), StoreError>
    ensures { IfOk result (λ _. sink.new ≡ taken S.after (option_to_list id) sink.old) }
{
    match id {
        None => Ok(()),
        Some(id) => sink.take(id),
    }
}

/// Hands on the expressions that a pattern itself names.
#[tactic(auto, using(crate::proofs::PatLemmas::taken_append))]
fn walk_pat_exprs<S: ExprSink>(pat: &Pat, sink: &mut S) -> Result<(), StoreError>
    ensures { IfOk result (λ _. sink.new ≡ taken S.after (pat_exprs pat.now) sink.old) }
{
    match pat {
        Pat::Lit(id) => sink.take(*id),
        Pat::Expr(id) => sink.take(*id),
        Pat::Range { start, end, .. } => {
            take_option(*start, sink)?;
            take_option(*end, sink)
        }
        Pat::Path { path, .. } => walk_path_constants(path, sink),
        Pat::TupleStruct { path, .. } => walk_path_constants(path, sink),
        Pat::Record { path, .. } => walk_path_constants(path, sink),
        _ => Ok(()),
    }
}

/// Is handed patterns, and hands on the expressions that these name.
#[derive(Drop)]
struct Exprs<'s, 'a, S> {
    store: &'s ExpressionStore,
    sink: &'a mut S,
}

impl<'s, 'a, S: ExprSink> PatSink for Exprs<'s, 'a, S> {
    ghost after = { λ v i. record v { sink = record v.sink { now = taken S.after (exprs_at v.store.now i) v.sink.now } } };

    fn take(&mut self, id: PatId) -> Result<(), StoreError> {
        match self.store.pat(id) {
            Some(pat) => walk_pat_exprs(pat, self.sink),
            None => Ok(()),
        }
    }
}

/// Hands on the expressions that the pattern and those inside it name, pattern by pattern in the order of `walk_pats`: literals, ends of
/// ranges, places that are assigned to, and constants among the arguments of paths.
pub fn walk_exprs_in_pat<S: ExprSink>(
    store: &ExpressionStore,
    id: PatId,
    sink: &mut S,
) -> Result<(), StoreError>
    ensures { IfOk result (λ _. sink.new ≡ taken S.after (exprs_in_pat store.now id) sink.old) }
{
    let mut exprs = Exprs { store, sink };
    walk_pats(store, id, &mut exprs)?;
    Ok(())
}

/// Hands on the patterns of an expression and all inside these, each whole before its parts, and no more than the store has.
#[tactic(auto, using(crate::proofs::PatLemmas::next_walked, crate::proofs::PatLemmas::next_counted))]
fn walk_expr_pats<S: PatSink>(
    store: &ExpressionStore,
    expr: &Expr,
    sink: &mut S,
) -> Result<(), StoreError>
    ensures { IfOk result (λ _. sink.new ≡ taken S.after (pats_in_all store.now (expr_pats expr.now)) sink.old) }
{
    let mut room = store.pats_len();
    let mut pats = ExprPats::of(expr);
    while let Some(id) = pats.next() {
        if room == 0 {
            return Ok(());
        }
        room = walk_some(store, id, room, sink)?;
    }
    Ok(())
}

/// Hands on the children of an expression.
fn walk_children<S: ExprSink>(expr: &Expr, sink: &mut S) -> Result<(), StoreError>
    ensures { IfOk result (λ _. sink.new ≡ taken S.after (children expr.now) sink.old) }
{
    let mut parts = Children::of(expr);
    while let Some(id) = parts.next() {
        sink.take(id)?;
    }
    Ok(())
}

/// Hands on the constants among the arguments of the path or method of an expression.
fn walk_expr_constants<S: ExprSink>(expr: &Expr, sink: &mut S) -> Result<(), StoreError>
    ensures { IfOk result (λ _. sink.new ≡ taken S.after (expr_constants expr.now) sink.old) }
{
    match expr {
        Expr::Path { path, .. } => walk_path_constants(path, sink),
        Expr::MethodCall { generic_args, .. } => walk_args_option(generic_args, sink),
        Expr::RecordLit { path, .. } => walk_path_constants(path, sink),
        _ => Ok(()),
    }
}

#[tactic(auto, using(crate::proofs::PatLemmas::taken_append))]
fn walk_without_pats<S: ExprSink>(expr: &Expr, sink: &mut S) -> Result<(), StoreError>
    ensures { IfOk result (λ _. sink.new ≡ taken S.after (exprs_without_pats expr.now) sink.old) }
{
    walk_children(expr, sink)?;
    walk_expr_constants(expr, sink)
}

/// Hands on the children of an expression, and behind them the constants among the arguments of its path or method; nothing where there
/// is no such expression.
pub fn walk_child_exprs_without_pats<S: ExprSink>(
    store: &ExpressionStore,
    id: ExprId,
    sink: &mut S,
) -> Result<(), StoreError>
    ensures { IfOk result (λ _. sink.new ≡ taken S.after (of_found exprs_without_pats (slice_get store.now.exprs id.0)) sink.old) }
{
    match store.expr(id) {
        None => Ok(()),
        Some(expr) => walk_without_pats(expr, sink),
    }
}

fn walk_exprs_in_pats<S: ExprSink>(
    store: &ExpressionStore,
    expr: &Expr,
    sink: &mut S,
) -> Result<(), StoreError>
    ensures { IfOk result (λ _. sink.new
        ≡ taken S.after (flat_map (exprs_at store.now) (pats_in_all store.now (expr_pats expr.now))) sink.old) }
{
    let mut exprs = Exprs { store, sink };
    walk_expr_pats(store, expr, &mut exprs)?;
    Ok(())
}

/// Hands on those of `walk_child_exprs_without_pats`, and behind them those that the patterns of the expression and the patterns inside
/// these name.
#[tactic(auto, using(crate::proofs::PatLemmas::taken_append))]
pub fn walk_child_exprs<S: ExprSink>(
    store: &ExpressionStore,
    id: ExprId,
    sink: &mut S,
) -> Result<(), StoreError>
    ensures { IfOk result (λ _. sink.new ≡ taken S.after (of_found (exprs_with_pats store.now) (slice_get store.now.exprs id.0)) sink.old) }
{
    match store.expr(id) {
        None => Ok(()),
        Some(expr) => {
            walk_without_pats(expr, sink)?;
            walk_exprs_in_pats(store, expr, sink)
        }
    }
}

/// Expressions that it was handed.
#[derive(Drop)]
struct Listed {
    ids: Seq<ExprId>,
}

impl ExprSink for Listed {
    ghost after = { λ v i. record v { ids = v.ids ++ i ∷ [] } };

    fn take(&mut self, id: ExprId) -> Result<(), StoreError> {
        self.ids.push(id)?;
        Ok(())
    }
}

/// Those of `walk_child_exprs` as a list.
#[tactic(auto, using(crate::proofs::PatLemmas::taken_within))]
pub fn child_exprs(
    alloc: Global,
    store: &ExpressionStore,
    id: ExprId,
) -> Result<Seq<ExprId>, StoreError>
    ensures { IfOk result (λ ids. ids ≡ of_found (exprs_with_pats store.now) (slice_get store.now.exprs id.0)) }
{
    let mut listed = Listed {
        ids: Seq::new(alloc),
    };
    walk_child_exprs(store, id, &mut listed)?;
    let Listed { ids } = listed;
    Ok(ids)
}

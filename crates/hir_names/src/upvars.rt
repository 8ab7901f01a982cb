//! What a closure mentions from outside.

ghost use Rattle.std.specs.Prelude.{◌≡◌, ◌↔◌, ◌++◌, ◌∷◌, [], IfOk, if◌then◌else◌, reverse, slice_get, true};
ghost use Rattle.std.specs.List.{flat_map};
ghost use Rattle.hir_names.specs.Sets.{has_in, has_seen};
ghost use Rattle.hir_names.specs.Upvars.{IsUpvar, body_exprs, body_in, exprs_in, has_binding, has_expr, if_below};
ghost use Rattle.hir_names.specs.Upvars.{is_made_in as spec_is_made_in, with_upvar, with_upvars};
ghost use Rattle.hir_scopes.specs.Parts.{joined};
ghost use Rattle.hir_store.specs.declared.ids.BindingId.{BindingId as Binding};
ghost use Rattle.hir_store.specs.declared.ids.ExprId.{ExprId as Id};
ghost use Rattle.hir_store.specs.Stored.{Store};

use crate::resolutions::Resolutions;
use hir_base::Seq;
use hir_store::error::StoreError;
use hir_store::hir::Expr;
use hir_store::ids::{BindingId, ExprId};
use hir_store::store::ExpressionStore;
use hir_walks::exprs::child_exprs;
use std::alloc::{AllocError, Global};
use std::collections::BTreeSet;

/// Puts a part of an expression on top of what is left, if its id is less than the whole's.
#[tactic(auto, using(crate::proofs::BodyLemmas::part_added, crate::proofs::BodyLemmas::part_passed))]
fn add_part(left: &mut Seq<ExprId>, whole: ExprId, part: ExprId) -> Result<(), AllocError>
    ensures { IfOk result (λ _. (store : Store) → flat_map (exprs_in store) (reverse left.new)
        ≡ if_below store whole (exprs_in store) part ++ flat_map (exprs_in store) (reverse left.old)) }
{
    if part.0 < whole.0 {
        left.push(part)?;
    }
    Ok(())
}

/// Puts the parts of an expression on top of what is left, the last one first.
fn add_parts(left: &mut Seq<ExprId>, whole: ExprId, mut parts: &[ExprId]) -> Result<(), AllocError>
    ensures { IfOk result (λ _. (store : Store) → flat_map (exprs_in store) (reverse left.new)
        ≡ flat_map (if_below store whole (exprs_in store)) parts.entry.now ++ flat_map (exprs_in store) (reverse left.old)) }
{
    while let Some(split) = parts.split_last() {
        add_part(left, whole, *split.0)?;
        parts = split.1;
    }
    Ok(())
}

/// The body of an expression that is a closure.
fn body_of(store: &ExpressionStore, closure: ExprId) -> Option<ExprId>
    ensures { result ≡ body_in (slice_get store.now.exprs closure.0) }
{
    match store.expr(closure) {
        Some(Expr::Closure { body, .. }) => Some(*body),
        _ => None,
    }
}

/// All that is inside these expressions, the last one first, each whole before its parts.
fn exprs_inside(
    alloc: Global,
    store: &ExpressionStore,
    mut left: Seq<ExprId>,
) -> Result<Seq<ExprId>, StoreError>
    ensures { IfOk result (λ es. es ≡ flat_map (exprs_in store.now) (reverse left)) }
{
    let mut exprs = Seq::new(alloc);
    while let Some(expr) = left.pop() {
        exprs.push(expr)?;
        let parts = child_exprs(alloc, store, expr)?;
        add_parts(&mut left, expr, parts.as_slice())?;
    }
    Ok(exprs)
}

/// The body of a closure alone, if its id is less than the closure's.
fn body_alone(
    alloc: Global,
    store: &ExpressionStore,
    closure: ExprId,
) -> Result<Seq<ExprId>, AllocError>
    ensures { IfOk result (λ left. flat_map (exprs_in store.now) (reverse left) ≡ body_exprs store.now closure) }
{
    let mut left = Seq::new(alloc);
    match body_of(store, closure) {
        None => Ok(left),
        Some(body) => {
            add_part(&mut left, closure, body)?;
            Ok(left)
        }
    }
}

/// The expressions in the body of a closure, the body first, each whole before its parts; none of an expression that is no closure.
fn exprs_in_body(
    alloc: Global,
    store: &ExpressionStore,
    closure: ExprId,
) -> Result<Seq<ExprId>, StoreError>
    ensures { IfOk result (λ es. es ≡ body_exprs store.now closure) }
{
    let left = body_alone(alloc, store, closure)?;
    let exprs = exprs_inside(alloc, store, left)?;
    Ok(exprs)
}

/// These expressions as a set.
fn set_of(alloc: Global, mut left: &[ExprId]) -> Result<BTreeSet<ExprId>, AllocError>
    ensures { IfOk result (λ s. (e : Id) → has_in s e ≡ has_expr left.entry.now e) }
{
    let mut set = BTreeSet::new(alloc);
    while let Some(split) = left.split_first() {
        set.insert(*split.0)?;
        left = split.1;
    }
    Ok(set)
}

/// Whether a binding is made by the parameters of a closure or in its body, of which this is the set of expressions.
#[tactic(auto, using(crate::proofs::UpvarLemmas::owners))]
fn is_made_in(
    store: &ExpressionStore,
    closure: ExprId,
    inside: &BTreeSet<ExprId>,
    binding: BindingId,
) -> bool
    requires { (e : Id) → has_in inside.now e ≡ has_expr (body_exprs store.now closure) e }
    ensures { result ≡ spec_is_made_in store.now closure binding }
{
    match store.binding_owner(binding) {
        None => false,
        Some(owner) => {
            if owner == closure {
                return true;
            }
            inside.contains(&owner)
        }
    }
}

/// Adds a binding, if it isn't there.
fn add_binding(
    seen: &mut BTreeSet<BindingId>,
    upvars: &mut Seq<BindingId>,
    binding: BindingId,
) -> Result<(), AllocError>
    requires { (b : Binding) → has_seen seen.old b ≡ has_binding upvars.old b }
    ensures seen { IfOk result (λ _. (b : Binding) → has_seen seen.new b ≡ has_binding upvars.new b) }
    ensures upvars { IfOk result (λ _. upvars.new
        ≡ (if has_binding upvars.old binding then upvars.old else upvars.old ++ binding ∷ [])) }
{
    let is_new = seen.insert(binding)?;
    if !is_new {
        return Ok(());
    }
    upvars.push(binding)?;
    Ok(())
}

/// Adds what an expression means, if that is made outside and isn't there.
fn add_mention(
    store: &ExpressionStore,
    resolutions: &Resolutions,
    closure: ExprId,
    inside: &BTreeSet<ExprId>,
    seen: &mut BTreeSet<BindingId>,
    upvars: &mut Seq<BindingId>,
    expr: ExprId,
) -> Result<(), AllocError>
    requires inside { (e : Id) → has_in inside.now e ≡ has_expr (body_exprs store.now closure) e }
    requires seen { (b : Binding) → has_seen seen.old b ≡ has_binding upvars.old b }
    ensures seen { IfOk result (λ _. (b : Binding) → has_seen seen.new b ≡ has_binding upvars.new b) }
    ensures upvars { IfOk result (λ _. upvars.new
        ≡ with_upvar store.now resolutions.now closure upvars.old (joined (slice_get resolutions.now expr.0))) }
{
    let Some(binding) = resolutions.binding(expr) else {
        return Ok(());
    };
    if is_made_in(store, closure, inside, binding) {
        return Ok(());
    }
    add_binding(seen, upvars, binding)?;
    Ok(())
}

/// Adds what these expressions mean, as far as it is made outside, each binding once.
fn add_mentions(
    alloc: Global,
    store: &ExpressionStore,
    resolutions: &Resolutions,
    closure: ExprId,
    inside: &BTreeSet<ExprId>,
    upvars: &mut Seq<BindingId>,
    mut left: &[ExprId],
) -> Result<(), AllocError>
    requires inside { (e : Id) → has_in inside.now e ≡ has_expr (body_exprs store.now closure) e }
    requires none { upvars.old ≡ [] }
    ensures { IfOk result (λ _. upvars.new ≡ with_upvars store.now resolutions.now closure [] left.entry.now) }
{
    let mut seen = BTreeSet::new(alloc);
    while let Some(split) = left.split_first() {
        add_mention(
            store,
            resolutions,
            closure,
            inside,
            &mut seen,
            upvars,
            *split.0,
        )?;
        left = split.1;
    }
    Ok(())
}

/// The bindings that names in the body of a closure mean, as far as the closure doesn't make them: each once, in the order in which the
/// body mentions them first. A closure inside mentions its names for this one, too. An expression that is no closure has none.
pub fn upvars(
    alloc: Global,
    store: &ExpressionStore,
    resolutions: &Resolutions,
    closure: ExprId,
) -> Result<Seq<BindingId>, StoreError>
    ensures listed { IfOk result (λ bs. (b : Binding) → (has_binding bs b ≡ true) ↔ IsUpvar store.now resolutions.now closure b) }
    ensures order { IfOk result (λ bs. bs ≡ with_upvars store.now resolutions.now closure [] (body_exprs store.now closure)) }
{
    let exprs = exprs_in_body(alloc, store, closure)?;
    let body = exprs.as_slice();
    let inside = set_of(alloc, body)?;
    let mut upvars = Seq::new(alloc);
    add_mentions(
        alloc,
        store,
        resolutions,
        closure,
        &inside,
        &mut upvars,
        body,
    )?;
    Ok(upvars)
}

//! Lists of patterns: the parts of a slice, and the alternatives of an or-pattern.

ghost use Rattle.std.specs.Prelude.{◌∷◌, []};
ghost use Rattle.hir_store.specs.Range.{HasPat, HasPats};
ghost use Rattle.hir_env.specs.ResolvedTree as tree;
ghost use Rattle.hir_env.specs.Whole.{resolved_pat, pats_part};
ghost use Rattle.hir_lower_builder.specs.Lower.{lower_later, lower_pat};
ghost use Rattle.hir_lower_builder.specs.Lowering.{Lowers};
ghost use Rattle.hir_lower_builder.specs.Nests.{Each};
ghost use Rattle.hir_lower_builder.specs.Pats as spec;
ghost use Rattle.hir_lower_pat.specs.Bindings.{HasNames, LowersNamed};
ghost use Rattle.hir_lower_pat.specs.Methods.{LowersLater, LowersPat};

use crate::part::{PatNode, PatPart, PatsPart};
use hir_base::node::{AstPtr, InFile};
use hir_lower_builder::builder::BodyBuilder;
use hir_lower_builder::store_sink::StoreSink;
use hir_lower_pat::bindings::Bindings;
use hir_lower_pat::parts::{Here, PatParts};
use hir_store::error::StoreError;
use hir_store::hir::Pat;
use hir_store::ids::PatId;
use hir_store::lists::push_pat;
use hir_syntax::{Seq, ast};

#[tactic(auto, unfolding(hir_lower_builder::specs::Pats::slice_pat_form))]
#[inline(never)]
pub(crate) fn slice_form<I: StoreSink, S: PatParts<I>, L: PatsPart, E: PatPart>(
    parts: &S,
    state: &mut BodyBuilder<I>,
    bindings: &mut Bindings,
    at: InFile<AstPtr>,
    before: &L,
    middle: &E,
    after: &L,
) -> Result<PatId, StoreError>
    requires before { L.can (S.can_pat parts.now) before.now }
    requires middle { E.can (S.can_pat parts.now) middle.now }
    requires after { L.can (S.can_pat parts.now) after.now }
    requires names { HasNames state.old.stored bindings.old }
    ensures { let here = S.rctx parts.now in
        LowersPat (tree.slice_pat at (L.read here before.now) (E.read here middle.now) (L.read here after.now))
        bindings.old state.old result bindings.new state.new }
{
    let prefix = before.lower_each(parts, state, bindings)?;
    let slice = middle.lower_if_present(parts, state, bindings)?;
    let suffix = after.lower_each(parts, state, bindings)?;
    let pat = Pat::Slice {
        prefix,
        slice,
        suffix,
    };
    state.alloc_pat(pat, Some(at))
}

/// The alternative, once the one before has ended.
fn next<I: StoreSink, S: PatParts<I>, N: PatNode>(
    parts: &S,
    state: &mut BodyBuilder<I>,
    bindings: &mut Bindings,
    node: &N,
) -> Result<PatId, StoreError>
    requires part { N.can (S.can_pat parts.now) node.now }
    requires names { HasNames state.old.stored bindings.old }
    ensures { let read = N.read (S.rctx parts.now) node.now in
        LowersNamed HasPat (λ t. lower_pat read (spec.next_alternative t)) bindings.old state.old result bindings.new state.new }
{
    bindings.next_alternative();
    node.lower_node(parts, state, bindings)
}

/// The alternatives behind the first.
fn later<I: StoreSink, S: PatParts<I>>(
    parts: &S,
    state: &mut BodyBuilder<I>,
    bindings: &mut Bindings,
    first: PatId,
    mut left: &[ast::Pat],
) -> Result<Seq<PatId>, StoreError>
    requires first { HasPat state.old.stored first }
    requires parts { Each (S.can_pat parts.now) left.now }
    requires names { HasNames state.old.stored bindings.old }
    ensures { LowersLater (pats_part (S.rctx parts.now) left.entry.now) (first ∷ []) bindings.old state.old result bindings.new state.new }
{
    let mut done = Seq::new(parts.alloc());
    push_pat(&mut done, first)?;
    while let [one, rest @ ..] = left {
        let id = next(parts, state, bindings, one)?;
        push_pat(&mut done, id)?;
        left = rest;
    }
    Ok(done)
}

/// One alternative is that one.
fn one_or_all<I: StoreSink>(
    state: &mut BodyBuilder<I>,
    at: InFile<AstPtr>,
    ids: Seq<PatId>,
) -> Result<PatId, StoreError>
    requires { HasPats state.old.stored ids }
    ensures { Lowers HasPat (spec.or_of at ids) state.old result state.new }
{
    match ids.as_slice() {
        [id] => Ok(*id),
        [] | [_, _, ..] => state.alloc_pat(Pat::Or(ids), Some(at)),
    }
}

/// An or-pattern that has an alternative. Its names are used once in what it stands in.
#[tactic(auto, unfolding(hir_lower_builder::specs::Pats::or_form))]
fn alternatives<I: StoreSink, S: PatParts<I>>(
    parts: &S,
    state: &mut BodyBuilder<I>,
    bindings: &mut Bindings,
    at: InFile<AstPtr>,
    first: &ast::Pat,
    left: &[ast::Pat],
) -> Result<PatId, StoreError>
    requires first { S.can_pat parts.now first.now }
    requires parts { Each (S.can_pat parts.now) left.now }
    requires names { HasNames state.old.stored bindings.old }
    ensures { let here = S.rctx parts.now in
        LowersNamed HasPat (spec.or_form at (lower_pat (resolved_pat here first.now)) (lower_later (pats_part here left.now)))
        bindings.old state.old result bindings.new state.new }
{
    bindings.enter_or()?;
    let id = parts.lower_pat(state, bindings, first)?;
    let ids = later(parts, state, bindings, id, left)?;
    let id = one_or_all(state, at, ids)?;
    bindings.leave_or()?;
    Ok(id)
}

/// Without alternatives it binds nothing.
#[inline(never)]
pub(crate) fn or_form<I: StoreSink, S: PatParts<I>>(
    parts: &S,
    state: &mut BodyBuilder<I>,
    bindings: &mut Bindings,
    at: InFile<AstPtr>,
    all: &Seq<ast::Pat>,
) -> Result<PatId, StoreError>
    requires parts { Each (S.can_pat parts.now) all.now }
    requires names { HasNames state.old.stored bindings.old }
    ensures { LowersPat (tree.or_pat at (pats_part (S.rctx parts.now) all.now)) bindings.old state.old result bindings.new state.new }
{
    match all.as_slice() {
        [] => state.alloc_pat(Pat::Or(Seq::new(parts.alloc())), Some(at)),
        [first, left @ ..] => alternatives(parts, state, bindings, at, first, left),
    }
}

//! The patterns of types.

ghost use Rattle.std.specs.Prelude.{[]};
ghost use Rattle.hir_syntax.specs.declared.pats.PatKind.{out-PatKind};
ghost use Rattle.hir_store.specs.Range.{HasPat, HasPats};
ghost use Rattle.hir_env.specs.ResolvedTree as tree;
ghost use Rattle.hir_env.specs.ResolveCtx.{in_file, ptr};
ghost use Rattle.hir_env.specs.TypePats as of;
ghost use Rattle.hir_env.specs.Whole.{resolved_pat, pat_level, pats_part, type_pat_part};
ghost use Rattle.hir_lower_builder.specs.Lowering.{Lowers};
ghost use Rattle.hir_lower_builder.specs.Lower as steps;
ghost use Rattle.hir_lower_builder.specs.Methods.{LowersTypePat, at_place};
ghost use Rattle.hir_lower_builder.specs.Nests.{Each, IfPresent};
ghost use Rattle.hir_lower_pat.specs.Calls.{written_call};
ghost use Rattle.hir_lower_pat.specs.TypePats.{IsOther};

use crate::limits::LimitPart;
use hir_base::node::{AstPtr, InFile};
use hir_env::ctx::LowerCtx;
use hir_env::expand::FragmentKind;
use hir_lower_builder::builder::BodyBuilder;
use hir_lower_builder::calls::enter;
use hir_lower_builder::parts::{LowerExprs, Lowerer, pointer_in};
use hir_lower_builder::store_sink::StoreSink;
use hir_lower_pat::calls::{missing_form, pat_of, pointed_form};
use hir_store::error::StoreError;
use hir_store::hir::Pat;
use hir_store::ids::PatId;
use hir_store::lists::push_pat;
use hir_syntax::ast::RangeOp;
use hir_syntax::{Boxed, Seq, ast};

/// What is never null.
fn not_null_form<I: StoreSink>(
    state: &mut BodyBuilder<I>,
    at: InFile<AstPtr>,
) -> Result<PatId, StoreError>
    ensures { Lowers HasPat (steps.lower_type_pat (tree.not_null_type_pat at)) state.old result state.new }
{
    state.alloc_pat(Pat::NotNull, Some(at))
}

/// Both ends are part of the range as it is stored.
#[tactic(auto, unfolding(hir_lower_builder::specs::Ranges::limits_form))]
#[inline(never)]
fn range_form<I: StoreSink, P: LowerExprs<I>, E: LimitPart>(
    lowerer: &Lowerer<P>,
    state: &mut BodyBuilder<I>,
    place: LowerCtx,
    at: InFile<AstPtr>,
    op: Option<RangeOp>,
    start: &E,
    end: &E,
) -> Result<PatId, StoreError>
    requires start { E.can ((P.can lowerer.now.parts).path place) start.now }
    requires end { E.can ((P.can lowerer.now.parts).path place) end.now }
    ensures { let here = at_place (P.rctx lowerer.now.parts) place in
        let items = here.answers.lang_items in
        let low = of.start_limit items (E.read here start.now) in
        let high = of.end_limit items op (E.read here end.now) in
        Lowers HasPat (steps.lower_type_pat (tree.range_type_pat at low high)) state.old result state.new }
{
    let start = Some(start.start_limit(lowerer, state, place)?);
    let end = Some(end.end_limit(lowerer, state, place, op)?);
    let op = RangeOp::Inclusive;
    state.alloc_pat(Pat::Range { op, start, end }, Some(at))
}

/// A pattern that no type has is missing.
#[tactic(auto, using(hir_lower_pat::proofs::TypePats::other_is))]
fn other_form<I: StoreSink, P: LowerExprs<I>>(
    lowerer: &Lowerer<P>,
    state: &mut BodyBuilder<I>,
    place: LowerCtx,
    node: &ast::Pat,
) -> Result<PatId, StoreError>
    requires { IsOther (out-PatKind node.now.kind) }
    ensures { let here = at_place (P.rctx lowerer.now.parts) place in
        let read = of.type_pat_of here.answers.lang_items (pat_level here node.now) in
        Lowers HasPat (steps.lower_type_pat read) state.old result state.new }
{
    state.alloc_pat(Pat::Missing, Some(pointer_in(place, node.id, node.range)))
}

#[cycle(type_pat)]
fn each_type_pat<I: StoreSink, P: LowerExprs<I>>(
    lowerer: &Lowerer<P>,
    state: &mut BodyBuilder<I>,
    place: LowerCtx,
    mut left: &[ast::Pat],
) -> Result<Seq<PatId>, StoreError>
    requires { Each ((P.can lowerer.now.parts).pat place) left.now }
    ensures { let here = at_place (P.rctx lowerer.now.parts) place in
        let read = of.type_pats_of here.answers.lang_items (pats_part here left.entry.now) in
        Lowers HasPats (steps.lower_type_pats [] read) state.old result state.new }
{
    let mut done = Seq::new(lowerer.alloc);
    while let [one, rest @ ..] = left {
        let id = type_pat(lowerer, state, place, one)?;
        push_pat(&mut done, id)?;
        left = rest;
    }
    Ok(done)
}

/// Alternatives stay, also where there is one.
#[cycle(type_pat)]
#[tactic(auto, unfolding(hir_lower_builder::specs::Ranges::type_alternatives_form))]
#[inline(never)]
fn alternatives_form<I: StoreSink, P: LowerExprs<I>>(
    lowerer: &Lowerer<P>,
    state: &mut BodyBuilder<I>,
    place: LowerCtx,
    node: &ast::Pat,
    all: &Seq<ast::Pat>,
) -> Result<PatId, StoreError>
    requires { Each ((P.can lowerer.now.parts).pat place) all.now }
    ensures { let here = at_place (P.rctx lowerer.now.parts) place in
        let at = in_file place (ptr node.now.id node.now.range) in
        let read = of.type_pats_of here.answers.lang_items (pats_part here all.now) in
        Lowers HasPat (steps.lower_type_pat (tree.or_type_pat at read)) state.old result state.new }
{
    let at = pointer_in(place, node.id, node.range);
    let ids = each_type_pat(lowerer, state, place, all.as_slice())?;
    state.alloc_pat(Pat::Or(ids), Some(at))
}

/// A call: what it stands for, which is missing where it stands for no pattern. Its node leads there.
#[cycle(type_pat)]
#[inline(never)]
fn called_form<I: StoreSink, P: LowerExprs<I>>(
    lowerer: &Lowerer<P>,
    state: &mut BodyBuilder<I>,
    place: LowerCtx,
    at: InFile<AstPtr>,
    call: &ast::MacroCall,
) -> Result<PatId, StoreError>
    requires { (P.can lowerer.now.parts).pat_call place call.now }
    ensures { let here = at_place (P.rctx lowerer.now.parts) place in
        let read = of.type_pat_of here.answers.lang_items (written_call here at call.now) in
        Lowers HasPat (steps.lower_type_pat read) state.old result state.new }
{
    let there = lowerer.moved(place);
    let entered = enter(&there, state, FragmentKind::Pat, call)?;
    match pat_of(entered) {
        None => missing_form(state, at),
        Some((place, node)) => {
            let id = type_pat(&there, state, place, node)?;
            pointed_form(state, at, id)
        }
    }
}

#[cycle(type_pat)]
#[tactic(auto, using(hir_lower_pat::proofs::TypePats::others_left))]
fn type_pat<I: StoreSink, P: LowerExprs<I>>(
    lowerer: &Lowerer<P>,
    state: &mut BodyBuilder<I>,
    place: LowerCtx,
    node: &ast::Pat,
) -> Result<PatId, StoreError>
    requires { (P.can lowerer.now.parts).pat place node.now }
    ensures { let here = at_place (P.rctx lowerer.now.parts) place in
        let read = of.type_pat_of here.answers.lang_items (resolved_pat here node.now) in
        Lowers HasPat (steps.lower_type_pat read) state.old result state.new }
{
    let at = pointer_in(place, node.id, node.range);
    match &node.kind {
        ast::PatKind::NotNullPat => not_null_form(state, at),
        ast::PatKind::OrPat { pats } => alternatives_form(lowerer, state, place, node, pats),
        ast::PatKind::RangePat { op, start, end } => {
            range_form(lowerer, state, place, at, *op, start, end)
        }
        ast::PatKind::MacroPat { call } => match call {
            None => state.missing_pat(),
            Some(written) => called_form(lowerer, state, place, at, written),
        },
        _ => other_form(lowerer, state, place, node),
    }
}

/// The pattern of a type, read at this place, missing where it is absent. The ends of its ranges are bodies of their own.
pub fn lower_type_pat<I: StoreSink, P: LowerExprs<I>>(
    lowerer: &Lowerer<P>,
    state: &mut BodyBuilder<I>,
    place: LowerCtx,
    part: &Option<Boxed<ast::Pat>>,
) -> Result<PatId, StoreError>
    requires { IfPresent ((P.can lowerer.now.parts).pat place) part.now }
    ensures { LowersTypePat (type_pat_part (at_place (P.rctx lowerer.now.parts) place) part.now) state.old result state.new }
{
    match part {
        None => state.missing_pat(),
        Some(part) => type_pat(lowerer, state, place, part.get()),
    }
}

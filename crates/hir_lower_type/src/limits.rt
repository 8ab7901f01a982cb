//! The ends of a range in a type: each is a constant, which is a body of its own.

ghost use Rattle.std.specs.Prelude.{◌≡◌, ◌∷◌, [], Ok, Some, IfOk};
ghost use Rattle.hir_syntax.specs.declared.ast.Path.{Path as AstPath};
ghost use Rattle.hir_syntax.specs.declared.pats.PatKind.{out-PatKind};
ghost use Rattle.hir_store.specs.Range.{HasExpr};
ghost use Rattle.hir_env.specs.ResolvedTree as tree;
ghost use Rattle.hir_env.specs.ResolvedTree.{Pat as ResolvedPat, Side};
ghost use Rattle.hir_env.specs.Answering.{name_or_missing};
ghost use Rattle.hir_env.specs.Pats.{side_of};
ghost use Rattle.hir_env.specs.ResolveCtx.{ResolveCtx};
ghost use Rattle.hir_env.specs.TypePats as of;
ghost use Rattle.hir_env.specs.Whole.{resolved_pat, pat_level, pat_part};
ghost use Rattle.hir_lower_builder.specs.Lowering.{Lowers};
ghost use Rattle.hir_lower_builder.specs.Lowering as step;
ghost use Rattle.hir_lower_builder.specs.Lower as steps;
ghost use Rattle.hir_lower_builder.specs.Methods.{LowersLimit, at_place};
ghost use Rattle.hir_lower_builder.specs.Nests.{KidsSide, KidsSidePart};
ghost use Rattle.hir_lower_builder.specs.Ranges as spec;
ghost use Rattle.hir_lower_pat.specs.TypePats as bodies;

use hir_base::node::{AstPtr, InFile};
use hir_env::ctx::LowerCtx;
use hir_lower_builder::builder::BodyBuilder;
use hir_lower_builder::names::name_of;
use hir_lower_builder::parts::{LowerExprs, Lowerer, pointer_in};
use hir_lower_builder::store_sink::StoreSink;
use hir_lower_pat::items::item_expr;
use hir_lower_pat::literals::{minus_fits, signed};
use hir_lower_pat::paths::{PathPart, path_of_name};
use hir_store::error::StoreError;
use hir_store::hir::Expr;
use hir_store::ids::{ExprId, HygieneId, LangItemId};
use hir_store::path::Path;
use hir_syntax::ast::RangeOp;
use hir_syntax::{Boxed, Seq, ast};
use std::alloc::{AllocError, Global};

/// From here on a body of its own is being lowered, where no jump reaches what is open around it. It answers whether a `yield` stood
/// around it, and whether a root was being lowered before.
fn open<I: StoreSink>(state: &mut BodyBuilder<I>) -> Result<(bool, bool), StoreError>
    ensures { Lowers bodies.HasFlags bodies.open_root state.old result state.new }
{
    let outside = state.open_barrier()?;
    let outer = state.enter_root();
    Ok((outside, outer))
}

/// The body ends with this expression, and is recorded unless it stands inside of another root.
fn shut<I: StoreSink>(
    state: &mut BodyBuilder<I>,
    around: (bool, bool),
    id: ExprId,
) -> Result<ExprId, StoreError>
    requires { HasExpr state.old.stored id }
    ensures { Lowers HasExpr (bodies.shut around id) state.old result state.new }
{
    let (outside, outer) = around;
    let _ = state.close_barrier(outside);
    state.leave_root(outer, id)?;
    Ok(id)
}

/// A literal as it is written, with its minus.
#[tactic(auto, unfolding(hir_lower_builder::specs::Ranges::literal_limit_form))]
fn literal_side<I: StoreSink>(
    state: &mut BodyBuilder<I>,
    at: InFile<AstPtr>,
    lit: &ast::Literal,
    minus: bool,
) -> Result<ExprId, StoreError>
    ensures { Lowers HasExpr (spec.literal_limit_form at (record { minus = minus; literal = lit.now })) state.old result state.new }
{
    let written = Expr::Literal(signed(lit, minus)?);
    state.alloc_expr(written, Some(at))
}

/// A plain name is a path, whatever it stands for.
#[tactic(auto, unfolding(hir_lower_builder::specs::Ranges::name_limit_form))]
fn name_side<I: StoreSink>(
    alloc: Global,
    state: &mut BodyBuilder<I>,
    at: InFile<AstPtr>,
    name: &Option<ast::Name>,
) -> Result<ExprId, StoreError>
    ensures { Lowers HasExpr (spec.name_limit_form at (name_or_missing name.now)) state.old result state.new }
{
    let path = Path::BarePath(path_of_name(alloc, name_of(name)?)?);
    let hygiene = HygieneId::ROOT;
    state.alloc_expr(Expr::Path { path, hygiene }, Some(at))
}

/// A path that is absent or refused is missing.
#[tactic(auto, unfolding(hir_lower_builder::specs::Ranges::path_limit_form))]
fn path_side<I: StoreSink, P: LowerExprs<I>, W: PathPart>(
    lowerer: &Lowerer<P>,
    state: &mut BodyBuilder<I>,
    place: LowerCtx,
    at: InFile<AstPtr>,
    path: &W,
) -> Result<ExprId, StoreError>
    requires { W.can ((P.can lowerer.now.parts).path place) path.now }
    ensures { let read = W.read (at_place (P.rctx lowerer.now.parts) place) path.now in
        Lowers HasExpr (steps.limit_side (tree.path_side at read)) state.old result state.new }
{
    match path.lower(lowerer, state, place)? {
        None => state.alloc_expr(Expr::Missing, Some(at)),
        Some(path) => {
            let hygiene = HygieneId::ROOT;
            state.alloc_expr(Expr::Path { path, hygiene }, Some(at))
        }
    }
}

/// What a pattern is as a side, missing where it is another pattern.
#[tactic(auto, using(hir_lower_pat::proofs::KindLemmas::named_side, hir_lower_pat::proofs::TypePats::no_limit_left))]
fn side_form<I: StoreSink, P: LowerExprs<I>>(
    lowerer: &Lowerer<P>,
    state: &mut BodyBuilder<I>,
    place: LowerCtx,
    node: &ast::Pat,
) -> Result<ExprId, StoreError>
    requires { KidsSide ((P.can lowerer.now.parts).path place) (out-PatKind node.now.kind) }
    ensures { let here = at_place (P.rctx lowerer.now.parts) place in
        Lowers HasExpr (steps.limit_side (side_of (tree.some_pat (pat_level here node.now)))) state.old result state.new }
{
    let at = pointer_in(place, node.id, node.range);
    match &node.kind {
        ast::PatKind::LiteralPat {
            lit: Some(lit),
            minus,
        } => {
            if minus_fits(*minus, &lit.literal) {
                literal_side(state, at, &lit.literal, *minus)
            } else {
                state.missing_expr()
            }
        }
        ast::PatKind::IdentPat {
            name,
            ref_: false,
            mut_: false,
            pat: None,
        } => name_side(lowerer.alloc, state, at, name),
        ast::PatKind::PathPat { path } => path_side(lowerer, state, place, at, path),
        _ => state.missing_expr(),
    }
}

/// A pattern as an end of a range in a type. A form that hands one on has it as a type parameter, so that no tree is among the form's
/// types.
pub trait LimitNode {
    ghost can: { (AstPath → Type 0) → Self → Type 0 };

    ghost read: { ResolveCtx → Self → ResolvedPat };

    /// What the pattern is as a side, missing where it is another pattern.
    fn side<I: StoreSink, P: LowerExprs<I>>(
        &self,
        lowerer: &Lowerer<P>,
        state: &mut BodyBuilder<I>,
        place: LowerCtx,
    ) -> Result<ExprId, StoreError>
        requires { can ((P.can lowerer.now.parts).path place) self.now }
        ensures { let here = at_place (P.rctx lowerer.now.parts) place in
            Lowers HasExpr (steps.limit_side (side_of (tree.some_pat (read here self.now)))) state.old result state.new };
}

impl LimitNode for ast::Pat {
    ghost can = { λ path p. KidsSide path (out-PatKind p.kind) };

    ghost read = { resolved_pat };

    fn side<I: StoreSink, P: LowerExprs<I>>(
        &self,
        lowerer: &Lowerer<P>,
        state: &mut BodyBuilder<I>,
        place: LowerCtx,
    ) -> Result<ExprId, StoreError> {
        side_form(lowerer, state, place, self)
    }
}

/// The item that stands for an absent end.
#[tactic(auto, unfolding(hir_lower_builder::specs::Ranges::inner_form, hir_lower_builder::specs::Ranges::item_form))]
fn item_limit<I: StoreSink>(
    state: &mut BodyBuilder<I>,
    item: Option<LangItemId>,
) -> Result<ExprId, StoreError>
    ensures { LowersLimit (tree.item_limit item) state.old result state.new }
{
    let around = open(state)?;
    let id = state.alloc_expr(item_expr(item), None)?;
    shut(state, around, id)
}

/// The side itself.
#[tactic(auto, unfolding(hir_lower_builder::specs::Ranges::inner_form))]
fn side_limit<I: StoreSink, P: LowerExprs<I>, N: LimitNode>(
    lowerer: &Lowerer<P>,
    state: &mut BodyBuilder<I>,
    place: LowerCtx,
    node: &N,
) -> Result<ExprId, StoreError>
    requires { N.can ((P.can lowerer.now.parts).path place) node.now }
    ensures { let here = at_place (P.rctx lowerer.now.parts) place in
        LowersLimit (tree.side_limit (side_of (tree.some_pat (N.read here node.now)))) state.old result state.new }
{
    let around = open(state)?;
    let id = node.side(lowerer, state, place)?;
    shut(state, around, id)
}

fn operand(alloc: Global, id: ExprId) -> Result<Seq<ExprId>, AllocError>
    ensures { IfOk result (λ ids. ids ≡ id ∷ []) }
{
    let mut operands = Seq::new(alloc);
    operands.push(id)?;
    Ok(operands)
}

/// The item, from no node.
fn item_callee<I: StoreSink>(
    state: &mut BodyBuilder<I>,
    item: Option<LangItemId>,
) -> Result<ExprId, StoreError>
    ensures { Lowers HasExpr (step.alloc_expr (spec.item_expr item) None) state.old result state.new }
{
    state.alloc_expr(item_expr(item), None)
}

/// A call of the item with the side, both from no node.
#[tactic(auto, unfolding(hir_lower_builder::specs::Ranges::before_form))]
fn before<I: StoreSink, P: LowerExprs<I>, N: LimitNode>(
    lowerer: &Lowerer<P>,
    state: &mut BodyBuilder<I>,
    place: LowerCtx,
    item: Option<LangItemId>,
    node: &N,
) -> Result<ExprId, StoreError>
    requires { N.can ((P.can lowerer.now.parts).path place) node.now }
    ensures { let here = at_place (P.rctx lowerer.now.parts) place in
        let read = steps.limit_side (side_of (tree.some_pat (N.read here node.now))) in
        Lowers HasExpr (spec.before_form item read) state.old result state.new }
{
    let excluded = node.side(lowerer, state, place)?;
    let callee = item_callee(state, item)?;
    let args = operand(lowerer.alloc, excluded)?;
    state.alloc_expr(Expr::Call { callee, args }, None)
}

/// The last before the side.
#[tactic(auto, unfolding(hir_lower_builder::specs::Ranges::inner_form))]
fn before_limit<I: StoreSink, P: LowerExprs<I>, N: LimitNode>(
    lowerer: &Lowerer<P>,
    state: &mut BodyBuilder<I>,
    place: LowerCtx,
    item: Option<LangItemId>,
    node: &N,
) -> Result<ExprId, StoreError>
    requires { N.can ((P.can lowerer.now.parts).path place) node.now }
    ensures { let here = at_place (P.rctx lowerer.now.parts) place in
        LowersLimit (tree.before_limit item (side_of (tree.some_pat (N.read here node.now)))) state.old result state.new }
{
    let around = open(state)?;
    let id = before(lowerer, state, place, item, node)?;
    shut(state, around, id)
}

/// An end that is written is part of the range, unless it is excluded.
#[tactic(auto, using(hir_lower_pat::proofs::TypePats::end_is_side))]
fn written_end<I: StoreSink, P: LowerExprs<I>, N: LimitNode>(
    lowerer: &Lowerer<P>,
    state: &mut BodyBuilder<I>,
    place: LowerCtx,
    op: Option<RangeOp>,
    node: &N,
) -> Result<ExprId, StoreError>
    requires { N.can ((P.can lowerer.now.parts).path place) node.now }
    ensures { let here = at_place (P.rctx lowerer.now.parts) place in
        let side = side_of (tree.some_pat (N.read here node.now)) in
        LowersLimit (of.end_limit here.answers.lang_items op side) state.old result state.new }
{
    match op {
        Some(RangeOp::Exclusive) => {
            let item = lowerer.parts.lang_items().range_sub;
            before_limit(lowerer, state, place, item, node)
        }
        Some(RangeOp::Inclusive) | None => side_limit(lowerer, state, place, node),
    }
}

/// An end of a range in a type, that is there or isn't.
pub trait LimitPart {
    ghost can: { (AstPath → Type 0) → Self → Type 0 };

    ghost read: { ResolveCtx → Self → Side };

    /// The least value of the type where no start is written.
    fn start_limit<I: StoreSink, P: LowerExprs<I>>(
        &self,
        lowerer: &Lowerer<P>,
        state: &mut BodyBuilder<I>,
        place: LowerCtx,
    ) -> Result<ExprId, StoreError>
        requires { can ((P.can lowerer.now.parts).path place) self.now }
        ensures { let here = at_place (P.rctx lowerer.now.parts) place in
            LowersLimit (of.start_limit here.answers.lang_items (read here self.now)) state.old result state.new };

    /// The greatest value of the type where no end is written.
    fn end_limit<I: StoreSink, P: LowerExprs<I>>(
        &self,
        lowerer: &Lowerer<P>,
        state: &mut BodyBuilder<I>,
        place: LowerCtx,
        op: Option<RangeOp>,
    ) -> Result<ExprId, StoreError>
        requires { can ((P.can lowerer.now.parts).path place) self.now }
        ensures { let here = at_place (P.rctx lowerer.now.parts) place in
            LowersLimit (of.end_limit here.answers.lang_items op (read here self.now)) state.old result state.new };
}

impl LimitPart for Option<Boxed<ast::Pat>> {
    ghost can = { λ path. KidsSidePart path };

    ghost read = { λ at p. side_of (pat_part at p) };

    #[tactic(auto, using(hir_lower_pat::proofs::TypePats::start_is_side))]
    fn start_limit<I: StoreSink, P: LowerExprs<I>>(
        &self,
        lowerer: &Lowerer<P>,
        state: &mut BodyBuilder<I>,
        place: LowerCtx,
    ) -> Result<ExprId, StoreError> {
        match self {
            None => item_limit(state, lowerer.parts.lang_items().range_min),
            Some(part) => side_limit(lowerer, state, place, part.get()),
        }
    }

    fn end_limit<I: StoreSink, P: LowerExprs<I>>(
        &self,
        lowerer: &Lowerer<P>,
        state: &mut BodyBuilder<I>,
        place: LowerCtx,
        op: Option<RangeOp>,
    ) -> Result<ExprId, StoreError> {
        match self {
            None => item_limit(state, lowerer.parts.lang_items().range_max),
            Some(part) => written_end(lowerer, state, place, op, part.get()),
        }
    }
}

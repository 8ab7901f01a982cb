//! Literals of patterns, and the sides of ranges.

ghost use Rattle.std.specs.Prelude.{None};
ghost use Rattle.hir_syntax.specs.declared.ast.Path.{Path as AstPath};
ghost use Rattle.hir_syntax.specs.declared.pats.PatKind.{out-PatKind};
ghost use Rattle.hir_store.specs.Range.{HasExprOption, HasPat};
ghost use Rattle.hir_env.specs.ResolvedTree as tree;
ghost use Rattle.hir_env.specs.ResolvedTree.{Side};
ghost use Rattle.hir_env.specs.Answering.{name_or_missing, name_written};
ghost use Rattle.hir_env.specs.Pats.{ident_pat, literal_or_broken, side_of};
ghost use Rattle.hir_env.specs.ResolveCtx.{ResolveCtx};
ghost use Rattle.hir_env.specs.Whole.{resolved_pat, pat_level, pat_part};
ghost use Rattle.hir_lower_builder.specs.Lower.{lower_side};
ghost use Rattle.hir_lower_builder.specs.Lowering.{Lowers};
ghost use Rattle.hir_lower_builder.specs.Methods.{LowersSide};
ghost use Rattle.hir_lower_builder.specs.Nests.{KidsSide, KidsSidePart};
ghost use Rattle.hir_lower_builder.specs.Pats as spec;
ghost use Rattle.hir_lower_pat.specs.Methods.{lower_plain, plain_truth, use_with};

use crate::names::{is_without_words, mode_of};
use hir_base::node::{AstPtr, InFile, PredId};
use hir_binding::binding::BindingAnnotation;
use hir_lower_builder::builder::BodyBuilder;
use hir_lower_builder::names::truth_literal;
use hir_lower_builder::store_sink::StoreSink;
use hir_lower_pat::literals::{minus_fits, signed};
use hir_lower_pat::parts::HerePaths;
use hir_lower_pat::paths::{PathPart, path_of_name};
use hir_store::error::StoreError;
use hir_store::hir::{Expr, Pat};
use hir_store::ids::{ExprId, HygieneId, PatId};
use hir_store::name::Name;
use hir_store::path::Path;
use hir_syntax::ast::RangeOp;
use hir_syntax::{Boxed, ast};
use std::alloc::Global;

/// A literal pattern, missing where its literal is absent or takes no minus.
#[tactic(auto, unfolding(hir_lower_builder::specs::Pats::literal_pat_form))]
#[inline(never)]
pub(crate) fn literal_form<I: StoreSink, H: HerePaths<I>>(
    parts: &H,
    state: &mut BodyBuilder<I>,
    at: InFile<AstPtr>,
    lit: &Option<ast::PatLiteral>,
    minus: bool,
) -> Result<PatId, StoreError>
    ensures { Lowers HasPat (lower_plain (literal_or_broken (H.rctx parts.now).place at lit.now minus)) state.old result state.new }
{
    match lit {
        None => state.alloc_pat(Pat::Missing, Some(at)),
        Some(lit) => {
            if !minus_fits(minus, &lit.literal) {
                return state.alloc_pat(Pat::Missing, Some(at));
            }
            let source = parts.pointer(lit.id, lit.range);
            let written = Expr::Literal(signed(&lit.literal, minus)?);
            let expr = state.alloc_expr(written, Some(source))?;
            state.alloc_pat(Pat::Lit(expr), Some(at))
        }
    }
}

/// A predicate is a literal, which is true unless it is known not to be.
#[tactic(auto, unfolding(hir_lower_builder::specs::Pats::literal_pat_form))]
#[inline(never)]
pub(crate) fn predicate_form<I: StoreSink, H: HerePaths<I>>(
    parts: &H,
    state: &mut BodyBuilder<I>,
    at: InFile<AstPtr>,
    pred: Option<PredId>,
) -> Result<PatId, StoreError>
    ensures { let answers = (H.rctx parts.now).answers in
        Lowers HasPat (spec.literal_pat_form at None (plain_truth (answers.cfg_pred pred))) state.old result state.new }
{
    let written = Expr::Literal(truth_literal(parts.alloc(), parts.cfg_pred(pred))?);
    let expr = state.alloc_expr(written, Some(at))?;
    state.alloc_pat(Pat::Lit(expr), Some(at))
}

/// A literal as a side.
#[tactic(auto, unfolding(hir_lower_builder::specs::Pats::literal_side_form))]
fn literal_side<I: StoreSink>(
    state: &mut BodyBuilder<I>,
    at: InFile<AstPtr>,
    lit: &ast::Literal,
    minus: bool,
) -> Result<Option<ExprId>, StoreError>
    ensures { Lowers HasExprOption (spec.literal_side_form at (record { minus = minus; literal = lit.now })) state.old result state.new }
{
    let written = Expr::Literal(signed(lit, minus)?);
    Ok(Some(state.alloc_expr(written, Some(at))?))
}

/// A plain name as a side is a path, whatever it stands for, and none where the text lacks it.
fn name_side<I: StoreSink>(
    alloc: Global,
    state: &mut BodyBuilder<I>,
    at: InFile<AstPtr>,
    name: &Option<ast::Name>,
) -> Result<Option<ExprId>, StoreError>
    ensures { Lowers HasExprOption (spec.name_side_of at (name_or_missing name.now)) state.old result state.new }
{
    match name {
        None => Ok(None),
        Some(name) => {
            let path = Path::BarePath(path_of_name(alloc, Name::Text(name.t.clone()?))?);
            let hygiene = HygieneId::ROOT;
            Ok(Some(state.alloc_expr(Expr::Path { path, hygiene }, Some(at))?))
        }
    }
}

/// A path as a side, none where it is absent or refused.
#[tactic(auto, unfolding(hir_lower_builder::specs::Pats::path_side_form))]
fn path_side<I: StoreSink, H: HerePaths<I>, W: PathPart>(
    parts: &H,
    state: &mut BodyBuilder<I>,
    at: InFile<AstPtr>,
    path: &W,
) -> Result<Option<ExprId>, StoreError>
    requires { W.can (H.can_path parts.now) path.now }
    ensures { LowersSide (tree.path_side at (W.read (H.rctx parts.now) path.now)) state.old result state.new }
{
    match parts.path(state, path)? {
        None => Ok(None),
        Some(path) => {
            let hygiene = HygieneId::ROOT;
            Ok(Some(state.alloc_expr(Expr::Path { path, hygiene }, Some(at))?))
        }
    }
}

/// A name as a side, none where it isn't plain.
#[tactic(auto, using(hir_lower_pat::proofs::KindLemmas::named_side))]
fn plain_side<I: StoreSink, H: HerePaths<I>>(
    parts: &H,
    state: &mut BodyBuilder<I>,
    at: InFile<AstPtr>,
    name: &Option<ast::Name>,
    mode: BindingAnnotation,
    part: &Option<Boxed<ast::Pat>>,
) -> Result<Option<ExprId>, StoreError>
    ensures { let here = H.rctx parts.now in
        let use_ = use_with here name.now mode in
        let read = ident_pat here.answers here.place at use_ (name_written name.now) (pat_part here part.now) in
        LowersSide (side_of (tree.some_pat read)) state.old result state.new }
{
    match part {
        Some(_) => Ok(None),
        None => {
            if is_without_words(mode) {
                name_side(parts.alloc(), state, at, name)
            } else {
                Ok(None)
            }
        }
    }
}

/// What a pattern is as a side, none where it is another pattern.
fn side_form<I: StoreSink, H: HerePaths<I>>(
    parts: &H,
    state: &mut BodyBuilder<I>,
    node: &ast::Pat,
) -> Result<Option<ExprId>, StoreError>
    requires { KidsSide (H.can_path parts.now) (out-PatKind node.now.kind) }
    ensures { LowersSide (side_of (tree.some_pat (pat_level (H.rctx parts.now) node.now))) state.old result state.new }
{
    let at = parts.pointer(node.id, node.range);
    match &node.kind {
        ast::PatKind::LiteralPat { lit, minus } => match lit {
            None => Ok(None),
            Some(lit) => {
                if minus_fits(*minus, &lit.literal) {
                    literal_side(state, at, &lit.literal, *minus)
                } else {
                    Ok(None)
                }
            }
        },
        ast::PatKind::IdentPat {
            name,
            ref_,
            mut_,
            pat,
        } => plain_side(parts, state, at, name, mode_of(*ref_, *mut_), pat),
        ast::PatKind::PathPat { path } => path_side(parts, state, at, path),
        ast::PatKind::TupleStructPat { .. }
        | ast::PatKind::TuplePat { .. }
        | ast::PatKind::RecordPat { .. }
        | ast::PatKind::OrPat { .. }
        | ast::PatKind::ParenPat { .. }
        | ast::PatKind::SlicePat { .. }
        | ast::PatKind::RefPat { .. }
        | ast::PatKind::BoxPat { .. }
        | ast::PatKind::DerefPat { .. }
        | ast::PatKind::RangePat { .. }
        | ast::PatKind::CfgPredPat { .. }
        | ast::PatKind::MacroPat { .. }
        | ast::PatKind::WildcardPat
        | ast::PatKind::RestPat
        | ast::PatKind::NotNullPat
        | ast::PatKind::ConstBlockPat => Ok(None),
    }
}

fn present_side<I: StoreSink, H: HerePaths<I>>(
    parts: &H,
    state: &mut BodyBuilder<I>,
    node: &ast::Pat,
) -> Result<Option<ExprId>, StoreError>
    requires { KidsSide (H.can_path parts.now) (out-PatKind node.now.kind) }
    ensures { LowersSide (side_of (tree.some_pat (resolved_pat (H.rctx parts.now) node.now))) state.old result state.new }
{
    side_form(parts, state, node)
}

/// A side of a range, that is there or isn't. A form that hands one on has it as a type parameter.
pub trait SidePart {
    ghost can: { (AstPath → Type 0) → Self → Type 0 };

    ghost read: { ResolveCtx → Self → Side };

    /// What the pattern is as a side, none where it is absent or another pattern.
    fn lower_side<I: StoreSink, H: HerePaths<I>>(
        &self,
        parts: &H,
        state: &mut BodyBuilder<I>,
    ) -> Result<Option<ExprId>, StoreError>
        requires { can (H.can_path parts.now) self.now }
        ensures { LowersSide (read (H.rctx parts.now) self.now) state.old result state.new };
}

impl SidePart for Option<Boxed<ast::Pat>> {
    ghost can = { λ path. KidsSidePart path };

    ghost read = { λ at p. side_of (pat_part at p) };

    fn lower_side<I: StoreSink, H: HerePaths<I>>(
        &self,
        parts: &H,
        state: &mut BodyBuilder<I>,
    ) -> Result<Option<ExprId>, StoreError> {
        match self {
            None => Ok(None),
            Some(part) => present_side(parts, state, part.get()),
        }
    }
}

/// Without its operator a range is missing, and its sides are read all the same.
#[tactic(auto, unfolding(hir_lower_builder::specs::Pats::range_pat_form))]
#[inline(never)]
pub(crate) fn range_form<I: StoreSink, H: HerePaths<I>, E: SidePart>(
    parts: &H,
    state: &mut BodyBuilder<I>,
    at: InFile<AstPtr>,
    op: Option<RangeOp>,
    low: &E,
    high: &E,
) -> Result<PatId, StoreError>
    requires low { E.can (H.can_path parts.now) low.now }
    requires high { E.can (H.can_path parts.now) high.now }
    ensures { let here = H.rctx parts.now in
        let start = lower_side (E.read here low.now) in
        let end = lower_side (E.read here high.now) in
        Lowers HasPat (spec.range_pat_form at op start end) state.old result state.new }
{
    let start = low.lower_side(parts, state)?;
    let end = high.lower_side(parts, state)?;
    match op {
        None => state.alloc_pat(Pat::Missing, Some(at)),
        Some(op) => state.alloc_pat(Pat::Range { op, start, end }, Some(at)),
    }
}

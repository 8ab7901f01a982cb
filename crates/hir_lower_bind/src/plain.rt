//! Patterns without a pattern whose names count.

ghost use Rattle.hir_syntax.specs.declared.pats.PatKind.{out-PatKind};
ghost use Rattle.hir_store.specs.Range.{HasPat};
ghost use Rattle.hir_lower_builder.specs.Lower.{lower_path};
ghost use Rattle.hir_lower_builder.specs.Lowering.{Lowers};
ghost use Rattle.hir_lower_builder.specs.Nests.{KidsOfPat};
ghost use Rattle.hir_lower_builder.specs.Pats as spec;
ghost use Rattle.hir_lower_pat.specs.Methods.{AnyCall, IsPlain, kind_at, lower_plain};

use crate::sides::{literal_form, predicate_form, range_form};
use hir_base::node::{AstPtr, InFile};
use hir_lower_builder::builder::BodyBuilder;
use hir_lower_builder::store_sink::StoreSink;
use hir_lower_pat::parts::{HerePaths, PatParts};
use hir_lower_pat::paths::PathPart;
use hir_store::error::StoreError;
use hir_store::hir::Pat;
use hir_store::ids::{HygieneId, PatId};
use hir_syntax::ast;

/// A path that is absent or refused is missing.
#[tactic(auto, unfolding(hir_lower_builder::specs::Pats::path_pat_form))]
#[inline(never)]
fn path_form<I: StoreSink, H: HerePaths<I>, W: PathPart>(
    parts: &H,
    state: &mut BodyBuilder<I>,
    at: InFile<AstPtr>,
    path: &W,
) -> Result<PatId, StoreError>
    requires { W.can (H.can_path parts.now) path.now }
    ensures { Lowers HasPat (spec.path_pat_form at (lower_path (W.read (H.rctx parts.now) path.now))) state.old result state.new }
{
    match parts.path(state, path)? {
        None => state.alloc_pat(Pat::Missing, Some(at)),
        Some(path) => {
            let hygiene = HygieneId::ROOT;
            state.alloc_pat(Pat::Path { path, hygiene }, Some(at))
        }
    }
}

/// A pattern that knows of no name.
#[tactic(auto, using(hir_lower_pat::proofs::KindLemmas::only_plain))]
#[inline(never)]
pub(crate) fn plain_kind<I: StoreSink, S: PatParts<I>>(
    parts: &S,
    state: &mut BodyBuilder<I>,
    at: InFile<AstPtr>,
    kind: &ast::PatKind,
) -> Result<PatId, StoreError>
    requires plain { IsPlain (out-PatKind kind.now) }
    requires parts { KidsOfPat (S.can_pat parts.now) (S.can_path parts.now) AnyCall (out-PatKind kind.now) }
    ensures { Lowers HasPat (lower_plain (kind_at (S.rctx parts.now) at kind.now)) state.old result state.new }
{
    match kind {
        ast::PatKind::PathPat { path } => path_form(parts, state, at, path),
        ast::PatKind::LiteralPat { lit, minus } => literal_form(parts, state, at, lit, *minus),
        ast::PatKind::RangePat { op, start, end } => {
            range_form(parts, state, at, *op, start, end)
        }
        ast::PatKind::CfgPredPat { pred } => predicate_form(parts, state, at, *pred),
        ast::PatKind::WildcardPat => state.alloc_pat(Pat::Wild, Some(at)),
        ast::PatKind::RestPat => state.alloc_pat(Pat::Rest, Some(at)),
        ast::PatKind::NotNullPat => state.alloc_pat(Pat::NotNull, Some(at)),
        ast::PatKind::ConstBlockPat => state.alloc_pat(Pat::Missing, Some(at)),
        _ => unreachable!(),
    }
}

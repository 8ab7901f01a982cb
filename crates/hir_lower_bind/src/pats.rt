//! A pattern, by its kind.

ghost use Rattle.hir_syntax.specs.declared.pats.PatKind.{out-PatKind};
ghost use Rattle.hir_env.specs.ResolvedTree as tree;
ghost use Rattle.hir_env.specs.Paths.{mutability};
ghost use Rattle.hir_env.specs.Whole.{resolved_pat, pat_level};
ghost use Rattle.hir_lower_builder.specs.Nests.{KidsOfPat};
ghost use Rattle.hir_lower_pat.specs.Bindings.{HasNames};
ghost use Rattle.hir_lower_pat.specs.Calls.{written_call};
ghost use Rattle.hir_lower_pat.specs.Methods.{AnyCall, IsUncalled, LowersElement, LowersPat};

use crate::alternatives::{or_form, slice_form};
use crate::names::{ident_form, mode_of};
use crate::part::PatPart;
use crate::plain::plain_kind;
use crate::records::record_form;
use crate::tuples::{tuple_form, tuple_struct_form};
use hir_base::node::{AstPtr, InFile};
use hir_env::expand::FragmentKind;
use hir_lower_builder::builder::{BodyBuilder, StoredBody};
use hir_lower_builder::calls::enter;
use hir_lower_builder::parts::{LowerExprs, Lowerer};
use hir_lower_builder::store_sink::StoreSink;
use hir_lower_pat::bindings::Bindings;
use hir_lower_pat::calls::{missing_form, pat_of, point_element};
use hir_lower_pat::parts::{Here, Inside, PatBy, PatParts};
use hir_store::builder::ExpressionStoreBuilder;
use hir_store::error::StoreError;
use hir_store::hir::{Mutability, Pat};
use hir_store::ids::PatId;
use hir_syntax::ast;

#[tactic(auto, unfolding(hir_lower_builder::specs::Pats::over_pat_form))]
#[inline(never)]
fn ref_form<I: StoreSink, S: PatParts<I>, E: PatPart>(
    parts: &S,
    state: &mut BodyBuilder<I>,
    bindings: &mut Bindings,
    at: InFile<AstPtr>,
    is_mut: bool,
    part: &E,
) -> Result<PatId, StoreError>
    requires part { E.can (S.can_pat parts.now) part.now }
    requires names { HasNames state.old.stored bindings.old }
    ensures { LowersPat (tree.over_pat at (tree.ref_to (mutability is_mut)) (E.read (S.rctx parts.now) part.now))
        bindings.old state.old result bindings.new state.new }
{
    let pat = part.lower(parts, state, bindings)?;
    let mutability = if is_mut {
        Mutability::Mut
    } else {
        Mutability::Shared
    };
    state.alloc_pat(Pat::Ref { mutability, pat }, Some(at))
}

#[tactic(auto, unfolding(hir_lower_builder::specs::Pats::over_pat_form))]
#[inline(never)]
fn box_form<I: StoreSink, S: PatParts<I>, E: PatPart>(
    parts: &S,
    state: &mut BodyBuilder<I>,
    bindings: &mut Bindings,
    at: InFile<AstPtr>,
    part: &E,
) -> Result<PatId, StoreError>
    requires part { E.can (S.can_pat parts.now) part.now }
    requires names { HasNames state.old.stored bindings.old }
    ensures { LowersPat (tree.over_pat at tree.box_of (E.read (S.rctx parts.now) part.now))
        bindings.old state.old result bindings.new state.new }
{
    let inner = part.lower(parts, state, bindings)?;
    state.alloc_pat(Pat::Box { inner }, Some(at))
}

#[tactic(auto, unfolding(hir_lower_builder::specs::Pats::over_pat_form))]
#[inline(never)]
fn deref_form<I: StoreSink, S: PatParts<I>, E: PatPart>(
    parts: &S,
    state: &mut BodyBuilder<I>,
    bindings: &mut Bindings,
    at: InFile<AstPtr>,
    part: &E,
) -> Result<PatId, StoreError>
    requires part { E.can (S.can_pat parts.now) part.now }
    requires names { HasNames state.old.stored bindings.old }
    ensures { LowersPat (tree.over_pat at tree.deref_of (E.read (S.rctx parts.now) part.now))
        bindings.old state.old result bindings.new state.new }
{
    let inner = part.lower(parts, state, bindings)?;
    state.alloc_pat(Pat::Deref { inner }, Some(at))
}

/// The form of a pattern that is no call. One whose parts know of no name is made by itself.
#[tactic(auto, using(hir_lower_pat::proofs::KindLemmas::plain_is_alone))]
pub(crate) fn pat_form<I: StoreSink, S: PatParts<I>>(
    parts: &S,
    state: &mut BodyBuilder<I>,
    bindings: &mut Bindings,
    node: &ast::Pat,
) -> Result<PatId, StoreError>
    requires uncalled { IsUncalled (out-PatKind node.now.kind) }
    requires parts { KidsOfPat (S.can_pat parts.now) (S.can_path parts.now) AnyCall (out-PatKind node.now.kind) }
    requires names { HasNames state.old.stored bindings.old }
    ensures { LowersPat (pat_level (S.rctx parts.now) node.now) bindings.old state.old result bindings.new state.new }
{
    let at = parts.pointer(node.id, node.range);
    match &node.kind {
        ast::PatKind::IdentPat {
            name,
            ref_,
            mut_,
            pat,
        } => ident_form(parts, state, bindings, at, name, mode_of(*ref_, *mut_), pat),
        ast::PatKind::TupleStructPat {
            path,
            leading_comma,
            fields,
        } => tuple_struct_form(parts, state, bindings, at, path, *leading_comma, fields),
        ast::PatKind::TuplePat {
            leading_comma,
            fields,
        } => tuple_form(parts, state, bindings, at, *leading_comma, fields),
        ast::PatKind::RecordPat { path, fields, rest } => {
            record_form(parts, state, bindings, at, path, fields, *rest)
        }
        ast::PatKind::OrPat { pats } => or_form(parts, state, bindings, at, pats),
        ast::PatKind::ParenPat { pat } => pat.lower(parts, state, bindings),
        ast::PatKind::SlicePat {
            prefix,
            slice,
            suffix,
        } => slice_form(parts, state, bindings, at, prefix, slice, suffix),
        ast::PatKind::RefPat { mut_, pat } => ref_form(parts, state, bindings, at, *mut_, pat),
        ast::PatKind::BoxPat { pat } => box_form(parts, state, bindings, at, pat),
        ast::PatKind::DerefPat { pat } => deref_form(parts, state, bindings, at, pat),
        ast::PatKind::PathPat { .. }
        | ast::PatKind::LiteralPat { .. }
        | ast::PatKind::RangePat { .. }
        | ast::PatKind::CfgPredPat { .. }
        | ast::PatKind::WildcardPat
        | ast::PatKind::RestPat
        | ast::PatKind::NotNullPat
        | ast::PatKind::ConstBlockPat => plain_kind(parts, state, at, &node.kind),
        ast::PatKind::MacroPat { .. } => unreachable!(),
    }
}

/// A call that is written here: what it stands for, which is missing where it stands for no pattern. Its node leads there.
#[cycle(pat)]
#[inline(never)]
fn called_pat<P: LowerExprs<ExpressionStoreBuilder>>(
    lowerer: &Lowerer<P>,
    state: &mut StoredBody,
    bindings: &mut Bindings,
    at: InFile<AstPtr>,
    call: &ast::MacroCall,
) -> Result<PatId, StoreError>
    requires part { (P.can lowerer.now.parts).pat_call (P.rctx lowerer.now.parts).place call.now }
    requires names { HasNames state.old.stored bindings.old }
    ensures { LowersPat (written_call (P.rctx lowerer.now.parts) at call.now) bindings.old state.old result bindings.new state.new }
{
    let entered = enter(lowerer, state, FragmentKind::Pat, call)?;
    let pat = match pat_of(entered) {
        None => state.missing_pat()?,
        Some((place, node)) => lower_pat(&lowerer.moved(place), state, bindings, node)?,
    };
    state.point_pat(at, pat)?;
    Ok(pat)
}

/// The same as an element, none where it stands for two dots, to which it doesn't lead.
#[cycle(pat)]
#[inline(never)]
fn called_element<P: LowerExprs<ExpressionStoreBuilder>>(
    lowerer: &Lowerer<P>,
    state: &mut StoredBody,
    bindings: &mut Bindings,
    at: InFile<AstPtr>,
    call: &ast::MacroCall,
) -> Result<Option<PatId>, StoreError>
    requires part { (P.can lowerer.now.parts).pat_call (P.rctx lowerer.now.parts).place call.now }
    requires names { HasNames state.old.stored bindings.old }
    ensures { LowersElement (written_call (P.rctx lowerer.now.parts) at call.now) bindings.old state.old result bindings.new state.new }
{
    let entered = enter(lowerer, state, FragmentKind::Pat, call)?;
    match pat_of(entered) {
        None => Ok(Some(missing_form(state, at)?)),
        Some((place, node)) => {
            let found = lower_element(&lowerer.moved(place), state, bindings, node)?;
            point_element(state, at, found)
        }
    }
}

/// An element of a tuple or a call, none where it is two dots. A call that the text lacks is missing at its own node here.
#[cycle(pat)]
fn lower_element<P: LowerExprs<ExpressionStoreBuilder>>(
    lowerer: &Lowerer<P>,
    state: &mut StoredBody,
    bindings: &mut Bindings,
    node: &ast::Pat,
) -> Result<Option<PatId>, StoreError>
    requires part { (P.can lowerer.now.parts).pat (P.rctx lowerer.now.parts).place node.now }
    requires names { HasNames state.old.stored bindings.old }
    ensures { LowersElement (resolved_pat (P.rctx lowerer.now.parts) node.now) bindings.old state.old result bindings.new state.new }
{
    let at = lowerer.pointer(node.id, node.range);
    match &node.kind {
        ast::PatKind::RestPat => Ok(None),
        ast::PatKind::MacroPat { call } => match call {
            None => Ok(Some(state.alloc_pat(Pat::Missing, Some(at))?)),
            Some(written) => called_element(lowerer, state, bindings, at, written),
        },
        _ => Ok(Some(lower_pat(lowerer, state, bindings, node)?)),
    }
}

/// The pattern, with the names of its top pattern that were used before.
///
/// `Full` where an arena has reached its limit, or more parts than are counted stand in front of two dots; `Memory` where a growth
/// was refused.
#[cycle(pat)]
pub fn lower_pat<P: LowerExprs<ExpressionStoreBuilder>>(
    lowerer: &Lowerer<P>,
    state: &mut StoredBody,
    bindings: &mut Bindings,
    node: &ast::Pat,
) -> Result<PatId, StoreError>
    requires part { (P.can lowerer.now.parts).pat (P.rctx lowerer.now.parts).place node.now }
    requires names { HasNames state.old.stored bindings.old }
    ensures { LowersPat (resolved_pat (P.rctx lowerer.now.parts) node.now) bindings.old state.old result bindings.new state.new }
{
    match &node.kind {
        ast::PatKind::MacroPat { call } => match call {
            None => state.missing_pat(),
            Some(written) => {
                let at = lowerer.pointer(node.id, node.range);
                called_pat(lowerer, state, bindings, at, written)
            }
        },
        _ => {
            let by = PatBy {
                pat: lower_pat::<P>,
                element: lower_element::<P>,
            };
            pat_form(&Inside { lowerer, by }, state, bindings, node)
        }
    }
}

//! The assignee expression.

ghost use Rattle.std.specs.Prelude.{◌≡◌, None, Some};
ghost use Rattle.hir_syntax.specs.declared.ast.ExprKind.{out-ExprKind};
ghost use Rattle.hir_env.specs.ResolvedTree as tree;
ghost use Rattle.hir_env.specs.Targets as of;
ghost use Rattle.hir_store.specs.Range.{HasPat, HasPatOption};
ghost use Rattle.hir_env.specs.Whole.{resolved_expr, expr_part, kept_expr, own_pointer, pointer_at, target_part};
ghost use Rattle.hir_lower_builder.specs.Families.{IsNoCall};
ghost use Rattle.hir_lower_builder.specs.Lowering.{Lowers};
ghost use Rattle.hir_lower_builder.specs.Methods.{LowersTarget};
ghost use Rattle.hir_lower_builder.specs.Nests.{IfPresent};
ghost use Rattle.hir_lower_pat.specs.Assignees.{Assignees, HasAssignee, IsPlace, KidsOfTarget, target_or_place, dots_tuple, found_at};
ghost use Rattle.hir_lower_pat.specs.Assignees.{assignee_pat};
ghost use Rattle.hir_lower_pat.specs.Assignees.{target_assignee, place_assignee};
ghost use Rattle.hir_lower_pat.specs.Assignees.{AssigneesElement, through_parens};
ghost use Rattle.hir_lower_pat.specs.Calls.{written_expr};
ghost use Rattle.hir_lower_pat.specs.TargetLists.{element_call};

use crate::target_arrays::array_assignee;
use crate::target_calls::call_assignee;
use crate::target_elements::{dots_alone, tuple_assignee};
use crate::target_records::record_assignee;
use hir_base::node::{AstPtr, InFile};
use hir_env::expand::FragmentKind;
use hir_lower_builder::builder::{BodyBuilder, StoredBody};
use hir_lower_builder::calls::enter;
use hir_lower_builder::parts::{LowerExprs, LowerParts, Lowerer, site};
use hir_lower_builder::store_sink::StoreSink;
use hir_lower_pat::assignees::{
    Assignee, TargetNode, alloc_target, called_assignee, is_dots_kind, land, missing_target,
    outermost, parens, path_assignee, pointer_of, uncalled_assignee,
};
use hir_lower_pat::calls::expr_of;
use hir_lower_pat::parts::{Here, Inside, TargetBy, TargetParts, place};
use hir_store::builder::ExpressionStoreBuilder;
use hir_store::error::StoreError;
use hir_store::hir::Pat;
use hir_store::ids::PatId;
use hir_syntax::{Boxed, ast};
use std::alloc::Global;

/// `_`.
fn wild<I: StoreSink>(
    state: &mut BodyBuilder<I>,
    at: InFile<AstPtr>,
    call: Option<InFile<AstPtr>>,
) -> Result<Assignee, StoreError>
    ensures { let target = tree.wild_target (of.origin call at) in
        Lowers HasAssignee (target_or_place target (tree.leaf_expr at tree.underscore)) state.old result state.new }
{
    Ok(Assignee::Pat(alloc_target(state, at, call, Pat::Wild)?))
}

/// `(..)`, the tuple without parts.
fn dots_assignee<I: StoreSink>(
    alloc: Global,
    state: &mut BodyBuilder<I>,
    at: InFile<AstPtr>,
    call: Option<InFile<AstPtr>>,
) -> Result<Assignee, StoreError>
    ensures { Lowers HasAssignee (target_assignee (dots_tuple (of.origin call at))) state.old result state.new }
{
    Ok(Assignee::Pat(dots_alone(alloc, state, at, call)?))
}

/// What stands in parentheses, which lead to the expression of a place.
fn parens_around<I: StoreSink, T: TargetParts<I>, N: TargetNode>(
    parts: &T,
    state: &mut BodyBuilder<I>,
    at: InFile<AstPtr>,
    call: Option<InFile<AstPtr>>,
    inner: &N,
) -> Result<Assignee, StoreError>
    requires { N.can (T.can_target parts.now) inner.now }
    ensures { let rctx = T.rctx parts.now in
        Lowers HasAssignee (through_parens (found_at rctx) call at (N.read rctx inner.now)) state.old result state.new }
{
    let inner = inner.assignee(parts, state, call)?;
    parens(state, at, inner)
}

/// Two dots in parentheses are a tuple.
fn paren_around<I: StoreSink, T: TargetParts<I>, N: TargetNode>(
    parts: &T,
    state: &mut BodyBuilder<I>,
    at: InFile<AstPtr>,
    call: Option<InFile<AstPtr>>,
    inner: &N,
) -> Result<Assignee, StoreError>
    requires { N.can (T.can_target parts.now) inner.now }
    ensures { let rctx = T.rctx parts.now in
        Assignees rctx call (tree.paren_expr at (tree.some_expr (N.read rctx inner.now))) state.old result state.new }
{
    if inner.is_dots(parts) {
        dots_assignee(parts.alloc(), state, at, call)
    } else {
        parens_around(parts, state, at, call, inner)
    }
}

/// Parentheses without expression.
#[tactic(auto, unfolding(hir_lower_builder::specs::Forms::paren_form))]
fn empty_parens<I: StoreSink>(
    state: &mut BodyBuilder<I>,
    at: InFile<AstPtr>,
) -> Result<Assignee, StoreError>
    ensures { Lowers HasAssignee (place_assignee (tree.paren_expr at tree.no_expr)) state.old result state.new }
{
    let id = state.missing_expr()?;
    state.point(at, id)?;
    Ok(Assignee::Place(id))
}

/// Parentheses without expression are a place.
fn paren_assignee<I: StoreSink, T: TargetParts<I>>(
    parts: &T,
    state: &mut BodyBuilder<I>,
    at: InFile<AstPtr>,
    call: Option<InFile<AstPtr>>,
    expr: &Option<Boxed<ast::Expr>>,
) -> Result<Assignee, StoreError>
    requires { IfPresent (T.can_target parts.now) expr.now }
    ensures { let rctx = T.rctx parts.now in
        Assignees rctx call (tree.paren_expr at (expr_part rctx expr.now)) state.old result state.new }
{
    match expr {
        None => empty_parens(state, at),
        Some(inner) => paren_around(parts, state, at, call, inner.get()),
    }
}

/// An expression of any other kind.
#[tactic(auto, using(hir_lower_pat::proofs::AssigneeLemmas::other_is))]
fn other_assignee<I: StoreSink, T: TargetParts<I>>(
    parts: &T,
    state: &mut BodyBuilder<I>,
    call: Option<InFile<AstPtr>>,
    node: &ast::Expr,
) -> Result<Assignee, StoreError>
    requires place { T.can_place parts.now node.now }
    requires kind { IsPlace (out-ExprKind node.now.kind) }
    ensures { let rctx = T.rctx parts.now in Assignees rctx call (resolved_expr rctx node.now) state.old result state.new }
{
    parts.place(state, node)
}

/// An expression that no condition disables, and that is no call.
#[tactic(auto, using(hir_lower_pat::proofs::AssigneeLemmas::only_places))]
fn kept_assignee<I: StoreSink, T: TargetParts<I>>(
    parts: &T,
    state: &mut BodyBuilder<I>,
    at: InFile<AstPtr>,
    call: Option<InFile<AstPtr>>,
    node: &ast::Expr,
) -> Result<Assignee, StoreError>
    requires uncalled { IsNoCall (out-ExprKind node.now.kind) }
    requires parts { KidsOfTarget (T.can_target parts.now) (T.can_callee parts.now) (T.can_path parts.now) (out-ExprKind node.now.kind) }
    requires place { T.can_place parts.now node.now }
    requires at { at ≡ pointer_at (T.rctx parts.now) node.now.id node.now.range }
    requires enabled { resolved_expr (T.rctx parts.now) node.now ≡ kept_expr (T.rctx parts.now) node.now }
    ensures { let rctx = T.rctx parts.now in Assignees rctx call (resolved_expr rctx node.now) state.old result state.new }
{
    match &node.kind {
        ast::ExprKind::UnderscoreExpr => wild(state, at, call),
        ast::ExprKind::PathExpr { path } => path_assignee(parts, state, at, call, path),
        ast::ExprKind::ParenExpr { expr } => paren_assignee(parts, state, at, call, expr),
        ast::ExprKind::TupleExpr {
            leading_comma,
            fields,
        } => tuple_assignee(parts, state, at, call, *leading_comma, fields),
        ast::ExprKind::ArrayExpr { elems } => array_assignee(parts, state, at, call, elems),
        ast::ExprKind::CallExpr { expr, args } => {
            call_assignee(parts, state, at, call, node, expr, args)
        }
        ast::ExprKind::RecordExpr { path, list } => {
            record_assignee(parts, state, at, call, node, path, list)
        }
        ast::ExprKind::MacroExpr { .. } => unreachable!(),
        _ => other_assignee(parts, state, call, node),
    }
}

/// What comes of an expression that is no call. One that a condition disables is a place.
#[tactic(auto, using(hir_lower_pat::proofs::AssigneeLemmas::enabled_is, hir_lower_pat::proofs::AssigneeLemmas::disabled_is))]
pub(crate) fn assignee_node<I: StoreSink, T: TargetParts<I>>(
    parts: &T,
    state: &mut BodyBuilder<I>,
    call: Option<InFile<AstPtr>>,
    node: &ast::Expr,
) -> Result<Assignee, StoreError>
    requires uncalled { IsNoCall (out-ExprKind node.now.kind) }
    requires parts { KidsOfTarget (T.can_target parts.now) (T.can_callee parts.now) (T.can_path parts.now) (out-ExprKind node.now.kind) }
    requires place { T.can_place parts.now node.now }
    ensures { let rctx = T.rctx parts.now in Assignees rctx call (resolved_expr rctx node.now) state.old result state.new }
{
    let at = parts.pointer(node.id, node.range);
    match parts.cfg(site(at)) {
        Err(_) => parts.place(state, node),
        Ok(()) => kept_assignee(parts, state, at, call, node),
    }
}

/// The node that the pattern of an expression comes from that is a place: its own, or the outermost call's, where it is an element that
/// comes out of calls.
pub(crate) fn source<P: LowerParts>(
    lowerer: &Lowerer<P>,
    call: Option<InFile<AstPtr>>,
    node: &ast::Expr,
) -> InFile<AstPtr>
    ensures { result ≡ of.outermost call (own_pointer (P.rctx lowerer.now.parts) node.now) }
{
    outermost(call, pointer_of(&Inside { lowerer, by: () }, node))
}

/// What comes of a call that is written here and that no condition disables: what comes of what it stands for, with the outermost call,
/// where it is an element that comes out of calls.
#[cycle(assignee)]
#[inline(never)]
fn assignee_called<P: LowerExprs<ExpressionStoreBuilder>>(
    lowerer: &Lowerer<P>,
    state: &mut StoredBody,
    at: InFile<AstPtr>,
    call: Option<InFile<AstPtr>>,
    written: &ast::MacroCall,
) -> Result<Assignee, StoreError>
    requires { (P.can lowerer.now.parts).target_call (P.rctx lowerer.now.parts).place written.now }
    ensures { let rctx = P.rctx lowerer.now.parts in Assignees rctx call (written_expr rctx at written.now) state.old result state.new }
{
    let entered = enter(lowerer, state, FragmentKind::Expr, written)?;
    match expr_of(entered) {
        None => uncalled_assignee(state, at, call),
        Some((place, node)) => {
            let inside = lowerer.moved(place);
            let inner = assignee(&inside, state, call, node)?;
            called_assignee(state, at, source(&inside, call, node), inner)
        }
    }
}

/// What comes of an expression that is read here, in whatever parentheses it stands. A call that the text lacks is gone.
#[cycle(assignee)]
pub(crate) fn assignee<P: LowerExprs<ExpressionStoreBuilder>>(
    lowerer: &Lowerer<P>,
    state: &mut StoredBody,
    call: Option<InFile<AstPtr>>,
    node: &ast::Expr,
) -> Result<Assignee, StoreError>
    requires { (P.can lowerer.now.parts).target (P.rctx lowerer.now.parts).place node.now }
    ensures { let rctx = P.rctx lowerer.now.parts in Assignees rctx call (resolved_expr rctx node.now) state.old result state.new }
{
    match &node.kind {
        ast::ExprKind::MacroExpr { call: written } => {
            let at = lowerer.pointer(node.id, node.range);
            match lowerer.parts.cfg(site(at)) {
                Err(_) => place(lowerer, state, node),
                Ok(()) => match written {
                    None => Ok(Assignee::Gone),
                    Some(written) => assignee_called(lowerer, state, at, call, written),
                },
            }
        }
        _ => {
            let by = TargetBy {
                assignee: assignee::<P>,
                element: element::<P>,
            };
            assignee_node(&Inside { lowerer, by }, state, call, node)
        }
    }
}

/// The assignee expression, which as a place has its node.
fn whole_target<P: LowerExprs<ExpressionStoreBuilder>>(
    lowerer: &Lowerer<P>,
    state: &mut StoredBody,
    node: &ast::Expr,
) -> Result<PatId, StoreError>
    requires { (P.can lowerer.now.parts).target (P.rctx lowerer.now.parts).place node.now }
    ensures { let rctx = P.rctx lowerer.now.parts in
        Lowers HasPat (assignee_pat (found_at rctx) None (own_pointer rctx node.now) (resolved_expr rctx node.now))
        state.old result state.new }
{
    let found = assignee(lowerer, state, None, node)?;
    land(state, source(lowerer, None, node), found)
}

/// The assignee expression, missing where it is absent.
pub fn lower_target<P: LowerExprs<ExpressionStoreBuilder>>(
    lowerer: &Lowerer<P>,
    state: &mut StoredBody,
    part: &Option<Boxed<ast::Expr>>,
) -> Result<PatId, StoreError>
    requires { IfPresent ((P.can lowerer.now.parts).target (P.rctx lowerer.now.parts).place) part.now }
    ensures { LowersTarget (target_part (P.rctx lowerer.now.parts) part.now) state.old result state.new }
{
    match part {
        None => missing_target(state, None),
        Some(part) => whole_target(lowerer, state, part.get()),
    }
}

/// What an element stands for that is a call, none where it is two dots. It is missing at the outermost call where it is no expression.
#[cycle(assignee)]
#[inline(never)]
fn called_element<P: LowerExprs<ExpressionStoreBuilder>>(
    lowerer: &Lowerer<P>,
    state: &mut StoredBody,
    outer: InFile<AstPtr>,
    written: &ast::MacroCall,
) -> Result<Option<PatId>, StoreError>
    requires { (P.can lowerer.now.parts).target_call (P.rctx lowerer.now.parts).place written.now }
    ensures { let rctx = P.rctx lowerer.now.parts in
        Lowers HasPatOption (element_call rctx outer written.now) state.old result state.new }
{
    let entered = enter(lowerer, state, FragmentKind::Expr, written)?;
    match expr_of(entered) {
        None => Ok(Some(missing_target(state, Some(outer))?)),
        Some((place, node)) => element(&lowerer.moved(place), state, Some(outer), node),
    }
}

/// The pattern of an element of a tuple or a call, or in front of the two dots of an array, none where it comes to two dots. A call is
/// what it stands for, whatever disables it; one that the text lacks is missing, and its node leads there.
#[cycle(assignee)]
fn element<P: LowerExprs<ExpressionStoreBuilder>>(
    lowerer: &Lowerer<P>,
    state: &mut StoredBody,
    call: Option<InFile<AstPtr>>,
    node: &ast::Expr,
) -> Result<Option<PatId>, StoreError>
    requires { (P.can lowerer.now.parts).target (P.rctx lowerer.now.parts).place node.now }
    ensures { let rctx = P.rctx lowerer.now.parts in AssigneesElement rctx call (resolved_expr rctx node.now) state.old result state.new }
{
    match &node.kind {
        ast::ExprKind::MacroExpr { call: written } => {
            let at = lowerer.pointer(node.id, node.range);
            match written {
                None => Ok(Some(alloc_target(state, at, call, Pat::Missing)?)),
                Some(written) => called_element(lowerer, state, outermost(call, at), written),
            }
        }
        _ => {
            if is_dots_kind(node) {
                return Ok(None);
            }
            let found = assignee(lowerer, state, call, node)?;
            Ok(Some(land(state, source(lowerer, call, node), found)?))
        }
    }
}

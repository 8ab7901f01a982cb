//! `for`: a match on the iterator that is made of the head, of which the one arm is a loop. Each turn of it matches on the next item.

ghost use Rattle.std.specs.Prelude.{◌≡◌, [], ◌∷◌, IfOk, Some, option_map};
ghost use Rattle.hir_syntax.specs.declared.ast.BlockExpr.{out-BlockExpr};
ghost use Rattle.hir_store.specs.Range.{HasExpr, HasPat};
ghost use Rattle.hir_env.specs.ResolvedTree as tree;
ghost use Rattle.hir_env.specs.ResolvedTree.{OptionExpr};
ghost use Rattle.hir_env.specs.declared.ctx.LowerCtx.{LowerCtx as AtCtx};
ghost use Rattle.hir_env.specs.ResolveCtx.{ResolveCtx};
ghost use Rattle.hir_env.specs.Answering as of;
ghost use Rattle.hir_env.specs.Targets.{head_pointer, pointer_of};
ghost use Rattle.hir_env.specs.Whole.{resolved_expr, resolved_block, resolved_body, body_part, expr_part, label_part, own_pointer};
ghost use Rattle.hir_env.specs.Whole.{pointer_at};
ghost use Rattle.hir_lower_builder.specs.Lower.{lower_part};
ghost use Rattle.hir_lower_builder.specs.Lowering.{Lowers};
ghost use Rattle.hir_lower_builder.specs.Lowering as step;
ghost use Rattle.hir_lower_builder.specs.Made as spec;
ghost use Rattle.hir_lower_builder.specs.Methods.{HasArm, LowersExpr, LowersExprOpt};
ghost use Rattle.hir_lower_builder.specs.Nests.{Claims, IfPresent, KidsBody};
ghost use Rattle.hir_lower_expr.specs.Fors.{items_of};

use crate::blocks::block_form;
use crate::part::{ExprPart, PatPart};
use crate::questions::two_arms;
use crate::stored::{store_made_loop, store_made_match, store_match};
use hir_base::node::{AstPtr, InFile};
use hir_env::lang::LangItems;
use hir_lower_builder::builder::BodyBuilder;
use hir_lower_builder::parts::{LowerAll, LowerParts, Lowerer, site};
use hir_lower_builder::store_sink::StoreSink;
use hir_store::diagnostics::ExpressionStoreDiagnostics;
use hir_store::error::StoreError;
use hir_store::hir::{BindingAnnotation, Expr, LoopSource, MatchArm, Pat};
use hir_store::ids::{ExprId, HygieneId, LangItemId, PatId};
use hir_store::lists::push_arm;
use hir_store::path::Path;
use hir_syntax::{Boxed, Seq, ast};
use std::alloc::{AllocError, Global};

/// The items that a `for` takes. It can't do without any.
#[derive(Clone, Copy)]
struct ForItems {
    into_iter: LangItemId,
    next: LangItemId,
    gives: LangItemId,
    is_done: LangItemId,
}

/// Those of the language, where all are there.
fn for_items(items: &LangItems) -> Option<ForItems>
    ensures { option_map items_of result ≡ of.for_items items.now }
{
    let into_iter = items.into_iter_into_iter?;
    let next = items.iterator_next?;
    let gives = items.option_some?;
    let is_done = items.option_none?;
    Some(ForItems {
        into_iter,
        next,
        gives,
        is_done,
    })
}

/// A block as an expression, missing where a condition disables it.
#[tactic(auto, unfolding(hir_lower_builder::specs::Calls::track_gone))]
fn asked_body<I: StoreSink, P: LowerAll<I>>(
    lowerer: &Lowerer<P>,
    state: &mut BodyBuilder<I>,
    node: &ast::BlockExpr,
) -> Result<ExprId, StoreError>
    requires { KidsBody (P.can lowerer.now.parts) (P.rctx lowerer.now.parts).place node.now }
    ensures { let rctx = P.rctx lowerer.now.parts in
        let level = out-BlockExpr node.now in
        let at = pointer_at rctx level.id level.range in
        let read = of.asked at (rctx.answers.cfg (of.site_of at)) (resolved_block rctx node.now) in
        LowersExpr read state.old result state.new }
{
    let at = lowerer.pointer(node.id, node.range);
    match lowerer.parts.cfg(site(at)) {
        Err(cfg) => {
            state.report(ExpressionStoreDiagnostics::InactiveCode { node: at, cfg })?;
            state.missing_expr()
        }
        Ok(()) => block_form(lowerer, state, node),
    }
}

fn body_node<I: StoreSink, P: LowerAll<I>>(
    lowerer: &Lowerer<P>,
    state: &mut BodyBuilder<I>,
    node: &ast::BlockExpr,
) -> Result<ExprId, StoreError>
    requires { KidsBody (P.can lowerer.now.parts) (P.rctx lowerer.now.parts).place node.now }
    ensures { LowersExpr (resolved_body (P.rctx lowerer.now.parts) node.now) state.old result state.new }
{
    asked_body(lowerer, state, node)
}

/// The body of a `for`, which is there or isn't.
pub trait BodyPart {
    ghost can: { Claims → AtCtx → Self → Type 0 };

    ghost read: { ResolveCtx → Self → OptionExpr };

    /// The body, missing where it is absent or a condition disables it.
    fn lower<I: StoreSink, P: LowerAll<I>>(
        &self,
        lowerer: &Lowerer<P>,
        state: &mut BodyBuilder<I>,
    ) -> Result<ExprId, StoreError>
        requires { can (P.can lowerer.now.parts) (P.rctx lowerer.now.parts).place self.now }
        ensures { LowersExprOpt (read (P.rctx lowerer.now.parts) self.now) state.old result state.new };
}

impl BodyPart for Option<Boxed<ast::BlockExpr>> {
    ghost can = { λ claims place. IfPresent (KidsBody claims place) };

    ghost read = { body_part };

    fn lower<I: StoreSink, P: LowerAll<I>>(
        &self,
        lowerer: &Lowerer<P>,
        state: &mut BodyBuilder<I>,
    ) -> Result<ExprId, StoreError> {
        match self {
            None => state.missing_expr(),
            Some(part) => body_node(lowerer, state, part.get()),
        }
    }
}

/// What asks the iterator for its next item.
#[tactic(auto, unfolding(hir_lower_builder::specs::Made::next_form))]
#[inline(never)]
fn next_item<I: StoreSink>(
    alloc: Global,
    state: &mut BodyBuilder<I>,
    at: InFile<AstPtr>,
    item: LangItemId,
    number: u32,
) -> Result<ExprId, StoreError>
    ensures { Lowers HasExpr (spec.next_form at item number) state.old result state.new }
{
    let iterator = state.made_reference(alloc, at, number)?;
    state.item_call(alloc, at, Some(item), iterator)
}

/// The arm for no item, which ends the loop.
#[tactic(auto, unfolding(hir_lower_builder::specs::Made::done_arm_form))]
#[inline(never)]
fn done_arm<I: StoreSink>(
    state: &mut BodyBuilder<I>,
    at: InFile<AstPtr>,
    item: LangItemId,
) -> Result<MatchArm, StoreError>
    ensures { Lowers HasArm (spec.done_arm_form at item) state.old result state.new }
{
    let path = Path::LangItem(item);
    let hygiene = HygieneId::ROOT;
    let pat = state.alloc_pat(Pat::Path { path, hygiene }, None)?;
    let label = None;
    let expr = None;
    let expr = state.alloc_desugared(Expr::Break { label, expr }, Some(at))?;
    let guard = None;
    Ok(MatchArm { pat, guard, expr })
}

/// The arm for an item that the pattern fits, with the body.
#[tactic(auto, unfolding(hir_lower_builder::specs::Made::gives_arm_form))]
fn gives_arm<I: StoreSink, P: LowerAll<I>, B: BodyPart>(
    lowerer: &Lowerer<P>,
    state: &mut BodyBuilder<I>,
    item: LangItemId,
    part: PatId,
    body: &B,
) -> Result<MatchArm, StoreError>
    requires part { HasPat state.old.stored part }
    requires body { B.can (P.can lowerer.now.parts) (P.rctx lowerer.now.parts).place body.now }
    ensures { let body = lower_part (B.read (P.rctx lowerer.now.parts) body.now) in
        Lowers HasArm (spec.gives_arm_form item part body) state.old result state.new }
{
    let pat = state.item_pat(lowerer.alloc, item, part)?;
    let expr = body.lower(lowerer, state)?;
    let guard = None;
    Ok(MatchArm { pat, guard, expr })
}

/// A block with nothing but this value.
#[inline(never)]
fn only_tail<I: StoreSink>(
    alloc: Global,
    state: &mut BodyBuilder<I>,
    at: InFile<AstPtr>,
    value: ExprId,
) -> Result<ExprId, StoreError>
    requires { HasExpr state.old.stored value }
    ensures { Lowers HasExpr (step.alloc_desugared (spec.only_tail value) (Some at)) state.old result state.new }
{
    let expr = Expr::Block {
        is_unsafe: false,
        label: None,
        id: None,
        statements: Seq::new(alloc),
        tail: Some(value),
    };
    state.alloc_desugared(expr, Some(at))
}

/// One turn of the loop, for the iterator of this name.
#[tactic(auto, unfolding(hir_lower_builder::specs::Made::for_iteration_form))]
#[inline(never)]
fn iteration<I: StoreSink, P: LowerAll<I>, B: BodyPart>(
    lowerer: &Lowerer<P>,
    state: &mut BodyBuilder<I>,
    at: InFile<AstPtr>,
    items: ForItems,
    number: u32,
    pat: PatId,
    body: &B,
) -> Result<ExprId, StoreError>
    requires pat { HasPat state.old.stored pat }
    requires body { B.can (P.can lowerer.now.parts) (P.rctx lowerer.now.parts).place body.now }
    ensures { let body = lower_part (B.read (P.rctx lowerer.now.parts) body.now) in
        Lowers HasExpr (spec.for_iteration_form at (items_of items) number pat body) state.old result state.new }
{
    let expr = next_item(lowerer.alloc, state, at, items.next, number)?;
    let done = done_arm(state, at, items.is_done)?;
    let gives = gives_arm(lowerer, state, items.gives, pat, body)?;
    let arms = two_arms(lowerer.alloc, done, gives)?;
    let value = store_made_match(state, at, expr, arms)?;
    only_tail(lowerer.alloc, state, at, value)
}

/// The loop over such turns.
#[tactic(auto, unfolding(hir_lower_builder::specs::Made::made_loop_form))]
#[inline(never)]
fn iterations<I: StoreSink, P: LowerAll<I>, B: BodyPart>(
    lowerer: &Lowerer<P>,
    state: &mut BodyBuilder<I>,
    at: InFile<AstPtr>,
    items: ForItems,
    label: &Option<ast::Label>,
    number: u32,
    pat: PatId,
    body: &B,
) -> Result<ExprId, StoreError>
    requires pat { HasPat state.old.stored pat }
    requires body { B.can (P.can lowerer.now.parts) (P.rctx lowerer.now.parts).place body.now }
    ensures { let rctx = P.rctx lowerer.now.parts in
        let iteration = spec.for_iteration_form at (items_of items) number pat (lower_part (B.read rctx body.now)) in
        Lowers HasExpr (spec.made_loop_form at (label_part rctx label.now) iteration) state.old result state.new }
{
    let source = LoopSource::ForLoop;
    match label {
        None => {
            let body = iteration(lowerer, state, at, items, number, pat, body)?;
            let label = None;
            store_made_loop(state, at, body, label, source)
        }
        Some(label) => {
            let label = lowerer.open_label(state, label)?;
            let body = iteration(lowerer, state, at, items, number, pat, body)?;
            state.close();
            let label = Some(label);
            store_made_loop(state, at, body, label, source)
        }
    }
}

/// The node of an expression, which of a block is the block's.
fn own_node<P: LowerParts>(lowerer: &Lowerer<P>, node: &ast::Expr) -> InFile<AstPtr>
    ensures { result ≡ own_pointer (P.rctx lowerer.now.parts) node.now }
{
    match &node.kind {
        ast::ExprKind::BlockExpr(block) => {
            let block = block.get();
            lowerer.pointer(block.id, block.range)
        }
        _ => lowerer.pointer(node.id, node.range),
    }
}

fn node_of<P: LowerParts>(lowerer: &Lowerer<P>, node: &ast::Expr) -> InFile<AstPtr>
    ensures { result ≡ pointer_of (resolved_expr (P.rctx lowerer.now.parts) node.now) }
{
    own_node(lowerer, node)
}

/// The node of the head, or the form's where that is absent.
pub(crate) fn head_node<P: LowerParts>(
    lowerer: &Lowerer<P>,
    at: InFile<AstPtr>,
    head: &Option<Boxed<ast::Expr>>,
) -> InFile<AstPtr>
    ensures { result ≡ head_pointer at (expr_part (P.rctx lowerer.now.parts) head.now) }
{
    match head {
        None => at,
        Some(head) => node_of(lowerer, head.get()),
    }
}

/// A list with this arm alone, which has no guard.
#[inline(never)]
fn one_arm(alloc: Global, pat: PatId, expr: ExprId) -> Result<Seq<MatchArm>, AllocError>
    ensures value { IfOk result (λ arms. arms ≡ spec.arm_for pat expr ∷ []) }
{
    let mut arms = Seq::new(alloc);
    let guard = None;
    push_arm(&mut arms, MatchArm { pat, guard, expr })?;
    Ok(arms)
}

/// The head and the pattern lie outside of the label.
#[tactic(auto, unfolding(hir_lower_builder::specs::Made::for_form))]
fn for_with<I: StoreSink, P: LowerAll<I>, Q: PatPart, E: ExprPart, B: BodyPart>(
    lowerer: &Lowerer<P>,
    state: &mut BodyBuilder<I>,
    at: InFile<AstPtr>,
    items: ForItems,
    label: &Option<ast::Label>,
    pat: &Q,
    iterable: &E,
    body: &B,
) -> Result<ExprId, StoreError>
    requires pat { Q.can (P.can lowerer.now.parts) (P.rctx lowerer.now.parts).place pat.now }
    requires iterable { E.can (P.can lowerer.now.parts) iterable.now }
    requires body { B.can (P.can lowerer.now.parts) (P.rctx lowerer.now.parts).place body.now }
    ensures { let rctx = P.rctx lowerer.now.parts in
        LowersExpr (tree.for_expr at (items_of items)
        (label_part rctx label.now)
        (of.label_written rctx.answers rctx.place label.now)
        (Q.read rctx pat.now)
        (E.read rctx iterable.now)
        (B.read rctx body.now)) state.old result state.new }
{
    let head_at = iterable.node_or(lowerer, at);
    let head = iterable.lower(lowerer, state)?;
    let expr = state.item_call(lowerer.alloc, head_at, Some(items.into_iter), head)?;
    let pat = pat.lower(lowerer, state)?;
    let number = state.made_number()?;
    let iterator = state.made_bind(BindingAnnotation::Mutable, number)?;
    let iterations = iterations(lowerer, state, at, items, label, number, pat, body)?;
    let arms = one_arm(lowerer.alloc, iterator, iterations)?;
    store_match(state, at, expr, arms)
}

/// Where the language lacks one of the items, a `for` is missing, and nothing in it is lowered.
///
/// `'a: for p in h b` becomes
///
/// ```text
/// match into_iter(h) {
///     mut made => 'a: loop { match next(&mut made) { None => break, Some(p) => b } },
/// }
/// ```
#[inline(never)]
pub fn for_form<I: StoreSink, P: LowerAll<I>, Q: PatPart, E: ExprPart, B: BodyPart>(
    lowerer: &Lowerer<P>,
    state: &mut BodyBuilder<I>,
    at: InFile<AstPtr>,
    label: &Option<ast::Label>,
    pat: &Q,
    iterable: &E,
    body: &B,
) -> Result<ExprId, StoreError>
    requires pat { Q.can (P.can lowerer.now.parts) (P.rctx lowerer.now.parts).place pat.now }
    requires iterable { E.can (P.can lowerer.now.parts) iterable.now }
    requires body { B.can (P.can lowerer.now.parts) (P.rctx lowerer.now.parts).place body.now }
    ensures { let rctx = P.rctx lowerer.now.parts in
        LowersExpr (of.for_of (of.for_items rctx.answers.lang_items) at
        (label_part rctx label.now)
        (of.label_written rctx.answers rctx.place label.now)
        (Q.read rctx pat.now)
        (E.read rctx iterable.now)
        (B.read rctx body.now)) state.old result state.new }
{
    match for_items(lowerer.parts.lang_items()) {
        None => state.missing_expr(),
        Some(items) => for_with(lowerer, state, at, items, label, pat, iterable, body),
    }
}

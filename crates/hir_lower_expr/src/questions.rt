//! `?`: a match on what the branch of the operand is, of which one arm goes on with a value and the other leaves with a residual.

ghost use Rattle.std.specs.Prelude.{◌≡◌, [], ◌∷◌, IfOk, Some, option_map};
ghost use Rattle.hir_store.specs.Range.{HasExpr};
ghost use Rattle.hir_env.specs.ResolvedTree as tree;
ghost use Rattle.hir_env.specs.Answering as of;
ghost use Rattle.hir_lower_scope.specs.Found.{try_of};
ghost use Rattle.hir_lower_builder.specs.Lower.{lower_part};
ghost use Rattle.hir_lower_builder.specs.Lowering.{HasTry, Lowers};
ghost use Rattle.hir_lower_builder.specs.Lowering as step;
ghost use Rattle.hir_lower_builder.specs.Made as spec;
ghost use Rattle.hir_lower_builder.specs.Methods.{HasArm, LowersExpr};
ghost use Rattle.hir_lower_expr.specs.Questions.{items_of};

use crate::part::ExprPart;
use crate::stored::store_match;
use hir_base::node::{AstPtr, InFile};
use hir_env::lang::LangItems;
use hir_lower_builder::builder::BodyBuilder;
use hir_lower_builder::parts::{LowerAll, Lowerer};
use hir_lower_builder::store_sink::StoreSink;
use hir_lower_scope::labels::TryLabel;
use hir_store::error::StoreError;
use hir_store::hir::{BindingAnnotation, Expr, MatchArm};
use hir_store::ids::{ExprId, LangItemId};
use hir_store::lists::push_arm;
use hir_syntax::Seq;
use std::alloc::{AllocError, Global};

/// The items that a `?` takes. It can't do without the first three.
#[derive(Clone, Copy)]
struct QuestionItems {
    branch: LangItemId,
    goes_on: LangItemId,
    breaks: LangItemId,
    into_try_type: Option<LangItemId>,
    from_residual: Option<LangItemId>,
}

/// Those of the language, where all that it can't do without is there.
fn question_items(items: &LangItems) -> Option<QuestionItems>
    ensures { option_map items_of result ≡ of.question_items items.now }
{
    let branch = items.try_trait_branch?;
    let goes_on = items.control_flow_continue?;
    let breaks = items.control_flow_break?;
    Some(QuestionItems {
        branch,
        goes_on,
        breaks,
        into_try_type: items.residual_into_try_type,
        from_residual: items.try_trait_from_residual,
    })
}

/// What makes of a residual the value of what it is for: a `try` without a written type has a way of its own.
fn conversion(items: QuestionItems, target: Option<TryLabel>) -> Option<LangItemId>
    ensures { result ≡ spec.conversion (items_of items) (try_of target) }
{
    match target {
        Some(TryLabel { typed: false, .. }) => items.into_try_type,
        _ => items.from_residual,
    }
}

/// What leaves for the innermost `try`, or else returns.
fn leaving<I: StoreSink>(
    state: &mut BodyBuilder<I>,
    at: InFile<AstPtr>,
    target: Option<TryLabel>,
    value: ExprId,
) -> Result<ExprId, StoreError>
    requires target { HasTry state.old.stored (try_of target) }
    requires value { HasExpr state.old.stored value }
    ensures { let node = spec.leaving_node (try_of target) value in
        Lowers HasExpr (step.alloc_desugared node (Some at)) state.old result state.new }
{
    let expr = Some(value);
    match target {
        None => state.alloc_desugared(Expr::Return { expr }, Some(at)),
        Some(target) => {
            let label = Some(target.label);
            state.alloc_desugared(Expr::Break { label, expr }, Some(at))
        }
    }
}

/// The residual of this name is made a value, which leaves.
#[tactic(auto, unfolding(hir_lower_builder::specs::Made::residual_form))]
fn residual<I: StoreSink>(
    alloc: Global,
    state: &mut BodyBuilder<I>,
    at: InFile<AstPtr>,
    items: QuestionItems,
    number: u32,
) -> Result<ExprId, StoreError>
    ensures { Lowers HasExpr (spec.residual_form at (items_of items) number) state.old result state.new }
{
    let name = state.made_path(alloc, at, number)?;
    let target = state.try_target();
    let value = state.item_call(alloc, at, conversion(items, target), name)?;
    leaving(state, at, target, value)
}

/// The arm for a value, with which the form goes on.
#[tactic(auto, unfolding(hir_lower_builder::specs::Made::flow_arm_form))]
fn value_arm<I: StoreSink>(
    alloc: Global,
    state: &mut BodyBuilder<I>,
    at: InFile<AstPtr>,
    item: LangItemId,
) -> Result<MatchArm, StoreError>
    ensures { Lowers HasArm (spec.flow_arm_form item (spec.made_path_form at)) state.old result state.new }
{
    let number = state.made_number()?;
    let part = state.made_bind(BindingAnnotation::Unannotated, number)?;
    let pat = state.item_pat(alloc, item, part)?;
    let expr = state.made_path(alloc, at, number)?;
    let guard = None;
    Ok(MatchArm { pat, guard, expr })
}

/// The arm for a residual, which leaves.
#[tactic(auto, unfolding(hir_lower_builder::specs::Made::flow_arm_form))]
fn residual_arm<I: StoreSink>(
    alloc: Global,
    state: &mut BodyBuilder<I>,
    at: InFile<AstPtr>,
    items: QuestionItems,
) -> Result<MatchArm, StoreError>
    ensures { let taken = items_of items in
        Lowers HasArm (spec.flow_arm_form taken.breaks (spec.residual_form at taken)) state.old result state.new }
{
    let number = state.made_number()?;
    let part = state.made_bind(BindingAnnotation::Unannotated, number)?;
    let pat = state.item_pat(alloc, items.breaks, part)?;
    let expr = residual(alloc, state, at, items, number)?;
    let guard = None;
    Ok(MatchArm { pat, guard, expr })
}

/// The arms, in this order.
#[inline(never)]
pub(crate) fn two_arms(
    alloc: Global,
    first: MatchArm,
    second: MatchArm,
) -> Result<Seq<MatchArm>, AllocError>
    ensures value { IfOk result (λ arms. arms ≡ first ∷ second ∷ []) }
{
    let mut arms = Seq::new(alloc);
    push_arm(&mut arms, first)?;
    push_arm(&mut arms, second)?;
    Ok(arms)
}

/// The operand before what is made of it.
#[tactic(auto, unfolding(hir_lower_builder::specs::Made::question_form))]
fn question_with<I: StoreSink, P: LowerAll<I>, E: ExprPart>(
    lowerer: &Lowerer<P>,
    state: &mut BodyBuilder<I>,
    at: InFile<AstPtr>,
    items: QuestionItems,
    operand: &E,
) -> Result<ExprId, StoreError>
    requires { E.can (P.can lowerer.now.parts) operand.now }
    ensures { let part = E.read (P.rctx lowerer.now.parts) operand.now in
        Lowers HasExpr (spec.question_form at (items_of items) (lower_part part)) state.old result state.new }
{
    let operand = operand.lower(lowerer, state)?;
    let expr = state.item_call(lowerer.alloc, at, Some(items.branch), operand)?;
    let value = value_arm(lowerer.alloc, state, at, items.goes_on)?;
    let residual = residual_arm(lowerer.alloc, state, at, items)?;
    let arms = two_arms(lowerer.alloc, value, residual)?;
    store_match(state, at, expr, arms)
}

/// Where the language lacks an item that a `?` can't do without, it is missing, and nothing in it is lowered.
///
/// `e?` becomes
///
/// ```text
/// match branch(e) {
///     Continue(value) => value,
///     Break(residual) => break 'try into_try_type(residual), // outside of a `try`: return from_residual(residual)
/// }
/// ```
#[inline(never)]
pub fn question_form<I: StoreSink, P: LowerAll<I>, E: ExprPart>(
    lowerer: &Lowerer<P>,
    state: &mut BodyBuilder<I>,
    at: InFile<AstPtr>,
    operand: &E,
) -> Result<ExprId, StoreError>
    requires { E.can (P.can lowerer.now.parts) operand.now }
    ensures { let rctx = P.rctx lowerer.now.parts in
        let items = of.question_items rctx.answers.lang_items in
        LowersExpr (of.question_of items at (E.read rctx operand.now)) state.old result state.new }
{
    match question_items(lowerer.parts.lang_items()) {
        None => state.missing_expr(),
        Some(items) => question_with(lowerer, state, at, items, operand),
    }
}

//! Ranges, which are made as lang items.

ghost use Rattle.std.specs.Prelude.{◌≡◌, ◌++◌, if◌then◌else◌, max, IfOk};
ghost use Rattle.hir_store.specs.Arenas.{past, past_option};
ghost use Rattle.hir_store.specs.Range.{HasExpr, HasExprOption, past_expr, past_field};
ghost use Rattle.hir_env.specs.ResolvedTree as tree;
ghost use Rattle.hir_env.specs.Ranges as of;
ghost use Rattle.hir_lower_builder.specs.Lowering.{Lowers};
ghost use Rattle.hir_lower_builder.specs.Ranges as spec;
ghost use Rattle.hir_lower_builder.specs.Methods.{LowersExpr};
ghost use Rattle.hir_lower_expr.specs.Ranges.{made_form, name_of_end};

use crate::part::ExprPart;
use hir_base::node::{AstPtr, InFile};
use hir_env::lang::LangItems;
use hir_lower_builder::builder::BodyBuilder;
use hir_lower_builder::parts::{LowerAll, LowerParts, Lowerer};
use hir_lower_builder::store_sink::StoreSink;
use hir_lower_pat::items::item_expr;
use hir_store::error::StoreError;
use hir_store::hir::{Expr, RecordLitField, RecordSpread};
use hir_store::ids::{ExprId, LangItemId};
use hir_store::lists::{push_field, push_id};
use hir_store::name::Name;
use hir_store::path::Path;
use hir_syntax::ast::RangeOp;
use hir_syntax::{Seq, Text};
use std::alloc::{AllocError, Global};

/// What a range is made as: a record of an item, whose field for the end is `last` or `end`, a call of one, or nothing.
#[derive(Clone, Copy)]
enum Made {
    Record { item: LangItemId, is_last: bool },
    Call(Option<LangItemId>),
    Itemless,
}

fn record_of(item: Option<LangItemId>, is_last: bool) -> Made
    ensures { made_form result ≡ of.record_of item (name_of_end is_last) }
{
    match item {
        None => Made::Itemless,
        Some(item) => Made::Record { item, is_last },
    }
}

/// The newer item or the older one.
fn newer(is_new: bool, new: Option<LangItemId>, old: Option<LangItemId>) -> Option<LangItemId>
    ensures { result ≡ of.newer is_new new old }
{
    if is_new { new } else { old }
}

/// Without an operator a range is as with `..`.
fn is_inclusive(op: Option<RangeOp>) -> bool
    ensures { result ≡ of.is_inclusive op }
{
    match op {
        Some(RangeOp::Inclusive) => true,
        _ => false,
    }
}

/// A range without start.
fn to_end(items: &LangItems, is_new: bool, inclusive: bool) -> Made
    ensures { made_form result ≡ of.to_form items.now is_new inclusive }
{
    if !inclusive {
        record_of(items.range_to, false)
    } else if is_new {
        record_of(items.range_to_inclusive_copy, true)
    } else {
        record_of(items.range_to_inclusive, false)
    }
}

/// A range with both ends.
fn between(items: &LangItems, is_new: bool, inclusive: bool) -> Made
    ensures { made_form result ≡ of.between_form items.now is_new inclusive }
{
    if !inclusive {
        record_of(newer(is_new, items.range_copy, items.range), false)
    } else if is_new {
        record_of(items.range_inclusive_copy, true)
    } else {
        Made::Call(items.range_inclusive_new)
    }
}

/// By the operator, and whether there is a start and an end.
fn made_as(items: &LangItems, is_new: bool, op: Option<RangeOp>, start: bool, end: bool) -> Made
    ensures { made_form result ≡ of.range_form items.now is_new op start end }
{
    match (start, end) {
        (false, false) => record_of(items.range_full, false),
        (true, false) => record_of(
            newer(is_new, items.range_from_copy, items.range_from),
            false,
        ),
        (false, true) => to_end(items, is_new, is_inclusive(op)),
        (true, true) => between(items, is_new, is_inclusive(op)),
    }
}

/// What a range that stands here is made as.
fn made_here<P: LowerParts, E: ExprPart>(
    lowerer: &Lowerer<P>,
    op: Option<RangeOp>,
    start: &E,
    end: &E,
) -> Made
    ensures { let rctx = P.rctx lowerer.now.parts in
        let is_new = rctx.answers.new_range rctx.place.module_id in
        made_form result ≡ of.range_form rctx.answers.lang_items is_new op (E.is_there start.now) (E.is_there end.now) }
{
    let is_new = lowerer.parts.new_range();
    made_as(
        lowerer.parts.lang_items(),
        is_new,
        op,
        start.is_present(),
        end.is_present(),
    )
}

/// The name of the field for the end.
fn end_name(alloc: Global, is_last: bool) -> Result<Name, AllocError>
    ensures { IfOk result (λ n. n ≡ name_of_end is_last) }
{
    if is_last {
        Ok(Name::Text(Text::new(alloc, "last")?))
    } else {
        Ok(Name::Text(Text::new(alloc, "end")?))
    }
}

/// The fields for the ends that are there.
fn fields(
    alloc: Global,
    is_last: bool,
    start: Option<ExprId>,
    end: Option<ExprId>,
) -> Result<Seq<RecordLitField>, AllocError>
    ensures value { IfOk result (λ fs. fs ≡ spec.range_fields (name_of_end is_last) start end) }
    ensures past { IfOk result (λ fs. past past_field fs ≡ max (past_option past_expr start) (past_option past_expr end)) }
{
    let mut fields = Seq::new(alloc);
    if let Some(expr) = start {
        let name = Name::Text(Text::new(alloc, "start")?);
        push_field(&mut fields, RecordLitField { name, expr })?;
    }
    if let Some(expr) = end {
        let name = end_name(alloc, is_last)?;
        push_field(&mut fields, RecordLitField { name, expr })?;
    }
    Ok(fields)
}

/// The ends that are there.
fn operands(
    alloc: Global,
    start: Option<ExprId>,
    end: Option<ExprId>,
) -> Result<Seq<ExprId>, AllocError>
    ensures value { IfOk result (λ es. es ≡ spec.end_operand start ++ spec.end_operand end) }
    ensures past { IfOk result (λ es. past past_expr es ≡ max (past_option past_expr start) (past_option past_expr end)) }
{
    let mut operands = Seq::new(alloc);
    if let Some(expr) = start {
        push_id(&mut operands, expr)?;
    }
    if let Some(expr) = end {
        push_id(&mut operands, expr)?;
    }
    Ok(operands)
}

/// What is called comes from no node.
fn called<I: StoreSink>(
    alloc: Global,
    state: &mut BodyBuilder<I>,
    at: InFile<AstPtr>,
    item: Option<LangItemId>,
    start: Option<ExprId>,
    end: Option<ExprId>,
) -> Result<ExprId, StoreError>
    requires start { HasExprOption state.old.stored start }
    requires end { HasExprOption state.old.stored end }
    ensures { Lowers HasExpr (spec.made_range at (tree.call_range item) start end) state.old result state.new }
{
    let callee = state.alloc_expr(item_expr(item), None)?;
    let args = operands(alloc, start, end)?;
    state.alloc_expr(Expr::Call { callee, args }, Some(at))
}

/// Without an item for its record a range is missing.
#[inline(never)]
fn made_of<I: StoreSink>(
    alloc: Global,
    state: &mut BodyBuilder<I>,
    at: InFile<AstPtr>,
    made: Made,
    start: Option<ExprId>,
    end: Option<ExprId>,
) -> Result<ExprId, StoreError>
    requires start { HasExprOption state.old.stored start }
    requires end { HasExprOption state.old.stored end }
    ensures { Lowers HasExpr (spec.made_range at (made_form made) start end) state.old result state.new }
{
    match made {
        Made::Record { item, is_last } => {
            let expr = Expr::RecordLit {
                path: Path::LangItem(item),
                fields: fields(alloc, is_last, start, end)?,
                spread: RecordSpread::None,
            };
            state.alloc_expr(expr, Some(at))
        }
        Made::Call(item) => called(alloc, state, at, item, start, end),
        Made::Itemless => state.alloc_expr(Expr::Missing, Some(at)),
    }
}

/// The ends from left to right, whatever it is made as.
///
/// `a..b` and `a..=b` become, and with the newer items the last,
///
/// ```text
/// Range { start: a, end: b }
/// RangeInclusiveNew(a, b)
/// RangeInclusiveCopy { start: a, last: b }
/// ```
#[tactic(auto, unfolding(hir_lower_builder::specs::Ranges::range_form))]
#[inline(never)]
pub fn range_form<I: StoreSink, P: LowerAll<I>, E: ExprPart>(
    lowerer: &Lowerer<P>,
    state: &mut BodyBuilder<I>,
    at: InFile<AstPtr>,
    op: Option<RangeOp>,
    start: &E,
    end: &E,
) -> Result<ExprId, StoreError>
    requires start { E.can (P.can lowerer.now.parts) start.now }
    requires end { E.can (P.can lowerer.now.parts) end.now }
    ensures { let rctx = P.rctx lowerer.now.parts in
        let is_new = rctx.answers.new_range rctx.place.module_id in
        let form = of.range_form rctx.answers.lang_items is_new op (E.is_there start.now) (E.is_there end.now) in
        LowersExpr (tree.range_expr at form (E.read rctx start.now) (E.read rctx end.now)) state.old result state.new }
{
    let low = start.lower_if_present(lowerer, state)?;
    let high = end.lower_if_present(lowerer, state)?;
    let made = made_here(lowerer, op, start, end);
    made_of(lowerer.alloc, state, at, made, low, high)
}

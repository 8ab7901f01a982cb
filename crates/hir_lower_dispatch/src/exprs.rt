//! An expression, by its kind.

ghost use Rattle.hir_syntax.specs.declared.ast.ExprKind.{out-ExprKind};
ghost use Rattle.hir_store.specs.Range.{HasNone};
ghost use Rattle.hir_store.specs.declared.diagnostics.ExpressionStoreDiagnostics.TheVariants.{InactiveCode};
ghost use Rattle.hir_env.specs.Whole.{asked_expr, kept_expr};
ghost use Rattle.hir_lower_builder.specs.Families.{IsNoCall};
ghost use Rattle.hir_lower_builder.specs.Lowering as step;
ghost use Rattle.hir_lower_builder.specs.Lowering.{Lowers};
ghost use Rattle.hir_lower_builder.specs.Nests.{KidsExpr};
ghost use Rattle.hir_lower_builder.specs.Methods.{LowersExpr, MaybeLowersExpr};

use crate::families::{
    access_kind, control_kind, leaf_kind, leaving_kind, listing_kind, matching_kind, operator_kind,
    typed_kind,
};
use hir_base::node::{AstPtr, InFile};
use hir_lower_builder::builder::BodyBuilder;
use hir_lower_builder::parts::{LowerAll, Lowerer, site};
use hir_lower_builder::store_sink::StoreSink;
use hir_lower_expr::macros::{call_of, macro_form};
use hir_store::diagnostics::ExpressionStoreDiagnostics;
use hir_store::error::StoreError;
use hir_store::ids::{CfgId, ExprId};
use hir_syntax::ast;

/// The form of an expression that no condition disables, and that is no macro call.
fn expr_form<I: StoreSink, P: LowerAll<I>>(
    lowerer: &Lowerer<P>,
    state: &mut BodyBuilder<I>,
    node: &ast::Expr,
) -> Result<ExprId, StoreError>
    requires call { IsNoCall (out-ExprKind node.now.kind) }
    requires parts { KidsExpr (P.can lowerer.now.parts) (P.rctx lowerer.now.parts).place (out-ExprKind node.now.kind) }
    ensures { LowersExpr (kept_expr (P.rctx lowerer.now.parts) node.now) state.old result state.new }
{
    let at = lowerer.pointer(node.id, node.range);
    match &node.kind {
        ast::ExprKind::IfExpr { .. }
        | ast::ExprKind::BlockExpr(_)
        | ast::ExprKind::LoopExpr { .. }
        | ast::ExprKind::WhileExpr { .. }
        | ast::ExprKind::TryExpr { .. }
        | ast::ExprKind::ContinueExpr { .. }
        | ast::ExprKind::BreakExpr { .. } => control_kind(lowerer, state, at, &node.kind),
        ast::ExprKind::CallExpr { .. }
        | ast::ExprKind::MethodCallExpr { .. }
        | ast::ExprKind::TupleExpr { .. }
        | ast::ExprKind::ArrayExpr { .. }
        | ast::ExprKind::RepeatExpr { .. } => listing_kind(lowerer, state, at, &node.kind),
        ast::ExprKind::ParenExpr { .. }
        | ast::ExprKind::FieldExpr { .. }
        | ast::ExprKind::IndexExpr { .. }
        | ast::ExprKind::RefExpr { .. } => access_kind(lowerer, state, at, &node.kind),
        ast::ExprKind::PrefixExpr { .. }
        | ast::ExprKind::BinExpr { .. }
        | ast::ExprKind::AwaitExpr { .. }
        | ast::ExprKind::RangeExpr { .. } => operator_kind(lowerer, state, at, &node.kind),
        ast::ExprKind::ReturnExpr { .. }
        | ast::ExprKind::BecomeExpr { .. }
        | ast::ExprKind::YieldExpr { .. }
        | ast::ExprKind::YeetExpr { .. } => leaving_kind(lowerer, state, at, &node.kind),
        ast::ExprKind::PathExpr { .. }
        | ast::ExprKind::CastExpr { .. }
        | ast::ExprKind::RecordExpr { .. }
        | ast::ExprKind::OffsetOfExpr { .. } => typed_kind(lowerer, state, at, &node.kind),
        ast::ExprKind::LetExpr { .. }
        | ast::ExprKind::MatchExpr { .. }
        | ast::ExprKind::ForExpr { .. }
        | ast::ExprKind::ClosureExpr { .. } => matching_kind(lowerer, state, at, &node.kind),
        ast::ExprKind::Literal(_)
        | ast::ExprKind::CfgPredExpr { .. }
        | ast::ExprKind::UnderscoreExpr
        | ast::ExprKind::IncludeBytesExpr
        | ast::ExprKind::AsmExpr
        | ast::ExprKind::FormatArgsExpr => leaf_kind(lowerer, state, at, &node.kind),
        ast::ExprKind::MacroExpr { .. } => unreachable!(),
    }
}

/// Tells the condition that disables the node. What is told is large, and stands in no frame in which a part is lowered.
#[inline(never)]
fn report_inactive<I: StoreSink>(
    state: &mut BodyBuilder<I>,
    at: InFile<AstPtr>,
    cfg: CfgId,
) -> Result<(), StoreError>
    ensures { Lowers HasNone (step.report (InactiveCode at cfg)) state.old result state.new }
{
    state.report(ExpressionStoreDiagnostics::InactiveCode { node: at, cfg })
}

/// The expression, none where a condition disables it.
pub fn expr_node<I: StoreSink, P: LowerAll<I>>(
    lowerer: &Lowerer<P>,
    state: &mut BodyBuilder<I>,
    node: &ast::Expr,
) -> Result<Option<ExprId>, StoreError>
    requires { KidsExpr (P.can lowerer.now.parts) (P.rctx lowerer.now.parts).place (out-ExprKind node.now.kind) }
    ensures { MaybeLowersExpr (asked_expr (P.rctx lowerer.now.parts) node.now) state.old result state.new }
{
    let at = lowerer.pointer(node.id, node.range);
    match lowerer.parts.cfg(site(at)) {
        Err(cfg) => {
            report_inactive(state, at, cfg)?;
            Ok(None)
        }
        Ok(()) => match call_of(node) {
            Some(call) => macro_form(lowerer, state, at, call),
            None => Ok(Some(expr_form(lowerer, state, node)?)),
        },
    }
}

//! The kinds of expressions by family: a function that takes all kinds apart would be too much for one proof.

ghost use Rattle.hir_syntax.specs.declared.ast.ExprKind.{out-ExprKind};
ghost use Rattle.hir_lower_builder.specs.Families.{IsAccess, IsControl, IsLeaf, IsLeaving, IsListing, IsMatching};
ghost use Rattle.hir_lower_builder.specs.Families.{IsOperator, IsTyped};
ghost use Rattle.hir_lower_builder.specs.Nests.{KidsExpr};
ghost use Rattle.hir_lower_builder.specs.Methods.{LowersExpr, kind_at};

use hir_base::node::{AstPtr, InFile};
use hir_lower_builder::builder::BodyBuilder;
use hir_lower_builder::parts::{LowerAll, Lowerer};
use hir_lower_builder::store_sink::StoreSink;
use hir_lower_expr::assignments::bin_form;
use hir_lower_expr::blocks::block_form;
use hir_lower_expr::calls::{call_form, method_call_form, paren_form};
use hir_lower_expr::closures::closure_form;
use hir_lower_expr::control::{if_form, loop_form, while_form};
use hir_lower_expr::fors::for_form;
use hir_lower_expr::jumps::{break_form, continue_form};
use hir_lower_expr::leaves::{
    include_bytes_form, left_out_form, literal_form, predicate_form, underscore_form,
};
use hir_lower_expr::leaving::{become_form, return_form, yeet_form, yield_form};
use hir_lower_expr::lets::let_form;
use hir_lower_expr::lists::{array_form, repeat_form, tuple_form};
use hir_lower_expr::matches::match_form;
use hir_lower_expr::operators::{await_form, field_form, index_form, prefix_form, reference_form};
use hir_lower_expr::questions::question_form;
use hir_lower_expr::ranges::range_form;
use hir_lower_expr::records::record_form;
use hir_lower_expr::typed::{cast_form, offset_of_form, path_form};
use hir_store::error::StoreError;
use hir_store::ids::ExprId;
use hir_syntax::ast;

/// Blocks, branches, `?`, loops but `for`, and jumps.
#[tactic(auto, using(crate::proofs::OfFamily::only_control))]
pub(crate) fn control_kind<I: StoreSink, P: LowerAll<I>>(
    lowerer: &Lowerer<P>,
    state: &mut BodyBuilder<I>,
    at: InFile<AstPtr>,
    kind: &ast::ExprKind,
) -> Result<ExprId, StoreError>
    requires family { IsControl (out-ExprKind kind.now) }
    requires parts { KidsExpr (P.can lowerer.now.parts) (P.rctx lowerer.now.parts).place (out-ExprKind kind.now) }
    ensures { LowersExpr (kind_at (P.rctx lowerer.now.parts) at kind.now) state.old result state.new }
{
    match kind {
        ast::ExprKind::IfExpr {
            condition,
            then,
            else_,
        } => if_form(lowerer, state, at, condition, then, else_),
        ast::ExprKind::BlockExpr(block) => block_form(lowerer, state, block.get()),
        ast::ExprKind::LoopExpr { label, body } => loop_form(lowerer, state, at, label, body),
        ast::ExprKind::WhileExpr {
            label,
            condition,
            body,
        } => while_form(lowerer, state, at, label, condition, body),
        ast::ExprKind::TryExpr { expr } => question_form(lowerer, state, at, expr),
        ast::ExprKind::ContinueExpr { lifetime } => continue_form(lowerer, state, at, lifetime),
        ast::ExprKind::BreakExpr { lifetime, expr } => break_form(
            lowerer, state, at, lifetime, expr,
        ),
        _ => unreachable!(),
    }
}

/// What has patterns of its own.
#[tactic(auto, using(crate::proofs::OfFamily::only_matching))]
pub(crate) fn matching_kind<I: StoreSink, P: LowerAll<I>>(
    lowerer: &Lowerer<P>,
    state: &mut BodyBuilder<I>,
    at: InFile<AstPtr>,
    kind: &ast::ExprKind,
) -> Result<ExprId, StoreError>
    requires family { IsMatching (out-ExprKind kind.now) }
    requires parts { KidsExpr (P.can lowerer.now.parts) (P.rctx lowerer.now.parts).place (out-ExprKind kind.now) }
    ensures { LowersExpr (kind_at (P.rctx lowerer.now.parts) at kind.now) state.old result state.new }
{
    match kind {
        ast::ExprKind::LetExpr { pat, expr } => let_form(lowerer, state, at, pat, expr),
        ast::ExprKind::MatchExpr { expr, arms } => match_form(lowerer, state, at, expr, arms),
        ast::ExprKind::ForExpr {
            label,
            pat,
            iterable,
            body,
        } => for_form(lowerer, state, at, label, pat, iterable, body),
        ast::ExprKind::ClosureExpr {
            params,
            ret,
            body,
            async_,
            gen_,
            move_,
            static_,
        } => closure_form(
            lowerer, state, at, params, ret, body, *async_, *gen_, *move_, *static_,
        ),
        _ => unreachable!(),
    }
}

/// What has a list of parts, or one part again and again.
#[tactic(auto, using(crate::proofs::OfFamily::only_listing))]
pub(crate) fn listing_kind<I: StoreSink, P: LowerAll<I>>(
    lowerer: &Lowerer<P>,
    state: &mut BodyBuilder<I>,
    at: InFile<AstPtr>,
    kind: &ast::ExprKind,
) -> Result<ExprId, StoreError>
    requires family { IsListing (out-ExprKind kind.now) }
    requires parts { KidsExpr (P.can lowerer.now.parts) (P.rctx lowerer.now.parts).place (out-ExprKind kind.now) }
    ensures { LowersExpr (kind_at (P.rctx lowerer.now.parts) at kind.now) state.old result state.new }
{
    match kind {
        ast::ExprKind::CallExpr { expr, args } => call_form(lowerer, state, at, expr, args),
        ast::ExprKind::MethodCallExpr {
            receiver,
            name,
            generics,
            args,
        } => method_call_form(lowerer, state, at, receiver, name, generics, args),
        ast::ExprKind::TupleExpr {
            leading_comma,
            fields,
        } => tuple_form(lowerer, state, at, *leading_comma, fields),
        ast::ExprKind::ArrayExpr { elems } => array_form(lowerer, state, at, elems),
        ast::ExprKind::RepeatExpr { init, len } => repeat_form(lowerer, state, at, init, len),
        _ => unreachable!(),
    }
}

/// What stands for a thing in memory, or refers to one.
#[tactic(auto, using(crate::proofs::OfFamily::only_access))]
pub(crate) fn access_kind<I: StoreSink, P: LowerAll<I>>(
    lowerer: &Lowerer<P>,
    state: &mut BodyBuilder<I>,
    at: InFile<AstPtr>,
    kind: &ast::ExprKind,
) -> Result<ExprId, StoreError>
    requires family { IsAccess (out-ExprKind kind.now) }
    requires parts { KidsExpr (P.can lowerer.now.parts) (P.rctx lowerer.now.parts).place (out-ExprKind kind.now) }
    ensures { LowersExpr (kind_at (P.rctx lowerer.now.parts) at kind.now) state.old result state.new }
{
    match kind {
        ast::ExprKind::ParenExpr { expr } => paren_form(lowerer, state, at, expr),
        ast::ExprKind::FieldExpr { expr, name } => field_form(lowerer, state, at, expr, name),
        ast::ExprKind::IndexExpr { base, index } => index_form(lowerer, state, at, base, index),
        ast::ExprKind::RefExpr { raw, mut_, expr } => reference_form(
            lowerer, state, at, *raw, *mut_, expr,
        ),
        _ => unreachable!(),
    }
}

/// What works on the values of operands.
#[tactic(auto, using(crate::proofs::OfFamily::only_operator))]
pub(crate) fn operator_kind<I: StoreSink, P: LowerAll<I>>(
    lowerer: &Lowerer<P>,
    state: &mut BodyBuilder<I>,
    at: InFile<AstPtr>,
    kind: &ast::ExprKind,
) -> Result<ExprId, StoreError>
    requires family { IsOperator (out-ExprKind kind.now) }
    requires parts { KidsExpr (P.can lowerer.now.parts) (P.rctx lowerer.now.parts).place (out-ExprKind kind.now) }
    ensures { LowersExpr (kind_at (P.rctx lowerer.now.parts) at kind.now) state.old result state.new }
{
    match kind {
        ast::ExprKind::PrefixExpr { op, expr } => prefix_form(lowerer, state, at, *op, expr),
        ast::ExprKind::BinExpr { op, lhs, rhs } => bin_form(lowerer, state, at, *op, lhs, rhs),
        ast::ExprKind::AwaitExpr { expr } => await_form(lowerer, state, at, expr),
        ast::ExprKind::RangeExpr { op, start, end } => {
            range_form(lowerer, state, at, *op, start, end)
        }
        _ => unreachable!(),
    }
}

/// What leaves the body, for good or for a while.
#[tactic(auto, using(crate::proofs::OfFamily::only_leaving))]
pub(crate) fn leaving_kind<I: StoreSink, P: LowerAll<I>>(
    lowerer: &Lowerer<P>,
    state: &mut BodyBuilder<I>,
    at: InFile<AstPtr>,
    kind: &ast::ExprKind,
) -> Result<ExprId, StoreError>
    requires family { IsLeaving (out-ExprKind kind.now) }
    requires parts { KidsExpr (P.can lowerer.now.parts) (P.rctx lowerer.now.parts).place (out-ExprKind kind.now) }
    ensures { LowersExpr (kind_at (P.rctx lowerer.now.parts) at kind.now) state.old result state.new }
{
    match kind {
        ast::ExprKind::ReturnExpr { expr } => return_form(lowerer, state, at, expr),
        ast::ExprKind::BecomeExpr { expr } => become_form(lowerer, state, at, expr),
        ast::ExprKind::YieldExpr { expr } => yield_form(lowerer, state, at, expr),
        ast::ExprKind::YeetExpr { expr } => yeet_form(lowerer, state, at, expr),
        _ => unreachable!(),
    }
}

/// What has a path or a type.
#[tactic(auto, using(crate::proofs::OfFamily::only_typed))]
pub(crate) fn typed_kind<I: StoreSink, P: LowerAll<I>>(
    lowerer: &Lowerer<P>,
    state: &mut BodyBuilder<I>,
    at: InFile<AstPtr>,
    kind: &ast::ExprKind,
) -> Result<ExprId, StoreError>
    requires family { IsTyped (out-ExprKind kind.now) }
    requires parts { KidsExpr (P.can lowerer.now.parts) (P.rctx lowerer.now.parts).place (out-ExprKind kind.now) }
    ensures { LowersExpr (kind_at (P.rctx lowerer.now.parts) at kind.now) state.old result state.new }
{
    match kind {
        ast::ExprKind::PathExpr { path } => path_form(lowerer, state, at, path),
        ast::ExprKind::CastExpr { expr, ty } => cast_form(lowerer, state, at, expr, ty),
        ast::ExprKind::RecordExpr { path, list } => record_form(lowerer, state, at, path, list),
        ast::ExprKind::OffsetOfExpr { ty, fields } => offset_of_form(
            lowerer, state, at, ty, fields,
        ),
        _ => unreachable!(),
    }
}

/// What has no part.
#[tactic(auto, using(crate::proofs::OfFamily::only_leaf))]
pub(crate) fn leaf_kind<I: StoreSink, P: LowerAll<I>>(
    lowerer: &Lowerer<P>,
    state: &mut BodyBuilder<I>,
    at: InFile<AstPtr>,
    kind: &ast::ExprKind,
) -> Result<ExprId, StoreError>
    requires family { IsLeaf (out-ExprKind kind.now) }
    requires parts { KidsExpr (P.can lowerer.now.parts) (P.rctx lowerer.now.parts).place (out-ExprKind kind.now) }
    ensures { LowersExpr (kind_at (P.rctx lowerer.now.parts) at kind.now) state.old result state.new }
{
    match kind {
        ast::ExprKind::Literal(written) => literal_form(lowerer, state, at, written),
        ast::ExprKind::CfgPredExpr { pred } => predicate_form(lowerer, state, at, *pred),
        ast::ExprKind::UnderscoreExpr => underscore_form(lowerer, state, at),
        ast::ExprKind::IncludeBytesExpr => include_bytes_form(lowerer, state, at),
        ast::ExprKind::AsmExpr | ast::ExprKind::FormatArgsExpr => left_out_form(lowerer, state, at),
        _ => unreachable!(),
    }
}

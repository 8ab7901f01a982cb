//! Expressions without parts.

ghost use Rattle.hir_env.specs.ResolvedTree as tree;
ghost use Rattle.hir_env.specs.Answering.{truth};
ghost use Rattle.hir_lower_builder.specs.Methods.{LowersExpr};

use hir_base::node::{AstPtr, InFile, PredId};
use hir_lower_builder::builder::BodyBuilder;
use hir_lower_builder::names::{literal, truth_literal};
use hir_lower_builder::parts::{LowerAll, Lowerer};
use hir_lower_builder::store_sink::StoreSink;
use hir_store::error::StoreError;
use hir_store::hir::Expr;
use hir_store::ids::ExprId;
use hir_syntax::ast;

/// A literal.
#[inline(never)]
pub fn literal_form<I: StoreSink, P: LowerAll<I>>(
    lowerer: &Lowerer<P>,
    state: &mut BodyBuilder<I>,
    at: InFile<AstPtr>,
    written: &ast::Literal,
) -> Result<ExprId, StoreError>
    ensures { LowersExpr (tree.literal_expr at written.now) state.old result state.new }
{
    let written = literal(written)?;
    state.alloc_expr(Expr::Literal(written), Some(at))
}

/// A condition predicate is read to what it comes to.
#[inline(never)]
pub fn predicate_form<I: StoreSink, P: LowerAll<I>>(
    lowerer: &Lowerer<P>,
    state: &mut BodyBuilder<I>,
    at: InFile<AstPtr>,
    pred: Option<PredId>,
) -> Result<ExprId, StoreError>
    ensures { let holds = (P.rctx lowerer.now.parts).answers.cfg_pred pred in
        LowersExpr (tree.literal_expr at (truth holds)) state.old result state.new }
{
    let read = truth_literal(lowerer.alloc, lowerer.parts.cfg_pred(pred))?;
    state.alloc_expr(Expr::Literal(read), Some(at))
}

/// `_` where a value stands.
#[inline(never)]
pub fn underscore_form<I: StoreSink, P: LowerAll<I>>(
    lowerer: &Lowerer<P>,
    state: &mut BodyBuilder<I>,
    at: InFile<AstPtr>,
) -> Result<ExprId, StoreError>
    ensures { LowersExpr (tree.leaf_expr at tree.underscore) state.old result state.new }
{
    state.alloc_expr(Expr::Underscore, Some(at))
}

/// `include_bytes!`, whose bytes nobody read.
#[inline(never)]
pub fn include_bytes_form<I: StoreSink, P: LowerAll<I>>(
    lowerer: &Lowerer<P>,
    state: &mut BodyBuilder<I>,
    at: InFile<AstPtr>,
) -> Result<ExprId, StoreError>
    ensures { LowersExpr (tree.leaf_expr at tree.include_bytes) state.old result state.new }
{
    state.alloc_expr(Expr::IncludeBytes, Some(at))
}

/// Inline assembly and format strings are left out, and missing.
#[inline(never)]
pub fn left_out_form<I: StoreSink, P: LowerAll<I>>(
    lowerer: &Lowerer<P>,
    state: &mut BodyBuilder<I>,
    at: InFile<AstPtr>,
) -> Result<ExprId, StoreError>
    ensures { LowersExpr (tree.leaf_expr at tree.left_out) state.old result state.new }
{
    state.alloc_expr(Expr::Missing, Some(at))
}

//! Operators, and what else is done with operands.

ghost use Rattle.std.specs.Prelude.{◌≡◌, ◌≢◌, Some};
ghost use Rattle.hir_base.specs.declared.op.BinaryOp.TheVariants as operator;
ghost use Rattle.hir_env.specs.ResolvedTree as tree;
ghost use Rattle.hir_env.specs.Answering as of;
ghost use Rattle.hir_env.specs.Targets.{resolves};
ghost use Rattle.hir_lower_builder.specs.Methods.{LowersExpr};

use crate::part::ExprPart;
use hir_base::node::{AstPtr, InFile};
use hir_lower_builder::builder::BodyBuilder;
use hir_lower_builder::names::name_of;
use hir_lower_builder::parts::{LowerAll, Lowerer};
use hir_lower_builder::store_sink::StoreSink;
use hir_store::error::StoreError;
use hir_store::hir::{Expr, Mutability, Rawness};
use hir_store::ids::ExprId;
use hir_syntax::ast;

/// What a reference makes.
fn rawness(raw: bool) -> Rawness
    ensures { result ≡ of.rawness raw }
{
    if raw { Rawness::RawPtr } else { Rawness::Ref }
}

fn mutability(is_mut: bool) -> Mutability
    ensures { result ≡ of.mutability is_mut }
{
    if is_mut {
        Mutability::Mut
    } else {
        Mutability::Shared
    }
}

/// A field of a value, by its name.
#[tactic(auto, unfolding(hir_lower_builder::specs::Forms::operand_form))]
#[inline(never)]
pub fn field_form<I: StoreSink, P: LowerAll<I>, E: ExprPart>(
    lowerer: &Lowerer<P>,
    state: &mut BodyBuilder<I>,
    at: InFile<AstPtr>,
    expr: &E,
    name: &Option<ast::Name>,
) -> Result<ExprId, StoreError>
    requires { E.can (P.can lowerer.now.parts) expr.now }
    ensures { LowersExpr (tree.unary_expr at
        (tree.field_of (of.name_or_missing name.now))
        (E.read (P.rctx lowerer.now.parts) expr.now)) state.old result state.new }
{
    let expr = expr.lower(lowerer, state)?;
    let name = name_of(name)?;
    state.alloc_expr(Expr::Field { expr, name }, Some(at))
}

/// Without its operator the expression is missing, and its operand stays.
#[tactic(auto, unfolding(hir_lower_builder::specs::Forms::operand_form))]
#[inline(never)]
pub fn prefix_form<I: StoreSink, P: LowerAll<I>, E: ExprPart>(
    lowerer: &Lowerer<P>,
    state: &mut BodyBuilder<I>,
    at: InFile<AstPtr>,
    op: Option<ast::UnaryOp>,
    expr: &E,
) -> Result<ExprId, StoreError>
    requires { E.can (P.can lowerer.now.parts) expr.now }
    ensures { LowersExpr (of.prefix_expr at op (E.read (P.rctx lowerer.now.parts) expr.now)) state.old result state.new }
{
    let expr = expr.lower(lowerer, state)?;
    match op {
        None => state.alloc_expr(Expr::Missing, Some(at)),
        Some(op) => state.alloc_expr(Expr::UnaryOp { op, expr }, Some(at)),
    }
}

/// A reference to a place, or a raw pointer to one.
#[tactic(auto, unfolding(hir_lower_builder::specs::Forms::operand_form))]
#[inline(never)]
pub fn reference_form<I: StoreSink, P: LowerAll<I>, E: ExprPart>(
    lowerer: &Lowerer<P>,
    state: &mut BodyBuilder<I>,
    at: InFile<AstPtr>,
    raw: bool,
    is_mut: bool,
    expr: &E,
) -> Result<ExprId, StoreError>
    requires { E.can (P.can lowerer.now.parts) expr.now }
    ensures { LowersExpr (tree.unary_expr at
        (tree.reference_to (of.rawness raw) (of.mutability is_mut))
        (E.read (P.rctx lowerer.now.parts) expr.now)) state.old result state.new }
{
    let expr = expr.lower(lowerer, state)?;
    let rawness = rawness(raw);
    let mutability = mutability(is_mut);
    state.alloc_expr(
        Expr::Ref {
            rawness,
            mutability,
            expr,
        },
        Some(at),
    )
}

/// The operands from left to right, whatever the operator, which is no `=`.
#[tactic(auto, using(hir_lower_builder::proofs::Binaries::binary_is), unfolding(hir_lower_builder::specs::Forms::operands_form))]
#[inline(never)]
pub(crate) fn binary_form<I: StoreSink, P: LowerAll<I>, E: ExprPart>(
    lowerer: &Lowerer<P>,
    state: &mut BodyBuilder<I>,
    at: InFile<AstPtr>,
    op: Option<ast::BinaryOp>,
    lhs: &E,
    rhs: &E,
) -> Result<ExprId, StoreError>
    requires lhs { E.can (P.can lowerer.now.parts) lhs.now }
    requires rhs { E.can (P.can lowerer.now.parts) rhs.now }
    requires other { op ≢ Some operator.Assign }
    ensures { let rctx = P.rctx lowerer.now.parts in
        LowersExpr (of.bin_expr (resolves rctx.answers rctx.place) at op
        (E.read rctx lhs.now)
        (E.read rctx rhs.now)) state.old result state.new }
{
    let lhs = lhs.lower(lowerer, state)?;
    let rhs = rhs.lower(lowerer, state)?;
    state.alloc_expr(Expr::BinaryOp { op, lhs, rhs }, Some(at))
}

/// An element: what is indexed, then the index.
#[tactic(auto, unfolding(hir_lower_builder::specs::Forms::operands_form))]
#[inline(never)]
pub fn index_form<I: StoreSink, P: LowerAll<I>, E: ExprPart>(
    lowerer: &Lowerer<P>,
    state: &mut BodyBuilder<I>,
    at: InFile<AstPtr>,
    base: &E,
    index: &E,
) -> Result<ExprId, StoreError>
    requires base { E.can (P.can lowerer.now.parts) base.now }
    requires index { E.can (P.can lowerer.now.parts) index.now }
    ensures { LowersExpr (tree.binary_expr at tree.index_of
        (E.read (P.rctx lowerer.now.parts) base.now)
        (E.read (P.rctx lowerer.now.parts) index.now)) state.old result state.new }
{
    let base = base.lower(lowerer, state)?;
    let index = index.lower(lowerer, state)?;
    state.alloc_expr(Expr::Index { base, index }, Some(at))
}

/// Outside of async code it is a fault, which comes behind those of the operand.
#[tactic(auto, unfolding(hir_lower_builder::specs::Forms::await_form))]
#[inline(never)]
pub fn await_form<I: StoreSink, P: LowerAll<I>, E: ExprPart>(
    lowerer: &Lowerer<P>,
    state: &mut BodyBuilder<I>,
    at: InFile<AstPtr>,
    awaited: &E,
) -> Result<ExprId, StoreError>
    requires { E.can (P.can lowerer.now.parts) awaited.now }
    ensures { LowersExpr (tree.await_expr at
        (P.rctx lowerer.now.parts).place.await_location
        (E.read (P.rctx lowerer.now.parts) awaited.now)) state.old result state.new }
{
    let expr = awaited.lower(lowerer, state)?;
    state.report_await(at, lowerer.parts.place().await_location)?;
    state.alloc_expr(Expr::Await { expr }, Some(at))
}

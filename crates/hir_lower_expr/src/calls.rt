//! Calls, and what stands around an operand.

ghost use Rattle.hir_env.specs.ResolvedTree as tree;
ghost use Rattle.hir_env.specs.Answering.{name_or_missing};
ghost use Rattle.hir_lower_builder.specs.Methods.{LowersExpr};

use crate::part::{ArgsPart, ExprPart, GenericsPart};
use hir_base::node::{AstPtr, InFile};
use hir_lower_builder::builder::BodyBuilder;
use hir_lower_builder::names::name_of;
use hir_lower_builder::parts::{LowerAll, Lowerer};
use hir_lower_builder::store_sink::StoreSink;
use hir_store::error::StoreError;
use hir_store::hir::Expr;
use hir_store::ids::ExprId;
use hir_syntax::ast;

/// A call: the callee, then its arguments first to last.
#[tactic(auto, unfolding(hir_lower_builder::specs::Forms::call_form))]
#[inline(never)]
pub fn call_form<I: StoreSink, P: LowerAll<I>, E: ExprPart, A: ArgsPart>(
    lowerer: &Lowerer<P>,
    state: &mut BodyBuilder<I>,
    at: InFile<AstPtr>,
    callee: &E,
    args: &A,
) -> Result<ExprId, StoreError>
    requires callee { E.can (P.can lowerer.now.parts) callee.now }
    requires args { A.can (P.can lowerer.now.parts) args.now }
    ensures { LowersExpr (tree.call_expr at
        (E.read (P.rctx lowerer.now.parts) callee.now)
        (A.is_there args.now)
        (A.read (P.rctx lowerer.now.parts) args.now)) state.old result state.new }
{
    let callee = callee.lower(lowerer, state)?;
    let args = args.lower(lowerer, state)?;
    state.alloc_expr(Expr::Call { callee, args }, Some(at))
}

/// The generic arguments behind the others.
#[tactic(auto, unfolding(hir_lower_builder::specs::Forms::method_call_form))]
#[inline(never)]
pub fn method_call_form<I: StoreSink, P: LowerAll<I>, E: ExprPart, G: GenericsPart, A: ArgsPart>(
    lowerer: &Lowerer<P>,
    state: &mut BodyBuilder<I>,
    at: InFile<AstPtr>,
    receiver: &E,
    name: &Option<ast::Name>,
    generics: &G,
    args: &A,
) -> Result<ExprId, StoreError>
    requires receiver { E.can (P.can lowerer.now.parts) receiver.now }
    requires generics { G.can (P.can lowerer.now.parts) (P.rctx lowerer.now.parts).place generics.now }
    requires args { A.can (P.can lowerer.now.parts) args.now }
    ensures { LowersExpr (tree.method_call_expr at
        (E.read (P.rctx lowerer.now.parts) receiver.now)
        (name_or_missing name.now)
        (A.read (P.rctx lowerer.now.parts) args.now)
        (G.read (P.rctx lowerer.now.parts) generics.now)) state.old result state.new }
{
    let receiver = receiver.lower(lowerer, state)?;
    let args = args.lower(lowerer, state)?;
    let generic_args = generics.lower(lowerer, state)?;
    let method_name = name_of(name)?;
    let expr = Expr::MethodCall {
        receiver,
        method_name,
        generic_args,
        args,
    };
    state.alloc_expr(expr, Some(at))
}

/// The parentheses lead to what is in them.
#[tactic(auto, unfolding(hir_lower_builder::specs::Forms::paren_form))]
#[inline(never)]
pub fn paren_form<I: StoreSink, P: LowerAll<I>, E: ExprPart>(
    lowerer: &Lowerer<P>,
    state: &mut BodyBuilder<I>,
    at: InFile<AstPtr>,
    inner: &E,
) -> Result<ExprId, StoreError>
    requires { E.can (P.can lowerer.now.parts) inner.now }
    ensures { LowersExpr (tree.paren_expr at (E.read (P.rctx lowerer.now.parts) inner.now)) state.old result state.new }
{
    let id = inner.lower(lowerer, state)?;
    state.point(at, id)?;
    Ok(id)
}

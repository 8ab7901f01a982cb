//! Tuples and arrays.

ghost use Rattle.std.specs.Prelude.{◌≡◌, ◌∷◌, IfOk};
ghost use Rattle.hir_env.specs.ResolvedTree as tree;
ghost use Rattle.hir_lower_builder.specs.Methods.{LowersExpr};

use crate::part::{ConstPart, ExprPart, ListPart};
use hir_base::node::{AstPtr, InFile};
use hir_lower_builder::builder::BodyBuilder;
use hir_lower_builder::parts::{LowerAll, Lowerer};
use hir_lower_builder::store_sink::StoreSink;
use hir_store::error::StoreError;
use hir_store::hir::{Array, Expr};
use hir_store::ids::ExprId;
use hir_syntax::Seq;
use std::alloc::{AllocError, Global};

/// The numbers with one more in front.
fn with_first(alloc: Global, first: ExprId, rest: Seq<ExprId>) -> Result<Seq<ExprId>, AllocError>
    ensures { IfOk result (λ all. all ≡ first ∷ rest) }
{
    let mut all = Seq::new(alloc);
    all.push(first)?;
    all.append(rest)?;
    Ok(all)
}

/// A leading comma stands for a missing element in front, which is made last.
#[tactic(auto, unfolding(hir_lower_builder::specs::Forms::list_form))]
#[inline(never)]
pub fn tuple_form<I: StoreSink, P: LowerAll<I>, F: ListPart>(
    lowerer: &Lowerer<P>,
    state: &mut BodyBuilder<I>,
    at: InFile<AstPtr>,
    leading_comma: bool,
    fields: &F,
) -> Result<ExprId, StoreError>
    requires { F.can (P.can lowerer.now.parts) fields.now }
    ensures { LowersExpr (tree.list_expr at
        (tree.tuple_of leading_comma)
        (F.read (P.rctx lowerer.now.parts) fields.now)) state.old result state.new }
{
    let exprs = fields.lower(lowerer, state)?;
    if !leading_comma {
        return state.alloc_expr(Expr::Tuple { exprs }, Some(at));
    }
    let first = state.missing_expr()?;
    let exprs = with_first(lowerer.alloc, first, exprs)?;
    state.alloc_expr(Expr::Tuple { exprs }, Some(at))
}

/// An array of listed elements, first to last.
#[tactic(auto, unfolding(hir_lower_builder::specs::Forms::list_form))]
#[inline(never)]
pub fn array_form<I: StoreSink, P: LowerAll<I>, F: ListPart>(
    lowerer: &Lowerer<P>,
    state: &mut BodyBuilder<I>,
    at: InFile<AstPtr>,
    elems: &F,
) -> Result<ExprId, StoreError>
    requires { F.can (P.can lowerer.now.parts) elems.now }
    ensures { LowersExpr (tree.list_expr at
        tree.array_of
        (F.read (P.rctx lowerer.now.parts) elems.now)) state.old result state.new }
{
    let elements = elems.lower(lowerer, state)?;
    state.alloc_expr(Expr::Array(Array::ElementList { elements }), Some(at))
}

/// An array of one element again and again: the element, then how often.
#[tactic(auto, unfolding(hir_lower_builder::specs::Forms::repeat_form))]
#[inline(never)]
pub fn repeat_form<I: StoreSink, P: LowerAll<I>, E: ExprPart, C: ConstPart>(
    lowerer: &Lowerer<P>,
    state: &mut BodyBuilder<I>,
    at: InFile<AstPtr>,
    init: &E,
    len: &C,
) -> Result<ExprId, StoreError>
    requires init { E.can (P.can lowerer.now.parts) init.now }
    requires len { C.can (P.can lowerer.now.parts) (P.rctx lowerer.now.parts).place len.now }
    ensures { let rctx = P.rctx lowerer.now.parts in
        LowersExpr (tree.repeat_expr at (E.read rctx init.now) (C.read rctx len.now)) state.old result state.new }
{
    let initializer = init.lower(lowerer, state)?;
    let repeat = len.lower(lowerer, state)?;
    let array = Array::Repeat {
        initializer,
        repeat,
    };
    state.alloc_expr(Expr::Array(array), Some(at))
}

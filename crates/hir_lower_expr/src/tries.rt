//! `try` blocks. With a written type the block is the value of a `let` with that type, in a block around it.

ghost use Rattle.hir_store.specs.Range.{HasExpr};
ghost use Rattle.hir_env.specs.ResolvedTree as tree;
ghost use Rattle.hir_env.specs.Whole.{resolved_type, type_part};
ghost use Rattle.hir_lower_builder.specs.Lowering.{Lowers};
ghost use Rattle.hir_lower_builder.specs.Methods.{try_steps_at};
ghost use Rattle.hir_lower_builder.specs.Nests.{IfPresent};

use crate::written::WrittenBlock;
use hir_lower_builder::builder::BodyBuilder;
use hir_lower_builder::parts::{BlockRole, LowerAll, Lowerer};
use hir_lower_builder::store_sink::StoreSink;
use hir_store::error::StoreError;
use hir_store::hir::BindingAnnotation;
use hir_store::ids::ExprId;
use hir_syntax::{Boxed, ast};

/// The name is made up before the type is lowered, which stands outside of the block.
#[tactic(auto, unfolding(hir_lower_builder::specs::Made::typed_try_form))]
#[inline(never)]
fn typed_try<I: StoreSink, P: LowerAll<I>>(
    lowerer: &Lowerer<P>,
    state: &mut BodyBuilder<I>,
    ty: &ast::Type_,
    node: &ast::BlockExpr,
) -> Result<ExprId, StoreError>
    requires block { (P.can lowerer.now.parts).block (P.rctx lowerer.now.parts).place node.now }
    requires ty { (P.can lowerer.now.parts).type_ (P.rctx lowerer.now.parts).place ty.now }
    ensures { let rctx = P.rctx lowerer.now.parts in
        Lowers HasExpr (try_steps_at rctx (tree.some_type (resolved_type rctx ty.now)) node.now) state.old result state.new }
{
    let item = lowerer.parts.lang_items().try_trait_from_output;
    let role = BlockRole::Try { item, typed: true };
    let block = node.lower(lowerer, state, role)?;
    let number = state.made_number()?;
    let place = lowerer.parts.place();
    let type_ref = lowerer.parts.lower_type(state, place, &None, ty)?;
    let pat = state.made_bind(BindingAnnotation::Unannotated, number)?;
    let at = lowerer.pointer(node.id, node.range);
    let tail = state.made_path(lowerer.alloc, at, number)?;
    state.bound_block(lowerer.alloc, at, pat, type_ref, block, tail)
}

/// A `try` block, whose type may be absent.
///
/// `try { s; t }` becomes, and within it `try: T { s; t }`
///
/// ```text
/// 'try: { s; from_output(t) }
/// { let made: T = 'try: { s; from_output(t) }; made }
/// ```
pub(crate) fn try_form<I: StoreSink, P: LowerAll<I>>(
    lowerer: &Lowerer<P>,
    state: &mut BodyBuilder<I>,
    ty: &Option<Boxed<ast::Type_>>,
    node: &ast::BlockExpr,
) -> Result<ExprId, StoreError>
    requires block { (P.can lowerer.now.parts).block (P.rctx lowerer.now.parts).place node.now }
    requires ty { IfPresent ((P.can lowerer.now.parts).type_ (P.rctx lowerer.now.parts).place) ty.now }
    ensures { let rctx = P.rctx lowerer.now.parts in
        Lowers HasExpr (try_steps_at rctx (type_part rctx ty.now) node.now) state.old result state.new }
{
    match ty {
        None => {
            let item = lowerer.parts.lang_items().try_trait_from_output;
            let role = BlockRole::Try { item, typed: false };
            node.lower(lowerer, state, role)
        }
        Some(ty) => typed_try(lowerer, state, ty.get(), node),
    }
}

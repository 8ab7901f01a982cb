//! A type, by its kind.

ghost use Rattle.hir_syntax.specs.declared.types.TypeKind.{out-TypeKind};
ghost use Rattle.hir_env.specs.Whole.{type_level};
ghost use Rattle.hir_lower_builder.specs.Methods.{LowersType};
ghost use Rattle.hir_lower_builder.specs.Nests.{KidsType};

use crate::calls::call_form;
use crate::functions::fn_form;
use crate::simple::{
    array_form, dyn_form, error_form, for_form, impl_form, infer_form, never_form, path_form,
    pattern_form, pointer_form, ref_form, slice_form, tuple_form,
};
use hir_lower_builder::builder::BodyBuilder;
use hir_lower_builder::parts::{LowerExprs, Lowerer};
use hir_lower_builder::store_sink::StoreSink;
use hir_store::error::StoreError;
use hir_store::ids::TypeRefId;
use hir_store::name::Name;
use hir_syntax::{Seq, ast};

/// A type that is read here, with the names of the `for<..>` directly around it, where one stands there.
pub fn type_node<I: StoreSink, P: LowerExprs<I>>(
    lowerer: &Lowerer<P>,
    state: &mut BodyBuilder<I>,
    binder: &Option<Seq<Name>>,
    node: &ast::Type_,
) -> Result<TypeRefId, StoreError>
    requires { KidsType (P.can lowerer.now.parts) (P.rctx lowerer.now.parts).place (out-TypeKind node.now.kind) }
    ensures { LowersType binder.now (type_level (P.rctx lowerer.now.parts) node.now) state.old result state.new }
{
    let at = lowerer.pointer(node.id, node.range);
    match &node.kind {
        ast::TypeKind::ParenType { ty } => {
            lowerer.type_or_error(state, lowerer.parts.place(), binder, ty)
        }
        ast::TypeKind::ForType { binder: own, ty } => for_form(lowerer, state, own, ty),
        ast::TypeKind::SliceType { ty } => slice_form(lowerer, state, at, ty),
        ast::TypeKind::PtrType { mut_, ty } => pointer_form(lowerer, state, at, *mut_, ty),
        ast::TypeKind::RefType { lifetime, mut_, ty } => {
            ref_form(lowerer, state, at, lifetime, *mut_, ty)
        }
        ast::TypeKind::ArrayType { ty, len } => array_form(lowerer, state, at, ty, len),
        ast::TypeKind::TupleType { fields } => tuple_form(lowerer, state, at, fields),
        ast::TypeKind::PathType { path } => path_form(lowerer, state, at, path),
        ast::TypeKind::FnPtrType {
            unsafe_,
            abi,
            params,
            ret,
        } => fn_form(lowerer, state, at, binder, *unsafe_, abi, params, ret),
        ast::TypeKind::ImplTraitType { bounds } => impl_form(lowerer, state, at, bounds),
        ast::TypeKind::DynTraitType { bounds } => dyn_form(lowerer, state, at, bounds),
        ast::TypeKind::PatternType { ty, pat } => pattern_form(lowerer, state, at, ty, pat),
        ast::TypeKind::MacroType { call: None } => error_form(state, at),
        ast::TypeKind::MacroType { call: Some(call) } => {
            call_form(lowerer, state, at, binder, call)
        }
        ast::TypeKind::NeverType => never_form(state, at),
        ast::TypeKind::InferType => infer_form(state, at),
    }
}

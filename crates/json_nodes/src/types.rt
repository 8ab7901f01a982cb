//! Types.

ghost use Rattle.std.specs.Prelude.{◌≡◌};
ghost use Rattle.json_nodes.specs.Kept.{Kept};
ghost use Rattle.json_nodes.specs.Types as spec;

use crate::code_parts::MacroCalls;
use crate::field::flag;
use crate::fields::{All, AllIfThere, Fields, InBox, One, Written};
use crate::name_parts::Lifetimes;
use crate::param_parts::{Params, Pats};
use crate::part::whole;
use crate::path_parts::{ConstArgs, Paths};
use crate::type_parts::{Binders, Bounds, Rets, TypePart, Types};
use hir_syntax::ast::{PathType, TypeKind};
use json_errors::kind::TypeNode;

#[inline(never)]
#[tactic(auto, unfolding(crate::specs::Types::over_types))]
fn over_types<F: Fields>(node: &F, refused: &mut bool, kind: TypeNode) -> Option<TypePart>
    requires { F.can node.now }
    ensures { Kept refused.old refused.new (result ≡ spec.over_types (F.here node.now) kind) }
{
    match kind {
        TypeNode::ParenType => {
            let ty = node.field::<InBox<Types>>(refused, "ty");
            whole::<Types, F>(node, refused, TypeKind::ParenType { ty })
        }
        TypeNode::SliceType => {
            let ty = node.field::<InBox<Types>>(refused, "ty");
            whole::<Types, F>(node, refused, TypeKind::SliceType { ty })
        }
        TypeNode::TupleType => {
            let fields = node.field::<All<Types>>(refused, "fields");
            whole::<Types, F>(node, refused, TypeKind::TupleType { fields })
        }
        TypeNode::PtrType => {
            let ty = node.field::<InBox<Types>>(refused, "ty");
            let mut_ = flag(node.value(), "mut");
            whole::<Types, F>(node, refused, TypeKind::PtrType { mut_, ty })
        }
        _ => None,
    }
}

#[inline(never)]
#[tactic(auto, unfolding(crate::specs::Types::function_pointer))]
fn function_pointer<F: Fields>(node: &F, refused: &mut bool) -> TypeKind
    requires { F.can node.now }
    ensures { Kept refused.old refused.new (result ≡ spec.function_pointer (F.here node.now)) }
{
    let abi = node.field::<Written>(refused, "abi");
    let params = node.field::<AllIfThere<Params>>(refused, "params");
    let ret = node.field::<One<Rets>>(refused, "ret");
    TypeKind::FnPtrType {
        unsafe_: flag(node.value(), "unsafe"),
        abi,
        params,
        ret,
    }
}

/// A type with a part of another group beside its type, or in its place.
#[inline(never)]
#[tactic(auto, unfolding(crate::specs::Types::beside_types))]
fn beside_types<F: Fields>(node: &F, refused: &mut bool, kind: TypeNode) -> Option<TypePart>
    requires { F.can node.now }
    ensures { Kept refused.old refused.new (result ≡ spec.beside_types (F.here node.now) kind) }
{
    match kind {
        TypeNode::RefType => {
            let lifetime = node.field::<One<Lifetimes>>(refused, "lifetime");
            let ty = node.field::<InBox<Types>>(refused, "ty");
            let mut_ = flag(node.value(), "mut");
            whole::<Types, F>(node, refused, TypeKind::RefType { lifetime, mut_, ty })
        }
        TypeNode::ArrayType => {
            let ty = node.field::<InBox<Types>>(refused, "ty");
            let len = node.field::<One<ConstArgs>>(refused, "len");
            whole::<Types, F>(node, refused, TypeKind::ArrayType { ty, len })
        }
        TypeNode::FnPtrType => {
            let kind = function_pointer(node, refused);
            whole::<Types, F>(node, refused, kind)
        }
        TypeNode::ForType => {
            let binder = node.field::<One<Binders>>(refused, "binder");
            let ty = node.field::<InBox<Types>>(refused, "ty");
            whole::<Types, F>(node, refused, TypeKind::ForType { binder, ty })
        }
        TypeNode::PatternType => {
            let ty = node.field::<InBox<Types>>(refused, "ty");
            let pat = node.field::<InBox<Pats>>(refused, "pat");
            whole::<Types, F>(node, refused, TypeKind::PatternType { ty, pat })
        }
        TypeNode::MacroType => {
            let call = node.field::<One<MacroCalls>>(refused, "call");
            whole::<Types, F>(node, refused, TypeKind::MacroType { call })
        }
        _ => None,
    }
}

#[inline(never)]
#[tactic(auto, unfolding(crate::specs::Types::bounded))]
fn bounded<F: Fields>(node: &F, refused: &mut bool, kind: TypeNode) -> Option<TypePart>
    requires { F.can node.now }
    ensures { Kept refused.old refused.new (result ≡ spec.bounded (F.here node.now) kind) }
{
    match kind {
        TypeNode::ImplTraitType => {
            let bounds = node.field::<All<Bounds>>(refused, "bounds");
            whole::<Types, F>(node, refused, TypeKind::ImplTraitType { bounds })
        }
        TypeNode::DynTraitType => {
            let bounds = node.field::<All<Bounds>>(refused, "bounds");
            whole::<Types, F>(node, refused, TypeKind::DynTraitType { bounds })
        }
        TypeNode::NeverType => whole::<Types, F>(node, refused, TypeKind::NeverType),
        TypeNode::InferType => whole::<Types, F>(node, refused, TypeKind::InferType),
        _ => None,
    }
}

/// A type that is no path.
pub fn of_type<F: Fields>(node: &F, refused: &mut bool, kind: TypeNode) -> Option<TypePart>
    requires { F.can node.now }
    ensures { Kept refused.old refused.new (result ≡ spec.of_type (F.here node.now) kind) }
{
    match kind {
        TypeNode::ParenType | TypeNode::SliceType | TypeNode::TupleType | TypeNode::PtrType =>
            over_types(node, refused, kind),
        TypeNode::RefType
        | TypeNode::ArrayType
        | TypeNode::FnPtrType
        | TypeNode::ForType
        | TypeNode::PatternType
        | TypeNode::MacroType => beside_types(node, refused, kind),
        TypeNode::ImplTraitType
        | TypeNode::DynTraitType
        | TypeNode::NeverType
        | TypeNode::InferType => bounded(node, refused, kind),
    }
}

/// A path as a type, which is told from other types, since it may also name a trait.
#[tactic(auto, unfolding(crate::specs::Types::of_path_type))]
pub fn of_path_type<F: Fields>(node: &F, refused: &mut bool) -> Option<TypePart>
    requires { F.can node.now }
    ensures { Kept refused.old refused.new (result ≡ spec.of_path_type (F.here node.now)) }
{
    let path = node.field::<InBox<Paths>>(refused, "path");
    Some(TypePart::PathType(PathType {
        id: node.id(),
        range: node.range(),
        path,
    }))
}

//! Lifetimes and types.

ghost use Rattle.std.specs.Prelude.{OnOk};
ghost use Rattle.thm_result_json.specs.Types as forms;
ghost use Rattle.store_json.specs.Append.{Appends};

use crate::form::{ToJson, field};
use crate::kinds::{alone, kind, kind_then, kind_then_two, then_kind};
use hir_store::ids::{GenericDefId, TypeParamId};
use hir_store::type_ref::{FnType, LifetimeRef, RefType, TypeRef};
use json::Writer;
use std::alloc::AllocError;

impl ToJson for LifetimeRef {
    ghost codec = { forms.lifetime };

    fn write(&self, out: &mut Writer) -> Result<(), AllocError> {
        match self {
            LifetimeRef::Named(name) => kind_then(out, "Named", "name", name),
            LifetimeRef::Static => alone(out, "Static"),
            LifetimeRef::Placeholder => alone(out, "Placeholder"),
            LifetimeRef::Error => alone(out, "Error"),
        }
    }
}

impl ToJson for GenericDefId {
    ghost codec = { forms.generic_def };

    fn write(&self, out: &mut Writer) -> Result<(), AllocError> {
        match self {
            GenericDefId::AdtId(id) => then_kind(out, "id", id, "AdtId"),
            GenericDefId::ConstId(id) => then_kind(out, "id", id, "ConstId"),
            GenericDefId::FunctionId(id) => then_kind(out, "id", id, "FunctionId"),
            GenericDefId::ImplId(id) => then_kind(out, "id", id, "ImplId"),
            GenericDefId::StaticId(id) => then_kind(out, "id", id, "StaticId"),
            GenericDefId::TraitId(id) => then_kind(out, "id", id, "TraitId"),
            GenericDefId::TypeAliasId(id) => then_kind(out, "id", id, "TypeAliasId"),
        }
    }
}

impl ToJson for TypeParamId {
    ghost codec = { forms.type_param_id };

    fn write(&self, out: &mut Writer) -> Result<(), AllocError> {
        out.begin_object()?;
        field(out, "local_id", &self.local_id)?;
        field(out, "parent", &self.parent)?;
        out.end_object()
    }
}

impl ToJson for TypeRef {
    ghost codec = { forms.type_ref };

    fn write(&self, out: &mut Writer) -> Result<(), AllocError> {
        match self {
            TypeRef::Never => alone(out, "Never"),
            TypeRef::Placeholder => alone(out, "Placeholder"),
            TypeRef::Error => alone(out, "Error"),
            TypeRef::Tuple(types) => kind_then(out, "Tuple", "types", types),
            TypeRef::Path(path) => kind_then(out, "Path", "path", path),
            TypeRef::RawPtr(ty, mutability) => {
                kind_then_two(out, "RawPtr", ("mutability", mutability), ("ty", ty))
            }
            TypeRef::Reference(reference) => write_reference(out, reference),
            TypeRef::Slice(ty) => kind_then(out, "Slice", "ty", ty),
            TypeRef::Array(array) => {
                kind_then_two(out, "Array", ("len", &array.len), ("ty", &array.ty))
            }
            TypeRef::Fn(pointer) => write_fn(out, pointer),
            TypeRef::ImplTrait(bounds) => then_kind(out, "bounds", bounds, "ImplTrait"),
            TypeRef::DynTrait(bounds) => then_kind(out, "bounds", bounds, "DynTrait"),
            TypeRef::Pattern(ty, pat) => kind_then_two(out, "Pattern", ("pat", pat), ("ty", ty)),
            TypeRef::TypeParam(param) => kind_then_two(
                out,
                "TypeParam",
                ("local_id", &param.local_id),
                ("parent", &param.parent),
            ),
        }
    }
}

/// Writes a reference.
fn write_reference(out: &mut Writer, reference: &RefType) -> Result<(), AllocError>
    ensures { OnOk result (Appends ((forms.type_ref).to (TypeRef.Reference reference.now)) out.old out.new) }
{
    out.begin_object()?;
    kind(out, "Reference")?;
    field(out, "lifetime", &reference.lifetime)?;
    field(out, "mutability", &reference.mutability)?;
    field(out, "ty", &reference.ty)?;
    out.end_object()
}

/// Writes a function pointer.
fn write_fn(out: &mut Writer, pointer: &FnType) -> Result<(), AllocError>
    ensures { OnOk result (Appends ((forms.type_ref).to (TypeRef.Fn pointer.now)) out.old out.new) }
{
    out.begin_object()?;
    field(out, "abi", &pointer.abi)?;
    field(out, "binder", &pointer.binder)?;
    field(out, "is_unsafe", &pointer.is_unsafe)?;
    field(out, "is_varargs", &pointer.is_varargs)?;
    kind(out, "Fn")?;
    field(out, "names", &pointer.names)?;
    field(out, "params", &pointer.params)?;
    out.end_object()
}

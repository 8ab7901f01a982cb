//! Generic parameters, and what is asked of types and lifetimes.

ghost use Rattle.std.specs.Prelude.{OnOk};
ghost use Rattle.thm_result_json.specs.Params as forms;
ghost use Rattle.thm_result_json.specs.Numbers as numbers;
ghost use Rattle.thm_result_json.specs.Codec.{listing};
ghost use Rattle.store_json.specs.Append.{Appends};

use crate::form::{ToJson, field, write_list};
use crate::kinds::kind;
use hir_store::generics::{
    ConstParamData, GenericParams, LifetimeParamData, TypeOrConstParamData, TypeParamData,
    WherePredicate,
};
use hir_store::ids::{LifetimeRefId, TypeRefId};
use hir_store::shared::SharedNames;
use hir_store::type_ref::TypeBound;
use json::Writer;
use std::alloc::AllocError;

impl ToJson for SharedNames {
    ghost codec = { listing numbers.name };

    fn write(&self, out: &mut Writer) -> Result<(), AllocError> {
        write_list(out, self.as_slice())
    }
}

impl ToJson for TypeOrConstParamData {
    ghost codec = { forms.param };

    fn write(&self, out: &mut Writer) -> Result<(), AllocError> {
        match self {
            TypeOrConstParamData::TypeParamData(param) => write_type_param(out, param),
            TypeOrConstParamData::ConstParamData(param) => write_const_param(out, param),
        }
    }
}

/// Writes a type parameter.
fn write_type_param(out: &mut Writer, param: &TypeParamData) -> Result<(), AllocError>
    ensures { OnOk result (Appends ((forms.param).to (TypeOrConstParamData.TypeParamData param.now)) out.old out.new) }
{
    out.begin_object()?;
    field(out, "default", &param.default)?;
    kind(out, "TypeParamData")?;
    field(out, "name", &param.name)?;
    field(out, "provenance", &param.provenance)?;
    out.end_object()
}

/// Writes a constant parameter.
fn write_const_param(out: &mut Writer, param: &ConstParamData) -> Result<(), AllocError>
    ensures { OnOk result (Appends ((forms.param).to (TypeOrConstParamData.ConstParamData param.now)) out.old out.new) }
{
    out.begin_object()?;
    field(out, "default", &param.default)?;
    kind(out, "ConstParamData")?;
    field(out, "name", &param.name)?;
    field(out, "ty", &param.ty)?;
    out.end_object()
}

impl ToJson for LifetimeParamData {
    ghost codec = { forms.lifetime_param };

    fn write(&self, out: &mut Writer) -> Result<(), AllocError> {
        out.begin_object()?;
        field(out, "bound_type", &self.bound_type)?;
        field(out, "name", &self.name)?;
        out.end_object()
    }
}

impl ToJson for WherePredicate {
    ghost codec = { forms.predicate };

    fn write(&self, out: &mut Writer) -> Result<(), AllocError> {
        match self {
            WherePredicate::TypeBound {
                lifetimes,
                target,
                bound,
            } => write_type_bound(out, lifetimes, target, bound),
            WherePredicate::Lifetime { target, bound } => write_lifetime_bound(out, target, bound),
        }
    }
}

/// Writes what is asked of a type.
fn write_type_bound(
    out: &mut Writer,
    lifetimes: &Option<SharedNames>,
    target: &TypeRefId,
    bound: &TypeBound,
) -> Result<(), AllocError>
    ensures { OnOk result (Appends ((forms.predicate).to (WherePredicate.TypeBound lifetimes.now target.now bound.now)) out.old out.new) }
{
    out.begin_object()?;
    field(out, "bound", bound)?;
    kind(out, "TypeBound")?;
    field(out, "lifetimes", lifetimes)?;
    field(out, "target", target)?;
    out.end_object()
}

/// Writes what is asked of a lifetime.
fn write_lifetime_bound(
    out: &mut Writer,
    target: &LifetimeRefId,
    bound: &LifetimeRefId,
) -> Result<(), AllocError>
    ensures { OnOk result (Appends ((forms.predicate).to (WherePredicate.Lifetime target.now bound.now)) out.old out.new) }
{
    out.begin_object()?;
    field(out, "bound", bound)?;
    kind(out, "Lifetime")?;
    field(out, "target", target)?;
    out.end_object()
}

impl ToJson for GenericParams {
    ghost codec = { forms.generic_params };

    fn write(&self, out: &mut Writer) -> Result<(), AllocError> {
        out.begin_object()?;
        field(
            out,
            "early_bound_lifetimes_len",
            &self.early_bound_lifetimes_len,
        )?;
        field(out, "lifetimes", &self.lifetimes)?;
        field(out, "type_or_consts", &self.type_or_consts)?;
        field(out, "where_predicates", &self.where_predicates)?;
        out.end_object()
    }
}

//! What each entry function answers, as a text.

ghost use Rattle.std.specs.Prelude.{◌≡◌, IfOk, OnOk, Some, option_and_then, string_bytes};
ghost use Rattle.serde_json.specs.Read.{read};
ghost use Rattle.serde_json.specs.Written.{compact_text};
ghost use Rattle.thm_result_json.specs.Results as forms;
ghost use Rattle.store_json.specs.Append.{Appends};

use crate::form::{ToJson, field};
use crate::whole::text_of;
use hir_base::Seq;
use hir_base::node::{AstPtr, InFile};
use hir_store::generics::GenericParams;
use hir_store::ids::{BindingId, PatId, TypeRefId};
use hir_store::param::Param;
use hir_store::path::Path;
use hir_store::source_map::ExpressionStoreSourceMap;
use hir_store::store::ExpressionStore;
use hir_store::type_ref::{TraitRef, TypeBound};
use json::Writer;
use std::alloc::{AllocError, Global};

impl<T: ToJson> ToJson for Param<T> {
    ghost codec = { forms.formal T.codec };

    fn write(&self, out: &mut Writer) -> Result<(), AllocError> {
        out.begin_object()?;
        field(out, "formal", &self.formal)?;
        field(out, "user_written", &self.user_written)?;
        out.end_object()
    }
}

impl ToJson for TraitRef {
    ghost codec = { forms.trait_ref };

    fn write(&self, out: &mut Writer) -> Result<(), AllocError> {
        self.path.write(out)
    }
}

/// Writes the result of a body with its parameters and its `self` behind what stands there.
pub fn write_body(
    out: &mut Writer,
    store: &ExpressionStore,
    source_map: &ExpressionStoreSourceMap,
    params: &Seq<Param<PatId>>,
    self_param: &Option<Param<BindingId>>,
    self_node: &Option<InFile<AstPtr>>,
) -> Result<(), AllocError>
    ensures { OnOk result (Appends ((forms.body).to (store.now, source_map.now, params.now, self_param.now, self_node.now))
        out.old out.new) }
{
    out.begin_object()?;
    field(out, "format", &1_u32)?;
    field(out, "params", params)?;
    field(out, "self_node", self_node)?;
    field(out, "self_param", self_param)?;
    field(out, "source_map", source_map)?;
    field(out, "store", store)?;
    out.end_object()
}

/// The result of a body with its parameters and its `self` as a text, which reads back as it.
pub fn body_to_json(
    alloc: Global,
    store: &ExpressionStore,
    source_map: &ExpressionStoreSourceMap,
    params: &Seq<Param<PatId>>,
    self_param: &Option<Param<BindingId>>,
    self_node: &Option<InFile<AstPtr>>,
) -> Result<String, AllocError>
    ensures text { IfOk result (λ s. string_bytes s ≡ compact_text ((forms.body).to
        (store.now, source_map.now, params.now, self_param.now, self_node.now))) }
    ensures reads_back { IfOk result (λ s. option_and_then (forms.body).from (read (string_bytes s))
        ≡ Some (store.now, source_map.now, params.now, self_param.now, self_node.now)) }
{
    let mut out = Writer::new(Vec::with_capacity(alloc, 128)?);
    write_body(&mut out, store, source_map, params, self_param, self_node)?;
    text_of(out)
}

/// Writes the result of a type behind what stands there.
pub fn write_type(
    out: &mut Writer,
    store: &ExpressionStore,
    source_map: &ExpressionStoreSourceMap,
    type_ref: TypeRefId,
) -> Result<(), AllocError>
    ensures { OnOk result (Appends ((forms.type_result).to (store.now, source_map.now, type_ref))
        out.old out.new) }
{
    out.begin_object()?;
    field(out, "format", &1_u32)?;
    field(out, "source_map", source_map)?;
    field(out, "store", store)?;
    field(out, "type_ref", &type_ref)?;
    out.end_object()
}

/// The result of a type as a text, which reads back as it.
pub fn type_to_json(
    alloc: Global,
    store: &ExpressionStore,
    source_map: &ExpressionStoreSourceMap,
    type_ref: TypeRefId,
) -> Result<String, AllocError>
    ensures text { IfOk result (λ s. string_bytes s ≡ compact_text ((forms.type_result).to
        (store.now, source_map.now, type_ref))) }
    ensures reads_back { IfOk result (λ s. option_and_then (forms.type_result).from (read (string_bytes s))
        ≡ Some (store.now, source_map.now, type_ref)) }
{
    let mut out = Writer::new(Vec::with_capacity(alloc, 128)?);
    write_type(&mut out, store, source_map, type_ref)?;
    text_of(out)
}

/// Writes the result of a path, which may be refused, behind what stands there.
pub fn write_path(
    out: &mut Writer,
    store: &ExpressionStore,
    source_map: &ExpressionStoreSourceMap,
    path: &Option<Path>,
) -> Result<(), AllocError>
    ensures { OnOk result (Appends ((forms.path_result).to (store.now, source_map.now, path.now)) out.old out.new) }
{
    out.begin_object()?;
    field(out, "format", &1_u32)?;
    field(out, "path", path)?;
    field(out, "source_map", source_map)?;
    field(out, "store", store)?;
    out.end_object()
}

/// The result of a path as a text, which reads back as it.
pub fn path_to_json(
    alloc: Global,
    store: &ExpressionStore,
    source_map: &ExpressionStoreSourceMap,
    path: &Option<Path>,
) -> Result<String, AllocError>
    ensures text { IfOk result (λ s. string_bytes s ≡ compact_text ((forms.path_result).to
        (store.now, source_map.now, path.now))) }
    ensures reads_back { IfOk result (λ s. option_and_then (forms.path_result).from (read (string_bytes s))
        ≡ Some (store.now, source_map.now, path.now)) }
{
    let mut out = Writer::new(Vec::with_capacity(alloc, 128)?);
    write_path(&mut out, store, source_map, path)?;
    text_of(out)
}

/// Writes the result of the generic parameters of an item or a trait behind what stands there.
pub fn write_generics(
    out: &mut Writer,
    store: &ExpressionStore,
    source_map: &ExpressionStoreSourceMap,
    generic_params: &GenericParams,
) -> Result<(), AllocError>
    ensures { OnOk result (Appends ((forms.generics).to (store.now, source_map.now, generic_params.now))
        out.old out.new) }
{
    out.begin_object()?;
    field(out, "format", &1_u32)?;
    field(out, "generic_params", generic_params)?;
    field(out, "source_map", source_map)?;
    field(out, "store", store)?;
    out.end_object()
}

/// The result of the generic parameters of an item or a trait as a text, which reads back as it.
pub fn generics_to_json(
    alloc: Global,
    store: &ExpressionStore,
    source_map: &ExpressionStoreSourceMap,
    generic_params: &GenericParams,
) -> Result<String, AllocError>
    ensures text { IfOk result (λ s. string_bytes s ≡ compact_text ((forms.generics).to
        (store.now, source_map.now, generic_params.now))) }
    ensures reads_back { IfOk result (λ s. option_and_then (forms.generics).from (read (string_bytes s))
        ≡ Some (store.now, source_map.now, generic_params.now)) }
{
    let mut out = Writer::new(Vec::with_capacity(alloc, 128)?);
    write_generics(&mut out, store, source_map, generic_params)?;
    text_of(out)
}

/// Writes the result of an `impl` behind what stands there.
pub fn write_impl(
    out: &mut Writer,
    store: &ExpressionStore,
    source_map: &ExpressionStoreSourceMap,
    self_ty: TypeRefId,
    trait_ref: Option<TraitRef>,
    generic_params: &GenericParams,
) -> Result<(), AllocError>
    ensures { OnOk result (Appends ((forms.impl_result).to (store.now, source_map.now, self_ty, trait_ref, generic_params.now))
        out.old out.new) }
{
    out.begin_object()?;
    field(out, "format", &1_u32)?;
    field(out, "generic_params", generic_params)?;
    field(out, "self_ty", &self_ty)?;
    field(out, "source_map", source_map)?;
    field(out, "store", store)?;
    field(out, "trait_ref", &trait_ref)?;
    out.end_object()
}

/// The result of an `impl` as a text, which reads back as it.
pub fn impl_to_json(
    alloc: Global,
    store: &ExpressionStore,
    source_map: &ExpressionStoreSourceMap,
    self_ty: TypeRefId,
    trait_ref: Option<TraitRef>,
    generic_params: &GenericParams,
) -> Result<String, AllocError>
    ensures text { IfOk result (λ s. string_bytes s ≡ compact_text ((forms.impl_result).to
        (store.now, source_map.now, self_ty, trait_ref, generic_params.now))) }
    ensures reads_back { IfOk result (λ s. option_and_then (forms.impl_result).from (read (string_bytes s))
        ≡ Some (store.now, source_map.now, self_ty, trait_ref, generic_params.now)) }
{
    let mut out = Writer::new(Vec::with_capacity(alloc, 128)?);
    write_impl(
        &mut out,
        store,
        source_map,
        self_ty,
        trait_ref,
        generic_params,
    )?;
    text_of(out)
}

/// Writes the result of a type alias behind what stands there.
pub fn write_alias(
    out: &mut Writer,
    store: &ExpressionStore,
    source_map: &ExpressionStoreSourceMap,
    generic_params: &GenericParams,
    bounds: &Seq<TypeBound>,
    type_ref: Option<TypeRefId>,
) -> Result<(), AllocError>
    ensures { OnOk result (Appends ((forms.alias).to (store.now, source_map.now, generic_params.now, bounds.now, type_ref))
        out.old out.new) }
{
    out.begin_object()?;
    field(out, "bounds", bounds)?;
    field(out, "format", &1_u32)?;
    field(out, "generic_params", generic_params)?;
    field(out, "source_map", source_map)?;
    field(out, "store", store)?;
    field(out, "type_ref", &type_ref)?;
    out.end_object()
}

/// The result of a type alias as a text, which reads back as it.
pub fn alias_to_json(
    alloc: Global,
    store: &ExpressionStore,
    source_map: &ExpressionStoreSourceMap,
    generic_params: &GenericParams,
    bounds: &Seq<TypeBound>,
    type_ref: Option<TypeRefId>,
) -> Result<String, AllocError>
    ensures text { IfOk result (λ s. string_bytes s ≡ compact_text ((forms.alias).to
        (store.now, source_map.now, generic_params.now, bounds.now, type_ref))) }
    ensures reads_back { IfOk result (λ s. option_and_then (forms.alias).from (read (string_bytes s))
        ≡ Some (store.now, source_map.now, generic_params.now, bounds.now, type_ref)) }
{
    let mut out = Writer::new(Vec::with_capacity(alloc, 128)?);
    write_alias(
        &mut out,
        store,
        source_map,
        generic_params,
        bounds,
        type_ref,
    )?;
    text_of(out)
}

/// Writes the result of a function behind what stands there.
pub fn write_function(
    out: &mut Writer,
    store: &ExpressionStore,
    source_map: &ExpressionStoreSourceMap,
    generic_params: &GenericParams,
    args: &Seq<TypeRefId>,
    ret: Option<TypeRefId>,
    has_self: bool,
    has_variadic: bool,
) -> Result<(), AllocError>
    ensures { OnOk result (Appends ((forms.function).to
        (store.now, source_map.now, generic_params.now, args.now, ret, has_self, has_variadic)) out.old out.new) }
{
    out.begin_object()?;
    field(out, "args", args)?;
    field(out, "format", &1_u32)?;
    field(out, "generic_params", generic_params)?;
    field(out, "has_self", &has_self)?;
    field(out, "has_variadic", &has_variadic)?;
    field(out, "ret", &ret)?;
    field(out, "source_map", source_map)?;
    field(out, "store", store)?;
    out.end_object()
}

/// The result of a function as a text, which reads back as it.
pub fn function_to_json(
    alloc: Global,
    store: &ExpressionStore,
    source_map: &ExpressionStoreSourceMap,
    generic_params: &GenericParams,
    args: &Seq<TypeRefId>,
    ret: Option<TypeRefId>,
    has_self: bool,
    has_variadic: bool,
) -> Result<String, AllocError>
    ensures text { IfOk result (λ s. string_bytes s ≡ compact_text ((forms.function).to
        (store.now, source_map.now, generic_params.now, args.now, ret, has_self, has_variadic))) }
    ensures reads_back { IfOk result (λ s. option_and_then (forms.function).from (read (string_bytes s))
        ≡ Some (store.now, source_map.now, generic_params.now, args.now, ret, has_self, has_variadic)) }
{
    let mut out = Writer::new(Vec::with_capacity(alloc, 128)?);
    write_function(
        &mut out,
        store,
        source_map,
        generic_params,
        args,
        ret,
        has_self,
        has_variadic,
    )?;
    text_of(out)
}

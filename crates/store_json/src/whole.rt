//! The store, the source map, and both as one text.

ghost use Rattle.std.specs.Prelude.{◌≡◌, ◌++◌, IfOk, OnOk, Some, map, option_and_then, string_bytes};
ghost use Rattle.json.specs.Lex.{tokens};
ghost use Rattle.json.specs.Print.{print};
ghost use Rattle.serde_json.specs.Read.{read};
ghost use Rattle.serde_json.specs.Written.{compact_text};
ghost use Rattle.thm_result_json.specs.Codec.{listing};
ghost use Rattle.thm_result_json.specs.Maps as forms;
ghost use Rattle.thm_result_json.specs.Whole.{whole};
ghost use Rattle.store_json.specs.Append.{Appends, AppendsMember};

use crate::form::{ToJson, field, list_field};
use hir_store::arena::Entry;
use hir_store::numbered::Numbered;
use hir_store::source_map::ExpressionStoreSourceMap;
use hir_store::store::ExpressionStore;
use json::Writer;
use std::alloc::{AllocError, Global};

/// Writes the entries of a store as a list.
fn write_entries<T: Entry + ToJson>(
    out: &mut Writer,
    entries: Numbered<'_, T>,
) -> Result<(), AllocError>
    ensures { OnOk result (Appends ((listing T.codec).to (map (λ x. x.1) entries.entry)) out.old out.new) }
{
    out.begin_array()?;
    for (_, entry) in entries {
        entry.write(out)?;
    }
    out.end_array()
}

/// Writes a member that has the entries of a store.
fn entries_field<T: Entry + ToJson>(
    out: &mut Writer,
    key: &str,
    entries: Numbered<'_, T>,
) -> Result<(), AllocError>
    ensures { OnOk result (AppendsMember key.now ((listing T.codec).to (map (λ x. x.1) entries.entry)) out.old out.new) }
{
    out.key(key)?;
    write_entries(out, entries)
}

impl ToJson for ExpressionStore {
    ghost codec = { forms.store };

    fn write(&self, out: &mut Writer) -> Result<(), AllocError> {
        let every_lifetime = self.lifetimes();
        out.begin_object()?;
        list_field(out, "binding_owners", self.binding_owners())?;
        entries_field(out, "bindings", self.bindings())?;
        entries_field(out, "exprs", self.exprs())?;
        entries_field(out, "labels", self.labels())?;
        entries_field(out, "lifetimes", every_lifetime)?;
        entries_field(out, "pats", self.pats())?;
        list_field(out, "roots", self.expr_roots())?;
        entries_field(out, "types", self.types())?;
        out.end_object()
    }
}

impl ToJson for ExpressionStoreSourceMap {
    ghost codec = { forms.source_map };

    fn write(&self, out: &mut Writer) -> Result<(), AllocError> {
        out.begin_object()?;
        list_field(out, "binding_definitions", self.definitions())?;
        list_field(out, "block_scopes", self.block_scopes())?;
        list_field(out, "diagnostics", self.diagnostics())?;
        list_field(out, "expansions", self.expansions())?;
        list_field(out, "expr_map", self.expr_entries())?;
        list_field(out, "expr_sources", self.expr_sources())?;
        list_field(out, "field_map_back", self.field_entries())?;
        list_field(out, "label_map", self.label_entries())?;
        list_field(out, "label_sources", self.label_sources())?;
        list_field(out, "lifetime_map", self.lifetime_entries())?;
        list_field(out, "lifetime_sources", self.lifetime_sources())?;
        list_field(out, "pat_field_map_back", self.pat_field_entries())?;
        list_field(out, "pat_map", self.pat_entries())?;
        list_field(out, "pat_sources", self.pat_sources())?;
        list_field(out, "target_map", self.target_entries())?;
        list_field(out, "type_sources", self.type_sources())?;
        list_field(out, "types_map", self.type_entries())?;
        out.end_object()
    }
}

/// Writes a store and its source map behind what stands there.
pub fn write_json(
    out: &mut Writer,
    store: &ExpressionStore,
    source_map: &ExpressionStoreSourceMap,
) -> Result<(), AllocError>
    ensures { OnOk result (Appends ((whole).to (store.now, source_map.now)) out.old out.new) }
{
    out.begin_object()?;
    field(out, "format", &1_u32)?;
    field(out, "source_map", source_map)?;
    field(out, "store", store)?;
    out.end_object()
}

/// What was written, as a text.
pub fn text_of(out: Writer) -> Result<String, AllocError>
    ensures text { IfOk result (λ s. string_bytes s ≡ out.before ++ print out.tokens) }
    ensures tokens { tokens (print out.tokens) ≡ out.tokens }
{
    match String::from_utf8(out.into_inner()) {
        Ok(text) => Ok(text),
        Err(_) => Err(AllocError),
    }
}

/// The store and its source map as a text. It reads back as these, so two results with one text are one.
pub fn to_json(
    alloc: Global,
    store: &ExpressionStore,
    source_map: &ExpressionStoreSourceMap,
) -> Result<String, AllocError>
    ensures text { IfOk result (λ s. string_bytes s ≡ compact_text ((whole).to (store.now, source_map.now))) }
    ensures reads_back { IfOk result (λ s. option_and_then (whole).from (read (string_bytes s)) ≡ Some (store.now, source_map.now)) }
{
    let mut out = Writer::new(Vec::with_capacity(alloc, 128)?);
    write_json(&mut out, store, source_map)?;
    text_of(out)
}

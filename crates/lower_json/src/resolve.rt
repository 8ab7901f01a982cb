//! What paths stand for.

ghost use Rattle.std.specs.Prelude.{◌≡◌, IfOk, OnOk, Some};
ghost use Rattle.serde_json.specs.View.{view, items_view};
ghost use Rattle.serde_json.specs.Find.{as_array};
ghost use Rattle.json_errors.specs.Values.{is_alias_word, small_of};
ghost use Rattle.json_errors.specs.ByWord.{with_word};
ghost use Rattle.lower_json.specs.Tables as spec;
ghost use Rattle.lower_json.specs.Tables.{alias_of, number_or_null, resolution_of, resolution_word, resolutions};
ghost use Rattle.lower_json.specs.Tables.{resolved_of, with_paths};

use crate::path_text::mod_path;
use crate::tables::number_or_null;
use hir_env::resolved::{Resolution, Resolved, TypeAliasId};
use hir_store::ids::ModuleId;
use hir_store::path::ModPath;
use hir_tables::table::TablesOf;
use json_errors::value::{is_alias_word, small};
use serde_json::Value;
use std::alloc::{AllocError, Global};

fn resolution_with(word: &str) -> Option<Resolution>
    ensures { result ≡ with_word resolution_word resolutions word.now }
{
    match word {
        "module" => Some(Resolution::Module),
        "function" => Some(Resolution::Function),
        "struct" => Some(Resolution::Struct),
        "union" => Some(Resolution::Union),
        "enum" => Some(Resolution::Enum),
        "variant" => Some(Resolution::Variant),
        "const" => Some(Resolution::Const),
        "static" => Some(Resolution::Static),
        "trait" => Some(Resolution::Trait),
        "builtin" => Some(Resolution::BuiltinType),
        _ => None,
    }
}

fn numbered_alias(word: &Value, number: &Value) -> Option<Resolution>
    ensures { result ≡ spec.numbered_alias (is_alias_word (view word.now)) (small_of (view number.now)) }
{
    if !is_alias_word(word) {
        return None;
    }
    Some(Resolution::TypeAlias(TypeAliasId(small(number)?)))
}

#[tactic(auto, using(crate::proofs::Tuples::alias_under_two, crate::proofs::Tuples::alias_over_two))]
fn alias(items: &[Value]) -> Option<Resolution>
    ensures { result ≡ alias_of (Some (items_view items.now)) }
{
    match items {
        [word, number] => numbered_alias(word, number),
        _ => None,
    }
}

/// What a path stands for, or nothing where null stands.
fn resolution(value: &Value) -> Option<Option<Resolution>>
    ensures { result ≡ resolution_of (view value.now) }
{
    match value {
        Value::Null => Some(None),
        Value::String(word) => Some(Some(resolution_with(word.as_str())?)),
        Value::Array(items) => Some(Some(alias(items.as_slice())?)),
        _ => None,
    }
}

fn resolved(types: &Value, values: &Value, rest: &Value) -> Option<Resolved>
    ensures { result ≡ resolved_of (resolution_of (view types.now)) (resolution_of (view values.now)) (number_or_null (view rest.now)) }
{
    Some(Resolved {
        types: resolution(types)?,
        values: resolution(values)?,
        rest: number_or_null(rest)?,
    })
}

fn module(value: &Value) -> Option<ModuleId>
    ensures { result ≡ spec.module_of (small_of (view value.now)) }
{
    Some(ModuleId(small(value)?))
}

/// What is said, behind a path, of it.
fn meaning(
    inside: &Value,
    types: &Value,
    values: &Value,
    rest: &Value,
) -> Option<(ModuleId, Resolved)>
    ensures { result ≡ spec.both (spec.module_of (small_of (view inside.now)))
        (resolved_of (resolution_of (view types.now)) (resolution_of (view values.now)) (number_or_null (view rest.now))) }
{
    Some((module(inside)?, resolved(types, values, rest)?))
}

/// The path that a text is.
pub fn path(alloc: Global, value: &Value) -> Result<Option<ModPath>, AllocError>
    ensures { IfOk result (λ path. path ≡ spec.path_in (view value.now)) }
{
    match value.as_str() {
        Some(text) => Ok(Some(mod_path(alloc, text)?)),
        None => Ok(None),
    }
}

/// The same with a path.
fn said_with(
    alloc: Global,
    text: &Value,
    meaning: Option<(ModuleId, Resolved)>,
) -> Result<Option<(ModPath, (ModuleId, Resolved))>, AllocError>
    ensures { IfOk result (λ said. said ≡ spec.both (spec.path_in (view text.now)) meaning) }
{
    let Some(path) = path(alloc, text)? else {
        return Ok(None);
    };
    match meaning {
        Some(meaning) => Ok(Some((path, meaning))),
        None => Ok(None),
    }
}

/// What an entry says of a path.
fn said_in(
    alloc: Global,
    items: &[Value],
) -> Result<Option<(ModPath, (ModuleId, Resolved))>, AllocError>
    ensures { IfOk result (λ said. said ≡ spec.said_of (Some (items_view items.now))) }
{
    match items {
        [inside, path, types, values, rest] => {
            said_with(alloc, path, meaning(inside, types, values, rest))
        }
        _ => Ok(None),
    }
}

fn said(alloc: Global, entry: &Value) -> Result<Option<(ModPath, (ModuleId, Resolved))>, AllocError>
    ensures { IfOk result (λ said. said ≡ spec.said_of (as_array (view entry.now))) }
{
    match entry.as_array() {
        Some(items) => said_in(alloc, items.as_slice()),
        None => Ok(None),
    }
}

/// Says of each path what the entries say.
pub fn resolve_all<M>(
    alloc: Global,
    tables: &mut TablesOf<M>,
    entries: &[Value],
) -> Result<(), AllocError>
    ensures entries { OnOk result (tables.new.paths ≡ with_paths (items_view entries.now) tables.old.paths) }
    ensures others { OnOk result (tables.new ≡ record tables.old { paths = tables.new.paths }) }
{
    for entry in entries {
        if let Some((path, (inside, resolved))) = said(alloc, entry)? {
            tables.set_resolved(inside, path, resolved)?;
        }
    }
    Ok(())
}

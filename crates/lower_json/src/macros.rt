//! What macro calls are expanded to, and the definitions of macros.

ghost use Rattle.std.specs.Prelude.{◌≡◌, IfOk, OnOk, Some, option_map};
ghost use Rattle.serde_json.specs.View.{view, items_view};
ghost use Rattle.json_errors.specs.Values.{small_of};
ghost use Rattle.hir_tables.specs.declared.table.MacroAnswer.TheVariants as answer;
ghost use Rattle.lower_json.specs.Macros as spec;
ghost use Rattle.lower_json.specs.Macros.{answer_in, call_in, name_in, with_definitions, with_expansions, with_legacy};
ghost use Rattle.lower_json.specs.Tables.{both, path_in};

use crate::resolve::path;
use crate::tables::site;
use crate::tree::fragment_at;
use hir_base::node::{HirFileId, InFile, NodeId};
use hir_base::{Seq, Text};
use hir_store::ids::{MacroDefId, ModuleId};
use hir_store::name::Name;
use hir_tables::table::{MacroAnswer, TableEnv, TablesOf};
use json_errors::kind::Kind;
use json_errors::members::NodeList;
use json_errors::value::small;
use serde_json::Value;
use std::alloc::{AllocError, Global};

/// The call that an entry is for.
#[tactic(auto, using(crate::proofs::Tuples::call_under_two))]
fn call_in(entry: &[Value]) -> Option<InFile<NodeId>>
    ensures { result ≡ call_in (Some (items_view entry.now)) }
{
    match entry {
        [file, node, ..] => site(file, node),
        _ => None,
    }
}

fn unresolved(alloc: Global, text: &Value) -> Result<Option<MacroAnswer>, AllocError>
    ensures { IfOk result (λ a. a ≡ option_map answer.Unresolved (path_in (view text.now))) }
{
    match path(alloc, text)? {
        Some(path) => Ok(Some(MacroAnswer::Unresolved(path))),
        None => Ok(None),
    }
}

/// What is said of a call that is expanded in a file, nothing where the file is no number. A null root names no tree.
fn expanded(
    alloc: Global,
    kinds: &[Option<Kind>],
    nodes: &NodeList<'_>,
    file: &Value,
    root: &Value,
) -> Result<Option<MacroAnswer>, AllocError>
    ensures { IfOk result (λ a. a ≡ spec.expanded_in (small_of (view file.now))
        (spec.tree_in kinds.now (items_view nodes.now.nodes.now) (view root.now))) }
{
    let Some(file) = small(file) else {
        return Ok(None);
    };
    let root = match small(root) {
        Some(root) => fragment_at(alloc, kinds, nodes, root)?,
        None => None,
    };
    Ok(Some(MacroAnswer::Expanded {
        file: HirFileId(file),
        root,
        eager: Seq::new(alloc),
    }))
}

/// What an entry says of its call.
fn answer_in(
    alloc: Global,
    kinds: &[Option<Kind>],
    nodes: &NodeList<'_>,
    entry: &[Value],
) -> Result<Option<MacroAnswer>, AllocError>
    ensures { IfOk result (λ a. a ≡ answer_in kinds.now (items_view nodes.now.nodes.now) (Some (items_view entry.now))) }
{
    match entry {
        [_file, _node, _word] => Ok(Some(MacroAnswer::NoExpansion)),
        [_file, _node, _word, path] => unresolved(alloc, path),
        [_file, _node, _word, new, root] => expanded(alloc, kinds, nodes, new, root),
        _ => Ok(None),
    }
}

/// Says of a call what the entry says. Where something is said of it already no tree is read.
#[tactic(auto, using(crate::proofs::Said::said_before))]
fn expand(
    alloc: Global,
    tables: &mut TableEnv,
    kinds: &[Option<Kind>],
    nodes: &NodeList<'_>,
    entry: &[Value],
) -> Result<(), AllocError>
    ensures entry { OnOk result (tables.new.macros
        ≡ spec.with_expansion kinds.now (items_view nodes.now.nodes.now) (Some (items_view entry.now)) tables.old.macros) }
    ensures others { OnOk result (tables.new ≡ record tables.old { macros = tables.new.macros }) }
{
    let Some(call) = call_in(entry) else {
        return Ok(());
    };
    if tables.has_macro(call) {
        return Ok(());
    }
    match answer_in(alloc, kinds, nodes, entry)? {
        Some(answer) => tables.set_macro(call, answer),
        None => Ok(()),
    }
}

/// Says of each call what the entries say.
pub fn expand_all(
    alloc: Global,
    tables: &mut TableEnv,
    kinds: &[Option<Kind>],
    nodes: &NodeList<'_>,
    entries: &[Value],
) -> Result<(), AllocError>
    ensures entries { OnOk result (tables.new.macros
        ≡ with_expansions kinds.now (items_view nodes.now.nodes.now) (items_view entries.now) tables.old.macros) }
    ensures others { OnOk result (tables.new ≡ record tables.old { macros = tables.new.macros }) }
{
    for entry in entries {
        if let Some(entry) = entry.as_array() {
            expand(alloc, tables, kinds, nodes, entry.as_slice())?;
        }
    }
    Ok(())
}

/// The name that a text is. No text stands for the missing name.
fn name(alloc: Global, text: &Value) -> Result<Option<Name>, AllocError>
    ensures { IfOk result (λ name. name ≡ name_in (view text.now)) }
{
    match text.as_str() {
        Some(text) => Ok(Some(Name::Text(Text::new(alloc, text)?))),
        None => Ok(None),
    }
}

/// What is said of a name, with the name.
fn said_with<T: Copy>(
    alloc: Global,
    text: &Value,
    said: Option<T>,
) -> Result<Option<(Name, T)>, AllocError>
    ensures { IfOk result (λ named. named ≡ both (name_in (view text.now)) said) }
{
    let Some(name) = name(alloc, text)? else {
        return Ok(None);
    };
    match said {
        Some(said) => Ok(Some((name, said))),
        None => Ok(None),
    }
}

fn definition(inside: &Value, def: &Value) -> Option<(ModuleId, MacroDefId)>
    ensures { result ≡ spec.definition_in (small_of (view inside.now)) (small_of (view def.now)) }
{
    Some((ModuleId(small(inside)?), MacroDefId(small(def)?)))
}

fn legacy_definition(
    inside: &Value,
    place: &Value,
    def: &Value,
) -> Option<(u32, (ModuleId, MacroDefId))>
    ensures { result ≡ both (small_of (view place.now))
        (spec.definition_in (small_of (view inside.now)) (small_of (view def.now))) }
{
    Some((small(place)?, definition(inside, def)?))
}

/// What an entry says of a macro in a module.
#[tactic(auto, using(crate::proofs::Tuples::defined_under_three, crate::proofs::Tuples::defined_over_three))]
fn defined(
    alloc: Global,
    entry: &[Value],
) -> Result<Option<(Name, (ModuleId, MacroDefId))>, AllocError>
    ensures { IfOk result (λ said. said ≡ spec.defined_of (Some (items_view entry.now))) }
{
    match entry {
        [inside, name, def] => said_with(alloc, name, definition(inside, def)),
        _ => Ok(None),
    }
}

/// What an entry says of a macro that `macro_rules` has defined.
#[tactic(auto, using(crate::proofs::Tuples::legacy_under_four, crate::proofs::Tuples::legacy_over_four))]
fn legacy(
    alloc: Global,
    entry: &[Value],
) -> Result<Option<(Name, (u32, (ModuleId, MacroDefId)))>, AllocError>
    ensures { IfOk result (λ said. said ≡ spec.legacy_of (Some (items_view entry.now))) }
{
    match entry {
        [inside, name, place, def] => {
            said_with(alloc, name, legacy_definition(inside, place, def))
        }
        _ => Ok(None),
    }
}

/// Gives each macro of a module the number that the entries say.
pub fn define_all<M>(
    alloc: Global,
    tables: &mut TablesOf<M>,
    entries: &[Value],
) -> Result<(), AllocError>
    ensures entries { OnOk result (tables.new.macro_defs ≡ with_definitions (items_view entries.now) tables.old.macro_defs) }
    ensures others { OnOk result (tables.new ≡ record tables.old { macro_defs = tables.new.macro_defs }) }
{
    for entry in entries {
        if let Some(entry) = entry.as_array() {
            if let Some((name, (inside, def))) = defined(alloc, entry.as_slice())? {
                tables.set_macro_def(inside, name, def)?;
            }
        }
    }
    Ok(())
}

/// Gives each macro that `macro_rules` has defined the number that the entries say.
pub fn define_legacy<M>(
    alloc: Global,
    tables: &mut TablesOf<M>,
    entries: &[Value],
) -> Result<(), AllocError>
    ensures entries { OnOk result (tables.new.legacy ≡ with_legacy (items_view entries.now) tables.old.legacy) }
    ensures others { OnOk result (tables.new ≡ record tables.old { legacy = tables.new.legacy }) }
{
    for entry in entries {
        if let Some(entry) = entry.as_array() {
            if let Some((name, (place, (inside, def)))) = legacy(alloc, entry.as_slice())? {
                tables.set_legacy(inside, name, place, def)?;
            }
        }
    }
    Ok(())
}

//! The tables of a document.

ghost use Rattle.std.specs.Prelude.{◌≡◌, Some, IfOk, OnOk, codes};
ghost use Rattle.serde_json.specs.View.{view, items_view};
ghost use Rattle.serde_json.specs.Find.{as_array, as_bool, get};
ghost use Rattle.json_errors.specs.Values.{small_of};
ghost use Rattle.hir_tables.specs.Tables.{with_context, with_first, with_pred};
ghost use Rattle.lower_json.specs.Tables.{site_of, triple_of, quadruple_of, both, disabled_of, named_of, numbered_of};
ghost use Rattle.lower_json.specs.Environment.{with_tables, tables_of};
ghost use Rattle.lower_json.specs.Tables.{decision_of, decided_of, number_or_null, with_all, rows};
ghost use Rattle.lower_json.specs.Tables.{context_id_of, outer_macro_of, crate_root_of, frame_of, context_of};

use crate::lang::lang_items;
use crate::macros::{define_all, define_legacy, expand_all};
use crate::resolve::resolve_all;
use hir_base::node::{HirFileId, InFile, NodeId, PredId};
use hir_store::ids::{
    BlockId, CfgId, CrateId, CtxId, HygieneId, ItemContainerId, MacroDefId, ModuleId,
};
use hir_tables::table::{Context, TableEnv, TablesOf};
use json_errors::kind::Kind;
use json_errors::members::NodeList;
use json_errors::value::small;
use json_nodes::field::{flag_in, number_in};
use serde_json::Value;
use std::alloc::{AllocError, Global};

/// The node of a number in a file.
pub fn site(file: &Value, node: &Value) -> Option<InFile<NodeId>>
    ensures { result ≡ site_of (small_of (view file.now)) (small_of (view node.now)) }
{
    Some(InFile {
        file_id: HirFileId(small(file)?),
        value: NodeId(small(node)?),
    })
}

#[tactic(auto, using(crate::proofs::Tuples::under_three, crate::proofs::Tuples::over_three))]
fn triple(items: &[Value]) -> Option<(InFile<NodeId>, u32)>
    ensures { result ≡ triple_of (Some (items_view items.now)) }
{
    match items {
        [file, node, last] => Some((site(file, node)?, small(last)?)),
        _ => None,
    }
}

fn two(first: &Value, second: &Value) -> Option<(u32, u32)>
    ensures { result ≡ both (small_of (view first.now)) (small_of (view second.now)) }
{
    Some((small(first)?, small(second)?))
}

#[tactic(auto, using(crate::proofs::Tuples::under_four, crate::proofs::Tuples::over_four))]
fn quadruple(items: &[Value]) -> Option<(InFile<NodeId>, (u32, u32))>
    ensures { result ≡ quadruple_of (Some (items_view items.now)) }
{
    match items {
        [file, node, first, second] => Some((site(file, node)?, two(first, second)?)),
        _ => None,
    }
}

fn disabled(entry: &Value) -> Option<(InFile<NodeId>, CfgId)>
    ensures { result ≡ disabled_of (as_array (view entry.now)) }
{
    let (node, by) = triple(entry.as_array()?.as_slice())?;
    Some((node, CfgId(by)))
}

fn named(entry: &Value) -> Option<(InFile<NodeId>, HygieneId)>
    ensures { result ≡ named_of (as_array (view entry.now)) }
{
    let (node, hygiene) = triple(entry.as_array()?.as_slice())?;
    Some((node, HygieneId(hygiene)))
}

fn numbered(entry: &Value) -> Option<(InFile<NodeId>, (BlockId, ModuleId))>
    ensures { result ≡ numbered_of (as_array (view entry.now)) }
{
    let (node, (block, inside)) = quadruple(entry.as_array()?.as_slice())?;
    Some((node, (BlockId(block), ModuleId(inside))))
}

fn decision(value: &Value) -> Option<Option<bool>>
    ensures { result ≡ decision_of (view value.now) }
{
    match value {
        Value::Bool(holds) => Some(Some(*holds)),
        Value::Null => Some(None),
        _ => None,
    }
}

#[tactic(auto, using(crate::proofs::Tuples::under_two, crate::proofs::Tuples::over_two))]
fn pair(items: &[Value]) -> Option<(PredId, Option<bool>)>
    ensures { result ≡ decided_of (Some (items_view items.now)) }
{
    match items {
        [pred, holds] => Some((PredId(small(pred)?), decision(holds)?)),
        _ => None,
    }
}

fn decided(entry: &Value) -> Option<(PredId, Option<bool>)>
    ensures { result ≡ decided_of (as_array (view entry.now)) }
{
    pair(entry.as_array()?.as_slice())
}

/// A number, or none where null stands.
pub fn number_or_null(value: &Value) -> Option<Option<u32>>
    ensures { result ≡ number_or_null (view value.now) }
{
    match value {
        Value::Null => Some(None),
        _ => Some(Some(small(value)?)),
    }
}

fn context_id(value: &Value) -> Option<CtxId>
    ensures { result ≡ context_id_of (small_of (view value.now)) }
{
    Some(CtxId(small(value)?))
}

fn outer_macro(value: &Value) -> Option<Option<MacroDefId>>
    ensures { result ≡ outer_macro_of (number_or_null (view value.now)) }
{
    match number_or_null(value)? {
        Some(number) => Some(Some(MacroDefId(number))),
        None => Some(None),
    }
}

fn crate_root(value: &Value) -> Option<Option<CrateId>>
    ensures { result ≡ crate_root_of (number_or_null (view value.now)) }
{
    match number_or_null(value)? {
        Some(number) => Some(Some(CrateId(number))),
        None => Some(None),
    }
}

fn frame(
    parent: &Value,
    opaque: &Value,
    outer: &Value,
    local: &Value,
    root: &Value,
) -> Option<Context>
    ensures { result ≡ frame_of (small_of (view parent.now)) (small_of (view opaque.now))
        (outer_macro_of (number_or_null (view outer.now))) (as_bool (view local.now)) (crate_root_of (number_or_null (view root.now))) }
{
    Some(Context {
        parent: CtxId(small(parent)?),
        opaque: HygieneId(small(opaque)?),
        outer_macro: outer_macro(outer)?,
        local_inner: local.as_bool()?,
        crate_root: crate_root(root)?,
    })
}

/// What an entry says of a context.
#[tactic(auto, using(crate::proofs::Tuples::under_six, crate::proofs::Tuples::over_six))]
fn context_with(items: &[Value]) -> Option<(CtxId, Context)>
    ensures { result ≡ context_of (Some (items_view items.now)) }
{
    match items {
        [context, parent, opaque, outer, local, root] => Some((
            context_id(context)?,
            frame(parent, opaque, outer, local, root)?,
        )),
        _ => None,
    }
}

fn context(entry: &Value) -> Option<(CtxId, Context)>
    ensures { result ≡ context_of (as_array (view entry.now)) }
{
    context_with(entry.as_array()?.as_slice())
}

fn disable_all<M>(tables: &mut TablesOf<M>, entries: &[Value]) -> Result<(), AllocError>
    ensures entries { OnOk result (tables.new.disabled ≡ with_all with_first disabled_of (items_view entries.now) tables.old.disabled) }
    ensures others { OnOk result (tables.new ≡ record tables.old { disabled = tables.new.disabled }) }
{
    for entry in entries {
        if let Some((node, by)) = disabled(entry) {
            tables.disable(node, by)?;
        }
    }
    Ok(())
}

fn decide_all<M>(tables: &mut TablesOf<M>, entries: &[Value]) -> Result<(), AllocError>
    ensures entries { OnOk result (tables.new.preds ≡ with_all with_pred decided_of (items_view entries.now) tables.old.preds) }
    ensures others { OnOk result (tables.new ≡ record tables.old { preds = tables.new.preds }) }
{
    for entry in entries {
        if let Some((pred, holds)) = decided(entry) {
            tables.decide(pred, holds)?;
        }
    }
    Ok(())
}

fn name_all<M>(tables: &mut TablesOf<M>, entries: &[Value]) -> Result<(), AllocError>
    ensures entries { OnOk result (tables.new.hygiene ≡ with_all with_first named_of (items_view entries.now) tables.old.hygiene) }
    ensures others { OnOk result (tables.new ≡ record tables.old { hygiene = tables.new.hygiene }) }
{
    for entry in entries {
        if let Some((node, hygiene)) = named(entry) {
            tables.set_hygiene(node, hygiene)?;
        }
    }
    Ok(())
}

fn frame_all<M>(tables: &mut TablesOf<M>, entries: &[Value]) -> Result<(), AllocError>
    ensures entries { let es = items_view entries.now in
        OnOk result (tables.new.contexts ≡ with_all with_context context_of es tables.old.contexts) }
    ensures others { OnOk result (tables.new ≡ record tables.old { contexts = tables.new.contexts }) }
{
    for entry in entries {
        if let Some((context, of)) = context(entry) {
            tables.set_context(context, of)?;
        }
    }
    Ok(())
}

fn number_all<M>(tables: &mut TablesOf<M>, entries: &[Value]) -> Result<(), AllocError>
    ensures entries { OnOk result (tables.new.blocks ≡ with_all with_first numbered_of (items_view entries.now) tables.old.blocks) }
    ensures others { OnOk result (tables.new ≡ record tables.old { blocks = tables.new.blocks }) }
{
    for entry in entries {
        if let Some((node, (block, inside))) = numbered(entry) {
            tables.number_block(node, block, inside)?;
        }
    }
    Ok(())
}

/// The entries of a table, none where it is absent.
pub fn entries_of<'a>(env: &'a Value, name: &str) -> &'a [Value]
    ensures { items_view result.now ≡ rows name.now (view env.entry.now) }
{
    let Some(table) = env.get(name) else {
        return &[];
    };
    match table.as_array() {
        Some(entries) => entries.as_slice(),
        None => &[],
    }
}

/// Fills the tables from an environment, whose trees stand among the nodes.
fn fill(
    alloc: Global,
    tables: &mut TableEnv,
    kinds: &[Option<Kind>],
    nodes: &NodeList<'_>,
    env: &Value,
) -> Result<(), AllocError>
    ensures { OnOk result (tables.new ≡ with_tables kinds.now (items_view nodes.now.nodes.now) (view env.now) tables.old) }
{
    disable_all(tables, entries_of(env, "disabled"))?;
    decide_all(tables, entries_of(env, "preds"))?;
    name_all(tables, entries_of(env, "hygiene"))?;
    frame_all(tables, entries_of(env, "contexts"))?;
    number_all(tables, entries_of(env, "blocks"))?;
    resolve_all(alloc, tables, entries_of(env, "resolve"))?;
    expand_all(alloc, tables, kinds, nodes, entries_of(env, "macros"))?;
    define_all(alloc, tables, entries_of(env, "macro_defs"))?;
    define_legacy(alloc, tables, entries_of(env, "legacy"))?;
    tables.set_lang_items(lang_items(env.get("lang")));
    tables.set_new_range(flag_in(env.get("new_range")));
    tables.set_limit(number_in(env.get("limit"), 16));
    Ok(())
}

/// The tables that a document writes for a body that is not skipped and stands in the container.
pub fn tables(
    alloc: Global,
    kinds: &[Option<Kind>],
    nodes: &NodeList<'_>,
    document: &Value,
    container: ItemContainerId,
) -> Result<TableEnv, AllocError>
    ensures { let d = view document.now in
        IfOk result (λ tables. tables ≡ tables_of container kinds.now (items_view nodes.now.nodes.now) (get (codes "env") d)) }
{
    let mut tables = TableEnv::new(alloc, container);
    if let Some(env) = document.get("env") {
        fill(alloc, &mut tables, kinds, nodes, env)?;
    }
    Ok(tables)
}

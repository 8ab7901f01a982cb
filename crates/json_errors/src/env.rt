//! The first fault of an environment.

ghost use Rattle.std.specs.Prelude.{◌≡◌, ◌==◌, length, map, option_map};
ghost use Rattle.serde_json.specs.View.{view, items_view};
ghost use Rattle.serde_json.specs.Find.{as_array, get, get_item};
ghost use Rattle.json_errors.specs.Values.{count};
ghost use Rattle.json_errors.specs.Env as spec;
ghost use Rattle.json_errors.specs.Env.{Finds};
ghost use Rattle.json_errors.specs.Nodes.{Walks};
ghost use Rattle.json_errors.specs.Tables.{table_of};

use crate::aliases::check_aliases;
use crate::expansions::check_expansions;
use crate::fault::Fault;
use crate::kind::Kind;
use crate::path_text::is_path;
use crate::table::{Cell, Table, macro_tables, tables};
use crate::value::{
    flag_if_there, index, is_decision, is_resolution, is_small_or_null, item_at, small,
};
use crate::words::Words;
use serde_json::Value;

const MOST_LIMIT: u64 = 64;

/// Whether a value suits a place.
fn suits(cell: Cell, value: &Value) -> bool
    ensures { result ≡ spec.suits cell (view value.now) }
{
    match cell {
        Cell::Small => small(value).is_some(),
        Cell::SmallOrNull => is_small_or_null(value),
        Cell::Truth => value.as_bool().is_some(),
        Cell::Decision => is_decision(value),
        Cell::Text => value.as_str().is_some(),
        Cell::PathText => is_path(value),
        Cell::Resolution => is_resolution(Words::Resolutions, value),
    }
}

fn cell_in(cell: Cell, items: &[Value], at: usize) -> bool
    ensures { result ≡ spec.cell_in cell (get_item at (items_view items.now)) }
{
    match item_at(items, at) {
        Some(item) => suits(cell, item),
        None => false,
    }
}

#[tactic(auto, using(crate::proofs::Items::count_items))]
fn has_count(items: &[Value], wanted: usize) -> bool
    ensures { result ≡ (count (items_view items.now) == wanted) }
{
    items.len() == wanted
}

#[tactic(auto, using(crate::proofs::Cells::cells_stop))]
fn cells(cells: &[Cell], items: &[Value]) -> bool
    ensures { result ≡ spec.cells 0 cells.now (items_view items.now) }
{
    let mut at = 0;
    for cell in cells {
        if !cell_in(*cell, items, at) {
            return false;
        }
        at += 1;
    }
    true
}

/// Whether a value is an entry with such cells.
fn entry(wanted: &[Cell], value: &Value) -> bool
    ensures { result ≡ spec.entry wanted.now (as_array (view value.now)) }
{
    match value.as_array() {
        Some(items) => {
            has_count(items.as_slice(), wanted.len()) && cells(wanted, items.as_slice())
        }
        None => false,
    }
}

fn entries(table: &Table, items: &[Value]) -> Result<(), Fault>
    ensures { Finds (spec.entries (table_of table.now) 0 (items_view items.now)) result }
{
    let mut at = 0;
    for item in items {
        if !entry(table.cells, item) {
            return Err(Fault::Env {
                table: table.name,
                entry: at,
            });
        }
        at += 1;
    }
    Ok(())
}

fn list(table: &Table, value: &Value) -> Result<(), Fault>
    ensures { Finds (spec.list_of (table_of table.now) (as_array (view value.now))) result }
{
    match value.as_array() {
        Some(items) => entries(table, items.as_slice()),
        None => Err(Fault::Env {
            table: table.name,
            entry: 0,
        }),
    }
}

fn list_if_there(table: &Table, env: &Value) -> Result<(), Fault>
    ensures { Finds (spec.list_if_there (table_of table.now) (get table.now.name.now (view env.now))) result }
{
    match env.get(table.name) {
        None => Ok(()),
        Some(value) => list(table, value),
    }
}

fn lists(tables: &[Table], env: &Value) -> Result<(), Fault>
    ensures { Finds (spec.lists (map table_of tables.now) (view env.now)) result }
{
    for table in tables {
        list_if_there(table, env)?;
    }
    Ok(())
}

fn item_if_there(value: Option<&Value>) -> bool
    ensures { result ≡ spec.item_if_there (option_map (λ v. view v.now) value.entry) }
{
    match value {
        Some(value) => is_small_or_null(value),
        None => true,
    }
}

fn are_items(names: &[&str], lang: &Value) -> bool
    ensures { result ≡ spec.are_items (map (λ n. n.now) names.now) (view lang.now) }
{
    for name in names {
        if !item_if_there(lang.get(*name)) {
            return false;
        }
    }
    true
}

/// Whether the lang items are an object with numbers or nulls, where it is there. Members of other names are
/// passed over.
fn items_if_there(lang: Option<&Value>) -> bool
    ensures { result ≡ spec.items_if_there (option_map (λ v. view v.now) lang.entry) }
{
    match lang {
        Some(lang) => lang.is_object() && are_items(Words::LangItems.all(), lang),
        None => true,
    }
}

/// Whether a value says how many macro calls may be entered one in the other, where it is there.
fn limit_if_there(value: Option<&Value>) -> bool
    ensures { result ≡ spec.limit_if_there (option_map (λ v. view v.now) value.entry) }
{
    match value {
        Some(value) => match index(value) {
            Some(limit) => limit <= MOST_LIMIT,
            None => false,
        },
        None => true,
    }
}

fn check_tables(kinds: &[Option<Kind>], env: &Value, levels: &mut [u16]) -> Result<(), Fault>
    ensures walks { Walks (spec.whole_env kinds.now (view env.now) levels.old) result levels.new }
    ensures kept { length levels.new ≡ length levels.old }
{
    if !limit_if_there(env.get("limit")) {
        return Err(Fault::Env {
            table: "limit",
            entry: 0,
        });
    }
    if !flag_if_there(env.get("new_range")) {
        return Err(Fault::Env {
            table: "new_range",
            entry: 0,
        });
    }
    lists(tables(), env)?;
    check_expansions(kinds, env.get("macros"), levels)?;
    lists(macro_tables(), env)?;
    check_aliases(kinds, env.get("aliases"), levels)?;
    if !items_if_there(env.get("lang")) {
        return Err(Fault::Env {
            table: "lang",
            entry: 0,
        });
    }
    Ok(())
}

/// Sees that an environment has no fault, and uses the trees that it names.
pub fn check_env(
    kinds: &[Option<Kind>],
    env: Option<&Value>,
    levels: &mut [u16],
) -> Result<(), Fault>
    ensures walks { Walks (spec.env_if_there kinds.now (option_map (λ e. view e.now) env.entry) levels.old) result levels.new }
    ensures kept { length levels.new ≡ length levels.old }
{
    match env {
        Some(env) => check_tables(kinds, env, levels),
        None => Ok(()),
    }
}

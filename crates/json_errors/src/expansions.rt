//! The table of what macro calls are expanded to, which names trees.

ghost use Rattle.std.specs.Prelude.{◌≡◌, Some, length, option_map};
ghost use Rattle.serde_json.specs.View.{view, items_view};
ghost use Rattle.serde_json.specs.Find.{as_array};
ghost use Rattle.json_errors.specs.Expansions as spec;
ghost use Rattle.json_errors.specs.Levels.{Uses};
ghost use Rattle.json_errors.specs.Nodes.{Walks};

use crate::fault::Fault;
use crate::group::Group;
use crate::kind::Kind;
use crate::kinds::is_of_group;
use crate::levels::use_at;
use crate::path_text::is_path;
use crate::value::{index, small};
use serde_json::Value;

/// Whether the node at an index is what a call may be expanded to: an expression, a pattern, a type, or statements.
fn is_fragment(kinds: &[Option<Kind>], k: u64) -> bool
    ensures { result ≡ spec.is_fragment kinds.now k }
{
    is_of_group(kinds, Group::Expr, k)
        || is_of_group(kinds, Group::Pat, k)
        || is_of_group(kinds, Group::Type_, k)
        || is_of_group(kinds, Group::MacroStmts, k)
}

/// Whether the value is the root of such a tree, or null.
fn is_tree(kinds: &[Option<Kind>], value: &Value) -> bool
    ensures { result ≡ spec.is_tree kinds.now (view value.now) }
{
    match value {
        Value::Null => true,
        Value::Number(number) => match number.as_u64() {
            Some(k) => is_fragment(kinds, k),
            None => false,
        },
        _ => false,
    }
}

fn says(word: &str, value: &Value) -> bool
    ensures { result ≡ spec.says word.now (view value.now) }
{
    match value.as_str() {
        Some(text) => text == word,
        None => false,
    }
}

fn is_site(file: &Value, node: &Value) -> bool
    ensures { result ≡ spec.is_site (view file.now) (view node.now) }
{
    small(file).is_some() && small(node).is_some()
}

/// Whether the items are an entry.
#[tactic(auto, using(crate::proofs::Entries::entry_too_short, crate::proofs::Entries::entry_too_long))]
fn is_entry(kinds: &[Option<Kind>], items: &[Value]) -> bool
    ensures { result ≡ spec.is_entry kinds.now (Some (items_view items.now)) }
{
    match items {
        [file, node, word] => is_site(file, node) && says("none", word),
        [file, node, word, path] => {
            is_site(file, node) && says("unresolved", word) && is_path(path)
        }
        [file, node, word, new, root] => {
            is_site(file, node)
                && says("file", word)
                && small(new).is_some()
                && is_tree(kinds, root)
        }
        _ => false,
    }
}

/// The root of the tree that an entry names.
#[tactic(auto, using(crate::proofs::Entries::root_too_short, crate::proofs::Entries::root_too_long))]
fn root_in(items: &[Value]) -> Option<u64>
    ensures { result ≡ spec.root_in (Some (items_view items.now)) }
{
    match items {
        [_, _, _, _, root] => index(root),
        _ => None,
    }
}

/// Uses the root of the tree that an entry names.
fn use_root(levels: &mut [u16], items: &[Value]) -> bool
    ensures uses { Uses (spec.use_root (Some (items_view items.now)) levels.old) result levels.new }
    ensures kept { length levels.new ≡ length levels.old }
{
    match root_in(items) {
        Some(root) => use_at(levels, 1, root),
        None => true,
    }
}

/// Sees that a value is an entry, and uses its tree.
fn entry(kinds: &[Option<Kind>], value: &Value, levels: &mut [u16]) -> bool
    ensures uses { Uses (spec.entry kinds.now (as_array (view value.now)) levels.old) result levels.new }
    ensures kept { length levels.new ≡ length levels.old }
{
    match value.as_array() {
        Some(items) => { is_entry(kinds, items.as_slice()) && use_root(levels, items.as_slice()) }
        None => false,
    }
}

fn entries(kinds: &[Option<Kind>], items: &[Value], levels: &mut [u16]) -> Result<(), Fault>
    ensures walks { Walks (spec.entries kinds.now 0 (items_view items.now) levels.old) result levels.new }
    ensures kept { length levels.new ≡ length levels.old }
{
    let mut at = 0;
    for item in items {
        if !entry(kinds, item, levels) {
            return Err(Fault::Env {
                table: "macros",
                entry: at,
            });
        }
        at += 1;
    }
    Ok(())
}

fn list(kinds: &[Option<Kind>], value: &Value, levels: &mut [u16]) -> Result<(), Fault>
    ensures walks { Walks (spec.list kinds.now (as_array (view value.now)) levels.old) result levels.new }
    ensures kept { length levels.new ≡ length levels.old }
{
    match value.as_array() {
        Some(items) => entries(kinds, items.as_slice(), levels),
        None => Err(Fault::Env {
            table: "macros",
            entry: 0,
        }),
    }
}

/// Sees that the table has no fault, where it is there, and uses the trees that it names.
pub fn check_expansions(
    kinds: &[Option<Kind>],
    table: Option<&Value>,
    levels: &mut [u16],
) -> Result<(), Fault>
    ensures walks { Walks (spec.expansions_if_there kinds.now (option_map (λ t. view t.now) table.entry) levels.old)
        result levels.new }
    ensures kept { length levels.new ≡ length levels.old }
{
    match table {
        Some(table) => list(kinds, table, levels),
        None => Ok(()),
    }
}

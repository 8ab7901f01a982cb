//! The table of aliases of types, which names their trees.

ghost use Rattle.std.specs.Prelude.{◌≡◌, Some, length, option_map};
ghost use Rattle.serde_json.specs.View.{view, items_view};
ghost use Rattle.serde_json.specs.Find.{as_array};
ghost use Rattle.json_errors.specs.Aliases as spec;
ghost use Rattle.json_errors.specs.Values.{index_of};
ghost use Rattle.json_errors.specs.Levels.{Uses};
ghost use Rattle.json_errors.specs.Nodes.{Walks};

use crate::fault::Fault;
use crate::group::Group;
use crate::kind::Kind;
use crate::kinds::is_of_group;
use crate::levels::use_at;
use crate::value::{index, small};
use serde_json::Value;

/// Uses the tree of an alias, whose root is an alias that nothing uses yet.
fn use_root(kinds: &[Option<Kind>], root: &Value, levels: &mut [u16]) -> bool
    ensures uses { Uses (spec.use_root kinds.now (index_of (view root.now)) levels.old) result levels.new }
    ensures kept { length levels.new ≡ length levels.old }
{
    match index(root) {
        Some(k) => is_of_group(kinds, Group::TypeAlias, k) && use_at(levels, 1, k),
        None => false,
    }
}

/// Sees that the items are an entry, and uses its tree.
#[tactic(auto, using(crate::proofs::AliasPairs::alias_too_short, crate::proofs::AliasPairs::alias_too_long))]
fn pair(kinds: &[Option<Kind>], items: &[Value], levels: &mut [u16]) -> bool
    ensures uses { Uses (spec.entry kinds.now (Some (items_view items.now)) levels.old) result levels.new }
    ensures kept { length levels.new ≡ length levels.old }
{
    match items {
        [number, root] => small(number).is_some() && use_root(kinds, root, levels),
        _ => false,
    }
}

fn entry(kinds: &[Option<Kind>], value: &Value, levels: &mut [u16]) -> bool
    ensures uses { Uses (spec.entry kinds.now (as_array (view value.now)) levels.old) result levels.new }
    ensures kept { length levels.new ≡ length levels.old }
{
    match value.as_array() {
        Some(items) => pair(kinds, items.as_slice(), levels),
        None => false,
    }
}

fn entries(kinds: &[Option<Kind>], items: &[Value], levels: &mut [u16]) -> Result<(), Fault>
    ensures walks { Walks (spec.entries kinds.now 0 (items_view items.now) levels.old) result levels.new }
    ensures kept { length levels.new ≡ length levels.old }
{
    let mut at = 0;
    for item in items {
        if !entry(kinds, item, levels) {
            return Err(Fault::Env {
                table: "aliases",
                entry: at,
            });
        }
        at += 1;
    }
    Ok(())
}

fn list(kinds: &[Option<Kind>], value: &Value, levels: &mut [u16]) -> Result<(), Fault>
    ensures walks { Walks (spec.list kinds.now (as_array (view value.now)) levels.old) result levels.new }
    ensures kept { length levels.new ≡ length levels.old }
{
    match value.as_array() {
        Some(items) => entries(kinds, items.as_slice(), levels),
        None => Err(Fault::Env {
            table: "aliases",
            entry: 0,
        }),
    }
}

/// Sees that the table has no fault, where it is there, and uses the trees that it names.
pub fn check_aliases(
    kinds: &[Option<Kind>],
    table: Option<&Value>,
    levels: &mut [u16],
) -> Result<(), Fault>
    ensures walks { Walks (spec.aliases_if_there kinds.now (option_map (λ t. view t.now) table.entry) levels.old)
        result levels.new }
    ensures kept { length levels.new ≡ length levels.old }
{
    match table {
        Some(table) => list(kinds, table, levels),
        None => Ok(()),
    }
}

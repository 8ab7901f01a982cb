//! The levels of nodes: 0 for a node that is not used yet, 1 for a root, and one more for a part.

ghost use Rattle.std.specs.Prelude.{◌≡◌, length};
ghost use Rattle.serde_json.specs.View.{view, items_view};
ghost use Rattle.json_errors.specs.Levels.{below, use_at, use_one, use_each, first_unused, first_deep, Uses};

use crate::value::index;
use serde_json::Value;

const MOST_LEVELS: u16 = 256;

/// The level below; one number stands for all levels that are too deep.
/// A node that is not used yet may still be the root of a tree.
pub fn below(level: u16) -> u16
    ensures { result ≡ below level }
{
    if level == 0 {
        2
    } else if level <= MOST_LEVELS {
        level + 1
    } else {
        level
    }
}

/// Uses a node, which must not be used yet.
pub fn use_at(levels: &mut [u16], level: u16, k: u64) -> bool
    ensures uses { Uses (use_at level levels.old k) result levels.new }
    ensures kept { length levels.new ≡ length levels.old }
{
    let place = k as usize;
    if place >= levels.len() {
        return true;
    }
    if levels[place] != 0 {
        return false;
    }
    levels[place] = level;
    true
}

fn use_one(levels: &mut [u16], level: u16, value: &Value) -> bool
    ensures uses { Uses (use_one level levels.old (view value.now)) result levels.new }
    ensures kept { length levels.new ≡ length levels.old }
{
    match index(value) {
        Some(k) => use_at(levels, level, k),
        None => true,
    }
}

/// Uses the nodes whose indexes stand in values.
pub fn use_each(levels: &mut [u16], level: u16, items: &[Value]) -> bool
    ensures uses { Uses (use_each level levels.old (items_view items.now)) result levels.new }
    ensures kept { length levels.new ≡ length levels.old }
{
    for item in items {
        if !use_one(levels, level, item) {
            return false;
        }
    }
    true
}

/// The first node that is not used.
pub fn first_unused(levels: &[u16]) -> Option<usize>
    ensures { result ≡ first_unused 0 levels.now }
{
    let mut at = 0;
    for level in levels {
        if *level == 0 {
            return Some(at);
        }
        at += 1;
    }
    None
}

/// The first node that is too deep.
pub fn first_deep(levels: &[u16]) -> Option<usize>
    ensures { result ≡ first_deep 0 levels.now }
{
    let mut at = 0;
    for level in levels {
        if *level > MOST_LEVELS {
            return Some(at);
        }
        at += 1;
    }
    None
}

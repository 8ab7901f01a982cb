//! The nodes of a list, in order, and their levels.

ghost use Rattle.std.specs.Prelude.{◌≡◌, ◌<◌, ◌++◌, List, length};
ghost use Rattle.serde_json.specs.View.{items_view, view};
ghost use Rattle.json_errors.specs.Members.{Named, all_pairs, pairs, pairs_of};
ghost use Rattle.json_errors.specs.Nodes as spec;
ghost use Rattle.json_errors.specs.Nodes.{Walks, node_in};

use crate::fault::Fault;
use crate::kind::Kind;
use crate::levels::{first_deep, first_unused};
use crate::listed::ListedNode;
use crate::members::{Member, count};
use serde_json::Value;

/// Sees that a node has no fault, whose members are the first of these, and uses its parts.
#[tactic(auto, using(crate::proofs::Sides::in_front, crate::proofs::Sides::enough_own))]
fn check_one(
    kinds: &[Option<Kind>],
    members: &[Member<'_>],
    at: usize,
    node: &Value,
    levels: &mut [u16],
) -> Result<(), Fault>
    requires level { at < length levels.old }
    requires members { (more : List Named) × (pairs members.now ≡ pairs_of (view node.now) ++ more) }
    ensures walks { Walks (spec.node (node_in kinds.now at (view node.now)) levels.old) result levels.new }
    ensures kept { length levels.new ≡ length levels.old }
{
    let Value::Object(own) = node else {
        return Err(Fault::NotAnObject { node: at });
    };
    let (own, _) = members.split_at(own.len());
    ListedNode {
        kinds,
        at,
        node: own,
    }
    .check(levels)
}

/// Sees that each node has no fault, and uses its parts. The members of all stand side by side.
#[tactic(auto, using(crate::proofs::Sides::behind, crate::proofs::Sides::enough))]
pub fn check_each(
    kinds: &[Option<Kind>],
    members: &[Member<'_>],
    nodes: &[Value],
    levels: &mut [u16],
) -> Result<(), Fault>
    requires levels { length levels.old ≡ length nodes.now }
    requires members { pairs members.now ≡ all_pairs (items_view nodes.now) }
    ensures walks { Walks (spec.nodes_from kinds.now 0 (items_view nodes.now) levels.old) result levels.new }
    ensures kept { length levels.new ≡ length levels.old }
{
    let mut at = 0;
    let mut start = 0;
    for node in nodes {
        let (_, own) = members.split_at(start);
        check_one(kinds, own, at, node, levels)?;
        start += count(node);
        at += 1;
    }
    Ok(())
}

/// Sees that each node is used, and none is too deep.
pub fn check_levels(levels: &[u16]) -> Result<(), Fault>
    ensures { Walks (spec.all_levels levels.now) result levels.now }
{
    if let Some(at) = first_unused(levels) {
        return Err(Fault::Unused { node: at });
    }
    match first_deep(levels) {
        Some(at) => Err(Fault::TooDeep { node: at }),
        None => Ok(()),
    }
}

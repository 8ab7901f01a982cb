//! The members of nodes, side by side.

ghost use Rattle.std.specs.Prelude.{◌≡◌, ◌++◌, IfOk, List, bytes_eq, length, not, true, option_map};
ghost use Rattle.serde_json.specs.View.{view, items_view, members_view};
ghost use Rattle.serde_json.specs.Find.{get, get_item};
ghost use Rattle.serde_json.specs.Written.{has_float, members_have_float};
ghost use Rattle.json_errors.specs.Members.{Named, all_pairs, pairs, pairs_in, pairs_of, said, starts_from};

use crate::floats::has_float;
use serde_json::{Map, Value};
use std::alloc::AllocError;

/// A member of a node.
#[derive(Clone, Copy)]
pub struct Member<'n> {
    pub name: &'n str,
    pub value: &'n Value,
}

/// Whether two names are the same. Most of one length begin with different bytes, which costs less to see than to compare them whole.
fn is_same(name: &str, other: &str) -> bool
    ensures { result ≡ bytes_eq name.now other.now }
{
    let (one, two) = (name.as_bytes(), other.as_bytes());
    if one.len() != two.len() {
        return false;
    }
    if !one.is_empty() && one[0] != two[0] {
        return false;
    }
    name == other
}

/// What the first of these members of that name holds.
///
/// A node has few members, so that they cost less to go through than a map to descend.
#[tactic(auto, using(crate::proofs::Sides::hit, crate::proofs::Sides::miss))]
pub fn found<'n>(members: &[Member<'n>], name: &str) -> Option<&'n Value>
    ensures { option_map (λ v. view v.now) result ≡ get name.now (said members.now) }
{
    for member in members {
        if is_same(name, member.name) {
            return Some(member.value);
        }
    }
    None
}

/// Adds members behind others; answers false, and may leave some out, where a number in them is no whole one of 64 bits.
fn add_each<'n>(
    all: &mut Vec<Member<'n>>,
    members: &'n Map<String, Value>,
) -> Result<bool, AllocError>
    ensures whole { IfOk result (λ whole. whole ≡ not (members_have_float (members_view members.now.entries))) }
    ensures added { IfOk result (λ whole. whole ≡ true
        → pairs all.new.items ≡ pairs all.old.items ++ pairs_in (members_view members.now.entries)) }
{
    for (name, value) in members.iter() {
        if has_float(value) {
            return Ok(false);
        }
        all.push(Member {
            name: name.as_str(),
            value,
        })?;
    }
    Ok(true)
}

/// The same with the members of a node. One that is no object has none.
pub fn add_members<'n>(all: &mut Vec<Member<'n>>, node: &'n Value) -> Result<bool, AllocError>
    ensures whole { IfOk result (λ whole. whole ≡ not (has_float (view node.now))) }
    ensures added { IfOk result (λ whole. whole ≡ true
        → pairs all.new.items ≡ pairs all.old.items ++ pairs_of (view node.now)) }
{
    match node {
        Value::Object(members) => add_each(all, members),
        _ => Ok(!has_float(node)),
    }
}

/// A node, whose fields are looked up among its members.
#[derive(Clone, Copy)]
pub struct Own<'n> {
    pub node: &'n Value,
    pub members: &'n [Member<'n>],
    pub ghost own: { ∥ pairs members.now ≡ pairs_of (view node.now) ∥₁ },
}

impl<'n> Own<'n> {
    /// What the field of that name holds.
    #[tactic(auto, using(crate::proofs::Sides::own_get))]
    pub fn get(&self, name: &str) -> Option<&'n Value>
        ensures { option_map (λ v. view v.now) result ≡ get name.now (view self.now.node.now) }
    {
        found(self.members, name)
    }
}

/// How many members a node has.
#[tactic(auto, using(crate::proofs::Sides::count))]
pub fn count(node: &Value) -> usize
    ensures { result ≡ length (pairs_of (view node.now)) }
{
    match node {
        Value::Object(members) => members.len(),
        _ => 0,
    }
}

/// A node whose members are the first of these.
fn own_of<'n>(node: &'n Value, rest: &'n [Member<'n>]) -> Own<'n>
    requires { ∥ ((more : List Named) × (pairs rest.now ≡ pairs_of (view node.now) ++ more)) ∥₁ }
    ensures { view result.node.now ≡ view node.entry.now }
{
    let (members, _) = rest.split_at(count(node));
    Own { node, members }
}

/// The nodes of a document, with the members of all of them, and where those of each begin.
#[derive(Clone, Copy)]
pub struct NodeList<'n> {
    pub nodes: &'n [Value],
    pub members: &'n [Member<'n>],
    pub starts: &'n [usize],
    pub ghost beside: { ∥ pairs members.now ≡ all_pairs (items_view nodes.now) ∥₁ },
    pub ghost begun: { starts.now ≡ starts_from 0 (items_view nodes.now) },
}

impl<'n> NodeList<'n> {
    /// The node at an index, none past the end.
    #[tactic(auto, using(crate::proofs::Items::found_at, crate::proofs::Items::past_items))]
    pub fn at(&self, at: usize) -> Option<Own<'n>>
        ensures { option_map (λ n. view n.node.now) result ≡ get_item at (items_view self.now.nodes.now) }
    {
        if at >= self.nodes.len() {
            return None;
        }
        let (_, rest) = self.members.split_at(self.starts[at]);
        Some(own_of(&self.nodes[at], rest))
    }
}

//! The kinds of the nodes of a list.

ghost use Rattle.std.specs.Prelude.{◌≡◌, [], ◌∷◌, ◌++◌, drop, length, not, true, IfOk, IfSome, is_some};
ghost use Rattle.serde_json.specs.View.{view, items_view};
ghost use Rattle.serde_json.specs.Written.{has_float, items_have_float};
ghost use Rattle.json_errors.specs.Kinds as spec;
ghost use Rattle.json_errors.specs.Members.{all_pairs, pairs, pairs_of, said, starts_from};

use crate::group::Group;
use crate::kind::Kind;
use crate::members::{Member, add_members, found};
use serde_json::Value;
use std::alloc::{AllocError, Global};

/// The nodes of a list, as far as it costs less to ask for them than to ask a document.
#[derive(Drop)]
pub struct Found<'n> {
    /// The kind of each.
    pub kinds: Vec<Option<Kind>>,
    /// The members of the first, then those of the next.
    pub members: Vec<Member<'n>>,
    /// Where those of each begin.
    pub starts: Vec<usize>,
}

/// Most nodes have no more members than so many.
const USUAL_MEMBERS: usize = 4;

/// The kind of the node whose members begin at a place, by its field "k"; none where that is not the word of a kind.
#[tactic(auto, using(crate::proofs::Sides::past_members))]
fn kind_from(members: &[Member<'_>], start: usize) -> Option<Kind>
    ensures { result ≡ spec.kind_in (said (drop start members.now)) }
{
    if start > members.len() {
        return None;
    }
    Kind::from_word(found(&members[start..], "k")?.as_str()?)
}

/// Adds a node. Answers false, and may leave it out, where a number in it is no whole one of 64 bits.
#[tactic(auto, using(crate::proofs::Sides::kind_behind))]
fn add<'n>(nodes: &mut Found<'n>, node: &'n Value) -> Result<bool, AllocError>
    ensures whole { IfOk result (λ whole. whole ≡ not (has_float (view node.now))) }
    ensures kind { IfOk result (λ whole. whole ≡ true
        → nodes.new.kinds.items ≡ nodes.old.kinds.items ++ spec.kind_in (view node.now) ∷ []) }
    ensures members { IfOk result (λ whole. whole ≡ true
        → pairs nodes.new.members.items ≡ pairs nodes.old.members.items ++ pairs_of (view node.now)) }
    ensures starts { IfOk result (λ whole. whole ≡ true
        → nodes.new.starts.items ≡ nodes.old.starts.items ++ length nodes.old.members.items ∷ []) }
{
    let start = nodes.members.len();
    if !add_members(&mut nodes.members, node)? {
        return Ok(false);
    }
    let kind = kind_from(nodes.members.as_slice(), start);
    nodes.kinds.push(kind)?;
    nodes.starts.push(start)?;
    Ok(true)
}

/// The kinds and the members of nodes, and where those of each begin; none where a number in them is no whole one of 64 bits.
/// All is seen in one walk, since it takes most of the time that a node comes from memory.
pub fn found_in(alloc: Global, nodes: &[Value]) -> Result<Option<Found<'_>>, AllocError>
    ensures kinds { IfOk result (λ found. IfSome found (λ f. f.kinds.items ≡ spec.kinds_of (items_view nodes.now))) }
    ensures members { IfOk result (λ found. IfSome found (λ f. pairs f.members.items ≡ all_pairs (items_view nodes.now))) }
    ensures starts { IfOk result (λ found. IfSome found (λ f. f.starts.items ≡ starts_from 0 (items_view nodes.now))) }
    ensures whole { IfOk result (λ found. is_some found ≡ not (items_have_float (items_view nodes.now))) }
{
    let mut found = Found {
        kinds: Vec::with_capacity(alloc, nodes.len())?,
        members: Vec::with_capacity(alloc, nodes.len().saturating_mul(USUAL_MEMBERS))?,
        starts: Vec::with_capacity(alloc, nodes.len())?,
    };
    for node in nodes {
        if !add(&mut found, node)? {
            return Ok(None);
        }
    }
    Ok(Some(found))
}

/// Whether a kind serves in a group.
fn serves(kind: Kind, group: Group) -> bool
    ensures { result ≡ spec.serves group kind }
{
    kind.groups().contains(&group)
}

/// The kind of the node at an index, none past the end.
pub fn kind_at(kinds: &[Option<Kind>], at: usize) -> Option<Kind>
    ensures { result ≡ spec.kind_at kinds.now at }
{
    if at < kinds.len() { kinds[at] } else { None }
}

/// Whether the node at an index is of the group.
pub fn is_of_group(kinds: &[Option<Kind>], group: Group, k: u64) -> bool
    ensures { result ≡ spec.is_of_group kinds.now group k }
{
    match kind_at(kinds, k as usize) {
        Some(kind) => serves(kind, group),
        None => false,
    }
}

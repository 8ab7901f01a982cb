//! The first fault of a document.

ghost use Rattle.std.specs.Prelude.{◌≡◌, ◌==◌, ◌<◌, true, not, length, nat_lt, IfOk, IfErr, IfSome, OnOk, None, is_some, option_map};
ghost use Rattle.serde_json.specs.View.{view, items_view};
ghost use Rattle.serde_json.specs.Written.{has_float};
ghost use Rattle.json_errors.specs.Values.{count};
ghost use Rattle.json_errors.specs.Documents as spec;
ghost use Rattle.json_errors.specs.Documents.{IsRefusalFor};
ghost use Rattle.json_errors.specs.Kinds.{kinds_of};
ghost use Rattle.json_errors.specs.Levels.{Uses};
ghost use Rattle.json_errors.specs.Members.{all_pairs, pairs, starts_from};
ghost use Rattle.json_errors.specs.Nodes.{Walks};

use crate::env::check_env;
use crate::fault::Fault;
use crate::floats::{has_float, has_float_beside};
use crate::group::Group;
use crate::kind::Kind;
use crate::kinds::{Found, found_in, is_of_group};
use crate::levels::use_at;
use crate::members::Member;
use crate::nodes::{check_each, check_levels};
use crate::refusal::Refusal;
use crate::value::{flag_if_there, index, is_word};
use crate::words::Words;
use serde_json::Value;
use std::alloc::{AllocError, Global};

fn word_if_there(set: Words, value: Option<&Value>) -> bool
    ensures { result ≡ spec.word_if_there set (option_map (λ v. view v.now) value.entry) }
{
    match value {
        Some(value) => is_word(set, value),
        None => true,
    }
}

fn object_if_there(value: Option<&Value>) -> bool
    ensures { result ≡ spec.object_if_there (option_map (λ v. view v.now) value.entry) }
{
    match value {
        Some(value) => value.is_object(),
        None => true,
    }
}

/// Whether the fields of the document itself hold what they may.
fn has_heading(document: &Value) -> bool
    ensures { result ≡ spec.has_heading (view document.now) }
{
    word_if_there(Words::Owners, document.get("owner"))
        && word_if_there(Words::Containers, document.get("container"))
        && flag_if_there(document.get("skip"))
        && flag_if_there(document.get("sources"))
        && flag_if_there(document.get("analysis"))
        && object_if_there(document.get("env"))
}

fn has_nodes(document: &Value) -> bool
    ensures { result ≡ is_some (spec.nodes_in (view document.now)) }
{
    match document.get("nodes") {
        Some(nodes) => nodes.is_array(),
        None => false,
    }
}

/// Whether the document is one except for its numbers.
fn has_frame(document: &Value) -> bool
    ensures { result ≡ spec.has_frame (view document.now) }
{
    has_heading(document) && has_nodes(document)
}

/// The nodes of a document, none where it has no list of them.
pub fn nodes(document: &Value) -> &[Value]
    ensures { items_view result.now ≡ spec.nodes (view document.entry.now) }
{
    let Some(nodes) = document.get("nodes") else {
        return &[];
    };
    match nodes.as_array() {
        Some(nodes) => nodes.as_slice(),
        None => &[],
    }
}

/// The index of the root of a document, 0 where there is none.
fn root_of(document: &Value) -> Option<u64>
    ensures { result ≡ spec.root_of (view document.now) }
{
    match document.get("root") {
        Some(value) => index(value),
        None => Some(0),
    }
}

#[tactic(auto, using(crate::proofs::Items::count_items))]
fn is_missing(nodes: &[Value]) -> bool
    ensures { result ≡ (count (items_view nodes.now) == 0) }
{
    nodes.len() == 0
}

/// Uses the root, where there is a node.
fn use_root(
    kinds: &[Option<Kind>],
    nodes: &[Value],
    wanted: Group,
    root: u64,
    levels: &mut [u16],
) -> bool
    ensures uses { Uses (spec.use_root kinds.now (items_view nodes.now) wanted root levels.old) result levels.new }
    ensures kept { length levels.new ≡ length levels.old }
{
    if is_missing(nodes) {
        return true;
    }
    if !is_of_group(kinds, wanted, root) {
        return false;
    }
    use_at(levels, 1, root)
}

fn check_tree(
    kinds: &[Option<Kind>],
    members: &[Member<'_>],
    nodes: &[Value],
    wanted: Group,
    optional: bool,
    document: &Value,
    levels: &mut [u16],
) -> Result<(), Fault>
    requires levels { length levels.old ≡ length nodes.now }
    requires members { pairs members.now ≡ all_pairs (items_view nodes.now) }
    ensures { Walks (spec.whole_tree kinds.now (items_view nodes.now) wanted optional (view document.now) levels.old) result levels.new }
{
    let Some(root) = root_of(document) else {
        return Err(Fault::Root);
    };
    if !use_root(kinds, nodes, wanted, root, levels) {
        return Err(Fault::Root);
    }
    check_each(kinds, members, nodes, levels)?;
    check_env(kinds, document.get("env"), levels)?;
    check_levels(levels)?;
    if !optional && is_missing(nodes) {
        return Err(Fault::NoTree);
    }
    Ok(())
}

#[tactic(auto, using(crate::proofs::Items::count_items))]
fn are_more(nodes: &[Value], most: usize) -> bool
    ensures { result ≡ nat_lt most (count (items_view nodes.now)) }
{
    nodes.len() > most
}

/// The kinds and the members of the nodes of a document, none where a number in it is no whole one of 64 bits.
#[tactic(auto, using(crate::proofs::Beside::float_beside, crate::proofs::Beside::none_beside))]
fn nodes_found(alloc: Global, document: &Value) -> Result<Option<Found<'_>>, AllocError>
    requires { is_some (spec.nodes_in (view document.now)) ≡ true }
    ensures kinds { IfOk result (λ found. IfSome found (λ f. f.kinds.items ≡ kinds_of (spec.nodes (view document.now)))) }
    ensures members { IfOk result (λ found. IfSome found (λ f. pairs f.members.items ≡ all_pairs (spec.nodes (view document.now)))) }
    ensures starts { IfOk result (λ found. IfSome found (λ f. f.starts.items ≡ starts_from 0 (spec.nodes (view document.now)))) }
    ensures whole { IfOk result (λ found. is_some found ≡ not (has_float (view document.now))) }
{
    if has_float_beside("nodes", document) {
        return Ok(None);
    }
    found_in(alloc, nodes(document))
}

/// The kinds and the members of the nodes of a document that has no fault: it has at most so many nodes, and a root of the group, or no
/// node where the root is optional. Where it has one, the first; `Memory` where memory is refused.
#[tactic(auto, using(crate::proofs::Items::count_items, crate::proofs::Beside::frame_nodes))]
pub fn checked_kinds(
    alloc: Global,
    most: usize,
    wanted: Group,
    optional: bool,
    document: &Value,
) -> Result<Found<'_>, Refusal>
    ensures sound { OnOk result (spec.document_fault most wanted optional (view document.now) ≡ None) }
    ensures kinds { IfOk result (λ found. found.kinds.items ≡ kinds_of (spec.nodes (view document.now))) }
    ensures members { IfOk result (λ found. pairs found.members.items ≡ all_pairs (spec.nodes (view document.now))) }
    ensures starts { IfOk result (λ found. found.starts.items ≡ starts_from 0 (spec.nodes (view document.now))) }
    ensures fault { IfErr result (λ e. IsRefusalFor (spec.document_fault most wanted optional (view document.now)) e) }
{
    if !has_frame(document) {
        return Err(Refusal::Fault(Fault::NotADocument));
    }
    let nodes = nodes(document);
    if are_more(nodes, most) {
        if has_float(document) {
            return Err(Refusal::Fault(Fault::NotADocument));
        }
        return Err(Refusal::Fault(Fault::TooManyNodes));
    }
    let Some(found) = nodes_found(alloc, document)? else {
        return Err(Refusal::Fault(Fault::NotADocument));
    };
    let mut levels = vec![in alloc; 0; nodes.len()]?;
    check_tree(
        found.kinds.as_slice(),
        found.members.as_slice(),
        nodes,
        wanted,
        optional,
        document,
        levels.as_mut_slice(),
    )?;
    Ok(found)
}

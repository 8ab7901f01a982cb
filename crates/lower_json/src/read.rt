//! Reading a document.

ghost use Rattle.std.specs.Prelude.{◌≡◌, IfOk, IfErr, OnOk, Some, None, IsUtf8};
ghost use Rattle.serde_json.specs.Read.{read};
ghost use Rattle.serde_json.specs.View.{view, items_view};
ghost use Rattle.json_errors.specs.Documents.{nodes};
ghost use Rattle.json_errors.specs.Kinds.{kinds_of};
ghost use Rattle.lower_json.specs.Documents.{group_of, is_optional, document_of, first_fault, IsDocument};
ghost use Rattle.lower_json.specs.Faults.{IsErrorOf, IsTextError};

use crate::aliases::aliases;
use crate::document::{Document, Root};
use crate::fault::{Fault, ReadError};
use crate::heading::{container, mode, owner, skip};
use crate::tables::tables;
use crate::tree::read_tree_at;
use json_errors::document::{checked_kinds, nodes};
use json_errors::group::Group;
use json_errors::kind::Kind;
use json_errors::members::NodeList;
use json_nodes::field::{flag_in, number_in};
use serde_json::Value;
use sha2::{Digest, Sha512};
use std::alloc::{AllocError, Global};
use std::mem::forget;

const MOST_NODES: usize = 1_000_000;

/// A shorter text has too few names for collisions to cost much.
const SHORT_TEXT: usize = 4096;

/// The group of what may stand at the root.
fn group(root: Root) -> Group
    ensures { result ≡ group_of root }
{
    match root {
        Root::Fn => Group::Fn,
        Root::Path => Group::Path,
        Root::Type_ => Group::Type_,
        Root::Pat => Group::Pat,
    }
}

/// Whether a document may lack the root.
fn is_optional(root: Root) -> bool
    ensures { result ≡ is_optional root }
{
    matches!(root, Root::Type_ | Root::Pat)
}

fn parse(alloc: Global, text: &[u8]) -> Result<Value, ReadError>
    ensures utf8 { OnOk result (IsUtf8 text.now) }
    ensures value { IfOk result (λ v. read text.now ≡ Some (view v)) }
    ensures fault { IfErr result (λ e. (want : Root) → IsTextError want text.now e) }
{
    let Ok(text) = str::from_utf8(text) else {
        return Err(ReadError::Fault(Fault::NotJson));
    };
    match Value::from_str(alloc, text) {
        Ok(value) => Ok(value),
        Err(e) => Err(if e.is_memory() {
            ReadError::Memory
        } else {
            ReadError::Fault(Fault::NotJson)
        }),
    }
}

/// What names are hashed by: a digest of the whole text. Each change of a name changes it, so that names can't be fitted to it. A short
/// text has none, since the digest would take a fifth of the time to read it.
fn hash_key(text: &[u8]) -> u128 {
    if text.len() < SHORT_TEXT {
        return 0;
    }
    let digest = Sha512::digest(text);
    let mut key = 0;
    for byte in &digest[..16] {
        key = (key << 8) | u128::from(*byte);
    }
    key
}

/// What a document says, with the kinds of its nodes.
fn read_document(
    alloc: Global,
    want: Root,
    hash_key: u128,
    kinds: &[Option<Kind>],
    listed: &NodeList<'_>,
    document: &Value,
) -> Result<Document, AllocError>
    requires kinds { kinds.now ≡ kinds_of (nodes (view document.now)) }
    requires nodes { items_view listed.now.nodes.now ≡ nodes (view document.now) }
    ensures { IfOk result (λ d. d ≡ document_of want (view document.now)) }
{
    // The tree comes last, and the aliases next to it, since each `?` behind them would have to let go of them.
    let mut env = tables(alloc, kinds, listed, document, container(document))?;
    env.set_skip(skip(document));
    env.set_hash_key(hash_key);
    let aliases = aliases(alloc, kinds, listed, document)?;
    let root = number_in(document.get("root"), 0);
    Ok(Document {
        tree: read_tree_at(alloc, want, kinds, listed, root)?,
        owner: owner(document),
        sources: flag_in(document.get("sources")),
        mode: mode(document),
        env,
        aliases,
    })
}

fn read_value(
    alloc: Global,
    want: Root,
    hash_key: u128,
    document: &Value,
) -> Result<Document, ReadError>
    ensures sound { IfOk result (λ d. first_fault want (view document.now) ≡ None) }
    ensures document { IfOk result (λ d. d ≡ document_of want (view document.now)) }
    ensures fault { IfErr result (λ e. IsErrorOf want (view document.now) e) }
{
    let found = checked_kinds(alloc, MOST_NODES, group(want), is_optional(want), document)?;
    let listed = NodeList {
        nodes: nodes(document),
        members: found.members.as_slice(),
        starts: found.starts.as_slice(),
    };
    Ok(read_document(
        alloc,
        want,
        hash_key,
        found.kinds.as_slice(),
        &listed,
        document,
    )?)
}

/// Reads a document whose root is what is wanted. The fault of a text is the first one that it has, and a text that has
/// none is read whole; a refused allocation is told apart from a fault.
pub fn read_tree(alloc: Global, want: Root, text: &[u8]) -> Result<Document, ReadError>
    ensures document { IfOk result (λ d. IsDocument want text.now d) }
    ensures fault { IfErr result (λ e. IsTextError want text.now e) }
{
    let value = parse(alloc, text)?;
    let document = read_value(alloc, want, hash_key(text), &value);
    drop(value);
    document
}

/// Reads a document as `read_tree` does, and never lets go of what it parsed: for a process that ends when it has told its answer.
pub fn read_tree_leaking(alloc: Global, want: Root, text: &[u8]) -> Result<Document, ReadError>
    ensures document { IfOk result (λ d. IsDocument want text.now d) }
    ensures fault { IfErr result (λ e. IsTextError want text.now e) }
{
    let value = parse(alloc, text)?;
    let document = read_value(alloc, want, hash_key(text), &value);
    forget(value);
    document
}

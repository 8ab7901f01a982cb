//! The aliases of types that an environment names.

ghost use Rattle.std.specs.Prelude.{◌≡◌, IfOk, codes};
ghost use Rattle.serde_json.specs.Find.{get};
ghost use Rattle.serde_json.specs.View.{view, items_view};
ghost use Rattle.json_nodes.specs.Kept.{Kept};
ghost use Rattle.json_nodes.specs.Parts.{all_read};
ghost use Rattle.lower_json.specs.Aliases as spec;

use crate::document::Alias;
use crate::tables::entries_of;
use crate::tree::alias_at;
use hir_base::Seq;
use hir_store::ids::TypeAliasId;
use json_errors::kind::Kind;
use json_errors::members::NodeList;
use json_errors::value::small;
use serde_json::Value;
use std::alloc::{AllocError, Global};

/// What an entry names.
#[tactic(auto, using(crate::proofs::Tuples::entry_under_two, crate::proofs::Tuples::entry_over_two))]
fn alias(
    alloc: Global,
    kinds: &[Option<Kind>],
    nodes: &NodeList<'_>,
    refused: &mut bool,
    entry: &Value,
) -> Option<Alias>
    ensures { Kept refused.old refused.new (result ≡ spec.alias_in kinds.now (items_view nodes.now.nodes.now) (view entry.now)) }
{
    match entry.as_array()?.as_slice() {
        [number, root] => {
            let id = TypeAliasId(small(number)?);
            let root = small(root)?;
            let item = alias_at(alloc, kinds, nodes, refused, root)?;
            Some(Alias { id, item })
        }
        _ => None,
    }
}

/// What the entries name.
fn all(
    alloc: Global,
    kinds: &[Option<Kind>],
    nodes: &NodeList<'_>,
    refused: &mut bool,
    entries: &[Value],
) -> Seq<Alias>
    ensures { Kept refused.old refused.new
        (result ≡ all_read (spec.alias_in kinds.now (items_view nodes.now.nodes.now)) (items_view entries.now)) }
{
    let mut aliases = Vec::new(alloc);
    for entry in entries {
        match aliases.reserve(1) {
            Ok(()) => {
                if let Some(alias) = alias(alloc, kinds, nodes, refused, entry) {
                    aliases.push_reserved(alias);
                }
            }
            Err(_) => *refused = true,
        }
    }
    Seq::from_vec(aliases)
}

/// The entries of the table, none where it is absent.
fn entries(document: &Value) -> &[Value]
    ensures { items_view result.now ≡ spec.entries_of (get (codes "env") (view document.entry.now)) }
{
    match document.get("env") {
        Some(env) => entries_of(env, "aliases"),
        None => &[],
    }
}

/// The aliases that the environment of a document names, in order.
pub fn aliases(
    alloc: Global,
    kinds: &[Option<Kind>],
    nodes: &NodeList<'_>,
    document: &Value,
) -> Result<Seq<Alias>, AllocError>
    ensures { let d = view document.now in
        IfOk result (λ aliases. aliases ≡ spec.aliases_of kinds.now (items_view nodes.now.nodes.now) (get (codes "env") d)) }
{
    let mut refused = false;
    let aliases = all(alloc, kinds, nodes, &mut refused, entries(document));
    if !refused {
        return Ok(aliases);
    }
    drop(aliases);
    Err(AllocError)
}

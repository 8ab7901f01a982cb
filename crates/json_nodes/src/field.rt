//! Fields of one value. One that does not hold what it may says nothing, as if it were absent.

ghost use Rattle.std.specs.Prelude.{◌≡◌, IfOk, Some, codes, option_and_then, option_map};
ghost use Rattle.serde_json.specs.View.{view, items_view};
ghost use Rattle.serde_json.specs.Find.{as_array, get};
ghost use Rattle.json_nodes.specs.Fields.{number_or, range_in, range_of, flag_of, text_in};

use hir_base::Text;
use hir_base::node::TextRange;
use json_errors::members::Own;
use json_errors::value::small;
use serde_json::Value;
use std::alloc::{AllocError, Global};

/// The number of 32 bits in a field, another where there is none.
pub fn number_or(node: &Own<'_>, name: &str, other: u32) -> u32
    ensures { result ≡ number_or other (get name.now (view node.now.node.now)) }
{
    number_in(node.get(name), other)
}

/// The number of 32 bits that is held, another where there is none.
pub fn number_in(value: Option<&Value>, other: u32) -> u32
    ensures { result ≡ number_or other (option_map (λ v. view v.now) value.entry) }
{
    match value {
        Some(value) => small(value).unwrap_or(other),
        None => other,
    }
}

/// A flag, which is false where it is not said.
pub fn flag(node: &Own<'_>, name: &str) -> bool
    ensures { result ≡ flag_of (get name.now (view node.now.node.now)) }
{
    flag_in(node.get(name))
}

/// The flag that is held, false where there is none.
pub fn flag_in(value: Option<&Value>) -> bool
    ensures { result ≡ flag_of (option_map (λ v. view v.now) value.entry) }
{
    match value {
        Some(value) => value.as_bool().unwrap_or(false),
        None => false,
    }
}

#[tactic(auto, using(crate::proofs::Pairs::too_short, crate::proofs::Pairs::too_long))]
fn pair(items: &[Value]) -> Option<TextRange>
    ensures { result ≡ range_in (Some (items_view items.now)) }
{
    match items {
        [start, end] => Some(TextRange {
            start: small(start)?,
            end: small(end)?,
        }),
        _ => None,
    }
}

fn written_range(node: &Own<'_>) -> Option<TextRange>
    ensures { result ≡ range_in (option_and_then as_array (get (codes "r") (view node.now.node.now))) }
{
    pair(node.get("r")?.as_array()?.as_slice())
}

/// The range of a node, which goes from its number to the next where none is said.
pub fn range(node: &Own<'_>, id: u32) -> TextRange
    ensures { result ≡ range_of id (get (codes "r") (view node.now.node.now)) }
{
    match written_range(node) {
        Some(range) => range,
        None => TextRange {
            start: id,
            end: id.saturating_add(1),
        },
    }
}

/// The text in a field, none where the field is absent or of another type.
pub fn text<'a>(node: &Own<'a>, name: &str) -> Option<&'a str>
    ensures { option_map (λ text. text.now) result ≡ text_in name.now (view node.now.node.now) }
{
    node.get(name)?.as_str()
}

/// A copy of the text in a field, likewise.
pub fn own_text(alloc: Global, node: &Own<'_>, name: &str) -> Result<Option<Text>, AllocError>
    ensures { IfOk result (λ t. t ≡ text_in name.now (view node.now.node.now)) }
{
    match text(node, name) {
        Some(text) => Ok(Some(Text::new(alloc, text)?)),
        None => Ok(None),
    }
}

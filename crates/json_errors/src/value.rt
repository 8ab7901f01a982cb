//! What JSON values are.

ghost use Rattle.std.specs.Prelude.{◌≡◌, map, option_map, Some};
ghost use Rattle.json_errors.specs.Words.{words};
ghost use Rattle.serde_json.specs.Find.{get_item};
ghost use Rattle.serde_json.specs.View.{view, items_view};
ghost use Rattle.json_errors.specs.Values.{small_of, index_of, is_pair, has_word, is_word, is_part, takes_text};
ghost use Rattle.json_errors.specs.Values as spec;

use crate::group::Group;
use crate::words::Words;
use serde_json::Value;

/// The index that a value is.
pub fn index(value: &Value) -> Option<u64>
    ensures { result ≡ index_of (view value.now) }
{
    value.as_u64()
}

/// A number of 32 bits.
pub fn small(value: &Value) -> Option<u32>
    ensures { result ≡ small_of (view value.now) }
{
    match index(value) {
        Some(n) if n <= 4_294_967_295 => Some(n as u32),
        _ => None,
    }
}

/// Whether a flag is one, where it is there.
pub fn flag_if_there(value: Option<&Value>) -> bool
    ensures { result ≡ spec.flag_if_there (option_map (λ v. view v.now) value.entry) }
{
    match value {
        Some(value) => value.as_bool().is_some(),
        None => true,
    }
}

/// Whether the value is `true`, `false` or null.
pub fn is_decision(value: &Value) -> bool
    ensures { result ≡ spec.is_decision (view value.now) }
{
    matches!(value, Value::Bool(_) | Value::Null)
}

/// Whether the value is a number of 32 bits or null.
pub fn is_small_or_null(value: &Value) -> bool
    ensures { result ≡ spec.is_small_or_null (view value.now) }
{
    match value {
        Value::Null => true,
        _ => small(value).is_some(),
    }
}

/// Whether the value is the word that an alias is told by.
pub fn is_alias_word(value: &Value) -> bool
    ensures { result ≡ spec.is_alias_word (view value.now) }
{
    match value.as_str() {
        Some(text) => text == "alias",
        None => false,
    }
}

#[tactic(auto, using(crate::proofs::Pairs::alias_too_short, crate::proofs::Pairs::alias_too_long))]
fn is_alias(items: &[Value]) -> bool
    ensures { result ≡ spec.is_alias (Some (items_view items.now)) }
{
    match items {
        [word, number] => is_alias_word(word) && small(number).is_some(),
        _ => false,
    }
}

/// Whether the value says what a path stands for: a word of the set, an alias with its number, or null.
pub fn is_resolution(set: Words, value: &Value) -> bool
    ensures { result ≡ spec.is_resolution (words set) (view value.now) }
{
    match value {
        Value::Null => true,
        Value::String(word) => has_word(set.all(), word.as_str()),
        Value::Array(items) => is_alias(items.as_slice()),
        _ => false,
    }
}

#[tactic(auto, using(crate::proofs::Pairs::too_short, crate::proofs::Pairs::too_long))]
fn are_two(items: &[Value]) -> bool
    ensures { result ≡ is_pair (Some (items_view items.now)) }
{
    match items {
        [start, end] => small(start).is_some() && small(end).is_some(),
        _ => false,
    }
}

/// Whether the value is a list of two numbers of 32 bits.
pub fn is_range(value: &Value) -> bool
    ensures { result ≡ spec.is_range (view value.now) }
{
    match value.as_array() {
        Some(items) => are_two(items.as_slice()),
        None => false,
    }
}

fn has_word(words: &[&str], text: &str) -> bool
    ensures { result ≡ has_word (map (λ w. w.now) words.now) text.now }
{
    for word in words {
        if *word == text {
            return true;
        }
    }
    false
}

/// Whether the value is a word of the set.
pub fn is_word(set: Words, value: &Value) -> bool
    ensures { result ≡ is_word (words set) (view value.now) }
{
    match value.as_str() {
        Some(text) => has_word(set.all(), text),
        None => false,
    }
}

/// Whether a text may stand in place of a node of the group.
fn takes_text(group: Group) -> bool
    ensures { result ≡ takes_text group }
{
    matches!(group, Group::Name | Group::Lifetime | Group::UseArg)
}

fn is_part(group: Group, nulls: bool, value: &Value) -> bool
    ensures { result ≡ is_part group nulls (view value.now) }
{
    match value {
        Value::Number(_) => true,
        Value::String(_) => takes_text(group),
        Value::Null => nulls,
        _ => false,
    }
}

/// Whether each value may stand for a part of the group: a number, and also a text or null where these may.
pub fn are_parts(group: Group, nulls: bool, items: &[Value]) -> bool
    ensures { result ≡ spec.all_items (is_part group nulls) (items_view items.now) }
{
    for item in items {
        if !is_part(group, nulls, item) {
            return false;
        }
    }
    true
}

fn is_between(low: usize, high: usize, value: &Value) -> bool
    ensures { result ≡ spec.is_between low high (view value.now) }
{
    match value {
        Value::Number(number) => match number.as_u64() {
            Some(k) => (low as u64) < k && k < (high as u64),
            None => false,
        },
        _ => true,
    }
}

/// Whether each number is an index past one place, and in front of another.
pub fn are_between(low: usize, high: usize, items: &[Value]) -> bool
    ensures { result ≡ spec.all_items (spec.is_between low high) (items_view items.now) }
{
    for item in items {
        if !is_between(low, high, item) {
            return false;
        }
    }
    true
}

/// The item at a place, none past the end.
#[tactic(auto, using(crate::proofs::Items::found_at, crate::proofs::Items::past_items))]
pub fn item_at(items: &[Value], at: usize) -> Option<&Value>
    ensures { option_map (λ v. view v.now) result ≡ get_item at (items_view items.entry.now) }
{
    if at < items.len() {
        Some(&items[at])
    } else {
        None
    }
}

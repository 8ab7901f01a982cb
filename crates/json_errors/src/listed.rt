//! The fields of one node.

ghost use Rattle.std.specs.Prelude.{◌≡◌, ◌<◌, length, map, bytes_eq, codes};
ghost use Rattle.serde_json.specs.View.{view, items_view};
ghost use Rattle.serde_json.specs.Find.{as_array, as_str};
ghost use Rattle.json_errors.specs.Rows.{named_sort};
ghost use Rattle.json_errors.specs.Literals as text;
ghost use Rattle.json_errors.specs.Members.{said};
ghost use Rattle.json_errors.specs.Values.{all_items};
ghost use Rattle.json_errors.specs.Nodes as spec;
ghost use Rattle.json_errors.specs.Nodes.{in_list, Walks, text_is};

use crate::fault::Fault;
use crate::field::{Field, Sort};
use crate::group::Group;
use crate::kind::Kind;
use crate::kinds::{is_of_group, kind_at};
use crate::levels::{below, use_each};
use crate::literal::{is_integer, is_truth};
use crate::members::{Member, found};
use crate::value::{are_between, are_parts, index, is_range, is_word, small};
use serde_json::Value;
use std::slice;

/// The fields of every kind.
fn heading() -> &'static [Field]
    ensures { map named_sort result.now ≡ spec.heading }
{
    &[
        Field {
            name: "id",
            sort: Sort::Number,
        },
        Field {
            name: "r",
            sort: Sort::Range,
        },
    ]
}

/// What the text of a literal with that word is.
fn literal_text(word: &str) -> Sort
    ensures { result ≡ spec.literal_sort (bytes_eq word.now (codes "int")) (bytes_eq word.now (codes "bool")) }
{
    if word == "int" {
        Sort::Integer
    } else if word == "bool" {
        Sort::Truth
    } else {
        Sort::Text
    }
}

fn literal_sort(node: &[Member<'_>]) -> Sort
    ensures { result ≡ spec.sort_at (said node.now) Sort.LiteralText }
{
    match found(node, "lit") {
        Some(Value::String(word)) => literal_text(word.as_str()),
        _ => Sort::Text,
    }
}

/// What the label of a block is, in the light of its modifier.
fn label_sort(node: &[Member<'_>]) -> Sort
    ensures { result ≡ spec.sort_at (said node.now) Sort.PlainLabel }
{
    match found(node, "mod") {
        Some(_) => Sort::Excluded,
        None => Sort::Part(Group::Label),
    }
}

/// What the type of a block with that modifier is.
fn type_sort(word: &str) -> Sort
    ensures { result ≡ spec.type_sort (bytes_eq word.now (codes "try")) }
{
    if word == "try" {
        Sort::Part(Group::Type_)
    } else {
        Sort::Excluded
    }
}

/// What the type of a block is, in the light of its modifier.
fn try_type_sort(node: &[Member<'_>]) -> Sort
    ensures { result ≡ spec.sort_at (said node.now) Sort.TryType }
{
    match found(node, "mod") {
        Some(Value::String(word)) => type_sort(word.as_str()),
        _ => Sort::Excluded,
    }
}

/// Whether an array has a semicolon.
fn has_semi(node: &[Member<'_>]) -> bool
    ensures { result ≡ spec.is_set (codes "semi") (said node.now) }
{
    match found(node, "semi") {
        Some(value) => value.as_bool().unwrap_or(false),
        None => false,
    }
}

/// What the elements of an array are, in the light of its semicolon.
fn elements_sort(node: &[Member<'_>]) -> Sort
    ensures { result ≡ spec.sort_at (said node.now) Sort.Elements }
{
    if has_semi(node) {
        Sort::PassedOver
    } else {
        Sort::List(Group::Expr)
    }
}

/// What is repeated in an array, or how often, in the light of its semicolon.
fn repeated_sort(node: &[Member<'_>]) -> Sort
    ensures { result ≡ spec.sort_at (said node.now) Sort.Repeated }
{
    if has_semi(node) {
        Sort::Part(Group::Expr)
    } else {
        Sort::PassedOver
    }
}

/// What a field holds, in the light of the others.
fn sort_at(node: &[Member<'_>], sort: Sort) -> Sort
    ensures { result ≡ spec.sort_at (said node.now) sort }
{
    match sort {
        Sort::LiteralText => literal_sort(node),
        Sort::PlainLabel => label_sort(node),
        Sort::TryType => try_type_sort(node),
        Sort::Elements => elements_sort(node),
        Sort::Repeated => repeated_sort(node),
        _ => sort,
    }
}

/// Whether a field of the sort must be there.
fn is_owed(sort: Sort) -> bool
    ensures { result ≡ spec.is_owed sort }
{
    match sort {
        Sort::Text | Sort::Word(_) | Sort::Integer | Sort::Truth => true,
        _ => false,
    }
}

fn is_integer_text(value: &Value) -> bool
    ensures { result ≡ text_is text.is_integer (as_str (view value.now)) }
{
    match value.as_str() {
        Some(text) => is_integer(text.as_bytes()),
        None => false,
    }
}

fn is_truth_text(value: &Value) -> bool
    ensures { result ≡ text_is text.is_truth (as_str (view value.now)) }
{
    match value.as_str() {
        Some(text) => is_truth(text),
        None => false,
    }
}

/// Whether a value without parts fits the sort.
fn fits(sort: Sort, value: &Value) -> bool
    ensures { result ≡ spec.fits sort (view value.now) }
{
    match sort {
        Sort::Text | Sort::TextIfThere => value.as_str().is_some(),
        Sort::Word(set) | Sort::WordIfThere(set) => is_word(set, value),
        Sort::Flag => value.as_bool().is_some(),
        Sort::Number => small(value).is_some(),
        Sort::Range => is_range(value),
        Sort::Integer => is_integer_text(value),
        Sort::Truth => is_truth_text(value),
        Sort::PassedOver => true,
        _ => false,
    }
}

/// A node of a list, and the kinds of all.
#[derive(Clone, Copy)]
pub struct ListedNode<'k, 'n> {
    pub kinds: &'k [Option<Kind>],
    pub at: usize,
    pub node: &'n [Member<'n>],
}

impl ListedNode<'_, '_> {
    /// Whether a number is the index of a node of the group.
    fn has_part(&self, group: Group, value: &Value) -> bool
        ensures { result ≡ spec.has_part self.now.kinds.now group (view value.now) }
    {
        match index(value) {
            None => true,
            Some(k) => is_of_group(self.kinds, group, k),
        }
    }

    fn have_parts(&self, group: Group, items: &[Value]) -> bool
        ensures { result ≡ all_items (spec.has_part self.now.kinds.now group) (items_view items.now) }
    {
        for item in items {
            if !self.has_part(group, item) {
                return false;
            }
        }
        true
    }

    fn field_fault(&self, field: &'static str) -> Fault
        ensures { result ≡ Fault.Field self.now.at field.entry }
    {
        Fault::Field {
            node: self.at,
            field,
        }
    }

    /// Uses the parts in a field.
    fn parts(
        &self,
        levels: &mut [u16],
        name: &'static str,
        group: Group,
        nulls: bool,
        items: &[Value],
    ) -> Result<(), Fault>
        requires { self.now.at < length levels.old }
        ensures walks { Walks (spec.parts (in_list self.now) name.now group nulls (items_view items.now) levels.old) result levels.new }
        ensures kept { length levels.new ≡ length levels.old }
    {
        if !are_parts(group, nulls, items) {
            return Err(self.field_fault(name));
        }
        if !are_between(self.at, self.kinds.len(), items) {
            return Err(Fault::Index {
                node: self.at,
                field: name,
            });
        }
        let level = below(levels[self.at]);
        if !use_each(levels, level, items) {
            return Err(Fault::UsedTwice {
                node: self.at,
                field: name,
            });
        }
        if !self.have_parts(group, items) {
            return Err(self.field_fault(name));
        }
        Ok(())
    }

    fn list(
        &self,
        levels: &mut [u16],
        name: &'static str,
        group: Group,
        nulls: bool,
        value: &Value,
    ) -> Result<(), Fault>
        requires { self.now.at < length levels.old }
        ensures walks { Walks (spec.list (in_list self.now) name.now group nulls (as_array (view value.now)) levels.old) result levels.new }
        ensures kept { length levels.new ≡ length levels.old }
    {
        match value.as_array() {
            Some(items) => self.parts(levels, name, group, nulls, items.as_slice()),
            None => Err(self.field_fault(name)),
        }
    }

    fn value(
        &self,
        levels: &mut [u16],
        name: &'static str,
        sort: Sort,
        value: &Value,
    ) -> Result<(), Fault>
        requires { self.now.at < length levels.old }
        ensures walks { Walks (spec.value (in_list self.now) name.now sort (view value.now) levels.old) result levels.new }
        ensures kept { length levels.new ≡ length levels.old }
    {
        match sort {
            Sort::Part(group) => self.parts(levels, name, group, false, slice::from_ref(value)),
            Sort::List(group) => self.list(levels, name, group, false, value),
            Sort::ListWithNulls(group) => self.list(levels, name, group, true, value),
            _ => {
                if fits(sort, value) {
                    Ok(())
                } else {
                    Err(self.field_fault(name))
                }
            }
        }
    }

    fn field(&self, levels: &mut [u16], field: &Field) -> Result<(), Fault>
        requires { self.now.at < length levels.old }
        ensures walks { Walks (spec.field (in_list self.now) (named_sort field.now) levels.old) result levels.new }
        ensures kept { length levels.new ≡ length levels.old }
    {
        let sort = sort_at(self.node, field.sort);
        match found(self.node, field.name) {
            Some(value) => self.value(levels, field.name, sort, value),
            None => {
                if is_owed(sort) {
                    Err(self.field_fault(field.name))
                } else {
                    Ok(())
                }
            }
        }
    }

    fn fields(&self, levels: &mut [u16], fields: &[Field]) -> Result<(), Fault>
        requires { self.now.at < length levels.old }
        ensures walks { Walks (spec.fields (in_list self.now) (map named_sort fields.now) levels.old) result levels.new }
        ensures kept { length levels.new ≡ length levels.old }
    {
        for field in fields {
            self.field(levels, field)?;
        }
        Ok(())
    }

    /// Sees that the node has no fault, and uses its parts.
    #[tactic(auto, using(crate::proofs::Sides::is_object))]
    pub fn check(&self, levels: &mut [u16]) -> Result<(), Fault>
        requires { self.now.at < length levels.old }
        ensures walks { Walks (spec.node (in_list self.now) levels.old) result levels.new }
        ensures kept { length levels.new ≡ length levels.old }
    {
        let Some(kind) = kind_at(self.kinds, self.at) else {
            return Err(Fault::Kind { node: self.at });
        };
        self.fields(levels, heading())?;
        self.fields(levels, kind.fields())
    }
}

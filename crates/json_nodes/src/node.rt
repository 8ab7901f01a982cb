//! A node and its fields.

ghost use Rattle.std.specs.Prelude.{◌≡◌, option_and_then, option_map};
ghost use Rattle.serde_json.specs.View.{view, items_view};
ghost use Rattle.json_nodes.specs.Kept.{Kept};
ghost use Rattle.json_nodes.specs.Parts as spec;
ghost use Rattle.json_nodes.specs.Parts.{all_read, or_null};
ghost use Rattle.json_nodes.specs.Nodes.{here, node_at};

use crate::field::{number_or, own_text, range};
use crate::name_parts::NamePart;
use crate::part::{AnyPart, BoxedGroup, Group, LetsGo, ReadParts, in_box, served};
use hir_base::node::{NodeId, TextRange};
use hir_base::{Boxed, Seq, Text};
use json_errors::members::Own;
use json_errors::value::small;
use serde_json::Value;
use std::alloc::Global;
use std::marker::PhantomData;

/// A node of a list, with its number and range, and what reads its parts.
///
/// A value that leads to no part of the group that is wanted says nothing, as if it were absent. Where memory is refused a
/// reading sets `refused` and goes on, and what it answers then means nothing.
#[derive_where(Clone, Copy)]
pub struct Node<'a, P> {
    pub alloc: Global,
    pub parts: &'a P,
    pub value: Own<'a>,
    pub id: NodeId,
    pub range: TextRange,
}

/// A node at an index, with what reads its parts.
pub fn node_at<'a, P: ReadParts>(
    alloc: Global,
    parts: &'a P,
    value: Own<'a>,
    at: u32,
) -> Node<'a, P>
    ensures here { here P.parts result ≡ node_at (P.parts parts.entry.now) at (view value.entry.node.now) }
    ensures parts { result.parts.now ≡ parts.entry.now }
{
    let id = number_or(&value, "id", at);
    let range = range(&value, id);
    Node {
        alloc,
        parts,
        value,
        id: NodeId(id),
        range,
    }
}

/// What a list may hold.
pub trait Item {
    ghost use Rattle.std.specs.Prelude.{Option};
    ghost use Rattle.serde_json.specs.Data.{Data};
    ghost use Rattle.json_nodes.specs.Parts.{Here};

    type Held;

    /// What a value says.
    ghost said: { Here → Data → Option Self.Held };

    fn read<P: ReadParts>(
        node: &Node<'_, P>,
        refused: &mut bool,
        value: &Value,
    ) -> Option<Self::Held>
        requires { P.can node.now.parts.now }
        ensures { Kept refused.old refused.new (result ≡ said (here P.parts node.now) (view value.now)) };
}

/// A part.
pub struct Each<G> {
    group: PhantomData<G>,
}

/// A part, or null.
pub struct OrNull<G> {
    group: PhantomData<G>,
}

impl<G: Group<AnyPart>> Item for Each<G> {
    type Held = G::Part;

    ghost said = { λ h d. spec.child h G.as_group d };

    fn read<P: ReadParts>(
        node: &Node<'_, P>,
        refused: &mut bool,
        value: &Value,
    ) -> Option<G::Part> {
        node.child::<G>(refused, value)
    }
}

impl<G: Group<AnyPart>> Item for OrNull<G> {
    type Held = Option<G::Part>;

    ghost said = { λ h d. or_null (spec.child h G.as_group) d };

    fn read<P: ReadParts>(
        node: &Node<'_, P>,
        refused: &mut bool,
        value: &Value,
    ) -> Option<Option<G::Part>> {
        match value {
            Value::Null => Some(None),
            _ => match node.child::<G>(refused, value) {
                Some(part) => Some(Some(part)),
                None => None,
            },
        }
    }
}

/// What was read, as a part of the group. It has a frame of its own, since no level stands on it.
#[inline(never)]
fn emitted<A, G: Group<A>, P: LetsGo<A>>(parts: &P, read: Option<A>) -> Option<G::Part>
    ensures { result ≡ option_and_then G.as_group read }
{
    served::<A, G, P>(parts, read?)
}

/// The same in a box.
#[inline(never)]
fn emitted_in_box<G: BoxedGroup, P: LetsGo<AnyPart>>(
    alloc: Global,
    parts: &P,
    refused: &mut bool,
    read: Option<AnyPart>,
) -> Option<Boxed<G::Part>>
    ensures { Kept refused.old refused.new (result ≡ option_and_then G.as_group read) }
{
    match emitted::<AnyPart, G, P>(parts, read) {
        Some(part) => in_box::<G>(alloc, refused, part),
        None => None,
    }
}

impl<P: ReadParts> Node<'_, P> {
    /// A text as a part. It has a frame of its own, since no level stands on it.
    #[inline(never)]
    fn written<G: Group<AnyPart>>(&self, refused: &mut bool, text: &str) -> Option<G::Part>
        ensures { Kept refused.old refused.new
            (result ≡ option_and_then G.as_group (spec.text_part (here P.parts self.now) text.now)) }
    {
        match Text::new(self.alloc, text) {
            Ok(text) => {
                let part = AnyPart::Name(NamePart::Text(self.id, self.range, text));
                served::<AnyPart, G, P>(self.parts, part)
            }
            Err(_) => {
                *refused = true;
                None
            }
        }
    }

    /// The same in a box.
    #[inline(never)]
    fn written_in_box<G: BoxedGroup>(
        &self,
        refused: &mut bool,
        text: &str,
    ) -> Option<Boxed<G::Part>>
        ensures { Kept refused.old refused.new
            (result ≡ option_and_then G.as_group (spec.text_part (here P.parts self.now) text.now)) }
    {
        match self.written::<G>(refused, text) {
            Some(part) => in_box::<G>(self.alloc, refused, part),
            None => None,
        }
    }

    /// The part that a value is, as a text, or names, by its index. A function that reads many parts has one of these frames at a time.
    #[inline(never)]
    pub fn child<G: Group<AnyPart>>(&self, refused: &mut bool, value: &Value) -> Option<G::Part>
        requires { P.can self.now.parts.now }
        ensures { Kept refused.old refused.new (result ≡ spec.child (here P.parts self.now) G.as_group (view value.now)) }
    {
        if let Some(text) = value.as_str() {
            return self.written::<G>(refused, text);
        }
        let Some(at) = small(value) else {
            return None;
        };
        emitted::<AnyPart, G, P>(self.parts, self.parts.part_at(self.alloc, refused, at))
    }

    /// The same in a box. Only the box stands in the frames below a level.
    #[inline(never)]
    fn child_in_box<G: BoxedGroup>(
        &self,
        refused: &mut bool,
        value: &Value,
    ) -> Option<Boxed<G::Part>>
        requires { P.can self.now.parts.now }
        ensures { Kept refused.old refused.new (result ≡ spec.child (here P.parts self.now) G.as_group (view value.now)) }
    {
        if let Some(text) = value.as_str() {
            return self.written_in_box::<G>(refused, text);
        }
        let Some(at) = small(value) else {
            return None;
        };
        let read = self.parts.part_at(self.alloc, refused, at);
        emitted_in_box::<G, P>(self.alloc, self.parts, refused, read)
    }

    /// The part in a field.
    pub fn part<G: Group<AnyPart>>(&self, refused: &mut bool, field: &str) -> Option<G::Part>
        requires { P.can self.now.parts.now }
        ensures { Kept refused.old refused.new (result ≡ spec.part_in (here P.parts self.now) G.as_group field.now) }
    {
        let Some(value) = self.value.get(field) else {
            return None;
        };
        self.child::<G>(refused, value)
    }

    /// The same in a box.
    pub fn boxed<G: BoxedGroup>(&self, refused: &mut bool, field: &str) -> Option<Boxed<G::Part>>
        requires { P.can self.now.parts.now }
        ensures { Kept refused.old refused.new (result ≡ spec.part_in (here P.parts self.now) G.as_group field.now) }
    {
        match self.value.get(field) {
            Some(value) => self.child_in_box::<G>(refused, value),
            None => None,
        }
    }

    /// The values in a field, if it is a list.
    fn values(&self, field: &str) -> Option<&[Value]>
        ensures { option_map (λ items. items_view items.now) result ≡ spec.items_in (here P.parts self.entry.now) field.now }
    {
        Some(self.value.get(field)?.as_array()?.as_slice())
    }

    /// What values say.
    #[inline(never)]
    fn items<I: Item>(&self, refused: &mut bool, values: &[Value]) -> Seq<I::Held>
        requires { P.can self.now.parts.now }
        ensures { Kept refused.old refused.new (result ≡ all_read (I.said (here P.parts self.now)) (items_view values.now)) }
    {
        let mut items = Vec::new(self.alloc);
        for value in values {
            match items.reserve(1) {
                Ok(()) => {
                    if let Some(item) = I::read(self, refused, value) {
                        items.push_reserved(item);
                    }
                }
                Err(_) => *refused = true,
            }
        }
        Seq::from_vec(items)
    }

    /// What the list in a field says, nothing where it is absent.
    pub fn list<I: Item>(&self, refused: &mut bool, field: &str) -> Seq<I::Held>
        requires { P.can self.now.parts.now }
        ensures { Kept refused.old refused.new
            (result ≡ spec.listed (I.said (here P.parts self.now)) (spec.items_in (here P.parts self.now) field.now)) }
    {
        match self.values(field) {
            Some(values) => self.items::<I>(refused, values),
            None => Seq::new(self.alloc),
        }
    }

    /// What the list in a field says, if it is there.
    pub fn list_if_there<I: Item>(&self, refused: &mut bool, field: &str) -> Option<Seq<I::Held>>
        requires { P.can self.now.parts.now }
        ensures { Kept refused.old refused.new
            (result ≡ option_map (all_read (I.said (here P.parts self.now))) (spec.items_in (here P.parts self.now) field.now)) }
    {
        match self.values(field) {
            Some(values) => Some(self.items::<I>(refused, values)),
            None => None,
        }
    }

    /// A copy of the text in a field, if it is there.
    pub fn text(&self, refused: &mut bool, field: &str) -> Option<Text>
        ensures { Kept refused.old refused.new (result ≡ spec.text_at (here P.parts self.now) field.now) }
    {
        match own_text(self.alloc, &self.value, field) {
            Ok(text) => text,
            Err(_) => {
                *refused = true;
                None
            }
        }
    }
}

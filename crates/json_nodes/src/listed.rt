//! The nodes of a list, as what reads items sees them.

ghost use Rattle.std.specs.Prelude.{◌≡◌, option_and_then, option_map};
ghost use Rattle.serde_json.specs.Find.{as_array, get};
ghost use Rattle.serde_json.specs.View.{view, items_view};
ghost use Rattle.json_nodes.specs.Kept.{Kept};
ghost use Rattle.json_nodes.specs.Parts.{all_read};
ghost use Rattle.json_nodes.specs.Listed as spec;
ghost use Rattle.json_nodes.specs.Lists.{listed};

use crate::fields::Fields;
use crate::node::node_at;
use crate::part::ReadParts;
use hir_base::Seq;
use json_errors::kind::{ItemNode, Kind};
use json_errors::kinds::kind_at;
use json_errors::members::NodeList;
use json_errors::value::small;
use serde_json::Value;
use std::alloc::Global;

/// What a list in an item may hold.
pub trait ItemPart {
    ghost use Rattle.std.specs.Prelude.{Option};
    ghost use Rattle.serde_json.specs.Data.{Items};
    ghost use Rattle.json_errors.specs.declared.kind.ItemNode.{ItemNode as NodeKind};
    ghost use Rattle.json_nodes.specs.Parts.{Here};

    type Held;

    /// What a node of a kind says, which stands among others.
    ghost said: { Items → Here → NodeKind → Option Self.Held };

    fn read<F: Fields>(
        nodes: &NodeList<'_>,
        node: &F,
        refused: &mut bool,
        kind: ItemNode,
    ) -> Option<Self::Held>
        requires { F.can node.now }
        ensures { Kept refused.old refused.new (result ≡ said (items_view nodes.now.nodes.now) (F.here node.now) kind) };
}

/// The nodes of a list with their kinds, and what reads the parts of those that stand in the lists of items.
///
/// Where memory is refused a reading sets `refused` and goes on, and what it answers then means nothing.
#[derive_where(Clone, Copy)]
pub struct ListedNodes<'k, 'n, 'p, P> {
    pub alloc: Global,
    pub kinds: &'k [Option<Kind>],
    pub nodes: &'n NodeList<'n>,
    pub parts: &'p P,
}

impl<P: ReadParts> ListedNodes<'_, '_, '_, P> {
    /// The kind of the node at an index, where it is one of items.
    fn item_kind(&self, at: u32) -> Option<ItemNode>
        ensures { result ≡ spec.item_kind (spec.kind_of (listed P.parts self.now) at) }
    {
        match kind_at(self.kinds, at as usize) {
            Some(Kind::Item(kind)) => Some(kind),
            _ => None,
        }
    }

    /// The part at an index.
    fn part_at<I: ItemPart>(&self, refused: &mut bool, at: u32) -> Option<I::Held>
        requires { P.can self.now.parts.now }
        ensures { Kept refused.old refused.new (result ≡ spec.part_at (listed P.parts self.now) I.said at) }
    {
        let Some(value) = self.nodes.at(at as usize) else {
            return None;
        };
        let Some(kind) = self.item_kind(at) else {
            return None;
        };
        let node = node_at(self.alloc, self.parts, value, at);
        I::read(self.nodes, &node, refused, kind)
    }

    /// The part that a value names by its index.
    fn child<I: ItemPart>(&self, refused: &mut bool, value: &Value) -> Option<I::Held>
        requires { P.can self.now.parts.now }
        ensures { Kept refused.old refused.new (result ≡ spec.child (listed P.parts self.now) I.said (view value.now)) }
    {
        match small(value) {
            Some(at) => self.part_at::<I>(refused, at),
            None => None,
        }
    }

    /// The parts that values name.
    fn children<I: ItemPart>(&self, refused: &mut bool, values: &[Value]) -> Seq<I::Held>
        requires { P.can self.now.parts.now }
        ensures { Kept refused.old refused.new
            (result ≡ all_read (spec.child (listed P.parts self.now) I.said) (items_view values.now)) }
    {
        let mut parts = Vec::new(self.alloc);
        for value in values {
            match parts.reserve(1) {
                Ok(()) => {
                    if let Some(part) = self.child::<I>(refused, value) {
                        parts.push_reserved(part);
                    }
                }
                Err(_) => *refused = true,
            }
        }
        Seq::from_vec(parts)
    }

    /// The values in a field of the node at an index, if it is there and a list.
    fn values(&self, field: &str, at: u32) -> Option<&[Value]>
        ensures { option_map (λ items. items_view items.now) result ≡ spec.values (listed P.parts self.entry.now) field.now at }
    {
        Some(
            self.nodes
                .at(at as usize)?
                .get(field)?
                .as_array()?
                .as_slice(),
        )
    }

    /// The parts that the list in a field of the node at an index names, none where it is absent.
    pub fn list_at<I: ItemPart>(&self, refused: &mut bool, field: &str, at: u32) -> Seq<I::Held>
        requires { P.can self.now.parts.now }
        ensures { Kept refused.old refused.new (result ≡ spec.list_at (listed P.parts self.now) I.said field.now at) }
    {
        match self.values(field, at) {
            Some(values) => self.children::<I>(refused, values),
            None => Seq::new(self.alloc),
        }
    }
}

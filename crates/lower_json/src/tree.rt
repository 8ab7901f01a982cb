//! The trees of a list of nodes.

ghost use Rattle.std.specs.Prelude.{◌≡◌, IfOk, option_and_then};
ghost use Rattle.serde_json.specs.View.{view, items_view};
ghost use Rattle.json_nodes.specs.Kept.{Kept};
ghost use Rattle.json_nodes.specs.Nodes.{here, node_at};
ghost use Rattle.json_nodes.specs.Lists.{listed};
ghost use Rattle.lower_json.specs.Reads.{Reads};
ghost use Rattle.lower_json.specs.Reading as spec;
ghost use Rattle.lower_json.specs.Reading.{fragment_of, of_kind, tree_of, tree_at};

use crate::document::{Root, Tree};
use crate::sorts::of_kind;
use hir_base::Boxed;
use hir_base::node::{NodeId, TextRange};
use hir_syntax::ast::{Fragment, Param, ParamList, Pat};
use hir_syntax::items::TypeAlias;
use json_errors::kind::{ItemNode, Kind};
use json_errors::kinds::kind_at;
use json_errors::members::{NodeList, Own};
use json_nodes::code_parts::{Exprs, MacroStmtLists};
use json_nodes::fields::Fields;
use json_nodes::items::{function, type_alias};
use json_nodes::listed::ListedNodes;
use json_nodes::node::{Node, node_at};
use json_nodes::param_parts::Pats;
use json_nodes::part::{AnyPart, BoxedGroup, Group, ReadParts, in_box, served};
use json_nodes::paths::path;
use json_nodes::type_parts::Types;
use serde_json::Value;
use std::alloc::{AllocError, Global};

/// The levels below the root.
const LEVELS_BELOW: u32 = 255;

/// The levels below what stands in a list of an item at the root.
const LEVELS_BELOW_LISTED: u32 = 253;

const LAST_ID: NodeId = NodeId(u32::MAX);

const LAST_RANGE: TextRange = TextRange {
    start: u32::MAX,
    end: u32::MAX,
};

/// A list of nodes with their kinds, read on so many levels at most by a function.
#[derive_where(Clone, Copy; F)]
pub struct Level<'k, 'n, F> {
    kinds: &'k [Option<Kind>],
    nodes: &'n NodeList<'n>,
    levels: u32,
    read: F,
}

impl<F> ReadParts for Level<'_, '_, F>
where
    F: Fn(Global, &[Option<Kind>], &NodeList<'_>, u32, &mut bool, u32) -> Option<AnyPart>,
{
    ghost can = { λ it. Reads (F.pre it.read) (F.post it.read) it.kinds.now it.nodes.now it.levels };

    ghost parts = { λ it. spec.part_at it.levels it.kinds.now (items_view it.nodes.now.nodes.now) };

    fn part_at(&self, alloc: Global, refused: &mut bool, at: u32) -> Option<AnyPart> {
        (self.read)(alloc, self.kinds, self.nodes, self.levels, refused, at)
    }
}

fn read_part(
    alloc: Global,
    kinds: &[Option<Kind>],
    nodes: &NodeList<'_>,
    levels: u32,
    refused: &mut bool,
    at: u32,
) -> Option<AnyPart>
    ensures { Kept refused.old refused.new (result ≡ spec.part_at levels kinds.now (items_view nodes.now.nodes.now) at) }
{
    if levels == 0 {
        return None;
    }
    let Some(value) = (&*nodes).at(at as usize) else {
        return None;
    };
    let Some(kind) = kind_at(kinds, at as usize) else {
        return None;
    };
    let inside = Level {
        kinds,
        nodes: &*nodes,
        levels: levels - 1,
        read: read_part,
    };
    of_kind(&node_at(alloc, &inside, value, at), refused, kind)
}

/// What of a group stands at a node, if anything does.
fn one_of<G: Group<AnyPart>, P: ReadParts>(
    node: &Node<'_, P>,
    refused: &mut bool,
    kind: Option<Kind>,
) -> Option<G::Part>
    requires { P.can node.now.parts.now }
    ensures { Kept refused.old refused.new
        (result ≡ option_and_then G.as_group (option_and_then (of_kind (here P.parts node.now)) kind)) }
{
    let part = of_kind(node, refused, kind?)?;
    served::<AnyPart, G, P>(node.parts, part)
}

/// The same in a box.
fn boxed<G: BoxedGroup, P: ReadParts>(
    node: &Node<'_, P>,
    refused: &mut bool,
    kind: Option<Kind>,
) -> Option<Boxed<G::Part>>
    requires { P.can node.now.parts.now }
    ensures { Kept refused.old refused.new
        (result ≡ option_and_then G.as_group (option_and_then (of_kind (here P.parts node.now)) kind)) }
{
    let part = one_of::<G, P>(node, refused, kind)?;
    in_box::<G>(node.alloc, refused, part)
}

/// A pattern as the only parameter of a function.
fn only_param<F: Fields>(node: &F, refused: &mut bool, pat: Option<Boxed<Pat>>) -> ParamList
    ensures { Kept refused.old refused.new (result ≡ spec.only_param pat) }
{
    let param = Param {
        id: LAST_ID,
        range: LAST_RANGE,
        pat,
        ty: None,
        variadic: false,
    };
    ParamList {
        id: LAST_ID,
        range: LAST_RANGE,
        self_: None,
        params: node.only_param(refused, param),
    }
}

fn tree_of<P: ReadParts>(
    node: &Node<'_, P>,
    items: &ListedNodes<'_, '_, '_, P>,
    refused: &mut bool,
    want: Root,
    kind: Option<Kind>,
) -> Tree
    requires node { P.can node.now.parts.now }
    requires items { P.can items.now.parts.now }
    ensures { Kept refused.old refused.new (result ≡ tree_of want kind (here P.parts node.now) (listed P.parts items.now)) }
{
    match want {
        Root::Fn => Tree::Fn(function(node, items, refused)),
        Root::Path => Tree::Path(path(node, refused)),
        Root::Type_ => Tree::Type_(one_of::<Types, P>(node, refused, kind)),
        Root::Pat => {
            let pat = boxed::<Pats, P>(node, refused, kind);
            Tree::Pat(only_param(node, refused, pat))
        }
    }
}

/// The tree at a node whose root is wanted, by its value and kind.
fn whole_tree<P: ReadParts>(
    parts: &P,
    items: &ListedNodes<'_, '_, '_, P>,
    want: Root,
    kind: Option<Kind>,
    value: Own<'_>,
    at: u32,
) -> Result<Tree, AllocError>
    requires parts { P.can parts.now }
    requires items { P.can items.now.parts.now }
    ensures { IfOk result (λ tree.
        tree ≡ tree_of want kind (node_at (P.parts parts.now) at (view value.entry.node.now)) (listed P.parts items.now)) }
{
    let mut refused = false;
    let node = node_at(items.alloc, parts, value, at);
    let tree = tree_of(&node, items, &mut refused, want, kind);
    if !refused {
        return Ok(tree);
    }
    drop(tree);
    Err(AllocError)
}

/// The tree whose root is wanted. Past the end the root says nothing.
#[tactic(auto, unfolding(crate::specs::Reading::tree_at))]
pub fn read_tree_at(
    alloc: Global,
    want: Root,
    kinds: &[Option<Kind>],
    nodes: &NodeList<'_>,
    root: u32,
) -> Result<Tree, AllocError>
    ensures { IfOk result (λ tree. tree ≡ tree_at want kinds.now (items_view nodes.now.nodes.now) root) }
{
    let inside = Level {
        kinds,
        nodes,
        levels: LEVELS_BELOW,
        read: read_part,
    };
    let in_lists = Level {
        kinds,
        nodes,
        levels: LEVELS_BELOW_LISTED,
        read: read_part,
    };
    let items = ListedNodes {
        alloc,
        kinds,
        nodes,
        parts: &in_lists,
    };
    let kind = kind_at(kinds, root as usize);
    match nodes.at(root as usize) {
        Some(value) => whole_tree(&inside, &items, want, kind, value, root),
        None => whole_tree(
            &inside,
            &items,
            want,
            kind,
            Own {
                node: &Value::Null,
                members: &[],
            },
            root,
        ),
    }
}

/// Whether the node at an index is an alias of a type.
fn is_alias(kinds: &[Option<Kind>], at: u32) -> bool
    ensures { result ≡ spec.is_alias (spec.kind_of kinds.now at) }
{
    matches!(
        kind_at(kinds, at as usize),
        Some(Kind::Item(ItemNode::TypeAlias))
    )
}

/// The alias whose root is at an index, if it is there. Its root is on the first level.
#[tactic(auto, unfolding(crate::specs::Reading::alias_at))]
pub fn alias_at(
    alloc: Global,
    kinds: &[Option<Kind>],
    nodes: &NodeList<'_>,
    refused: &mut bool,
    root: u32,
) -> Option<TypeAlias>
    ensures { Kept refused.old refused.new (result ≡ spec.alias_at kinds.now (items_view nodes.now.nodes.now) root) }
{
    let Some(value) = nodes.at(root as usize) else {
        return None;
    };
    if !is_alias(kinds, root) {
        return None;
    }
    let inside = Level {
        kinds,
        nodes,
        levels: LEVELS_BELOW,
        read: read_part,
    };
    let in_lists = Level {
        kinds,
        nodes,
        levels: LEVELS_BELOW_LISTED,
        read: read_part,
    };
    let items = ListedNodes {
        alloc,
        kinds,
        nodes,
        parts: &in_lists,
    };
    let node = node_at(alloc, &inside, value, root);
    Some(type_alias(&node, &items, refused))
}

/// What stands at a node of a kind, as what a macro call is expanded to.
fn fragment_of<P: ReadParts>(node: &Node<'_, P>, refused: &mut bool, kind: Kind) -> Option<Fragment>
    requires { P.can node.now.parts.now }
    ensures { Kept refused.old refused.new (result ≡ fragment_of (here P.parts node.now) kind) }
{
    match kind {
        Kind::Pat(_) => Some(Fragment::Pat(boxed::<Pats, P>(node, refused, Some(kind))?)),
        Kind::Type_(_) | Kind::PathType => Some(Fragment::Type_(boxed::<Types, P>(
            node,
            refused,
            Some(kind),
        )?)),
        Kind::Part(_) => Some(Fragment::Stmts(boxed::<MacroStmtLists, P>(
            node,
            refused,
            Some(kind),
        )?)),
        _ => Some(Fragment::Expr(boxed::<Exprs, P>(node, refused, Some(kind))?)),
    }
}

/// The same, by the value and the index of the node.
fn whole_fragment<P: ReadParts>(
    alloc: Global,
    parts: &P,
    kind: Kind,
    value: Own<'_>,
    at: u32,
) -> Result<Option<Fragment>, AllocError>
    requires { P.can parts.now }
    ensures { IfOk result (λ tree. tree ≡ fragment_of (node_at (P.parts parts.now) at (view value.entry.node.now)) kind) }
{
    let mut refused = false;
    let fragment = fragment_of(&node_at(alloc, parts, value, at), &mut refused, kind);
    if !refused {
        return Ok(fragment);
    }
    drop(fragment);
    Err(AllocError)
}

/// What a macro call is expanded to, whose root is at an index, if it is there. Its root is on the first level, wherever
/// the call stands.
#[tactic(auto, unfolding(crate::specs::Reading::fragment_at))]
pub fn fragment_at(
    alloc: Global,
    kinds: &[Option<Kind>],
    nodes: &NodeList<'_>,
    root: u32,
) -> Result<Option<Fragment>, AllocError>
    ensures { IfOk result (λ tree. tree ≡ spec.fragment_at kinds.now (items_view nodes.now.nodes.now) root) }
{
    let Some(value) = nodes.at(root as usize) else {
        return Ok(None);
    };
    let Some(kind) = kind_at(kinds, root as usize) else {
        return Ok(None);
    };
    let inside = Level {
        kinds,
        nodes,
        levels: LEVELS_BELOW,
        read: read_part,
    };
    whole_fragment(alloc, &inside, kind, value, root)
}

//! Generic parameters and conditions, and the lists of them.

ghost use Rattle.std.specs.Prelude.{◌≡◌};
ghost use Rattle.serde_json.specs.View.{view, items_view};
ghost use Rattle.json_nodes.specs.Kept.{Kept};
ghost use Rattle.json_nodes.specs.Generics as spec;
ghost use Rattle.json_nodes.specs.Lists.{listed};

use crate::fields::{All, Fields, InBox, One};
use crate::listed::{ItemPart, ListedNodes};
use crate::name_parts::{Lifetimes, Names};
use crate::part::ReadParts;
use crate::path_parts::ConstArgs;
use crate::type_parts::{Binders, Bounds, Types};
use hir_syntax::ast::ForBinder;
use hir_syntax::items::{GenericParam, GenericParamList, WhereClause, WherePred};
use json_errors::kind::{ItemNode, Kind};
use json_errors::kinds::kind_at;
use json_errors::members::{NodeList, Own};
use json_errors::value::small;

/// A generic parameter.
#[tactic(auto, unfolding(crate::specs::Generics::generic_param))]
fn generic_param<F: Fields>(node: &F, refused: &mut bool, kind: ItemNode) -> Option<GenericParam>
    requires { F.can node.now }
    ensures { Kept refused.old refused.new (result ≡ spec.generic_param (F.here node.now) kind) }
{
    match kind {
        ItemNode::TypeParam => {
            let name = node.field::<One<Names>>(refused, "name");
            let bounds = node.field::<All<Bounds>>(refused, "bounds");
            let default = node.field::<InBox<Types>>(refused, "default");
            Some(GenericParam::TypeParam {
                id: node.id(),
                range: node.range(),
                name,
                bounds,
                default,
            })
        }
        ItemNode::ConstParam => {
            let name = node.field::<One<Names>>(refused, "name");
            let ty = node.field::<InBox<Types>>(refused, "ty");
            let default = node.field::<One<ConstArgs>>(refused, "default");
            Some(GenericParam::ConstParam {
                id: node.id(),
                range: node.range(),
                name,
                ty,
                default,
            })
        }
        ItemNode::LifetimeParam => {
            let lifetime = node.field::<One<Lifetimes>>(refused, "lifetime");
            let bounds = node.field::<All<Bounds>>(refused, "bounds");
            Some(GenericParam::LifetimeParam {
                id: node.id(),
                range: node.range(),
                lifetime,
                bounds,
            })
        }
        _ => None,
    }
}

/// The index in a field.
fn index_in(node: &Own<'_>, field: &str) -> Option<u32>
    ensures { result ≡ spec.index_in field.now (view node.now.node.now) }
{
    small(node.get(field)?)
}

/// Whether the binder at an index has a list.
fn has_list(nodes: &NodeList<'_>, at: u32) -> bool
    ensures { result ≡ spec.has_list (items_view nodes.now.nodes.now) at }
{
    match nodes.at(at as usize) {
        Some(binder) => binder.get("params").is_some(),
        None => false,
    }
}

/// Whether a condition names a binder that has a list.
fn has_binder(nodes: &NodeList<'_>, node: &Own<'_>) -> bool
    ensures { result ≡ spec.has_binder (items_view nodes.now.nodes.now) (view node.now.node.now) }
{
    match index_in(node, "binder") {
        Some(at) => has_list(nodes, at),
        None => false,
    }
}

/// The binder of a condition. One whose list is absent is none.
fn binder<F: Fields>(nodes: &NodeList<'_>, node: &F, refused: &mut bool) -> Option<ForBinder>
    requires { F.can node.now }
    ensures { Kept refused.old refused.new (result ≡ spec.binder (items_view nodes.now.nodes.now) (F.here node.now)) }
{
    if has_binder(nodes, node.value()) {
        node.field::<One<Binders>>(refused, "binder")
    } else {
        None
    }
}

/// A condition.
#[tactic(auto, unfolding(crate::specs::Generics::where_pred))]
fn where_pred<F: Fields>(
    nodes: &NodeList<'_>,
    node: &F,
    refused: &mut bool,
    kind: ItemNode,
) -> Option<WherePred>
    requires { F.can node.now }
    ensures { Kept refused.old refused.new (result ≡ spec.where_pred (items_view nodes.now.nodes.now) (F.here node.now) kind) }
{
    match kind {
        ItemNode::WherePred => {
            let ty = node.field::<InBox<Types>>(refused, "ty");
            let lifetime = node.field::<One<Lifetimes>>(refused, "lifetime");
            let binder = binder(nodes, node, refused);
            let bounds = node.field::<All<Bounds>>(refused, "bounds");
            Some(WherePred {
                id: node.id(),
                range: node.range(),
                ty,
                lifetime,
                binder,
                bounds,
            })
        }
        _ => None,
    }
}

/// Generic parameters.
pub struct GenericParams;

/// Conditions.
pub struct WherePreds;

impl ItemPart for GenericParams {
    type Held = GenericParam;

    ghost said = { λ _ h kind. spec.generic_param h kind };

    fn read<F: Fields>(
        _nodes: &NodeList<'_>,
        node: &F,
        refused: &mut bool,
        kind: ItemNode,
    ) -> Option<GenericParam> {
        generic_param(node, refused, kind)
    }
}

impl ItemPart for WherePreds {
    type Held = WherePred;

    ghost said = { spec.where_pred };

    fn read<F: Fields>(
        nodes: &NodeList<'_>,
        node: &F,
        refused: &mut bool,
        kind: ItemNode,
    ) -> Option<WherePred> {
        where_pred(nodes, node, refused, kind)
    }
}

/// The list of generic parameters at an index.
fn generics_at<P: ReadParts>(
    nodes: &ListedNodes<'_, '_, '_, P>,
    refused: &mut bool,
    at: u32,
) -> Option<GenericParamList>
    requires { P.can nodes.now.parts.now }
    ensures { Kept refused.old refused.new (result ≡ spec.generics_at (listed P.parts nodes.now) at) }
{
    match kind_at(nodes.kinds, at as usize) {
        Some(Kind::Item(ItemNode::GenericParamList)) => {
            Some(nodes.list_at::<GenericParams>(refused, "params", at))
        }
        _ => None,
    }
}

/// The list of conditions at an index.
fn where_at<P: ReadParts>(
    nodes: &ListedNodes<'_, '_, '_, P>,
    refused: &mut bool,
    at: u32,
) -> Option<WhereClause>
    requires { P.can nodes.now.parts.now }
    ensures { Kept refused.old refused.new (result ≡ spec.where_at (listed P.parts nodes.now) at) }
{
    match kind_at(nodes.kinds, at as usize) {
        Some(Kind::Item(ItemNode::WhereClause)) => {
            Some(nodes.list_at::<WherePreds>(refused, "preds", at))
        }
        _ => None,
    }
}

/// The generic parameters of an item.
pub fn generics<P: ReadParts>(
    nodes: &ListedNodes<'_, '_, '_, P>,
    refused: &mut bool,
    item: &Own<'_>,
) -> Option<GenericParamList>
    requires { P.can nodes.now.parts.now }
    ensures { Kept refused.old refused.new (result ≡ spec.generics (listed P.parts nodes.now) (view item.now.node.now)) }
{
    match index_in(item, "generics") {
        Some(at) => generics_at(nodes, refused, at),
        None => None,
    }
}

/// The conditions of an item.
pub fn where_clause<P: ReadParts>(
    nodes: &ListedNodes<'_, '_, '_, P>,
    refused: &mut bool,
    item: &Own<'_>,
) -> Option<WhereClause>
    requires { P.can nodes.now.parts.now }
    ensures { Kept refused.old refused.new (result ≡ spec.where_clause (listed P.parts nodes.now) (view item.now.node.now)) }
{
    match index_in(item, "where") {
        Some(at) => where_at(nodes, refused, at),
        None => None,
    }
}

//! Functions and aliases of types.

ghost use Rattle.std.specs.Prelude.{◌≡◌};
ghost use Rattle.json_nodes.specs.Kept.{Kept};
ghost use Rattle.json_nodes.specs.Items as spec;
ghost use Rattle.json_nodes.specs.Lists.{listed};

use crate::code_parts::Exprs;
use crate::field::flag;
use crate::fields::{All, Fields, InBox, One};
use crate::generics::{generics, where_clause};
use crate::listed::ListedNodes;
use crate::param_parts::ParamLists;
use crate::part::ReadParts;
use crate::type_parts::{Bounds, Rets, Types};
use hir_syntax::items::{Fn, TypeAlias};

/// A function: what is generic in it, its parameters, what it returns, its body, and what makes a coroutine of that.
#[tactic(auto, unfolding(crate::specs::Items::function))]
pub fn function<F: Fields, P: ReadParts>(
    node: &F,
    nodes: &ListedNodes<'_, '_, '_, P>,
    refused: &mut bool,
) -> Fn
    requires node { F.can node.now }
    requires nodes { P.can nodes.now.parts.now }
    ensures { Kept refused.old refused.new (result ≡ spec.function (F.here node.now) (listed P.parts nodes.now)) }
{
    let generics = generics(nodes, refused, node.value());
    let where_ = where_clause(nodes, refused, node.value());
    let params = node.field::<One<ParamLists>>(refused, "params");
    let ret = node.field::<One<Rets>>(refused, "ret");
    let body = node.field::<InBox<Exprs>>(refused, "body");
    Fn {
        id: node.id(),
        range: node.range(),
        generics,
        where_,
        params,
        ret,
        body,
        async_: flag(node.value(), "async"),
        gen_: flag(node.value(), "gen"),
    }
}

/// Another name for a type.
#[tactic(auto, unfolding(crate::specs::Items::type_alias))]
pub fn type_alias<F: Fields, P: ReadParts>(
    node: &F,
    nodes: &ListedNodes<'_, '_, '_, P>,
    refused: &mut bool,
) -> TypeAlias
    requires node { F.can node.now }
    requires nodes { P.can nodes.now.parts.now }
    ensures { Kept refused.old refused.new (result ≡ spec.type_alias (F.here node.now) (listed P.parts nodes.now)) }
{
    let bounds = node.field::<All<Bounds>>(refused, "bounds");
    let generics = generics(nodes, refused, node.value());
    let where_ = where_clause(nodes, refused, node.value());
    let ty = node.field::<InBox<Types>>(refused, "ty");
    TypeAlias {
        id: node.id(),
        range: node.range(),
        bounds,
        generics,
        where_,
        ty,
    }
}

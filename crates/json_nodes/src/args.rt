//! Arguments of names.

ghost use Rattle.std.specs.Prelude.{◌≡◌, Some};
ghost use Rattle.hir_syntax.specs.declared.types.GenericArg.TheVariants as generic_arg;
ghost use Rattle.json_nodes.specs.Kept.{Kept};
ghost use Rattle.json_nodes.specs.Args as spec;

use crate::code_parts::Exprs;
use crate::field::flag;
use crate::fields::{All, Fields, InBox, One};
use crate::name_parts::{Lifetimes, Names};
use crate::part::in_box;
use crate::path_parts::{GenericArgLists, GenericArgs, PathPart, TypeArgs};
use crate::type_parts::{Bounds, Types};
use hir_base::Boxed;
use hir_syntax::ast::{AssocTypeArg, GenericArg, LifetimeArg};
use json_errors::kind::PathNode;

#[inline(never)]
#[tactic(auto, unfolding(crate::specs::Args::assoc_arg))]
fn assoc_arg<F: Fields>(node: &F, refused: &mut bool) -> Option<Boxed<GenericArg>>
    requires { F.can node.now }
    ensures { Kept refused.old refused.new (result ≡ Some (generic_arg.AssocTypeArg (spec.assoc_arg (F.here node.now)))) }
{
    let name = node.field::<One<Names>>(refused, "name");
    let generics = node.field::<One<GenericArgLists>>(refused, "generics");
    let ty = node.field::<InBox<Types>>(refused, "ty");
    let bounds = node.field::<All<Bounds>>(refused, "bounds");
    let arg = GenericArg::AssocTypeArg(AssocTypeArg {
        id: node.id(),
        range: node.range(),
        name,
        params: flag(node.value(), "params"),
        generics,
        rtn: flag(node.value(), "rtn"),
        ty,
        bounds,
    });
    in_box::<GenericArgs>(node.alloc(), refused, arg)
}

#[inline(never)]
#[tactic(auto, unfolding(crate::specs::Args::lifetime_arg))]
fn lifetime_arg<F: Fields>(node: &F, refused: &mut bool) -> Option<Boxed<GenericArg>>
    requires { F.can node.now }
    ensures { Kept refused.old refused.new (result ≡ Some (generic_arg.LifetimeArg (spec.lifetime_arg (F.here node.now)))) }
{
    let lifetime = node.field::<One<Lifetimes>>(refused, "lifetime");
    let arg = GenericArg::LifetimeArg(LifetimeArg {
        id: node.id(),
        range: node.range(),
        lifetime,
    });
    in_box::<GenericArgs>(node.alloc(), refused, arg)
}

#[inline(never)]
#[tactic(auto, unfolding(crate::specs::Args::arg))]
fn arg<F: Fields>(node: &F, refused: &mut bool, kind: PathNode) -> Option<PathPart>
    requires { F.can node.now }
    ensures { Kept refused.old refused.new (result ≡ spec.arg (F.here node.now) kind) }
{
    match kind {
        PathNode::TypeArg => {
            let ty = node.field::<InBox<Types>>(refused, "ty");
            Some(PathPart::TypeArg(ty))
        }
        PathNode::AssocTypeArg => Some(PathPart::GenericArg(assoc_arg(node, refused)?)),
        PathNode::LifetimeArg => Some(PathPart::GenericArg(lifetime_arg(node, refused)?)),
        PathNode::ConstArg => {
            let expr = node.field::<InBox<Exprs>>(refused, "expr");
            Some(PathPart::ConstArg(expr))
        }
        _ => None,
    }
}

#[inline(never)]
#[tactic(auto, unfolding(crate::specs::Args::arg_list))]
fn arg_list<F: Fields>(node: &F, refused: &mut bool, kind: PathNode) -> Option<PathPart>
    requires { F.can node.now }
    ensures { Kept refused.old refused.new (result ≡ spec.arg_list (F.here node.now) kind) }
{
    match kind {
        PathNode::GenericArgList => {
            let args = node.field::<All<GenericArgs>>(refused, "args");
            Some(PathPart::GenericArgs(args))
        }
        PathNode::ParenArgs => {
            let args = node.field::<All<TypeArgs>>(refused, "args");
            Some(PathPart::ParenArgs(args))
        }
        _ => None,
    }
}

/// An argument, or a list of some.
pub fn of_args<F: Fields>(node: &F, refused: &mut bool, kind: PathNode) -> Option<PathPart>
    requires { F.can node.now }
    ensures { Kept refused.old refused.new (result ≡ spec.of_args (F.here node.now) kind) }
{
    match kind {
        PathNode::GenericArgList | PathNode::ParenArgs => arg_list(node, refused, kind),
        _ => arg(node, refused, kind),
    }
}

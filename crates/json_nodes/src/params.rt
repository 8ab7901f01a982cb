//! Parameters.

ghost use Rattle.std.specs.Prelude.{◌≡◌, Some};
ghost use Rattle.json_nodes.specs.Kept.{Kept};
ghost use Rattle.json_nodes.specs.Params as spec;

use crate::field::flag;
use crate::fields::{All, Fields, InBox, One};
use crate::name_parts::{Lifetimes, Names};
use crate::param_parts::{ParamLists, ParamPart, Params, Pats, SelfParams};
use crate::part::in_box;
use crate::type_parts::Types;
use hir_base::Boxed;
use hir_syntax::ast::{Param, ParamList, SelfParam};
use json_errors::kind::PartNode;

#[inline(never)]
#[tactic(auto, unfolding(crate::specs::Params::self_param))]
fn self_param<F: Fields>(node: &F, refused: &mut bool) -> Option<Boxed<SelfParam>>
    requires { F.can node.now }
    ensures { Kept refused.old refused.new (result ≡ Some (spec.self_param (F.here node.now))) }
{
    let name = node.field::<One<Names>>(refused, "name");
    let lifetime = node.field::<One<Lifetimes>>(refused, "lifetime");
    let ty = node.field::<InBox<Types>>(refused, "ty");
    let param = SelfParam {
        id: node.id(),
        range: node.range(),
        name,
        ref_: flag(node.value(), "ref"),
        mut_: flag(node.value(), "mut"),
        lifetime,
        ty,
    };
    in_box::<SelfParams>(node.alloc(), refused, param)
}

#[inline(never)]
#[tactic(auto, unfolding(crate::specs::Params::param_list))]
fn param_list<F: Fields>(node: &F, refused: &mut bool) -> Option<Boxed<ParamList>>
    requires { F.can node.now }
    ensures { Kept refused.old refused.new (result ≡ Some (spec.param_list (F.here node.now))) }
{
    let self_ = node.field::<One<SelfParams>>(refused, "self");
    let params = node.field::<All<Params>>(refused, "params");
    let list = ParamList {
        id: node.id(),
        range: node.range(),
        self_,
        params,
    };
    in_box::<ParamLists>(node.alloc(), refused, list)
}

/// A parameter, a `self`, or all of a function.
#[inline(never)]
#[tactic(auto, unfolding(crate::specs::Params::of_param))]
pub fn of_param<F: Fields>(node: &F, refused: &mut bool, kind: PartNode) -> Option<ParamPart>
    requires { F.can node.now }
    ensures { Kept refused.old refused.new (result ≡ spec.of_param (F.here node.now) kind) }
{
    match kind {
        PartNode::Param => {
            let pat = node.field::<InBox<Pats>>(refused, "pat");
            let ty = node.field::<InBox<Types>>(refused, "ty");
            Some(ParamPart::Param(Param {
                id: node.id(),
                range: node.range(),
                pat,
                ty,
                variadic: flag(node.value(), "variadic"),
            }))
        }
        PartNode::SelfParam => Some(ParamPart::SelfParam(self_param(node, refused)?)),
        PartNode::ParamList => Some(ParamPart::ParamList(param_list(node, refused)?)),
        _ => None,
    }
}

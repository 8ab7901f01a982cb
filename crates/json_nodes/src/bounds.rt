//! Bounds, binders and return types.

ghost use Rattle.std.specs.Prelude.{◌≡◌, Some, codes, option_and_then};
ghost use Rattle.serde_json.specs.View.{view};
ghost use Rattle.json_nodes.specs.Kept.{Kept};
ghost use Rattle.json_nodes.specs.Bounds as spec;
ghost use Rattle.json_nodes.specs.Fields.{text_in};

use crate::field::{flag, text};
use crate::fields::{All, AllOrNulls, Fields, InBox, One};
use crate::name_parts::{Lifetimes, UseArgs};
use crate::part::in_box;
use crate::type_parts::{Binders, Bounds, PathTypes, TypePart, Types};
use hir_base::Boxed;
use hir_syntax::ast::{BoundKind, ForBinder, TypeBound};
use json_errors::kind::PartNode;
use json_errors::members::Own;

/// The kind with that word.
fn bound_kind_of(word: &str) -> Option<BoundKind>
    ensures { result ≡ spec.bound_kind_of word.now }
{
    match word {
        "path" => Some(BoundKind::Path),
        "use" => Some(BoundKind::Use),
        "lifetime" => Some(BoundKind::Lifetime),
        _ => None,
    }
}

fn bound_kind(node: &Own<'_>) -> Option<BoundKind>
    ensures { result ≡ option_and_then spec.bound_kind_of (text_in (codes "b") (view node.now.node.now)) }
{
    bound_kind_of(text(node, "b")?)
}

#[inline(never)]
#[tactic(auto, unfolding(crate::specs::Bounds::bound))]
fn bound<F: Fields>(node: &F, refused: &mut bool) -> Option<Boxed<TypeBound>>
    requires { F.can node.now }
    ensures { Kept refused.old refused.new (result ≡ Some (spec.bound (F.here node.now))) }
{
    let ty = node.field::<One<PathTypes>>(refused, "ty");
    let binder = node.field::<One<Binders>>(refused, "binder");
    let lifetime = node.field::<One<Lifetimes>>(refused, "lifetime");
    let uses = node.field::<All<UseArgs>>(refused, "uses");
    let bound = TypeBound {
        id: node.id(),
        range: node.range(),
        b: bound_kind(node.value()),
        ty,
        binder,
        maybe: flag(node.value(), "maybe"),
        lifetime,
        uses,
    };
    in_box::<Bounds>(node.alloc(), refused, bound)
}

/// A bound, or what else stands beside types.
#[inline(never)]
#[tactic(auto, unfolding(crate::specs::Bounds::of_bound))]
pub fn of_bound<F: Fields>(node: &F, refused: &mut bool, kind: PartNode) -> Option<TypePart>
    requires { F.can node.now }
    ensures { Kept refused.old refused.new (result ≡ spec.of_bound (F.here node.now) kind) }
{
    match kind {
        PartNode::TypeBound => Some(TypePart::Bound(bound(node, refused)?)),
        PartNode::ForBinder => {
            let params = node.field::<AllOrNulls<Lifetimes>>(refused, "params");
            Some(TypePart::Binder(ForBinder {
                id: node.id(),
                range: node.range(),
                params,
            }))
        }
        PartNode::RetType => {
            let ty = node.field::<InBox<Types>>(refused, "ty");
            Some(TypePart::Ret(ty))
        }
        _ => None,
    }
}

//! Expressions that name a member, or list their elements.

ghost use Rattle.std.specs.Prelude.{◌≡◌};
ghost use Rattle.json_nodes.specs.Kept.{Kept};
ghost use Rattle.json_nodes.specs.Exprs as spec;

use crate::code_parts::{ExprPart, Exprs};
use crate::field::flag;
use crate::fields::{All, AllIfThere, Fields, InBox, One};
use crate::name_parts::Names;
use crate::part::whole;
use crate::path_parts::GenericArgLists;
use hir_syntax::ast::ExprKind;
use json_errors::kind::ExprNode;

/// An array, which with a semicolon repeats one part.
#[tactic(auto, unfolding(crate::specs::Exprs::array))]
fn array<F: Fields>(node: &F, refused: &mut bool) -> ExprKind
    requires { F.can node.now }
    ensures { Kept refused.old refused.new (result ≡ spec.array (F.here node.now)) }
{
    if flag(node.value(), "semi") {
        let init = node.field::<InBox<Exprs>>(refused, "init");
        let len = node.field::<InBox<Exprs>>(refused, "len");
        ExprKind::RepeatExpr { init, len }
    } else {
        let elems = node.field::<All<Exprs>>(refused, "elems");
        ExprKind::ArrayExpr { elems }
    }
}

/// Methods and fields, tuples and arrays.
#[inline(never)]
#[tactic(auto, unfolding(crate::specs::Exprs::member))]
pub fn member<F: Fields>(node: &F, refused: &mut bool, kind: ExprNode) -> Option<ExprPart>
    requires { F.can node.now }
    ensures { Kept refused.old refused.new (result ≡ spec.member (F.here node.now) kind) }
{
    match kind {
        ExprNode::MethodCallExpr => {
            let receiver = node.field::<InBox<Exprs>>(refused, "receiver");
            let name = node.field::<One<Names>>(refused, "name");
            let generics = node.field::<One<GenericArgLists>>(refused, "generics");
            let args = node.field::<AllIfThere<Exprs>>(refused, "args");
            whole::<Exprs, F>(
                node,
                refused,
                ExprKind::MethodCallExpr {
                    receiver,
                    name,
                    generics,
                    args,
                },
            )
        }
        ExprNode::FieldExpr => {
            let expr = node.field::<InBox<Exprs>>(refused, "expr");
            let name = node.field::<One<Names>>(refused, "name");
            whole::<Exprs, F>(node, refused, ExprKind::FieldExpr { expr, name })
        }
        ExprNode::TupleExpr => {
            let fields = node.field::<All<Exprs>>(refused, "fields");
            whole::<Exprs, F>(
                node,
                refused,
                ExprKind::TupleExpr {
                    leading_comma: flag(node.value(), "leading_comma"),
                    fields,
                },
            )
        }
        ExprNode::ArrayExpr => {
            let kind = array(node, refused);
            whole::<Exprs, F>(node, refused, kind)
        }
        _ => None,
    }
}

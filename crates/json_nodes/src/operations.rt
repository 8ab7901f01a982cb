//! Expressions that are made of operands.

ghost use Rattle.std.specs.Prelude.{◌≡◌};
ghost use Rattle.json_nodes.specs.Kept.{Kept};
ghost use Rattle.json_nodes.specs.Exprs as spec;

use crate::code_parts::{ExprPart, Exprs};
use crate::field::flag;
use crate::fields::{Fields, InBox};
use crate::operators::{binary_op, unary_op};
use crate::part::whole;
use hir_syntax::ast::ExprKind;
use json_errors::kind::ExprNode;

/// Operators, references and indexes.
#[inline(never)]
#[tactic(auto, unfolding(crate::specs::Exprs::operation))]
pub fn operation<F: Fields>(node: &F, refused: &mut bool, kind: ExprNode) -> Option<ExprPart>
    requires { F.can node.now }
    ensures { Kept refused.old refused.new (result ≡ spec.operation (F.here node.now) kind) }
{
    match kind {
        ExprNode::PrefixExpr => {
            let expr = node.field::<InBox<Exprs>>(refused, "expr");
            let op = unary_op(node.value());
            whole::<Exprs, F>(node, refused, ExprKind::PrefixExpr { op, expr })
        }
        ExprNode::BinExpr => {
            let lhs = node.field::<InBox<Exprs>>(refused, "lhs");
            let rhs = node.field::<InBox<Exprs>>(refused, "rhs");
            let op = binary_op(node.value());
            whole::<Exprs, F>(node, refused, ExprKind::BinExpr { op, lhs, rhs })
        }
        ExprNode::IndexExpr => {
            let base = node.field::<InBox<Exprs>>(refused, "base");
            let index = node.field::<InBox<Exprs>>(refused, "index");
            whole::<Exprs, F>(node, refused, ExprKind::IndexExpr { base, index })
        }
        ExprNode::RefExpr => {
            let expr = node.field::<InBox<Exprs>>(refused, "expr");
            whole::<Exprs, F>(
                node,
                refused,
                ExprKind::RefExpr {
                    raw: flag(node.value(), "raw"),
                    mut_: flag(node.value(), "mut"),
                    expr,
                },
            )
        }
        _ => None,
    }
}

//! Expressions that leave a body, or wait in it.

ghost use Rattle.std.specs.Prelude.{◌≡◌};
ghost use Rattle.json_nodes.specs.Kept.{Kept};
ghost use Rattle.json_nodes.specs.Exprs as spec;

use crate::code_parts::{ExprPart, Exprs};
use crate::fields::{Fields, InBox};
use crate::part::whole;
use hir_syntax::ast::ExprKind;
use json_errors::kind::ExprNode;

/// `return`, `become`, `yield`, `do yeet` and `.await`.
#[inline(never)]
#[tactic(auto, unfolding(crate::specs::Exprs::leaving))]
pub fn leaving<F: Fields>(node: &F, refused: &mut bool, kind: ExprNode) -> Option<ExprPart>
    requires { F.can node.now }
    ensures { Kept refused.old refused.new (result ≡ spec.leaving (F.here node.now) kind) }
{
    match kind {
        ExprNode::ReturnExpr => {
            let expr = node.field::<InBox<Exprs>>(refused, "expr");
            whole::<Exprs, F>(node, refused, ExprKind::ReturnExpr { expr })
        }
        ExprNode::BecomeExpr => {
            let expr = node.field::<InBox<Exprs>>(refused, "expr");
            whole::<Exprs, F>(node, refused, ExprKind::BecomeExpr { expr })
        }
        ExprNode::YieldExpr => {
            let expr = node.field::<InBox<Exprs>>(refused, "expr");
            whole::<Exprs, F>(node, refused, ExprKind::YieldExpr { expr })
        }
        ExprNode::YeetExpr => {
            let expr = node.field::<InBox<Exprs>>(refused, "expr");
            whole::<Exprs, F>(node, refused, ExprKind::YeetExpr { expr })
        }
        ExprNode::AwaitExpr => {
            let expr = node.field::<InBox<Exprs>>(refused, "expr");
            whole::<Exprs, F>(node, refused, ExprKind::AwaitExpr { expr })
        }
        _ => None,
    }
}

//! What has patterns: conditions, arms, and what follows a pattern.

ghost use Rattle.std.specs.Prelude.{◌≡◌};
ghost use Rattle.json_nodes.specs.Kept.{Kept};
ghost use Rattle.json_nodes.specs.Branches as spec;

use crate::code_parts::{Arms, Blocks, CodePart, ExprPart, Exprs, Guards};
use crate::fields::{AllIfThere, Fields, InBox, One};
use crate::param_parts::Pats;
use crate::part::whole;
use hir_syntax::ast::{ExprKind, MatchArm};
use json_errors::kind::{ExprNode, PartNode};

/// `let` as a condition, and `match`.
#[inline(never)]
#[tactic(auto, unfolding(crate::specs::Branches::branching))]
pub fn branching<F: Fields>(node: &F, refused: &mut bool, kind: ExprNode) -> Option<ExprPart>
    requires { F.can node.now }
    ensures { Kept refused.old refused.new (result ≡ spec.branching (F.here node.now) kind) }
{
    match kind {
        ExprNode::LetExpr => {
            let pat = node.field::<InBox<Pats>>(refused, "pat");
            let expr = node.field::<InBox<Exprs>>(refused, "expr");
            whole::<Exprs, F>(node, refused, ExprKind::LetExpr { pat, expr })
        }
        ExprNode::MatchExpr => {
            let expr = node.field::<InBox<Exprs>>(refused, "expr");
            let arms = node.field::<AllIfThere<Arms>>(refused, "arms");
            whole::<Exprs, F>(node, refused, ExprKind::MatchExpr { expr, arms })
        }
        _ => None,
    }
}

/// An arm, its guard, and what follows the `else` of a `let`.
#[inline(never)]
#[tactic(auto, unfolding(crate::specs::Branches::of_branch))]
pub fn of_branch<F: Fields>(node: &F, refused: &mut bool, kind: PartNode) -> Option<CodePart>
    requires { F.can node.now }
    ensures { Kept refused.old refused.new (result ≡ spec.of_branch (F.here node.now) kind) }
{
    match kind {
        PartNode::MatchArm => {
            let pat = node.field::<InBox<Pats>>(refused, "pat");
            let guard = node.field::<One<Guards>>(refused, "guard");
            let expr = node.field::<InBox<Exprs>>(refused, "expr");
            Some(CodePart::Arm(MatchArm {
                id: node.id(),
                range: node.range(),
                pat,
                guard,
                expr,
            }))
        }
        PartNode::Guard => {
            let condition = node.field::<InBox<Exprs>>(refused, "condition");
            Some(CodePart::Guard(condition))
        }
        PartNode::LetElse => {
            let block = node.field::<One<Blocks>>(refused, "block");
            Some(CodePart::LetElse(block))
        }
        _ => None,
    }
}

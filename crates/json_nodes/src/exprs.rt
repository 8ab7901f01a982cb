//! Expressions of the core, by their kind.

ghost use Rattle.std.specs.Prelude.{◌≡◌};
ghost use Rattle.json_nodes.specs.Kept.{Kept};
ghost use Rattle.json_nodes.specs.Exprs as spec;

use crate::code_parts::{Blocks, Elses, ExprPart, Exprs, MacroCalls};
use crate::fields::{AllIfThere, Fields, InBox, One};
use crate::literal::literal;
use crate::name_parts::{Labels, Lifetimes};
use crate::operators::range_op;
use crate::param_parts::Pats;
use crate::part::{in_box, whole};
use crate::path_parts::Paths;
use hir_syntax::ast::{Expr, ExprKind};
use json_errors::kind::ExprNode;

#[tactic(auto, unfolding(crate::specs::Exprs::if_expr))]
fn if_expr<F: Fields>(node: &F, refused: &mut bool) -> ExprKind
    requires { F.can node.now }
    ensures { Kept refused.old refused.new (result ≡ spec.if_expr (F.here node.now)) }
{
    let condition = node.field::<InBox<Exprs>>(refused, "condition");
    let then = node.field::<One<Blocks>>(refused, "then");
    let else_ = node.field::<One<Elses>>(refused, "else");
    ExprKind::IfExpr {
        condition,
        then,
        else_,
    }
}

/// An `if`, which is told from other expressions, since it may follow `else`.
pub fn of_if<F: Fields>(node: &F, refused: &mut bool) -> Option<ExprPart>
    requires { F.can node.now }
    ensures { Kept refused.old refused.new (result ≡ spec.of_if (F.here node.now)) }
{
    let expr = Expr {
        id: node.id(),
        range: node.range(),
        kind: if_expr(node, refused),
    };
    let expr = in_box::<Exprs>(node.alloc(), refused, expr)?;
    Some(ExprPart::If(expr))
}

/// A literal, which is told from other expressions, since it may stand in a pattern.
pub fn of_literal<F: Fields>(node: &F, refused: &mut bool) -> Option<ExprPart>
    ensures { Kept refused.old refused.new (result ≡ spec.of_literal (F.here node.now)) }
{
    match literal(node.alloc(), node.value()) {
        Ok(Some(literal)) => Some(ExprPart::Literal(node.id(), node.range(), literal)),
        Ok(None) => None,
        Err(_) => {
            *refused = true;
            None
        }
    }
}

/// What steers the order of running.
#[inline(never)]
#[tactic(auto, unfolding(crate::specs::Exprs::flow))]
pub fn flow<F: Fields>(node: &F, refused: &mut bool, kind: ExprNode) -> Option<ExprPart>
    requires { F.can node.now }
    ensures { Kept refused.old refused.new (result ≡ spec.flow (F.here node.now) kind) }
{
    match kind {
        ExprNode::LoopExpr => {
            let label = node.field::<One<Labels>>(refused, "label");
            let body = node.field::<One<Blocks>>(refused, "body");
            whole::<Exprs, F>(node, refused, ExprKind::LoopExpr { label, body })
        }
        ExprNode::WhileExpr => {
            let label = node.field::<One<Labels>>(refused, "label");
            let condition = node.field::<InBox<Exprs>>(refused, "condition");
            let body = node.field::<One<Blocks>>(refused, "body");
            whole::<Exprs, F>(
                node,
                refused,
                ExprKind::WhileExpr {
                    label,
                    condition,
                    body,
                },
            )
        }
        ExprNode::ForExpr => {
            let label = node.field::<One<Labels>>(refused, "label");
            let pat = node.field::<InBox<Pats>>(refused, "pat");
            let iterable = node.field::<InBox<Exprs>>(refused, "iterable");
            let body = node.field::<One<Blocks>>(refused, "body");
            whole::<Exprs, F>(
                node,
                refused,
                ExprKind::ForExpr {
                    label,
                    pat,
                    iterable,
                    body,
                },
            )
        }
        ExprNode::TryExpr => {
            let expr = node.field::<InBox<Exprs>>(refused, "expr");
            whole::<Exprs, F>(node, refused, ExprKind::TryExpr { expr })
        }
        ExprNode::ContinueExpr => {
            let lifetime = node.field::<One<Lifetimes>>(refused, "lifetime");
            whole::<Exprs, F>(node, refused, ExprKind::ContinueExpr { lifetime })
        }
        ExprNode::BreakExpr => {
            let lifetime = node.field::<One<Lifetimes>>(refused, "lifetime");
            let expr = node.field::<InBox<Exprs>>(refused, "expr");
            whole::<Exprs, F>(node, refused, ExprKind::BreakExpr { lifetime, expr })
        }
        _ => None,
    }
}

/// Calls, also of macros, paths, parentheses and ranges.
#[inline(never)]
#[tactic(auto, unfolding(crate::specs::Exprs::plain))]
pub fn plain<F: Fields>(node: &F, refused: &mut bool, kind: ExprNode) -> Option<ExprPart>
    requires { F.can node.now }
    ensures { Kept refused.old refused.new (result ≡ spec.plain (F.here node.now) kind) }
{
    match kind {
        ExprNode::CallExpr => {
            let expr = node.field::<InBox<Exprs>>(refused, "expr");
            let args = node.field::<AllIfThere<Exprs>>(refused, "args");
            whole::<Exprs, F>(node, refused, ExprKind::CallExpr { expr, args })
        }
        ExprNode::MacroExpr => {
            let call = node.field::<One<MacroCalls>>(refused, "call");
            whole::<Exprs, F>(node, refused, ExprKind::MacroExpr { call })
        }
        ExprNode::PathExpr => {
            let path = node.field::<InBox<Paths>>(refused, "path");
            whole::<Exprs, F>(node, refused, ExprKind::PathExpr { path })
        }
        ExprNode::ParenExpr => {
            let expr = node.field::<InBox<Exprs>>(refused, "expr");
            whole::<Exprs, F>(node, refused, ExprKind::ParenExpr { expr })
        }
        ExprNode::RangeExpr => {
            let start = node.field::<InBox<Exprs>>(refused, "start");
            let end = node.field::<InBox<Exprs>>(refused, "end");
            let op = range_op(node.value());
            whole::<Exprs, F>(node, refused, ExprKind::RangeExpr { op, start, end })
        }
        _ => None,
    }
}

//! Whether the condition of a `while` holds a `let`, which is asked before it is lowered or behind it, and tells nothing.

ghost use Rattle.std.specs.Prelude.{◌≡◌, ◌&&◌, ◌||◌};
ghost use Rattle.hir_env.specs.Conditions as of;
ghost use Rattle.hir_env.specs.Whole.{resolved_expr, expr_part, kept_expr};
ghost use Rattle.hir_lower_expr.specs.Conditions.{is_and, let_there};
ghost use Rattle.hir_lower_pat.specs.TargetLists.{expr_behind};

use hir_base::op::{BinaryOp, LogicOp};
use hir_lower_builder::parts::{LowerParts, Lowerer, site};
use hir_lower_pat::callees::expr_behind;
use hir_syntax::{Boxed, ast};

/// `&&`.
fn is_and(op: &Option<BinaryOp>) -> bool
    ensures { result ≡ is_and op.now }
{
    matches!(op, Some(BinaryOp::LogicOp(LogicOp::And)))
}

/// Whether a call stands for an expression that holds one.
#[cycle(holds_let)]
fn called_with_let<P: LowerParts>(lowerer: &Lowerer<P>, call: &ast::MacroCall) -> bool
    ensures { let rctx = P.rctx lowerer.now.parts in result ≡ let_there rctx (expr_behind rctx call.now) }
{
    match expr_behind(lowerer, call) {
        None => false,
        Some((place, node)) => is_with_let(&lowerer.moved(place), node),
    }
}

/// Whether an operator is `&&`, and an operand holds one.
#[cycle(holds_let)]
fn is_and_with_let<P: LowerParts>(
    lowerer: &Lowerer<P>,
    op: &Option<BinaryOp>,
    lhs: &Option<Boxed<ast::Expr>>,
    rhs: &Option<Boxed<ast::Expr>>,
) -> bool
    ensures { let rctx = P.rctx lowerer.now.parts in
        result ≡ (is_and op.now && (of.holds_let (expr_part rctx lhs.now) || of.holds_let (expr_part rctx rhs.now))) }
{
    is_and(op) && (holds_let(lowerer, lhs) || holds_let(lowerer, rhs))
}

/// Whether an expression is a `let`, or `&&` of which an operand holds one, whatever disables it. Parentheses and calls are passed.
#[cycle(holds_let)]
fn is_kept_with_let<P: LowerParts>(lowerer: &Lowerer<P>, node: &ast::Expr) -> bool
    ensures { result ≡ of.is_with_let (kept_expr (P.rctx lowerer.now.parts) node.now) }
{
    match &node.kind {
        ast::ExprKind::LetExpr { .. } => true,
        ast::ExprKind::ParenExpr { expr } => holds_let(lowerer, expr),
        ast::ExprKind::BinExpr { op, lhs, rhs } => is_and_with_let(lowerer, op, lhs, rhs),
        ast::ExprKind::MacroExpr { call } => match call {
            None => false,
            Some(call) => called_with_let(lowerer, call),
        },
        _ => false,
    }
}

/// The same, where no condition disables it.
#[cycle(holds_let)]
fn is_with_let<P: LowerParts>(lowerer: &Lowerer<P>, node: &ast::Expr) -> bool
    ensures { result ≡ of.is_with_let (resolved_expr (P.rctx lowerer.now.parts) node.now) }
{
    let at = lowerer.pointer(node.id, node.range);
    match lowerer.parts.cfg(site(at)) {
        Err(_) => false,
        Ok(()) => is_kept_with_let(lowerer, node),
    }
}

/// Whether a condition holds one. An absent one doesn't.
#[cycle(holds_let)]
pub(crate) fn holds_let<P: LowerParts>(
    lowerer: &Lowerer<P>,
    part: &Option<Boxed<ast::Expr>>,
) -> bool
    ensures { result ≡ of.holds_let (expr_part (P.rctx lowerer.now.parts) part.now) }
{
    match part {
        None => false,
        Some(node) => is_with_let(lowerer, node.get()),
    }
}

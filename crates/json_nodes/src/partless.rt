//! Expressions without parts.

ghost use Rattle.std.specs.Prelude.{◌≡◌, codes};
ghost use Rattle.serde_json.specs.View.{view};
ghost use Rattle.serde_json.specs.Find.{get};
ghost use Rattle.json_nodes.specs.Kept.{Kept};
ghost use Rattle.json_nodes.specs.Exprs as spec;

use crate::code_parts::{ExprPart, Exprs};
use crate::fields::Fields;
use crate::part::whole;
use hir_base::node::PredId;
use hir_syntax::ast::ExprKind;
use json_errors::kind::ExprNode;
use json_errors::members::Own;
use json_errors::value::small;

/// The predicate that a node names.
pub fn pred(node: &Own<'_>) -> Option<PredId>
    ensures { result ≡ spec.pred_in (get (codes "pred") (view node.now.node.now)) }
{
    Some(PredId(small(node.get("pred")?)?))
}

/// Predicates of conditions, `_`, and what the compiler's own macros write.
#[inline(never)]
#[tactic(auto, unfolding(crate::specs::Exprs::partless))]
pub fn partless<F: Fields>(node: &F, refused: &mut bool, kind: ExprNode) -> Option<ExprPart>
    ensures { Kept refused.old refused.new (result ≡ spec.partless (F.here node.now) kind) }
{
    match kind {
        ExprNode::CfgPredExpr => whole::<Exprs, F>(
            node,
            refused,
            ExprKind::CfgPredExpr {
                pred: pred(node.value()),
            },
        ),
        ExprNode::UnderscoreExpr => whole::<Exprs, F>(node, refused, ExprKind::UnderscoreExpr),
        ExprNode::IncludeBytesExpr => whole::<Exprs, F>(node, refused, ExprKind::IncludeBytesExpr),
        ExprNode::AsmExpr => whole::<Exprs, F>(node, refused, ExprKind::AsmExpr),
        ExprNode::FormatArgsExpr => whole::<Exprs, F>(node, refused, ExprKind::FormatArgsExpr),
        _ => None,
    }
}

//! Macro calls, and the statements that one may be expanded to.

ghost use Rattle.std.specs.Prelude.{◌≡◌};
ghost use Rattle.json_nodes.specs.Kept.{Kept};
ghost use Rattle.json_nodes.specs.Macros as spec;

use crate::code_parts::{CodePart, Exprs, Stmts};
use crate::fields::{All, Fields, InBox};
use crate::path_parts::Paths;
use hir_syntax::ast::{MacroCall, MacroStmts};
use json_errors::kind::PartNode;

/// A macro call, or statements with an expression behind them.
#[inline(never)]
#[tactic(auto, unfolding(crate::specs::Macros::of_macro))]
pub fn of_macro<F: Fields>(node: &F, refused: &mut bool, kind: PartNode) -> Option<CodePart>
    requires { F.can node.now }
    ensures { Kept refused.old refused.new (result ≡ spec.of_macro (F.here node.now) kind) }
{
    match kind {
        PartNode::MacroCall => {
            let path = node.field::<InBox<Paths>>(refused, "path");
            Some(CodePart::MacroCall(MacroCall {
                id: node.id(),
                range: node.range(),
                path,
            }))
        }
        PartNode::MacroStmts => {
            let stmts = node.field::<All<Stmts>>(refused, "stmts");
            let expr = node.field::<InBox<Exprs>>(refused, "expr");
            Some(CodePart::MacroStmts(MacroStmts {
                id: node.id(),
                range: node.range(),
                stmts,
                expr,
            }))
        }
        _ => None,
    }
}

//! Expressions with types or paths, the parts of a record, and those of a pattern of one.

ghost use Rattle.std.specs.Prelude.{◌≡◌};
ghost use Rattle.json_nodes.specs.Kept.{Kept};
ghost use Rattle.json_nodes.specs.Typed as spec;

use crate::code_parts::{CodePart, ExprPart, Exprs, RecordFields, RecordLists};
use crate::field::flag;
use crate::fields::{All, AllIfThere, Fields, InBox, One};
use crate::name_parts::Names;
use crate::param_parts::{Params, PatPart, Pats};
use crate::part::whole;
use crate::path_parts::Paths;
use crate::type_parts::{Rets, Types};
use hir_syntax::ast::{ExprKind, RecordExprField, RecordExprFieldList, RecordPatField};
use json_errors::kind::{ExprNode, PartNode};

#[tactic(auto, unfolding(crate::specs::Typed::closure))]
fn closure<F: Fields>(node: &F, refused: &mut bool) -> ExprKind
    requires { F.can node.now }
    ensures { Kept refused.old refused.new (result ≡ spec.closure (F.here node.now)) }
{
    let params = node.field::<AllIfThere<Params>>(refused, "params");
    let ret = node.field::<One<Rets>>(refused, "ret");
    let body = node.field::<InBox<Exprs>>(refused, "body");
    ExprKind::ClosureExpr {
        params,
        ret,
        body,
        async_: flag(node.value(), "async"),
        gen_: flag(node.value(), "gen"),
        move_: flag(node.value(), "move"),
        static_: flag(node.value(), "static"),
    }
}

/// Casts, records, offsets of fields and closures.
#[inline(never)]
#[tactic(auto, unfolding(crate::specs::Typed::typed))]
pub fn typed<F: Fields>(node: &F, refused: &mut bool, kind: ExprNode) -> Option<ExprPart>
    requires { F.can node.now }
    ensures { Kept refused.old refused.new (result ≡ spec.typed (F.here node.now) kind) }
{
    match kind {
        ExprNode::CastExpr => {
            let expr = node.field::<InBox<Exprs>>(refused, "expr");
            let ty = node.field::<InBox<Types>>(refused, "ty");
            whole::<Exprs, F>(node, refused, ExprKind::CastExpr { expr, ty })
        }
        ExprNode::RecordExpr => {
            let path = node.field::<InBox<Paths>>(refused, "path");
            let list = node.field::<One<RecordLists>>(refused, "list");
            whole::<Exprs, F>(node, refused, ExprKind::RecordExpr { path, list })
        }
        ExprNode::OffsetOfExpr => {
            let ty = node.field::<InBox<Types>>(refused, "ty");
            let fields = node.field::<All<Names>>(refused, "fields");
            whole::<Exprs, F>(node, refused, ExprKind::OffsetOfExpr { ty, fields })
        }
        ExprNode::ClosureExpr => {
            let kind = closure(node, refused);
            whole::<Exprs, F>(node, refused, kind)
        }
        _ => None,
    }
}

/// The fields of a record, and one of them.
#[inline(never)]
#[tactic(auto, unfolding(crate::specs::Typed::of_record))]
pub fn of_record<F: Fields>(node: &F, refused: &mut bool, kind: PartNode) -> Option<CodePart>
    requires { F.can node.now }
    ensures { Kept refused.old refused.new (result ≡ spec.of_record (F.here node.now) kind) }
{
    match kind {
        PartNode::RecordExprFieldList => {
            let fields = node.field::<All<RecordFields>>(refused, "fields");
            let spread = node.field::<InBox<Exprs>>(refused, "spread");
            Some(CodePart::RecordList(RecordExprFieldList {
                id: node.id(),
                range: node.range(),
                fields,
                spread,
                dotdot: flag(node.value(), "dotdot"),
            }))
        }
        PartNode::RecordExprField => {
            let name = node.field::<One<Names>>(refused, "name");
            let expr = node.field::<InBox<Exprs>>(refused, "expr");
            Some(CodePart::RecordField(RecordExprField {
                id: node.id(),
                range: node.range(),
                name,
                expr,
            }))
        }
        _ => None,
    }
}

/// A field of a pattern.
#[inline(never)]
#[tactic(auto, unfolding(crate::specs::Typed::of_pat_field))]
pub fn of_pat_field<F: Fields>(node: &F, refused: &mut bool, kind: PartNode) -> Option<PatPart>
    requires { F.can node.now }
    ensures { Kept refused.old refused.new (result ≡ spec.of_pat_field (F.here node.now) kind) }
{
    match kind {
        PartNode::RecordPatField => {
            let name = node.field::<One<Names>>(refused, "name");
            let pat = node.field::<InBox<Pats>>(refused, "pat");
            Some(PatPart::PatField(RecordPatField {
                id: node.id(),
                range: node.range(),
                name,
                pat,
            }))
        }
        _ => None,
    }
}

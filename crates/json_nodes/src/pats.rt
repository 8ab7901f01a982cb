//! Patterns.

ghost use Rattle.std.specs.Prelude.{◌≡◌};
ghost use Rattle.json_nodes.specs.Kept.{Kept};
ghost use Rattle.json_nodes.specs.Pats as spec;

use crate::code_parts::{MacroCalls, PatLiterals};
use crate::field::flag;
use crate::fields::{All, Fields, InBox, One};
use crate::name_parts::Names;
use crate::operators::range_op;
use crate::param_parts::{PatFields, PatPart, Pats};
use crate::part::whole;
use crate::partless::pred;
use crate::path_parts::Paths;
use hir_syntax::ast::PatKind;
use json_errors::kind::PatNode;

/// Names and paths, and tuples behind a path or without one.
#[inline(never)]
#[tactic(auto, unfolding(crate::specs::Pats::named))]
fn named<F: Fields>(node: &F, refused: &mut bool, kind: PatNode) -> Option<PatPart>
    requires { F.can node.now }
    ensures { Kept refused.old refused.new (result ≡ spec.named (F.here node.now) kind) }
{
    match kind {
        PatNode::IdentPat => {
            let name = node.field::<One<Names>>(refused, "name");
            let pat = node.field::<InBox<Pats>>(refused, "pat");
            let kind = PatKind::IdentPat {
                name,
                ref_: flag(node.value(), "ref"),
                mut_: flag(node.value(), "mut"),
                pat,
            };
            whole::<Pats, F>(node, refused, kind)
        }
        PatNode::TupleStructPat => {
            let path = node.field::<InBox<Paths>>(refused, "path");
            let fields = node.field::<All<Pats>>(refused, "fields");
            let kind = PatKind::TupleStructPat {
                path,
                leading_comma: flag(node.value(), "leading_comma"),
                fields,
            };
            whole::<Pats, F>(node, refused, kind)
        }
        PatNode::TuplePat => {
            let fields = node.field::<All<Pats>>(refused, "fields");
            let kind = PatKind::TuplePat {
                leading_comma: flag(node.value(), "leading_comma"),
                fields,
            };
            whole::<Pats, F>(node, refused, kind)
        }
        PatNode::PathPat => {
            let path = node.field::<InBox<Paths>>(refused, "path");
            whole::<Pats, F>(node, refused, PatKind::PathPat { path })
        }
        _ => None,
    }
}

/// What stands around one pattern, or between some.
#[inline(never)]
#[tactic(auto, unfolding(crate::specs::Pats::around))]
fn around<F: Fields>(node: &F, refused: &mut bool, kind: PatNode) -> Option<PatPart>
    requires { F.can node.now }
    ensures { Kept refused.old refused.new (result ≡ spec.around (F.here node.now) kind) }
{
    match kind {
        PatNode::RefPat => {
            let pat = node.field::<InBox<Pats>>(refused, "pat");
            let mut_ = flag(node.value(), "mut");
            whole::<Pats, F>(node, refused, PatKind::RefPat { mut_, pat })
        }
        PatNode::OrPat => {
            let pats = node.field::<All<Pats>>(refused, "pats");
            whole::<Pats, F>(node, refused, PatKind::OrPat { pats })
        }
        PatNode::ParenPat => {
            let pat = node.field::<InBox<Pats>>(refused, "pat");
            whole::<Pats, F>(node, refused, PatKind::ParenPat { pat })
        }
        PatNode::BoxPat => {
            let pat = node.field::<InBox<Pats>>(refused, "pat");
            whole::<Pats, F>(node, refused, PatKind::BoxPat { pat })
        }
        PatNode::DerefPat => {
            let pat = node.field::<InBox<Pats>>(refused, "pat");
            whole::<Pats, F>(node, refused, PatKind::DerefPat { pat })
        }
        _ => None,
    }
}

/// Records and slices.
#[inline(never)]
#[tactic(auto, unfolding(crate::specs::Pats::pieces))]
fn pieces<F: Fields>(node: &F, refused: &mut bool, kind: PatNode) -> Option<PatPart>
    requires { F.can node.now }
    ensures { Kept refused.old refused.new (result ≡ spec.pieces (F.here node.now) kind) }
{
    match kind {
        PatNode::RecordPat => {
            let path = node.field::<InBox<Paths>>(refused, "path");
            let fields = node.field::<All<PatFields>>(refused, "fields");
            let rest = flag(node.value(), "rest");
            whole::<Pats, F>(node, refused, PatKind::RecordPat { path, fields, rest })
        }
        PatNode::SlicePat => {
            let prefix = node.field::<All<Pats>>(refused, "prefix");
            let slice = node.field::<InBox<Pats>>(refused, "slice");
            let suffix = node.field::<All<Pats>>(refused, "suffix");
            whole::<Pats, F>(
                node,
                refused,
                PatKind::SlicePat {
                    prefix,
                    slice,
                    suffix,
                },
            )
        }
        _ => None,
    }
}

/// Values, ranges between two, and macro calls.
#[inline(never)]
#[tactic(auto, unfolding(crate::specs::Pats::values))]
fn values<F: Fields>(node: &F, refused: &mut bool, kind: PatNode) -> Option<PatPart>
    requires { F.can node.now }
    ensures { Kept refused.old refused.new (result ≡ spec.values (F.here node.now) kind) }
{
    match kind {
        PatNode::LiteralPat => {
            let lit = node.field::<One<PatLiterals>>(refused, "lit");
            let minus = flag(node.value(), "minus");
            whole::<Pats, F>(node, refused, PatKind::LiteralPat { lit, minus })
        }
        PatNode::RangePat => {
            let start = node.field::<InBox<Pats>>(refused, "start");
            let end = node.field::<InBox<Pats>>(refused, "end");
            let op = range_op(node.value());
            whole::<Pats, F>(node, refused, PatKind::RangePat { op, start, end })
        }
        PatNode::MacroPat => {
            let call = node.field::<One<MacroCalls>>(refused, "call");
            whole::<Pats, F>(node, refused, PatKind::MacroPat { call })
        }
        _ => None,
    }
}

/// Predicates of conditions, `_`, `..`, `!null`, and blocks of constants.
#[inline(never)]
#[tactic(auto, unfolding(crate::specs::Pats::partless_pat))]
fn partless_pat<F: Fields>(node: &F, refused: &mut bool, kind: PatNode) -> Option<PatPart>
    ensures { Kept refused.old refused.new (result ≡ spec.partless_pat (F.here node.now) kind) }
{
    match kind {
        PatNode::CfgPredPat => whole::<Pats, F>(
            node,
            refused,
            PatKind::CfgPredPat {
                pred: pred(node.value()),
            },
        ),
        PatNode::WildcardPat => whole::<Pats, F>(node, refused, PatKind::WildcardPat),
        PatNode::RestPat => whole::<Pats, F>(node, refused, PatKind::RestPat),
        PatNode::NotNullPat => whole::<Pats, F>(node, refused, PatKind::NotNullPat),
        PatNode::ConstBlockPat => whole::<Pats, F>(node, refused, PatKind::ConstBlockPat),
        _ => None,
    }
}

/// A pattern.
pub fn of_pat<F: Fields>(node: &F, refused: &mut bool, kind: PatNode) -> Option<PatPart>
    requires { F.can node.now }
    ensures { Kept refused.old refused.new (result ≡ spec.of_pat (F.here node.now) kind) }
{
    match kind {
        PatNode::IdentPat | PatNode::TupleStructPat | PatNode::TuplePat | PatNode::PathPat => named(
            node, refused, kind,
        ),
        PatNode::RefPat
        | PatNode::OrPat
        | PatNode::ParenPat
        | PatNode::BoxPat
        | PatNode::DerefPat => around(node, refused, kind),
        PatNode::RecordPat | PatNode::SlicePat => pieces(node, refused, kind),
        PatNode::LiteralPat | PatNode::RangePat | PatNode::MacroPat => values(node, refused, kind),
        PatNode::CfgPredPat
        | PatNode::WildcardPat
        | PatNode::RestPat
        | PatNode::NotNullPat
        | PatNode::ConstBlockPat => partless_pat(node, refused, kind),
    }
}

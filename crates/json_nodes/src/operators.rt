//! Operators, by their words.

ghost use Rattle.std.specs.Prelude.{◌≡◌};
ghost use Rattle.serde_json.specs.View.{view};
ghost use Rattle.json_nodes.specs.Operators as spec;
ghost use Rattle.json_nodes.specs.Operators.{logic_word, logic_ops, cmp_word, cmp_ops, arith_word, assigned_word, arith_ops};
ghost use Rattle.json_errors.specs.ByWord.{with_word};

use crate::field::text;
use hir_syntax::ast::{ArithOp, BinaryOp, CmpOp, LogicOp, Ordering, RangeOp, UnaryOp};
use json_errors::members::Own;

fn unary_op_with(word: &str) -> Option<UnaryOp>
    ensures { result ≡ spec.unary_op_of word.now }
{
    match word {
        "*" => Some(UnaryOp::Deref),
        "!" => Some(UnaryOp::Not),
        "-" => Some(UnaryOp::Neg),
        _ => None,
    }
}

fn logic_op(word: &str) -> Option<LogicOp>
    ensures { result ≡ with_word logic_word logic_ops word.now }
{
    match word {
        "||" => Some(LogicOp::Or),
        "&&" => Some(LogicOp::And),
        _ => None,
    }
}

fn order(ordering: Ordering, strict: bool) -> CmpOp
    ensures { result ≡ CmpOp.Ord ordering strict }
{
    CmpOp::Ord { ordering, strict }
}

fn cmp_op(word: &str) -> Option<CmpOp>
    ensures { result ≡ with_word cmp_word cmp_ops word.now }
{
    match word {
        "==" => Some(CmpOp::Eq { negated: false }),
        "!=" => Some(CmpOp::Eq { negated: true }),
        "<=" => Some(order(Ordering::Less, false)),
        "<" => Some(order(Ordering::Less, true)),
        ">=" => Some(order(Ordering::Greater, false)),
        ">" => Some(order(Ordering::Greater, true)),
        _ => None,
    }
}

fn arith_op(word: &str) -> Option<ArithOp>
    ensures { result ≡ with_word arith_word arith_ops word.now }
{
    match word {
        "+" => Some(ArithOp::Add),
        "*" => Some(ArithOp::Mul),
        "-" => Some(ArithOp::Sub),
        "/" => Some(ArithOp::Div),
        "%" => Some(ArithOp::Rem),
        "<<" => Some(ArithOp::Shl),
        ">>" => Some(ArithOp::Shr),
        "^" => Some(ArithOp::BitXor),
        "|" => Some(ArithOp::BitOr),
        "&" => Some(ArithOp::BitAnd),
        _ => None,
    }
}

/// The operator in front of `=`.
fn assigned_op(word: &str) -> Option<ArithOp>
    ensures { result ≡ with_word assigned_word arith_ops word.now }
{
    match word {
        "+=" => Some(ArithOp::Add),
        "*=" => Some(ArithOp::Mul),
        "-=" => Some(ArithOp::Sub),
        "/=" => Some(ArithOp::Div),
        "%=" => Some(ArithOp::Rem),
        "<<=" => Some(ArithOp::Shl),
        ">>=" => Some(ArithOp::Shr),
        "^=" => Some(ArithOp::BitXor),
        "|=" => Some(ArithOp::BitOr),
        "&=" => Some(ArithOp::BitAnd),
        _ => None,
    }
}

fn binary_op_with(word: &str) -> Option<BinaryOp>
    ensures { result ≡ spec.binary_op_of word.now }
{
    if let Some(op) = logic_op(word) {
        return Some(BinaryOp::LogicOp(op));
    }
    if let Some(op) = cmp_op(word) {
        return Some(BinaryOp::CmpOp(op));
    }
    if let Some(op) = arith_op(word) {
        return Some(BinaryOp::ArithOp(op));
    }
    if let Some(op) = assigned_op(word) {
        return Some(BinaryOp::Assignment { op });
    }
    if word == "=" {
        Some(BinaryOp::Assign)
    } else {
        None
    }
}

fn range_op_with(word: &str) -> Option<RangeOp>
    ensures { result ≡ spec.range_op_of word.now }
{
    match word {
        ".." => Some(RangeOp::Exclusive),
        "..=" => Some(RangeOp::Inclusive),
        _ => None,
    }
}

/// The operator of a prefix expression.
pub fn unary_op(node: &Own<'_>) -> Option<UnaryOp>
    ensures { result ≡ spec.unary_op_in (view node.now.node.now) }
{
    unary_op_with(text(node, "op")?)
}

/// The operator of a binary expression.
pub fn binary_op(node: &Own<'_>) -> Option<BinaryOp>
    ensures { result ≡ spec.binary_op_in (view node.now.node.now) }
{
    binary_op_with(text(node, "op")?)
}

/// The operator of a range.
pub fn range_op(node: &Own<'_>) -> Option<RangeOp>
    ensures { result ≡ spec.range_op_in (view node.now.node.now) }
{
    range_op_with(text(node, "op")?)
}

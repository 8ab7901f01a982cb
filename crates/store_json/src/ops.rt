//! Operators of two operands and kinds of closures are words, too.

ghost use Rattle.std.specs.Prelude.{◌≡◌, codes};
ghost use Rattle.thm_result_json.specs.Words as words;

use crate::form::ToJson;
use hir_base::op::{ArithOp, BinaryOp, CmpOp, LogicOp, Ordering};
use hir_store::hir::{ClosureKind, CoroutineKind, CoroutineSource, Movability};
use json::Writer;
use std::alloc::AllocError;

fn logic_word(op: LogicOp) -> &'static str
    ensures { result.now ≡ codes (words.binary_op_word (BinaryOp.LogicOp op)) }
{
    match op {
        LogicOp::And => "&&",
        LogicOp::Or => "||",
    }
}

fn arith_word(op: ArithOp) -> &'static str
    ensures { result.now ≡ codes (words.binary_op_word (BinaryOp.ArithOp op)) }
{
    match op {
        ArithOp::Add => "+",
        ArithOp::Mul => "*",
        ArithOp::Sub => "-",
        ArithOp::Div => "/",
        ArithOp::Rem => "%",
        ArithOp::Shl => "<<",
        ArithOp::Shr => ">>",
        ArithOp::BitXor => "^",
        ArithOp::BitOr => "|",
        ArithOp::BitAnd => "&",
    }
}

fn assignment_word(op: ArithOp) -> &'static str
    ensures { result.now ≡ codes (words.binary_op_word (BinaryOp.Assignment op)) }
{
    match op {
        ArithOp::Add => "+=",
        ArithOp::Mul => "*=",
        ArithOp::Sub => "-=",
        ArithOp::Div => "/=",
        ArithOp::Rem => "%=",
        ArithOp::Shl => "<<=",
        ArithOp::Shr => ">>=",
        ArithOp::BitXor => "^=",
        ArithOp::BitOr => "|=",
        ArithOp::BitAnd => "&=",
    }
}

fn equal_word(negated: bool) -> &'static str
    ensures { result.now ≡ codes (words.binary_op_word (BinaryOp.CmpOp (CmpOp.Eq negated))) }
{
    if negated { "!=" } else { "==" }
}

fn less_word(strict: bool) -> &'static str
    ensures { result.now ≡ codes (words.binary_op_word (BinaryOp.CmpOp (CmpOp.Ord Ordering.Less strict))) }
{
    if strict { "<" } else { "<=" }
}

fn greater_word(strict: bool) -> &'static str
    ensures { result.now ≡ codes (words.binary_op_word (BinaryOp.CmpOp (CmpOp.Ord Ordering.Greater strict))) }
{
    if strict { ">" } else { ">=" }
}

fn order_word(ordering: Ordering, strict: bool) -> &'static str
    ensures { result.now ≡ codes (words.binary_op_word (BinaryOp.CmpOp (CmpOp.Ord ordering strict))) }
{
    match ordering {
        Ordering::Less => less_word(strict),
        Ordering::Greater => greater_word(strict),
    }
}

fn compare_word(op: CmpOp) -> &'static str
    ensures { result.now ≡ codes (words.binary_op_word (BinaryOp.CmpOp op)) }
{
    match op {
        CmpOp::Eq { negated } => equal_word(negated),
        CmpOp::Ord { ordering, strict } => order_word(ordering, strict),
    }
}

/// The word of an operator of two operands.
fn binary_word(op: BinaryOp) -> &'static str
    ensures { result.now ≡ codes (words.binary_op_word op) }
{
    match op {
        BinaryOp::LogicOp(op) => logic_word(op),
        BinaryOp::ArithOp(op) => arith_word(op),
        BinaryOp::CmpOp(op) => compare_word(op),
        BinaryOp::Assignment { op } => assignment_word(op),
        BinaryOp::Assign => "=",
    }
}

impl ToJson for BinaryOp {
    ghost codec = { words.binary_op };

    fn write(&self, out: &mut Writer) -> Result<(), AllocError> {
        out.string(binary_word(*self))
    }
}

fn old_word(movability: Movability) -> &'static str
    ensures { result.now ≡ codes (words.closure_kind_word (ClosureKind.OldCoroutine movability)) }
{
    match movability {
        Movability::Static => "old:static",
        Movability::Movable => "old:movable",
    }
}

fn async_word(source: CoroutineSource) -> &'static str
    ensures { result.now ≡ codes (words.closure_kind_word (ClosureKind.Coroutine CoroutineKind.Async source)) }
{
    match source {
        CoroutineSource::Block => "co:async:block",
        CoroutineSource::Closure => "co:async:closure",
        CoroutineSource::Fn => "co:async:fn",
    }
}

fn gen_word(source: CoroutineSource) -> &'static str
    ensures { result.now ≡ codes (words.closure_kind_word (ClosureKind.Coroutine CoroutineKind.Gen source)) }
{
    match source {
        CoroutineSource::Block => "co:gen:block",
        CoroutineSource::Closure => "co:gen:closure",
        CoroutineSource::Fn => "co:gen:fn",
    }
}

fn async_gen_word(source: CoroutineSource) -> &'static str
    ensures { result.now ≡ codes (words.closure_kind_word (ClosureKind.Coroutine CoroutineKind.AsyncGen source)) }
{
    match source {
        CoroutineSource::Block => "co:asyncgen:block",
        CoroutineSource::Closure => "co:asyncgen:closure",
        CoroutineSource::Fn => "co:asyncgen:fn",
    }
}

fn coroutine_word(kind: CoroutineKind, source: CoroutineSource) -> &'static str
    ensures { result.now ≡ codes (words.closure_kind_word (ClosureKind.Coroutine kind source)) }
{
    match kind {
        CoroutineKind::Async => async_word(source),
        CoroutineKind::Gen => gen_word(source),
        CoroutineKind::AsyncGen => async_gen_word(source),
    }
}

fn coroutine_closure_word(kind: CoroutineKind) -> &'static str
    ensures { result.now ≡ codes (words.closure_kind_word (ClosureKind.CoroutineClosure kind)) }
{
    match kind {
        CoroutineKind::Async => "coclosure:async",
        CoroutineKind::Gen => "coclosure:gen",
        CoroutineKind::AsyncGen => "coclosure:asyncgen",
    }
}

/// The word of the kind of a closure.
fn closure_word(kind: ClosureKind) -> &'static str
    ensures { result.now ≡ codes (words.closure_kind_word kind) }
{
    match kind {
        ClosureKind::Closure => "closure",
        ClosureKind::OldCoroutine(movability) => old_word(movability),
        ClosureKind::Coroutine { kind, source } => coroutine_word(kind, source),
        ClosureKind::CoroutineClosure(kind) => coroutine_closure_word(kind),
    }
}

impl ToJson for ClosureKind {
    ghost codec = { words.closure_kind };

    fn write(&self, out: &mut Writer) -> Result<(), AllocError> {
        out.string(closure_word(*self))
    }
}

//! Expressions.

ghost use Rattle.std.specs.Prelude.{OnOk};
ghost use Rattle.thm_result_json.specs.Exprs as forms;
ghost use Rattle.store_json.specs.Append.{Appends};

use crate::form::{ToJson, field};
use crate::kinds::{alone, around_kind, kind, kind_then, kind_then_two, then_kind, two_then_kind};
use hir_base::Seq;
use hir_base::op::BinaryOp;
use hir_store::hir::{
    Array, CaptureBy, ClosureKind, Expr, Literal, LoopSource, Mutability, Rawness, RecordLitField,
    RecordSpread, Statement,
};
use hir_store::ids::{BlockId, ExprId, LabelId, PatId, TypeRefId};
use hir_store::name::Name;
use hir_store::path::{GenericArgs, Path};
use json::Writer;
use std::alloc::AllocError;

impl ToJson for Expr {
    ghost codec = { forms.expr };

    fn write(&self, out: &mut Writer) -> Result<(), AllocError> {
        match self {
            Expr::Missing => alone(out, "Missing"),
            Expr::Path { path, hygiene } => {
                around_kind(out, ("hygiene", hygiene), "Path", ("path", path))
            }
            Expr::If {
                condition,
                then_branch,
                else_branch,
            } => write_if(out, condition, then_branch, else_branch),
            Expr::Let { pat, expr } => around_kind(out, ("expr", expr), "Let", ("pat", pat)),
            Expr::Block {
                is_unsafe,
                label,
                id,
                statements,
                tail,
            } => write_block(out, is_unsafe, label, id, statements, tail),
            Expr::Const(value) => then_kind(out, "expr", value, "Const"),
            Expr::Loop {
                body,
                label,
                source,
            } => write_loop(out, body, label, source),
            Expr::Match { expr, arms } => {
                two_then_kind(out, ("arms", arms), ("expr", expr), "Match")
            }
            Expr::Continue { label } => kind_then(out, "Continue", "label", label),
            Expr::Break { label, expr } => {
                around_kind(out, ("expr", expr), "Break", ("label", label))
            }
            _ => write_operation(self, out),
        }
    }
}

/// Writes an expression that isn't one of flow.
fn write_operation(expr: &Expr, out: &mut Writer) -> Result<(), AllocError>
    ensures { OnOk result (Appends ((forms.expr).to expr.now) out.old out.new) }
{
    match expr {
        Expr::Field { expr, name } => around_kind(out, ("expr", expr), "Field", ("name", name)),
        Expr::UnaryOp { op, expr } => around_kind(out, ("expr", expr), "UnaryOp", ("op", op)),
        Expr::BinaryOp { op, lhs, rhs } => write_binary(out, op, lhs, rhs),
        Expr::Assignment { target, value } => {
            kind_then_two(out, "Assignment", ("target", target), ("value", value))
        }
        Expr::Index { base, index } => {
            two_then_kind(out, ("base", base), ("index", index), "Index")
        }
        Expr::Ref {
            rawness,
            mutability,
            expr,
        } => write_ref(out, rawness, mutability, expr),
        Expr::Cast { expr, type_ref } => {
            around_kind(out, ("expr", expr), "Cast", ("type_ref", type_ref))
        }
        Expr::OffsetOf { container, fields } => two_then_kind(
            out,
            ("container", container),
            ("fields", fields),
            "OffsetOf",
        ),
        Expr::Underscore => alone(out, "Underscore"),
        Expr::IncludeBytes => alone(out, "IncludeBytes"),
        _ => write_call(expr, out),
    }
}

/// Writes an expression that is neither one of flow nor an operation.
fn write_call(expr: &Expr, out: &mut Writer) -> Result<(), AllocError>
    ensures { OnOk result (Appends ((forms.expr).to expr.now) out.old out.new) }
{
    match expr {
        Expr::Call { callee, args } => {
            two_then_kind(out, ("args", args), ("callee", callee), "Call")
        }
        Expr::Literal(literal) => write_literal(out, literal),
        Expr::MethodCall {
            receiver,
            method_name,
            generic_args,
            args,
        } => write_method_call(out, receiver, method_name, generic_args, args),
        Expr::RecordLit {
            path,
            fields,
            spread,
        } => write_record(out, path, fields, spread),
        Expr::Closure {
            args,
            arg_types,
            ret_type,
            body,
            closure_kind,
            capture_by,
        } => write_closure(
            out,
            (args, arg_types, ret_type),
            body,
            closure_kind,
            capture_by,
        ),
        _ => write_part(expr, out),
    }
}

/// Writes an expression that has one part or a list of them.
fn write_part(expr: &Expr, out: &mut Writer) -> Result<(), AllocError>
    ensures { OnOk result (Appends ((forms.expr).to expr.now) out.old out.new) }
{
    match expr {
        Expr::Tuple { exprs } => then_kind(out, "exprs", exprs, "Tuple"),
        Expr::Array(Array::ElementList { elements }) => {
            then_kind(out, "elements", elements, "Array")
        }
        Expr::Array(
            Array::Repeat {
                initializer,
                repeat,
            },
        ) => around_kind(
            out,
            ("initializer", initializer),
            "Repeat",
            ("repeat", repeat),
        ),
        Expr::Return { expr } => then_kind(out, "expr", expr, "Return"),
        Expr::Become { expr } => then_kind(out, "expr", expr, "Become"),
        Expr::Yield { expr } => then_kind(out, "expr", expr, "Yield"),
        Expr::Yeet { expr } => then_kind(out, "expr", expr, "Yeet"),
        Expr::Await { expr } => then_kind(out, "expr", expr, "Await"),
        _ => Err(AllocError),
    }
}

/// Writes an `if`.
fn write_if(
    out: &mut Writer,
    condition: &ExprId,
    then_branch: &ExprId,
    else_branch: &Option<ExprId>,
) -> Result<(), AllocError>
    ensures { OnOk result (Appends ((forms.expr).to (Expr.If condition.now then_branch.now else_branch.now)) out.old out.new) }
{
    out.begin_object()?;
    field(out, "condition", condition)?;
    field(out, "else_branch", else_branch)?;
    kind(out, "If")?;
    field(out, "then_branch", then_branch)?;
    out.end_object()
}

/// Writes a block.
fn write_block(
    out: &mut Writer,
    is_unsafe: &bool,
    label: &Option<LabelId>,
    id: &Option<BlockId>,
    statements: &Seq<Statement>,
    tail: &Option<ExprId>,
) -> Result<(), AllocError>
    ensures { OnOk result (Appends ((forms.expr).to
        (Expr.Block is_unsafe.now label.now id.now statements.now tail.now)) out.old out.new) }
{
    out.begin_object()?;
    field(out, "id", id)?;
    field(out, "is_unsafe", is_unsafe)?;
    kind(out, "Block")?;
    field(out, "label", label)?;
    field(out, "statements", statements)?;
    field(out, "tail", tail)?;
    out.end_object()
}

/// Writes a loop.
fn write_loop(
    out: &mut Writer,
    body: &ExprId,
    label: &Option<LabelId>,
    source: &LoopSource,
) -> Result<(), AllocError>
    ensures { OnOk result (Appends ((forms.expr).to (Expr.Loop body.now label.now source.now)) out.old out.new) }
{
    out.begin_object()?;
    field(out, "body", body)?;
    kind(out, "Loop")?;
    field(out, "label", label)?;
    field(out, "source", source)?;
    out.end_object()
}

/// Writes an operator with its two operands.
fn write_binary(
    out: &mut Writer,
    op: &Option<BinaryOp>,
    lhs: &ExprId,
    rhs: &ExprId,
) -> Result<(), AllocError>
    ensures { OnOk result (Appends ((forms.expr).to (Expr.BinaryOp op.now lhs.now rhs.now)) out.old out.new) }
{
    out.begin_object()?;
    kind(out, "BinaryOp")?;
    field(out, "lhs", lhs)?;
    field(out, "op", op)?;
    field(out, "rhs", rhs)?;
    out.end_object()
}

/// Writes a reference.
fn write_ref(
    out: &mut Writer,
    rawness: &Rawness,
    mutability: &Mutability,
    expr: &ExprId,
) -> Result<(), AllocError>
    ensures { OnOk result (Appends ((forms.expr).to (Expr.Ref rawness.now mutability.now expr.now)) out.old out.new) }
{
    out.begin_object()?;
    field(out, "expr", expr)?;
    kind(out, "Ref")?;
    field(out, "mutability", mutability)?;
    field(out, "rawness", rawness)?;
    out.end_object()
}

/// Writes a literal.
fn write_literal(out: &mut Writer, literal: &Literal) -> Result<(), AllocError>
    ensures { OnOk result (Appends ((forms.expr).to (Expr.Literal literal.now)) out.old out.new) }
{
    out.begin_object()?;
    kind(out, "Literal")?;
    field(out, "kind", &literal.kind)?;
    field(out, "negative", &literal.negative)?;
    field(out, "suffix", &literal.suffix)?;
    field(out, "text", &literal.text)?;
    out.end_object()
}

/// Writes the call of a method.
fn write_method_call(
    out: &mut Writer,
    receiver: &ExprId,
    method_name: &Name,
    generic_args: &Option<GenericArgs>,
    args: &Seq<ExprId>,
) -> Result<(), AllocError>
    ensures { OnOk result (Appends ((forms.expr).to
        (Expr.MethodCall receiver.now method_name.now generic_args.now args.now)) out.old out.new) }
{
    out.begin_object()?;
    field(out, "args", args)?;
    field(out, "generic_args", generic_args)?;
    kind(out, "MethodCall")?;
    field(out, "method_name", method_name)?;
    field(out, "receiver", receiver)?;
    out.end_object()
}

/// Writes a record.
fn write_record(
    out: &mut Writer,
    path: &Path,
    fields: &Seq<RecordLitField>,
    spread: &RecordSpread,
) -> Result<(), AllocError>
    ensures { OnOk result (Appends ((forms.expr).to (Expr.RecordLit path.now fields.now spread.now)) out.old out.new) }
{
    out.begin_object()?;
    field(out, "fields", fields)?;
    kind(out, "RecordLit")?;
    field(out, "path", path)?;
    field(out, "spread", spread)?;
    out.end_object()
}

/// Writes a closure with its parameters, their types and what it answers.
fn write_closure(
    out: &mut Writer,
    signature: (&Seq<PatId>, &Seq<Option<TypeRefId>>, &Option<TypeRefId>),
    body: &ExprId,
    closure_kind: &ClosureKind,
    capture_by: &CaptureBy,
) -> Result<(), AllocError>
    ensures { OnOk result (Appends ((forms.expr).to (Expr.Closure signature.entry.0.now signature.entry.1.now signature.entry.2.now
        body.now closure_kind.now capture_by.now)) out.old out.new) }
{
    out.begin_object()?;
    field(out, "arg_types", signature.1)?;
    field(out, "args", signature.0)?;
    field(out, "body", body)?;
    field(out, "capture_by", capture_by)?;
    field(out, "closure_kind", closure_kind)?;
    kind(out, "Closure")?;
    field(out, "ret_type", signature.2)?;
    out.end_object()
}

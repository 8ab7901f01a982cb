//! Labels, statements, and the parts of expressions that are no expressions.

ghost use Rattle.std.specs.Prelude.{OnOk};
ghost use Rattle.thm_result_json.specs.Exprs as forms;
ghost use Rattle.store_json.specs.Append.{Appends};

use crate::form::{ToJson, field};
use crate::kinds::{alone, kind, then_kind, two_then_kind};
use hir_store::hir::{Label, MatchArm, RecordLitField, RecordSpread, Statement};
use hir_store::ids::{ExprId, PatId, TypeRefId};
use json::Writer;
use std::alloc::AllocError;

impl ToJson for Label {
    ghost codec = { forms.label };

    fn write(&self, out: &mut Writer) -> Result<(), AllocError> {
        out.begin_object()?;
        field(out, "name", &self.name)?;
        out.end_object()
    }
}

impl ToJson for Statement {
    ghost codec = { forms.statement };

    fn write(&self, out: &mut Writer) -> Result<(), AllocError> {
        match self {
            Statement::Let {
                pat,
                type_ref,
                initializer,
                else_branch,
            } => write_let(out, pat, type_ref, initializer, else_branch),
            Statement::Expr { expr, has_semi } => {
                two_then_kind(out, ("expr", expr), ("has_semi", has_semi), "Expr")
            }
            Statement::Item => alone(out, "Item"),
            Statement::MacroDef(id) => then_kind(out, "id", id, "MacroDef"),
        }
    }
}

/// Writes a `let` statement.
fn write_let(
    out: &mut Writer,
    pat: &PatId,
    type_ref: &Option<TypeRefId>,
    initializer: &Option<ExprId>,
    else_branch: &Option<ExprId>,
) -> Result<(), AllocError>
    ensures { OnOk result (Appends ((forms.statement).to
        (Statement.Let pat.now type_ref.now initializer.now else_branch.now)) out.old out.new) }
{
    out.begin_object()?;
    field(out, "else_branch", else_branch)?;
    field(out, "initializer", initializer)?;
    kind(out, "Let")?;
    field(out, "pat", pat)?;
    field(out, "type_ref", type_ref)?;
    out.end_object()
}

impl ToJson for MatchArm {
    ghost codec = { forms.arm };

    fn write(&self, out: &mut Writer) -> Result<(), AllocError> {
        out.begin_object()?;
        field(out, "expr", &self.expr)?;
        field(out, "guard", &self.guard)?;
        field(out, "pat", &self.pat)?;
        out.end_object()
    }
}

impl ToJson for RecordLitField {
    ghost codec = { forms.field };

    fn write(&self, out: &mut Writer) -> Result<(), AllocError> {
        out.begin_object()?;
        field(out, "expr", &self.expr)?;
        field(out, "name", &self.name)?;
        out.end_object()
    }
}

impl ToJson for RecordSpread {
    ghost codec = { forms.spread };

    fn write(&self, out: &mut Writer) -> Result<(), AllocError> {
        match self {
            RecordSpread::None => alone(out, "None"),
            RecordSpread::FieldDefaults => alone(out, "FieldDefaults"),
            RecordSpread::Expr(expr) => then_kind(out, "expr", expr, "Expr"),
        }
    }
}

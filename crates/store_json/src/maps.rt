//! Roots, what was expanded, and diagnostics.

ghost use Rattle.thm_result_json.specs.Maps as forms;

use crate::form::{ToJson, field};
use crate::kinds::{around_kind, kind_then, kind_then_two};
use hir_store::diagnostics::ExpressionStoreDiagnostics;
use hir_store::expansions::ExpandedCall;
use hir_store::roots::ExprRoot;
use json::Writer;
use std::alloc::AllocError;

impl ToJson for ExprRoot {
    ghost codec = { forms.root };

    fn write(&self, out: &mut Writer) -> Result<(), AllocError> {
        out.begin_object()?;
        field(out, "bindings_end", &self.bindings_end)?;
        field(out, "exprs_end", &self.exprs_end)?;
        field(out, "pats_end", &self.pats_end)?;
        field(out, "root", &self.root)?;
        out.end_object()
    }
}

impl ToJson for ExpandedCall {
    ghost codec = { forms.expanded_call };

    fn write(&self, out: &mut Writer) -> Result<(), AllocError> {
        out.begin_object()?;
        field(out, "call", &self.call)?;
        field(out, "file", &self.file)?;
        field(out, "range", &self.range)?;
        out.end_object()
    }
}

impl ToJson for ExpressionStoreDiagnostics {
    ghost codec = { forms.diagnostic };

    fn write(&self, out: &mut Writer) -> Result<(), AllocError> {
        match self {
            ExpressionStoreDiagnostics::InactiveCode { node, cfg } => {
                around_kind(out, ("cfg", cfg), "InactiveCode", ("node", node))
            }
            ExpressionStoreDiagnostics::UnreachableLabel { node, name } => {
                kind_then_two(out, "UnreachableLabel", ("name", name), ("node", node))
            }
            ExpressionStoreDiagnostics::UndeclaredLabel { node, name } => {
                kind_then_two(out, "UndeclaredLabel", ("name", name), ("node", node))
            }
            ExpressionStoreDiagnostics::UnresolvedMacroCall { node, path } => {
                kind_then_two(out, "UnresolvedMacroCall", ("node", node), ("path", path))
            }
            ExpressionStoreDiagnostics::AwaitOutsideOfAsync { node, location } => kind_then_two(
                out,
                "AwaitOutsideOfAsync",
                ("location", location),
                ("node", node),
            ),
            ExpressionStoreDiagnostics::MissingBody { node, kind } => {
                kind_then_two(out, "MissingBody", ("kind", kind), ("node", node))
            }
            ExpressionStoreDiagnostics::FruInDestructuringAssignment { node } => {
                kind_then(out, "FruInDestructuringAssignment", "node", node)
            }
            ExpressionStoreDiagnostics::PatternArgInExternFn { node } => {
                kind_then(out, "PatternArgInExternFn", "node", node)
            }
        }
    }
}

//! The lines of segments, bindings, labels and diagnostics.

use super::owners::Owners;
use super::words::{await_word, missing_body_word, mode_word, problem_word};
use super::writer::Writer;
use hir_base::node::{AstPtr, InFile};
use hir_lower_scope::reverse_mappings::{named_parts, segment_name};
use hir_store::diagnostics::ExpressionStoreDiagnostics;
use hir_store::ids::{BindingId, ExprId, LabelId};
use hir_store::source_map::ExpressionStoreSourceMap;
use hir_store::store::ExpressionStore;
use hir_syntax::ast::{Path, PathSegment};
use std::alloc::AllocError;

fn segment_line(writer: &mut Writer, number: u32, name: &str) {
    writer.numbered("segment ", number);
    writer.word(" ");
    writer.word(name);
    writer.word("\n")
}

/// Adds a line for each of these segments that stands for a name, numbered from a number on, and answers the next one.
/// A document has far fewer segments than there are numbers.
fn segment_lines(writer: &mut Writer, first: u32, segments: &[Option<PathSegment>]) -> u32 {
    let mut number = first;
    for segment in segments {
        if let Some(segment) = segment
            && let Some(name) = segment_name(segment)
        {
            segment_line(writer, number, name);
            number = number.saturating_add(1);
        }
    }
    number
}

/// Adds a line for each written segment that bears a name, the k-th with the number k, and one that says that there
/// are no more. The segments of a trait stand in place of the one that it qualifies.
pub fn segments(writer: &mut Writer, path: &Path) {
    let (of_trait, rest) = named_parts(path);
    let number = segment_lines(writer, 0, of_trait);
    let number = segment_lines(writer, number, rest);
    segment_line(writer, number, "None")
}

/// Adds a line for each of these bindings of the store, the k-th with the number k. It ends with the number of what owns the binding.
pub fn bindings(
    writer: &mut Writer,
    owners: &mut Owners,
    bindings: &[u32],
    store: &ExpressionStore,
) {
    for (number, stored) in bindings.iter().enumerate() {
        let id = BindingId(*stored);
        writer.numbered("binding ", number);
        if let Some(binding) = store.binding(id) {
            writer.named(" ", &binding.name);
            writer.word(mode_word(binding.mode));
            writer.word(problem_word(binding.problems));
        }
        owner(writer, owners, store.binding_owner(id));
        writer.mark('\n');
    }
}

fn owner(writer: &mut Writer, owners: &mut Owners, owner: Option<ExprId>) {
    let number = match owner {
        Some(id) => owners.number(id),
        None => Ok(None),
    };
    match number {
        Ok(Some(number)) => writer.numbered(" o", number),
        Ok(None) => writer.word(" -"),
        Err(AllocError) => writer.refuse(),
    }
}

/// Adds a line for each of these labels of the store, the k-th with the number k.
pub fn labels(
    writer: &mut Writer,
    labels: &[u32],
    store: &ExpressionStore,
    source_map: &ExpressionStoreSourceMap,
) {
    for (number, stored) in labels.iter().enumerate() {
        let id = LabelId(*stored);
        writer.numbered("label ", number);
        if let Some(label) = store.label(id) {
            writer.named(" ", &label.name);
        }
        writer.end_line(source_map.label_syntax(id));
    }
}

/// Adds a line for each of these diagnostics: its kind, its detail, and the node that bears the fault.
pub fn diagnostics(writer: &mut Writer, faults: &[ExpressionStoreDiagnostics]) {
    for fault in faults {
        detail(writer, fault);
        writer.end_line(Some(node(fault)));
    }
}

fn detail(writer: &mut Writer, fault: &ExpressionStoreDiagnostics) {
    match fault {
        ExpressionStoreDiagnostics::InactiveCode { cfg, .. } => writer.numbered(
            "diag InactiveCode ",
            cfg.0,
        ),
        ExpressionStoreDiagnostics::UnreachableLabel { name, .. } => writer.named(
            "diag UnreachableLabel ",
            name,
        ),
        ExpressionStoreDiagnostics::UndeclaredLabel { name, .. } => writer.named(
            "diag UndeclaredLabel ",
            name,
        ),
        ExpressionStoreDiagnostics::UnresolvedMacroCall { path, .. } => {
            writer.word("diag UnresolvedMacroCall ");
            writer.mod_path(path)
        }
        ExpressionStoreDiagnostics::AwaitOutsideOfAsync { location, .. } => {
            writer.word(await_word(*location))
        }
        ExpressionStoreDiagnostics::MissingBody { kind, .. } => {
            writer.word(missing_body_word(*kind))
        }
        ExpressionStoreDiagnostics::FruInDestructuringAssignment { .. } => {
            writer.word("diag FruInDestructuringAssignment")
        }
        ExpressionStoreDiagnostics::PatternArgInExternFn { .. } => {
            writer.word("diag PatternArgInExternFn")
        }
    }
}

fn node(fault: &ExpressionStoreDiagnostics) -> InFile<AstPtr> {
    match fault {
        ExpressionStoreDiagnostics::InactiveCode { node, .. } => *node,
        ExpressionStoreDiagnostics::UnreachableLabel { node, .. } => *node,
        ExpressionStoreDiagnostics::UndeclaredLabel { node, .. } => *node,
        ExpressionStoreDiagnostics::UnresolvedMacroCall { node, .. } => *node,
        ExpressionStoreDiagnostics::AwaitOutsideOfAsync { node, .. } => *node,
        ExpressionStoreDiagnostics::MissingBody { node, .. } => *node,
        ExpressionStoreDiagnostics::FruInDestructuringAssignment { node } => *node,
        ExpressionStoreDiagnostics::PatternArgInExternFn { node } => *node,
    }
}

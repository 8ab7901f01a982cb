//! The lines of what the macro calls were expanded to.

use super::writer::Writer;
use hir_base::node::{InFile, NodeId, TextRange};
use hir_store::expansions::ExpandedCall;
use std::alloc::{AllocError, Global};

/// What tells a call from others: its node, and where its text stands. A call that another one expanded beforehand has no such
/// place, and comes in front of those of its node that have one.
fn key(entry: &ExpandedCall) -> (InFile<NodeId>, Option<TextRange>) {
    (entry.call, entry.range)
}

/// Whether the next entry is of the same call.
fn counts_no_more(entry: &ExpandedCall, rest: &[ExpandedCall]) -> bool {
    match rest {
        [next, ..] => key(next) == key(entry),
        [] => false,
    }
}

fn line(writer: &mut Writer, entry: &ExpandedCall) {
    writer.word("expansion ");
    writer.node(entry.call);
    writer.numbered(" ", entry.file.0);
    writer.word("\n")
}

fn sorted(alloc: Global, recorded: &[ExpandedCall]) -> Result<Vec<ExpandedCall>, AllocError> {
    let mut entries = Vec::from_slice(alloc, recorded)?;
    entries.sort_by_key(key)?;
    Ok(entries)
}

fn lines(writer: &mut Writer, entries: &[ExpandedCall]) {
    let mut left = entries;
    while let [one, rest @ ..] = left {
        if !counts_no_more(one, rest) {
            line(writer, one);
        }
        left = rest;
    }
}

/// Adds a line for each call that was expanded, by file, by node and by the place of its text. Of what is said of one call the last
/// counts.
pub fn expansions(alloc: Global, writer: &mut Writer, recorded: &[ExpandedCall]) {
    match sorted(alloc, recorded) {
        Ok(entries) => lines(writer, entries.as_slice()),
        Err(AllocError) => writer.refuse(),
    }
}

//! The macro calls that lowering entered.

use hir_base::node::{HirFileId, InFile, NodeId, TextRange};

/// A call with the file that it was expanded to. What an expansion lists of calls that it expanded beforehand has no range.
#[derive(Clone, Copy, PartialEq, Eq)]
pub struct ExpandedCall {
    pub call: InFile<NodeId>,
    pub range: Option<TextRange>,
    pub file: HirFileId,
}

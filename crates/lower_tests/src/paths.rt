//! Paths in collectors, and the way back to their segments.

use crate::collectors::{Call, Holds, Script, said_of_calls};
use crate::documents::{AskOfDocument, Said, path_in, said_of};
use hir_base::node::NodeId;
use hir_lower::{LowerError, hir_segment_to_ast_segment};
use lower_json::document::{Document, Root};
use std::alloc::Global;

/// `crate::A::<nothing>::Self::$crate::B`, which is refused.
const MIXED: &str = r#"{"nodes": [
    {"k": "Path", "segs": [1, 2, null, 3, 4, 5]},
    {"k": "PathSegment", "seg": "crate"},
    {"k": "PathSegment", "seg": "name", "name": "A"},
    {"k": "PathSegment", "seg": "Self"},
    {"k": "PathSegment", "seg": "name", "name": "$crate"},
    {"k": "PathSegment", "seg": "name", "name": "B"}
]}"#;

/// A path without segments.
pub const EMPTY: &str = r#"{"nodes": [{"k": "Path"}]}"#;

/// The nodes of the first segments that bear names.
#[derive(Clone, Copy)]
struct Segments([Option<NodeId>; 4]);

impl AskOfDocument for Segments {
    fn said(&self, _alloc: Global, document: &mut Document) -> Said {
        let Some(path) = path_in(document) else {
            return Said::Other;
        };
        let mut number = 0u32;
        for own in self.0.iter() {
            let node = match hir_segment_to_ast_segment(path, number) {
                Some(segment) => Some(segment.id),
                None => None,
            };
            if node != *own {
                return Said::Other;
            }
            number = number.saturating_add(1);
        }
        Said::Own
    }
}

#[test]
fn segments_that_bear_names_are_lent(rt: HostRuntime) {
    let segments = Segments([Some(NodeId(2)), Some(NodeId(3)), Some(NodeId(5)), None]);
    assert!(rt; said_of(rt.alloc(), Root::Path, MIXED, &segments) == Said::Own);
}

/// In a collector that has no room, where an absent constant is full as an `impl` is.
#[test]
fn a_path_takes_no_room_but_is_not_lowered_after_an_error(rt: HostRuntime) {
    let alloc = rt.alloc();
    let path = Script {
        limit: 0,
        calls: &[
            (Call::Path, Ok(true)),
            (Call::Allocator, Err(LowerError::Full)),
            (Call::Path, Err(LowerError::Failed)),
        ],
        holds: Holds::Failed { exprs: Some(0) },
    };
    assert!(rt; said_of_calls(alloc, EMPTY, &path) == Said::Own);
    let absent = Script {
        limit: 0,
        calls: &[(Call::Constant, Err(LowerError::Full))],
        holds: Holds::Failed { exprs: Some(0) },
    };
    assert!(rt; said_of_calls(alloc, EMPTY, &absent) == Said::Own);
}

//! Labels, types and lifetimes, with their nodes and back, and how many are stored.

use crate::documents::Said;
use crate::lowered::{EnvironmentKind, said_of_body};
use crate::mappings::{Count, Leads, Part, Shown};

/// `fn f() { 'a: loop { a as &'x T } }`
const LABEL_AND_TYPE: &str = r#"{"nodes": [
    {"k": "Fn", "body": 1},
    {"k": "BlockExpr", "tail": 2},
    {"k": "LoopExpr", "label": 3, "body": 4},
    {"k": "Label", "lifetime": "'a"},
    {"k": "BlockExpr", "tail": 5},
    {"k": "CastExpr", "expr": 6, "ty": 9},
    {"k": "PathExpr", "path": 7},
    {"k": "Path", "segs": [8]},
    {"k": "PathSegment", "seg": "name", "name": "a"},
    {"k": "RefType", "lifetime": 10, "ty": 11},
    {"k": "Lifetime", "t": "'x"},
    {"k": "PathType", "path": 12},
    {"k": "Path", "segs": [13]},
    {"k": "PathSegment", "seg": "name", "name": "T"}
]}"#;

const SHOWN: Shown<'static> = Shown {
    mappings: &[
        (0, 3, Leads::Label(0)),
        (0, 9, Leads::Type_(1)),
        (0, 10, Leads::Lifetime(0)),
    ],
    back: &[
        (Part::Label(0), 3),
        (Part::Type_(1), 9),
        (Part::Lifetime(0), 10),
    ],
    counts: &[
        (Count::Labels, 1),
        (Count::Types, 2),
        (Count::Lifetimes, 1),
        (Count::Exprs, 5),
    ],
};

#[test]
fn labels_types_and_lifetimes_have_their_nodes(rt: HostRuntime) {
    assert!(rt;
        said_of_body(rt.alloc(), LABEL_AND_TYPE, EnvironmentKind::Tables, &SHOWN) == Said::Own
    );
}

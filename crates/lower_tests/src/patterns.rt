//! The ways between written nodes and what patterns become, and what the parameters of a function are, which no listing shows.

use crate::documents::{Said, own_if};
use crate::lowered::{AskOfBody, EnvironmentKind, said_of_body};
use crate::mappings::{Leads, Part, Shown};
use hir_base::node::NodeId;
use hir_lower::{Body, BodySourceMap};
use hir_store::ids::{BindingId, PatId};
use std::alloc::Global;

/// `fn f(&mut self, (1, 2..=, S { a: b }, cfg)) {}`, where `cfg` stands for a predicate.
const PATTERNS: &str = r#"{"nodes": [
    {"k": "Fn", "params": 1, "body": 16},
    {"k": "ParamList", "self": 2, "params": [3]},
    {"k": "SelfParam", "name": "self", "ref": true, "mut": true},
    {"k": "Param", "pat": 4},
    {"k": "TuplePat", "fields": [5, 7, 10, 15]},
    {"k": "LiteralPat", "lit": 6},
    {"k": "Literal", "lit": "int", "t": "1"},
    {"k": "RangePat", "op": "..=", "start": 8},
    {"k": "LiteralPat", "lit": 9},
    {"k": "Literal", "lit": "int", "t": "2"},
    {"k": "RecordPat", "path": 11, "fields": [13]},
    {"k": "Path", "segs": [12]},
    {"k": "PathSegment", "seg": "name", "name": "S"},
    {"k": "RecordPatField", "name": "a", "pat": 14},
    {"k": "IdentPat", "name": "b"},
    {"k": "CfgPredPat", "pred": 1},
    {"k": "BlockExpr"}
]}"#;

/// The literal pattern, its literal, the range, its side, the side's literal, the name and the predicate; and the field that the name's
/// pattern comes from.
const OF_PATTERNS: Shown<'static> = Shown {
    mappings: &[
        (0, 5, Leads::Pat(0)),
        (0, 6, Leads::Expr(0)),
        (0, 7, Leads::Pat(1)),
        (0, 8, Leads::Expr(1)),
        (0, 9, Leads::Nowhere),
        (0, 14, Leads::Pat(2)),
        (0, 15, Leads::ExprAndPat(2, 4)),
    ],
    back: &[(Part::FieldPat(2), 13)],
    counts: &[],
};

/// What the first parameter is, and what `self` is, each as it is handed in and as it was written, and the node of `self`.
#[derive(Clone, Copy)]
struct Params {
    first: PatId,
    receiver: BindingId,
    self_node: NodeId,
}

fn is_first(body: &Body, own: PatId) -> bool {
    match body.params.as_slice().first() {
        Some(param) => param.formal == own && param.user_written == own,
        None => false,
    }
}

fn is_receiver(body: &Body, own: BindingId) -> bool {
    match body.self_param {
        Some(param) => param.formal == own && param.user_written == own,
        None => false,
    }
}

fn is_self_node(source_map: &BodySourceMap, own: NodeId) -> bool {
    match source_map.self_param {
        Some(node) => node.value.node == own,
        None => false,
    }
}

impl AskOfBody for Params {
    fn said(&self, _alloc: Global, body: &Body, source_map: &BodySourceMap) -> Said {
        let is_so = is_first(body, self.first)
            && is_receiver(body, self.receiver)
            && is_self_node(source_map, self.self_node);
        own_if(is_so)
    }
}

const PARAMS: Params = Params {
    first: PatId(5),
    receiver: BindingId(0),
    self_node: NodeId(2),
};

#[test]
fn parts_of_patterns_lead_to_what_they_become(rt: HostRuntime) {
    let alloc = rt.alloc();
    assert!(rt; said_of_body(alloc, PATTERNS, EnvironmentKind::Tables, &OF_PATTERNS) == Said::Own);
    assert!(rt; said_of_body(alloc, PATTERNS, EnvironmentKind::Tables, &PARAMS) == Said::Own);
}

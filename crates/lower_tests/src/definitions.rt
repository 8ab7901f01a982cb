//! The patterns that make a binding, which no listing prints by number, and how many patterns and bindings are stored.

use crate::documents::{Said, own_if};
use crate::lowered::{AskOfBody, EnvironmentKind, said_of_body};
use hir_lower::{Body, BodySourceMap};
use hir_store::ids::{BindingId, PatId};
use std::alloc::Global;

/// A function with the one parameter `(x, x)` and no body.
pub const TWICE: &str = r#"{"nodes": [
    {"k": "Fn", "params": 1},
    {"k": "ParamList", "params": [2]},
    {"k": "Param", "pat": 3},
    {"k": "TuplePat", "fields": [4, 5]},
    {"k": "IdentPat", "name": "x"},
    {"k": "IdentPat", "name": "x"}
]}"#;

/// The same with `(x, y) | (y, x)`.
const TURNED: &str = r#"{"nodes": [
    {"k": "Fn", "params": 1},
    {"k": "ParamList", "params": [2]},
    {"k": "Param", "pat": 3},
    {"k": "OrPat", "pats": [4, 7]},
    {"k": "TuplePat", "fields": [5, 6]},
    {"k": "IdentPat", "name": "x"},
    {"k": "IdentPat", "name": "y"},
    {"k": "TuplePat", "fields": [8, 9]},
    {"k": "IdentPat", "name": "y"},
    {"k": "IdentPat", "name": "x"}
]}"#;

/// A function with the body `{ a? }`.
const QUESTION: &str = r#"{"nodes": [
    {"k": "Fn", "body": 1},
    {"k": "BlockExpr", "tail": 2},
    {"k": "TryExpr", "expr": 3},
    {"k": "PathExpr", "path": 4},
    {"k": "Path", "segs": [5]},
    {"k": "PathSegment", "seg": "name", "name": "a"}
]}"#;

/// A function with the body `{ for x in a {} }`.
const FOR: &str = r#"{"nodes": [
    {"k": "Fn", "body": 1},
    {"k": "BlockExpr", "tail": 2},
    {"k": "ForExpr", "pat": 3, "iterable": 4, "body": 7},
    {"k": "IdentPat", "name": "x"},
    {"k": "PathExpr", "path": 5},
    {"k": "Path", "segs": [6]},
    {"k": "PathSegment", "seg": "name", "name": "a"},
    {"k": "BlockExpr"}
]}"#;

/// The patterns of a binding, none where it isn't stored.
type Definitions = Option<&'static [PatId]>;

/// The patterns of the first two bindings, and how many patterns and bindings there are.
#[derive(Clone, Copy)]
pub struct Defined {
    first: Definitions,
    second: Definitions,
    pats: u32,
    bindings: u32,
}

fn is_defined_by(source_map: &BodySourceMap, binding: BindingId, own: Definitions) -> bool {
    match (source_map.store.binding_definitions(binding), own) {
        (Some(patterns), Some(own)) => patterns.as_slice() == own,
        (None, None) => true,
        _ => false,
    }
}

impl AskOfBody for Defined {
    fn said(&self, _alloc: Global, body: &Body, source_map: &BodySourceMap) -> Said {
        let is_so = is_defined_by(source_map, BindingId(0), self.first)
            && is_defined_by(source_map, BindingId(1), self.second)
            && body.store.pats_len() == self.pats
            && body.store.bindings_len() == self.bindings;
        own_if(is_so)
    }
}

pub const OF_TWICE: Defined = Defined {
    first: Some(&[PatId(0), PatId(1)]),
    second: None,
    pats: 3,
    bindings: 1,
};

const OF_TURNED: Defined = Defined {
    first: Some(&[PatId(0), PatId(4)]),
    second: Some(&[PatId(1), PatId(3)]),
    pats: 7,
    bindings: 2,
};

#[test]
fn a_name_used_twice_is_one_binding_of_two_patterns(rt: HostRuntime) {
    let alloc = rt.alloc();
    assert!(rt; said_of_body(alloc, TWICE, EnvironmentKind::Tables, &OF_TWICE) == Said::Own);
    assert!(rt; said_of_body(alloc, TURNED, EnvironmentKind::Tables, &OF_TURNED) == Said::Own);
}

const OF_QUESTION: Defined = Defined {
    first: Some(&[PatId(0)]),
    second: Some(&[PatId(2)]),
    pats: 4,
    bindings: 2,
};

#[test]
fn each_name_of_a_question_is_a_binding_of_one_pattern(rt: HostRuntime) {
    assert!(rt;
        said_of_body(rt.alloc(), QUESTION, EnvironmentKind::Tables, &OF_QUESTION) == Said::Own
    );
}

const OF_FOR: Defined = Defined {
    first: Some(&[PatId(0)]),
    second: Some(&[PatId(1)]),
    pats: 4,
    bindings: 2,
};

#[test]
fn the_name_of_a_for_is_a_binding_behind_those_of_its_pattern(rt: HostRuntime) {
    assert!(rt; said_of_body(rt.alloc(), FOR, EnvironmentKind::Tables, &OF_FOR) == Said::Own);
}

//! The assignee expression: places lead to expressions, and what is taken apart leads to patterns. No look-up of written patterns answers
//! what is assigned to.

use crate::documents::Said;
use crate::lowered::{EnvironmentKind, said_of_body};
use crate::mappings::{Leads, Part, Shown};

/// `fn f() { (a, (b), ..) = c }`
const TARGETS: &str = r#"{"nodes": [
    {"k": "Fn", "body": 1},
    {"k": "BlockExpr", "tail": 2},
    {"k": "BinExpr", "op": "=", "lhs": 3, "rhs": 12},
    {"k": "TupleExpr", "fields": [4, 7, 11]},
    {"k": "PathExpr", "path": 5},
    {"k": "Path", "segs": [6]},
    {"k": "PathSegment", "seg": "name", "name": "a"},
    {"k": "ParenExpr", "expr": 8},
    {"k": "PathExpr", "path": 9},
    {"k": "Path", "segs": [10]},
    {"k": "PathSegment", "seg": "name", "name": "b"},
    {"k": "RangeExpr", "op": ".."},
    {"k": "PathExpr", "path": 13},
    {"k": "Path", "segs": [14]},
    {"k": "PathSegment", "seg": "name", "name": "c"}
]}"#;

/// The tuple, `a`, the parentheses, `b`, the two dots and `c`.
const OF_PLACES: Shown<'static> = Shown {
    mappings: &[
        (0, 3, Leads::Target(2)),
        (0, 4, Leads::Expr(0)),
        (0, 7, Leads::Expr(1)),
        (0, 8, Leads::Expr(1)),
        (0, 11, Leads::Nowhere),
        (0, 12, Leads::Expr(2)),
    ],
    back: &[],
    counts: &[],
};

#[test]
fn places_lead_to_expressions_and_a_tuple_to_its_pattern(rt: HostRuntime) {
    assert!(rt;
        said_of_body(rt.alloc(), TARGETS, EnvironmentKind::Tables, &OF_PLACES) == Said::Own
    );
}

/// `fn f() { [a, .., S(b), S { x: c }] = d }`
const KINDS: &str = r#"{"nodes": [
    {"k": "Fn", "body": 1},
    {"k": "BlockExpr", "tail": 2},
    {"k": "BinExpr", "op": "=", "lhs": 3, "rhs": 23},
    {"k": "ArrayExpr", "elems": [4, 7, 8, 15]},
    {"k": "PathExpr", "path": 5},
    {"k": "Path", "segs": [6]},
    {"k": "PathSegment", "seg": "name", "name": "a"},
    {"k": "RangeExpr", "op": ".."},
    {"k": "CallExpr", "expr": 9, "args": [12]},
    {"k": "PathExpr", "path": 10},
    {"k": "Path", "segs": [11]},
    {"k": "PathSegment", "seg": "name", "name": "S"},
    {"k": "PathExpr", "path": 13},
    {"k": "Path", "segs": [14]},
    {"k": "PathSegment", "seg": "name", "name": "b"},
    {"k": "RecordExpr", "path": 16, "list": 18},
    {"k": "Path", "segs": [17]},
    {"k": "PathSegment", "seg": "name", "name": "S"},
    {"k": "RecordExprFieldList", "fields": [19]},
    {"k": "RecordExprField", "name": "x", "expr": 20},
    {"k": "PathExpr", "path": 21},
    {"k": "Path", "segs": [22]},
    {"k": "PathSegment", "seg": "name", "name": "c"},
    {"k": "PathExpr", "path": 24},
    {"k": "Path", "segs": [25]},
    {"k": "PathSegment", "seg": "name", "name": "d"}
]}"#;

/// The array, the two dots, the call, its callee, the record and the field's value; and the field that the value's pattern comes from.
const OF_KINDS: Shown<'static> = Shown {
    mappings: &[
        (0, 3, Leads::Target(6)),
        (0, 7, Leads::Target(5)),
        (0, 8, Leads::Target(2)),
        (0, 9, Leads::Nowhere),
        (0, 15, Leads::Target(4)),
        (0, 20, Leads::Expr(2)),
    ],
    back: &[(Part::FieldPat(3), 19)],
    counts: &[],
};

#[test]
fn what_is_taken_apart_leads_to_patterns_alone(rt: HostRuntime) {
    assert!(rt; said_of_body(rt.alloc(), KINDS, EnvironmentKind::Tables, &OF_KINDS) == Said::Own);
}

/// `fn f() { ((a, m!())) = 1; n!() = 2 }`, where m stands for `_`, and n for `[b]`.
const CALLS: &str = r#"{
    "nodes": [
        {"k": "Fn", "body": 1},
        {"k": "BlockExpr", "stmts": [2], "tail": 12},
        {"k": "ExprStmt", "expr": 3, "semi": true},
        {"k": "BinExpr", "op": "=", "lhs": 4, "rhs": 11},
        {"k": "ParenExpr", "expr": 5},
        {"k": "TupleExpr", "fields": [6, 9]},
        {"k": "PathExpr", "path": 7},
        {"k": "Path", "segs": [8]},
        {"k": "PathSegment", "seg": "name", "name": "a"},
        {"k": "MacroExpr", "call": 10},
        {"k": "MacroCall"},
        {"k": "Literal", "lit": "int", "t": "1"},
        {"k": "BinExpr", "op": "=", "lhs": 13, "rhs": 15},
        {"k": "MacroExpr", "call": 14},
        {"k": "MacroCall"},
        {"k": "Literal", "lit": "int", "t": "2"},
        {"k": "UnderscoreExpr"},
        {"k": "ArrayExpr", "elems": [18]},
        {"k": "PathExpr", "path": 19},
        {"k": "Path", "segs": [20]},
        {"k": "PathSegment", "seg": "name", "name": "b"}
    ],
    "env": {"macros": [[0, 10, "file", 1, 16], [0, 14, "file", 2, 17]]}
}"#;

/// The parentheses, the tuple, `a`, the call that is an element and the one that is the whole; `_`, the array and `b` in their files; and
/// the nodes that the patterns of `_` and of the array come from.
const OF_CALLS: Shown<'static> = Shown {
    mappings: &[
        (0, 4, Leads::Nowhere),
        (0, 5, Leads::Target(2)),
        (0, 6, Leads::Expr(0)),
        (0, 9, Leads::Nowhere),
        (0, 13, Leads::Target(4)),
        (1, 16, Leads::Target(1)),
        (2, 17, Leads::Target(4)),
        (2, 18, Leads::Expr(3)),
    ],
    back: &[(Part::Pat(1), 9), (Part::Pat(4), 17)],
    counts: &[],
};

#[test]
fn a_call_that_is_assigned_to_leads_to_its_pattern_but_not_as_an_element(rt: HostRuntime) {
    assert!(rt; said_of_body(rt.alloc(), CALLS, EnvironmentKind::Tables, &OF_CALLS) == Said::Own);
}

/// `fn f() { [m!()] = 1; p!() = 2; q!()(a) = 3 }`, where m stands for `n!()` and n for `..`, p for `x` and q for `S`.
const NESTED: &str = r#"{
    "nodes": [
        {"k": "Fn", "body": 1},
        {"k": "BlockExpr", "stmts": [2, 8], "tail": 13},
        {"k": "ExprStmt", "expr": 3, "semi": true},
        {"k": "BinExpr", "op": "=", "lhs": 4, "rhs": 7},
        {"k": "ArrayExpr", "elems": [5]},
        {"k": "MacroExpr", "call": 6},
        {"k": "MacroCall"},
        {"k": "Literal", "lit": "int", "t": "1"},
        {"k": "ExprStmt", "expr": 9, "semi": true},
        {"k": "BinExpr", "op": "=", "lhs": 10, "rhs": 12},
        {"k": "MacroExpr", "call": 11},
        {"k": "MacroCall"},
        {"k": "Literal", "lit": "int", "t": "2"},
        {"k": "BinExpr", "op": "=", "lhs": 14, "rhs": 20},
        {"k": "CallExpr", "expr": 15, "args": [17]},
        {"k": "MacroExpr", "call": 16},
        {"k": "MacroCall"},
        {"k": "PathExpr", "path": 18},
        {"k": "Path", "segs": [19]},
        {"k": "PathSegment", "seg": "name", "name": "a"},
        {"k": "Literal", "lit": "int", "t": "3"},
        {"k": "MacroExpr", "call": 22},
        {"k": "MacroCall"},
        {"k": "RangeExpr", "op": ".."},
        {"k": "PathExpr", "path": 25},
        {"k": "Path", "segs": [26]},
        {"k": "PathSegment", "seg": "name", "name": "x"},
        {"k": "PathExpr", "path": 28},
        {"k": "Path", "segs": [29]},
        {"k": "PathSegment", "seg": "name", "name": "S"}
    ],
    "env": {
        "macros": [[0, 6, "file", 1, 21], [1, 22, "file", 2, 23], [0, 11, "file", 3, 24], [0, 16, "file", 4, 27]]
    }
}"#;

/// The array and the call for its dots, the inner call and the dots; the call for a place, and the place; the call with the argument, the
/// call for its callee, the argument, and the callee.
const OF_NESTED: Shown<'static> = Shown {
    mappings: &[
        (0, 4, Leads::Target(1)),
        (0, 5, Leads::Target(0)),
        (1, 21, Leads::Nowhere),
        (2, 23, Leads::Nowhere),
        (0, 10, Leads::Target(2)),
        (3, 24, Leads::Expr(2)),
        (0, 14, Leads::Target(4)),
        (0, 15, Leads::Nowhere),
        (0, 17, Leads::Expr(5)),
        (4, 27, Leads::Nowhere),
    ],
    back: &[],
    counts: &[],
};

#[test]
fn a_call_leads_to_dots_and_to_a_place_but_not_to_a_callee(rt: HostRuntime) {
    assert!(rt; said_of_body(rt.alloc(), NESTED, EnvironmentKind::Tables, &OF_NESTED) == Said::Own);
}

/// `fn f() { m!() = 1 }`, where m stands for `n!()`, and n for `_`, which a condition disables.
const DISABLED: &str = r#"{
    "nodes": [
        {"k": "Fn", "body": 1},
        {"k": "BlockExpr", "tail": 2},
        {"k": "BinExpr", "op": "=", "lhs": 3, "rhs": 5},
        {"k": "MacroExpr", "call": 4},
        {"k": "MacroCall"},
        {"k": "Literal", "lit": "int", "t": "1"},
        {"k": "MacroExpr", "call": 7},
        {"k": "MacroCall"},
        {"k": "UnderscoreExpr"}
    ],
    "env": {"disabled": [[2, 8, 1]], "macros": [[0, 4, "file", 1, 6], [1, 7, "file", 2, 8]]}
}"#;

/// Both calls, and `_`; and the node that the pattern comes from.
const OF_DISABLED: Shown<'static> = Shown {
    mappings: &[
        (0, 3, Leads::Target(0)),
        (1, 6, Leads::Target(0)),
        (2, 8, Leads::Nowhere),
    ],
    back: &[(Part::Pat(0), 8)],
    counts: &[],
};

#[test]
fn calls_lead_to_the_place_that_a_disabled_expression_is(rt: HostRuntime) {
    assert!(rt;
        said_of_body(rt.alloc(), DISABLED, EnvironmentKind::Tables, &OF_DISABLED) == Said::Own
    );
}

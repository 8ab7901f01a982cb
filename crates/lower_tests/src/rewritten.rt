//! What the nodes of `?`, `try` and `for` lead to, and how much is stored for them.

use crate::documents::Said;
use crate::inner::{Became, Form};
use crate::lowered::{EnvironmentKind, said_of_body};
use crate::mappings::{Count, Leads, Shown};

/// `fn f() { a? }`
const QUESTION: &str = r#"{"nodes": [
    {"k": "Fn", "body": 1},
    {"k": "BlockExpr", "tail": 2},
    {"k": "TryExpr", "expr": 3},
    {"k": "PathExpr", "path": 4},
    {"k": "Path", "segs": [5]},
    {"k": "PathSegment", "seg": "name", "name": "a"}
]}"#;

/// The same where the language has no item that tells what goes on.
const WITHOUT_ITEM: &str = r#"{"nodes": [
    {"k": "Fn", "body": 1},
    {"k": "BlockExpr", "tail": 2},
    {"k": "TryExpr", "expr": 3},
    {"k": "PathExpr", "path": 4},
    {"k": "Path", "segs": [5]},
    {"k": "PathSegment", "seg": "name", "name": "a"}
], "env": {"lang": {"ControlFlowContinue": null}}}"#;

/// `fn f() { try { a } }`
const TRY: &str = r#"{"nodes": [
    {"k": "Fn", "body": 1},
    {"k": "BlockExpr", "tail": 2},
    {"k": "BlockExpr", "mod": "try", "tail": 3},
    {"k": "PathExpr", "path": 4},
    {"k": "Path", "segs": [5]},
    {"k": "PathSegment", "seg": "name", "name": "a"}
]}"#;

/// `fn f() { try bikeshed T {} }`
const TYPED: &str = r#"{"nodes": [
    {"k": "Fn", "body": 1},
    {"k": "BlockExpr", "tail": 2},
    {"k": "BlockExpr", "mod": "try", "ty": 3},
    {"k": "PathType", "path": 4},
    {"k": "Path", "segs": [5]},
    {"k": "PathSegment", "seg": "name", "name": "T"}
]}"#;

/// `fn f() { 'a: for x in a {} }`
const FOR: &str = r#"{"nodes": [
    {"k": "Fn", "body": 1},
    {"k": "BlockExpr", "tail": 2},
    {"k": "ForExpr", "label": 3, "pat": 4, "iterable": 5, "body": 8},
    {"k": "Label", "lifetime": "'a"},
    {"k": "IdentPat", "name": "x"},
    {"k": "PathExpr", "path": 6},
    {"k": "Path", "segs": [7]},
    {"k": "PathSegment", "seg": "name", "name": "a"},
    {"k": "BlockExpr"}
]}"#;

/// The same where the language has no item that gives the next one.
const FOR_WITHOUT_ITEM: &str = r#"{"nodes": [
    {"k": "Fn", "body": 1},
    {"k": "BlockExpr", "tail": 2},
    {"k": "ForExpr", "label": 3, "pat": 4, "iterable": 5, "body": 8},
    {"k": "Label", "lifetime": "'a"},
    {"k": "IdentPat", "name": "x"},
    {"k": "PathExpr", "path": 6},
    {"k": "Path", "segs": [7]},
    {"k": "PathSegment", "seg": "name", "name": "a"},
    {"k": "BlockExpr"}
], "env": {"lang": {"IteratorNext": null}}}"#;

/// `fn f() { 'a: for x in #[cfg(no)] a {} }`
const FOR_OF_DISABLED_HEAD: &str = r#"{"nodes": [
    {"k": "Fn", "body": 1},
    {"k": "BlockExpr", "tail": 2},
    {"k": "ForExpr", "label": 3, "pat": 4, "iterable": 5, "body": 8},
    {"k": "Label", "lifetime": "'a"},
    {"k": "IdentPat", "name": "x"},
    {"k": "PathExpr", "path": 6},
    {"k": "Path", "segs": [7]},
    {"k": "PathSegment", "seg": "name", "name": "a"},
    {"k": "BlockExpr"}
], "env": {"disabled": [[0, 5, 5]]}}"#;

const OF_QUESTION: Became = Became {
    form: Form::Match,
    counts: &[
        (Count::Exprs, 10),
        (Count::Pats, 4),
        (Count::Bindings, 2),
        (Count::Labels, 0),
        (Count::Types, 0),
    ],
};

#[test]
fn a_question_leads_to_its_match(rt: HostRuntime) {
    assert!(rt;
        said_of_body(rt.alloc(), QUESTION, EnvironmentKind::Tables, &OF_QUESTION) == Said::Own
    );
}

const MISSING: Became = Became {
    form: Form::Nowhere,
    counts: &[
        (Count::Exprs, 2),
        (Count::Pats, 0),
        (Count::Bindings, 0),
        (Count::Labels, 0),
        (Count::Types, 0),
    ],
};

#[test]
fn a_question_without_its_items_leads_nowhere(rt: HostRuntime) {
    assert!(rt;
        said_of_body(rt.alloc(), WITHOUT_ITEM, EnvironmentKind::Tables, &MISSING) == Said::Own
    );
}

const OF_TRY: Became = Became {
    form: Form::LabelledBlock,
    counts: &[
        (Count::Exprs, 5),
        (Count::Pats, 0),
        (Count::Bindings, 0),
        (Count::Labels, 1),
        (Count::Types, 0),
    ],
};

#[test]
fn a_try_leads_to_its_labelled_block(rt: HostRuntime) {
    assert!(rt; said_of_body(rt.alloc(), TRY, EnvironmentKind::Tables, &OF_TRY) == Said::Own);
}

const OF_TYPED: Became = Became {
    form: Form::LabelledBlock,
    counts: &[
        (Count::Exprs, 7),
        (Count::Pats, 1),
        (Count::Bindings, 1),
        (Count::Labels, 1),
        (Count::Types, 1),
    ],
};

#[test]
fn a_typed_try_leads_to_the_labelled_block_inside(rt: HostRuntime) {
    assert!(rt; said_of_body(rt.alloc(), TYPED, EnvironmentKind::Tables, &OF_TYPED) == Said::Own);
}

const OF_FOR: Became = Became {
    form: Form::Match,
    counts: &[
        (Count::Exprs, 14),
        (Count::Pats, 4),
        (Count::Bindings, 2),
        (Count::Labels, 1),
        (Count::Types, 0),
    ],
};

#[test]
fn a_for_leads_to_its_outer_match(rt: HostRuntime) {
    assert!(rt; said_of_body(rt.alloc(), FOR, EnvironmentKind::Tables, &OF_FOR) == Said::Own);
}

#[test]
fn a_for_without_its_items_leads_nowhere(rt: HostRuntime) {
    assert!(rt;
        said_of_body(
            rt.alloc(),
            FOR_WITHOUT_ITEM,
            EnvironmentKind::Tables,
            &MISSING
        ) == Said::Own
    );
}

const OF_HEAD: Shown<'static> = Shown {
    mappings: &[(0, 5, Leads::Expr(0))],
    back: &[],
    counts: &[],
};

const OF_DISABLED_HEAD: Shown<'static> = Shown {
    mappings: &[(0, 5, Leads::Nowhere)],
    back: &[],
    counts: &[],
};

#[test]
fn the_head_of_a_for_leads_to_itself_and_nowhere_where_it_is_disabled(rt: HostRuntime) {
    let alloc = rt.alloc();
    assert!(rt; said_of_body(alloc, FOR, EnvironmentKind::Tables, &OF_HEAD) == Said::Own);
    assert!(rt;
        said_of_body(
            alloc,
            FOR_OF_DISABLED_HEAD,
            EnvironmentKind::Tables,
            &OF_DISABLED_HEAD
        ) == Said::Own
    );
}

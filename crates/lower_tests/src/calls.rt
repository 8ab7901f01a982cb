//! Macro calls that an object answers, without end and otherwise.

use crate::collectors::{Call, Holds, Script, said_of_calls};
use crate::documents::Said;
use crate::lowered::{EnvironmentKind, said_of_body};
use crate::mappings::{Count, Shown};
use crate::objects::Text;
use crate::small::NESTED;

/// `f(m!(), n!())`, where each call stands for itself: the call in what it stands for has its number, in its file.
pub const ENDLESS: &str = r#"{
    "owner": "const",
    "nodes": [
        {"k": "Fn", "body": 1},
        {"k": "CallExpr", "expr": 2, "args": [5, 7]},
        {"k": "PathExpr", "path": 3},
        {"k": "Path", "segs": [4]},
        {"k": "PathSegment", "seg": "name", "name": "f"},
        {"k": "MacroExpr", "call": 6},
        {"k": "MacroCall"},
        {"k": "MacroExpr", "call": 8},
        {"k": "MacroCall"},
        {"k": "MacroExpr", "call": 10},
        {"k": "MacroCall", "id": 6},
        {"k": "MacroExpr", "call": 12},
        {"k": "MacroCall", "id": 8}
    ],
    "env": {"limit": 3, "macros": [[0, 6, "file", 0, 9], [0, 8, "file", 0, 11]]}
}"#;

/// `m!()`, of which none may be entered.
pub const NONE_ENTERED: &str = r#"{
    "owner": "const",
    "nodes": [
        {"k": "Fn", "body": 1},
        {"k": "MacroExpr", "call": 2},
        {"k": "MacroCall"},
        {"k": "MacroExpr", "call": 4},
        {"k": "MacroCall", "id": 2}
    ],
    "env": {"limit": 0, "macros": [[0, 2, "file", 0, 3]]}
}"#;

/// Six expansions are recorded, and no fault.
pub const SIX: Shown<'static> = Shown {
    mappings: &[],
    back: &[],
    counts: &[(Count::Expansions, 6), (Count::Faults, 0)],
};

pub const NONE: Shown<'static> = Shown {
    mappings: &[],
    back: &[],
    counts: &[(Count::Expansions, 0), (Count::Faults, 0)],
};

#[test]
fn calls_without_end_are_entered_up_to_the_limit(rt: HostRuntime) {
    assert!(rt; said_of_body(rt.alloc(), ENDLESS, EnvironmentKind::Object, &SIX) == Said::Own);
}

#[test]
fn no_call_is_entered_where_the_limit_is_zero(rt: HostRuntime) {
    assert!(rt;
        said_of_body(rt.alloc(), NONE_ENTERED, EnvironmentKind::Object, &NONE) == Said::Own
    );
}

/// `'a: loop { macro_rules! m {..} m!() }`, where m stands for `break 'a`, whose label's context was made in itself.
pub const ITS_OWN_PARENT: &str = r#"{
    "nodes": [
        {"k": "Fn", "body": 1},
        {"k": "BlockExpr", "tail": 2},
        {"k": "LoopExpr", "label": 3, "body": 4},
        {"k": "Label", "lifetime": "'a"},
        {"k": "BlockExpr", "stmts": [5], "tail": 6},
        {"k": "MacroRules", "name": "m"},
        {"k": "MacroExpr", "call": 7},
        {"k": "MacroCall"},
        {"k": "MacroStmts", "expr": 9},
        {"k": "BreakExpr", "lifetime": "'a"}
    ],
    "env": {
        "hygiene": [[1, 9, 1]],
        "contexts": [[1, 1, 1, 9, false, null]],
        "macros": [[0, 7, "file", 1, 8]],
        "legacy": [[0, "m", 0, 9]]
    }
}"#;

/// The jump has no label.
pub const NO_LABEL: Text = Text(
    r"body r0=(Block - - - [] (Loop (Block - - - [(MacroDef 9)] (Break - -)) L0 loop))
label 0 'a
expansion @7 1
diag UndeclaredLabel 'a
",
);

#[test]
fn a_search_ends_in_a_context_that_is_its_own_parent(rt: HostRuntime) {
    assert!(rt;
        said_of_body(
            rt.alloc(),
            ITS_OWN_PARENT,
            EnvironmentKind::Object,
            &NO_LABEL
        ) == Said::Own
    );
}

/// `m!()` as an expression, which is expanded to a type.
pub const OTHER_KIND: &str = r#"{
    "owner": "const",
    "nodes": [
        {"k": "Fn", "body": 1},
        {"k": "MacroExpr", "call": 2},
        {"k": "MacroCall"},
        {"k": "NeverType"}
    ],
    "env": {"macros": [[0, 2, "file", 1, 3]]}
}"#;

pub const MISSING: Text = Text("body r0=(Missing)\nexpansion @2 1\n");

#[test]
fn a_call_that_is_expanded_to_another_kind_is_recorded_and_missing(rt: HostRuntime) {
    assert!(rt;
        said_of_body(rt.alloc(), OTHER_KIND, EnvironmentKind::Object, &MISSING) == Said::Own
    );
}

/// Three calls are entered, and the fourth isn't.
pub const THREE_ENTERED: Script<'static> = Script {
    limit: u32::MAX,
    calls: &[(Call::Constant, Ok(true))],
    holds: Holds::Sizes {
        exprs: 1,
        labels: 0,
        expansions: 3,
        faults: 0,
    },
};

#[test]
fn calls_in_a_constant_are_entered_up_to_the_limit(rt: HostRuntime) {
    assert!(rt; said_of_calls(rt.alloc(), NESTED, &THREE_ENTERED) == Said::Own);
}

//! What the bodies of some forms ask, by the lists of `thm_enabled`. A form is the body of a constant, by itself.

use crate::asked::{Question, Row, said_of_row};
use crate::documents::Said;
use hir_env::expand::FragmentKind;
use hir_env::resolved::BuiltinShadowMode;

/// `1`
const LITERAL: Row = Row {
    text: r#"{"owner": "const", "nodes": [
        {"k": "Fn", "body": 1},
        {"k": "Literal", "lit": "int", "t": "1"}
    ]}"#,
    list: &[Question::Cfg(0, 1)],
};

/// `a`
const PATH: Row = Row {
    text: r#"{"owner": "const", "nodes": [
        {"k": "Fn", "body": 1},
        {"k": "PathExpr", "path": 2},
        {"k": "Path", "segs": [3]},
        {"k": "PathSegment", "seg": "name", "name": "a"}
    ]}"#,
    list: &[Question::Cfg(0, 1), Question::Hygiene(0, 1)],
};

/// `m!()`, where no call may be entered.
const LIMITED: Row = Row {
    text: r#"{"owner": "const", "nodes": [
        {"k": "Fn", "body": 1},
        {"k": "MacroExpr", "call": 2},
        {"k": "MacroCall"},
        {"k": "Literal", "lit": "int", "t": "1"}
    ], "env": {"limit": 0, "macros": [[0, 2, "file", 1, 3]]}}"#,
    list: &[Question::Cfg(0, 1)],
};

/// `m!()`, where no macro has this name.
const UNRESOLVED: Row = Row {
    text: r#"{"owner": "const", "nodes": [
        {"k": "Fn", "body": 1},
        {"k": "MacroExpr", "call": 2},
        {"k": "MacroCall"}
    ], "env": {"macros": [[0, 2, "unresolved", "m"]]}}"#,
    list: &[
        Question::Cfg(0, 1),
        Question::Expand(0, 2, 0, FragmentKind::Expr),
    ],
};

/// `m!()`, which stands for `a` in a file of its own.
const ENTERED: Row = Row {
    text: r#"{"owner": "const", "nodes": [
        {"k": "Fn", "body": 1},
        {"k": "MacroExpr", "call": 2},
        {"k": "MacroCall"},
        {"k": "PathExpr", "path": 4},
        {"k": "Path", "segs": [5]},
        {"k": "PathSegment", "seg": "name", "name": "a"}
    ], "env": {"macros": [[0, 2, "file", 1, 3]]}}"#,
    list: &[
        Question::Cfg(0, 1),
        Question::Expand(0, 2, 0, FragmentKind::Expr),
        Question::Cfg(1, 3),
        Question::Hygiene(1, 3),
    ],
};

/// `{ {} m!() }`, where the outer block is numbered and has a module.
const NUMBERED: Row = Row {
    text: r#"{"owner": "const", "nodes": [
        {"k": "Fn", "body": 1},
        {"k": "BlockExpr", "stmts": [2], "tail": 4},
        {"k": "ExprStmt", "expr": 3},
        {"k": "BlockExpr"},
        {"k": "MacroExpr", "call": 5},
        {"k": "MacroCall"}
    ], "env": {"blocks": [[0, 1, 3, 7]], "macros": [[0, 5, "none"]]}}"#,
    list: &[
        Question::Cfg(0, 1),
        Question::Block(0, 1, 0),
        Question::Cfg(0, 3),
        Question::Block(0, 3, 7),
        Question::Cfg(0, 4),
        Question::Expand(0, 5, 7, FragmentKind::Stmts),
    ],
};

/// `for x in a {}`
const FOR: Row = Row {
    text: r#"{"owner": "const", "nodes": [
        {"k": "Fn", "body": 1},
        {"k": "ForExpr", "pat": 2, "iterable": 3, "body": 6},
        {"k": "IdentPat", "name": "x"},
        {"k": "PathExpr", "path": 4},
        {"k": "Path", "segs": [5]},
        {"k": "PathSegment", "seg": "name", "name": "a"},
        {"k": "BlockExpr"}
    ]}"#,
    list: &[
        Question::Cfg(0, 1),
        Question::LangItems,
        Question::Hygiene(0, 2),
        Question::Resolve(0, "x", BuiltinShadowMode::Other),
        Question::Cfg(0, 3),
        Question::Hygiene(0, 3),
        Question::Cfg(0, 6),
        Question::Block(0, 6, 0),
    ],
};

/// `1?`
const QUESTION_MARK: Row = Row {
    text: r#"{"owner": "const", "nodes": [
        {"k": "Fn", "body": 1},
        {"k": "TryExpr", "expr": 2},
        {"k": "Literal", "lit": "int", "t": "1"}
    ]}"#,
    list: &[
        Question::Cfg(0, 1),
        Question::LangItems,
        Question::Cfg(0, 2),
    ],
};

/// `a = 1`
const ASSIGNMENT: Row = Row {
    text: r#"{"owner": "const", "nodes": [
        {"k": "Fn", "body": 1},
        {"k": "BinExpr", "op": "=", "lhs": 2, "rhs": 5},
        {"k": "PathExpr", "path": 3},
        {"k": "Path", "segs": [4]},
        {"k": "PathSegment", "seg": "name", "name": "a"},
        {"k": "Literal", "lit": "int", "t": "1"}
    ]}"#,
    list: &[
        Question::Cfg(0, 1),
        Question::Cfg(0, 2),
        Question::Hygiene(0, 2),
        Question::Resolve(0, "a", BuiltinShadowMode::Local),
        Question::Cfg(0, 5),
    ],
};

/// `f(#[cfg(no)] g(m!(), a?, {}), 1)`
const DISABLED: Row = Row {
    text: r#"{"owner": "const", "nodes": [
        {"k": "Fn", "body": 1},
        {"k": "CallExpr", "expr": 2, "args": [5, 13]},
        {"k": "PathExpr", "path": 3},
        {"k": "Path", "segs": [4]},
        {"k": "PathSegment", "seg": "name", "name": "f"},
        {"k": "CallExpr", "args": [6, 8, 12]},
        {"k": "MacroExpr", "call": 7},
        {"k": "MacroCall"},
        {"k": "TryExpr", "expr": 9},
        {"k": "PathExpr", "path": 10},
        {"k": "Path", "segs": [11]},
        {"k": "PathSegment", "seg": "name", "name": "a"},
        {"k": "BlockExpr"},
        {"k": "Literal", "lit": "int", "t": "1"},
        {"k": "Literal", "lit": "int", "t": "2"}
    ], "env": {"disabled": [[0, 5, 1]], "macros": [[0, 7, "file", 1, 14]]}}"#,
    list: &[
        Question::Cfg(0, 1),
        Question::Cfg(0, 2),
        Question::Hygiene(0, 2),
        Question::Cfg(0, 5),
        Question::Cfg(0, 13),
    ],
};

/// `fn f(x) { let y = m!(); for z in x { y = z?; #[cfg(no)] let w = n!(); } #[cfg(no)] g() }`, where m stands for `1`.
const WHOLE: Row = Row {
    text: r#"{"nodes": [
        {"k": "Fn", "params": 1, "body": 4},
        {"k": "ParamList", "params": [2]},
        {"k": "Param", "pat": 3},
        {"k": "IdentPat", "name": "x"},
        {"k": "BlockExpr", "stmts": [5, 10], "tail": 31},
        {"k": "LetStmt", "pat": 6, "init": 7},
        {"k": "IdentPat", "name": "y"},
        {"k": "MacroExpr", "call": 8},
        {"k": "MacroCall"},
        {"k": "Literal", "lit": "int", "t": "1"},
        {"k": "ExprStmt", "expr": 11},
        {"k": "ForExpr", "pat": 12, "iterable": 13, "body": 16},
        {"k": "IdentPat", "name": "z"},
        {"k": "PathExpr", "path": 14},
        {"k": "Path", "segs": [15]},
        {"k": "PathSegment", "seg": "name", "name": "x"},
        {"k": "BlockExpr", "stmts": [17, 26]},
        {"k": "ExprStmt", "expr": 18, "semi": true},
        {"k": "BinExpr", "op": "=", "lhs": 19, "rhs": 22},
        {"k": "PathExpr", "path": 20},
        {"k": "Path", "segs": [21]},
        {"k": "PathSegment", "seg": "name", "name": "y"},
        {"k": "TryExpr", "expr": 23},
        {"k": "PathExpr", "path": 24},
        {"k": "Path", "segs": [25]},
        {"k": "PathSegment", "seg": "name", "name": "z"},
        {"k": "LetStmt", "pat": 27, "init": 28},
        {"k": "IdentPat", "name": "w"},
        {"k": "MacroExpr", "call": 29},
        {"k": "MacroCall"},
        {"k": "Literal", "lit": "int", "t": "2"},
        {"k": "CallExpr", "expr": 32, "args": []},
        {"k": "PathExpr", "path": 33},
        {"k": "Path", "segs": [34]},
        {"k": "PathSegment", "seg": "name", "name": "g"}
    ], "env": {
        "disabled": [[0, 26, 1], [0, 31, 1]],
        "macros": [[0, 8, "file", 1, 9], [0, 29, "file", 2, 30]]
    }}"#,
    list: &[
        Question::Cfg(0, 2),
        Question::Hygiene(0, 3),
        Question::Resolve(0, "x", BuiltinShadowMode::Other),
        Question::Cfg(0, 4),
        Question::Block(0, 4, 0),
        Question::Cfg(0, 5),
        Question::Hygiene(0, 6),
        Question::Resolve(0, "y", BuiltinShadowMode::Other),
        Question::Cfg(0, 7),
        Question::Expand(0, 8, 0, FragmentKind::Expr),
        Question::Cfg(1, 9),
        Question::Cfg(0, 11),
        Question::LangItems,
        Question::Hygiene(0, 12),
        Question::Resolve(0, "z", BuiltinShadowMode::Other),
        Question::Cfg(0, 13),
        Question::Hygiene(0, 13),
        Question::Cfg(0, 16),
        Question::Block(0, 16, 0),
        Question::Cfg(0, 18),
        Question::Cfg(0, 19),
        Question::Hygiene(0, 19),
        Question::Resolve(0, "y", BuiltinShadowMode::Local),
        Question::Cfg(0, 22),
        Question::Cfg(0, 23),
        Question::Hygiene(0, 23),
        Question::Cfg(0, 26),
        Question::Cfg(0, 31),
    ],
};

#[test]
fn a_literal_asks_its_condition(rt: HostRuntime) {
    assert!(rt; said_of_row(rt.alloc(), LITERAL) == Said::Own);
}

#[test]
fn a_path_asks_its_hygiene(rt: HostRuntime) {
    assert!(rt; said_of_row(rt.alloc(), PATH) == Said::Own);
}

#[test]
fn a_call_asks_nothing_where_none_may_be_entered(rt: HostRuntime) {
    assert!(rt; said_of_row(rt.alloc(), LIMITED) == Said::Own);
}

#[test]
fn a_call_that_is_not_resolved_asks_its_expansion(rt: HostRuntime) {
    assert!(rt; said_of_row(rt.alloc(), UNRESOLVED) == Said::Own);
}

#[test]
fn a_call_asks_in_the_file_of_its_expansion(rt: HostRuntime) {
    assert!(rt; said_of_row(rt.alloc(), ENTERED) == Said::Own);
}

#[test]
fn a_numbered_block_asks_in_its_module(rt: HostRuntime) {
    assert!(rt; said_of_row(rt.alloc(), NUMBERED) == Said::Own);
}

#[test]
fn a_for_asks_its_lang_items(rt: HostRuntime) {
    assert!(rt; said_of_row(rt.alloc(), FOR) == Said::Own);
}

#[test]
fn a_question_mark_asks_its_lang_items(rt: HostRuntime) {
    assert!(rt; said_of_row(rt.alloc(), QUESTION_MARK) == Said::Own);
}

#[test]
fn an_assignment_asks_what_its_left_stands_for(rt: HostRuntime) {
    assert!(rt; said_of_row(rt.alloc(), ASSIGNMENT) == Said::Own);
}

#[test]
fn nothing_is_asked_inside_of_a_disabled_expression(rt: HostRuntime) {
    assert!(rt; said_of_row(rt.alloc(), DISABLED) == Said::Own);
}

#[test]
fn a_body_asks_what_its_parts_ask(rt: HostRuntime) {
    assert!(rt; said_of_row(rt.alloc(), WHOLE) == Said::Own);
}

#[test]
fn another_list_is_told(rt: HostRuntime) {
    let fewer = Row {
        text: PATH.text,
        list: LITERAL.list,
    };
    let more = Row {
        text: LITERAL.text,
        list: PATH.list,
    };
    assert!(rt; said_of_row(rt.alloc(), fewer) == Said::Other);
    assert!(rt; said_of_row(rt.alloc(), more) == Said::Other);
}

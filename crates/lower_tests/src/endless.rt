//! Macro calls in every place where a call is entered, each of which is expanded to another one.

use crate::documents::Said;
use crate::lowered::{EnvironmentKind, said_of_body};
use crate::mappings::{Count, Leads, Shown};
use crate::objects::Text;

/// `f(m!(), n!())`, of which each is expanded to a call, and that to a call, and so on.
pub const ARGUMENTS: &str = r#"{
    "owner": "const",
    "nodes": [
        {"k": "Fn", "body": 1},
        {"k": "CallExpr", "expr": 2, "args": [5, 7]},
        {"k": "PathExpr", "path": 3},
        {"k": "Path", "segs": [4]},
        {"k": "PathSegment", "seg": "name", "name": "f"},
        {"k": "MacroExpr", "call": 6},
        {"k": "MacroCall", "id": 100},
        {"k": "MacroExpr", "call": 8},
        {"k": "MacroCall", "id": 200},
        {"k": "MacroExpr", "call": 10},
        {"k": "MacroCall", "id": 1}
    ],
    "env": {"limit": 3, "macros": [[9, 0, "file", 0, 9]]}
}"#;

/// Each call stands in the file of its number and of the file around it.
pub const OF_ARGUMENTS: Text = Text(
    r"body r0=(Call (Path f) [(Missing) (Missing)])
expansion @100 100
expansion @200 200
expansion @100.1 101
expansion @101.1 102
expansion @200.1 201
expansion @201.1 202
",
);

#[test]
fn each_argument_is_entered_up_to_the_limit(rt: HostRuntime) {
    assert!(rt;
        said_of_body(
            rt.alloc(),
            ARGUMENTS,
            EnvironmentKind::Endless,
            &OF_ARGUMENTS
        ) == Said::Own
    );
}

/// The same, of which none may be entered.
pub const NO_ARGUMENTS: &str = r#"{
    "owner": "const",
    "nodes": [
        {"k": "Fn", "body": 1},
        {"k": "CallExpr", "expr": 2, "args": [5, 7]},
        {"k": "PathExpr", "path": 3},
        {"k": "Path", "segs": [4]},
        {"k": "PathSegment", "seg": "name", "name": "f"},
        {"k": "MacroExpr", "call": 6},
        {"k": "MacroCall", "id": 100},
        {"k": "MacroExpr", "call": 8},
        {"k": "MacroCall", "id": 200},
        {"k": "MacroExpr", "call": 10},
        {"k": "MacroCall", "id": 1}
    ],
    "env": {"limit": 0, "macros": [[9, 0, "file", 0, 9]]}
}"#;

pub const OF_NO_ARGUMENTS: Text = Text("body r0=(Call (Path f) [(Missing) (Missing)])\n");

#[test]
fn no_argument_is_entered_where_the_limit_is_zero(rt: HostRuntime) {
    assert!(rt;
        said_of_body(
            rt.alloc(),
            NO_ARGUMENTS,
            EnvironmentKind::Endless,
            &OF_NO_ARGUMENTS
        ) == Said::Own
    );
}

/// `fn f() { m!(); let m!(): m!() = m!(); m!() }`, where statements are expanded to a call with a semicolon and one without.
const EVERYWHERE: &str = r#"{
    "nodes": [
        {"k": "Fn", "body": 1},
        {"k": "BlockExpr", "stmts": [2, 5], "tail": 12},
        {"k": "ExprStmt", "expr": 3, "semi": true},
        {"k": "MacroExpr", "call": 4},
        {"k": "MacroCall", "id": 101},
        {"k": "LetStmt", "pat": 6, "ty": 8, "init": 10},
        {"k": "MacroPat", "call": 7},
        {"k": "MacroCall", "id": 102},
        {"k": "MacroType", "call": 9},
        {"k": "MacroCall", "id": 103},
        {"k": "MacroExpr", "call": 11},
        {"k": "MacroCall", "id": 104},
        {"k": "MacroExpr", "call": 13},
        {"k": "MacroCall", "id": 105},
        {"k": "MacroExpr", "call": 15},
        {"k": "MacroCall", "id": 201},
        {"k": "MacroStmts", "stmts": [17], "expr": 20},
        {"k": "ExprStmt", "expr": 18, "semi": true},
        {"k": "MacroExpr", "call": 19},
        {"k": "MacroCall", "id": 202},
        {"k": "MacroExpr", "call": 21},
        {"k": "MacroCall", "id": 203},
        {"k": "MacroPat", "call": 23},
        {"k": "MacroCall", "id": 204},
        {"k": "MacroType", "call": 25},
        {"k": "MacroCall", "id": 205}
    ],
    "env": {
        "limit": 3,
        "macros": [[9, 0, "file", 0, 14], [9, 1, "file", 0, 16], [9, 2, "file", 0, 22], [9, 3, "file", 0, 24]]
    }
}"#;

/// The statement, the pattern, the type, the value, and the tail.
const OF_ALL: Shown<'static> = Shown {
    mappings: &[
        (0, 3, Leads::Nowhere),
        (0, 6, Leads::Pat(0)),
        (0, 8, Leads::Type_(0)),
        (0, 10, Leads::Expr(0)),
        (0, 12, Leads::Nowhere),
    ],
    back: &[],
    counts: &[
        (Count::Exprs, 2),
        (Count::Pats, 1),
        (Count::Types, 1),
        (Count::Expansions, 23),
        (Count::Faults, 0),
    ],
};

/// Three as a pattern, as a type and as a value; and as the statement and as the tail one, two and four.
#[test]
fn each_place_is_entered_up_to_the_limit(rt: HostRuntime) {
    assert!(rt;
        said_of_body(rt.alloc(), EVERYWHERE, EnvironmentKind::Endless, &OF_ALL) == Said::Own
    );
}

//! Collectors with little room: each is full up to the room that a tree takes, and no tree takes more.

use crate::collectors::{Call, Ends, Holds, Script, said_of_calls};
use crate::constants::PATH;
use crate::documents::Said;
use crate::types::IMPL_IN_A_PATH;
use hir_lower::LowerError;
use hir_store::ids::{BindingId, ExprId, PatId};
use std::alloc::Global;

/// `A<{ .. }>` with `for x in a {}` as the constant.
const FOR: &str = r#"{"nodes": [
    {"k": "Path", "segs": [1]},
    {"k": "PathSegment", "seg": "name", "name": "A", "generics": 2},
    {"k": "GenericArgList", "args": [3]},
    {"k": "ConstArg", "expr": 4},
    {"k": "ForExpr", "pat": 5, "iterable": 6, "body": 9},
    {"k": "IdentPat", "name": "x"},
    {"k": "PathExpr", "path": 7},
    {"k": "Path", "segs": [8]},
    {"k": "PathSegment", "seg": "name", "name": "a"},
    {"k": "BlockExpr"}
]}"#;

/// The same with `f(1)`.
const CALL: &str = r#"{"nodes": [
    {"k": "Path", "segs": [1]},
    {"k": "PathSegment", "seg": "name", "name": "A", "generics": 2},
    {"k": "GenericArgList", "args": [3]},
    {"k": "ConstArg", "expr": 4},
    {"k": "CallExpr", "expr": 5, "args": [8]},
    {"k": "PathExpr", "path": 6},
    {"k": "Path", "segs": [7]},
    {"k": "PathSegment", "seg": "name", "name": "f"},
    {"k": "Literal", "lit": "int", "t": "1"}
]}"#;

/// The same with `1`.
const ONE: &str = r#"{"nodes": [
    {"k": "Path", "segs": [1]},
    {"k": "PathSegment", "seg": "name", "name": "A", "generics": 2},
    {"k": "GenericArgList", "args": [3]},
    {"k": "ConstArg", "expr": 4},
    {"k": "Literal", "lit": "int", "t": "1"}
]}"#;

/// The same with a macro call that stands for a call, and so on, one more than may be entered.
pub const NESTED: &str = r#"{
    "nodes": [
        {"k": "Path", "segs": [1]},
        {"k": "PathSegment", "seg": "name", "name": "A", "generics": 2},
        {"k": "GenericArgList", "args": [3]},
        {"k": "ConstArg", "expr": 4},
        {"k": "MacroExpr", "call": 5},
        {"k": "MacroCall"},
        {"k": "MacroExpr", "call": 7},
        {"k": "MacroCall"},
        {"k": "MacroExpr", "call": 9},
        {"k": "MacroCall"},
        {"k": "MacroExpr", "call": 11},
        {"k": "MacroCall"},
        {"k": "Literal", "lit": "int", "t": "1"}
    ],
    "env": {
        "limit": 3,
        "macros": [[0, 5, "file", 1, 6], [1, 7, "file", 2, 8], [2, 9, "file", 3, 10], [3, 11, "file", 4, 12]]
    }
}"#;

/// The same with a `for` over `1`, without pattern and body.
const FOR_OVER_ONE: &str = r#"{"nodes": [
    {"k": "Path", "segs": [1]},
    {"k": "PathSegment", "seg": "name", "name": "A", "generics": 2},
    {"k": "GenericArgList", "args": [3]},
    {"k": "ConstArg", "expr": 4},
    {"k": "ForExpr", "iterable": 5},
    {"k": "Literal", "lit": "int", "t": "1"}
]}"#;

/// The same with `1?`.
const QUESTION_OF_ONE: &str = r#"{"nodes": [
    {"k": "Path", "segs": [1]},
    {"k": "PathSegment", "seg": "name", "name": "A", "generics": 2},
    {"k": "GenericArgList", "args": [3]},
    {"k": "ConstArg", "expr": 4},
    {"k": "TryExpr", "expr": 5},
    {"k": "Literal", "lit": "int", "t": "1"}
]}"#;

/// The same with `{ let (x, y); }`, which becomes one expression, three patterns and two bindings.
const LET: &str = r#"{"nodes": [
    {"k": "Path", "segs": [1]},
    {"k": "PathSegment", "seg": "name", "name": "A", "generics": 2},
    {"k": "GenericArgList", "args": [3]},
    {"k": "ConstArg", "expr": 4},
    {"k": "BlockExpr", "stmts": [5]},
    {"k": "LetStmt", "pat": 6},
    {"k": "TuplePat", "fields": [7, 8]},
    {"k": "IdentPat", "name": "x"},
    {"k": "IdentPat", "name": "y"}
]}"#;

/// What a call leaves.
#[derive(Clone, Copy)]
enum Left {
    /// No expression and no root, since there is no constant.
    Nothing,
    /// The ends of the only root. As many expressions as there is room for are stored where that is too little.
    Exprs(Ends),
    /// The same, where patterns take more room than expressions.
    Pats(Ends),
}

impl Left {
    fn ends(self) -> Option<Ends> {
        match self {
            Left::Nothing => None,
            Left::Exprs(ends) | Left::Pats(ends) => Some(ends),
        }
    }

    /// How many expressions are stored in a collector that is full, if that is known.
    fn stored(self, limit: u32) -> Option<u32> {
        match self {
            Left::Nothing => Some(0),
            Left::Exprs(_) => Some(limit),
            Left::Pats(_) => None,
        }
    }
}

/// A call, and how much room it takes.
#[derive(Clone, Copy)]
pub struct Row {
    text: &'static str,
    call: Call,
    room: u32,
    left: Left,
}

pub const CONSTANTS: [Row; 8] = [
    Row {
        text: FOR,
        call: Call::Constant,
        room: 13,
        left: Left::Exprs((ExprId(13), PatId(4), BindingId(2))),
    },
    Row {
        text: FOR_OVER_ONE,
        call: Call::Constant,
        room: 13,
        left: Left::Exprs((ExprId(13), PatId(4), BindingId(1))),
    },
    Row {
        text: QUESTION_OF_ONE,
        call: Call::Constant,
        room: 9,
        left: Left::Exprs((ExprId(9), PatId(4), BindingId(2))),
    },
    Row {
        text: CALL,
        call: Call::Constant,
        room: 3,
        left: Left::Exprs((ExprId(3), PatId(0), BindingId(0))),
    },
    Row {
        text: ONE,
        call: Call::Constant,
        room: 1,
        left: Left::Exprs((ExprId(1), PatId(0), BindingId(0))),
    },
    Row {
        text: NESTED,
        call: Call::Constant,
        room: 1,
        left: Left::Exprs((ExprId(1), PatId(0), BindingId(0))),
    },
    Row {
        text: LET,
        call: Call::Constant,
        room: 3,
        left: Left::Pats((ExprId(1), PatId(3), BindingId(2))),
    },
    Row {
        text: PATH,
        call: Call::Constant,
        room: 2,
        left: Left::Exprs((ExprId(2), PatId(0), BindingId(0))),
    },
];

pub const PATHS_AND_IMPLS: [Row; 7] = [
    Row {
        text: PATH,
        call: Call::Path,
        room: 2,
        left: Left::Exprs((ExprId(2), PatId(0), BindingId(0))),
    },
    Row {
        text: FOR,
        call: Call::OpaquePath,
        room: 13,
        left: Left::Exprs((ExprId(13), PatId(4), BindingId(2))),
    },
    Row {
        text: IMPL_IN_A_PATH,
        call: Call::Path,
        room: 2,
        left: Left::Nothing,
    },
    Row {
        text: IMPL_IN_A_PATH,
        call: Call::OpaquePath,
        room: 2,
        left: Left::Nothing,
    },
    Row {
        text: ONE,
        call: Call::Allocator,
        room: 1,
        left: Left::Nothing,
    },
    Row {
        text: ONE,
        call: Call::ErrorImpl,
        room: 1,
        left: Left::Nothing,
    },
    Row {
        text: ONE,
        call: Call::OpaqueImpl,
        room: 1,
        left: Left::Nothing,
    },
];

fn said_of_full(alloc: Global, row: Row, limit: u32) -> Said {
    let calls = [
        (row.call, Err(LowerError::Full)),
        (row.call, Err(LowerError::Failed)),
    ];
    let script = Script {
        limit,
        calls: &calls,
        holds: Holds::Failed {
            exprs: row.left.stored(limit),
        },
    };
    said_of_calls(alloc, row.text, &script)
}

fn said_of_whole(alloc: Global, row: Row, limit: u32) -> Said {
    let calls = [(row.call, Ok(true))];
    let script = Script {
        limit,
        calls: &calls,
        holds: Holds::OnlyEnds(row.left.ends()),
    };
    said_of_calls(alloc, row.text, &script)
}

/// How a call is answered in each room, up to the first that has enough, and in any: with too little the collector is full, and fails then.
/// It is the first answer that isn't the call's own.
pub fn said_in_each_room(alloc: Global, row: Row) -> Said {
    for limit in 0..row.room {
        let said = said_of_full(alloc, row, limit);
        if said != Said::Own {
            return said;
        }
    }
    match said_of_whole(alloc, row, row.room) {
        Said::Own => said_of_whole(alloc, row, u32::MAX),
        said => said,
    }
}

#[test]
fn constants_take_just_so_much_room(rt: HostRuntime) {
    for row in CONSTANTS.iter() {
        assert!(rt; said_in_each_room(rt.alloc(), *row) == Said::Own);
    }
}

#[test]
fn paths_and_impls_take_just_so_much_room(rt: HostRuntime) {
    for row in PATHS_AND_IMPLS.iter() {
        assert!(rt; said_in_each_room(rt.alloc(), *row) == Said::Own);
    }
}

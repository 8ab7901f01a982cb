//! What an object answers: the numbers of blocks, which no listing prints in order, what names stand for, and which ranges are meant.

use crate::documents::{Said, own_if};
use crate::listings::said_of_body_listing;
use crate::lowered::{AskOfBody, EnvironmentKind, said_of_body};
use hir_env::resolved::BuiltinShadowMode;
use hir_lower::{Body, BodySourceMap};
use hir_store::ids::BlockId;
use std::alloc::Global;

pub const BLOCK_IN_BLOCK: &str = r#"{
    "nodes": [{"k": "Fn", "body": 1}, {"k": "BlockExpr", "tail": 2}, {"k": "BlockExpr"}],
    "env": {"blocks": [[0, 1, 3, 1], [0, 2, 4, 2]]}
}"#;

/// The first three.
#[derive(Clone, Copy)]
pub struct Entered(pub [Option<BlockId>; 3]);

impl AskOfBody for Entered {
    fn said(&self, _alloc: Global, _body: &Body, source_map: &BodySourceMap) -> Said {
        let scopes = source_map.store.block_scopes();
        let entered = [
            scopes.first().copied(),
            scopes.get(1).copied(),
            scopes.get(2).copied(),
        ];
        own_if(entered == self.0)
    }
}

pub const ENTERED: Entered = Entered([Some(BlockId(3)), Some(BlockId(4)), None]);

#[test]
fn blocks_are_tracked_in_the_order_of_entering(rt: HostRuntime) {
    assert!(rt;
        said_of_body(
            rt.alloc(),
            BLOCK_IN_BLOCK,
            EnvironmentKind::Object,
            &ENTERED
        ) == Said::Own
    );
}

/// `fn f(C, x) { a..=b }`, where C stands for a constant and ranges are the newer ones.
const NAMES_AND_RANGES: &str = r#"{
    "nodes": [
        {"k": "Fn", "params": 1, "body": 6},
        {"k": "ParamList", "params": [2, 4]},
        {"k": "Param", "pat": 3},
        {"k": "IdentPat", "name": "C"},
        {"k": "Param", "pat": 5},
        {"k": "IdentPat", "name": "x"},
        {"k": "BlockExpr", "tail": 7},
        {"k": "RangeExpr", "op": "..=", "start": 8, "end": 11},
        {"k": "PathExpr", "path": 9},
        {"k": "Path", "segs": [10]},
        {"k": "PathSegment", "seg": "name", "name": "a"},
        {"k": "PathExpr", "path": 12},
        {"k": "Path", "segs": [13]},
        {"k": "PathSegment", "seg": "name", "name": "b"}
    ],
    "env": {"resolve": [[0, "C", null, "const", null]], "new_range": true}
}"#;

/// The listing of a body.
#[derive(Clone, Copy)]
pub struct Text(pub &'static str);

impl AskOfBody for Text {
    fn said(&self, alloc: Global, body: &Body, source_map: &BodySourceMap) -> Said {
        said_of_body_listing(alloc, body, source_map, self.0)
    }
}

const LISTED: Text = Text(
    r"param (Path C)
param (Bind #0 -)
body r0=(Block - - - [] (RecordLit lang:RangeInclusiveCopy [(start (Path a)) (last (Path b))] -))
binding 0 x plain - -
",
);

#[test]
fn names_are_looked_up_and_ranges_are_the_newer_ones(rt: HostRuntime) {
    assert!(rt;
        said_of_body(
            rt.alloc(),
            NAMES_AND_RANGES,
            EnvironmentKind::Object,
            &LISTED
        ) == Said::Own
    );
}

/// `fn f(C) { C = 1; <!>::C = 2; }`, where C stands for a constant.
const NAMES: &str = r#"{
    "nodes": [
        {"k": "Fn", "params": 1, "body": 4},
        {"k": "ParamList", "params": [2]},
        {"k": "Param", "pat": 3},
        {"k": "IdentPat", "name": "C"},
        {"k": "BlockExpr", "stmts": [5, 11]},
        {"k": "ExprStmt", "expr": 6, "semi": true},
        {"k": "BinExpr", "op": "=", "lhs": 7, "rhs": 10},
        {"k": "PathExpr", "path": 8},
        {"k": "Path", "segs": [9]},
        {"k": "PathSegment", "seg": "name", "name": "C"},
        {"k": "Literal", "lit": "int", "t": "1"},
        {"k": "ExprStmt", "expr": 12, "semi": true},
        {"k": "BinExpr", "op": "=", "lhs": 13, "rhs": 18},
        {"k": "PathExpr", "path": 14},
        {"k": "Path", "segs": [15, 17]},
        {"k": "PathSegment", "seg": "type", "ty": 16},
        {"k": "NeverType"},
        {"k": "PathSegment", "seg": "name", "name": "C"},
        {"k": "Literal", "lit": "int", "t": "2"}
    ],
    "env": {"resolve": [[0, "C", null, "const", null]]}
}"#;

/// What stands for something with this shadow: a name of a pattern, the assignee expression, or neither.
const BY_SHADOW: [(BuiltinShadowMode, Text); 3] = [
    (
        BuiltinShadowMode::Other,
        Text(
            r"param (Path C)
body r0=(Block - - - [(Semi (Assignment (Expr (Path C)) (Literal 1))) (Semi (Assignment (Expr (Path <!>::C)) (Literal 2)))] -)
",
        ),
    ),
    (
        BuiltinShadowMode::Local,
        Text(
            r"param (Bind #0 -)
body r0=(Block - - - [(Semi (Assignment (Path C) (Literal 1))) (Semi (Assignment (Path <!>::C) (Literal 2)))] -)
binding 0 C plain - -
",
        ),
    ),
    (
        BuiltinShadowMode::Module,
        Text(
            r"param (Bind #0 -)
body r0=(Block - - - [(Semi (Assignment (Expr (Path C)) (Literal 1))) (Semi (Assignment (Expr (Path <!>::C)) (Literal 2)))] -)
binding 0 C plain - -
",
        ),
    ),
];

#[test]
fn each_name_is_asked_about_with_its_shadow(rt: HostRuntime) {
    for (shadow, listed) in BY_SHADOW.iter() {
        assert!(rt;
            said_of_body(rt.alloc(), NAMES, EnvironmentKind::Shadow(*shadow), listed) == Said::Own
        );
    }
}

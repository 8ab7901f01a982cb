//! What owns a binding, by number: also one that no listing prints, and one in a collector.

use crate::collectors::{Call, Holds, Script, said_of_calls};
use crate::documents::{Said, own_if};
use crate::lowered::{AskOfBody, EnvironmentKind, said_of_body};
use hir_lower::{Body, BodySourceMap};
use hir_store::ids::{BindingId, ExprId};
use hir_store::store::ExpressionStore;
use std::alloc::Global;

/// `fn f(x) { |y| { let z; } }`
const CLOSURE: &str = r#"{"nodes": [
    {"k": "Fn", "params": 1, "body": 4},
    {"k": "ParamList", "params": [2]},
    {"k": "Param", "pat": 3},
    {"k": "IdentPat", "name": "x"},
    {"k": "BlockExpr", "tail": 5},
    {"k": "ClosureExpr", "params": [6], "body": 8},
    {"k": "Param", "pat": 7},
    {"k": "IdentPat", "name": "y"},
    {"k": "BlockExpr", "stmts": [9]},
    {"k": "LetStmt", "pat": 10},
    {"k": "IdentPat", "name": "z"}
]}"#;

/// `fn f() { gen { let x; async { let y; }; let z; } }`
const COROUTINES: &str = r#"{"nodes": [
    {"k": "Fn", "body": 1},
    {"k": "BlockExpr", "tail": 2},
    {"k": "BlockExpr", "mod": "gen", "stmts": [3, 5, 9]},
    {"k": "LetStmt", "pat": 4},
    {"k": "IdentPat", "name": "x"},
    {"k": "ExprStmt", "expr": 6, "semi": true},
    {"k": "BlockExpr", "mod": "async", "stmts": [7]},
    {"k": "LetStmt", "pat": 8},
    {"k": "IdentPat", "name": "y"},
    {"k": "LetStmt", "pat": 10},
    {"k": "IdentPat", "name": "z"}
]}"#;

/// `fn f() { const { let x; [0; { let y; }] } }`
const CONSTANTS: &str = r#"{"nodes": [
    {"k": "Fn", "body": 1},
    {"k": "BlockExpr", "tail": 2},
    {"k": "BlockExpr", "mod": "const", "stmts": [3], "tail": 5},
    {"k": "LetStmt", "pat": 4},
    {"k": "IdentPat", "name": "x"},
    {"k": "ArrayExpr", "semi": true, "init": 6, "len": 7},
    {"k": "Literal", "lit": "int", "t": "0"},
    {"k": "BlockExpr", "stmts": [8]},
    {"k": "LetStmt", "pat": 9},
    {"k": "IdentPat", "name": "y"}
]}"#;

/// A closure whose body is a prefix without operator before `{ let x; }`. The block is lowered and reached from nowhere.
const UNREACHED: &str = r#"{"nodes": [
    {"k": "Fn", "body": 1},
    {"k": "BlockExpr", "tail": 2},
    {"k": "ClosureExpr", "body": 3},
    {"k": "PrefixExpr", "expr": 4},
    {"k": "BlockExpr", "stmts": [5]},
    {"k": "LetStmt", "pat": 6},
    {"k": "IdentPat", "name": "x"}
]}"#;

/// `A<{ let (x, y); }>`
const ARGUMENT: &str = r#"{"nodes": [
    {"k": "Path", "segs": [1]},
    {"k": "PathSegment", "seg": "name", "name": "A", "generics": 2},
    {"k": "GenericArgList", "args": [3]},
    {"k": "ConstArg", "expr": 4},
    {"k": "BlockExpr", "stmts": [5]},
    {"k": "LetStmt", "pat": 6},
    {"k": "TuplePat", "fields": [7, 8]},
    {"k": "IdentPat", "name": "x"},
    {"k": "IdentPat", "name": "y"}
]}"#;

/// What owns each of the first four bindings. A binding that isn't stored has no owner either.
pub type Owners = [Option<ExprId>; 4];

/// Whether these own the first four bindings.
pub fn are_owners(store: &ExpressionStore, own: Owners) -> bool {
    let owners = [
        store.binding_owner(BindingId(0)),
        store.binding_owner(BindingId(1)),
        store.binding_owner(BindingId(2)),
        store.binding_owner(BindingId(3)),
    ];
    owners == own
}

/// The owners in a body.
#[derive(Clone, Copy)]
struct Owned(Owners);

impl AskOfBody for Owned {
    fn said(&self, _alloc: Global, body: &Body, _source_map: &BodySourceMap) -> Said {
        own_if(are_owners(&body.store, self.0))
    }
}

#[test]
fn a_closure_owns_its_parameters_and_what_its_body_binds(rt: HostRuntime) {
    let owned = Owned([None, Some(ExprId(1)), Some(ExprId(1)), None]);
    assert!(rt; said_of_body(rt.alloc(), CLOSURE, EnvironmentKind::Tables, &owned) == Said::Own);
}

#[test]
fn a_coroutine_owns_what_none_in_it_owns(rt: HostRuntime) {
    let owned = Owned([Some(ExprId(3)), Some(ExprId(1)), Some(ExprId(3)), None]);
    assert!(rt; said_of_body(rt.alloc(), COROUTINES, EnvironmentKind::Tables, &owned) == Said::Own);
}

#[test]
fn a_const_block_owns_by_itself_and_a_length_by_its_expression(rt: HostRuntime) {
    let owned = Owned([Some(ExprId(4)), Some(ExprId(1)), None, None]);
    assert!(rt; said_of_body(rt.alloc(), CONSTANTS, EnvironmentKind::Tables, &owned) == Said::Own);
}

#[test]
fn a_binding_that_nothing_reaches_is_owned(rt: HostRuntime) {
    let owned = Owned([Some(ExprId(2)), None, None, None]);
    assert!(rt; said_of_body(rt.alloc(), UNREACHED, EnvironmentKind::Tables, &owned) == Said::Own);
}

/// The argument is lowered, and then the path with it.
#[test]
fn a_constant_argument_owns_by_its_expression(rt: HostRuntime) {
    let first = Some(ExprId(0));
    let second = Some(ExprId(1));
    let script = Script {
        limit: u32::MAX,
        calls: &[(Call::Constant, Ok(true)), (Call::Path, Ok(true))],
        holds: Holds::Owners([first, first, second, second]),
    };
    assert!(rt; said_of_calls(rt.alloc(), ARGUMENT, &script) == Said::Own);
}

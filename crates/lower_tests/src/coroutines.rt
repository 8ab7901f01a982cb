//! Which stored parts the parameters of a function are whose body is a coroutine, and where the coroutine of a closure is stored.

use crate::documents::{Said, own_if};
use crate::lowered::{AskOfBody, EnvironmentKind, said_of_body};
use crate::mappings::expr_at;
use hir_lower::{Body, BodySourceMap};
use hir_store::hir::{Expr, Pat, Statement};
use hir_store::ids::{BindingId, ExprId, PatId};
use hir_store::store::ExpressionStore;
use std::alloc::Global;

/// `async fn f(self, x: A, (y, z): B) {}`
pub const FUNCTION: &str = r#"{"nodes": [
    {"k": "Fn", "params": 1, "body": 15, "async": true},
    {"k": "ParamList", "self": 2, "params": [3, 8]},
    {"k": "SelfParam", "name": "self"},
    {"k": "Param", "pat": 4, "ty": 5},
    {"k": "IdentPat", "name": "x"},
    {"k": "PathType", "path": 6},
    {"k": "Path", "segs": [7]},
    {"k": "PathSegment", "seg": "name", "name": "A"},
    {"k": "Param", "pat": 9, "ty": 12},
    {"k": "TuplePat", "fields": [10, 11]},
    {"k": "IdentPat", "name": "y"},
    {"k": "IdentPat", "name": "z"},
    {"k": "PathType", "path": 13},
    {"k": "Path", "segs": [14]},
    {"k": "PathSegment", "seg": "name", "name": "B"},
    {"k": "BlockExpr"}
]}"#;

/// `fn f() { async |x| x }`
pub const CLOSURE: &str = r#"{"nodes": [
    {"k": "Fn", "body": 1},
    {"k": "BlockExpr", "tail": 2},
    {"k": "ClosureExpr", "params": [3], "body": 5, "async": true},
    {"k": "Param", "pat": 4},
    {"k": "IdentPat", "name": "x"},
    {"k": "PathExpr", "path": 6},
    {"k": "Path", "segs": [7]},
    {"k": "PathSegment", "seg": "name", "name": "x"}
]}"#;

/// The statements of the block in the coroutine that the body is.
fn prelude(store: &ExpressionStore) -> Option<&[Statement]> {
    let root = store.expr_roots().last()?;
    let Some(Expr::Closure { body, .. }) = store.expr(root.root) else {
        return None;
    };
    match store.expr(*body) {
        Some(Expr::Block { statements, .. }) => Some(statements.as_slice()),
        _ => None,
    }
}

/// The pattern of the `let` at a place among statements.
fn let_pat(statements: &[Statement], at: usize) -> Option<PatId> {
    match statements.get(at) {
        Some(Statement::Let { pat, .. }) => Some(*pat),
        _ => None,
    }
}

/// The binding that a pattern is.
fn bound(store: &ExpressionStore, pat: PatId) -> Option<BindingId> {
    match store.pat(pat) {
        Some(Pat::Bind { id, .. }) => Some(*id),
        _ => None,
    }
}

/// What `self` is, and which pattern the first parameter is.
type Received = (Option<BindingId>, Option<PatId>);

/// What was written, and what the first two `let`s bind.
fn written_and_bound(body: &Body) -> Option<(Received, Received)> {
    let store = &body.store;
    let lets = prelude(store)?;
    let written = (
        Some(body.self_param?.user_written),
        Some(body.params.as_slice().first()?.user_written),
    );
    let receiver = bound(store, let_pat(lets, 0)?);
    Some((written, (receiver, let_pat(lets, 1))))
}

/// That what was written is what the first two `let`s bind.
#[derive(Clone, Copy)]
pub struct BoundByLets;

impl AskOfBody for BoundByLets {
    fn said(&self, _alloc: Global, body: &Body, _source_map: &BodySourceMap) -> Said {
        match written_and_bound(body) {
            Some((written, bound)) => own_if(written == bound),
            None => Said::Other,
        }
    }
}

#[test]
fn what_was_written_is_bound_by_the_lets_in_front_of_the_body(rt: HostRuntime) {
    assert!(rt;
        said_of_body(rt.alloc(), FUNCTION, EnvironmentKind::Tables, &BoundByLets) == Said::Own
    );
}

/// The numbers of the closure that node 2 leads to, and of the coroutine in it.
#[derive(Clone, Copy)]
pub struct Numbers {
    closure: ExprId,
    coroutine: ExprId,
}

pub const NUMBERS: Numbers = Numbers {
    closure: ExprId(4),
    coroutine: ExprId(3),
};

impl AskOfBody for Numbers {
    fn said(&self, _alloc: Global, body: &Body, source_map: &BodySourceMap) -> Said {
        if expr_at(source_map, 2) != Some(self.closure) {
            return Said::Other;
        }
        match body.store.expr(self.closure) {
            Some(Expr::Closure { body, .. }) => own_if(*body == self.coroutine),
            _ => Said::Other,
        }
    }
}

#[test]
fn a_coroutine_is_stored_right_in_front_of_its_closure(rt: HostRuntime) {
    assert!(rt; said_of_body(rt.alloc(), CLOSURE, EnvironmentKind::Tables, &NUMBERS) == Said::Own);
}

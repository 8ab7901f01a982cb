//! What the nodes of `const` blocks, repeat arrays, closures and coroutines lead to, and how much is stored for them.

use crate::documents::{Said, own_if};
use crate::lowered::{AskOfBody, EnvironmentKind, said_of_body};
use crate::mappings::{Count, are_counts, expr_at};
use hir_lower::{Body, BodySourceMap};
use hir_store::hir::{Array, Expr};
use hir_store::ids::{ExprId, PatId, TypeRefId};
use std::alloc::Global;

/// `fn f() { const { 1 } }`
const CONST: &str = r#"{"nodes": [
    {"k": "Fn", "body": 1},
    {"k": "BlockExpr", "tail": 2},
    {"k": "BlockExpr", "mod": "const", "tail": 3},
    {"k": "Literal", "lit": "int", "t": "1"}
]}"#;

/// `fn f() { [0; 3] }`
const REPEAT: &str = r#"{"nodes": [
    {"k": "Fn", "body": 1},
    {"k": "BlockExpr", "tail": 2},
    {"k": "ArrayExpr", "semi": true, "init": 3, "len": 4},
    {"k": "Literal", "lit": "int", "t": "0"},
    {"k": "Literal", "lit": "int", "t": "3"}
]}"#;

/// `fn f() { |x: A, x| 1 }`
const CLOSURE: &str = r#"{"nodes": [
    {"k": "Fn", "body": 1},
    {"k": "BlockExpr", "tail": 2},
    {"k": "ClosureExpr", "params": [3, 8], "body": 10},
    {"k": "Param", "pat": 4, "ty": 5},
    {"k": "IdentPat", "name": "x"},
    {"k": "PathType", "path": 6},
    {"k": "Path", "segs": [7]},
    {"k": "PathSegment", "seg": "name", "name": "A"},
    {"k": "Param", "pat": 9},
    {"k": "IdentPat", "name": "x"},
    {"k": "Literal", "lit": "int", "t": "1"}
]}"#;

/// `fn f() { async { 1 } }`
const ASYNC: &str = r#"{"nodes": [
    {"k": "Fn", "body": 1},
    {"k": "BlockExpr", "tail": 2},
    {"k": "BlockExpr", "mod": "async", "tail": 3},
    {"k": "Literal", "lit": "int", "t": "1"}
]}"#;

/// What a node leads to, with the parts of it.
#[derive(Clone, Copy, PartialEq)]
pub enum Form {
    Nowhere,
    Match,
    LabelledBlock,
    Const(ExprId),
    Repeat(ExprId, ExprId),
    /// The patterns of the first two parameters, the types of these, and the body.
    Closure([Option<PatId>; 2], [Option<TypeRefId>; 2], ExprId),
    Other,
}

fn pat_of(args: &[PatId], at: usize) -> Option<PatId> {
    args.get(at).copied()
}

/// The type of a parameter, none where it has none.
fn type_of(types: &[Option<TypeRefId>], at: usize) -> Option<TypeRefId> {
    *types.get(at)?
}

fn form_of(expr: &Expr) -> Form {
    match expr {
        Expr::Match { .. } => Form::Match,
        Expr::Block { label: Some(_), .. } => Form::LabelledBlock,
        Expr::Const(constant) => Form::Const(constant.expr),
        Expr::Array(
            Array::Repeat {
                initializer,
                repeat,
            },
        ) => Form::Repeat(*initializer, repeat.expr),
        Expr::Closure {
            args,
            arg_types,
            body,
            ..
        } => {
            let args = args.as_slice();
            let types = arg_types.as_slice();
            Form::Closure(
                [pat_of(args, 0), pat_of(args, 1)],
                [type_of(types, 0), type_of(types, 1)],
                *body,
            )
        }
        _ => Form::Other,
    }
}

fn form_in(body: &Body, source_map: &BodySourceMap) -> Form {
    let Some(id) = expr_at(source_map, 2) else {
        return Form::Nowhere;
    };
    match body.store.expr(id) {
        Some(expr) => form_of(expr),
        None => Form::Other,
    }
}

/// What node 2 leads to, and how much is stored.
#[derive(Clone, Copy)]
pub struct Became {
    pub form: Form,
    pub counts: &'static [(Count, usize)],
}

impl AskOfBody for Became {
    fn said(&self, _alloc: Global, body: &Body, source_map: &BodySourceMap) -> Said {
        let is_form = form_in(body, source_map) == self.form;
        own_if(is_form && are_counts(body, source_map, self.counts))
    }
}

const OF_CONST: Became = Became {
    form: Form::Const(ExprId(1)),
    counts: &[(Count::Exprs, 4), (Count::Roots, 1)],
};

#[test]
fn a_const_block_leads_to_what_is_around_its_block(rt: HostRuntime) {
    assert!(rt; said_of_body(rt.alloc(), CONST, EnvironmentKind::Tables, &OF_CONST) == Said::Own);
}

const OF_REPEAT: Became = Became {
    form: Form::Repeat(ExprId(0), ExprId(1)),
    counts: &[(Count::Exprs, 4), (Count::Roots, 1)],
};

#[test]
fn a_repeat_array_is_stored_behind_its_length_which_is_no_root(rt: HostRuntime) {
    assert!(rt; said_of_body(rt.alloc(), REPEAT, EnvironmentKind::Tables, &OF_REPEAT) == Said::Own);
}

const OF_CLOSURE: Became = Became {
    form: Form::Closure(
        [Some(PatId(0)), Some(PatId(1))],
        [Some(TypeRefId(0)), None],
        ExprId(0),
    ),
    counts: &[(Count::Exprs, 3), (Count::Roots, 1)],
};

#[test]
fn a_closure_has_a_pattern_for_each_parameter_and_is_no_root(rt: HostRuntime) {
    assert!(rt;
        said_of_body(rt.alloc(), CLOSURE, EnvironmentKind::Tables, &OF_CLOSURE) == Said::Own
    );
}

const OF_ASYNC: Became = Became {
    form: Form::Closure([None, None], [None, None], ExprId(1)),
    counts: &[(Count::Exprs, 4), (Count::Roots, 1)],
};

#[test]
fn an_async_block_leads_to_the_coroutine_around_its_block(rt: HostRuntime) {
    assert!(rt; said_of_body(rt.alloc(), ASYNC, EnvironmentKind::Tables, &OF_ASYNC) == Said::Own);
}

/// Whether the first four expressions came from nodes, in the order of their numbers.
#[derive(Clone, Copy)]
struct HaveNodes([bool; 4]);

impl AskOfBody for HaveNodes {
    fn said(&self, _alloc: Global, _body: &Body, source_map: &BodySourceMap) -> Said {
        let map = &source_map.store;
        let have = [
            map.expr_syntax(ExprId(0)).is_some(),
            map.expr_syntax(ExprId(1)).is_some(),
            map.expr_syntax(ExprId(2)).is_some(),
            map.expr_syntax(ExprId(3)).is_some(),
        ];
        own_if(have == self.0)
    }
}

#[test]
fn the_block_in_a_coroutine_comes_from_no_node(rt: HostRuntime) {
    let have = HaveNodes([true, false, true, true]);
    assert!(rt; said_of_body(rt.alloc(), ASYNC, EnvironmentKind::Tables, &have) == Said::Own);
}

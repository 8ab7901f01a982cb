//! The reverse mappings from the parts of what is stored to the written nodes.

use crate::documents::{AskOfDocument, Said, own_if, path_in, said_of};
use crate::lowered::{AskOfBody, EnvironmentKind, said_of_body};
use hir_base::node::NodeId;
use hir_lower::{Body, BodySourceMap, hir_assoc_type_binding_to_ast, hir_generic_arg_to_ast};
use hir_store::hir::Expr;
use hir_store::ids::ExprId;
use hir_store::store::ExpressionStore;
use hir_syntax::ast::{GenericArg, GenericArgList};
use lower_json::document::{Document, Root};
use std::alloc::Global;

/// `A<T, 'x, B = u8, 3>`.
pub const ARGUMENTS: &str = r#"{"nodes": [
    {"k": "Path", "segs": [1]},
    {"k": "PathSegment", "seg": "name", "name": "A", "generics": 2},
    {"k": "GenericArgList", "args": [3, 7, 8, 12]},
    {"k": "TypeArg", "ty": 4},
    {"k": "PathType", "path": 5},
    {"k": "Path", "segs": [6]},
    {"k": "PathSegment", "seg": "name", "name": "T"},
    {"k": "LifetimeArg", "lifetime": "'x"},
    {"k": "AssocTypeArg", "name": "B", "ty": 9},
    {"k": "PathType", "path": 10},
    {"k": "Path", "segs": [11]},
    {"k": "PathSegment", "seg": "name", "name": "u8"},
    {"k": "ConstArg", "expr": 13},
    {"k": "Literal", "lit": "int", "t": "3"}
]}"#;

/// The nodes of arguments, by their numbers, of the first one behind `Self`, and of bindings.
#[derive(Clone, Copy)]
pub struct Lent {
    args: &'static [(u32, Option<NodeId>)],
    first_behind_self: Option<NodeId>,
    bindings: &'static [(u32, Option<NodeId>)],
}

/// What is lent of the path above.
pub const LENT: Lent = Lent {
    args: &[
        (0, Some(NodeId(4))),
        (1, Some(NodeId(7))),
        (2, Some(NodeId(13))),
        (3, None),
    ],
    first_behind_self: Some(NodeId(4)),
    bindings: &[(0, Some(NodeId(8))), (1, None)],
};

/// The node of a type or a constant that is an argument, of a lifetime with its argument, or of a binding.
fn node_of(arg: &GenericArg) -> Option<NodeId> {
    match arg {
        GenericArg::TypeArg(ty) => Some(ty.as_ref()?.get().id),
        GenericArg::AssocTypeArg(arg) => Some(arg.id),
        GenericArg::LifetimeArg(arg) => Some(arg.id),
        GenericArg::ConstArg(expr) => Some(expr.as_ref()?.get().id),
    }
}

fn arg_node(list: &GenericArgList, at: u32) -> Option<NodeId> {
    node_of(hir_generic_arg_to_ast(list, at, false)?)
}

fn first_node_behind_self(list: &GenericArgList) -> Option<NodeId> {
    node_of(hir_generic_arg_to_ast(list, 1, true)?)
}

fn binding_node(list: &GenericArgList, at: u32) -> Option<NodeId> {
    match hir_assoc_type_binding_to_ast(list, at) {
        Some(binding) => Some(binding.id),
        None => None,
    }
}

fn has_args(list: &GenericArgList, own: &[(u32, Option<NodeId>)]) -> bool {
    for lent in own {
        let (at, own) = *lent;
        if arg_node(list, at) != own {
            return false;
        }
    }
    true
}

fn has_bindings(list: &GenericArgList, own: &[(u32, Option<NodeId>)]) -> bool {
    for lent in own {
        let (at, own) = *lent;
        if binding_node(list, at) != own {
            return false;
        }
    }
    true
}

fn is_lent(list: &GenericArgList, own: Lent) -> bool {
    has_args(list, own.args)
        && first_node_behind_self(list) == own.first_behind_self
        && has_bindings(list, own.bindings)
}

impl AskOfDocument for Lent {
    /// Of the list beside the path's only name.
    fn said(&self, _alloc: Global, document: &mut Document) -> Said {
        let Some(path) = path_in(document) else {
            return Said::Other;
        };
        match path.segs.as_slice() {
            [Some(segment)] => match &segment.generics {
                Some(list) => own_if(is_lent(list, *self)),
                None => Said::Other,
            },
            _ => Said::Other,
        }
    }
}

#[test]
fn arguments_and_bindings_are_lent(rt: HostRuntime) {
    assert!(rt; said_of(rt.alloc(), Root::Path, ARGUMENTS, &LENT) == Said::Own);
}

/// The constant `S { a: b }`.
pub const RECORD: &str = r#"{"owner": "const", "nodes": [
    {"k": "Fn", "body": 1},
    {"k": "RecordExpr", "path": 2, "list": 4},
    {"k": "Path", "segs": [3]},
    {"k": "PathSegment", "seg": "name", "name": "S"},
    {"k": "RecordExprFieldList", "fields": [5]},
    {"k": "RecordExprField", "name": "a", "expr": 6},
    {"k": "PathExpr", "path": 7},
    {"k": "Path", "segs": [8]},
    {"k": "PathSegment", "seg": "name", "name": "b"}
]}"#;

fn first_value(store: &ExpressionStore, record: ExprId) -> Option<ExprId> {
    match store.expr(record)? {
        Expr::RecordLit { fields, .. } => Some(fields.as_slice().first()?.expr),
        _ => None,
    }
}

/// The node of the field that the first value of the body's record comes from.
#[derive(Clone, Copy)]
pub struct FieldNode(NodeId);

pub const FIELD_NODE: FieldNode = FieldNode(NodeId(5));

fn field_node(body: &Body, source_map: &BodySourceMap) -> Option<NodeId> {
    let record = body.store.expr_roots().last()?.root;
    let value = first_value(&body.store, record)?;
    Some(source_map.store.field_syntax(value)?.value.node)
}

impl AskOfBody for FieldNode {
    fn said(&self, _alloc: Global, body: &Body, source_map: &BodySourceMap) -> Said {
        own_if(field_node(body, source_map) == Some(self.0))
    }
}

#[test]
fn a_value_comes_from_its_field(rt: HostRuntime) {
    assert!(rt;
        said_of_body(rt.alloc(), RECORD, EnvironmentKind::Tables, &FIELD_NODE) == Said::Own
    );
}

//! Where the text of parameters stands, of which a listing prints the number of the node alone.

use crate::documents::{AskOfDocument, Said, own_if, said_by_error, said_of};
use crate::lowered::{AskOfBody, EnvironmentKind, said_of_body};
use hir_base::node::{AstPtr, HirFileId, InFile, NodeId, TextRange};
use hir_lower::{Body, BodySourceMap, lower_function};
use hir_store::diagnostics::ExpressionStoreDiagnostics;
use hir_store::ids::{FunctionId, ModuleId};
use hir_store::source_map::ExpressionStoreSourceMap;
use lower_json::document::{Document, Root, Tree};
use std::alloc::Global;

/// `fn f<T, const N, 'a>(self, _) {}`, in which conditions disable each parameter.
const DISABLED: &str = r#"{
    "nodes": [
        {"k": "Fn", "generics": 1, "params": 5},
        {"k": "GenericParamList", "params": [2, 3, 4]},
        {"k": "TypeParam", "name": "T", "id": 50, "r": [60, 70]},
        {"k": "ConstParam", "name": "N", "id": 51, "r": [61, 72]},
        {"k": "LifetimeParam", "lifetime": "'a", "id": 52, "r": [62, 74]},
        {"k": "ParamList", "self": 6, "params": [7]},
        {"k": "SelfParam", "name": "self", "id": 53, "r": [63, 76]},
        {"k": "Param", "pat": 8, "id": 54, "r": [64, 78]},
        {"k": "WildcardPat"}
    ],
    "env": {"disabled": [[0, 50, 1], [0, 51, 2], [0, 52, 3], [0, 53, 4], [0, 54, 5]]}
}"#;

/// `fn f(self, _: impl) {}`.
const KEPT: &str = r#"{"nodes": [
    {"k": "Fn", "params": 1},
    {"k": "ParamList", "self": 2, "params": [3]},
    {"k": "SelfParam", "name": "self", "id": 53, "r": [63, 76]},
    {"k": "Param", "pat": 4, "ty": 5},
    {"k": "WildcardPat"},
    {"k": "ImplTraitType", "id": 55, "r": [65, 80]}
]}"#;

fn node(number: u32, start: u32, end: u32) -> Option<InFile<AstPtr>> {
    Some(InFile {
        file_id: HirFileId(0),
        value: AstPtr {
            node: NodeId(number),
            range: TextRange { start, end },
        },
    })
}

/// The node that a fault names, as the first of which a condition disables something.
fn disabled(source_map: &ExpressionStoreSourceMap, place: usize) -> Option<InFile<AstPtr>> {
    match source_map.diagnostics().get(place)? {
        ExpressionStoreDiagnostics::InactiveCode { node, .. } => Some(*node),
        _ => None,
    }
}

/// What the signature of a function names: parameters that are disabled, or the second type that it is given.
#[derive(Clone, Copy)]
enum OfSignature {
    Disabled,
    SecondType,
}

impl AskOfDocument for OfSignature {
    fn said(&self, alloc: Global, document: &mut Document) -> Said {
        let Tree::Fn(item) = &document.tree else {
            return Said::Other;
        };
        let written = InFile {
            file_id: HirFileId(0),
            value: item,
        };
        match lower_function(alloc, &document.env, ModuleId(0), written, FunctionId(0)) {
            Ok((store, source_map, params, args, _ret, _has_self, _has_variadic)) => {
                let is_own = match self {
                    OfSignature::Disabled => {
                        disabled(&source_map, 0) == node(50, 60, 70)
                            && disabled(&source_map, 1) == node(51, 61, 72)
                            && disabled(&source_map, 2) == node(52, 62, 74)
                            && disabled(&source_map, 3) == node(53, 63, 76)
                            && disabled(&source_map, 4) == node(54, 64, 78)
                    }
                    OfSignature::SecondType => match args.get(1) {
                        Some(ty) => source_map.type_syntax(*ty) == node(55, 65, 80),
                        None => false,
                    },
                };
                drop(store);
                drop(source_map);
                drop(params);
                drop(args);
                own_if(is_own)
            }
            Err(error) => said_by_error(error),
        }
    }
}

#[test]
fn parameters_of_an_item_have_their_ranges(rt: HostRuntime) {
    let alloc = rt.alloc();
    assert!(rt; said_of(alloc, Root::Fn, DISABLED, &OfSignature::Disabled) == Said::Own);
    assert!(rt; said_of(alloc, Root::Fn, KEPT, &OfSignature::SecondType) == Said::Own);
}

/// The same of a body: parameters that are disabled, or `self`.
#[derive(Clone, Copy)]
enum OfBody {
    Disabled,
    SelfParam,
}

impl AskOfBody for OfBody {
    fn said(&self, _alloc: Global, _body: &Body, source_map: &BodySourceMap) -> Said {
        own_if(match self {
            OfBody::Disabled => {
                disabled(&source_map.store, 0) == node(53, 63, 76)
                    && disabled(&source_map.store, 1) == node(54, 64, 78)
            }
            OfBody::SelfParam => source_map.self_param == node(53, 63, 76),
        })
    }
}

#[test]
fn parameters_of_a_body_have_their_ranges(rt: HostRuntime) {
    let alloc = rt.alloc();
    assert!(rt;
        said_of_body(alloc, DISABLED, EnvironmentKind::Tables, &OfBody::Disabled) == Said::Own
    );
    assert!(rt;
        said_of_body(alloc, KEPT, EnvironmentKind::Tables, &OfBody::SelfParam) == Said::Own
    );
}

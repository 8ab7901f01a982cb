//! What an `impl` becomes where the caller chooses, types for which there is no room, and one that is absent.

use crate::collectors::{Call, Holds, Script, collector, said_of_calls};
use crate::documents::{AskOfDocument, Said, own_if, path_in, said_by_error, said_of};
use crate::listings::{listed_in, said_of_text};
use crate::paths::EMPTY;
use hir_base::node::{HirFileId, InFile};
use hir_env::lang::LangItems;
use hir_lower::{LowerError, OpaqueImplTrait, lower_type_ref};
use hir_store::ids::ModuleId;
use lower_json::document::{Document, Root};
use lower_listing::path_listing;
use std::alloc::Global;

/// `A<impl B>`.
pub const IMPL_IN_A_PATH: &str = r#"{"nodes": [
    {"k": "Path", "segs": [1]},
    {"k": "PathSegment", "seg": "name", "name": "A", "generics": 2},
    {"k": "GenericArgList", "args": [3]},
    {"k": "TypeArg", "ty": 4},
    {"k": "ImplTraitType", "bounds": [5]},
    {"k": "TypeBound", "b": "path", "ty": 6},
    {"k": "PathType", "path": 7},
    {"k": "Path", "segs": [8]},
    {"k": "PathSegment", "seg": "name", "name": "B"}
]}"#;

/// How an `impl` without bounds is lowered by a call where there is room for one type, which is listed so.
pub fn said_of_impl(alloc: Global, call: Call, text: &'static str) -> Said {
    let calls = [(call, Ok(true))];
    let script = Script {
        limit: 1,
        calls: &calls,
        holds: Holds::FirstType(text),
    };
    said_of_calls(alloc, EMPTY, &script)
}

#[test]
fn an_impl_without_bounds_becomes_an_error(rt: HostRuntime) {
    assert!(rt; said_of_impl(rt.alloc(), Call::Allocator, "type {error}\n") == Said::Own);
}

#[test]
fn an_impl_becomes_what_the_caller_chooses(rt: HostRuntime) {
    let alloc = rt.alloc();
    assert!(rt; said_of_impl(alloc, Call::ErrorImpl, "type {error}\n") == Said::Own);
    assert!(rt; said_of_impl(alloc, Call::OpaqueImpl, "type impl\n") == Said::Own);
}

/// The listing of a path in which an `impl` stays, and of the written one's segments.
#[derive(Clone, Copy)]
struct OpaquePath(&'static str);

impl AskOfDocument for OpaquePath {
    fn said(&self, alloc: Global, document: &mut Document) -> Said {
        let Some(path) = path_in(document) else {
            return Said::Other;
        };
        let mut collector = collector(alloc, &document.env, 2);
        let lowered = collector.lower_path(path, &mut OpaqueImplTrait);
        match (lowered, collector.into_store()) {
            (Ok(lowered), Ok((store, source_map))) => {
                let items = LangItems::numbered();
                let listed = listed_in(&store, &source_map, &items, false);
                let text = path_listing(alloc, listed, lowered.as_ref(), path);
                drop(lowered);
                drop(store);
                drop(source_map);
                said_of_text(text, self.0)
            }
            _ => Said::Other,
        }
    }
}

#[test]
fn an_impl_in_a_path_stays_where_the_caller_chooses(rt: HostRuntime) {
    let listed = OpaquePath("path A::<impl B>\nsegment 0 A\nsegment 1 None\n");
    assert!(rt; said_of(rt.alloc(), Root::Path, IMPL_IN_A_PATH, &listed) == Said::Own);
}

#[test]
fn a_path_of_two_types_does_not_fit_where_one_may_be_stored(rt: HostRuntime) {
    let script = Script {
        limit: 1,
        calls: &[(Call::OpaquePath, Err(LowerError::Full))],
        holds: Holds::Failed { exprs: Some(0) },
    };
    assert!(rt; said_of_calls(rt.alloc(), IMPL_IN_A_PATH, &script) == Said::Own);
}

/// That a type that is absent comes from no node.
#[derive(Clone, Copy)]
struct AbsentType;

impl AskOfDocument for AbsentType {
    fn said(&self, alloc: Global, document: &mut Document) -> Said {
        let absent = InFile {
            file_id: HirFileId(0),
            value: None,
        };
        match lower_type_ref(alloc, &document.env, ModuleId(0), absent) {
            Ok((store, source_map, ty)) => {
                let has_none = source_map.type_syntax(ty).is_none();
                drop(store);
                drop(source_map);
                own_if(has_none)
            }
            Err(error) => said_by_error(error),
        }
    }
}

#[test]
fn an_absent_type_has_no_node(rt: HostRuntime) {
    assert!(rt; said_of(rt.alloc(), Root::Path, EMPTY, &AbsentType) == Said::Own);
}

/// Types of one store, as those of a struct's fields: `impl B` as an error and as it stands, each behind the path of its bound, and one
/// that is absent.
#[test]
fn types_are_lowered_one_after_another(rt: HostRuntime) {
    let alloc = rt.alloc();
    let error = Script {
        limit: 2,
        calls: &[(Call::Type, Ok(true))],
        holds: Holds::Types(2, "type {error}\n"),
    };
    assert!(rt; said_of_calls(alloc, IMPL_IN_A_PATH, &error) == Said::Own);
    let both = Script {
        limit: 4,
        calls: &[(Call::Type, Ok(true)), (Call::OpaqueType, Ok(true))],
        holds: Holds::Types(4, "type impl B\n"),
    };
    assert!(rt; said_of_calls(alloc, IMPL_IN_A_PATH, &both) == Said::Own);
    let absent = Script {
        limit: 1,
        calls: &[(Call::Type, Ok(true))],
        holds: Holds::Types(1, "type {error}\n"),
    };
    assert!(rt; said_of_calls(alloc, EMPTY, &absent) == Said::Own);
}

/// The path of the bound and the error take the room of two types, so nothing of the next type fits.
#[test]
fn a_type_does_not_fit_behind_others(rt: HostRuntime) {
    let script = Script {
        limit: 2,
        calls: &[
            (Call::Type, Ok(true)),
            (Call::OpaqueType, Err(LowerError::Full)),
            (Call::Type, Err(LowerError::Failed)),
        ],
        holds: Holds::Failed { exprs: Some(0) },
    };
    assert!(rt; said_of_calls(rt.alloc(), IMPL_IN_A_PATH, &script) == Said::Own);
}

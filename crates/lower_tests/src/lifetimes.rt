//! The lifetimes that a collector lends, and the parameters beside them.

use crate::collectors::collector;
use crate::documents::{AskOfDocument, Said, own_if, path_in, said_of};
use hir_lower::{ErrorImplTrait, NamedLifetimeStore, OpaqueImplTrait};
use hir_store::name::Name;
use lower_json::document::{Document, Root};
use std::alloc::{AllocError, Global};

/// `A<impl B<'y, 'x, 'y>, 'z>`.
const IMPL_WITH_LIFETIMES: &str = r#"{"nodes": [
    {"k": "Path", "segs": [1]},
    {"k": "PathSegment", "seg": "name", "name": "A", "generics": 2},
    {"k": "GenericArgList", "args": [3, 13]},
    {"k": "TypeArg", "ty": 4},
    {"k": "ImplTraitType", "bounds": [5]},
    {"k": "TypeBound", "b": "path", "ty": 6},
    {"k": "PathType", "path": 7},
    {"k": "Path", "segs": [8]},
    {"k": "PathSegment", "seg": "name", "name": "B", "generics": 9},
    {"k": "GenericArgList", "args": [10, 11, 12]},
    {"k": "LifetimeArg", "lifetime": "'y"},
    {"k": "LifetimeArg", "lifetime": "'x"},
    {"k": "LifetimeArg", "lifetime": "'y"},
    {"k": "LifetimeArg", "lifetime": "'z"}
]}"#;

/// Whether the names are these two, in this order.
fn are_names(names: &[Name], first: &str, second: &str) -> bool {
    match names {
        [Name::Text(one), Name::Text(two)] => one.as_str() == first && two.as_str() == second,
        _ => false,
    }
}

/// Whether these two count in what is returned, and none counts elsewhere.
fn are_in_output(named: &NamedLifetimeStore, first: &str, second: &str) -> bool {
    named.where_clause.as_slice().is_empty()
        && named.constrained_by_input.as_slice().is_empty()
        && are_names(named.output.as_slice(), first, second)
}

/// That each lifetime in an `impl` is lent once, in the order of first mention, though the path is lowered twice.
#[derive(Clone, Copy)]
struct NamedInAnImpl;

impl AskOfDocument for NamedInAnImpl {
    fn said(&self, alloc: Global, document: &mut Document) -> Said {
        let Some(path) = path_in(document) else {
            return Said::Other;
        };
        let mut collector = collector(alloc, &document.env, u32::MAX);
        let first = collector.lower_path(path, &mut OpaqueImplTrait).is_ok();
        let second = collector.lower_path(path, &mut ErrorImplTrait).is_ok();
        let named = are_in_output(collector.named_lifetime_store(), "'y", "'x");
        let no_param = collector.generics().type_or_consts.is_empty();
        own_if(first && second && named && no_param)
    }
}

#[test]
fn lifetimes_in_an_impl_are_lent_once_each(rt: HostRuntime) {
    assert!(rt; said_of(rt.alloc(), Root::Path, IMPL_WITH_LIFETIMES, &NamedInAnImpl) == Said::Own);
}

/// The lifetimes as `Debug` writes them.
fn shown(alloc: Global, named: &NamedLifetimeStore) -> Result<String, AllocError> {
    format!(in alloc; "{named:?}")
}

/// How the lifetimes in an `impl` are written by `Debug`.
#[derive(Clone, Copy)]
struct ShownInAnImpl(&'static str);

impl AskOfDocument for ShownInAnImpl {
    fn said(&self, alloc: Global, document: &mut Document) -> Said {
        let Some(path) = path_in(document) else {
            return Said::Other;
        };
        let mut collector = collector(alloc, &document.env, u32::MAX);
        let is_ok = collector.lower_path(path, &mut OpaqueImplTrait).is_ok();
        match shown(alloc, collector.named_lifetime_store()) {
            Ok(text) => own_if(is_ok && text.as_str() == self.0),
            Err(_) => Said::Beside,
        }
    }
}

#[test]
fn named_lifetimes_say_what_they_are(rt: HostRuntime) {
    let text =
        r#"NamedLifetimeStore { where_clause: {}, constrained_by_input: {}, output: {"'y", "'x"}, scope: Nowhere }"#;
    assert!(rt;
        said_of(
            rt.alloc(),
            Root::Path,
            IMPL_WITH_LIFETIMES,
            &ShownInAnImpl(text)
        ) == Said::Own
    );
}

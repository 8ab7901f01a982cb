//! Listings of stores made by hand: paths of several generated names, nodes of other files, and faults behind a border or
//! in a constant alone; and a minus in front of an integer.

use crate::collectors::{Call, Holds, Script, said_of_calls};
use crate::documents::{Said, own_if};
use hir_base::node::{AstPtr, HirFileId, InFile, NodeId, TextRange};
use hir_base::{Seq, Text};
use hir_env::lang::LangItems;
use hir_lower::{Body, BodySourceMap};
use hir_store::builder::ExpressionStoreBuilder;
use hir_store::diagnostics::ExpressionStoreDiagnostics;
use hir_store::error::StoreError;
use hir_store::hir::{Expr, Literal};
use hir_store::ids::{HygieneId, TypeRefId};
use hir_store::name::Name;
use hir_store::path::{ModPath, Path, PathKind};
use hir_store::source_map::ExpressionStoreSourceMap;
use hir_store::store::ExpressionStore;
use hir_syntax::ast::LiteralKind;
use lower_listing::{Listed, body_listing, type_listing};
use std::alloc::{AllocError, Global};
use std::test::Fail;

const OTHER_FILE: InFile<AstPtr> = InFile {
    file_id: HirFileId(3),
    value: AstPtr {
        node: NodeId(4),
        range: TextRange { start: 0, end: 1 },
    },
};

/// What is listed.
pub fn listed_in<'a>(
    store: &'a ExpressionStore,
    source_map: &'a ExpressionStoreSourceMap,
    lang_items: &'a LangItems,
    sources: bool,
) -> Listed<'a> {
    Listed {
        store,
        source_map,
        lang_items,
        sources,
        params: None,
    }
}

/// What a listing is that has to be this text. No other function owns one.
pub fn said_of_text(listed: Result<String, AllocError>, own: &str) -> Said {
    match listed {
        Ok(text) => {
            let is_own = text.as_str() == own;
            drop(text);
            own_if(is_own)
        }
        Err(_) => Said::Beside,
    }
}

/// What the listing of a store, with sources, is.
pub fn said_of_listing(
    alloc: Global,
    store: &ExpressionStore,
    source_map: &ExpressionStoreSourceMap,
    own: &str,
) -> Said {
    let items = LangItems::numbered();
    let listed = listed_in(store, source_map, &items, true);
    said_of_text(body_listing(alloc, listed, None, &[]), own)
}

/// What the listing of a body is.
pub fn said_of_body_listing(
    alloc: Global,
    body: &Body,
    source_map: &BodySourceMap,
    own: &str,
) -> Said {
    let items = LangItems::numbered();
    let listed = listed_in(&body.store, &source_map.store, &items, false);
    said_of_text(
        body_listing(alloc, listed, None, body.params.as_slice()),
        own,
    )
}

/// What the listing of a type is.
pub fn said_of_type_listing(
    alloc: Global,
    store: &ExpressionStore,
    source_map: &ExpressionStoreSourceMap,
    ty: TypeRefId,
    own: &str,
) -> Said {
    let items = LangItems::numbered();
    let listed = listed_in(store, source_map, &items, false);
    said_of_text(type_listing(alloc, listed, ty), own)
}

/// Whether what a builder holds is listed so, with sources.
fn is_built(alloc: Global, builder: ExpressionStoreBuilder, own: &str) -> bool {
    let (store, source_map) = builder.finish();
    let is_listed = said_of_listing(alloc, &store, &source_map, own) == Said::Own;
    drop(store);
    drop(source_map);
    is_listed
}

fn record_literal(builder: &mut ExpressionStoreBuilder, text: Text) -> Result<(), StoreError> {
    let literal = Literal {
        negative: true,
        kind: LiteralKind::Int,
        text,
        suffix: None,
    };
    let root = builder.alloc_expr(Expr::Literal(literal), None)?;
    builder.record_root(root)
}

/// Whether an integer after a minus is listed so.
fn is_literal(alloc: Global, digits: &str, own: &str) -> Result<bool, StoreError> {
    let text = Text::new(alloc, digits)?;
    let mut builder = ExpressionStoreBuilder::new(alloc, 1);
    let recorded = record_literal(&mut builder, text);
    let is_built = is_built(alloc, builder, own);
    recorded?;
    Ok(is_built)
}

#[test]
fn a_minus_corresponds_in_front(rt: HostRuntime) -> Result<(), Fail> {
    let is_listed = is_literal(rt.alloc(), "0070", "body r0=(Literal -70)\n")?;
    assert!(rt; is_listed);
    Ok(())
}

fn generated(alloc: Global) -> Result<Seq<Name>, AllocError> {
    let mut names = Seq::new(alloc);
    names.push(Name::Generated(7))?;
    names.push(Name::Generated(3))?;
    names.push(Name::Generated(7))?;
    Ok(names)
}

fn record_path(
    builder: &mut ExpressionStoreBuilder,
    segments: Seq<Name>,
) -> Result<(), StoreError> {
    let path = Path::BarePath(ModPath {
        kind: PathKind::Plain,
        segments,
    });
    let path = Expr::Path {
        path,
        hygiene: HygieneId(2),
    };
    let root = builder.alloc_expr(path, Some(OTHER_FILE))?;
    builder.record_root(root)
}

/// Whether a path of generated names is listed so.
fn is_path(alloc: Global, own: &str) -> Result<bool, StoreError> {
    let names = generated(alloc)?;
    let mut builder = ExpressionStoreBuilder::new(alloc, 1);
    let recorded = record_path(&mut builder, names);
    let is_built = is_built(alloc, builder, own);
    recorded?;
    Ok(is_built)
}

#[test]
fn generated_names_are_numbered_by_first_printing(rt: HostRuntime) -> Result<(), Fail> {
    let is_listed = is_path(rt.alloc(), "body r0=(Path@3.4 $0::$1::$0!2)\n")?;
    assert!(rt; is_listed);
    Ok(())
}

/// Whether an empty store with a jump whose label stands behind a border is listed so.
fn is_unreachable(alloc: Global, label: &str, own: &str) -> Result<bool, StoreError> {
    let name = Name::Text(Text::new(alloc, label)?);
    let mut builder = ExpressionStoreBuilder::new(alloc, 1);
    let reported = builder.report(ExpressionStoreDiagnostics::UnreachableLabel {
        node: OTHER_FILE,
        name,
    });
    let is_built = is_built(alloc, builder, own);
    reported?;
    Ok(is_built)
}

#[test]
fn a_label_behind_a_barrier_is_emitted(rt: HostRuntime) -> Result<(), Fail> {
    let text = "body -\ndiag UnreachableLabel 'a @3.4\n";
    let is_listed = is_unreachable(rt.alloc(), "'a", text)?;
    assert!(rt; is_listed);
    Ok(())
}

/// A path whose argument is an `await` of nothing.
const AWAIT: &str = r#"{"nodes": [
    {"k": "Path", "segs": [1]},
    {"k": "PathSegment", "seg": "name", "name": "A", "generics": 2},
    {"k": "GenericArgList", "args": [3]},
    {"k": "ConstArg", "expr": 4},
    {"k": "AwaitExpr"}
]}"#;

#[test]
fn an_await_in_a_constant_alone_corresponds_in_a_constant(rt: HostRuntime) {
    let script = Script {
        limit: u32::MAX,
        calls: &[(Call::Constant, Ok(true))],
        holds: Holds::Listing(
            "body r0=(Await@4 (Missing))\ndiag AwaitOutsideOfAsync constant @4\n",
        ),
    };
    assert!(rt; said_of_calls(rt.alloc(), AWAIT, &script) == Said::Own);
}

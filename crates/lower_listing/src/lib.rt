//! From what was lowered to its listing.
#![tactic(auto)]

mod expansions;
mod lines;
mod numbering;
mod opens;
mod owners;
mod pats;
mod printer;
mod shown;
mod signatures;
mod types;
mod waiting;
mod words;
mod writer;

use hir_env::lang::LangItems;
use hir_store::generics::GenericParams;
use hir_store::ids::{BindingId, PatId, TypeRefId};
use hir_store::param::Param;
use hir_store::path::Path;
use hir_store::source_map::ExpressionStoreSourceMap;
use hir_store::store::ExpressionStore;
use hir_syntax::ast;
use printer::Printer;
use shown::Shown;
pub use signatures::Signature;
use std::alloc::{AllocError, Global};

/// What is listed: a store with its source map, the language's items by whose names those in it are printed, and whether
/// expressions, patterns, labels and diagnostics are followed by the node that they came from.
#[derive(Clone, Copy)]
pub struct Listed<'a> {
    pub store: &'a ExpressionStore,
    pub source_map: &'a ExpressionStoreSourceMap,
    pub lang_items: &'a LangItems,
    pub sources: bool,
    /// The generic parameters of the item whose types are listed, by whose names those in it are printed.
    pub params: Option<&'a GenericParams>,
}

fn listing<'a>(alloc: Global, listed: Listed<'a>, shown: Shown<'a>) -> Result<String, AllocError> {
    let mut printer = Printer::new(alloc, listed);
    printer.listing(shown);
    printer.finish()
}

/// The listing of a body: a line with its `self`, where it has one, one for each other parameter, one with itself, one for
/// each binding and each label in them, one for each call that was expanded, one for each diagnostic. Only memory can fail.
pub fn body_listing<'a>(
    alloc: Global,
    listed: Listed<'a>,
    self_param: Option<BindingId>,
    params: &'a [Param<PatId>],
) -> Result<String, AllocError> {
    listing(alloc, listed, Shown::Body(self_param, params))
}

/// The listing of parameters without their body. Only memory can fail.
pub fn params_listing<'a>(
    alloc: Global,
    listed: Listed<'a>,
    params: &'a [Param<PatId>],
) -> Result<String, AllocError> {
    listing(alloc, listed, Shown::Params(params))
}

/// The listing of a path: a line with it, or that it is refused; where it isn't, one for each name of the written
/// segments and one past the last; then as for a body. Only memory can fail.
pub fn path_listing<'a>(
    alloc: Global,
    listed: Listed<'a>,
    path: Option<&'a Path>,
    written: &'a ast::Path,
) -> Result<String, AllocError> {
    let mut printer = Printer::new(alloc, listed);
    printer.path_listing(path, written);
    printer.finish()
}

/// The listing of a type: a line with it, then as for a body. Only memory can fail.
pub fn type_listing(
    alloc: Global,
    listed: Listed<'_>,
    ty: TypeRefId,
) -> Result<String, AllocError> {
    listing(alloc, listed, Shown::Type_(ty))
}

/// The listing of a function's types: a line for each of its generic parameters, lifetimes first, one for each predicate, one that says
/// that it has a `self`, one for the type of each parameter, one that says that one is variadic, one for what it returns; then as for a
/// body. Only memory can fail.
pub fn function_listing<'a>(
    alloc: Global,
    listed: Listed<'a>,
    signature: Signature<'a>,
) -> Result<String, AllocError> {
    listing(alloc, listed, Shown::Function(signature))
}

//! The whole run, and the listing of one document among many.
//!
//! A process that lowers one document has no other work, so it doesn't drop what it read and lowered, which would take a fifth of it. One
//! that lowers many drops all of it after each.

ghost use Rattle.std.specs.Prelude.{◌≡◌, ◌⊎◌, IfErr, None, List, ℕ};
ghost use Rattle.lower_run.specs.Words.{called};
ghost use Rattle.lower_run.specs.Answers.{CameOf, ResolvedTree, ReadsIn, SaysSome};
ghost use Rattle.std.specs.Io.KnownBytes.{Appends};

use crate::disposal::Disposal;
use crate::failure::Failure;
use crate::input::read_all;
use crate::mode::Mode;
use crate::results::{
    LoweredFunction, LoweringResult, lowered_body, lowered_function, lowered_pat, lowered_path,
    lowered_tree, lowered_type,
};
use hir_alias::signature::AliasSignature;
use hir_base::node::{HirFileId, InFile};
use hir_env::env::LowerEnv;
use hir_lower::{LowerError, lower_type_alias};
use hir_store::ids::{ItemContainerId, ModuleId};
use hir_store::source_map::ExpressionStoreSourceMap;
use hir_store::store::ExpressionStore;
use hir_syntax::ast::{self, ParamList};
use hir_syntax::items::Fn;
use hir_tables::table::TableEnv;
use lower_json::document::{Alias, Document, Tree};
use lower_json::read::{read_tree, read_tree_leaking};
use lower_listing::{
    Listed, Signature, body_listing, function_listing, params_listing, path_listing, type_listing,
};
use std::alloc::{AllocError, Global};
use std::convert::AsStr;
use std::io::{Read, Write};
use std::mem::forget;

/// What is listed of a document.
fn listed_in<'a>(
    document: &'a Document,
    store: &'a ExpressionStore,
    source_map: &'a ExpressionStoreSourceMap,
) -> Listed<'a> {
    Listed {
        store,
        source_map,
        lang_items: document.env.lang_items(),
        sources: document.sources,
        params: None,
    }
}

/// The listing of a body.
fn listed_body<E: LowerEnv>(
    alloc: Global,
    disposal: Disposal,
    document: &Document,
    env: &E,
    item: &Fn,
) -> Result<String, Failure>
    ensures { IfErr result (λ e. (e ≡ Failure.Memory) ⊎ (e ≡ Failure.Full)) }
{
    let lowered = lowered_body(alloc, document, env, item)?;
    let listed = listed_in(document, &lowered.body.store, &lowered.source_map.store);
    let self_param = match lowered.body.self_param {
        Some(param) => Some(param.formal),
        None => None,
    };
    let text = body_listing(alloc, listed, self_param, lowered.body.params.as_slice());
    disposal.end(lowered);
    text.map_err(|_| Failure::Memory)
}

/// The listing of a pattern, which stands in the only parameter of a function.
fn listed_pat<E: LowerEnv>(
    alloc: Global,
    disposal: Disposal,
    document: &Document,
    env: &E,
    params: &ParamList,
) -> Result<String, Failure>
    ensures { IfErr result (λ e. (e ≡ Failure.Memory) ⊎ (e ≡ Failure.Full)) }
{
    let lowered = lowered_pat(alloc, env, params)?;
    let listed = listed_in(document, &lowered.body.store, &lowered.source_map.store);
    let text = params_listing(alloc, listed, lowered.body.params.as_slice());
    disposal.end(lowered);
    text.map_err(|_| Failure::Memory)
}

/// The listing of a path.
fn listed_path<E: LowerEnv>(
    alloc: Global,
    disposal: Disposal,
    document: &Document,
    env: &E,
    path: &ast::Path,
) -> Result<String, Failure>
    ensures { IfErr result (λ e. (e ≡ Failure.Memory) ⊎ (e ≡ Failure.Full)) }
{
    let lowered = lowered_path(alloc, document, env, path)?;
    let listed = listed_in(document, &lowered.store, &lowered.source_map);
    let text = path_listing(alloc, listed, lowered.path.as_ref(), path);
    disposal.end(lowered);
    text.map_err(|_| Failure::Memory)
}

/// The listing of a type, which may be absent.
fn listed_type<E: LowerEnv>(
    alloc: Global,
    disposal: Disposal,
    document: &Document,
    env: &E,
    ty: Option<&ast::Type_>,
) -> Result<String, Failure>
    ensures { IfErr result (λ e. (e ≡ Failure.Memory) ⊎ (e ≡ Failure.Full)) }
{
    let lowered = lowered_type(alloc, env, ty)?;
    let listed = listed_in(document, &lowered.store, &lowered.source_map);
    let text = type_listing(alloc, listed, lowered.type_ref);
    disposal.end(lowered);
    text.map_err(|_| Failure::Memory)
}

/// The listing of a function's types, of what it was lowered to.
fn signature_listing<'a>(
    alloc: Global,
    listed: Listed<'a>,
    lowered: &'a LoweredFunction,
) -> Result<String, AllocError> {
    let signature = Signature {
        params: &lowered.generic_params,
        args: lowered.args.as_slice(),
        ret: lowered.ret,
        has_self: lowered.has_self,
        has_variadic: lowered.has_variadic,
    };
    let listed = Listed {
        params: Some(&lowered.generic_params),
        ..listed
    };
    function_listing(alloc, listed, signature)
}

/// The listing of a function's types.
fn listed_function<E: LowerEnv>(
    alloc: Global,
    disposal: Disposal,
    document: &Document,
    env: &E,
    item: &Fn,
) -> Result<String, Failure>
    ensures { IfErr result (λ e. (e ≡ Failure.Memory) ⊎ (e ≡ Failure.Full)) }
{
    let lowered = lowered_function(alloc, env, item)?;
    let listed = listed_in(document, &lowered.store, &lowered.source_map);
    let text = signature_listing(alloc, listed, &lowered);
    disposal.end(lowered);
    text.map_err(|_| Failure::Memory)
}

/// The listing of a function or of its body.
fn listed_item<E: LowerEnv>(
    alloc: Global,
    disposal: Disposal,
    mode: Mode,
    document: &Document,
    env: &E,
    item: &Fn,
) -> Result<String, Failure>
    ensures { IfErr result (λ e. (e ≡ Failure.Memory) ⊎ (e ≡ Failure.Full)) }
{
    match mode {
        Mode::Fn => listed_function(alloc, disposal, document, env, item),
        _ => listed_body(alloc, disposal, document, env, item),
    }
}

/// What an alias is lowered to, in the module of number 0. What is told of it, and what calls in it were expanded to, isn't kept.
fn lowered_alias(
    alloc: Global,
    env: &TableEnv,
    alias: &Alias,
) -> Result<AliasSignature, LowerError> {
    let container = ItemContainerId::ModuleId(ModuleId(0));
    let written = InFile {
        file_id: HirFileId(0),
        value: &alias.item,
    };
    let (store, source_map, params, bounds, ty) = lower_type_alias(
        alloc, env, container, written, alias.id,
    )?;
    drop(source_map);
    drop(bounds);
    match AliasSignature::new(alloc, store, params, ty) {
        Ok(signature) => Ok(signature),
        Err(fault) => Err(LowerError::from(fault)),
    }
}

/// Lowers the aliases, and tells the environment what they are. Of those with one number the first counts. None of them asks about
/// another.
fn add_aliases(alloc: Global, env: &mut TableEnv, aliases: &[Alias]) -> Result<(), Failure>
    ensures { IfErr result (λ e. (e ≡ Failure.Memory) ⊎ (e ≡ Failure.Full)) }
{
    for alias in aliases {
        let signature = lowered_alias(alloc, env, alias)?;
        env.set_alias(alias.id, signature)?;
    }
    Ok(())
}

/// The listing of a document's tree, where an environment answers that need not be its own.
pub fn tree_listing<E: LowerEnv>(
    alloc: Global,
    disposal: Disposal,
    mode: Mode,
    document: &Document,
    env: &E,
) -> Result<String, Failure>
    ensures { IfErr result (λ e. (e ≡ Failure.Memory) ⊎ (e ≡ Failure.Full)) }
{
    match &document.tree {
        Tree::Fn(item) => listed_item(alloc, disposal, mode, document, env, item),
        Tree::Path(path) => listed_path(alloc, disposal, document, env, path),
        Tree::Type_(ty) => listed_type(alloc, disposal, document, env, ty.as_ref()),
        Tree::Pat(params) => listed_pat(alloc, disposal, document, env, params),
    }
}

/// What is listed of a document whose aliases are lowered already.
pub trait Lists {
    fn listing(&self, alloc: Global, mode: Mode, document: &Document) -> Result<String, Failure>
        ensures { IfErr result (λ e. (e ≡ Failure.Memory) ⊎ (e ≡ Failure.Full)) };
}

/// Its tree, where its own tables answer, for a process that ends with it.
#[derive(Clone, Copy)]
pub struct ByTables;

impl Lists for ByTables {
    fn listing(&self, alloc: Global, mode: Mode, document: &Document) -> Result<String, Failure> {
        tree_listing(alloc, Disposal::Forget, mode, document, &document.env)
    }
}

/// The same for a document among many.
#[derive(Clone, Copy)]
struct AmongMany;

impl Lists for AmongMany {
    fn listing(&self, alloc: Global, mode: Mode, document: &Document) -> Result<String, Failure> {
        tree_listing(alloc, Disposal::Drop, mode, document, &document.env)
    }
}

/// What is listed of a document, of which first the aliases are lowered.
fn lowered_listing<L: Lists>(
    alloc: Global,
    lists: &L,
    mode: Mode,
    document: &mut Document,
) -> Result<String, Failure>
    ensures { IfErr result (λ e. (e ≡ Failure.Memory) ⊎ (e ≡ Failure.Full)) }
{
    add_aliases(alloc, &mut document.env, document.aliases.as_slice())?;
    lists.listing(alloc, mode, document)
}

/// What a document is lowered to, of which first the aliases are.
fn lowered_document(
    alloc: Global,
    mode: Mode,
    document: &mut Document,
) -> Result<LoweringResult, Failure>
    ensures { IfErr result (λ e. (e ≡ Failure.Memory) ⊎ (e ≡ Failure.Full)) }
{
    add_aliases(alloc, &mut document.env, document.aliases.as_slice())?;
    Ok(lowered_tree(alloc, mode, document, &document.env)?)
}

/// What is listed of the document that a text is in a mode.
fn listing<L: Lists>(alloc: Global, lists: &L, mode: Mode, text: &[u8]) -> Result<String, Failure>
    ensures { CameOf mode text.now result }
{
    let mut document = read_tree_leaking(alloc, mode.root(), text)?;
    let listed = lowered_listing(alloc, lists, mode, &mut document);
    forget(document);
    listed
}

/// What is listed of the document that a text is in a mode, for a process that has more to do: all that was read and lowered is dropped.
pub fn listing_among_many(alloc: Global, mode: Mode, text: &[u8]) -> Result<String, Failure>
    ensures { CameOf mode text.now result }
{
    let mut document = read_tree(alloc, mode.root(), text)?;
    let listed = lowered_listing(alloc, &AmongMany, mode, &mut document);
    drop(document);
    listed
}

/// What the document that a text is in a mode is lowered to, for a process that has more to do: all that was read is dropped.
pub fn lowered_among_many(alloc: Global, mode: Mode, text: &[u8]) -> Result<LoweringResult, Failure>
    ensures { CameOf mode text.now result }
{
    let mut document = read_tree(alloc, mode.root(), text)?;
    let lowered = lowered_document(alloc, mode, &mut document);
    drop(document);
    lowered
}

/// What is listed of what stands in the input. The words are judged before the input is read.
fn answer<L: Lists, W: AsStr, R: Read>(
    alloc: Global,
    lists: &L,
    words: &[W],
    input: &mut R,
) -> Result<String, Failure>
    ensures usage { called W.text words.now ≡ None → (result ≡ Err Failure.Usage) × (input.new ≡ input.old) }
    ensures called { result ≡ Err Failure.Usage → called W.text words.now ≡ None }
    ensures answered { ResolvedTree (called W.text words.now) (R.remaining input.old) (R.remaining input.new) result }
{
    let Some(mode) = Mode::called(words) else {
        return Err(Failure::Usage);
    };
    let text = read_all(alloc, input)?;
    listing(alloc, lists, mode, text.as_slice())
}

/// Writes all of a text, and answers the status: 0, or 2 where the write failed, which is said on `errors`.
pub fn written<O: Write, X: Write>(out: &mut O, errors: &mut X, text: &str) -> u8
    ensures status { (result ≡ 0) ⊎ (result ≡ 2) }
    ensures listed { result ≡ 0 → Appends (O.contents out.old) (O.contents out.new) text.now }
    ensures silent { result ≡ 0 → errors.new ≡ errors.old }
{
    match out.write_all(text.as_bytes()) {
        Ok(()) => 0,
        Err(_) => Failure::Output.report(errors),
    }
}

/// Reads a document from `input`, writes what is listed of it to `out`, and answers the status: 0, or 2 where the words or the
/// document are wrong or a read or a write failed, or 3 where memory was refused or an arena was full.
///
/// A run that doesn't end with status 0 says on `errors` why. Nothing is written to `out` before the whole listing is there; how much of
/// it went out before a write failed is left open. A failing write to `errors` changes nothing. What was read and lowered is never let go
/// of, since a process ends with its run.
pub fn run<L: Lists, W: AsStr, R: Read, O: Write, X: Write>(
    alloc: Global,
    lists: &L,
    words: &[W],
    input: &mut R,
    out: &mut O,
    errors: &mut X,
) -> u8
    ensures status { (result ≡ 0) ⊎ (result ≡ 2) ⊎ (result ≡ 3) }
    ensures usage { called W.text words.now ≡ None → (result ≡ 2) × (input.new ≡ input.old) × (out.new ≡ out.old) }
    ensures document { result ≡ 0 → ReadsIn (called W.text words.now) (R.remaining input.old) (R.remaining input.new) SaysSome }
    ensures listed { result ≡ 0 → (text : List ℕ) × Appends (O.contents out.old) (O.contents out.new) text }
    ensures refused { result ≡ 3 → out.new ≡ out.old }
    ensures silent { result ≡ 0 → errors.new ≡ errors.old }
    ensures unlisted { (out.new ≡ out.old) ⊎ ReadsIn (called W.text words.now) (R.remaining input.old) (R.remaining input.new) SaysSome }
{
    match answer(alloc, lists, words, input) {
        Ok(text) => written(out, errors, text.as_str()),
        Err(failure) => failure.report(errors),
    }
}

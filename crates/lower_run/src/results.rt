//! What a document is lowered to: all that the call of `hir_lower` answered that its mode makes.

use crate::mode::Mode;
use hir_base::Seq;
use hir_base::node::{AstPtr, HirFileId, InFile};
use hir_env::env::LowerEnv;
use hir_lower::{
    Body, BodySourceMap, ErrorImplTrait, ExprCollector, LowerError, lower_body, lower_function,
    lower_type_ref,
};
use hir_store::generics::GenericParams;
use hir_store::ids::{DefWithBodyId, FunctionId, ModuleId, TypeRefId};
use hir_store::path::Path;
use hir_store::source_map::ExpressionStoreSourceMap;
use hir_store::store::ExpressionStore;
use hir_syntax::ast::{self, ParamList};
use hir_syntax::items::Fn;
use lower_json::document::{Document, Tree};
use std::alloc::Global;

/// What `lower_body` answers. A pattern is lowered as the only parameter of a body.
#[derive(Drop)]
pub struct LoweredBody {
    pub body: Body,
    pub source_map: BodySourceMap,
}

/// What the collector answers of a path, with the store that it names.
#[derive(Drop)]
pub struct LoweredPath {
    pub path: Option<Path>,
    pub store: ExpressionStore,
    pub source_map: ExpressionStoreSourceMap,
}

/// What `lower_type_ref` answers.
#[derive(Drop)]
pub struct LoweredType {
    pub store: ExpressionStore,
    pub source_map: ExpressionStoreSourceMap,
    pub type_ref: TypeRefId,
}

/// What `lower_function` answers.
#[derive(Drop)]
pub struct LoweredFunction {
    pub store: ExpressionStore,
    pub source_map: ExpressionStoreSourceMap,
    pub generic_params: GenericParams,
    pub args: Seq<TypeRefId>,
    pub ret: Option<TypeRefId>,
    pub has_self: bool,
    pub has_variadic: bool,
}

/// What a document is lowered to, by its mode.
#[derive(Drop)]
pub enum LoweringResult {
    Body(LoweredBody),
    Path(LoweredPath),
    Type_(LoweredType),
    Function(LoweredFunction),
}

pub(crate) fn lowered_body<E: LowerEnv>(
    alloc: Global,
    document: &Document,
    env: &E,
    item: &Fn,
) -> Result<LoweredBody, LowerError> {
    let node = AstPtr {
        node: item.id,
        range: item.range,
    };
    let body = match &item.body {
        Some(body) => Some(body.get()),
        None => None,
    };
    let (body, source_map) = lower_body(
        alloc,
        env,
        document.owner,
        node,
        HirFileId(0),
        ModuleId(0),
        item.params.as_ref(),
        body,
        item.async_,
        item.gen_,
    )?;
    Ok(LoweredBody { body, source_map })
}

/// A pattern, which stands in the only parameter of a function.
pub(crate) fn lowered_pat<E: LowerEnv>(
    alloc: Global,
    env: &E,
    params: &ParamList,
) -> Result<LoweredBody, LowerError> {
    let node = AstPtr {
        node: params.id,
        range: params.range,
    };
    let (body, source_map) = lower_body(
        alloc,
        env,
        DefWithBodyId::FunctionId(FunctionId(0)),
        node,
        HirFileId(0),
        ModuleId(0),
        Some(params),
        None,
        false,
        false,
    )?;
    Ok(LoweredBody { body, source_map })
}

pub(crate) fn lowered_path<E: LowerEnv>(
    alloc: Global,
    document: &Document,
    env: &E,
    path: &ast::Path,
) -> Result<LoweredPath, LowerError> {
    let mut collector = ExprCollector::new(alloc, env, ModuleId(0), HirFileId(0), document.mode);
    let path = collector.lower_path(path, &mut ErrorImplTrait)?;
    let (store, source_map) = collector.into_store()?;
    Ok(LoweredPath {
        path,
        store,
        source_map,
    })
}

/// A type, which may be absent.
pub(crate) fn lowered_type<E: LowerEnv>(
    alloc: Global,
    env: &E,
    ty: Option<&ast::Type_>,
) -> Result<LoweredType, LowerError> {
    let written = InFile {
        file_id: HirFileId(0),
        value: ty,
    };
    let (store, source_map, type_ref) = lower_type_ref(alloc, env, ModuleId(0), written)?;
    Ok(LoweredType {
        store,
        source_map,
        type_ref,
    })
}

pub(crate) fn lowered_function<E: LowerEnv>(
    alloc: Global,
    env: &E,
    item: &Fn,
) -> Result<LoweredFunction, LowerError> {
    let written = InFile {
        file_id: HirFileId(0),
        value: item,
    };
    let (store, source_map, generic_params, args, ret, has_self, has_variadic) = lower_function(
        alloc,
        env,
        ModuleId(0),
        written,
        FunctionId(0),
    )?;
    Ok(LoweredFunction {
        store,
        source_map,
        generic_params,
        args,
        ret,
        has_self,
        has_variadic,
    })
}

/// A function's types or its body.
fn lowered_item<E: LowerEnv>(
    alloc: Global,
    mode: Mode,
    document: &Document,
    env: &E,
    item: &Fn,
) -> Result<LoweringResult, LowerError> {
    match mode {
        Mode::Fn => Ok(LoweringResult::Function(lowered_function(alloc, env, item)?)),
        _ => Ok(LoweringResult::Body(lowered_body(alloc, document, env, item)?)),
    }
}

/// What a document's tree is lowered to, where an environment answers that need not be its own.
pub fn lowered_tree<E: LowerEnv>(
    alloc: Global,
    mode: Mode,
    document: &Document,
    env: &E,
) -> Result<LoweringResult, LowerError> {
    match &document.tree {
        Tree::Fn(item) => lowered_item(alloc, mode, document, env, item),
        Tree::Path(path) => Ok(LoweringResult::Path(lowered_path(alloc, document, env, path)?)),
        Tree::Type_(ty) => Ok(LoweringResult::Type_(lowered_type(alloc, env, ty.as_ref())?)),
        Tree::Pat(params) => Ok(LoweringResult::Body(lowered_pat(alloc, env, params)?)),
    }
}

//! Bodies of functions, lowered where anything answers that can.

ghost use Rattle.std.specs.Prelude.{IfOk};
ghost use Rattle.hir_store.specs.Range.{InRange};

use crate::calls::count_calls;
use hir_base::node::{AstPtr, HirFileId};
use hir_env::env::LowerEnv;
use hir_lower::{Body, BodySourceMap, LowerError, lower_body};
use hir_store::ids::{DefWithBodyId, FunctionId, ModuleId};
use hir_syntax::items;
use std::alloc::Global;

/// The body of a function that stands in module 0 and file 0.
pub fn lowered<E: LowerEnv>(
    alloc: Global,
    env: &E,
    item: &items::Fn,
) -> Result<(Body, BodySourceMap), LowerError>
    ensures { IfOk result (λ r. InRange r.0.store r.1.store) }
{
    let node = AstPtr {
        node: item.id,
        range: item.range,
    };
    let body = match &item.body {
        Some(body) => Some(body.get()),
        None => None,
    };
    lower_body(
        alloc,
        env,
        DefWithBodyId::FunctionId(FunctionId(0)),
        node,
        HirFileId(0),
        ModuleId(0),
        item.params.as_ref(),
        body,
        item.async_,
        item.gen_,
    )
}

/// How many calls the body of the function has.
pub fn calls_of<E: LowerEnv>(alloc: Global, env: &E, item: &items::Fn) -> Result<u32, LowerError> {
    let (body, source_map) = lowered(alloc, env, item)?;
    let calls = count_calls(&body.store);
    drop(body);
    drop(source_map);
    Ok(calls)
}

/// The same where an object answers.
pub fn calls_by_object(
    alloc: Global,
    env: &dyn LowerEnv,
    item: &items::Fn,
) -> Result<u32, LowerError> {
    calls_of(alloc, &env, item)
}

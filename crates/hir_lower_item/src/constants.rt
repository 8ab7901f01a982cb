//! Parts that may be absent: names, types and constants.

ghost use Rattle.std.specs.Prelude.{◌≡◌, IfOk, None, option_map};
ghost use Rattle.hir_env.specs.Answering.{name_or_missing};
ghost use Rattle.hir_env.specs.Whole.{resolved_constant, type_part};
ghost use Rattle.hir_lower_builder.specs.Lowering.{Lowers};
ghost use Rattle.hir_lower_builder.specs.Methods.{LowersTypeIfPresent, LowersTypeOpt};
ghost use Rattle.hir_lower_callbacks.specs.ResolveCtxs.{rctx_at};
ghost use Rattle.hir_lower_item.specs.Has.{HasConstOption};
ghost use Rattle.hir_lower_item.specs.Lower.{present_constant};

use hir_env::ctx::LowerCtx;
use hir_env::env::LowerEnv;
use hir_lower_builder::builder::StoredBody;
use hir_lower_recursion::items::lower_constant;
use hir_lower_recursion::knot::lower_type_node;
use hir_store::error::StoreError;
use hir_store::ids::TypeRefId;
use hir_store::name::Name;
use hir_store::type_ref::ConstRef;
use hir_syntax::{Boxed, ast};
use std::alloc::{AllocError, Global};

/// The name, missing where it is absent.
pub(crate) fn stored_name(name: &Option<ast::Name>) -> Result<Name, AllocError>
    ensures { IfOk result (λ n. n ≡ name_or_missing name.now) }
{
    match name {
        None => Ok(Name::Missing),
        Some(name) => Ok(Name::Text(name.t.clone()?)),
    }
}

/// The type, and an error where it is absent.
pub(crate) fn type_or_error<E: LowerEnv>(
    alloc: Global,
    env: &E,
    place: LowerCtx,
    state: &mut StoredBody,
    part: &Option<Boxed<ast::Type_>>,
) -> Result<TypeRefId, StoreError>
    ensures { LowersTypeOpt None (type_part (rctx_at (E.answers env.now) place) part.now) state.old result state.new }
{
    match part {
        None => state.error_type(),
        Some(part) => lower_type_node(alloc, env, place, state, &None, part.get()),
    }
}

/// The type, where one is written.
pub(crate) fn type_if_present<E: LowerEnv>(
    alloc: Global,
    env: &E,
    place: LowerCtx,
    state: &mut StoredBody,
    part: &Option<Boxed<ast::Type_>>,
) -> Result<Option<TypeRefId>, StoreError>
    ensures { LowersTypeIfPresent (type_part (rctx_at (E.answers env.now) place) part.now) state.old result state.new }
{
    match part {
        None => Ok(None),
        Some(part) => Ok(Some(lower_type_node(alloc, env, place, state, &None, part.get())?)),
    }
}

/// The constant, where one is written.
pub(crate) fn constant_if_present<E: LowerEnv>(
    alloc: Global,
    env: &E,
    place: LowerCtx,
    state: &mut StoredBody,
    part: &Option<ast::ConstArg>,
) -> Result<Option<ConstRef>, StoreError>
    ensures { let at = rctx_at (E.answers env.now) place in
        Lowers HasConstOption (present_constant (option_map (resolved_constant at) part.now)) state.old result state.new }
{
    match part {
        None => Ok(None),
        Some(part) => Ok(Some(lower_constant(alloc, env, place, state, part)?)),
    }
}

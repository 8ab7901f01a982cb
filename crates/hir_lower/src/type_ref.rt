//! Types that stand alone.

ghost use Rattle.std.specs.Prelude.{[], ◌≢◌, None, IfOk, IsErrOf, option_copied};
ghost use Rattle.hir_store.specs.Range.{HasType, InRange};
ghost use Rattle.hir_lower_builder.specs.Lower.{type_part};
ghost use Rattle.hir_lower_builder.specs.Lowering.{Lowers};
ghost use Rattle.thm_type_result.specs.TypeResult.{TypeResult};
ghost use Rattle.hir_lower_callbacks.specs.ResolveCtxs.{rctx_at};
ghost use Rattle.hir_lower.specs.Clauses.{HasTypeData, HasTypeExpansions, TypeExceeds, TypeFits};
ghost use Rattle.hir_lower.specs.Inputs.{type_input};
ghost use Rattle.hir_lower.specs.Means.{MadeOnce, whole_type};
ghost use Rattle.hir_lower.specs.Roots.{AnswersFromNothing, RefusedAtEnd, type_rctx};

use crate::error::LowerError;
use hir_base::node::InFile;
use hir_env::ctx::{ImplTrait, LifetimeScope, LowerCtx, LoweringMode};
use hir_env::env::LowerEnv;
use hir_lower_builder::builder::StoredBody;
use hir_lower_recursion::knot::lower_type_node;
use hir_store::diagnostics::AwaitLocation;
use hir_store::error::StoreError;
use hir_store::ids::{ModuleId, TypeRefId};
use hir_store::source_map::ExpressionStoreSourceMap;
use hir_store::store::ExpressionStore;
use hir_syntax::ast;
use std::alloc::Global;

/// The type, or an error without source where it is absent.
pub(crate) fn lower_type_opt<E: LowerEnv>(
    alloc: Global,
    env: &E,
    place: LowerCtx,
    state: &mut StoredBody,
    node: Option<&ast::Type_>,
) -> Result<TypeRefId, StoreError>
    ensures { let rctx = rctx_at (E.answers env.now) place in
        Lowers HasType (type_part None (whole_type rctx (option_copied node.entry))) state.old result state.new }
{
    match node {
        None => state.error_type(),
        Some(node) => lower_type_node(alloc, env, place, state, &None, node),
    }
}

/// The steps of `lower_type_ref`, with what they store.
fn type_steps<E: LowerEnv>(
    alloc: Global,
    db: &E,
    inside: ModuleId,
    type_ref: InFile<Option<&ast::Type_>>,
) -> Result<(ExpressionStore, ExpressionStoreSourceMap, TypeRefId), LowerError>
    ensures stores { let at = type_rctx (E.answers db.now) type_ref.entry.file_id inside in
        let t = type_part None (whole_type at (option_copied type_ref.entry.value)) in
        IfOk result (λ r. AnswersFromNothing t 4294967295 r.2 r.0 r.1) }
    ensures in_range { IfOk result (λ r. InRange r.0 r.1) }
    ensures full { let at = type_rctx (E.answers db.now) type_ref.entry.file_id inside in
        let t = type_part None (whole_type at (option_copied type_ref.entry.value)) in
        IsErrOf result LowerError.Full → RefusedAtEnd t 4294967295 }
    ensures own { result ≢ Err LowerError.Failed }
{
    let place = LowerCtx {
        file_id: type_ref.file_id,
        module_id: inside,
        mode: LoweringMode::Analysis,
        await_location: Some(AwaitLocation::Unknown),
        impl_trait: ImplTrait::Opaque,
        in_impl: false,
        lifetimes: LifetimeScope::Nowhere,
        left: db.expansion_limit(),
    };
    let mut state = StoredBody::new(alloc, u32::MAX, db.hash_key());
    match lower_type_opt(alloc, db, place, &mut state, type_ref.value) {
        Ok(id) => {
            let (store, source_map) = state.into_store().finish();
            Ok((store, source_map, id))
        }
        Err(fault) => {
            drop(state);
            Err(LowerError::from(fault))
        }
    }
}

/// Lowers a type by itself (upstream's function of this name). An absent type is an error type without a syntax pointer.
///
/// - `Ok`: the stored type decodes to the written one, and its nested bodies are trace-equivalent. Store, source map and diagnostics are
///   those that the type requires (`type_result`), and all of it fits (`fits`). `specs/Clauses.antt` has the words of all clauses.
/// - `Full`: the type requires more entries than an arena holds, or overflows a counter of 32 bits (`too_large`).
/// - `Memory`: an allocation was refused.
/// - `Failed`: never (`own`).
///
/// An `impl Trait` is stored as one. Each constant in the type is a root, even if the stored type doesn't reach it.
pub fn lower_type_ref<E: LowerEnv>(
    alloc: Global,
    db: &E,
    inside: ModuleId,
    type_ref: InFile<Option<&ast::Type_>>,
) -> Result<(ExpressionStore, ExpressionStoreSourceMap, TypeRefId), LowerError>
    ensures type_result { let t = type_input (E.answers db.now) inside type_ref.entry in IfOk result (λ r. TypeResult r.0 r.1 r.2 t) }
    ensures expanded { let t = type_input (E.answers db.now) inside type_ref.entry in IfOk result (λ r. HasTypeExpansions t r.1) }
    ensures stored { let t = type_input (E.answers db.now) inside type_ref.entry in IfOk result (λ r. HasTypeData t r.0 r.1) }
    ensures made_once { IfOk result (λ r. MadeOnce r.0 []) }
    ensures in_range { IfOk result (λ r. InRange r.0 r.1) }
    ensures too_large { let t = type_input (E.answers db.now) inside type_ref.entry in IsErrOf result LowerError.Full → TypeExceeds t }
    ensures fits { let t = type_input (E.answers db.now) inside type_ref.entry in IfOk result (λ r. TypeFits t) }
    ensures own { result ≢ Err LowerError.Failed }
{
    type_steps(alloc, db, inside, type_ref)
}

//! The steps of the entry functions of items.

ghost use Rattle.std.specs.Prelude.{◌≡◌, ◌≢◌, Err, IfOk, IfErr, IsErrOf, option_copied};
ghost use Rattle.hir_store.specs.Past.{Within};
ghost use Rattle.hir_store.specs.Range.{InRange};
ghost use Rattle.hir_env.specs.declared.ctx.LoweringMode.TheVariants as mode_of;
ghost use Rattle.hir_lower_item.specs.Kinds as kinds;
ghost use Rattle.thm_item_result.specs.Numbers.{past_alias, past_function, past_impl};
ghost use Rattle.hir_lower.specs.Items.{ItemFromNothing, alias_at, as_tracked, function_at, generics_at, impl_at, item_rctx, signature};
ghost use Rattle.hir_lower.specs.Items.{trait_at};
ghost use Rattle.hir_lower.specs.Roots.{RefusedAtEnd, outside_body};

use crate::error::LowerError;
use hir_base::node::{HirFileId, InFile};
use hir_env::ctx::{ImplTrait, LifetimeScope, LowerCtx, LoweringMode};
use hir_env::env::LowerEnv;
use hir_lower_builder::builder::StoredBody;
use hir_lower_builder::generics::SideOutput;
use hir_lower_item::function::{Signature, function};
use hir_lower_item::items::{alias_form, impl_form, trait_form};
use hir_lower_item::kinds::{finished, of_kinds};
use hir_lower_item::params::generics;
use hir_store::diagnostics::AwaitLocation;
use hir_store::error::StoreError;
use hir_store::generics::GenericParams;
use hir_store::ids::{
    FunctionId, GenericDefId, ImplId, ItemContainerId, ModuleId, TraitId, TypeAliasId, TypeRefId,
};
use hir_store::source_map::ExpressionStoreSourceMap;
use hir_store::store::ExpressionStore;
use hir_store::type_ref::{TraitRef, TypeBound};
use hir_syntax::Seq;
use hir_syntax::items::{Fn, GenericParamList, Impl, Trait, TypeAlias, WhereClause};
use std::alloc::Global;

/// Where the parts of an item are read, except for what an `impl` becomes there and where a lifetime counts.
fn item_place<E: LowerEnv>(
    db: &E,
    file_id: HirFileId,
    module_id: ModuleId,
    mode: LoweringMode,
) -> LowerCtx
    ensures { result ≡ outside_body (E.answers db.now) file_id module_id mode }
{
    LowerCtx {
        file_id,
        module_id,
        mode,
        await_location: Some(AwaitLocation::Unknown),
        impl_trait: ImplTrait::Error,
        in_impl: false,
        lifetimes: LifetimeScope::Nowhere,
        left: db.expansion_limit(),
    }
}

/// The parameters that were noted, each lifetime early bound.
fn early_params(tracks: SideOutput) -> GenericParams
    ensures { result ≡ kinds.finished (as_tracked tracks) }
{
    let SideOutput { generics, named: _ } = tracks;
    finished(generics)
}

/// The steps of `lower_generic_params`, with what they store and note.
pub(crate) fn generic_params_steps<E: LowerEnv>(
    alloc: Global,
    db: &E,
    inside: ModuleId,
    def: GenericDefId,
    file_id: HirFileId,
    param_list: Option<&GenericParamList>,
    where_clause: Option<&WhereClause>,
    mode: LoweringMode,
) -> Result<(ExpressionStore, GenericParams, ExpressionStoreSourceMap), LowerError>
    ensures made { let at = item_rctx (E.answers db.now) file_id inside mode in
        let p = generics_at at def (option_copied param_list.entry) (option_copied where_clause.entry) in
        IfOk result (λ r. ItemFromNothing p as_tracked 4294967295 tt r.1 r.0 r.2) }
    ensures in_range { IfOk result (λ r. InRange r.0 r.2) }
    ensures full { let at = item_rctx (E.answers db.now) file_id inside mode in
        let p = generics_at at def (option_copied param_list.entry) (option_copied where_clause.entry) in
        IsErrOf result LowerError.Full → RefusedAtEnd p 4294967295 }
    ensures own { result ≢ Err LowerError.Failed }
{
    let place = item_place(db, file_id, inside, mode);
    let mut state = StoredBody::new(alloc, u32::MAX, db.hash_key());
    match generics(alloc, db, place, &mut state, def, param_list, where_clause) {
        Ok(()) => {
            let (stored, tracks) = state.into_parts();
            let (store, source_map) = stored.finish();
            Ok((store, early_params(tracks), source_map))
        }
        Err(fault) => {
            drop(state);
            Err(LowerError::from(fault))
        }
    }
}

/// The steps of `lower_impl`, with what they store and note.
pub(crate) fn impl_steps<E: LowerEnv>(
    alloc: Global,
    db: &E,
    inside: ModuleId,
    item: InFile<&Impl>,
    id: ImplId,
) -> Result<
    (
        ExpressionStore,
        ExpressionStoreSourceMap,
        TypeRefId,
        Option<TraitRef>,
        GenericParams,
    ),
    LowerError,
>
    ensures made { let at = item_rctx (E.answers db.now) item.entry.file_id inside mode_of.Analysis in
        let p = impl_at at id item.entry.value.now in
        IfOk result (λ r. ItemFromNothing p as_tracked 4294967295 (r.2, r.3) r.4 r.0 r.1) }
    ensures in_range { IfOk result (λ r. InRange r.0 r.1) }
    ensures answer_in_range { IfOk result (λ r. Within r.0 (past_impl r.2 r.3)) }
    ensures full { let at = item_rctx (E.answers db.now) item.entry.file_id inside mode_of.Analysis in
        let p = impl_at at id item.entry.value.now in
        IsErrOf result LowerError.Full → RefusedAtEnd p 4294967295 }
    ensures own { result ≢ Err LowerError.Failed }
{
    let place = item_place(db, item.file_id, inside, LoweringMode::Analysis);
    let def = GenericDefId::ImplId(id);
    let mut state = StoredBody::new(alloc, u32::MAX, db.hash_key());
    match impl_form(alloc, db, place, &mut state, def, item.value) {
        Ok((self_type, trait_)) => {
            let (stored, tracks) = state.into_parts();
            let (store, source_map) = stored.finish();
            Ok((store, source_map, self_type, trait_, early_params(tracks)))
        }
        Err(fault) => {
            drop(state);
            Err(LowerError::from(fault))
        }
    }
}

/// The steps of `lower_trait`, with what they store and note.
pub(crate) fn trait_steps<E: LowerEnv>(
    alloc: Global,
    db: &E,
    inside: ModuleId,
    item: InFile<&Trait>,
    id: TraitId,
) -> Result<(ExpressionStore, ExpressionStoreSourceMap, GenericParams), LowerError>
    ensures made { let at = item_rctx (E.answers db.now) item.entry.file_id inside mode_of.Analysis in
        let p = trait_at at id item.entry.value.now in
        IfOk result (λ r. ItemFromNothing p as_tracked 4294967295 tt r.2 r.0 r.1) }
    ensures in_range { IfOk result (λ r. InRange r.0 r.1) }
    ensures full { let at = item_rctx (E.answers db.now) item.entry.file_id inside mode_of.Analysis in
        let p = trait_at at id item.entry.value.now in
        IsErrOf result LowerError.Full → RefusedAtEnd p 4294967295 }
    ensures own { result ≢ Err LowerError.Failed }
{
    let place = item_place(db, item.file_id, inside, LoweringMode::Analysis);
    let def = GenericDefId::TraitId(id);
    let mut state = StoredBody::new(alloc, u32::MAX, db.hash_key());
    match trait_form(alloc, db, place, &mut state, def, item.value) {
        Ok(()) => {
            let (stored, tracks) = state.into_parts();
            let (store, source_map) = stored.finish();
            Ok((store, source_map, early_params(tracks)))
        }
        Err(fault) => {
            drop(state);
            Err(LowerError::from(fault))
        }
    }
}

/// The steps of `lower_type_alias`, with what they store and note.
pub(crate) fn alias_steps<E: LowerEnv>(
    alloc: Global,
    db: &E,
    container: ItemContainerId,
    item: InFile<&TypeAlias>,
    id: TypeAliasId,
) -> Result<
    (
        ExpressionStore,
        ExpressionStoreSourceMap,
        GenericParams,
        Seq<TypeBound>,
        Option<TypeRefId>,
    ),
    LowerError,
>
    ensures made { let at = item_rctx (E.answers db.now) item.entry.file_id ((E.answers db.now).module_of container) mode_of.Analysis in
        let p = alias_at at id container item.entry.value.now in
        IfOk result (λ r. ItemFromNothing p as_tracked 4294967295 (r.3, r.4) r.2 r.0 r.1) }
    ensures in_range { IfOk result (λ r. InRange r.0 r.1) }
    ensures answer_in_range { IfOk result (λ r. Within r.0 (past_alias r.3 r.4)) }
    ensures full { let at = item_rctx (E.answers db.now) item.entry.file_id ((E.answers db.now).module_of container) mode_of.Analysis in
        let p = alias_at at id container item.entry.value.now in
        IsErrOf result LowerError.Full → RefusedAtEnd p 4294967295 }
    ensures own { result ≢ Err LowerError.Failed }
{
    let inside = db.module_of(container);
    let place = item_place(db, item.file_id, inside, LoweringMode::Analysis);
    let def = GenericDefId::TypeAliasId(id);
    let mut state = StoredBody::new(alloc, u32::MAX, db.hash_key());
    match alias_form(alloc, db, place, &mut state, def, container, item.value) {
        Ok((bounds, ty)) => {
            let (stored, tracks) = state.into_parts();
            let (store, source_map) = stored.finish();
            Ok((store, source_map, early_params(tracks), bounds, ty))
        }
        Err(fault) => {
            drop(state);
            Err(LowerError::from(fault))
        }
    }
}

/// The parameters of a function that was lowered.
fn function_params(alloc: Global, tracks: SideOutput) -> Result<GenericParams, LowerError>
    ensures made { IfOk result (λ params. params ≡ kinds.finished (kinds.of_kinds tracks)) }
    ensures refused { IfErr result (λ e. e ≡ LowerError.Memory) }
{
    match of_kinds(alloc, tracks) {
        Ok(generics) => Ok(finished(generics)),
        Err(_) => Err(LowerError::Memory),
    }
}

/// The steps of `lower_function`, with what they store and note.
pub(crate) fn function_steps<E: LowerEnv>(
    alloc: Global,
    db: &E,
    inside: ModuleId,
    item: InFile<&Fn>,
    id: FunctionId,
) -> Result<
    (
        ExpressionStore,
        ExpressionStoreSourceMap,
        GenericParams,
        Seq<TypeRefId>,
        Option<TypeRefId>,
        bool,
        bool,
    ),
    LowerError,
>
    ensures made { let at = item_rctx (E.answers db.now) item.entry.file_id inside mode_of.Analysis in
        let p = function_at at id item.entry.value.now in
        IfOk result (λ r. ItemFromNothing p kinds.of_kinds 4294967295 (signature r.3 r.4 r.5 r.6) r.2 r.0 r.1) }
    ensures in_range { IfOk result (λ r. InRange r.0 r.1) }
    ensures answer_in_range { IfOk result (λ r. Within r.0 (past_function r.3 r.4)) }
    ensures full { let at = item_rctx (E.answers db.now) item.entry.file_id inside mode_of.Analysis in
        let p = function_at at id item.entry.value.now in
        IsErrOf result LowerError.Full → RefusedAtEnd p 4294967295 }
    ensures own { result ≢ Err LowerError.Failed }
{
    let place = item_place(db, item.file_id, inside, LoweringMode::Analysis);
    let def = GenericDefId::FunctionId(id);
    let mut state = StoredBody::new(alloc, u32::MAX, db.hash_key());
    match function(alloc, db, place, &mut state, def, item.value) {
        Ok(signature) => {
            let Signature {
                args,
                ret,
                has_self,
                has_variadic,
            } = signature;
            let (stored, tracks) = state.into_parts();
            let params = function_params(alloc, tracks)?;
            let (store, source_map) = stored.finish();
            Ok((store, source_map, params, args, ret, has_self, has_variadic))
        }
        Err(fault) => {
            drop(state);
            Err(LowerError::from(fault))
        }
    }
}

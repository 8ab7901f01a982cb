//! Items: generic parameters by themselves, implementations, traits, aliases of types and functions.

ghost use Rattle.std.specs.Prelude.{option_copied};
ghost use Rattle.hir_store.specs.declared.ids.GenericDefId.TheVariants as definition;
ghost use Rattle.hir_env.specs.declared.ctx.LoweringMode.TheVariants.{Analysis};
ghost use Rattle.hir_lower_item.specs.Items as of;
ghost use Rattle.thm_item_reading.specs.Rules.{AliasAs, FunctionAs, GenericsAs, ImplAs, TraitAs};
ghost use Rattle.hir_lower.specs.Items.{read_alias, read_function, read_generics, read_impl, read_trait};
ghost use Rattle.thm_calls.specs.ByRules.{in_alias, in_item};
ghost use Rattle.thm_calls.specs.Promises.{AliasPromise, FunctionPromise, GenericsPromise, ImplPromise, TraitPromise};

use hir_base::node::{HirFileId, InFile};
use hir_env::ctx::LoweringMode;
use hir_env::env::LowerEnv;
use hir_lower::LowerError;
use hir_store::generics::GenericParams;
use hir_store::ids::{
    FunctionId, GenericDefId, ImplId, ItemContainerId, ModuleId, TraitId, TypeAliasId, TypeRefId,
};
use hir_store::source_map::ExpressionStoreSourceMap;
use hir_store::store::ExpressionStore;
use hir_store::type_ref::{TraitRef, TypeBound};
use hir_syntax::Seq;
use hir_syntax::items::{Fn, GenericParamList, Impl, Trait, TypeAlias, WhereClause};
use std::alloc::Global;

/// Calls `lower_generic_params`. What that promises is promised of what the rules of reading allow of the item.
pub fn lower_generic_params<E: LowerEnv>(
    alloc: Global,
    db: &E,
    inside: ModuleId,
    def: GenericDefId,
    file_id: HirFileId,
    param_list: Option<&GenericParamList>,
    where_clause: Option<&WhereClause>,
    mode: LoweringMode,
) -> Result<(ExpressionStore, GenericParams, ExpressionStoreSourceMap), LowerError>
    ensures promise { let ps = option_copied param_list.entry in
        GenericsPromise def (read_generics (E.answers db.now) file_id inside mode def ps (option_copied where_clause.entry)) result }
    ensures by_rules { let env = E.answers db.now in let ws = option_copied where_clause.entry in
        (x : of.Generics) → GenericsAs env (in_item env file_id inside mode) def (option_copied param_list.entry) ws x
        → GenericsPromise def x result }
{
    hir_lower::lower_generic_params(
        alloc,
        db,
        inside,
        def,
        file_id,
        param_list,
        where_clause,
        mode,
    )
}

/// Calls `lower_impl`. What that promises is promised of what the rules of reading allow of the item.
pub fn lower_impl<E: LowerEnv>(
    alloc: Global,
    db: &E,
    inside: ModuleId,
    item: InFile<&Impl>,
    id: ImplId,
) -> Result<
    (
        ExpressionStore,
        ExpressionStoreSourceMap,
        TypeRefId,
        Option<TraitRef>,
        GenericParams,
    ),
    LowerError,
>
    ensures promise { ImplPromise id (read_impl (E.answers db.now) item.entry.file_id inside id item.entry.value.now) result }
    ensures by_rules { let env = E.answers db.now in let p = in_item env item.entry.file_id inside Analysis in
        (x : of.Impl) → ImplAs env p (definition.ImplId id) item.entry.value.now x → ImplPromise id x result }
{
    hir_lower::lower_impl(alloc, db, inside, item, id)
}

/// Calls `lower_trait`. What that promises is promised of what the rules of reading allow of the item.
pub fn lower_trait<E: LowerEnv>(
    alloc: Global,
    db: &E,
    inside: ModuleId,
    item: InFile<&Trait>,
    id: TraitId,
) -> Result<(ExpressionStore, ExpressionStoreSourceMap, GenericParams), LowerError>
    ensures promise { TraitPromise id (read_trait (E.answers db.now) item.entry.file_id inside id item.entry.value.now) result }
    ensures by_rules { let env = E.answers db.now in let p = in_item env item.entry.file_id inside Analysis in
        (x : of.Trait) → TraitAs env p (definition.TraitId id) item.entry.value.now x → TraitPromise id x result }
{
    hir_lower::lower_trait(alloc, db, inside, item, id)
}

/// Calls `lower_type_alias`. What that promises is promised of what the rules of reading allow of the item.
pub fn lower_type_alias<E: LowerEnv>(
    alloc: Global,
    db: &E,
    container: ItemContainerId,
    item: InFile<&TypeAlias>,
    id: TypeAliasId,
) -> Result<
    (
        ExpressionStore,
        ExpressionStoreSourceMap,
        GenericParams,
        Seq<TypeBound>,
        Option<TypeRefId>,
    ),
    LowerError,
>
    ensures promise { AliasPromise id (read_alias (E.answers db.now) item.entry.file_id container id item.entry.value.now) result }
    ensures by_rules { let env = E.answers db.now in let p = in_alias env item.entry.file_id container in
        (x : of.Alias) → AliasAs env p (definition.TypeAliasId id) container item.entry.value.now x → AliasPromise id x result }
{
    hir_lower::lower_type_alias(alloc, db, container, item, id)
}

/// Calls `lower_function`. What that promises is promised of what the rules of reading allow of the item.
pub fn lower_function<E: LowerEnv>(
    alloc: Global,
    db: &E,
    inside: ModuleId,
    item: InFile<&Fn>,
    id: FunctionId,
) -> Result<
    (
        ExpressionStore,
        ExpressionStoreSourceMap,
        GenericParams,
        Seq<TypeRefId>,
        Option<TypeRefId>,
        bool,
        bool,
    ),
    LowerError,
>
    ensures promise { FunctionPromise id (read_function (E.answers db.now) item.entry.file_id inside id item.entry.value.now) result }
    ensures by_rules { let env = E.answers db.now in let p = in_item env item.entry.file_id inside Analysis in
        (x : of.Function) → FunctionAs env p (definition.FunctionId id) item.entry.value.now x → FunctionPromise id x result }
{
    hir_lower::lower_function(alloc, db, inside, item, id)
}

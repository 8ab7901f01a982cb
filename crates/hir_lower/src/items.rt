//! Items: functions, traits, implementations, aliases of types, and generic parameters by themselves.

ghost use Rattle.std.specs.Prelude.{[], ◌≢◌, Err, IfOk, IsErrOf, option_copied};
ghost use Rattle.hir_store.specs.Past.{Within};
ghost use Rattle.hir_store.specs.Range.{InRange};
ghost use Rattle.thm_item_result.specs.Answers.{AliasReads, FunctionReads, ImplReads};
ghost use Rattle.thm_item_result.specs.Inside.{held_by_alias, held_by_function, held_by_impl, none_held};
ghost use Rattle.thm_item_result.specs.ItemResult.{ItemResult};
ghost use Rattle.thm_item_result.specs.Once.{named_by_alias, named_by_function, named_by_impl, none_named};
ghost use Rattle.thm_item_result.specs.Numbers.{past_alias, past_function, past_impl, past_params};
ghost use Rattle.hir_lower.specs.Clauses.{ConstantsOnce, HasItemData, ItemExceeds, ItemFits, TypesOnce};
ghost use Rattle.hir_lower.specs.Inputs.{alias_input, function_input, generics_input, impl_input, trait_input};
ghost use Rattle.hir_lower.specs.ItemParams.{AliasHas, FunctionHas, GenericsHave, ImplHas, TraitHas};
ghost use Rattle.hir_lower.specs.Means.{MadeOnce};

use crate::error::LowerError;
use crate::item_steps::{
    alias_steps, function_steps, generic_params_steps, impl_steps, trait_steps,
};
use hir_base::node::{HirFileId, InFile};
use hir_env::ctx::LoweringMode;
use hir_env::env::LowerEnv;
use hir_store::generics::GenericParams;
use hir_store::ids::{
    FunctionId, GenericDefId, ImplId, ItemContainerId, ModuleId, TraitId, TypeAliasId, TypeRefId,
};
use hir_store::source_map::ExpressionStoreSourceMap;
use hir_store::store::ExpressionStore;
use hir_store::type_ref::{TraitRef, TypeBound};
use hir_syntax::Seq;
use hir_syntax::items::{Fn, GenericParamList, Impl, Trait, TypeAlias, WhereClause};
use std::alloc::Global;

/// Lowers generic parameters by themselves, and then their where clause (upstream's function of this name).
///
/// - `Ok`: store, source map and diagnostics are those that the parameters require (`result`), and all of it fits (`fits`). Parameters,
///   lifetime parameters and predicates are those that are written, in order, and those that an `impl Trait` becomes (`params`).
///   `specs/Clauses.antt` has the words of all clauses.
/// - `Full`: the item requires more entries than an arena holds, or overflows a counter of 32 bits (`too_large`).
/// - `Memory`: an allocation was refused.
/// - `Failed`: never (`own`).
///
/// What is lowered:
///
/// - The environment is asked whether a `cfg` disables a parameter, at the parameter's own node. A disabled one yields a diagnostic only.
/// - An `impl Trait` in a bound becomes an unnamed parameter, after those in its own bounds. Each of its bounds becomes a predicate.
/// - An error bound, a `use<..>` bound and a trait bound on a lifetime yield no predicate. Exception: the error and `use<..>` bounds of an
///   `impl Trait` that becomes a parameter yield one each.
/// - Each lifetime parameter is early bound.
/// - Each constant is a root, even if nothing in the result reaches it.
pub fn lower_generic_params<E: LowerEnv>(
    alloc: Global,
    db: &E,
    inside: ModuleId,
    def: GenericDefId,
    file_id: HirFileId,
    param_list: Option<&GenericParamList>,
    where_clause: Option<&WhereClause>,
    mode: LoweringMode,
) -> Result<(ExpressionStore, GenericParams, ExpressionStoreSourceMap), LowerError>
    ensures result { let x = generics_input (E.answers db.now) file_id inside mode def (option_copied param_list.entry)
        (option_copied where_clause.entry) in IfOk result (λ r. ItemResult r.0 r.2 x.parts) }
    ensures stored { let x = generics_input (E.answers db.now) file_id inside mode def (option_copied param_list.entry)
        (option_copied where_clause.entry) in IfOk result (λ r. HasItemData x.parts r.0 r.2) }
    ensures params { let x = generics_input (E.answers db.now) file_id inside mode def (option_copied param_list.entry)
        (option_copied where_clause.entry) in IfOk result (λ r. GenericsHave r.0 r.2 x.def x.read r.1) }
    ensures reached_once { IfOk result (λ r. TypesOnce r.0 r.2 r.1 none_named) }
    ensures inside_reached_once { IfOk result (λ r. ConstantsOnce r.0 r.2 r.1 none_held) }
    ensures made_once { IfOk result (λ r. MadeOnce r.0 []) }
    ensures in_range { IfOk result (λ r. InRange r.0 r.2) }
    ensures params_in_range { IfOk result (λ r. Within r.0 (past_params r.1)) }
    ensures too_large { let x = generics_input (E.answers db.now) file_id inside mode def (option_copied param_list.entry)
        (option_copied where_clause.entry) in IsErrOf result LowerError.Full → ItemExceeds x.parts }
    ensures fits { let x = generics_input (E.answers db.now) file_id inside mode def (option_copied param_list.entry)
        (option_copied where_clause.entry) in IfOk result (λ r. ItemFits x.parts) }
    ensures own { result ≢ Err LowerError.Failed }
{
    generic_params_steps(
        alloc,
        db,
        inside,
        def,
        file_id,
        param_list,
        where_clause,
        mode,
    )
}

/// Lowers an `impl`: its type, its trait, its generic parameters and its where clause (upstream's function of this name). An absent type is
/// an error type.
///
/// - `Ok`: type and trait decode to the written ones, and their nested bodies are trace-equivalent (`reads`). The other clauses claim what
///   they claim of `lower_generic_params`.
/// - `Full`: the item requires more entries than an arena holds, or overflows a counter of 32 bits (`too_large`).
/// - `Memory`: an allocation was refused.
/// - `Failed`: never (`own`).
///
/// The trait is lowered only if it is written as a path. If it has another form, or its path is absent or refused, `None` is returned for
/// it.
pub fn lower_impl<E: LowerEnv>(
    alloc: Global,
    db: &E,
    inside: ModuleId,
    item: InFile<&Impl>,
    id: ImplId,
) -> Result<
    (
        ExpressionStore,
        ExpressionStoreSourceMap,
        TypeRefId,
        Option<TraitRef>,
        GenericParams,
    ),
    LowerError,
>
    ensures result { let x = impl_input (E.answers db.now) inside item.entry id in IfOk result (λ r. ItemResult r.0 r.1 x.parts) }
    ensures stored { let x = impl_input (E.answers db.now) inside item.entry id in IfOk result (λ r. HasItemData x.parts r.0 r.1) }
    ensures params { let x = impl_input (E.answers db.now) inside item.entry id in IfOk result (λ r. ImplHas r.0 r.1 x.def x.read r.4) }
    ensures reads { let x = impl_input (E.answers db.now) inside item.entry id in IfOk result (λ r. ImplReads r.0 r.1 x.read r.2 r.3) }
    ensures reached_once { IfOk result (λ r. TypesOnce r.0 r.1 r.4 (named_by_impl r.2 r.3)) }
    ensures inside_reached_once { IfOk result (λ r. ConstantsOnce r.0 r.1 r.4 (held_by_impl r.2 r.3)) }
    ensures made_once { IfOk result (λ r. MadeOnce r.0 []) }
    ensures in_range { IfOk result (λ r. InRange r.0 r.1) }
    ensures answer_in_range { IfOk result (λ r. Within r.0 (past_impl r.2 r.3)) }
    ensures params_in_range { IfOk result (λ r. Within r.0 (past_params r.4)) }
    ensures too_large { let x = impl_input (E.answers db.now) inside item.entry id in IsErrOf result LowerError.Full → ItemExceeds x.parts }
    ensures fits { let x = impl_input (E.answers db.now) inside item.entry id in IfOk result (λ r. ItemFits x.parts) }
    ensures own { result ≢ Err LowerError.Failed }
{
    impl_steps(alloc, db, inside, item, id)
}

/// Lowers a trait (upstream's function of this name): the parameter `Self` with a predicate for each bound of the trait, its generic
/// parameters and its where clause.
///
/// - `Ok`: the clauses claim what they claim of `lower_generic_params`. `Self` is the first parameter.
/// - `Full`: the item requires more entries than an arena holds, or overflows a counter of 32 bits (`too_large`).
/// - `Memory`: an allocation was refused.
/// - `Failed`: never (`own`).
pub fn lower_trait<E: LowerEnv>(
    alloc: Global,
    db: &E,
    inside: ModuleId,
    item: InFile<&Trait>,
    id: TraitId,
) -> Result<(ExpressionStore, ExpressionStoreSourceMap, GenericParams), LowerError>
    ensures result { let x = trait_input (E.answers db.now) inside item.entry id in IfOk result (λ r. ItemResult r.0 r.1 x.parts) }
    ensures stored { let x = trait_input (E.answers db.now) inside item.entry id in IfOk result (λ r. HasItemData x.parts r.0 r.1) }
    ensures params { let x = trait_input (E.answers db.now) inside item.entry id in IfOk result (λ r. TraitHas r.0 r.1 x.def x.read r.2) }
    ensures reached_once { IfOk result (λ r. TypesOnce r.0 r.1 r.2 none_named) }
    ensures inside_reached_once { IfOk result (λ r. ConstantsOnce r.0 r.1 r.2 none_held) }
    ensures made_once { IfOk result (λ r. MadeOnce r.0 []) }
    ensures in_range { IfOk result (λ r. InRange r.0 r.1) }
    ensures params_in_range { IfOk result (λ r. Within r.0 (past_params r.2)) }
    ensures too_large { let x = trait_input (E.answers db.now) inside item.entry id in
        IsErrOf result LowerError.Full → ItemExceeds x.parts }
    ensures fits { let x = trait_input (E.answers db.now) inside item.entry id in IfOk result (λ r. ItemFits x.parts) }
    ensures own { result ≢ Err LowerError.Failed }
{
    trait_steps(alloc, db, inside, item, id)
}

/// Lowers a type alias: its bounds, its generic parameters, its where clause and its type (upstream's function of this name).
///
/// - `Ok`: bounds and type decode to the written ones, and their nested bodies are trace-equivalent (`reads`). The other clauses claim what
///   they claim of `lower_generic_params`.
/// - `Full`: the item requires more entries than an arena holds, or overflows a counter of 32 bits (`too_large`).
/// - `Memory`: an allocation was refused.
/// - `Failed`: never (`own`).
///
/// An alias in a module or an `impl` must have a type. If it has none, the last diagnostic says so.
pub fn lower_type_alias<E: LowerEnv>(
    alloc: Global,
    db: &E,
    container: ItemContainerId,
    item: InFile<&TypeAlias>,
    id: TypeAliasId,
) -> Result<
    (
        ExpressionStore,
        ExpressionStoreSourceMap,
        GenericParams,
        Seq<TypeBound>,
        Option<TypeRefId>,
    ),
    LowerError,
>
    ensures result { let x = alias_input (E.answers db.now) container item.entry id in IfOk result (λ r. ItemResult r.0 r.1 x.parts) }
    ensures stored { let x = alias_input (E.answers db.now) container item.entry id in IfOk result (λ r. HasItemData x.parts r.0 r.1) }
    ensures params { let x = alias_input (E.answers db.now) container item.entry id in
        IfOk result (λ r. AliasHas r.0 r.1 x.def x.read r.2) }
    ensures reads { let x = alias_input (E.answers db.now) container item.entry id in IfOk result (λ r. AliasReads r.0 r.1 x.read r.3 r.4) }
    ensures reached_once { IfOk result (λ r. TypesOnce r.0 r.1 r.2 (named_by_alias r.3 r.4)) }
    ensures inside_reached_once { IfOk result (λ r. ConstantsOnce r.0 r.1 r.2 (held_by_alias r.3 r.4)) }
    ensures made_once { IfOk result (λ r. MadeOnce r.0 []) }
    ensures in_range { IfOk result (λ r. InRange r.0 r.1) }
    ensures answer_in_range { IfOk result (λ r. Within r.0 (past_alias r.3 r.4)) }
    ensures params_in_range { IfOk result (λ r. Within r.0 (past_params r.2)) }
    ensures too_large { let x = alias_input (E.answers db.now) container item.entry id in
        IsErrOf result LowerError.Full → ItemExceeds x.parts }
    ensures fits { let x = alias_input (E.answers db.now) container item.entry id in IfOk result (λ r. ItemFits x.parts) }
    ensures own { result ≢ Err LowerError.Failed }
{
    alias_steps(alloc, db, container, item, id)
}

/// Lowers the signature of a function (upstream's function of this name): its generic parameters and its where clause; the types of its
/// parameters, of `self` first; its return type. The result also says whether it has a `self`, and whether it is variadic.
///
/// - `Ok`: the types of the parameters and the return type decode to the written ones, and their nested bodies are trace-equivalent
///   (`reads`). The other clauses claim what they claim of `lower_generic_params`.
/// - `Full`: the item requires more entries than an arena holds, or overflows a counter of 32 bits (`too_large`).
/// - `Memory`: an allocation was refused.
/// - `Failed`: never (`own`).
///
/// What is lowered:
///
/// - The environment is asked at the node of each parameter whether a `cfg` disables it. The type of `self` is lowered first, or the
///   diagnostic of a disabled `self` is emitted. Then the diagnostics of all other disabled parameters are emitted, before the types of the
///   others are lowered. A disabled or a variadic parameter has no type.
/// - An `impl Trait` in these types becomes an unnamed parameter. A `self` without a type has the type `Self`, or a reference to it.
/// - With `async`, `gen` or both the return type is an `impl` of the coroutine's trait, with the written return type or `()`.
/// - A lifetime parameter is late bound, unless a bound names it, or the return type names it and no type of a parameter does. Projections
///   don't count, and of a type alias only the lifetimes that its type names.
pub fn lower_function<E: LowerEnv>(
    alloc: Global,
    db: &E,
    inside: ModuleId,
    item: InFile<&Fn>,
    id: FunctionId,
) -> Result<
    (
        ExpressionStore,
        ExpressionStoreSourceMap,
        GenericParams,
        Seq<TypeRefId>,
        Option<TypeRefId>,
        bool,
        bool,
    ),
    LowerError,
>
    ensures result { let x = function_input (E.answers db.now) inside item.entry id in IfOk result (λ r. ItemResult r.0 r.1 x.parts) }
    ensures stored { let x = function_input (E.answers db.now) inside item.entry id in IfOk result (λ r. HasItemData x.parts r.0 r.1) }
    ensures params { let x = function_input (E.answers db.now) inside item.entry id in
        IfOk result (λ r. FunctionHas r.0 r.1 x.def x.read r.2) }
    ensures reads { let x = function_input (E.answers db.now) inside item.entry id in
        IfOk result (λ r. FunctionReads r.0 r.1 x.read r.3 r.4 r.5 r.6) }
    ensures reached_once { IfOk result (λ r. TypesOnce r.0 r.1 r.2 (named_by_function r.3 r.4)) }
    ensures inside_reached_once { IfOk result (λ r. ConstantsOnce r.0 r.1 r.2 (held_by_function r.3 r.4)) }
    ensures made_once { IfOk result (λ r. MadeOnce r.0 []) }
    ensures in_range { IfOk result (λ r. InRange r.0 r.1) }
    ensures answer_in_range { IfOk result (λ r. Within r.0 (past_function r.3 r.4)) }
    ensures params_in_range { IfOk result (λ r. Within r.0 (past_params r.2)) }
    ensures too_large { let x = function_input (E.answers db.now) inside item.entry id in
        IsErrOf result LowerError.Full → ItemExceeds x.parts }
    ensures fits { let x = function_input (E.answers db.now) inside item.entry id in IfOk result (λ r. ItemFits x.parts) }
    ensures own { result ≢ Err LowerError.Failed }
{
    function_steps(alloc, db, inside, item, id)
}

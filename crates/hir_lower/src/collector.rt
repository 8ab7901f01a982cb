//! The collector, which lowers trees into one store and stops for good after its first error.

ghost use Rattle.std.specs.Prelude.{[], ◌+◌, ◌++◌, ◌≡◌, ◌≢◌, ◌<◌, ◌≤◌, ◌⊎◌, false, true, Err, IfOk, IsErrOf, IsOkAnd, OnOk, length};
ghost use Rattle.std.specs.Prelude.{option_copied};
ghost use Rattle.hir_store.specs.Range.{HasExpr, HasTypeParts, InRange};
ghost use Rattle.hir_store.specs.Stored.{map_of, store_of};
ghost use Rattle.hir_env.specs.Paths.{inside_constant};
ghost use Rattle.hir_env.specs.ResolveCtx.{in_file};
ghost use Rattle.hir_env.specs.Whole.{expr_part};
ghost use Rattle.hir_lower_builder.specs.Generics.{predicates_of};
ghost use Rattle.hir_lower_builder.specs.Lowering.{Lowers, SomeEnd};
ghost use Rattle.hir_lower_builder.specs.Methods.{LowersExprOpt};
ghost use Rattle.thm_logic.specs.Keeps.{MadeApart, Mapped, Paired};
ghost use Rattle.spec_data.specs.Fold.{tracked_in_part, tracked_in_whole};
ghost use Rattle.thm_generics.specs.Lists.{Tracked};
ghost use Rattle.thm_body_result.specs.Definitions.{DefinitionsAre};
ghost use Rattle.thm_body_result.specs.Theorems.{Defined, MayBeOwned};
ghost use Rattle.thm_body_result.specs.Room.{Short, TooLarge, size_part, whole_size};
ghost use Rattle.thm_item_result.specs.Answers.{parameter_type};
ghost use Rattle.thm_item_result.specs.Exceeding.{FitsBehind, InLimits};
ghost use Rattle.hir_lower_callbacks.specs.ResolveCtxs.{rctx_at};
ghost use Rattle.hir_lower.specs.Beside.{TakesArguments};
ghost use Rattle.hir_lower.specs.Calls.{Calls, Outside};
ghost use Rattle.hir_lower.specs.Collected.{Collected, OfCalls};
ghost use Rattle.hir_lower.specs.Inputs.{const_input, path_input, path_rctx};
ghost use Rattle.hir_lower.specs.Means.{AddsType, BearsNames, MadeOnce, NoRoomForType, PathRooted, ReadsBack, RoomForType, Rooted};
ghost use Rattle.hir_lower.specs.Means.{whole_path, with_impl};
ghost use Rattle.hir_lower.specs.Roots.{new_builder, outside_body, root_of};
ghost use Rattle.hir_lower.specs.Stays.{Stays};

use crate::error::LowerError;
use crate::impl_trait::{ImplTraitLower, ImplTraitMode};
use hir_base::Seq;
use hir_base::node::{AstPtr, HirFileId, InFile};
use hir_env::ctx::{ImplTrait, LifetimeScope, LowerCtx, LoweringMode, inside_constant};
use hir_env::env::LowerEnv;
use hir_lower_builder::builder::StoredBody;
use hir_lower_builder::generics::GenericLists;
use hir_lower_recursion::knot::{collect_expr, lower_path};
use hir_lower_scope::lifetimes::NamedLifetimeStore;
use hir_store::builder::ExpressionStoreBuilder;
use hir_store::diagnostics::AwaitLocation;
use hir_store::error::StoreError;
use hir_store::generics::{
    TypeOrConstParamData, TypeParamData, TypeParamProvenance, WherePredicate,
};
use hir_store::ids::{
    ExprId, GenericDefId, LocalTypeOrConstParamId, ModuleId, TypeParamId, TypeRefId,
};
use hir_store::path::Path;
use hir_store::source_map::ExpressionStoreSourceMap;
use hir_store::store::ExpressionStore;
use hir_store::type_ref::{ConstRef, TypeBound, TypeRef};
use hir_syntax::{Boxed, ast};
use std::alloc::{AllocError, Global};

mod type_refs;

/// The expression in a box, where there is one.
fn unboxed(expr: &Option<Boxed<ast::Expr>>) -> Option<&ast::Expr>
    ensures { option_copied result ≡ expr.now }
{
    match expr {
        None => None,
        Some(expr) => Some(expr.get()),
    }
}

/// The expression, missing where it is absent or a condition disables it.
pub(crate) fn collect_expr_opt<E: LowerEnv>(
    alloc: Global,
    env: &E,
    place: LowerCtx,
    state: &mut StoredBody,
    expr: Option<&ast::Expr>,
) -> Result<ExprId, StoreError>
    ensures { let rctx = rctx_at (E.answers env.now) place in
        LowersExprOpt (expr_part rctx (option_copied expr.entry)) state.old result state.new }
{
    match expr {
        None => state.missing_expr(),
        Some(expr) => collect_expr(alloc, env, place, state, expr),
    }
}

#[tactic(auto, unfolding(crate::specs::Roots::root_of))]
fn root_steps<E: LowerEnv>(
    alloc: Global,
    env: &E,
    place: LowerCtx,
    state: &mut StoredBody,
    expr: Option<&ast::Expr>,
) -> Result<ExprId, StoreError>
    ensures { let rctx = rctx_at (E.answers env.now) place in
        Lowers HasExpr (root_of (expr_part rctx (option_copied expr.entry))) state.old result state.new }
{
    state.close_labels(alloc);
    let _ = state.enter_root();
    let start = state.bindings_end();
    let root = collect_expr_opt(alloc, env, place, state, expr)?;
    state.own(start, root);
    state.record_root(root)?;
    state.outside_root();
    Ok(root)
}

/// Lowers an expression as a root: no label around it is open in it, and it owns its bindings.
pub(crate) fn lower_root<E: LowerEnv>(
    alloc: Global,
    env: &E,
    place: LowerCtx,
    state: &mut StoredBody,
    expr: Option<&ast::Expr>,
) -> Result<ExprId, StoreError>
    ensures lowers { let rctx = rctx_at (E.answers env.now) place in
        Lowers HasExpr (root_of (expr_part rctx (option_copied expr.entry))) state.old result state.new }
    ensures rooted { let e = expr_part (rctx_at (E.answers env.now) place) (option_copied expr.entry) in
        Paired state.old.stored → MayBeOwned state.old.stored → IfOk result (λ i. Rooted state.old.stored state.new.stored i e) }
    ensures owners { MayBeOwned state.old.stored → IfOk result (λ i. MayBeOwned state.new.stored) }
    ensures defined { Paired state.old.stored → MayBeOwned state.old.stored → Defined state.old.stored
        → IfOk result (λ i. Defined state.new.stored) }
    ensures mapped { Paired state.old.stored → ∥ Mapped state.old.stored ∥₁ → IfOk result (λ i. ∥ Mapped state.new.stored ∥₁) }
    ensures collected { Paired state.old.stored → MayBeOwned state.old.stored → ∥ Collected state.old.stored ∥₁
        → IfOk result (λ i. ∥ Collected state.new.stored ∥₁) }
    ensures outside { IfOk result (λ i. Outside state.new) }
    ensures apart { Paired state.old.stored → ∥ MadeApart state.old.names state.old.stored ∥₁
        → IfOk result (λ i. ∥ MadeApart state.new.names state.new.stored ∥₁) }
    ensures too_large { let e = expr_part (rctx_at (E.answers env.now) place) (option_copied expr.entry) in
        Paired state.old.stored → IsErrOf result StoreError.Full → TooLarge state.old e }
    ensures names { let e = expr_part (rctx_at (E.answers env.now) place) (option_copied expr.entry) in
        Paired state.old.stored → IfOk result (λ i. state.new.names ≡ state.old.names + (size_part e).names) }
    ensures tracked { let e = expr_part (rctx_at (E.answers env.now) place) (option_copied expr.entry) in
        Paired state.old.stored → IfOk result (λ i. Tracked (tracked_in_part e) state.old state.new) }
    ensures fits { let e = expr_part (rctx_at (E.answers env.now) place) (option_copied expr.entry) in
        Paired state.old.stored → InLimits state.old → IfOk result (λ i. FitsBehind (size_part e) state.old) }
    ensures within { Paired state.old.stored → InLimits state.old → IfOk result (λ i. InLimits state.new) }
    ensures stays { MayBeOwned state.old.stored → result ≢ Err StoreError.Memory → Stays state.old.stored state.new.stored }
{
    root_steps(alloc, env, place, state, expr)
}

/// Lowers a path that stands alone.
fn lower_whole_path<E: LowerEnv>(
    alloc: Global,
    env: &E,
    place: LowerCtx,
    state: &mut StoredBody,
    path: &ast::Path,
) -> Result<Option<Path>, StoreError>
    ensures data { let p = whole_path (rctx_at (E.answers env.now) place) path.now in
        Paired state.old.stored → IfOk result (λ r. ReadsBack state.new.stored r p) }
    ensures segments { Paired state.old.stored → IfOk result (λ r. BearsNames state.new.stored path.now r) }
    ensures arguments { let at = rctx_at (E.answers env.now) place in
        Paired state.old.stored → IfOk result (λ r. TakesArguments state.new.stored at path.now r) }
    ensures rooted { let p = whole_path (rctx_at (E.answers env.now) place) path.now in
        Paired state.old.stored → MayBeOwned state.old.stored → Outside state.old
        → IfOk result (λ r. PathRooted state.old.stored state.new.stored r p) }
    ensures owners { MayBeOwned state.old.stored → IfOk result (λ r. MayBeOwned state.new.stored) }
    ensures defined { Paired state.old.stored → MayBeOwned state.old.stored → Outside state.old → Defined state.old.stored
        → IfOk result (λ r. Defined state.new.stored) }
    ensures mapped { Paired state.old.stored → ∥ Mapped state.old.stored ∥₁ → IfOk result (λ r. ∥ Mapped state.new.stored ∥₁) }
    ensures collected { Paired state.old.stored → MayBeOwned state.old.stored → Outside state.old → ∥ Collected state.old.stored ∥₁
        → IfOk result (λ r. ∥ Collected state.new.stored ∥₁) }
    ensures outside { Outside state.old → IfOk result (λ r. Outside state.new) }
    ensures apart { Paired state.old.stored → ∥ MadeApart state.old.names state.old.stored ∥₁
        → IfOk result (λ r. ∥ MadeApart state.new.names state.new.stored ∥₁) }
    ensures full { IsErrOf result StoreError.Full → SomeEnd state.new }
    ensures too_large { let p = whole_path (rctx_at (E.answers env.now) place) path.now in
        Paired state.old.stored → IsErrOf result StoreError.Full → Short (whole_size p) state.old }
    ensures names { let p = whole_path (rctx_at (E.answers env.now) place) path.now in
        Paired state.old.stored → IfOk result (λ r. state.new.names ≡ state.old.names + (whole_size p).names) }
    ensures tracked { let p = whole_path (rctx_at (E.answers env.now) place) path.now in
        Paired state.old.stored → IfOk result (λ r. Tracked (tracked_in_whole p) state.old state.new) }
    ensures fits { let p = whole_path (rctx_at (E.answers env.now) place) path.now in
        Paired state.old.stored → InLimits state.old → IfOk result (λ r. FitsBehind (whole_size p) state.old) }
    ensures within { Paired state.old.stored → InLimits state.old → IfOk result (λ r. InLimits state.new) }
    ensures stays { MayBeOwned state.old.stored → result ≢ Err StoreError.Memory → Stays state.old.stored state.new.stored }
{
    lower_path(alloc, env, place, state, path)
}

/// Stores a type from this node, and changes nothing else.
fn add_type(
    state: &mut StoredBody,
    ty: TypeRef,
    source: InFile<AstPtr>,
) -> Result<TypeRefId, StoreError>
    requires { HasTypeParts state.old.stored ty }
    ensures adds { IfOk result (λ i. AddsType state.old.stored state.new.stored i ty source) }
    ensures full { IsErrOf result StoreError.Full → SomeEnd state.new }
    ensures no_room { IsErrOf result StoreError.Full → NoRoomForType state.old.stored }
    ensures fits { IfOk result (λ i. RoomForType state.old.stored) }
    ensures within { InLimits state.old → IfOk result (λ i. InLimits state.new) }
    ensures unchanged { IsErrOf result StoreError.Full → state.new.stored ≡ state.old.stored }
    ensures scopes { result ≢ Err StoreError.Memory → state.new.scopes ≡ state.old.scopes }
    ensures names { result ≢ Err StoreError.Memory → state.new.names ≡ state.old.names }
    ensures tracks { result ≢ Err StoreError.Memory → state.new.tracks ≡ state.old.tracks }
    ensures owners { MayBeOwned state.old.stored → IfOk result (λ i. MayBeOwned state.new.stored) }
    ensures defined { Defined state.old.stored → IfOk result (λ i. Defined state.new.stored) }
    ensures mapped { ∥ Mapped state.old.stored ∥₁ → IfOk result (λ i. ∥ Mapped state.new.stored ∥₁) }
    ensures collected { ∥ Collected state.old.stored ∥₁ → IfOk result (λ i. ∥ Collected state.new.stored ∥₁) }
    ensures outside { Outside state.old → IfOk result (λ i. Outside state.new) }
    ensures apart { Paired state.old.stored → ∥ MadeApart state.old.names state.old.stored ∥₁
        → IfOk result (λ i. ∥ MadeApart state.new.names state.new.stored ∥₁) }
{
    state.alloc_type(ty, Some(source))
}

/// A predicate for each of these bounds of a type, behind those that there are.
fn push_bounds(
    lists: &mut GenericLists,
    target: TypeRefId,
    mut left: &[TypeBound],
) -> Result<(), AllocError>
    ensures { OnOk result (lists.new
        ≡ record lists.old { where_predicates = lists.old.where_predicates ++ predicates_of target left.entry.now }) }
{
    while let [one, rest @ ..] = left {
        let bound = one.clone()?;
        lists.where_predicates.push(WherePredicate::TypeBound {
            lifetimes: None,
            target,
            bound,
        })?;
        left = rest;
    }
    Ok(())
}

/// Notes the parameter that an `impl` became, with its predicates.
fn track_param(
    lists: &mut GenericLists,
    target: TypeRefId,
    bounds: &Seq<TypeBound>,
) -> Result<(), AllocError>
    ensures { OnOk result (lists.new ≡ with_impl target bounds.now lists.old) }
{
    lists
        .type_or_consts
        .push(TypeOrConstParamData::TypeParamData(TypeParamData {
            name: None,
            default: None,
            provenance: TypeParamProvenance::ArgumentImplTrait,
        }))?;
    push_bounds(lists, target, bounds.as_slice())
}

/// Stores the type of a parameter more of these lists, from this node, and notes the parameter.
fn add_param(
    state: &mut StoredBody,
    lists: &mut GenericLists,
    parent: GenericDefId,
    bounds: &Seq<TypeBound>,
    source: InFile<AstPtr>,
) -> Result<TypeRefId, StoreError>
    ensures adds { IfOk result (λ i. AddsType state.old.stored state.new.stored i
        (parameter_type parent (length lists.old.type_or_consts)) source) }
    ensures lists { IfOk result (λ i. lists.new ≡ with_impl i bounds.now lists.old) }
    ensures no_room { IsErrOf result StoreError.Full
        → NoRoomForType state.old.stored ⊎ (4294967295 ≤ length lists.old.type_or_consts) }
    ensures fits { IfOk result (λ i. RoomForType state.old.stored × (length lists.old.type_or_consts < 4294967295)) }
    ensures within { InLimits state.old → IfOk result (λ i. InLimits state.new) }
    ensures unchanged { IsErrOf result StoreError.Full → state.new.stored ≡ state.old.stored }
    ensures scopes { result ≢ Err StoreError.Memory → state.new.scopes ≡ state.old.scopes }
    ensures names { result ≢ Err StoreError.Memory → state.new.names ≡ state.old.names }
    ensures tracks { result ≢ Err StoreError.Memory → state.new.tracks ≡ state.old.tracks }
    ensures owners { MayBeOwned state.old.stored → IfOk result (λ i. MayBeOwned state.new.stored) }
    ensures defined { Defined state.old.stored → IfOk result (λ i. Defined state.new.stored) }
    ensures mapped { ∥ Mapped state.old.stored ∥₁ → IfOk result (λ i. ∥ Mapped state.new.stored ∥₁) }
    ensures collected { ∥ Collected state.old.stored ∥₁ → IfOk result (λ i. ∥ Collected state.new.stored ∥₁) }
    ensures outside { Outside state.old → IfOk result (λ i. Outside state.new) }
    ensures apart { Paired state.old.stored → ∥ MadeApart state.old.names state.old.stored ∥₁
        → IfOk result (λ i. ∥ MadeApart state.new.names state.new.stored ∥₁) }
{
    let number = lists.type_or_consts.len();
    if number >= u32::MAX as usize {
        return Err(StoreError::Full);
    }
    let ty = TypeRef::TypeParam(TypeParamId {
        parent,
        local_id: LocalTypeOrConstParamId(number as u32),
    });
    let id = add_type(state, ty, source)?;
    track_param(lists, id, bounds)?;
    Ok(id)
}

/// Lowers trees into one store.
///
/// After an error, and only then, each later lowering call and `into_store` answer `Failed`; the store stays readable,
/// and each number in it is in range.
pub struct ExprCollector<'db, E: LowerEnv> {
    alloc: Global,
    db: &'db E,
    place: LowerCtx,
    state: StoredBody,
    failed: bool,
    ghost paired: { failed ≡ false → Paired state.stored },
    ghost owners: { failed ≡ false → MayBeOwned state.stored },
    ghost defined: { failed ≡ false → Defined state.stored },
    ghost mapped: { failed ≡ false → ∥ Mapped state.stored ∥₁ },
    ghost collected: { failed ≡ false → ∥ Collected state.stored ∥₁ },
    ghost outside: { failed ≡ false → Outside state },
    ghost apart: { failed ≡ false → ∥ MadeApart state.names state.stored ∥₁ },
    ghost within: { failed ≡ false → InLimits state },
}

impl<'db, E: LowerEnv> Drop for ExprCollector<'db, E> {
    fn drop(self) {
        let ExprCollector {
            alloc: _,
            db: _,
            place: _,
            state: _,
            failed: _,
        } = self;
    }
}

impl<'db, E: LowerEnv> ExprCollector<'db, E> {
    /// A collector that has lowered nothing. It takes no memory.
    pub fn new(
        alloc: Global,
        db: &'db E,
        inside: ModuleId,
        current_file_id: HirFileId,
        lowering_mode: LoweringMode,
    ) -> ExprCollector<'db, E>
        ensures env { result.db.now ≡ db.now }
        ensures place { result.place ≡ outside_body (E.answers db.now) current_file_id inside lowering_mode }
        ensures empty { result.state ≡ new_builder 4294967295 }
        ensures works { result.failed ≡ false }
    {
        ExprCollector::with_limit(alloc, db, inside, current_file_id, lowering_mode, u32::MAX)
    }

    /// A collector whose arenas hold as many entries each as the limit says. It takes no memory.
    pub fn with_limit(
        alloc: Global,
        db: &'db E,
        inside: ModuleId,
        current_file_id: HirFileId,
        lowering_mode: LoweringMode,
        limit: u32,
    ) -> ExprCollector<'db, E>
        ensures env { result.db.now ≡ db.now }
        ensures place { result.place ≡ outside_body (E.answers db.now) current_file_id inside lowering_mode }
        ensures empty { result.state ≡ new_builder limit }
        ensures works { result.failed ≡ false }
    {
        ExprCollector {
            alloc,
            db,
            place: LowerCtx {
                file_id: current_file_id,
                module_id: inside,
                mode: lowering_mode,
                await_location: Some(AwaitLocation::Unknown),
                impl_trait: ImplTrait::Error,
                in_impl: false,
                lifetimes: LifetimeScope::Nowhere,
                left: db.expansion_limit(),
            },
            state: StoredBody::new(alloc, limit, db.hash_key()),
            failed: false,
        }
    }

    /// Lowers a constant as a root of its own. It is read inside of a constant: this is what an `await` in it is in.
    ///
    /// - `Ok`: in each later store that keeps the binding problems, the root is trace-equivalent to the constant. What was added is what
    ///   the constant requires (`rooted`, `names`), and it fits (`fits`). The side output grows by the lifetimes that it names (`tracked`).
    /// - `Full`: the constant requires more than is left in an arena, or overflows a counter of 32 bits (`too_large`).
    /// - `Memory`: an allocation was refused.
    /// - `Failed`: an earlier call returned an error. Nothing changes (`calls`).
    ///
    /// Unless `Memory` is returned, all that was stored is unchanged, and a syntax node that had an entry leads to the same entry or to a
    /// later one (`stays`).
    pub fn lower_const_arg(&mut self, arg: &ast::ConstArg) -> Result<ConstRef, LowerError>
        ensures calls { Calls self.old.failed self.old.state result self.new.state self.new.failed }
        ensures rooted { let e = const_input (E.answers self.old.db.now) self.old.place arg.now in
            IfOk result (λ c. Rooted self.old.state.stored self.new.state.stored c.expr e) }
        ensures full { IsErrOf result LowerError.Full → SomeEnd self.new.state }
        ensures too_large { let e = const_input (E.answers self.old.db.now) self.old.place arg.now in
            IsErrOf result LowerError.Full → TooLarge self.old.state e }
        ensures fits { let e = const_input (E.answers self.old.db.now) self.old.place arg.now in
            IfOk result (λ c. FitsBehind (size_part e) self.old.state) }
        ensures names { let e = const_input (E.answers self.old.db.now) self.old.place arg.now in
            IfOk result (λ c. self.new.state.names ≡ self.old.state.names + (size_part e).names) }
        ensures tracked { let e = const_input (E.answers self.old.db.now) self.old.place arg.now in
            IfOk result (λ c. Tracked (tracked_in_part e) self.old.state self.new.state) }
        ensures stays { result ≢ Err LowerError.Memory → Stays self.old.state.stored self.new.state.stored }
        ensures db { self.new.db ≡ self.old.db }
        ensures place { self.new.place ≡ self.old.place }
    {
        if self.failed {
            return Err(LowerError::Failed);
        }
        self.failed = true;
        let expr = lower_root(
            self.alloc,
            self.db,
            inside_constant(self.place),
            &mut self.state,
            unboxed(arg),
        )?;
        self.failed = false;
        Ok(ConstRef { expr })
    }

    /// Lowers a path (upstream's function of this name). If a segment that is read refuses it, the result is `None`. The caller says what
    /// an `impl Trait` in it becomes.
    ///
    /// - `Ok`: the path decodes to the written one, with the names of the use trees around it in front (`data`). Its names are those of the
    ///   written segments (`segments`), and its arguments are those behind these segments (`arguments`); both are claimed if no use tree is
    ///   around it or its trait, no segment of either is missing, and the trait has no qualified type. What was added is what the path
    ///   requires, even if it is refused (`rooted`, `names`), and it fits (`fits`). The side output grows by the parameters that an
    ///   `impl Trait` becomes, with their predicates, and by the lifetimes that the path names (`tracked`).
    /// - `Full`: the path requires more than is left in an arena, or overflows a counter of 32 bits (`too_large`).
    /// - `Memory`: an allocation was refused.
    /// - `Failed`: an earlier call returned an error. Nothing changes (`calls`).
    ///
    /// Unless `Memory` is returned, all that was stored is unchanged (`stays`).
    pub fn lower_path<I: ImplTraitLower>(
        &mut self,
        path: &ast::Path,
        impl_trait: &mut I,
    ) -> Result<Option<Path>, LowerError>
        ensures calls { Calls self.old.failed self.old.state result self.new.state self.new.failed }
        ensures data { let p = path_input (E.answers self.old.db.now) self.old.place (I.mode impl_trait.old) path.now in
            IfOk result (λ r. ReadsBack self.new.state.stored r p) }
        ensures segments { IfOk result (λ r. BearsNames self.new.state.stored path.now r) }
        ensures arguments { let at = path_rctx (E.answers self.old.db.now) self.old.place (I.mode impl_trait.old) in
            IfOk result (λ r. TakesArguments self.new.state.stored at path.now r) }
        ensures rooted { let p = path_input (E.answers self.old.db.now) self.old.place (I.mode impl_trait.old) path.now in
            IfOk result (λ r. PathRooted self.old.state.stored self.new.state.stored r p) }
        ensures full { IsErrOf result LowerError.Full → SomeEnd self.new.state }
        ensures too_large { let p = path_input (E.answers self.old.db.now) self.old.place (I.mode impl_trait.old) path.now in
            IsErrOf result LowerError.Full → Short (whole_size p) self.old.state }
        ensures fits { let p = path_input (E.answers self.old.db.now) self.old.place (I.mode impl_trait.old) path.now in
            IfOk result (λ r. FitsBehind (whole_size p) self.old.state) }
        ensures names { let p = path_input (E.answers self.old.db.now) self.old.place (I.mode impl_trait.old) path.now in
            IfOk result (λ r. self.new.state.names ≡ self.old.state.names + (whole_size p).names) }
        ensures tracked { let p = path_input (E.answers self.old.db.now) self.old.place (I.mode impl_trait.old) path.now in
            IfOk result (λ r. Tracked (tracked_in_whole p) self.old.state self.new.state) }
        ensures stays { result ≢ Err LowerError.Memory → Stays self.old.state.stored self.new.state.stored }
        ensures impl_trait { impl_trait.new ≡ impl_trait.old }
        ensures db { self.new.db ≡ self.old.db }
        ensures place { self.new.place ≡ self.old.place }
    {
        if self.failed {
            return Err(LowerError::Failed);
        }
        self.failed = true;
        let place = LowerCtx {
            impl_trait: impl_trait.mode(),
            ..self.place
        };
        let lowered = lower_whole_path(self.alloc, self.db, place, &mut self.state, path)?;
        self.failed = false;
        Ok(lowered)
    }

    /// Stores a type from this node.
    pub(crate) fn add_type(&mut self, ty: TypeRef, ptr: AstPtr) -> Result<TypeRefId, LowerError>
        requires { HasTypeParts self.old.state.stored ty }
        ensures calls { Calls self.old.failed self.old.state result self.new.state self.new.failed }
        ensures adds { IfOk result (λ i. AddsType self.old.state.stored self.new.state.stored i ty (in_file self.old.place ptr)) }
        ensures full { IsErrOf result LowerError.Full → NoRoomForType self.old.state.stored }
        ensures fits { IfOk result (λ i. RoomForType self.old.state.stored) }
        ensures unchanged { IsErrOf result LowerError.Full → self.new.state.stored ≡ self.old.state.stored }
        ensures scopes { result ≢ Err LowerError.Memory → self.new.state.scopes ≡ self.old.state.scopes }
        ensures names { result ≢ Err LowerError.Memory → self.new.state.names ≡ self.old.state.names }
        ensures tracks { result ≢ Err LowerError.Memory → self.new.state.tracks ≡ self.old.state.tracks }
        ensures db { self.new.db ≡ self.old.db }
        ensures place { self.new.place ≡ self.old.place }
    {
        if self.failed {
            return Err(LowerError::Failed);
        }
        self.failed = true;
        let source = InFile {
            file_id: self.place.file_id,
            value: ptr,
        };
        let id = add_type(&mut self.state, ty, source)?;
        self.failed = false;
        Ok(id)
    }

    /// Stores the type of a parameter more of these lists, from this node, and notes the parameter.
    pub(crate) fn add_param(
        &mut self,
        lists: &mut GenericLists,
        parent: GenericDefId,
        bounds: &Seq<TypeBound>,
        ptr: AstPtr,
    ) -> Result<TypeRefId, LowerError>
        ensures calls { Calls self.old.failed self.old.state result self.new.state self.new.failed }
        ensures adds { IfOk result (λ i. AddsType self.old.state.stored self.new.state.stored i
            (parameter_type parent (length lists.old.type_or_consts)) (in_file self.old.place ptr)) }
        ensures lists { IfOk result (λ i. lists.new ≡ with_impl i bounds.now lists.old) }
        ensures full { IsErrOf result LowerError.Full
            → NoRoomForType self.old.state.stored ⊎ (4294967295 ≤ length lists.old.type_or_consts) }
        ensures fits { IfOk result (λ i. RoomForType self.old.state.stored × (length lists.old.type_or_consts < 4294967295)) }
        ensures unchanged { IsErrOf result LowerError.Full → self.new.state.stored ≡ self.old.state.stored }
        ensures scopes { result ≢ Err LowerError.Memory → self.new.state.scopes ≡ self.old.state.scopes }
        ensures names { result ≢ Err LowerError.Memory → self.new.state.names ≡ self.old.state.names }
        ensures tracks { result ≢ Err LowerError.Memory → self.new.state.tracks ≡ self.old.state.tracks }
        ensures db { self.new.db ≡ self.old.db }
        ensures place { self.new.place ≡ self.old.place }
    {
        if self.failed {
            return Err(LowerError::Failed);
        }
        self.failed = true;
        let source = InFile {
            file_id: self.place.file_id,
            value: ptr,
        };
        let id = add_param(&mut self.state, lists, parent, bounds, source)?;
        self.failed = false;
        Ok(id)
    }

    /// What is stored so far, after an error too. Each number in it is in range.
    pub fn store(&self) -> &ExpressionStoreBuilder
        ensures stored { result.now ≡ self.now.state.stored }
        ensures in_range { InRange (store_of result.now) (map_of result.now) }
    {
        let store = self.state.store();
        store.in_range();
        store
    }

    /// The lifetimes that were named where they count, in the order of their first mention. What a collector lowers stands in no item, so
    /// they are those that stand in `impl`s.
    pub fn named_lifetime_store(&self) -> &NamedLifetimeStore
        ensures { result.now ≡ self.now.state.tracks.named }
    {
        &self.state.tracks().named
    }

    /// The parameters that `impl`s became, where the caller chose that they do, and the predicates of these.
    pub fn generics(&self) -> &GenericLists
        ensures { result.now ≡ self.now.state.tracks.generics }
    {
        &self.state.tracks().generics
    }

    /// The store and its source map, or `Failed` after an error. It takes no memory.
    ///
    /// In them is what the calls left, one behind the other, and nothing else: each entry, each source and each way from a node or back
    /// is that of one of the trees that were lowered, or of a type that an `impl` became, as the call of it says. A node of a type or of a
    /// lifetime leads to one, and no other node leads to a lifetime. Each number is in range, each binding has the patterns that make it,
    /// and no name is made up twice, except for those that the parameters of a closure with `async` or `gen` are handed in by.
    #[tactic(auto, using(crate::proofs::FinishedStore::finished_store))]
    pub fn into_store(self) -> Result<(ExpressionStore, ExpressionStoreSourceMap), LowerError>
        ensures failed { self.entry.failed ≡ true → result ≡ Err LowerError.Failed }
        ensures works { self.entry.failed ≡ false
            → IsOkAnd result (λ r. (r.0 ≡ store_of self.entry.state.stored) × (r.1 ≡ map_of self.entry.state.stored)) }
        ensures collected { IfOk result (λ r. ∥ OfCalls r.0 r.1 ∥₁) }
        ensures mapped { IfOk result (λ r. ∥ Mapped self.entry.state.stored ∥₁) }
        ensures definitions { IfOk result (λ r. DefinitionsAre r.0.pats (length r.0.bindings) r.1.binding_definitions) }
        ensures made_once { IfOk result (λ r. ∥ MadeOnce r.0 [] ∥₁) }
        ensures in_range { IfOk result (λ r. InRange r.0 r.1) }
    {
        let ExprCollector {
            alloc: _,
            db: _,
            place: _,
            state,
            failed,
        } = self;
        if failed {
            return Err(LowerError::Failed);
        }
        Ok(state.into_store().finish())
    }
}

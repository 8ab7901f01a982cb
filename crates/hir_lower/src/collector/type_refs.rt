//! Types that the collector lowers into its store, as those of a struct's fields.

ghost use Rattle.std.specs.Prelude.{◌+◌, ◌≡◌, ◌≢◌, false, Err, IfOk, IsErrOf, option_copied};
ghost use Rattle.hir_lower_builder.specs.Lowering.{SomeEnd};
ghost use Rattle.thm_logic.specs.Keeps.{MadeApart, Mapped, Paired};
ghost use Rattle.spec_data.specs.Fold.{tracked_in_type_part};
ghost use Rattle.thm_generics.specs.Lists.{Tracked};
ghost use Rattle.thm_body_result.specs.Theorems.{Defined, MayBeOwned};
ghost use Rattle.thm_body_result.specs.Room.{Short, type_part_size};
ghost use Rattle.thm_item_result.specs.Exceeding.{FitsBehind, InLimits};
ghost use Rattle.hir_lower_callbacks.specs.ResolveCtxs.{rctx_at};
ghost use Rattle.hir_lower.specs.Calls.{Calls, Outside};
ghost use Rattle.hir_lower.specs.Collected.{Collected};
ghost use Rattle.hir_lower.specs.Inputs.{placed_type_input};
ghost use Rattle.hir_lower.specs.Means.{TypeReadsBack, TypeRooted, whole_type};
ghost use Rattle.hir_lower.specs.Stays.{Stays};

use crate::collector::ExprCollector;
use crate::error::LowerError;
use crate::impl_trait::{ImplTraitLower, ImplTraitMode};
use crate::type_ref::lower_type_opt;
use hir_env::ctx::LowerCtx;
use hir_env::env::LowerEnv;
use hir_lower_builder::builder::StoredBody;
use hir_store::error::StoreError;
use hir_store::ids::TypeRefId;
use hir_syntax::ast;
use std::alloc::Global;

/// Lowers a type that stands alone, behind what is stored.
fn lower_whole_type<E: LowerEnv>(
    alloc: Global,
    env: &E,
    place: LowerCtx,
    state: &mut StoredBody,
    type_ref: Option<&ast::Type_>,
) -> Result<TypeRefId, StoreError>
    ensures data { let t = whole_type (rctx_at (E.answers env.now) place) (option_copied type_ref.entry) in
        Paired state.old.stored → IfOk result (λ i. TypeReadsBack state.new.stored i t) }
    ensures rooted { let t = whole_type (rctx_at (E.answers env.now) place) (option_copied type_ref.entry) in
        Paired state.old.stored → MayBeOwned state.old.stored → Outside state.old
        → IfOk result (λ i. TypeRooted state.old.stored state.new.stored i t) }
    ensures owners { MayBeOwned state.old.stored → IfOk result (λ i. MayBeOwned state.new.stored) }
    ensures defined { Paired state.old.stored → MayBeOwned state.old.stored → Outside state.old → Defined state.old.stored
        → IfOk result (λ i. Defined state.new.stored) }
    ensures mapped { Paired state.old.stored → ∥ Mapped state.old.stored ∥₁ → IfOk result (λ i. ∥ Mapped state.new.stored ∥₁) }
    ensures collected { Paired state.old.stored → MayBeOwned state.old.stored → Outside state.old → ∥ Collected state.old.stored ∥₁
        → IfOk result (λ i. ∥ Collected state.new.stored ∥₁) }
    ensures outside { Outside state.old → IfOk result (λ i. Outside state.new) }
    ensures apart { Paired state.old.stored → ∥ MadeApart state.old.names state.old.stored ∥₁
        → IfOk result (λ i. ∥ MadeApart state.new.names state.new.stored ∥₁) }
    ensures full { IsErrOf result StoreError.Full → SomeEnd state.new }
    ensures too_large { let t = whole_type (rctx_at (E.answers env.now) place) (option_copied type_ref.entry) in
        Paired state.old.stored → IsErrOf result StoreError.Full → Short (type_part_size t) state.old }
    ensures names { let t = whole_type (rctx_at (E.answers env.now) place) (option_copied type_ref.entry) in
        Paired state.old.stored → IfOk result (λ i. state.new.names ≡ state.old.names + (type_part_size t).names) }
    ensures tracked { let t = whole_type (rctx_at (E.answers env.now) place) (option_copied type_ref.entry) in
        Paired state.old.stored → IfOk result (λ i. Tracked (tracked_in_type_part t) state.old state.new) }
    ensures fits { let t = whole_type (rctx_at (E.answers env.now) place) (option_copied type_ref.entry) in
        Paired state.old.stored → InLimits state.old → IfOk result (λ i. FitsBehind (type_part_size t) state.old) }
    ensures within { Paired state.old.stored → InLimits state.old → IfOk result (λ i. InLimits state.new) }
    ensures stays { MayBeOwned state.old.stored → result ≢ Err StoreError.Memory → Stays state.old.stored state.new.stored }
{
    lower_type_opt(alloc, env, place, state, type_ref)
}

impl<'db, E: LowerEnv> ExprCollector<'db, E> {
    /// Lowers a type (upstream's function of this name), one of several in this store. An absent type is an error type without a syntax
    /// pointer. The caller says what an `impl Trait` in it becomes.
    ///
    /// - `Ok`: the stored type decodes to the written one (`data`), and its nested bodies are trace-equivalent. What was added is what the
    ///   type requires (`rooted`, `names`), and it fits (`fits`). The side output grows by the parameters that an `impl Trait` becomes,
    ///   with their predicates, and by the lifetimes that the type names (`tracked`).
    /// - `Full`: the type requires more than is left in an arena, or overflows a counter of 32 bits (`too_large`).
    /// - `Memory`: an allocation was refused.
    /// - `Failed`: an earlier call returned an error. Nothing changes (`calls`).
    ///
    /// Each constant in the type is a root. Unless `Memory` is returned, all that was stored is unchanged (`stays`).
    pub fn lower_type_ref_opt<I: ImplTraitLower>(
        &mut self,
        type_ref: Option<&ast::Type_>,
        impl_trait: &mut I,
    ) -> Result<TypeRefId, LowerError>
        ensures calls { Calls self.old.failed self.old.state result self.new.state self.new.failed }
        ensures data { let t = placed_type_input (E.answers self.old.db.now) self.old.place (I.mode impl_trait.old)
            (option_copied type_ref.entry) in IfOk result (λ i. TypeReadsBack self.new.state.stored i t) }
        ensures rooted { let t = placed_type_input (E.answers self.old.db.now) self.old.place (I.mode impl_trait.old)
            (option_copied type_ref.entry) in IfOk result (λ i. TypeRooted self.old.state.stored self.new.state.stored i t) }
        ensures full { IsErrOf result LowerError.Full → SomeEnd self.new.state }
        ensures too_large { let t = placed_type_input (E.answers self.old.db.now) self.old.place (I.mode impl_trait.old)
            (option_copied type_ref.entry) in IsErrOf result LowerError.Full → Short (type_part_size t) self.old.state }
        ensures fits { let t = placed_type_input (E.answers self.old.db.now) self.old.place (I.mode impl_trait.old)
            (option_copied type_ref.entry) in IfOk result (λ i. FitsBehind (type_part_size t) self.old.state) }
        ensures names { let t = placed_type_input (E.answers self.old.db.now) self.old.place (I.mode impl_trait.old)
            (option_copied type_ref.entry) in
            IfOk result (λ i. self.new.state.names ≡ self.old.state.names + (type_part_size t).names) }
        ensures tracked { let t = placed_type_input (E.answers self.old.db.now) self.old.place (I.mode impl_trait.old)
            (option_copied type_ref.entry) in IfOk result (λ i. Tracked (tracked_in_type_part t) self.old.state self.new.state) }
        ensures stays { result ≢ Err LowerError.Memory → Stays self.old.state.stored self.new.state.stored }
        ensures impl_trait { impl_trait.new ≡ impl_trait.old }
        ensures db { self.new.db ≡ self.old.db }
        ensures place { self.new.place ≡ self.old.place }
    {
        if self.failed {
            return Err(LowerError::Failed);
        }
        self.failed = true;
        let place = LowerCtx {
            impl_trait: impl_trait.mode(),
            ..self.place
        };
        let lowered = lower_whole_type(self.alloc, self.db, place, &mut self.state, type_ref)?;
        self.failed = false;
        Ok(lowered)
    }
}

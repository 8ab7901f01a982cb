//! What lowering notes beside what it stores.

ghost use Rattle.std.specs.Prelude.{◌≡◌, option_copied};
ghost use Rattle.hir_store.specs.Range.{HasBounds, HasNone, HasType};
ghost use Rattle.hir_env.specs.Paths.{flags_of};
ghost use Rattle.hir_lower_builder.specs.Generics.{naming, unnamed_param, with_bounds};
ghost use Rattle.hir_lower_builder.specs.Lowering as spec;
ghost use Rattle.hir_lower_builder.specs.Lowering.{HasNumber, Lowers};
ghost use Rattle.hir_lower_builder.specs.Paths.{cut_with};

use crate::builder::BodyBuilder;
use crate::generics::{SideOutput, push_chosen};
use crate::store_sink::StoreSink;
use hir_alias::signature::AliasSignature;
use hir_base::Seq;
use hir_base::node::{AstPtr, InFile};
use hir_env::ctx::{ImplTrait, LifetimeScope};
use hir_store::error::StoreError;
use hir_store::generics::{
    LifetimeParamData, TypeOrConstParamData, TypeParamData, TypeParamProvenance, WherePredicate,
};
use hir_store::ids::{GenericDefId, LocalTypeOrConstParamId, TypeParamId, TypeRefId};
use hir_store::path::GenericArgs;
use hir_store::type_ref::{LifetimeRef, TypeBound, TypeRef};

/// The parameter that an `impl` becomes in an argument.
fn unnamed_param() -> TypeOrConstParamData
    ensures { result ≡ unnamed_param }
{
    TypeOrConstParamData::TypeParamData(TypeParamData {
        name: None,
        default: None,
        provenance: TypeParamProvenance::ArgumentImplTrait,
    })
}

/// The type that a parameter of the definition is.
fn param_type(parent: GenericDefId, number: u32) -> TypeRef
    ensures { result ≡ spec.param_type parent number }
{
    TypeRef::TypeParam(TypeParamId {
        parent,
        local_id: LocalTypeOrConstParamId(number),
    })
}

/// The flags of an alias that is known.
fn flags(alias: Option<&AliasSignature>) -> &[bool]
    ensures { result.now ≡ flags_of (option_copied alias.entry) }
{
    match alias {
        None => &[],
        Some(alias) => alias.named(),
    }
}

impl<I: StoreSink> BodyBuilder<I> {
    /// What is noted beside what is stored.
    pub fn tracks(&self) -> &SideOutput
        ensures { result.now ≡ self.now.tracks }
    {
        &self.tracks
    }

    /// A parameter that is a type or a constant, behind those that there are, and its number. It answers `Full`, and notes that a
    /// counter is at its end, where there are 4294967295.
    #[tactic(auto, unfolding(crate::specs::Lowering::add_param, crate::specs::Lowering::count_out, crate::specs::Lowering::track_down, crate::specs::Lowering::with_side_output))]
    #[inline(never)]
    pub fn add_param(&mut self, param: TypeOrConstParamData) -> Result<u32, StoreError>
        ensures { Lowers HasNumber (spec.add_param param) self.old result self.new }
    {
        let count = self.tracks.generics.type_or_consts.len();
        if count < u32::MAX as usize {
            self.tracks.generics.type_or_consts.push(param)?;
            Ok(count as u32)
        } else {
            Err(self.count_out())
        }
    }

    /// A parameter that is a lifetime, behind those that there are. It answers `Full`, and notes that a counter is at its end, where there
    /// are 4294967295.
    #[tactic(auto, unfolding(crate::specs::Lowering::add_lifetime_param, crate::specs::Lowering::count_out, crate::specs::Lowering::track_down, crate::specs::Lowering::with_side_output))]
    #[inline(never)]
    pub fn add_lifetime_param(&mut self, param: LifetimeParamData) -> Result<(), StoreError>
        ensures { Lowers HasNone (spec.add_lifetime_param param) self.old result self.new }
    {
        if self.tracks.generics.lifetimes.len() < u32::MAX as usize {
            self.tracks.generics.lifetimes.push(param)?;
            Ok(())
        } else {
            Err(self.count_out())
        }
    }

    /// What must hold, behind what must hold already.
    #[tactic(auto, unfolding(crate::specs::Lowering::add_predicate, crate::specs::Lowering::track_down))]
    #[inline(never)]
    pub fn add_predicate(&mut self, predicate: WherePredicate) -> Result<(), StoreError>
        ensures { Lowers HasNone (spec.add_predicate predicate) self.old result self.new }
    {
        self.tracks.generics.where_predicates.push(predicate)?;
        Ok(())
    }

    /// A predicate for each of these bounds of a type.
    #[tactic(auto, unfolding(crate::specs::Lowering::track_down))]
    pub fn add_bounds(
        &mut self,
        target: TypeRefId,
        bounds: &Seq<TypeBound>,
    ) -> Result<(), StoreError>
        ensures { Lowers HasNone (spec.track_down (with_bounds target bounds.now)) self.old result self.new }
    {
        self.tracks.generics.push_bounds(target, bounds.as_slice())?;
        Ok(())
    }

    /// What an `impl` of the definition becomes in an argument: a parameter, behind those inside of its bounds, with a predicate for each
    /// of these.
    #[tactic(auto, unfolding(crate::specs::Lowering::argument_form))]
    fn argument_type(
        &mut self,
        parent: GenericDefId,
        at: InFile<AstPtr>,
        bounds: &Seq<TypeBound>,
    ) -> Result<TypeRefId, StoreError>
        ensures { Lowers HasType (spec.argument_form parent at bounds.now) self.old result self.new }
    {
        let number = self.add_param(unnamed_param())?;
        let ty = self.alloc_type(param_type(parent, number), Some(at))?;
        self.add_bounds(ty, bounds)?;
        Ok(ty)
    }

    /// What an `impl` with these bounds becomes.
    #[inline(never)]
    pub fn become_type(
        &mut self,
        at: InFile<AstPtr>,
        mode: ImplTrait,
        bounds: Seq<TypeBound>,
    ) -> Result<TypeRefId, StoreError>
        requires { HasBounds self.old.stored bounds }
        ensures { Lowers HasType (spec.becoming at mode bounds) self.old result self.new }
    {
        match mode {
            ImplTrait::Error => self.alloc_type(TypeRef::Error, Some(at)),
            ImplTrait::Opaque => self.alloc_type(TypeRef::ImplTrait(bounds), Some(at)),
            ImplTrait::Argument(parent) => self.argument_type(parent, at, &bounds),
        }
    }

    /// Notes a lifetime by where it stands, if it has a name.
    #[tactic(auto, unfolding(crate::specs::Lowering::track_down))]
    #[inline(never)]
    pub fn track_lifetime(
        &mut self,
        scope: LifetimeScope,
        lifetime: &LifetimeRef,
    ) -> Result<(), StoreError>
        ensures { Lowers HasNone (spec.track_down (naming scope lifetime.now)) self.old result self.new }
    {
        match lifetime {
            LifetimeRef::Named(name) => self.tracks.named.track(scope, name)?,
            LifetimeRef::Static => {}
            LifetimeRef::Placeholder => {}
            LifetimeRef::Error => {}
        }
        Ok(())
    }

    /// How many names of lifetimes stand in arguments so far.
    #[tactic(auto, unfolding(crate::specs::Lowering::input_end, crate::specs::Lowering::with_side_output))]
    pub fn input_end(&self) -> usize
        ensures { Lowers HasNumber spec.input_end self.now (Ok result) self.now }
    {
        self.tracks.named.constrained_by_input.len()
    }

    /// Of the names that came in an alias with these arguments, behind the mark, those lifetimes among the arguments stay whose places the
    /// alias's type names. A name that stood in front of the mark is there still, and no second time.
    #[tactic(auto, unfolding(crate::specs::Lowering::track_down, crate::specs::Lowering::with_stored))]
    #[inline(never)]
    pub(crate) fn cut_back(
        &mut self,
        mark: usize,
        alias: Option<&AliasSignature>,
        args: &GenericArgs,
    ) -> Result<(), StoreError>
        ensures { Lowers HasNone (cut_with mark (flags_of (option_copied alias.entry)) args.now) self.old result self.new }
    {
        let input = &mut self.tracks.named.constrained_by_input;
        input.truncate(mark);
        push_chosen(input, &self.store, flags(alias), args.args.as_slice())?;
        Ok(())
    }
}

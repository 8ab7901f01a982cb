//! Generic parameters of items, and what is asked of types and lifetimes.

ghost use Rattle.std.specs.Prelude.{◌≡◌, ◌↔◌, IsTrue, IfOk, min, slice_get};
ghost use Rattle.std.specs.List.{position_from};
ghost use Rattle.std.specs.Option.{option_copied};
ghost use Rattle.hir_store.specs.declared.generics.LifetimeBoundType.TheVariants as bound_kind;
ghost use Rattle.hir_store.specs.Params.{const_of, early_among, is_called, is_type_called, lifetime_found, name_of};
ghost use Rattle.hir_store.specs.Params.{own_self, target_of, type_found, type_of};

use crate::ids::{
    GenericDefId, LifetimeParamId, LifetimeRefId, LocalLifetimeParamId, LocalTypeOrConstParamId,
    TypeParamId, TypeRefId,
};
use crate::name::Name;
use crate::shared::SharedNames;
use crate::type_ref::{ConstRef, TypeBound};
use either::Either;
use hir_base::Seq;
use std::alloc::AllocError;

/// What a type parameter is: written in a list of parameters, a trait's `Self`, or an `impl` in an argument.
#[derive(Clone, Copy, PartialEq, Eq)]
pub enum TypeParamProvenance {
    TypeParamList,
    TraitSelf,
    ArgumentImplTrait,
}

/// A type parameter. One that an `impl` became has no name.
pub struct TypeParamData {
    pub name: Option<Name>,
    pub default: Option<TypeRefId>,
    pub provenance: TypeParamProvenance,
}

impl Drop for TypeParamData {
    fn drop(self) {
        let TypeParamData {
            name: _,
            default: _,
            provenance: _,
        } = self;
    }
}

impl Clone for TypeParamData {
    ghost is_clone = { λ param copy. copy ≡ param };

    fn clone(&self) -> Result<TypeParamData, AllocError> {
        let name = match &self.name {
            Some(name) => Some(name.clone()?),
            None => None,
        };
        Ok(TypeParamData {
            name,
            default: self.default,
            provenance: self.provenance,
        })
    }
}

/// A constant parameter.
pub struct ConstParamData {
    pub name: Name,
    pub ty: TypeRefId,
    pub default: Option<ConstRef>,
}

impl Drop for ConstParamData {
    fn drop(self) {
        let ConstParamData {
            name: _,
            ty: _,
            default: _,
        } = self;
    }
}

impl Clone for ConstParamData {
    ghost is_clone = { λ param copy. copy ≡ param };

    fn clone(&self) -> Result<ConstParamData, AllocError> {
        Ok(ConstParamData {
            name: self.name.clone()?,
            ty: self.ty,
            default: self.default,
        })
    }
}

/// A type or a constant parameter. The two are counted together.
pub enum TypeOrConstParamData {
    TypeParamData(TypeParamData),
    ConstParamData(ConstParamData),
}

impl Drop for TypeOrConstParamData {
    fn drop(self) {
        match self {
            TypeOrConstParamData::TypeParamData(_) => {}
            TypeOrConstParamData::ConstParamData(_) => {}
        }
    }
}

impl Clone for TypeOrConstParamData {
    ghost is_clone = { λ param copy. copy ≡ param };

    fn clone(&self) -> Result<TypeOrConstParamData, AllocError> {
        match self {
            TypeOrConstParamData::TypeParamData(param) => {
                Ok(TypeOrConstParamData::TypeParamData(param.clone()?))
            }
            TypeOrConstParamData::ConstParamData(param) => {
                Ok(TypeOrConstParamData::ConstParamData(param.clone()?))
            }
        }
    }
}

impl TypeOrConstParamData {
    /// Its name; none where an `impl` became it.
    pub fn name(&self) -> Option<&Name>
        ensures { option_copied result ≡ name_of self.now }
    {
        match self {
            TypeOrConstParamData::TypeParamData(param) => param.name.as_ref(),
            TypeOrConstParamData::ConstParamData(param) => Some(&param.name),
        }
    }

    /// The parameter, where it is one for types.
    pub fn type_param(&self) -> Option<&TypeParamData>
        ensures { option_copied result ≡ type_of self.now }
    {
        match self {
            TypeOrConstParamData::TypeParamData(param) => Some(param),
            TypeOrConstParamData::ConstParamData(_) => None,
        }
    }

    /// The parameter, where it is one for constants.
    pub fn const_param(&self) -> Option<&ConstParamData>
        ensures { option_copied result ≡ const_of self.now }
    {
        match self {
            TypeOrConstParamData::TypeParamData(_) => None,
            TypeOrConstParamData::ConstParamData(param) => Some(param),
        }
    }

    /// Whether it is one for types, of that name.
    fn is_type_called(&self, name: &Name) -> bool
        ensures { result ≡ is_type_called name.now self.now }
    {
        match self {
            TypeOrConstParamData::TypeParamData(param) => match &param.name {
                Some(own) => own.is_same(name),
                None => false,
            },
            TypeOrConstParamData::ConstParamData(_) => false,
        }
    }
}

/// When a lifetime parameter is given: with the item's other arguments, or at each call.
#[derive(Clone, Copy, PartialEq, Eq)]
pub enum LifetimeBoundType {
    EarlyBound,
    LateBound,
}

/// A lifetime parameter.
pub struct LifetimeParamData {
    pub name: Name,
    pub bound_type: LifetimeBoundType,
}

impl Drop for LifetimeParamData {
    fn drop(self) {
        let LifetimeParamData {
            name: _,
            bound_type: _,
        } = self;
    }
}

impl Clone for LifetimeParamData {
    ghost is_clone = { λ param copy. copy ≡ param };

    fn clone(&self) -> Result<LifetimeParamData, AllocError> {
        Ok(LifetimeParamData {
            name: self.name.clone()?,
            bound_type: self.bound_type,
        })
    }
}

impl LifetimeParamData {
    /// Whether the parameter is bound early: where its item is named, and not at each call.
    pub fn is_early_bound(&self) -> bool
        ensures { IsTrue result ↔ (self.now.bound_type ≡ bound_kind.EarlyBound) }
    {
        match self.bound_type {
            LifetimeBoundType::EarlyBound => true,
            LifetimeBoundType::LateBound => false,
        }
    }
}

/// What is asked of a type, or of a lifetime. `lifetimes` has the names of the lifetimes of the `for<..>` in front, where one stands
/// there; all predicates of one `for<..>` have them together.
pub enum WherePredicate {
    TypeBound {
        lifetimes: Option<SharedNames>,
        target: TypeRefId,
        bound: TypeBound,
    },
    Lifetime {
        target: LifetimeRefId,
        bound: LifetimeRefId,
    },
}

impl Drop for WherePredicate {
    fn drop(self) {
        match self {
            WherePredicate::TypeBound {
                lifetimes: _,
                target: _,
                bound: _,
            } => {}
            WherePredicate::Lifetime {
                target: _,
                bound: _,
            } => {}
        }
    }
}

fn copy_binder(names: &Option<SharedNames>) -> Result<Option<SharedNames>, AllocError>
    ensures { IfOk result (λ copy. copy ≡ names.now) }
{
    match names {
        Some(names) => Ok(Some(names.clone()?)),
        None => Ok(None),
    }
}

impl Clone for WherePredicate {
    ghost is_clone = { λ predicate copy. copy ≡ predicate };

    fn clone(&self) -> Result<WherePredicate, AllocError> {
        match self {
            WherePredicate::TypeBound {
                lifetimes,
                target,
                bound,
            } => Ok(WherePredicate::TypeBound {
                lifetimes: copy_binder(lifetimes)?,
                target: *target,
                bound: bound.clone()?,
            }),
            WherePredicate::Lifetime { target, bound } => Ok(WherePredicate::Lifetime {
                target: *target,
                bound: *bound,
            }),
        }
    }
}

impl WherePredicate {
    /// What it is asked of: a type, as `Left`, or a lifetime, as `Right`.
    pub fn target(&self) -> Either<TypeRefId, LifetimeRefId>
        ensures { result ≡ target_of self.now }
    {
        match self {
            WherePredicate::TypeBound { target, .. } => Either::Left(*target),
            WherePredicate::Lifetime { target, .. } => Either::Right(*target),
        }
    }
}

/// The generic parameters of an item, each sort in the order in which it is written, and what is asked of types and lifetimes.
/// `early_bound_lifetimes_len` counts the lifetimes that are early bound, and doesn't go past 4294967295.
pub struct GenericParams {
    pub early_bound_lifetimes_len: u32,
    pub type_or_consts: Seq<TypeOrConstParamData>,
    pub lifetimes: Seq<LifetimeParamData>,
    pub where_predicates: Seq<WherePredicate>,
}

impl Drop for GenericParams {
    fn drop(self) {
        let GenericParams {
            early_bound_lifetimes_len: _,
            type_or_consts: _,
            lifetimes: _,
            where_predicates: _,
        } = self;
    }
}

#[tactic(auto, using(crate::proofs::Copies::same_params))]
fn copy_params(params: &Seq<TypeOrConstParamData>) -> Result<Seq<TypeOrConstParamData>, AllocError>
    ensures { IfOk result (λ copy. copy ≡ params.now) }
{
    params.clone()
}

#[tactic(auto, using(crate::proofs::Copies::same_lifetimes))]
fn copy_lifetimes(params: &Seq<LifetimeParamData>) -> Result<Seq<LifetimeParamData>, AllocError>
    ensures { IfOk result (λ copy. copy ≡ params.now) }
{
    params.clone()
}

#[tactic(auto, using(crate::proofs::Copies::same_predicates))]
fn copy_predicates(predicates: &Seq<WherePredicate>) -> Result<Seq<WherePredicate>, AllocError>
    ensures { IfOk result (λ copy. copy ≡ predicates.now) }
{
    predicates.clone()
}

impl Clone for GenericParams {
    ghost is_clone = { λ params copy. copy ≡ params };

    fn clone(&self) -> Result<GenericParams, AllocError> {
        Ok(GenericParams {
            early_bound_lifetimes_len: self.early_bound_lifetimes_len,
            type_or_consts: copy_params(&self.type_or_consts)?,
            lifetimes: copy_lifetimes(&self.lifetimes)?,
            where_predicates: copy_predicates(&self.where_predicates)?,
        })
    }
}

/// How many of these are early bound; 4294967295 where there are more.
fn early_among(mut left: &[LifetimeParamData]) -> u32
    ensures { result ≡ min (early_among left.entry.now) 4294967295 }
{
    let mut count: u32 = 0;
    while let [one, rest @ ..] = left {
        if one.is_early_bound() {
            count = count.saturating_add(1);
        }
        left = rest;
    }
    count
}

/// The place of the first lifetime parameter of that name.
fn lifetime_place(mut left: &[LifetimeParamData], name: &Name) -> Option<usize>
    ensures { result ≡ position_from (is_called name.now) 0 left.entry.now }
{
    let mut at: usize = 0;
    while let [one, rest @ ..] = left {
        if one.name.is_same(name) {
            return Some(at);
        }
        at = at + 1;
        left = rest;
    }
    None
}

/// The place of the first type parameter of that name.
fn type_place(mut left: &[TypeOrConstParamData], name: &Name) -> Option<usize>
    ensures { result ≡ position_from (is_type_called name.now) 0 left.entry.now }
{
    let mut at: usize = 0;
    while let [one, rest @ ..] = left {
        if one.is_type_called(name) {
            return Some(at);
        }
        at = at + 1;
        left = rest;
    }
    None
}

impl GenericParams {
    /// These parameters. The lifetimes that are early bound are counted.
    pub fn new(
        type_or_consts: Seq<TypeOrConstParamData>,
        lifetimes: Seq<LifetimeParamData>,
        where_predicates: Seq<WherePredicate>,
    ) -> GenericParams
        ensures { result ≡ record {
          early_bound_lifetimes_len = min (early_among lifetimes) 4294967295;
          type_or_consts = type_or_consts;
          lifetimes = lifetimes;
          where_predicates = where_predicates;
        } }
    {
        GenericParams {
            early_bound_lifetimes_len: early_among(lifetimes.as_slice()),
            type_or_consts,
            lifetimes,
            where_predicates,
        }
    }

    /// The type and constant parameters, in order.
    pub fn type_or_consts(&self) -> &[TypeOrConstParamData]
        ensures { result.now ≡ self.now.type_or_consts }
    {
        self.type_or_consts.as_slice()
    }

    /// The lifetime parameters, in order.
    pub fn lifetimes(&self) -> &[LifetimeParamData]
        ensures { result.now ≡ self.now.lifetimes }
    {
        self.lifetimes.as_slice()
    }

    /// The predicates, in order.
    pub fn where_predicates(&self) -> &[WherePredicate]
        ensures { result.now ≡ self.now.where_predicates }
    {
        self.where_predicates.as_slice()
    }

    /// The type or constant parameter at that place.
    pub fn type_or_const(&self, id: LocalTypeOrConstParamId) -> Option<&TypeOrConstParamData>
        ensures { option_copied result ≡ slice_get self.now.type_or_consts id.0 }
    {
        self.type_or_consts.get(id.0 as usize)
    }

    /// The lifetime parameter at that place.
    pub fn lifetime(&self, id: LocalLifetimeParamId) -> Option<&LifetimeParamData>
        ensures { option_copied result ≡ slice_get self.now.lifetimes id.0 }
    {
        self.lifetimes.get(id.0 as usize)
    }

    /// The first type parameter of that name, as one of `parent`. None where there is none, or none below 4294967296.
    pub fn find_type_by_name(&self, name: &Name, parent: GenericDefId) -> Option<TypeParamId>
        ensures { result ≡ type_found parent (position_from (is_type_called name.now) 0 self.now.type_or_consts) }
    {
        let at = type_place(self.type_or_consts.as_slice(), name)?;
        if at > u32::MAX as usize {
            return None;
        }
        let local_id = LocalTypeOrConstParamId(at as u32);
        Some(TypeParamId { parent, local_id })
    }

    /// The first lifetime parameter of that name, as one of `parent`. None where there is none, or none below 4294967296.
    pub fn find_lifetime_by_name(
        &self,
        name: &Name,
        parent: GenericDefId,
    ) -> Option<LifetimeParamId>
        ensures { result ≡ lifetime_found parent (position_from (is_called name.now) 0 self.now.lifetimes) }
    {
        let at = lifetime_place(self.lifetimes.as_slice(), name)?;
        if at > u32::MAX as usize {
            return None;
        }
        let local_id = LocalLifetimeParamId(at as u32);
        Some(LifetimeParamId { parent, local_id })
    }

    /// The place of a trait's `Self`, which is the first parameter.
    pub fn trait_self_param(&self) -> Option<LocalTypeOrConstParamId>
        ensures { result ≡ own_self self.now.type_or_consts }
    {
        match self.type_or_consts.get(0)?.type_param()?.provenance {
            TypeParamProvenance::TraitSelf => Some(LocalTypeOrConstParamId(0)),
            _ => None,
        }
    }
}

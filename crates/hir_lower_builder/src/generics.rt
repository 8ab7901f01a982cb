//! What is noted beside what is stored: parameters, what must hold of types, and the names of lifetimes.

ghost use Rattle.std.specs.Prelude.{◌≡◌, ◌++◌, OnOk, drop, option_copied};
ghost use Rattle.hir_lower_scope.specs.NameSets.{with_names};
ghost use Rattle.hir_lower_builder.specs.Generics.{names_at, first_chosen, lifetime_names, name_of, no_side_output, predicates_of};

use crate::store_sink::StoreSink;
use hir_base::Seq;
use hir_lower_scope::lifetimes::NamedLifetimeStore;
use hir_lower_scope::name_set::{NameKeys, NameSet};
use hir_store::generics::{LifetimeParamData, TypeOrConstParamData, WherePredicate};
use hir_store::ids::TypeRefId;
use hir_store::path::GenericArg;
use hir_store::type_ref::{LifetimeRef, TypeBound};
use std::alloc::{AllocError, Global};

/// The generic parameters of an item, in the making.
#[derive(Drop)]
pub struct GenericLists {
    pub type_or_consts: Seq<TypeOrConstParamData>,
    pub lifetimes: Seq<LifetimeParamData>,
    pub where_predicates: Seq<WherePredicate>,
}

/// What lowering notes beside what it stores: what is generic, and the lifetimes that are named.
#[derive(Drop)]
pub struct SideOutput {
    pub generics: GenericLists,
    pub named: NamedLifetimeStore,
}

impl SideOutput {
    /// Nothing is noted. The key is that by which names are hashed. It takes no memory.
    pub fn new(alloc: Global, hash_key: u128) -> SideOutput
        ensures { result ≡ no_side_output }
    {
        SideOutput {
            generics: GenericLists {
                type_or_consts: Seq::new(alloc),
                lifetimes: Seq::new(alloc),
                where_predicates: Seq::new(alloc),
            },
            named: NamedLifetimeStore::new(alloc, NameKeys::new(hash_key)),
        }
    }
}

impl GenericLists {
    /// A predicate for each of these bounds of a type, behind those that there are.
    #[inline(never)]
    pub(crate) fn push_bounds(
        &mut self,
        target: TypeRefId,
        mut left: &[TypeBound],
    ) -> Result<(), AllocError>
        ensures { OnOk result (self.new
            ≡ record self.old { where_predicates = self.old.where_predicates ++ predicates_of target left.entry.now }) }
    {
        while let [one, rest @ ..] = left {
            let bound = one.clone()?;
            self.where_predicates.push(WherePredicate::TypeBound {
                lifetimes: None,
                target,
                bound,
            })?;
            left = rest;
        }
        Ok(())
    }
}

/// Notes the name of a lifetime that is there and has one, where the first flag is set.
fn push_first(
    names: &mut NameSet,
    flags: &[bool],
    lifetime: Option<&LifetimeRef>,
) -> Result<(), AllocError>
    ensures { OnOk result (names.new ≡ with_names names.old (first_chosen flags.now (name_of (option_copied lifetime.entry)))) }
{
    match (flags, lifetime) {
        ([true, ..], Some(LifetimeRef::Named(name))) => names.insert(name),
        _ => Ok(()),
    }
}

/// The flags behind the first.
fn behind_first(flags: &[bool]) -> &[bool]
    ensures { result.now ≡ drop 1 flags.now }
{
    match flags {
        [] => flags,
        [_, rest @ ..] => rest,
    }
}

/// Notes the names of the lifetimes among arguments whose flags are set, each behind those that there are, if it is none of them.
#[tactic(auto, using(crate::proofs::Chosen::next_chosen))]
pub(crate) fn push_chosen<I: StoreSink>(
    names: &mut NameSet,
    store: &I,
    mut flags: &[bool],
    mut left: &[GenericArg],
) -> Result<(), AllocError>
    ensures { OnOk result (names.new
        ≡ with_names names.old (names_at flags.entry.now (lifetime_names (I.held store.now).lifetimes.entries left.entry.now))) }
{
    while let [one, rest @ ..] = left {
        if let GenericArg::Lifetime(id) = one {
            push_first(names, flags, store.lifetime(*id))?;
            flags = behind_first(flags);
        }
        left = rest;
    }
    Ok(())
}

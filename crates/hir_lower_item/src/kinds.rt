//! When a lifetime parameter is given, and the parameters that an item is answered with.

ghost use Rattle.std.specs.Prelude.{◌≡◌, IfOk, map};
ghost use Rattle.spec_data.specs.Kinds.{is_early};
ghost use Rattle.hir_lower_item.specs.Kinds as spec;
ghost use Rattle.hir_lower_item.specs.Kinds.{named_sets};

use hir_lower_builder::generics::{GenericLists, SideOutput};
use hir_lower_scope::lifetimes::NamedLifetimeStore;
use hir_store::generics::{GenericParams, LifetimeBoundType, LifetimeParamData};
use hir_store::name::Name;
use hir_syntax::Seq;
use std::alloc::{AllocError, Global};

/// Whether a bound names the lifetime, or what is returned does and no argument constrains it.
fn is_early(named: &NamedLifetimeStore, name: &Name) -> bool
    ensures { result ≡ is_early (named_sets named.now) name.now }
{
    named.where_clause.contains(name)
        || (named.output.contains(name) && !named.constrained_by_input.contains(name))
}

fn of_kind(
    named: &NamedLifetimeStore,
    param: &LifetimeParamData,
) -> Result<LifetimeParamData, AllocError>
    ensures { IfOk result (λ p. p ≡ spec.of_kind named.now param.now) }
{
    let name = param.name.clone()?;
    let bound_type = if is_early(named, &param.name) {
        LifetimeBoundType::EarlyBound
    } else {
        LifetimeBoundType::LateBound
    };
    Ok(LifetimeParamData { name, bound_type })
}

#[tactic(auto, using(crate::proofs::Kinded::one_done, crate::proofs::Kinded::all_done))]
fn each_of_kind(
    alloc: Global,
    named: &NamedLifetimeStore,
    mut left: &[LifetimeParamData],
) -> Result<Seq<LifetimeParamData>, AllocError>
    ensures { IfOk result (λ ps. ps ≡ map (spec.of_kind named.now) left.entry.now) }
{
    let mut done = Seq::new(alloc);
    while let [one, rest @ ..] = left {
        done.push(of_kind(named, one)?)?;
        left = rest;
    }
    Ok(done)
}

/// The parameters of a function: a lifetime is late bound unless a bound names it, or what is returned does and no argument constrains it.
pub fn of_kinds(alloc: Global, tracks: SideOutput) -> Result<GenericLists, AllocError>
    ensures { IfOk result (λ g. g ≡ spec.of_kinds tracks) }
{
    let SideOutput { generics, named } = tracks;
    let GenericLists {
        type_or_consts,
        lifetimes,
        where_predicates,
    } = generics;
    let lifetimes = each_of_kind(alloc, &named, lifetimes.as_slice())?;
    Ok(GenericLists {
        type_or_consts,
        lifetimes,
        where_predicates,
    })
}

/// What is answered of parameters in the making.
pub fn finished(generics: GenericLists) -> GenericParams
    ensures { result ≡ spec.finished generics }
{
    let GenericLists {
        type_or_consts,
        lifetimes,
        where_predicates,
    } = generics;
    GenericParams::new(type_or_consts, lifetimes, where_predicates)
}

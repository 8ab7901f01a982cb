//! What generic parameters answer of themselves, and what a visitor of stored types is handed.

ghost use Rattle.std.specs.Prelude.{◌+◌, min, not};
ghost use Rattle.hir_store.specs.declared.path.AssociatedTypeBinding.TheViews.{out-GenericArgs};

use hir_base::{Seq, Text};
use hir_store::Either;
use hir_store::builder::ExpressionStoreBuilder;
use hir_store::error::StoreError;
use hir_store::generics::{
    GenericParams, LifetimeBoundType, LifetimeParamData, TypeOrConstParamData, TypeParamData,
    TypeParamProvenance, WherePredicate,
};
use hir_store::hir::Mutability;
use hir_store::ids::{FunctionId, GenericDefId, LifetimeRefId, LocalLifetimeParamId, TypeRefId};
use hir_store::name::Name;
use hir_store::path::{GenericArg, GenericArgs, GenericArgsParentheses};
use hir_store::type_ref::{LifetimeRef, RefType, TypeBound, TypeRef};
use hir_store::visit::{StoreVisitor, visit_asked, visit_type_ref_children};
use std::alloc::{AllocError, Global};
use std::test::Fail;

const DEF: GenericDefId = GenericDefId::FunctionId(FunctionId(3));

fn named(alloc: Global, text: &str) -> Result<Name, AllocError> {
    Ok(Name::Text(Text::new(alloc, text)?))
}

fn type_param(name: Option<Name>, provenance: TypeParamProvenance) -> TypeOrConstParamData {
    TypeOrConstParamData::TypeParamData(TypeParamData {
        name,
        default: None,
        provenance,
    })
}

fn lifetime_param(name: Name, bound_type: LifetimeBoundType) -> LifetimeParamData {
    LifetimeParamData { name, bound_type }
}

/// `<'a, 'b, T, impl ..>` with one predicate on the type 1 and one on the lifetime 0; `'b` is late bound.
fn params(alloc: Global) -> Result<GenericParams, AllocError> {
    let mut types = Seq::new(alloc);
    types.push(type_param(None, TypeParamProvenance::ArgumentImplTrait))?;
    types.push(type_param(Some(named(alloc, "T")?), TypeParamProvenance::TypeParamList))?;
    let mut lifetimes = Seq::new(alloc);
    lifetimes.push(lifetime_param(named(alloc, "'a")?, LifetimeBoundType::EarlyBound))?;
    lifetimes.push(lifetime_param(named(alloc, "'b")?, LifetimeBoundType::LateBound))?;
    let mut predicates = Seq::new(alloc);
    predicates.push(WherePredicate::TypeBound {
        lifetimes: None,
        target: TypeRefId(1),
        bound: TypeBound::Error,
    })?;
    predicates.push(WherePredicate::Lifetime {
        target: LifetimeRefId(0),
        bound: LifetimeRefId(1),
    })?;
    Ok(GenericParams::new(types, lifetimes, predicates))
}

/// What is found of each name: the places of lifetimes, and then those of types.
type Found = ([Option<u32>; 2], [Option<u32>; 2]);

fn lifetime_place(made: &GenericParams, name: &Name) -> Option<u32> {
    Some(made.find_lifetime_by_name(name, DEF)?.local_id.0)
}

fn type_place(made: &GenericParams, name: &Name) -> Option<u32> {
    Some(made.find_type_by_name(name, DEF)?.local_id.0)
}

fn found(alloc: Global, made: &GenericParams) -> Result<Found, AllocError> {
    let late = named(alloc, "'b")?;
    let ty = named(alloc, "T")?;
    let lifetimes = [lifetime_place(made, &late), lifetime_place(made, &ty)];
    let types = [type_place(made, &late), type_place(made, &ty)];
    Ok((lifetimes, types))
}

#[test]
fn parameters_are_found_by_name(rt: HostRuntime) -> Result<(), Fail> {
    let alloc = rt.alloc();
    let made = params(alloc)?.clone()?;
    let (lifetimes, types) = found(alloc, &made)?;
    let early = made.early_bound_lifetimes_len;
    let own_self = made.trait_self_param();
    let late = made
        .lifetime(LocalLifetimeParamId(1))
        .is_some_and(|it| !it.is_early_bound());
    drop(made);
    assert!(rt; lifetimes == [Some(1), None]);
    assert!(rt; types == [None, Some(1)]);
    assert!(rt; early == 1);
    assert!(rt; own_self.is_none());
    assert!(rt; late);
    Ok(())
}

#[test]
fn a_predicate_emits_its_target(rt: HostRuntime) -> Result<(), Fail> {
    let made = params(rt.alloc())?;
    let all = made.where_predicates();
    let targets = [
        all.first().map(|it| it.target()),
        all.last().map(|it| it.target()),
    ];
    drop(made);
    assert!(rt;
        targets
            == [
                Some(Either::Left(TypeRefId(1))),
                Some(Either::Right(LifetimeRefId(0)))
            ]
    );
    Ok(())
}

/// How many types and lifetimes it was handed, and how often it was asked of arguments, each up to 4294967295.
#[derive(Clone, Copy, PartialEq, Eq)]
struct Counter {
    types: u32,
    lifetimes: u32,
    asked: u32,
}

impl StoreVisitor for Counter {
    ghost after_type = { λ v t. record v { types = min (v.types + 1) 4294967295 } };

    ghost after_lifetime = { λ v l. record v { lifetimes = min (v.lifetimes + 1) 4294967295 } };

    ghost after_args = { λ v a. record v { asked = min (v.asked + 1) 4294967295 } };

    ghost enters = { λ v a. not (out-GenericArgs a).has_self_type };

    fn on_type(&mut self, _id: TypeRefId) -> Result<(), StoreError> {
        self.types = self.types.saturating_add(1);
        Ok(())
    }

    fn on_lifetime(&mut self, _id: LifetimeRefId) -> Result<(), StoreError> {
        self.lifetimes = self.lifetimes.saturating_add(1);
        Ok(())
    }

    /// Not those that carry `Self`. It counts how often it is asked.
    fn on_generic_args(&mut self, args: &GenericArgs) -> Result<bool, StoreError> {
        self.asked = self.asked.saturating_add(1);
        Ok(!args.has_self_type)
    }
}

/// Stores a type, a lifetime, and a reference of both.
fn store_reference(builder: &mut ExpressionStoreBuilder) -> Result<TypeRefId, StoreError> {
    let ty = builder.alloc_type(TypeRef::Never, None)?;
    let lifetime = builder.alloc_lifetime(LifetimeRef::Static, None)?;
    let whole = TypeRef::Reference(RefType {
        ty,
        lifetime: Some(lifetime),
        mutability: Mutability::Shared,
    });
    builder.alloc_type(whole, None)
}

#[test]
fn a_visitor_is_handed_what_a_type_names(rt: HostRuntime) -> Result<(), Fail> {
    let mut builder = ExpressionStoreBuilder::new(rt.alloc(), 3);
    let stored = store_reference(&mut builder);
    let (store, source_map) = builder.finish();
    let mut counter = Counter {
        types: 0,
        lifetimes: 0,
        asked: 0,
    };
    let of_none = visit_type_ref_children(&store, TypeRefId(2), &mut counter);
    let nothing = counter;
    let of_reference = visit_type_ref_children(&store, TypeRefId(1), &mut counter);
    drop(source_map);
    drop(store);
    assert!(rt; stored == Ok(TypeRefId(1)));
    assert!(rt; of_none == Ok(()) && of_reference == Ok(()));
    assert!(rt; nothing.types == 0 && nothing.lifetimes == 0);
    assert!(rt; counter.types == 1 && counter.lifetimes == 1);
    Ok(())
}

/// What is handed of arguments that are one type, or the same behind a type for `Self`.
fn handed(alloc: Global, own: bool) -> Result<Counter, StoreError> {
    let mut counter = Counter {
        types: 0,
        lifetimes: 0,
        asked: 0,
    };
    let mut args = Seq::new(alloc);
    args.push(GenericArg::Type_(TypeRefId(0)))?;
    let written = GenericArgs::new(args, Seq::new(alloc), GenericArgsParentheses::No);
    if own {
        let all = GenericArgs::with_self(alloc, Some(written), TypeRefId(1))?;
        visit_asked(&mut counter, &all)?;
    } else {
        visit_asked(&mut counter, &written)?;
    }
    Ok(counter)
}

#[test]
fn a_visitor_says_which_arguments_follow(rt: HostRuntime) -> Result<(), Fail> {
    let alloc = rt.alloc();
    let plain = handed(alloc, false);
    let own = handed(alloc, true);
    assert!(rt; plain.is_ok_and(|it| it.types == 1 && it.asked == 1));
    assert!(rt; own.is_ok_and(|it| it.types == 0 && it.asked == 1));
    Ok(())
}

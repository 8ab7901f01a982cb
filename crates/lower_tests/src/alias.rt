//! Aliases: which lifetime parameters a type names, by calls, and asked of an object.

ghost use Rattle.std.specs.Prelude.{IfOk};
ghost use Rattle.hir_store.specs.Range.{HasType};

use crate::documents::{AskOfDocument, Said, own_if, said_of};
use crate::paths::EMPTY;
use hir_alias::signature::AliasSignature;
use hir_alias::visitor::Visitor;
use hir_base::{Seq, Text};
use hir_env::env::LowerEnv;
use hir_store::builder::ExpressionStoreBuilder;
use hir_store::error::StoreError;
use hir_store::generics::{GenericParams, LifetimeBoundType, LifetimeParamData};
use hir_store::hir::Mutability;
use hir_store::ids::{TypeAliasId, TypeRefId};
use hir_store::name::Name;
use hir_store::type_ref::{LifetimeRef, RefType, TypeRef};
use hir_tables::table::TableEnv;
use lower_json::document::{Document, Root};
use std::alloc::{AllocError, Global};

fn name(alloc: Global, text: &str) -> Result<Name, AllocError> {
    Ok(Name::Text(Text::new(alloc, text)?))
}

/// Lifetime parameters of these names.
fn params(alloc: Global, names: &[&str]) -> Result<GenericParams, AllocError> {
    let mut lifetimes = Seq::new(alloc);
    for text in names {
        lifetimes.push(LifetimeParamData {
            name: name(alloc, text)?,
            bound_type: LifetimeBoundType::EarlyBound,
        })?;
    }
    Ok(GenericParams::new(Seq::new(alloc), lifetimes, Seq::new(alloc)))
}

/// Of the first three places, whether the type names the parameter there.
type Named = [bool; 3];

fn flags(alias: &AliasSignature) -> Named {
    [
        alias.is_constrained(0),
        alias.is_constrained(1),
        alias.is_constrained(2),
    ]
}

/// Stores `()`, and `&'b ()`, whose number is answered.
fn store_reference(
    alloc: Global,
    builder: &mut ExpressionStoreBuilder,
) -> Result<TypeRefId, StoreError>
    ensures { IfOk result (λ ty. HasType builder.new ty) }
{
    let ty = builder.alloc_type(TypeRef::Tuple(Seq::new(alloc)), None)?;
    let lifetime = builder.alloc_lifetime(LifetimeRef::Named(name(alloc, "'b")?), None)?;
    let reference = RefType {
        ty,
        lifetime: Some(lifetime),
        mutability: Mutability::Shared,
    };
    builder.alloc_type(TypeRef::Reference(reference), None)
}

/// An alias with parameters of these names, whose type is that of this number in a store of `()`, which is the first, and `&'b ()`.
fn alias_of(
    alloc: Global,
    names: &[&str],
    ty: Option<TypeRefId>,
) -> Result<AliasSignature, StoreError> {
    let mut builder = ExpressionStoreBuilder::new(alloc, 2);
    store_reference(alloc, &mut builder)?;
    let (store, source_map) = builder.finish();
    drop(source_map);
    AliasSignature::new(alloc, store, params(alloc, names)?, ty)
}

fn named_by(alloc: Global, names: &[&str], ty: Option<TypeRefId>) -> Result<Named, StoreError> {
    let alias = alias_of(alloc, names, ty)?;
    Ok(flags(&alias))
}

#[test]
fn a_reference_names_its_lifetime(rt: HostRuntime) {
    let reference = Some(TypeRefId(1));
    assert!(rt; named_by(rt.alloc(), &["'a", "'b"], reference) == Ok([false, true, false]));
}

#[test]
fn of_one_name_the_first_parameter_is_named(rt: HostRuntime) {
    let reference = Some(TypeRefId(1));
    assert!(rt; named_by(rt.alloc(), &["'b", "'b"], reference) == Ok([true, false, false]));
}

#[test]
fn no_other_type_is_looked_at(rt: HostRuntime) {
    let unit = Some(TypeRefId(0));
    assert!(rt; named_by(rt.alloc(), &["'a", "'b"], unit) == Ok([false; 3]));
    assert!(rt; named_by(rt.alloc(), &["'a", "'b"], None) == Ok([false; 3]));
}

#[test]
fn a_number_past_the_end_names_nothing(rt: HostRuntime) {
    let past = Some(TypeRefId(2));
    assert!(rt; named_by(rt.alloc(), &["'a", "'b"], past) == Ok([false; 3]));
    let last = Some(TypeRefId(u32::MAX));
    assert!(rt; named_by(rt.alloc(), &["'a", "'b"], last) == Ok([false; 3]));
}

/// Stores a pair of a type and itself.
fn pair(
    alloc: Global,
    builder: &mut ExpressionStoreBuilder,
    ty: TypeRefId,
) -> Result<TypeRefId, StoreError>
    requires { HasType builder.old ty }
    ensures { IfOk result (λ pair. HasType builder.new pair) }
{
    let fields = Seq::from_slice(alloc, &[ty, ty])?;
    builder.alloc_type(TypeRef::Tuple(fields), None)
}

/// A pair of pairs, four times.
fn pairs(
    alloc: Global,
    builder: &mut ExpressionStoreBuilder,
    ty: TypeRefId,
) -> Result<TypeRefId, StoreError>
    requires { HasType builder.old ty }
    ensures { IfOk result (λ pair. HasType builder.new pair) }
{
    let once = pair(alloc, builder, ty)?;
    let twice = pair(alloc, builder, once)?;
    let again = pair(alloc, builder, twice)?;
    pair(alloc, builder, again)
}

/// The same, sixteen times.
fn more_pairs(
    alloc: Global,
    builder: &mut ExpressionStoreBuilder,
    ty: TypeRefId,
) -> Result<TypeRefId, StoreError>
    requires { HasType builder.old ty }
    ensures { IfOk result (λ pair. HasType builder.new pair) }
{
    let once = pairs(alloc, builder, ty)?;
    let twice = pairs(alloc, builder, once)?;
    let again = pairs(alloc, builder, twice)?;
    pairs(alloc, builder, again)
}

/// The same, 64 times: written out, the type has more than a million million million references.
fn pairs_named(alloc: Global) -> Result<Named, StoreError> {
    let mut builder = ExpressionStoreBuilder::new(alloc, 66);
    let reference = store_reference(alloc, &mut builder)?;
    let once = more_pairs(alloc, &mut builder, reference)?;
    let twice = more_pairs(alloc, &mut builder, once)?;
    let again = more_pairs(alloc, &mut builder, twice)?;
    let last = more_pairs(alloc, &mut builder, again)?;
    let (store, source_map) = builder.finish();
    drop(source_map);
    let alias = AliasSignature::new(alloc, store, params(alloc, &["'a", "'b"])?, Some(last))?;
    Ok(flags(&alias))
}

#[test]
fn a_type_is_gone_into_once(rt: HostRuntime) {
    assert!(rt; pairs_named(rt.alloc()) == Ok([false, true, false]));
}

/// What a visitor says before and after it walks.
fn walked(alloc: Global) -> Result<(bool, bool, bool), StoreError> {
    let alias = alias_of(alloc, &["'b"], Some(TypeRefId(1)))?;
    let mut visitor = Visitor::new(&alias);
    let before = visitor.is_constrained(0);
    visitor.walk()?;
    Ok((before, visitor.is_constrained(0), visitor.is_constrained(1)))
}

#[test]
fn a_visitor_says_what_it_met(rt: HostRuntime) {
    assert!(rt; walked(rt.alloc()) == Ok((false, true, false)));
}

/// What an object answers of the alias of a number, where the first of two answers for number 3 is `&'b ()`.
#[derive(Clone, Copy)]
struct Answers {
    id: TypeAliasId,
    named: Option<Named>,
}

fn set_both(alloc: Global, tables: &mut TableEnv) -> Result<(), StoreError> {
    let first = alias_of(alloc, &["'b"], Some(TypeRefId(1)))?;
    tables.set_alias(TypeAliasId(3), first)?;
    let second = alias_of(alloc, &["'b"], None)?;
    tables.set_alias(TypeAliasId(3), second)?;
    Ok(())
}

fn named_by_object(object: &dyn LowerEnv, id: TypeAliasId) -> Option<Named> {
    Some(flags(object.alias(id)?))
}

impl AskOfDocument for Answers {
    fn said(&self, alloc: Global, document: &mut Document) -> Said {
        match set_both(alloc, &mut document.env) {
            Ok(()) => own_if(named_by_object(&document.env, self.id) == self.named),
            Err(_) => Said::Memory,
        }
    }
}

#[test]
fn an_object_answers_of_aliases(rt: HostRuntime) {
    let alloc = rt.alloc();
    let third = Answers {
        id: TypeAliasId(3),
        named: Some([true, false, false]),
    };
    assert!(rt; said_of(alloc, Root::Path, EMPTY, &third) == Said::Own);
    let none = Answers {
        id: TypeAliasId(0),
        named: None,
    };
    assert!(rt; said_of(alloc, Root::Path, EMPTY, &none) == Said::Own);
}

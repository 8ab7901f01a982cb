//! Visitors of stored types.

ghost use Rattle.std.specs.Prelude.{◌≡◌, Bool, IfOk, slice_get};
ghost use Rattle.hir_store.specs.declared.ids.TypeRefId.{TypeRefId as TypeNumber};
ghost use Rattle.hir_store.specs.declared.ids.LifetimeRefId.{LifetimeRefId as LifetimeNumber};
ghost use Rattle.hir_store.specs.declared.path.GenericArgs.{GenericArgs as ArgsValue};
ghost use Rattle.hir_store.specs.Parts.{of_args, of_binding, of_bound, of_each, of_present, of_path, inside_args, parts, parts_found};
ghost use Rattle.hir_store.specs.Parts as spec;
ghost use Rattle.hir_store.specs.Handed.{handed};

use crate::error::StoreError;
use crate::ids::{LifetimeRefId, TypeRefId};
use crate::path::{AssociatedTypeBinding, GenericArg, GenericArgs, NormalPath, Path};
use crate::store::ExpressionStore;
use crate::type_ref::{TypeBound, TypeRef, UseArgRef};

/// What is handed the direct parts of a stored type. None of its calls goes on by itself.
pub trait StoreVisitor {
    /// What it is after a type, after a lifetime, and after arguments, before what these hold follows.
    ghost after_type: { Self → TypeNumber → Self };

    ghost after_lifetime: { Self → LifetimeNumber → Self };

    ghost after_args: { Self → ArgsValue → Self };

    /// Which arguments it goes into, by what it is when it is asked.
    ghost enters: { Self → ArgsValue → Bool };

    fn on_type(&mut self, id: TypeRefId) -> Result<(), StoreError>
        ensures { IfOk result (λ _. self.new ≡ after_type self.old id) };

    fn on_lifetime(&mut self, id: LifetimeRefId) -> Result<(), StoreError>
        ensures { IfOk result (λ _. self.new ≡ after_lifetime self.old id) };

    /// Whether the parts of the arguments follow.
    fn on_generic_args(&mut self, args: &GenericArgs) -> Result<bool, StoreError>
        ensures answer { IfOk result (λ b. b ≡ enters self.old args.now) }
        ensures after { IfOk result (λ b. self.new ≡ after_args self.old args.now) };
}

fn visit_types<V: StoreVisitor>(visitor: &mut V, mut left: &[TypeRefId]) -> Result<(), StoreError>
    ensures { IfOk result (λ _. visitor.new
        ≡ handed V.after_type V.after_lifetime V.after_args V.enters (of_each spec.of_type left.entry.now) visitor.old) }
{
    while let [one, rest @ ..] = left {
        visitor.on_type(*one)?;
        left = rest;
    }
    Ok(())
}

fn visit_arg<V: StoreVisitor>(visitor: &mut V, arg: GenericArg) -> Result<(), StoreError>
    ensures { IfOk result (λ _. visitor.new ≡ handed V.after_type V.after_lifetime V.after_args V.enters (spec.of_arg arg) visitor.old) }
{
    match arg {
        GenericArg::Type_(id) => visitor.on_type(id),
        GenericArg::Lifetime(id) => visitor.on_lifetime(id),
        GenericArg::Const(_) => Ok(()),
    }
}

#[tactic(auto, using(crate::proofs::Handed::handed_append))]
fn visit_each_arg<V: StoreVisitor>(
    visitor: &mut V,
    mut left: &[GenericArg],
) -> Result<(), StoreError>
    ensures { IfOk result (λ _. visitor.new
        ≡ handed V.after_type V.after_lifetime V.after_args V.enters (of_each spec.of_arg left.entry.now) visitor.old) }
{
    while let [one, rest @ ..] = left {
        visit_arg(visitor, *one)?;
        left = rest;
    }
    Ok(())
}

fn visit_uses<V: StoreVisitor>(visitor: &mut V, mut left: &[UseArgRef]) -> Result<(), StoreError>
    ensures { IfOk result (λ _. visitor.new
        ≡ handed V.after_type V.after_lifetime V.after_args V.enters (of_each spec.of_use left.entry.now) visitor.old) }
{
    while let [one, rest @ ..] = left {
        match one {
            UseArgRef::Name(_) => {}
            UseArgRef::Lifetime(id) => visitor.on_lifetime(*id)?,
        }
        left = rest;
    }
    Ok(())
}

fn visit_bound<V: StoreVisitor>(visitor: &mut V, bound: &TypeBound) -> Result<(), StoreError>
    ensures { IfOk result (λ _. visitor.new
        ≡ handed V.after_type V.after_lifetime V.after_args V.enters (of_bound bound.now) visitor.old) }
{
    match bound {
        TypeBound::Path(id, _) => visitor.on_type(*id),
        TypeBound::ForLifetime(_, id) => visitor.on_type(*id),
        TypeBound::Lifetime(id) => visitor.on_lifetime(*id),
        TypeBound::Use(args) => visit_uses(visitor, args.as_slice()),
        TypeBound::Error => Ok(()),
    }
}

#[tactic(auto, using(crate::proofs::Handed::each_next))]
fn visit_bounds<V: StoreVisitor>(visitor: &mut V, bounds: &[TypeBound]) -> Result<(), StoreError>
    ensures { IfOk result (λ _. visitor.new
        ≡ handed V.after_type V.after_lifetime V.after_args V.enters (of_each of_bound bounds.now) visitor.old) }
{
    for bound in bounds {
        visit_bound(visitor, bound)?;
    }
    Ok(())
}

fn visit_type_option<V: StoreVisitor>(
    visitor: &mut V,
    id: Option<TypeRefId>,
) -> Result<(), StoreError>
    ensures { IfOk result (λ _. visitor.new
        ≡ handed V.after_type V.after_lifetime V.after_args V.enters (of_present spec.of_type id) visitor.old) }
{
    match id {
        None => Ok(()),
        Some(id) => visitor.on_type(id),
    }
}

fn visit_lifetime_option<V: StoreVisitor>(
    visitor: &mut V,
    id: Option<LifetimeRefId>,
) -> Result<(), StoreError>
    ensures { IfOk result (λ _. visitor.new
        ≡ handed V.after_type V.after_lifetime V.after_args V.enters (of_present spec.of_lifetime id) visitor.old) }
{
    match id {
        None => Ok(()),
        Some(id) => visitor.on_lifetime(id),
    }
}

/// Hands on the parts of arguments: types and lifetimes, and of those bindings that it goes into theirs.
#[cycle(visit)]
#[tactic(auto, using(crate::proofs::Handed::handed_append, crate::proofs::PartLemmas::inside_out))]
pub fn visit_generic_args<V: StoreVisitor>(
    visitor: &mut V,
    args: &GenericArgs,
) -> Result<(), StoreError>
    ensures { IfOk result (λ _. visitor.new
        ≡ handed V.after_type V.after_lifetime V.after_args V.enters (inside_args args.now) visitor.old) }
{
    visit_each_arg(visitor, args.args.as_slice())?;
    visit_bindings(visitor, args.bindings.as_slice())
}

/// Asks whether the parts of arguments follow.
#[cycle(visit)]
pub fn visit_asked<V: StoreVisitor>(visitor: &mut V, args: &GenericArgs) -> Result<(), StoreError>
    ensures { IfOk result (λ _. visitor.new ≡ handed V.after_type V.after_lifetime V.after_args V.enters (of_args args.now) visitor.old) }
{
    if visitor.on_generic_args(args)? {
        visit_generic_args(visitor, args)?;
    }
    Ok(())
}

#[cycle(visit)]
#[tactic(auto, using(crate::proofs::Handed::each_next))]
fn visit_bindings<V: StoreVisitor>(
    visitor: &mut V,
    bindings: &[AssociatedTypeBinding],
) -> Result<(), StoreError>
    ensures { IfOk result (λ _. visitor.new
        ≡ handed V.after_type V.after_lifetime V.after_args V.enters (of_each of_binding bindings.now) visitor.old) }
{
    for binding in bindings {
        visit_binding(visitor, binding)?;
    }
    Ok(())
}

#[cycle(visit)]
#[tactic(auto, using(crate::proofs::Handed::handed_append, crate::proofs::PartLemmas::binding_out))]
fn visit_binding<V: StoreVisitor>(
    visitor: &mut V,
    binding: &AssociatedTypeBinding,
) -> Result<(), StoreError>
    ensures { IfOk result (λ _. visitor.new
        ≡ handed V.after_type V.after_lifetime V.after_args V.enters (of_binding binding.now) visitor.old) }
{
    if let Some(args) = &binding.args {
        visit_asked(visitor, args)?;
    }
    visit_type_option(visitor, binding.type_ref)?;
    visit_bounds(visitor, binding.bounds.as_slice())
}

fn visit_args_option<V: StoreVisitor>(
    visitor: &mut V,
    args: &Option<GenericArgs>,
) -> Result<(), StoreError>
    ensures { IfOk result (λ _. visitor.new
        ≡ handed V.after_type V.after_lifetime V.after_args V.enters (of_present of_args args.now) visitor.old) }
{
    match args {
        None => Ok(()),
        Some(args) => visit_asked(visitor, args),
    }
}

#[tactic(auto, using(crate::proofs::Handed::each_next))]
fn visit_arg_lists<V: StoreVisitor>(
    visitor: &mut V,
    lists: &[Option<GenericArgs>],
) -> Result<(), StoreError>
    ensures { IfOk result (λ _. visitor.new
        ≡ handed V.after_type V.after_lifetime V.after_args V.enters (of_each (of_present of_args) lists.now) visitor.old) }
{
    for list in lists {
        visit_args_option(visitor, list)?;
    }
    Ok(())
}

#[tactic(auto, using(crate::proofs::Handed::handed_append))]
fn visit_normal<V: StoreVisitor>(visitor: &mut V, path: &NormalPath) -> Result<(), StoreError>
    ensures { IfOk result (λ _. visitor.new
        ≡ handed V.after_type V.after_lifetime V.after_args V.enters (of_path (Path.Normal path.now)) visitor.old) }
{
    visit_type_option(visitor, path.type_anchor)?;
    visit_arg_lists(visitor, path.generic_args.as_slice())
}

fn visit_path<V: StoreVisitor>(visitor: &mut V, path: &Path) -> Result<(), StoreError>
    ensures { IfOk result (λ _. visitor.new ≡ handed V.after_type V.after_lifetime V.after_args V.enters (of_path path.now) visitor.old) }
{
    match path {
        Path::BarePath(_) => Ok(()),
        Path::Normal(path) => visit_normal(visitor, path),
        Path::LangItem(_) => Ok(()),
    }
}

#[tactic(auto, using(crate::proofs::Handed::handed_append))]
fn visit_parts<V: StoreVisitor>(visitor: &mut V, ty: &TypeRef) -> Result<(), StoreError>
    ensures { IfOk result (λ _. visitor.new ≡ handed V.after_type V.after_lifetime V.after_args V.enters (parts ty.now) visitor.old) }
{
    match ty {
        TypeRef::Never => Ok(()),
        TypeRef::Placeholder => Ok(()),
        TypeRef::Error => Ok(()),
        TypeRef::Tuple(types) => visit_types(visitor, types.as_slice()),
        TypeRef::Path(path) => visit_path(visitor, path),
        TypeRef::RawPtr(id, _) => visitor.on_type(*id),
        TypeRef::Reference(it) => {
            visitor.on_type(it.ty)?;
            visit_lifetime_option(visitor, it.lifetime)
        }
        TypeRef::Slice(id) => visitor.on_type(*id),
        TypeRef::Array(it) => visitor.on_type(it.ty),
        TypeRef::Fn(it) => visit_types(visitor, it.params.as_slice()),
        TypeRef::ImplTrait(bounds) => visit_bounds(visitor, bounds.as_slice()),
        TypeRef::DynTrait(bounds) => visit_bounds(visitor, bounds.as_slice()),
        TypeRef::Pattern(id, _) => visitor.on_type(*id),
        TypeRef::TypeParam(_) => Ok(()),
    }
}

/// Hands on the direct parts of a type; nothing where the store has none of that number.
pub fn visit_type_ref_children<V: StoreVisitor>(
    store: &ExpressionStore,
    id: TypeRefId,
    visitor: &mut V,
) -> Result<(), StoreError>
    ensures { IfOk result (λ _. visitor.new
        ≡ handed V.after_type V.after_lifetime V.after_args V.enters (parts_found (slice_get store.now.types id.0)) visitor.old) }
{
    match store.type_ref(id) {
        None => Ok(()),
        Some(ty) => visit_parts(visitor, ty),
    }
}

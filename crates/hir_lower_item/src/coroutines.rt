//! What a function answers whose body is a coroutine.

ghost use Rattle.std.specs.Prelude.{◌≡◌, IfOk};
ghost use Rattle.hir_store.specs.Range.{HasType, HasTypeOption};
ghost use Rattle.hir_env.specs.Answering.{coroutine_kind as kind_of};
ghost use Rattle.hir_lower_builder.specs.Lowering.{Lowers};
ghost use Rattle.hir_lower_item.specs.Lower as spec;

use hir_lower_builder::builder::StoredBody;
use hir_store::error::StoreError;
use hir_store::hir::CoroutineKind;
use hir_store::ids::TypeRefId;
use hir_store::name::Name;
use hir_store::path::{
    AssociatedTypeBinding, GenericArgs, GenericArgsParentheses, ModPath, NormalPath, Path, PathKind,
};
use hir_store::type_ref::{TraitBoundModifier, TypeBound, TypeRef};
use hir_syntax::{Seq, Text};
use std::alloc::{AllocError, Global};

/// A name of this text.
fn named(alloc: Global, text: &str) -> Result<Name, AllocError>
    ensures { IfOk result (λ n. n ≡ Name.Text text.now) }
{
    Ok(Name::Text(Text::new(alloc, text)?))
}

/// The names of the trait of a coroutine.
fn trait_names(alloc: Global, kind: CoroutineKind) -> Result<Seq<Name>, AllocError>
    ensures { IfOk result (λ names. names ≡ spec.trait_names kind) }
{
    let (module, name) = match kind {
        CoroutineKind::Async => ("future", "Future"),
        CoroutineKind::Gen => ("iter", "Iterator"),
        CoroutineKind::AsyncGen => ("async_iter", "AsyncIterator"),
    };
    let mut names = Seq::new(alloc);
    names.push(named(alloc, "core")?)?;
    names.push(named(alloc, module)?)?;
    names.push(named(alloc, name)?)?;
    Ok(names)
}

/// The name of the binding for what a coroutine gives.
fn given_name(alloc: Global, kind: CoroutineKind) -> Result<Name, AllocError>
    ensures { IfOk result (λ n. n ≡ spec.given_name kind) }
{
    match kind {
        CoroutineKind::Async => named(alloc, "Output"),
        CoroutineKind::Gen | CoroutineKind::AsyncGen => named(alloc, "Item"),
    }
}

/// The arguments of the last segment: a binding alone, of what the coroutine gives.
fn given_args(
    alloc: Global,
    kind: CoroutineKind,
    given: TypeRefId,
) -> Result<GenericArgs, AllocError>
    ensures { IfOk result (λ a. a ≡ spec.given_args kind given) }
{
    let name = given_name(alloc, kind)?;
    let mut bindings = Seq::new(alloc);
    bindings.push(AssociatedTypeBinding::new(name, None, Some(given), Seq::new(alloc)))?;
    Ok(GenericArgs::new(Seq::new(alloc), bindings, GenericArgsParentheses::No))
}

/// The path of the trait of a coroutine, with the type that it gives.
fn coroutine_path(alloc: Global, kind: CoroutineKind, given: TypeRefId) -> Result<Path, AllocError>
    ensures { IfOk result (λ p. p ≡ spec.coroutine_path kind given) }
{
    let segments = trait_names(alloc, kind)?;
    let args = given_args(alloc, kind, given)?;
    let mut generic_args = Seq::new(alloc);
    generic_args.push(None)?;
    generic_args.push(None)?;
    generic_args.push(Some(args))?;
    Ok(Path::Normal(NormalPath {
        type_anchor: None,
        mod_path: ModPath {
            kind: PathKind::Abs,
            segments,
        },
        generic_args,
    }))
}

/// The type, `()` where there is none.
fn or_unit(
    alloc: Global,
    state: &mut StoredBody,
    ret: Option<TypeRefId>,
) -> Result<TypeRefId, StoreError>
    requires { HasTypeOption state.old.stored ret }
    ensures { Lowers HasType (spec.or_unit ret) state.old result state.new }
{
    match ret {
        None => state.unit_type(alloc),
        Some(ty) => Ok(ty),
    }
}

/// An `impl` of the trait of a coroutine, which gives this type, or `()`.
fn coroutine_form(
    alloc: Global,
    state: &mut StoredBody,
    kind: CoroutineKind,
    ret: Option<TypeRefId>,
) -> Result<TypeRefId, StoreError>
    requires { HasTypeOption state.old.stored ret }
    ensures { Lowers HasType (spec.coroutine_form kind ret) state.old result state.new }
{
    let given = or_unit(alloc, state, ret)?;
    let path = coroutine_path(alloc, kind, given)?;
    let path = state.alloc_type(TypeRef::Path(path), None)?;
    let mut bounds = Seq::new(alloc);
    bounds.push(TypeBound::Path(path, TraitBoundModifier::None))?;
    state.alloc_type(TypeRef::ImplTrait(bounds), None)
}

/// What a function answers, of what is written there and the kind of coroutine that its body is, where it is one.
pub(crate) fn answer_form(
    alloc: Global,
    state: &mut StoredBody,
    kind: Option<CoroutineKind>,
    ret: Option<TypeRefId>,
) -> Result<Option<TypeRefId>, StoreError>
    requires { HasTypeOption state.old.stored ret }
    ensures { Lowers HasTypeOption (spec.answer_form kind ret) state.old result state.new }
{
    match kind {
        None => Ok(ret),
        Some(kind) => Ok(Some(coroutine_form(alloc, state, kind, ret)?)),
    }
}

/// The kind of the coroutine that a body with these words is, where it is one.
pub(crate) fn coroutine_kind(is_async: bool, is_gen: bool) -> Option<CoroutineKind>
    ensures { result ≡ kind_of is_async is_gen }
{
    match (is_async, is_gen) {
        (false, false) => None,
        (true, false) => Some(CoroutineKind::Async),
        (false, true) => Some(CoroutineKind::Gen),
        (true, true) => Some(CoroutineKind::AsyncGen),
    }
}

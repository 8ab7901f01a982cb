//! Types of one form.

ghost use Rattle.std.specs.Prelude.{◌≡◌, None, Some, option_map};
ghost use Rattle.hir_store.specs.Range.{HasConst, HasPathOption, HasType};
ghost use Rattle.hir_store.specs.declared.type_ref.TypeRef.TheVariants as ty;
ghost use Rattle.hir_env.specs.ResolvedTree as tree;
ghost use Rattle.hir_env.specs.Paths.{binder_of, impl_at, lifetime_of, mutability};
ghost use Rattle.hir_env.specs.Paths as of;
ghost use Rattle.hir_env.specs.TypePats.{type_pat_or_none};
ghost use Rattle.hir_lower_builder.specs.Lower as steps;
ghost use Rattle.hir_lower_builder.specs.Lowering.{Lowers, alloc_type};
ghost use Rattle.hir_lower_builder.specs.Methods.{LowersType, LowersTypeOpt, at_place};
ghost use Rattle.hir_lower_builder.specs.Types as steps_of;
ghost use Rattle.hir_lower_builder.specs.Nests.{Unless};

use crate::bounds::BoundsPart;
use crate::lifetimes::{binder, lifetime_if_present};
use crate::part::{ConstPart, TypePart, TypePatPart, TypesPart};
use crate::places::inside_impl;
use hir_base::node::{AstPtr, InFile};
use hir_lower_builder::builder::BodyBuilder;
use hir_lower_builder::parts::{LowerExprs, Lowerer};
use hir_lower_builder::store_sink::StoreSink;
use hir_lower_pat::paths::PathPart;
use hir_store::error::StoreError;
use hir_store::hir::Mutability;
use hir_store::ids::TypeRefId;
use hir_store::path::Path;
use hir_store::type_ref::{ArrayType, ConstRef, RefType, TypeRef};
use hir_syntax::ast;

fn written_mutability(mut_: bool) -> Mutability
    ensures { result ≡ mutability mut_ }
{
    if mut_ {
        Mutability::Mut
    } else {
        Mutability::Shared
    }
}

/// A type without parts, as it is stored.
#[inline(never)]
pub(crate) fn error_form<I: StoreSink>(
    state: &mut BodyBuilder<I>,
    at: InFile<AstPtr>,
) -> Result<TypeRefId, StoreError>
    ensures { Lowers HasType (alloc_type ty.Error (Some at)) state.old result state.new }
{
    state.alloc_type(TypeRef::Error, Some(at))
}

#[inline(never)]
pub(crate) fn never_form<I: StoreSink>(
    state: &mut BodyBuilder<I>,
    at: InFile<AstPtr>,
) -> Result<TypeRefId, StoreError>
    ensures { Lowers HasType (alloc_type ty.Never (Some at)) state.old result state.new }
{
    state.alloc_type(TypeRef::Never, Some(at))
}

#[inline(never)]
pub(crate) fn infer_form<I: StoreSink>(
    state: &mut BodyBuilder<I>,
    at: InFile<AstPtr>,
) -> Result<TypeRefId, StoreError>
    ensures { Lowers HasType (alloc_type ty.Placeholder (Some at)) state.old result state.new }
{
    state.alloc_type(TypeRef::Placeholder, Some(at))
}

/// `for<..> T` is what T is.
#[inline(never)]
pub(crate) fn for_form<I: StoreSink, P: LowerExprs<I>, T: TypePart>(
    lowerer: &Lowerer<P>,
    state: &mut BodyBuilder<I>,
    written: &Option<ast::ForBinder>,
    ty: &T,
) -> Result<TypeRefId, StoreError>
    requires { T.can ((P.can lowerer.now.parts).type_ (P.rctx lowerer.now.parts).place) ty.now }
    ensures { LowersTypeOpt (Some (binder_of written.now)) (T.read (P.rctx lowerer.now.parts) ty.now) state.old result state.new }
{
    let names = Some(binder(lowerer.alloc, written)?);
    ty.lower(lowerer, state, &names)
}

#[tactic(auto, unfolding(hir_lower_builder::specs::Types::over_form))]
#[inline(never)]
pub(crate) fn slice_form<I: StoreSink, P: LowerExprs<I>, T: TypePart>(
    lowerer: &Lowerer<P>,
    state: &mut BodyBuilder<I>,
    at: InFile<AstPtr>,
    ty: &T,
) -> Result<TypeRefId, StoreError>
    requires { T.can ((P.can lowerer.now.parts).type_ (P.rctx lowerer.now.parts).place) ty.now }
    ensures { LowersType None (tree.over_type at tree.slice_of (T.read (P.rctx lowerer.now.parts) ty.now)) state.old result state.new }
{
    let id = ty.lower(lowerer, state, &None)?;
    state.alloc_type(TypeRef::Slice(id), Some(at))
}

#[tactic(auto, unfolding(hir_lower_builder::specs::Types::over_form))]
#[inline(never)]
pub(crate) fn pointer_form<I: StoreSink, P: LowerExprs<I>, T: TypePart>(
    lowerer: &Lowerer<P>,
    state: &mut BodyBuilder<I>,
    at: InFile<AstPtr>,
    mut_: bool,
    ty: &T,
) -> Result<TypeRefId, StoreError>
    requires { T.can ((P.can lowerer.now.parts).type_ (P.rctx lowerer.now.parts).place) ty.now }
    ensures { LowersType None (tree.over_type at (tree.pointer_to (mutability mut_)) (T.read (P.rctx lowerer.now.parts) ty.now))
        state.old result state.new }
{
    let id = ty.lower(lowerer, state, &None)?;
    state.alloc_type(TypeRef::RawPtr(id, written_mutability(mut_)), Some(at))
}

/// An array of this length.
fn array_of_length<I: StoreSink, P: LowerExprs<I>, T: TypePart>(
    lowerer: &Lowerer<P>,
    state: &mut BodyBuilder<I>,
    at: InFile<AstPtr>,
    len: ConstRef,
    ty: &T,
) -> Result<TypeRefId, StoreError>
    requires len { HasConst state.old.stored len }
    requires ty { T.can ((P.can lowerer.now.parts).type_ (P.rctx lowerer.now.parts).place) ty.now }
    ensures { let element = steps.type_part None (T.read (P.rctx lowerer.now.parts) ty.now) in
        Lowers HasType (steps_of.array_of_length at len element) state.old result state.new }
{
    let ty = ty.lower(lowerer, state, &None)?;
    state.alloc_type(TypeRef::Array(ArrayType { ty, len }), Some(at))
}

/// The length before the type of the elements.
#[tactic(auto, unfolding(hir_lower_builder::specs::Types::array_type_form))]
#[inline(never)]
pub(crate) fn array_form<I: StoreSink, P: LowerExprs<I>, T: TypePart, C: ConstPart>(
    lowerer: &Lowerer<P>,
    state: &mut BodyBuilder<I>,
    at: InFile<AstPtr>,
    ty: &T,
    len: &C,
) -> Result<TypeRefId, StoreError>
    requires len { C.can ((P.can lowerer.now.parts).constant (P.rctx lowerer.now.parts).place) len.now }
    requires ty { T.can ((P.can lowerer.now.parts).type_ (P.rctx lowerer.now.parts).place) ty.now }
    ensures { let here = P.rctx lowerer.now.parts in
        LowersType None (tree.array_type at (C.read here len.now) (T.read here ty.now)) state.old result state.new }
{
    let len = len.lower(lowerer, state)?;
    array_of_length(lowerer, state, at, len, ty)
}

/// The type before the lifetime.
#[tactic(auto, unfolding(hir_lower_builder::specs::Types::ref_type_form))]
#[inline(never)]
pub(crate) fn ref_form<I: StoreSink, P: LowerExprs<I>, T: TypePart>(
    lowerer: &Lowerer<P>,
    state: &mut BodyBuilder<I>,
    at: InFile<AstPtr>,
    written: &Option<ast::Lifetime>,
    mut_: bool,
    ty: &T,
) -> Result<TypeRefId, StoreError>
    requires { T.can ((P.can lowerer.now.parts).type_ (P.rctx lowerer.now.parts).place) ty.now }
    ensures { let rctx = P.rctx lowerer.now.parts in
        LowersType None (tree.ref_type at (option_map (lifetime_of rctx.place) written.now) (mutability mut_) (T.read rctx ty.now))
        state.old result state.new }
{
    let ty = ty.lower(lowerer, state, &None)?;
    let lifetime = lifetime_if_present(state, lowerer.parts.place(), written)?;
    let mutability = written_mutability(mut_);
    let form = RefType {
        ty,
        lifetime,
        mutability,
    };
    state.alloc_type(TypeRef::Reference(form), Some(at))
}

#[tactic(auto, unfolding(hir_lower_builder::specs::Types::tuple_type_form))]
#[inline(never)]
pub(crate) fn tuple_form<I: StoreSink, P: LowerExprs<I>, L: TypesPart>(
    lowerer: &Lowerer<P>,
    state: &mut BodyBuilder<I>,
    at: InFile<AstPtr>,
    fields: &L,
) -> Result<TypeRefId, StoreError>
    requires { L.can ((P.can lowerer.now.parts).type_ (P.rctx lowerer.now.parts).place) fields.now }
    ensures { LowersType None (tree.tuple_type at (L.read (P.rctx lowerer.now.parts) fields.now)) state.old result state.new }
{
    let fields = fields.lower_each(lowerer, state)?;
    state.alloc_type(TypeRef::Tuple(fields), Some(at))
}

/// The type that a path is, an error where it is absent or refused.
#[inline(never)]
fn type_of_path<I: StoreSink>(
    state: &mut BodyBuilder<I>,
    at: InFile<AstPtr>,
    path: Option<Path>,
) -> Result<TypeRefId, StoreError>
    requires { HasPathOption state.old.stored path }
    ensures { Lowers HasType (alloc_type (steps_of.path_or_error path) (Some at)) state.old result state.new }
{
    match path {
        None => state.alloc_type(TypeRef::Error, Some(at)),
        Some(path) => state.alloc_type(TypeRef::Path(path), Some(at)),
    }
}

#[tactic(auto, unfolding(hir_lower_builder::specs::Types::path_type_form))]
#[inline(never)]
pub(crate) fn path_form<I: StoreSink, P: LowerExprs<I>, W: PathPart>(
    lowerer: &Lowerer<P>,
    state: &mut BodyBuilder<I>,
    at: InFile<AstPtr>,
    path: &W,
) -> Result<TypeRefId, StoreError>
    requires { W.can ((P.can lowerer.now.parts).path (P.rctx lowerer.now.parts).place) path.now }
    ensures { LowersType None (tree.path_type at (W.read (P.rctx lowerer.now.parts) path.now)) state.old result state.new }
{
    match path.lower(lowerer, state, lowerer.parts.place()) {
        Ok(path) => type_of_path(state, at, path),
        Err(fault) => Err(fault),
    }
}

/// An `impl` inside of another one is an error, whose bounds aren't read; those of one that isn't allowed are.
#[tactic(auto, unfolding(hir_lower_builder::specs::Types::impl_type_form))]
#[inline(never)]
pub(crate) fn impl_form<I: StoreSink, P: LowerExprs<I>, L: BoundsPart>(
    lowerer: &Lowerer<P>,
    state: &mut BodyBuilder<I>,
    at: InFile<AstPtr>,
    written: &L,
) -> Result<TypeRefId, StoreError>
    requires { let place = (P.rctx lowerer.now.parts).place in
        Unless place.in_impl (L.can (P.can lowerer.now.parts) (of.inside_impl place) written.now) }
    ensures { let rctx = P.rctx lowerer.now.parts in
        let read = L.read (at_place rctx (of.inside_impl rctx.place)) written.now in
        LowersType None (impl_at rctx.place.in_impl rctx.place.impl_trait at read) state.old result state.new }
{
    let place = lowerer.parts.place();
    if place.in_impl {
        return state.alloc_type(TypeRef::Error, Some(at));
    }
    let read = written.lower(lowerer, state, inside_impl(place))?;
    state.become_type(at, place.impl_trait, read)
}

#[tactic(auto, unfolding(hir_lower_builder::specs::Types::dyn_type_form))]
#[inline(never)]
pub(crate) fn dyn_form<I: StoreSink, P: LowerExprs<I>, L: BoundsPart>(
    lowerer: &Lowerer<P>,
    state: &mut BodyBuilder<I>,
    at: InFile<AstPtr>,
    written: &L,
) -> Result<TypeRefId, StoreError>
    requires { L.can (P.can lowerer.now.parts) (P.rctx lowerer.now.parts).place written.now }
    ensures { LowersType None (tree.dyn_type at (L.read (P.rctx lowerer.now.parts) written.now)) state.old result state.new }
{
    let read = written.lower(lowerer, state, lowerer.parts.place())?;
    state.alloc_type(TypeRef::DynTrait(read), Some(at))
}

/// The type before its pattern.
#[tactic(auto, unfolding(hir_lower_builder::specs::Types::pattern_type_form))]
#[inline(never)]
pub(crate) fn pattern_form<I: StoreSink, P: LowerExprs<I>, T: TypePart, R: TypePatPart>(
    lowerer: &Lowerer<P>,
    state: &mut BodyBuilder<I>,
    at: InFile<AstPtr>,
    ty: &T,
    pat: &R,
) -> Result<TypeRefId, StoreError>
    requires ty { T.can ((P.can lowerer.now.parts).type_ (P.rctx lowerer.now.parts).place) ty.now }
    requires pat { R.can ((P.can lowerer.now.parts).pat (of.inside_constant (P.rctx lowerer.now.parts).place)) pat.now }
    ensures { let rctx = P.rctx lowerer.now.parts in
        let inner = at_place rctx (of.inside_constant rctx.place) in
        LowersType None (tree.pattern_type at
        (T.read rctx ty.now)
        (R.read inner pat.now)
        (type_pat_or_none inner.answers.lang_items (R.read inner pat.now))) state.old result state.new }
{
    let ty = ty.lower(lowerer, state, &None)?;
    let pat = pat.lower_inside(lowerer, state)?;
    state.alloc_type(TypeRef::Pattern(ty, pat), Some(at))
}

//! Bounds.

ghost use Rattle.std.specs.Prelude.{◌≡◌, [], map};
ghost use Rattle.hir_syntax.specs.declared.types.TypeBound.{out-TypeBound};
ghost use Rattle.hir_store.specs.Range.{HasBound, HasUseArgs};
ghost use Rattle.hir_env.specs.ResolvedTree.{Bounds};
ghost use Rattle.hir_env.specs.Paths.{binder_of, use_of};
ghost use Rattle.hir_env.specs.ResolveCtx.{ResolveCtx};
ghost use Rattle.hir_env.specs.Whole.{resolved_bound, resolved_path_type, bound_level, bounds_part, path_type_level};
ghost use Rattle.hir_env.specs.declared.ctx.LowerCtx.{LowerCtx as AtCtx};
ghost use Rattle.hir_lower_builder.specs.Lowering.{Lowers};
ghost use Rattle.hir_lower_builder.specs.Lower as spec;
ghost use Rattle.hir_lower_builder.specs.Types as forms;
ghost use Rattle.hir_lower_builder.specs.Methods.{HasUseArg, LowersBounds, LowersPath, at_place};
ghost use Rattle.hir_lower_builder.specs.Nests.{Claims, KidsBound, KidsBounds, KidsTrait};
ghost use Rattle.hir_lower_type.specs.Bounds.{LowersPathBound};

use crate::lifetimes::{binder, lifetime};
use hir_env::ctx::LowerCtx;
use hir_lower_builder::builder::BodyBuilder;
use hir_lower_builder::parts::{LowerExprs, Lowerer, pointer_in};
use hir_lower_builder::store_sink::StoreSink;
use hir_store::error::StoreError;
use hir_store::ids::TypeRefId;
use hir_store::lists::{push_bound, push_use_arg};
use hir_store::name::Name;
use hir_store::path::Path;
use hir_store::type_ref::{TraitBoundModifier, TypeBound, TypeRef, UseArgRef};
use hir_syntax::{Seq, ast};

fn trait_path<I: StoreSink, P: LowerExprs<I>>(
    lowerer: &Lowerer<P>,
    state: &mut BodyBuilder<I>,
    place: LowerCtx,
    node: &ast::PathType,
) -> Result<Option<Path>, StoreError>
    requires { KidsTrait (P.can lowerer.now.parts) place node.now }
    ensures { LowersPath (path_type_level (at_place (P.rctx lowerer.now.parts) place) node.now).path state.old result state.new }
{
    lowerer.path_if_present(state, place, &node.path)
}

/// A bound by a trait that is stored as a type. Behind a binder that isn't empty no `?` counts.
fn stored_path_bound(maybe: bool, names: Seq<Name>, ty: TypeRefId) -> TypeBound
    ensures { result ≡ forms.stored_path_bound maybe names ty }
{
    if !names.is_empty() {
        return TypeBound::ForLifetime(names, ty);
    }
    if maybe {
        TypeBound::Path(ty, TraitBoundModifier::Maybe)
    } else {
        TypeBound::Path(ty, TraitBoundModifier::None)
    }
}

#[tactic(auto, using(crate::proofs::BoundsExist::path_bound_has), unfolding(hir_lower_builder::specs::Types::path_bound_form))]
#[inline(never)]
fn path_bound_form<I: StoreSink, P: LowerExprs<I>>(
    lowerer: &Lowerer<P>,
    state: &mut BodyBuilder<I>,
    place: LowerCtx,
    node: &ast::PathType,
    maybe: bool,
    written: &Option<ast::ForBinder>,
) -> Result<TypeBound, StoreError>
    requires { KidsTrait (P.can lowerer.now.parts) place node.now }
    ensures { let level = path_type_level (at_place (P.rctx lowerer.now.parts) place) node.now in
        LowersPathBound level maybe (binder_of written.now) state.old result state.new }
{
    let Some(path) = trait_path(lowerer, state, place, node)? else {
        return Ok(TypeBound::Error);
    };
    let at = pointer_in(place, node.id, node.range);
    let ty = state.alloc_type(TypeRef::Path(path), Some(at))?;
    let names = binder(lowerer.alloc, written)?;
    Ok(stored_path_bound(maybe, names, ty))
}

/// A bound by a trait, and an error where its path is absent or refused.
fn path_bound<I: StoreSink, P: LowerExprs<I>>(
    lowerer: &Lowerer<P>,
    state: &mut BodyBuilder<I>,
    place: LowerCtx,
    node: &ast::PathType,
    maybe: bool,
    written: &Option<ast::ForBinder>,
) -> Result<TypeBound, StoreError>
    requires { KidsTrait (P.can lowerer.now.parts) place node.now }
    ensures { let read = resolved_path_type (at_place (P.rctx lowerer.now.parts) place) node.now in
        LowersPathBound read maybe (binder_of written.now) state.old result state.new }
{
    path_bound_form(lowerer, state, place, node, maybe, written)
}

/// What a `use<..>` names.
fn use_arg<I: StoreSink>(
    state: &mut BodyBuilder<I>,
    place: LowerCtx,
    written: &ast::UseArg,
) -> Result<UseArgRef, StoreError>
    ensures { Lowers HasUseArg (forms.lower_use (use_of place written.now)) state.old result state.new }
{
    match written {
        ast::UseArg::Name(name) => Ok(UseArgRef::Name(Name::Text(name.t.clone()?))),
        ast::UseArg::Lifetime(written) => Ok(UseArgRef::Lifetime(lifetime(state, place, written)?)),
    }
}

fn use_args<I: StoreSink, P: LowerExprs<I>>(
    lowerer: &Lowerer<P>,
    state: &mut BodyBuilder<I>,
    place: LowerCtx,
    mut left: &[ast::UseArg],
) -> Result<Seq<UseArgRef>, StoreError>
    ensures { Lowers HasUseArgs (forms.lower_uses [] (map (use_of place) left.entry.now)) state.old result state.new }
{
    let mut done = Seq::new(lowerer.alloc);
    while let [one, rest @ ..] = left {
        let arg = use_arg(state, place, one)?;
        push_use_arg(&mut done, arg)?;
        left = rest;
    }
    Ok(done)
}

#[inline(never)]
fn bound_form<I: StoreSink, P: LowerExprs<I>>(
    lowerer: &Lowerer<P>,
    state: &mut BodyBuilder<I>,
    place: LowerCtx,
    node: &ast::TypeBound,
) -> Result<TypeBound, StoreError>
    requires { KidsBound (P.can lowerer.now.parts) place (out-TypeBound node.now) }
    ensures { let level = bound_level (at_place (P.rctx lowerer.now.parts) place) node.now in
        Lowers HasBound (spec.lower_bound level) state.old result state.new }
{
    match (node.b, &node.ty, &node.lifetime) {
        (Some(ast::BoundKind::Path), Some(ty), _) => {
            path_bound(lowerer, state, place, ty, node.maybe, &node.binder)
        }
        (Some(ast::BoundKind::Lifetime), _, Some(written)) => {
            Ok(TypeBound::Lifetime(lifetime(state, place, written)?))
        }
        (Some(ast::BoundKind::Use), _, _) => Ok(TypeBound::Use(use_args(
            lowerer,
            state,
            place,
            node.uses.as_slice(),
        )?)),
        _ => Ok(TypeBound::Error),
    }
}

/// A bound, read at this place.
pub fn bound_node<I: StoreSink, P: LowerExprs<I>>(
    lowerer: &Lowerer<P>,
    state: &mut BodyBuilder<I>,
    place: LowerCtx,
    node: &ast::TypeBound,
) -> Result<TypeBound, StoreError>
    requires { KidsBound (P.can lowerer.now.parts) place (out-TypeBound node.now) }
    ensures { let read = resolved_bound (at_place (P.rctx lowerer.now.parts) place) node.now in
        Lowers HasBound (spec.lower_bound read) state.old result state.new }
{
    bound_form(lowerer, state, place, node)
}

/// Bounds, one after another. A form that hands them on has them as a type parameter.
pub trait BoundsPart {
    ghost can: { Claims → AtCtx → Self → Type 0 };

    ghost read: { ResolveCtx → Self → Bounds };

    /// The bounds, read at this place.
    fn lower<I: StoreSink, P: LowerExprs<I>>(
        &self,
        lowerer: &Lowerer<P>,
        state: &mut BodyBuilder<I>,
        place: LowerCtx,
    ) -> Result<Seq<TypeBound>, StoreError>
        requires { can (P.can lowerer.now.parts) place self.now }
        ensures { LowersBounds (read (at_place (P.rctx lowerer.now.parts) place) self.now) state.old result state.new };
}

impl BoundsPart for Seq<ast::TypeBound> {
    ghost can = { KidsBounds };

    ghost read = { bounds_part };

    fn lower<I: StoreSink, P: LowerExprs<I>>(
        &self,
        lowerer: &Lowerer<P>,
        state: &mut BodyBuilder<I>,
        place: LowerCtx,
    ) -> Result<Seq<TypeBound>, StoreError> {
        let mut done = Seq::new(lowerer.alloc);
        let mut left = self.as_slice();
        while let [one, rest @ ..] = left {
            let bound = bound_node(lowerer, state, place, one)?;
            push_bound(&mut done, bound)?;
            left = rest;
        }
        Ok(done)
    }
}

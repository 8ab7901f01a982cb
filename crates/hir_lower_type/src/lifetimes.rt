//! Lifetimes, and the binders that introduce them.

ghost use Rattle.std.specs.Prelude.{◌≡◌, IfOk, option_map};
ghost use Rattle.hir_store.specs.Range.{HasLifetime, HasLifetimeOption};
ghost use Rattle.hir_env.specs.Paths as of;
ghost use Rattle.hir_lower_builder.specs.Lowering.{Lowers};
ghost use Rattle.hir_lower_builder.specs.Types.{lower_lifetime, lower_lifetime_option};

use hir_env::ctx::LowerCtx;
use hir_lower_builder::builder::BodyBuilder;
use hir_lower_builder::parts::pointer_in;
use hir_lower_builder::store_sink::StoreSink;
use hir_store::error::StoreError;
use hir_store::ids::LifetimeRefId;
use hir_store::name::Name;
use hir_store::type_ref::LifetimeRef;
use hir_syntax::{Seq, ast};
use std::alloc::{AllocError, Global};

/// What the text of a lifetime says.
pub fn lifetime_ref(written: &ast::Lifetime) -> Result<LifetimeRef, AllocError>
    ensures { IfOk result (λ l. l ≡ of.lifetime_ref written.now.t) }
{
    let text = written.t.as_str();
    if text == "" || text == "'" {
        return Ok(LifetimeRef::Error);
    }
    if text == "'static" {
        return Ok(LifetimeRef::Static);
    }
    if text == "'_" {
        return Ok(LifetimeRef::Placeholder);
    }
    Ok(LifetimeRef::Named(Name::Text(written.t.clone()?)))
}

/// A lifetime of the file of this place, which is noted where lifetimes count there.
#[tactic(auto, unfolding(hir_lower_builder::specs::Types::lower_lifetime))]
#[inline(never)]
pub fn lifetime<I: StoreSink>(
    state: &mut BodyBuilder<I>,
    place: LowerCtx,
    written: &ast::Lifetime,
) -> Result<LifetimeRefId, StoreError>
    ensures { Lowers HasLifetime (lower_lifetime (of.lifetime_of place written.now)) state.old result state.new }
{
    let at = pointer_in(place, written.id, written.range);
    let lifetime = lifetime_ref(written)?;
    state.track_lifetime(place.lifetimes, &lifetime)?;
    state.alloc_lifetime(lifetime, Some(at))
}

/// The lifetime, where one is written.
pub fn lifetime_if_present<I: StoreSink>(
    state: &mut BodyBuilder<I>,
    place: LowerCtx,
    written: &Option<ast::Lifetime>,
) -> Result<Option<LifetimeRefId>, StoreError>
    ensures { Lowers HasLifetimeOption (lower_lifetime_option (option_map (of.lifetime_of place) written.now)) state.old result state.new }
{
    match written {
        None => Ok(None),
        Some(written) => Ok(Some(lifetime(state, place, written)?)),
    }
}

/// The names of the lifetimes that are there.
fn binder_names(alloc: Global, mut left: &[Option<ast::Lifetime>]) -> Result<Seq<Name>, AllocError>
    ensures { IfOk result (λ names. names ≡ of.binder_names left.entry.now) }
{
    let mut names = Seq::new(alloc);
    while let [one, rest @ ..] = left {
        if let Some(lifetime) = one {
            names.push(Name::Text(lifetime.t.clone()?))?;
        }
        left = rest;
    }
    Ok(names)
}

/// The names that a binder introduces, none where it is absent.
#[inline(never)]
pub fn binder(alloc: Global, written: &Option<ast::ForBinder>) -> Result<Seq<Name>, AllocError>
    ensures { IfOk result (λ names. names ≡ of.binder_of written.now) }
{
    match written {
        None => Ok(Seq::new(alloc)),
        Some(written) => binder_names(alloc, written.params.as_slice()),
    }
}

//! Names, which bind or stand for something else.

ghost use Rattle.std.specs.Prelude.{◌≡◌, IfOk, Some};
ghost use Rattle.hir_store.specs.Range.{HasPat};
ghost use Rattle.hir_env.specs.Answering.{name_written};
ghost use Rattle.hir_env.specs.Pats as of;
ghost use Rattle.hir_env.specs.TypePats.{is_unannotated};
ghost use Rattle.hir_env.specs.Whole.{pat_part};
ghost use Rattle.hir_lower_builder.specs.Lower.{present_pat};
ghost use Rattle.hir_lower_builder.specs.Lowering as steps;
ghost use Rattle.hir_lower_builder.specs.Lowering.{Lowers};
ghost use Rattle.hir_lower_builder.specs.Pats as steps_of;
ghost use Rattle.hir_lower_builder.specs.Nests.{IfPresent};
ghost use Rattle.hir_lower_pat.specs.Bindings.{HasNames, LowersNamed};
ghost use Rattle.hir_lower_pat.specs.Methods.{LowersPat, use_with};

use crate::part::PatPart;
use hir_base::node::{AstPtr, InFile};
use hir_binding::binding::BindingAnnotation;
use hir_env::resolved::{BuiltinShadowMode, Resolution};
use hir_lower_builder::builder::BodyBuilder;
use hir_lower_builder::names::name_of;
use hir_lower_builder::parts::site;
use hir_lower_builder::store_sink::StoreSink;
use hir_lower_pat::bindings::Bindings;
use hir_lower_pat::parts::{Here, PatParts};
use hir_lower_pat::paths::path_of_name;
use hir_store::error::StoreError;
use hir_store::hir::Pat;
use hir_store::ids::{HygieneId, PatId};
use hir_store::name::Name;
use hir_store::path::Path;
use hir_syntax::{Boxed, ast};
use std::alloc::{AllocError, Global};

/// How a name binds behind these words.
pub(crate) fn mode_of(is_ref: bool, is_mut: bool) -> BindingAnnotation
    ensures { result ≡ of.mode_of is_ref is_mut }
{
    match (is_ref, is_mut) {
        (false, false) => BindingAnnotation::Unannotated,
        (false, true) => BindingAnnotation::Mutable,
        (true, false) => BindingAnnotation::Ref,
        (true, true) => BindingAnnotation::RefMut,
    }
}

/// Whether a name stands without `ref` and `mut`.
pub(crate) fn is_without_words(mode: BindingAnnotation) -> bool
    ensures { result ≡ is_unannotated mode }
{
    match mode {
        BindingAnnotation::Unannotated => true,
        BindingAnnotation::Mutable | BindingAnnotation::Ref | BindingAnnotation::RefMut => false,
    }
}

/// The hygiene of a name is that of its node, or the root's where it is absent.
pub(crate) fn hygiene_of<H: Here>(parts: &H, name: &Option<ast::Name>) -> HygieneId
    ensures { let at = H.rctx parts.now in result ≡ of.name_hygiene at.answers at.place name.now }
{
    match name {
        None => HygieneId::ROOT,
        Some(name) => parts.hygiene(site(parts.pointer(name.id, name.range))),
    }
}

fn is_constant(values: Option<Resolution>) -> bool
    ensures { result ≡ of.is_constant values }
{
    matches!(
        values,
        Some(Resolution::Const | Resolution::Variant | Resolution::Struct)
    )
}

/// Whether a plain name stands for a constant, a variant or a struct, so that it doesn't bind.
fn is_found<H: Here>(parts: &H, name: &Name) -> Result<bool, AllocError>
    ensures { let at = H.rctx parts.now in IfOk result (λ found. found ≡ of.is_found at.answers at.place name.now) }
{
    let path = path_of_name(parts.alloc(), name.clone()?)?;
    Ok(is_constant(parts.resolve(&path, BuiltinShadowMode::Other).values))
}

/// A name that stands for something else is a path.
#[inline(never)]
fn name_form<I: StoreSink>(
    alloc: Global,
    state: &mut BodyBuilder<I>,
    at: InFile<AstPtr>,
    name: Name,
) -> Result<PatId, StoreError>
    ensures { Lowers HasPat (steps.alloc_pat (steps_of.path_of_name name) (Some at)) state.old result state.new }
{
    let path = Path::BarePath(path_of_name(alloc, name)?);
    let hygiene = HygieneId::ROOT;
    state.alloc_pat(Pat::Path { path, hygiene }, Some(at))
}

/// A name that binds, behind what stands after its `@`.
#[tactic(auto, unfolding(hir_lower_builder::specs::Pats::bind_form))]
#[inline(never)]
fn bind_form<I: StoreSink, S: PatParts<I>, E: PatPart>(
    parts: &S,
    state: &mut BodyBuilder<I>,
    bindings: &mut Bindings,
    at: InFile<AstPtr>,
    name: Name,
    hygiene: HygieneId,
    mode: BindingAnnotation,
    part: &E,
) -> Result<PatId, StoreError>
    requires part { E.can (S.can_pat parts.now) part.now }
    requires names { HasNames state.old.stored bindings.old }
    ensures { let inner = present_pat (E.read (S.rctx parts.now) part.now) in
        LowersNamed HasPat (steps_of.bind_form at (record { name = name; hygiene = hygiene; mode = mode }) inner)
        bindings.old state.old result bindings.new state.new }
{
    let subpat = part.lower_if_present(parts, state, bindings)?;
    let id = bindings.use_name(state, name, hygiene, mode)?;
    let pat = state.alloc_pat(Pat::Bind { id, subpat }, Some(at))?;
    state.define(id, pat)?;
    Ok(pat)
}

/// A plain name that stands for a constant, a variant or a struct is a path, and any other name binds.
#[inline(never)]
pub(crate) fn ident_form<I: StoreSink, S: PatParts<I>>(
    parts: &S,
    state: &mut BodyBuilder<I>,
    bindings: &mut Bindings,
    at: InFile<AstPtr>,
    name: &Option<ast::Name>,
    mode: BindingAnnotation,
    part: &Option<Boxed<ast::Pat>>,
) -> Result<PatId, StoreError>
    requires part { IfPresent (S.can_pat parts.now) part.now }
    requires names { HasNames state.old.stored bindings.old }
    ensures { let here = S.rctx parts.now in
        let use_ = use_with here name.now mode in
        LowersPat (of.ident_pat here.answers here.place at use_ (name_written name.now) (pat_part here part.now))
        bindings.old state.old result bindings.new state.new }
{
    let hygiene = hygiene_of(parts, name);
    let name = name_of(name)?;
    match part {
        Some(_) => bind_form(parts, state, bindings, at, name, hygiene, mode, part),
        None => {
            if is_without_words(mode) && is_found(parts, &name)? {
                name_form(parts.alloc(), state, at, name)
            } else {
                bind_form(parts, state, bindings, at, name, hygiene, mode, part)
            }
        }
    }
}

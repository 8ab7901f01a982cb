//! Tuples and calls, whose parts may leave some out.

ghost use Rattle.std.specs.Prelude.{◌≡◌, ◌∷◌, IfOk, Some};
ghost use Rattle.hir_store.specs.Range.{HasPat, HasPath, HasPats};
ghost use Rattle.hir_store.specs.declared.pat.Pat.TheVariants as pat;
ghost use Rattle.hir_env.specs.ResolvedTree as tree;
ghost use Rattle.hir_lower_builder.specs.Lower.{lower_elements};
ghost use Rattle.hir_lower_builder.specs.Lowering.{Lowers};
ghost use Rattle.hir_lower_builder.specs.Lowering as step;
ghost use Rattle.hir_lower_builder.specs.Pats as spec;
ghost use Rattle.hir_lower_pat.specs.Bindings.{HasNames, LowersNamed};
ghost use Rattle.hir_lower_pat.specs.Methods.{HasCounted, HasDots, HasElements, LowersPat, element_behind, element_steps};

use crate::part::{PatNode, PatsPart};
use hir_base::node::{AstPtr, InFile};
use hir_lower_builder::builder::BodyBuilder;
use hir_lower_builder::store_sink::StoreSink;
use hir_lower_pat::bindings::Bindings;
use hir_lower_pat::parts::{Here, PatParts};
use hir_lower_pat::paths::PathPart;
use hir_store::error::StoreError;
use hir_store::hir::Pat;
use hir_store::ids::PatId;
use hir_store::lists::push_pat;
use hir_store::path::Path;
use hir_syntax::Seq;
use std::alloc::{AllocError, Global};

/// One part more. Two dots are none, and of several the first count.
pub(crate) fn element<I: StoreSink, S: PatParts<I>, N: PatNode>(
    parts: &S,
    state: &mut BodyBuilder<I>,
    bindings: &mut Bindings,
    done: (Seq<PatId>, Option<usize>),
    node: &N,
) -> Result<(Seq<PatId>, Option<usize>), StoreError>
    requires part { N.can (S.can_pat parts.now) node.now }
    requires names { HasNames state.old.stored bindings.old }
    requires done { HasPats state.old.stored done.0 }
    ensures { let read = N.read (S.rctx parts.now) node.now in
        LowersNamed HasElements (element_behind done (element_steps read)) bindings.old state.old result bindings.new state.new }
{
    let (mut ids, dots) = done;
    match node.lower_element(parts, state, bindings)? {
        None => {
            let first = match dots {
                Some(place) => place,
                None => ids.len(),
            };
            Ok((ids, Some(first)))
        }
        Some(id) => {
            push_pat(&mut ids, id)?;
            Ok((ids, dots))
        }
    }
}

/// The place of the dots, behind a comma in front one further, where it is counted.
fn small_place(leading_comma: bool, place: usize) -> Option<u32>
    ensures { result ≡ spec.small_place leading_comma place }
{
    if leading_comma {
        if place < 4_294_967_295 {
            Some(place as u32 + 1)
        } else {
            None
        }
    } else if place < 4_294_967_296 {
        Some(place as u32)
    } else {
        None
    }
}

/// The place of the dots as it is stored. There may be more parts in front than are counted.
#[tactic(auto, unfolding(hir_lower_builder::specs::Lowering::count_out))]
fn counted_dots<I: StoreSink>(
    state: &mut BodyBuilder<I>,
    leading_comma: bool,
    dots: Option<usize>,
) -> Result<Option<u32>, StoreError>
    ensures { Lowers HasDots (spec.counted_dots leading_comma dots) state.old result state.new }
{
    match dots {
        None => Ok(None),
        Some(place) => match small_place(leading_comma, place) {
            Some(place) => Ok(Some(place)),
            None => Err(state.count_out()),
        },
    }
}

/// The numbers with one more in front.
fn with_first(alloc: Global, first: PatId, rest: Seq<PatId>) -> Result<Seq<PatId>, AllocError>
    ensures { IfOk result (λ all. all ≡ first ∷ rest) }
{
    let mut all = Seq::new(alloc);
    all.push(first)?;
    all.append(rest)?;
    Ok(all)
}

/// A comma in front stands for a missing part, which is made last.
fn with_first_missing<I: StoreSink>(
    alloc: Global,
    state: &mut BodyBuilder<I>,
    leading_comma: bool,
    ids: Seq<PatId>,
) -> Result<Seq<PatId>, StoreError>
    requires { HasPats state.old.stored ids }
    ensures { Lowers HasPats (spec.with_first_missing leading_comma ids) state.old result state.new }
{
    if !leading_comma {
        return Ok(ids);
    }
    let first = state.missing_pat()?;
    Ok(with_first(alloc, first, ids)?)
}

/// The parts as they are stored: where the dots stand, and the numbers.
#[tactic(auto, unfolding(hir_lower_builder::specs::Pats::elements_form))]
pub(crate) fn stored_elements<I: StoreSink>(
    alloc: Global,
    state: &mut BodyBuilder<I>,
    leading_comma: bool,
    done: (Seq<PatId>, Option<usize>),
) -> Result<(Option<u32>, Seq<PatId>), StoreError>
    requires { HasPats state.old.stored done.0 }
    ensures { Lowers HasCounted (spec.elements_form leading_comma done) state.old result state.new }
{
    let (ids, dots) = done;
    let ellipsis = counted_dots(state, leading_comma, dots)?;
    let args = with_first_missing(alloc, state, leading_comma, ids)?;
    Ok((ellipsis, args))
}

#[tactic(auto, unfolding(hir_lower_builder::specs::Pats::tuple_pat_form))]
#[inline(never)]
pub(crate) fn tuple_form<I: StoreSink, S: PatParts<I>, L: PatsPart>(
    parts: &S,
    state: &mut BodyBuilder<I>,
    bindings: &mut Bindings,
    at: InFile<AstPtr>,
    leading_comma: bool,
    fields: &L,
) -> Result<PatId, StoreError>
    requires parts { L.can (S.can_pat parts.now) fields.now }
    requires names { HasNames state.old.stored bindings.old }
    ensures { LowersPat (tree.tuple_pat at leading_comma (L.read_elements (S.rctx parts.now) fields.now))
        bindings.old state.old result bindings.new state.new }
{
    let done = fields.elements(parts, state, bindings)?;
    let (ellipsis, args) = stored_elements(parts.alloc(), state, leading_comma, done)?;
    state.alloc_pat(Pat::Tuple { ellipsis, args }, Some(at))
}

/// Stores a call of this path. A `Pat` is large: one that is made here stands in no frame in which a part is lowered.
#[inline(never)]
fn store_tuple_struct<I: StoreSink>(
    state: &mut BodyBuilder<I>,
    at: InFile<AstPtr>,
    path: Path,
    ellipsis: Option<u32>,
    args: Seq<PatId>,
) -> Result<PatId, StoreError>
    requires path { HasPath state.old.stored path }
    requires args { HasPats state.old.stored args }
    ensures { Lowers HasPat (step.alloc_pat (pat.TupleStruct path ellipsis args) (Some at)) state.old result state.new }
{
    let pat = Pat::TupleStruct {
        path,
        ellipsis,
        args,
    };
    state.alloc_pat(pat, Some(at))
}

/// A call of this path.
fn tuple_struct_of<I: StoreSink, S: PatParts<I>, L: PatsPart>(
    parts: &S,
    state: &mut BodyBuilder<I>,
    bindings: &mut Bindings,
    at: InFile<AstPtr>,
    path: Path,
    leading_comma: bool,
    fields: &L,
) -> Result<PatId, StoreError>
    requires path { HasPath state.old.stored path }
    requires parts { L.can (S.can_pat parts.now) fields.now }
    requires names { HasNames state.old.stored bindings.old }
    ensures { let read = lower_elements spec.no_elements (L.read_elements (S.rctx parts.now) fields.now) in
        LowersNamed HasPat (spec.tuple_struct_of at leading_comma read (Some path)) bindings.old state.old result bindings.new state.new }
{
    let done = fields.elements(parts, state, bindings)?;
    let (ellipsis, args) = stored_elements(parts.alloc(), state, leading_comma, done)?;
    store_tuple_struct(state, at, path, ellipsis, args)
}

/// Where the path is absent or refused the call is missing, and nothing else of it is read.
#[tactic(auto, unfolding(hir_lower_builder::specs::Pats::tuple_struct_form))]
#[inline(never)]
pub(crate) fn tuple_struct_form<I: StoreSink, S: PatParts<I>, W: PathPart, L: PatsPart>(
    parts: &S,
    state: &mut BodyBuilder<I>,
    bindings: &mut Bindings,
    at: InFile<AstPtr>,
    path: &W,
    leading_comma: bool,
    fields: &L,
) -> Result<PatId, StoreError>
    requires path { W.can (S.can_path parts.now) path.now }
    requires parts { L.can (S.can_pat parts.now) fields.now }
    requires names { HasNames state.old.stored bindings.old }
    ensures { let here = S.rctx parts.now in
        LowersPat (tree.tuple_struct_pat at (W.read here path.now) leading_comma (L.read_elements here fields.now))
        bindings.old state.old result bindings.new state.new }
{
    match parts.path(state, path)? {
        None => state.missing_pat(),
        Some(path) => tuple_struct_of(parts, state, bindings, at, path, leading_comma, fields),
    }
}

//! Arrays that are assigned to: the parts in front of the first two dots, and those behind them.

ghost use Rattle.std.specs.Prelude.{Some};
ghost use Rattle.hir_store.specs.Range.{HasPat, HasPatOption, HasPats};
ghost use Rattle.hir_env.specs.ResolvedTree as tree;
ghost use Rattle.hir_env.specs.Targets as of;
ghost use Rattle.hir_lower_builder.specs.Lowering.{Lowers};
ghost use Rattle.hir_lower_builder.specs.Methods.{LowersTarget};
ghost use Rattle.hir_lower_builder.specs.Targets as steps;
ghost use Rattle.hir_lower_pat.specs.Assignees.{Assignees, found_at};
ghost use Rattle.hir_lower_pat.specs.TargetLists.{HasArrayParts, array_made, array_steps, back_steps, front_steps};

use crate::target_elements::TargetsPart;
use hir_base::node::{AstPtr, InFile};
use hir_lower_builder::builder::BodyBuilder;
use hir_lower_builder::store_sink::StoreSink;
use hir_lower_pat::assignees::{Assignee, TargetNode, alloc_target, target};
use hir_lower_pat::parts::TargetParts;
use hir_store::error::StoreError;
use hir_store::hir::Pat;
use hir_store::ids::PatId;
use hir_store::lists::push_pat;
use hir_syntax::Seq;

/// A part more in front of the dots, or the dots, be it through calls, by the part's own node.
fn front_element<I: StoreSink, T: TargetParts<I>, N: TargetNode>(
    parts: &T,
    state: &mut BodyBuilder<I>,
    mut prefix: Seq<PatId>,
    suffix: Seq<PatId>,
    node: &N,
) -> Result<(Seq<PatId>, Option<InFile<AstPtr>>, Seq<PatId>), StoreError>
    requires part { N.can (T.can_target parts.now) node.now }
    requires done { HasPats state.old.stored prefix × HasPats state.old.stored suffix }
    ensures { let rctx = T.rctx parts.now in
        Lowers HasArrayParts (front_steps (found_at rctx) prefix suffix (N.read rctx node.now)) state.old result state.new }
{
    match node.element(parts, state)? {
        None => Ok((prefix, Some(node.pointer(parts)), suffix)),
        Some(id) => {
            push_pat(&mut prefix, id)?;
            Ok((prefix, None, suffix))
        }
    }
}

/// A part more behind the dots. Two dots are one there.
fn back_element<I: StoreSink, T: TargetParts<I>, N: TargetNode>(
    parts: &T,
    state: &mut BodyBuilder<I>,
    prefix: Seq<PatId>,
    dots: InFile<AstPtr>,
    mut suffix: Seq<PatId>,
    node: &N,
) -> Result<(Seq<PatId>, Option<InFile<AstPtr>>, Seq<PatId>), StoreError>
    requires part { N.can (T.can_target parts.now) node.now }
    requires done { HasPats state.old.stored prefix × HasPats state.old.stored suffix }
    ensures { let rctx = T.rctx parts.now in
        Lowers HasArrayParts (back_steps (found_at rctx) prefix dots suffix (N.read rctx node.now)) state.old result state.new }
{
    let id = target(parts, state, node)?;
    push_pat(&mut suffix, id)?;
    Ok((prefix, Some(dots), suffix))
}

/// The parts with one more, or with the node of the first two dots.
pub(crate) fn array_element<I: StoreSink, T: TargetParts<I>, N: TargetNode>(
    parts: &T,
    state: &mut BodyBuilder<I>,
    done: (Seq<PatId>, Option<InFile<AstPtr>>, Seq<PatId>),
    node: &N,
) -> Result<(Seq<PatId>, Option<InFile<AstPtr>>, Seq<PatId>), StoreError>
    requires part { N.can (T.can_target parts.now) node.now }
    requires done { HasArrayParts state.old.stored done }
    ensures { let rctx = T.rctx parts.now in
        Lowers HasArrayParts (array_steps (found_at rctx) done (N.read rctx node.now)) state.old result state.new }
{
    let (prefix, dots, suffix) = done;
    match dots {
        None => front_element(parts, state, prefix, suffix, node),
        Some(dots) => back_element(parts, state, prefix, dots, suffix, node),
    }
}

/// The two dots, where it has such.
fn rest<I: StoreSink>(
    state: &mut BodyBuilder<I>,
    dots: Option<InFile<AstPtr>>,
) -> Result<Option<PatId>, StoreError>
    ensures { Lowers HasPatOption (steps.rest_target dots) state.old result state.new }
{
    match dots {
        None => Ok(None),
        Some(at) => Ok(Some(alloc_target(state, at, None, Pat::Rest)?)),
    }
}

/// The dots come behind the parts on both sides of them.
fn array_of<I: StoreSink, T: TargetParts<I>, L: TargetsPart>(
    parts: &T,
    state: &mut BodyBuilder<I>,
    at: InFile<AstPtr>,
    call: Option<InFile<AstPtr>>,
    elems: &L,
) -> Result<PatId, StoreError>
    requires { L.can (T.can_target parts.now) elems.now }
    ensures { let rctx = T.rctx parts.now in
        Lowers HasPat (array_made (found_at rctx) (of.origin call at) (L.read rctx elems.now)) state.old result state.new }
{
    let (prefix, dots, suffix) = elems.around_dots(parts, state)?;
    let slice = rest(state, dots)?;
    let pat = Pat::Slice {
        prefix,
        slice,
        suffix,
    };
    alloc_target(state, at, call, pat)
}

/// The parts in front of the first two dots, the node of these, and the parts behind them.
#[inline(never)]
fn array_form<I: StoreSink, T: TargetParts<I>, L: TargetsPart>(
    parts: &T,
    state: &mut BodyBuilder<I>,
    at: InFile<AstPtr>,
    call: Option<InFile<AstPtr>>,
    elems: &L,
) -> Result<PatId, StoreError>
    requires { L.can (T.can_target parts.now) elems.now }
    ensures { let rctx = T.rctx parts.now in
        let read = L.read rctx elems.now in
        let before = of.before_dots (found_at rctx) read in
        let behind = of.behind_dots (found_at rctx) read in
        LowersTarget (tree.array_target (of.origin call at) before (of.dots_pointer read) behind) state.old result state.new }
{
    array_of(parts, state, at, call, elems)
}

/// An array that is assigned to is a pattern.
pub(crate) fn array_assignee<I: StoreSink, T: TargetParts<I>, L: TargetsPart>(
    parts: &T,
    state: &mut BodyBuilder<I>,
    at: InFile<AstPtr>,
    call: Option<InFile<AstPtr>>,
    elems: &L,
) -> Result<Assignee, StoreError>
    requires { L.can (T.can_target parts.now) elems.now }
    ensures { let rctx = T.rctx parts.now in
        Assignees rctx call (tree.list_expr at tree.array_of (L.read rctx elems.now)) state.old result state.new }
{
    Ok(Assignee::Pat(array_form(parts, state, at, call, elems)?))
}

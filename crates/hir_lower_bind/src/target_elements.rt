//! The parts of tuples, calls and arrays that are assigned to, one after another, and tuples.

ghost use Rattle.std.specs.Prelude.{[], None, Some};
ghost use Rattle.hir_syntax.specs.declared.ast.Expr.{Expr as AstExpr};
ghost use Rattle.hir_store.specs.Range.{HasPats};
ghost use Rattle.hir_env.specs.ResolvedTree as tree;
ghost use Rattle.hir_env.specs.ResolvedTree.{Exprs};
ghost use Rattle.hir_env.specs.ResolveCtx.{ResolveCtx};
ghost use Rattle.hir_env.specs.Targets as of;
ghost use Rattle.hir_env.specs.Whole.{exprs_part};
ghost use Rattle.hir_lower_builder.specs.Lowering.{Lowers};
ghost use Rattle.hir_lower_builder.specs.Lower as spec;
ghost use Rattle.hir_lower_builder.specs.Methods.{LowersTarget};
ghost use Rattle.hir_lower_builder.specs.Nests.{Each};
ghost use Rattle.hir_lower_builder.specs.Pats.{no_elements};
ghost use Rattle.hir_lower_pat.specs.Assignees.{Assignees, element_found, found_at};
ghost use Rattle.hir_lower_pat.specs.Methods.{HasElements};
ghost use Rattle.hir_lower_pat.specs.TargetLists.{HasArrayParts, array_read, part_behind, elements_read};

use crate::target_arrays::array_element;
use crate::tuples::stored_elements;
use hir_base::node::{AstPtr, InFile};
use hir_lower_builder::builder::BodyBuilder;
use hir_lower_builder::store_sink::StoreSink;
use hir_lower_pat::assignees::{Assignee, TargetNode, alloc_target};
use hir_lower_pat::parts::TargetParts;
use hir_store::error::StoreError;
use hir_store::hir::Pat;
use hir_store::ids::PatId;
use hir_store::lists::push_pat;
use hir_syntax::{Seq, ast};
use std::alloc::Global;

/// One part more. Two dots are none, be it through calls, and of several the first count.
fn element<I: StoreSink, T: TargetParts<I>, N: TargetNode>(
    parts: &T,
    state: &mut BodyBuilder<I>,
    done: (Seq<PatId>, Option<usize>),
    node: &N,
) -> Result<(Seq<PatId>, Option<usize>), StoreError>
    requires part { N.can (T.can_target parts.now) node.now }
    requires done { HasPats state.old.stored done.0 }
    ensures { let rctx = T.rctx parts.now in
        let part = element_found (found_at rctx) None (N.read rctx node.now) in
        Lowers HasElements (part_behind done part) state.old result state.new }
{
    let (mut ids, dots) = done;
    match node.element(parts, state)? {
        None => {
            let first = match dots {
                Some(place) => place,
                None => ids.len(),
            };
            Ok((ids, Some(first)))
        }
        Some(id) => {
            push_pat(&mut ids, id)?;
            Ok((ids, dots))
        }
    }
}

/// One part after another.
fn each_element<I: StoreSink, T: TargetParts<I>>(
    parts: &T,
    state: &mut BodyBuilder<I>,
    mut left: &[ast::Expr],
) -> Result<(Seq<PatId>, Option<usize>), StoreError>
    requires { Each (T.can_target parts.now) left.now }
    ensures { let rctx = T.rctx parts.now in
        Lowers HasElements (elements_read (found_at rctx) no_elements (exprs_part rctx left.entry.now)) state.old result state.new }
{
    let mut done = (Seq::new(parts.alloc()), None);
    while let [one, rest @ ..] = left {
        done = element(parts, state, done, one)?;
        left = rest;
    }
    Ok(done)
}

/// Expressions that are assigned to, one after another. A form that hands them on has them as a type parameter.
pub trait TargetsPart {
    ghost can: { (AstExpr → Type 0) → Self → Type 0 };

    ghost read: { ResolveCtx → Self → Exprs };

    /// The parts, and how many stand in front of the first two dots.
    fn elements<I: StoreSink, T: TargetParts<I>>(
        &self,
        parts: &T,
        state: &mut BodyBuilder<I>,
    ) -> Result<(Seq<PatId>, Option<usize>), StoreError>
        requires { can (T.can_target parts.now) self.now }
        ensures { let rctx = T.rctx parts.now in
            let read = of.elements (found_at rctx) (read rctx self.now) in
            Lowers HasElements (spec.lower_targets no_elements read) state.old result state.new };

    /// The parts in front of the first two dots, the node of these, and the parts behind them.
    fn around_dots<I: StoreSink, T: TargetParts<I>>(
        &self,
        parts: &T,
        state: &mut BodyBuilder<I>,
    ) -> Result<(Seq<PatId>, Option<InFile<AstPtr>>, Seq<PatId>), StoreError>
        requires { can (T.can_target parts.now) self.now }
        ensures { let rctx = T.rctx parts.now in
            Lowers HasArrayParts (array_read (found_at rctx) ([], None, []) (read rctx self.now)) state.old result state.new };
}

impl TargetsPart for Seq<ast::Expr> {
    ghost can = { λ target. Each target };

    ghost read = { exprs_part };

    fn elements<I: StoreSink, T: TargetParts<I>>(
        &self,
        parts: &T,
        state: &mut BodyBuilder<I>,
    ) -> Result<(Seq<PatId>, Option<usize>), StoreError> {
        each_element(parts, state, self.as_slice())
    }

    fn around_dots<I: StoreSink, T: TargetParts<I>>(
        &self,
        parts: &T,
        state: &mut BodyBuilder<I>,
    ) -> Result<(Seq<PatId>, Option<InFile<AstPtr>>, Seq<PatId>), StoreError> {
        let mut done = (Seq::new(parts.alloc()), None, Seq::new(parts.alloc()));
        let mut left = self.as_slice();
        while let [one, rest @ ..] = left {
            done = array_element(parts, state, done, one)?;
            left = rest;
        }
        Ok(done)
    }
}

/// A leading comma adds nothing.
#[tactic(auto, unfolding(hir_lower_builder::specs::Targets::tuple_target_form))]
#[inline(never)]
fn tuple_form<I: StoreSink, T: TargetParts<I>, L: TargetsPart>(
    parts: &T,
    state: &mut BodyBuilder<I>,
    at: InFile<AstPtr>,
    call: Option<InFile<AstPtr>>,
    fields: &L,
) -> Result<PatId, StoreError>
    requires { L.can (T.can_target parts.now) fields.now }
    ensures { let rctx = T.rctx parts.now in
        let read = of.elements (found_at rctx) (L.read rctx fields.now) in
        LowersTarget (tree.tuple_target (of.origin call at) read) state.old result state.new }
{
    let read = fields.elements(parts, state)?;
    let (ellipsis, args) = stored_elements(parts.alloc(), state, false, read)?;
    alloc_target(state, at, call, Pat::Tuple { ellipsis, args })
}

/// `(..)`, the tuple without parts.
#[tactic(auto, unfolding(hir_lower_builder::specs::Targets::tuple_target_form, hir_lower_builder::specs::Pats::elements_form))]
pub(crate) fn dots_alone<I: StoreSink>(
    alloc: Global,
    state: &mut BodyBuilder<I>,
    at: InFile<AstPtr>,
    call: Option<InFile<AstPtr>>,
) -> Result<PatId, StoreError>
    ensures { LowersTarget (tree.tuple_target (of.origin call at) (tree.dots_targets tree.no_targets)) state.old result state.new }
{
    let pat = Pat::Tuple {
        ellipsis: Some(0),
        args: Seq::new(alloc),
    };
    alloc_target(state, at, call, pat)
}

/// A tuple that is assigned to is a pattern.
pub(crate) fn tuple_assignee<I: StoreSink, T: TargetParts<I>, L: TargetsPart>(
    parts: &T,
    state: &mut BodyBuilder<I>,
    at: InFile<AstPtr>,
    call: Option<InFile<AstPtr>>,
    leading_comma: bool,
    fields: &L,
) -> Result<Assignee, StoreError>
    requires { L.can (T.can_target parts.now) fields.now }
    ensures { let rctx = T.rctx parts.now in
        Assignees rctx call (tree.list_expr at (tree.tuple_of leading_comma) (L.read rctx fields.now)) state.old result state.new }
{
    Ok(Assignee::Pat(tuple_form(parts, state, at, call, fields)?))
}

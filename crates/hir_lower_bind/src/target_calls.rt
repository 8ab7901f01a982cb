//! Calls that are assigned to.

ghost use Rattle.std.specs.Prelude.{◌≡◌, is_some, Some};
ghost use Rattle.hir_syntax.specs.declared.ast.Expr.{Expr as AstExpr};
ghost use Rattle.hir_store.specs.Range.{HasPat, HasPath, HasPathOption};
ghost use Rattle.hir_env.specs.ResolvedTree as tree;
ghost use Rattle.hir_env.specs.ResolvedTree.{Expr as ResolvedExpr};
ghost use Rattle.hir_env.specs.ResolveCtx.{ResolveCtx};
ghost use Rattle.hir_env.specs.Targets as of;
ghost use Rattle.hir_env.specs.Whole.{resolved_expr, args_part, expr_part};
ghost use Rattle.hir_lower_builder.specs.Lowering.{Lowers};
ghost use Rattle.hir_lower_builder.specs.Lower as spec;
ghost use Rattle.hir_lower_builder.specs.Nests.{Each, IfPresent};
ghost use Rattle.hir_lower_builder.specs.Pats.{no_elements};
ghost use Rattle.hir_lower_builder.specs.Targets as steps;
ghost use Rattle.hir_lower_pat.specs.Assignees.{Assignees, HasAssignee, found_at};
ghost use Rattle.hir_lower_pat.specs.TargetLists.{call_steps, called_steps, callee_steps};

use crate::target_elements::TargetsPart;
use crate::tuples::stored_elements;
use hir_base::node::{AstPtr, InFile};
use hir_lower_builder::builder::BodyBuilder;
use hir_lower_builder::store_sink::StoreSink;
use hir_lower_pat::assignees::{Assignee, alloc_target, missing_target};
use hir_lower_pat::parts::TargetParts;
use hir_store::error::StoreError;
use hir_store::hir::Pat;
use hir_store::ids::PatId;
use hir_store::path::Path;
use hir_syntax::{Boxed, Seq, ast};

/// The callee of a call. A form that hands one on has it as a type parameter, so that no tree is among the form's types.
pub trait CalleeNode {
    ghost can: { (AstExpr → Type 0) → Self → Type 0 };

    ghost read: { ResolveCtx → Self → ResolvedExpr };

    /// The path that it is, itself or through calls, none where it is absent or refused. The calls are told.
    fn path<I: StoreSink, T: TargetParts<I>>(
        &self,
        parts: &T,
        state: &mut BodyBuilder<I>,
    ) -> Result<Option<Path>, StoreError>
        requires { can (T.can_callee parts.now) self.now }
        ensures { Lowers HasPathOption (callee_steps (read (T.rctx parts.now) self.now)) state.old result state.new };
}

impl CalleeNode for ast::Expr {
    ghost can = { λ callee e. callee e };

    ghost read = { resolved_expr };

    fn path<I: StoreSink, T: TargetParts<I>>(
        &self,
        parts: &T,
        state: &mut BodyBuilder<I>,
    ) -> Result<Option<Path>, StoreError> {
        parts.callee(state, self)
    }
}

/// A call of this path.
fn call_of<I: StoreSink, T: TargetParts<I>, L: TargetsPart>(
    parts: &T,
    state: &mut BodyBuilder<I>,
    at: InFile<AstPtr>,
    call: Option<InFile<AstPtr>>,
    path: Path,
    args: &L,
) -> Result<PatId, StoreError>
    requires path { HasPath state.old.stored path }
    requires args { L.can (T.can_target parts.now) args.now }
    ensures { let rctx = T.rctx parts.now in
        let read = spec.lower_targets no_elements (of.elements (found_at rctx) (L.read rctx args.now)) in
        Lowers HasPat (steps.call_target_of (of.origin call at) read (Some path)) state.old result state.new }
{
    let read = args.elements(parts, state)?;
    let (ellipsis, args) = stored_elements(parts.alloc(), state, false, read)?;
    let pat = Pat::TupleStruct {
        path,
        ellipsis,
        args,
    };
    alloc_target(state, at, call, pat)
}

/// Where the path is absent or refused the call is missing, and nothing else of it is read. The calls that the callee comes out of
/// are told first.
#[inline(never)]
fn call_form<I: StoreSink, T: TargetParts<I>, C: CalleeNode, L: TargetsPart>(
    parts: &T,
    state: &mut BodyBuilder<I>,
    at: InFile<AstPtr>,
    call: Option<InFile<AstPtr>>,
    callee: &C,
    args: &L,
) -> Result<PatId, StoreError>
    requires callee { C.can (T.can_callee parts.now) callee.now }
    requires args { L.can (T.can_target parts.now) args.now }
    ensures { let rctx = T.rctx parts.now in
        let read = spec.lower_targets no_elements (of.elements (found_at rctx) (L.read rctx args.now)) in
        Lowers HasPat (call_steps (of.origin call at) (C.read rctx callee.now) read) state.old result state.new }
{
    match callee.path(parts, state)? {
        None => missing_target(state, call),
        Some(path) => call_of(parts, state, at, call, path, args),
    }
}

/// A call whose callee is a path.
fn called_assignee<I: StoreSink, T: TargetParts<I>, C: CalleeNode, L: TargetsPart>(
    parts: &T,
    state: &mut BodyBuilder<I>,
    at: InFile<AstPtr>,
    call: Option<InFile<AstPtr>>,
    callee: &C,
    args: &L,
) -> Result<Assignee, StoreError>
    requires callee { C.can (T.can_callee parts.now) callee.now }
    requires args { L.can (T.can_target parts.now) args.now }
    ensures { let rctx = T.rctx parts.now in
        let read = spec.lower_targets no_elements (of.elements (found_at rctx) (L.read rctx args.now)) in
        Lowers HasAssignee (called_steps (of.origin call at) (C.read rctx callee.now) read) state.old result state.new }
{
    Ok(Assignee::Pat(call_form(parts, state, at, call, callee, args)?))
}

/// A call without a list of arguments, and one whose callee is no path, is a place.
pub(crate) fn call_assignee<I: StoreSink, T: TargetParts<I>>(
    parts: &T,
    state: &mut BodyBuilder<I>,
    at: InFile<AstPtr>,
    call: Option<InFile<AstPtr>>,
    node: &ast::Expr,
    callee: &Option<Boxed<ast::Expr>>,
    args: &Option<Seq<ast::Expr>>,
) -> Result<Assignee, StoreError>
    requires callee { IfPresent (T.can_callee parts.now) callee.now }
    requires args { IfPresent (Each (T.can_target parts.now)) args.now }
    requires place { T.can_place parts.now node.now }
    requires is { let rctx = T.rctx parts.now in
        resolved_expr rctx node.now ≡ tree.call_expr at (expr_part rctx callee.now) (is_some args.now) (args_part rctx args.now) }
    ensures { let rctx = T.rctx parts.now in Assignees rctx call (resolved_expr rctx node.now) state.old result state.new }
{
    match callee {
        None => parts.place(state, node),
        Some(callee) => match args {
            None => parts.place(state, node),
            Some(args) => {
                let callee = callee.get();
                if parts.is_path(callee) {
                    called_assignee(parts, state, at, call, callee, args)
                } else {
                    parts.place(state, node)
                }
            }
        },
    }
}

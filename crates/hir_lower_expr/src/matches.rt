//! `match`, and its arms.

ghost use Rattle.std.specs.Prelude.{[]};
ghost use Rattle.hir_syntax.specs.declared.branches.MatchArm.{out-MatchArm};
ghost use Rattle.hir_store.specs.Range.{HasArms, HasExprOption};
ghost use Rattle.hir_env.specs.ResolvedTree as tree;
ghost use Rattle.hir_env.specs.ResolvedTree.{Arms, Guard};
ghost use Rattle.hir_env.specs.declared.ctx.LowerCtx.{LowerCtx as AtCtx};
ghost use Rattle.hir_env.specs.ResolveCtx.{ResolveCtx};
ghost use Rattle.hir_env.specs.Whole.{resolved_arm, arm_level, arms_or_none_part, arms_part, guard_part};
ghost use Rattle.hir_lower_builder.specs.Lowering.{Lowers};
ghost use Rattle.hir_lower_builder.specs.Lower as spec;
ghost use Rattle.hir_lower_builder.specs.Methods.{HasArmOption, LowersExpr};
ghost use Rattle.hir_lower_builder.specs.Nests.{Claims, IfPresent, KidsArm, KidsArms, KidsGuard};

use crate::kept::push_kept_arm;
use crate::part::{ExprPart, PatPart};
use hir_base::node::{AstPtr, InFile};
use hir_lower_builder::builder::BodyBuilder;
use hir_lower_builder::parts::{LowerAll, Lowerer, site};
use hir_lower_builder::store_sink::StoreSink;
use hir_store::diagnostics::ExpressionStoreDiagnostics;
use hir_store::error::StoreError;
use hir_store::hir::{Expr, MatchArm};
use hir_store::ids::ExprId;
use hir_syntax::{Seq, ast};

/// The guard of an arm, none where it is absent. Its condition is missing where the guard has none.
trait GuardPart {
    ghost can: { Claims → AtCtx → Self → Type 0 };

    ghost read: { ResolveCtx → Self → Guard };

    fn lower<I: StoreSink, P: LowerAll<I>>(
        &self,
        lowerer: &Lowerer<P>,
        state: &mut BodyBuilder<I>,
    ) -> Result<Option<ExprId>, StoreError>
        requires { can (P.can lowerer.now.parts) (P.rctx lowerer.now.parts).place self.now }
        ensures { Lowers HasExprOption (spec.lower_guard (read (P.rctx lowerer.now.parts) self.now)) state.old result state.new };
}

impl GuardPart for Option<ast::Guard> {
    ghost can = { λ claims place. IfPresent (KidsGuard claims) };

    ghost read = { guard_part };

    fn lower<I: StoreSink, P: LowerAll<I>>(
        &self,
        lowerer: &Lowerer<P>,
        state: &mut BodyBuilder<I>,
    ) -> Result<Option<ExprId>, StoreError> {
        match self {
            None => Ok(None),
            Some(condition) => Ok(Some(condition.lower(lowerer, state)?)),
        }
    }
}

/// An arm that no condition disables: its pattern, its expression, its guard.
#[tactic(auto, unfolding(hir_lower_builder::specs::Forms::arm_form))]
fn kept_arm<I: StoreSink, P: LowerAll<I>, Q: PatPart, E: ExprPart, G: GuardPart>(
    lowerer: &Lowerer<P>,
    state: &mut BodyBuilder<I>,
    pat: &Q,
    expr: &E,
    guard: &G,
) -> Result<Option<MatchArm>, StoreError>
    requires pat { Q.can (P.can lowerer.now.parts) (P.rctx lowerer.now.parts).place pat.now }
    requires expr { E.can (P.can lowerer.now.parts) expr.now }
    requires guard { G.can (P.can lowerer.now.parts) (P.rctx lowerer.now.parts).place guard.now }
    ensures { let rctx = P.rctx lowerer.now.parts in
        let read = tree.arm (Q.read rctx pat.now) (E.read rctx expr.now) (G.read rctx guard.now) in
        Lowers HasArmOption (spec.lower_arm read) state.old result state.new }
{
    let pat = pat.lower(lowerer, state)?;
    let expr = expr.lower(lowerer, state)?;
    let guard = guard.lower(lowerer, state)?;
    Ok(Some(MatchArm { pat, guard, expr }))
}

/// The arm, none where a condition disables it.
#[inline(never)]
fn arm_form<I: StoreSink, P: LowerAll<I>>(
    lowerer: &Lowerer<P>,
    state: &mut BodyBuilder<I>,
    node: &ast::MatchArm,
) -> Result<Option<MatchArm>, StoreError>
    requires { KidsArm (P.can lowerer.now.parts) (P.rctx lowerer.now.parts).place (out-MatchArm node.now) }
    ensures { Lowers HasArmOption (spec.lower_arm (arm_level (P.rctx lowerer.now.parts) node.now)) state.old result state.new }
{
    let at = lowerer.pointer(node.id, node.range);
    match lowerer.parts.cfg(site(at)) {
        Err(cfg) => {
            state.report(ExpressionStoreDiagnostics::InactiveCode { node: at, cfg })?;
            Ok(None)
        }
        Ok(()) => kept_arm(lowerer, state, &node.pat, &node.expr, &node.guard),
    }
}

fn arm<I: StoreSink, P: LowerAll<I>>(
    lowerer: &Lowerer<P>,
    state: &mut BodyBuilder<I>,
    node: &ast::MatchArm,
) -> Result<Option<MatchArm>, StoreError>
    requires { KidsArm (P.can lowerer.now.parts) (P.rctx lowerer.now.parts).place (out-MatchArm node.now) }
    ensures { Lowers HasArmOption (spec.lower_arm (resolved_arm (P.rctx lowerer.now.parts) node.now)) state.old result state.new }
{
    arm_form(lowerer, state, node)
}

/// The arms that no condition disables.
fn each_arm<I: StoreSink, P: LowerAll<I>>(
    lowerer: &Lowerer<P>,
    state: &mut BodyBuilder<I>,
    mut left: &[ast::MatchArm],
) -> Result<Seq<MatchArm>, StoreError>
    requires { KidsArms (P.can lowerer.now.parts) (P.rctx lowerer.now.parts).place left.now }
    ensures { Lowers HasArms (spec.lower_arms [] (arms_part (P.rctx lowerer.now.parts) left.entry.now)) state.old result state.new }
{
    let mut done = Seq::new(lowerer.alloc);
    while let [one, rest @ ..] = left {
        let arm = arm(lowerer, state, one)?;
        push_kept_arm(&mut done, arm)?;
        left = rest;
    }
    Ok(done)
}

/// The arms of a `match`, none where they are absent.
pub trait ArmsPart {
    ghost can: { Claims → AtCtx → Self → Type 0 };

    ghost read: { ResolveCtx → Self → Arms };

    fn lower<I: StoreSink, P: LowerAll<I>>(
        &self,
        lowerer: &Lowerer<P>,
        state: &mut BodyBuilder<I>,
    ) -> Result<Seq<MatchArm>, StoreError>
        requires { can (P.can lowerer.now.parts) (P.rctx lowerer.now.parts).place self.now }
        ensures { Lowers HasArms (spec.lower_arms [] (read (P.rctx lowerer.now.parts) self.now)) state.old result state.new };
}

impl ArmsPart for Option<Seq<ast::MatchArm>> {
    ghost can = { λ claims place. IfPresent (KidsArms claims place) };

    ghost read = { arms_or_none_part };

    fn lower<I: StoreSink, P: LowerAll<I>>(
        &self,
        lowerer: &Lowerer<P>,
        state: &mut BodyBuilder<I>,
    ) -> Result<Seq<MatchArm>, StoreError> {
        match self {
            None => Ok(Seq::new(lowerer.alloc)),
            Some(all) => each_arm(lowerer, state, all.as_slice()),
        }
    }
}

/// What is matched before the arms.
#[tactic(auto, unfolding(hir_lower_builder::specs::Forms::match_form))]
#[inline(never)]
pub fn match_form<I: StoreSink, P: LowerAll<I>, E: ExprPart, A: ArmsPart>(
    lowerer: &Lowerer<P>,
    state: &mut BodyBuilder<I>,
    at: InFile<AstPtr>,
    expr: &E,
    all: &A,
) -> Result<ExprId, StoreError>
    requires expr { E.can (P.can lowerer.now.parts) expr.now }
    requires arms { A.can (P.can lowerer.now.parts) (P.rctx lowerer.now.parts).place all.now }
    ensures { let rctx = P.rctx lowerer.now.parts in
        LowersExpr (tree.match_expr at (E.read rctx expr.now) (A.read rctx all.now)) state.old result state.new }
{
    let expr = expr.lower(lowerer, state)?;
    let arms = all.lower(lowerer, state)?;
    state.alloc_expr(Expr::Match { expr, arms }, Some(at))
}

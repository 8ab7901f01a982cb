//! Branches and loops.

ghost use Rattle.hir_syntax.specs.declared.ast.ElseBranch.{out-ElseBranch};
ghost use Rattle.hir_env.specs.ResolvedTree as tree;
ghost use Rattle.hir_env.specs.ResolvedTree.{OptionExpr};
ghost use Rattle.hir_env.specs.Answering.{label_written};
ghost use Rattle.hir_env.specs.Conditions.{holds_let};
ghost use Rattle.hir_env.specs.declared.ctx.LowerCtx.{LowerCtx as AtCtx};
ghost use Rattle.hir_env.specs.ResolveCtx.{ResolveCtx};
ghost use Rattle.hir_env.specs.Whole.{resolved_else, else_level, else_part, label_part};
ghost use Rattle.hir_store.specs.Range.{HasExpr};
ghost use Rattle.hir_lower_builder.specs.Lower.{lower_block_part, lower_part};
ghost use Rattle.hir_lower_builder.specs.Lower as spec;
ghost use Rattle.hir_lower_builder.specs.Lowering.{Lowers};
ghost use Rattle.hir_lower_builder.specs.Made as made;
ghost use Rattle.hir_lower_builder.specs.Nests.{Claims, IfPresent, KidsElse};
ghost use Rattle.hir_lower_builder.specs.Methods.{LowersExpr, LowersIfPresent};

use crate::part::{BlockPart, ExprPart};
use crate::stored::{store_break, store_loop};
use hir_base::node::{AstPtr, InFile};
use hir_lower_builder::builder::BodyBuilder;
use hir_lower_builder::parts::{LowerAll, Lowerer};
use hir_lower_builder::store_sink::StoreSink;
use hir_store::error::StoreError;
use hir_store::hir::{Expr, LoopSource};
use hir_store::ids::ExprId;
use hir_syntax::ast;

fn else_node<I: StoreSink, P: LowerAll<I>>(
    lowerer: &Lowerer<P>,
    state: &mut BodyBuilder<I>,
    part: &ast::ElseBranch,
) -> Result<ExprId, StoreError>
    requires { KidsElse (P.can lowerer.now.parts) (P.rctx lowerer.now.parts).place (out-ElseBranch part.now) }
    ensures { LowersExpr (else_level (P.rctx lowerer.now.parts) part.now) state.old result state.new }
{
    match part {
        ast::ElseBranch::ElseBlock(block) => lowerer.collect_block(state, block.get()),
        ast::ElseBranch::ElseIf(expr) => lowerer.collect_expr(state, expr.get()),
    }
}

fn else_branch<I: StoreSink, P: LowerAll<I>>(
    lowerer: &Lowerer<P>,
    state: &mut BodyBuilder<I>,
    part: &ast::ElseBranch,
) -> Result<ExprId, StoreError>
    requires { KidsElse (P.can lowerer.now.parts) (P.rctx lowerer.now.parts).place (out-ElseBranch part.now) }
    ensures { LowersExpr (resolved_else (P.rctx lowerer.now.parts) part.now) state.old result state.new }
{
    else_node(lowerer, state, part)
}

/// The other side of a branch, none where it is absent.
pub trait ElsePart {
    ghost can: { Claims → AtCtx → Self → Type 0 };

    ghost read: { ResolveCtx → Self → OptionExpr };

    fn lower<I: StoreSink, P: LowerAll<I>>(
        &self,
        lowerer: &Lowerer<P>,
        state: &mut BodyBuilder<I>,
    ) -> Result<Option<ExprId>, StoreError>
        requires { can (P.can lowerer.now.parts) (P.rctx lowerer.now.parts).place self.now }
        ensures { LowersIfPresent (read (P.rctx lowerer.now.parts) self.now) state.old result state.new };
}

impl ElsePart for Option<ast::ElseBranch> {
    ghost can = { λ claims place. IfPresent (λ e. KidsElse claims place (out-ElseBranch e)) };

    ghost read = { else_part };

    fn lower<I: StoreSink, P: LowerAll<I>>(
        &self,
        lowerer: &Lowerer<P>,
        state: &mut BodyBuilder<I>,
    ) -> Result<Option<ExprId>, StoreError> {
        match self {
            None => Ok(None),
            Some(part) => Ok(Some(else_branch(lowerer, state, part)?)),
        }
    }
}

/// The branches are lowered before the condition.
#[tactic(auto, unfolding(hir_lower_builder::specs::Forms::if_form))]
#[inline(never)]
pub fn if_form<I: StoreSink, P: LowerAll<I>, E: ExprPart, B: BlockPart, L: ElsePart>(
    lowerer: &Lowerer<P>,
    state: &mut BodyBuilder<I>,
    at: InFile<AstPtr>,
    condition: &E,
    then: &B,
    else_: &L,
) -> Result<ExprId, StoreError>
    requires condition { E.can (P.can lowerer.now.parts) condition.now }
    requires then { B.can (P.can lowerer.now.parts) (P.rctx lowerer.now.parts).place then.now }
    requires else_ { L.can (P.can lowerer.now.parts) (P.rctx lowerer.now.parts).place else_.now }
    ensures { LowersExpr (tree.if_expr at
        (E.read (P.rctx lowerer.now.parts) condition.now)
        (B.read (P.rctx lowerer.now.parts) then.now)
        (L.read (P.rctx lowerer.now.parts) else_.now)) state.old result state.new }
{
    let then_branch = then.lower(lowerer, state)?;
    let else_branch = else_.lower(lowerer, state)?;
    let condition = condition.lower(lowerer, state)?;
    let expr = Expr::If {
        condition,
        then_branch,
        else_branch,
    };
    state.alloc_expr(expr, Some(at))
}

/// A `loop`, whose label lies around its body.
#[tactic(auto, unfolding(hir_lower_builder::specs::Forms::loop_form))]
#[inline(never)]
pub fn loop_form<I: StoreSink, P: LowerAll<I>, B: BlockPart>(
    lowerer: &Lowerer<P>,
    state: &mut BodyBuilder<I>,
    at: InFile<AstPtr>,
    label: &Option<ast::Label>,
    body: &B,
) -> Result<ExprId, StoreError>
    requires { B.can (P.can lowerer.now.parts) (P.rctx lowerer.now.parts).place body.now }
    ensures { let rctx = P.rctx lowerer.now.parts in
        LowersExpr (tree.loop_expr at
        (label_part rctx label.now)
        (label_written rctx.answers rctx.place label.now)
        (B.read rctx body.now)) state.old result state.new }
{
    let source = LoopSource::Loop;
    match label {
        None => {
            let body = body.lower(lowerer, state)?;
            let label = None;
            store_loop(state, at, body, label, source)
        }
        Some(label) => {
            let label = lowerer.open_label(state, label)?;
            let body = body.lower(lowerer, state)?;
            state.close();
            let label = Some(label);
            store_loop(state, at, body, label, source)
        }
    }
}

/// The condition of a `while`, whose temporaries end before it is tested, but those of one that holds a `let`, which the body may use.
///
/// `c` becomes
///
/// ```text
/// { let made = c; made }
/// ```
#[tactic(auto, unfolding(hir_lower_builder::specs::Made::held_form))]
#[inline(never)]
fn condition_form<I: StoreSink, P: LowerAll<I>, E: ExprPart>(
    lowerer: &Lowerer<P>,
    state: &mut BodyBuilder<I>,
    at: InFile<AstPtr>,
    condition: &E,
) -> Result<ExprId, StoreError>
    requires { E.can (P.can lowerer.now.parts) condition.now }
    ensures { let c = E.read (P.rctx lowerer.now.parts) condition.now in
        Lowers HasExpr (made.condition_form (holds_let c) at (lower_part c)) state.old result state.new }
{
    let tested = condition.lower(lowerer, state)?;
    if condition.holds_let(lowerer) {
        Ok(tested)
    } else {
        state.hold(lowerer.alloc, at, tested)
    }
}

/// The turn of a `while`: its body where the condition holds, else a break. The body is lowered before the condition.
#[tactic(auto, unfolding(hir_lower_builder::specs::Forms::iteration_form))]
#[inline(never)]
fn iteration_form<I: StoreSink, P: LowerAll<I>, E: ExprPart, B: BlockPart>(
    lowerer: &Lowerer<P>,
    state: &mut BodyBuilder<I>,
    at: InFile<AstPtr>,
    condition: &E,
    body: &B,
) -> Result<ExprId, StoreError>
    requires condition { E.can (P.can lowerer.now.parts) condition.now }
    requires body { B.can (P.can lowerer.now.parts) (P.rctx lowerer.now.parts).place body.now }
    ensures { let c = E.read (P.rctx lowerer.now.parts) condition.now in
        Lowers HasExpr (spec.iteration_form at
        (made.condition_form (holds_let c) at (lower_part c))
        (lower_block_part (B.read (P.rctx lowerer.now.parts) body.now))) state.old result state.new }
{
    let body = body.lower(lowerer, state)?;
    let tested = condition_form(lowerer, state, at, condition)?;
    let out = store_break(state, at)?;
    let iteration = Expr::If {
        condition: tested,
        then_branch: body,
        else_branch: Some(out),
    };
    state.alloc_expr(iteration, Some(at))
}

/// A loop over such a turn. The condition lies under the label as the body does.
///
/// `'a: while c b` becomes
///
/// ```text
/// 'a: loop { if { let made = c; made } b else { break } }     // where c holds no `let`
/// 'a: loop { if c b else { break } }                          // where it does
/// ```
#[tactic(auto, unfolding(hir_lower_builder::specs::Forms::loop_form))]
#[inline(never)]
pub fn while_form<I: StoreSink, P: LowerAll<I>, E: ExprPart, B: BlockPart>(
    lowerer: &Lowerer<P>,
    state: &mut BodyBuilder<I>,
    at: InFile<AstPtr>,
    label: &Option<ast::Label>,
    condition: &E,
    body: &B,
) -> Result<ExprId, StoreError>
    requires condition { E.can (P.can lowerer.now.parts) condition.now }
    requires body { B.can (P.can lowerer.now.parts) (P.rctx lowerer.now.parts).place body.now }
    ensures { let rctx = P.rctx lowerer.now.parts in
        LowersExpr (tree.while_expr at
        (label_part rctx label.now)
        (label_written rctx.answers rctx.place label.now)
        (E.read rctx condition.now)
        (B.read rctx body.now)) state.old result state.new }
{
    let source = LoopSource::While;
    match label {
        None => {
            let body = iteration_form(lowerer, state, at, condition, body)?;
            let label = None;
            store_loop(state, at, body, label, source)
        }
        Some(label) => {
            let label = lowerer.open_label(state, label)?;
            let body = iteration_form(lowerer, state, at, condition, body)?;
            state.close();
            let label = Some(label);
            store_loop(state, at, body, label, source)
        }
    }
}

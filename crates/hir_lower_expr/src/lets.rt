//! `let`, as a condition and as a statement.

ghost use Rattle.hir_env.specs.ResolvedTree as tree;
ghost use Rattle.hir_env.specs.ResolvedTree.{OptionBlock};
ghost use Rattle.hir_env.specs.Answering.{asked_stmt, site_of};
ghost use Rattle.hir_env.specs.declared.ctx.LowerCtx.{LowerCtx as AtCtx};
ghost use Rattle.hir_env.specs.ResolveCtx.{ResolveCtx};
ghost use Rattle.hir_env.specs.Whole.{let_else_part};
ghost use Rattle.hir_lower_builder.specs.Nests.{Claims, IfPresent, KidsLetElse};
ghost use Rattle.hir_lower_builder.specs.Methods.{LowersBlockIfPresent, LowersExpr, LowersStmt};

use crate::part::{ExprPart, PatPart, TypePart};
use hir_base::node::{AstPtr, InFile};
use hir_lower_builder::builder::BodyBuilder;
use hir_lower_builder::parts::{LowerAll, Lowerer, site};
use hir_lower_builder::store_sink::StoreSink;
use hir_store::diagnostics::ExpressionStoreDiagnostics;
use hir_store::error::StoreError;
use hir_store::hir::{Expr, Statement};
use hir_store::ids::ExprId;
use hir_syntax::ast;

/// The pattern before the expression.
#[tactic(auto, unfolding(hir_lower_builder::specs::Forms::let_form))]
#[inline(never)]
pub fn let_form<I: StoreSink, P: LowerAll<I>, Q: PatPart, E: ExprPart>(
    lowerer: &Lowerer<P>,
    state: &mut BodyBuilder<I>,
    at: InFile<AstPtr>,
    pat: &Q,
    expr: &E,
) -> Result<ExprId, StoreError>
    requires pat { Q.can (P.can lowerer.now.parts) (P.rctx lowerer.now.parts).place pat.now }
    requires expr { E.can (P.can lowerer.now.parts) expr.now }
    ensures { let rctx = P.rctx lowerer.now.parts in
        LowersExpr (tree.let_expr at (Q.read rctx pat.now) (E.read rctx expr.now)) state.old result state.new }
{
    let pat = pat.lower(lowerer, state)?;
    let expr = expr.lower(lowerer, state)?;
    state.alloc_expr(Expr::Let { pat, expr }, Some(at))
}

/// The `else` of a `let`, none where it is absent.
pub trait LetElsePart {
    ghost can: { Claims → AtCtx → Self → Type 0 };

    ghost read: { ResolveCtx → Self → OptionBlock };

    fn lower<I: StoreSink, P: LowerAll<I>>(
        &self,
        lowerer: &Lowerer<P>,
        state: &mut BodyBuilder<I>,
    ) -> Result<Option<ExprId>, StoreError>
        requires { can (P.can lowerer.now.parts) (P.rctx lowerer.now.parts).place self.now }
        ensures { LowersBlockIfPresent (read (P.rctx lowerer.now.parts) self.now) state.old result state.new };
}

impl LetElsePart for Option<ast::LetElse> {
    ghost can = { λ claims place. IfPresent (KidsLetElse claims place) };

    ghost read = { let_else_part };

    fn lower<I: StoreSink, P: LowerAll<I>>(
        &self,
        lowerer: &Lowerer<P>,
        state: &mut BodyBuilder<I>,
    ) -> Result<Option<ExprId>, StoreError> {
        match self {
            None | Some(None) => Ok(None),
            Some(Some(block)) => Ok(Some(lowerer.collect_block(state, block.get())?)),
        }
    }
}

/// A `let` that no condition disables: its pattern, its type, its initializer, its `else`.
#[tactic(auto, unfolding(hir_lower_builder::specs::Forms::let_stmt_form))]
fn kept_let<I: StoreSink, P: LowerAll<I>, Q: PatPart, T: TypePart, E: ExprPart, L: LetElsePart>(
    lowerer: &Lowerer<P>,
    state: &mut BodyBuilder<I>,
    pat: &Q,
    ty: &T,
    init: &E,
    else_: &L,
) -> Result<Option<Statement>, StoreError>
    requires pat { Q.can (P.can lowerer.now.parts) (P.rctx lowerer.now.parts).place pat.now }
    requires ty { T.can (P.can lowerer.now.parts) (P.rctx lowerer.now.parts).place ty.now }
    requires init { E.can (P.can lowerer.now.parts) init.now }
    requires else_ { L.can (P.can lowerer.now.parts) (P.rctx lowerer.now.parts).place else_.now }
    ensures { let rctx = P.rctx lowerer.now.parts in
        LowersStmt (tree.let_stmt
        (Q.read rctx pat.now)
        (T.read rctx ty.now)
        (E.read rctx init.now)
        (L.read rctx else_.now)) state.old result state.new }
{
    let pat = pat.lower(lowerer, state)?;
    let type_ref = ty.lower_if_present(lowerer, state)?;
    let initializer = init.lower_if_present(lowerer, state)?;
    let else_branch = else_.lower(lowerer, state)?;
    Ok(Some(Statement::Let {
        pat,
        type_ref,
        initializer,
        else_branch,
    }))
}

/// The statement, none where a condition disables it.
#[inline(never)]
pub(crate) fn let_stmt<
    I: StoreSink,
    P: LowerAll<I>,
    Q: PatPart,
    T: TypePart,
    E: ExprPart,
    L: LetElsePart,
>(
    lowerer: &Lowerer<P>,
    state: &mut BodyBuilder<I>,
    at: InFile<AstPtr>,
    pat: &Q,
    ty: &T,
    init: &E,
    else_: &L,
) -> Result<Option<Statement>, StoreError>
    requires pat { Q.can (P.can lowerer.now.parts) (P.rctx lowerer.now.parts).place pat.now }
    requires ty { T.can (P.can lowerer.now.parts) (P.rctx lowerer.now.parts).place ty.now }
    requires init { E.can (P.can lowerer.now.parts) init.now }
    requires else_ { L.can (P.can lowerer.now.parts) (P.rctx lowerer.now.parts).place else_.now }
    ensures { let rctx = P.rctx lowerer.now.parts in
        LowersStmt (asked_stmt at (rctx.answers.cfg (site_of at)) (tree.let_stmt
        (Q.read rctx pat.now)
        (T.read rctx ty.now)
        (E.read rctx init.now)
        (L.read rctx else_.now))) state.old result state.new }
{
    match lowerer.parts.cfg(site(at)) {
        Err(cfg) => {
            state.report(ExpressionStoreDiagnostics::InactiveCode { node: at, cfg })?;
            Ok(None)
        }
        Ok(()) => kept_let(lowerer, state, pat, ty, init, else_),
    }
}

//! What is in a block: statements, and what stands behind them. Those that are done so far are handed from one to the next, since
//! one may stand for several.

ghost use Rattle.std.specs.Prelude.{◌≡◌};
ghost use Rattle.hir_syntax.specs.declared.ast.StmtKind.{out-StmtKind};
ghost use Rattle.hir_store.specs.Range.{HasStatements};
ghost use Rattle.hir_env.specs.ResolveCtx.{site_of};
ghost use Rattle.hir_env.specs.Whole.{resolved_value, stmt_level};
ghost use Rattle.hir_lower_builder.specs.Calls.{found_of};
ghost use Rattle.hir_lower_builder.specs.Lowering.{HasFlag, Lowers};
ghost use Rattle.hir_lower_builder.specs.Nests.{Each, IfPresent, KidsStmt, KidsValue};
ghost use Rattle.hir_lower_expr.specs.Runs as spec;
ghost use Rattle.hir_lower_expr.specs.Runs.{MayEnter, StmtsBehind, StmtsExist, ValueBehind, ValueExists};

use crate::definitions::{def_stmt, rules_stmt};
use crate::kept::push_kept_statement;
use crate::lets::let_stmt;
use crate::macros::{call_of, pointed};
use hir_base::node::{AstPtr, InFile};
use hir_env::ctx::LowerCtx;
use hir_lower_builder::builder::BodyBuilder;
use hir_lower_builder::calls::{Entered, enter_splice};
use hir_lower_builder::parts::{LowerAll, Lowerer, site};
use hir_lower_builder::store_sink::StoreSink;
use hir_store::diagnostics::ExpressionStoreDiagnostics;
use hir_store::error::StoreError;
use hir_store::hir::Statement;
use hir_store::ids::ExprId;
use hir_store::lists::push_statement;
use hir_store::name::Name;
use hir_syntax::ast::{self, Fragment, MacroCall, MacroStmts};
use hir_syntax::{Boxed, Seq};
use std::collections::BTreeMap;

/// Whether the node is enabled; the condition that disables it is told.
#[inline(never)]
fn is_enabled<I: StoreSink, P: LowerAll<I>>(
    lowerer: &Lowerer<P>,
    state: &mut BodyBuilder<I>,
    at: InFile<AstPtr>,
) -> Result<bool, StoreError>
    ensures { let answer = (P.rctx lowerer.now.parts).answers.cfg (site_of at) in
        Lowers HasFlag (spec.check_enabled at answer) state.old result state.new }
{
    match lowerer.parts.cfg(site(at)) {
        Ok(()) => Ok(true),
        Err(cfg) => {
            state.report(ExpressionStoreDiagnostics::InactiveCode { node: at, cfg })?;
            Ok(false)
        }
    }
}

/// An expression statement, none where nothing is left of its expression.
fn expr_stmt(value: Option<ExprId>, has_semi: bool) -> Option<Statement>
    ensures { result ≡ spec.expr_stmt value has_semi }
{
    match value {
        None => None,
        Some(expr) => Some(Statement::Expr { expr, has_semi }),
    }
}

/// What is done of a block so far.
#[derive(Drop)]
pub(crate) struct Run {
    pub done: Seq<Statement>,
    /// How many macros of each name `macro_rules` has defined. Names stand in their order: whoever picks them can't make it slow.
    pub counts: BTreeMap<Name, u32>,
}

/// The statements that a call stands for, and where they are read.
fn stmts_of<'a>(entered: Entered<'a>) -> Option<(LowerCtx, &'a MacroStmts)>
    ensures { spec.stmts_lent result ≡ spec.stmts_there (found_of entered.entry) }
{
    match entered {
        Entered::Yes(place, Some(Fragment::Stmts(node))) => Some((place, node.get())),
        _ => None,
    }
}

/// A call that is written here, in statement or tail place: the statements that it stands for, and what stands behind them, to which
/// the call's node leads, too.
#[cycle(splice)]
#[inline(never)]
fn collect_call<I: StoreSink, P: LowerAll<I>>(
    lowerer: &Lowerer<P>,
    state: &mut BodyBuilder<I>,
    run: &mut Run,
    at: InFile<AstPtr>,
    call: &MacroCall,
) -> Result<Option<ExprId>, StoreError>
    requires part { MayEnter (P.can lowerer.now.parts) (P.rctx lowerer.now.parts) call.now }
    requires done { HasStatements state.old.stored run.old.done }
    ensures steps { ValueBehind (spec.spliced_call (P.rctx lowerer.now.parts) at call.now)
        run.old state.old result run.new state.new }
    ensures placed { ValueExists state.old result run.new.done state.new }
{
    let entered = enter_splice(lowerer, state, call)?;
    let Some((place, made)) = stmts_of(entered) else {
        return Ok(None);
    };
    let inner = lowerer.moved(place);
    collect_run(&inner, state, run, made.stmts.as_slice())?;
    let value = collect_value_opt(&inner, state, run, &made.expr)?;
    pointed(state, at, value)
}

/// An expression in statement or tail place.
#[cycle(splice)]
fn collect_value<I: StoreSink, P: LowerAll<I>>(
    lowerer: &Lowerer<P>,
    state: &mut BodyBuilder<I>,
    run: &mut Run,
    node: &ast::Expr,
) -> Result<Option<ExprId>, StoreError>
    requires part { KidsValue (P.can lowerer.now.parts) (P.rctx lowerer.now.parts).place node.now }
    requires done { HasStatements state.old.stored run.old.done }
    ensures steps { ValueBehind (λ d. resolved_value (P.rctx lowerer.now.parts) d node.now)
        run.old state.old result run.new state.new }
    ensures placed { ValueExists state.old result run.new.done state.new }
{
    let Some(call) = call_of(node) else {
        return lowerer.parts.maybe_collect_expr(state, node);
    };
    let at = lowerer.pointer(node.id, node.range);
    if !is_enabled(lowerer, state, at)? {
        return Ok(None);
    }
    match call {
        None => Ok(None),
        Some(call) => collect_call(lowerer, state, run, at, call),
    }
}

/// The same, none where it is absent.
#[cycle(splice)]
pub(crate) fn collect_value_opt<I: StoreSink, P: LowerAll<I>>(
    lowerer: &Lowerer<P>,
    state: &mut BodyBuilder<I>,
    run: &mut Run,
    part: &Option<Boxed<ast::Expr>>,
) -> Result<Option<ExprId>, StoreError>
    requires part { IfPresent (KidsValue (P.can lowerer.now.parts) (P.rctx lowerer.now.parts).place) part.now }
    requires done { HasStatements state.old.stored run.old.done }
    ensures steps { ValueBehind (spec.value_part (P.rctx lowerer.now.parts) part.now)
        run.old state.old result run.new state.new }
    ensures placed { ValueExists state.old result run.new.done state.new }
{
    match part {
        None => Ok(None),
        Some(part) => collect_value(lowerer, state, run, part.get()),
    }
}

/// What a statement stands for, behind those that are done.
#[cycle(splice)]
fn collect_stmt<I: StoreSink, P: LowerAll<I>>(
    lowerer: &Lowerer<P>,
    state: &mut BodyBuilder<I>,
    run: &mut Run,
    node: &ast::Stmt,
) -> Result<(), StoreError>
    requires parts { KidsStmt (P.can lowerer.now.parts) (P.rctx lowerer.now.parts).place (out-StmtKind node.now.kind) }
    requires done { HasStatements state.old.stored run.old.done }
    ensures steps { StmtsBehind (λ d. stmt_level (P.rctx lowerer.now.parts) d node.now)
        run.old state.old result run.new state.new }
    ensures placed { StmtsExist state.old result run.new.done state.new }
{
    let at = lowerer.pointer(node.id, node.range);
    match &node.kind {
        ast::StmtKind::LetStmt {
            pat,
            ty,
            init,
            else_,
        } => {
            let made = let_stmt(lowerer, state, at, pat, ty, init, else_)?;
            push_kept_statement(&mut run.done, made)?;
            Ok(())
        }
        ast::StmtKind::ExprStmt { expr, semi } => {
            let value = collect_value_opt(lowerer, state, run, expr)?;
            push_kept_statement(&mut run.done, expr_stmt(value, *semi))?;
            Ok(())
        }
        ast::StmtKind::MacroRules { name } => {
            if is_enabled(lowerer, state, at)? {
                rules_stmt(lowerer, state, run, name)?;
            }
            Ok(())
        }
        ast::StmtKind::MacroDef { name } => {
            if is_enabled(lowerer, state, at)? {
                def_stmt(lowerer, state, &mut run.done, name)?;
            }
            Ok(())
        }
        ast::StmtKind::Item => {
            push_statement(&mut run.done, Statement::Item)?;
            Ok(())
        }
    }
}

/// Statements, behind those that are done.
#[cycle(splice)]
pub(crate) fn collect_run<I: StoreSink, P: LowerAll<I>>(
    lowerer: &Lowerer<P>,
    state: &mut BodyBuilder<I>,
    run: &mut Run,
    mut all: &[ast::Stmt],
) -> Result<(), StoreError>
    requires parts { Each (λ s. KidsStmt (P.can lowerer.now.parts) (P.rctx lowerer.now.parts).place (out-StmtKind s.kind)) all.now }
    requires done { HasStatements state.old.stored run.old.done }
    ensures steps { StmtsBehind (spec.run_part (P.rctx lowerer.now.parts) all.entry.now)
        run.old state.old result run.new state.new }
    ensures placed { StmtsExist state.old result run.new.done state.new }
{
    while let [one, rest @ ..] = all {
        collect_stmt(lowerer, state, run, one)?;
        all = rest;
    }
    Ok(())
}

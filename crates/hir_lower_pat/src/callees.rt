//! The callee of a call that is assigned to: a path as it stands, or one that macro calls stand for. Whether it is one is found
//! out before anything is told of the calls, so that a call that is a place is lowered once.

ghost use Rattle.std.specs.Prelude.{◌≡◌, is_some};
ghost use Rattle.hir_store.specs.Range.{HasPathOption};
ghost use Rattle.hir_env.specs.Targets as of;
ghost use Rattle.hir_env.specs.Whole.{resolved_expr};
ghost use Rattle.hir_lower_builder.specs.Lowering.{Lowers};
ghost use Rattle.hir_lower_pat.specs.Calls.{expr_lent};
ghost use Rattle.hir_lower_pat.specs.TargetLists.{callee_call, callee_steps, expr_behind, path_there};

use crate::calls::expr_of;
use crate::paths::PathPart;
use hir_env::ctx::LowerCtx;
use hir_env::expand::{Expansion, FragmentKind};
use hir_lower_builder::builder::BodyBuilder;
use hir_lower_builder::calls::enter;
use hir_lower_builder::parts::{LowerExprs, LowerParts, Lowerer, site};
use hir_lower_builder::store_sink::StoreSink;
use hir_store::error::StoreError;
use hir_store::path::Path;
use hir_syntax::ast::{self, Fragment};

/// The expression that a call stands for, and where it is read. Nothing is told of the call.
pub fn expr_behind<'a, P: LowerParts>(
    lowerer: &'a Lowerer<P>,
    call: &ast::MacroCall,
) -> Option<(LowerCtx, &'a ast::Expr)>
    ensures { expr_lent result ≡ expr_behind (P.rctx lowerer.now.parts) call.now }
{
    let place = lowerer.parts.place();
    if place.left == 0 {
        return None;
    }
    let at = lowerer.pointer(call.id, call.range);
    match lowerer.parts.expand(site(at), call, FragmentKind::Expr) {
        Expansion::Expanded(file_id, Some(Fragment::Expr(node)), _) => {
            let left = place.left - 1;
            let inside = LowerCtx {
                file_id,
                left,
                ..place
            };
            Some((inside, node.get()))
        }
        _ => None,
    }
}

/// Whether a call stands for a path.
#[cycle(is_path)]
fn called_is_path<P: LowerParts>(lowerer: &Lowerer<P>, written: &ast::MacroCall) -> bool
    ensures { result ≡ is_some (path_there (P.rctx lowerer.now.parts) (expr_behind (P.rctx lowerer.now.parts) written.now)) }
{
    match expr_behind(lowerer, written) {
        None => false,
        Some((place, node)) => is_path(&lowerer.moved(place), node),
    }
}

/// Whether a callee is a path, itself or through calls, whatever disables it.
#[cycle(is_path)]
pub(crate) fn is_path<P: LowerParts>(lowerer: &Lowerer<P>, node: &ast::Expr) -> bool
    ensures { result ≡ is_some (of.callee_path (resolved_expr (P.rctx lowerer.now.parts) node.now)) }
{
    match &node.kind {
        ast::ExprKind::PathExpr { .. } => true,
        ast::ExprKind::MacroExpr { call } => match call {
            None => false,
            Some(written) => called_is_path(lowerer, written),
        },
        _ => false,
    }
}

/// The same of a call: it is told, and then what it stands for is the callee.
#[cycle(callee)]
#[inline(never)]
fn called_callee<I: StoreSink, P: LowerExprs<I>>(
    lowerer: &Lowerer<P>,
    state: &mut BodyBuilder<I>,
    written: &ast::MacroCall,
) -> Result<Option<Path>, StoreError>
    requires { (P.can lowerer.now.parts).target_call (P.rctx lowerer.now.parts).place written.now }
    ensures { Lowers HasPathOption (callee_call (P.rctx lowerer.now.parts) written.now) state.old result state.new }
{
    let entered = enter(lowerer, state, FragmentKind::Expr, written)?;
    match expr_of(entered) {
        None => Ok(None),
        Some((place, node)) => callee(&lowerer.moved(place), state, node),
    }
}

/// The path of a callee, none where it is absent or refused. The calls are told from the outside in, and the path is read inside of
/// them.
#[cycle(callee)]
pub(crate) fn callee<I: StoreSink, P: LowerExprs<I>>(
    lowerer: &Lowerer<P>,
    state: &mut BodyBuilder<I>,
    node: &ast::Expr,
) -> Result<Option<Path>, StoreError>
    requires { (P.can lowerer.now.parts).target (P.rctx lowerer.now.parts).place node.now }
    ensures { Lowers HasPathOption (callee_steps (resolved_expr (P.rctx lowerer.now.parts) node.now)) state.old result state.new }
{
    match &node.kind {
        ast::ExprKind::PathExpr { path } => path.lower(lowerer, state, lowerer.parts.place()),
        ast::ExprKind::MacroExpr { call } => match call {
            None => Ok(None),
            Some(written) => called_callee(lowerer, state, written),
        },
        _ => Ok(None),
    }
}

//! Macro calls in expression place.

ghost use Rattle.std.specs.Prelude.{◌≡◌};
ghost use Rattle.std.specs.Option.{option_copied};
ghost use Rattle.hir_syntax.specs.declared.ast.ExprKind.{out-ExprKind};
ghost use Rattle.hir_store.specs.Range.{HasExprOption};
ghost use Rattle.hir_lower_builder.specs.Calls.{found_of};
ghost use Rattle.hir_lower_builder.specs.Lowering.{Lowers};
ghost use Rattle.hir_lower_builder.specs.Methods.{MaybeLowersExpr};
ghost use Rattle.hir_lower_builder.specs.Nests.{IfPresent};
ghost use Rattle.hir_lower_expr.specs.Calls as spec;

use hir_base::node::{AstPtr, InFile};
use hir_env::ctx::LowerCtx;
use hir_env::expand::FragmentKind;
use hir_lower_builder::builder::BodyBuilder;
use hir_lower_builder::calls::{Entered, enter};
use hir_lower_builder::parts::{LowerAll, Lowerer};
use hir_lower_builder::store_sink::StoreSink;
use hir_store::error::StoreError;
use hir_store::hir::Expr;
use hir_store::ids::ExprId;
use hir_syntax::ast::{self, Fragment, MacroCall};

/// The call that an expression is, which the text may lack.
pub fn call_of(node: &ast::Expr) -> Option<&Option<MacroCall>>
    ensures { option_copied result ≡ spec.call_in (out-ExprKind node.now.kind) }
{
    match &node.kind {
        ast::ExprKind::MacroExpr { call } => Some(call),
        _ => None,
    }
}

/// The expression that a call stands for, and where it is read.
fn expr_of<'a>(entered: Entered<'a>) -> Option<(LowerCtx, &'a ast::Expr)>
    ensures { spec.expr_lent result ≡ spec.expr_there (found_of entered.entry) }
{
    match entered {
        Entered::Yes(place, Some(Fragment::Expr(node))) => Some((place, node.get())),
        _ => None,
    }
}

/// The node leads to what is left of what it stands for.
pub(crate) fn pointed<I: StoreSink>(
    state: &mut BodyBuilder<I>,
    at: InFile<AstPtr>,
    inner: Option<ExprId>,
) -> Result<Option<ExprId>, StoreError>
    requires { HasExprOption state.old.stored inner }
    ensures { Lowers HasExprOption (spec.pointed at inner) state.old result state.new }
{
    let Some(id) = inner else {
        return Ok(None);
    };
    state.point(at, id)?;
    Ok(Some(id))
}

/// A call that is written here.
#[tactic(auto, using(crate::proofs::CallLemmas::call_on))]
fn call_form<I: StoreSink, P: LowerAll<I>>(
    lowerer: &Lowerer<P>,
    state: &mut BodyBuilder<I>,
    at: InFile<AstPtr>,
    call: &MacroCall,
) -> Result<Option<ExprId>, StoreError>
    requires { (P.can lowerer.now.parts).call (P.rctx lowerer.now.parts).place call.now }
    ensures { MaybeLowersExpr (spec.written_call (P.rctx lowerer.now.parts) at call.now) state.old result state.new }
{
    let entered = enter(lowerer, state, FragmentKind::Expr, call)?;
    match expr_of(entered) {
        None => Ok(Some(state.alloc_expr(Expr::Missing, Some(at))?)),
        Some((place, node)) => {
            let inner = lowerer.parts.maybe_collect_expr_inside(state, place, node)?;
            pointed(state, at, inner)
        }
    }
}

/// A call as an expression: what it stands for, which is missing at the call where it stands for no expression. Of one that the text
/// lacks, and of one whose expression a condition disables, nothing is left.
#[tactic(auto, unfolding(hir_lower_builder::specs::Calls::track_gone))]
#[inline(never)]
pub fn macro_form<I: StoreSink, P: LowerAll<I>>(
    lowerer: &Lowerer<P>,
    state: &mut BodyBuilder<I>,
    at: InFile<AstPtr>,
    call: &Option<MacroCall>,
) -> Result<Option<ExprId>, StoreError>
    requires { IfPresent ((P.can lowerer.now.parts).call (P.rctx lowerer.now.parts).place) call.now }
    ensures { MaybeLowersExpr (spec.call_at (P.rctx lowerer.now.parts) at call.now) state.old result state.new }
{
    match call {
        None => Ok(None),
        Some(call) => call_form(lowerer, state, at, call),
    }
}

//! Stores expressions whose parts are lowered. An `Expr` is large: one that is made here stands in no frame in which a part is lowered,
//! of which there are as many as levels.

ghost use Rattle.std.specs.Prelude.{None, Some};
ghost use Rattle.hir_store.specs.declared.hir.Expr.TheVariants as hir;
ghost use Rattle.hir_store.specs.Range.{HasConst, HasExpr, HasExprOption, HasLabelOption, HasParts, HasStatements};
ghost use Rattle.hir_lower_builder.specs.Forms as spec;
ghost use Rattle.hir_lower_builder.specs.Lowering.{Lowers};
ghost use Rattle.hir_lower_builder.specs.Lowering as step;

use hir_base::node::{AstPtr, InFile};
use hir_lower_builder::builder::BodyBuilder;
use hir_lower_builder::store_sink::StoreSink;
use hir_store::error::StoreError;
use hir_store::hir::{Expr, LoopSource, MatchArm, Statement};
use hir_store::ids::{BlockId, ExprId, LabelId};
use hir_store::type_ref::ConstRef;
use hir_syntax::Seq;

/// A loop.
#[inline(never)]
pub(crate) fn store_loop<I: StoreSink>(
    state: &mut BodyBuilder<I>,
    at: InFile<AstPtr>,
    body: ExprId,
    label: Option<LabelId>,
    source: LoopSource,
) -> Result<ExprId, StoreError>
    requires body { HasExpr state.old.stored body }
    requires label { HasLabelOption state.old.stored label }
    ensures { Lowers HasExpr (step.alloc_expr (hir.Loop body label source) (Some at)) state.old result state.new }
{
    state.alloc_expr(
        Expr::Loop {
            body,
            label,
            source,
        },
        Some(at),
    )
}

/// A loop that lowering makes up.
#[inline(never)]
pub(crate) fn store_made_loop<I: StoreSink>(
    state: &mut BodyBuilder<I>,
    at: InFile<AstPtr>,
    body: ExprId,
    label: Option<LabelId>,
    source: LoopSource,
) -> Result<ExprId, StoreError>
    requires body { HasExpr state.old.stored body }
    requires label { HasLabelOption state.old.stored label }
    ensures { Lowers HasExpr (step.alloc_desugared (hir.Loop body label source) (Some at)) state.old result state.new }
{
    state.alloc_desugared(
        Expr::Loop {
            body,
            label,
            source,
        },
        Some(at),
    )
}

/// A break that names no label and has no value.
#[inline(never)]
pub(crate) fn store_break<I: StoreSink>(
    state: &mut BodyBuilder<I>,
    at: InFile<AstPtr>,
) -> Result<ExprId, StoreError>
    ensures { Lowers HasExpr (step.alloc_expr (hir.Break None None) (Some at)) state.old result state.new }
{
    let out = Expr::Break {
        label: None,
        expr: None,
    };
    state.alloc_expr(out, Some(at))
}

/// A match with these arms.
#[inline(never)]
pub(crate) fn store_match<I: StoreSink>(
    state: &mut BodyBuilder<I>,
    at: InFile<AstPtr>,
    expr: ExprId,
    arms: Seq<MatchArm>,
) -> Result<ExprId, StoreError>
    requires { HasParts state.old.stored (hir.Match expr arms) }
    ensures { Lowers HasExpr (step.alloc_expr (hir.Match expr arms) (Some at)) state.old result state.new }
{
    state.alloc_expr(Expr::Match { expr, arms }, Some(at))
}

/// A match that lowering makes up.
#[inline(never)]
pub(crate) fn store_made_match<I: StoreSink>(
    state: &mut BodyBuilder<I>,
    at: InFile<AstPtr>,
    expr: ExprId,
    arms: Seq<MatchArm>,
) -> Result<ExprId, StoreError>
    requires { HasParts state.old.stored (hir.Match expr arms) }
    ensures { Lowers HasExpr (step.alloc_desugared (hir.Match expr arms) (Some at)) state.old result state.new }
{
    state.alloc_desugared(Expr::Match { expr, arms }, Some(at))
}

/// A constant.
#[inline(never)]
pub(crate) fn store_const<I: StoreSink>(
    state: &mut BodyBuilder<I>,
    at: InFile<AstPtr>,
    constant: ConstRef,
) -> Result<ExprId, StoreError>
    requires { HasConst state.old.stored constant }
    ensures { Lowers HasExpr (step.alloc_expr (hir.Const constant) (Some at)) state.old result state.new }
{
    state.alloc_expr(Expr::Const(constant), Some(at))
}

/// A block with these statements and this tail, which comes from the node, if from any.
#[inline(never)]
pub(crate) fn store_block<I: StoreSink>(
    state: &mut BodyBuilder<I>,
    at: Option<InFile<AstPtr>>,
    is_unsafe: bool,
    label: Option<LabelId>,
    id: Option<BlockId>,
    statements: Seq<Statement>,
    tail: Option<ExprId>,
) -> Result<ExprId, StoreError>
    requires label { HasLabelOption state.old.stored label }
    requires statements { HasStatements state.old.stored statements }
    requires tail { HasExprOption state.old.stored tail }
    ensures { Lowers HasExpr (step.alloc_expr (spec.settled_block is_unsafe label id (statements, tail)) at) state.old result state.new }
{
    state.alloc_expr(
        Expr::Block {
            is_unsafe,
            label,
            id,
            statements,
            tail,
        },
        at,
    )
}

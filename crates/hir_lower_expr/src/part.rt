//! What a part of the tree is to a form: something that is lowered. No tree is then among the types of the form.

ghost use Rattle.std.specs.Prelude.{◌≡◌, Bool, None, is_some};
ghost use Rattle.hir_env.specs.ResolvedTree.{Constant, Exprs, OptionArgs, OptionBlock, OptionExpr, OptionPat, OptionPath, OptionType};
ghost use Rattle.hir_env.specs.Conditions as of;
ghost use Rattle.hir_env.specs.declared.ctx.LowerCtx.{LowerCtx as AtCtx};
ghost use Rattle.hir_env.specs.ResolveCtx.{ResolveCtx};
ghost use Rattle.hir_env.specs.Targets.{head_pointer, resolves, target_of};
ghost use Rattle.hir_env.specs.Whole.{arg_list_part, args_part, block_part, expr_part, exprs_part, pat_part};
ghost use Rattle.hir_env.specs.Whole.{path_part, type_part};
ghost use Rattle.hir_lower_builder.specs.Nests.{Claims, Each, IfPresent};
ghost use Rattle.hir_lower_builder.specs.Methods.{LowersArgs, LowersBlockOpt, LowersConstant, LowersEach, LowersExprOpt, LowersIfPresent};
ghost use Rattle.hir_lower_builder.specs.Methods.{LowersPath, LowersTarget, LowersTop, LowersTypeIfPresent, LowersTypeOpt};
ghost use Rattle.hir_lower_builder.specs.Methods.{at_place, constant_at};

use crate::conditions::holds_let;
use crate::fors::head_node;
use hir_base::node::{AstPtr, InFile};
use hir_env::ctx::LowerCtx;
use hir_lower_builder::builder::BodyBuilder;
use hir_lower_builder::parts::{LowerAll, LowerParts, Lowerer};
use hir_lower_builder::store_sink::StoreSink;
use hir_store::error::StoreError;
use hir_store::ids::{ExprId, PatId, TypeRefId};
use hir_store::path::{GenericArgs, Path};
use hir_store::type_ref::ConstRef;
use hir_syntax::{Boxed, Seq, ast};

/// An expression that is there or isn't.
pub trait ExprPart {
    ghost can: { Claims → Self → Type 0 };

    /// At another place than the form's.
    ghost can_inside: { Claims → AtCtx → Self → Type 0 };

    /// As the assignee expression.
    ghost can_assignee: { Claims → AtCtx → Self → Type 0 };

    ghost read: { ResolveCtx → Self → OptionExpr };

    ghost is_there: { Self → Bool };

    fn is_present(&self) -> bool
        ensures { result ≡ is_there self.now };

    /// The node of the expression, or this one where it is absent.
    fn node_or<P: LowerParts>(&self, lowerer: &Lowerer<P>, at: InFile<AstPtr>) -> InFile<AstPtr>
        ensures { result ≡ head_pointer at (read (P.rctx lowerer.now.parts) self.now) };

    /// Whether it holds a `let`, as the condition of a `while`.
    fn holds_let<P: LowerParts>(&self, lowerer: &Lowerer<P>) -> bool
        ensures { result ≡ of.holds_let (read (P.rctx lowerer.now.parts) self.now) };

    /// The expression, missing where it is absent or a condition disables it.
    fn lower<I: StoreSink, P: LowerAll<I>>(
        &self,
        lowerer: &Lowerer<P>,
        state: &mut BodyBuilder<I>,
    ) -> Result<ExprId, StoreError>
        requires { can (P.can lowerer.now.parts) self.now }
        ensures { LowersExprOpt (read (P.rctx lowerer.now.parts) self.now) state.old result state.new };

    /// The expression, none where it is absent, and missing where a condition disables it.
    fn lower_if_present<I: StoreSink, P: LowerAll<I>>(
        &self,
        lowerer: &Lowerer<P>,
        state: &mut BodyBuilder<I>,
    ) -> Result<Option<ExprId>, StoreError>
        requires { can (P.can lowerer.now.parts) self.now }
        ensures { LowersIfPresent (read (P.rctx lowerer.now.parts) self.now) state.old result state.new };

    /// The expression, read at this place, missing where it is absent or a condition disables it.
    fn lower_inside<I: StoreSink, P: LowerAll<I>>(
        &self,
        lowerer: &Lowerer<P>,
        state: &mut BodyBuilder<I>,
        place: LowerCtx,
    ) -> Result<ExprId, StoreError>
        requires { can_inside (P.can lowerer.now.parts) place self.now }
        ensures { LowersExprOpt (read (at_place (P.rctx lowerer.now.parts) place) self.now) state.old result state.new };

    /// The assignee expression, missing where it is absent.
    fn lower_assignee<I: StoreSink, P: LowerAll<I>>(
        &self,
        lowerer: &Lowerer<P>,
        state: &mut BodyBuilder<I>,
    ) -> Result<PatId, StoreError>
        requires { can_assignee (P.can lowerer.now.parts) (P.rctx lowerer.now.parts).place self.now }
        ensures { let rctx = P.rctx lowerer.now.parts in
            LowersTarget (target_of (resolves rctx.answers rctx.place) (read rctx self.now)) state.old result state.new };
}

impl ExprPart for Option<Boxed<ast::Expr>> {
    ghost can = { λ claims. IfPresent claims.expr };

    ghost can_inside = { λ claims place. IfPresent (claims.inner place) };

    ghost can_assignee = { λ claims place. IfPresent (claims.target place) };

    ghost read = { expr_part };

    ghost is_there = { is_some };

    fn is_present(&self) -> bool {
        self.is_some()
    }

    fn node_or<P: LowerParts>(&self, lowerer: &Lowerer<P>, at: InFile<AstPtr>) -> InFile<AstPtr> {
        head_node(lowerer, at, self)
    }

    fn holds_let<P: LowerParts>(&self, lowerer: &Lowerer<P>) -> bool {
        holds_let(lowerer, self)
    }

    fn lower<I: StoreSink, P: LowerAll<I>>(
        &self,
        lowerer: &Lowerer<P>,
        state: &mut BodyBuilder<I>,
    ) -> Result<ExprId, StoreError> {
        lowerer.collect_expr_opt(state, self)
    }

    fn lower_if_present<I: StoreSink, P: LowerAll<I>>(
        &self,
        lowerer: &Lowerer<P>,
        state: &mut BodyBuilder<I>,
    ) -> Result<Option<ExprId>, StoreError> {
        lowerer.collect_expr_if_present(state, self)
    }

    fn lower_inside<I: StoreSink, P: LowerAll<I>>(
        &self,
        lowerer: &Lowerer<P>,
        state: &mut BodyBuilder<I>,
        place: LowerCtx,
    ) -> Result<ExprId, StoreError> {
        lowerer.collect_expr_opt_inside(state, place, self)
    }

    fn lower_assignee<I: StoreSink, P: LowerAll<I>>(
        &self,
        lowerer: &Lowerer<P>,
        state: &mut BodyBuilder<I>,
    ) -> Result<PatId, StoreError> {
        lowerer.parts.lower_target(state, self)
    }
}

/// The expression of a constant, which is there or isn't.
pub trait ConstPart {
    ghost can: { Claims → AtCtx → Self → Type 0 };

    ghost read: { ResolveCtx → Self → Constant };

    /// The constant, which is missing where the expression is absent or a condition disables it.
    fn lower<I: StoreSink, P: LowerAll<I>>(
        &self,
        lowerer: &Lowerer<P>,
        state: &mut BodyBuilder<I>,
    ) -> Result<ConstRef, StoreError>
        requires { can (P.can lowerer.now.parts) (P.rctx lowerer.now.parts).place self.now }
        ensures { LowersConstant (read (P.rctx lowerer.now.parts) self.now) state.old result state.new };
}

impl ConstPart for Option<Boxed<ast::Expr>> {
    ghost can = { λ claims. claims.constant };

    ghost read = { constant_at };

    fn lower<I: StoreSink, P: LowerAll<I>>(
        &self,
        lowerer: &Lowerer<P>,
        state: &mut BodyBuilder<I>,
    ) -> Result<ConstRef, StoreError> {
        lowerer
            .parts
            .collect_constant(state, lowerer.parts.place(), self)
    }
}

/// Expressions one after another.
pub trait ListPart {
    ghost can: { Claims → Self → Type 0 };

    ghost read: { ResolveCtx → Self → Exprs };

    /// Those that no condition disables.
    fn lower<I: StoreSink, P: LowerAll<I>>(
        &self,
        lowerer: &Lowerer<P>,
        state: &mut BodyBuilder<I>,
    ) -> Result<Seq<ExprId>, StoreError>
        requires { can (P.can lowerer.now.parts) self.now }
        ensures { LowersEach (read (P.rctx lowerer.now.parts) self.now) state.old result state.new };
}

impl ListPart for Seq<ast::Expr> {
    ghost can = { λ claims. Each claims.expr };

    ghost read = { exprs_part };

    fn lower<I: StoreSink, P: LowerAll<I>>(
        &self,
        lowerer: &Lowerer<P>,
        state: &mut BodyBuilder<I>,
    ) -> Result<Seq<ExprId>, StoreError> {
        lowerer.collect_each(state, self.as_slice())
    }
}

/// Arguments, none where they are absent.
pub trait ArgsPart {
    ghost can: { Claims → Self → Type 0 };

    ghost read: { ResolveCtx → Self → Exprs };

    ghost is_there: { Self → Bool };

    fn lower<I: StoreSink, P: LowerAll<I>>(
        &self,
        lowerer: &Lowerer<P>,
        state: &mut BodyBuilder<I>,
    ) -> Result<Seq<ExprId>, StoreError>
        requires { can (P.can lowerer.now.parts) self.now }
        ensures { LowersEach (read (P.rctx lowerer.now.parts) self.now) state.old result state.new };
}

impl ArgsPart for Option<Seq<ast::Expr>> {
    ghost can = { λ claims. IfPresent (Each claims.expr) };

    ghost read = { args_part };

    ghost is_there = { is_some };

    fn lower<I: StoreSink, P: LowerAll<I>>(
        &self,
        lowerer: &Lowerer<P>,
        state: &mut BodyBuilder<I>,
    ) -> Result<Seq<ExprId>, StoreError> {
        lowerer.arguments(state, self)
    }
}

/// A block that is there or isn't, in a place where only a block may stand.
pub trait BlockPart {
    ghost can: { Claims → AtCtx → Self → Type 0 };

    ghost read: { ResolveCtx → Self → OptionBlock };

    /// The block, missing where it is absent.
    fn lower<I: StoreSink, P: LowerAll<I>>(
        &self,
        lowerer: &Lowerer<P>,
        state: &mut BodyBuilder<I>,
    ) -> Result<ExprId, StoreError>
        requires { can (P.can lowerer.now.parts) (P.rctx lowerer.now.parts).place self.now }
        ensures { LowersBlockOpt (read (P.rctx lowerer.now.parts) self.now) state.old result state.new };
}

impl BlockPart for Option<Boxed<ast::BlockExpr>> {
    ghost can = { λ claims place. IfPresent (claims.block place) };

    ghost read = { block_part };

    fn lower<I: StoreSink, P: LowerAll<I>>(
        &self,
        lowerer: &Lowerer<P>,
        state: &mut BodyBuilder<I>,
    ) -> Result<ExprId, StoreError> {
        lowerer.collect_block_opt(state, self)
    }
}

/// A whole pattern that is there or isn't.
pub trait PatPart {
    ghost can: { Claims → AtCtx → Self → Type 0 };

    ghost read: { ResolveCtx → Self → OptionPat };

    /// The pattern, missing where it is absent.
    fn lower<I: StoreSink, P: LowerAll<I>>(
        &self,
        lowerer: &Lowerer<P>,
        state: &mut BodyBuilder<I>,
    ) -> Result<PatId, StoreError>
        requires { can (P.can lowerer.now.parts) (P.rctx lowerer.now.parts).place self.now }
        ensures { LowersTop (read (P.rctx lowerer.now.parts) self.now) state.old result state.new };
}

impl PatPart for Option<Boxed<ast::Pat>> {
    ghost can = { λ claims place. IfPresent (claims.pat place) };

    ghost read = { pat_part };

    fn lower<I: StoreSink, P: LowerAll<I>>(
        &self,
        lowerer: &Lowerer<P>,
        state: &mut BodyBuilder<I>,
    ) -> Result<PatId, StoreError> {
        lowerer.parts.top_pat(state, self)
    }
}

/// A type that is there or isn't.
pub trait TypePart {
    ghost can: { Claims → AtCtx → Self → Type 0 };

    ghost read: { ResolveCtx → Self → OptionType };

    /// The type, an error where it is absent.
    fn lower<I: StoreSink, P: LowerAll<I>>(
        &self,
        lowerer: &Lowerer<P>,
        state: &mut BodyBuilder<I>,
    ) -> Result<TypeRefId, StoreError>
        requires { can (P.can lowerer.now.parts) (P.rctx lowerer.now.parts).place self.now }
        ensures { LowersTypeOpt None (read (P.rctx lowerer.now.parts) self.now) state.old result state.new };

    /// The type, none where it is absent.
    fn lower_if_present<I: StoreSink, P: LowerAll<I>>(
        &self,
        lowerer: &Lowerer<P>,
        state: &mut BodyBuilder<I>,
    ) -> Result<Option<TypeRefId>, StoreError>
        requires { can (P.can lowerer.now.parts) (P.rctx lowerer.now.parts).place self.now }
        ensures { LowersTypeIfPresent (read (P.rctx lowerer.now.parts) self.now) state.old result state.new };
}

impl TypePart for Option<Boxed<ast::Type_>> {
    ghost can = { λ claims place. IfPresent (claims.type_ place) };

    ghost read = { type_part };

    fn lower<I: StoreSink, P: LowerAll<I>>(
        &self,
        lowerer: &Lowerer<P>,
        state: &mut BodyBuilder<I>,
    ) -> Result<TypeRefId, StoreError> {
        lowerer.type_or_error(state, lowerer.parts.place(), &None, self)
    }

    fn lower_if_present<I: StoreSink, P: LowerAll<I>>(
        &self,
        lowerer: &Lowerer<P>,
        state: &mut BodyBuilder<I>,
    ) -> Result<Option<TypeRefId>, StoreError> {
        lowerer.type_if_present(state, lowerer.parts.place(), self)
    }
}

/// A path that is there or isn't.
pub trait PathPart {
    ghost can: { Claims → AtCtx → Self → Type 0 };

    ghost read: { ResolveCtx → Self → OptionPath };

    /// The path, none where it is absent or refused.
    fn lower<I: StoreSink, P: LowerAll<I>>(
        &self,
        lowerer: &Lowerer<P>,
        state: &mut BodyBuilder<I>,
    ) -> Result<Option<Path>, StoreError>
        requires { can (P.can lowerer.now.parts) (P.rctx lowerer.now.parts).place self.now }
        ensures { LowersPath (read (P.rctx lowerer.now.parts) self.now) state.old result state.new };
}

impl PathPart for Option<Boxed<ast::Path>> {
    ghost can = { λ claims place. IfPresent (claims.path place) };

    ghost read = { path_part };

    fn lower<I: StoreSink, P: LowerAll<I>>(
        &self,
        lowerer: &Lowerer<P>,
        state: &mut BodyBuilder<I>,
    ) -> Result<Option<Path>, StoreError> {
        lowerer.path_if_present(state, lowerer.parts.place(), self)
    }
}

/// Generic arguments, none where they are absent or yield nothing.
pub trait GenericsPart {
    ghost can: { Claims → AtCtx → Self → Type 0 };

    ghost read: { ResolveCtx → Self → OptionArgs };

    fn lower<I: StoreSink, P: LowerAll<I>>(
        &self,
        lowerer: &Lowerer<P>,
        state: &mut BodyBuilder<I>,
    ) -> Result<Option<GenericArgs>, StoreError>
        requires { can (P.can lowerer.now.parts) (P.rctx lowerer.now.parts).place self.now }
        ensures { LowersArgs (read (P.rctx lowerer.now.parts) self.now) state.old result state.new };
}

impl GenericsPart for Option<ast::GenericArgList> {
    ghost can = { λ claims place. IfPresent (claims.args place) };

    ghost read = { arg_list_part };

    fn lower<I: StoreSink, P: LowerAll<I>>(
        &self,
        lowerer: &Lowerer<P>,
        state: &mut BodyBuilder<I>,
    ) -> Result<Option<GenericArgs>, StoreError> {
        lowerer.args_if_present(state, lowerer.parts.place(), self)
    }
}

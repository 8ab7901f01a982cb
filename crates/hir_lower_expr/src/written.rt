//! A block that is written here: it is handed on to be lowered, or read here.

ghost use Rattle.hir_syntax.specs.declared.ast.BlockExpr.{out-BlockExpr};
ghost use Rattle.hir_env.specs.ResolvedTree.{Block};
ghost use Rattle.hir_env.specs.declared.ctx.LowerCtx.{LowerCtx as AtCtx};
ghost use Rattle.hir_env.specs.ResolveCtx.{ResolveCtx};
ghost use Rattle.hir_env.specs.Whole.{resolved_plain};
ghost use Rattle.hir_lower_builder.specs.Lower.{StoredContents};
ghost use Rattle.hir_lower_builder.specs.Lowering.{Lowering, Lowers};
ghost use Rattle.hir_lower_builder.specs.Nests.{Claims, KidsBlock};
ghost use Rattle.hir_lower_builder.specs.Methods.{HasContents, HasRole, LowersInside, at_place, contents_at};

use crate::blocks::flat_contents;
use hir_env::ctx::LowerCtx;
use hir_lower_builder::builder::BodyBuilder;
use hir_lower_builder::parts::{BlockRole, LowerAll, Lowerer};
use hir_lower_builder::store_sink::StoreSink;
use hir_store::error::StoreError;
use hir_store::hir::Statement;
use hir_store::ids::ExprId;
use hir_syntax::{Seq, ast};

/// What a form does with a block.
pub(crate) trait WrittenBlock {
    ghost can: { Claims → AtCtx → Self → Type 0 };

    /// Where it is read here.
    ghost can_parts: { Claims → AtCtx → Self → Type 0 };

    ghost read: { ResolveCtx → Self → Block };

    ghost stored: { ResolveCtx → Self → Lowering StoredContents };

    /// The block, as one of this role.
    fn lower<I: StoreSink, P: LowerAll<I>>(
        &self,
        lowerer: &Lowerer<P>,
        state: &mut BodyBuilder<I>,
        role: BlockRole,
    ) -> Result<ExprId, StoreError>
        requires part { can (P.can lowerer.now.parts) (P.rctx lowerer.now.parts).place self.now }
        requires role { HasRole state.old.stored role }
        ensures { LowersInside role (read (P.rctx lowerer.now.parts) self.now) state.old result state.new };

    /// The same, read at this place.
    fn lower_inside<I: StoreSink, P: LowerAll<I>>(
        &self,
        lowerer: &Lowerer<P>,
        state: &mut BodyBuilder<I>,
        place: LowerCtx,
        role: BlockRole,
    ) -> Result<ExprId, StoreError>
        requires part { can (P.can lowerer.now.parts) place self.now }
        requires role { HasRole state.old.stored role }
        ensures { LowersInside role (read (at_place (P.rctx lowerer.now.parts) place) self.now) state.old result state.new };

    /// What is in the block, which is read here.
    fn contents<I: StoreSink, P: LowerAll<I>>(
        &self,
        lowerer: &Lowerer<P>,
        state: &mut BodyBuilder<I>,
    ) -> Result<(Seq<Statement>, Option<ExprId>), StoreError>
        requires { can_parts (P.can lowerer.now.parts) (P.rctx lowerer.now.parts).place self.now }
        ensures { Lowers HasContents (stored (P.rctx lowerer.now.parts) self.now) state.old result state.new };
}

impl WrittenBlock for ast::BlockExpr {
    ghost can = { λ claims. claims.block };

    ghost can_parts = { λ claims place b. KidsBlock claims place (out-BlockExpr b) };

    ghost read = { resolved_plain };

    ghost stored = { contents_at };

    fn lower<I: StoreSink, P: LowerAll<I>>(
        &self,
        lowerer: &Lowerer<P>,
        state: &mut BodyBuilder<I>,
        role: BlockRole,
    ) -> Result<ExprId, StoreError> {
        lowerer
            .parts
            .collect_block_inside(state, lowerer.parts.place(), role, self)
    }

    fn lower_inside<I: StoreSink, P: LowerAll<I>>(
        &self,
        lowerer: &Lowerer<P>,
        state: &mut BodyBuilder<I>,
        place: LowerCtx,
        role: BlockRole,
    ) -> Result<ExprId, StoreError> {
        lowerer.parts.collect_block_inside(state, place, role, self)
    }

    #[inline(always)]
    fn contents<I: StoreSink, P: LowerAll<I>>(
        &self,
        lowerer: &Lowerer<P>,
        state: &mut BodyBuilder<I>,
    ) -> Result<(Seq<Statement>, Option<ExprId>), StoreError> {
        flat_contents(lowerer, state, self)
    }
}

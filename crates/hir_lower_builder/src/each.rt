//! Lists of parts.

ghost use Rattle.hir_env.specs.Whole.{args_part, exprs_part};
ghost use Rattle.hir_lower_builder.specs.Nests.{Each, IfPresent};
ghost use Rattle.hir_lower_builder.specs.Methods.{LowersEach};

use crate::builder::BodyBuilder;
use crate::parts::{LowerExprs, LowerParts, Lowerer};
use crate::store_sink::StoreSink;
use hir_store::error::StoreError;
use hir_store::ids::ExprId;
use hir_store::lists::push_id;
use hir_syntax::{Seq, ast};

impl<P: LowerParts> Lowerer<P> {
    /// The expressions that no condition disables.
    pub fn collect_each<I: StoreSink>(
        &self,
        state: &mut BodyBuilder<I>,
        mut all: &[ast::Expr],
    ) -> Result<Seq<ExprId>, StoreError>
    where
        P: LowerExprs<I>,
        requires { Each (P.can self.now.parts).expr all.now }
        ensures { LowersEach (exprs_part (P.rctx self.now.parts) all.entry.now) state.old result state.new }
    {
        let mut done = Seq::new(self.alloc);
        while let [one, rest @ ..] = all {
            if let Some(id) = self.parts.maybe_collect_expr(state, one)? {
                push_id(&mut done, id)?;
            }
            all = rest;
        }
        Ok(done)
    }

    /// The arguments that no condition disables.
    pub fn arguments<I: StoreSink>(
        &self,
        state: &mut BodyBuilder<I>,
        all: &Option<Seq<ast::Expr>>,
    ) -> Result<Seq<ExprId>, StoreError>
    where
        P: LowerExprs<I>,
        requires { IfPresent (Each (P.can self.now.parts).expr) all.now }
        ensures { LowersEach (args_part (P.rctx self.now.parts) all.now) state.old result state.new }
    {
        match all {
            None => Ok(Seq::new(self.alloc)),
            Some(all) => self.collect_each(state, all.as_slice()),
        }
    }
}

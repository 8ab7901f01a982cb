//! Constants: the lengths of arrays, and arguments.

ghost use Rattle.hir_env.specs.Whole.{constant_part};
ghost use Rattle.hir_lower_builder.specs.Methods.{LowersConstant, at_place};
ghost use Rattle.hir_lower_builder.specs.Nests.{const_expr};

use crate::builder::BodyBuilder;
use crate::parts::{LowerExprs, LowerParts, Lowerer};
use crate::store_sink::StoreSink;
use hir_env::ctx::LowerCtx;
use hir_store::error::StoreError;
use hir_store::type_ref::ConstRef;
use hir_syntax::ast;

impl<P: LowerParts> Lowerer<P> {
    /// The constant that is written at this place, missing where it is absent.
    pub fn constant_or_missing<I: StoreSink>(
        &self,
        state: &mut BodyBuilder<I>,
        place: LowerCtx,
        part: &Option<ast::ConstArg>,
    ) -> Result<ConstRef, StoreError>
    where
        P: LowerExprs<I>,
        requires { (P.can self.now.parts).constant place (const_expr part.now) }
        ensures { LowersConstant (constant_part (at_place (P.rctx self.now.parts) place) part.now) state.old result state.new }
    {
        match part {
            None => self.parts.collect_constant(state, place, &None),
            Some(expr) => self.parts.collect_constant(state, place, expr),
        }
    }
}

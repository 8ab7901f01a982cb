//! What stands for what isn't there, and comes from no node.

ghost use Rattle.hir_store.specs.Range.{HasExpr, HasPat, HasType};
ghost use Rattle.hir_lower_builder.specs.Lower.{missing};
ghost use Rattle.hir_lower_builder.specs.Lowering.{Lowers};
ghost use Rattle.hir_lower_builder.specs.Pats.{missing_pat};
ghost use Rattle.hir_lower_builder.specs.Types.{error_type, unit_type};

use crate::builder::BodyBuilder;
use crate::store_sink::StoreSink;
use hir_store::error::StoreError;
use hir_store::hir::{Expr, Pat};
use hir_store::ids::{ExprId, PatId, TypeRefId};
use hir_store::type_ref::TypeRef;
use hir_syntax::Seq;
use std::alloc::Global;

impl<I: StoreSink> BodyBuilder<I> {
    /// Stores an expression that is not there, which comes from no node.
    #[tactic(auto, unfolding(crate::specs::Lower::missing))]
    #[inline(never)]
    pub fn missing_expr(&mut self) -> Result<ExprId, StoreError>
        ensures { Lowers HasExpr missing self.old result self.new }
    {
        self.alloc_expr(Expr::Missing, None)
    }

    /// Stores a pattern that is not there, which comes from no node.
    #[tactic(auto, unfolding(crate::specs::Pats::missing_pat))]
    #[inline(never)]
    pub fn missing_pat(&mut self) -> Result<PatId, StoreError>
        ensures { Lowers HasPat missing_pat self.old result self.new }
    {
        self.alloc_pat(Pat::Missing, None)
    }

    /// Stores the type that stands for one that is not there, which comes from no node.
    #[tactic(auto, unfolding(crate::specs::Types::error_type))]
    #[inline(never)]
    pub fn error_type(&mut self) -> Result<TypeRefId, StoreError>
        ensures { Lowers HasType error_type self.old result self.new }
    {
        self.alloc_type(TypeRef::Error, None)
    }

    /// Stores `()`, which comes from no node.
    #[tactic(auto, unfolding(crate::specs::Types::unit_type))]
    #[inline(never)]
    pub fn unit_type(&mut self, alloc: Global) -> Result<TypeRefId, StoreError>
        ensures { Lowers HasType unit_type self.old result self.new }
    {
        self.alloc_type(TypeRef::Tuple(Seq::new(alloc)), None)
    }
}

//! Patterns of the assignee expression.

ghost use Rattle.std.specs.Prelude.{◌≡◌, None};
ghost use Rattle.hir_store.specs.Range.{HasPat, HasPatParts};
ghost use Rattle.hir_env.specs.Targets.{origin, source_of};
ghost use Rattle.hir_lower_builder.specs.Lowering.{Lowers};
ghost use Rattle.hir_lower_builder.specs.Targets as spec;
ghost use Rattle.hir_lower_builder.specs.Targets.{origin_of};

use crate::builder::BodyBuilder;
use crate::store_sink::StoreSink;
use hir_base::node::{AstPtr, InFile};
use hir_store::error::StoreError;
use hir_store::hir::Pat;
use hir_store::ids::PatId;

/// Where the assignee expression stands: the node that leads to its pattern, and the outermost of the macro calls that it comes out
/// of, where it is an element of a tuple, a call or an array and comes out of some.
#[derive(Clone, Copy)]
pub struct Origin {
    pub node: InFile<AstPtr>,
    pub call: Option<InFile<AstPtr>>,
}

impl Origin {
    /// Of what comes out of no call, or is no element.
    pub fn of(node: InFile<AstPtr>) -> Origin
        ensures { origin_of result ≡ origin None node }
    {
        Origin { node, call: None }
    }

    /// The node that the pattern comes from: the outermost call, where there is one.
    pub fn source(&self) -> InFile<AstPtr>
        ensures { result ≡ source_of (origin_of self.now) }
    {
        match self.call {
            None => self.node,
            Some(call) => call,
        }
    }
}

impl<I: StoreSink> BodyBuilder<I> {
    /// Stores a pattern of the assignee expression, to which its node leads from now on. It comes from the outermost call that it is an
    /// element out of, and else from its node.
    #[inline(never)]
    #[tactic(auto, unfolding(crate::specs::Targets::alloc_target))]
    pub fn alloc_target(&mut self, pat: Pat, at: Origin) -> Result<PatId, StoreError>
        requires { HasPatParts self.old.stored pat }
        ensures { Lowers HasPat (spec.alloc_target pat (origin_of at)) self.old result self.new }
    {
        let id = self.alloc_desugared_pat(pat, Some(at.source()))?;
        self.point_target(at.node, id)?;
        Ok(id)
    }
}

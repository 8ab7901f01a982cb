//! Labels, and what jumps are for.

ghost use Rattle.std.specs.Prelude.{◌≡◌};
ghost use Rattle.hir_store.specs.Range.{HasLabel, HasLabelOption};
ghost use Rattle.hir_env.specs.Answering.{label_of};
ghost use Rattle.hir_env.specs.Whole.{jump_part};
ghost use Rattle.hir_lower_builder.specs.Lowering.{Lowers};
ghost use Rattle.hir_lower_builder.specs.Lowering as step;

use crate::builder::BodyBuilder;
use crate::names::name_of_label;
use crate::parts::{LowerExprs, LowerParts, Lowerer, site};
use crate::store_sink::StoreSink;
use hir_base::node::{AstPtr, InFile};
use hir_lower_scope::labels::NoTarget;
use hir_store::diagnostics::ExpressionStoreDiagnostics;
use hir_store::error::StoreError;
use hir_store::ids::LabelId;
use hir_store::name::Name;
use hir_syntax::ast;

/// What is wrong with a jump of this name, at this node, that has no target.
pub(crate) fn jump_fault(
    cause: NoTarget,
    name: Name,
    node: InFile<AstPtr>,
) -> ExpressionStoreDiagnostics
    ensures { result ≡ step.jump_fault cause node name }
{
    match cause {
        NoTarget::Unreachable => ExpressionStoreDiagnostics::UnreachableLabel { node, name },
        NoTarget::Undeclared => ExpressionStoreDiagnostics::UndeclaredLabel { node, name },
    }
}

impl<P: LowerParts> Lowerer<P> {
    /// Stores and opens a label, at whose node its hygiene is asked for.
    #[inline(never)]
    pub fn open_label<I: StoreSink>(
        &self,
        state: &mut BodyBuilder<I>,
        label: &ast::Label,
    ) -> Result<LabelId, StoreError>
    where
        P: LowerExprs<I>,
        ensures { let rctx = P.rctx self.now.parts in
            Lowers HasLabel (step.open_label (label_of rctx.answers rctx.place label.now)) state.old result state.new }
    {
        let source = self.pointer(label.id, label.range);
        let hygiene = self.parts.hygiene(site(source));
        let name = name_of_label(&label.lifetime)?;
        state.open_label(name, hygiene, source)
    }

    /// The label that a jump is for, or none; a lifetime that names none is a fault.
    #[tactic(auto, unfolding(crate::specs::Lowering::jump_target))]
    #[inline(never)]
    pub fn jump_target<I: StoreSink>(
        &self,
        state: &mut BodyBuilder<I>,
        lifetime: &Option<ast::Lifetime>,
    ) -> Result<Option<LabelId>, StoreError>
    where
        P: LowerExprs<I>,
        ensures { Lowers HasLabelOption (step.jump_target (jump_part (P.rctx self.now.parts) lifetime.now)) state.old result state.new }
    {
        match lifetime {
            None => Ok(None),
            Some(lifetime) => {
                let source = self.pointer(lifetime.id, lifetime.range);
                let hygiene = self.parts.hygiene(site(source));
                let name = Name::Text(lifetime.t.clone()?);
                state.jump_target(&self.parts, name, hygiene, source)
            }
        }
    }
}

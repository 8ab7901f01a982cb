//! Whole patterns, each with bindings of its own.

ghost use Rattle.hir_env.specs.ResolvedTree as tree;
ghost use Rattle.hir_env.specs.Whole.{resolved_pat, pat_part};
ghost use Rattle.hir_lower_builder.specs.Methods.{LowersTop};
ghost use Rattle.hir_lower_builder.specs.Nests.{IfPresent};

use crate::pats::lower_pat;
use hir_lower_builder::builder::StoredBody;
use hir_lower_builder::parts::{LowerExprs, Lowerer};
use hir_lower_pat::bindings::Bindings;
use hir_store::builder::ExpressionStoreBuilder;
use hir_store::error::StoreError;
use hir_store::ids::PatId;
use hir_syntax::{Boxed, ast};

fn whole_pat<P: LowerExprs<ExpressionStoreBuilder>>(
    lowerer: &Lowerer<P>,
    state: &mut StoredBody,
    node: &ast::Pat,
) -> Result<PatId, StoreError>
    requires { (P.can lowerer.now.parts).pat (P.rctx lowerer.now.parts).place node.now }
    ensures { LowersTop (tree.some_pat (resolved_pat (P.rctx lowerer.now.parts) node.now)) state.old result state.new }
{
    let mut bindings = Bindings::new(lowerer.alloc);
    let id = lower_pat(lowerer, state, &mut bindings, node)?;
    bindings.settle(state);
    Ok(id)
}

/// A whole pattern, missing where it is absent. Each name of it gets one binding, and this the problem that it shows.
pub fn top_pat<P: LowerExprs<ExpressionStoreBuilder>>(
    lowerer: &Lowerer<P>,
    state: &mut StoredBody,
    part: &Option<Boxed<ast::Pat>>,
) -> Result<PatId, StoreError>
    requires { IfPresent ((P.can lowerer.now.parts).pat (P.rctx lowerer.now.parts).place) part.now }
    ensures { LowersTop (pat_part (P.rctx lowerer.now.parts) part.now) state.old result state.new }
{
    match part {
        None => state.missing_pat(),
        Some(part) => whole_pat(lowerer, state, part.get()),
    }
}

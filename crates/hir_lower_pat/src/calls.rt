//! Macro calls as patterns, and as the assignee expression.

ghost use Rattle.std.specs.Prelude.{◌≡◌};
ghost use Rattle.hir_store.specs.Range.{HasPat, HasPatOption};
ghost use Rattle.hir_lower_builder.specs.Calls.{found_of};
ghost use Rattle.hir_lower_builder.specs.Lowering.{Lowers};
ghost use Rattle.hir_lower_pat.specs.Calls as spec;
ghost use Rattle.hir_lower_pat.specs.Methods.{point_found};

use hir_base::node::{AstPtr, InFile};
use hir_env::ctx::LowerCtx;
use hir_lower_builder::builder::BodyBuilder;
use hir_lower_builder::calls::Entered;
use hir_lower_builder::store_sink::StoreSink;
use hir_store::error::StoreError;
use hir_store::ids::PatId;
use hir_syntax::ast::{self, Fragment};

/// The expression that a call stands for, and where it is read.
pub fn expr_of<'a>(entered: Entered<'a>) -> Option<(LowerCtx, &'a ast::Expr)>
    ensures { spec.expr_lent result ≡ spec.expr_there (found_of entered.entry) }
{
    match entered {
        Entered::Yes(place, Some(Fragment::Expr(node))) => Some((place, node.get())),
        _ => None,
    }
}

/// The pattern that a call stands for, and where it is read.
pub fn pat_of<'a>(entered: Entered<'a>) -> Option<(LowerCtx, &'a ast::Pat)>
    ensures { spec.pat_lent result ≡ spec.pat_there (found_of entered.entry) }
{
    match entered {
        Entered::Yes(place, Some(Fragment::Pat(node))) => Some((place, node.get())),
        _ => None,
    }
}

/// What stands for no pattern is missing, and its node leads there.
pub fn missing_form<I: StoreSink>(
    state: &mut BodyBuilder<I>,
    at: InFile<AstPtr>,
) -> Result<PatId, StoreError>
    ensures { Lowers HasPat (spec.missing_led at) state.old result state.new }
{
    let id = state.missing_pat()?;
    state.point_pat(at, id)?;
    Ok(id)
}

/// The node of a call leads to what it stands for.
pub fn pointed_form<I: StoreSink>(
    state: &mut BodyBuilder<I>,
    at: InFile<AstPtr>,
    id: PatId,
) -> Result<PatId, StoreError>
    requires { HasPat state.old.stored id }
    ensures { Lowers HasPat (spec.point_lone at id) state.old result state.new }
{
    state.point_pat(at, id)?;
    Ok(id)
}

/// The node of a call leads to the element that it stands for, unless that is two dots.
pub fn point_element<I: StoreSink>(
    state: &mut BodyBuilder<I>,
    at: InFile<AstPtr>,
    found: Option<PatId>,
) -> Result<Option<PatId>, StoreError>
    requires { HasPatOption state.old.stored found }
    ensures { Lowers HasPatOption (point_found at found) state.old result state.new }
{
    match found {
        None => Ok(None),
        Some(id) => {
            state.point_pat(at, id)?;
            Ok(Some(id))
        }
    }
}

//! Macro calls as types.

ghost use Rattle.std.specs.Prelude.{◌≡◌};
ghost use Rattle.hir_lower_builder.specs.Calls.{found_of};
ghost use Rattle.hir_lower_builder.specs.Methods.{LowersType};
ghost use Rattle.hir_lower_type.specs.Calls as spec;

use hir_base::node::{AstPtr, InFile};
use hir_env::ctx::LowerCtx;
use hir_env::expand::FragmentKind;
use hir_lower_builder::builder::BodyBuilder;
use hir_lower_builder::calls::{Entered, enter};
use hir_lower_builder::parts::{LowerExprs, Lowerer};
use hir_lower_builder::store_sink::StoreSink;
use hir_store::error::StoreError;
use hir_store::ids::TypeRefId;
use hir_store::name::Name;
use hir_syntax::Seq;
use hir_syntax::ast::{self, Fragment, MacroCall};

/// The type that a call stands for, and where it is read.
fn type_of<'a>(entered: Entered<'a>) -> Option<(LowerCtx, &'a ast::Type_)>
    ensures { spec.type_lent result ≡ spec.type_there (found_of entered.entry) }
{
    match entered {
        Entered::Yes(place, Some(Fragment::Type_(node))) => Some((place, node.get())),
        _ => None,
    }
}

/// A call that is written here, with the names of the `for<..>` directly around it: what it stands for, which is an error where it
/// stands for no type. Its node leads there.
#[tactic(auto, using(crate::proofs::CallLemmas::call_on))]
#[inline(never)]
pub(crate) fn call_form<I: StoreSink, P: LowerExprs<I>>(
    lowerer: &Lowerer<P>,
    state: &mut BodyBuilder<I>,
    at: InFile<AstPtr>,
    binder: &Option<Seq<Name>>,
    call: &MacroCall,
) -> Result<TypeRefId, StoreError>
    requires { (P.can lowerer.now.parts).type_call (P.rctx lowerer.now.parts).place call.now }
    ensures { LowersType binder.now (spec.written_call (P.rctx lowerer.now.parts) at call.now) state.old result state.new }
{
    let entered = enter(lowerer, state, FragmentKind::Type_, call)?;
    let id = match type_of(entered) {
        None => state.error_type()?,
        Some((place, node)) => lowerer.parts.lower_type(state, place, binder, node)?,
    };
    state.point_type(at, id)?;
    Ok(id)
}

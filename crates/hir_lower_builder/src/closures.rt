//! The parameters of a closure.

ghost use Rattle.std.specs.Prelude.{◌≡◌, IfOk};
ghost use Rattle.hir_store.specs.Past.{join, past_pat_id, past_present, past_type_id};
ghost use Rattle.hir_lower_builder.specs.Forms as spec;
ghost use Rattle.hir_lower_builder.specs.Methods.{past_params};

use hir_store::ids::{PatId, TypeRefId};
use hir_store::lists::{push_pat, push_type_option};
use hir_syntax::Seq;
use std::alloc::{AllocError, Global};

/// The parameters that are lowered so far: the pattern of each, and its type where it has one.
#[derive(Drop)]
pub struct ClosureParams {
    pub args: Seq<PatId>,
    pub arg_types: Seq<Option<TypeRefId>>,
}

impl ClosureParams {
    /// Of no parameters. It takes no memory.
    pub fn new(alloc: Global) -> ClosureParams
        ensures { result ≡ spec.no_closure_params }
    {
        ClosureParams {
            args: Seq::new(alloc),
            arg_types: Seq::new(alloc),
        }
    }

    /// With one parameter more, behind the others.
    #[tactic(auto, using(hir_store::proofs::Past::join_across))]
    #[inline(never)]
    pub fn with_param(self, pat: PatId, ty: Option<TypeRefId>) -> Result<ClosureParams, AllocError>
        ensures value { IfOk result (λ l. l ≡ spec.add_param self pat ty) }
        ensures past { IfOk result (λ l. past_params l
            ≡ join (past_params self) (join (past_pat_id pat) (past_present past_type_id ty))) }
    {
        let ClosureParams {
            mut args,
            mut arg_types,
        } = self;
        push_pat(&mut args, pat)?;
        push_type_option(&mut arg_types, ty)?;
        Ok(ClosureParams { args, arg_types })
    }
}

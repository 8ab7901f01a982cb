//! What an argument gives by itself. While its parts are lowered no lists stand in a frame of it: as many are open as levels.

ghost use Rattle.std.specs.Prelude.{◌≡◌, IfOk};
ghost use Rattle.hir_store.specs.Past.{join};
ghost use Rattle.hir_lower_builder.specs.Types.{past_lists};
ghost use Rattle.hir_lower_type.specs.Single.{IsBehind, past_one, with_one};

use hir_lower_builder::args::ArgLists;
use hir_store::error::StoreError;
use hir_store::path::{AssociatedTypeBinding, GenericArg};
use std::alloc::AllocError;

/// An argument, a binding, or nothing where it is skipped.
#[derive(Drop)]
pub enum OneArg {
    Skipped,
    Arg(GenericArg),
    Binding(AssociatedTypeBinding),
}

impl OneArg {
    /// The lists with it, behind the others.
    #[inline(never)]
    pub fn behind(self, lists: ArgLists) -> Result<ArgLists, AllocError>
        ensures value { IfOk result (λ l. l ≡ with_one lists self) }
        ensures past { IfOk result (λ l. past_lists l ≡ join (past_lists lists) (past_one self)) }
    {
        match self {
            OneArg::Skipped => Ok(lists),
            OneArg::Arg(arg) => lists.with_arg(arg),
            OneArg::Binding(binding) => lists.with_binding(binding),
        }
    }
}

/// The lists with what was found, behind the others, unless there is a fault.
#[inline(never)]
pub fn behind_others(
    found: Result<OneArg, StoreError>,
    lists: ArgLists,
) -> Result<ArgLists, StoreError>
    ensures { IsBehind lists found result }
{
    match found {
        Ok(one) => Ok(one.behind(lists)?),
        Err(fault) => Err(fault),
    }
}

//! The arguments of a list, and its bindings.

ghost use Rattle.std.specs.Prelude.{◌≡◌, IfOk};
ghost use Rattle.hir_store.specs.Past.{join, past_arg, past_binding, past_generic, past_present};
ghost use Rattle.hir_lower_builder.specs.Paths as paths;
ghost use Rattle.hir_lower_builder.specs.Types as spec;

use hir_store::lists::{push_arg, push_binding};
use hir_store::path::{AssociatedTypeBinding, GenericArg, GenericArgs, GenericArgsParentheses};
use hir_syntax::Seq;
use std::alloc::{AllocError, Global};

/// What a list yields so far, in written order.
#[derive(Drop)]
pub struct ArgLists {
    pub args: Seq<GenericArg>,
    pub bindings: Seq<AssociatedTypeBinding>,
}

impl ArgLists {
    /// Of a list that yields nothing. It takes no memory.
    pub fn new(alloc: Global) -> ArgLists
        ensures { result ≡ spec.no_lists }
    {
        ArgLists {
            args: Seq::new(alloc),
            bindings: Seq::new(alloc),
        }
    }

    /// With one argument more, behind the others.
    #[inline(never)]
    pub fn with_arg(self, arg: GenericArg) -> Result<ArgLists, AllocError>
        ensures value { IfOk result (λ l. l ≡ spec.add_arg self arg) }
        ensures past { IfOk result (λ l. spec.past_lists l ≡ join (spec.past_lists self) (past_arg arg)) }
    {
        let ArgLists { mut args, bindings } = self;
        push_arg(&mut args, arg)?;
        Ok(ArgLists { args, bindings })
    }

    /// With one binding more, behind the others.
    #[inline(never)]
    pub fn with_binding(self, binding: AssociatedTypeBinding) -> Result<ArgLists, AllocError>
        ensures value { IfOk result (λ l. l ≡ spec.add_binding self binding) }
        ensures past { IfOk result (λ l. spec.past_lists l ≡ join (spec.past_lists self) (past_binding binding)) }
    {
        let ArgLists { args, mut bindings } = self;
        push_binding(&mut bindings, binding)?;
        Ok(ArgLists { args, bindings })
    }

    /// The arguments, or none where the list yields nothing.
    #[inline(never)]
    pub fn yielded(self) -> Option<GenericArgs>
        ensures value { result ≡ spec.yielded self }
        ensures past { past_present past_generic result ≡ spec.past_lists self }
    {
        let ArgLists { args, bindings } = self;
        if args.is_empty() && bindings.is_empty() {
            None
        } else {
            Some(GenericArgs::new(args, bindings, GenericArgsParentheses::No))
        }
    }
}

/// `(..)`, where it is written and nothing else was found.
#[inline(never)]
pub fn or_notation(alloc: Global, found: Option<GenericArgs>, written: bool) -> Option<GenericArgs>
    ensures value { result ≡ paths.or_notation found written }
    ensures past { past_present past_generic result ≡ past_present past_generic found }
{
    match found {
        Some(args) => Some(args),
        None => {
            if !written {
                return None;
            }
            Some(GenericArgs::new(
                Seq::new(alloc),
                Seq::new(alloc),
                GenericArgsParentheses::ReturnTypeNotation,
            ))
        }
    }
}

//! Arguments, as a list. What an associated type that is bound names stands in front, and the arguments themselves are last.

ghost use Rattle.std.specs.Prelude.{◌≡◌, ◌+◌, IfOk, List, OnOk, codes, length, map};
ghost use Rattle.json.specs.Written.{Written};
ghost use Rattle.thm_result_json.specs.Arguments.{FlatArgs, all_bindings, args_behind, binding_behind, list_of_behind};
ghost use Rattle.thm_result_json.specs.Codec.{listing};
ghost use Rattle.thm_result_json.specs.Paths as forms;
ghost use Rattle.store_json.specs.Entries.{HasEntries};
ghost use Rattle.store_json.specs.Append.{Appends, AppendsMember};

use crate::form::{ToJson, field};
use hir_base::Seq;
use hir_store::path::{AssociatedTypeBinding, GenericArgs};
use json::Writer;
use std::alloc::AllocError;

impl ToJson for GenericArgs {
    ghost codec = { forms.generic_args };

    fn write(&self, out: &mut Writer) -> Result<(), AllocError> {
        out.begin_array()?;
        write_args(out, self, 0)?;
        out.end_array()
    }
}

/// Writes what these arguments name and then their own entry, behind so many. Answers how many stand there then.
#[cycle(arguments)]
fn write_args(out: &mut Writer, args: &GenericArgs, before: u64) -> Result<u64, AllocError>
    ensures { (front : List FlatArgs) (start : Written) → HasEntries start front before out.old
        → IfOk result (λ n. HasEntries start (list_of_behind (args_behind args.now front)) n out.new) }
{
    let at = write_owns(out, args.bindings.as_slice(), before)?;
    write_entry(out, args, before)?;
    next(at)
}

/// Writes the arguments of associated types, behind so many entries. Answers how many stand there then.
#[cycle(arguments)]
fn write_owns(
    out: &mut Writer,
    bindings: &[AssociatedTypeBinding],
    before: u64,
) -> Result<u64, AllocError>
    ensures { (front : List FlatArgs) (start : Written) → HasEntries start front before out.old
        → IfOk result (λ n. HasEntries start ((all_bindings (map binding_behind bindings.now) front).0) n out.new) }
{
    let mut at = before;
    for binding in bindings {
        at = write_own(out, binding, at)?;
    }
    Ok(at)
}

/// Writes the arguments of an associated type, behind so many entries. Answers how many stand there then.
#[cycle(arguments)]
fn write_own(
    out: &mut Writer,
    binding: &AssociatedTypeBinding,
    before: u64,
) -> Result<u64, AllocError>
    ensures { (front : List FlatArgs) (start : Written) → HasEntries start front before out.old
        → IfOk result (λ n. HasEntries start ((binding_behind binding.now front).0) n out.new) }
{
    match &binding.args {
        None => Ok(before),
        Some(args) => write_args(out, args, before),
    }
}

/// The number behind this one. Where there is none, memory was full long before.
fn next(at: u64) -> Result<u64, AllocError>
    ensures { IfOk result (λ n. n ≡ at + 1) }
{
    if at == u64::MAX {
        return Err(AllocError);
    }
    Ok(at + 1)
}

/// How many entries stand there behind those of these arguments.
#[cycle(counts)]
fn args_end(args: &GenericArgs, before: u64) -> Result<u64, AllocError>
    ensures { (front : List FlatArgs) → length front ≡ before
        → IfOk result (λ n. n ≡ length (list_of_behind (args_behind args.now front))) }
{
    let at = bindings_end(args.bindings.as_slice(), before)?;
    next(at)
}

/// How many entries stand there behind those of the arguments of associated types.
#[cycle(counts)]
fn bindings_end(bindings: &[AssociatedTypeBinding], before: u64) -> Result<u64, AllocError>
    ensures { (front : List FlatArgs) → length front ≡ before
        → IfOk result (λ n. n ≡ length ((all_bindings (map binding_behind bindings.now) front).0)) }
{
    let mut at = before;
    for binding in bindings {
        at = binding_end(binding, at)?;
    }
    Ok(at)
}

/// How many entries stand there behind those of the arguments of an associated type.
#[cycle(counts)]
fn binding_end(binding: &AssociatedTypeBinding, before: u64) -> Result<u64, AllocError>
    ensures { (front : List FlatArgs) → length front ≡ before
        → IfOk result (λ n. n ≡ length ((binding_behind binding.now front).0)) }
{
    match &binding.args {
        None => Ok(before),
        Some(args) => args_end(args, before),
    }
}

/// Writes the entry of these arguments, where so many stood in front of those that they name.
fn write_entry(out: &mut Writer, args: &GenericArgs, before: u64) -> Result<(), AllocError>
    ensures { (front : List FlatArgs) → length front ≡ before
        → OnOk result (Appends ((forms.flat_args).to (args_behind args.now front).1) out.old out.new) }
{
    out.begin_object()?;
    field(out, "args", &args.args)?;
    bindings_field(out, &args.bindings, before)?;
    field(out, "has_self_type", &args.has_self_type)?;
    field(out, "parenthesized", &args.parenthesized)?;
    out.end_object()
}

/// Writes the associated types that are bound, as a member of the entry.
fn bindings_field(
    out: &mut Writer,
    bindings: &Seq<AssociatedTypeBinding>,
    before: u64,
) -> Result<(), AllocError>
    ensures { (front : List FlatArgs) → length front ≡ before → OnOk result (AppendsMember (codes "bindings")
        ((listing forms.flat_binding).to (all_bindings (map binding_behind bindings.now) front).1) out.old out.new) }
{
    out.key("bindings")?;
    write_bindings(out, bindings.as_slice(), before)
}

/// Writes the associated types that are bound.
fn write_bindings(
    out: &mut Writer,
    bindings: &[AssociatedTypeBinding],
    before: u64,
) -> Result<(), AllocError>
    ensures { (front : List FlatArgs) → length front ≡ before → OnOk result (Appends ((listing forms.flat_binding).to
        (all_bindings (map binding_behind bindings.now) front).1) out.old out.new) }
{
    out.begin_array()?;
    let mut at = before;
    for binding in bindings {
        at = binding_end(binding, at)?;
        write_binding(out, binding, at)?;
    }
    out.end_array()
}

/// Writes an associated type that is bound. Its own arguments are the last of so many.
fn write_binding(
    out: &mut Writer,
    binding: &AssociatedTypeBinding,
    end: u64,
) -> Result<(), AllocError>
    ensures { (front : List FlatArgs) → length ((binding_behind binding.now front).0) ≡ end
        → OnOk result (Appends ((forms.flat_binding).to (binding_behind binding.now front).1) out.old out.new) }
{
    let own = own_place(binding, end);
    out.begin_object()?;
    field(out, "args", &own)?;
    field(out, "bounds", &binding.bounds)?;
    field(out, "name", &binding.name)?;
    field(out, "type_ref", &binding.type_ref)?;
    out.end_object()
}

/// The place of an associated type's own arguments, which are the last of so many.
fn own_place(binding: &AssociatedTypeBinding, end: u64) -> Option<u64>
    ensures { (front : List FlatArgs) → length ((binding_behind binding.now front).0) ≡ end
        → result ≡ ((binding_behind binding.now front).1).args }
{
    match &binding.args {
        None => None,
        Some(_) => Some(end.saturating_sub(1)),
    }
}

//! Lists that grow by one, and what their items name.

ghost use Rattle.std.specs.Prelude.{◌≡◌, ◌∷◌, ◌++◌, [], max, suc, OnOk};
ghost use Rattle.hir_store.specs.Arenas.{past};
ghost use Rattle.hir_store.specs.Range.{past_expr, past_field};
ghost use Rattle.hir_store.specs.Past.{past_arm, past_arms, past_pat_field, past_pat_fields, past_pat_id, past_pat_ids};
ghost use Rattle.hir_store.specs.Past.{past_statement, past_statements};
ghost use Rattle.hir_store.specs.Past.{join, past_arg, past_arg_lists, past_args, past_binding, past_bindings, past_bound, past_bounds};
ghost use Rattle.hir_store.specs.Past.{past_generic, past_present, past_type_id, past_type_ids, past_type_options, past_use_arg};
ghost use Rattle.hir_store.specs.Past.{past_use_args};

use crate::hir::{MatchArm, RecordFieldPat, RecordLitField, Statement};
use crate::ids::{ExprId, PatId, TypeRefId};
use crate::path::{AssociatedTypeBinding, GenericArg, GenericArgs};
use crate::type_ref::{TypeBound, UseArgRef};
use hir_base::Seq;
use std::alloc::AllocError;

/// Adds a number to a list of an expression's parts.
#[tactic(auto, using(crate::proofs::Arenas::past_push))]
pub fn push_id(ids: &mut Seq<ExprId>, id: ExprId) -> Result<(), AllocError>
    ensures ids { OnOk result (ids.new ≡ ids.old ++ id ∷ []) }
    ensures past { OnOk result (past past_expr ids.new ≡ max (past past_expr ids.old) (suc id.0)) }
{
    ids.push(id)
}

/// Adds a statement to those of a block.
#[tactic(auto, using(crate::proofs::Past::statements_push))]
pub fn push_statement(
    statements: &mut Seq<Statement>,
    statement: Statement,
) -> Result<(), AllocError>
    ensures statements { OnOk result (statements.new ≡ statements.old ++ statement ∷ []) }
    ensures past { OnOk result (past_statements statements.new
        ≡ join (past_statements statements.old) (past_statement statement)) }
{
    statements.push(statement)
}

/// Adds statements to those of a block.
#[tactic(auto, using(crate::proofs::Past::statements_append))]
pub fn append_statements(
    statements: &mut Seq<Statement>,
    more: Seq<Statement>,
) -> Result<(), AllocError>
    ensures statements { OnOk result (statements.new ≡ statements.old ++ more) }
    ensures past { OnOk result (past_statements statements.new
        ≡ join (past_statements statements.old) (past_statements more)) }
{
    statements.append(more)
}

/// Adds a field to those of a record.
#[tactic(auto, using(crate::proofs::Arenas::past_push))]
pub fn push_field(fields: &mut Seq<RecordLitField>, field: RecordLitField) -> Result<(), AllocError>
    ensures fields { OnOk result (fields.new ≡ fields.old ++ field ∷ []) }
    ensures past { OnOk result (past past_field fields.new ≡ max (past past_field fields.old) (suc field.expr.0)) }
{
    fields.push(field)
}

/// Adds a pattern to a list.
#[tactic(auto, using(crate::proofs::Past::pat_ids_push))]
pub fn push_pat(pats: &mut Seq<PatId>, pat: PatId) -> Result<(), AllocError>
    ensures items { OnOk result (pats.new ≡ pats.old ++ pat ∷ []) }
    ensures past { OnOk result (past_pat_ids pats.new ≡ join (past_pat_ids pats.old) (past_pat_id pat)) }
{
    pats.push(pat)
}

/// Adds a field to those of a record pattern.
#[tactic(auto, using(crate::proofs::Past::pat_fields_push))]
pub fn push_pat_field(
    fields: &mut Seq<RecordFieldPat>,
    field: RecordFieldPat,
) -> Result<(), AllocError>
    ensures items { OnOk result (fields.new ≡ fields.old ++ field ∷ []) }
    ensures past { OnOk result (past_pat_fields fields.new ≡ join (past_pat_fields fields.old) (past_pat_field field)) }
{
    fields.push(field)
}

/// Adds an arm to those of a `match`.
#[tactic(auto, using(crate::proofs::Past::arms_push))]
pub fn push_arm(arms: &mut Seq<MatchArm>, arm: MatchArm) -> Result<(), AllocError>
    ensures items { OnOk result (arms.new ≡ arms.old ++ arm ∷ []) }
    ensures past { OnOk result (past_arms arms.new ≡ join (past_arms arms.old) (past_arm arm)) }
{
    arms.push(arm)
}

/// Adds a type to a list.
#[tactic(auto, using(crate::proofs::Past::type_ids_push))]
pub fn push_type(types: &mut Seq<TypeRefId>, ty: TypeRefId) -> Result<(), AllocError>
    ensures items { OnOk result (types.new ≡ types.old ++ ty ∷ []) }
    ensures past { OnOk result (past_type_ids types.new ≡ join (past_type_ids types.old) (past_type_id ty)) }
{
    types.push(ty)
}

/// Adds the type of a parameter, or that it has none, to those of a closure.
#[tactic(auto, using(crate::proofs::Past::type_options_push))]
pub fn push_type_option(
    types: &mut Seq<Option<TypeRefId>>,
    ty: Option<TypeRefId>,
) -> Result<(), AllocError>
    ensures items { OnOk result (types.new ≡ types.old ++ ty ∷ []) }
    ensures past { OnOk result (past_type_options types.new ≡ join (past_type_options types.old) (past_present past_type_id ty)) }
{
    types.push(ty)
}

/// Adds an argument to those of a segment.
#[tactic(auto, using(crate::proofs::Past::args_push))]
pub fn push_arg(args: &mut Seq<GenericArg>, arg: GenericArg) -> Result<(), AllocError>
    ensures items { OnOk result (args.new ≡ args.old ++ arg ∷ []) }
    ensures past { OnOk result (past_args args.new ≡ join (past_args args.old) (past_arg arg)) }
{
    args.push(arg)
}

/// Adds a binding to those of a segment.
#[tactic(auto, using(crate::proofs::Past::bindings_push))]
pub fn push_binding(
    bindings: &mut Seq<AssociatedTypeBinding>,
    binding: AssociatedTypeBinding,
) -> Result<(), AllocError>
    ensures items { OnOk result (bindings.new ≡ bindings.old ++ binding ∷ []) }
    ensures past { OnOk result (past_bindings bindings.new ≡ join (past_bindings bindings.old) (past_binding binding)) }
{
    bindings.push(binding)
}

/// Adds a bound to a list.
#[tactic(auto, using(crate::proofs::Past::bounds_push))]
pub fn push_bound(bounds: &mut Seq<TypeBound>, bound: TypeBound) -> Result<(), AllocError>
    ensures items { OnOk result (bounds.new ≡ bounds.old ++ bound ∷ []) }
    ensures past { OnOk result (past_bounds bounds.new ≡ join (past_bounds bounds.old) (past_bound bound)) }
{
    bounds.push(bound)
}

/// Adds what a `use<..>` names.
#[tactic(auto, using(crate::proofs::Past::use_args_push))]
pub fn push_use_arg(args: &mut Seq<UseArgRef>, arg: UseArgRef) -> Result<(), AllocError>
    ensures items { OnOk result (args.new ≡ args.old ++ arg ∷ []) }
    ensures past { OnOk result (past_use_args args.new ≡ join (past_use_args args.old) (past_use_arg arg)) }
{
    args.push(arg)
}

/// Adds the arguments of a segment to those of the segments.
#[tactic(auto, using(crate::proofs::Past::arg_lists_push))]
pub fn push_args(
    lists: &mut Seq<Option<GenericArgs>>,
    args: Option<GenericArgs>,
) -> Result<(), AllocError>
    ensures items { OnOk result (lists.new ≡ lists.old ++ args ∷ []) }
    ensures past { OnOk result (past_arg_lists lists.new ≡ join (past_arg_lists lists.old) (past_present past_generic args)) }
{
    lists.push(args)
}

//! Lists of what is kept: what a condition disables leaves nothing in them.

ghost use Rattle.std.specs.Prelude.{◌≡◌, OnOk, max};
ghost use Rattle.hir_store.specs.Arenas.{past, past_option};
ghost use Rattle.hir_store.specs.Past.{join, past_arm, past_arms, past_present, past_statement, past_statements};
ghost use Rattle.hir_store.specs.Range.{past_field};
ghost use Rattle.hir_lower_builder.specs.Forms.{push_some};

use hir_store::hir::{MatchArm, RecordLitField, Statement};
use hir_store::lists::{push_arm, push_field, push_statement};
use hir_syntax::Seq;
use std::alloc::AllocError;

/// Adds the arm, where one is kept.
#[tactic(auto, using(hir_store::proofs::Past::join_nothing))]
pub(crate) fn push_kept_arm(
    arms: &mut Seq<MatchArm>,
    arm: Option<MatchArm>,
) -> Result<(), AllocError>
    ensures items { OnOk result (arms.new ≡ push_some arms.old arm) }
    ensures past { OnOk result (past_arms arms.new ≡ join (past_arms arms.old) (past_present past_arm arm)) }
{
    match arm {
        None => Ok(()),
        Some(arm) => push_arm(arms, arm),
    }
}

/// Adds the statement, where one is kept.
#[tactic(auto, using(hir_store::proofs::Past::join_nothing))]
pub(crate) fn push_kept_statement(
    statements: &mut Seq<Statement>,
    statement: Option<Statement>,
) -> Result<(), AllocError>
    ensures items { OnOk result (statements.new ≡ push_some statements.old statement) }
    ensures past { OnOk result (past_statements statements.new
        ≡ join (past_statements statements.old) (past_present past_statement statement)) }
{
    match statement {
        None => Ok(()),
        Some(statement) => push_statement(statements, statement),
    }
}

/// Adds the field, where one is kept.
pub(crate) fn push_kept_field(
    fields: &mut Seq<RecordLitField>,
    field: Option<RecordLitField>,
) -> Result<(), AllocError>
    ensures items { OnOk result (fields.new ≡ push_some fields.old field) }
    ensures past { OnOk result (past past_field fields.new ≡ max (past past_field fields.old) (past_option past_field field)) }
{
    match field {
        None => Ok(()),
        Some(field) => push_field(fields, field),
    }
}

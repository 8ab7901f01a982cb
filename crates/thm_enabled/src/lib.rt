//! What is asked of the environment for a tree, as lists: all that reading it asks, and what it asks outside of what a condition disables.
//! Lowering doesn't look inside of that, so the shorter list is enough for the steps that describe it. Each theorem is the contract of an
//! empty function.
#![tactic(auto)]

ghost use Rattle.thm_enabled.specs.Theorems.{ExprsAsked, OutsideAsked, OutsideBodies, PathsAsked, PatsAsked, TypesAsked};
ghost use Rattle.thm_enabled.specs.Lowered.{BodiesKept, BodiesLowered, ExprsKept, ExprsPruned, PartsPruned, PathsKept, TypesKept};
ghost use Rattle.thm_enabled.specs.Lowered.{OfDisabledArms, OfDisabledBodies, OfDisabledDefinitions, OfDisabledExprs, OfDisabledFields};
ghost use Rattle.thm_enabled.specs.Lowered.{OfDisabledFormals, OfDisabledLets, OfDisabledParams, OfDisabledRules, OfDisabledSelves};
ghost use Rattle.thm_enabled.specs.Lowered.{OfDisabledValues};

use thm_reading::{formals_by_rules, one_tree_by_rules, read_by_rules};

/// An environment that answers alike all that is asked of another one for a tree reads it as the same resolved tree.
pub fn whole_lists()
    ensures types { TypesAsked }
    ensures paths { PathsAsked }
    ensures pats { PatsAsked }
    ensures exprs { ExprsAsked }
{
    read_by_rules();
    formals_by_rules();
    one_tree_by_rules();
}

/// An environment that answers alike what is asked outside of what is disabled reads the same outside of that, also of a body with its
/// parameters.
pub fn outside_lists()
    ensures exprs { OutsideAsked }
    ensures bodies { OutsideBodies }
{
    read_by_rules();
    formals_by_rules();
    one_tree_by_rules();
}

/// What is asked of a disabled parameter, `self`, expression, call that stands for statements, body of a `for`, `let`, definition of a
/// macro, field or arm is its condition alone.
pub fn of_disabled()
    ensures params { OfDisabledParams }
    ensures formals { OfDisabledFormals }
    ensures selves { OfDisabledSelves }
    ensures exprs { OfDisabledExprs }
    ensures bodies { OfDisabledBodies }
    ensures lets { OfDisabledLets }
    ensures values { OfDisabledValues }
    ensures definitions { OfDisabledDefinitions }
    ensures rules { OfDisabledRules }
    ensures fields { OfDisabledFields }
    ensures arms { OfDisabledArms }
{}

/// Lowering makes the same of an expression and of the pruned one.
pub fn pruned()
    ensures exprs { ExprsPruned }
    ensures parts { PartsPruned }
{}

/// An environment that answers alike what is asked of another one outside of what is disabled lowers an expression and a body by the same
/// steps, and a type and a path where it answers alike all that is asked of them.
pub fn lowered_alike()
    ensures types { TypesKept }
    ensures paths { PathsKept }
    ensures exprs { ExprsKept }
    ensures bodies { BodiesKept }
    ensures with_params { BodiesLowered }
{
    whole_lists();
    outside_lists();
}

//! The patterns that an expression names.

ghost use Rattle.std.specs.Prelude.{◌≡◌, MatchOption, [], ◌∷◌, ◌++◌};
ghost use Rattle.std.specs.List.{flat_map};
ghost use Rattle.std.specs.Option.{option_to_list};
ghost use Rattle.std.specs.Iterator.{YieldsFirst, item_count};
ghost use Rattle.hir_walks.specs.Exprs.{expr_pats, statement_pats};
ghost use Rattle.hir_walks.specs.PatParts.{in_parts, left};

use hir_store::hir::{Expr, MatchArm, Statement};
use hir_store::ids::PatId;
use std::marker::Model;

/// Patterns of an expression that stand in a list.
#[derive(Clone, Copy)]
enum PatParts<'a> {
    Pats(&'a [PatId]),
    Statements(&'a [Statement]),
    Arms(&'a [MatchArm]),
}

/// The patterns that an expression names, in the order in which its parts stand in it.
pub struct ExprPats<'a> {
    first: Option<PatId>,
    parts: PatParts<'a>,
}

impl<'a> Drop for ExprPats<'a> {
    fn drop(self) {
        let ExprPats { first: _, parts: _ } = self;
    }
}

impl<'a> Model for ExprPats<'a> {
    ghost use Rattle.std.specs.Prelude.{List};
    ghost use Rattle.hir_walks.specs.PatParts.{left};
    ghost use Rattle.hir_store.specs.declared.ids.PatId.{PatId};

    ghost Value = { List PatId };

    ghost view = { λ c. left c.first c.parts };
}

/// Those of these parts.
fn list<'a>(parts: PatParts<'a>) -> ExprPats<'a>
    ensures { result ≡ in_parts parts.entry }
{
    ExprPats { first: None, parts }
}

/// One pattern, or none.
#[tactic(auto, using(crate::proofs::PatLemmas::none_behind))]
fn at_most_one<'a>(first: Option<PatId>) -> ExprPats<'a>
    ensures { result ≡ option_to_list first }
{
    ExprPats {
        first,
        parts: PatParts::Pats(&[]),
    }
}

impl<'a> ExprPats<'a> {
    /// Those that this expression names.
    pub fn of(expr: &'a Expr) -> ExprPats<'a>
        ensures { result ≡ expr_pats expr.now }
    {
        match expr {
            Expr::Let { pat, .. } => at_most_one(Some(*pat)),
            Expr::Block { statements, .. } => list(PatParts::Statements(statements.as_slice())),
            Expr::Match { arms, .. } => list(PatParts::Arms(arms.as_slice())),
            Expr::Assignment { target, .. } => at_most_one(Some(*target)),
            Expr::Closure { args, .. } => list(PatParts::Pats(args.as_slice())),
            _ => at_most_one(None),
        }
    }
}

/// The pattern of the first `let` among these statements, and the statements behind it.
fn first_let(statements: &[Statement]) -> Option<(PatId, &[Statement])>
    ensures { MatchOption result (flat_map statement_pats statements.now ≡ [])
        (λ r. flat_map statement_pats statements.now ≡ r.0 ∷ flat_map statement_pats r.1.now) }
{
    let mut left = statements;
    while let [one, rest @ ..] = left {
        match one {
            Statement::Let { pat, .. } => return Some((*pat, rest)),
            _ => {}
        }
        left = rest;
    }
    None
}

/// The first of these parts, and what is left then.
fn step<'a>(parts: PatParts<'a>) -> (Option<PatId>, ExprPats<'a>)
    ensures { YieldsFirst (λ c. c) (in_parts parts.entry) result.0 result.1 }
{
    match parts {
        PatParts::Pats([id, rest @ ..]) => (Some(*id), list(PatParts::Pats(rest))),
        PatParts::Arms([arm, rest @ ..]) => (Some(arm.pat), list(PatParts::Arms(rest))),
        PatParts::Statements(statements) => match first_let(statements) {
            Some((id, rest)) => (Some(id), list(PatParts::Statements(rest))),
            None => (None, at_most_one(None)),
        },
        _ => (None, at_most_one(None)),
    }
}

impl<'a> Iterator for ExprPats<'a> {
    type Item = PatId;

    ghost next_gives = { YieldsFirst (λ c. c) };

    ghost remaining = { item_count (λ c. c) };

    fn next(&mut self) -> Option<PatId> {
        let (id, rest) = match self.first {
            Some(id) => (Some(id), list(self.parts)),
            None => step(self.parts),
        };
        *self = rest;
        id
    }
}

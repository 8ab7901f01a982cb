//! The expressions that an expression names.

ghost use Rattle.std.specs.Prelude.{◌≡◌, MatchOption, None, [], ◌∷◌, ◌++◌, map};
ghost use Rattle.std.specs.List.{flat_map};
ghost use Rattle.std.specs.Option.{option_copied, option_to_list};
ghost use Rattle.std.specs.Iterator.{YieldsFirst, item_count};
ghost use Rattle.hir_store.specs.ChildParts.{in_parts, left};
ghost use Rattle.hir_store.specs.declared.hir.Expr.TheVariants as expr;
ghost use Rattle.hir_store.specs.Children.{children, children_of, field_child, spread_child, statement_children};

use crate::hir::{Array, Expr, MatchArm, RecordLitField, RecordSpread, Statement};
use crate::ids::ExprId;
use hir_base::Seq;
use std::marker::Model;

/// Parts of an expression that stand in a list.
#[derive(Clone, Copy)]
enum Parts<'a> {
    None,
    Exprs(&'a [ExprId]),
    Fields(&'a [RecordLitField]),
    Statements(&'a [Statement]),
    Arms(&'a [MatchArm]),
}

/// The expressions that an expression names, in the order in which its parts stand in it.
pub struct Children<'a> {
    first: Option<ExprId>,
    second: Option<ExprId>,
    parts: Parts<'a>,
    last: Option<ExprId>,
}

impl<'a> Drop for Children<'a> {
    fn drop(self) {
        let Children {
            first: _,
            second: _,
            parts: _,
            last: _,
        } = self;
    }
}

impl<'a> Model for Children<'a> {
    ghost use Rattle.std.specs.Prelude.{List};
    ghost use Rattle.hir_store.specs.ChildParts.{left};
    ghost use Rattle.hir_store.specs.declared.ids.ExprId.{ExprId};

    ghost Value = { List ExprId };

    ghost view = { λ c. left c.first c.second c.parts c.last };
}

/// These in their order.
fn made<'a>(
    first: Option<ExprId>,
    second: Option<ExprId>,
    parts: Parts<'a>,
    last: Option<ExprId>,
) -> Children<'a>
    ensures { result ≡ left first second parts.entry last }
{
    Children {
        first,
        second,
        parts,
        last,
    }
}

/// What the other fields of a record come from, where that is an expression.
fn spread_child(spread: RecordSpread) -> Option<ExprId>
    ensures { result ≡ spread_child spread }
{
    match spread {
        RecordSpread::Expr(id) => Some(id),
        RecordSpread::None => None,
        RecordSpread::FieldDefaults => None,
    }
}

/// Two expressions, and a third where there is one.
fn three<'a>(first: ExprId, second: ExprId, third: Option<ExprId>) -> Children<'a>
    ensures { result ≡ first ∷ second ∷ option_to_list third }
{
    made(Some(first), Some(second), Parts::None, third)
}

/// One expression, or none.
fn one<'a>(id: Option<ExprId>) -> Children<'a>
    ensures { result ≡ option_to_list id }
{
    made(None, None, Parts::None, id)
}

/// An expression, where there is one, and those of these parts behind it.
#[tactic(auto, using(crate::proofs::ChildLemmas::none_behind))]
fn behind<'a>(first: Option<ExprId>, parts: Parts<'a>) -> Children<'a>
    ensures { result ≡ option_to_list first ++ in_parts parts.entry }
{
    made(first, None, parts, None)
}

/// Those of these parts, and an expression behind them, where there is one.
fn before<'a>(parts: Parts<'a>, last: Option<ExprId>) -> Children<'a>
    ensures { result ≡ in_parts parts.entry ++ option_to_list last }
{
    made(None, None, parts, last)
}

fn of_call(callee: ExprId, args: &Seq<ExprId>) -> Children<'_>
    ensures { result ≡ callee ∷ args.now }
{
    behind(Some(callee), Parts::Exprs(args.as_slice()))
}

fn of_record(fields: &Seq<RecordLitField>, spread: RecordSpread) -> Children<'_>
    ensures { result ≡ map field_child fields.now ++ option_to_list (spread_child spread) }
{
    before(Parts::Fields(fields.as_slice()), spread_child(spread))
}

fn of_array(array: &Array) -> Children<'_>
    ensures { result ≡ children (expr.Array array.now) }
{
    match array {
        Array::ElementList { elements } => behind(None, Parts::Exprs(elements.as_slice())),
        Array::Repeat {
            initializer,
            repeat,
        } => three(*initializer, repeat.expr, None),
    }
}

impl<'a> Children<'a> {
    /// Those that this expression names; none where there is none.
    pub(crate) fn of_present(expr: Option<&'a Expr>) -> Children<'a>
        ensures { result ≡ children_of (option_copied expr.entry) }
    {
        match expr {
            Some(expr) => Children::of(expr),
            None => one(None),
        }
    }

    /// Those that this expression names.
    pub fn of(expr: &'a Expr) -> Children<'a>
        ensures { result ≡ children expr.now }
    {
        match expr {
            Expr::If {
                condition,
                then_branch,
                else_branch,
            } => three(*condition, *then_branch, *else_branch),
            Expr::Block {
                statements,
                tail,
                ..
            } => before(Parts::Statements(statements.as_slice()), *tail),
            Expr::Call { callee, args } => of_call(*callee, args),
            Expr::MethodCall { receiver, args, .. } => of_call(*receiver, args),
            Expr::Match { expr, arms } => behind(Some(*expr), Parts::Arms(arms.as_slice())),
            Expr::RecordLit { fields, spread, .. } => of_record(fields, *spread),
            Expr::Tuple { exprs } => behind(None, Parts::Exprs(exprs.as_slice())),
            Expr::Array(array) => of_array(array),
            Expr::BinaryOp { lhs, rhs, .. } => three(*lhs, *rhs, None),
            Expr::Index { base, index } => three(*base, *index, None),
            Expr::Const(constant) => one(Some(constant.expr)),
            Expr::Loop { body, .. } | Expr::Closure { body, .. } => one(Some(*body)),
            Expr::Assignment { value, .. } => one(Some(*value)),
            Expr::Let { expr, .. }
            | Expr::Field { expr, .. }
            | Expr::UnaryOp { expr, .. }
            | Expr::Ref { expr, .. }
            | Expr::Become { expr }
            | Expr::Await { expr }
            | Expr::Cast { expr, .. } => one(Some(*expr)),
            Expr::Break { expr, .. }
            | Expr::Return { expr }
            | Expr::Yield { expr }
            | Expr::Yeet { expr } => one(*expr),
            _ => one(None),
        }
    }
}

/// The expressions of the first of these statements that names one: the first of them, the second, and the statements behind that one.
fn first_named(statements: &[Statement]) -> Option<(ExprId, Option<ExprId>, &[Statement])>
    ensures { MatchOption result (flat_map statement_children statements.now ≡ [])
        (λ r. flat_map statement_children statements.now ≡ r.0 ∷ (option_to_list r.1 ++ flat_map statement_children r.2.now)) }
{
    let mut left = statements;
    while let [one, rest @ ..] = left {
        match one {
            Statement::Let {
                initializer: Some(id),
                else_branch,
                ..
            } => return Some((*id, *else_branch, rest)),
            Statement::Let {
                initializer: None,
                else_branch: Some(id),
                ..
            } => return Some((*id, None, rest)),
            Statement::Expr { expr, .. } => return Some((*expr, None, rest)),
            _ => {}
        }
        left = rest;
    }
    None
}

/// The first of these parts and the last expression, and what is left then.
fn step<'a>(parts: Parts<'a>, last: Option<ExprId>) -> (Option<ExprId>, Children<'a>)
    ensures { YieldsFirst (λ c. c) (in_parts parts.entry ++ option_to_list last) result.0 result.1 }
{
    match parts {
        Parts::Exprs([id, rest @ ..]) => (Some(*id), made(None, None, Parts::Exprs(rest), last)),
        Parts::Fields([field, rest @ ..]) => (
            Some(field.expr),
            made(None, None, Parts::Fields(rest), last),
        ),
        Parts::Arms([arm, rest @ ..]) => match arm.guard {
            Some(guard) => (
                Some(guard),
                made(Some(arm.expr), None, Parts::Arms(rest), last),
            ),
            None => (Some(arm.expr), made(None, None, Parts::Arms(rest), last)),
        },
        Parts::Statements(statements) => match first_named(statements) {
            Some((id, second, rest)) => (
                Some(id),
                made(second, None, Parts::Statements(rest), last),
            ),
            None => (last, one(None)),
        },
        _ => (last, one(None)),
    }
}

impl<'a> Iterator for Children<'a> {
    type Item = ExprId;

    ghost next_gives = { YieldsFirst (λ c. c) };

    ghost remaining = { item_count (λ c. c) };

    fn next(&mut self) -> Option<ExprId> {
        let (id, rest) = match (self.first, self.second) {
            (Some(id), second) => (Some(id), made(second, None, self.parts, self.last)),
            (None, Some(id)) => (Some(id), made(None, None, self.parts, self.last)),
            (None, None) => step(self.parts, self.last),
        };
        *self = rest;
        id
    }
}

//! The parts of expressions and patterns, handed to a visitor one after another.

ghost use Rattle.std.specs.Prelude.{◌≡◌, IfOk, map, slice_get, true};
ghost use Rattle.std.specs.List.{flat_map};
ghost use Rattle.std.specs.Option.{option_to_list};
ghost use Rattle.hir_store.specs.Children.{children};
ghost use Rattle.hir_store.specs.Parts as spec;
ghost use Rattle.hir_walks.specs.Pats.{of_found, pat_children, taken};
ghost use Rattle.hir_walks.specs.Exprs.{arg_constant, expr_pats, own_constants};
ghost use Rattle.hir_walks.specs.EntryParts.{EntryPart, expr_part, const_part, pat_part, type_part, lifetime_part};
ghost use Rattle.hir_walks.specs.EntryParts.{expr_children, expr_parts, expr_types, option_types, pat_own, pat_parts, pat_types};
ghost use Rattle.hir_walks.specs.EntryParts.{parts_in, statement_types};

use crate::expr_pats::ExprPats;
use crate::pats::PatChildren;
use hir_store::children::Children;
use hir_store::error::StoreError;
use hir_store::hir::{Array, Expr, Statement};
use hir_store::ids::{ExprId, LifetimeRefId, PatId, TypeRefId};
use hir_store::pat::Pat;
use hir_store::path::{GenericArg, GenericArgs, Path};
use hir_store::store::ExpressionStore;
use hir_store::visit::{StoreVisitor, visit_asked};

/// What is handed the direct parts of an expression or a pattern. None of its calls goes on by itself.
pub trait EntryVisitor {
    /// What it is after a part.
    ghost after: { Self → EntryPart → Self };

    fn on_expr(&mut self, id: ExprId) -> Result<(), StoreError>
        ensures { IfOk result (λ _. self.new ≡ after self.old (expr_part id)) };

    /// A constant among arguments, or how often an array repeats.
    fn on_anon_const(&mut self, id: ExprId) -> Result<(), StoreError>
        ensures { IfOk result (λ _. self.new ≡ after self.old (const_part id)) };

    fn on_pat(&mut self, id: PatId) -> Result<(), StoreError>
        ensures { IfOk result (λ _. self.new ≡ after self.old (pat_part id)) };

    fn on_type(&mut self, id: TypeRefId) -> Result<(), StoreError>
        ensures { IfOk result (λ _. self.new ≡ after self.old (type_part id)) };

    fn on_lifetime(&mut self, id: LifetimeRefId) -> Result<(), StoreError>
        ensures { IfOk result (λ _. self.new ≡ after self.old (lifetime_part id)) };
}

fn visit_constants<V: EntryVisitor>(
    mut left: &[GenericArg],
    visitor: &mut V,
) -> Result<(), StoreError>
    ensures { IfOk result (λ _. visitor.new ≡ taken V.after (map const_part (flat_map arg_constant left.entry.now)) visitor.old) }
{
    while let [one, rest @ ..] = left {
        match one {
            GenericArg::Type_(_) => {}
            GenericArg::Lifetime(_) => {}
            GenericArg::Const(constant) => visitor.on_anon_const(constant.expr)?,
        }
        left = rest;
    }
    Ok(())
}

/// Is handed the parts of arguments, and hands them on with the constants among these.
#[derive(Drop)]
struct Inside<'a, V> {
    visitor: &'a mut V,
}

impl<'a, V: EntryVisitor> StoreVisitor for Inside<'a, V> {
    ghost after_type = { λ v t. record v { visitor = record v.visitor { now = V.after v.visitor.now (type_part t) } } };

    ghost after_lifetime = { λ v l. record v { visitor = record v.visitor { now = V.after v.visitor.now (lifetime_part l) } } };

    ghost after_args = { λ v a. record v {
      visitor = record v.visitor {
        now =
            taken V.after (map const_part (own_constants a)) v.visitor.now;
      };
    } };

    ghost enters = { λ v a. true };

    fn on_type(&mut self, id: TypeRefId) -> Result<(), StoreError> {
        self.visitor.on_type(id)
    }

    fn on_lifetime(&mut self, id: LifetimeRefId) -> Result<(), StoreError> {
        self.visitor.on_lifetime(id)
    }

    fn on_generic_args(&mut self, args: &GenericArgs) -> Result<bool, StoreError> {
        visit_constants(args.args.as_slice(), self.visitor)?;
        Ok(true)
    }
}

fn visit_args<V: EntryVisitor>(args: &GenericArgs, visitor: &mut V) -> Result<(), StoreError>
    ensures { IfOk result (λ _. visitor.new ≡ taken V.after (parts_in (spec.of_args args.now)) visitor.old) }
{
    let mut inside = Inside { visitor };
    visit_asked(&mut inside, args)?;
    Ok(())
}

fn visit_args_option<V: EntryVisitor>(
    args: &Option<GenericArgs>,
    visitor: &mut V,
) -> Result<(), StoreError>
    ensures { IfOk result (λ _. visitor.new ≡ taken V.after (parts_in (spec.of_present spec.of_args args.now)) visitor.old) }
{
    match args {
        None => Ok(()),
        Some(args) => visit_args(args, visitor),
    }
}

#[tactic(auto, using(crate::proofs::PatLemmas::taken_append, crate::proofs::VisitLemmas::parts_in_both))]
fn visit_lists<V: EntryVisitor>(
    mut left: &[Option<GenericArgs>],
    visitor: &mut V,
) -> Result<(), StoreError>
    ensures { IfOk result (λ _. visitor.new
        ≡ taken V.after (parts_in (spec.of_each (spec.of_present spec.of_args) left.entry.now)) visitor.old) }
{
    while let [one, rest @ ..] = left {
        visit_args_option(one, visitor)?;
        left = rest;
    }
    Ok(())
}

fn visit_type_option<V: EntryVisitor>(
    id: Option<TypeRefId>,
    visitor: &mut V,
) -> Result<(), StoreError>
    ensures { IfOk result (λ _. visitor.new ≡ taken V.after (map type_part (option_to_list id)) visitor.old) }
{
    match id {
        None => Ok(()),
        Some(id) => visitor.on_type(id),
    }
}

#[tactic(auto, using(crate::proofs::PatLemmas::taken_append, crate::proofs::VisitLemmas::parts_in_both))]
fn visit_path<V: EntryVisitor>(path: &Path, visitor: &mut V) -> Result<(), StoreError>
    ensures { IfOk result (λ _. visitor.new ≡ taken V.after (parts_in (spec.of_path path.now)) visitor.old) }
{
    match path {
        Path::BarePath(_) => Ok(()),
        Path::Normal(path) => {
            visit_type_option(path.type_anchor, visitor)?;
            visit_lists(path.generic_args.as_slice(), visitor)
        }
        Path::LangItem(_) => Ok(()),
    }
}

#[tactic(auto, using(crate::proofs::PatLemmas::taken_append))]
fn visit_option_types<V: EntryVisitor>(
    mut left: &[Option<TypeRefId>],
    visitor: &mut V,
) -> Result<(), StoreError>
    ensures { IfOk result (λ _. visitor.new ≡ taken V.after (option_types left.entry.now) visitor.old) }
{
    while let [one, rest @ ..] = left {
        if let Some(id) = one {
            visitor.on_type(*id)?;
        }
        left = rest;
    }
    Ok(())
}

fn visit_statement_types<V: EntryVisitor>(
    mut left: &[Statement],
    visitor: &mut V,
) -> Result<(), StoreError>
    ensures { IfOk result (λ _. visitor.new ≡ taken V.after (map type_part (flat_map statement_types left.entry.now)) visitor.old) }
{
    while let [one, rest @ ..] = left {
        match one {
            Statement::Let {
                type_ref: Some(id),
                ..
            } => visitor.on_type(*id)?,
            _ => {}
        }
        left = rest;
    }
    Ok(())
}

#[tactic(auto, using(crate::proofs::PatLemmas::taken_append))]
fn visit_expr_types<V: EntryVisitor>(expr: &Expr, visitor: &mut V) -> Result<(), StoreError>
    ensures { IfOk result (λ _. visitor.new ≡ taken V.after (expr_types expr.now) visitor.old) }
{
    match expr {
        Expr::Path { path, .. } => visit_path(path, visitor),
        Expr::Block { statements, .. } => visit_statement_types(statements.as_slice(), visitor),
        Expr::MethodCall { generic_args, .. } => visit_args_option(generic_args, visitor),
        Expr::RecordLit { path, .. } => visit_path(path, visitor),
        Expr::Closure {
            arg_types,
            ret_type,
            ..
        } => {
            visit_option_types(arg_types.as_slice(), visitor)?;
            visit_type_option(*ret_type, visitor)
        }
        Expr::Cast { type_ref, .. } => visitor.on_type(*type_ref),
        Expr::OffsetOf { container, .. } => visitor.on_type(*container),
        _ => Ok(()),
    }
}

fn visit_each_expr<V: EntryVisitor>(expr: &Expr, visitor: &mut V) -> Result<(), StoreError>
    ensures { IfOk result (λ _. visitor.new ≡ taken V.after (map expr_part (children expr.now)) visitor.old) }
{
    let mut parts = Children::of(expr);
    while let Some(id) = parts.next() {
        visitor.on_expr(id)?;
    }
    Ok(())
}

fn visit_child_exprs<V: EntryVisitor>(expr: &Expr, visitor: &mut V) -> Result<(), StoreError>
    ensures { IfOk result (λ _. visitor.new ≡ taken V.after (expr_children expr.now) visitor.old) }
{
    match expr {
        Expr::Array(
            Array::Repeat {
                initializer,
                repeat,
            },
        ) => {
            visitor.on_expr(*initializer)?;
            visitor.on_anon_const(repeat.expr)
        }
        _ => visit_each_expr(expr, visitor),
    }
}

fn visit_child_pats<V: EntryVisitor>(expr: &Expr, visitor: &mut V) -> Result<(), StoreError>
    ensures { IfOk result (λ _. visitor.new ≡ taken V.after (map pat_part (expr_pats expr.now)) visitor.old) }
{
    let mut pats = ExprPats::of(expr);
    while let Some(id) = pats.next() {
        visitor.on_pat(id)?;
    }
    Ok(())
}

/// Hands on the parts of an expression: its children, then its patterns, then its types and what the arguments of its path or method
/// name; nothing where there is no such expression.
#[tactic(auto, using(crate::proofs::PatLemmas::taken_append))]
pub fn visit_expr_children<V: EntryVisitor>(
    store: &ExpressionStore,
    id: ExprId,
    visitor: &mut V,
) -> Result<(), StoreError>
    ensures { IfOk result (λ _. visitor.new ≡ taken V.after (of_found expr_parts (slice_get store.now.exprs id.0)) visitor.old) }
{
    match store.expr(id) {
        None => Ok(()),
        Some(expr) => {
            visit_child_exprs(expr, visitor)?;
            visit_child_pats(expr, visitor)?;
            visit_expr_types(expr, visitor)
        }
    }
}

fn visit_expr_option<V: EntryVisitor>(id: Option<ExprId>, visitor: &mut V) -> Result<(), StoreError>
    ensures { IfOk result (λ _. visitor.new ≡ taken V.after (map expr_part (option_to_list id)) visitor.old) }
{
    match id {
        None => Ok(()),
        Some(id) => visitor.on_expr(id),
    }
}

#[tactic(auto, using(crate::proofs::PatLemmas::taken_append, crate::proofs::VisitLemmas::map_both))]
fn visit_pat_own<V: EntryVisitor>(pat: &Pat, visitor: &mut V) -> Result<(), StoreError>
    ensures { IfOk result (λ _. visitor.new ≡ taken V.after (map expr_part (pat_own pat.now)) visitor.old) }
{
    match pat {
        Pat::Lit(id) => visitor.on_expr(*id),
        Pat::Expr(id) => visitor.on_expr(*id),
        Pat::Range { start, end, .. } => {
            visit_expr_option(*start, visitor)?;
            visit_expr_option(*end, visitor)
        }
        _ => Ok(()),
    }
}

fn visit_each_pat<V: EntryVisitor>(pat: &Pat, visitor: &mut V) -> Result<(), StoreError>
    ensures { IfOk result (λ _. visitor.new ≡ taken V.after (map pat_part (pat_children pat.now)) visitor.old) }
{
    let mut parts = PatChildren::of(pat);
    while let Some(id) = parts.next() {
        visitor.on_pat(id)?;
    }
    Ok(())
}

fn visit_pat_types<V: EntryVisitor>(pat: &Pat, visitor: &mut V) -> Result<(), StoreError>
    ensures { IfOk result (λ _. visitor.new ≡ taken V.after (pat_types pat.now) visitor.old) }
{
    match pat {
        Pat::Path { path, .. } => visit_path(path, visitor),
        Pat::TupleStruct { path, .. } => visit_path(path, visitor),
        Pat::Record { path, .. } => visit_path(path, visitor),
        _ => Ok(()),
    }
}

/// Hands on the parts of a pattern: the expressions that it names itself, then its parts, then what the arguments of its path name;
/// nothing where there is no such pattern.
#[tactic(auto, using(crate::proofs::PatLemmas::taken_append))]
pub fn visit_pat_children<V: EntryVisitor>(
    store: &ExpressionStore,
    id: PatId,
    visitor: &mut V,
) -> Result<(), StoreError>
    ensures { IfOk result (λ _. visitor.new ≡ taken V.after (of_found pat_parts (slice_get store.now.pats id.0)) visitor.old) }
{
    match store.pat(id) {
        None => Ok(()),
        Some(pat) => {
            visit_pat_own(pat, visitor)?;
            visit_each_pat(pat, visitor)?;
            visit_pat_types(pat, visitor)
        }
    }
}

//! The constants among arguments.

ghost use Rattle.std.specs.Prelude.{◌≡◌, IfOk, true};
ghost use Rattle.std.specs.List.{flat_map};
ghost use Rattle.hir_store.specs.declared.ids.ExprId.{ExprId as ExprNumber};
ghost use Rattle.hir_store.specs.Parts as spec;
ghost use Rattle.hir_walks.specs.Pats.{taken};
ghost use Rattle.hir_walks.specs.Exprs.{arg_constant, args_constants, constants_in, own_constants, path_constants};

use hir_store::error::StoreError;
use hir_store::ids::{ExprId, LifetimeRefId, TypeRefId};
use hir_store::path::{GenericArg, GenericArgs, Path};
use hir_store::visit::{StoreVisitor, visit_asked};

/// What is handed expressions, one after another. It doesn't walk itself.
pub trait ExprSink {
    /// What it is after an expression.
    ghost after: { Self → ExprNumber → Self };

    fn take(&mut self, id: ExprId) -> Result<(), StoreError>
        ensures { IfOk result (λ _. self.new ≡ after self.old id) };
}

/// Hands on the constants among these arguments.
#[tactic(auto, using(crate::proofs::PatLemmas::taken_append))]
fn walk_list<S: ExprSink>(mut left: &[GenericArg], sink: &mut S) -> Result<(), StoreError>
    ensures { IfOk result (λ _. sink.new ≡ taken S.after (flat_map arg_constant left.entry.now) sink.old) }
{
    while let [one, rest @ ..] = left {
        match one {
            GenericArg::Type_(_) => {}
            GenericArg::Lifetime(_) => {}
            GenericArg::Const(constant) => sink.take(constant.expr)?,
        }
        left = rest;
    }
    Ok(())
}

/// Is handed the parts of arguments, and hands on the constants.
#[derive(Drop)]
struct Constants<'a, S> {
    sink: &'a mut S,
}

impl<'a, S: ExprSink> StoreVisitor for Constants<'a, S> {
    ghost after_type = { λ v t. v };

    ghost after_lifetime = { λ v l. v };

    ghost after_args = { λ v a. record v { sink = record v.sink { now = taken S.after (own_constants a) v.sink.now } } };

    ghost enters = { λ v a. true };

    fn on_type(&mut self, _id: TypeRefId) -> Result<(), StoreError> {
        Ok(())
    }

    fn on_lifetime(&mut self, _id: LifetimeRefId) -> Result<(), StoreError> {
        Ok(())
    }

    fn on_generic_args(&mut self, args: &GenericArgs) -> Result<bool, StoreError> {
        walk_list(args.args.as_slice(), self.sink)?;
        Ok(true)
    }
}

/// Hands on the constants among arguments, each list before what its bindings hold.
fn walk_args<S: ExprSink>(args: &GenericArgs, sink: &mut S) -> Result<(), StoreError>
    ensures { IfOk result (λ _. sink.new ≡ taken S.after (constants_in (spec.of_args args.now)) sink.old) }
{
    let mut constants = Constants { sink };
    visit_asked(&mut constants, args)?;
    Ok(())
}

/// The same of arguments that may be absent.
pub(crate) fn walk_args_option<S: ExprSink>(
    args: &Option<GenericArgs>,
    sink: &mut S,
) -> Result<(), StoreError>
    ensures { IfOk result (λ _. sink.new ≡ taken S.after (args_constants args.now) sink.old) }
{
    match args {
        None => Ok(()),
        Some(args) => walk_args(args, sink),
    }
}

#[tactic(auto, using(crate::proofs::PatLemmas::taken_append))]
fn walk_lists<S: ExprSink>(mut left: &[Option<GenericArgs>], sink: &mut S) -> Result<(), StoreError>
    ensures { IfOk result (λ _. sink.new ≡ taken S.after (flat_map args_constants left.entry.now) sink.old) }
{
    while let [one, rest @ ..] = left {
        walk_args_option(one, sink)?;
        left = rest;
    }
    Ok(())
}

/// Hands on the constants among the arguments of a path, segment by segment.
pub fn walk_path_constants<S: ExprSink>(path: &Path, sink: &mut S) -> Result<(), StoreError>
    ensures { IfOk result (λ _. sink.new ≡ taken S.after (path_constants path.now) sink.old) }
{
    match path {
        Path::BarePath(_) => Ok(()),
        Path::Normal(path) => walk_lists(path.generic_args.as_slice(), sink),
        Path::LangItem(_) => Ok(()),
    }
}

//! Lists of arguments.

ghost use Rattle.std.specs.Prelude.{[]};
ghost use Rattle.hir_syntax.specs.declared.types.AssocTypeArg.{out-AssocTypeArg};
ghost use Rattle.hir_syntax.specs.declared.types.GenericArg.{out-GenericArg};
ghost use Rattle.hir_store.specs.declared.name.Name.TheVariants as name;
ghost use Rattle.hir_store.specs.Range.{HasBinding};
ghost use Rattle.hir_env.specs.ResolvedTree as tree;
ghost use Rattle.hir_env.specs.Whole.{resolved_arg, resolved_assoc_arg, arg_level, arg_list_level, arg_list_part, assoc_arg_level};
ghost use Rattle.hir_env.specs.Paths.{lifetime_arg_of};
ghost use Rattle.hir_env.specs.Whole.{bounds_part, generic_args_part, type_arg_level, type_part};
ghost use Rattle.hir_lower_builder.specs.Lowering.{Lowers};
ghost use Rattle.hir_lower_builder.specs.Lower as spec;
ghost use Rattle.hir_lower_builder.specs.Types as forms;
ghost use Rattle.hir_lower_builder.specs.Methods.{HasLists, LowersArgs, at_place, constant_at};
ghost use Rattle.hir_lower_type.specs.Single.{HasOne, single_arg};
ghost use Rattle.hir_lower_builder.specs.Nests.{Each, KidsArg, KidsArgs, KidsAssoc, KidsBinding, KidsTypeArg};

use crate::bounds::BoundsPart;
use crate::lifetimes::lifetime;
use crate::one_arg::{OneArg, behind_others};
use crate::places::outside_impl;
use hir_env::ctx::LowerCtx;
use hir_lower_builder::args::{ArgLists, or_notation};
use hir_lower_builder::builder::BodyBuilder;
use hir_lower_builder::parts::{LowerExprs, Lowerer};
use hir_lower_builder::store_sink::StoreSink;
use hir_store::error::StoreError;
use hir_store::name::Name;
use hir_store::path::{AssociatedTypeBinding, GenericArg, GenericArgs};
use hir_syntax::ast;

/// A binding, whose parts are read at this place: its arguments, its type, its bounds.
#[tactic(auto, unfolding(hir_lower_builder::specs::Types::binding_form))]
#[inline(never)]
fn binding_form<I: StoreSink, P: LowerExprs<I>>(
    lowerer: &Lowerer<P>,
    state: &mut BodyBuilder<I>,
    place: LowerCtx,
    written: &ast::Name,
    node: &ast::AssocTypeArg,
) -> Result<AssociatedTypeBinding, StoreError>
    requires { KidsBinding (P.can lowerer.now.parts) place (out-AssocTypeArg node.now) }
    ensures { let inner = at_place (P.rctx lowerer.now.parts) place in
        let level = out-AssocTypeArg node.now in
        Lowers HasBinding (forms.binding_form (name.Text written.now.t) level.rtn
        (spec.args_part (arg_list_part inner level.generics))
        (spec.present_type (type_part inner level.ty))
        (spec.lower_bounds [] (bounds_part inner level.bounds))) state.old result state.new }
{
    let args = lowerer.args_if_present(state, place, &node.generics)?;
    let args = or_notation(lowerer.alloc, args, node.rtn);
    let ty = lowerer.type_if_present(state, place, &node.ty)?;
    let bounds = node.bounds.lower(lowerer, state, place)?;
    Ok(AssociatedTypeBinding::new(Name::Text(written.t.clone()?), args, ty, bounds))
}

/// A binding with a parameter list, and one without a name, is skipped.
#[inline(never)]
fn assoc_form<I: StoreSink, P: LowerExprs<I>>(
    lowerer: &Lowerer<P>,
    state: &mut BodyBuilder<I>,
    node: &ast::AssocTypeArg,
) -> Result<OneArg, StoreError>
    requires { KidsAssoc (P.can lowerer.now.parts) (P.rctx lowerer.now.parts).place (out-AssocTypeArg node.now) }
    ensures { Lowers HasOne (single_arg (assoc_arg_level (P.rctx lowerer.now.parts) node.now)) state.old result state.new }
{
    let (false, Some(name)) = (node.params, &node.name) else {
        return Ok(OneArg::Skipped);
    };
    let place = outside_impl(lowerer.parts.place());
    Ok(OneArg::Binding(binding_form(lowerer, state, place, name, node)?))
}

fn assoc_arg<I: StoreSink, P: LowerExprs<I>>(
    lowerer: &Lowerer<P>,
    state: &mut BodyBuilder<I>,
    node: &ast::AssocTypeArg,
) -> Result<OneArg, StoreError>
    requires { KidsAssoc (P.can lowerer.now.parts) (P.rctx lowerer.now.parts).place (out-AssocTypeArg node.now) }
    ensures { Lowers HasOne (single_arg (resolved_assoc_arg (P.rctx lowerer.now.parts) node.now)) state.old result state.new }
{
    assoc_form(lowerer, state, node)
}

#[inline(never)]
fn type_arg<I: StoreSink, P: LowerExprs<I>>(
    lowerer: &Lowerer<P>,
    state: &mut BodyBuilder<I>,
    node: &ast::TypeArg,
) -> Result<OneArg, StoreError>
    requires { KidsTypeArg (P.can lowerer.now.parts) (P.rctx lowerer.now.parts).place node.now }
    ensures { let level = tree.type_arg (type_arg_level (P.rctx lowerer.now.parts) node.now) in
        Lowers HasOne (single_arg level) state.old result state.new }
{
    let place = lowerer.parts.place();
    match lowerer.type_or_error(state, place, &None, node) {
        Ok(id) => Ok(OneArg::Arg(GenericArg::Type_(id))),
        Err(fault) => Err(fault),
    }
}

/// A lifetime that isn't there is skipped.
#[inline(never)]
fn lifetime_arg<I: StoreSink, P: LowerExprs<I>>(
    lowerer: &Lowerer<P>,
    state: &mut BodyBuilder<I>,
    written: &Option<ast::Lifetime>,
) -> Result<OneArg, StoreError>
    ensures { let level = lifetime_arg_of (P.rctx lowerer.now.parts).place written.now in
        Lowers HasOne (single_arg level) state.old result state.new }
{
    match written {
        None => Ok(OneArg::Skipped),
        Some(written) => {
            let id = lifetime(state, lowerer.parts.place(), written)?;
            Ok(OneArg::Arg(GenericArg::Lifetime(id)))
        }
    }
}

#[inline(never)]
fn const_arg<I: StoreSink, P: LowerExprs<I>>(
    lowerer: &Lowerer<P>,
    state: &mut BodyBuilder<I>,
    node: &ast::ConstArg,
) -> Result<OneArg, StoreError>
    requires { (P.can lowerer.now.parts).constant (P.rctx lowerer.now.parts).place node.now }
    ensures { let level = tree.const_arg (constant_at (P.rctx lowerer.now.parts) node.now) in
        Lowers HasOne (single_arg level) state.old result state.new }
{
    let place = lowerer.parts.place();
    let constant = lowerer.parts.collect_constant(state, place, node)?;
    Ok(OneArg::Arg(GenericArg::Const(constant)))
}

#[inline(never)]
fn arg_form<I: StoreSink, P: LowerExprs<I>>(
    lowerer: &Lowerer<P>,
    state: &mut BodyBuilder<I>,
    node: &ast::GenericArg,
) -> Result<OneArg, StoreError>
    requires { KidsArg (P.can lowerer.now.parts) (P.rctx lowerer.now.parts).place (out-GenericArg node.now) }
    ensures { Lowers HasOne (single_arg (arg_level (P.rctx lowerer.now.parts) node.now)) state.old result state.new }
{
    match node {
        ast::GenericArg::TypeArg(node) => type_arg(lowerer, state, node),
        ast::GenericArg::AssocTypeArg(node) => assoc_arg(lowerer, state, node),
        ast::GenericArg::LifetimeArg(node) => lifetime_arg(lowerer, state, &node.lifetime),
        ast::GenericArg::ConstArg(node) => const_arg(lowerer, state, node),
    }
}

/// The lists with an argument more.
fn with_arg<I: StoreSink, P: LowerExprs<I>>(
    lowerer: &Lowerer<P>,
    state: &mut BodyBuilder<I>,
    lists: ArgLists,
    node: &ast::GenericArg,
) -> Result<ArgLists, StoreError>
    requires parts { KidsArg (P.can lowerer.now.parts) (P.rctx lowerer.now.parts).place (out-GenericArg node.now) }
    requires lists { HasLists state.old.stored lists }
    ensures { Lowers HasLists (spec.lower_arg lists (resolved_arg (P.rctx lowerer.now.parts) node.now)) state.old result state.new }
{
    behind_others(arg_form(lowerer, state, node), lists)
}

fn args<I: StoreSink, P: LowerExprs<I>>(
    lowerer: &Lowerer<P>,
    state: &mut BodyBuilder<I>,
    mut lists: ArgLists,
    mut left: &[ast::GenericArg],
) -> Result<ArgLists, StoreError>
    requires parts { let place = (P.rctx lowerer.now.parts).place in
        Each (λ a. KidsArg (P.can lowerer.now.parts) place (out-GenericArg a)) left.now }
    requires lists { HasLists state.old.stored lists }
    ensures { let all = generic_args_part (P.rctx lowerer.now.parts) left.entry.now in
        Lowers HasLists (spec.lower_args lists all) state.old result state.new }
{
    while let [one, rest @ ..] = left {
        lists = with_arg(lowerer, state, lists, one)?;
        left = rest;
    }
    Ok(lists)
}

/// The arguments of a list that is read here, or none where it yields nothing.
pub fn args_node<I: StoreSink, P: LowerExprs<I>>(
    lowerer: &Lowerer<P>,
    state: &mut BodyBuilder<I>,
    node: &ast::GenericArgList,
) -> Result<Option<GenericArgs>, StoreError>
    requires { KidsArgs (P.can lowerer.now.parts) (P.rctx lowerer.now.parts).place node.now }
    ensures { LowersArgs (tree.some_arg_list (arg_list_level (P.rctx lowerer.now.parts) node.now)) state.old result state.new }
{
    let lists = ArgLists::new(lowerer.alloc);
    let lists = args(lowerer, state, lists, node.as_slice())?;
    Ok(lists.yielded())
}

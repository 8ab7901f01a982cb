//! The types of a function's parameters, and what it returns.

ghost use Rattle.std.specs.Prelude.{◌≡◌, IfOk, option_map};
ghost use Rattle.hir_store.specs.Range.{HasLifetimeOption, HasNone, HasType, HasTypeOption, HasTypes};
ghost use Rattle.hir_env.specs.Answering.{coroutine_kind as kind_of};
ghost use Rattle.hir_env.specs.Paths.{lifetime_of};
ghost use Rattle.hir_env.specs.Whole.{ret_part};
ghost use Rattle.hir_lower_builder.specs.Lowering.{Lowers};
ghost use Rattle.hir_lower_callbacks.specs.ResolveCtxs.{rctx_at};
ghost use Rattle.hir_lower_item.specs.Answering as of;
ghost use Rattle.hir_lower_item.specs.Answering.{at_place};
ghost use Rattle.hir_lower_item.specs.Has.{HasSignature};
ghost use Rattle.hir_lower_item.specs.Lower as spec;

use crate::constants::type_or_error;
use crate::coroutines::{answer_form, coroutine_kind};
use crate::params::generics;
use crate::places::{in_arguments, in_output, pointer};
use hir_env::ctx::LowerCtx;
use hir_env::env::LowerEnv;
use hir_lower_builder::builder::StoredBody;
use hir_lower_builder::parts::site;
use hir_lower_recursion::knot::lower_type_node;
use hir_lower_type::lifetimes::lifetime_if_present;
use hir_store::diagnostics::ExpressionStoreDiagnostics;
use hir_store::error::StoreError;
use hir_store::hir::Mutability;
use hir_store::ids::{GenericDefId, LifetimeRefId, TypeRefId};
use hir_store::lists::push_type;
use hir_store::name::Name;
use hir_store::path::{ModPath, Path, PathKind};
use hir_store::type_ref::{RefType, TypeRef};
use hir_syntax::items::Fn;
use hir_syntax::{Seq, Text, ast};
use std::alloc::{AllocError, Global};

/// The types of a function: those of its parameters that are kept, `self` first, without a variadic one, and what it returns, where that is
/// written or the function is a coroutine.
#[derive(Drop)]
pub struct Signature {
    pub args: Seq<TypeRefId>,
    pub ret: Option<TypeRefId>,
    /// Whether one of the parameters that are kept is `self`.
    pub has_self: bool,
    /// Whether one of them is variadic.
    pub has_variadic: bool,
}

/// The path `Self`.
fn self_path(alloc: Global) -> Result<TypeRef, AllocError>
    ensures { IfOk result (λ t. t ≡ spec.self_path) }
{
    let mut segments = Seq::new(alloc);
    segments.push(Name::Text(Text::new(alloc, "Self")?))?;
    Ok(TypeRef::Path(Path::BarePath(ModPath {
        kind: PathKind::Plain,
        segments,
    })))
}

/// A reference to the type, which comes from no node, or the type itself.
fn borrowed(
    state: &mut StoredBody,
    mutability: Option<Mutability>,
    ty: TypeRefId,
    lifetime: Option<LifetimeRefId>,
) -> Result<TypeRefId, StoreError>
    requires ty { HasType state.old.stored ty }
    requires lifetime { HasLifetimeOption state.old.stored lifetime }
    ensures { Lowers HasType (spec.borrowed mutability ty lifetime) state.old result state.new }
{
    match mutability {
        None => Ok(ty),
        Some(mutability) => {
            let form = RefType {
                ty,
                lifetime,
                mutability,
            };
            state.alloc_type(TypeRef::Reference(form), None)
        }
    }
}

/// The type of a `self` without a written one. Its lifetime is read at this place.
fn self_form(
    alloc: Global,
    place: LowerCtx,
    state: &mut StoredBody,
    mutability: Option<Mutability>,
    written: &Option<ast::Lifetime>,
) -> Result<TypeRefId, StoreError>
    ensures { Lowers HasType (spec.self_form mutability (option_map (lifetime_of place) written.now)) state.old result state.new }
{
    let path = self_path(alloc)?;
    let ty = state.alloc_type(path, None)?;
    let lifetime = lifetime_if_present(state, place, written)?;
    borrowed(state, mutability, ty, lifetime)
}

/// What `self` is borrowed as.
fn borrow(is_ref: bool, is_mut: bool) -> Option<Mutability>
    ensures { result ≡ of.borrow is_ref is_mut }
{
    match (is_ref, is_mut) {
        (false, _) => None,
        (true, false) => Some(Mutability::Shared),
        (true, true) => Some(Mutability::Mut),
    }
}

/// The type of a `self` that is kept, whose parts are read at this place.
fn kept_receiver<E: LowerEnv>(
    alloc: Global,
    env: &E,
    place: LowerCtx,
    state: &mut StoredBody,
    node: &ast::SelfParam,
) -> Result<Option<TypeRefId>, StoreError>
    ensures { let read = of.receiver_of (rctx_at (E.answers env.now) place) node.now.ty node.now.ref_ node.now.mut_ node.now.lifetime in
        Lowers HasTypeOption (spec.lower_receiver read) state.old result state.new }
{
    match &node.ty {
        Some(ty) => Ok(Some(lower_type_node(alloc, env, place, state, &None, ty.get())?)),
        None => {
            let mutability = borrow(node.ref_, node.mut_);
            Ok(Some(self_form(alloc, place, state, mutability, &node.lifetime)?))
        }
    }
}

/// The type of `self`, where it is there and kept.
fn receiver<E: LowerEnv>(
    alloc: Global,
    env: &E,
    place: LowerCtx,
    state: &mut StoredBody,
    def: GenericDefId,
    part: &Option<ast::SelfParam>,
) -> Result<Option<TypeRefId>, StoreError>
    ensures { let at = rctx_at (E.answers env.now) place in
        Lowers HasTypeOption (spec.lower_receiver (of.resolved_receiver at def part.now)) state.old result state.new }
{
    match part {
        None => Ok(None),
        Some(node) => {
            let at = pointer(place, node.id, node.range);
            match env.cfg(site(at)) {
                Err(cfg) => {
                    state.report(ExpressionStoreDiagnostics::InactiveCode { node: at, cfg })?;
                    Ok(None)
                }
                Ok(()) => kept_receiver(alloc, env, in_arguments(def, place), state, node),
            }
        }
    }
}

/// Whether `self` is there and kept.
fn is_received<E: LowerEnv>(
    env: &E,
    place: LowerCtx,
    def: GenericDefId,
    part: &Option<ast::SelfParam>,
) -> bool
    ensures { let at = rctx_at (E.answers env.now) place in
        result ≡ spec.is_received (of.resolved_receiver at def part.now) }
{
    match part {
        None => false,
        Some(node) => env.cfg(site(pointer(place, node.id, node.range))).is_ok(),
    }
}

/// Reports a parameter that a condition disables.
fn report_inactive<E: LowerEnv>(
    env: &E,
    place: LowerCtx,
    state: &mut StoredBody,
    def: GenericDefId,
    node: &ast::Param,
) -> Result<(), StoreError>
    ensures { let at = rctx_at (E.answers env.now) place in
        Lowers HasNone (spec.report_inactive (of.resolved_argument at def node.now)) state.old result state.new }
{
    let at = pointer(place, node.id, node.range);
    match env.cfg(site(at)) {
        Err(cfg) => state.report(ExpressionStoreDiagnostics::InactiveCode { node: at, cfg }),
        Ok(()) => Ok(()),
    }
}

fn report_each<E: LowerEnv>(
    env: &E,
    place: LowerCtx,
    state: &mut StoredBody,
    def: GenericDefId,
    mut left: &[ast::Param],
) -> Result<(), StoreError>
    ensures { let at = rctx_at (E.answers env.now) place in
        Lowers HasNone (spec.report_each (of.arguments_of at def left.entry.now)) state.old result state.new }
{
    while let [one, rest @ ..] = left {
        report_inactive(env, place, state, def, one)?;
        left = rest;
    }
    Ok(())
}

/// The type of a parameter that is kept and isn't variadic.
fn argument_type<E: LowerEnv>(
    alloc: Global,
    env: &E,
    place: LowerCtx,
    state: &mut StoredBody,
    def: GenericDefId,
    node: &ast::Param,
) -> Result<Option<TypeRefId>, StoreError>
    ensures { let at = rctx_at (E.answers env.now) place in
        Lowers HasTypeOption (spec.argument_type (of.resolved_argument at def node.now)) state.old result state.new }
{
    match env.cfg(site(pointer(place, node.id, node.range))) {
        Err(_) => Ok(None),
        Ok(()) => {
            if node.variadic {
                Ok(None)
            } else {
                let inside = in_arguments(def, place);
                Ok(Some(type_or_error(alloc, env, inside, state, &node.ty)?))
            }
        }
    }
}

/// The types of the parameters that are kept and aren't variadic, behind these.
fn argument_types<E: LowerEnv>(
    alloc: Global,
    env: &E,
    place: LowerCtx,
    state: &mut StoredBody,
    def: GenericDefId,
    mut done: Seq<TypeRefId>,
    mut left: &[ast::Param],
) -> Result<Seq<TypeRefId>, StoreError>
    requires { HasTypes state.old.stored done }
    ensures { let at = rctx_at (E.answers env.now) place in
        Lowers HasTypes (spec.argument_types done (of.arguments_of at def left.entry.now)) state.old result state.new }
{
    while let [one, rest @ ..] = left {
        if let Some(id) = argument_type(alloc, env, place, state, def, one)? {
            push_type(&mut done, id)?;
        }
        left = rest;
    }
    Ok(done)
}

/// Whether a parameter is kept and variadic.
fn is_variadic<E: LowerEnv>(env: &E, place: LowerCtx, def: GenericDefId, node: &ast::Param) -> bool
    ensures { let at = rctx_at (E.answers env.now) place in
        result ≡ spec.is_variadic (of.resolved_argument at def node.now) }
{
    match env.cfg(site(pointer(place, node.id, node.range))) {
        Err(_) => false,
        Ok(()) => node.variadic,
    }
}

/// Whether one that is kept is variadic.
fn any_variadic<E: LowerEnv>(
    env: &E,
    place: LowerCtx,
    def: GenericDefId,
    mut left: &[ast::Param],
) -> bool
    ensures { let at = rctx_at (E.answers env.now) place in
        result ≡ spec.any_variadic (of.arguments_of at def left.entry.now) }
{
    while let [one, rest @ ..] = left {
        if is_variadic(env, place, def, one) {
            return true;
        }
        left = rest;
    }
    false
}

/// The types of the parameters in a list: that of `self`, the faults of the others, and then their types.
fn listed_types<E: LowerEnv>(
    alloc: Global,
    env: &E,
    place: LowerCtx,
    state: &mut StoredBody,
    def: GenericDefId,
    list: &ast::ParamList,
) -> Result<Seq<TypeRefId>, StoreError>
    ensures { let at = rctx_at (E.answers env.now) place in
        let read = spec.input_types (of.resolved_receiver at def list.now.self_) (of.arguments_of at def list.now.params) in
        Lowers HasTypes read state.old result state.new }
{
    let mut types = Seq::new(alloc);
    if let Some(id) = receiver(alloc, env, place, state, def, &list.self_)? {
        push_type(&mut types, id)?;
    }
    let params = list.params.as_slice();
    report_each(env, place, state, def, params)?;
    argument_types(alloc, env, place, state, def, types, params)
}

/// The types of the parameters, none where there is no list.
fn input_types<E: LowerEnv>(
    alloc: Global,
    env: &E,
    place: LowerCtx,
    state: &mut StoredBody,
    def: GenericDefId,
    list: &Option<ast::ParamList>,
) -> Result<Seq<TypeRefId>, StoreError>
    ensures { let at = rctx_at (E.answers env.now) place in
        let read = spec.input_types (of.receiver_part at def list.now) (of.arguments_part at def list.now) in
        Lowers HasTypes read state.old result state.new }
{
    match list {
        None => Ok(Seq::new(alloc)),
        Some(list) => listed_types(alloc, env, place, state, def, list),
    }
}

/// What is written behind `->`, where that stands there, and an error where the type behind it is absent.
fn written_ret<E: LowerEnv>(
    alloc: Global,
    env: &E,
    place: LowerCtx,
    state: &mut StoredBody,
    ret: &Option<ast::RetType>,
) -> Result<Option<TypeRefId>, StoreError>
    ensures { let at = rctx_at (E.answers env.now) place in
        Lowers HasTypeOption (spec.present_ret (ret_part at ret.now)) state.old result state.new }
{
    match ret {
        None => Ok(None),
        Some(ty) => Ok(Some(type_or_error(alloc, env, place, state, ty)?)),
    }
}

/// What the function answers: what is written there, of which then that is made which a coroutine answers.
fn output<E: LowerEnv>(
    alloc: Global,
    env: &E,
    place: LowerCtx,
    state: &mut StoredBody,
    node: &Fn,
) -> Result<Option<TypeRefId>, StoreError>
    ensures { let at = at_place of.in_output (rctx_at (E.answers env.now) place) in
        let read = spec.output_type (kind_of node.now.async_ node.now.gen_) (ret_part at node.now.ret) in
        Lowers HasTypeOption read state.old result state.new }
{
    let written = written_ret(alloc, env, in_output(place), state, &node.ret)?;
    let kind = coroutine_kind(node.async_, node.gen_);
    answer_form(alloc, state, kind, written)
}

/// Whether `self` is one of the parameters that are kept.
fn has_self<E: LowerEnv>(
    env: &E,
    place: LowerCtx,
    def: GenericDefId,
    list: &Option<ast::ParamList>,
) -> bool
    ensures { let at = rctx_at (E.answers env.now) place in
        result ≡ spec.is_received (of.receiver_part at def list.now) }
{
    match list {
        None => false,
        Some(list) => is_received(env, place, def, &list.self_),
    }
}

/// Whether one of the parameters that are kept is variadic.
fn has_variadic<E: LowerEnv>(
    env: &E,
    place: LowerCtx,
    def: GenericDefId,
    list: &Option<ast::ParamList>,
) -> bool
    ensures { let at = rctx_at (E.answers env.now) place in
        result ≡ spec.any_variadic (of.arguments_part at def list.now) }
{
    match list {
        None => false,
        Some(list) => any_variadic(env, place, def, list.params.as_slice()),
    }
}

/// The parameters and the predicates of a function, the types of its arguments, and what it returns.
pub fn function<E: LowerEnv>(
    alloc: Global,
    env: &E,
    place: LowerCtx,
    state: &mut StoredBody,
    def: GenericDefId,
    node: &Fn,
) -> Result<Signature, StoreError>
    ensures { let at = rctx_at (E.answers env.now) place in
        Lowers HasSignature (spec.lower_function def (of.resolved_function at def node.now)) state.old result state.new }
{
    let list = node.generics.as_ref();
    let clause = node.where_.as_ref();
    generics(alloc, env, place, state, def, list, clause)?;
    let args = input_types(alloc, env, place, state, def, &node.params)?;
    let ret = output(alloc, env, place, state, node)?;
    let has_self = has_self(env, place, def, &node.params);
    let has_variadic = has_variadic(env, place, def, &node.params);
    Ok(Signature {
        args,
        ret,
        has_self,
        has_variadic,
    })
}

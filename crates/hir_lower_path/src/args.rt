//! What stands behind the name of a segment: `<..>`, `(A) -> C` or `(..)`.

ghost use Rattle.std.specs.Prelude.{◌≡◌, IfOk, None};
ghost use Rattle.hir_syntax.specs.declared.ast.PathSegment.{out-PathSegment};
ghost use Rattle.hir_store.specs.Range.{HasArgsOption, HasType};
ghost use Rattle.hir_env.specs.Whole.{parens_part, ret_part, segment_args_level, type_args_part};
ghost use Rattle.hir_lower_builder.specs.Lowering.{Lowers};
ghost use Rattle.hir_lower_builder.specs.Lower as spec;
ghost use Rattle.hir_lower_builder.specs.Paths as forms;
ghost use Rattle.hir_lower_builder.specs.Methods.{LowersParts};
ghost use Rattle.hir_lower_builder.specs.Nests.{Each, IfPresent, KidsParens, KidsRet, KidsSegmentArgs, KidsTypeArg};
ghost use Rattle.hir_lower_path.specs.Found.{found_or};

use hir_lower_builder::args::or_notation;
use hir_lower_builder::builder::BodyBuilder;
use hir_lower_builder::parts::{LowerExprs, Lowerer};
use hir_lower_builder::store_sink::StoreSink;
use hir_store::error::StoreError;
use hir_store::ids::TypeRefId;
use hir_store::lists::push_type;
use hir_store::name::Name;
use hir_store::path::{AssociatedTypeBinding, GenericArg, GenericArgs, GenericArgsParentheses};
use hir_store::type_ref::TypeRef;
use hir_syntax::{Seq, Text, ast};
use std::alloc::{AllocError, Global};

/// The types in `(A, B)`.
fn type_args<I: StoreSink, P: LowerExprs<I>>(
    lowerer: &Lowerer<P>,
    state: &mut BodyBuilder<I>,
    mut left: &[ast::TypeArg],
) -> Result<Seq<TypeRefId>, StoreError>
    requires { Each (KidsTypeArg (P.can lowerer.now.parts) (P.rctx lowerer.now.parts).place) left.now }
    ensures { LowersParts (type_args_part (P.rctx lowerer.now.parts) left.entry.now) state.old result state.new }
{
    let mut done = Seq::new(lowerer.alloc);
    while let [one, rest @ ..] = left {
        let id = lowerer.type_or_error(state, lowerer.parts.place(), &None, one)?;
        push_type(&mut done, id)?;
        left = rest;
    }
    Ok(done)
}

/// What `-> C` says: `()` where it is absent, and an error where it has no type.
fn output<I: StoreSink, P: LowerExprs<I>>(
    lowerer: &Lowerer<P>,
    state: &mut BodyBuilder<I>,
    ret: &Option<ast::RetType>,
) -> Result<TypeRefId, StoreError>
    requires { IfPresent (KidsRet (P.can lowerer.now.parts) (P.rctx lowerer.now.parts).place) ret.now }
    ensures { Lowers HasType (spec.output_part (ret_part (P.rctx lowerer.now.parts) ret.now)) state.old result state.new }
{
    match ret {
        None => state.unit_type(lowerer.alloc),
        Some(ty) => lowerer.type_or_error(state, lowerer.parts.place(), &None, ty),
    }
}

/// The arguments for this tuple of types, and this one that is answered.
#[inline(never)]
fn sugared_args(
    alloc: Global,
    tuple: TypeRefId,
    output: TypeRefId,
) -> Result<GenericArgs, AllocError>
    ensures { IfOk result (λ args. args ≡ forms.sugared_args tuple output) }
{
    let mut args = Seq::new(alloc);
    args.push(GenericArg::Type_(tuple))?;
    let name = Name::Text(Text::new(alloc, "Output")?);
    let mut bindings = Seq::new(alloc);
    bindings.push(AssociatedTypeBinding::new(name, None, Some(output), Seq::new(alloc)))?;
    Ok(GenericArgs::new(args, bindings, GenericArgsParentheses::ParenSugar))
}

/// `(A) -> C`. Without `(A)` nothing is read.
#[tactic(auto, using(crate::proofs::Sugar::sugared_has), unfolding(hir_lower_builder::specs::Paths::parens_form))]
#[inline(never)]
fn parens<I: StoreSink, P: LowerExprs<I>>(
    lowerer: &Lowerer<P>,
    state: &mut BodyBuilder<I>,
    parens: &Option<ast::ParenArgs>,
    ret: &Option<ast::RetType>,
) -> Result<Option<GenericArgs>, StoreError>
    requires { KidsParens (P.can lowerer.now.parts) (P.rctx lowerer.now.parts).place parens.now ret.now }
    ensures { let read = parens_part (P.rctx lowerer.now.parts) parens.now ret.now in
        Lowers HasArgsOption (spec.parens_part read) state.old result state.new }
{
    let Some(parens) = parens else {
        return Ok(None);
    };
    let types = type_args(lowerer, state, parens.as_slice())?;
    let tuple = state.alloc_type(TypeRef::Tuple(types), None)?;
    let output = output(lowerer, state, ret)?;
    Ok(Some(sugared_args(lowerer.alloc, tuple, output)?))
}

/// `(A) -> C`, or else `(..)`.
fn parens_or_dots<I: StoreSink, P: LowerExprs<I>>(
    lowerer: &Lowerer<P>,
    state: &mut BodyBuilder<I>,
    node: &ast::PathSegment,
) -> Result<Option<GenericArgs>, StoreError>
    requires { let level = out-PathSegment node.now in
        KidsParens (P.can lowerer.now.parts) (P.rctx lowerer.now.parts).place level.parens level.ret }
    ensures { let level = out-PathSegment node.now in
        let parens = spec.parens_part (parens_part (P.rctx lowerer.now.parts) level.parens level.ret) in
        Lowers HasArgsOption (found_or None parens level.rtn) state.old result state.new }
{
    match parens(lowerer, state, &node.parens, &node.ret) {
        Ok(found) => Ok(or_notation(lowerer.alloc, found, node.rtn)),
        Err(fault) => Err(fault),
    }
}

/// These arguments, or else `(A) -> C`, or else `(..)`.
#[inline(never)]
fn found_or_parens<I: StoreSink, P: LowerExprs<I>>(
    lowerer: &Lowerer<P>,
    state: &mut BodyBuilder<I>,
    node: &ast::PathSegment,
    found: Option<GenericArgs>,
) -> Result<Option<GenericArgs>, StoreError>
    requires parts { let level = out-PathSegment node.now in
        KidsParens (P.can lowerer.now.parts) (P.rctx lowerer.now.parts).place level.parens level.ret }
    requires found { HasArgsOption state.old.stored found }
    ensures { let level = out-PathSegment node.now in
        let parens = spec.parens_part (parens_part (P.rctx lowerer.now.parts) level.parens level.ret) in
        Lowers HasArgsOption (found_or found parens level.rtn) state.old result state.new }
{
    match found {
        Some(args) => Ok(Some(args)),
        None => parens_or_dots(lowerer, state, node),
    }
}

/// Of `<..>`, `(A) -> C` and `(..)` the first that yields any.
#[tactic(auto, unfolding(hir_lower_builder::specs::Paths::segment_args_form))]
pub(crate) fn segment_args<I: StoreSink, P: LowerExprs<I>>(
    lowerer: &Lowerer<P>,
    state: &mut BodyBuilder<I>,
    node: &ast::PathSegment,
) -> Result<Option<GenericArgs>, StoreError>
    requires { KidsSegmentArgs (P.can lowerer.now.parts) (P.rctx lowerer.now.parts).place (out-PathSegment node.now) }
    ensures { let level = segment_args_level (P.rctx lowerer.now.parts) node.now in
        Lowers HasArgsOption (spec.lower_segment_args level) state.old result state.new }
{
    let place = lowerer.parts.place();
    let found = lowerer.args_if_present(state, place, &node.generics)?;
    found_or_parens(lowerer, state, node, found)
}

//! Function pointers.

ghost use Rattle.std.specs.Prelude.{◌≡◌, Bool, IfOk, List, Option, false};
ghost use Rattle.hir_syntax.specs.declared.types.Param.{out-Param};
ghost use Rattle.hir_store.specs.Range.{HasType, HasTypeOption};
ghost use Rattle.hir_store.specs.declared.name.Name.{Name as StoredName};
ghost use Rattle.hir_env.specs.ResolvedTree as tree;
ghost use Rattle.hir_env.specs.ResolvedTree.{OptionType, Parts};
ghost use Rattle.hir_env.specs.Paths as of;
ghost use Rattle.hir_env.specs.ResolveCtx.{ResolveCtx};
ghost use Rattle.hir_env.specs.declared.ctx.LowerCtx.{LowerCtx as AtCtx};
ghost use Rattle.hir_env.specs.Whole.{answer_part, resolved_param, names_part, param_level, params_part, varargs_part};
ghost use Rattle.hir_lower_builder.specs.Lowering.{Lowers};
ghost use Rattle.hir_lower_builder.specs.Lower as spec;
ghost use Rattle.hir_lower_builder.specs.Methods.{LowersParts, LowersType};
ghost use Rattle.hir_lower_builder.specs.Nests.{Claims, Each, IfPresent, KidsParam, KidsRet};
ghost use Rattle.hir_lower_type.specs.Abis.{abi_later};
ghost use Rattle.hir_lower_type.specs.Params.{lower_param, param_name, param_names, params_at, variadic_last};

use hir_base::node::{AstPtr, InFile};
use hir_lower_builder::builder::BodyBuilder;
use hir_lower_builder::names::name_of;
use hir_lower_builder::parts::{LowerExprs, LowerParts, Lowerer};
use hir_lower_builder::store_sink::StoreSink;
use hir_store::error::StoreError;
use hir_store::ids::TypeRefId;
use hir_store::lists::push_type;
use hir_store::name::{Name, copy_names};
use hir_store::type_ref::{ExternAbi, FnType, TypeRef};
use hir_syntax::{Seq, Text, ast};
use std::alloc::{AllocError, Global};

/// The ABI of this text, where it is one of the later half; any other is `C`.
fn later_abi(text: &Text) -> ExternAbi
    ensures { result ≡ abi_later text.now }
{
    let text = text.as_str();
    if text == "vectorcall" {
        ExternAbi::Vectorcall
    } else if text == "thiscall" {
        ExternAbi::Thiscall
    } else if text == "aapcs" {
        ExternAbi::Aapcs
    } else if text == "win64" {
        ExternAbi::Win64
    } else if text == "sysv64" {
        ExternAbi::Sysv64
    } else if text == "efiapi" {
        ExternAbi::Efiapi
    } else if text == "rust-call" {
        ExternAbi::RustCall
    } else {
        ExternAbi::C
    }
}

/// The ABI of this text; any other is `C`.
fn named_abi(written: &Text) -> ExternAbi
    ensures { result ≡ of.abi_named written.now }
{
    let text = written.as_str();
    if text == "Rust" {
        ExternAbi::Rust
    } else if text == "C-unwind" {
        ExternAbi::CUnwind
    } else if text == "system" {
        ExternAbi::System
    } else if text == "system-unwind" {
        ExternAbi::SystemUnwind
    } else if text == "cdecl" {
        ExternAbi::Cdecl
    } else if text == "stdcall" {
        ExternAbi::Stdcall
    } else if text == "fastcall" {
        ExternAbi::Fastcall
    } else {
        later_abi(written)
    }
}

/// The ABI: where none is written it is `Rust`.
fn abi(written: &Option<Text>) -> ExternAbi
    ensures { result ≡ of.abi_of written.now }
{
    match written {
        None => ExternAbi::Rust,
        Some(text) => named_abi(text),
    }
}

#[inline(never)]
fn param_form<I: StoreSink, P: LowerExprs<I>>(
    lowerer: &Lowerer<P>,
    state: &mut BodyBuilder<I>,
    node: &ast::Param,
) -> Result<Option<TypeRefId>, StoreError>
    requires { KidsParam (P.can lowerer.now.parts) (P.rctx lowerer.now.parts).place (out-Param node.now) }
    ensures { Lowers HasTypeOption (lower_param (param_level (P.rctx lowerer.now.parts) node.now)) state.old result state.new }
{
    if node.variadic {
        return Ok(None);
    }
    let place = lowerer.parts.place();
    Ok(Some(lowerer.type_or_error(state, place, &None, &node.ty)?))
}

/// The type of a parameter, none where it is variadic.
fn param<I: StoreSink, P: LowerExprs<I>>(
    lowerer: &Lowerer<P>,
    state: &mut BodyBuilder<I>,
    node: &ast::Param,
) -> Result<Option<TypeRefId>, StoreError>
    requires { KidsParam (P.can lowerer.now.parts) (P.rctx lowerer.now.parts).place (out-Param node.now) }
    ensures { Lowers HasTypeOption (lower_param (resolved_param (P.rctx lowerer.now.parts) node.now)) state.old result state.new }
{
    param_form(lowerer, state, node)
}

/// The types of the parameters that aren't variadic.
#[tactic(auto, using(crate::proofs::Params::params_more))]
fn params<I: StoreSink, P: LowerExprs<I>>(
    lowerer: &Lowerer<P>,
    state: &mut BodyBuilder<I>,
    mut left: &[ast::Param],
) -> Result<Seq<TypeRefId>, StoreError>
    requires { Each (λ x. KidsParam (P.can lowerer.now.parts) (P.rctx lowerer.now.parts).place (out-Param x)) left.now }
    ensures { LowersParts (params_at (P.rctx lowerer.now.parts) left.entry.now) state.old result state.new }
{
    let mut done = Seq::new(lowerer.alloc);
    while let [one, rest @ ..] = left {
        if let Some(id) = param(lowerer, state, one)? {
            push_type(&mut done, id)?;
        }
        left = rest;
    }
    Ok(done)
}

fn last_variadic(all: &Seq<ast::Param>) -> bool
    ensures { result ≡ variadic_last false all.now }
{
    let mut variadic = false;
    let mut left = all.as_slice();
    while let [one, rest @ ..] = left {
        variadic = one.variadic;
        left = rest;
    }
    variadic
}

/// The name that the pattern of a parameter gives it: any that is one name.
#[tactic(auto, using(crate::proofs::Params::no_name_left))]
fn param_name(node: &ast::Param) -> Result<Option<Name>, AllocError>
    ensures { IfOk result (λ name. name ≡ param_name node.now) }
{
    let Some(pat) = &node.pat else {
        return Ok(None);
    };
    match &pat.get().kind {
        ast::PatKind::IdentPat { name, .. } => Ok(Some(name_of(name)?)),
        _ => Ok(None),
    }
}

/// The names of the parameters that aren't variadic.
fn names(alloc: Global, mut left: &[ast::Param]) -> Result<Seq<Option<Name>>, AllocError>
    ensures { IfOk result (λ names. names ≡ param_names left.entry.now) }
{
    let mut names = Seq::new(alloc);
    while let [one, rest @ ..] = left {
        if !one.variadic {
            names.push(param_name(one)?)?;
        }
        left = rest;
    }
    Ok(names)
}

fn binder_copy(binder: &Option<Seq<Name>>) -> Result<Option<Seq<Name>>, AllocError>
    ensures { IfOk result (λ copy. copy ≡ binder.now) }
{
    match binder {
        None => Ok(None),
        Some(names) => Ok(Some(copy_names(names)?)),
    }
}

/// The parameters of a function pointer, that are there or aren't. A form that hands them on has them as a type parameter.
pub trait ParamsPart {
    ghost can: { Claims → AtCtx → Self → Type 0 };

    ghost read: { ResolveCtx → Self → Parts };

    ghost all_names: { ResolveCtx → Self → List (Option StoredName) };

    ghost varargs: { ResolveCtx → Self → Bool };

    /// The types of those that aren't variadic.
    fn types<I: StoreSink, P: LowerExprs<I>>(
        &self,
        lowerer: &Lowerer<P>,
        state: &mut BodyBuilder<I>,
    ) -> Result<Seq<TypeRefId>, StoreError>
        requires { can (P.can lowerer.now.parts) (P.rctx lowerer.now.parts).place self.now }
        ensures { LowersParts (read (P.rctx lowerer.now.parts) self.now) state.old result state.new };

    /// The names of those that aren't variadic.
    fn names<P: LowerParts>(&self, lowerer: &Lowerer<P>) -> Result<Seq<Option<Name>>, AllocError>
        ensures { IfOk result (λ names. names ≡ all_names (P.rctx lowerer.now.parts) self.now) };

    /// Whether the last of them is variadic.
    fn is_varargs<P: LowerParts>(&self, lowerer: &Lowerer<P>) -> bool
        ensures { result ≡ varargs (P.rctx lowerer.now.parts) self.now };
}

impl ParamsPart for Option<Seq<ast::Param>> {
    ghost can = { λ claims place. IfPresent (Each (λ x. KidsParam claims place (out-Param x))) };

    ghost read = { params_part };

    ghost all_names = { names_part };

    ghost varargs = { varargs_part };

    fn types<I: StoreSink, P: LowerExprs<I>>(
        &self,
        lowerer: &Lowerer<P>,
        state: &mut BodyBuilder<I>,
    ) -> Result<Seq<TypeRefId>, StoreError> {
        match self {
            None => Ok(Seq::new(lowerer.alloc)),
            Some(all) => params(lowerer, state, all.as_slice()),
        }
    }

    #[tactic(auto, using(crate::proofs::Params::names_are))]
    fn names<P: LowerParts>(&self, lowerer: &Lowerer<P>) -> Result<Seq<Option<Name>>, AllocError> {
        match self {
            None => Ok(Seq::new(lowerer.alloc)),
            Some(all) => names(lowerer.alloc, all.as_slice()),
        }
    }

    #[tactic(auto, using(crate::proofs::Params::variadic_is))]
    fn is_varargs<P: LowerParts>(&self, lowerer: &Lowerer<P>) -> bool {
        let _ = lowerer;
        match self {
            None => false,
            Some(all) => last_variadic(all),
        }
    }
}

/// What a function pointer returns, where that is written.
pub trait AnswerPart {
    ghost can: { Claims → AtCtx → Self → Type 0 };

    ghost read: { ResolveCtx → Self → OptionType };

    /// The type that it returns: `()` where no type is written.
    fn answer<I: StoreSink, P: LowerExprs<I>>(
        &self,
        lowerer: &Lowerer<P>,
        state: &mut BodyBuilder<I>,
    ) -> Result<TypeRefId, StoreError>
        requires { can (P.can lowerer.now.parts) (P.rctx lowerer.now.parts).place self.now }
        ensures { Lowers HasType (spec.type_or_unit (read (P.rctx lowerer.now.parts) self.now)) state.old result state.new };
}

impl AnswerPart for Option<ast::RetType> {
    ghost can = { λ claims place. IfPresent (KidsRet claims place) };

    ghost read = { answer_part };

    fn answer<I: StoreSink, P: LowerExprs<I>>(
        &self,
        lowerer: &Lowerer<P>,
        state: &mut BodyBuilder<I>,
    ) -> Result<TypeRefId, StoreError> {
        match self {
            None | Some(None) => state.unit_type(lowerer.alloc),
            Some(Some(ty)) => {
                let place = lowerer.parts.place();
                lowerer.parts.lower_type(state, place, &None, ty.get())
            }
        }
    }
}

/// What it returns is lowered first.
#[tactic(auto, unfolding(hir_lower_builder::specs::Types::fn_type_form))]
#[inline(never)]
pub(crate) fn fn_form<I: StoreSink, P: LowerExprs<I>, L: ParamsPart, R: AnswerPart>(
    lowerer: &Lowerer<P>,
    state: &mut BodyBuilder<I>,
    at: InFile<AstPtr>,
    binder: &Option<Seq<Name>>,
    is_unsafe: bool,
    written: &Option<Text>,
    all: &L,
    ret: &R,
) -> Result<TypeRefId, StoreError>
    requires params { L.can (P.can lowerer.now.parts) (P.rctx lowerer.now.parts).place all.now }
    requires ret { R.can (P.can lowerer.now.parts) (P.rctx lowerer.now.parts).place ret.now }
    ensures { let rctx = P.rctx lowerer.now.parts in
        let head = of.fn_head is_unsafe written.now (L.varargs rctx all.now) (L.all_names rctx all.now) in
        LowersType binder.now (tree.fn_type at head (L.read rctx all.now) (R.read rctx ret.now)) state.old result state.new }
{
    let output = ret.answer(lowerer, state)?;
    let mut params = all.types(lowerer, state)?;
    push_type(&mut params, output)?;
    let names = all.names(lowerer)?;
    let binder = binder_copy(binder)?;
    let ty = TypeRef::Fn(FnType {
        params,
        names,
        is_varargs: all.is_varargs(lowerer),
        is_unsafe,
        abi: abi(written),
        binder,
    });
    state.alloc_type(ty, Some(at))
}

//! Types, constants and patterns as parts of a form. A form that hands one on has it as a type parameter, so that no tree is among the
//! form's types, each of which a check would lay out with all that it leads to.

ghost use Rattle.std.specs.Prelude.{Option};
ghost use Rattle.hir_syntax.specs.declared.ast.Expr.{Expr as AstExpr};
ghost use Rattle.hir_syntax.specs.declared.pats.Pat.{Pat as AstPat};
ghost use Rattle.hir_syntax.specs.declared.types.Type_.{Type_ as AstType};
ghost use Rattle.hir_env.specs.ResolvedTree.{Constant, OptionPat, OptionType, Parts};
ghost use Rattle.hir_env.specs.Paths as of;
ghost use Rattle.hir_env.specs.ResolveCtx.{ResolveCtx};
ghost use Rattle.hir_env.specs.TypePats.{type_pat_or_none};
ghost use Rattle.hir_env.specs.Whole.{constant_part, pat_part, type_part, types_part};
ghost use Rattle.hir_lower_builder.specs.Methods.{LowersConstant, LowersParts, LowersTypeOpt, LowersTypePat, at_place};
ghost use Rattle.hir_lower_builder.specs.Nests.{Each, IfPresent, const_expr};

use crate::type_pats::lower_type_pat;
use hir_env::ctx::inside_constant;
use hir_lower_builder::builder::BodyBuilder;
use hir_lower_builder::parts::{LowerExprs, Lowerer};
use hir_lower_builder::store_sink::StoreSink;
use hir_store::error::StoreError;
use hir_store::ids::{PatId, TypeRefId};
use hir_store::lists::push_type;
use hir_store::name::Name;
use hir_store::type_ref::ConstRef;
use hir_syntax::{Boxed, Seq, ast};

/// A type that is read here, and that is there or isn't.
pub trait TypePart {
    ghost can: { (AstType → Type 0) → Self → Type 0 };

    ghost read: { ResolveCtx → Self → OptionType };

    /// The type, with the names of the `for<..>` directly around it, and an error where it is absent.
    fn lower<I: StoreSink, P: LowerExprs<I>>(
        &self,
        lowerer: &Lowerer<P>,
        state: &mut BodyBuilder<I>,
        binder: &Option<Seq<Name>>,
    ) -> Result<TypeRefId, StoreError>
        requires { can ((P.can lowerer.now.parts).type_ (P.rctx lowerer.now.parts).place) self.now }
        ensures { LowersTypeOpt binder.now (read (P.rctx lowerer.now.parts) self.now) state.old result state.new };
}

impl TypePart for Option<Boxed<ast::Type_>> {
    ghost can = { λ ty. IfPresent ty };

    ghost read = { type_part };

    fn lower<I: StoreSink, P: LowerExprs<I>>(
        &self,
        lowerer: &Lowerer<P>,
        state: &mut BodyBuilder<I>,
        binder: &Option<Seq<Name>>,
    ) -> Result<TypeRefId, StoreError> {
        lowerer.type_or_error(state, lowerer.parts.place(), binder, self)
    }
}

/// Types that are read here, one after another.
pub trait TypesPart {
    ghost can: { (AstType → Type 0) → Self → Type 0 };

    ghost read: { ResolveCtx → Self → Parts };

    fn lower_each<I: StoreSink, P: LowerExprs<I>>(
        &self,
        lowerer: &Lowerer<P>,
        state: &mut BodyBuilder<I>,
    ) -> Result<Seq<TypeRefId>, StoreError>
        requires { can ((P.can lowerer.now.parts).type_ (P.rctx lowerer.now.parts).place) self.now }
        ensures { LowersParts (read (P.rctx lowerer.now.parts) self.now) state.old result state.new };
}

impl TypesPart for Seq<ast::Type_> {
    ghost can = { λ ty. Each ty };

    ghost read = { types_part };

    fn lower_each<I: StoreSink, P: LowerExprs<I>>(
        &self,
        lowerer: &Lowerer<P>,
        state: &mut BodyBuilder<I>,
    ) -> Result<Seq<TypeRefId>, StoreError> {
        let mut done = Seq::new(lowerer.alloc);
        let mut left = self.as_slice();
        while let [one, rest @ ..] = left {
            let place = lowerer.parts.place();
            let id = lowerer.parts.lower_type(state, place, &None, one)?;
            push_type(&mut done, id)?;
            left = rest;
        }
        Ok(done)
    }
}

/// A constant that is written here, and that is there or isn't.
pub trait ConstPart {
    ghost can: { (Option AstExpr → Type 0) → Self → Type 0 };

    ghost read: { ResolveCtx → Self → Constant };

    /// The constant, missing where it is absent.
    fn lower<I: StoreSink, P: LowerExprs<I>>(
        &self,
        lowerer: &Lowerer<P>,
        state: &mut BodyBuilder<I>,
    ) -> Result<ConstRef, StoreError>
        requires { can ((P.can lowerer.now.parts).constant (P.rctx lowerer.now.parts).place) self.now }
        ensures { LowersConstant (read (P.rctx lowerer.now.parts) self.now) state.old result state.new };
}

impl ConstPart for Option<ast::ConstArg> {
    ghost can = { λ constant x. constant (const_expr x) };

    ghost read = { constant_part };

    fn lower<I: StoreSink, P: LowerExprs<I>>(
        &self,
        lowerer: &Lowerer<P>,
        state: &mut BodyBuilder<I>,
    ) -> Result<ConstRef, StoreError> {
        lowerer.constant_or_missing(state, lowerer.parts.place(), self)
    }
}

/// The pattern of a type that is written here.
pub trait TypePatPart {
    ghost can: { (AstPat → Type 0) → Self → Type 0 };

    ghost read: { ResolveCtx → Self → OptionPat };

    /// The pattern, the ends of whose ranges are constants.
    fn lower_inside<I: StoreSink, P: LowerExprs<I>>(
        &self,
        lowerer: &Lowerer<P>,
        state: &mut BodyBuilder<I>,
    ) -> Result<PatId, StoreError>
        requires { can ((P.can lowerer.now.parts).pat (of.inside_constant (P.rctx lowerer.now.parts).place)) self.now }
        ensures { let rctx = P.rctx lowerer.now.parts in
            let inner = at_place rctx (of.inside_constant rctx.place) in
            LowersTypePat (type_pat_or_none inner.answers.lang_items (read inner self.now)) state.old result state.new };
}

impl TypePatPart for Option<Boxed<ast::Pat>> {
    ghost can = { λ pattern. IfPresent pattern };

    ghost read = { pat_part };

    fn lower_inside<I: StoreSink, P: LowerExprs<I>>(
        &self,
        lowerer: &Lowerer<P>,
        state: &mut BodyBuilder<I>,
    ) -> Result<PatId, StoreError> {
        lower_type_pat(lowerer, state, inside_constant(lowerer.parts.place()), self)
    }
}

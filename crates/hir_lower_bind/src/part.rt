//! Patterns as parts of a form. A form that hands one on has it as a type parameter, so that no tree is among the form's types.

ghost use Rattle.hir_syntax.specs.declared.pats.Pat.{Pat as AstPat};
ghost use Rattle.hir_env.specs.ResolvedTree.{OptionPat, Pat as ResolvedPat, Pats};
ghost use Rattle.hir_env.specs.ResolveCtx.{ResolveCtx};
ghost use Rattle.hir_env.specs.Whole.{resolved_pat, elements_part, pat_part, pats_part};
ghost use Rattle.hir_lower_builder.specs.Nests.{Each, IfPresent};
ghost use Rattle.hir_lower_pat.specs.Bindings.{HasNames};
ghost use Rattle.hir_lower_pat.specs.Methods.{LowersElement, LowersElements, LowersPat, LowersPatIfPresent, LowersPatOpt, LowersPats};

use crate::tuples::element;
use hir_lower_builder::builder::BodyBuilder;
use hir_lower_builder::store_sink::StoreSink;
use hir_lower_pat::bindings::Bindings;
use hir_lower_pat::parts::PatParts;
use hir_store::error::StoreError;
use hir_store::ids::PatId;
use hir_store::lists::push_pat;
use hir_syntax::{Boxed, Seq, ast};

/// A pattern.
pub trait PatNode {
    ghost can: { (AstPat → Type 0) → Self → Type 0 };

    ghost read: { ResolveCtx → Self → ResolvedPat };

    /// The pattern, with the names of its top pattern that were used before.
    fn lower_node<I: StoreSink, S: PatParts<I>>(
        &self,
        parts: &S,
        state: &mut BodyBuilder<I>,
        bindings: &mut Bindings,
    ) -> Result<PatId, StoreError>
        requires part { can (S.can_pat parts.now) self.now }
        requires names { HasNames state.old.stored bindings.old }
        ensures { LowersPat (read (S.rctx parts.now) self.now) bindings.old state.old result bindings.new state.new };

    /// The same as an element of a tuple or a call, none where it is two dots, be it through calls.
    fn lower_element<I: StoreSink, S: PatParts<I>>(
        &self,
        parts: &S,
        state: &mut BodyBuilder<I>,
        bindings: &mut Bindings,
    ) -> Result<Option<PatId>, StoreError>
        requires part { can (S.can_pat parts.now) self.now }
        requires names { HasNames state.old.stored bindings.old }
        ensures { LowersElement (read (S.rctx parts.now) self.now) bindings.old state.old result bindings.new state.new };
}

impl PatNode for ast::Pat {
    ghost can = { λ pattern p. pattern p };

    ghost read = { resolved_pat };

    fn lower_node<I: StoreSink, S: PatParts<I>>(
        &self,
        parts: &S,
        state: &mut BodyBuilder<I>,
        bindings: &mut Bindings,
    ) -> Result<PatId, StoreError> {
        parts.lower_pat(state, bindings, self)
    }

    fn lower_element<I: StoreSink, S: PatParts<I>>(
        &self,
        parts: &S,
        state: &mut BodyBuilder<I>,
        bindings: &mut Bindings,
    ) -> Result<Option<PatId>, StoreError> {
        parts.lower_element(state, bindings, self)
    }
}

/// A pattern that is there or isn't.
pub trait PatPart {
    ghost can: { (AstPat → Type 0) → Self → Type 0 };

    ghost read: { ResolveCtx → Self → OptionPat };

    /// The pattern, missing where it is absent.
    fn lower<I: StoreSink, S: PatParts<I>>(
        &self,
        parts: &S,
        state: &mut BodyBuilder<I>,
        bindings: &mut Bindings,
    ) -> Result<PatId, StoreError>
        requires part { can (S.can_pat parts.now) self.now }
        requires names { HasNames state.old.stored bindings.old }
        ensures { LowersPatOpt (read (S.rctx parts.now) self.now) bindings.old state.old result bindings.new state.new };

    /// The pattern, or none where it is absent.
    fn lower_if_present<I: StoreSink, S: PatParts<I>>(
        &self,
        parts: &S,
        state: &mut BodyBuilder<I>,
        bindings: &mut Bindings,
    ) -> Result<Option<PatId>, StoreError>
        requires part { can (S.can_pat parts.now) self.now }
        requires names { HasNames state.old.stored bindings.old }
        ensures { LowersPatIfPresent (read (S.rctx parts.now) self.now) bindings.old state.old result bindings.new state.new };
}

impl PatPart for Option<Boxed<ast::Pat>> {
    ghost can = { λ pattern. IfPresent pattern };

    ghost read = { pat_part };

    fn lower<I: StoreSink, S: PatParts<I>>(
        &self,
        parts: &S,
        state: &mut BodyBuilder<I>,
        bindings: &mut Bindings,
    ) -> Result<PatId, StoreError> {
        match self {
            None => state.missing_pat(),
            Some(part) => parts.lower_pat(state, bindings, part.get()),
        }
    }

    fn lower_if_present<I: StoreSink, S: PatParts<I>>(
        &self,
        parts: &S,
        state: &mut BodyBuilder<I>,
        bindings: &mut Bindings,
    ) -> Result<Option<PatId>, StoreError> {
        match self {
            None => Ok(None),
            Some(part) => Ok(Some(parts.lower_pat(state, bindings, part.get())?)),
        }
    }
}

/// Patterns, one after another.
pub trait PatsPart {
    ghost can: { (AstPat → Type 0) → Self → Type 0 };

    ghost read: { ResolveCtx → Self → Pats };
    /// The same as the parts of a tuple or a call.
    ghost read_elements: { ResolveCtx → Self → Pats };

    /// The patterns.
    fn lower_each<I: StoreSink, S: PatParts<I>>(
        &self,
        parts: &S,
        state: &mut BodyBuilder<I>,
        bindings: &mut Bindings,
    ) -> Result<Seq<PatId>, StoreError>
        requires parts { can (S.can_pat parts.now) self.now }
        requires names { HasNames state.old.stored bindings.old }
        ensures { LowersPats (read (S.rctx parts.now) self.now) bindings.old state.old result bindings.new state.new };

    /// The patterns without two dots, and how many stand in front of the first of these.
    fn elements<I: StoreSink, S: PatParts<I>>(
        &self,
        parts: &S,
        state: &mut BodyBuilder<I>,
        bindings: &mut Bindings,
    ) -> Result<(Seq<PatId>, Option<usize>), StoreError>
        requires parts { can (S.can_pat parts.now) self.now }
        requires names { HasNames state.old.stored bindings.old }
        ensures { LowersElements (read_elements (S.rctx parts.now) self.now) bindings.old state.old result bindings.new state.new };
}

impl PatsPart for Seq<ast::Pat> {
    ghost can = { λ pattern. Each pattern };

    ghost read = { pats_part };

    ghost read_elements = { elements_part };

    fn lower_each<I: StoreSink, S: PatParts<I>>(
        &self,
        parts: &S,
        state: &mut BodyBuilder<I>,
        bindings: &mut Bindings,
    ) -> Result<Seq<PatId>, StoreError> {
        let mut done = Seq::new(parts.alloc());
        let mut left = self.as_slice();
        while let [one, rest @ ..] = left {
            let id = parts.lower_pat(state, bindings, one)?;
            push_pat(&mut done, id)?;
            left = rest;
        }
        Ok(done)
    }

    fn elements<I: StoreSink, S: PatParts<I>>(
        &self,
        parts: &S,
        state: &mut BodyBuilder<I>,
        bindings: &mut Bindings,
    ) -> Result<(Seq<PatId>, Option<usize>), StoreError> {
        let mut done = (Seq::new(parts.alloc()), None);
        let mut left = self.as_slice();
        while let [one, rest @ ..] = left {
            done = element(parts, state, bindings, done, one)?;
            left = rest;
        }
        Ok(done)
    }
}

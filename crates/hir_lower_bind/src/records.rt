//! Records.

ghost use Rattle.std.specs.Prelude.{[], Some};
ghost use Rattle.hir_syntax.specs.declared.pats.Pat.{Pat as AstPat};
ghost use Rattle.hir_syntax.specs.declared.pats.RecordPatField.{out-RecordPatField};
ghost use Rattle.hir_store.specs.Range.{HasPat, HasPath};
ghost use Rattle.hir_env.specs.ResolvedTree as tree;
ghost use Rattle.hir_env.specs.ResolvedTree.{PatFields};
ghost use Rattle.hir_env.specs.ResolveCtx.{ResolveCtx};
ghost use Rattle.hir_env.specs.Whole.{resolved_pat_field, pat_field_level, pat_fields_part};
ghost use Rattle.hir_lower_builder.specs.Lower.{lower_pat, lower_pat_fields};
ghost use Rattle.hir_lower_builder.specs.Lowering.{Lowers};
ghost use Rattle.hir_lower_builder.specs.Nests.{IfPresent, KidsPatFields};
ghost use Rattle.hir_lower_builder.specs.Pats as spec;
ghost use Rattle.hir_lower_pat.specs.Bindings.{HasNames, LowersNamed};
ghost use Rattle.hir_lower_pat.specs.Methods.{HasPatField, LowersPat, LowersPatField, LowersPatFields, field_name};

use crate::part::PatNode;
use hir_base::node::{AstPtr, InFile};
use hir_lower_builder::builder::BodyBuilder;
use hir_lower_builder::parts::site;
use hir_lower_builder::store_sink::StoreSink;
use hir_lower_pat::bindings::Bindings;
use hir_lower_pat::parts::{Here, PatParts};
use hir_lower_pat::paths::PathPart;
use hir_store::diagnostics::ExpressionStoreDiagnostics;
use hir_store::error::StoreError;
use hir_store::hir::{Pat, RecordFieldPat};
use hir_store::ids::PatId;
use hir_store::lists::push_pat_field;
use hir_store::name::Name;
use hir_store::path::Path;
use hir_syntax::{Seq, ast};

/// A field with a name, whose part leads to it. One without is no part of the record.
fn named_part<I: StoreSink>(
    state: &mut BodyBuilder<I>,
    at: InFile<AstPtr>,
    name: &Option<ast::Name>,
    pat: PatId,
) -> Result<Option<RecordFieldPat>, StoreError>
    requires { HasPat state.old.stored pat }
    ensures { Lowers HasPatField (spec.named_part at (field_name name.now) pat) state.old result state.new }
{
    match name {
        None => Ok(None),
        Some(name) => {
            state.point_pat_field(pat, at)?;
            let name = Name::Text(name.t.clone()?);
            Ok(Some(RecordFieldPat { name, pat }))
        }
    }
}

/// A field with its part.
#[tactic(auto, unfolding(hir_lower_builder::specs::Pats::pat_field_form))]
fn present_field<I: StoreSink, S: PatParts<I>, N: PatNode>(
    parts: &S,
    state: &mut BodyBuilder<I>,
    bindings: &mut Bindings,
    at: InFile<AstPtr>,
    name: &Option<ast::Name>,
    part: &N,
) -> Result<Option<RecordFieldPat>, StoreError>
    requires part { N.can (S.can_pat parts.now) part.now }
    requires names { HasNames state.old.stored bindings.old }
    ensures { let read = N.read (S.rctx parts.now) part.now in
        LowersNamed HasPatField (spec.pat_field_form at (field_name name.now) (lower_pat read))
        bindings.old state.old result bindings.new state.new }
{
    let pat = part.lower_node(parts, state, bindings)?;
    named_part(state, at, name, pat)
}

/// The field, none where a condition disables it, or it has no part or no name.
#[inline(never)]
fn field_form<I: StoreSink, S: PatParts<I>>(
    parts: &S,
    state: &mut BodyBuilder<I>,
    bindings: &mut Bindings,
    node: &ast::RecordPatField,
) -> Result<Option<RecordFieldPat>, StoreError>
    requires part { IfPresent (S.can_pat parts.now) (out-RecordPatField node.now).pat }
    requires names { HasNames state.old.stored bindings.old }
    ensures { LowersPatField (pat_field_level (S.rctx parts.now) node.now) bindings.old state.old result bindings.new state.new }
{
    let at = parts.pointer(node.id, node.range);
    match parts.cfg(site(at)) {
        Err(cfg) => {
            state.report(ExpressionStoreDiagnostics::InactiveCode { node: at, cfg })?;
            Ok(None)
        }
        Ok(()) => match &node.pat {
            None => Ok(None),
            Some(part) => present_field(parts, state, bindings, at, &node.name, part.get()),
        },
    }
}

fn field<I: StoreSink, S: PatParts<I>>(
    parts: &S,
    state: &mut BodyBuilder<I>,
    bindings: &mut Bindings,
    node: &ast::RecordPatField,
) -> Result<Option<RecordFieldPat>, StoreError>
    requires part { IfPresent (S.can_pat parts.now) (out-RecordPatField node.now).pat }
    requires names { HasNames state.old.stored bindings.old }
    ensures { LowersPatField (resolved_pat_field (S.rctx parts.now) node.now) bindings.old state.old result bindings.new state.new }
{
    field_form(parts, state, bindings, node)
}

/// The fields of a record. A form that hands them on has them as a type parameter.
pub trait PatFieldsPart {
    ghost can: { (AstPat → Type 0) → Self → Type 0 };

    ghost read: { ResolveCtx → Self → PatFields };

    /// The fields that no condition disables and that have a name and a part.
    fn lower_fields<I: StoreSink, S: PatParts<I>>(
        &self,
        parts: &S,
        state: &mut BodyBuilder<I>,
        bindings: &mut Bindings,
    ) -> Result<Seq<RecordFieldPat>, StoreError>
        requires parts { can (S.can_pat parts.now) self.now }
        requires names { HasNames state.old.stored bindings.old }
        ensures { LowersPatFields (read (S.rctx parts.now) self.now) bindings.old state.old result bindings.new state.new };
}

impl PatFieldsPart for Seq<ast::RecordPatField> {
    ghost can = { λ pattern. KidsPatFields pattern };

    ghost read = { pat_fields_part };

    fn lower_fields<I: StoreSink, S: PatParts<I>>(
        &self,
        parts: &S,
        state: &mut BodyBuilder<I>,
        bindings: &mut Bindings,
    ) -> Result<Seq<RecordFieldPat>, StoreError> {
        let mut done = Seq::new(parts.alloc());
        let mut left = self.as_slice();
        while let [one, rest @ ..] = left {
            if let Some(field) = field(parts, state, bindings, one)? {
                push_pat_field(&mut done, field)?;
            }
            left = rest;
        }
        Ok(done)
    }
}

/// A record of this path.
fn record_of<I: StoreSink, S: PatParts<I>, L: PatFieldsPart>(
    parts: &S,
    state: &mut BodyBuilder<I>,
    bindings: &mut Bindings,
    at: InFile<AstPtr>,
    path: Path,
    written: &L,
    ellipsis: bool,
) -> Result<PatId, StoreError>
    requires path { HasPath state.old.stored path }
    requires parts { L.can (S.can_pat parts.now) written.now }
    requires names { HasNames state.old.stored bindings.old }
    ensures { let read = lower_pat_fields [] (L.read (S.rctx parts.now) written.now) in
        LowersNamed HasPat (spec.record_pat_of at ellipsis read (Some path)) bindings.old state.old result bindings.new state.new }
{
    let args = written.lower_fields(parts, state, bindings)?;
    let pat = Pat::Record {
        path,
        args,
        ellipsis,
    };
    state.alloc_pat(pat, Some(at))
}

/// Where the path is absent or refused the record is missing, and nothing else of it is read.
#[tactic(auto, unfolding(hir_lower_builder::specs::Pats::record_pat_form))]
#[inline(never)]
pub(crate) fn record_form<I: StoreSink, S: PatParts<I>, W: PathPart, L: PatFieldsPart>(
    parts: &S,
    state: &mut BodyBuilder<I>,
    bindings: &mut Bindings,
    at: InFile<AstPtr>,
    path: &W,
    written: &L,
    rest: bool,
) -> Result<PatId, StoreError>
    requires path { W.can (S.can_path parts.now) path.now }
    requires parts { L.can (S.can_pat parts.now) written.now }
    requires names { HasNames state.old.stored bindings.old }
    ensures { let here = S.rctx parts.now in
        LowersPat (tree.record_pat at (W.read here path.now) (L.read here written.now) rest)
        bindings.old state.old result bindings.new state.new }
{
    match parts.path(state, path)? {
        None => state.missing_pat(),
        Some(path) => record_of(parts, state, bindings, at, path, written, rest),
    }
}

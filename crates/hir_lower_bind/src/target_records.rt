//! Records that are assigned to.

ghost use Rattle.std.specs.Prelude.{◌≡◌, Bool, Option, Some, []};
ghost use Rattle.hir_syntax.specs.declared.ast.Expr.{Expr as AstExpr};
ghost use Rattle.hir_syntax.specs.declared.ast.RecordExprField.{out-RecordExprField};
ghost use Rattle.hir_syntax.specs.declared.ast.RecordExprFieldList.{out-RecordExprFieldList};
ghost use Rattle.hir_store.specs.Pointers.{Pointer};
ghost use Rattle.hir_store.specs.Range.{HasNone, HasPat, HasPatFields, HasPath};
ghost use Rattle.hir_env.specs.ResolvedTree as tree;
ghost use Rattle.hir_env.specs.ResolvedTree.{TargetFields};
ghost use Rattle.hir_env.specs.ResolveCtx.{ResolveCtx};
ghost use Rattle.hir_env.specs.Targets as of;
ghost use Rattle.hir_env.specs.Answering.{field_of};
ghost use Rattle.hir_env.specs.Whole.{resolved_expr, resolved_field, expr_part, field_level, fields_part, path_part, record_part};
ghost use Rattle.hir_env.specs.Whole.{spread_part};
ghost use Rattle.hir_lower_builder.specs.Lowering.{Lowers};
ghost use Rattle.hir_lower_builder.specs.Lower as spec;
ghost use Rattle.hir_lower_builder.specs.Methods.{LowersTarget};
ghost use Rattle.hir_lower_builder.specs.Nests.{IfPresent};
ghost use Rattle.hir_lower_builder.specs.Pats as forms;
ghost use Rattle.hir_lower_builder.specs.Targets as steps;
ghost use Rattle.hir_lower_pat.specs.Assignees.{Assignees, HasAssignee, KidsOfFields, found_at, target_assignee};
ghost use Rattle.hir_lower_pat.specs.Methods.{HasPatField, field_name};

use hir_base::node::{AstPtr, InFile};
use hir_lower_builder::builder::BodyBuilder;
use hir_lower_builder::parts::site;
use hir_lower_builder::store_sink::StoreSink;
use hir_lower_pat::assignees::{
    Assignee, TargetNode, alloc_target, missing_target, pointer_of, target,
};
use hir_lower_pat::parts::{HerePaths, TargetParts};
use hir_lower_pat::paths::PathPart;
use hir_store::diagnostics::ExpressionStoreDiagnostics;
use hir_store::error::StoreError;
use hir_store::hir::{Pat, RecordFieldPat};
use hir_store::ids::PatId;
use hir_store::lists::push_pat_field;
use hir_store::name::Name;
use hir_store::path::Path;
use hir_syntax::{Boxed, Seq, ast};

/// The part of a field, which leads to the field where that has a name.
fn named_part<I: StoreSink>(
    state: &mut BodyBuilder<I>,
    at: InFile<AstPtr>,
    name: &Option<ast::Name>,
    pat: PatId,
) -> Result<Option<RecordFieldPat>, StoreError>
    requires { HasPat state.old.stored pat }
    ensures { Lowers HasPatField (forms.named_part at (field_name name.now) pat) state.old result state.new }
{
    match name {
        None => Ok(None),
        Some(name) => {
            state.point_pat_field(pat, at)?;
            let name = Name::Text(name.t.clone()?);
            Ok(Some(RecordFieldPat { name, pat }))
        }
    }
}

/// A field with an expression. Without a name it is no part of the record.
#[tactic(auto, unfolding(hir_lower_builder::specs::Targets::target_field_form))]
fn present_field<I: StoreSink, T: TargetParts<I>, N: TargetNode>(
    parts: &T,
    state: &mut BodyBuilder<I>,
    at: InFile<AstPtr>,
    name: &Option<ast::Name>,
    expr: &N,
) -> Result<Option<RecordFieldPat>, StoreError>
    requires { N.can (T.can_target parts.now) expr.now }
    ensures { let rctx = T.rctx parts.now in
        let part = of.target_of (found_at rctx) (tree.some_expr (N.read rctx expr.now)) in
        Lowers HasPatField (spec.lower_target_field (tree.target_field at (field_name name.now) part)) state.old result state.new }
{
    let pat = target(parts, state, expr)?;
    named_part(state, at, name, pat)
}

/// Without an expression nothing comes of it.
fn kept_field<I: StoreSink, T: TargetParts<I>>(
    parts: &T,
    state: &mut BodyBuilder<I>,
    at: InFile<AstPtr>,
    name: &Option<ast::Name>,
    expr: &Option<Boxed<ast::Expr>>,
) -> Result<Option<RecordFieldPat>, StoreError>
    requires { IfPresent (T.can_target parts.now) expr.now }
    ensures { let rctx = T.rctx parts.now in
        let field = of.target_field_of (found_at rctx) (field_of at name.now (expr_part rctx expr.now)) in
        Lowers HasPatField (spec.lower_target_field field) state.old result state.new }
{
    match expr {
        None => Ok(None),
        Some(expr) => present_field(parts, state, at, name, expr.get()),
    }
}

/// The field, none where a condition disables it.
#[inline(never)]
fn field_form<I: StoreSink, T: TargetParts<I>>(
    parts: &T,
    state: &mut BodyBuilder<I>,
    node: &ast::RecordExprField,
) -> Result<Option<RecordFieldPat>, StoreError>
    requires { IfPresent (T.can_target parts.now) (out-RecordExprField node.now).expr }
    ensures { let rctx = T.rctx parts.now in
        let field = of.target_field_of (found_at rctx) (field_level rctx node.now) in
        Lowers HasPatField (spec.lower_target_field field) state.old result state.new }
{
    let at = parts.pointer(node.id, node.range);
    match parts.cfg(site(at)) {
        Err(cfg) => {
            state.report(ExpressionStoreDiagnostics::InactiveCode { node: at, cfg })?;
            Ok(None)
        }
        Ok(()) => kept_field(parts, state, at, &node.name, &node.expr),
    }
}

fn field<I: StoreSink, T: TargetParts<I>>(
    parts: &T,
    state: &mut BodyBuilder<I>,
    node: &ast::RecordExprField,
) -> Result<Option<RecordFieldPat>, StoreError>
    requires { IfPresent (T.can_target parts.now) (out-RecordExprField node.now).expr }
    ensures { let rctx = T.rctx parts.now in
        let field = of.target_field_of (found_at rctx) (resolved_field rctx node.now) in
        Lowers HasPatField (spec.lower_target_field field) state.old result state.new }
{
    field_form(parts, state, node)
}

/// The fields that no condition disables and that have a name and an expression.
fn fields<I: StoreSink, T: TargetParts<I>>(
    parts: &T,
    state: &mut BodyBuilder<I>,
    mut left: &[ast::RecordExprField],
) -> Result<Seq<RecordFieldPat>, StoreError>
    requires { KidsOfFields (T.can_target parts.now) left.now }
    ensures { let rctx = T.rctx parts.now in
        let fields = of.target_fields (found_at rctx) (fields_part rctx left.entry.now) in
        Lowers HasPatFields (spec.lower_target_fields [] fields) state.old result state.new }
{
    let mut done = Seq::new(parts.alloc());
    while let [one, rest @ ..] = left {
        if let Some(field) = field(parts, state, one)? {
            push_pat_field(&mut done, field)?;
        }
        left = rest;
    }
    Ok(done)
}

/// An expression behind the two dots of a record is a fault.
fn report_spread<I: StoreSink, H: HerePaths<I>>(
    parts: &H,
    state: &mut BodyBuilder<I>,
    spread: &Option<Boxed<ast::Expr>>,
    dots: bool,
) -> Result<(), StoreError>
    ensures { let read = spread_part (H.rctx parts.now) spread.now dots in
        Lowers HasNone (steps.report_spread (of.spread_pointer read)) state.old result state.new }
{
    match spread {
        None => Ok(()),
        Some(spread) => {
            let node = pointer_of(parts, spread.get());
            state.report(ExpressionStoreDiagnostics::FruInDestructuringAssignment { node })
        }
    }
}

/// The contents of a record that is assigned to. A form that hands them on has them as a type parameter.
pub trait TargetRecord {
    ghost can: { (AstExpr → Type 0) → Self → Type 0 };

    ghost fields: { ResolveCtx → Self → TargetFields };

    ghost spread: { ResolveCtx → Self → Option Pointer };

    ghost has_dots: { Self → Bool };

    /// A record of this path. The fault of a spread comes before those of the fields.
    fn record<I: StoreSink, T: TargetParts<I>>(
        &self,
        parts: &T,
        state: &mut BodyBuilder<I>,
        at: InFile<AstPtr>,
        call: Option<InFile<AstPtr>>,
        path: Path,
    ) -> Result<PatId, StoreError>
        requires path { HasPath state.old.stored path }
        requires list { can (T.can_target parts.now) self.now }
        ensures { let rctx = T.rctx parts.now in
            let read = spec.lower_target_fields [] (fields rctx self.now) in
            Lowers HasPat (steps.record_target_of (of.origin call at) (has_dots self.now) (spread rctx self.now) read (Some path))
            state.old result state.new };
}

impl TargetRecord for ast::RecordExprFieldList {
    ghost can = { λ target l. KidsOfFields target (out-RecordExprFieldList l).fields };

    ghost fields = { λ at l. of.target_fields (found_at at) (fields_part at (out-RecordExprFieldList l).fields) };

    ghost spread = { λ at l. let level = out-RecordExprFieldList l in of.spread_pointer (spread_part at level.spread level.dotdot) };

    ghost has_dots = { λ l. (out-RecordExprFieldList l).dotdot };

    fn record<I: StoreSink, T: TargetParts<I>>(
        &self,
        parts: &T,
        state: &mut BodyBuilder<I>,
        at: InFile<AstPtr>,
        call: Option<InFile<AstPtr>>,
        path: Path,
    ) -> Result<PatId, StoreError> {
        report_spread(parts, state, &self.spread, self.dotdot)?;
        let args = fields(parts, state, self.fields.as_slice())?;
        let pat = Pat::Record {
            path,
            args,
            ellipsis: self.dotdot,
        };
        alloc_target(state, at, call, pat)
    }
}

/// Where the path is absent or refused the record is missing, and nothing else of it is read.
#[tactic(auto, unfolding(hir_lower_builder::specs::Targets::record_target_form))]
#[inline(never)]
fn record_form<I: StoreSink, T: TargetParts<I>, W: PathPart, L: TargetRecord>(
    parts: &T,
    state: &mut BodyBuilder<I>,
    at: InFile<AstPtr>,
    call: Option<InFile<AstPtr>>,
    path: &W,
    list: &L,
) -> Result<PatId, StoreError>
    requires path { W.can (T.can_path parts.now) path.now }
    requires list { L.can (T.can_target parts.now) list.now }
    ensures { let rctx = T.rctx parts.now in
        let fields = L.fields rctx list.now in
        let read = tree.record_target (of.origin call at) (W.read rctx path.now) fields (L.has_dots list.now) (L.spread rctx list.now) in
        LowersTarget read state.old result state.new }
{
    match parts.path(state, path)? {
        None => missing_target(state, call),
        Some(path) => list.record(parts, state, at, call, path),
    }
}

/// A record with a list of fields.
fn listed_assignee<I: StoreSink, T: TargetParts<I>, W: PathPart, L: TargetRecord>(
    parts: &T,
    state: &mut BodyBuilder<I>,
    at: InFile<AstPtr>,
    call: Option<InFile<AstPtr>>,
    path: &W,
    list: &L,
) -> Result<Assignee, StoreError>
    requires path { W.can (T.can_path parts.now) path.now }
    requires list { L.can (T.can_target parts.now) list.now }
    ensures { let rctx = T.rctx parts.now in
        let fields = L.fields rctx list.now in
        let read = tree.record_target (of.origin call at) (W.read rctx path.now) fields (L.has_dots list.now) (L.spread rctx list.now) in
        Lowers HasAssignee (target_assignee read) state.old result state.new }
{
    Ok(Assignee::Pat(record_form(parts, state, at, call, path, list)?))
}

/// A record without a list of fields is a place.
pub(crate) fn record_assignee<I: StoreSink, T: TargetParts<I>>(
    parts: &T,
    state: &mut BodyBuilder<I>,
    at: InFile<AstPtr>,
    call: Option<InFile<AstPtr>>,
    node: &ast::Expr,
    path: &Option<Boxed<ast::Path>>,
    list: &Option<ast::RecordExprFieldList>,
) -> Result<Assignee, StoreError>
    requires path { IfPresent (T.can_path parts.now) path.now }
    requires list { IfPresent (λ l. KidsOfFields (T.can_target parts.now) (out-RecordExprFieldList l).fields) list.now }
    requires place { T.can_place parts.now node.now }
    requires is { let rctx = T.rctx parts.now in let read = record_part rctx list.now in
        resolved_expr rctx node.now ≡ tree.record_expr at (path_part rctx path.now) read.head read.fields read.spread }
    ensures { let rctx = T.rctx parts.now in Assignees rctx call (resolved_expr rctx node.now) state.old result state.new }
{
    match list {
        None => parts.place(state, node),
        Some(list) => listed_assignee(parts, state, at, call, path, list),
    }
}

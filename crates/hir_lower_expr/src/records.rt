//! Records.

ghost use Rattle.std.specs.Prelude.{[]};
ghost use Rattle.hir_syntax.specs.declared.ast.RecordExprField.{out-RecordExprField};
ghost use Rattle.hir_syntax.specs.declared.ast.RecordExprFieldList.{out-RecordExprFieldList};
ghost use Rattle.hir_store.specs.declared.name.Name.TheVariants as names;
ghost use Rattle.hir_store.specs.Range.{HasFields, HasSpread};
ghost use Rattle.hir_env.specs.ResolvedTree as tree;
ghost use Rattle.hir_env.specs.declared.ctx.LowerCtx.{LowerCtx as AtCtx};
ghost use Rattle.hir_env.specs.ResolveCtx.{ResolveCtx};
ghost use Rattle.hir_env.specs.Layers.{RecordReading};
ghost use Rattle.hir_env.specs.Whole.{resolved_field, resolved_record, field_level, fields_part, record_level};
ghost use Rattle.hir_env.specs.Whole.{record_part, spread_part};
ghost use Rattle.hir_lower_builder.specs.Lowering.{Lowers};
ghost use Rattle.hir_lower_builder.specs.Lower as spec;
ghost use Rattle.hir_lower_builder.specs.Methods.{HasField, HasRecord, LowersExpr, record_at};
ghost use Rattle.hir_lower_builder.specs.Nests.{Claims, IfPresent, KidsField, KidsFields, KidsRecord};

use crate::kept::push_kept_field;
use crate::part::{ExprPart, PathPart};
use hir_base::node::{AstPtr, InFile};
use hir_lower_builder::builder::BodyBuilder;
use hir_lower_builder::parts::{LowerAll, Lowerer, site};
use hir_lower_builder::store_sink::StoreSink;
use hir_store::diagnostics::ExpressionStoreDiagnostics;
use hir_store::error::StoreError;
use hir_store::hir::{Expr, RecordLitField, RecordSpread};
use hir_store::ids::ExprId;
use hir_store::name::Name;
use hir_syntax::{Boxed, Seq, ast};

/// A field with a name, whose value leads to it.
#[tactic(auto, unfolding(hir_lower_builder::specs::Forms::field_form))]
fn named_field<I: StoreSink, P: LowerAll<I>, E: ExprPart>(
    lowerer: &Lowerer<P>,
    state: &mut BodyBuilder<I>,
    at: InFile<AstPtr>,
    name: &ast::Name,
    value: &E,
) -> Result<Option<RecordLitField>, StoreError>
    requires { E.can (P.can lowerer.now.parts) value.now }
    ensures { let read = tree.named_field at (names.Text name.now.t) (E.read (P.rctx lowerer.now.parts) value.now) in
        Lowers HasField (spec.lower_field read) state.old result state.new }
{
    let expr = value.lower(lowerer, state)?;
    state.point_field(expr, at)?;
    let name = Name::Text(name.t.clone()?);
    Ok(Some(RecordLitField { name, expr }))
}

/// The field, none where a condition disables it or it has no name.
#[inline(never)]
fn field_form<I: StoreSink, P: LowerAll<I>>(
    lowerer: &Lowerer<P>,
    state: &mut BodyBuilder<I>,
    node: &ast::RecordExprField,
) -> Result<Option<RecordLitField>, StoreError>
    requires { KidsField (P.can lowerer.now.parts) (P.rctx lowerer.now.parts).place (out-RecordExprField node.now) }
    ensures { Lowers HasField (spec.lower_field (field_level (P.rctx lowerer.now.parts) node.now)) state.old result state.new }
{
    let at = lowerer.pointer(node.id, node.range);
    match lowerer.parts.cfg(site(at)) {
        Err(cfg) => {
            state.report(ExpressionStoreDiagnostics::InactiveCode { node: at, cfg })?;
            Ok(None)
        }
        Ok(()) => match &node.name {
            None => Ok(None),
            Some(name) => named_field(lowerer, state, at, name, &node.expr),
        },
    }
}

fn field<I: StoreSink, P: LowerAll<I>>(
    lowerer: &Lowerer<P>,
    state: &mut BodyBuilder<I>,
    node: &ast::RecordExprField,
) -> Result<Option<RecordLitField>, StoreError>
    requires { KidsField (P.can lowerer.now.parts) (P.rctx lowerer.now.parts).place (out-RecordExprField node.now) }
    ensures { Lowers HasField (spec.lower_field (resolved_field (P.rctx lowerer.now.parts) node.now)) state.old result state.new }
{
    field_form(lowerer, state, node)
}

fn fields<I: StoreSink, P: LowerAll<I>>(
    lowerer: &Lowerer<P>,
    state: &mut BodyBuilder<I>,
    mut left: &[ast::RecordExprField],
) -> Result<Seq<RecordLitField>, StoreError>
    requires { KidsFields (P.can lowerer.now.parts) (P.rctx lowerer.now.parts).place left.now }
    ensures { Lowers HasFields (spec.lower_fields [] (fields_part (P.rctx lowerer.now.parts) left.entry.now)) state.old result state.new }
{
    let mut done = Seq::new(lowerer.alloc);
    while let [one, rest @ ..] = left {
        let field = field(lowerer, state, one)?;
        push_kept_field(&mut done, field)?;
        left = rest;
    }
    Ok(done)
}

/// What the other fields come from.
fn spread<I: StoreSink, P: LowerAll<I>>(
    lowerer: &Lowerer<P>,
    state: &mut BodyBuilder<I>,
    part: &Option<Boxed<ast::Expr>>,
    dots: bool,
) -> Result<RecordSpread, StoreError>
    requires { IfPresent (P.can lowerer.now.parts).expr part.now }
    ensures { Lowers HasSpread (spec.lower_spread (spread_part (P.rctx lowerer.now.parts) part.now dots)) state.old result state.new }
{
    match part {
        Some(part) => Ok(RecordSpread::Expr(lowerer.collect_expr(state, part.get())?)),
        None => {
            if dots {
                Ok(RecordSpread::FieldDefaults)
            } else {
                Ok(RecordSpread::None)
            }
        }
    }
}

#[tactic(auto, unfolding(hir_lower_builder::specs::Forms::record_contents))]
fn record_level_contents<I: StoreSink, P: LowerAll<I>>(
    lowerer: &Lowerer<P>,
    state: &mut BodyBuilder<I>,
    node: &ast::RecordExprFieldList,
) -> Result<(Seq<RecordLitField>, RecordSpread), StoreError>
    requires { KidsRecord (P.can lowerer.now.parts) (P.rctx lowerer.now.parts).place (out-RecordExprFieldList node.now) }
    ensures { Lowers HasRecord (record_at (record_level (P.rctx lowerer.now.parts) node.now)) state.old result state.new }
{
    let fields = fields(lowerer, state, node.fields.as_slice())?;
    let spread = spread(lowerer, state, &node.spread, node.dotdot)?;
    Ok((fields, spread))
}

fn listed<I: StoreSink, P: LowerAll<I>>(
    lowerer: &Lowerer<P>,
    state: &mut BodyBuilder<I>,
    node: &ast::RecordExprFieldList,
) -> Result<(Seq<RecordLitField>, RecordSpread), StoreError>
    requires { KidsRecord (P.can lowerer.now.parts) (P.rctx lowerer.now.parts).place (out-RecordExprFieldList node.now) }
    ensures { Lowers HasRecord (record_at (resolved_record (P.rctx lowerer.now.parts) node.now)) state.old result state.new }
{
    record_level_contents(lowerer, state, node)
}

/// The fields of a record and what the others come from, nothing where no list is written.
pub trait RecordPart {
    ghost can: { Claims → AtCtx → Self → Type 0 };

    ghost read: { ResolveCtx → Self → RecordReading };

    fn lower<I: StoreSink, P: LowerAll<I>>(
        &self,
        lowerer: &Lowerer<P>,
        state: &mut BodyBuilder<I>,
    ) -> Result<(Seq<RecordLitField>, RecordSpread), StoreError>
        requires { can (P.can lowerer.now.parts) (P.rctx lowerer.now.parts).place self.now }
        ensures { Lowers HasRecord (record_at (read (P.rctx lowerer.now.parts) self.now)) state.old result state.new };
}

impl RecordPart for Option<ast::RecordExprFieldList> {
    ghost can = { λ claims place. IfPresent (λ r. KidsRecord claims place (out-RecordExprFieldList r)) };

    ghost read = { record_part };

    #[tactic(auto, unfolding(hir_lower_builder::specs::Forms::record_contents))]
    fn lower<I: StoreSink, P: LowerAll<I>>(
        &self,
        lowerer: &Lowerer<P>,
        state: &mut BodyBuilder<I>,
    ) -> Result<(Seq<RecordLitField>, RecordSpread), StoreError> {
        match self {
            None => Ok((Seq::new(lowerer.alloc), RecordSpread::None)),
            Some(list) => listed(lowerer, state, list),
        }
    }
}

/// Where the path is absent or refused the record is missing, and nothing else of it is read.
#[tactic(auto, unfolding(hir_lower_builder::specs::Forms::record_form))]
#[inline(never)]
pub fn record_form<I: StoreSink, P: LowerAll<I>, W: PathPart, R: RecordPart>(
    lowerer: &Lowerer<P>,
    state: &mut BodyBuilder<I>,
    at: InFile<AstPtr>,
    path: &W,
    list: &R,
) -> Result<ExprId, StoreError>
    requires path { W.can (P.can lowerer.now.parts) (P.rctx lowerer.now.parts).place path.now }
    requires list { R.can (P.can lowerer.now.parts) (P.rctx lowerer.now.parts).place list.now }
    ensures { let rctx = P.rctx lowerer.now.parts in let read = R.read rctx list.now in
        LowersExpr (tree.record_expr at (W.read rctx path.now) read.head read.fields read.spread) state.old result state.new }
{
    let Some(path) = path.lower(lowerer, state)? else {
        return state.missing_expr();
    };
    let (fields, spread) = list.lower(lowerer, state)?;
    let expr = Expr::RecordLit {
        path,
        fields,
        spread,
    };
    state.alloc_expr(expr, Some(at))
}

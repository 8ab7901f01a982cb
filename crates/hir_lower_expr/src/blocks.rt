//! Blocks and statements.

ghost use Rattle.std.specs.Prelude.{◌≡◌, ◌-◌, false, length, slice_get, true};
ghost use Rattle.hir_syntax.specs.declared.ast.BlockExpr.{out-BlockExpr};
ghost use Rattle.hir_store.specs.Range.{HasExpr, HasLabelOption};
ghost use Rattle.hir_env.specs.Whole.{resolved_block, label_part};
ghost use Rattle.hir_lower_builder.specs.Forms as form;
ghost use Rattle.hir_lower_builder.specs.Lowering.{Lowers};
ghost use Rattle.hir_lower_builder.specs.Lower as spec;
ghost use Rattle.hir_lower_builder.specs.Nests.{KidsBlock, KidsBody};
ghost use Rattle.hir_lower_builder.specs.Methods.{HasContents, HasRole, LowersExpr, block_steps_at, contents_at, own_steps_at};
ghost use Rattle.hir_lower_builder.specs.declared.parts.BlockRole.TheVariants as role;

use crate::consts::const_form;
use crate::coroutines::{coroutine_form, store_coroutine};
use crate::definitions::close_definitions;
use crate::runs::{Run, collect_run, collect_value_opt};
use crate::stored::store_block;
use crate::tries::try_form;
use crate::written::WrittenBlock;
use hir_base::node::{AstPtr, InFile};
use hir_lower_builder::builder::BodyBuilder;
use hir_lower_builder::parts::{BlockRole, LowerAll, Lowerer};
use hir_lower_builder::store_sink::StoreSink;
use hir_store::error::StoreError;
use hir_store::hir::{CoroutineKind, Statement};
use hir_store::ids::{BlockId, ExprId, LabelId, LangItemId};
use hir_syntax::{Seq, ast};
use std::alloc::Global;
use std::collections::BTreeMap;

/// The expression of a last statement that has no semicolon.
fn value_at_end(statements: &[Statement]) -> Option<ExprId>
    ensures { result ≡ spec.value_of (slice_get statements.now (length statements.now - 1)) }
{
    match statements.last() {
        Some(
            Statement::Expr {
                expr,
                has_semi: false,
            },
        ) => Some(*expr),
        _ => None,
    }
}

/// Where no tail is left, a last expression statement without a semicolon becomes it.
#[tactic(auto, using(hir_lower_builder::proofs::BlockLemmas::settled_none))]
#[inline(never)]
fn settle(statements: &mut Seq<Statement>, tail: Option<ExprId>) -> Option<ExprId>
    ensures { spec.settled statements.old tail ≡ (statements.new, result) }
{
    match tail {
        Some(id) => Some(id),
        None => match value_at_end(statements.as_slice()) {
            Some(id) => {
                let _ = statements.pop();
                Some(id)
            }
            None => None,
        },
    }
}

/// The statements, and then the tail, behind which the definitions among them are closed.
#[inline(always)]
pub(crate) fn flat_contents<I: StoreSink, P: LowerAll<I>>(
    lowerer: &Lowerer<P>,
    state: &mut BodyBuilder<I>,
    node: &ast::BlockExpr,
) -> Result<(Seq<Statement>, Option<ExprId>), StoreError>
    requires { KidsBlock (P.can lowerer.now.parts) (P.rctx lowerer.now.parts).place (out-BlockExpr node.now) }
    ensures { Lowers HasContents (contents_at (P.rctx lowerer.now.parts) node.now) state.old result state.new }
{
    let mut run = Run {
        done: Seq::new(lowerer.alloc),
        counts: BTreeMap::new(lowerer.alloc),
    };
    collect_run(lowerer, state, &mut run, node.stmts.as_slice())?;
    let tail = collect_value_opt(lowerer, state, &mut run, &node.tail)?;
    let Run { done, counts: _ } = run;
    close_definitions(state, done.as_slice());
    Ok((done, tail))
}

/// A block that is read here, as one that is unsafe or isn't, inside the label of this number.
#[tactic(auto, unfolding(hir_lower_builder::specs::Forms::block_form))]
#[inline(never)]
fn plain_node<I: StoreSink, P: LowerAll<I>, N: WrittenBlock>(
    lowerer: &Lowerer<P>,
    state: &mut BodyBuilder<I>,
    at: InFile<AstPtr>,
    is_unsafe: bool,
    label: Option<LabelId>,
    number: Option<BlockId>,
    node: &N,
) -> Result<ExprId, StoreError>
    requires parts { N.can_parts (P.can lowerer.now.parts) (P.rctx lowerer.now.parts).place node.now }
    requires label { HasLabelOption state.old.stored label }
    ensures { let rctx = P.rctx lowerer.now.parts in
        Lowers HasExpr (spec.as_role (role.Plain is_unsafe label) at number (N.stored rctx node.now)) state.old result state.new }
{
    state.enter_block(number)?;
    let (mut statements, tail) = node.contents(lowerer, state)?;
    let tail = settle(&mut statements, tail);
    store_block(state, Some(at), is_unsafe, label, number, statements, tail)
}

/// The block of a `try` that is read here. Its tail goes through the item before the block is stored.
#[tactic(auto, unfolding(hir_lower_builder::specs::Made::try_block_form))]
#[inline(never)]
fn try_node<I: StoreSink, P: LowerAll<I>, N: WrittenBlock>(
    lowerer: &Lowerer<P>,
    state: &mut BodyBuilder<I>,
    at: InFile<AstPtr>,
    item: Option<LangItemId>,
    typed: bool,
    number: Option<BlockId>,
    node: &N,
) -> Result<ExprId, StoreError>
    requires { N.can_parts (P.can lowerer.now.parts) (P.rctx lowerer.now.parts).place node.now }
    ensures { let rctx = P.rctx lowerer.now.parts in
        Lowers HasExpr (spec.as_role (role.Try item typed) at number (N.stored rctx node.now)) state.old result state.new }
{
    let label = state.open_try(at, typed)?;
    state.enter_block(number)?;
    let (mut statements, tail) = node.contents(lowerer, state)?;
    state.close();
    let tail = settle(&mut statements, tail);
    let tail = state.wrapped(lowerer.alloc, at, item, tail)?;
    store_block(
        state,
        Some(at),
        false,
        Some(label),
        number,
        statements,
        Some(tail),
    )
}

/// The block of these statements and this tail, which comes from no node, and the coroutine around it.
#[tactic(auto, unfolding(hir_lower_builder::specs::Forms::coroutine_around_form))]
#[inline(never)]
fn coroutine_around<I: StoreSink>(
    alloc: Global,
    state: &mut BodyBuilder<I>,
    at: InFile<AstPtr>,
    kind: CoroutineKind,
    moves: bool,
    number: Option<BlockId>,
    mut statements: Seq<Statement>,
    tail: Option<ExprId>,
) -> Result<ExprId, StoreError>
    requires { HasContents state.old.stored (statements, tail) }
    ensures { Lowers HasExpr (form.coroutine_around_form at kind moves number (statements, tail)) state.old result state.new }
{
    let tail = settle(&mut statements, tail);
    let body = store_block(state, None, false, None, number, statements, tail)?;
    store_coroutine(alloc, state, at, kind, moves, body)
}

/// The block of a coroutine that is read here, which comes from no node, and the coroutine around it.
#[tactic(auto, unfolding(hir_lower_builder::specs::Forms::coroutine_block_form))]
#[inline(never)]
fn coroutine_node<I: StoreSink, P: LowerAll<I>, N: WrittenBlock>(
    lowerer: &Lowerer<P>,
    state: &mut BodyBuilder<I>,
    at: InFile<AstPtr>,
    kind: CoroutineKind,
    moves: bool,
    number: Option<BlockId>,
    node: &N,
) -> Result<ExprId, StoreError>
    requires { N.can_parts (P.can lowerer.now.parts) (P.rctx lowerer.now.parts).place node.now }
    ensures { let rctx = P.rctx lowerer.now.parts in
        Lowers HasExpr (spec.as_role (role.Coroutine kind moves) at number (N.stored rctx node.now)) state.old result state.new }
{
    state.enter_block(number)?;
    let (statements, tail) = node.contents(lowerer, state)?;
    coroutine_around(
        lowerer.alloc,
        state,
        at,
        kind,
        moves,
        number,
        statements,
        tail,
    )
}

/// A block that is read here, of this role.
pub fn block_node<I: StoreSink, P: LowerAll<I>>(
    lowerer: &Lowerer<P>,
    state: &mut BodyBuilder<I>,
    role: BlockRole,
    number: Option<BlockId>,
    node: &ast::BlockExpr,
) -> Result<ExprId, StoreError>
    requires parts { KidsBlock (P.can lowerer.now.parts) (P.rctx lowerer.now.parts).place (out-BlockExpr node.now) }
    requires role { HasRole state.old.stored role }
    ensures { Lowers HasExpr (block_steps_at (P.rctx lowerer.now.parts) role number node.now) state.old result state.new }
{
    let at = lowerer.pointer(node.id, node.range);
    match role {
        BlockRole::Plain { is_unsafe, label } => {
            plain_node(lowerer, state, at, is_unsafe, label, number, node)
        }
        BlockRole::Try { item, typed } => try_node(lowerer, state, at, item, typed, number, node),
        BlockRole::Coroutine { kind, moves } => {
            coroutine_node(lowerer, state, at, kind, moves, number, node)
        }
    }
}

/// A block with a label, if it has one, and with no modifier.
#[tactic(auto, unfolding(hir_lower_builder::specs::Forms::labelled))]
fn labelled_block<I: StoreSink, P: LowerAll<I>, N: WrittenBlock>(
    lowerer: &Lowerer<P>,
    state: &mut BodyBuilder<I>,
    label: &Option<ast::Label>,
    node: &N,
) -> Result<ExprId, StoreError>
    requires { N.can (P.can lowerer.now.parts) (P.rctx lowerer.now.parts).place node.now }
    ensures { let block = N.read (P.rctx lowerer.now.parts) node.now in
        let label = label_part (P.rctx lowerer.now.parts) label.now in
        Lowers HasExpr (spec.labelled label (λ id. spec.lower_inside (role.Plain false id) block)) state.old result state.new }
{
    let is_unsafe = false;
    let Some(label) = label else {
        let label = None;
        let role = BlockRole::Plain { is_unsafe, label };
        return node.lower(lowerer, state, role);
    };
    let label = Some(lowerer.open_label(state, label)?);
    let role = BlockRole::Plain { is_unsafe, label };
    let id = node.lower(lowerer, state, role)?;
    state.close();
    Ok(id)
}

/// An unsafe block, of which no label counts.
fn unsafe_block<I: StoreSink, P: LowerAll<I>, N: WrittenBlock>(
    lowerer: &Lowerer<P>,
    state: &mut BodyBuilder<I>,
    node: &N,
) -> Result<ExprId, StoreError>
    requires { N.can (P.can lowerer.now.parts) (P.rctx lowerer.now.parts).place node.now }
    ensures { let block = N.read (P.rctx lowerer.now.parts) node.now in
        Lowers HasExpr (spec.lower_inside (role.Plain true None) block) state.old result state.new }
{
    let role = BlockRole::Plain {
        is_unsafe: true,
        label: None,
    };
    node.lower(lowerer, state, role)
}

/// A block with its modifier, beside which no label counts, or else with its label.
fn headed_block<I: StoreSink, P: LowerAll<I>>(
    lowerer: &Lowerer<P>,
    state: &mut BodyBuilder<I>,
    node: &ast::BlockExpr,
) -> Result<ExprId, StoreError>
    requires { KidsBody (P.can lowerer.now.parts) (P.rctx lowerer.now.parts).place node.now }
    ensures { let rctx = P.rctx lowerer.now.parts in
        Lowers HasExpr (own_steps_at rctx (out-BlockExpr node.now).mod_ node.now) state.old result state.new }
{
    match node.mod_ {
        None => labelled_block(lowerer, state, &node.label, node),
        Some(ast::BlockModifier::Unsafe) => unsafe_block(lowerer, state, node),
        Some(ast::BlockModifier::Try) => try_form(lowerer, state, &node.ty, node),
        Some(ast::BlockModifier::Const) => {
            let at = lowerer.pointer(node.id, node.range);
            const_form(lowerer, state, at, node)
        }
        Some(ast::BlockModifier::Async) => {
            coroutine_form(lowerer, state, CoroutineKind::Async, node.move_, node)
        }
        Some(ast::BlockModifier::Gen) => coroutine_form(
            lowerer,
            state,
            CoroutineKind::Gen,
            node.move_,
            node,
        ),
        Some(ast::BlockModifier::AsyncGen) => {
            coroutine_form(lowerer, state, CoroutineKind::AsyncGen, node.move_, node)
        }
    }
}

/// A block as an expression, where its own modifier and its own label count.
pub fn block_form<I: StoreSink, P: LowerAll<I>>(
    lowerer: &Lowerer<P>,
    state: &mut BodyBuilder<I>,
    node: &ast::BlockExpr,
) -> Result<ExprId, StoreError>
    requires { KidsBody (P.can lowerer.now.parts) (P.rctx lowerer.now.parts).place node.now }
    ensures { LowersExpr (resolved_block (P.rctx lowerer.now.parts) node.now) state.old result state.new }
{
    headed_block(lowerer, state, node)
}

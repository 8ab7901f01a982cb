//! Macro calls: what they come to.

ghost use Rattle.std.specs.Prelude.{◌≡◌};
ghost use Rattle.hir_store.specs.Range.{HasNone};
ghost use Rattle.hir_env.specs.Calls.{inside_file};
ghost use Rattle.hir_env.specs.Lent.{expanding_of};
ghost use Rattle.hir_lower_builder.specs.Calls.{entered_at, found_result, track, record_each, splice_entered, splice_step, emitted_step};
ghost use Rattle.hir_lower_builder.specs.Lowering.{Lowers};
ghost use Rattle.hir_lower_builder.specs.Methods.{HasRead};

use crate::builder::BodyBuilder;
use crate::parts::{LowerExprs, Lowerer, site};
use crate::store_sink::StoreSink;
use hir_base::node::{AstPtr, HirFileId, InFile, NodeId};
use hir_env::ctx::LowerCtx;
use hir_env::expand::{Expansion, FragmentKind};
use hir_store::diagnostics::ExpressionStoreDiagnostics;
use hir_store::error::StoreError;
use hir_syntax::ast::{Fragment, MacroCall};

/// What a call came to, once it was asked about.
#[derive(Clone, Copy)]
pub enum Entered<'a> {
    /// It isn't entered: it has no expansion, or too many are entered already.
    No,
    /// It is, and stands for this there.
    Yes(LowerCtx, Option<&'a Fragment>),
}

/// Where the expansion of a call is read, inside of which this many may be entered.
fn inside_file(place: LowerCtx, file_id: HirFileId, left: u32) -> LowerCtx
    ensures { result ≡ inside_file file_id left place }
{
    LowerCtx {
        file_id,
        left,
        ..place
    }
}

/// Notes what was expanded for a call beforehand.
fn record_each<I: StoreSink>(
    state: &mut BodyBuilder<I>,
    mut eager: &[(InFile<NodeId>, HirFileId)],
) -> Result<(), StoreError>
    ensures { Lowers HasNone (record_each eager.entry.now) state.old result state.new }
{
    while let [one, rest @ ..] = eager {
        state.record_expansion(one.0, None, one.1)?;
        eager = rest;
    }
    Ok(())
}

/// Notes a call that is entered.
#[tactic(auto, unfolding(crate::specs::Calls::track))]
fn track<I: StoreSink>(
    state: &mut BodyBuilder<I>,
    call: InFile<AstPtr>,
    file: HirFileId,
    eager: &[(InFile<NodeId>, HirFileId)],
) -> Result<(), StoreError>
    ensures { Lowers HasNone (track (record { call = call; file = file; eager = eager.now })) state.old result state.new }
{
    record_each(state, eager)?;
    state.record_expansion(site(call), Some(call.value.range), file)
}

/// Tells of a call what it came to, and answers what it stands for. It notes one that is entered, and reports one whose macro isn't
/// found; `Memory` where that is refused.
#[inline(never)]
fn emitted<'a, I: StoreSink>(
    state: &mut BodyBuilder<I>,
    place: LowerCtx,
    left: u32,
    call: InFile<AstPtr>,
    expansion: Expansion<'a>,
) -> Result<Entered<'a>, StoreError>
    ensures { Lowers HasRead (emitted_step call left place (expanding_of expansion.entry)) state.old (found_result result) state.new }
{
    match expansion {
        Expansion::NoExpansion => Ok(Entered::No),
        Expansion::Unresolved(path) => {
            let path = path.clone()?;
            state.report(ExpressionStoreDiagnostics::UnresolvedMacroCall { node: call, path })?;
            Ok(Entered::No)
        }
        Expansion::Expanded(file, root, eager) => {
            track(state, call, file, eager)?;
            Ok(Entered::Yes(inside_file(place, file, left), root))
        }
    }
}

/// Tells of a call in statement or tail place what it came to, and answers what it stands for. One whose macro isn't found is none:
/// no fault is told. What was expanded for one that is entered is noted, and then the call; `Memory` where that is refused.
#[inline(never)]
fn emitted_splice<'a, I: StoreSink>(
    state: &mut BodyBuilder<I>,
    place: LowerCtx,
    left: u32,
    call: InFile<AstPtr>,
    expansion: Expansion<'a>,
) -> Result<Entered<'a>, StoreError>
    ensures { Lowers HasRead (splice_step call left place (expanding_of expansion.entry)) state.old (found_result result) state.new }
{
    match expansion {
        Expansion::NoExpansion | Expansion::Unresolved(_) => Ok(Entered::No),
        Expansion::Expanded(file, root, eager) => {
            track(state, call, file, eager)?;
            Ok(Entered::Yes(inside_file(place, file, left), root))
        }
    }
}

/// Asks about a call that is read here as an expression, a pattern or a type, tells what it came to, and answers what it stands for.
/// Where none may be entered nothing is asked, nothing is told, and it is `No`. `Memory` where what is told can't be noted.
#[inline(never)]
pub fn enter<'a, I: StoreSink, P: LowerExprs<I>>(
    lowerer: &'a Lowerer<P>,
    state: &mut BodyBuilder<I>,
    kind: FragmentKind,
    call: &MacroCall,
) -> Result<Entered<'a>, StoreError>
    ensures { Lowers HasRead (entered_at (P.rctx lowerer.now.parts) kind call.now) state.old (found_result result) state.new }
{
    let place = lowerer.parts.place();
    if place.left == 0 {
        return Ok(Entered::No);
    }
    let at = lowerer.pointer(call.id, call.range);
    let expansion = lowerer.parts.expand(site(at), call, kind);
    emitted(state, place, place.left - 1, at, expansion)
}

/// Asks about a call that stands here for statements, tells that it is entered, and answers what it stands for. One that isn't entered
/// is `No` and is told nothing of, also where its macro isn't found. `Memory` where what is told can't be noted.
#[inline(never)]
pub fn enter_splice<'a, I: StoreSink, P: LowerExprs<I>>(
    lowerer: &'a Lowerer<P>,
    state: &mut BodyBuilder<I>,
    call: &MacroCall,
) -> Result<Entered<'a>, StoreError>
    ensures { Lowers HasRead (splice_entered (P.rctx lowerer.now.parts) call.now) state.old (found_result result) state.new }
{
    let place = lowerer.parts.place();
    if place.left == 0 {
        return Ok(Entered::No);
    }
    let at = lowerer.pointer(call.id, call.range);
    let expansion = lowerer.parts.expand(site(at), call, FragmentKind::Stmts);
    emitted_splice(state, place, place.left - 1, at, expansion)
}

//! Definitions of macros among the statements of a block.

ghost use Rattle.std.specs.Prelude.{◌≡◌, ◌^◌, ◌<◌, suc, OnOk, ◌∷◌};
ghost use Rattle.hir_store.specs.Range.{HasStatements};
ghost use Rattle.hir_env.specs.Answering.{def_named, rules_named};
ghost use Rattle.hir_env.specs.Calls.{times};
ghost use Rattle.hir_env.specs.Layers.{Defined};
ghost use Rattle.hir_lower_expr.specs.Runs.{Counts, DefinesBehind, StmtsBehind, StmtsExist, close_scopes, count_in, definitions};

use crate::runs::Run;
use hir_lower_builder::builder::BodyBuilder;
use hir_lower_builder::parts::{LowerAll, Lowerer};
use hir_lower_builder::store_sink::StoreSink;
use hir_store::error::StoreError;
use hir_store::hir::Statement;
use hir_store::ids::MacroDefId;
use hir_store::lists::push_statement;
use hir_store::name::Name;
use hir_syntax::{Seq, ast};
use std::alloc::AllocError;
use std::collections::BTreeMap;

/// How many of the name are defined.
fn defined_before(counts: &BTreeMap<Name, u32>, name: &Name) -> u32
    ensures { result ≡ count_in counts.now.entries name.now }
{
    match counts.get(name) {
        None => 0,
        Some(count) => *count,
    }
}

/// One more of the name is defined.
fn count_up(counts: &mut BTreeMap<Name, u32>, name: Name, before: u32) -> Result<(), AllocError>
    requires { suc before < 2 ^ 32 }
    ensures { OnOk result ((d : Defined) → Counts counts.old.entries d → before ≡ times name d
        → Counts counts.new.entries (name ∷ d)) }
{
    counts.insert(name, before + 1)?;
    Ok(())
}

/// The definition of a macro, of whose name so many are defined before it. What follows it stands inside of it. One that isn't known
/// is an item.
fn define<I: StoreSink>(
    state: &mut BodyBuilder<I>,
    done: &mut Seq<Statement>,
    before: u32,
    def: Option<MacroDefId>,
) -> Result<(), StoreError>
    requires { HasStatements state.old.stored done.old }
    ensures steps { DefinesBehind before def done.old state.old result done.new state.new }
    ensures placed { StmtsExist state.old result done.new state.new }
    ensures counted { OnOk result (suc before < 2 ^ 32) }
{
    state.count_def(before)?;
    match def {
        None => {
            push_statement(done, Statement::Item)?;
        }
        Some(def) => {
            push_statement(done, Statement::MacroDef(def))?;
            state.open_macro(def)?;
        }
    }
    Ok(())
}

/// A macro that `macro_rules` defines. One without a name is neither counted nor looked up.
#[inline(never)]
pub(crate) fn rules_stmt<I: StoreSink, P: LowerAll<I>>(
    lowerer: &Lowerer<P>,
    state: &mut BodyBuilder<I>,
    run: &mut Run,
    name: &Option<ast::Name>,
) -> Result<(), StoreError>
    requires { HasStatements state.old.stored run.old.done }
    ensures steps { let at = P.rctx lowerer.now.parts in
        StmtsBehind (rules_named at.answers at.place name.now) run.old state.old result run.new state.new }
    ensures placed { StmtsExist state.old result run.new.done state.new }
{
    let Some(name) = name else {
        return define(state, &mut run.done, 0, None);
    };
    let name = Name::Text(name.t.clone()?);
    let before = defined_before(&run.counts, &name);
    let def = lowerer.parts.legacy_macro(&name, before);
    define(state, &mut run.done, before, def)?;
    count_up(&mut run.counts, name, before)?;
    Ok(())
}

/// A macro that is defined in another way.
#[inline(never)]
pub(crate) fn def_stmt<I: StoreSink, P: LowerAll<I>>(
    lowerer: &Lowerer<P>,
    state: &mut BodyBuilder<I>,
    done: &mut Seq<Statement>,
    name: &Option<ast::Name>,
) -> Result<(), StoreError>
    requires { HasStatements state.old.stored done.old }
    ensures steps { let at = P.rctx lowerer.now.parts in
        DefinesBehind 0 (def_named at.answers at.place name.now) done.old state.old result done.new state.new }
    ensures placed { StmtsExist state.old result done.new state.new }
{
    let Some(name) = name else {
        return define(state, done, 0, None);
    };
    let name = Name::Text(name.t.clone()?);
    define(state, done, 0, lowerer.parts.macro_def(&name))
}

/// Closes the definitions among the statements.
#[inline(never)]
pub(crate) fn close_definitions<I: StoreSink>(state: &mut BodyBuilder<I>, mut all: &[Statement])
    ensures { state.new ≡ close_scopes (definitions all.entry.now) state.old }
{
    while let [one, rest @ ..] = all {
        if let Statement::MacroDef(_) = one {
            state.close();
        }
        all = rest;
    }
}

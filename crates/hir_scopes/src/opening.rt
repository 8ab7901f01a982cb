//! How a scope is opened.

ghost use Rattle.std.specs.Prelude.{◌≡◌, ◌<◌, ◌++◌, [], IfOk, length};
ghost use Rattle.std.specs.List.{flat_map};
ghost use Rattle.std.specs.Option.{option_to_list};
ghost use Rattle.hir_scopes.specs.Bounds.{IsWithin};
ghost use Rattle.hir_scopes.specs.Chains.{Enters, InRange, Opens, in_block, scope_of};
ghost use Rattle.hir_walks.specs.Pats.{bindings_in};
ghost use Rattle.spec_scopes.specs.Placed.{past_macro_def};
ghost use Rattle.spec_scopes.specs.Scopes.{binding_scope, loop_scope, pat_scope, pats_scope};

use crate::scope::{ExprScopes, ScopeId, ScopeKind};
use hir_store::error::StoreError;
use hir_store::ids::{BindingId, BlockId, LabelId, MacroDefId, PatId};
use hir_store::store::ExpressionStore;
use hir_walks::walks::{BindingSink, walk_bindings_in_pat};

/// The scopes around an expression: the one of its names, and the one of a constant in its place.
#[derive(Clone, Copy)]
pub(crate) struct Around {
    pub scope: ScopeId,
    pub const_scope: ScopeId,
}

/// Adds the bindings of a pattern to the entries.
fn add_pat_bindings(
    store: &ExpressionStore,
    scopes: &mut ExprScopes,
    pat: PatId,
) -> Result<(), StoreError>
    ensures { IfOk result (λ _. scopes.new ≡ record scopes.old { entries = scopes.old.entries ++ bindings_in store.now pat }) }
{
    walk_bindings_in_pat(store, pat, scopes)?;
    Ok(())
}

/// Adds the bindings of several patterns to the entries.
pub(crate) fn add_params_bindings(
    store: &ExpressionStore,
    scopes: &mut ExprScopes,
    mut left: &[PatId],
) -> Result<(), StoreError>
    ensures { IfOk result (λ _. scopes.new
        ≡ record scopes.old { entries = scopes.old.entries ++ flat_map (bindings_in store.now) left.entry.now }) }
{
    while let [pat, rest @ ..] = left {
        add_pat_bindings(store, scopes, *pat)?;
        left = rest;
    }
    Ok(())
}

/// Adds the binding of `self` to the entries.
pub(crate) fn add_self(
    scopes: &mut ExprScopes,
    self_param: Option<BindingId>,
) -> Result<(), StoreError>
    ensures { IfOk result (λ _. scopes.new ≡ record scopes.old { entries = scopes.old.entries ++ option_to_list self_param }) }
{
    match self_param {
        None => Ok(()),
        Some(binding) => {
            scopes.take(binding)?;
            Ok(())
        }
    }
}

/// Opens a scope without bindings of its own.
fn open(scopes: &mut ExprScopes, parent: ScopeId, kind: ScopeKind) -> Result<ScopeId, StoreError>
    requires within { IsWithin kind 0 }
    requires parent { parent.0 < length scopes.old.scopes }
    ensures { IfOk result (Opens scopes.old scopes.new parent (scope_of [] kind)) }
{
    let id = scopes.new_scope(Some(parent), kind)?;
    Ok(id)
}

/// Opens a scope of no bindings, which those of conditions and guards are.
pub(crate) fn open_empty(scopes: &mut ExprScopes, parent: ScopeId) -> Result<ScopeId, StoreError>
    requires { parent.0 < length scopes.old.scopes }
    ensures { IfOk result (Opens scopes.old scopes.new parent (binding_scope [])) }
{
    open(scopes, parent, ScopeKind::Bindings { start: 0, end: 0 })
}

/// Opens the scope of a loop.
pub(crate) fn open_loop(
    scopes: &mut ExprScopes,
    parent: ScopeId,
    label: Option<LabelId>,
) -> Result<ScopeId, StoreError>
    requires { parent.0 < length scopes.old.scopes }
    ensures { IfOk result (Opens scopes.old scopes.new parent (loop_scope label)) }
{
    open(scopes, parent, ScopeKind::Loop(label))
}

/// Opens a scope with the bindings of a pattern.
pub(crate) fn open_pat(
    store: &ExpressionStore,
    scopes: &mut ExprScopes,
    parent: ScopeId,
    pat: PatId,
) -> Result<ScopeId, StoreError>
    requires { parent.0 < length scopes.old.scopes }
    ensures { IfOk result (Opens scopes.old scopes.new parent (pat_scope store.now pat)) }
{
    let start = scopes.entries_len();
    add_pat_bindings(store, scopes, pat)?;
    let id = scopes.new_binding_scope(Some(parent), start)?;
    Ok(id)
}

/// Opens a scope with the bindings of several patterns.
pub(crate) fn open_pats(
    store: &ExpressionStore,
    scopes: &mut ExprScopes,
    parent: ScopeId,
    pats: &[PatId],
) -> Result<ScopeId, StoreError>
    requires { parent.0 < length scopes.old.scopes }
    ensures { IfOk result (Opens scopes.old scopes.new parent (pats_scope store.now pats.now)) }
{
    let start = scopes.entries_len();
    add_params_bindings(store, scopes, pats)?;
    let id = scopes.new_binding_scope(Some(parent), start)?;
    Ok(id)
}

/// Opens the scopes behind the definition of a macro, for names and for constants.
pub(crate) fn open_macro_def(
    scopes: &mut ExprScopes,
    around: Around,
    def: MacroDefId,
) -> Result<Around, StoreError>
    requires { InRange scopes.old around }
    ensures { IfOk result (Enters scopes.old scopes.new around (past_macro_def def)) }
{
    let scope = open(scopes, around.scope, ScopeKind::MacroDef(def))?;
    let const_scope = open(scopes, around.const_scope, ScopeKind::MacroDef(def))?;
    Ok(Around { scope, const_scope })
}

/// Opens the scopes inside a block: for names, and for constants if it may have items.
pub(crate) fn open_block(
    scopes: &mut ExprScopes,
    around: Around,
    id: Option<BlockId>,
    label: Option<LabelId>,
) -> Result<Around, StoreError>
    requires { InRange scopes.old around }
    ensures { IfOk result (Enters scopes.old scopes.new around (in_block id label)) }
{
    let scope = open(scopes, around.scope, ScopeKind::Block(id, label))?;
    match id {
        None => Ok(Around {
            scope,
            const_scope: around.const_scope,
        }),
        Some(_) => {
            let const_scope = open(scopes, around.const_scope, ScopeKind::Block(id, None))?;
            Ok(Around { scope, const_scope })
        }
    }
}

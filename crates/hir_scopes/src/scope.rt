//! Scopes, each inside another one.

ghost use Rattle.std.specs.Prelude.{ℕ, ◌≡◌, ◌++◌, ◌∷◌, ◌<◌, ◌≤◌, [], Some, IfOk, IfSome, length, slice_get, slice_set};
ghost use Rattle.hir_scopes.specs.declared.scope.ScopeKind.TheVariants as kind;
ghost use Rattle.hir_scopes.specs.Bounds.{IsBefore, IsWithin};
ghost use Rattle.hir_scopes.specs.Parts.{block_in, entries_in, joined, label_in, macro_def_in, parent_in};

use hir_base::Seq;
use hir_store::error::StoreError;
use hir_store::ids::{BindingId, BlockId, ExprId, LabelId, MacroDefId};
use hir_walks::walks::BindingSink;
use std::alloc::{AllocError, Global};
use std::marker::Model;

/// A scope, by its index among those of a body.
#[derive(Clone, Copy, PartialEq, Eq)]
pub struct ScopeId(pub u32);

/// What a scope holds or is of.
#[derive(Clone, Copy, PartialEq, Eq)]
pub enum ScopeKind {
    /// Bindings, maybe none: of parameters, a `let`, an arm, a guard, or the condition of an `if`. They are a range of the entries.
    Bindings { start: u32, end: u32 },
    /// A block, which may be a scope of items and have a label.
    Block(Option<BlockId>, Option<LabelId>),
    /// A loop.
    Loop(Option<LabelId>),
    /// What stands behind the definition of a macro.
    MacroDef(MacroDefId),
}

/// A scope, and the one around it.
#[derive(Clone, Copy, PartialEq, Eq)]
pub struct ScopeData {
    pub parent: Option<ScopeId>,
    pub kind: ScopeKind,
}

/// The scopes of a body. An entry is a binding, whose name and hygiene the store has.
pub struct ExprScopes {
    scopes: Seq<ScopeData>,
    scope_entries: Seq<BindingId>,
    scope_by_expr: Seq<Option<ScopeId>>,
}

impl Drop for ExprScopes {
    fn drop(self) {
        let ExprScopes {
            scopes: _,
            scope_entries: _,
            scope_by_expr: _,
        } = self;
    }
}

impl Model for ExprScopes {
    ghost use Rattle.hir_scopes.specs.Bounds.{InBounds, ScopeLists};

    ghost Value = { ScopeLists };

    ghost view = { λ s. record { scopes = s.scopes; entries = s.scope_entries; by_expr = s.scope_by_expr } };

    ghost invariant = { λ s. InBounds (record { scopes = s.scopes; entries = s.scope_entries; by_expr = s.scope_by_expr }) };
}

/// The id of this index. Behind the last one the list is full.
fn id_of(index: usize) -> Result<u32, StoreError>
    ensures { IfOk result (λ id. id ≡ index) }
{
    if index > u32::MAX as usize {
        return Err(StoreError::Full);
    }
    Ok(index as u32)
}

/// No scopes yet, for so many expressions.
pub(crate) fn no_scopes(alloc: Global, exprs: u32) -> Result<ExprScopes, AllocError>
    ensures scopes { IfOk result (λ m. m.scopes ≡ []) }
    ensures entries { IfOk result (λ m. m.entries ≡ []) }
    ensures exprs { IfOk result (λ m. length m.by_expr ≡ exprs) }
    ensures none { IfOk result (λ m. (e : ℕ) (s : ScopeId) → slice_get m.by_expr e ≡ Some (Some s) → ⊥) }
{
    let mut scope_by_expr = Seq::new(alloc);
    for _ in 0..exprs {
        scope_by_expr.push(None)?;
    }
    Ok(ExprScopes {
        scopes: Seq::new(alloc),
        scope_entries: Seq::new(alloc),
        scope_by_expr,
    })
}

impl ExprScopes {
    /// How many scopes there are.
    pub fn len(&self) -> usize
        ensures { result ≡ length self.now.scopes }
    {
        self.scopes.len()
    }

    /// The scope with this id.
    pub fn scope(&self, scope: ScopeId) -> Option<ScopeData>
        ensures found { result ≡ slice_get self.now.scopes scope.0 }
        ensures before { IfSome result (λ d. IsBefore d.parent scope.0) }
        ensures within { IfSome result (λ d. IsWithin d.kind (length self.now.entries)) }
    {
        match self.scopes.get(scope.0 as usize) {
            Some(data) => Some(*data),
            None => None,
        }
    }

    /// The scope around this one, which has a lower id.
    pub fn parent(&self, scope: ScopeId) -> Option<ScopeId>
        ensures found { result ≡ parent_in (slice_get self.now.scopes scope.0) }
        ensures before { IsBefore result scope.0 }
    {
        match self.scope(scope) {
            Some(data) => data.parent,
            None => None,
        }
    }

    /// The bindings of a scope, in the order in which they stand in its patterns.
    pub fn entries(&self, scope: ScopeId) -> &[BindingId]
        ensures { result.now ≡ entries_in self.now.entries (slice_get self.now.scopes scope.0) }
    {
        match self.scope(scope) {
            Some(
                ScopeData {
                    kind: ScopeKind::Bindings { start, end },
                    ..
                },
            ) => &self.scope_entries.as_slice()[start as usize..end as usize],
            _ => &[],
        }
    }

    /// The id of the block whose scope this is, if the block is a scope of items.
    pub fn block(&self, scope: ScopeId) -> Option<BlockId>
        ensures { result ≡ block_in (slice_get self.now.scopes scope.0) }
    {
        match self.scope(scope) {
            Some(
                ScopeData {
                    kind: ScopeKind::Block(block, _),
                    ..
                },
            ) => block,
            _ => None,
        }
    }

    /// The label of the block or the loop whose scope this is.
    pub fn label(&self, scope: ScopeId) -> Option<LabelId>
        ensures { result ≡ label_in (slice_get self.now.scopes scope.0) }
    {
        match self.scope(scope) {
            Some(
                ScopeData {
                    kind: ScopeKind::Block(_, label) | ScopeKind::Loop(label),
                    ..
                },
            ) => label,
            _ => None,
        }
    }

    /// The macro behind whose definition this scope stands.
    pub fn macro_def(&self, scope: ScopeId) -> Option<MacroDefId>
        ensures { result ≡ macro_def_in (slice_get self.now.scopes scope.0) }
    {
        match self.scope(scope) {
            Some(
                ScopeData {
                    kind: ScopeKind::MacroDef(def),
                    ..
                },
            ) => Some(def),
            _ => None,
        }
    }

    /// The scope of an expression: of a block the one inside it. None of an expression that stands in a type, or in a pattern that
    /// isn't assigned to.
    pub fn scope_for(&self, expr: ExprId) -> Option<ScopeId>
        ensures { result ≡ joined (slice_get self.now.by_expr expr.0) }
    {
        match self.scope_by_expr.get(expr.0 as usize) {
            Some(scope) => *scope,
            None => None,
        }
    }
}

impl ExprScopes {
    /// Adds a scope.
    pub(crate) fn new_scope(
        &mut self,
        parent: Option<ScopeId>,
        kind: ScopeKind,
    ) -> Result<ScopeId, StoreError>
        requires before { IsBefore parent (length self.old.scopes) }
        requires within { IsWithin kind (length self.old.entries) }
        ensures id { IfOk result (λ id. id.0 ≡ length self.old.scopes) }
        ensures scopes { IfOk result (λ _. self.new.scopes ≡ self.old.scopes ++ record { parent = parent; kind = kind } ∷ []) }
        ensures entries { IfOk result (λ _. self.new.entries ≡ self.old.entries) }
        ensures by_expr { IfOk result (λ _. self.new.by_expr ≡ self.old.by_expr) }
    {
        let id = id_of(self.scopes.len())?;
        self.scopes.push(ScopeData { parent, kind })?;
        Ok(ScopeId(id))
    }

    /// Adds a scope whose bindings are the entries from this one on.
    pub(crate) fn new_binding_scope(
        &mut self,
        parent: Option<ScopeId>,
        start: usize,
    ) -> Result<ScopeId, StoreError>
        requires before { IsBefore parent (length self.old.scopes) }
        requires within { start ≤ length self.old.entries }
        ensures id { IfOk result (λ id. id.0 ≡ length self.old.scopes) }
        ensures scopes { IfOk result (λ _. self.new.scopes ≡ self.old.scopes
            ++ record { parent = parent; kind = kind.Bindings start (length self.old.entries) } ∷ []) }
        ensures entries { IfOk result (λ _. self.new.entries ≡ self.old.entries) }
        ensures by_expr { IfOk result (λ _. self.new.by_expr ≡ self.old.by_expr) }
    {
        let start = id_of(start)?;
        let end = id_of(self.scope_entries.len())?;
        self.new_scope(parent, ScopeKind::Bindings { start, end })
    }

    /// How many entries there are.
    pub(crate) fn entries_len(&self) -> usize
        ensures { result ≡ length self.now.entries }
    {
        self.scope_entries.len()
    }

    /// Records the scope of an expression.
    pub(crate) fn set_scope(&mut self, expr: ExprId, scope: ScopeId)
        ensures scopes { self.new.scopes ≡ self.old.scopes }
        ensures entries { self.new.entries ≡ self.old.entries }
        ensures by_expr { self.new.by_expr ≡ slice_set self.old.by_expr expr.0 (Some scope) }
    {
        let index = expr.0 as usize;
        if index < self.scope_by_expr.len() {
            self.scope_by_expr.set(index, Some(scope));
        }
    }
}

impl BindingSink for ExprScopes {
    ghost after = { λ m b. record m { entries = m.entries ++ b ∷ [] } };

    fn take(&mut self, id: BindingId) -> Result<(), StoreError> {
        self.scope_entries.push(id)?;
        Ok(())
    }
}

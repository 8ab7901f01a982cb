//! Bindings, each with the patterns that make it and with what owns it.

ghost use Rattle.std.specs.Prelude.{◌≡◌, ◌<◌, ◌↔◌, ◌++◌, ◌∷◌, [], None, OnOk, OnErr, IsErrOf, false, length, slice_get, true};
ghost use Rattle.std.specs.Option.{option_copied};
ghost use Rattle.hir_store.specs.Bindings.{AddsBinding, BindingsAtLimit, KeptBindings, at_place, none_bound, own_from, owner_at};
ghost use Rattle.hir_store.specs.Pages.{joined, ArePages, Paged};
ghost use Rattle.hir_store.specs.Bindings.{pattern_added, problem_set, unowned_from, with_definition, with_owner, with_problem};

use crate::arena::Arena;
use crate::error::StoreError;
use crate::ids::{BindingId, ExprId, PatId};
use crate::pages::{PAGE, Pages, get, next_page, put};
use crate::pat::Binding;
use hir_base::Seq;
use hir_binding::binding::BindingProblems;
use std::alloc::{AllocError, Global};
use std::marker::Model;

/// Lists of patterns, one for each binding.
pub struct Definitions {
    lists: Vec<Seq<PatId>>,
}

impl Drop for Definitions {
    fn drop(self) {
        let Definitions { lists: _ } = self;
    }
}

impl Model for Definitions {
    ghost use Rattle.std.specs.Prelude.{List};
    ghost use Rattle.hir_store.specs.declared.ids.PatId.{PatId};

    ghost Value = { List (List PatId) };

    ghost view = { λ d. d.lists.items };
}

impl Definitions {
    /// These lists: the one at place i is that of binding i.
    pub fn from_vec(lists: Vec<Seq<PatId>>) -> Definitions
        ensures { result ≡ lists.items }
    {
        Definitions { lists }
    }

    /// The lists in the order of the bindings' numbers.
    pub fn as_slice(&self) -> &[Seq<PatId>]
        ensures { result.now ≡ self.now }
    {
        self.lists.as_slice()
    }

    /// The patterns of the binding, in the order in which they came.
    pub fn of(&self, id: BindingId) -> Option<&Seq<PatId>>
        ensures { option_copied result ≡ slice_get self.now id.0 }
    {
        self.lists.get(id.0 as usize)
    }
}

/// What owns the binding by this list, where something does.
fn owner_in(owners: &[Option<ExprId>], id: BindingId) -> Option<ExprId>
    ensures { result ≡ owner_at owners.now id.0 }
{
    match owners.get(id.0 as usize) {
        None => None,
        Some(owner) => *owner,
    }
}

/// What owns each binding, where something does.
pub struct Owners {
    of: Vec<Option<ExprId>>,
}

impl Drop for Owners {
    fn drop(self) {
        let Owners { of: _ } = self;
    }
}

impl Model for Owners {
    ghost use Rattle.std.specs.Prelude.{List, Option};
    ghost use Rattle.hir_store.specs.declared.ids.ExprId.{ExprId};

    ghost Value = { List (Option ExprId) };

    ghost view = { λ o. o.of.items };
}

impl Owners {
    /// These owners: what stands at place i is that of binding i.
    pub fn from_vec(of: Vec<Option<ExprId>>) -> Owners
        ensures { result ≡ of.items }
    {
        Owners { of }
    }

    /// What owns each binding, where something does, in the order of the bindings' numbers.
    pub fn as_slice(&self) -> &[Option<ExprId>]
        ensures { result.now ≡ self.now }
    {
        self.of.as_slice()
    }

    /// What owns the binding, where something does.
    pub fn of(&self, id: BindingId) -> Option<ExprId>
        ensures { result ≡ owner_at self.now id.0 }
    {
        owner_in(self.of.as_slice(), id)
    }
}

/// Adds a pattern to the list at this place. Where memory is refused nothing changes.
fn push_at(lists: &mut Vec<Seq<PatId>>, at: usize, pat: PatId) -> Result<(), AllocError>
    requires { at < length lists.old.items }
    ensures ok { OnOk result (lists.new.items ≡ at_place at (pattern_added pat) lists.old.items) }
    ensures unchanged { OnErr result (lists.new.items ≡ lists.old.items) }
{
    lists[at].push(pat)
}

/// Notes what is wrong with the binding at this place of these pages.
fn track_in(pages: &mut Vec<Vec<Binding>>, at: usize, problem: Option<BindingProblems>)
    requires paged { ArePages pages.old.items }
    requires within { at < length (joined pages.old.items) }
    ensures tracked { joined pages.new.items ≡ at_place at (problem_set problem) (joined pages.old.items) }
    ensures paged { ArePages pages.new.items }
{
    let page = &mut pages[at / PAGE];
    page[at % PAGE].problems = problem;
}

/// Notes what is wrong with the binding at this place.
fn track_at(entries: &mut Pages<Binding>, at: usize, problem: Option<BindingProblems>)
    requires paged { Paged entries.old }
    requires within { at < length (joined entries.old.pages.items) }
    ensures tracked { joined entries.new.pages.items ≡ at_place at (problem_set problem) (joined entries.old.pages.items) }
    ensures paged { Paged entries.new }
{
    track_in(&mut entries.pages, at, problem);
}

/// What owns bindings, and those that nothing owns yet. These are a list of their own, ascending, so that each is looked at once when
/// what owns it is found, however deep it stands.
struct Owning {
    owners: Vec<Option<ExprId>>,
    unowned: Vec<BindingId>,
}

impl Drop for Owning {
    fn drop(self) {
        let Owning {
            owners: _,
            unowned: _,
        } = self;
    }
}

impl Model for Owning {
    ghost use Rattle.std.specs.Prelude.{◌≡◌, List, Option, map};
    ghost use Rattle.hir_store.specs.Bindings.{unowned_from};
    ghost use Rattle.hir_store.specs.declared.ids.ExprId.{ExprId};

    ghost Value = { List (Option ExprId) };

    ghost view = { λ o. o.owners.items };

    ghost invariant = { λ o. map (λ b. b.0) o.unowned.items ≡ unowned_from 0 o.owners.items };
}

/// Bindings, each with the patterns that make it and with what owns it. A problem is noted behind the last of the patterns.
pub struct BindingArena {
    pages: Pages<Binding>,
    definitions: Vec<Seq<PatId>>,
    owners: Owning,
    limit: u32,
    alloc: Global,
}

impl Drop for BindingArena {
    fn drop(self) {
        let BindingArena {
            pages: _,
            definitions: _,
            owners: _,
            limit: _,
            alloc: _,
        } = self;
    }
}

impl Model for BindingArena {
    ghost use Rattle.std.specs.Prelude.{◌<◌, ◌^◌};
    ghost use Rattle.hir_store.specs.Bindings.{Bindings, KeptBindings, bindings_of};
    ghost use Rattle.hir_store.specs.Pages.{joined, Paged};

    ghost Value = { Bindings };

    ghost view = { λ a. bindings_of (joined a.pages.pages.items) a.definitions.items a.owners a.limit };

    ghost invariant = { λ a.
        KeptBindings (bindings_of (joined a.pages.pages.items) a.definitions.items a.owners a.limit) × (a.limit < 2 ^ 32)
        × Paged a.pages };
}

impl Owning {
    /// Of no bindings. It takes no memory.
    fn new(alloc: Global) -> Owning
        ensures { result ≡ [] }
    {
        Owning {
            owners: Vec::new(alloc),
            unowned: Vec::new(alloc),
        }
    }

    /// A binding more, of this number, which nothing owns. Where memory is refused nothing changes.
    fn add(&mut self, at: u32) -> Result<(), AllocError>
        requires { at ≡ length self.old }
        ensures ok { OnOk result (self.new ≡ self.old ++ None ∷ []) }
        ensures unchanged { OnErr result (self.new ≡ self.old) }
    {
        self.owners.reserve(1)?;
        self.unowned.reserve(1)?;
        self.owners.push_reserved(None);
        self.unowned.push_reserved(BindingId(at));
        Ok(())
    }

    /// Lets the expression own the last binding that nothing owns, where that is this one or comes behind it. Whether there was one.
    fn own_last(&mut self, start: BindingId, owner: ExprId) -> bool
        ensures same { result ≡ true → own_from start.0 owner self.new ≡ own_from start.0 owner self.old }
        ensures fewer { result ≡ true → length (unowned_from 0 self.new) < length (unowned_from 0 self.old) }
        ensures none { result ≡ false → self.new ≡ own_from start.0 owner self.old }
    {
        let Some(last) = self.unowned.last() else {
            return false;
        };
        let last = *last;
        if last.0 < start.0 {
            return false;
        }
        let _ = self.unowned.pop();
        self.owners[last.0 as usize] = Some(owner);
        true
    }

    /// From this binding on the expression owns each that nothing owned.
    fn own(&mut self, start: BindingId, owner: ExprId)
        ensures { self.new ≡ own_from start.0 owner self.old }
    {
        while self.own_last(start, owner) {}
    }

    /// What owns the binding, where something does.
    fn of(&self, id: BindingId) -> Option<ExprId>
        ensures { result ≡ owner_at self.now id.0 }
    {
        owner_in(self.owners.as_slice(), id)
    }

    fn into_owners(self) -> Owners
        ensures { result ≡ self }
    {
        let Owning { owners, unowned: _ } = self;
        Owners { of: owners }
    }
}

impl BindingArena {
    /// No bindings, and room for so many. It takes no memory.
    pub fn with_limit(alloc: Global, limit: u32) -> BindingArena
        ensures { result ≡ none_bound limit }
    {
        BindingArena {
            pages: Pages::new(alloc),
            definitions: Vec::new(alloc),
            owners: Owning::new(alloc),
            limit,
            alloc,
        }
    }

    /// How many bindings there are.
    pub fn len(&self) -> u32
        ensures { result ≡ length self.now.entries }
    {
        self.pages.len
    }

    /// The binding, where there is one of that number.
    pub fn get(&self, id: BindingId) -> Option<&Binding>
        ensures { option_copied result ≡ slice_get self.now.entries id.0 }
    {
        get(&self.pages, id.0 as usize)
    }

    /// What owns the binding, where something does.
    pub fn owner(&self, id: BindingId) -> Option<ExprId>
        ensures { result ≡ owner_at self.now.owners id.0 }
    {
        self.owners.of(id)
    }

    /// Stores a binding that no pattern makes yet.
    ///
    /// `Full` exactly where the limit is reached, and then no memory is asked for; `Memory` where a growth was refused. On either
    /// the binding is dropped and nothing changes.
    pub fn alloc(&mut self, binding: Binding) -> Result<BindingId, StoreError>
        ensures stored { AddsBinding binding self.old result self.new }
        ensures full { IsErrOf result StoreError.Full ↔ BindingsAtLimit self.old }
    {
        let at = self.len();
        if at >= self.limit {
            return Err(StoreError::Full);
        }
        let page = next_page(&mut self.pages)?;
        self.definitions.reserve(1)?;
        self.owners.add(at)?;
        let none = Seq::new(self.alloc);
        put(&mut self.pages, page, binding);
        self.definitions.push_reserved(none);
        Ok(BindingId(at))
    }

    /// Says of a pattern that it makes the binding. Where memory is refused nothing changes.
    pub fn define(&mut self, id: BindingId, pat: PatId) -> Result<(), AllocError>
        requires { id.0 < length self.old.entries }
        ensures ok { OnOk result (self.new ≡ with_definition self.old id pat) }
        ensures unchanged { OnErr result (self.new ≡ self.old) }
    {
        push_at(&mut self.definitions, id.0 as usize, pat)?;
        Ok(())
    }

    /// Notes what is wrong with the binding, where something is.
    pub fn set_problem(&mut self, id: BindingId, problem: Option<BindingProblems>)
        requires { id.0 < length self.old.entries }
        ensures { self.new ≡ with_problem self.old id problem }
    {
        track_at(&mut self.pages, id.0 as usize, problem);
    }

    /// From this binding on the expression owns each that nothing owned.
    pub fn own(&mut self, start: BindingId, owner: ExprId)
        ensures { self.new ≡ with_owner self.old start owner }
    {
        self.owners.own(start, owner);
    }

    /// Each binding has its patterns and may have an owner, and no more are there than there may be.
    pub fn kept(&self)
        ensures { KeptBindings self.now }
    {
        let _ = &self.pages;
    }

    /// The bindings, their patterns, and what owns them. It takes no memory.
    pub fn split(self) -> (Arena<Binding>, Definitions, Owners)
        ensures entries { result.0 ≡ record { entries = self.entries; limit = self.limit } }
        ensures definitions { result.1 ≡ self.definitions }
        ensures owners { result.2 ≡ self.owners }
        ensures kept { KeptBindings self }
    {
        let BindingArena {
            pages,
            definitions,
            owners,
            limit,
            alloc: _,
        } = self;
        (
            Arena::of(pages, limit),
            Definitions { lists: definitions },
            owners.into_owners(),
        )
    }
}

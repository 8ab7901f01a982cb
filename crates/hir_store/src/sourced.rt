//! Arenas whose entries have sources.

ghost use Rattle.std.specs.Prelude.{◌≡◌, ◌<◌, ◌≤◌, ◌↔◌, IfOk, OnOk, OnErr, IsErrOf, length, slice_get};
ghost use Rattle.std.specs.Option.{option_copied};
ghost use Rattle.hir_store.specs.Arenas.{Allocs, AllocsMade, AtLimit, Kept, none_yet, insert_pointer, with_mapping};
ghost use Rattle.hir_store.specs.Pointers.{flat_option};

use crate::arena::{Arena, Entry};
use crate::error::StoreError;
use crate::pages::{Pages, get, next_page, put};
use crate::pointers::PointerMap;
use hir_base::Seq;
use hir_base::node::{AstPtr, InFile};
use std::alloc::{AllocError, Global};
use std::marker::Model;

/// Entries of one kind, each with the node that it came from, where it came from one, and the way from nodes to them.
pub struct SourcedArena<T: Entry> {
    pages: Pages<T>,
    sources: Vec<Option<InFile<AstPtr>>>,
    map: PointerMap<T::Id>,
    limit: u32,
}

impl<T: Entry> Drop for SourcedArena<T> {
    fn drop(self) {
        let SourcedArena {
            pages: _,
            sources: _,
            map: _,
            limit: _,
        } = self;
    }
}

impl<T: Entry> Model for SourcedArena<T> {
    ghost use Rattle.std.specs.Prelude.{length, ◌≤◌, ◌<◌, ◌^◌};
    ghost use Rattle.hir_store.specs.Arenas.{Kept, Sourced, sourced_code, sourced_of};
    ghost use Rattle.hir_store.specs.Pages.{joined, Paged};

    ghost Value = { Sourced T T.Id };

    ghost coded = { sourced_code T.code T.Id.code };

    ghost view = { λ a. sourced_of (joined a.pages.pages.items) a.sources.items a.map a.limit };

    ghost invariant = { λ a.
        Kept T.place (sourced_of (joined a.pages.pages.items) a.sources.items a.map a.limit) × (a.limit < 2 ^ 32) × Paged a.pages };
}

/// Lets the node, where there is one, lead to the entry. Where memory is refused nothing changes.
fn lead<I: Copy>(
    map: &mut PointerMap<I>,
    node: Option<InFile<AstPtr>>,
    id: I,
) -> Result<(), AllocError>
    ensures ok { OnOk result (map.new ≡ insert_pointer map.old node id) }
    ensures unchanged { OnErr result (map.new ≡ map.old) }
{
    match node {
        None => Ok(()),
        Some(node) => map.insert(node, id),
    }
}

impl<T: Entry> SourcedArena<T> {
    /// An empty arena for so many entries. It takes no memory.
    pub fn with_limit(alloc: Global, limit: u32) -> SourcedArena<T>
        ensures { result ≡ none_yet limit }
    {
        SourcedArena {
            pages: Pages::new(alloc),
            sources: Vec::new(alloc),
            map: PointerMap::new(alloc),
            limit,
        }
    }

    /// How many entries there are.
    pub fn len(&self) -> u32
        ensures { result ≡ length self.now.entries }
    {
        self.pages.len
    }

    /// The entry, where there is one of that number.
    pub fn get(&self, id: T::Id) -> Option<&T>
        ensures value { option_copied result ≡ slice_get self.now.entries (T.place id) }
        ensures kept { Kept T.place self.now }
    {
        get(&self.pages, T::place(id) as usize)
    }

    /// The node that the entry came from; none where it came from none, or where there is no such entry.
    pub fn source(&self, id: T::Id) -> Option<InFile<AstPtr>>
        ensures { result ≡ flat_option (slice_get self.now.sources (T.place id)) }
    {
        self.sources.get(T::place(id) as usize).copied().flatten()
    }

    /// Stores an entry. The node that it came from, where it came from one, leads to it from now on.
    ///
    /// `Full` exactly where the limit is reached, and then no memory is asked for; `Memory` where a growth was
    /// refused. On either the entry is dropped and nothing changes.
    pub fn alloc(&mut self, entry: T, source: Option<InFile<AstPtr>>) -> Result<T::Id, StoreError>
        ensures stored { Allocs T.number entry source self.old result self.new }
        ensures full { IsErrOf result StoreError.Full ↔ AtLimit self.old }
    {
        let at = self.len();
        if at >= self.limit {
            return Err(StoreError::Full);
        }
        let page = next_page(&mut self.pages)?;
        self.sources.reserve(1)?;
        let id = T::number(at);
        lead(&mut self.map, source, id)?;
        put(&mut self.pages, page, entry);
        self.sources.push_reserved(source);
        Ok(id)
    }

    /// Stores an entry that was made up for a node, which doesn't lead to it. It refuses as `alloc` does.
    pub fn alloc_desugared(
        &mut self,
        entry: T,
        source: Option<InFile<AstPtr>>,
    ) -> Result<T::Id, StoreError>
        ensures stored { AllocsMade T.number entry source self.old result self.new }
        ensures full { IsErrOf result StoreError.Full ↔ AtLimit self.old }
    {
        let place = self.len();
        if place >= self.limit {
            return Err(StoreError::Full);
        }
        let page = next_page(&mut self.pages)?;
        self.sources.reserve(1)?;
        put(&mut self.pages, page, entry);
        self.sources.push_reserved(source);
        Ok(T::number(place))
    }

    /// Lets a further node lead to an entry. Where memory is refused nothing changes.
    pub fn point(&mut self, node: InFile<AstPtr>, id: T::Id) -> Result<(), AllocError>
        requires { T.place id < length self.old.entries }
        ensures ok { OnOk result (self.new ≡ with_mapping self.old node id) }
        ensures unchanged { OnErr result (self.new ≡ self.old) }
    {
        self.map.insert(node, id)?;
        Ok(())
    }

    /// Each entry has its source, and what a node leads to exists.
    pub fn kept(&self)
        ensures { Kept T.place self.now }
    {
        let _ = &self.map;
    }

    /// The entries, their sources and the way to them. It takes no memory.
    pub fn split(self) -> (Arena<T>, Seq<Option<InFile<AstPtr>>>, PointerMap<T::Id>)
        ensures entries { result.0 ≡ record { entries = self.entries; limit = self.limit } }
        ensures sources { result.1 ≡ self.sources }
        ensures map { result.2 ≡ self.map }
        ensures kept { Kept T.place self }
    {
        let SourcedArena {
            pages,
            sources,
            map,
            limit,
        } = self;
        (Arena::of(pages, limit), Seq::from_vec(sources), map)
    }
}

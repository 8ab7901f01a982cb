//! The entries of an arena, one by one.

ghost use Rattle.std.specs.Iterator.{YieldsFirstBy, item_count};

use crate::arena::{Arena, Entry};
use std::marker::Model;

/// Entries in the order of their numbers, each with its number. They are lent one by one.
pub struct Numbered<'a, T: Entry> {
    pub(crate) arena: &'a Arena<T>,
    pub(crate) next: u32,
}

impl<'a, T: Entry> Drop for Numbered<'a, T> {
    fn drop(self) {
        let Numbered { arena: _, next: _ } = self;
    }
}

impl<'a, T: Entry> Model for Numbered<'a, T> {
    ghost use Rattle.std.specs.Prelude.{List};
    ghost use Rattle.std.specs.Coded.{coded×, coded_list};
    ghost use Rattle.hir_store.specs.Entries.{numbered_behind};

    ghost Value = { List (T.Id × T) };

    ghost coded = { coded_list (coded× T.Id.code T.code) };

    ghost view = { λ it. numbered_behind T.number it.next it.arena.now.entries };
}

impl<'a, T: Entry> Iterator for Numbered<'a, T> {
    type Item = (T::Id, &'a T);

    ghost next_gives = { YieldsFirstBy (λ x. (x.0, x.1.now)) (λ it. it) };

    ghost remaining = { item_count (λ it. it) };

    fn next(&mut self) -> Option<(T::Id, &'a T)> {
        let at = self.next;
        if at >= self.arena.len() {
            return None;
        }
        let entry = self.arena.get(T::number(at))?;
        self.next = at + 1;
        Some((T::number(at), entry))
    }
}

//! Answers by two keys.

ghost use Rattle.std.specs.Prelude.{◌≡◌, OnOk, OnErr, []};
ghost use Rattle.hir_tables.specs.FirstOf.{found_below, with_first_below};

use crate::first_of::FirstOf;
use std::alloc::{AllocError, Global};
use std::collections::BTreeMap;
use std::marker::Model;

/// Answers by two keys, of which the first, a name or a path, isn't copied where it is looked up. The first that is said of both
/// counts.
pub struct FirstBelow<K: Ord, L: Copy + Ord, T> {
    alloc: Global,
    entries: BTreeMap<K, FirstOf<L, T>>,
}

impl<K: Ord + Drop, L: Copy + Ord, T: Drop> Drop for FirstBelow<K, L, T> {
    fn drop(self) {
        let FirstBelow {
            alloc: _,
            entries: _,
        } = self;
    }
}

impl<K: Ord, L: Copy + Ord, T> Model for FirstBelow<K, L, T> {
    ghost use Rattle.std.specs.Prelude.{List};
    ghost use Rattle.std.specs.Coded.{coded×, coded_list};

    ghost Value = { List (K × List (L × T)) };

    ghost coded = { coded_list (coded× K.code (coded_list (coded× L.code T.code))) };

    ghost view = { λ m. m.entries.entries };
}

impl<K: Ord + Drop, L: Copy + Ord, T: Copy> FirstBelow<K, L, T> {
    /// An empty map. It takes no memory.
    pub fn new(alloc: Global) -> FirstBelow<K, L, T>
        ensures { result ≡ [] }
    {
        FirstBelow {
            alloc,
            entries: BTreeMap::new(alloc),
        }
    }

    /// Says the answer for two keys, unless one is said already. Where memory is refused the map is unchanged.
    pub fn insert(&mut self, key: K, below: L, answer: T) -> Result<(), AllocError>
        ensures ok { OnOk result (self.new ≡ with_first_below K.cmp L.cmp self.old key below answer) }
        ensures err { OnErr result (self.new ≡ self.old) }
    {
        if let Some(answers) = self.entries.get_mut(&key) {
            return answers.insert(below, answer);
        }
        let mut answers = FirstOf::new(self.alloc);
        answers.insert(below, answer)?;
        self.entries.insert(key, answers)?;
        Ok(())
    }

    /// The answer for the two.
    pub fn get(&self, key: &K, below: L) -> Option<T>
        ensures { result ≡ found_below K.cmp L.cmp self.now key.now below }
    {
        self.entries.get(key)?.get(below).copied()
    }
}

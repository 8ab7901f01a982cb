//! Answers by what they are given for.

ghost use Rattle.std.specs.Prelude.{◌≡◌, OnOk, OnErr, [], is_some};
ghost use Rattle.std.specs.Option.{option_copied};
ghost use Rattle.hir_tables.specs.FirstOf.{found_by, with_first_by};

use std::alloc::{AllocError, Global};
use std::collections::BTreeMap;
use std::marker::Model;

/// Answers by key, in the order of the keys: whoever picks the keys can't make it slow. The first that is said of a key counts.
pub struct FirstOf<K: Copy + Ord, T> {
    entries: BTreeMap<K, T>,
}

impl<K: Copy + Ord, T: Drop> Drop for FirstOf<K, T> {
    fn drop(self) {
        let FirstOf { entries: _ } = self;
    }
}

impl<K: Copy + Ord, T> Model for FirstOf<K, T> {
    ghost use Rattle.std.specs.Prelude.{List};
    ghost use Rattle.std.specs.Coded.{coded×, coded_list};

    ghost Value = { List (K × T) };

    ghost coded = { coded_list (coded× K.code T.code) };

    ghost view = { λ m. m.entries.entries };
}

impl<K: Copy + Ord, T> FirstOf<K, T> {
    /// An empty map. It takes no memory.
    pub fn new(alloc: Global) -> FirstOf<K, T>
        ensures { result ≡ [] }
    {
        FirstOf {
            entries: BTreeMap::new(alloc),
        }
    }

    /// Whether an answer is said for the key.
    pub fn has(&self, key: K) -> bool
        ensures { result ≡ is_some (found_by K.cmp self.now key) }
    {
        self.entries.contains_key(&key)
    }

    /// The answer for the key.
    pub fn get(&self, key: K) -> Option<&T>
        ensures { option_copied result ≡ found_by K.cmp self.now key }
    {
        self.entries.get(&key)
    }
}

impl<K: Copy + Ord, T: Drop> FirstOf<K, T> {
    /// Says the answer for a key, unless one is said already. Where memory is refused the map is unchanged.
    pub fn insert(&mut self, key: K, answer: T) -> Result<(), AllocError>
        ensures ok { OnOk result (self.new ≡ with_first_by K.cmp self.old key answer) }
        ensures err { OnErr result (self.new ≡ self.old) }
    {
        if !self.has(key) {
            self.entries.insert(key, answer)?;
        }
        Ok(())
    }
}

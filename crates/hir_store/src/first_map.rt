//! Answers by what they are given for.

ghost use Rattle.std.specs.Prelude.{◌≡◌, OnOk, OnErr, []};
ghost use Rattle.hir_store.specs.FirstMap.{found_by, with_first_by};

use crate::keyed::Keyed;
use std::alloc::{AllocError, Global};
use std::marker::Model;

/// Answers by key. The first that is said of a key counts.
pub struct FirstMap<K: Copy + Ord, T> {
    entries: Keyed<K, T>,
}

impl<K: Copy + Ord, T: Drop> Drop for FirstMap<K, T> {
    fn drop(self) {
        let FirstMap { entries: _ } = self;
    }
}

impl<K: Copy + Ord, T> Model for FirstMap<K, T> {
    ghost use Rattle.std.specs.Prelude.{List};
    ghost use Rattle.std.specs.Coded.{coded×, coded_list};

    ghost Value = { List (K × T) };

    ghost coded = { coded_list (coded× K.code T.code) };

    ghost view = { λ m. m.entries };
}

impl<K: Copy + Ord, T: Copy> FirstMap<K, T> {
    /// An empty map. It takes no memory.
    pub fn new(alloc: Global) -> FirstMap<K, T>
        ensures { result ≡ [] }
    {
        FirstMap {
            entries: Keyed::new(alloc),
        }
    }

    /// The keys with their answers, in the order in which they came.
    pub fn entries(&self) -> &[(K, T)]
        ensures { result.now ≡ self.now }
    {
        self.entries.entries()
    }

    /// Says the answer for a key, unless one is said already. Where memory is refused the map is unchanged.
    pub fn insert(&mut self, key: K, answer: T) -> Result<(), AllocError>
        ensures ok { OnOk result (self.new ≡ with_first_by K.eq self.old key answer) }
        ensures err { OnErr result (self.new ≡ self.old) }
    {
        if self.get(key).is_none() {
            self.entries.insert(key, key, answer)?;
        }
        Ok(())
    }

    /// The answer for the key.
    pub fn get(&self, key: K) -> Option<T>
        ensures { result ≡ found_by K.eq self.now key }
    {
        let (_, answer) = self.entries.find(&key)?;
        Some(answer)
    }
}

//! Entries by key, in the order in which they came.

ghost use Rattle.std.specs.Prelude.{◌≡◌, ◌<◌, IfSome, OnErr, OnOk, Some, [], length, option_map, slice_get};
ghost use Rattle.std.specs.List.{position_or_len};
ghost use Rattle.std.specs.Map.{keys_of, lookup};
ghost use Rattle.indexmap.specs.IndexMap.{insert_entry};
ghost use Rattle.hir_store.specs.Keyed.{written};

use std::alloc::{AllocError, Global};
use std::collections::BTreeMap;
use std::marker::Model;

/// Entries by key, in the order in which they came. Where the entry of a key stands is found by the order of keys: whoever picks the
/// keys can't make it slow.
pub struct Keyed<K: Ord, T> {
    entries: Vec<(K, T)>,
    places: BTreeMap<K, usize>,
}

impl<K: Ord + Drop, T: Drop> Drop for Keyed<K, T> {
    fn drop(self) {
        let Keyed {
            entries: _,
            places: _,
        } = self;
    }
}

impl<K: Ord, T> Model for Keyed<K, T> {
    ghost use Rattle.std.specs.Prelude.{List};
    ghost use Rattle.std.specs.Coded.{coded×, coded_list};
    ghost use Rattle.hir_store.specs.Keyed.{Placed};

    ghost Value = { List (K × T) };

    ghost coded = { coded_list (coded× K.code T.code) };

    ghost view = { λ m. m.entries.items };

    ghost invariant = { λ m. Placed K.cmp m.entries.items m.places.entries };
}

/// Puts a value at a place, whose key stays.
fn write<K, T: Copy>(entries: &mut Vec<(K, T)>, place: usize, value: T)
    requires { place < length entries.old.items }
    ensures { entries.new.items ≡ written entries.old.items place value }
{
    let (_, old) = &mut entries[place];
    *old = value;
}

impl<K: Ord + Drop, T: Copy> Keyed<K, T> {
    /// No entries. It takes no memory.
    pub fn new(alloc: Global) -> Keyed<K, T>
        ensures { result ≡ [] }
    {
        Keyed {
            entries: Vec::new(alloc),
            places: BTreeMap::new(alloc),
        }
    }

    /// How many there are.
    pub fn len(&self) -> usize
        ensures { result ≡ length self.now }
    {
        self.entries.len()
    }

    /// The entries in the order in which they came.
    pub fn entries(&self) -> &[(K, T)]
        ensures { result.now ≡ self.now }
    {
        self.entries.as_slice()
    }

    /// The number of the key's entry, from 0 in the order in which they came, and its value.
    pub fn find(&self, key: &K) -> Option<(usize, T)>
        ensures value { option_map (λ found. found.1) result ≡ lookup (K.eq key.now) self.now }
        ensures number { IfSome result (λ found. found.0 ≡ position_or_len (K.eq key.now) (keys_of self.now)) }
        ensures known { IfSome result (λ found. found.0 < length self.now) }
    {
        let number = *self.places.get(key)?;
        let (_, value) = self.entries.get(number)?;
        Some((number, *value))
    }

    /// The entry with this number.
    pub fn get_index(&self, number: usize) -> Option<(&K, &T)>
        ensures { option_map (λ e. (e.0.now, e.1.now)) result ≡ slice_get self.now number }
    {
        let (key, value) = self.entries.get(number)?;
        Some((key, value))
    }

    /// Says the value of a key, which is handed twice. A key that is there keeps its place, and a new one comes last. Where memory is
    /// refused nothing changes.
    pub fn insert(&mut self, key: K, same: K, value: T) -> Result<(), AllocError>
        requires { same ≡ key }
        ensures ok { OnOk result (self.new ≡ insert_entry K.eq self.old key value) }
        ensures err { OnErr result (self.new ≡ self.old) }
    {
        self.entries.reserve(1)?;
        if let Some(place) = self.places.insert(same, self.entries.len())? {
            self.places.insert(key, place)?;
            write(&mut self.entries, place, value);
            return Ok(());
        }
        self.entries.push_reserved((key, value));
        Ok(())
    }
}

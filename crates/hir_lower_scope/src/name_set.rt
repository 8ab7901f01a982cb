//! Sets of names in the order in which they are first mentioned.

ghost use Rattle.std.specs.Prelude.{◌≡◌, [], OnErr, OnOk, length, take};
ghost use Rattle.hir_lower_scope.specs.NameSets.{has_name, with_name};

use hir_store::name::Name;
use indexmap::IndexSet;
use std::alloc::{AllocError, Global};
use std::hash::{BuildHasher, DefaultHasher, Hasher};
use std::marker::Model;

/// Makes hashers that were fed a key. Who doesn't know the key can't choose names that collide.
#[derive(Clone, Copy)]
pub struct NameKeys {
    fed: DefaultHasher,
}

impl NameKeys {
    /// Keys of hashers that are fed this key first.
    pub fn new(key: u128) -> NameKeys {
        let mut fed = DefaultHasher::new();
        fed.write_u128(key);
        NameKeys { fed }
    }
}

impl BuildHasher for NameKeys {
    type Hasher = DefaultHasher;

    ghost build_hasher = { λ keys. keys.fed };

    fn build_hasher(&self) -> DefaultHasher {
        self.fed
    }
}

/// Names, each once, in the order in which they came first. Contracts see the list of them: how they are hashed tells nothing.
#[derive(Drop)]
pub struct NameSet {
    names: IndexSet<Name, NameKeys>,
}

impl Model for NameSet {
    ghost use Rattle.std.specs.Prelude.{List};
    ghost use Rattle.std.specs.Coded.{coded_list};
    ghost use Rattle.hir_store.specs.contracts.name.Name as name;
    ghost use Rattle.hir_store.specs.declared.name.Name.{Name as StoredName};

    ghost Value = { List StoredName };

    ghost coded = { coded_list name.the_row.coded };

    ghost view = { λ it. it.names.keys };
}

impl NameSet {
    /// No names. It takes no memory.
    pub fn new(alloc: Global, keys: NameKeys) -> NameSet
        ensures { result ≡ [] }
    {
        NameSet {
            names: IndexSet::with_hasher(alloc, keys),
        }
    }

    /// Puts a copy of the name behind those that there are, if it is none of them. Where memory is refused nothing changes.
    #[tactic(auto, using(crate::proofs::NameSets::inserts))]
    pub fn insert(&mut self, name: &Name) -> Result<(), AllocError>
        ensures ok { OnOk result (self.new ≡ with_name self.old name.now) }
        ensures err { OnErr result (self.new ≡ self.old) }
    {
        self.names.insert(name.clone()?)?;
        Ok(())
    }

    /// Whether the name is one of them.
    #[tactic(auto, using(crate::proofs::NameSets::holds))]
    pub fn contains(&self, name: &Name) -> bool
        ensures { result ≡ has_name self.now name.now }
    {
        self.names.contains(name)
    }

    /// The first names stay, as many as this says. It takes the time of those that go.
    pub fn truncate(&mut self, len: usize)
        ensures { self.new ≡ take len self.old }
    {
        self.names.truncate(len);
    }

    /// How many they are.
    pub fn len(&self) -> usize
        ensures { result ≡ length self.now }
    {
        self.names.len()
    }

    /// The names in their order.
    pub fn as_slice(&self) -> &[Name]
        ensures { result.now ≡ self.now }
    {
        self.names.as_slice()
    }
}

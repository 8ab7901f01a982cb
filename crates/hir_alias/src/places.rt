//! Places of lifetime parameters by name.

ghost use Rattle.std.specs.Prelude.{◌≡◌, [], IfOk};
ghost use Rattle.hir_alias.specs.Placing.{place_of_name, with_first};
ghost use Rattle.hir_alias.specs.Reaching.{place_of};
ghost use Rattle.hir_store.specs.declared.name.Name.{Name as NameValue};

use hir_store::generics::LifetimeParamData;
use hir_store::name::Name;
use std::alloc::{AllocError, Global};
use std::collections::BTreeMap;
use std::marker::Model;

/// Places by name, in the order of the names: whoever picks the names can't make it slow. The first place that is said of a name
/// counts.
pub struct Places {
    entries: BTreeMap<Name, usize>,
}

impl Drop for Places {
    fn drop(self) {
        let Places { entries: _ } = self;
    }
}

impl Model for Places {
    ghost use Rattle.std.specs.Prelude.{List, ℕ};
    ghost use Rattle.hir_store.specs.declared.name.Name.{Name as NameValue};
    ghost use Rattle.std.specs.Coded.{codes};

    ghost Value = { List (NameValue × ℕ) };

    ghost coded = { Prim.hlevel codes };

    ghost view = { λ p. p.entries.entries };
}

impl Places {
    /// No places yet. It takes no memory.
    pub fn new(alloc: Global) -> Places
        ensures { result ≡ [] }
    {
        Places {
            entries: BTreeMap::new(alloc),
        }
    }

    /// Says the place of a name, unless one is said already.
    fn insert(&mut self, name: &Name, at: usize) -> Result<(), AllocError>
        ensures { IfOk result (λ _. self.new ≡ with_first self.old name.now at) }
    {
        if self.get(name).is_none() {
            self.entries.insert(name.clone()?, at)?;
        }
        Ok(())
    }

    /// The place that is said of the name.
    pub fn get(&self, name: &Name) -> Option<usize>
        ensures { result ≡ place_of_name self.now name.now }
    {
        self.entries.get(name).copied()
    }

    /// The places of the parameters, of each name that of the first.
    pub fn of(alloc: Global, params: &[LifetimeParamData]) -> Result<Places, AllocError>
        ensures { IfOk result (λ places. (name : NameValue) → place_of_name places name ≡ place_of params.now name) }
    {
        let mut done = Places::new(alloc);
        let mut at: usize = 0;
        for one in params {
            done.insert(&one.name, at)?;
            at = at + 1;
        }
        Ok(done)
    }
}

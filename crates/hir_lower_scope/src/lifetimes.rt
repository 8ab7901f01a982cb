//! The lifetimes that are named, by where they stand.

ghost use Rattle.std.specs.Prelude.{◌≡◌, OnOk};
ghost use Rattle.hir_lower_scope.specs.NameSets.{none_named, tracked};

use crate::name_set::{NameKeys, NameSet};
use hir_env::ctx::LifetimeScope;
use hir_store::name::Name;
use std::alloc::{AllocError, Global};
use std::fmt::{self, Debug, Formatter, Write};

/// The names of lifetimes by where they stand: in bounds, in arguments, which constrain them, and in what is returned, each once where it
/// stands so, in the order in which they are first mentioned; and where a lifetime stands that no part of a tree places: nowhere.
#[derive(Drop)]
pub struct NamedLifetimeStore {
    pub where_clause: NameSet,
    pub constrained_by_input: NameSet,
    pub output: NameSet,
    pub scope: LifetimeScope,
}

impl NamedLifetimeStore {
    /// None is named. It takes no memory.
    pub fn new(alloc: Global, keys: NameKeys) -> NamedLifetimeStore
        ensures { result ≡ none_named }
    {
        NamedLifetimeStore {
            where_clause: NameSet::new(alloc, keys),
            constrained_by_input: NameSet::new(alloc, keys),
            output: NameSet::new(alloc, keys),
            scope: LifetimeScope::Nowhere,
        }
    }

    /// Notes a name by where it stands. In a projection of an argument it counts nowhere.
    #[inline(never)]
    pub fn track(&mut self, scope: LifetimeScope, name: &Name) -> Result<(), AllocError>
        ensures { OnOk result (self.new ≡ tracked scope name.now self.old) }
    {
        match scope {
            LifetimeScope::Nowhere => Ok(()),
            LifetimeScope::Bound => self.where_clause.insert(name),
            LifetimeScope::Input => self.constrained_by_input.insert(name),
            LifetimeScope::Projection => Ok(()),
            LifetimeScope::Output => self.output.insert(name),
        }
    }
}

/// A name is its text between quotes, or what it is in place of one.
#[derive(Clone, Copy)]
struct ShownName<'a>(&'a Name);

impl Debug for ShownName<'_> {
    fn fmt<W: Write>(&self, f: &mut Formatter<W>) -> fmt::Result {
        match self.0 {
            Name::Text(text) => text.as_str().fmt(f),
            Name::Missing => f.write_str("Missing"),
            Name::Generated(number) => f.debug_tuple("Generated").field(number).finish(),
        }
    }
}

impl Debug for NameSet {
    fn fmt<W: Write>(&self, f: &mut Formatter<W>) -> fmt::Result {
        let mut out = f.debug_set();
        for name in self.as_slice() {
            out.entry(&ShownName(name));
        }
        out.finish()
    }
}

#[derive(Clone, Copy)]
struct ShownScope(LifetimeScope);

impl Debug for ShownScope {
    fn fmt<W: Write>(&self, f: &mut Formatter<W>) -> fmt::Result {
        f.write_str(match self.0 {
            LifetimeScope::Nowhere => "Nowhere",
            LifetimeScope::Bound => "Bound",
            LifetimeScope::Input => "Input",
            LifetimeScope::Projection => "Projection",
            LifetimeScope::Output => "Output",
        })
    }
}

impl Debug for NamedLifetimeStore {
    fn fmt<W: Write>(&self, f: &mut Formatter<W>) -> fmt::Result {
        f.debug_struct("NamedLifetimeStore")
            .field("where_clause", &self.where_clause)
            .field("constrained_by_input", &self.constrained_by_input)
            .field("output", &self.output)
            .field("scope", &ShownScope(self.scope))
            .finish()
    }
}

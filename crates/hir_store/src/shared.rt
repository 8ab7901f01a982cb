//! Lists of names with several owners.

ghost use Rattle.std.specs.Prelude.{◌≡◌, IfOk};

use crate::name::Name;
use hir_base::Seq;
use std::alloc::{AllocError, Global};
use std::marker::Model;
use std::sync::Arc;

/// Names that several predicates have together, and that contracts see as a list. A copy is one owner more: it takes no memory.
pub struct SharedNames {
    names: Arc<Seq<Name>, Global>,
}

impl Drop for SharedNames {
    fn drop(self) {
        let SharedNames { names: _ } = self;
    }
}

impl Model for SharedNames {
    ghost use Rattle.std.specs.Prelude.{List};
    ghost use Rattle.std.specs.Arc.{arc_value};
    ghost use Rattle.hir_store.specs.declared.name.Name.{Name};

    ghost Value = { List Name };

    ghost view = { λ shared. arc_value shared.names };
}

impl Clone for SharedNames {
    ghost is_clone = { λ names copy. copy ≡ names };

    fn clone(&self) -> Result<SharedNames, AllocError> {
        let names = self.names.clone()?;
        Ok(SharedNames { names })
    }
}

impl SharedNames {
    /// These names, with one owner so far. Where memory is refused they are dropped.
    pub fn new(alloc: Global, names: Seq<Name>) -> Result<SharedNames, AllocError>
        ensures { IfOk result (λ shared. shared ≡ names) }
    {
        match Arc::new(alloc, names) {
            Ok(names) => Ok(SharedNames { names }),
            Err(_) => Err(AllocError),
        }
    }

    /// The names.
    pub fn as_slice(&self) -> &[Name]
        ensures { result.now ≡ self.now }
    {
        self.names.as_slice()
    }
}

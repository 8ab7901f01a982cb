//! What is in scope at a place of a walk, each binding found by its name and hygiene.

ghost use Rattle.std.specs.Prelude.{◌≡◌, ◌∷◌, [], IfOk, drop};
ghost use Rattle.hir_lower_scope.specs.ScopeRibs.{label_rib, macro_rib, number_found, search, sought_first};

use hir_env::env::LowerEnv;
use hir_lower_scope::stacks::LabelStacks;
use hir_store::ids::{BindingId, HygieneId, LabelId, MacroDefId};
use hir_store::name::Name;
use hir_store::pat::Binding;
use std::alloc::{AllocError, Global};
use std::marker::Model;

/// The bindings and the definitions of macros in scope, one in the other. A binding is found as a label is, so it stands among labels,
/// under its own number. Contracts see one list, innermost first.
pub(crate) struct NameStacks {
    labels: LabelStacks,
}

impl Drop for NameStacks {
    fn drop(self) {
        let NameStacks { labels: _ } = self;
    }
}

impl Model for NameStacks {
    ghost use Rattle.std.specs.Prelude.{List};
    ghost use Rattle.hir_store.specs.declared.ids.BindingId.{BindingId};
    ghost use Rattle.hir_lower_scope.specs.ScopeRibs.{Rib, map_ribs};
    ghost use Rattle.hir_names.specs.Reads.{binding_of};

    ghost Value = { List (Rib BindingId) };

    ghost view = { λ s. map_ribs binding_of s.labels };
}

impl NameStacks {
    /// Nothing is in scope.
    pub fn new(alloc: Global) -> NameStacks
        ensures { result ≡ [] }
    {
        NameStacks {
            labels: LabelStacks::new(alloc),
        }
    }

    /// Brings a binding in scope, inside all that is in scope.
    pub fn enter_binding(&mut self, id: BindingId, binding: &Binding) -> Result<(), AllocError>
        ensures { IfOk result (λ _. self.new ≡ label_rib binding.now.name binding.now.hygiene id ∷ self.old) }
    {
        let name = binding.name.clone()?;
        self.labels
            .enter_label(name, binding.hygiene, LabelId(id.0))?;
        Ok(())
    }

    /// From here on a macro is defined.
    pub fn enter_macro(&mut self, def: MacroDefId) -> Result<(), AllocError>
        ensures { IfOk result (λ _. self.new ≡ macro_rib def ∷ self.old) }
    {
        self.labels.enter_macro(def)?;
        Ok(())
    }

    /// Leaves what was entered last, if anything is in scope.
    #[tactic(auto, using(crate::proofs::StackLemmas::rest_dropped))]
    pub fn leave(&mut self)
        ensures { self.new ≡ drop 1 self.old }
    {
        self.labels.leave();
    }

    /// The binding that a name of this hygiene means.
    #[tactic(auto, using(crate::proofs::StackLemmas::found_binding, crate::proofs::StackLemmas::no_binding))]
    pub fn find<E: LowerEnv>(&self, env: &E, name: &Name, hygiene: HygieneId) -> Option<BindingId>
        ensures { result ≡ number_found (search (E.answers env.now).contexts name.now (sought_first hygiene) self.now) }
    {
        match self.labels.find(env, name, hygiene) {
            Ok(label) => Some(BindingId(label.0)),
            Err(_) => None,
        }
    }
}

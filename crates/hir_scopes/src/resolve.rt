//! Which binding a name means in a scope.

ghost use Rattle.std.specs.Prelude.{◌≡◌, ◌++◌, List};
ghost use Rattle.hir_env.specs.Answers.{Contexts};
ghost use Rattle.hir_lower_scope.specs.ScopeRibs.{Rib, past_macro, search, sought_first};
ghost use Rattle.hir_scopes.specs.Chains.{IsChain};
ghost use Rattle.hir_scopes.specs.Lookup.{is_entry_for, or_else, past_def, sought_of};
ghost use Rattle.hir_store.specs.declared.ids.BindingId.{BindingId as Id};
ghost use Rattle.spec_scopes.specs.Scopes.{Scopes, binding_ribs, read_of};

use crate::scope::{ExprScopes, ScopeId};
use hir_env::env::LowerEnv;
use hir_store::ids::{BindingId, CtxId, HygieneId, MacroDefId};
use hir_store::name::Name;
use hir_store::store::ExpressionStore;

/// The hygiene that a binding is to have, and the context that this is of.
#[derive(Clone, Copy)]
struct Wanted {
    hygiene: HygieneId,
    context: Option<CtxId>,
}

fn first_wanted(hygiene: HygieneId) -> Wanted
    ensures { sought_of result ≡ sought_first hygiene }
{
    if hygiene == HygieneId::ROOT {
        return Wanted {
            hygiene,
            context: None,
        };
    }
    Wanted {
        hygiene,
        context: Some(CtxId(hygiene.0)),
    }
}

/// What is sought behind the definition of a macro: if the context came from it, the hygiene of the context that it was called in.
fn past_macro_def<E: LowerEnv>(env: &E, wanted: Wanted, def: MacroDefId) -> Wanted
    ensures { sought_of result ≡ past_macro (E.answers env.now).contexts def (sought_of wanted) wanted.context }
{
    let Some(context) = wanted.context else {
        return wanted;
    };
    let Some(outer) = env.outer_macro(context) else {
        return wanted;
    };
    if outer.def != def {
        return wanted;
    }
    let parent = env.context_parent(context);
    Wanted {
        hygiene: env.opaque(parent),
        context: Some(parent),
    }
}

/// What is sought behind a scope, where this macro is defined in front of it.
fn past_scope<E: LowerEnv>(env: &E, wanted: Wanted, def: Option<MacroDefId>) -> Wanted
    ensures { sought_of result ≡ past_def (E.answers env.now).contexts (sought_of wanted) def }
{
    match def {
        None => wanted,
        Some(def) => past_macro_def(env, wanted, def),
    }
}

/// Whether the binding has this name and the hygiene that is sought.
fn is_entry(store: &ExpressionStore, id: BindingId, name: &Name, wanted: Wanted) -> bool
    ensures { result ≡ is_entry_for store.now name.now (sought_of wanted) id }
{
    match store.binding(id) {
        None => false,
        Some(binding) => binding.name.is_same(name) && binding.hygiene == wanted.hygiene,
    }
}

/// The first of these bindings with this name and the hygiene that is sought.
fn find_entry(
    store: &ExpressionStore,
    mut left: &[BindingId],
    name: &Name,
    wanted: Wanted,
) -> Option<BindingId>
    ensures { (contexts : Contexts) (rs : List (Rib Id))
        → search contexts name.now (sought_of wanted) (binding_ribs store.now left.entry.now ++ rs)
        ≡ or_else result (search contexts name.now (sought_of wanted) rs) }
{
    while let [id, rest @ ..] = left {
        if is_entry(store, *id, name, wanted) {
            return Some(*id);
        }
        left = rest;
    }
    None
}

impl ExprScopes {
    /// The binding that a name of this hygiene means in a scope, outward: the first one of its name and hygiene. Behind the definition of
    /// the macro that the name came from, the hygiene of the context in which the macro was called is sought.
    pub fn resolve_name_in_scope<E: LowerEnv>(
        &self,
        env: &E,
        store: &ExpressionStore,
        scope: Option<ScopeId>,
        name: &Name,
        hygiene: HygieneId,
    ) -> Option<BindingId>
        ensures { (ss : Scopes) → IsChain self.now scope ss
            → result ≡ read_of store.now (E.answers env.now).contexts name.now hygiene ss }
    {
        let mut next = scope;
        let mut wanted = first_wanted(hygiene);
        while let Some(id) = next {
            if let Some(found) = find_entry(store, self.entries(id), name, wanted) {
                return Some(found);
            }
            wanted = past_scope(env, wanted, self.macro_def(id));
            next = self.parent(id);
        }
        None
    }
}

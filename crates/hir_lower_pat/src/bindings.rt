//! The bindings of one top pattern.

ghost use Rattle.std.specs.Prelude.{◌≡◌, ◌<◌, ◌≤◌, ◌+◌, ◌++◌, ◌∷◌, [], None, IfSome, OnOk, Ok, length, option_map};
ghost use Rattle.hir_binding.specs.Bindings.{count_with, depth, name_count, tracked};
ghost use Rattle.hir_store.specs.Range.{HasBindingId, HasNone};
ghost use Rattle.hir_store.specs.Stored.{Stored};
ghost use Rattle.hir_lower_builder.specs.Lowering.{Lowers};
ghost use Rattle.hir_lower_builder.specs.Pats as spec;
ghost use Rattle.hir_lower_builder.specs.Pats.{binding_of, no_names, track_entered, track_left, track_next, track_use, number_of};
ghost use Rattle.hir_lower_pat.specs.Bindings.{HasNames, LowersNamed, table_of};

use hir_binding::binding::BindingAnnotation;
use hir_binding::list::BindingList;
use hir_lower_builder::builder::BodyBuilder;
use hir_lower_builder::store_sink::StoreSink;
use hir_store::error::StoreError;
use hir_store::hir::Binding;
use hir_store::ids::{BindingId, HygieneId};
use hir_store::keyed::Keyed;
use hir_store::name::Name;
use std::alloc::{AllocError, Global};

/// The bindings of the names of one top pattern, in the order of first use, and what is noted of each. A name with another hygiene
/// is another name; its place in the order is its number. After a refused call they may be dropped, and nothing is said of them.
#[derive(Drop)]
pub struct Bindings {
    ids: Keyed<(Name, HygieneId), BindingId>,
    list: BindingList,
}

impl Bindings {
    /// No name has a use. It takes no memory.
    #[tactic(auto, using(crate::proofs::NameLemmas::all_tracked))]
    pub fn new(alloc: Global) -> Bindings
        ensures table { table_of result ≡ no_names }
        ensures names { (s : Stored) → HasNames s result }
    {
        Bindings {
            ids: Keyed::new(alloc),
            list: BindingList::new(alloc),
        }
    }

    /// The number of a name and its binding, where it has a use.
    fn find(&self, key: &(Name, HygieneId)) -> Option<(usize, BindingId)>
        ensures binding { option_map (λ found. found.1) result ≡ binding_of key.now (table_of self.now) }
        ensures number { IfSome result (λ found. found.0 ≡ number_of key.now (table_of self.now)) }
        ensures known { IfSome result (λ found. found.0 < length self.now.ids) }
    {
        self.ids.find(key)
    }

    /// Notes a use of the name with this number.
    #[tactic(auto, using(crate::proofs::NameLemmas::all_tracked_on))]
    fn track(&mut self, number: usize, mode: BindingAnnotation) -> Result<(), AllocError>
        requires { number ≤ name_count self.old.list }
        ensures ids { self.new.ids ≡ self.old.ids }
        ensures tracked { OnOk result (tracked self.new.list ≡ track_use number mode (tracked self.old.list)) }
        ensures count { OnOk result (name_count self.new.list ≡ count_with number (name_count self.old.list)) }
        ensures depth { depth self.new.list ≡ depth self.old.list }
    {
        self.list.use_name(number, mode)
    }

    /// The binding of a name that has none is this one from now on.
    fn insert(&mut self, key: (Name, HygieneId), id: BindingId) -> Result<(), AllocError>
        requires { binding_of key (table_of self.old) ≡ None }
        ensures ids { OnOk result (self.new.ids ≡ self.old.ids ++ (key, id) ∷ []) }
        ensures list { self.new.list ≡ self.old.list }
    {
        let same = (key.0.clone()?, key.1);
        self.ids.insert(key, same, id)
    }

    /// The first use of a name makes its binding.
    #[tactic(auto, using(crate::proofs::NameLemmas::next_counted, crate::proofs::NameLemmas::past_more))]
    fn first_use<I: StoreSink>(
        &mut self,
        state: &mut BodyBuilder<I>,
        key: (Name, HygieneId),
        mode: BindingAnnotation,
    ) -> Result<BindingId, StoreError>
        requires new { binding_of key (table_of self.old) ≡ None }
        requires names { HasNames state.old.stored self.old }
        ensures { LowersNamed HasBindingId
            (λ t. spec.use_of_known (record { name = key.0; hygiene = key.1; mode = mode }) t None)
            self.old state.old result self.new state.new }
    {
        let number = self.ids.len();
        let id = state.alloc_binding(Binding {
            name: key.0.clone()?,
            mode,
            hygiene: key.1,
            problems: None,
        })?;
        self.track(number, mode)?;
        self.insert(key, id)?;
        Ok(id)
    }

    /// The binding of a name, made where this is its first use.
    #[tactic(auto, using(crate::proofs::NameLemmas::known_names), unfolding(hir_lower_builder::specs::Pats::use_name))]
    pub fn use_name<I: StoreSink>(
        &mut self,
        state: &mut BodyBuilder<I>,
        name: Name,
        hygiene: HygieneId,
        mode: BindingAnnotation,
    ) -> Result<BindingId, StoreError>
        requires { HasNames state.old.stored self.old }
        ensures { LowersNamed HasBindingId (spec.use_name (record { name = name; hygiene = hygiene; mode = mode }))
            self.old state.old result self.new state.new }
    {
        let key = (name, hygiene);
        match self.find(&key) {
            Some((number, id)) => {
                self.track(number, mode)?;
                Ok(id)
            }
            None => self.first_use(state, key, mode),
        }
    }

    /// Into the first alternative of an or-pattern.
    #[tactic(auto, using(crate::proofs::NameLemmas::all_tracked_on))]
    pub fn enter_or(&mut self) -> Result<(), AllocError>
        ensures ids { self.new.ids ≡ self.old.ids }
        ensures tracked { OnOk result (tracked self.new.list ≡ track_entered (tracked self.old.list)) }
        ensures count { name_count self.new.list ≡ name_count self.old.list }
        ensures depth { OnOk result (depth self.new.list ≡ depth self.old.list + 1) }
    {
        self.list.begin_or()
    }

    /// From one alternative to the next.
    #[tactic(auto, using(crate::proofs::NameLemmas::all_tracked))]
    pub fn next_alternative(&mut self)
        ensures ids { self.new.ids ≡ self.old.ids }
        ensures tracked { tracked self.new.list ≡ track_next (tracked self.old.list) }
        ensures count { name_count self.new.list ≡ name_count self.old.list }
        ensures depth { depth self.new.list ≡ depth self.old.list }
    {
        self.list.next_alternative();
    }

    /// Out of the last alternative of an or-pattern.
    #[tactic(auto, using(crate::proofs::NameLemmas::all_tracked_on))]
    pub fn leave_or(&mut self) -> Result<(), AllocError>
        requires { 0 < depth self.old.list }
        ensures ids { self.new.ids ≡ self.old.ids }
        ensures tracked { OnOk result (tracked self.new.list ≡ track_left (tracked self.old.list)) }
        ensures count { name_count self.new.list ≡ name_count self.old.list }
        ensures depth { depth self.new.list + 1 ≡ depth self.old.list }
    {
        self.list.end_or()
    }

    /// Writes the problem that each binding shows. It takes no memory.
    #[tactic(auto, using(crate::proofs::NameLemmas::dropped_entries), unfolding(hir_lower_builder::specs::Pats::settle))]
    pub fn settle<I: StoreSink>(&self, state: &mut BodyBuilder<I>)
        requires { HasNames state.old.stored self.now }
        ensures { Lowers HasNone (spec.settle (table_of self.now)) state.old (Ok tt) state.new }
    {
        for number in 0..self.ids.len() {
            if let Some((_, id)) = self.ids.get_index(number) {
                state.set_problem(*id, self.list.problem(number));
            }
        }
    }
}

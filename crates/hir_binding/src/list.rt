//! The bindings of one top pattern.

ghost use Rattle.std.specs.Prelude.{◌≡◌, ◌≢◌, ◌≤◌, ◌<◌, ◌+◌, ℕ, Some, nat_eq, vec_len, length, slice_get, OnOk, OnErr, option_map};
ghost use Rattle.hir_binding.specs.declared.binding.Mark.TheVariants.{Unseen};
ghost use Rattle.hir_binding.specs.declared.seen.SeenNames.{SeenNames};
ghost use Rattle.hir_binding.specs.Seen.{mark_of};
ghost use Rattle.hir_binding.specs.Entries.{ended_entry};

use crate::binding::{BindingAnnotation, BindingProblems, Mark};
use crate::seen::SeenNames;
use std::alloc::{AllocError, Global};
use std::mem;

/// What is known of a name that has a use: the mode of the first one, and the problem that was found last.
#[derive(Clone, Copy)]
pub struct Entry {
    pub mode: BindingAnnotation,
    pub problem: Option<BindingProblems>,
}

/// The bindings of one top pattern. A name with its hygiene is the number that the caller's table gives it, in the order of first
/// use. A call answers an error where memory is refused: then nothing is said of what the list notes, and it may be dropped.
pub struct BindingList {
    entries: Vec<Entry>,
    /// The set of the innermost or-pattern that is open, else that of the top pattern.
    here: SeenNames,
    /// The sets around it, the innermost last.
    outer: Vec<SeenNames>,
    ghost known_here: { (k : ℕ) → mark_of here k ≢ Unseen → k < vec_len entries },
    ghost known_around: { (i : ℕ) (s : SeenNames) (k : ℕ) → slice_get outer.items i ≡ Some s → mark_of s k ≢ Unseen → k < vec_len entries },
}

impl Drop for BindingList {
    fn drop(self) {
        let BindingList {
            entries: _,
            here: _,
            outer: _,
        } = self;
    }
}

impl BindingList {
    ghost use Rattle.hir_binding.specs.Uses.{Uses, name_use};
    ghost use Rattle.hir_binding.specs.Rule.{Shows};
    ghost use Rattle.hir_binding.specs.Steps.{over_all, over_recent, no_use, enter_first, next, left, after, shown};
    ghost use Rattle.hir_binding.specs.Bindings.{tracked, name_count, count_with, depth, is_seen, problem_seen_at, seen_at, moded_at};

    /// No name has a use, and no or-pattern is open.
    pub fn new(alloc: Global) -> BindingList
        ensures tracked { (k : ℕ) → tracked result k ≡ no_use }
        ensures count { name_count result ≡ 0 }
        ensures depth { depth result ≡ 0 }
    {
        BindingList {
            entries: Vec::new(alloc),
            here: SeenNames::new(alloc),
            outer: Vec::new(alloc),
        }
    }

    /// Notes the mode of a use.
    fn track_mode(&mut self, name: usize, mode: BindingAnnotation) -> Result<(), AllocError>
        requires { name ≤ name_count self.old }
        ensures tracked { OnOk result ((k : ℕ) → tracked self.new k ≡ moded_at (nat_eq name k) mode (tracked self.old k)) }
        ensures count { OnOk result (name_count self.new ≡ count_with name (name_count self.old)) }
        ensures known { OnOk result (name < name_count self.new) }
        ensures depth { depth self.new ≡ depth self.old }
    {
        if name == self.entries.len() {
            self.entries.push(Entry {
                mode,
                problem: None,
            })?;
        } else if !self.entries[name].mode.is_same(mode) {
            self.entries[name].problem = Some(BindingProblems::BoundInconsistently);
        }
        Ok(())
    }

    /// Notes what a use in the set at hand shows, whatever its mode.
    fn track_problem(&mut self, name: usize)
        requires { name < name_count self.old }
        ensures tracked { (k : ℕ) → tracked self.new k ≡ problem_seen_at (nat_eq name k) (tracked self.old k) }
        ensures count { name_count self.new ≡ name_count self.old }
        ensures depth { depth self.new ≡ depth self.old }
    {
        match self.here.mark_of(name) {
            Mark::Marked => {
                self.entries[name].problem = Some(BindingProblems::BoundMoreThanOnce);
            }
            Mark::Unseen => {
                if self.here.is_later() {
                    self.entries[name].problem = Some(BindingProblems::NotBoundAcrossAll);
                }
            }
            Mark::Missing => {}
            Mark::Unmarked => {}
        }
    }

    /// Notes a use in the set at hand, whatever its mode.
    fn see(&mut self, name: usize) -> Result<(), AllocError>
        requires { name < name_count self.old }
        ensures tracked { OnOk result ((k : ℕ) → tracked self.new k ≡ seen_at (nat_eq name k) (tracked self.old k)) }
        ensures count { name_count self.new ≡ name_count self.old }
        ensures depth { depth self.new ≡ depth self.old }
    {
        self.track_problem(name);
        self.here.mark(name)
    }

    /// A use of the name with this number, in this mode. A name that had none takes the next number.
    pub fn use_name(&mut self, name: usize, mode: BindingAnnotation) -> Result<(), AllocError>
        requires { name ≤ name_count self.old }
        ensures tracked { OnOk result ((k : ℕ) → tracked self.new k ≡ after over_recent k (name_use name mode) (tracked self.old k)) }
        ensures count { OnOk result (name_count self.new ≡ count_with name (name_count self.old)) }
        ensures known { OnOk result (name < name_count self.new) }
        ensures depth { depth self.new ≡ depth self.old }
    {
        self.track_mode(name, mode)?;
        self.see(name)
    }

    /// Into the first alternative of an or-pattern.
    pub fn begin_or(&mut self) -> Result<(), AllocError>
        ensures tracked { OnOk result ((k : ℕ) → tracked self.new k ≡ enter_first (tracked self.old k)) }
        ensures count { name_count self.new ≡ name_count self.old }
        ensures depth { OnOk result (depth self.new ≡ depth self.old + 1) }
    {
        self.outer.reserve(1)?;
        let first = SeenNames::new(*self.entries.allocator());
        let around = mem::replace(&mut self.here, first);
        self.outer.push_reserved(around);
        Ok(())
    }

    /// From one alternative to the next.
    pub fn next_alternative(&mut self)
        ensures tracked { (k : ℕ) → tracked self.new k ≡ next over_recent (tracked self.old k) }
        ensures count { name_count self.new ≡ name_count self.old }
        ensures depth { depth self.new ≡ depth self.old }
    {
        end_alternative(self.entries.as_mut_slice(), &self.here);
        self.here.begin_alternative();
    }

    /// Closes the set of the innermost or-pattern, and answers it.
    fn close(&mut self) -> SeenNames
        requires { 0 < depth self.old }
        ensures tracked { (k : ℕ) → left over_recent (tracked self.old k) ≡ seen_at (is_seen (mark_of result k)) (tracked self.new k) }
        ensures known { (k : ℕ) → mark_of result k ≢ Unseen → k < name_count self.new }
        ensures count { name_count self.new ≡ name_count self.old }
        ensures depth { depth self.new + 1 ≡ depth self.old }
    {
        end_alternative(self.entries.as_mut_slice(), &self.here);
        let around = self.outer.take_last();
        mem::replace(&mut self.here, around)
    }

    /// Out of an or-pattern: a name of its set is one use in the set around it.
    pub fn end_or(&mut self) -> Result<(), AllocError>
        requires { 0 < depth self.old }
        ensures tracked { OnOk result ((k : ℕ) → tracked self.new k ≡ left over_recent (tracked self.old k)) }
        ensures count { name_count self.new ≡ name_count self.old }
        ensures depth { depth self.new + 1 ≡ depth self.old }
    {
        let names = self.close();
        for place in 0..names.place_count() {
            if let Some(name) = names.last_marked_at(place) {
                self.see(name)?;
            }
        }
        Ok(())
    }

    /// The problem that the binding shows. After a walk over a pattern it is none exactly where the binding is right, and else one
    /// that is true of it: of several the one that was found last.
    pub fn problem(&self, name: usize) -> Option<BindingProblems>
        requires { name < name_count self.now }
        ensures tracked { result ≡ (tracked self.now name).problem }
        ensures rule { (t : Uses) → tracked self.now name ≡ after over_recent name t no_use → Shows result name t }
        ensures last { (t : Uses) → tracked self.now name ≡ after over_recent name t no_use → result ≡ shown over_all name t }
    {
        let entry = &self.entries[name];
        entry.problem
    }
}

/// Ends an alternative: a later one leaves no name of its or-pattern unmarked. It goes over the names of the alternative before
/// alone, so each place of a set is visited once, however many alternatives there are: any other name that is left unmarked has
/// its problem since an earlier end.
#[tactic(auto, using(crate::proofs::Loops::entry_first, crate::proofs::Loops::entries_at_end))]
fn end_alternative(entries: &mut [Entry], names: &SeenNames)
    requires { (k : ℕ) → mark_of names.now k ≢ Unseen → k < length entries.old }
    ensures { (k : ℕ) → slice_get entries.new k ≡ option_map (ended_entry (mark_of names.now k)) (slice_get entries.old k) }
{
    for place in names.previous()..names.start() {
        if let Some(name) = names.last_marked_at(place) {
            entries[name].problem = Some(BindingProblems::NotBoundAcrossAll);
        }
    }
}

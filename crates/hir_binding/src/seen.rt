//! Sets of seen names.

ghost use Rattle.std.specs.Prelude.{◌≡◌, ◌≤◌, ◌<◌, ◌↔◌, ℕ, Some, nat_eq, vec_len, slice_get, OnOk, OnErr, false, true};
ghost use Rattle.std.specs.BTreeMap.{get};
ghost use Rattle.std.specs.Ordering.{nat_cmp};

use crate::binding::Mark;
use std::alloc::{AllocError, Global};
use std::collections::BTreeMap;

/// The names that a top pattern or an or-pattern has used so far. Those of the alternative at hand are marked.
pub struct SeenNames {
    /// The names as they were marked, in order.
    marked: Vec<usize>,
    /// Where the alternative before begins in `marked`.
    previous: usize,
    /// Where the alternative at hand begins.
    start: usize,
    /// Whether it is a later one.
    later: bool,
    /// Where each name was marked last. A document picks which names these are, so they are found by their order.
    last: BTreeMap<usize, usize>,
    ghost in_turn: { previous ≤ start },
    ghost begun: { start ≤ vec_len marked },
    ghost placed: { (k p : ℕ) → get nat_cmp last k ≡ Some p → slice_get marked.items p ≡ Some k },
}

impl Drop for SeenNames {
    fn drop(self) {
        let SeenNames {
            marked: _,
            previous: _,
            start: _,
            later: _,
            last: _,
        } = self;
    }
}

impl SeenNames {
    ghost use Rattle.hir_binding.specs.Steps.{unmark};
    ghost use Rattle.hir_binding.specs.Seen.{set_of, mark_of, marked_if, no_set};

    /// No name is seen, and the first alternative is at hand.
    pub fn new(alloc: Global) -> SeenNames
        ensures { (k : ℕ) → set_of result k ≡ no_set }
    {
        SeenNames {
            marked: Vec::new(alloc),
            previous: 0,
            start: 0,
            later: false,
            last: BTreeMap::new(alloc),
        }
    }

    /// Whether the name is seen, and which alternative used it last.
    pub fn mark_of(&self, name: usize) -> Mark
        ensures { result ≡ mark_of self.now name }
    {
        match self.last.get(&name) {
            None => Mark::Unseen,
            Some(place) => {
                if *place < self.previous {
                    Mark::Missing
                } else if *place < self.start {
                    Mark::Unmarked
                } else {
                    Mark::Marked
                }
            }
        }
    }

    /// Whether a later alternative is at hand.
    pub fn is_later(&self) -> bool
        ensures { result ≡ self.now.later }
    {
        self.later
    }

    /// Marks the name.
    #[tactic(auto, using(crate::proofs::Places::same_number))]
    pub fn mark(&mut self, name: usize) -> Result<(), AllocError>
        ensures ok { OnOk result ((k : ℕ) → set_of self.new k ≡ marked_if (nat_eq name k) (set_of self.old k)) }
        ensures err { OnErr result ((k : ℕ) → set_of self.new k ≡ set_of self.old k) }
    {
        let place = self.marked.len();
        self.marked.push(name)?;
        self.last.insert(name, place)?;
        Ok(())
    }

    /// Begins the next alternative. All marks go off by this, and none is visited.
    pub fn begin_alternative(&mut self)
        ensures { (k : ℕ) → set_of self.new k ≡ record { mark = unmark (mark_of self.old k); later = true } }
    {
        self.previous = self.start;
        self.start = self.marked.len();
        self.later = true;
    }

    /// Where the places of the alternative before begin.
    pub fn previous(&self) -> usize
        ensures value { result ≡ self.now.previous }
        ensures within { result ≤ self.now.start }
    {
        self.previous
    }

    /// Where they end.
    pub fn start(&self) -> usize
        ensures value { result ≡ self.now.start }
        ensures within { result ≤ vec_len self.now.marked }
    {
        self.start
    }

    /// How often a name was marked.
    pub fn place_count(&self) -> usize
        ensures { result ≡ vec_len self.now.marked }
    {
        self.marked.len()
    }

    /// The name that was marked at this place for the last time.
    pub fn last_marked_at(&self, place: usize) -> Option<usize>
        requires { place < vec_len self.now.marked }
        ensures { (k : ℕ) → (result ≡ Some k) ↔ (get nat_cmp self.now.last k ≡ Some place) }
    {
        let name = self.marked[place];
        match self.last.get(&name) {
            Some(last) if *last == place => Some(name),
            _ => None,
        }
    }
}

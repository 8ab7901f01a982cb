//! Which labels are open and which macros are defined around, each found by what a jump seeks; which borders and `try`s are open.

ghost use Rattle.std.specs.Prelude.{None, Some, IfOk, ◌≡◌, ◌+◌, ◌<◌, ◌^◌, [], ◌∷◌, OnOk, OnErr, length, reverse};
ghost use Rattle.hir_lower_scope.specs.ScopeRibs.{Rib, label_rib, try_rib, macro_rib, barrier_rib, innermost_try_rib};
ghost use Rattle.hir_lower_scope.specs.Ribs.{past_barrier, last_try, rib_at, is_label, is_outer, is_met, label_in};
ghost use Rattle.hir_lower_scope.specs.Stacks.{Grown, Known, number_of};
ghost use Rattle.hir_lower_scope.specs.Depths.{IsDeepest};
ghost use Rattle.hir_lower_scope.specs.Labels.{rest};
ghost use Rattle.hir_lower_scope.specs.Found.{try_of};

use crate::depths::{deeper, deepest};
use crate::labels::TryLabel;
use crate::looks::ProbeCount;
use hir_store::ids::{HygieneId, LabelId, MacroDefId};
use hir_store::name::Name;
use std::alloc::{AllocError, Global};
use std::collections::{BTreeMap, BTreeSet};
use std::marker::Model;

/// An open `try`. Its depth is how many scopes lie outside of it, here and below.
#[derive(Clone, Copy)]
pub struct OpenTry {
    pub depth: usize,
    pub label: LabelId,
    pub typed: bool,
}

/// What was opened: a label, with the number of its name, or something else.
#[derive(Clone, Copy)]
enum Opened {
    Label(usize, HygieneId, LabelId),
    Try(LabelId, bool),
    MacroDef(MacroDefId),
    Barrier,
}

/// What is open, one in the other. Beside it stand a number for each name, the depths of the labels by that number and hygiene, and the
/// depths of the macro definitions by macro, so that a search comes to those that it is for and to no other. Each `try` and each border has
/// a stack of its own. Contracts see one list, innermost first.
pub struct LabelStacks {
    opened: Vec<Opened>,
    names: BTreeMap<Name, usize>,
    labels: BTreeSet<((usize, HygieneId), usize)>,
    macros: BTreeSet<(MacroDefId, usize)>,
    tries: Vec<OpenTry>,
    barriers: Vec<usize>,
}

impl Drop for LabelStacks {
    fn drop(self) {
        let LabelStacks {
            opened: _,
            names: _,
            labels: _,
            macros: _,
            tries: _,
            barriers: _,
        } = self;
    }
}

impl Model for LabelStacks {
    ghost use Rattle.std.specs.Prelude.{List, reverse};
    ghost use Rattle.hir_store.specs.declared.ids.LabelId.{LabelId};
    ghost use Rattle.hir_lower_scope.specs.ScopeRibs.{Rib};
    ghost use Rattle.hir_lower_scope.specs.Stacks.{ribs_of, Sorted};

    ghost Value = { List (Rib LabelId) };

    ghost view = { λ s. ribs_of s.names.entries (reverse s.opened.items) };

    ghost invariant = { λ s. Sorted s.names.entries s.labels s.macros (reverse s.opened.items) (reverse s.tries.items)
        (reverse s.barriers.items) };
}

impl LabelStacks {
    /// Nothing is open. It takes no memory.
    pub fn new(alloc: Global) -> LabelStacks
        ensures { result ≡ [] }
    {
        LabelStacks {
            opened: Vec::new(alloc),
            names: BTreeMap::new(alloc),
            labels: BTreeSet::new(alloc),
            macros: BTreeSet::new(alloc),
            tries: Vec::new(alloc),
            barriers: Vec::new(alloc),
        }
    }

    /// Opens a label inside all that is open. Where memory is refused nothing changes, here and below.
    pub fn enter_label(
        &mut self,
        name: Name,
        hygiene: HygieneId,
        label: LabelId,
    ) -> Result<(), AllocError>
        ensures ok { OnOk result (self.new ≡ label_rib name hygiene label ∷ self.old) }
        ensures err { OnErr result (self.new ≡ self.old) }
    {
        self.opened.reserve(1)?;
        let number = number_for(&mut self.names, name)?;
        let depth = self.opened.len();
        self.labels.insert(((number, hygiene), depth))?;
        self.opened
            .push_reserved(Opened::Label(number, hygiene, label));
        Ok(())
    }

    /// Opens a `try` with this label inside all that is open.
    pub fn enter_try(&mut self, label: LabelId, typed: bool) -> Result<(), AllocError>
        ensures ok { OnOk result (self.new ≡ try_rib label typed ∷ self.old) }
        ensures err { OnErr result (self.new ≡ self.old) }
    {
        self.opened.reserve(1)?;
        let depth = self.opened.len();
        self.tries.push(OpenTry {
            depth,
            label,
            typed,
        })?;
        self.opened.push_reserved(Opened::Try(label, typed));
        Ok(())
    }

    /// The innermost `try`, where no border stands before it.
    pub fn find_try(&self) -> Option<TryLabel>
        ensures { try_of result ≡ innermost_try_rib self.now }
    {
        last_try(self.tries.as_slice(), self.barrier())
    }

    /// From here on a macro is defined.
    pub fn enter_macro(&mut self, def: MacroDefId) -> Result<(), AllocError>
        ensures ok { OnOk result (self.new ≡ macro_rib def ∷ self.old) }
        ensures err { OnErr result (self.new ≡ self.old) }
    {
        self.opened.reserve(1)?;
        let depth = self.opened.len();
        self.macros.insert((def, depth))?;
        self.opened.push_reserved(Opened::MacroDef(def));
        Ok(())
    }

    /// Enters a closure, a coroutine or a constant.
    pub fn enter_barrier(&mut self) -> Result<(), AllocError>
        ensures ok { OnOk result (self.new ≡ barrier_rib ∷ self.old) }
        ensures err { OnErr result (self.new ≡ self.old) }
    {
        self.opened.reserve(1)?;
        let depth = self.opened.len();
        self.barriers.push(depth + 1)?;
        self.opened.push_reserved(Opened::Barrier);
        Ok(())
    }

    /// Leaves what was entered last, where something is open.
    pub fn leave(&mut self)
        ensures { self.new ≡ rest self.old }
    {
        match self.opened.pop() {
            None => {}
            Some(Opened::Label(number, hygiene, _)) => {
                let _ = self.labels.remove(&((number, hygiene), self.opened.len()));
            }
            Some(Opened::Try(_, _)) => {
                let _ = self.tries.pop();
            }
            Some(Opened::MacroDef(def)) => {
                let _ = self.macros.remove(&(def, self.opened.len()));
            }
            Some(Opened::Barrier) => {
                let _ = self.barriers.pop();
            }
        }
    }

    /// One more than the depth of the innermost border, and 0 where there is none.
    pub fn barrier(&self) -> usize
        ensures { result ≡ past_barrier self.now }
    {
        match self.barriers.last() {
            None => 0,
            Some(barrier) => *barrier,
        }
    }

    /// How much is open.
    pub fn depth(&self) -> usize
        ensures { result ≡ length self.now }
    {
        self.opened.len()
    }

    /// The depth of the innermost label of this name and hygiene, or definition of this macro, among what is less deep.
    pub fn nearest(
        &self,
        name: &Name,
        hygiene: HygieneId,
        outer: Option<MacroDefId>,
        below: usize,
    ) -> Option<usize>
        ensures { IsDeepest (λ q. is_met name.now hygiene outer (rib_at q self.now)) below result }
    {
        deeper(
            self.label_below(name, hygiene, below),
            self.macro_below(outer, below),
        )
    }

    /// The depth of the innermost label of this name and hygiene among what is less deep.
    fn label_below(&self, name: &Name, hygiene: HygieneId, below: usize) -> Option<usize>
        ensures { IsDeepest (λ q. is_label name.now hygiene (rib_at q self.now)) below result }
    {
        let number = *self.names.get(name)?;
        deepest(&self.labels, (number, hygiene), below)
    }

    /// The depth of the innermost definition of this macro among what is less deep.
    fn macro_below(&self, outer: Option<MacroDefId>, below: usize) -> Option<usize>
        ensures { IsDeepest (λ q. is_outer outer (rib_at q self.now)) below result }
    {
        deepest(&self.macros, outer?, below)
    }

    /// Looks at what is open at this depth: which label it is, where it is one. Nothing else reads an entry.
    pub fn look(&self, depth: usize, looks: &mut ProbeCount) -> Option<LabelId>
        requires inside { depth < length self.now }
        requires count { looks.old + 1 < 2 ^ 128 }
        ensures label { result ≡ label_in (rib_at depth self.now) }
        ensures counted { looks.new ≡ looks.old + 1 }
    {
        looks.add();
        match self.opened[depth] {
            Opened::Label(_, _, label) => Some(label),
            _ => None,
        }
    }
}

/// The last of these, where no border is deeper.
fn last_try(tries: &[OpenTry], barrier: usize) -> Option<TryLabel>
    ensures { try_of result ≡ last_try barrier (reverse tries.now) }
{
    let [.., last] = tries else {
        return None;
    };
    if last.depth < barrier {
        return None;
    }
    Some(TryLabel {
        label: last.label,
        typed: last.typed,
    })
}

/// The number of this name, which is given where it has none. Where memory is refused nothing changes.
fn number_for(names: &mut BTreeMap<Name, usize>, name: Name) -> Result<usize, AllocError>
    requires { Known names.old.entries }
    ensures number { IfOk result (λ k. number_of name names.new.entries ≡ Some k) }
    ensures grown { Grown names.old.entries names.new.entries }
{
    if let Some(number) = names.get(&name) {
        return Ok(*number);
    }
    let number = names.len();
    names.insert(name, number)?;
    Ok(number)
}

//! The walk of an alias: which lifetime parameters its type names.

ghost use Rattle.std.specs.Prelude.{◌≡◌, ◌≢◌, ◌↔◌, Err, ℕ, [], ◌++◌, ◌∷◌, IsTrue, IfOk, length, slice_get, slice_set, true};
ghost use Rattle.hir_alias.specs.Alias.{Flags};
ghost use Rattle.hir_alias.specs.Tracking.{SoundIn, falses, track_lifetime, track_parts, track_type};
ghost use Rattle.hir_alias.specs.Placing.{place_of_name};
ghost use Rattle.hir_alias.specs.Reaching.{alias_parts_found, goes_into, place_of};
ghost use Rattle.hir_store.specs.declared.error.StoreError.TheVariants.{Full};
ghost use Rattle.hir_store.specs.declared.name.Name.{Name as NameValue};

use crate::places::Places;
use crate::signature::{AliasSignature, Lowered};
use hir_base::Seq;
use hir_store::error::StoreError;
use hir_store::ids::{LifetimeRefId, TypeRefId};
use hir_store::path::GenericArgs;
use hir_store::type_ref::LifetimeRef;
use hir_store::visit::{StoreVisitor, visit_type_ref_children};
use std::alloc::{AllocError, Global};

/// Which types were put on the list, by their numbers, the list, and which parameters were met, by their places.
#[derive(Drop)]
pub struct VisitorState {
    pub(crate) tracked: Seq<bool>,
    pub(crate) work: Seq<TypeRefId>,
    pub(crate) named: Seq<bool>,
}

/// Notes the types that are reached on a work list, each number once.
#[derive(Drop)]
pub struct Visitor<'a> {
    alloc: Global,
    lowered: &'a Lowered,
    places: Places,
    tracks: VisitorState,
}

/// So many flags that are down.
#[tactic(auto, using(crate::proofs::Tracked::falses_push))]
fn flags(alloc: Global, count: usize) -> Result<Seq<bool>, AllocError>
    ensures { IfOk result (λ it. it ≡ falses count) }
{
    let mut done = Seq::new(alloc);
    for _at in 0..count {
        done.push(false)?;
    }
    Ok(done)
}

impl StoreVisitor for Visitor<'_> {
    ghost after_type = { λ v t. record v { tracks = track_type v.tracks t } };

    ghost after_lifetime = { λ v l. record v {
      tracks = track_lifetime v.lowered.now.store.lifetimes (place_of_name v.places) v.tracks l;
    } };

    ghost after_args = { λ v a. v };

    ghost enters = { λ v a. goes_into a };

    /// Puts the type on the list, unless it was put there before or the store has none of that number.
    fn on_type(&mut self, id: TypeRefId) -> Result<(), StoreError> {
        self.tracks.put(id)?;
        Ok(())
    }

    /// Notes the parameter that the lifetime names, where it names one.
    fn on_lifetime(&mut self, id: LifetimeRefId) -> Result<(), StoreError> {
        if let Some(LifetimeRef::Named(name)) = self.lowered.store.lifetime(id) {
            if let Some(at) = self.places.get(name) {
                self.tracks.mark(at);
            }
        }
        Ok(())
    }

    /// Not those that carry `Self`.
    fn on_generic_args(&mut self, args: &GenericArgs) -> Result<bool, StoreError> {
        Ok(!args.has_self_type)
    }
}

impl VisitorState {
    fn none(alloc: Global) -> VisitorState
        ensures { result ≡ record { tracked = []; work = []; named = [] } }
    {
        VisitorState {
            tracked: Seq::new(alloc),
            work: Seq::new(alloc),
            named: Seq::new(alloc),
        }
    }

    fn put(&mut self, id: TypeRefId) -> Result<(), AllocError>
        ensures { IfOk result (λ _. self.new ≡ track_type self.old id) }
    {
        let at = id.0 as usize;
        match self.tracked.get(at) {
            None => Ok(()),
            Some(true) => Ok(()),
            Some(false) => {
                self.work.push(id)?;
                self.tracked.set(at, true);
                Ok(())
            }
        }
    }

    #[tactic(auto, using(crate::proofs::Tracked::set_behind))]
    fn mark(&mut self, at: usize)
        ensures { self.new ≡ record self.old { named = slice_set self.old.named at true } }
    {
        if at < self.named.len() {
            self.named.set(at, true);
        }
    }
}

impl<'a> Visitor<'a> {
    /// A visitor that has noted nothing. It takes no memory.
    pub fn new(signature: &'a AliasSignature) -> Visitor<'a>
        ensures store { result.lowered.now.store ≡ signature.now.store }
        ensures generic_params { result.lowered.now.generic_params ≡ signature.now.generic_params }
        ensures ty { result.lowered.now.ty ≡ signature.now.ty }
    {
        Visitor::over(signature.alloc(), signature.lowered())
    }

    pub(crate) fn over(alloc: Global, lowered: &'a Lowered) -> Visitor<'a>
        ensures { result.lowered ≡ lowered.entry }
    {
        Visitor {
            alloc,
            lowered,
            places: Places::new(alloc),
            tracks: VisitorState::none(alloc),
        }
    }

    /// Notes that nothing is noted yet, and where the parameters stand.
    fn begin(&mut self) -> Result<(), AllocError>
        ensures same { IfOk result (λ _. self.new.lowered ≡ self.old.lowered) }
        ensures places { IfOk result (λ _. (name : NameValue) → place_of_name self.new.places name
            ≡ place_of self.old.lowered.now.generic_params.lifetimes name) }
        ensures tracks { IfOk result (λ _. self.new.tracks ≡ record {
          tracked = falses (length self.old.lowered.now.store.types);
          work = [];
          named = falses (length self.old.lowered.now.generic_params.lifetimes);
        }) }
    {
        let lowered = self.lowered;
        self.places = Places::of(self.alloc, lowered.generic_params.lifetimes.as_slice())?;
        self.tracks = VisitorState {
            tracked: flags(self.alloc, lowered.store.types_len() as usize)?,
            work: Seq::new(self.alloc),
            named: flags(self.alloc, lowered.generic_params.lifetimes.len())?,
        };
        Ok(())
    }

    /// Notes the parts of a type. What its own calls refuse is memory alone.
    #[tactic(auto, using(crate::proofs::Walked::handed_tracks))]
    fn step(&mut self, id: TypeRefId) -> Result<(), AllocError>
        ensures { IfOk result (λ _. self.new ≡ record self.old {
          tracks = track_parts self.old.lowered.now.store.lifetimes (place_of_name self.old.places) self.old.tracks
              (alias_parts_found (slice_get self.old.lowered.now.store.types id.0));
        }) }
    {
        let lowered = self.lowered;
        match visit_type_ref_children(&lowered.store, id, self) {
            Ok(()) => Ok(()),
            Err(_) => Err(AllocError),
        }
    }

    /// Goes on until the list is empty.
    fn go_on(&mut self, root: TypeRefId) -> Result<(), AllocError>
        requires placed { (name : NameValue) → place_of_name self.old.places name
            ≡ place_of self.old.lowered.now.generic_params.lifetimes name }
        requires sound { SoundIn self.old.lowered.now.store self.old.lowered.now.generic_params.lifetimes root self.old.tracks }
        ensures same { IfOk result (λ _. self.new.lowered ≡ self.old.lowered) }
        ensures emitted { IfOk result (λ _. Flags self.old.lowered.now.store self.old.lowered.now.generic_params (Some root)
            self.new.tracks.named) }
    {
        while let Some(id) = self.tracks.work.pop() {
            self.step(id)?;
        }
        Ok(())
    }

    pub(crate) fn walk_all(&mut self) -> Result<(), AllocError>
        ensures same { IfOk result (λ _. self.new.lowered ≡ self.old.lowered) }
        ensures emitted { IfOk result (λ _. Flags self.old.lowered.now.store self.old.lowered.now.generic_params self.old.lowered.now.ty
            self.new.tracks.named) }
    {
        self.begin()?;
        match self.lowered.ty {
            None => Ok(()),
            Some(root) => {
                self.tracks.put(root)?;
                self.go_on(root)
            }
        }
    }

    /// Notes which lifetime parameters the alias's type names. It ends on every store. After an error, which is that memory is refused,
    /// nothing is said of them.
    pub fn walk(&mut self) -> Result<(), StoreError>
        ensures same { IfOk result (λ _. self.new.lowered ≡ self.old.lowered) }
        ensures emitted { IfOk result (λ _. Flags self.old.lowered.now.store self.old.lowered.now.generic_params self.old.lowered.now.ty
            self.new.tracks.named) }
        ensures memory { result ≢ Err Full }
    {
        self.walk_all()?;
        Ok(())
    }

    /// Whether the type names the lifetime parameter at this place; past the last one it doesn't.
    pub fn is_constrained(&self, place: u32) -> bool
        ensures { IsTrue result ↔ (slice_get self.now.tracks.named place ≡ Some true) }
    {
        match self.tracks.named.get(place as usize) {
            Some(named) => *named,
            None => false,
        }
    }

    pub(crate) fn into_named(self) -> Seq<bool>
        ensures { result ≡ self.entry.tracks.named }
    {
        let Visitor {
            alloc: _,
            lowered: _,
            places: _,
            tracks,
        } = self;
        let VisitorState {
            tracked: _,
            work: _,
            named,
        } = tracks;
        named
    }
}

//! Numbers by first printing.

ghost use Rattle.std.specs.Prelude.{◌≡◌, ◌<◌, [], ℕ, OnOk, OnErr, IfOk, None, Some, cond, length, nat_eq, slice_index_or};
ghost use Rattle.std.specs.List.{list_any, position};
ghost use Rattle.indexmap.specs.IndexSet.{insert_key};
ghost use Rattle.lower_listing.specs.Numbering.{place_of};

use std::alloc::{AllocError, Global};
use std::marker::Model;

/// What was printed so far, told by the numbers that a store gives it, in the order of first printing. The k-th of these, from 0, has
/// number k.
///
/// A store numbers what it holds from 0 on. So where each stands is noted in a list by its number in the store, whichever of them a
/// document makes to be printed.
#[derive(Drop)]
pub struct Numbering {
    printed: Vec<u32>,
    places: Vec<Option<usize>>,
}

impl Model for Numbering {
    ghost use Rattle.std.specs.Prelude.{List, ℕ};
    ghost use Rattle.std.specs.Coded.{coded_list, coded_ℕ};
    ghost use Rattle.lower_listing.specs.Numbering.{Placed};

    ghost Value = { List ℕ };

    ghost coded = { coded_list coded_ℕ };

    ghost view = { λ n. n.printed.items };

    ghost invariant = { λ n. Placed n.printed.items n.places.items };
}

/// Lets a list reach to an item's number, with nothing noted in what is new. Where memory is refused nothing changes.
fn reach(places: &mut Vec<Option<usize>>, item: u32) -> Result<(), AllocError>
    ensures within { OnOk result (item < length places.new.items) }
    ensures same { OnOk result ((x : ℕ) → slice_index_or places.new.items x None ≡ slice_index_or places.old.items x None) }
    ensures err { OnErr result (places.new.items ≡ places.old.items) }
{
    let at = item as usize;
    if at < places.len() {
        return Ok(());
    }
    places.resize(at + 1, None)?;
    Ok(())
}

/// Notes where an item stands. Where memory is refused nothing changes.
fn track(places: &mut Vec<Option<usize>>, item: u32, place: usize) -> Result<(), AllocError>
    ensures ok { OnOk result ((x : ℕ) → slice_index_or places.new.items x None
        ≡ cond (nat_eq x item) (Some place) (slice_index_or places.old.items x None)) }
    ensures err { OnErr result (places.new.items ≡ places.old.items) }
{
    reach(places, item)?;
    places[item as usize] = Some(place);
    Ok(())
}

impl Numbering {
    /// A numbering in which nothing was printed.
    pub fn new(alloc: Global) -> Numbering
        ensures { result ≡ [] }
    {
        Numbering {
            printed: Vec::new(alloc),
            places: Vec::new(alloc),
        }
    }

    /// The number of an item, if it has one.
    pub fn find(&self, item: u32) -> Option<usize>
        ensures { result ≡ position (nat_eq item) self.now }
    {
        *self.places.get(item as usize)?
    }

    /// The number of an item, the next free one where it is printed for the first time. Where memory is refused
    /// nothing is numbered.
    pub fn number(&mut self, item: u32) -> Result<usize, AllocError>
        ensures number { IfOk result (λ n. n ≡ place_of nat_eq item self.old) }
        ensures printed { OnOk result (self.new ≡ insert_key nat_eq self.old item) }
        ensures err { OnErr result (self.new ≡ self.old) }
    {
        if let Some(number) = self.find(item) {
            return Ok(number);
        }
        let number = self.printed.len();
        self.printed.reserve(1)?;
        track(&mut self.places, item, number)?;
        self.printed.push_reserved(item);
        Ok(number)
    }

    /// Whether an item has a number.
    pub fn has(&self, item: u32) -> bool
        ensures { result ≡ list_any (nat_eq item) self.now }
    {
        self.find(item).is_some()
    }

    /// The items in the order of their numbers.
    pub fn as_slice(&self) -> &[u32]
        ensures { result.now ≡ self.now }
    {
        self.printed.as_slice()
    }
}

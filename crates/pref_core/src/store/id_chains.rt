//! Where rows are found: those of one home are chained, from the greatest id to the smallest.
//!
//! ```text
//! Four slots; row 2 is gone, and row 5, whose home is 0 as that of row 1 is, has its slot:
//!
//! place    0      1      2      3      home 0   home 1   home 2   home 3
//! row      1      5      3      4
//! next     4      0      4      4      1        4        2        3           4 is no place: a chain's end
//!
//! home 0 -> place 1 (row 5) -> place 0 (row 1) -> end
//! ```
//!
//! A row goes to its home where that is free, and ids are consecutive: so a chain has hardly more than one row.
//! Only rows of the table are chained; versions that ended are read by block alone. A search begins at the home,
//! and so passes the link that leads to a row: this one alone is written where the row is taken out, and links in
//! one direction are enough. As ids fall along a chain, a search stops at the first smaller one.

ghost use Rattle.std.specs.Prelude.{ℕ, List, Option, ◌≡◌, ◌<◌, ◌≤◌, ◌^◌, length, false, IfOk, IfSome, IfNone, Some, None, slice_set, slice_index};
ghost use Rattle.pref_core.specs.Indexes.{IsPlaceOf};
ghost use Rattle.pref_core.specs.IdChains.{home_of, ids_of, id_at, AreIds, AreLinks, AreOpening, IsBefore};

use crate::store::stamped_slots::StampedSlots;
use std::alloc::{AllocError, Global};
use std::marker::Model;

/// A link of each slot, and behind them one of each home: to the place of that row of the home which has the next
/// smaller id. Where there is none it is the capacity, which is no place. (this project)
#[derive(Drop)]
pub(crate) struct IdChains {
    next: Vec<u32>,
}

impl Model for IdChains {
    ghost use Rattle.std.specs.Prelude.{List, ℕ};

    ghost Value = { List ℕ };

    ghost view = { λ links. links.next.items };
}

impl IdChains {
    /// The first slots have the rows of their homes, and the others are empty. No memory is taken after this.
    pub(crate) fn new(alloc: Global, capacity: u32, rows: u32) -> Result<IdChains, AllocError>
        requires few { capacity ≤ 65536 }
        requires rows { rows ≤ capacity }
        ensures { IfOk result (λ links. (ids : List (Option ℕ)) → AreOpening capacity rows ids → AreLinks capacity ids links) }
    {
        let mut next = Vec::with_capacity(alloc, 2 * capacity as usize)?;
        next.resize(capacity as usize, capacity)?;
        for home in 0..rows {
            next.push(home)?;
        }
        next.resize(2 * capacity as usize, capacity)?;
        Ok(IdChains { next })
    }

    /// A copy of these links.
    pub(crate) fn copy(&self, alloc: Global) -> Result<IdChains, AllocError>
        ensures { IfOk result (λ copy. copy ≡ self.now) }
    {
        let next = Vec::from_slice(alloc, &self.next)?;
        Ok(IdChains { next })
    }

    /// The place of the row of this id in the table.
    #[inline(always)]
    #[tactic(auto, using(std::proofs::lemmas::Grind::common_steps, std::proofs::lemmas::Grind::get_or_default_zero, crate::proofs::IdChainsLaws::nowhere))]
    pub(crate) fn find(&self, slots: &StampedSlots, id: u64) -> Option<u32>
        requires { AreLinks (length slots.now.slots) (ids_of slots.now.stamp slots.now.slots) self.now }
        ensures { IsPlaceOf slots.now.stamp id slots.now.slots result }
    {
        let node = before(&self.next, slots, id);
        let place = self.next[node as usize];
        if slots.stands_at(place, id) {
            Some(place)
        } else {
            None
        }
    }

    /// A row of this id is about to begin at this place.
    pub(crate) fn add(&mut self, slots: &StampedSlots, id: u64, place: u32)
        requires links { AreLinks (length slots.now.slots) (ids_of slots.now.stamp slots.now.slots) self.old }
        requires ids { AreIds (2 ^ 64) (id_at (ids_of slots.now.stamp slots.now.slots)) }
        requires place { place < length slots.now.slots }
        requires empty { id_at (ids_of slots.now.stamp slots.now.slots) place ≡ None }
        requires absent { IsPlaceOf slots.now.stamp id slots.now.slots None }
        ensures { AreLinks (length slots.now.slots) (slice_set (ids_of slots.now.stamp slots.now.slots) place (Some id)) self.new }
    {
        let node = before(&self.next, slots, id);
        self.next[place as usize] = self.next[node as usize];
        self.next[node as usize] = place;
    }

    /// The row of this id is about to end: takes it out of its chain, and returns its place.
    #[tactic(auto, using(std::proofs::lemmas::Grind::common_steps, std::proofs::lemmas::Grind::get_or_default_zero, crate::proofs::IdChainsLaws::nowhere, crate::proofs::IdChainsLaws::within_at, crate::proofs::IdChainsLaws::row_shown))]
    pub(crate) fn take(&mut self, slots: &StampedSlots, id: u64) -> Option<u32>
        requires links { AreLinks (length slots.now.slots) (ids_of slots.now.stamp slots.now.slots) self.old }
        requires ids { AreIds (2 ^ 64) (id_at (ids_of slots.now.stamp slots.now.slots)) }
        ensures place { IsPlaceOf slots.now.stamp id slots.now.slots result }
        ensures some { IfSome result (λ place. AreLinks (length slots.now.slots) (slice_set (ids_of slots.now.stamp slots.now.slots) place None) self.new) }
        ensures none { IfNone result (self.new ≡ self.old) }
    {
        let node = before(&self.next, slots, id);
        let place = self.next[node as usize];
        if !slots.stands_at(place, id) {
            return None;
        }
        self.next[node as usize] = self.next[place as usize];
        Some(place)
    }
}

/// The last home or place before this id on the chain of its home.
#[inline(always)]
#[tactic(auto, using(std::proofs::lemmas::Grind::common_steps, crate::proofs::IdChainsLaws::way_on, crate::proofs::IdChainsLaws::within_at))]
fn before(next: &[u32], slots: &StampedSlots, id: u64) -> u32
    requires { AreLinks (length slots.now.slots) (ids_of slots.now.stamp slots.now.slots) next.now }
    ensures before { IsBefore (2 ^ 64) (length slots.now.slots) (home_of (length slots.now.slots)) (id_at (ids_of slots.now.stamp slots.now.slots)) (slice_index next.now) id result }
    ensures inside { result < length next.now }
{
    let mut node = slots.capacity() + slots.home_of(id);
    'along: while slots.is_above(next[node as usize], id) {
        node = next[node as usize];
    }
    node
}

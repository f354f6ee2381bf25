//! The contents of a store: versions of rows in slots, and the lists beside them that spare a look at each slot.
//!
//! A row is found along the chain of its home. All lists have their room from the opening on: no change of a store takes
//! memory.

ghost use Rattle.std.specs.List.{count_by};
ghost use Rattle.std.specs.Prelude.{ℕ, List, length, true, false, Some, None, option_map, IfOk, IfSome, ◌≡◌, ◌+◌, ◌^◌, ◌<◌, ◌≤◌};
ghost use Rattle.pref_core.specs.Indexes.{row_at, slot_of, IsPlaceOf, IsIndexOf};
ghost use Rattle.pref_core.specs.ContentsInvariant.{IsKept, row_in, frees_at, is_open, uses_of};
ghost use Rattle.pref_core.specs.SlotSets.{is_free_use};
ghost use Rattle.pref_core.specs.Slots.{StandsFor, begins, opening_contents};
ghost use Rattle.pref_core.specs.State.{State};
ghost use Rattle.pref_core.specs.Table.{among, line_of};

use crate::call::SlotList;
use crate::index::Index;
use crate::setup::Setup;
use crate::store::caller::Caller;
use crate::store::id_chains::IdChains;
use crate::store::needs::is_seen;
use crate::store::slot_sets::SlotSets;
use crate::store::stamped_slots::StampedSlots;
use pref_table::Row;
use std::alloc::{AllocError, Global};
use std::marker::Model;

/// A table's slots, its counters, what is kept of each client, and two lists that go along with the slots at each step
/// of a commit: which places are free, and where rows are found. Contracts see it without the lists.
#[derive(Drop)]
pub(crate) struct Contents {
    pub(crate) slots: StampedSlots,
    pub(crate) next_id: u64,
    pub(crate) callers: Vec<Caller>,
    pub(crate) places: SlotSets,
    pub(crate) links: IdChains,
}

impl Model for Contents {
    ghost use Rattle.pref_core.specs.Slots as specs;
    ghost use Rattle.pref_core.specs.ContentsInvariant.{IsTracked};

    ghost Value = { specs.Contents };

    ghost view = { λ s. record { slots = s.slots.slots; stamp = s.slots.stamp; next_id = s.next_id; callers = s.callers.items } };

    ghost invariant = { λ s. IsTracked (record { slots = s.slots.slots; stamp = s.slots.stamp; next_id = s.next_id; callers = s.callers.items }) s.places s.links };
}

impl Contents {
    /// The opening rows, as commits 1, 2, .. with ids 1, 2, .., in the slots 0, 1, .., and no call made.
    pub(crate) fn new(alloc: Global, setup: &Setup, rows: &[Row]) -> Result<Contents, AllocError>
        requires { length rows.now ≤ setup.now.capacity }
        ensures opening { IfOk result (λ contents. contents ≡ opening_contents setup.now rows.now) }
        ensures kept { IfOk result IsKept }
    {
        let capacity = setup.capacity();
        let slots = StampedSlots::new(alloc, capacity, rows)?;
        let idle = Caller {
            calls: 0,
            at_begin: None,
        };
        let callers = vec![in alloc; idle; setup.clients() as usize]?;
        let places = SlotSets::new(alloc, capacity, rows.len() as u32)?;
        let links = IdChains::new(alloc, capacity, rows.len() as u32)?;
        Ok(Contents {
            slots,
            next_id: rows.len() as u64 + 1,
            callers,
            places,
            links,
        })
    }

    /// A copy of these contents.
    pub(crate) fn copy(&self, alloc: Global) -> Result<Contents, AllocError>
        ensures { IfOk result (λ copy. copy ≡ self.now) }
    {
        let slots = self.slots.copy(alloc)?;
        let callers = Vec::from_slice(alloc, &self.callers)?;
        let places = self.places.copy(alloc)?;
        let links = self.links.copy(alloc)?;
        Ok(Contents {
            slots,
            next_id: self.next_id,
            callers,
            places,
            links,
        })
    }

    /// The place of the row of this id in the table: by an index where there is one, else by the chain of its home.
    #[inline(always)]
    pub(crate) fn place_of(&self, index: Option<&Index>, id: u64) -> Option<u32>
        requires { IfSome index (λ index. IsIndexOf self.now index.now) }
        ensures { IsPlaceOf self.now.stamp id self.now.slots result }
    {
        match index {
            Some(index) => self.indexed_place(index, id),
            None => self.links.find(&self.slots, id),
        }
    }

    /// The place of the row of this id, by an index. Looks at the id's home, and looks it up in the index where another
    /// row is there.
    fn indexed_place(&self, index: &Index, id: u64) -> Option<u32>
        requires { IsPlaceOf self.now.stamp id self.now.slots (slot_of index.now id) }
        ensures { IsPlaceOf self.now.stamp id self.now.slots result }
    {
        let home = self.slots.home_of(id);
        if self.slots.stands_at(home, id) {
            return Some(home);
        }
        match index.slot(id) {
            Some(place) => Some(place as u32),
            None => None,
        }
    }

    /// The row of this id in the table, found as its place is.
    #[tactic(auto, using(std::proofs::lemmas::Grind::common_steps, crate::proofs::LineOfLaws::row_of_place))]
    pub(crate) fn row(&self, index: Option<&Index>, id: u64) -> Option<Row>
        requires { IfSome index (λ index. IsIndexOf self.now index.now) }
        ensures { (state : State) → StandsFor self.now state → result ≡ option_map (λ line. line.row) (line_of state.table id) }
    {
        self.slots.row_in(self.place_of(index, id))
    }

    /// How many places are free.
    pub(crate) fn free(&self) -> u32
        ensures value { result ≡ count_by is_free_use (uses_of self.now) }
        ensures few { result ≤ length self.now.slots }
    {
        self.places.free()
    }

    /// Whether the place of a row is no longer needed once that row, among others, has ended.
    #[tactic(auto, using(std::proofs::lemmas::Grind::common_steps, crate::proofs::FreedLaws::frees_row))]
    pub(crate) fn frees(&self, place: u32) -> bool
        requires { self.now.stamp < 2 ^ 63 }
        ensures row { (ids : List ℕ) (id : ℕ) → among ids id ≡ true → row_at self.now.stamp id self.now.slots place ≡ true → result ≡ frees_at (begins self.now.callers) ids (self.now.stamp + 1) self.now.slots place }
        ensures none { row_in self.now.slots (Some place) ≡ None → result ≡ false }
    {
        match self.slots.as_slice().get(place as usize) {
            Some(Some(version)) => {
                !is_seen(version, Some(self.slots.stamp() + 1), &self.callers)
            }
            _ => false,
        }
    }

    /// Whether a place can be used once rows ended that leave these slots free.
    pub(crate) fn is_open(&self, freed: &SlotList, place: u32) -> bool
        ensures { result ≡ is_open (uses_of self.now) freed.now place }
    {
        self.places.is_free(place) || freed.has(place)
    }
}

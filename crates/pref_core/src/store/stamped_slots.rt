//! Slots, each empty or with a version of a row, and the stamp at which the table is.

ghost use Rattle.std.specs.Prelude.{ℕ, IfOk, None, Some, length, replicate, slice_get, slice_set, ◌≡◌, ◌+◌, ◌-◌, ◌^◌, ◌<◌, ◌≤◌, ◌++◌};
ghost use Rattle.pref_core.specs.ContentsInvariant.{row_in};
ghost use Rattle.pref_core.specs.IdChains.{home_of, id_at, ids_of, is_above};
ghost use Rattle.pref_core.specs.Indexes.{IsPlaceOf, row_at, slot_of};
ghost use Rattle.pref_core.specs.Slots.{block_of, new_version, opening_slots, visible};
ghost use Rattle.pref_core.specs.Table.{entries};
ghost use Rattle.pref_core.specs.declared.store.version.Version.{Version};

use crate::index::Index;
use crate::store::version::Version;
use pref_sky::Entry;
use pref_table::Row;
use std::alloc::{AllocError, Global};
use std::marker::Model;

/// Versions of rows in 1 to 65,536 slots, and the stamp of the last commit.
#[derive(Drop)]
pub(crate) struct StampedSlots {
    slots: Vec<Option<Version>>,
    /// How far the slots were ever used: those from this place on never were.
    used: usize,
    stamp: u64,
}

impl Model for StampedSlots {
    ghost use Rattle.std.specs.Prelude.{length, ◌≤◌};
    ghost use Rattle.pref_core.specs.StampedSlots as specs;

    ghost Value = { specs.StampedSlots };

    ghost view = { λ s. record { slots = s.slots.items; stamp = s.stamp } };

    ghost invariant = { λ s. (1 ≤ length s.slots.items) × (length s.slots.items ≤ 65536) × (s.used ≤ length s.slots.items) × specs.AreUnused s.used s.slots.items };
}

impl StampedSlots {
    /// The opening rows as commits 1, 2, .. with ids 1, 2, .., in the first slots, and empty slots up to the capacity.
    pub(crate) fn new(
        alloc: Global,
        capacity: u32,
        rows: &[Row],
    ) -> Result<StampedSlots, AllocError>
        requires few { length rows.now ≤ capacity }
        requires capacity { (1 ≤ capacity) × (capacity ≤ 65536) }
        ensures { IfOk result (λ opened. opened ≡ record { slots = opening_slots 0 rows.now ++ replicate (capacity - length rows.now) None; stamp = length rows.now }) }
    {
        let mut slots = Vec::with_capacity(alloc, capacity as usize)?;
        let mut made: u64 = 0;
        for row in rows {
            made += 1;
            slots.push(Some(Version {
                id: made,
                row: *row,
                birth: made,
                death: None,
            }))?;
        }
        slots.resize(capacity as usize, None)?;
        Ok(StampedSlots {
            slots,
            used: rows.len(),
            stamp: made,
        })
    }

    /// A copy of these slots.
    pub(crate) fn copy(&self, alloc: Global) -> Result<StampedSlots, AllocError>
        ensures { IfOk result (λ copy. copy ≡ self.now) }
    {
        let slots = Vec::from_slice(alloc, &self.slots)?;
        Ok(StampedSlots {
            slots,
            used: self.used,
            stamp: self.stamp,
        })
    }

    /// The stamp of the last commit.
    pub(crate) fn stamp(&self) -> u64
        ensures { result ≡ self.now.stamp }
    {
        self.stamp
    }

    /// How many slots there are.
    pub(crate) fn capacity(&self) -> u32
        ensures value { result ≡ length self.now.slots }
        ensures range { (1 ≤ result) × (result ≤ 65536) }
    {
        self.slots.len() as u32
    }

    /// The versions in the slots, `None` where a slot is free.
    pub(crate) fn as_slice(&self) -> &[Option<Version>]
        ensures { result.now ≡ self.now.slots }
    {
        &self.slots
    }

    /// The home of an id: the slot that an opening row has, and a new version where it is free.
    pub(crate) fn home_of(&self, id: u64) -> u32
        ensures home { result ≡ home_of (length self.now.slots) id }
        ensures inside { result < length self.now.slots }
        ensures few { length self.now.slots ≤ 65536 }
    {
        (id.saturating_sub(1) % self.slots.len() as u64) as u32
    }

    /// Whether a row of a greater id is at the place in the table.
    pub(crate) fn is_above(&self, place: u32, id: u64) -> bool
        ensures { result ≡ is_above id (id_at (ids_of self.now.stamp self.now.slots) place) }
    {
        match self.slots.get(place as usize) {
            Some(Some(version)) => id < version.id && version.is_visible_at(self.stamp),
            _ => false,
        }
    }

    /// Whether the row of this id is at the place in the table.
    pub(crate) fn stands_at(&self, place: u32, id: u64) -> bool
        ensures { result ≡ row_at self.now.stamp id self.now.slots place }
    {
        match self.slots.get(place as usize) {
            Some(Some(version)) => version.id == id && version.is_visible_at(self.stamp),
            _ => false,
        }
    }

    /// The row at this place, where there is one.
    pub(crate) fn row_in(&self, place: Option<u32>) -> Option<Row>
        ensures { result ≡ row_in self.now.slots place }
    {
        match self.slots.get(place? as usize) {
            Some(Some(version)) => Some(version.row),
            _ => None,
        }
    }

    /// The index of the rows of the table.
    pub(crate) fn index(&self, alloc: Global) -> Result<Index, AllocError>
        ensures { IfOk result (λ index. (id : ℕ) → IsPlaceOf self.now.stamp id self.now.slots (slot_of index id)) }
    {
        let slots = self.as_slice();
        let mut index = Index::with_room(alloc, slots.len())?;
        for place in 0..slots.len() {
            if let Some(version) = slots[place] {
                if version.is_visible_at(self.stamp) {
                    index.put(alloc, version.id, place)?;
                }
            }
        }
        Ok(index)
    }

    /// The rows that the slots of a block show at a stamp, with their ids.
    pub(crate) fn entries(
        &self,
        alloc: Global,
        block: u32,
        size: u32,
        stamp: u64,
    ) -> Result<Vec<Entry>, AllocError>
        ensures { IfOk result (λ v. v.items ≡ entries (visible stamp (block_of block size self.now.slots))) }
    {
        let slots = self.block(block, size);
        let mut found = Vec::with_capacity(alloc, slots.len())?;
        for slot in slots {
            if let Some(version) = slot {
                if version.is_visible_at(stamp) {
                    found.push_reserved(Entry {
                        row: version.row,
                        id: version.id,
                    });
                }
            }
        }
        Ok(found)
    }

    /// The slots of a block that were ever used.
    fn block(&self, block: u32, size: u32) -> &[Option<Version>]
        ensures { (stamp : ℕ) → visible stamp result.now ≡ visible stamp (block_of block size self.now.slots) }
    {
        let start = (block as usize * size as usize).min(self.used);
        let end = (start + size as usize).min(self.used);
        &self.slots[start..end]
    }

    /// The next commit begins.
    pub(crate) fn advance(&mut self)
        requires { self.old.stamp < 2 ^ 63 }
        ensures { self.new ≡ record { slots = self.old.slots; stamp = self.old.stamp + 1 } }
    {
        self.stamp += 1;
    }

    /// A version begins at a place, in place of what is there.
    #[inline(always)]
    pub(crate) fn begin(&mut self, place: u32, entry: Entry)
        requires { place < length self.old.slots }
        ensures { self.new ≡ record { slots = slice_set self.old.slots place (new_version self.old.stamp entry); stamp = self.old.stamp } }
    {
        self.slots[place as usize] = Some(Version {
            id: entry.id,
            row: entry.row,
            birth: self.stamp,
            death: None,
        });
        self.used = self.used.max(place as usize + 1);
    }

    /// The version at a place ends.
    #[inline(always)]
    pub(crate) fn end(&mut self, place: u32)
        requires { place < length self.old.slots }
        ensures { (version : Version) → slice_get self.old.slots place ≡ Some (Some version) → self.new ≡ record { slots = slice_set self.old.slots place (Some (record version { death = Some self.old.stamp })); stamp = self.old.stamp } }
    {
        if let Some(version) = &mut self.slots[place as usize] {
            version.death = Some(self.stamp);
        }
    }
}

//! An index from row id to slot, which finds a row of a store without a look at other slots.

ghost use Rattle.std.specs.Prelude.{◌≡◌, ◌+◌, ◌<◌, ◌≤◌, [], nat_lt, true, is_some, None, Some, IfOk, OnOk, OnErr};
ghost use Rattle.indexmap.specs.IndexMap.{spare};
ghost use Rattle.pref_core.specs.Indexes.{slot_of, Points, PointsAll, placed_rows, IsPlaceOf, IsIndexOf};
ghost use Rattle.pref_core.specs.ContentsInvariant.{IsKept};
ghost use Rattle.pref_core.specs.Operations.{is_next};
ghost use Rattle.pref_core.specs.Planned.{op_of};
ghost use Rattle.pref_core.specs.Slots.{visible};
ghost use Rattle.pref_core.specs.State.{added, changes_of, succeeds};
ghost use Rattle.pref_core.specs.Table.{has};

use crate::call::Planned;
use crate::changes::LentChange;
use crate::store::Store;
use crate::store::contents::Contents;
use indexmap::IndexMap;
use std::alloc::{AllocError, Global};
use std::marker::Model;

/// The slot of each row that is in the table now, by id: a hash map beside a store. Contracts see it as its list of
/// pairs of id and slot.
///
/// It takes 31 to 62 bytes a slot: room for all slots is taken at the opening (for 9, 18, 36 .. rows, 280 bytes for
/// each nine), and where rows come and go for long it may grow once, to twice that.
///
/// [`Store::look_up`] goes by it, and [`Store::reindex`] keeps it that of the store. (this project)
pub struct Index {
    slots: IndexMap<u64, usize>,
}

// By hand, so that letting one go is a call: a derived `drop` is written out, and proved, at each way out of each
// function that owns one.
impl Drop for Index {
    fn drop(self) {
        let Index { slots: _ } = self;
    }
}

impl Model for Index {
    ghost use Rattle.std.specs.Prelude.{ℕ, List};

    ghost Value = { List (ℕ × ℕ) };

    ghost view = { λ index. index.slots.entries };
}

impl Index {
    /// The index of a store, with room for all its slots where memory allows. Reads each slot once.
    pub fn new(alloc: Global, store: &Store) -> Result<Index, AllocError>
        ensures { IfOk result (λ index. IsIndexOf store.now index) }
    {
        store.index(alloc)
    }

    /// An index of no rows, with room for this many.
    pub(crate) fn with_room(alloc: Global, room: usize) -> Result<Index, AllocError>
        ensures { IfOk result (λ index. index ≡ []) }
    {
        let slots = IndexMap::with_capacity(alloc, room)?;
        Ok(Index { slots })
    }

    /// The slot of the row of this id, where the table has it.
    pub fn slot(&self, id: u64) -> Option<usize>
        ensures { result ≡ slot_of self.now id }
    {
        self.slots.get(&id).copied()
    }

    /// Puts the slot of a new row. `Err` is out of memory, and leaves the index as it was.
    pub fn put(&mut self, alloc: Global, id: u64, slot: usize) -> Result<(), AllocError>
        ensures put { OnOk result (Points self.old id (Some slot) self.new) }
        ensures err { OnErr result (self.new ≡ self.old) }
    {
        match self.slots.insert(id, slot) {
            Ok(_) => Ok(()),
            Err(_) => Err(AllocError),
        }
    }

    /// Moves a row that the index has to this slot. Takes no memory.
    pub fn set(&mut self, id: u64, slot: usize)
        requires { is_some (slot_of self.old id) ≡ true }
        ensures { Points self.old id (Some slot) self.new }
    {
        set_slot(&mut self.slots, id, slot);
    }

    /// Takes a row out, where it is there. Takes no memory.
    pub fn take(&mut self, id: u64)
        ensures { Points self.old id None self.new }
    {
        take_slot(&mut self.slots, id);
    }

    /// Follows an op that is legal in these contents, which the index is of: each row that begins gets its slot, and
    /// each that is removed goes out.
    ///
    /// `Err` is out of memory, comes only for an op that adds a row, and leaves the index as it was.
    pub(crate) fn follow(&mut self, contents: &Contents, op: &Planned<'_>) -> Result<(), AllocError>
        requires kept { IsKept contents.now }
        requires next { is_next contents.now (op_of op.now) ≡ true }
        requires succeeds { succeeds op.now.outcome ≡ true }
        requires index { IsIndexOf contents.now self.old }
        ensures placed { OnOk result (PointsAll self.old (placed_rows contents.now.next_id (changes_of op.now.call.now) op.now.slots) self.new) }
        ensures same { OnErr result (self.new ≡ self.old) }
        ensures refused { OnErr result (nat_lt 0 (added op.now.call.now) ≡ true) }
    {
        self.slots.reserve(op.call.added() as usize)?;
        place_rows(&mut self.slots, contents, op);
        Ok(())
    }
}

/// Gives each row that an op begins its slot, in a map with room for those that it adds, and takes out each that it
/// removes.
#[tactic(auto, using(std::proofs::lemmas::Grind::common_steps, crate::proofs::ChangesLaws::drop_at, crate::proofs::BoundsLaws::bounds))]
fn place_rows(map: &mut IndexMap<u64, usize>, contents: &Contents, op: &Planned<'_>)
    requires room { added op.now.call.now ≤ spare map.old }
    requires kept { IsKept contents.now }
    requires next { is_next contents.now (op_of op.now) ≡ true }
    requires succeeds { succeeds op.now.outcome ≡ true }
    requires index { IsIndexOf contents.now map.old.entries }
    ensures { PointsAll map.old.entries (placed_rows contents.now.next_id (changes_of op.now.call.now) op.now.slots) map.new.entries }
{
    let slots = op.slots.as_slice();
    let mut next_id = contents.next_id;
    let mut used = 0;
    for at in 0..op.call.count() {
        match (op.call.change(at), slots.get(used)) {
            (LentChange::Add(_), Some(slot)) => {
                put_slot(map, next_id, *slot as usize);
                next_id += 1;
                used += 1;
            }
            (LentChange::Set(id, _), Some(slot)) => {
                move_slot(map, contents, id, *slot);
                used += 1;
            }
            (LentChange::Remove(id), _) => take_slot(map, id),
            _ => return,
        }
    }
}

/// A row of the table gets this slot in a map. Where it is there already the map is left alone.
#[tactic(auto, using(std::proofs::lemmas::Grind::common_steps, crate::proofs::IndexLaws::points_still, crate::proofs::FilledLaws::place_known))]
fn move_slot(map: &mut IndexMap<u64, usize>, contents: &Contents, id: u64, slot: u32)
    requires there { has (visible contents.now.stamp contents.now.slots) id ≡ true }
    requires index { IsPlaceOf contents.now.stamp id contents.now.slots (slot_of map.old.entries id) }
    ensures moved { Points map.old.entries id (Some slot) map.new.entries }
    ensures room { spare map.old ≤ spare map.new }
{
    if !contents.slots.stands_at(slot, id) {
        set_slot(map, id, slot as usize);
    }
}

/// Puts the slot of a row in a map that has room for it.
fn put_slot(map: &mut IndexMap<u64, usize>, id: u64, slot: usize)
    requires { 0 < spare map.old }
    ensures put { Points map.old.entries id (Some slot) map.new.entries }
    ensures room { spare map.old ≤ spare map.new + 1 }
{
    if map.insert(id, slot).is_err() {
        unreachable!()
    }
}

/// Writes another slot of a row that the map has.
fn set_slot(map: &mut IndexMap<u64, usize>, id: u64, slot: usize)
    requires { is_some (slot_of map.old.entries id) ≡ true }
    ensures set { Points map.old.entries id (Some slot) map.new.entries }
    ensures room { spare map.old ≤ spare map.new }
{
    if let Some(found) = map.get_mut(&id) {
        *found = slot;
    }
}

/// Takes a row out, where it is there.
fn take_slot(map: &mut IndexMap<u64, usize>, id: u64)
    ensures taken { Points map.old.entries id None map.new.entries }
    ensures room { spare map.old ≤ spare map.new }
{
    map.swap_remove(&id);
}

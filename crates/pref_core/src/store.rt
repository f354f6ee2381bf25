//! The store: versions of rows in slots that were allocated once, and what is kept of each client.
//!
//! A commit never writes over what the table or an open query needs. It ends versions by a stamp and begins
//! new ones in slots that no query needs, so a query that began at a stamp reads that table for as long as it
//! is open, while others change rows. (The stamps are those of multiversion stores; when a slot may be used
//! again, and that room is exact, is this project's own.)
//!
//! ```text
//! stamp     1          2          3          4
//! slot 0    row 1 --------------->|                 ended by commit 3, which updates row 1
//! slot 1               row 2 ------------------ ..
//! slot 2                          row 1 ------- ..  its version from commit 3 on
//!                         ^
//!                         a query that began here sees slots 0 and 1 for as long as it is open
//! ```
//!
//! Were no query open that sees slot 0, commit 3 would have set row 1 there, in its place. As the last such query
//! ends, slot 0 is free.

pub(crate) mod applying;
pub(crate) mod caller;
pub(crate) mod contents;
pub(crate) mod id_chains;
pub(crate) mod legality;
pub(crate) mod needs;
pub(crate) mod planning;
pub(crate) mod slot_sets;
pub(crate) mod stamped_slots;
pub mod version;

ghost use Rattle.std.specs.Prelude.{◌≡◌, ◌-◌, ◌<◌, length, true, Err, IfOk, IfErr, OnOk, OnErr, option_map, ◌↔◌, ◌⊎◌};
ghost use Rattle.std.specs.Option.{unwrap_or};
ghost use Rattle.pref_core.specs.Table.{line_of, entries};
ghost use Rattle.pref_core.specs.State.{State, opening, calls_of, needed};
ghost use Rattle.pref_core.specs.Slots.{StandsFor, caller_calls, visible, block_of, opening_contents};
ghost use Rattle.pref_core.specs.Indexes.{adds, IsIndexOf};
ghost use Rattle.pref_core.specs.Operations.{applied, IsPlan, Plans, PlansIn, AppliesIn};
ghost use Rattle.pref_core.specs.Planned.{op_of, op_or_fault};

use crate::call::{Call, LentCall, Op, Planned};
use crate::fault::CoreFault;
use crate::index::Index;
use crate::setup::Setup;
use caller::caller_of;
use contents::Contents;
use pref_sky::Entry;
use pref_table::Row;
use std::alloc::{AllocError, Global};
use std::marker::Model;

/// A table's slots, its counters, and what is kept of each client: how many calls it has made, and the stamp
/// at its open query's begin. Contracts see them as they are, and not the lists beside them that spare a look at each
/// slot.
///
/// `StandsFor` says which state of the sequential table a store represents. [`Store::plan`] finds the outcome of a call
/// and [`Store::apply`] does it; [`ops_are_history`](crate::laws::ops_are_history) says that ops applied so are a legal
/// history.
pub struct Store {
    contents: Contents,
}

// By hand, so that letting one go is a call: a derived `drop` is written out, and proved, at each way out of each
// function that owns one.
impl Drop for Store {
    fn drop(self) {
        let Store { contents: _ } = self;
    }
}

impl Model for Store {
    ghost use Rattle.pref_core.specs.Slots as specs;
    ghost use Rattle.pref_core.specs.ContentsInvariant.{IsKept};

    ghost Value = { specs.Contents };

    ghost view = { λ s. s.contents };

    ghost invariant = { λ s. IsKept s.contents };
}

impl Store {
    /// A store with these rows as commits 1, 2, .. with ids 1, 2, .., in the slots 0, 1, .., and no call made. All
    /// slots are allocated here, and none later.
    ///
    /// Refused `Full` where there are more rows than slots, else `OutOfMemory`.
    pub fn new(alloc: Global, setup: &Setup, rows: &[Row]) -> Result<Store, CoreFault>
        ensures opening { IfOk result (λ store. store ≡ opening_contents setup.now rows.now) }
        ensures state { IfOk result (λ store. StandsFor store (opening setup.now.clients rows.now) × (length store.slots ≡ setup.now.capacity)) }
        ensures full { result ≡ Err (CoreFault.Full (length rows.now)) ↔ (setup.now.capacity < length rows.now) }
        ensures other { IfErr result (λ fault. (fault ≡ CoreFault.OutOfMemory) ⊎ (setup.now.capacity < length rows.now)) }
    {
        if rows.len() > setup.capacity() as usize {
            return Err(CoreFault::Full {
                needed: rows.len() as u64,
            });
        }
        let contents = Contents::new(alloc, setup, rows)?;
        Ok(Store { contents })
    }

    /// Another store that holds the same. `Err` is out of memory. Cost: each slot is copied.
    pub fn copy(&self, alloc: Global) -> Result<Store, AllocError>
        ensures { IfOk result (λ copy. copy ≡ self.now) }
    {
        let contents = self.contents.copy(alloc)?;
        Ok(Store { contents })
    }

    /// How many commits there were, the opening rows among them.
    pub fn stamp(&self) -> u64
        ensures { result ≡ self.now.stamp }
    {
        self.contents.slots.stamp()
    }

    /// The id of the next row.
    pub(crate) fn next_id(&self) -> u64
        ensures { result ≡ self.now.next_id }
    {
        self.contents.next_id
    }

    /// How many numbered calls the client has made; of a number that is no client's, none.
    pub fn last(&self, client: u8) -> u64
        ensures exact { result ≡ unwrap_or (caller_calls self.now client) 0 }
        ensures state { (state : State) → StandsFor self.now state → result ≡ unwrap_or (calls_of state client) 0 }
    {
        match caller_of(&self.contents.callers, client) {
            Some(caller) => caller.calls,
            None => 0,
        }
    }

    /// The row of this id in the table now. Goes along the chain of the rows whose home is that of the id, the slot
    /// `id - 1` modulo the capacity, as far as the id: one or two slots, since ids are consecutive.
    pub fn get(&self, id: u64) -> Option<Row>
        ensures { (state : State) → StandsFor self.now state → result ≡ option_map (λ line. line.row) (line_of state.table id) }
    {
        self.contents.row(None, id)
    }

    /// The row of this id, found by an index of this store: looks at the id's home, and at the index where another row
    /// is there. `None` where the table has no such row. Constant in the slots; takes no memory.
    pub fn get_at(&self, index: &Index, id: u64) -> Option<Row>
        requires { IsIndexOf self.now index.now }
        ensures { (state : State) → StandsFor self.now state → result ≡ option_map (λ line. line.row) (line_of state.table id) }
    {
        self.contents.row(Some(index), id)
    }

    /// The index of this store.
    pub(crate) fn index(&self, alloc: Global) -> Result<Index, AllocError>
        ensures { IfOk result (λ index. IsIndexOf self.now index) }
    {
        self.contents.slots.index(alloc)
    }

    /// The entries that the slots of a block show at a stamp: those from `block` times `size` up to before the next
    /// block's or the last slot. Reads these slots alone. `Err` is out of memory.
    pub fn block(
        &self,
        alloc: Global,
        block: u32,
        size: u32,
        stamp: u64,
    ) -> Result<Vec<Entry>, AllocError>
        ensures { IfOk result (λ v. v.items ≡ entries (visible stamp (block_of block size self.now.slots))) }
    {
        self.contents.slots.entries(alloc, block, size, stamp)
    }

    /// How many more versions there is room for: the slots without those that the table or an open query needs.
    /// Kept as changes are made: costs nothing.
    pub fn room(&self) -> u32
        ensures { (state : State) → StandsFor self.now state → result ≡ length self.now.slots - length (needed state) }
    {
        self.contents.free()
    }

    /// Plans a call: its outcome, and the slots of its new rows. Changes nothing.
    ///
    /// Refused `NoSuchClient`, `Spent`, `QueryOpen` or `NoQuery`, and then the call has no number. Else an operation
    /// that is legal here, whose outcome may be that the row is missing or the table full. Finds each row as
    /// [`Store::get`] does, by one chain; all else is constant in the slots.
    pub fn plan(&self, client: u8, call: Call) -> Result<Op, CoreFault>
        ensures exact { Plans self.now client call result }
        ensures state { (state : State) → StandsFor self.now state → PlansIn state self.now client call result }
    {
        match self.contents.plan(None, client, &call.lend()) {
            Ok(planned) => Ok(planned.op()),
            Err(fault) => Err(fault),
        }
    }

    /// Plans a lent call by an index of this store, as [`Store::plan`] does without one. The plan borrows the call: it
    /// is for [`Store::reindex`] and [`Store::perform`].
    #[tactic(auto, using(crate::proofs::LegalLaws::plans_in))]
    pub fn look_up<'a>(
        &self,
        index: &Index,
        client: u8,
        call: &'a LentCall<'a>,
    ) -> Result<Planned<'a>, CoreFault>
        requires { IsIndexOf self.now index.now }
        ensures exact { Plans self.now client call.now (op_or_fault result) }
        ensures state { (state : State) → StandsFor self.now state → PlansIn state self.now client call.now (op_or_fault result) }
    {
        self.contents.plan(Some(index), client, call)
    }

    /// Does a planned call. One that is not legal here changes nothing: so an operation is done once, and in its
    /// turn. Takes no memory. Sees that it is legal by a look at its slots, or plans again where that does not tell,
    /// and then writes the slots that end or begin; a finish or an abandon goes over the ended versions that are kept
    /// for its query.
    pub fn apply(&mut self, op: &Op)
        ensures exact { self.new ≡ applied self.old op.now }
        ensures state { (state : State) → StandsFor self.old state → AppliesIn state self.old op.now self.new }
    {
        let call = op.call.lend();
        self.apply_planned(&op.planned(&call));
    }

    /// Does a planned op, whose call is lent, as [`Store::apply`] does an op: one that is not legal here changes nothing.
    /// Takes no memory.
    pub fn apply_planned(&mut self, op: &Planned<'_>)
        ensures exact { self.new ≡ applied self.old (op_of op.now) }
        ensures state { (state : State) → StandsFor self.old state → AppliesIn state self.old (op_of op.now) self.new }
    {
        if self.contents.is_legal(op) {
            self.perform(op);
        }
    }

    /// Makes the index of this store that of the store after an op which was planned here, and leaves the store as it
    /// is: for whoever does the op next, or in copies of the store alone. Constant in the slots.
    ///
    /// `Err` is out of memory, comes only for an op that adds a row, and leaves the index that of the store.
    pub fn reindex(
        &self,
        alloc: Global,
        index: &mut Index,
        op: &Planned<'_>,
    ) -> Result<(), AllocError>
        requires plan { IsPlan self.now op.now.client op.now.call.now (op_of op.now) }
        requires index { IsIndexOf self.now index.old }
        ensures after { OnOk result (IsIndexOf (applied self.now (op_of op.now)) index.new) }
        ensures same { OnErr result (IsIndexOf self.now index.new) }
        ensures refused { OnErr result (adds op.now.outcome ≡ true) }
    {
        if op.outcome.succeeds() {
            index.follow(&self.contents, op)
        } else {
            Ok(())
        }
    }

    /// Does an op that was planned here. Takes no memory. Constant in the slots, but that a finish or an abandon goes
    /// over the ended versions that are kept for its query.
    #[inline(always)]
    pub fn perform(&mut self, op: &Planned<'_>)
        requires { IsPlan self.old op.now.client op.now.call.now (op_of op.now) }
        ensures exact { self.new ≡ applied self.old (op_of op.now) }
        ensures state { (state : State) → StandsFor self.old state → AppliesIn state self.old (op_of op.now) self.new }
    {
        self.contents.step(op);
    }
}

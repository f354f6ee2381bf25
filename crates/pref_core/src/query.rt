//! An open query: it holds the best levels of what the blocks that it has scanned showed at its begin.

ghost use Rattle.std.specs.Prelude.{◌≡◌, ◌<◌, ◌++◌, map};
ghost use Rattle.pref_sky.specs.Levels.{HaveDifferentIds, entry_of};
ghost use Rattle.pref_core.specs.Scans.{begin, NextIsNew, Reads, Scans, Adds, Answers};

use crate::fault::CoreFault;
use crate::setup::Setup;
use crate::store::Store;
use pref_sky::{Entry, Partial, Ranked, answer};
use pref_term::Ask;
use std::alloc::Global;
use std::marker::Model;

/// An open query: its question, the stamp at its begin, how far it has come, and the best levels of what
/// its blocks showed there.
///
/// It is lent the store for the time of a scan alone, so others may change the table between two scans. What it sees
/// stays the same nevertheless ([`blocks_stay`](crate::laws::blocks_stay)), and it answers the table at its begin
/// ([`answers_the_begin`](crate::laws::answers_the_begin)).
pub struct Query {
    ask: Ask,
    stamp: u64,
    size: u32,
    window: u32,
    done: u32,
    left: u32,
    partial: Partial,
}

// By hand, so that letting one go is a call: a derived `drop` is written out, and proved, at each way out of each
// function that owns one.
impl Drop for Query {
    fn drop(self) {
        let Query {
            ask: _,
            stamp: _,
            size: _,
            window: _,
            done: _,
            left: _,
            partial: _,
        } = self;
    }
}

impl Model for Query {
    ghost use Rattle.pref_core.specs.Scans.{Scan};
    ghost use Rattle.pref_core.specs.Bounds.{IsUnderWay};
    ghost use Rattle.pref_term.specs.PreferenceCode.{coded_question};
    ghost use Rattle.std.specs.Coded.{codes};

    ghost Value = { Scan };

    ghost coded = { Prim.hlevel (codes, coded_question) };

    ghost view = { λ q. record { ask = q.ask; stamp = q.stamp; size = q.size; done = q.done; left = q.left; partial = q.partial } };

    ghost invariant = { λ q. IsUnderWay q.size q.done q.left q.window };
}

impl Query {
    /// A query of the table at this stamp. It is lent no store and takes no memory.
    pub fn begin(ask: Ask, stamp: u64, setup: &Setup) -> Query
        ensures { result ≡ begin ask stamp setup.now }
    {
        Query {
            ask,
            stamp,
            size: setup.block(),
            window: setup.window(),
            done: 0,
            left: setup.blocks(),
            partial: Partial::empty(),
        }
    }

    /// How many blocks it has not scanned.
    pub fn left(&self) -> u32
        ensures { result ≡ self.now.left }
    {
        self.left
    }

    /// Scans the next block, and returns how many are left. No id that the block shows may be held already,
    /// nor come twice: this holds as long as the query lives ([`next_block_is_new`](crate::laws::next_block_is_new)).
    ///
    /// Refused `AllScanned` where no block is left, else `OutOfMemory`; the query is
    /// then as it was. Cost: each slot of the block that was ever used, once, and then that of adding its rows
    /// to a [`Partial`](pref_sky::Partial).
    pub fn scan(&mut self, alloc: Global, store: &Store) -> Result<u32, CoreFault>
        requires { NextIsNew self.old store.now.slots }
        ensures { Scans self.old store.now.slots result self.new }
    {
        let shown = self.read(alloc, store)?;
        self.add(alloc, &shown)
    }

    /// The entries that the next block shows, copied out of the store, so that [`add`](Query::add) needs no store.
    ///
    /// Refused `AllScanned` where no block is left, else `OutOfMemory`. Cost: each slot of the
    /// block that was ever used, once.
    pub fn read(&self, alloc: Global, store: &Store) -> Result<Vec<Entry>, CoreFault>
        ensures { Reads self.now store.now.slots result }
    {
        if self.left == 0 {
            return Err(CoreFault::AllScanned);
        }
        Ok(store.block(alloc, self.done, self.size, self.stamp)?)
    }

    /// Adds the entries that the next block shows, as [`read`](Query::read) copied it out, and returns how many blocks
    /// are left.
    ///
    /// Refused `OutOfMemory`; the query is then as it was.
    pub fn add(&mut self, alloc: Global, shown: &[Entry]) -> Result<u32, CoreFault>
        requires some { 0 < self.old.left }
        requires new { HaveDifferentIds (map entry_of self.old.partial ++ shown.now) }
        ensures { Adds self.old shown.now result self.new }
    {
        let cut = self.ask.cut();
        self.partial
            .add(alloc, &self.ask, self.window as usize, cut, shown)?;
        self.done += 1;
        self.left -= 1;
        Ok(self.left)
    }

    /// The answer, once all blocks are scanned: the question's selection from all that the blocks showed.
    ///
    /// Refused `NotDone` where blocks are left, else `OutOfMemory`; the query stays as it
    /// is either way.
    pub fn answer(&self, alloc: Global) -> Result<Vec<Ranked>, CoreFault>
        ensures { Answers self.now result }
    {
        if self.left > 0 {
            return Err(CoreFault::NotDone {
                left: self.left as u64,
            });
        }
        Ok(answer(alloc, &self.ask, &self.partial)?)
    }
}

//! The levels of entries in order, by one pass: the level of an entry is the first of which no entry before it dominates it.

ghost use Rattle.std.specs.Prelude.{◌≡◌, ◌<◌, ◌≤◌, ◌+◌, ◌-◌, ℕ, suc, cond, nat_lt, Bool, List, IfOk, OnOk, length, map};
ghost use Rattle.pref_sky.specs.OwnOrders.{level_of, own_order};
ghost use Rattle.pref_sky.specs.Items.{entry_at};
ghost use Rattle.pref_sky.specs.Leads.{HasPassed, IsSweptTo, LeadsSweep};
ghost use Rattle.pref_sky.specs.declared.entry.Entry.{Entry};
ghost use Rattle.pref_sky.specs.Sweep.{AreAbove, HasSwept};

use crate::entry::Entry;
use crate::lead::Lead;
use crate::level::Level;
use crate::own_order::OwnOrder;
use std::alloc::{AllocError, Global};

/// How an entry stands to the one before it.
#[derive(Clone, Copy)]
pub(crate) enum Standing {
    /// Alike: it is of the same level.
    Alike,
    /// The same in all leading chains.
    InClass,
    /// Worse in one of these.
    Apart,
}

/// A sweep at some entry: what is kept of each level of the entries before it.
#[derive(Drop)]
pub(crate) struct Sweep {
    pub(crate) levels: Vec<Level>,
    /// The place of the first entry that is the same in all leading chains as the last one.
    pub(crate) class: usize,
    /// How many levels are above the last one; the cut where they are more.
    pub(crate) above: usize,
}

impl Sweep {
    /// How many levels are above the entry at the next place: a search by halves, since where an entry of a level dominates it, one of each level before
    /// does. One that was held already is sought from its level on, by steps that double: mostly it still is of it.
    fn count_above(
        &mut self,
        order: &OwnOrder,
        lead: &Lead,
        entries: &[Entry],
        place: usize,
        signature: u64,
    ) -> usize
        requires { IsSweptTo order.now lead.now entries.now place signature self.old }
        ensures above { AreAbove (own_order order.now) order.now.cut entries.now (entry_at entries.now place) result }
        ensures known { result ≤ length self.new.levels.items }
        ensures still { IsSweptTo order.now lead.now entries.now place signature self.new }
    {
        let held = lead.held_level(place);
        let mut low = held.saturating_sub(1) as usize;
        let mut high = self.levels.len();
        let mut step = if held == 0 { usize::MAX } else { 0 };
        'halves: while low < high {
            let middle = next_between(low, high, step);
            if self.levels[middle].dominates(order, lead, entries, self.class, place, signature) {
                low = middle + 1;
                step = step.saturating_mul(2).saturating_add(1);
            } else {
                high = middle;
            }
        }
        low
    }

    /// Begins the level of the last entry, where it is the first of it.
    fn begin_level(&mut self, alloc: Global) -> Result<(), AllocError>
        ensures same { (self.new.class ≡ self.old.class) × (self.new.above ≡ self.old.above) }
        ensures so_far { (over second third : Entry → Entry → Bool) (rule : Entry → ℕ) (mark : ℕ → ℕ) (cut : ℕ) (all : List Entry) (i : ℕ)
            → HasSwept over second third rule mark cut all i self.old.class self.old.levels.items → self.old.above < cut → self.old.above ≤ length self.old.levels.items
            → OnOk result (HasSwept over second third rule mark cut all i self.new.class self.new.levels.items × (self.new.above < length self.new.levels.items)) }
    {
        if self.above == self.levels.len() {
            self.levels.push(Level::new(alloc))?;
        }
        Ok(())
    }

    /// Keeps the entry at the next place in its level.
    fn put(
        &mut self,
        alloc: Global,
        order: &OwnOrder,
        lead: &Lead,
        entries: &[Entry],
        place: usize,
        signature: u64,
    ) -> Result<(), AllocError>
        requires swept { IsSweptTo order.now lead.now entries.now place signature self.old }
        requires above { AreAbove (own_order order.now) order.now.cut entries.now (entry_at entries.now place) self.old.above }
        requires known { self.old.above ≤ length self.old.levels.items }
        ensures { OnOk result (HasPassed order.now lead.now entries.now (place + 1) self.new) }
    {
        if self.above >= order.cut as usize {
            return Ok(());
        }
        self.begin_level(alloc)?;
        self.levels[self.above].put(
            order, lead, entries, self.class, self.above, place, signature,
        )
    }

    /// Goes on by one entry.
    fn step(
        &mut self,
        alloc: Global,
        order: &OwnOrder,
        lead: &Lead,
        entries: &[Entry],
        place: usize,
    ) -> Result<(), AllocError>
        requires inside { place < length entries.now }
        requires swept { LeadsSweep order.now lead.now entries.now }
        requires passed { HasPassed order.now lead.now entries.now place self.old }
        ensures { OnOk result (HasPassed order.now lead.now entries.now (place + 1) self.new) }
    {
        match lead.standing(order, entries, place) {
            Standing::Alike => return Ok(()),
            Standing::InClass => {}
            Standing::Apart => self.class = place,
        }
        let signature = lead.sign(&entries[place]);
        self.above = self.count_above(order, lead, entries, place, signature);
        self.put(alloc, order, lead, entries, place, signature)
    }

    /// The level of the last entry, from 1 on; 0 where it is below the cut.
    fn level(&self, cut: u32) -> u32
        ensures { result ≡ cond (nat_lt self.now.above cut) (suc self.now.above) 0 }
    {
        if self.above < cut as usize {
            self.above as u32 + 1
        } else {
            0
        }
    }
}

/// Where a search between two places looks next: a step on, and at most half way.
fn next_between(low: usize, high: usize, step: usize) -> usize
    requires { low < high }
    ensures from { low ≤ result }
    ensures to { result < high }
{
    low + step.min((high - low) / 2)
}

/// The level of each of these entries, which are in order; 0 of one that is below the cut.
pub(crate) fn find_levels(
    alloc: Global,
    order: &OwnOrder,
    lead: &Lead,
    entries: &[Entry],
) -> Result<Vec<u32>, AllocError>
    requires { LeadsSweep order.now lead.now entries.now }
    ensures { IfOk result (λ levels. levels.items ≡ map (level_of (own_order order.now) entries.now order.now.cut) entries.now) }
{
    let mut levels = Vec::with_capacity(alloc, entries.len())?;
    let mut sweep = Sweep {
        levels: Vec::new(alloc),
        class: 0,
        above: 0,
    };
    for place in 0..entries.len() {
        sweep.step(alloc, order, lead, entries, place)?;
        levels.push(sweep.level(order.cut))?;
    }
    Ok(levels)
}

//! The places of slots, the free ones first, so that each change takes or gives back a place in constant time.
//!
//! ```text
//! Six slots: rows in 0, 3 and 5; slot 2 holds an ended version that the open query of client 1 needs.
//!
//! use          free    live       ended, for client 1    ended, for client 2 ..
//! order        1  4  | 0  3  5  | 2                    |
//! bounds             2          5                      6                      6 ..
//! positions    of slots 0 to 5:   2  0  5  3  1  4
//!
//! The row in slot 3 ends, and no query needs it: 3 changes places with 0, the first live one, and then the bound
//! between free and live goes up.
//!
//! order        1  4  3  | 0  5  | 2                    |
//! bounds                3       5                      6                      6 ..
//! ```
//!
//! So a free slot is the first in the order, how many are free is the first bound, and the slots that a query kept
//! are side by side.

ghost use Rattle.std.specs.List.{count_by, range_with_len, AllZip};
ghost use Rattle.std.specs.Prelude.{◌≡◌, ◌-◌, ◌<◌, ◌≤◌, ◌++◌, ℕ, suc, true, false, length, map, replicate, Some, slice_get, slice_set, IfOk, IfSome, IfNone};
ghost use Rattle.pref_core.specs.SlotSets.{use_of, number_of, numbered, is_free_use, free_at, IsInverse, MayBecome, rotated, moved_order, moved_positions};
ghost use Rattle.pref_core.specs.Table.{among};

use crate::call::SlotList;
use crate::setup::MOST_CLIENTS;
use crate::store::caller::Caller;
use crate::store::needs::use_of;
use crate::store::version::Version;
use std::alloc::{AllocError, Global};
use std::marker::Model;

/// How many uses there are: the free places, those with a row, and for each client those that its query keeps.
const USES: usize = MOST_CLIENTS as usize + 2;

/// The use of a slot: none, a row of the table, or an ended version that an open query needs.
#[derive(Clone, Copy)]
pub(crate) enum SlotUse {
    Free,
    Live,
    /// The keeper is the first caller, counted from 0, whose open query needs the version.
    Ended { keeper: u8 },
}

impl SlotUse {
    /// Its number among all uses, in the order of their places.
    #[inline(always)]
    fn number(self) -> usize
        ensures { result ≡ number_of self }
    {
        match self {
            SlotUse::Free => 0,
            SlotUse::Live => 1,
            SlotUse::Ended { keeper } => keeper as usize + 2,
        }
    }
}

/// All places in an order of their uses, and for each place its position there.
///
/// The places of a use are up to its bound, from the bound of the use before it on. Two lists that are each other's inverse
/// are the sparse sets of (Briggs, Torczon 1993).
#[derive(Drop)]
pub(crate) struct SlotSets {
    order: Vec<u32>,
    positions: Vec<u32>,
    bounds: [u32; USES],
}

impl Model for SlotSets {
    ghost use Rattle.std.specs.Prelude.{List, map};
    ghost use Rattle.pref_core.specs.declared.store.slot_sets.SlotUse.{SlotUse};
    ghost use Rattle.pref_core.specs.SlotSets.{use_at, IsArranged};

    ghost Value = { List SlotUse };

    ghost view = { λ s. map (use_at s.bounds) s.positions.items };

    ghost invariant = { λ s. IsArranged s.order.items s.positions.items s.bounds };
}

impl SlotSets {
    /// The first places live, as many as there are rows, and the others free.
    pub(crate) fn new(alloc: Global, capacity: u32, rows: u32) -> Result<SlotSets, AllocError>
        requires few { capacity ≤ 65536 }
        requires rows { rows ≤ capacity }
        ensures { IfOk result (λ places. places ≡ replicate rows SlotUse.Live ++ replicate (capacity - rows) SlotUse.Free) }
    {
        let free = capacity - rows;
        let order = rotated(alloc, capacity, rows)?;
        let positions = rotated(alloc, capacity, free)?;
        let mut bounds = [capacity; USES];
        bounds[0] = free;
        Ok(SlotSets {
            order,
            positions,
            bounds,
        })
    }

    /// A copy of these places.
    pub(crate) fn copy(&self, alloc: Global) -> Result<SlotSets, AllocError>
        ensures { IfOk result (λ copy. copy ≡ self.now) }
    {
        let order = Vec::from_slice(alloc, &self.order)?;
        let positions = Vec::from_slice(alloc, &self.positions)?;
        Ok(SlotSets {
            order,
            positions,
            bounds: self.bounds,
        })
    }

    /// After the open query of a caller ended: each place that it kept goes to the next caller that needs it, or is
    /// free. Goes over these places alone.
    #[tactic(auto, using(std::proofs::lemmas::Grind::common_steps, crate::proofs::UsesAfterQuery::sweep_begins, crate::proofs::UsesAfterQuery::swept, crate::proofs::UsesAfterQuery::use_few, std::proofs::lemmas::Option::slice_get_within, std::proofs::lemmas::List::Elements::length_all_zip))]
    pub(crate) fn sweep(&mut self, keeper: u8, slots: &[Option<Version>], callers: &[Caller])
        requires seats { (keeper < 8) × (length callers.now ≤ 8) }
        requires uses { AllZip (MayBecome keeper) self.old (map (use_of callers.now) slots.now) }
        ensures { self.new ≡ map (use_of callers.now) slots.now }
    {
        for _turn in 0..slots.len() {
            let Some(place) = self.any_kept(keeper) else {
                return;
            };
            let next_use = use_of(&slots[place as usize], callers);
            self.put(place, SlotUse::Ended { keeper }, next_use);
        }
    }

    /// How many places are free.
    pub(crate) fn free(&self) -> u32
        ensures value { result ≡ count_by is_free_use self.now }
        ensures few { result ≤ length self.now }
    {
        self.bounds[0]
    }

    /// Whether the place is free.
    #[tactic(auto, using(std::proofs::lemmas::Grind::common_steps, std::proofs::lemmas::Option::gets, std::proofs::lemmas::Option::slice_get_past, crate::proofs::SlotSetsLaws::free_there))]
    pub(crate) fn is_free(&self, place: u32) -> bool
        ensures { result ≡ free_at self.now place }
    {
        match self.positions.get(place as usize) {
            Some(position) => *position < self.bounds[0],
            None => false,
        }
    }

    /// A place that is free and not one of these.
    #[tactic(auto, using(std::proofs::lemmas::Grind::common_steps, crate::proofs::SlotSetsLaws::free_listed, crate::proofs::SlotSetsLaws::listed_free))]
    pub(crate) fn any_free_but(&self, chosen: &SlotList) -> Option<u32>
        ensures found { IfSome result (λ place. (free_at self.now place ≡ true) × (among chosen.now place ≡ false)) }
        ensures none { IfNone result ((place : ℕ) → free_at self.now place ≡ true → among chosen.now place ≡ true) }
    {
        any_but(&self.order[..self.bounds[0] as usize], chosen)
    }

    /// A place that the query of a caller keeps.
    #[tactic(auto, using(std::proofs::lemmas::Grind::common_steps, crate::proofs::SlotSetsLaws::kept_first, crate::proofs::SlotSetsLaws::kept_none))]
    fn any_kept(&self, keeper: u8) -> Option<u32>
        requires { keeper < 8 }
        ensures found { IfSome result (λ place. slice_get self.now place ≡ Some (SlotUse.Ended keeper)) }
        ensures none { IfNone result ((place : ℕ) → slice_get self.now place ≡ Some (SlotUse.Ended keeper) → ⊥) }
    {
        let start = self.bounds[keeper as usize + 1];
        if start < self.bounds[keeper as usize + 2] {
            Some(self.order[start as usize])
        } else {
            None
        }
    }

    /// A place of one use gets another.
    #[inline(always)]
    #[tactic(auto, using(std::proofs::lemmas::Grind::common_steps, crate::proofs::StabilityLaws::writes))]
    pub(crate) fn put(&mut self, place: u32, from: SlotUse, to: SlotUse)
        requires there { slice_get self.old place ≡ Some from }
        requires few { (number_of from < 10) × (number_of to < 10) }
        ensures { self.new ≡ slice_set self.old place to }
    {
        let first = from.number();
        let last = to.number();
        if last < first {
            for step in 0..first - last {
                self.lower(place, first - 1 - step);
            }
        } else {
            for number in first..last {
                self.raise(place, number);
            }
        }
    }

    /// A place goes down to the use before its own.
    fn lower(&mut self, place: u32, to: usize)
        requires there { slice_get self.old place ≡ Some (numbered (suc to)) }
        requires few { to < 9 }
        ensures { self.new ≡ slice_set self.old place (numbered to) }
    {
        let first = self.bounds[to];
        move_to(&mut self.order, &mut self.positions, place, first);
        self.bounds[to] = first + 1;
    }

    /// A place goes up to the use behind its own.
    #[tactic(auto, using(std::proofs::lemmas::Grind::common_steps, crate::proofs::SlotSetsLaws::bound_some, crate::proofs::SlotSetsLaws::raises))]
    fn raise(&mut self, place: u32, from: usize)
        requires there { slice_get self.old place ≡ Some (numbered from) }
        requires few { from < 9 }
        ensures { self.new ≡ slice_set self.old place (numbered (suc from)) }
    {
        let last = self.bounds[from] - 1;
        move_to(&mut self.order, &mut self.positions, place, last);
        self.bounds[from] = last;
    }
}

/// The first of these places that is not chosen.
pub(crate) fn any_but(places: &[u32], chosen: &SlotList) -> Option<u32>
    ensures found { IfSome result (λ place. (among places.now place ≡ true) × (among chosen.now place ≡ false)) }
    ensures none { IfNone result ((place : ℕ) → among places.now place ≡ true → among chosen.now place ≡ true) }
{
    for place in places {
        if !chosen.has(*place) {
            return Some(*place);
        }
    }
    None
}

/// A place goes to a position, and the place there to its own.
fn move_to(order: &mut Vec<u32>, positions: &mut Vec<u32>, place: u32, to: u32)
    requires inverse { IsInverse order.old.items positions.old.items }
    requires place { place < length order.old.items }
    requires to { to < length order.old.items }
    ensures order { order.new.items ≡ moved_order order.old.items positions.old.items place to }
    ensures positions { positions.new.items ≡ moved_positions order.old.items positions.old.items place to }
{
    let from = positions[place as usize];
    let other = order[to as usize];
    order[from as usize] = other;
    order[to as usize] = place;
    positions[place as usize] = to;
    positions[other as usize] = from;
}

/// The numbers below the capacity, from this one on round to it.
#[tactic(auto, using(std::proofs::lemmas::Grind::common_steps))]
fn rotated(alloc: Global, capacity: u32, first: u32) -> Result<Vec<u32>, AllocError>
    requires few { capacity ≤ 65536 }
    requires first { first ≤ capacity }
    ensures { IfOk result (λ v. v.items ≡ map (rotated capacity first) (range_with_len 0 capacity)) }
{
    let back = capacity - first;
    let mut numbers = Vec::with_capacity(alloc, capacity as usize)?;
    for at in 0..capacity {
        let number = if at < back { first + at } else { at - back };
        numbers.push(number)?;
    }
    Ok(numbers)
}

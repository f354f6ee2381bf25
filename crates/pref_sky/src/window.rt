//! A window of bounded size, for block-nested-loops (Börzsönyi, Kossmann, Stocker 2001).

ghost use Rattle.std.specs.Prelude.{◌≡◌, ◌≤◌, vec_capacity, vec_len};
ghost use Rattle.std.specs.List.{list_any};
ghost use Rattle.pref_sky.specs.Best.{is_beaten};
ghost use Rattle.pref_sky.specs.Levels.{entry_order};
ghost use Rattle.pref_sky.specs.Windows.{not_below};

use crate::entry::{Entry, is_over};
use pref_term::Dominance;
use std::alloc::{AllocError, Global};
use std::marker::Model;

/// How an offer of an entry to a window ended.
#[derive(Clone, Copy, Debug, PartialEq, Eq)]
pub enum Offer {
    /// Something that the window holds dominates it. The window is as before.
    Dropped,
    /// It is in the window now, and what it dominates is out.
    Joined,
    /// Nothing held dominates it, and there is no room. The window holds what it held.
    Overflow,
}

/// At most `size` entries; where all were offered by one order, none of them dominates another.
///
/// A contract sees its size, the early entries (those that were there when the pass began, or joined
/// before its first overflow), the late ones (those that joined since), and whether one overflowed.
#[derive(Drop)]
pub struct Window {
    early: Vec<Entry>,
    late: Vec<Entry>,
    size: usize,
    overflowed: bool,
}

impl Model for Window {
    ghost use Rattle.std.specs.Prelude.{◌≤◌, ◌<◌, ◌+◌, ◌≡◌, false, [], vec_len, vec_capacity};
    ghost use Rattle.pref_sky.specs.Windows.{WindowState};

    ghost Value = { WindowState };

    ghost view = { λ a. record { size = a.size; early = a.early.items; late = a.late.items; overflowed = a.overflowed } };

    ghost invariant = { λ a. record {
      within : vec_len a.early + vec_len a.late ≤ a.size;
      early_room : a.size ≤ vec_capacity a.early;
      late_room : a.size ≤ vec_capacity a.late;
      positive : 0 < a.size;
    } };
}

/// Whether one of the entries dominates this one.
fn is_beaten_by<D: Dominance>(dominance: &D, entries: &[Entry], entry: &Entry) -> bool
    ensures { result ≡ is_beaten (entry_order (D.order dominance.now)) entries.now entry.now }
{
    entries.iter().any(|other| is_over(dominance, other, entry))
}

/// Drops the entries that this one dominates.
fn drop_dominated<D: Dominance>(dominance: &D, entries: &mut Vec<Entry>, entry: &Entry)
    ensures items { entries.new.items ≡ not_below (entry_order (D.order dominance.now)) entry.now entries.old.items }
    ensures fewer { vec_len entries.new ≤ vec_len entries.old }
    ensures room { vec_capacity entries.new ≡ vec_capacity entries.old }
{
    entries.retain(|other| !is_over(dominance, entry, other));
}

impl Window {
    ghost use Rattle.std.specs.Prelude.{◌≡◌, ◌<◌, ◌≤◌, ◌++◌, ◌⊎◌, [], length, IfOk, OnOk};
    ghost use Rattle.pref_sky.specs.Levels.{entry_order};
    ghost use Rattle.pref_sky.specs.Windows.{WindowState, Offers, window_at_begin, window_entries};

    /// An empty window with room for `size` entries, 272 bytes each, taken here once.
    ///
    /// `Err` is out of memory.
    pub fn new(alloc: Global, size: usize) -> Result<Window, AllocError>
        requires { 0 < size }
        ensures { IfOk result (λ window. window ≡ window_at_begin size []) }
    {
        Ok(Window {
            early: Vec::with_capacity(alloc, size)?,
            late: Vec::with_capacity(alloc, size)?,
            size,
            overflowed: false,
        })
    }

    /// Offers an entry: it is dropped where something held dominates it; else what it dominates goes out,
    /// and it joins, or overflows where nothing went out of a full window.
    ///
    /// Takes no memory. At most two comparisons for each held entry.
    #[tactic(auto, using(std::proofs::lemmas::Grind::common_steps))]
    pub fn offer<D: Dominance>(&mut self, dominance: &D, entry: Entry) -> Offer
        ensures outcome { Offers (entry_order (D.order dominance.now)) self.old entry result self.new }
        ensures as_before { (result ≡ Offer.Joined) ⊎ (window_entries self.new ≡ window_entries self.old) }
        ensures within { length (window_entries self.new) ≤ self.new.size }
        ensures size { self.new.size ≡ self.old.size }
    {
        if is_beaten_by(dominance, &self.early, &entry)
            || is_beaten_by(dominance, &self.late, &entry)
        {
            return Offer::Dropped;
        }
        drop_dominated(dominance, &mut self.early, &entry);
        drop_dominated(dominance, &mut self.late, &entry);
        if self.early.len() + self.late.len() == self.size {
            self.overflowed = true;
            return Offer::Overflow;
        }
        if self.overflowed {
            self.late.push(entry).unwrap();
        } else {
            self.early.push(entry).unwrap();
        }
        Offer::Joined
    }

    /// Ends a pass: the early entries leave, and stand behind the best. The late ones stay, as the early ones of the next pass.
    ///
    /// `Err` is out of memory.
    pub(crate) fn end_pass(&mut self, best: &mut Vec<Entry>) -> Result<(), AllocError>
        ensures { OnOk result ((best.new.items ≡ best.old.items ++ self.old.early) × (self.new ≡ window_at_begin self.old.size self.old.late)) }
    {
        best.extend_from_slice(&self.early)?;
        self.early.clear();
        std::mem::swap(&mut self.early, &mut self.late);
        self.overflowed = false;
        Ok(())
    }
}

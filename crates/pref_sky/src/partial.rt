//! Partial results: the first levels of a list that is added piece by piece.

ghost use Rattle.std.specs.Prelude.{◌≡◌, ◌<◌, ◌++◌, ◌^◌, [], ℕ, Bool, List, length, map, IfOk, IfSome, OnErr, OnOk};
ghost use Rattle.pref_sky.specs.PartialForms.{ranked_held};
ghost use Rattle.pref_sky.specs.Levels.{HaveDifferentIds, entry_of, entry_order, levels};
ghost use Rattle.pref_sky.specs.declared.entry.Entry.{Entry};

use crate::entry::{Entry, Ranked, entries_of};
use crate::own_order::OwnOrder;
use crate::passes_levels::levels_by_passes;
use crate::sorted::SortedEntries;
use pref_term::Dominance;
use std::alloc::{AllocError, Global};
use std::marker::Model;

/// The entries of a partial result, in one of its two forms.
pub(crate) enum Held {
    /// Nothing was added.
    Nothing,
    /// In the order of a question's keys.
    Sorted(SortedEntries),
    /// With their levels, where the order is no question's.
    Leveled(Vec<Ranked>),
}

// By hand, so that letting one go is a call: a derived `drop` is written out, and proved, at each way out of each function that owns one.
impl Drop for Held {
    fn drop(self) {
        match self {
            Held::Nothing | Held::Sorted(_) | Held::Leveled(_) => {}
        }
    }
}

/// The entries of the levels 1 to a cut among all that were added, in order of level, then id.
///
/// A contract sees the list of them. Each `add` is made with the order and the cut of the first. An entry takes 136 bytes. Beside those of
/// the levels, up to as many, and 64, and a block, are held that may be below the cut, where the order is a question's.
pub struct Partial {
    held: Held,
}

// By hand, so that letting one go is a call: a derived `drop` is written out, and proved, at each way out of each function that owns one.
impl Drop for Partial {
    fn drop(self) {
        let Partial { held: _ } = self;
    }
}

impl Model for Partial {
    ghost use Rattle.std.specs.Prelude.{List, map};
    ghost use Rattle.pref_sky.specs.declared.entry.Ranked.{Ranked};
    ghost use Rattle.pref_sky.specs.PartialForms.{ranked_held};
    ghost use Rattle.pref_sky.specs.Levels.{HaveDifferentIds, entry_of};

    ghost Value = { List Ranked };

    ghost view = { λ a. ranked_held a.held };

    ghost invariant = { λ a. HaveDifferentIds (map entry_of (ranked_held a.held)) };
}

/// Entries as they are held: in the order of a question's keys where the order is a question's, and else with their levels.
#[tactic(auto, using(crate::proofs::OwnOrders::own_levels_are, crate::proofs::LevelLaws::levels_differ))]
fn hold<D: Dominance>(
    alloc: Global,
    dominance: &D,
    window: usize,
    cut: u32,
    entries: &[Entry],
) -> Result<Held, AllocError>
    requires window { 0 < window }
    requires ids { HaveDifferentIds entries.now }
    ensures ids { IfOk result (λ held. HaveDifferentIds (map entry_of (ranked_held held))) }
    ensures levels { IfOk result (λ held. ranked_held held ≡ levels (entry_order (D.order dominance.now)) entries.now cut) }
{
    if let Some(order) = OwnOrder::of(alloc, dominance, cut)? {
        let sorted = SortedEntries::of(alloc, order, entries)?;
        return Ok(Held::Sorted(sorted));
    }
    let ranked = levels_by_passes(alloc, dominance, window, cut, entries)?;
    Ok(Held::Leveled(ranked))
}

impl Held {
    /// The entries that are held, with their levels, in order of level, then id.
    fn ranked(&self, alloc: Global) -> Result<Vec<Ranked>, AllocError>
        ensures { IfOk result (λ ranked. ranked.items ≡ ranked_held self.now) }
    {
        match self {
            Held::Nothing => Ok(Vec::new(alloc)),
            Held::Sorted(sorted) => sorted.ranked(alloc),
            Held::Leveled(ranked) => Ok(Vec::from_slice(alloc, ranked)?),
        }
    }
}

/// The entries held after an addition by an order or a cut that does not go with those held before, or the first one: these and the
/// new ones are begun anew.
#[tactic(auto, using(crate::proofs::SortedLevels::merge, crate::proofs::LevelLaws::merge_none, crate::proofs::Merges::entry_order_is_strict))]
fn hold_anew<D: Dominance>(
    alloc: Global,
    dominance: &D,
    window: usize,
    cut: u32,
    held: &Held,
    entries: &[Entry],
) -> Result<Held, AllocError>
    requires window { 0 < window }
    requires ids { HaveDifferentIds (map entry_of (ranked_held held.now) ++ entries.now) }
    ensures ids { IfOk result (λ held. HaveDifferentIds (map entry_of (ranked_held held))) }
    ensures ok { let over = entry_order (D.order dominance.now) in
        IfOk result (λ anew. (before : List Entry) → HaveDifferentIds (before ++ entries.now) → ranked_held held.now ≡ levels over before cut
        → ranked_held anew ≡ levels over (before ++ entries.now) cut) }
{
    if let Held::Nothing = held {
        return hold(alloc, dominance, window, cut, entries);
    }
    let ranked = held.ranked(alloc)?;
    let mut all = entries_of(alloc, &ranked)?;
    all.extend_from_slice(entries)?;
    hold(alloc, dominance, window, cut, &all)
}

impl Partial {
    /// A partial result to which nothing was added: the levels of no entries. Takes no memory.
    #[must_use]
    #[tactic(auto, using(crate::proofs::LevelLaws::levels_of_none))]
    pub fn empty() -> Partial
        ensures nothing { result ≡ [] }
        ensures levels { (over : Entry → Entry → Bool) (cut : ℕ) → result ≡ levels over [] cut }
    {
        Partial {
            held: Held::Nothing,
        }
    }

    /// The entries that are held, with their levels, in order of level, then id.
    ///
    /// Cost: where the order is a question's, a sort of the entries that came since the last look by its keys, a copy of all, one sweep over
    /// them, and a sort of what it finds by level and id; else a copy. Memory: the list, the copies, 40 bytes for each entry, and what a
    /// sweep keeps of each level: a few places where one or two chains lead, else up to 32 bytes for each of its entries. `Err` is out of memory.
    pub fn ranked(&self, alloc: Global) -> Result<Vec<Ranked>, AllocError>
        ensures { IfOk result (λ ranked. ranked.items ≡ self.now) }
    {
        self.held.ranked(alloc)
    }

    /// Adds entries, of which none has an id that is held: where it held the levels 1 to `cut` of a list,
    /// it then holds those of this list followed by the new entries.
    ///
    /// Where the order is a [question's](pref_term::Dominance::question), new entries are put behind the others as they are, but for those that
    /// one of the last level is seen to dominate. Once they are as many as were held at the last look, and 64, all are put in order of the
    /// question's keys, their levels are found by one sweep, and those below the cut are dropped. Cost of a sweep: for each entry a search by
    /// halves among the levels so far; a level is asked by one comparison where up to three chains lead the question, and else by a look at
    /// the signatures of its entries. Memory: a copy of all entries, 40 bytes for each, and what the sweep keeps. Those below the cut are
    /// dropped in place: their room is given back at the next sweep.
    ///
    /// Where it is no question's, the levels are found anew by the passes of [`best_rows`](crate::best_rows), level by level.
    ///
    /// An addition by another question or cut than the first one begins anew with what is held, at the cost of a copy.
    ///
    /// `Err` is out of memory; the partial result is then as it was.
    #[tactic(auto, using(crate::proofs::OwnOrders::own_levels_are))]
    pub fn add<D: Dominance>(
        &mut self,
        alloc: Global,
        dominance: &D,
        window: usize,
        cut: u32,
        entries: &[Entry],
    ) -> Result<(), AllocError>
        requires window { 0 < window }
        requires ids { HaveDifferentIds (map entry_of self.old ++ entries.now) }

        // Where it held the first levels of some entries, it holds those of these and the new ones.
        ensures ok { let over = entry_order (D.order dominance.now) in
            (before : List Entry) → HaveDifferentIds (before ++ entries.now) → self.old ≡ levels over before cut
            → OnOk result (self.new ≡ levels over (before ++ entries.now) cut) }
        ensures err { OnErr result (self.new ≡ self.old) }
    {
        if let Held::Sorted(sorted) = &mut self.held
            && sorted.pruned.order.is_of(dominance, cut)
        {
            return sorted.add(alloc, entries);
        }
        self.held = hold_anew(alloc, dominance, window, cut, &self.held, entries)?;
        Ok(())
    }
}

/// The entries of the levels 1 to `cut`, in order of level, then id.
///
/// Cost and memory: those of [`Partial::add`] of all entries, and of [`Partial::ranked`]. `Err` is out of memory.
pub fn levels<D: Dominance>(
    alloc: Global,
    dominance: &D,
    window: usize,
    cut: u32,
    entries: &[Entry],
) -> Result<Vec<Ranked>, AllocError>
    requires window { 0 < window }
    requires ids { HaveDifferentIds entries.now }
    ensures { IfOk result (λ ranked. ranked.items ≡ levels (entry_order (D.order dominance.now)) entries.now cut) }
{
    let mut partial = Partial::empty();
    partial.add(alloc, dominance, window, cut, entries)?;
    partial.ranked(alloc)
}

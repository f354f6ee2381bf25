//! Entries of a question: they are kept in the order of its keys, and their levels are found when they are asked for, and when many came,
//! to drop those below the cut.

ghost use Rattle.std.specs.Prelude.{◌≡◌, ◌<◌, ◌++◌, true, List, All, get_or, length, map, IfOk, IfSome, OnErr, OnOk};
ghost use Rattle.pref_sky.specs.OwnOrders.{AreLeveled, AreLowest, is_below, level_of, own_levels, own_order};
ghost use Rattle.pref_sky.specs.Levels.{HaveDifferentIds, entry_of};
ghost use Rattle.pref_sky.specs.declared.entry.Entry.{Entry};
ghost use Rattle.pref_sky.specs.declared.item.Item.{Item};

use crate::entry::{Entry, Ranked, copy_of};
use crate::grouped::compare_groups;
use crate::item::Item;
use crate::lately::Lately;
use crate::lead::Lead;
use crate::merging::{Merged, merge_all};
use crate::own_order::OwnOrder;
use crate::ranking::{drop_below, in_order_of_level};
use crate::sweep::find_levels;
use pref_term::engine::{Scales, in_same_group, is_within};
use std::alloc::{AllocError, Global};

/// The fewest entries that come before the lists are merged.
const MANY: usize = 64;

/// Where most are kept when the lists are merged, so many times as many entries come before they are merged again.
const PATIENT: usize = 3;

/// How many entries a piece of the first addition has, at most.
const PIECE: usize = 64;

/// The entries of a level, signed, by their places.
fn items_of_level(
    alloc: Global,
    scales: &Scales,
    entries: &[Entry],
    levels: &[u32],
    level: u32,
) -> Result<Vec<Item>, AllocError>
    ensures { IfOk result (λ items. All (λ (item : Item). (item.place < length entries.now) × (get_or levels.now item.place 0 ≡ level)) items.items) }
{
    let mut items = Vec::new(alloc);
    for (place, entry) in entries.iter().enumerate() {
        if place < levels.len() && levels[place] == level {
            let signature = scales.signature(&entry.row);
            items.push(Item { signature, place })?;
        }
    }
    Ok(items)
}

/// How many entries come before the lists are merged again: as many as were kept, and more where these are most of those that were merged, since
/// then hardly any will be dropped.
fn wait_for(merged: usize, kept: usize) -> usize {
    let times = if kept > merged / 2 { PATIENT } else { 1 };
    kept.saturating_mul(times).saturating_add(MANY)
}

/// Entries in order, their levels, 0 of one that is below the cut, and scales that suit their order.
#[derive(Drop)]
struct Leveled {
    entries: Vec<Entry>,
    levels: Vec<u32>,
    scales: Scales,
}

/// Entries, mostly in the order of the keys, as they were left when the last ones that are below the cut were dropped.
#[derive(Drop)]
pub(crate) struct Pruned {
    pub(crate) order: OwnOrder,
    pub(crate) entries: Vec<Entry>,
    /// The levels of these entries, by which the next sweep spares comparisons among them.
    levels: Vec<u32>,
    /// The entries of the last level: what one of them dominates is below the cut.
    lowest: Vec<Item>,
    /// By which these are signed. Any scales are right.
    scales: Scales,
    /// How many entries come before the lists are merged again. Any number is right.
    wait: usize,
    /// How new entries were compared with them.
    lately: Lately,
    ghost low: { AreLowest order entries.items lowest.items },
    ghost leveled: { levels.items ≡ map (level_of (own_order order) entries.items order.cut) entries.items },
}

impl Pruned {
    /// Which of those of the last level stands for all where one or two chains lead: the last one that an entry is not earlier than. A search
    /// by halves. Any number is right.
    fn candidate(&self, entry: &Entry) -> usize {
        let mut low = 0;
        let mut high = self.lowest.len();
        while low < high {
            let middle = low + (high - low) / 2;
            let other = &self.entries[self.lowest[middle].place];
            if self.order.compare(entry, other).is_lt() {
                high = middle;
            } else {
                low = middle + 1;
            }
        }
        low.saturating_sub(1)
    }

    /// Where the group of an entry begins among those of the last level. A search by halves. Any number is right.
    fn group_begin(&self, entry: &Entry) -> usize {
        let mut low = 0;
        let mut high = self.lowest.len();
        while low < high {
            let middle = low + (high - low) / 2;
            let other = &self.entries[self.lowest[middle].place];
            if compare_groups(self.order.ask.group(), &other.row, &entry.row).is_lt() {
                low = middle + 1;
            } else {
                high = middle;
            }
        }
        low
    }

    /// Whether the one of the last level that stands somewhere among these dominates an entry.
    #[inline(always)]
    fn dominates(&self, which: usize, entry: &Entry) -> bool
        ensures { result ≡ true → is_below self.now.order self.now.entries.items entry.now ≡ true }
    {
        which < self.lowest.len()
            && self
                .order
                .is_over(&self.entries[self.lowest[which].place], entry)
    }

    /// The first of the last level, from one on, that dominates an entry of its group, as signatures leave it open.
    fn first_over(&self, begin: usize, entry: &Entry) -> Option<usize>
        ensures { IfSome result (λ _. is_below self.now.order self.now.entries.items entry.now ≡ true) }
    {
        let signature = self.scales.signature(&entry.row);
        for which in begin..self.lowest.len() {
            let item = self.lowest[which];
            let other = &self.entries[item.place];
            if is_within(item.signature, signature) {
                if self.order.is_over(other, entry) {
                    return Some(which);
                }
                if !in_same_group(self.order.ask.group(), &other.row, &entry.row) {
                    return None;
                }
            }
        }
        None
    }

    /// One of the last level that dominates an entry; `None` where none is found.
    fn find_over(&self, entry: &Entry) -> Option<usize>
        ensures { IfSome result (λ _. is_below self.now.order self.now.entries.items entry.now ≡ true) }
    {
        if self.scales.is_none() {
            let which = self.candidate(entry);
            return self.dominates(which, entry).then_some(which);
        }
        self.first_over(self.group_begin(entry), entry)
    }

    /// Whether one of the last level is seen to dominate an entry, where looks are made. The one that dominated another last is asked first.
    fn is_seen_below(&mut self, looks: bool, entry: &Entry) -> bool
        ensures below { result ≡ true → is_below self.old.order self.old.entries.items entry.now ≡ true }
        ensures same { (self.new.order ≡ self.old.order) × (self.new.entries ≡ self.old.entries) }
    {
        if !looks {
            return false;
        }
        let slot = self.lately.slot(self.order.ask.group(), &entry.row);
        if self.dominates(self.lately.at(slot), entry) {
            return true;
        }
        if !self.lately.searches.are_worthwhile() {
            return false;
        }
        let found = self.find_over(entry);
        self.lately.note_search(slot, found);
        found.is_some()
    }

    /// Puts the entries that are not seen to be below the cut behind the recent ones: all of them where hardly any of those that came before
    /// was seen to be. Where it is out of memory, some of them.
    fn keep_others(&mut self, recent: &mut Vec<Entry>, entries: &[Entry]) -> Result<(), AllocError>
        ensures same { (self.new.order ≡ self.old.order) × (self.new.entries ≡ self.old.entries) }
        ensures behind { (kept : List Entry) × (recent.new.items ≡ recent.old.items ++ kept) }
        ensures levels { let own = own_levels self.old.order in let all = (self.old.entries.items ++ recent.old.items) ++ entries.now in
            HaveDifferentIds (map entry_of (own all)) → OnOk result (own (self.old.entries.items ++ recent.new.items) ≡ own all) }
    {
        let looks = self.lately.looks.are_worthwhile();
        let held = recent.len();
        for entry in entries {
            if !self.is_seen_below(looks, entry) {
                recent.push(copy_of(entry))?;
            }
        }
        let kept = recent.len().saturating_sub(held);
        self.lately
            .looks
            .note(entries.len(), entries.len().saturating_sub(kept));
        Ok(())
    }

    /// These entries and the recent ones in order, with their levels.
    ///
    /// Cost: a sort of the recent ones, a copy of all entries, and a sweep over them.
    fn with_levels(&self, alloc: Global, recent: &[Entry]) -> Result<Leveled, AllocError>
        ensures { IfOk result (λ leveled. AreLeveled self.now.order (self.now.entries.items ++ recent.now) leveled.entries.items leveled.levels.items) }
    {
        let Merged { entries, held } = merge_all(
            alloc,
            &self.order,
            &self.entries,
            &self.levels,
            recent,
        )?;
        let lead = Lead::of(alloc, &self.order, &entries, held)?;
        let levels = find_levels(alloc, &self.order, &lead, &entries)?;
        // Scales of what stands behind chains say nothing of entries that these tell apart. Among the last level the order itself finds the one
        // that may dominate another.
        let Lead { chains, scales, .. } = lead;
        let scales = if chains.is_empty() {
            scales
        } else {
            Scales::none()
        };
        Ok(Leveled {
            entries,
            levels,
            scales,
        })
    }

    /// Whether so many entries came that it is worth while to look which are below the cut. Where there are no more than the cut, none is.
    fn is_outgrown(&self, recent: usize) -> bool {
        self.entries.len().saturating_add(recent) > self.order.cut as usize && recent >= self.wait
    }

    /// Where many entries came, merges them into these, and drops what is below the cut. The levels of both stay, and where it is out of
    /// memory all does.
    fn prune(&mut self, alloc: Global, recent: &mut Vec<Entry>) -> Result<(), AllocError>
        requires { HaveDifferentIds (map entry_of (own_levels self.old.order (self.old.entries.items ++ recent.old.items))) }
        ensures order { self.new.order ≡ self.old.order }
        ensures levels { own_levels self.new.order (self.new.entries.items ++ recent.new.items) ≡ own_levels self.old.order (self.old.entries.items ++ recent.old.items) }
    {
        if !self.is_outgrown(recent.len()) {
            return Ok(());
        }
        let Leveled {
            mut entries,
            mut levels,
            scales,
        } = self.with_levels(alloc, recent)?;
        let merged = entries.len();
        drop_below(&mut entries, &levels);
        levels.retain(|level| *level > 0);
        let wait = wait_for(merged, entries.len());
        let lowest = items_of_level(alloc, &scales, &entries, &levels, self.order.cut)?;
        self.lowest = lowest;
        self.wait = wait;
        self.scales = scales;
        self.entries = entries;
        self.levels = levels;
        self.lately.begin();
        recent.clear();
        Ok(())
    }
}

/// Entries of a question. Their levels up to the cut are found when they are asked for.
pub(crate) struct SortedEntries {
    pub(crate) pruned: Pruned,
    /// The entries that came since these were pruned.
    pub(crate) recent: Vec<Entry>,
    ghost ids: { HaveDifferentIds (map entry_of (own_levels pruned.order (pruned.entries.items ++ recent.items))) },
}

// By hand, so that letting one go is a call: a derived `drop` is written out, and proved, at each way out of each function that owns one.
impl Drop for SortedEntries {
    fn drop(self) {
        let SortedEntries {
            pruned: _,
            recent: _,
        } = self;
    }
}

impl SortedEntries {
    /// The entries of its levels, in order of level, then id.
    pub(crate) fn ranked(&self, alloc: Global) -> Result<Vec<Ranked>, AllocError>
        ensures { IfOk result (λ ranked. ranked.items ≡ own_levels self.now.pruned.order (self.now.pruned.entries.items ++ self.now.recent.items)) }
    {
        let Leveled {
            entries,
            levels,
            ..
        } = self.pruned.with_levels(alloc, &self.recent)?;
        in_order_of_level(alloc, &entries, &levels)
    }

    /// Adds entries, as [`Partial::add`](crate::Partial::add) does.
    pub(crate) fn add(&mut self, alloc: Global, entries: &[Entry]) -> Result<(), AllocError>
        requires { HaveDifferentIds (map entry_of (own_levels self.old.pruned.order (self.old.pruned.entries.items ++ self.old.recent.items)) ++ entries.now) }
        ensures order { self.new.pruned.order ≡ self.old.pruned.order }
        ensures ok { let own = own_levels self.old.pruned.order in
            (before : List Entry) → HaveDifferentIds (before ++ entries.now) → own (self.old.pruned.entries.items ++ self.old.recent.items) ≡ own before
            → OnOk result (own (self.new.pruned.entries.items ++ self.new.recent.items) ≡ own (before ++ entries.now)) }
        ensures err { let own = own_levels self.old.pruned.order in
            OnErr result (own (self.new.pruned.entries.items ++ self.new.recent.items) ≡ own (self.old.pruned.entries.items ++ self.old.recent.items)) }
    {
        self.pruned.prune(alloc, &mut self.recent)?;
        let held = self.recent.len();
        if let Err(error) = self.pruned.keep_others(&mut self.recent, entries) {
            self.recent.truncate(held);
            return Err(error);
        }
        Ok(())
    }

    /// Holds the levels of these entries. They come in pieces, so that most of them meet entries that were pruned.
    pub(crate) fn of(
        alloc: Global,
        order: OwnOrder,
        entries: &[Entry],
    ) -> Result<SortedEntries, AllocError>
        requires { HaveDifferentIds entries.now }
        ensures order { IfOk result (λ held. held.pruned.order ≡ order) }
        ensures levels { IfOk result (λ held. own_levels order (held.pruned.entries.items ++ held.recent.items) ≡ own_levels order entries.now) }
    {
        let lately = Lately::of(alloc, order.ask.group())?;
        let mut held = SortedEntries {
            pruned: Pruned {
                order,
                entries: Vec::new(alloc),
                levels: Vec::new(alloc),
                lowest: Vec::new(alloc),
                scales: Scales::none(),
                wait: MANY,
                lately,
            },
            recent: Vec::new(alloc),
        };
        let mut rest = entries;
        'each_piece: while !rest.is_empty() {
            let (piece, others) = rest.split_at(PIECE.min(rest.len()));
            held.add(alloc, piece)?;
            rest = others;
        }
        Ok(held)
    }
}

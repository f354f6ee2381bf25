//! What a sweep of entries in order keeps of one level, as far as later entries are compared with it.
//!
//! ```text
//! low(price) * low(distance) * low(noise), in order of price; rows of one level, and its steps after each:
//!
//! rows       (1, 9, 4)   (2, 7, 6)              (3, 5, 8)                         (4, 4, 5)
//! steps      (9, 4)      (7, 6) (9, 4)          (5, 8) (7, 6) (9, 4)              (4, 5) (9, 4)
//! ```
//!
//! All steps are no dearer than what comes later. The last step that is no farther than a later row is the least noisy one of those: where
//! it does not dominate the row, no row of the level does that is not the same in all three.

ghost use Rattle.std.specs.Prelude.{◌≡◌, ◌<◌, ◌≤◌, ◌+◌, ◌&&◌, ℕ, suc, Bool, List, [], true, false, All, MatchOption, OnOk, get_or, length};
ghost use Rattle.pref_term.specs.Signatures.{is_within};
ghost use Rattle.pref_sky.specs.OwnOrders.{comes_after, own_order};
ghost use Rattle.pref_sky.specs.Items.{entry_at};
ghost use Rattle.pref_sky.specs.Leads.{IsClassBy, LeadsSweep, StandsBy, mark_of, rule_of, second_of, third_of};
ghost use Rattle.pref_sky.specs.Members.{Among, SameMembers};
ghost use Rattle.pref_sky.specs.Steps.{AreNoBetter, IsAsked, IsCut, IsStepPut, is_counted};
ghost use Rattle.pref_sky.specs.Sweep.{ArePlaces, IsAskedOf, IsKept, IsMember, IsOfClass, IsOneMore, IsSameLevel, StandsFor, is_at};
ghost use Rattle.pref_sky.specs.declared.entry.Entry.{Entry};
ghost use Rattle.pref_sky.specs.declared.item.Item.{Item};

use crate::entry::Entry;
use crate::item::Item;
use crate::lead::{Lead, SECOND, THIRD};
use crate::own_order::OwnOrder;
use pref_term::engine::is_within;
use std::alloc::{AllocError, Global};

/// What is kept of a level.
#[derive(Drop)]
pub(crate) struct Level {
    /// Places of entries of which each other one is no better than one in the second and the third of the leading chains: from the best in
    /// the second to the best in the third.
    pub(crate) steps: Vec<usize>,
    /// One of each that are alike, of those that are the same in all leading chains as the first entry of a class: what stands behind these
    /// chains decides among them. Here those that were held already, and of this level: none of them dominates another that was so or is
    /// from a level above ..
    pub(crate) run: Vec<Item>,
    /// .. and here those that came, or came down.
    pub(crate) fresh: Vec<Item>,
    /// The place of the first entry of this class.
    pub(crate) class: usize,
}

/// Which steps are counted.
#[derive(Clone, Copy)]
pub(crate) enum Counted {
    /// Those that are better than an entry in the second chain.
    Better,
    /// Those that are no worse.
    NoWorse,
}

/// How many steps stand so to an entry: they are the first ones. A search by halves.
#[inline(always)]
fn count_steps(
    order: &OwnOrder,
    lead: &Lead,
    entries: &[Entry],
    steps: &[usize],
    entry: &Entry,
    counted: Counted,
) -> usize
    requires { All (λ place. place < length entries.now) steps.now }
    ensures { IsCut (is_counted (second_of order.now lead.now) entries.now entry.now counted) steps.now result }
{
    let mut low = 0;
    let mut high = steps.len();
    'halves: while low < high {
        let middle = low + (high - low) / 2;
        let step = &entries[steps[middle]];
        let passes = match counted {
            Counted::Better => lead.is_better_in(order, SECOND, step, entry),
            Counted::NoWorse => !lead.is_better_in(order, SECOND, entry, step),
        };
        if passes {
            low = middle + 1;
        } else {
            high = middle;
        }
    }
    low
}

/// Where, from one place on, the first step stands that is better than an entry in the third chain.
fn end_of_no_better(
    order: &OwnOrder,
    lead: &Lead,
    entries: &[Entry],
    steps: &[usize],
    entry: &Entry,
    from: usize,
) -> usize
    requires places { All (λ place. place < length entries.now) steps.now }
    requires from { from ≤ length steps.now }
    ensures { AreNoBetter (third_of order.now lead.now) entries.now steps.now entry.now from result }
{
    for (skipped, step) in steps[from..].iter().enumerate() {
        if lead.is_better_in(order, THIRD, &entries[*step], entry) {
            return from + skipped;
        }
    }
    steps.len()
}

/// Puts a place among the steps, and takes out those that are no better in the second and third chain.
fn put_step(
    order: &OwnOrder,
    lead: &Lead,
    entries: &[Entry],
    steps: &mut Vec<usize>,
    place: usize,
) -> Result<(), AllocError>
    requires inside { place < length entries.now }
    requires places { All (λ p. p < length entries.now) steps.old.items }
    ensures { OnOk result (IsStepPut (second_of order.now lead.now) (third_of order.now lead.now) entries.now steps.old.items place steps.new.items) }
{
    let entry = &entries[place];
    let from = count_steps(order, lead, entries, steps, entry, Counted::Better);
    let to = end_of_no_better(order, lead, entries, steps, entry, from);
    if from == to {
        steps.insert(from, place)?;
    } else {
        // Mostly one step is replaced: then none moves.
        steps[from] = place;
        drop(steps.drain(from + 1..to));
    }
    Ok(())
}

/// Whether one of these dominates the entry at a place. The one that does is met sooner the next time.
fn has_one_over(
    order: &OwnOrder,
    entries: &[Entry],
    items: &mut Vec<Item>,
    place: usize,
    signature: u64,
) -> bool
    requires inside { place < length entries.now }
    requires places { All (λ (x : Item). x.place < length entries.now) items.old.items }
    ensures same { SameMembers items.old.items items.new.items }
    ensures found { result ≡ true → (x : Item) × Among x items.old.items × (own_order order.now (entry_at entries.now x.place) (entry_at entries.now place) ≡ true) }
    ensures none { result ≡ false → (x : Item) → Among x items.old.items → (is_within x.signature signature && own_order order.now (entry_at entries.now x.place) (entry_at entries.now place)) ≡ false }
{
    let entry = &entries[place];
    for (at, item) in items.iter().enumerate() {
        if is_within(item.signature, signature) && order.is_over(&entries[item.place], entry) {
            items.swap(at / 2, at);
            return true;
        }
    }
    false
}

impl Level {
    /// Nothing of a level. Takes no memory.
    pub(crate) fn new(alloc: Global) -> Level
        ensures { (over second third : Entry → Entry → Bool) (rule : Entry → ℕ) (mark : ℕ → ℕ) (all : List Entry) (class i n : ℕ)
            → ((j : ℕ) → IsMember over all i n j → ⊥) → StandsFor over second third rule mark all class i n result }
    {
        Level {
            steps: Vec::new(alloc),
            run: Vec::new(alloc),
            fresh: Vec::new(alloc),
            class: 0,
        }
    }

    /// Whether a step dominates an entry that comes later: the last one that is no worse in the second chain stands for all. Where there is
    /// one step, as with one or two chains, it is asked at once.
    fn has_step_over(&self, order: &OwnOrder, lead: &Lead, entries: &[Entry], entry: &Entry) -> bool
        requires { All (λ place. place < length entries.now) self.now.steps.items }
        ensures { IsAsked (own_order order.now) (second_of order.now lead.now) entries.now self.now.steps.items entry.now result }
    {
        if self.steps.len() == 1 {
            return order.is_over(&entries[self.steps[0]], entry);
        }
        let count = count_steps(order, lead, entries, &self.steps, entry, Counted::NoWorse);
        count > 0 && order.is_over(&entries[self.steps[count - 1]], entry)
    }

    /// Whether one that is kept dominates the entry at a place, which is of this class. Of those that were held already none does where that
    /// entry was held too, of this level or of one above: then they are not asked.
    #[inline(always)]
    fn has_kept_over(
        &mut self,
        order: &OwnOrder,
        lead: &Lead,
        entries: &[Entry],
        class: usize,
        place: usize,
        signature: u64,
    ) -> bool
        requires inside { place < length entries.now }
        requires places { ArePlaces entries.now self.old }
        ensures same { IsSameLevel self.old self.new }
        ensures found { result ≡ true → (x : Item) × IsKept x self.old × (own_order order.now (entry_at entries.now x.place) (entry_at entries.now place) ≡ true) }
        ensures none { result ≡ false → self.old.class ≡ class → (x : Item) → IsAskedOf (mark_of lead.now place) x self.old
            → (is_within x.signature signature && own_order order.now (entry_at entries.now x.place) (entry_at entries.now place)) ≡ false }
    {
        self.class == class
            && (has_one_over(order, entries, &mut self.fresh, place, signature)
                || (lead.held_level(place) == 0
                    && has_one_over(order, entries, &mut self.run, place, signature)))
    }

    /// Whether an entry of this level dominates the one at a place behind them, which is of this class. Where that one was held already, this is
    /// the level that it was of, or one below.
    ///
    /// Cost: a search by halves among the steps, and where the level has entries of the class, a look at the signatures of those that are
    /// asked.
    pub(crate) fn dominates(
        &mut self,
        order: &OwnOrder,
        lead: &Lead,
        entries: &[Entry],
        class: usize,
        place: usize,
        signature: u64,
    ) -> bool
        requires inside { place < length entries.now }
        requires places { ArePlaces entries.now self.old }
        requires signature { signature ≡ rule_of lead.now (entry_at entries.now place) }
        ensures same { IsSameLevel self.old self.new }
        ensures dominated { let over = own_order order.now in
            LeadsSweep order.now lead.now entries.now → IsClassBy order.now lead.now entries.now class place
            → (n : ℕ) → StandsBy order.now lead.now entries.now class place n self.old
            → mark_of lead.now place ≤ suc n → result ≡ comes_after over entries.now (suc n) (entry_at entries.now place) }
    {
        let entry = &entries[place];
        self.has_step_over(order, lead, entries, entry)
            || self.has_kept_over(order, lead, entries, class, place, signature)
    }

    /// Begins a class, unless it is this one already.
    fn begin_class(&mut self, class: usize)
        ensures { IsOfClass self.old class self.new }
    {
        if self.class != class {
            self.run.clear();
            self.fresh.clear();
            self.class = class;
        }
    }

    /// Keeps one of a class, which begins where it is not this one already. So many levels are above it.
    fn keep(
        &mut self,
        lead: &Lead,
        class: usize,
        above: usize,
        item: Item,
    ) -> Result<(), AllocError>
        ensures { OnOk result (IsOneMore (mark_of lead.now) above self.old class item self.new) }
    {
        self.begin_class(class);
        if lead.was_below(item.place, above) {
            self.run.push(item)?;
        } else {
            self.fresh.push(item)?;
        }
        Ok(())
    }

    /// Keeps the entry at a place behind all others of the level, which is of it and of this class. So many levels are above it.
    pub(crate) fn put(
        &mut self,
        order: &OwnOrder,
        lead: &Lead,
        entries: &[Entry],
        class: usize,
        above: usize,
        place: usize,
        signature: u64,
    ) -> Result<(), AllocError>
        requires inside { place < length entries.now }
        requires places { ArePlaces entries.now self.old }
        requires signature { signature ≡ rule_of lead.now (entry_at entries.now place) }
        ensures { let over = own_order order.now in
            LeadsSweep order.now lead.now entries.now → IsClassBy order.now lead.now entries.now class place
            → StandsBy order.now lead.now entries.now class place above self.old
            → is_at over entries.now above (entry_at entries.now place) ≡ true
            → OnOk result (StandsBy order.now lead.now entries.now class (place + 1) above self.new) }
    {
        put_step(order, lead, entries, &mut self.steps, place)?;
        self.keep(lead, class, above, Item { signature, place })
    }
}

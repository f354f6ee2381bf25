//! What leads the order of entries in a sweep: up to three chains, whose product decides wherever it sees a difference.

ghost use Rattle.std.specs.Prelude.{◌≡◌, ◌<◌, ◌≤◌, ◌-◌, ◌&&◌, ◌⊎◌, [], suc, true, false, All, IfOk, get_or, length, map};
ghost use Rattle.pref_term.specs.Chains.{AreInRow, by_chain};
ghost use Rattle.pref_term.specs.Order.{StandAlike, is_same};
ghost use Rattle.pref_sky.specs.Chains.{better_in, earlier_in, in_turn};
ghost use Rattle.pref_sky.specs.ChosenChains.{SayTheSame, tells_apart};
ghost use Rattle.pref_sky.specs.Held.{AreHeld};
ghost use Rattle.pref_sky.specs.Items.{entry_at};
ghost use Rattle.pref_sky.specs.OwnOrders.{AreInOrder, own_order};
ghost use Rattle.pref_sky.specs.Sweep.{are_level_in};

use crate::entry::Entry;
use crate::grouped::compare_groups;
use crate::own_order::OwnOrder;
use crate::signatures::{scales_behind, scales_of};
use crate::sweep::Standing;
use pref_table::Row;
use pref_term::Relation;
use pref_term::engine::{Chain, Scales, in_same_group};
use std::alloc::{AllocError, Global};
use std::cmp::Ordering;

/// The most chains that lead a sweep, as many as pref_term puts a chain before: of each level then a list of steps is kept, of which one is asked.
const MAX_CHAINS: usize = 3;

/// The second of them, by which the steps of a level are in order ..
pub(crate) const SECOND: usize = 1;

/// .. and the third, by which they are so the other way round.
pub(crate) const THIRD: usize = 2;

/// What leads the order of entries in a sweep.
#[derive(Drop)]
pub(crate) struct Lead<'a> {
    /// The chains whose product leads it, at most three.
    pub(crate) chains: Vec<&'a Chain>,
    /// By which entries are signed that are the same in all chains: of two of these the better one has no bit that the other lacks.
    pub(crate) scales: Scales,
    /// The levels of which these entries were when they were held already, from 1 on; 0 of one that is new.
    pub(crate) held: Vec<u32>,
    ghost in_row: { All (λ chain. AreInRow chain.now) chains.items },
}

/// Whether one of these entries differs from the first in a chain.
fn tells_apart(chain: &Chain, entries: &[Entry]) -> bool
    requires { AreInRow chain.now }
    ensures { result ≡ tells_apart chain.now entries.now }
{
    for entry in entries {
        if !chain.compare(&entries[0].row, &entry.row).is_same() {
            return true;
        }
    }
    false
}

/// The chains that lead these entries: those that lead the order, where they are no more than three; else those of them that tell
/// entries apart, and none where these are more than three too.
fn chosen_chains<'a>(
    alloc: Global,
    chains: &'a [Chain],
    entries: &[Entry],
) -> Result<Vec<&'a Chain>, AllocError>
    requires { All AreInRow chains.now }
    ensures few { IfOk result (λ chosen. length chosen.items ≤ 3) }
    ensures in_row { IfOk result (λ chosen. All (λ chain. AreInRow chain.now) chosen.items) }
    ensures same { IfOk result (λ chosen. (chosen.items ≡ []) ⊎ SayTheSame entries.now chains.now (map (λ chain. chain.now) chosen.items)) }
{
    let few = chains.len() <= MAX_CHAINS;
    let mut chosen = Vec::with_capacity(alloc, chains.len())?;
    for chain in chains {
        if few || tells_apart(chain, entries) {
            chosen.push(chain)?;
        }
    }
    if chosen.len() > MAX_CHAINS {
        return Ok(Vec::new(alloc));
    }
    Ok(chosen)
}

impl<'a> Lead<'a> {
    // Here, since what the file names at its top may not name the struct.
    ghost use Rattle.pref_sky.specs.Leads.{LeadsSweep, behind_first, chain_at, first_of, mark_of, rule_of, second_of, third_of};

    /// What leads these entries, which are in order, and of which some were held already, of these levels.
    ///
    /// Cost: for more than three chains a look at each two entries that stand beside each other, until they are told apart. Memory: a list of
    /// chains, and scales of what they leave open.
    pub(crate) fn of(
        alloc: Global,
        order: &'a OwnOrder,
        entries: &[Entry],
        held: Vec<u32>,
    ) -> Result<Lead<'a>, AllocError>
        requires in_order { AreInOrder order.now entries.now }
        requires held { AreHeld (own_order order.now) order.now.cut (λ place. get_or held.items place 0) entries.now }
        ensures { IfOk result (λ lead. LeadsSweep order.now lead entries.now) }
    {
        let leading = order.ask.leading();
        let chains = chosen_chains(alloc, leading.chains, entries)?;
        let scales = if chains.is_empty() {
            scales_of(alloc, &order.ask, entries)?
        } else {
            scales_behind(alloc, &leading, entries)?
        };
        Ok(Lead {
            chains,
            scales,
            held,
        })
    }

    /// How two rows of a group compare in the n-th chain from 0 on: the same where there is none.
    #[inline(always)]
    fn compare(&self, n: usize, a: &Row, b: &Row) -> Relation
        ensures { result ≡ by_chain (chain_at self.now n) a.now b.now }
    {
        if n < self.chains.len() {
            self.chains[n].compare(a, b)
        } else {
            Relation::Same
        }
    }

    /// Whether the first entry is better in the n-th chain, of those behind the first one: there the rows of the later group are better.
    #[inline(always)]
    pub(crate) fn is_better_in(&self, order: &OwnOrder, n: usize, a: &Entry, b: &Entry) -> bool
        ensures { result ≡ behind_first order.now self.now n a.now b.now }
    {
        match compare_groups(order.ask.group(), &b.row, &a.row) {
            Ordering::Less => true,
            Ordering::Equal => self.compare(n, &a.row, &b.row).is_better(),
            Ordering::Greater => false,
        }
    }

    /// Whether two rows are the same in all chains.
    fn is_same(&self, a: &Row, b: &Row) -> bool
        ensures { result ≡ (is_same (by_chain (chain_at self.now 0) a.now b.now) && (is_same (by_chain (chain_at self.now 1) a.now b.now) && is_same (by_chain (chain_at self.now 2) a.now b.now))) }
    {
        self.compare(0, a, b).is_same()
            && self.compare(1, a, b).is_same()
            && self.compare(2, a, b).is_same()
    }

    /// How the entry at a place stands to the one before it; the first one is apart. Cost: for entries that are alike one comparison of their
    /// rows.
    pub(crate) fn standing(&self, order: &OwnOrder, entries: &[Entry], place: usize) -> Standing
        requires inside { place < length entries.now }
        requires swept { LeadsSweep order.now self.now entries.now }
        ensures alike { result ≡ Standing.Alike → StandAlike (own_order order.now) (entry_at entries.now (place - 1)) (entry_at entries.now place) }
        ensures same { (result ≡ Standing.Apart → ⊥) → (0 < place) × (are_level_in (first_of order.now self.now) (second_of order.now self.now) (third_of order.now self.now)
            (entry_at entries.now (place - 1)) (entry_at entries.now place) ≡ true) }
        ensures apart { result ≡ Standing.Apart → 0 < place → are_level_in (first_of order.now self.now) (second_of order.now self.now) (third_of order.now self.now)
            (entry_at entries.now (place - 1)) (entry_at entries.now place) ≡ false }
    {
        if place == 0 {
            return Standing::Apart;
        }
        let (a, b) = (&entries[place - 1].row, &entries[place].row);
        if !order.ask.distinct() && order.ask.compare_in_order(a, b).is_same() {
            return Standing::Alike;
        }
        if in_same_group(order.ask.group(), a, b) && self.is_same(a, b) {
            Standing::InClass
        } else {
            Standing::Apart
        }
    }

    /// The signature of an entry.
    #[inline(always)]
    pub(crate) fn sign(&self, entry: &Entry) -> u64
        ensures { result ≡ rule_of self.now entry.now }
    {
        self.scales.signature(&entry.row)
    }

    /// The level of which the entry at a place was when it was held already, from 1 on; 0 where it is new.
    #[inline(always)]
    pub(crate) fn held_level(&self, place: usize) -> u32
        ensures { result ≡ mark_of self.now place }
    {
        if place < self.held.len() {
            self.held[place]
        } else {
            0
        }
    }

    /// Whether the entry at a place was held already, and of the level that so many are above.
    #[inline(always)]
    pub(crate) fn was_below(&self, place: usize, above: usize) -> bool
        ensures { result ≡ true → mark_of self.now place ≡ suc above }
    {
        let level = self.held_level(place) as usize;
        level > 0 && level - 1 == above
    }
}

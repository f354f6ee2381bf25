//! Entries in the order of a question's keys: new ones come to those that are in order.

ghost use Rattle.std.specs.Prelude.{◌≡◌, ◌<◌, ◌++◌, length, map, ℕ, IfOk, OnOk, get_or};
ghost use Rattle.pref_sky.specs.Held.{AreTakenOver};
ghost use Rattle.pref_sky.specs.Items.{entry_at};
ghost use Rattle.pref_sky.specs.Levels.{entry_of};
ghost use Rattle.pref_sky.specs.OwnOrders.{AreSorted};
ghost use Rattle.pref_sky.specs.Ranking.{marks, with_level};
ghost use Rattle.pref_sky.specs.declared.entry.Entry.{Entry};

use crate::entry::{Entry, copy_of};
use crate::own_order::OwnOrder;
use std::alloc::{AllocError, Global};

/// An entry, and a level of it, or 0. It is sorted in place of the entry, which is long.
#[derive(Clone, Copy)]
pub(crate) struct Marked<'a> {
    pub(crate) entry: &'a Entry,
    pub(crate) level: u32,
}

/// Puts entries behind others, each with the level at its place; 0 where a list has none there.
pub(crate) fn mark<'a>(
    marked: &mut Vec<Marked<'a>>,
    entries: &'a [Entry],
    levels: &[u32],
) -> Result<(), AllocError>
    ensures { (level : Entry → ℕ) → ((k : ℕ) → k < length entries.now → get_or levels.now k 0 ≡ level (entry_at entries.now k))
        → OnOk result (marks marked.new.items ≡ marks marked.old.items ++ map (with_level level) entries.now) }
{
    for (place, entry) in entries.iter().enumerate() {
        let level = if place < levels.len() {
            levels[place]
        } else {
            0
        };
        marked.push(Marked { entry, level })?;
    }
    Ok(())
}

/// Entries that are in order, and of each the level that it had where it was held before, and 0 where it is new.
#[derive(Drop)]
pub(crate) struct Merged {
    pub(crate) entries: Vec<Entry>,
    pub(crate) held: Vec<u32>,
}

/// Copies of these entries, and their levels.
fn copied(alloc: Global, marked: &[Marked]) -> Result<Merged, AllocError>
    ensures { IfOk result (λ merged. (merged.entries.items ≡ map entry_of (marks marked.now)) × (merged.held.items ≡ map (λ one. one.level) (marks marked.now))) }
{
    let mut entries = Vec::with_capacity(alloc, marked.len())?;
    let mut held = Vec::with_capacity(alloc, marked.len())?;
    for one in marked {
        entries.push(copy_of(one.entry))?;
        held.push(one.level)?;
    }
    Ok(Merged { entries, held })
}

/// The entries of a list, which were held and have these levels, and those of another, in order.
///
/// Cost: a copy of all, and a sort of references to them, which sees that the first ones are in order. Memory: the copy, four bytes for
/// each, and while they are sorted 32.
pub(crate) fn merge_all(
    alloc: Global,
    order: &OwnOrder,
    sorted: &[Entry],
    levels: &[u32],
    recent: &[Entry],
) -> Result<Merged, AllocError>
    ensures { (level : Entry → ℕ) → levels.now ≡ map level sorted.now
        → IfOk result (λ merged. AreSorted order.now (sorted.now ++ recent.now) merged.entries.items × AreTakenOver level sorted.now merged.entries.items merged.held.items) }
{
    let mut marked = Vec::with_capacity(alloc, sorted.len().saturating_add(recent.len()))?;
    mark(&mut marked, sorted, levels)?;
    mark(&mut marked, recent, &[])?;
    marked.sort_by(|a, b| order.compare(a.entry, b.entry))?;
    copied(alloc, &marked)
}

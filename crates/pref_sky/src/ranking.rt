//! Entries of a list with their levels, 0 of one that is below the cut: those below are dropped, and those of an answer put in its order.

ghost use Rattle.std.specs.Prelude.{◌≡◌, ℕ, filter, map, nat_lt, IfOk};
ghost use Rattle.pref_sky.specs.Ranking.{AreInRanks, leveled, marks};
ghost use Rattle.pref_sky.specs.declared.entry.Entry.{Entry};

use crate::entry::{Entry, Ranked};
use crate::merging::{Marked, mark};
use std::alloc::{AllocError, Global};

/// Drops each element whose level is 0. Takes no memory, and gives none back.
pub(crate) fn drop_below<T: Copy>(elements: &mut Vec<T>, levels: &[u32])
    ensures { (level : T → ℕ) → levels.now ≡ map level elements.old.items → elements.new.items ≡ filter (λ x. nat_lt 0 (level x)) elements.old.items }
{
    let mut count = 0;
    for place in 0..elements.len().min(levels.len()) {
        let level = levels[place];
        if level > 0 {
            elements[count] = elements[place];
            count += 1;
        }
    }
    elements.truncate(count);
}

/// The entries that are marked, with their levels.
fn ranked_of(alloc: Global, marked: &[Marked]) -> Result<Vec<Ranked>, AllocError>
    ensures { IfOk result (λ ranked. ranked.items ≡ marks marked.now) }
{
    let mut ranked = Vec::with_capacity(alloc, marked.len())?;
    for one in marked {
        ranked.push(Ranked {
            level: one.level,
            id: one.entry.id,
            row: one.entry.row,
        })?;
    }
    Ok(ranked)
}

/// The entries whose level is not 0, in order of level, then id.
///
/// Memory: 16 bytes for each entry, and the list.
pub(crate) fn in_order_of_level(
    alloc: Global,
    entries: &[Entry],
    levels: &[u32],
) -> Result<Vec<Ranked>, AllocError>
    ensures { (level : Entry → ℕ) → levels.now ≡ map level entries.now → IfOk result (λ ranked. AreInRanks (leveled level entries.now) ranked.items) }
{
    let mut marked = Vec::with_capacity(alloc, entries.len())?;
    mark(&mut marked, entries, levels)?;
    marked.retain(|one| one.level > 0);
    marked.sort_unstable_by_key(|one| (one.level, one.entry.id));
    ranked_of(alloc, &marked)
}

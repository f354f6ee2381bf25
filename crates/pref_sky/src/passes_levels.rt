//! The levels of entries by an order that names no question: by block-nested-loops, level by level.

ghost use Rattle.std.specs.Prelude.{◌≡◌, ◌<◌, ◌++◌, ◌==◌, map, IfOk, OnOk};
ghost use Rattle.std.specs.List.{list_any};
ghost use Rattle.std.specs.List.Sorted.{IsNonDecreasingBy};
ghost use Rattle.pref_sky.specs.Levels.{HaveDifferentIds, at_level, entry_order, levels};

use crate::best::best_rows;
use crate::entry::{Entry, Ranked};
use pref_term::Dominance;
use std::alloc::{AllocError, Global};

/// Puts entries as those of a level behind others.
fn push_level(ranked: &mut Vec<Ranked>, level: u32, entries: &[Entry]) -> Result<(), AllocError>
    ensures { OnOk result (ranked.new.items ≡ ranked.old.items ++ map (at_level level) entries.now) }
{
    for entry in entries {
        ranked.push(Ranked {
            level,
            id: entry.id,
            row: entry.row,
        })?;
    }
    Ok(())
}

/// Whether one of these, which are to be in order of id, has this id: a search by halves.
fn have_id(entries: &[Entry], id: u64) -> bool
    ensures { IsNonDecreasingBy (λ e. e.id) entries.now → result ≡ list_any (λ e. e.id == id) entries.now }
{
    entries.binary_search_by_key(&id, |entry| entry.id).is_ok()
}

/// The entries of the levels 1 to `cut`, in order of level, then id.
///
/// Cost: for each level the passes of [`best_rows`](crate::best_rows) over what the levels before leave, until nothing is left.
pub(crate) fn levels_by_passes<D: Dominance>(
    alloc: Global,
    dominance: &D,
    window: usize,
    cut: u32,
    entries: &[Entry],
) -> Result<Vec<Ranked>, AllocError>
    requires window { 0 < window }
    requires ids { HaveDifferentIds entries.now }
    ensures { IfOk result (λ ranked. ranked.items ≡ levels (entry_order (D.order dominance.now)) entries.now cut) }
{
    let mut ranked = Vec::new(alloc);
    let mut left = Vec::from_slice(alloc, entries)?;
    let mut level = 0;
    'each_level: while level < cut && !left.is_empty() {
        let best = best_rows(alloc, dominance, window, &left)?;
        left.retain(|entry| !have_id(&best, entry.id));
        level += 1;
        push_level(&mut ranked, level, &best)?;
    }
    Ok(ranked)
}

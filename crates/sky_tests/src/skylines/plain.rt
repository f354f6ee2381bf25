//! The definitions' own programs, which compare each entry with each: the tests hold the fast ones
//! against them.

ghost use Rattle.std.specs.Prelude.{◌≡◌, ◌<◌, ◌++◌, List, map, IfOk};
ghost use Rattle.pref_sky.specs.Best.{best, is_beaten};
ghost use Rattle.pref_sky.specs.Levels.{HaveDifferentIds, entry_of, entry_order, in_order_of_id, levels};
ghost use Rattle.pref_sky.specs.declared.entry.Entry.{Entry};

use pref_sky::{Entry, Partial, Ranked, levels};
use pref_term::Dominance;
use std::alloc::{AllocError, Global};

/// Whether some entry of the list dominates this one, or is its twin with a smaller id.
fn is_beaten<D: Dominance>(dominance: &D, entries: &[Entry], entry: &Entry) -> bool
    ensures { result ≡ is_beaten (entry_order (D.order dominance.now)) entries.now entry.now }
{
    entries.iter().any(|other| {
        dominance.over(&other.row, &entry.row)
            || (dominance.twin(&other.row, &entry.row) && other.id < entry.id)
    })
}

/// The list of `best_rows`, found by comparing each entry with each.
pub(crate) fn best_rows_by_pairs<D: Dominance>(
    alloc: Global,
    dominance: &D,
    entries: &[Entry],
) -> Result<Vec<Entry>, AllocError>
    requires { HaveDifferentIds entries.now }
    ensures { IfOk result (λ found. found.items ≡ in_order_of_id (best (entry_order (D.order dominance.now)) entries.now)) }
{
    let mut unbeaten = Vec::new(alloc);
    for entry in entries {
        if !is_beaten(dominance, entries, entry) {
            unbeaten.push(*entry)?;
        }
    }
    unbeaten.sort_unstable_by_key(|entry| entry.id);
    Ok(unbeaten)
}

/// The entries of a partial result, without their levels.
fn without_levels(alloc: Global, ranked: &[Ranked]) -> Result<Vec<Entry>, AllocError>
    ensures { IfOk result (λ entries. entries.items ≡ map entry_of ranked.now) }
{
    ranked
        .iter()
        .map(|held| Entry {
            id: held.id,
            row: held.row,
        })
        .collect(alloc)
}

/// What `Partial::add` leaves, found as the levels of all that is held and the new entries together.
pub(crate) fn add_plainly<D: Dominance>(
    alloc: Global,
    dominance: &D,
    window: usize,
    cut: u32,
    partial: &Partial,
    entries: &[Entry],
) -> Result<Vec<Ranked>, AllocError>
    requires window { 0 < window }
    requires ids { HaveDifferentIds (map entry_of partial.now ++ entries.now) }
    ensures { IfOk result (λ ranked. let over = entry_order (D.order dominance.now) in
        (before : List Entry) → HaveDifferentIds (before ++ entries.now) → partial.now ≡ levels over before cut
        → ranked.items ≡ levels over (before ++ entries.now) cut) }
{
    let held = partial.ranked(alloc)?;
    let mut all = without_levels(alloc, &held)?;
    all.extend_from_slice(entries)?;
    levels(alloc, dominance, window, cut, &all)
}

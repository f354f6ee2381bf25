//! The best entries of a list, by block-nested-loops (Börzsönyi, Kossmann, Stocker 2001).
//!
//! ```text
//! A window of two, and the entries a b c d, of which d dominates b:
//!
//!             early    late    overflow
//! a and b     a b
//! c           a b              c           the window is full
//! d           a        d       c           d joined after c overflowed: these two have not met
//! end         a is best: it has met all that overflowed
//!
//! next pass   d                            its input is c
//! c           d c
//! end         d and c are best
//! ```
//!
//! The late ones stay in the window, where what overflowed meets them.

ghost use Rattle.std.specs.Prelude.{◌≡◌, ◌<◌, ◌≤◌, [], ℕ, List, length, IfOk};
ghost use Rattle.pref_sky.specs.Best.{best};
ghost use Rattle.pref_sky.specs.Levels.{HaveDifferentIds, entry_order, in_order_of_id};
ghost use Rattle.pref_sky.specs.Passes.{Passing};
ghost use Rattle.pref_sky.specs.declared.entry.Entry.{Entry};

use crate::entry::Entry;
use crate::window::{Offer, Window};
use pref_term::Dominance;
use std::alloc::{AllocError, Global};

/// Offers entries to a window in order. Gives those that overflow.
fn offer_all<D: Dominance>(
    alloc: Global,
    dominance: &D,
    window: &mut Window,
    entries: &[Entry],
) -> Result<Vec<Entry>, AllocError>
    ensures { IfOk result (λ overflow. (all best : List Entry) (begun : ℕ)
        → Passing (entry_order (D.order dominance.now)) all best begun window.old [] entries.now
        → Passing (entry_order (D.order dominance.now)) all best begun window.new overflow.items []) }
{
    let mut overflow = Vec::new(alloc);
    for entry in entries {
        match window.offer(dominance, *entry) {
            Offer::Overflow => overflow.push(*entry)?,
            Offer::Joined | Offer::Dropped => {}
        }
    }
    Ok(overflow)
}

/// The entries that no entry dominates, in order of id, and the number of passes.
///
/// Block-nested-loops: a pass offers its input in order to one window of at most `window` entries, and
/// what overflows is the next pass's input. At the end of a pass the entries that were compared with
/// all that overflowed are returned as best and leave the window. The list doesn't depend on `window`.
///
/// Cost: for each entry of a pass at most two comparisons with each entry of the window; one pass where nothing
/// overflows, none where there is no entry, and no more passes than entries. Memory: 136 bytes for each entry, up to 272 for each of the
/// window and for each that overflows, and the answer. `Err` is out of memory.
pub fn best_rows_passes<D: Dominance>(
    alloc: Global,
    dominance: &D,
    window: usize,
    entries: &[Entry],
) -> Result<(Vec<Entry>, u64), AllocError>
    requires window { 0 < window }
    requires ids { HaveDifferentIds entries.now }
    ensures best { IfOk result (λ found. found.0.items ≡ in_order_of_id (best (entry_order (D.order dominance.now)) entries.now)) }
    ensures passes { IfOk result (λ found. found.1 ≤ length entries.now) }
    ensures some_pass { IfOk result (λ found. 0 < length entries.now → 0 < found.1) }
{
    let mut best = Vec::new(alloc);
    // No more than all entries are ever held.
    let mut held = Window::new(alloc, window.min(entries.len()).max(1))?;
    let mut input = Vec::from_slice(alloc, entries)?;
    let mut passes = 0;
    'each_pass: while !input.is_empty() {
        input = offer_all(alloc, dominance, &mut held, &input)?;
        held.end_pass(&mut best)?;
        passes += 1;
    }
    best.sort_unstable_by_key(|entry| entry.id);
    Ok((best, passes))
}

/// The entries that no entry dominates, in order of id: the list of [`best_rows_passes`], at its cost. Of a question,
/// [`levels`](crate::levels) with a cut of 1 finds the same ones, and for many entries in much less time.
pub fn best_rows<D: Dominance>(
    alloc: Global,
    dominance: &D,
    window: usize,
    entries: &[Entry],
) -> Result<Vec<Entry>, AllocError>
    requires window { 0 < window }
    requires ids { HaveDifferentIds entries.now }
    ensures { IfOk result (λ found. found.items ≡ in_order_of_id (best (entry_order (D.order dominance.now)) entries.now)) }
{
    let (found, _) = best_rows_passes(alloc, dominance, window, entries)?;
    Ok(found)
}

//! Rows that are numbered as they come, so that their ids differ.

ghost use Rattle.std.specs.Prelude.{◌≡◌, ◌+◌, ◌<◌, ◌^◌, length, IfOk};
ghost use Rattle.pref_sky.specs.Levels.{HaveDifferentIds};
ghost use Rattle.pref_sky.specs.NumberedRows.{numbered, numbered_from};

use crate::entry::Entry;
use pref_table::Row;
use std::alloc::{AllocError, Global};

/// The rows with ids that count on from the last one.
#[tactic(auto, using(std::proofs::lemmas::Grind::common_steps, crate::proofs::NumberedLaws::numbered_more))]
pub(crate) fn numbered_from(
    alloc: Global,
    last: u64,
    rows: &[Row],
) -> Result<Vec<Entry>, AllocError>
    requires { last + length rows.now < 2 ^ 64 }
    ensures { IfOk result (λ entries. entries.items ≡ numbered_from last rows.now) }
{
    let mut entries = Vec::with_capacity(alloc, rows.len())?;
    let mut id = last;
    for row in rows {
        id += 1;
        entries.push(Entry { row: *row, id })?;
    }
    Ok(entries)
}

/// The rows with the ids 1, 2, ..: entries for [`best_rows`](crate::best_rows), [`levels`](crate::levels) and
/// [`Partial::add`](crate::Partial::add), which require that ids differ.
///
/// Memory: the list, 136 bytes for each row. `Err` is out of memory.
#[tactic(auto, using(crate::proofs::NumberedLaws::numbered_differ))]
pub fn numbered(alloc: Global, rows: &[Row]) -> Result<Vec<Entry>, AllocError>
    ensures entries { IfOk result (λ entries. entries.items ≡ numbered rows.now) }
    ensures ids { IfOk result (λ entries. HaveDifferentIds entries.items) }
{
    numbered_from(alloc, 0, rows)
}

//! Entries with their levels, group by group: so one pass counts, for each of them, how many of its group are on lower levels.

ghost use Rattle.std.specs.Prelude.{◌≡◌, ◌<◌, ◌≤◌, ◌-◌, not, length, All, IfOk};
ghost use Rattle.std.specs.Ordering.{is_gt, is_lt};
ghost use Rattle.pref_sky.specs.Grouped.{AreGrouped, IsCounted, stands_before, entries, entry_at};
ghost use Rattle.pref_sky.specs.Chains.{IsInOrder, earlier_in};

use crate::entry::Ranked;
use pref_table::Row;
use pref_term::engine::in_same_group;
use std::alloc::{AllocError, Global};
use std::cmp::Ordering;

/// An entry of a list, with its place there.
#[derive(Clone, Copy)]
pub(crate) struct Placed<'a> {
    pub(crate) place: usize,
    pub(crate) entry: &'a Ranked,
}

/// How many entries stand in front of the group of an entry, and how many in front of its level in this group.
#[derive(Clone, Copy)]
pub(crate) struct InFront {
    pub(crate) group: usize,
    pub(crate) level: usize,
}

/// Which of two rows stands first by the first of these columns in which they differ.
#[tactic(auto, using(crate::proofs::GroupedLaws::by_first_column), unfolding(crate::specs::Chains::earlier_in))]
#[inline(always)]
pub(crate) fn compare_groups(columns: &[usize], a: &Row, b: &Row) -> Ordering
    requires { All (λ col. col < 16) columns.now }
    ensures less { is_lt result ≡ earlier_in columns.now a.now b.now }
    ensures greater { is_gt result ≡ earlier_in columns.now b.now a.now }
{
    for col in columns {
        match a.cell(*col).cmp(&b.cell(*col)) {
            Ordering::Equal => {}
            decided => return decided,
        }
    }
    Ordering::Equal
}

/// Which of two entries stands first: by group, then by level.
fn compare(columns: &[usize], a: &Ranked, b: &Ranked) -> Ordering
    requires { All (λ column. column < 16) columns.now }
    ensures less { is_lt result ≡ stands_before columns.now a.now b.now }
    ensures greater { is_gt result ≡ stands_before columns.now b.now a.now }
{
    match compare_groups(columns, &a.row, &b.row) {
        Ordering::Equal => a.level.cmp(&b.level),
        decided => decided,
    }
}

/// The entries of a list, group by group, and in each level by level.
pub(crate) fn by_group<'a>(
    alloc: Global,
    columns: &[usize],
    ranked: &'a [Ranked],
) -> Result<Vec<Placed<'a>>, AllocError>
    requires { All (λ column. column < 16) columns.now }
    ensures { IfOk result (λ placed. AreGrouped columns.now ranked.now placed.items) }
{
    let mut placed = Vec::with_capacity(alloc, ranked.len())?;
    for (place, entry) in ranked.iter().enumerate() {
        placed.push(Placed { place, entry })?;
    }
    placed.sort_unstable_by(|a, b| compare(columns, a.entry, b.entry));
    Ok(placed)
}

/// What stands in front of the entry at a place of the grouped list, from what stands in front of the one before it.
pub(crate) fn in_front(
    columns: &[usize],
    placed: &[Placed<'_>],
    at: usize,
    last: InFront,
) -> InFront
    requires columns { All (λ column. column < 16) columns.now }
    requires inside { at < length placed.now }
    requires last { (last.group ≤ last.level) × (last.level ≤ at) }
    ensures within { (result.group ≤ result.level) × (result.level ≤ at) }
    ensures counted { IsInOrder (λ a b. not (stands_before columns.now b a)) (entries placed.now)
        → (0 < at → IsCounted columns.now (entries placed.now) (entry_at placed.now (at - 1)) last)
        → IsCounted columns.now (entries placed.now) (entry_at placed.now at) result }
{
    if at == 0 {
        return InFront { group: 0, level: 0 };
    }
    let before = placed[at - 1].entry;
    let entry = placed[at].entry;
    if !in_same_group(columns, &before.row, &entry.row) {
        return InFront {
            group: at,
            level: at,
        };
    }
    if before.level < entry.level {
        return InFront {
            group: last.group,
            level: at,
        };
    }
    last
}

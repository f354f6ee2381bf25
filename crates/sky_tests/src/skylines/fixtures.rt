//! Three small orders, rows, also with the ids 1, 2, .., and what is found compared by ids and levels.
ghost use Rattle.std.specs.Prelude.{IfOk};
ghost use Rattle.pref_sky.specs.Levels.{HaveDifferentIds};

use crate::same::assert_same;
use pref_sky::{Entry, Ranked};
use pref_table::{Row, Schema, TableFault};
use pref_term::Dominance;
use std::alloc::{AllocError, Global};
use std::fmt::Debug;
use std::process::Abort;
use std::test::Fail;

/// Nine rows, of which two are best.
pub(crate) const PAIRS: [(i64, i64); 9] = [
    (20, 1),
    (4, 16),
    (5, 15),
    (6, 14),
    (7, 13),
    (21, 2),
    (1, 10),
    (2, 11),
    (3, 12),
];

/// Smaller is better in both columns.
pub(crate) struct LowBoth;

impl Dominance for LowBoth {
    ghost use Rattle.std.specs.Prelude.{[], false};
    ghost use Rattle.pref_term.specs.AskOrder.{order_of, order_of_is_row_order};
    ghost use Rattle.pref_term.specs.Preference.{low, pareto, scored};
    ghost use Rattle.pref_term.specs.declared.ask.Mode.TheVariants.{Best};

    ghost order = { λ _. order_of (record { preference = pareto (scored (low 0)) (scored (low 1)); group = []; mode = Best; distinct = false }) };

    ghost laws = { λ _. order_of_is_row_order (record { preference = pareto (scored (low 0)) (scored (low 1)); group = []; mode = Best; distinct = false }) };

    fn over(&self, a: &Row, b: &Row) -> bool {
        let first = a.cell(0) <= b.cell(0);
        let second = a.cell(1) <= b.cell(1);
        (a.cell(0) < b.cell(0) && second) || (a.cell(1) < b.cell(1) && first)
    }

    fn twin(&self, _a: &Row, _b: &Row) -> bool {
        false
    }
}

/// Smaller is better in the first column, among rows that are equal in the second.
pub(crate) struct LowInGroup;

impl Dominance for LowInGroup {
    ghost use Rattle.std.specs.Prelude.{[], ◌∷◌, false};
    ghost use Rattle.pref_term.specs.AskOrder.{order_of, order_of_is_row_order};
    ghost use Rattle.pref_term.specs.Preference.{low, scored};
    ghost use Rattle.pref_term.specs.declared.ask.Mode.TheVariants.{Best};

    ghost order = { λ _. order_of (record { preference = scored (low 0); group = 1 ∷ []; mode = Best; distinct = false }) };

    ghost laws = { λ _. order_of_is_row_order (record { preference = scored (low 0); group = 1 ∷ []; mode = Best; distinct = false }) };

    fn over(&self, a: &Row, b: &Row) -> bool {
        a.cell(1) == b.cell(1) && a.cell(0) < b.cell(0)
    }

    fn twin(&self, _a: &Row, _b: &Row) -> bool {
        false
    }
}

/// Smaller is better in the first column, and of rows that are equal there one is kept.
pub(crate) struct LowOnce;

impl Dominance for LowOnce {
    ghost use Rattle.std.specs.Prelude.{[], true};
    ghost use Rattle.pref_term.specs.AskOrder.{order_of, order_of_is_row_order};
    ghost use Rattle.pref_term.specs.Preference.{low, scored};
    ghost use Rattle.pref_term.specs.declared.ask.Mode.TheVariants.{Best};

    ghost order = { λ _. order_of (record { preference = scored (low 0); group = []; mode = Best; distinct = true }) };

    ghost laws = { λ _. order_of_is_row_order (record { preference = scored (low 0); group = []; mode = Best; distinct = true }) };

    fn over(&self, a: &Row, b: &Row) -> bool {
        a.cell(0) < b.cell(0)
    }

    fn twin(&self, a: &Row, b: &Row) -> bool {
        a.cell(0) == b.cell(0)
    }
}

/// Rows of the columns x and y.
pub(crate) fn rows_of(alloc: Global, pairs: &[(i64, i64)]) -> Result<Vec<Row>, TableFault> {
    let names: [&[u8]; 2] = [b"x", b"y"];
    let schema = Schema::new(alloc, &names)?;
    let mut rows = Vec::with_capacity(alloc, pairs.len())?;
    for pair in pairs {
        rows.push(Row::of(&schema, &[pair.0, pair.1])?)?;
    }
    Ok(rows)
}

/// The rows of the columns x and y, with the ids 1, 2, ..
pub(crate) fn numbered(alloc: Global, pairs: &[(i64, i64)]) -> Result<Vec<Entry>, TableFault>
    ensures { IfOk result (λ entries. HaveDifferentIds entries.items) }
{
    let rows = rows_of(alloc, pairs)?;
    Ok(pref_sky::numbered(alloc, &rows)?)
}

/// These rows with their ids, in falling order of id.
pub(crate) fn falling(alloc: Global, rows: &[(i64, i64)]) -> Result<Vec<Entry>, TableFault>
    ensures { IfOk result (λ entries. HaveDifferentIds entries.items) }
{
    let mut entries = numbered(alloc, rows)?;
    entries.reverse();
    Ok(entries)
}

/// The ids of entries.
pub(crate) fn ids_of(alloc: Global, entries: &[Entry]) -> Result<Vec<u64>, AllocError> {
    entries.iter().map(|entry| entry.id).collect(alloc)
}

/// Asserts that the entries that were found in a case have these ids.
pub(crate) fn check_ids<C: Debug + Copy>(
    rt: &impl Abort,
    alloc: Global,
    case: C,
    entries: &[Entry],
    ids: &[u64],
) -> Result<(), Fail> {
    let found = ids_of(alloc, entries)?;
    assert_same(rt, case, found.as_slice(), ids);
    Ok(())
}

/// The levels and ids of ranked entries.
fn places_of(alloc: Global, ranked: &[Ranked]) -> Result<Vec<(u32, u64)>, AllocError> {
    ranked
        .iter()
        .map(|entry| (entry.level, entry.id))
        .collect(alloc)
}

/// Asserts that the ranked entries that were found in a case have these levels and ids.
pub(crate) fn check_places<C: Debug + Copy>(
    rt: &impl Abort,
    alloc: Global,
    case: C,
    ranked: &[Ranked],
    places: &[(u32, u64)],
) -> Result<(), Fail> {
    let found = places_of(alloc, ranked)?;
    assert_same(rt, case, found.as_slice(), places);
    Ok(())
}

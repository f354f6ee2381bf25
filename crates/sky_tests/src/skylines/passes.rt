//! Windows and passes: the answer is the same by any window, the number of passes isn't.
ghost use Rattle.std.specs.Prelude.{◌<◌, IfOk};
ghost use Rattle.pref_sky.specs.Levels.{HaveDifferentIds};

use super::fixtures::{LowBoth, check_ids, ids_of, numbered};
use super::plain::best_rows_by_pairs;
use crate::same::assert_same;
use pref_sky::{Entry, Offer, Window, best_rows, best_rows_passes};
use pref_table::TableFault;
use pref_term::Dominance;
use std::alloc::Global;
use std::process::Abort;
use std::test::Fail;

const HOTELS: [(i64, i64); 5] = [(50, 8), (60, 5), (80, 2), (70, 6), (90, 2)];

/// Compares the best rows and the number of passes.
pub(super) fn check_passes<D: Dominance>(
    rt: &impl Abort,
    alloc: Global,
    dominance: &D,
    rows: &[(i64, i64)],
    window: usize,
    ids: &[u64],
    passes: u64,
) -> Result<(), Fail>
    requires { 0 < window }
{
    let entries = numbered(alloc, rows)?;
    let (found, count) = best_rows_passes(alloc, dominance, window, &entries)?;
    assert_same(rt, (rows, window), count, passes);
    check_ids(rt, alloc, (rows, window), &found, ids)
}

/// Offers entries to a window, each by an order of its own, and compares what comes of it.
fn check_each_offer<D: Dominance>(
    rt: &impl Abort,
    window: &mut Window,
    entries: &[Entry],
    offers: &[(&D, Offer)],
) {
    for (entry, (dominance, outcome)) in entries.iter().zip(offers) {
        let returned = window.offer(*dominance, *entry);
        assert_same(rt, ("id", entry.id), returned, *outcome);
    }
}

/// Offers these rows to a new window of this size.
pub(super) fn check_offers<D: Dominance>(
    rt: &impl Abort,
    alloc: Global,
    size: usize,
    rows: &[(i64, i64)],
    offers: &[(&D, Offer)],
) -> Result<(), Fail>
    requires { 0 < size }
{
    let entries = numbered(alloc, rows)?;
    let mut window = Window::new(alloc, size)?;
    check_each_offer(rt, &mut window, &entries, offers);
    Ok(())
}

/// By this window the best rows have these ids.
fn check_window<D: Dominance>(
    rt: &impl Abort,
    alloc: Global,
    dominance: &D,
    window: usize,
    entries: &[Entry],
    ids: &[u64],
) -> Result<(), Fail>
    requires window { 0 < window }
    requires ids { HaveDifferentIds entries.now }
{
    let found = best_rows(alloc, dominance, window, entries)?;
    check_ids(rt, alloc, ("window", window), &found, ids)
}

/// By windows of every size the best rows are those that comparing each with each finds, and these are as many as given.
pub(super) fn check_windows<D: Dominance>(
    rt: &impl Abort,
    alloc: Global,
    dominance: &D,
    entries: &[Entry],
    count: usize,
) -> Result<(), Fail>
    requires { HaveDifferentIds entries.now }
{
    let plain = ids_of(alloc, &best_rows_by_pairs(alloc, dominance, entries)?)?;
    assert_same(rt, "best rows", plain.len(), count);
    for window in [1, 2, 27, 64, 1000] {
        check_window(rt, alloc, dominance, window, entries, plain.as_slice())?;
    }
    Ok(())
}

#[test]
fn passes_of_small_tables(rt: HostRuntime) -> Result<(), Fail> {
    let alloc = rt.alloc();
    check_passes(&rt, alloc, &LowBoth, &[], 1, &[], 0)?;
    check_passes(&rt, alloc, &LowBoth, &HOTELS, 1, &[1, 2, 3], 3)?;
    check_passes(&rt, alloc, &LowBoth, &HOTELS, 64, &[1, 2, 3], 1)?;
    check_passes(&rt, alloc, &LowBoth, &[(5, 5), (9, 1), (1, 1)], 1, &[3], 2)?;
    check_passes(&rt, alloc, &LowBoth, &[(1, 2), (1, 2)], 1, &[1, 2], 2)
}

#[test]
fn offers_to_a_full_window(rt: HostRuntime) -> Result<(), Fail> {
    let rows = [(5, 5), (9, 1), (6, 6), (1, 1), (9, 1)];
    let offers = [
        (&LowBoth, Offer::Joined),
        (&LowBoth, Offer::Overflow),
        (&LowBoth, Offer::Dropped),
        (&LowBoth, Offer::Joined),
        (&LowBoth, Offer::Dropped),
    ];
    check_offers(&rt, rt.alloc(), 1, &rows, &offers)
}

/// A thousand rows, of which 143 are best by [`LowBoth`].
fn near_a_line(alloc: Global) -> Result<Vec<Entry>, TableFault>
    ensures { IfOk result (λ entries. HaveDifferentIds entries.items) }
{
    let mut rows = Vec::with_capacity(alloc, 1000)?;
    for i in 0..1000_u32 {
        rows.push((i64::from(i), i64::from(1700 - i + 10 * (i % 7))))?;
    }
    numbered(alloc, &rows)
}

#[test]
fn windows_of_every_size(rt: HostRuntime) -> Result<(), Fail> {
    let alloc = rt.alloc();
    let entries = near_a_line(alloc)?;
    check_windows(&rt, alloc, &LowBoth, &entries, 143)
}

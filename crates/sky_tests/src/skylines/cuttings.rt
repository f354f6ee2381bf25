//! Levels, however the rows are cut into two pieces.
ghost use Rattle.std.specs.Prelude.{◌≡◌, [], IfOk, OnOk};
ghost use Rattle.pref_sky.specs.Levels.{HaveDifferentIds, entry_order, levels};

use super::answers::ask_of;
use super::fixtures::{LowBoth, LowInGroup, LowOnce, PAIRS, check_places, falling, numbered};
use super::plain::add_plainly;
use crate::same::assert_same;
use pref_sky::{Entry, Partial, Ranked, levels};
use pref_table::TableFault;
use pref_term::Dominance;
use std::alloc::{AllocError, Global};
use std::process::Abort;
use std::test::Fail;

/// Adds entries to a partial result that holds nothing, in two pieces that are cut there, and returns what the plain merge makes of
/// the second one.
pub(super) fn add_in_two<D: Dominance>(
    alloc: Global,
    dominance: &D,
    cut: u32,
    partial: &mut Partial,
    entries: &[Entry],
    at: usize,
) -> Result<Vec<Ranked>, AllocError>
    requires nothing { partial.old ≡ [] }
    requires ids { HaveDifferentIds entries.now }
    ensures { OnOk result (partial.new ≡ levels (entry_order (D.order dominance.now)) entries.now cut) }
{
    let (front, back) = entries.split_at(at.min(entries.len()));
    partial.add(alloc, dominance, 2, cut, front)?;
    let plain = add_plainly(alloc, dominance, 2, cut, partial, back)?;
    partial.add(alloc, dominance, 2, cut, back)?;
    Ok(plain)
}

/// Compares what is held with what the plain merge makes, and with the levels of the whole.
fn check_held(
    rt: &impl Abort,
    alloc: Global,
    at: usize,
    partial: &Partial,
    plain: &[Ranked],
    whole: &[Ranked],
) -> Result<(), Fail> {
    let held = partial.ranked(alloc)?;
    assert_same(rt, ("plain, cut at", at), held.as_slice(), plain);
    assert_same(rt, ("whole, cut at", at), held.as_slice(), whole);
    Ok(())
}

/// Cut there, the two pieces make the levels of the whole.
fn check_cutting<D: Dominance>(
    rt: &impl Abort,
    alloc: Global,
    dominance: &D,
    cut: u32,
    entries: &[Entry],
    whole: &[Ranked],
    at: usize,
) -> Result<(), Fail>
    requires { HaveDifferentIds entries.now }
{
    let mut partial = Partial::empty();
    let plain = add_in_two(alloc, dominance, cut, &mut partial, entries, at)?;
    check_held(rt, alloc, at, &partial, plain.as_slice(), whole)
}

/// The levels have as many entries as given, and two pieces make them too, cut at each of these places.
pub(super) fn check_cuttings<D: Dominance>(
    rt: &impl Abort,
    alloc: Global,
    dominance: &D,
    cut: u32,
    entries: &[Entry],
    count: usize,
    cuttings: &[usize],
) -> Result<(), Fail>
    requires { HaveDifferentIds entries.now }
{
    let whole = levels(alloc, dominance, 64, cut, entries)?;
    assert_same(rt, ("rows on levels up to", cut), whole.len(), count);
    for at in cuttings {
        check_cutting(rt, alloc, dominance, cut, entries, &whole, *at)?;
    }
    Ok(())
}

fn check_every_cutting<D: Dominance>(
    rt: &impl Abort,
    alloc: Global,
    dominance: &D,
    cut: u32,
    entries: &[Entry],
    places: &[(u32, u64)],
) -> Result<(), Fail>
    requires { HaveDifferentIds entries.now }
{
    let whole = levels(alloc, dominance, 1, cut, entries)?;
    check_places(rt, alloc, "uncut", &whole, places)?;
    for at in 0..=entries.len() {
        check_cutting(rt, alloc, dominance, cut, entries, &whole, at)?;
    }
    Ok(())
}

#[test]
fn five_levels_of_nine_rows(rt: HostRuntime) -> Result<(), Fail> {
    let alloc = rt.alloc();
    let entries = numbered(alloc, &PAIRS)?;
    let places = [
        (1, 1),
        (1, 7),
        (2, 6),
        (2, 8),
        (3, 9),
        (4, 2),
        (4, 3),
        (4, 4),
        (4, 5),
    ];
    check_every_cutting(&rt, alloc, &LowBoth, 5, &entries, &places)
}

#[test]
fn two_levels_within_groups(rt: HostRuntime) -> Result<(), Fail> {
    let alloc = rt.alloc();
    let entries = numbered(alloc, &[(1, 1), (2, 1), (2, 1), (9, 2)])?;
    let places = [(1, 1), (1, 4), (2, 2), (2, 3)];
    check_every_cutting(&rt, alloc, &LowInGroup, 2, &entries, &places)
}

#[test]
fn a_thousand_levels_of_few_rows(rt: HostRuntime) -> Result<(), Fail> {
    let alloc = rt.alloc();
    let entries = numbered(alloc, &[(3, 3), (1, 1), (2, 2)])?;
    let places = [(1, 2), (2, 3), (3, 1)];
    check_every_cutting(&rt, alloc, &LowBoth, 1000, &entries, &places)
}

/// Entries that come in falling order of id: the one that stays comes last.
#[test]
fn of_twins_the_one_with_the_least_id_stays(rt: HostRuntime) -> Result<(), Fail> {
    let alloc = rt.alloc();
    let entries = falling(alloc, &[(5, 1), (5, 2), (7, 1), (5, 3), (7, 2)])?;
    check_every_cutting(&rt, alloc, &LowOnce, 1, &entries, &[(1, 1)])?;
    let places = [(1, 1), (2, 2), (3, 4), (4, 3), (5, 5)];
    check_every_cutting(&rt, alloc, &LowOnce, 5, &entries, &places)
}

/// Three levels of a hundred rows, and behind them twenty rows that move each of these down one.
fn levelled(alloc: Global) -> Result<Vec<Entry>, TableFault>
    ensures { IfOk result (λ entries. HaveDifferentIds entries.items) }
{
    let mut rows = Vec::with_capacity(alloc, 320)?;
    for i in 0..320_u32 {
        let (step, above) = if i < 300 {
            (i % 100, 20 + i / 100)
        } else {
            (5 * (i - 300), 0)
        };
        rows.push((i64::from(step), i64::from(300 + above - 3 * step)))?;
    }
    numbered(alloc, &rows)
}

fn check_levelled(rt: &impl Abort, alloc: Global, text: &[u8]) -> Result<(), Fail> {
    let ask = ask_of(alloc, text)?;
    let entries = levelled(alloc)?;
    check_cuttings(rt, alloc, &ask, 3, &entries, 220, &[300, 310])
}

/// By two columns, whose rows are kept in order, and by three parts: then so many rows are held that those which come are signed.
#[test]
fn three_levels_of_a_hundred_rows(rt: HostRuntime) -> Result<(), Fail> {
    check_levelled(&rt, rt.alloc(), b"top_level 3 low(x) * low(y)")?;
    check_levelled(&rt, rt.alloc(), b"top_level 3 low(x) * low(y) * low(x)")
}

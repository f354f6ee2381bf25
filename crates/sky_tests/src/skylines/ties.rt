//! Rows that are the same under an ask: all of them are kept, by any window and on each level.
ghost use Rattle.std.specs.Prelude.{◌<◌, IfOk};
ghost use Rattle.pref_sky.specs.Levels.{HaveDifferentIds};

use super::answers::{Answer, ask_of, check_answers};
use super::fixtures::numbered;
use super::passes::{check_offers, check_passes, check_windows};
use pref_sky::{Entry, Offer};
use pref_table::TableFault;
use pref_term::Ask;
use std::alloc::Global;
use std::process::Abort;
use std::test::Fail;

/// Nine hotels with their stars, of which six have the most.
const RATED: [(i64, i64); 9] = [
    (5, 1),
    (4, 2),
    (5, 3),
    (5, 4),
    (3, 5),
    (5, 6),
    (5, 7),
    (4, 8),
    (5, 9),
];

fn check_six_ties(rt: &impl Abort, alloc: Global, rated: &Ask) -> Result<(), Fail> {
    let ids = [1, 3, 4, 6, 7, 9];
    check_passes(rt, alloc, rated, &RATED, 1, &ids, 6)?;
    check_passes(rt, alloc, rated, &RATED, 2, &ids, 3)?;
    check_passes(rt, alloc, rated, &RATED, 4, &ids, 2)?;
    check_passes(rt, alloc, rated, &RATED, 64, &ids, 1)
}

fn check_nine_ties(rt: &impl Abort, alloc: Global, alike: &Ask) -> Result<(), Fail> {
    let ids = [1, 2, 3, 4, 5, 6, 7, 8, 9];
    check_passes(rt, alloc, alike, &RATED, 2, &ids, 5)?;
    check_passes(rt, alloc, alike, &RATED, 4, &ids, 3)?;
    check_passes(rt, alloc, alike, &RATED, 9, &ids, 1)
}

#[test]
fn ties_in_windows_smaller_than_the_ties(rt: HostRuntime) -> Result<(), Fail> {
    let alloc = rt.alloc();
    check_six_ties(&rt, alloc, &ask_of(alloc, b"best high(x)")?)?;
    check_nine_ties(&rt, alloc, &ask_of(alloc, b"best pos(x, 9)")?)
}

#[test]
fn ties_that_a_later_tie_displaces(rt: HostRuntime) -> Result<(), Fail> {
    let alloc = rt.alloc();
    let rated = ask_of(alloc, b"best high(x)")?;
    let rows = [(1, 0), (1, 0), (1, 0), (2, 0), (2, 0), (2, 0), (2, 0)];
    check_passes(&rt, alloc, &rated, &rows, 2, &[4, 5, 6, 7], 3)
}

static LEVELS_OF_TIES: [Answer; 3] = [
    Answer {
        name: "six ties",
        text: b"best high(x)",
        rows: &RATED,
        places: &[(1, 1), (1, 3), (1, 4), (1, 6), (1, 7), (1, 9)],
    },
    Answer {
        name: "two levels of ties",
        text: b"top_level 2 high(x)",
        rows: &RATED,
        places: &SIX_AND_TWO,
    },
    Answer {
        name: "at least seven rows",
        text: b"at_least 7 high(x)",
        rows: &RATED,
        places: &SIX_AND_TWO,
    },
];

const SIX_AND_TWO: [(u32, u64); 8] = [
    (1, 1),
    (1, 3),
    (1, 4),
    (1, 6),
    (1, 7),
    (1, 9),
    (2, 2),
    (2, 8),
];

#[test]
fn ties_on_each_level(rt: HostRuntime) -> Result<(), Fail> {
    check_answers(&rt, rt.alloc(), &LEVELS_OF_TIES)
}

/// A thousand rows, of which all that are alike in the remainders by these numbers are equal.
fn remainders(alloc: Global, by_x: u32, by_y: u32) -> Result<Vec<Entry>, TableFault>
    requires x { 0 < by_x }
    requires y { 0 < by_y }
    ensures { IfOk result (λ entries. HaveDifferentIds entries.items) }
{
    let mut rows = Vec::with_capacity(alloc, 1000)?;
    for i in 0..1000_u32 {
        rows.push((i64::from(i % by_x), i64::from(i % by_y)))?;
    }
    numbered(alloc, &rows)
}

/// By windows of every size this many of such rows are best.
fn check_remainders(
    rt: &impl Abort,
    alloc: Global,
    by_x: u32,
    by_y: u32,
    text: &[u8],
    count: usize,
) -> Result<(), Fail>
    requires x { 0 < by_x }
    requires y { 0 < by_y }
{
    let entries = remainders(alloc, by_x, by_y)?;
    check_windows(rt, alloc, &ask_of(alloc, text)?, &entries, count)
}

/// The second time ten of each of a hundred rows, of which all are in the front: by any window one of each is best.
#[test]
fn many_ties_by_windows_of_every_size(rt: HostRuntime) -> Result<(), Fail> {
    let ties = b"best high(x) * around(y, 3)";
    let once = b"skyline of distinct x min, y max";
    check_remainders(&rt, rt.alloc(), 5, 7, ties, 28)?;
    check_remainders(&rt, rt.alloc(), 100, 100, once, 100)
}

/// By y all three are the same, so the window takes the first two, of which the second dominates the first by x.
#[test]
fn an_offer_by_another_order(rt: HostRuntime) -> Result<(), Fail> {
    let alloc = rt.alloc();
    let by_x = ask_of(alloc, b"best low(x)")?;
    let by_y = ask_of(alloc, b"best low(y)")?;
    let offers = [
        (&by_y, Offer::Joined),
        (&by_y, Offer::Joined),
        (&by_x, Offer::Dropped),
    ];
    check_offers(&rt, alloc, 3, &[(2, 0), (1, 0), (2, 0)], &offers)
}

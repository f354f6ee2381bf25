//! Rows that are compared within groups alone, and orders that follow one another.
ghost use Rattle.std.specs.Prelude.{◌≡◌, ◌++◌, [], IfOk};
ghost use Rattle.pref_sky.specs.Levels.{HaveDifferentIds};

use super::answers::ask_of;
use super::cuttings::check_cuttings;
use super::fixtures::{check_places, numbered};
use pref_sky::{Entry, Partial};
use pref_table::TableFault;
use pref_term::Dominance;
use std::alloc::{AllocError, Global};
use std::process::Abort;
use std::test::Fail;

/// Three rows of each of four hundred groups, the best of each last.
fn of_many_groups(alloc: Global) -> Result<Vec<Entry>, TableFault>
    ensures { IfOk result (λ entries. HaveDifferentIds entries.items) }
{
    let mut rows = Vec::with_capacity(alloc, 1200)?;
    for i in 0..1200_u32 {
        rows.push((i64::from(1200 - i), i64::from(i % 400)))?;
    }
    numbered(alloc, &rows)
}

#[test]
fn two_levels_of_many_groups(rt: HostRuntime) -> Result<(), Fail> {
    let alloc = rt.alloc();
    let entries = of_many_groups(alloc)?;
    let ask = ask_of(alloc, b"top_level 2 low(x) by y")?;
    check_cuttings(&rt, alloc, &ask, 2, &entries, 800, &[500, 1199])
}

/// Adds two pieces to a partial result that holds nothing, each by an order and up to a cut of its own.
pub(super) fn add_by_two<D: Dominance, E: Dominance>(
    alloc: Global,
    first: (&D, u32),
    second: (&E, u32),
    partial: &mut Partial,
    front: &[Entry],
    back: &[Entry],
) -> Result<(), AllocError>
    requires nothing { partial.old ≡ [] }
    requires ids { HaveDifferentIds (front.now ++ back.now) }
{
    partial.add(alloc, first.0, 2, first.1, front)?;
    partial.add(alloc, second.0, 2, second.1, back)
}

/// To a partial result that holds nothing the first three entries are added by the first order, the others by the second one.
fn check_added_by_two<D: Dominance, E: Dominance>(
    rt: &impl Abort,
    alloc: Global,
    first: &D,
    second: &E,
    partial: &mut Partial,
    entries: &[Entry],
    places: &[(u32, u64)],
) -> Result<(), Fail>
    requires nothing { partial.old ≡ [] }
    requires ids { HaveDifferentIds entries.now }
{
    let (front, back) = entries.split_at(entries.len().min(3));
    add_by_two(alloc, (first, 1), (second, 1), partial, front, back)?;
    let held = partial.ranked(alloc)?;
    check_places(rt, alloc, "held", &held, places)
}

/// Of six rows the first three are added by the first order, by which all three are best, and then the others by the second one. What is
/// held then has these levels and ids.
struct Orders {
    first: &'static [u8],
    second: &'static [u8],
    rows: &'static [(i64, i64)],
    places: &'static [(u32, u64)],
}

fn check_orders(rt: &impl Abort, alloc: Global, case: &Orders) -> Result<(), Fail> {
    let entries = numbered(alloc, case.rows)?;
    let first = ask_of(alloc, case.first)?;
    let second = ask_of(alloc, case.second)?;
    let mut partial = Partial::empty();
    check_added_by_two(
        rt,
        alloc,
        &first,
        &second,
        &mut partial,
        &entries,
        case.places,
    )
}

const TIES: [(i64, i64); 6] = [(5, 1), (5, 2), (5, 3), (4, 9), (5, 4), (6, 1)];

const PAIRED_BY_X: [(i64, i64); 6] = [(5, 1), (6, 2), (7, 3), (5, 0), (6, 9), (8, 8)];

/// The first three rows are best by either order.
static ORDERS: [Orders; 5] = [
    Orders {
        first: b"best low(x) by y",
        second: b"best low(x)",
        rows: &TIES,
        places: &[(1, 4)],
    },
    // A product of three is held in parts by its groups.
    Orders {
        first: b"best low(x) * low(x) * low(x) by y",
        second: b"best low(x)",
        rows: &TIES,
        places: &[(1, 4)],
    },
    Orders {
        first: b"best low(x)",
        second: b"best low(x) by y",
        rows: &TIES,
        places: &[(1, 1), (1, 2), (1, 3), (1, 4), (1, 5)],
    },
    Orders {
        first: b"best low(x) by y",
        second: b"best low(y) by x",
        rows: &PAIRED_BY_X,
        places: &[(1, 2), (1, 3), (1, 4), (1, 6)],
    },
    Orders {
        first: b"best low(x) * low(x) * low(x) by y",
        second: b"best low(y) * low(y) * low(y) by x",
        rows: &PAIRED_BY_X,
        places: &[(1, 2), (1, 3), (1, 4), (1, 6)],
    },
];

#[test]
fn a_second_order_compares_all_that_is_held(rt: HostRuntime) -> Result<(), Fail> {
    for case in &ORDERS {
        check_orders(&rt, rt.alloc(), case)?;
    }
    Ok(())
}

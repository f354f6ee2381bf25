//! Where open queries end: an ended version stays as long as one of them needs it, whichever ends first.

use crate::engine::fixtures::check_turns;
use std::alloc::Global;
use std::process::Abort;
use std::test::Fail;
use test_runs::Does::{Abandons, AsksRoom, Begins, Deletes, Finishes, Scans, Updates};
use test_runs::{Turn, setup_of};

/// Two queries begin. The first one needs the first version of row 1, and both need row 2.
static TWO: [Turn; 5] = [
    (1, Begins, "begun 1"),
    (3, Updates(1, 9), "updated 1"),
    (2, Begins, "begun 1"),
    (3, Deletes(2), "deleted 2"),
    (3, AsksRoom, "room 1"),
];

/// They end in one order or the other: the last is finished, and the one before it abandoned.
static ORDERS_OF_TWO: [&[Turn]; 2] = [
    &[
        (1, Abandons, "abandoned"),
        (1, AsksRoom, "room 2"),
        (2, Scans, "left 0"),
        (2, Finishes, "answer 1\nlevel 1 id 2: 2"),
        (2, AsksRoom, "room 3"),
    ],
    &[
        (2, Abandons, "abandoned"),
        (2, AsksRoom, "room 1"),
        (1, Scans, "left 0"),
        (1, Finishes, "answer 1\nlevel 1 id 1: 1"),
        (1, AsksRoom, "room 3"),
    ],
];

/// Three queries begin. The first one needs the first version of row 1, the second one its second version, and all need rows 2 and 3.
static THREE: [Turn; 8] = [
    (1, Begins, "begun 1"),
    (4, Updates(1, 9), "updated 1"),
    (2, Begins, "begun 1"),
    (4, Updates(1, 8), "updated 1"),
    (3, Begins, "begun 1"),
    (4, Deletes(2), "deleted 2"),
    (4, Deletes(3), "deleted 3"),
    (4, AsksRoom, "room 3"),
];

/// They end in each order.
static ORDERS_OF_THREE: [&[Turn]; 6] = [
    &[
        (1, Abandons, "abandoned"),
        (1, AsksRoom, "room 4"),
        (2, Abandons, "abandoned"),
        (2, AsksRoom, "room 5"),
        (3, Scans, "left 0"),
        (3, Finishes, "answer 1\nlevel 1 id 2: 2"),
        (3, AsksRoom, "room 7"),
    ],
    &[
        (1, Abandons, "abandoned"),
        (1, AsksRoom, "room 4"),
        (3, Abandons, "abandoned"),
        (3, AsksRoom, "room 4"),
        (2, Scans, "left 0"),
        (2, Finishes, "answer 1\nlevel 1 id 2: 2"),
        (2, AsksRoom, "room 7"),
    ],
    &[
        (2, Abandons, "abandoned"),
        (2, AsksRoom, "room 4"),
        (1, Abandons, "abandoned"),
        (1, AsksRoom, "room 5"),
        (3, Scans, "left 0"),
        (3, Finishes, "answer 1\nlevel 1 id 2: 2"),
        (3, AsksRoom, "room 7"),
    ],
    &[
        (2, Abandons, "abandoned"),
        (2, AsksRoom, "room 4"),
        (3, Abandons, "abandoned"),
        (3, AsksRoom, "room 4"),
        (1, Scans, "left 0"),
        (1, Finishes, "answer 1\nlevel 1 id 1: 1"),
        (1, AsksRoom, "room 7"),
    ],
    &[
        (3, Abandons, "abandoned"),
        (3, AsksRoom, "room 3"),
        (1, Abandons, "abandoned"),
        (1, AsksRoom, "room 4"),
        (2, Scans, "left 0"),
        (2, Finishes, "answer 1\nlevel 1 id 2: 2"),
        (2, AsksRoom, "room 7"),
    ],
    &[
        (3, Abandons, "abandoned"),
        (3, AsksRoom, "room 3"),
        (2, Abandons, "abandoned"),
        (2, AsksRoom, "room 4"),
        (1, Scans, "left 0"),
        (1, Finishes, "answer 1\nlevel 1 id 1: 1"),
        (1, AsksRoom, "room 7"),
    ],
];

static KEEPS_NOTHING: [Turn; 13] = [
    (1, Begins, "begun 1"),
    (2, Updates(1, 1), "updated 1"),
    (2, Updates(2, 2), "updated 2"),
    (2, Updates(3, 3), "updated 3"),
    (3, Begins, "begun 1"),
    (3, Abandons, "abandoned"),
    (3, Begins, "begun 1"),
    (3, Scans, "left 0"),
    (3, Finishes, "answer 1\nlevel 1 id 1: 1"),
    (3, AsksRoom, "room 2"),
    (1, Scans, "left 0"),
    (1, Finishes, "answer 1\nlevel 1 id 1: 5"),
    (3, AsksRoom, "room 5"),
];

/// A run that begins with these turns ends in each of these orders.
fn check_orders(
    rt: &impl Abort,
    alloc: Global,
    capacity: u32,
    values: &[i64],
    begun: &[Turn],
    orders: &[&[Turn]],
) -> Result<(), Fail> {
    let setup = setup_of(8, capacity, capacity, 64)?;
    for (number, order) in orders.iter().enumerate() {
        let mut turns = Vec::from_slice(alloc, begun)?;
        turns.extend_from_slice(*order)?;
        check_turns(rt, alloc, number, setup, values, &turns)?;
    }
    Ok(())
}

#[test]
fn two_queries_end_in_each_order(rt: HostRuntime) -> Result<(), Fail> {
    check_orders(&rt, rt.alloc(), 4, &[1, 2], &TWO, &ORDERS_OF_TWO)
}

#[test]
fn three_queries_end_in_each_order(rt: HostRuntime) -> Result<(), Fail> {
    check_orders(&rt, rt.alloc(), 8, &[1, 2, 3], &THREE, &ORDERS_OF_THREE)
}

#[test]
fn a_query_that_keeps_nothing_ends_beside_kept_versions(rt: HostRuntime) -> Result<(), Fail> {
    let setup = setup_of(8, 8, 8, 64)?;
    check_turns(
        &rt,
        rt.alloc(),
        "keeps nothing",
        setup,
        &[5, 6, 7],
        &KEEPS_NOTHING,
    )
}

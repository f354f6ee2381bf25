//! Runs whose replies are known from outside, through `replay`, `Machine` and `Store`.

mod boxed;
mod calls;
mod commits;
mod copies;
mod ends;
mod fixtures;
mod index;
mod moves;
mod plans;
mod refusals;
mod replies;

use crate::same::assert_same;
use fixtures::check_runs;
use pref_core::{Act, CoreFault, Event, RankedList, Reply, Setup, SetupFault, replay, replay_part};
use pref_sky::Ranked;
use pref_table::Row;
use std::alloc::Global;
use std::process::Abort;
use std::test::Fail;
use test_runs::{row_of, rows_of, runs_of_single_changes, setup_of};

#[test]
fn single_changes_are_answered(rt: HostRuntime) -> Result<(), Fail> {
    check_runs(&rt, rt.alloc(), runs_of_single_changes())
}

/// This many events in which client 1 asks for room.
fn asks_for_room(rt: &impl Abort, alloc: Global, count: u32) -> Vec<Event> {
    let mut events = Vec::new(alloc);
    for _event in 0..count {
        let event = Event {
            client: 1,
            act: Act::Room,
        };
        events.push(event).expect(rt, "memory");
    }
    events
}

/// This many replies, each of which says that there is room for one row.
fn check_all_room(rt: &impl Abort, replies: &[Reply], count: usize) {
    assert_same(rt, "replies", replies.len(), count);
    for reply in replies {
        let is_one = matches!(reply, Reply::Room(1));
        assert_same(rt, "room for one", is_one, true);
    }
}

#[test]
fn a_million_events_are_answered_in_turn(rt: HostRuntime) {
    let setup = setup_of(1, 1, 1, 1).expect(&rt, "a setup");
    let events = asks_for_room(&rt, rt.alloc(), 1_000_000);
    let replies = replay(rt.alloc(), setup, &[], events).expect(&rt, "replies");
    check_all_room(&rt, &replies, 1_000_000);
}

#[test]
fn a_part_is_the_whole_where_memory_is_there(rt: HostRuntime) {
    let setup = setup_of(1, 1, 1, 1).expect(&rt, "a setup");
    let events = asks_for_room(&rt, rt.alloc(), 3);
    let part = replay_part(rt.alloc(), setup, &[], events).expect(&rt, "replies");
    assert_same(&rt, "stopped", part.stopped, false);
    check_all_room(&rt, &part.replies, 3);
}

/// These three rows are refused for want of room.
fn check_too_many(rt: &impl Abort, alloc: Global, setup: Setup, opening: &[Row]) {
    let returned = replay(alloc, setup, opening, Vec::new(alloc)).err();
    assert_same(rt, "whole", returned, Some(CoreFault::Full { needed: 3 }));
    let returned = replay_part(alloc, setup, opening, Vec::new(alloc)).err();
    assert_same(rt, "part", returned, Some(CoreFault::Full { needed: 3 }));
}

#[test]
fn too_many_opening_rows_are_refused(rt: HostRuntime) {
    let setup = setup_of(1, 2, 1, 1).expect(&rt, "a setup");
    let rows = rows_of(rt.alloc(), &[1, 2, 3]).expect(&rt, "rows");
    check_too_many(&rt, rt.alloc(), setup, &rows);
}

#[test]
fn a_setup_has_its_limits(rt: HostRuntime) {
    let setup = setup_of(8, 10, 4, 1).expect(&rt, "a setup");
    let clients = u32::from(setup.clients());
    let slots = (setup.capacity(), setup.block(), setup.blocks());
    let found = (clients, slots, setup.window());
    assert_same(&rt, "its numbers", found, (8, (10, 4, 3), 1));
    for (clients, capacity, block, window) in [
        (0, 1, 1, 1),
        (9, 1, 1, 1),
        (1, 0, 1, 1),
        (1, 65_537, 1, 1),
        (1, 1, 0, 1),
        (1, 1, 1, 0),
    ] {
        let case = (clients, capacity, block, window);
        let refused = Setup::new(clients, capacity, block, window).is_none();
        assert_same(&rt, case, refused, true);
    }
}

/// The default setup with these numbers in place of its own.
fn with_numbers(clients: u8, capacity: u32, block: u32, window: u32) -> Result<Setup, SetupFault> {
    let setup = Setup::default().with_clients(clients)?;
    setup
        .with_capacity(capacity)?
        .with_block(block)?
        .with_window(window)
}

#[test]
fn a_setup_is_made_of_the_default_one(rt: HostRuntime) {
    let setup = Setup::default();
    assert_same(&rt, "default", Some(setup), Setup::new(4, 1024, 1024, 64));
    let set = with_numbers(8, 65_536, 65_536, 65_536).ok();
    let wanted = Setup::new(8, 65_536, 65_536, 65_536);
    assert_same(&rt, "the most", set, wanted);
    let set = with_numbers(1, 1, 1, 1).ok();
    assert_same(&rt, "the least", set, Setup::new(1, 1, 1, 1));
}

/// A number that is refused says which one it is, what was given, and its range.
fn check_refused(
    rt: &impl Abort,
    alloc: Global,
    set: Result<Setup, SetupFault>,
    fault: SetupFault,
    text: &str,
) {
    assert_same(rt, text, set, Err(fault));
    let shown = format!(in alloc; "{fault}").expect(rt, "memory");
    assert_same(rt, "its text", shown.as_str(), text);
}

/// The numbers of clients, of slots, and of the rows of a block and of a window; and the refusal of one of them.
static REFUSED: [((u8, u32, u32, u32), SetupFault, &str); 8] = [
    (
        (0, 1, 1, 1),
        SetupFault::Clients { given: 0 },
        "clients must be 1 to 8, not 0",
    ),
    (
        (9, 1, 1, 1),
        SetupFault::Clients { given: 9 },
        "clients must be 1 to 8, not 9",
    ),
    (
        (1, 0, 1, 1),
        SetupFault::Capacity { given: 0 },
        "capacity must be 1 to 65536, not 0",
    ),
    (
        (1, 65_537, 1, 1),
        SetupFault::Capacity { given: 65_537 },
        "capacity must be 1 to 65536, not 65537",
    ),
    (
        (1, 1, 0, 1),
        SetupFault::Block { given: 0 },
        "block must be 1 to 65536, not 0",
    ),
    (
        (1, 1, 65_537, 1),
        SetupFault::Block { given: 65_537 },
        "block must be 1 to 65536, not 65537",
    ),
    (
        (1, 1, 1, 0),
        SetupFault::Window { given: 0 },
        "window must be 1 to 65536, not 0",
    ),
    (
        (1, 1, 1, 65_537),
        SetupFault::Window { given: 65_537 },
        "window must be 1 to 65536, not 65537",
    ),
];

#[test]
fn a_setup_says_which_number_is_refused(rt: HostRuntime) {
    for ((clients, capacity, block, window), fault, text) in &REFUSED {
        let set = with_numbers(*clients, *capacity, *block, *window);
        check_refused(&rt, rt.alloc(), set, *fault, text);
    }
}

/// An answer of two rows, with the ids 3 and 5.
fn two_rows(rt: &impl Abort, alloc: Global) -> RankedList {
    let row = row_of(alloc, 7).expect(rt, "a row");
    let first = Ranked {
        level: 1,
        id: 3,
        row,
    };
    let second = Ranked { id: 5, ..first };
    let rows = [first, second];
    RankedList::of(rows.to_vec(alloc).expect(rt, "memory"))
}

#[test]
fn an_answer_is_gone_through(rt: HostRuntime) {
    let answer = two_rows(&rt, rt.alloc());
    let sizes = (answer.len(), answer.is_empty());
    assert_same(&rt, "rows", sizes, (2, false));
    let mut ids: u64 = 0;
    for best in &answer {
        ids = ids.wrapping_mul(10).wrapping_add(best.id);
    }
    assert_same(&rt, "ids", ids, 35);
    let last = answer.iter().last().map(|best| best.id);
    assert_same(&rt, "the last", last, Some(5));
}

#[test]
fn an_answer_is_given_back(rt: HostRuntime) {
    let list = RankedList::of(Vec::new(rt.alloc()));
    assert_same(&rt, "rows", list.as_slice().len(), 0);
    assert_same(&rt, "rows given back", list.into_vec().len(), 0);
}

//! Calls that a store plans and does.

use super::fixtures::opened_store;
use crate::same::assert_same;
use pref_core::engine::{Call, Op, Outcome, QueryState, Store};
use pref_core::{Change, Commit, CoreFault};
use pref_table::Row;
use std::alloc::Global;
use std::process::Abort;
use test_runs::row_of;

/// Adds a third row by an insert of client 2, which is done once more and changes nothing then: its number is one above the
/// client's last.
fn add_a_third(rt: &impl Abort, store: &mut Store, new: Row) {
    let op = store.plan(2, Call::Insert(new)).expect(rt, "a plan");
    store.apply(&op);
    store.apply(&op);
}

/// The second block, of two slots, shows this row at a stamp, and no other.
fn check_shown(rt: &impl Abort, alloc: Global, store: &Store, stamp: u64, wanted: Option<u64>) {
    let entries = store.block(alloc, 1, 2, stamp).expect(rt, "memory");
    let first = entries.first().map(|entry| entry.id);
    let found = (first, entries.len() > 1);
    assert_same(rt, ("at stamp", stamp), found, (wanted, false));
}

fn is_done_once(rt: &impl Abort, alloc: Global, store: &mut Store, new: Row) {
    add_a_third(rt, store, new);
    let numbers = (store.stamp(), store.last(2), store.last(1), store.room());
    assert_same(rt, "stamp, last calls, room", numbers, (3, 1, 0, 0));
    assert_same(rt, "row", store.get(3), Some(new));
    check_shown(rt, alloc, store, 3, Some(3));
    check_shown(rt, alloc, store, 2, None);
}

fn tells_what_becomes_of_a_call(rt: &impl Abort, store: &Store, new: Row) {
    let op = store.plan(2, Call::Insert(new)).expect(rt, "a plan");
    assert_same(rt, "outcome", op.outcome, Outcome::Added(3));
    assert_same(rt, "slots", op.slots.as_slice(), [2].as_slice());
    let returned = store.plan(9, Call::Abandon).err();
    assert_same(rt, "client 9", returned, Some(CoreFault::NoSuchClient));
}

/// The plan tells what becomes of the call, and its new row is shown in its block from its stamp on.
#[test]
fn a_planned_call_is_done_once(rt: HostRuntime) {
    let alloc = rt.alloc();
    let new = row_of(alloc, 5).expect(&rt, "a row");
    let mut store = opened_store(&rt, alloc, 3, &[4, 6]);
    tells_what_becomes_of_a_call(&rt, &store, new);
    is_done_once(&rt, alloc, &mut store, new);
}

/// A call that leaves row 2 as this one takes the store to a stamp.
fn takes_a_stamp(
    rt: &impl Abort,
    store: &mut Store,
    call: Call,
    wanted: (Outcome, u64, Option<Row>),
) {
    let op = store.plan(1, call).expect(rt, "a plan");
    store.apply(&op);
    let found = (op.outcome, store.stamp(), store.get(2));
    assert_same(rt, wanted.1, found, wanted);
}

/// An update, and a commit of three changes: each is one commit.
fn take_one_stamp_each(rt: &impl Abort, store: &mut Store, new: Row) {
    let update = Call::Update(2, new);
    takes_a_stamp(rt, store, update, (Outcome::Done, 3, Some(new)));
    let changes = [Change::Remove(1), Change::Add(new), Change::Set(2, new)];
    let commit = Call::Commit(Commit::of(&changes).expect(rt, "a commit"));
    takes_a_stamp(rt, store, commit, (Outcome::Added(3), 4, Some(new)));
    assert_same(rt, "room", store.room(), 1);
}

#[test]
fn a_change_is_one_commit(rt: HostRuntime) {
    let new = row_of(rt.alloc(), 5).expect(&rt, "a row");
    let mut store = opened_store(&rt, rt.alloc(), 3, &[4, 6]);
    take_one_stamp_each(&rt, &mut store, new);
}

#[test]
fn a_call_gets_a_number_or_its_refusal(rt: HostRuntime) {
    let most = 1 << 56;
    let cases = [
        (Call::Begin, 0, QueryState::NotOpen, None),
        (Call::Begin, 0, QueryState::Open, Some(CoreFault::QueryOpen)),
        (Call::Finish, 7, QueryState::Open, None),
        (
            Call::Finish,
            7,
            QueryState::NotOpen,
            Some(CoreFault::NoQuery),
        ),
        (Call::Abandon, 7, QueryState::Open, None),
        (
            Call::Abandon,
            7,
            QueryState::NotOpen,
            Some(CoreFault::NoQuery),
        ),
        (Call::Delete(1), most - 1, QueryState::Open, None),
        (
            Call::Delete(1),
            most,
            QueryState::Open,
            Some(CoreFault::Spent),
        ),
        (Call::Begin, most, QueryState::Open, Some(CoreFault::Spent)),
    ];
    for (case, (call, calls, query, wanted)) in cases.iter().enumerate() {
        assert_same(&rt, case, call.lend().refusal(*calls, *query), *wanted);
    }
}

#[test]
fn an_outcome_is_a_refusal_or_none(rt: HostRuntime) {
    let cases = [
        (Outcome::Added(3), None),
        (Outcome::Done, None),
        (Outcome::NoSuchRow(4), Some(CoreFault::NoSuchRow { id: 4 })),
        (Outcome::Full(5), Some(CoreFault::Full { needed: 5 })),
    ];
    for (case, (outcome, wanted)) in cases.iter().enumerate() {
        assert_same(&rt, case, outcome.refusal(), *wanted);
    }
}

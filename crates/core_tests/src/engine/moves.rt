//! Rows that had to move to another slot because an open query needs their old version.

use super::fixtures::{call_of, opened_store, value_of};
use crate::same::assert_same;
use pref_core::engine::Store;
use pref_table::Schema;
use std::alloc::Global;
use std::process::Abort;
use test_runs::Does::{self, Abandons, Begins, Deletes, Inserts, Updates};
use test_runs::columns;

/// Calls over a table of three slots, and what is there then.
struct Case {
    name: &'static str,
    /// The value of each row with which the table is opened.
    opening: &'static [i64],
    /// A client each, and what it does: the calls that other cases begin with too, and its own.
    calls: [&'static [(u8, Does)]; 2],
    /// The slot of the last call's new row.
    slot: Option<u32>,
    /// The value of each of these rows.
    rows: &'static [(u64, Option<i64>)],
}

/// Row 1 moves: client 2 updates it beside client 1's query.
const MOVE_ROW_1: &[(u8, Does)] = &[(1, Begins), (2, Updates(1, 5))];

/// Rows 1 and 4 have one home.
const SHARE_A_HOME: &[(u8, Does)] = &[
    (1, Inserts(5)),
    (1, Deletes(2)),
    (1, Inserts(5)),
    (1, Deletes(3)),
    (1, Inserts(6)),
];

static CASES: [Case; 5] = [
    Case {
        name: "a moved row is found",
        opening: &[4, 6],
        calls: [MOVE_ROW_1, &[]],
        slot: Some(2),
        rows: &[(1, Some(5)), (2, Some(6))],
    },
    Case {
        name: "a moved row is deleted",
        opening: &[4, 6],
        calls: [MOVE_ROW_1, &[(2, Deletes(1))]],
        slot: None,
        rows: &[(1, None), (2, Some(6))],
    },
    Case {
        name: "a moved row is at its home once it is updated without a query",
        opening: &[4, 6],
        calls: [MOVE_ROW_1, &[(1, Abandons), (2, Updates(1, 7))]],
        slot: Some(0),
        rows: &[(1, Some(7)), (2, Some(6))],
    },
    Case {
        name: "two rows of one home are found",
        opening: &[4],
        calls: [SHARE_A_HOME, &[]],
        slot: Some(1),
        rows: &[(1, Some(4)), (4, Some(6)), (7, None)],
    },
    Case {
        name: "two moved rows of one home are found",
        opening: &[4],
        calls: [SHARE_A_HOME, &[(1, Begins), (2, Updates(1, 7))]],
        slot: Some(2),
        rows: &[(1, Some(7)), (4, Some(6)), (3, None)],
    },
];

/// A call, planned and done: the slot of its new row.
fn done(
    rt: &impl Abort,
    schema: &Schema,
    store: &mut Store,
    client: u8,
    does: Does,
) -> Option<u32> {
    let call = call_of(rt, schema, does);
    let op = store.plan(client, call).expect(rt, "a plan");
    store.apply(&op);
    op.slots.as_slice().first().copied()
}

fn check_slot(rt: &impl Abort, schema: &Schema, store: &mut Store, case: &Case) {
    let mut slot = None;
    for (client, does) in case.calls[0].iter().chain(case.calls[1]) {
        slot = done(rt, schema, store, *client, *does);
    }
    assert_same(rt, case.name, slot, case.slot);
}

fn check_rows(rt: &impl Abort, store: &Store, case: &Case) {
    for (id, wanted) in case.rows {
        assert_same(rt, (case.name, *id), value_of(store, *id), *wanted);
    }
}

fn check_case(rt: &impl Abort, alloc: Global, schema: &Schema, case: &Case) {
    let mut store = opened_store(rt, alloc, 3, case.opening);
    check_slot(rt, schema, &mut store, case);
    check_rows(rt, &store, case);
}

#[test]
fn moved_rows_are_found(rt: HostRuntime) {
    let schema = columns(rt.alloc()).expect(&rt, "columns");
    for case in &CASES {
        check_case(&rt, rt.alloc(), &schema, case);
    }
}

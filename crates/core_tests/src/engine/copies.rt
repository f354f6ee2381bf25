//! A store and its copy.

use super::fixtures::opened_store;
use crate::same::assert_same;
use pref_core::engine::{Call, Store};
use pref_table::Row;
use std::process::Abort;
use test_runs::row_of;

/// The row takes the place of row 1 in the copy.
fn update_copy(rt: &impl Abort, copy: &mut Store, new: Row) {
    let op = copy.plan(1, Call::Update(1, new)).expect(rt, "a plan");
    copy.apply(&op);
}

fn goes_its_own_way(rt: &impl Abort, store: &Store, copy: &mut Store, old: Row, new: Row) {
    assert_same(rt, "copied", copy.get(1), store.get(1));
    update_copy(rt, copy, new);
    let found = (copy.get(1), store.get(1));
    assert_same(rt, "copy and store", found, (Some(new), Some(old)));
}

#[test]
fn a_copy_of_a_store_goes_its_own_way(rt: HostRuntime) {
    let alloc = rt.alloc();
    let old = row_of(alloc, 4).expect(&rt, "a row");
    let new = row_of(alloc, 5).expect(&rt, "a row");
    let store = opened_store(&rt, alloc, 3, &[4]);
    let mut copy = store.copy(alloc).expect(&rt, "memory");
    goes_its_own_way(&rt, &store, &mut copy, old, new);
}

//! Calls in boxes: an op with one is done as the op with a call of its own.

use super::fixtures::{opened_store, value_of};
use crate::same::assert_same;
use pref_core::engine::{BoxedCall, BoxedOp, Call, Store};
use pref_core::{BoxedCommit, Change, Commit};
use pref_table::Row;
use std::alloc::Global;
use std::process::Abort;
use test_runs::row_of;

/// A call of each kind, as it is and in a box. Each is done where the ones before it are.
fn calls(rt: &impl Abort, alloc: Global, new: Row) -> Vec<(Call, BoxedCall)> {
    let commit = Commit::of(&[Change::Remove(1), Change::Add(new)]).expect(rt, "a commit");
    let boxed = BoxedCommit::new(alloc, commit).expect(rt, "memory");
    let calls = [
        (Call::Insert(new), BoxedCall::insert(new)),
        (Call::Update(2, new), BoxedCall::update(2, new)),
        (Call::Begin, BoxedCall::begin()),
        (Call::Commit(commit), BoxedCall::commit(boxed)),
        (Call::Finish, BoxedCall::finish()),
        (Call::Delete(3), BoxedCall::delete(3)),
        (Call::Begin, BoxedCall::begin()),
        (Call::Abandon, BoxedCall::abandon()),
    ];
    Vec::from_array(alloc, calls).expect(rt, "memory")
}

/// The stamp, how many calls client 1 has made, the room, and the value of row 2.
fn standing(store: &Store) -> (u64, u64, u32, Option<i64>) {
    (
        store.stamp(),
        store.last(1),
        store.room(),
        value_of(store, 2),
    )
}

/// Does a call of client 1 in a store by its op, and in another by the op with the call in a box: then they stand alike.
fn is_done_alike(
    rt: &impl Abort,
    number: usize,
    (store, other): (&mut Store, &mut Store),
    call: Call,
    boxed: BoxedCall,
) {
    let op = store.plan(1, call).expect(rt, "a plan");
    let boxed = BoxedOp {
        client: op.client,
        number: op.number,
        call: boxed,
        slots: op.slots,
        outcome: op.outcome,
    };
    store.apply(&op);
    let lent = boxed.call.lend();
    other.apply_planned(&boxed.planned(&lent));
    let wanted = (standing(store), op.number);
    assert_same(rt, number, (standing(other), other.last(1)), wanted);
}

/// Each call is done alike on its boxed and on its lent form.
fn are_done_alike(rt: &impl Abort, alloc: Global, new: Row, store: &mut Store, other: &mut Store) {
    for (number, (call, boxed)) in calls(rt, alloc, new).into_iter().enumerate() {
        is_done_alike(rt, number, (store, other), call, boxed);
    }
}

#[test]
fn an_op_with_its_call_in_a_box_is_done_alike(rt: HostRuntime) {
    let alloc = rt.alloc();
    let new = row_of(alloc, 5).expect(&rt, "a row");
    let mut store = opened_store(&rt, alloc, 4, &[4, 6]);
    let mut other = store.copy(alloc).expect(&rt, "memory");
    are_done_alike(&rt, alloc, new, &mut store, &mut other);
}

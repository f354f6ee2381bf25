//! An index beside a store: planned and applied by it, and kept as the store changes.
ghost use Rattle.std.specs.Prelude.{OnOk};
ghost use Rattle.pref_core.specs.Indexes.{IsIndexOf};

use super::fixtures::opened_store;
use crate::same::assert_same;
use pref_core::CoreFault;
use pref_core::engine::{Call, Index, Outcome, Store};
use pref_table::Row;
use std::alloc::Global;
use std::process::Abort;
use test_runs::row_of;

/// A call, planned and done by the index.
fn done(
    alloc: Global,
    store: &mut Store,
    index: &mut Index,
    client: u8,
    call: &Call,
) -> Result<Outcome, CoreFault>
    requires { IsIndexOf store.old index.old }
    ensures { OnOk result (IsIndexOf store.new index.new) }
{
    let lent = call.lend();
    let op = match store.look_up(index, client, &lent) {
        Ok(op) => op,
        Err(fault) => return Err(fault),
    };
    store.reindex(alloc, index, &op)?;
    store.perform(&op);
    Ok(op.outcome)
}

/// A store of these rows with its index.
fn opened(rt: &impl Abort, alloc: Global, values: &[i64]) -> (Store, Index)
    ensures { IsIndexOf result.0 result.1 }
{
    let store = opened_store(rt, alloc, 4, values);
    let index = Index::new(alloc, &store).expect(rt, "an index");
    (store, index)
}

/// A row is added, deleted, moved beside a query, and deleted while that is open.
fn goes_along(
    rt: &impl Abort,
    alloc: Global,
    added: Row,
    store: &mut Store,
    index: &mut Index,
) -> Result<(), CoreFault>
    requires { IsIndexOf store.old index.old }
{
    let outcome = done(alloc, store, index, 1, &Call::Insert(added))?;
    let found = (outcome, index.slot(3), store.get_at(index, 3));
    let wanted = (Outcome::Added(3), Some(2), Some(added));
    assert_same(rt, "added", found, wanted);
    done(alloc, store, index, 1, &Call::Delete(3))?;
    assert_same(rt, "deleted", index.slot(3), None);
    done(alloc, store, index, 2, &Call::Begin)?;
    done(alloc, store, index, 1, &Call::Update(2, added))?;
    assert_same(rt, "moved", index.slot(2) != Some(1), true);
    for id in [2, 9] {
        let delete = Call::Delete(id);
        let lent = delete.lend();
        let by_index = match store.look_up(index, 1, &lent) {
            Ok(op) => Ok(op.op()),
            Err(fault) => Err(fault),
        };
        let by_store = store.plan(1, delete);
        assert_same(rt, ("plan", id), &by_index, &by_store);
    }
    done(alloc, store, index, 1, &Call::Delete(2))?;
    assert_same(rt, "deleted beside a query", index.slot(2), None);
    Ok(())
}

#[test]
fn an_index_goes_along_with_its_store(rt: HostRuntime) {
    let alloc = rt.alloc();
    let added = row_of(alloc, 6).expect(&rt, "a row");
    let (mut store, mut index) = opened(&rt, alloc, &[4, 5]);
    goes_along(&rt, alloc, added, &mut store, &mut index).expect(&rt, "the calls");
}

fn goes_before_the_store(
    rt: &impl Abort,
    alloc: Global,
    store: &Store,
    index: &mut Index,
) -> Result<(), CoreFault>
    requires { IsIndexOf store.now index.old }
{
    let delete = Call::Delete(2);
    let lent = delete.lend();
    let op = match store.look_up(index, 1, &lent) {
        Ok(op) => op,
        Err(fault) => return Err(fault),
    };
    store.reindex(alloc, index, &op)?;
    let found = (index.slot(2), store.get(2).is_some());
    assert_same(rt, "in the index, in the store", found, (None, true));
    Ok(())
}

#[test]
fn an_index_goes_before_its_store(rt: HostRuntime) {
    let (store, mut index) = opened(&rt, rt.alloc(), &[4, 5]);
    goes_before_the_store(&rt, rt.alloc(), &store, &mut index).expect(&rt, "a call");
}

fn is_a_map(rt: &impl Abort, alloc: Global, index: &mut Index) {
    index.put(alloc, 7, 1).expect(rt, "memory");
    let put = index.slot(7);
    index.set(7, 0);
    let set = index.slot(7);
    index.take(7);
    let found = (put, set, index.slot(7));
    assert_same(rt, "put, set, taken", found, (Some(1), Some(0), None));
}

#[test]
fn an_index_is_a_map(rt: HostRuntime) {
    let (_store, mut index) = opened(&rt, rt.alloc(), &[]);
    is_a_map(&rt, rt.alloc(), &mut index);
}

//! Runs that are compared with their replies, and small stores and machines.

use crate::same::assert_same;
use pref_core::engine::{Call, Store};
use pref_core::{Machine, Reply, Setup, replay};
use pref_table::Schema;
use std::alloc::{AllocError, Global};
use std::fmt::Debug;
use std::process::Abort;
use std::test::Fail;
use test_runs::{Does, Run, Turn, columns, events_of, reply_text, row, rows_of, setup_of};

/// The reply in a case is the one that is wanted.
pub(crate) fn check_reply<C: Debug + Copy>(
    rt: &impl Abort,
    alloc: Global,
    case: C,
    reply: &Reply,
    wanted: &str,
) -> Result<(), AllocError> {
    let returned = reply_text(alloc, reply)?;
    assert_same(rt, case, returned.as_str(), wanted);
    Ok(())
}

/// The replies in a case are those of the first turns.
pub(crate) fn check_replies<C: Debug + Copy>(
    rt: &impl Abort,
    alloc: Global,
    case: C,
    replies: &[Reply],
    turns: &[Turn],
) -> Result<(), AllocError> {
    for (number, (reply, turn)) in replies.iter().zip(turns).enumerate() {
        check_reply(rt, alloc, (case, number), reply, turn.2)?;
    }
    Ok(())
}

/// The replies to these turns over a table with these rows.
fn replies_to(
    alloc: Global,
    setup: Setup,
    values: &[i64],
    turns: &[Turn],
) -> Result<Vec<Reply>, Fail> {
    let opening = rows_of(alloc, values)?;
    let events = events_of(alloc, &columns(alloc)?, turns)?;
    Ok(replay(alloc, setup, &opening, events)?)
}

/// The replies to the turns of a case over a table with these rows are those of the turns.
pub(crate) fn check_turns<C: Debug + Copy>(
    rt: &impl Abort,
    alloc: Global,
    case: C,
    setup: Setup,
    values: &[i64],
    turns: &[Turn],
) -> Result<(), Fail> {
    let replies = replies_to(alloc, setup, values, turns)?;
    assert_same(rt, (case, "replies"), replies.len(), turns.len());
    check_replies(rt, alloc, case, &replies, turns)?;
    Ok(())
}

/// The replies to runs are those of their turns.
pub(crate) fn check_runs(rt: &impl Abort, alloc: Global, runs: &[Run]) -> Result<(), Fail> {
    for (number, run) in runs.iter().enumerate() {
        check_turns(rt, alloc, number, run.setup()?, run.opening, run.turns)?;
    }
    Ok(())
}

/// A store of so many slots with these rows, for two clients.
pub(crate) fn opened_store(rt: &impl Abort, alloc: Global, slots: u32, values: &[i64]) -> Store {
    let setup = setup_of(2, slots, 2, 1).expect(rt, "a setup");
    let rows = rows_of(alloc, values).expect(rt, "rows");
    Store::new(alloc, &setup, &rows).expect(rt, "a store")
}

/// The call of a change of one row, or of the begin or the end of a query.
pub(crate) fn call_of(rt: &impl Abort, schema: &Schema, does: Does) -> Call {
    match does {
        Does::Inserts(value) => Call::Insert(row(schema, value).expect(rt, "a row")),
        Does::Updates(id, value) => Call::Update(id, row(schema, value).expect(rt, "a row")),
        Does::Deletes(id) => Call::Delete(id),
        Does::Begins => Call::Begin,
        Does::Abandons => Call::Abandon,
        _ => panic!(rt; "another call"),
    }
}

/// The value of a row of a store.
pub(crate) fn value_of(store: &Store, id: u64) -> Option<i64> {
    store.get(id).map(|row| row.cell(0))
}

/// A machine with these rows.
pub(crate) fn opened_machine(alloc: Global, setup: Setup, values: &[i64]) -> Result<Machine, Fail> {
    Ok(Machine::new(alloc, setup, &rows_of(alloc, values)?)?)
}

/// A machine of four slots with two rows, for two clients.
pub(crate) fn small_machine(rt: &impl Abort, alloc: Global) -> Machine {
    let setup = setup_of(2, 4, 2, 64).expect(rt, "a setup");
    let rows = rows_of(alloc, &[5, 7]).expect(rt, "rows");
    Machine::new(alloc, setup, &rows).expect(rt, "a machine")
}

//! The calls of a machine: the value that each returns, and a refusal of each.

use super::fixtures::small_machine;
use crate::same::assert_same;
use pref_core::{Change, Commit, Committed, CoreFault, Machine};
use pref_table::{Row, Schema};
use pref_term::{Ask, read_ask};
use std::alloc::Global;
use std::process::Abort;
use test_runs::{answer_text, columns, row_of};

/// A commit that adds a row and removes row 3.
fn commit_of_two(rt: &impl Abort, row: Row) -> Commit {
    Commit::of(&[Change::Add(row), Change::Remove(3)]).expect(rt, "a commit")
}

/// Changes of client 2 over the rows 1 and 2, which leave the rows 2 and 4.
fn check_changes(
    rt: &impl Abort,
    alloc: Global,
    machine: &mut Machine,
    row: &Row,
    commit: &Commit,
) {
    let committed = Committed {
        changes: 2,
        first: 4,
    };
    let returned = (
        machine.insert(alloc, 2, row),
        machine.update(alloc, 2, 2, row),
        machine.delete(alloc, 2, 1),
        machine.commit(alloc, 2, commit),
    );
    let wanted = (Ok(3), Ok(()), Ok(()), Ok(committed));
    assert_same(rt, "insert, update, delete, commit", returned, wanted);
}

/// All these changes again, of which the rows 1 and 3 are gone, and inserts until there is no room.
fn check_refused_changes(
    rt: &impl Abort,
    alloc: Global,
    machine: &mut Machine,
    row: &Row,
    commit: &Commit,
) {
    let first = CoreFault::NoSuchRow { id: 1 };
    let third = CoreFault::NoSuchRow { id: 3 };
    let full = CoreFault::Full { needed: 5 };
    let returned = (
        machine.update(alloc, 2, 1, row),
        machine.delete(alloc, 2, 1),
        machine.commit(alloc, 2, commit),
    );
    let wanted = (Err(first), Err(first), Err(third));
    assert_same(rt, "update, delete, commit", returned, wanted);
    let returned = (
        machine.insert(alloc, 2, row),
        machine.insert(alloc, 2, row),
        machine.insert(alloc, 2, row),
    );
    assert_same(rt, "inserts", returned, (Ok(5), Ok(6), Err(full)));
}

#[test]
fn changes_return_their_values(rt: HostRuntime) {
    let alloc = rt.alloc();
    let added = row_of(alloc, 9).expect(&rt, "a row");
    let commit = commit_of_two(&rt, added);
    let mut machine = small_machine(&rt, alloc);
    check_changes(&rt, alloc, &mut machine, &added, &commit);
    check_refused_changes(&rt, alloc, &mut machine, &added, &commit);
}

fn lowest(rt: &impl Abort, alloc: Global, schema: &Schema) -> Ask {
    read_ask(alloc, schema, b"best low(x)").expect(rt, "a question")
}

/// A query of client 1 goes through its two blocks, and each call is refused where it comes too early or too late.
fn check_query(rt: &impl Abort, alloc: Global, schema: &Schema, machine: &mut Machine) {
    let begun = machine.begin(1, lowest(rt, alloc, schema));
    let again = machine.begin(1, lowest(rt, alloc, schema));
    let wanted = (Ok(2), Err(CoreFault::QueryOpen));
    assert_same(rt, "begin, begin again", (begun, again), wanted);
    let first = (machine.scan(alloc, 1), machine.finish(alloc, 1).err());
    let wanted = (Ok(1), Some(CoreFault::NotDone { left: 1 }));
    assert_same(rt, "first scan, early finish", first, wanted);
    let last = (machine.scan(alloc, 1), machine.scan(alloc, 1));
    let wanted = (Ok(0), Err(CoreFault::AllScanned));
    assert_same(rt, "last scan, past the last", last, wanted);
    let list = machine.finish(alloc, 1).expect(rt, "an answer");
    let answer = answer_text(alloc, list.as_slice()).expect(rt, "memory");
    assert_same(rt, "answer", answer.as_str(), "answer 1\nlevel 1 id 1: 5");
}

/// An abandoned query is gone.
fn check_abandon(rt: &impl Abort, alloc: Global, schema: &Schema, machine: &mut Machine) {
    let begun = machine.begin(2, lowest(rt, alloc, schema));
    let returned = (begun, machine.abandon(2), machine.abandon(2));
    let wanted = (Ok(2), Ok(()), Err(CoreFault::NoQuery));
    assert_same(rt, "begin, abandon, abandon again", returned, wanted);
}

#[test]
fn a_query_returns_its_blocks_and_its_answer_or_nothing(rt: HostRuntime) {
    let alloc = rt.alloc();
    let schema = columns(alloc).expect(&rt, "columns");
    let mut machine = small_machine(&rt, alloc);
    check_query(&rt, alloc, &schema, &mut machine);
    check_abandon(&rt, alloc, &schema, &mut machine);
}

/// Row 1 is this one, and there is room for two rows beside the two.
fn check_reads(rt: &impl Abort, machine: &Machine, row: Row) {
    let missing = CoreFault::NoSuchRow { id: 9 };
    let rows = (machine.get(1, 1), machine.get(1, 9));
    assert_same(rt, "row, no row", rows, (Ok(row), Err(missing)));
    let room = (machine.room(1), machine.room(3));
    let wanted = (Ok(2), Err(CoreFault::NoSuchClient));
    assert_same(rt, "room, no client", room, wanted);
}

#[test]
fn reads_return_a_row_and_the_room(rt: HostRuntime) {
    let first = row_of(rt.alloc(), 5).expect(&rt, "a row");
    check_reads(&rt, &small_machine(&rt, rt.alloc()), first);
}

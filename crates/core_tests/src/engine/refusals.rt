//! Requests for memory that are refused. `tests/refuse_each_allocation.sh` runs these tests once for each of their requests,
//! and refuses it; where none is refused they show that the calls succeed.
mod stopped;

ghost use Rattle.std.specs.Prelude.{IfOk};
ghost use Rattle.pref_core.specs.Indexes.{IsIndexOf};
ghost use Rattle.pref_core.specs.Scans.{NextIsNew};

use super::fixtures::{check_reply, opened_machine};
use crate::same::assert_same;
use pref_core::engine::{Index, LentCall, Query, Store};
use pref_core::{Act, Change, Commit, Committed, CoreFault, Event, Machine, Reply, StepFault};
use pref_sky::Ranked;
use pref_table::{Row, Schema};
use pref_term::{Ask, read_ask};
use std::alloc::Global;
use std::process::Abort;
use std::test::Fail;
use test_runs::{
    Does, Turn, answer_text, columns, commit_act, event_of, row_of, rows_of, setup_of,
};

/// How often eight rows come in the place of eight others: the index, which has room for 18, has to grow by then.
const ROUNDS: u8 = 30;

/// What a step returns in the end: a step that memory is refused to hands its event back, and is made again.
fn reply_in_the_end(rt: &impl Abort, alloc: Global, machine: &mut Machine, event: Event) -> Reply {
    match machine.step(alloc, event) {
        Ok(reply) => reply,
        Err(
            StepFault {
                fault: CoreFault::OutOfMemory,
                event,
            },
        ) => machine.reply(alloc, event).expect(rt, "memory"),
        Err(StepFault { fault, .. }) => Reply::Refused(fault),
    }
}

/// What clients do one after the other, and what is returned to them.
static TURNS: [Turn; 12] = [
    (1, Does::Begins, "begun 2"),
    (1, Does::Scans, "left 1"),
    (2, Does::Inserts(1), "inserted 3"),
    (2, Does::Updates(2, 3), "updated 2"),
    (2, Does::Deletes(1), "deleted 1"),
    (2, Does::Gets(2), "row 2: 3"),
    (2, Does::AsksRoom, "room 0"),
    (1, Does::Scans, "left 0"),
    (1, Does::Finishes, "answer 1\nlevel 1 id 1: 5"),
    (1, Does::Begins, "begun 2"),
    (1, Does::Abandons, "abandoned"),
    (1, Does::Finishes, "refused 4: no query"),
];

/// Each act of a run, again where memory was refused: what it returns in the end.
fn go_through_a_run(
    rt: &impl Abort,
    alloc: Global,
    schema: &Schema,
    machine: &mut Machine,
    turns: &[Turn],
) -> Result<(), Fail> {
    for (number, turn) in turns.iter().enumerate() {
        let event = event_of(alloc, schema, turn)?;
        let reply = reply_in_the_end(rt, alloc, machine, event);
        check_reply(rt, alloc, number, &reply, turn.2)?;
    }
    Ok(())
}

#[test]
fn each_act_changes_nothing_where_refused_and_is_made_again(rt: HostRuntime) -> Result<(), Fail> {
    let alloc = rt.alloc();
    let schema = columns(alloc)?;
    let mut machine = opened_machine(alloc, setup_of(2, 4, 2, 64)?, &[5, 7])?;
    go_through_a_run(&rt, alloc, &schema, &mut machine, &TURNS)
}

/// The removes of the eight oldest rows of a table of 18, in whose place eight new ones came this often.
fn removes_of(rounds: u8) -> [Change; 8] {
    let oldest = 8 * u64::from(rounds) + 1;
    let mut removes = [Change::Remove(oldest); 8];
    for at in 1..8u8 {
        removes[usize::from(at)] = Change::Remove(oldest + u64::from(at));
    }
    removes
}

/// No row of this id is there, and there is room for eight rows.
fn has_room_for_eight(rt: &impl Abort, machine: &Machine, id: u64) {
    let missing = CoreFault::NoSuchRow { id };
    let found = (machine.get(2, id), machine.room(2));
    assert_same(rt, id, found, (Err(missing), Ok(8)));
}

/// A commit that adds eight rows, made again where memory was refused: until then none of them is there.
fn added_in_the_end(
    rt: &impl Abort,
    alloc: Global,
    machine: &mut Machine,
    event: Event,
    first: u64,
) -> Option<Committed> {
    let returned = match machine.step(alloc, event) {
        Ok(returned) => returned,
        Err(StepFault { fault, event }) => {
            assert_same(rt, first, fault, CoreFault::OutOfMemory);
            has_room_for_eight(rt, machine, first);
            machine.reply(alloc, event).expect(rt, "memory")
        }
    };
    match returned {
        Reply::Committed(committed) => Some(committed),
        _ => None,
    }
}

/// Adds eight rows to a table that has room for them.
fn add_eight_rows(
    rt: &impl Abort,
    alloc: Global,
    machine: &mut Machine,
    added: Row,
    round: u8,
) -> Result<(), Fail> {
    let event = Event {
        client: 1,
        act: commit_act(alloc, &[Change::Add(added); 8])?,
    };
    let first = 8 * u64::from(round) + 19;
    let committed = added_in_the_end(rt, alloc, machine, event, first);
    assert_same(rt, round, committed, Some(Committed { changes: 8, first }));
    Ok(())
}

/// Eight rows in place of the eight oldest of a full table, again and again, until the index has to grow.
fn replace_eight_rows(
    rt: &impl Abort,
    alloc: Global,
    machine: &mut Machine,
    added: Row,
) -> Result<(), Fail> {
    for round in 0..ROUNDS {
        let removes = Commit::of(&removes_of(round))?;
        machine
            .commit(alloc, 1, &removes)
            .expect(rt, "a remove takes no memory");
        add_eight_rows(rt, alloc, machine, added, round)?;
    }
    Ok(())
}

#[test]
fn a_commit_that_makes_the_index_grow_is_made_again(rt: HostRuntime) -> Result<(), Fail> {
    let alloc = rt.alloc();
    let added = row_of(alloc, 6)?;
    let setup = setup_of(2, 18, 6, 64)?;
    let mut machine = opened_machine(alloc, setup, &[5; 18])?;
    replace_eight_rows(&rt, alloc, &mut machine, added)
}

/// The index has the first rows of a table, this many, at the slots 0, 1, .., and no other up to the tenth.
fn check_first_rows(rt: &impl Abort, index: &Index, rows: usize) {
    for slot in 0..10usize {
        let wanted = if slot < rows { Some(slot) } else { None };
        assert_same(rt, slot, index.slot(slot as u64 + 1), wanted);
    }
}

/// An index goes along with a commit that adds eight rows to two, again where memory was refused: until then it has the two alone.
fn reindex_in_the_end(
    rt: &impl Abort,
    alloc: Global,
    store: &Store,
    index: &mut Index,
    commit: &Commit,
)
    requires { IsIndexOf store.now index.old }
{
    let call = LentCall::commit(commit);
    if let Ok(op) = store.look_up(index, 1, &call) {
        if store.reindex(alloc, index, &op).is_err() {
            check_first_rows(rt, index, 2);
            store.reindex(alloc, index, &op).expect(rt, "memory");
        }
    }
}

/// A store of two rows with room for ten, and an index of it with room for nine: that of a store of the same rows with no room for others.
fn narrowly_indexed(alloc: Global) -> Result<(Store, Index), Fail>
    ensures { IfOk result (λ both. IsIndexOf both.0 both.1) }
{
    let rows = rows_of(alloc, &[5, 7])?;
    let full = Store::new(alloc, &setup_of(1, 2, 1, 1)?, &rows)?;
    let store = Store::new(alloc, &setup_of(1, 10, 1, 1)?, &rows)?;
    let index = Index::new(alloc, &full)?;
    Ok((store, index))
}

/// An index with room for nine rows grows while it takes eight beside its two.
#[test]
fn an_index_has_all_rows_of_a_commit_or_none(rt: HostRuntime) -> Result<(), Fail> {
    let alloc = rt.alloc();
    let commit = Commit::of(&[Change::Add(row_of(alloc, 5)?); 8])?;
    let (store, mut index) = narrowly_indexed(alloc)?;
    reindex_in_the_end(&rt, alloc, &store, &mut index, &commit);
    check_first_rows(&rt, &index, 10);
    Ok(())
}

/// Scans a block, again where memory was refused: until then as many blocks are left as before.
fn scan_in_the_end(rt: &impl Abort, alloc: Global, query: &mut Query, store: &Store) -> u32
    requires { NextIsNew query.old store.now.slots }
{
    let before = query.left();
    match query.scan(alloc, store) {
        Ok(left) => left,
        Err(fault) => {
            let found = (fault, query.left());
            assert_same(rt, "refused", found, (CoreFault::OutOfMemory, before));
            query.scan(alloc, store).expect(rt, "memory")
        }
    }
}

/// The answer, asked for again where memory was refused.
fn answer_in_the_end(rt: &impl Abort, alloc: Global, query: &Query) -> Vec<Ranked> {
    match query.answer(alloc) {
        Ok(ranked) => ranked,
        Err(fault) => {
            assert_same(rt, "refused", fault, CoreFault::OutOfMemory);
            query.answer(alloc).expect(rt, "memory")
        }
    }
}

/// The answer has three rows on two levels.
fn check_two_levels(rt: &impl Abort, alloc: Global, query: &Query) -> Result<(), Fail> {
    let returned = answer_text(alloc, &answer_in_the_end(rt, alloc, query))?;
    let wanted = "answer 3\nlevel 1 id 1: 4\nlevel 1 id 3: 4\nlevel 2 id 2: 6";
    assert_same(rt, "answer", returned.as_str(), wanted);
    Ok(())
}

/// Scans the one block of a query, and asks for its answer before and after.
fn scan_and_answer(
    rt: &impl Abort,
    alloc: Global,
    query: &mut Query,
    store: &Store,
) -> Result<(), Fail>
    requires { NextIsNew query.old store.now.slots }
{
    let begun = (query.left(), query.answer(alloc).err());
    let wanted = (1, Some(CoreFault::NotDone { left: 1 }));
    assert_same(rt, "begun", begun, wanted);
    let left = scan_in_the_end(rt, alloc, query, store);
    assert_same(rt, "scanned", left, 0);
    check_two_levels(rt, alloc, query)
}

fn two_levels(alloc: Global) -> Result<Ask, Fail> {
    let schema = columns(alloc)?;
    Ok(read_ask(alloc, &schema, b"top_level 2 low(x)")?)
}

#[test]
fn a_query_is_scanned_and_answered_again_after_a_refusal(rt: HostRuntime) -> Result<(), Fail> {
    let alloc = rt.alloc();
    let setup = setup_of(1, 3, 3, 1)?;
    assert_same(&rt, "blocks", setup.blocks(), 1);
    let store = Store::new(alloc, &setup, &rows_of(alloc, &[4, 6, 4])?)?;
    let ask = two_levels(alloc)?;
    let mut query = Query::begin(ask, store.stamp(), &setup);
    scan_and_answer(&rt, alloc, &mut query, &store)
}

//! Runs that stop where a request for memory is refused: they keep the replies before it.

use crate::engine::fixtures::check_replies;
use crate::same::assert_same;
use pref_core::{Part, Setup, replay_part};
use pref_table::{Row, Schema};
use std::alloc::{AllocError, Global};
use std::process::Abort;
use std::test::Fail;
use test_runs::{
    A_DELETED_ROW_IS_STILL_ANSWERED, A_ROW_IS_UPDATED, Does, Run, Turn, columns, events_of,
    setup_of,
};

/// The rows of a table with the columns x and y.
static OPENING: [[i64; 2]; 9] = [
    [20, 1],
    [4, 16],
    [5, 15],
    [6, 14],
    [7, 13],
    [21, 2],
    [1, 10],
    [2, 11],
    [3, 12],
];

/// What clients do over that table, whose answer has three levels.
static TURNS: [Turn; 4] = [
    (1, Does::Asks("at_least 5 low(x) * low(y)"), "begun 2"),
    (1, Does::Scans, "left 1"),
    (1, Does::Scans, "left 0"),
    (
        1,
        Does::Finishes,
        "answer 5\nlevel 1 id 1: 20\nlevel 1 id 7: 1\nlevel 2 id 6: 21\nlevel 2 id 8: 2\nlevel 3 id 9: 3",
    ),
];

/// The replies of a part are those of the first turns, and where it stopped some turns are left.
fn are_first(
    rt: &impl Abort,
    alloc: Global,
    part: &Part,
    turns: &[Turn],
) -> Result<(), AllocError> {
    let is_short = part.replies.len() < turns.len();
    assert_same(rt, "stopped", part.stopped, is_short);
    check_replies(rt, alloc, "first replies", &part.replies, turns)
}

/// Whether turns came to their end. They are never refused, and the replies that there are belong to the first of them.
fn is_whole(
    rt: &impl Abort,
    alloc: Global,
    setup: Setup,
    schema: &Schema,
    opening: &[Row],
    turns: &[Turn],
) -> Result<bool, Fail> {
    let events = events_of(alloc, schema, turns)?;
    match replay_part(alloc, setup, opening, events) {
        Ok(part) => {
            are_first(rt, alloc, &part, turns)?;
            Ok(!part.stopped)
        }
        Err(fault) => {
            assert_same(rt, "refused", Some(fault), None);
            Ok(false)
        }
    }
}

/// Plays turns over a table with these rows, again where they were stopped.
fn check_turns(
    rt: &impl Abort,
    alloc: Global,
    setup: Setup,
    schema: &Schema,
    opening: &[Row],
    turns: &[Turn],
) -> Result<(), Fail> {
    if !is_whole(rt, alloc, setup, schema, opening, turns)? {
        let is_whole_then = is_whole(rt, alloc, setup, schema, opening, turns)?;
        assert_same(rt, "made again", is_whole_then, true);
    }
    Ok(())
}

fn check_run(rt: &impl Abort, alloc: Global, run: &Run) -> Result<(), Fail> {
    let opening = run.opening_rows(alloc)?;
    check_turns(
        rt,
        alloc,
        run.setup()?,
        &columns(alloc)?,
        &opening,
        run.turns,
    )
}

/// While a row is updated, and while slots are used again.
#[test]
fn a_stopped_run_keeps_its_first_replies(rt: HostRuntime) -> Result<(), Fail> {
    check_run(&rt, rt.alloc(), &A_ROW_IS_UPDATED)?;
    check_run(&rt, rt.alloc(), &A_DELETED_ROW_IS_STILL_ANSWERED)
}

fn opening_rows(alloc: Global, schema: &Schema) -> Result<Vec<Row>, Fail> {
    let mut made = Vec::new(alloc);
    for cells in &OPENING {
        made.push(Row::of(schema, cells.as_slice())?)?;
    }
    Ok(made)
}

#[test]
fn a_stopped_run_keeps_its_first_replies_before_an_answer_of_three_levels(
    rt: HostRuntime,
) -> Result<(), Fail> {
    let alloc = rt.alloc();
    let names = [b"x".as_slice(), b"y".as_slice()];
    let schema = Schema::new(alloc, names.as_slice())?;
    let opening = opening_rows(alloc, &schema)?;
    let setup = setup_of(1, 12, 6, 64)?;
    check_turns(&rt, alloc, setup, &schema, &opening, &TURNS)
}

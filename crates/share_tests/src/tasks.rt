//! Tasks, whose acts come one by one and which take each reply, on a thread for each client.

ghost use Rattle.std.specs.Prelude.{◌≡◌};

use crate::boards::Open;
use crate::inserts::Inserts;
use crate::same::assert_same;
use pref_core::Setup;
use pref_share::{BoardBrand, BoardName, ShareFault, open_board, run_tasks};
use pref_table::Row;
use std::alloc::Global;
use std::marker::Brand;
use std::process::Abort;
use std::sync::Wait;
use std::test::Fail;
use std::thread::Threads;
use test_runs::{row_of, rows_of, setup_of};

/// The tasks of all clients of a new board, each done on a thread of its own.
fn done_on_a_new_board<J: BoardBrand + Send + Sync, R: Threads + Wait + Abort + Sync>(
    rt: &R,
    alloc: Global,
    name: BoardName,
    setup: Setup,
    rows: &[Row],
    tasks: Vec<Inserts>,
) -> Result<Vec<Inserts>, ShareFault>
    requires book { name.seen.book ≡ J.book }
    requires opening { J.opening ≡ record { limits = setup; rows = rows.now } }
{
    let (board, clients) = open_board::<J, R>(rt, alloc, name, setup, rows)?;
    if tasks.len() != clients.len() {
        panic!(rt; "there is a task for each");
    }
    let done = run_tasks(rt, alloc, &board, clients, tasks, &Open);
    board.close(rt);
    done
}

/// Tasks that insert these rows, for two clients.
fn two_tasks(alloc: Global, values: &[i64]) -> Result<Vec<Inserts>, Fail> {
    let mut tasks = Vec::new(alloc);
    for _ in 0..2u8 {
        tasks.push(Inserts {
            rows: rows_of(alloc, values)?.into_iter(),
            ids: Vec::new(alloc),
        })?;
    }
    Ok(tasks)
}

/// The ids that tasks kept, in rising order.
fn all_ids(alloc: Global, tasks: &[Inserts]) -> Result<Vec<u64>, Fail> {
    let mut all = Vec::new(alloc);
    for task in tasks {
        all.extend_from_slice(&task.ids)?;
    }
    all.sort()?;
    Ok(all)
}

/// Six rows come to a table that has room for three: each task has a reply to each of its acts, and each row that is inserted is one
/// task's.
#[test]
fn tasks_take_each_reply(rt: HostRuntime) -> Result<(), Fail> {
    let alloc = rt.alloc();
    let opening = [row_of(alloc, 4)?];
    let tasks = two_tasks(alloc, &[5, 6, 7])?;
    let setup = setup_of(2, 4, 4, 64)?;
    let name = BoardName::new();
    let done = done_on_a_new_board::<Brand, _>(&rt, alloc, name, setup, &opening, tasks)?;
    let ids = all_ids(alloc, &done)?;
    let wanted = [0, 0, 0, 2, 3, 4].as_slice();
    assert_same(&rt, "ids", &ids.as_slice(), &wanted);
    Ok(())
}

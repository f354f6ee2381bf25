//! Clients that stopped or did all their acts, and went on in another run of the same board.

ghost use Rattle.std.specs.Prelude.{◌≡◌};

use crate::acts::{lists_of, push_replies};
use crate::boards::Open;
use crate::same::assert_same;
use pref_core::Setup;
use pref_share::{Board, BoardBrand, BoardName, Client, Gate, Report, open_board, run_each};
use pref_table::Row;
use std::alloc::Global;
use std::marker::Brand;
use std::process::Abort;
use std::sync::Wait;
use std::test::Fail;
use std::thread::Threads;
use test_runs::{Does, row_of, setup_of};

/// Holds one client at one turn.
#[derive(Drop)]
struct HoldsAt {
    held: u8,
    at: usize,
}

impl Gate for HoldsAt {
    ghost use Rattle.std.specs.Prelude.{◌≡◌, false};

    ghost says = { λ gate client turn answer. answer ≡ false → (client ≡ gate.held) × (turn ≡ gate.at) };

    fn before(&self, client: u8, turn: usize) -> bool {
        client != self.held || turn != self.at
    }

    fn after(&self, _client: u8, _turn: usize) {}
}

/// Adds the replies of each report to a text, and why its client stopped.
fn push_reports<J: BoardBrand>(
    alloc: Global,
    text: &mut String,
    reports: &[Report<J>],
) -> Result<(), Fail> {
    for report in reports {
        push_replies(alloc, text, &report.replies)?;
        if let Some(fault) = report.stopped {
            text.push_str(format!(in alloc; "{fault}\n")?.as_str())?;
        }
    }
    Ok(())
}

fn clients_of<J: BoardBrand>(
    alloc: Global,
    reports: Vec<Report<J>>,
) -> Result<Vec<Client<J>>, Fail> {
    let mut clients = Vec::new(alloc);
    for report in reports {
        clients.push(report.client)?;
    }
    Ok(clients)
}

/// Runs acts of clients, adds what is reported to a text, and gives the clients.
fn run<J: BoardBrand + Send + Sync, R: Threads + Wait + Abort + Sync, G: Gate + Sync>(
    rt: &R,
    alloc: Global,
    board: &Board<J>,
    clients: Vec<Client<J>>,
    runs: &[&[Does]],
    gate: &G,
    text: &mut String,
) -> Result<Vec<Client<J>>, Fail> {
    let acts = lists_of(alloc, runs)?;
    if acts.len() != clients.len() {
        panic!(rt; "there is a list for each");
    }
    let reports = run_each(rt, alloc, board, clients, acts, gate)?;
    push_reports(alloc, text, &reports)?;
    clients_of(alloc, reports)
}

/// The reports of a run, and of a second one of its clients, which no gate holds.
fn run_twice<J: BoardBrand + Send + Sync, R: Threads + Wait + Abort + Sync, G: Gate + Sync>(
    rt: &R,
    alloc: Global,
    board: &Board<J>,
    clients: Vec<Client<J>>,
    first: &[&[Does]],
    second: &[&[Does]],
    gate: &G,
) -> Result<String, Fail> {
    let mut text = String::new(alloc);
    let clients = run(rt, alloc, board, clients, first, gate, &mut text)?;
    run(rt, alloc, board, clients, second, &Open, &mut text)?;
    Ok(text)
}

/// The reports of two runs of the clients of a new board.
fn two_runs<J: BoardBrand + Send + Sync, R: Threads + Wait + Abort + Sync, G: Gate + Sync>(
    rt: &R,
    alloc: Global,
    name: BoardName,
    setup: Setup,
    rows: &[Row],
    first: &[&[Does]],
    second: &[&[Does]],
    gate: &G,
) -> Result<String, Fail>
    requires book { name.seen.book ≡ J.book }
    requires opening { J.opening ≡ record { limits = setup; rows = rows.now } }
{
    let (board, clients) = open_board::<J, R>(rt, alloc, name, setup, rows)?;
    let text = run_twice(rt, alloc, &board, clients, first, second, gate);
    board.close(rt);
    text
}

/// Asserts what is reported of two runs of the two clients of a new board, whose table has one row.
fn check_two_runs<G: Gate + Sync>(
    rt: &(impl Threads + Wait + Abort + AllocGlobal + Sync),
    case: &str,
    first: &[&[Does]],
    second: &[&[Does]],
    gate: &G,
    wanted: &str,
) -> Result<(), Fail> {
    let alloc = rt.alloc();
    let opening = [row_of(alloc, 3)?];
    let setup = setup_of(2, 4, 4, 64)?;
    let text = two_runs::<Brand, _, _>(
        rt,
        alloc,
        BoardName::new(),
        setup,
        &opening,
        first,
        second,
        gate,
    )?;
    assert_same(rt, case, &text.as_str(), &wanted);
    Ok(())
}

#[test]
fn held_clients_come_back(rt: HostRuntime) -> Result<(), Fail> {
    check_two_runs(
        &rt,
        "client 2 is held",
        &[&[Does::Updates(1, 5)], &[Does::AsksRoom, Does::Gets(1)]],
        &[&[], &[Does::Gets(1), Does::Deletes(1)]],
        &HoldsAt { held: 2, at: 1 },
        "updated 1\nroom 3\nheld client 2\nrow 1: 5\ndeleted 1\n",
    )
}

#[test]
fn a_query_goes_on_in_another_run(rt: HostRuntime) -> Result<(), Fail> {
    check_two_runs(
        &rt,
        "client 1 asks",
        &[&[Does::Begins, Does::Scans], &[Does::Gets(2)]],
        &[&[Does::Finishes], &[Does::Updates(1, 5)]],
        &Open,
        "begun 1\nleft 0\nrefused 7: no such row 2\nanswer 1\nlevel 1 id 1: 3\nupdated 1\n",
    )
}

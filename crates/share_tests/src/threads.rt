//! Clients of one board at once, each on a thread of its own.

ghost use Rattle.std.specs.Prelude.{◌≡◌};

use crate::acts::{acts_of, lists_of, lists_text};
use crate::boards::replies_of_a_run;
use crate::same::assert_same;
use pref_core::{Act, Setup};
use pref_share::{BoardBrand, BoardName, Gate};
use pref_table::Row;
use std::alloc::Global;
use std::marker::Brand;
use std::process::Abort;
use std::sync::Wait;
use std::sync::atomic::{AtomicU64, Ordering};
use std::test::Fail;
use std::thread;
use std::thread::Threads;
use test_runs::{Does, act_of, row_of, rows_of, setup_of};

/// Whether this many acts are answered, after some waiting.
fn is_reached(answered: &AtomicU64, wanted: u64) -> bool {
    for _ in 0..100_000_000 {
        if answered.load(Ordering::SeqCst) >= wanted {
            return true;
        }
        thread::yield_now();
    }
    false
}

/// Holds one client's act until another's is answered.
#[derive(Drop)]
struct Holds {
    held: u8,
    until: u8,
    answered: AtomicU64,
}

impl Gate for Holds {
    ghost use Rattle.std.specs.Prelude.{◌≡◌, false};

    ghost says = { λ gate client turn answer. answer ≡ false → client ≡ gate.held };

    fn before(&self, client: u8, _turn: usize) -> bool {
        client != self.held || is_reached(&self.answered, 1)
    }

    fn after(&self, client: u8, _turn: usize) {
        if client == self.until {
            self.answered.store(1, Ordering::SeqCst);
        }
    }
}

fn held_until(held: u8, until: u8) -> Holds {
    Holds {
        held,
        until,
        answered: AtomicU64::new(0),
    }
}

/// Holds up client 3 at its turn 2, and client 5 at its turn 0.
struct HoldsTwo;

impl Gate for HoldsTwo {
    ghost use Rattle.std.specs.Prelude.{◌≡◌, ◌⊎◌, false};

    ghost says = { λ gate client turn answer. answer ≡ false → (client ≡ 3) × (turn ≡ 2) ⊎ (client ≡ 5) × (turn ≡ 0) };

    fn before(&self, client: u8, turn: usize) -> bool {
        !(client == 3 && turn == 2 || client == 5 && turn == 0)
    }

    fn after(&self, _client: u8, _turn: usize) {}
}

/// Holds the first acts of the others until client 1's is answered, and each of its four scans until another quarter of their
/// updates is.
#[derive(Drop)]
struct HoldsScans {
    begun: AtomicU64,
    updated: AtomicU64,
}

impl Gate for HoldsScans {
    ghost use Rattle.std.specs.Prelude.{◌≡◌, ◌⊎◌, false};

    ghost says = { λ gate client turn answer. answer ≡ false → (client ≡ 1) ⊎ (turn ≡ 0) };

    fn before(&self, client: u8, turn: usize) -> bool {
        if client != 1 {
            return turn > 0 || is_reached(&self.begun, 1);
        }
        match turn {
            1 => is_reached(&self.updated, 280),
            2 => is_reached(&self.updated, 560),
            3 => is_reached(&self.updated, 840),
            4 => is_reached(&self.updated, 1120),
            _ => true,
        }
    }

    fn after(&self, client: u8, _turn: usize) {
        let answered = if client == 1 {
            &self.begun
        } else {
            &self.updated
        };
        answered.fetch_add(1, Ordering::SeqCst);
    }
}

/// The replies to all clients of a new board, or what stopped them.
fn run<J: BoardBrand + Send + Sync, R: Threads + Wait + Abort + Sync, G: Gate + Sync>(
    rt: &R,
    alloc: Global,
    name: BoardName,
    setup: Setup,
    rows: &[Row],
    acts: Vec<Vec<Act>>,
    gate: &G,
) -> Result<String, Fail>
    requires book { name.seen.book ≡ J.book }
    requires opening { J.opening ≡ record { limits = setup; rows = rows.now } }
{
    match replies_of_a_run::<J, R, G>(rt, alloc, name, setup, rows, acts, gate) {
        Ok(lists) => lists_text(alloc, &lists),
        Err(fault) => Ok(format!(in alloc; "{fault}")?),
    }
}

/// Updates of one row to -1, -2, .., -160.
fn updates_of(alloc: Global, id: u64) -> Result<Vec<Act>, Fail> {
    let mut acts = Vec::new(alloc);
    for value in 1..161u8 {
        acts.push(act_of(alloc, Does::Updates(id, -i64::from(value)))?)?;
    }
    Ok(acts)
}

/// A query by client 1, while each of the other seven updates a row.
fn a_query_among_updates(alloc: Global) -> Result<Vec<Vec<Act>>, Fail> {
    let query = [
        Does::Begins,
        Does::Scans,
        Does::Scans,
        Does::Scans,
        Does::Scans,
        Does::Finishes,
        Does::AsksRoom,
        Does::Gets(7),
    ];
    let mut lists = Vec::new(alloc);
    lists.push(acts_of(alloc, &query)?)?;
    for id in 1..8 {
        lists.push(updates_of(alloc, id)?)?;
    }
    Ok(lists)
}

/// Adds to a text 160 times that this row is updated.
fn push_updates(alloc: Global, text: &mut String, id: u64) -> Result<(), Fail> {
    for _ in 0..160 {
        text.push_str(format!(in alloc; "updated {id}\n")?.as_str())?;
    }
    Ok(())
}

/// The replies to the clients of a query among updates.
fn answer_and_updates(alloc: Global) -> Result<String, Fail> {
    let mut text = format!(in alloc;
        "begun 4\nleft 3\nleft 2\nleft 1\nleft 0\nanswer 1\nlevel 1 id 1: 1\nroom 9\nrow 7: -160\n"
    )?;
    for id in 1..8 {
        push_updates(alloc, &mut text, id)?;
    }
    Ok(text)
}

/// Asserts the replies to all clients of a new board, whose table has these opening rows.
fn check_run<G: Gate + Sync>(
    rt: &(impl Threads + Wait + Abort + AllocGlobal + Sync),
    case: &str,
    rows: &[Row],
    setup: Setup,
    acts: Vec<Vec<Act>>,
    gate: &G,
    wanted: &str,
) -> Result<(), Fail> {
    let alloc = rt.alloc();
    let text = run::<Brand, _, _>(rt, alloc, BoardName::new(), setup, rows, acts, gate)?;
    assert_same(rt, case, &text.as_str(), &wanted);
    Ok(())
}

#[test]
fn two_clients_at_once(rt: HostRuntime) -> Result<(), Fail> {
    let alloc = rt.alloc();
    let opening = [row_of(alloc, 3)?];
    let setup = setup_of(2, 4, 4, 64)?;
    for (case, held, until) in [("1 waits for 2", 1, 2), ("2 waits for 1", 2, 1)] {
        let acts = lists_of(alloc, &[[Does::Gets(1)].as_slice(); 2])?;
        let gate = held_until(held, until);
        let wanted = "row 1: 3\nrow 1: 3\n";
        check_run(&rt, case, &opening, setup, acts, &gate, wanted)?;
    }
    Ok(())
}

#[test]
fn held_least(rt: HostRuntime) -> Result<(), Fail> {
    let setup = setup_of(8, 4, 4, 64)?;
    let acts = lists_of(rt.alloc(), &[[Does::AsksRoom; 3].as_slice(); 8])?;
    let wanted = "held client 3";
    check_run(&rt, "two are held", &[], setup, acts, &HoldsTwo, wanted)
}

#[test]
fn held_open(rt: HostRuntime) -> Result<(), Fail> {
    let alloc = rt.alloc();
    let setup = setup_of(8, 16, 4, 64)?;
    let opening = rows_of(alloc, &[1, 2, 3, 4, 5, 6, 7])?;
    let wanted = answer_and_updates(alloc)?;
    let acts = a_query_among_updates(alloc)?;
    let gate = HoldsScans {
        begun: AtomicU64::new(0),
        updated: AtomicU64::new(0),
    };
    let case = "scans are held";
    check_run(&rt, case, &opening, setup, acts, &gate, wanted.as_str())
}

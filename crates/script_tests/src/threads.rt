//! Scripts whose clients run on threads.
ghost use Rattle.std.specs.Prelude.{◌≡◌, false};

use crate::runs::{Full, Narrow, Run, defaults, ended, in_steps, roomy};
use crate::same::assert_same;
use pref_core::Setup;
use pref_script::{OpenGate, RunFault, Watched, run_script_on_threads, run_threads};
use pref_share::{Gate, ShareFault};
use pref_table::TableFault;
use std::process::Abort;
use std::sync::Wait;
use std::sync::atomic::{AtomicU64, Ordering};
use std::test::Fail;
use std::thread;
use std::thread::Threads;

/// How often a gate looks whether the other client was answered.
const MOST_TURNS: u64 = 100_000_000;

/// Holds the calls of one client until one of another client is answered, or for this many turns.
#[derive(Drop)]
struct HoldsUntil {
    held: u8,
    until: u8,
    answered: AtomicU64,
}

impl Gate for HoldsUntil {
    ghost says = { λ gate client turn answer. answer ≡ false → client ≡ gate.held };

    fn before(&self, client: u8, _turn: usize) -> bool {
        if client != self.held {
            return true;
        }
        for _ in 0..MOST_TURNS {
            if self.answered.load(Ordering::SeqCst) > 0 {
                return true;
            }
            thread::yield_now();
        }
        false
    }

    fn after(&self, client: u8, _turn: usize) {
        if client == self.until {
            self.answered.store(1, Ordering::SeqCst);
        }
    }
}

/// Lets every act pass but one turn of one client.
#[derive(Drop)]
struct StopsAt {
    client: u8,
    turn: usize,
}

impl Gate for StopsAt {
    ghost says = { λ gate client turn answer. answer ≡ false → (client ≡ gate.client) × (turn ≡ gate.turn) };

    fn before(&self, client: u8, turn: usize) -> bool {
        client != self.client || turn != self.turn
    }

    fn after(&self, _client: u8, _turn: usize) {}
}

/// What a run has returned, or its fault.
fn returned(output: &Result<String, RunFault>) -> Result<&str, RunFault> {
    match output {
        Ok(text) => Ok(text.as_str()),
        Err(fault) => Err(*fault),
    }
}

/// A run on threads of a text through a writer.
fn run_into<T: Threads + Wait + Sync + AllocGlobal>(
    rt: &T,
    setup: Setup,
    text: &[u8],
    writer: Narrow,
) -> Run {
    let mut reader = Watched::new(in_steps(text, 8192));
    let mut writer = Watched::new(writer);
    let result = run_script_on_threads(rt, rt.alloc(), &mut reader, &mut writer, setup);
    ended(result, reader, writer)
}

/// The lines of an output begin with these texts.
fn check_beginnings(rt: &impl Abort, output: Result<&str, RunFault>, beginnings: &[&str]) {
    let text = output.expect(rt, "it runs");
    assert_same(rt, text, &text.lines().count(), &beginnings.len());
    for (line, beginning) in text.lines().zip(beginnings) {
        assert_same(rt, line, &line.starts_with(*beginning), &true);
    }
}

#[test]
fn eight_clients_take_turns_as_they_come(rt: HostRuntime) -> Result<(), Fail> {
    let setup = Setup::new(8, 1024, 1024, 64).ok_or("no setup")?;
    let script =
        b"table\nprice\nend\nas 1 insert 30\nas 1 insert 10\nas 2 insert 20\nas 1 begin best low(price)\nas 2 insert 5\nas 1 scan\nas 1 finish\n";
    let beginnings = [
        "1 inserted ",
        "1 inserted ",
        "1 begun 1",
        "1 left 0",
        "1 answer 1",
        "level 1 id ",
        "2 inserted ",
        "2 inserted ",
    ];
    let output = run_threads(&rt, rt.alloc(), script, setup, &OpenGate);
    check_beginnings(&rt, returned(&output), &beginnings);
    Ok(())
}

#[test]
fn two_clients_run_at_once(rt: HostRuntime) -> Result<(), Fail> {
    let setup = defaults()?;
    let script = b"table\nx\n3\nend\nas 1 get 1\nas 2 get 1\n";
    for (held, until) in [(1, 2), (2, 1)] {
        let gate = HoldsUntil {
            held,
            until,
            answered: AtomicU64::new(0),
        };
        let output = run_threads(&rt, rt.alloc(), script, setup, &gate);
        let wanted = Ok("1 row 1: 3\n2 row 1: 3\n");
        assert_same(&rt, held, &returned(&output), &wanted);
    }
    Ok(())
}

#[test]
fn a_gate_that_answers_false_stops_the_run(rt: HostRuntime) -> Result<(), Fail> {
    let setup = defaults()?;
    let script = b"table\nx\n3\nend\nas 1 get 1\nas 2 get 1\nas 2 room\n";
    let cases = [
        (1, Err(RunFault::Threads(ShareFault::Held { client: 2 }))),
        (2, Ok("1 row 1: 3\n2 row 1: 3\n2 room 1023\n")),
    ];
    for (turn, wanted) in cases {
        let gate = StopsAt { client: 2, turn };
        let output = run_threads(&rt, rt.alloc(), script, setup, &gate);
        assert_same(&rt, turn, &returned(&output), &wanted);
    }
    Ok(())
}

#[test]
fn a_run_on_threads_writes_the_replies_or_the_line_of_a_fault(rt: HostRuntime) -> Result<(), Fail> {
    let setup = defaults()?;
    let cases: [(&[u8], Result<(), RunFault>, &[u8]); 4] = [
        (
            b"table\nx\n3\nend\nas 2 get 1\nas 1 jump\nas 1 room",
            Ok(()),
            b"line 6 refused: command\n1 room 1023\n2 row 1: 3\n",
        ),
        (
            b"table\nx\n3\nend\nas 2 get 1\n\nas 9 room\nas 1 room",
            Ok(()),
            b"9 refused 1: no such client\n1 room 1023\n2 row 1: 3\n",
        ),
        (
            b"table\nx\n3\n",
            Err(RunFault::NoEnd),
            b"script refused: no end\n",
        ),
        (
            b"table\nx\n1.5\nend\n",
            Err(RunFault::Table(TableFault::NotWhole { row: 1, col: 1 })),
            b"table refused 6: not whole row 1 col 1\n",
        ),
    ];
    for (script, result, returned) in cases {
        let run = run_into(&rt, setup, script, roomy(rt.alloc(), 5));
        assert_same(&rt, script, &run.seen(), &(result, returned, false, false));
    }
    Ok(())
}

#[test]
fn a_writer_that_fails_on_threads_holds_a_beginning(rt: HostRuntime) -> Result<(), Fail> {
    let setup = defaults()?;
    let cases: [(&[u8], &[u8]); 2] = [
        (b"tables", b"script"),
        (b"table\nx\n3\nend\nas 2 get 1\n", b"2 row "),
    ];
    for (script, beginning) in cases {
        let writer = Narrow {
            taken: Vec::new(rt.alloc()),
            step: 8192,
            room: 6,
            full: Full::Fails,
        };
        let run = run_into(&rt, setup, script, writer);
        let wanted = (Err(RunFault::Write), beginning, false, true);
        assert_same(&rt, script, &run.seen(), &wanted);
    }
    Ok(())
}

//! Requests for memory that are refused. `tests/refuse_each_allocation.sh` runs these tests once for each of their requests,
//! and refuses it; where none is refused they show that the run succeeds.
use crate::runs::{Full, Narrow, Run, in_steps, live_through, run_through, setup_of};
use crate::same::assert_same;
use pref_core::Setup;
use pref_script::{OpenGate, RunFault, run_threads};
use std::alloc::Global;
use std::process::Abort;
use std::test::Fail;

/// A row is inserted; then one is deleted, and its slot is wanted while a query needs it.
const SCRIPT: &[u8] =
    b"table\nx\n5\n7\nend\nas 2 insert 9\nas 1 begin best low(x)\nas 1 scan\nas 2 commit delete 1; insert 1\nas 2 room\nas 1 scan\nas 1 finish\n";

const TOLD: &[u8] =
    b"2 inserted 3\n1 begun 2\n1 left 1\n2 committed 2 first 4\n2 room 0\n1 left 0\n1 answer 1\nlevel 1 id 1: 5\n";

/// A writer that asks for no memory while there is room in what it writes to.
fn into(taken: Vec<u8>) -> Narrow {
    Narrow {
        taken,
        step: 8192,
        room: usize::MAX,
        full: Full::Fails,
    }
}

/// A run whose writer asks for no memory.
fn run_into(alloc: Global, setup: Setup, taken: Vec<u8>) -> Run {
    run_through(alloc, in_steps(SCRIPT, 8192), into(taken), setup)
}

/// Asserts that a refused run has written nothing.
fn check_refused(rt: &impl Abort, refused: &Run) {
    let wanted = (Err(RunFault::Memory), b"".as_slice(), false, false);
    assert_same(rt, "refused", &refused.seen(), &wanted);
}

/// Asserts that a run has written all.
fn check_whole(rt: &impl Abort, run: &Run) {
    let wanted = (Ok(()), TOLD, false, false);
    assert_same(rt, "made again", &run.seen(), &wanted);
}

#[test]
fn a_refused_run_has_written_nothing_and_is_made_again(rt: HostRuntime) -> Result<(), Fail> {
    let alloc = rt.alloc();
    let setup = setup_of(4, 2)?;
    let room = Vec::with_capacity(alloc, 1024)?;
    let mut run = run_into(alloc, setup, room);
    if run.result.is_err() {
        check_refused(&rt, &run);
        run = run_into(alloc, setup, run.output);
    }
    check_whole(&rt, &run);
    Ok(())
}

/// Asserts that a refused run has written whole lines, and what is written where none is refused begins with them.
fn check_beginning(rt: &impl Abort, refused: &Run) {
    let lines = refused.output.as_slice();
    let is_whole = lines.is_empty() || lines.ends_with(b"\n");
    let found = (refused.result, is_whole && TOLD.starts_with(lines));
    assert_same(rt, lines, &found, &(Err(RunFault::Memory), true));
}

#[test]
fn a_refused_live_run_has_printed_whole_lines_and_is_made_again(
    rt: HostRuntime,
) -> Result<(), Fail> {
    let alloc = rt.alloc();
    let setup = setup_of(4, 2)?;
    let writer = into(Vec::with_capacity(alloc, 1024)?);
    let again = Vec::with_capacity(alloc, 1024)?;
    let mut run = live_through(alloc, in_steps(SCRIPT, 8192), writer, setup);
    if run.result.is_err() {
        check_beginning(&rt, &run);
        run = run_into(alloc, setup, again);
    }
    check_whole(&rt, &run);
    Ok(())
}

/// One client alone, so that its requests come in the same order in each run.
const SCRIPT_OF_ONE: &[u8] =
    b"table\nx\n5\nend\nas 1 commit insert 3\nas 7 room\nas 1 begin best low(x)\nas 1 scan\nas 1 scan\nas 1 finish\n";

const REPLIES_TO_ONE: &str =
    "7 refused 1: no such client\n1 committed 1 first 2\n1 begun 2\n1 left 1\n1 left 0\n1 answer 1\nlevel 1 id 2: 3\n";

#[test]
fn a_refused_run_on_threads_is_made_again(rt: HostRuntime) -> Result<(), Fail> {
    let setup = Setup::new(1, 4, 2, 64).ok_or("no setup")?;
    let output = match run_threads(&rt, rt.alloc(), SCRIPT_OF_ONE, setup, &OpenGate) {
        Ok(output) => output,
        Err(fault) => {
            assert_same(&rt, "refused", &fault, &RunFault::Memory);
            run_threads(&rt, rt.alloc(), SCRIPT_OF_ONE, setup, &OpenGate).expect(&rt, "memory")
        }
    };
    assert_same(&rt, "made again", &output.as_str(), &REPLIES_TO_ONE);
    Ok(())
}

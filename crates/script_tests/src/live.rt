//! Runs that reply to each line as it comes. What a terminal and pipes show is in tests/live.py, at the top of the repository.
use crate::runs::{Full, Narrow, Seen, Trickle, defaults, in_steps, live_through, roomy};
use crate::same::assert_same;
use pref_core::Setup;
use pref_script::{RunFault, Watched, run_live};
use std::alloc::Global;
use std::io;
use std::io::{ErrorKind, Write};
use std::test::Fail;

const SCRIPT: &[u8] =
    b"table\nx\n5\nend\nas 1 insert 3\n\nas 7 room\nas\nas 1 begin best low(x)\nas 1 scan\nas 1 finish";

const TOLD: &[u8] =
    b"1 inserted 2\n7 refused 1: no such client\nline 8 refused: command\n1 begun 1\n1 left 0\n1 answer 1\nlevel 1 id 2: 3\n";

/// A writer that hands on what it takes only where it is flushed, and takes nothing behind a line that was not.
#[derive(Drop)]
struct Holding {
    held: Vec<u8>,
    handed_on: Vec<u8>,
}

impl Write for Holding {
    fn write(&mut self, buf: &[u8]) -> io::Result<usize> {
        if self.held.last() == Some(&b'\n') {
            return Err(io::Error::from(ErrorKind::Other));
        }
        self.held.extend_from_slice(buf)?;
        Ok(buf.len())
    }

    fn flush(&mut self) -> io::Result<()> {
        self.handed_on.extend_from_slice(self.held.as_slice())?;
        self.held.clear();
        Ok(())
    }
}

/// How a run ends.
type RunResult = Result<(), RunFault>;

/// How a run of a text ends, and what its writer has handed on.
fn handed_on(alloc: Global, setup: Setup, text: &[u8], step: usize) -> (RunResult, Vec<u8>) {
    let mut reader = Watched::new(in_steps(text, step));
    let mut writer = Watched::new(Holding {
        held: Vec::new(alloc),
        handed_on: Vec::new(alloc),
    });
    let end = run_live(alloc, &mut reader, &mut writer, setup);
    (end, writer.into_inner().handed_on)
}

#[test]
fn each_line_is_flushed_before_the_next_is_read(rt: HostRuntime) -> Result<(), Fail> {
    let setup = defaults()?;
    for step in [1, 7, 8192] {
        let (end, lines) = handed_on(rt.alloc(), setup, SCRIPT, step);
        assert_same(&rt, step, &(end, lines.as_slice()), &(Ok(()), TOLD));
    }
    Ok(())
}

#[test]
fn a_refused_table_is_printed_and_flushed(rt: HostRuntime) -> Result<(), Fail> {
    let setup = defaults()?;
    let script = b"table\n1x\nend\nas 1 room\n".as_slice();
    let (end, lines) = handed_on(rt.alloc(), setup, script, 8192);
    let found = (end.map_err(|fault| fault.status()), lines.as_slice());
    let wanted = (Err(2), b"table refused 3: bad name col 1\n".as_slice());
    assert_same(&rt, "a name", &found, &wanted);
    Ok(())
}

#[test]
fn a_reader_that_fails_leaves_the_lines_before(rt: HostRuntime) -> Result<(), Fail> {
    let alloc = rt.alloc();
    let setup = defaults()?;
    let cases: [(usize, usize); 6] = [(0, 0), (15, 0), (27, 0), (28, 13), (40, 41), (46, 65)];
    for (fails_after, returned) in cases {
        let reader = Trickle {
            text: SCRIPT,
            step: 3,
            fails_after,
            given: 0,
        };
        let run = live_through(alloc, reader, roomy(alloc, 8192), setup);
        let wanted: Seen<'_> = (Err(RunFault::Read), &TOLD[..returned], true, false);
        assert_same(&rt, fails_after, &run.seen(), &wanted);
    }
    Ok(())
}

#[test]
fn a_writer_that_fails_has_a_beginning(rt: HostRuntime) -> Result<(), Fail> {
    let alloc = rt.alloc();
    let setup = defaults()?;
    for full in [Full::Fails, Full::TakesNone] {
        let writer = Narrow {
            taken: Vec::new(alloc),
            step: 5,
            room: 20,
            full,
        };
        let run = live_through(alloc, in_steps(SCRIPT, 8192), writer, setup);
        let wanted: Seen<'_> = (Err(RunFault::Write), &TOLD[..20], false, true);
        assert_same(&rt, full, &run.seen(), &wanted);
    }
    Ok(())
}

/// A script of 2,000 lines behind its table.
fn many_lines(alloc: Global) -> Result<Vec<u8>, Fail> {
    let mut script = Vec::new(alloc);
    script.extend_from_slice(b"table\nx\nend\n")?;
    for _line in 0..2000 {
        script.extend_from_slice(b"as 1 room\n")?;
    }
    Ok(script)
}

/// How a run of a text ends whose writer takes nothing, and how many bytes it has read.
fn read_before_a_failure(alloc: Global, setup: Setup, text: &[u8]) -> (RunResult, usize) {
    let mut reader = Watched::new(in_steps(text, 65_536));
    let mut writer = Watched::new(Narrow {
        taken: Vec::new(alloc),
        step: 8192,
        room: 0,
        full: Full::Fails,
    });
    let end = run_live(alloc, &mut reader, &mut writer, setup);
    (end, reader.into_inner().given)
}

#[test]
fn no_line_is_read_far_ahead_of_the_replies(rt: HostRuntime) -> Result<(), Fail> {
    let setup = defaults()?;
    let script = many_lines(rt.alloc())?;
    let found = read_before_a_failure(rt.alloc(), setup, &script);
    assert_same(&rt, "2000 lines", &found, &(Err(RunFault::Write), 8192));
    Ok(())
}

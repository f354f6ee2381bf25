//! Runs of texts, through readers and writers that move few bytes or fail.
use pref_core::Setup;
use pref_script::{RunFault, Watched, run_live, run_script};
use std::alloc::Global;
use std::io;
use std::io::{ErrorKind, Read, Write};
use std::test::Fail;

/// A reader of a text that gives a few bytes at a time and fails after some.
#[derive(Drop)]
pub(crate) struct Trickle<'a> {
    pub(crate) text: &'a [u8],
    pub(crate) step: usize,
    pub(crate) fails_after: usize,
    pub(crate) given: usize,
}

impl Read for Trickle<'_> {
    fn read(&mut self, buf: &mut [u8]) -> io::Result<usize> {
        if self.given >= self.fails_after {
            return Err(io::Error::from(ErrorKind::Other));
        }
        let part = self
            .step
            .min(buf.len())
            .min(self.text.len())
            .min(self.fails_after - self.given);
        let (front, rest) = self.text.split_at(part);
        buf[..part].copy_from_slice(front);
        self.text = rest;
        self.given = self.given.saturating_add(part);
        Ok(part)
    }
}

/// How a writer answers when it has no room left.
#[derive(Clone, Copy, Debug)]
pub(crate) enum Full {
    Fails,
    TakesNone,
}

/// A writer that takes a few bytes at a time, as long as it has room.
#[derive(Drop)]
pub(crate) struct Narrow {
    pub(crate) taken: Vec<u8>,
    pub(crate) step: usize,
    pub(crate) room: usize,
    pub(crate) full: Full,
}

impl Write for Narrow {
    fn write(&mut self, buf: &[u8]) -> io::Result<usize> {
        if self.taken.len() >= self.room {
            return match self.full {
                Full::Fails => Err(io::Error::from(ErrorKind::Other)),
                Full::TakesNone => Ok(0),
            };
        }
        let part = self.step.min(buf.len()).min(self.room - self.taken.len());
        self.taken.extend_from_slice(&buf[..part])?;
        Ok(part)
    }

    fn flush(&mut self) -> io::Result<()> {
        Ok(())
    }
}

/// The result of a run, what was written, and whether the reader and the writer had failed by then.
#[derive(Drop)]
pub(crate) struct Run {
    pub(crate) result: Result<(), RunFault>,
    pub(crate) output: Vec<u8>,
    pub(crate) read_failed: bool,
    pub(crate) write_failed: bool,
}

/// The parts of a run, with its output lent.
pub(crate) type Seen<'a> = (Result<(), RunFault>, &'a [u8], bool, bool);

impl Run {
    pub(crate) fn seen(&self) -> Seen<'_> {
        (
            self.result,
            self.output.as_slice(),
            self.read_failed,
            self.write_failed,
        )
    }
}

/// A run with this end, and what its reader and its writer have seen.
pub(crate) fn ended(
    end: Result<(), RunFault>,
    reader: Watched<Trickle<'_>>,
    writer: Watched<Narrow>,
) -> Run {
    let read_failed = reader.failed();
    let write_failed = writer.failed();
    Run {
        result: end,
        output: writer.into_inner().taken,
        read_failed,
        write_failed,
    }
}

/// A run of a text through these two ends.
pub(crate) fn run_through(alloc: Global, reader: Trickle<'_>, writer: Narrow, setup: Setup) -> Run {
    let mut reader = Watched::new(reader);
    let mut writer = Watched::new(writer);
    let result = run_script(alloc, &mut reader, &mut writer, setup);
    ended(result, reader, writer)
}

/// A run of a text through these two ends, with its lines replied to as they come.
pub(crate) fn live_through(
    alloc: Global,
    reader: Trickle<'_>,
    writer: Narrow,
    setup: Setup,
) -> Run {
    let mut reader = Watched::new(reader);
    let mut writer = Watched::new(writer);
    let result = run_live(alloc, &mut reader, &mut writer, setup);
    ended(result, reader, writer)
}

/// A reader that gives this many bytes at a time and never fails.
pub(crate) fn in_steps(text: &[u8], step: usize) -> Trickle<'_> {
    Trickle {
        text,
        step,
        fails_after: usize::MAX,
        given: 0,
    }
}

/// A writer that takes this many bytes at a time and never fails.
pub(crate) fn roomy(alloc: Global, step: usize) -> Narrow {
    Narrow {
        taken: Vec::new(alloc),
        step,
        room: usize::MAX,
        full: Full::Fails,
    }
}

/// A run of a whole text with room for its output.
pub(crate) fn run_whole(alloc: Global, setup: Setup, text: &[u8]) -> Run {
    run_through(alloc, in_steps(text, 8192), roomy(alloc, 8192), setup)
}

/// The setup of these numbers, with 4 clients and a window of 64.
pub(crate) fn setup_of(capacity: u32, block: u32) -> Result<Setup, Fail> {
    Ok(Setup::new(4, capacity, block, 64).ok_or("no setup")?)
}

/// The setup where no options are given.
pub(crate) fn defaults() -> Result<Setup, Fail> {
    setup_of(1024, 1024)
}

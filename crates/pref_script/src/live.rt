//! A script whose lines are replied to as they come.
ghost use Rattle.std.specs.Prelude.{◌≡◌, ◌≤◌, ◌<◌, ◌+◌, ◌^◌, [], List, ℕ, Option, false};
ghost use Rattle.pref_core.specs.Limits.{Limits};
ghost use Rattle.pref_script.specs.HeardScript.{Hears, OpensLive, ReadsBlock};
ghost use Rattle.pref_script.specs.Live.{RanLive, Turns};
ghost use Rattle.pref_script.specs.LiveTable.{next_number};
ghost use Rattle.pref_script.specs.ReadAhead.{is_at_end, unread};
ghost use Rattle.pref_script.specs.Run.{sink_of, source_of};
ghost use Rattle.pref_script.specs.Watched.{has_failed, inside};

use crate::fault::RunFault;
use crate::live_table::LiveTable;
use crate::output::{write_output, write_result};
use crate::read_ahead::ReadAhead;
use crate::script::{cut_sections, is_end_line, is_table_line, line_text};
use crate::watched::Watched;
use pref_core::Setup;
use std::alloc::Global;
use std::io::{Read, Write};

/// The most lines that are heard after the table block.
const MAX_LINES: u64 = 1 << 63;

/// How a turn ends.
#[derive(Clone, Copy)]
pub enum Turn {
    /// A line was read, and its replies were written.
    Replied,
    /// There was no line.
    End,
}

/// Reads the table block of a script, which is the lines up to the first line `end`. Returns how many bytes it has.
///
/// Refused `NoTable` as soon as the first line is there, `NoEnd` where the input ends before a line `end`, and as
/// [`ReadAhead::read_line`] is.
fn read_block<R: Read>(
    alloc: Global,
    reader: &mut Watched<R>,
    ahead: &mut ReadAhead,
) -> Result<usize, RunFault>
    ensures { ReadsBlock (source_of R.remaining reader.old reader.new) ahead.old ahead.new result }
{
    let mut stop = ahead.read_line(alloc, reader, 0)?;
    if !is_table_line(&ahead.as_slice()[..stop]) {
        return Err(RunFault::NoTable);
    }
    loop {
        let end = ahead.read_line(alloc, reader, stop)?;
        if end == stop {
            return Err(RunFault::NoEnd);
        }
        if is_end_line(&ahead.as_slice()[stop..end]) {
            return Ok(end);
        }
        stop = end;
    }
}

/// Reads the table block and opens its table. Takes the block from what was read ahead.
fn open_live<R: Read>(
    alloc: Global,
    reader: &mut Watched<R>,
    ahead: &mut ReadAhead,
    setup: Setup,
) -> Result<LiveTable, RunFault>
    requires empty { unread ahead.old ≡ [] }
    requires fresh { is_at_end ahead.old ≡ false }
    ensures { OpensLive setup (source_of R.remaining reader.old reader.new) ahead.new result }
{
    let block = read_block(alloc, reader, ahead)?;
    let sections = cut_sections(&ahead.as_slice()[..block])?;
    let live = LiveTable::open(alloc, setup, sections.table, sections.first)?;
    ahead.take(block);
    Ok(live)
}

/// One turn: reads one line, plays it on the table, and writes its replies and flushes before it returns.
fn take_turn<R: Read, W: Write>(
    alloc: Global,
    reader: &mut Watched<R>,
    writer: &mut Watched<W>,
    ahead: &mut ReadAhead,
    live: &mut LiveTable,
) -> Result<Turn, RunFault>
    requires { next_number live.old + 1 < 2 ^ 64 }
    ensures { Turns (source_of R.remaining reader.old reader.new) (sink_of W.contents writer.old writer.new) ahead.old ahead.new live.old live.new result }
{
    let end = ahead.read_line(alloc, reader, 0)?;
    if end == 0 {
        return Ok(Turn::End);
    }
    let mut text = String::new(alloc);
    live.reply_to(alloc, line_text(&ahead.as_slice()[..end]), &mut text)?;
    ahead.take(end);
    write_output(writer, text.as_bytes())?;
    Ok(Turn::Replied)
}

/// Plays all lines that come.
fn reply_to_all<R: Read, W: Write>(
    alloc: Global,
    reader: &mut Watched<R>,
    writer: &mut Watched<W>,
    ahead: &mut ReadAhead,
    live: &mut LiveTable,
) -> Result<(), RunFault>
    requires { next_number live.old ≤ 16777219 }
    ensures { (limits : Limits) (had : Option (List ℕ)) → Hears limits had (R.remaining (inside reader.old)) ahead.old live.old []
        → RanLive limits (record { had = had; left = R.remaining (inside reader.new); failed = has_failed reader.new }) (sink_of W.contents writer.old writer.new) result }
{
    for _line in 0..MAX_LINES {
        match take_turn(alloc, reader, writer, ahead, live)? {
            Turn::Replied => {}
            Turn::End => return Ok(()),
        }
    }
    Err(RunFault::TooLarge)
}

/// Reads a script, runs it under a setup, and replies to each of its lines as it comes: a line's replies are written and flushed before
/// the next line is waited for. The input has no bound; the table block has 16,777,216 bytes at most, and so has each line after it
/// with its end. Behind the lines that were replied to, at most the beginning of one line and 8,192 bytes are read.
///
/// Refused `NoTable`, `NoEnd`, `Table` or `Opening` as soon as the table block shows it, whatever follows; its one line was written then.
/// Refused `TooLarge` where the table block or a line is longer, or there are 2^63 lines. After `Read`, `TooLarge` and `Memory` the replies to the
/// lines before were written, and after `Write` all replies to the lines before the last one, and a beginning of those to it.
///
/// ```rust
/// let mut reader = Watched::new(rt.stdin());
/// let mut writer = Watched::new(rt.stdout());
/// run_live(rt.alloc(), &mut reader, &mut writer, setup)?;
/// ```
pub fn run_live<R: Read, W: Write>(
    alloc: Global,
    reader: &mut Watched<R>,
    writer: &mut Watched<W>,
    setup: Setup,
) -> Result<(), RunFault>
    requires reads { has_failed reader.old ≡ false }
    requires writes { has_failed writer.old ≡ false }
    ensures { RanLive setup (source_of R.remaining reader.old reader.new) (sink_of W.contents writer.old writer.new) result }
{
    let mut ahead = ReadAhead::new(alloc);
    match open_live(alloc, reader, &mut ahead, setup) {
        Ok(mut live) => reply_to_all(alloc, reader, writer, &mut ahead, &mut live),
        Err(fault) => write_result(alloc, writer, Err(fault)),
    }
}

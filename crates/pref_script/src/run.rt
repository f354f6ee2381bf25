//! A script from its bytes to the bytes of its output.
ghost use Rattle.std.specs.Prelude.{◌≡◌, ◌≤◌, ◌<◌, ◌+◌, ◌^◌, ℕ, List, false, length, string_bytes, IfErr, IfOk};
ghost use Rattle.std.specs.Io.KnownBytes.{Consumes};
ghost use Rattle.pref_script.specs.Commands.{commands_of};
ghost use Rattle.pref_script.specs.LiveTable.{names_of, next_number, running_of};
ghost use Rattle.pref_script.specs.Output.{PrintsOutput, in_bytes};
ghost use Rattle.pref_script.specs.Playing.{PrintsAll};
ghost use Rattle.pref_script.specs.Run.{Ran, sink_of, source_of};
ghost use Rattle.pref_script.specs.Script.{raw_lines};
ghost use Rattle.pref_script.specs.Watched.{has_failed, inside};

use crate::fault::RunFault;
use crate::input::read_input;
use crate::live_table::LiveTable;
use crate::output::write_result;
use crate::script::{Sections, cut_line, cut_sections, line_text};
use crate::watched::Watched;
use pref_core::Setup;
use std::alloc::Global;
use std::io::{Read, Write};

/// The replies of a live table to some lines, in one pass over them. Refused `Memory` alone.
fn reply_to_lines(alloc: Global, live: &mut LiveTable, lines: &[u8]) -> Result<String, RunFault>
    requires { next_number live.old + length lines.now < 2 ^ 64 }
    ensures returned { IfOk result (λ text. PrintsAll (length (names_of live.old)) (running_of live.old) (commands_of (names_of live.old) (next_number live.old) (raw_lines lines.now)) (string_bytes text)) }
    ensures memory { IfErr result (λ fault. fault ≡ RunFault.Memory) }
{
    let mut text = String::new(alloc);
    let mut left = lines;
    while !left.is_empty() {
        let (raw, tail) = cut_line(left);
        live.reply_to(alloc, line_text(raw), &mut text)?;
        left = tail;
    }
    Ok(text)
}

/// The text of a script's replies, or the script's fault.
fn reply_text(alloc: Global, setup: Setup, bytes: &[u8]) -> Result<String, RunFault>
    ensures { PrintsOutput setup bytes.now (in_bytes result) }
{
    let Sections {
        table,
        commands,
        first,
    } = cut_sections(bytes)?;
    let mut live = LiveTable::open(alloc, setup, table, first)?;
    reply_to_lines(alloc, &mut live, commands)
}

/// Reads a script, runs it under a setup and writes its output. The whole output is made before its first byte is written.
///
/// After `Read`, `TooLarge` and `Memory` nothing was written, and after `Write` a beginning of the output. Each other
/// fault is the script's own, and its one line is the output. The faults are tested in the order `Read`, `TooLarge`,
/// `NoTable`, `NoEnd`, `Table`, `Opening`; `Memory` comes as soon as memory runs out.
///
/// ```rust
/// let mut reader = Watched::new(rt.stdin());
/// let mut writer = Watched::new(rt.stdout());
/// run_script(rt.alloc(), &mut reader, &mut writer, setup)?;
/// ```
pub fn run_script<R: Read, W: Write>(
    alloc: Global,
    reader: &mut Watched<R>,
    writer: &mut Watched<W>,
    setup: Setup,
) -> Result<(), RunFault>
    requires reads { has_failed reader.old ≡ false }
    requires writes { has_failed writer.old ≡ false }
    ensures most { (bytes : List ℕ) × Consumes (R.remaining (inside reader.old)) (R.remaining (inside reader.new)) bytes × (length bytes ≤ 16777217) }
    ensures ran { Ran (PrintsOutput setup) (source_of R.remaining reader.old reader.new) (sink_of W.contents writer.old writer.new) result }
{
    let input = read_input(alloc, reader)?;
    let returned = reply_text(alloc, setup, input.as_slice());
    write_result(alloc, writer, returned)
}

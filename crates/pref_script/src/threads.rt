//! A script whose clients run on threads, from its bytes to the bytes of its output.
ghost use Rattle.std.specs.Prelude.{◌≡◌, ◌<◌, ◌≤◌, ◌^◌, ◌⊎◌, ℕ, All, List, false, length, map, IfOk, IfErr};
ghost use Rattle.std.specs.Io.KnownBytes.{Consumes};
ghost use Rattle.pref_core.specs.declared.fault.CoreFault.TheVariants as core;
ghost use Rattle.pref_share.specs.Reports.{RanTasks};
ghost use Rattle.pref_script.specs.ClientParts.{HasReplied, acts_left};
ghost use Rattle.pref_script.specs.Output.{in_bytes};
ghost use Rattle.pref_script.specs.Run.{Ran, sink_of, source_of};
ghost use Rattle.pref_script.specs.Threads.{ClosesOrStops, HoldsNobody, PrintsOnThreads, always_open};
ghost use Rattle.pref_script.specs.Watched.{has_failed, inside};

use crate::fault::RunFault;
use crate::input::read_input;
use crate::output::write_result;
use crate::parts::{Part, client_parts, push_parts};
use crate::script::cut_sections;
use crate::unowned::unowned_text;
use crate::watched::Watched;
use pref_core::Setup;
use pref_share::{BoardBrand, BoardName, Gate, ShareFault, open_board, run_tasks};
use pref_table::{Row, read_table};
use std::alloc::Global;
use std::io::{Read, Write};
use std::marker::Brand;
use std::sync::Wait;
use std::thread::Threads;

/// A gate that is always open.
pub struct OpenGate;

impl Gate for OpenGate {
    ghost use Rattle.std.specs.Prelude.{◌≡◌, true};

    ghost says = { λ gate client turn answer. answer ≡ true };

    fn before(&self, _client: u8, _turn: usize) -> bool {
        true
    }

    fn after(&self, _client: u8, _turn: usize) {}
}

/// The clients' parts of a script once they are done, on threads of their own over one new board.
#[tactic(auto, using(crate::proofs::ExitLaws::exits))]
fn joint_parts<'script, J: BoardBrand + Send + Sync, R: Threads + Wait + Sync, G: Gate + Sync>(
    rt: &R,
    alloc: Global,
    name: BoardName,
    setup: Setup,
    rows: &[Row],
    parts: Vec<Part<'script>>,
    gate: &G,
) -> Result<Vec<Part<'script>>, ShareFault>
    requires book { name.seen.book ≡ J.book }
    requires opening { J.opening ≡ record { limits = setup; rows = rows.now } }
    requires lists { length parts.items ≡ setup.clients }
    requires few { All (λ part. length (acts_left part) < 2 ^ 63) parts.items }
    ensures ran { IfOk result (λ done. RanTasks (record { limits = setup; rows = rows.now }) HasReplied (map acts_left parts.entry.items) parts.entry.items done.items) }
    ensures room { IfOk result (λ _. setup.capacity < length rows.now → ⊥) }
    ensures stops { IfErr result (λ why. (setup.capacity < length rows.now) × (why ≡ ShareFault.Core (core.Full (length rows.now)))
        ⊎ (setup.capacity < length rows.now → ⊥) × ClosesOrStops (record { limits = setup; rows = rows.now }) (G.says gate.now) (map acts_left parts.entry.items) why) }
{
    let (board, clients) = open_board::<J, R>(rt, alloc, name, setup, rows)?;
    let done = run_tasks(rt, alloc, &board, clients, parts, gate);
    board.close(rt);
    done
}

/// Runs a script under a setup, each client's events on a thread of its own with the gate's calls round each, and gives the
/// output: first the lines that belong to no client, then the lines of each client, each in the order of the script.
///
/// The replies are those of one legal history, and of the sequential table for one interleaving of the clients' acts; which
/// one is not said. Refused `NoTable`, `NoEnd`, `Table`, `Opening`, in this order, and `Memory` as soon as memory runs out.
/// Refused `Threads` where clients were stopped, with the refusal of the first of them: by the gate (`Held`, which an
/// [`OpenGate`] never does), or by `Closed`, which no run of a script is known to meet.
///
/// ```rust
/// let output = run_threads(rt, alloc, script, setup, &OpenGate)?;
/// print!(rt; "{output}")?;     // 1 inserted 2
/// ```
pub fn run_threads<R: Threads + Wait + Sync, G: Gate + Sync>(
    rt: &R,
    alloc: Global,
    bytes: &[u8],
    setup: Setup,
    gate: &G,
) -> Result<String, RunFault>
    ensures { PrintsOnThreads setup (G.says gate.now) bytes.now (in_bytes result) }
{
    let sections = cut_sections(bytes)?;
    let (schema, rows) = read_table(alloc, sections.table)?;
    let (parts, all_given) = client_parts(alloc, &schema, setup.clients(), sections.commands)?;
    let done = joint_parts::<Brand, R, G>(
        rt,
        alloc,
        BoardName::new(),
        setup,
        rows.as_slice(),
        parts,
        gate,
    )?;
    let mut out = unowned_text(alloc, &schema, done.as_slice(), all_given, sections)?;
    push_parts(&mut out, done.as_slice())?;
    Ok(out)
}

/// Reads a script, runs it under a setup, each client's events on a thread of its own, and writes its output. The gate is open,
/// so no client is held. The whole output is made before its first byte is written.
///
/// After `Read`, `TooLarge`, `Memory` and `Threads` nothing was written, and after `Write` a beginning of the output. Each other
/// fault is the script's own, and its one line is the output. The faults come in the order of [`run_script`](crate::run::run_script),
/// and `Threads` where a client was stopped after that.
///
/// ```rust
/// let mut reader = Watched::new(script.as_slice());
/// let mut writer = Watched::new(Vec::new(alloc));
/// run_script_on_threads(rt, alloc, &mut reader, &mut writer, setup)?;
/// let output = writer.into_inner();
/// print!(rt; "{}", String::from_utf8_lossy(alloc, &output)?)?;     // 1 inserted 2
/// ```
pub fn run_script_on_threads<T: Threads + Wait + Sync, R: Read, W: Write>(
    rt: &T,
    alloc: Global,
    reader: &mut Watched<R>,
    writer: &mut Watched<W>,
    setup: Setup,
) -> Result<(), RunFault>
    requires reads { has_failed reader.old ≡ false }
    requires writes { has_failed writer.old ≡ false }
    ensures most { (bytes : List ℕ) × Consumes (R.remaining (inside reader.old)) (R.remaining (inside reader.new)) bytes × (length bytes ≤ 16777217) }
    ensures ran { Ran (PrintsOnThreads setup always_open) (source_of R.remaining reader.old reader.new) (sink_of W.contents writer.old writer.new) result }
    ensures nobody { IfErr result HoldsNobody }
{
    let input = read_input(alloc, reader)?;
    let returned = run_threads(rt, alloc, input.as_slice(), setup, &OpenGate);
    write_result(alloc, writer, returned)
}

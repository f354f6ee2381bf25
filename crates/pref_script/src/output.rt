//! The whole output: a text, or the line of a fault.
ghost use Rattle.std.specs.Prelude.{◌≡◌, ◌≤◌, ℕ, true, length, take, Err, OnOk, IfErr, IfOk, string_bytes};
ghost use Rattle.std.specs.Io.KnownBytes.{Appends};
ghost use Rattle.pref_script.specs.Output.{fault_text, in_bytes};
ghost use Rattle.pref_script.specs.Run.{Wrote, sink_of};
ghost use Rattle.pref_script.specs.Watched.{has_failed, inside};

use crate::fault::RunFault;
use crate::text::{push_core_fault, push_table_fault};
use crate::watched::Watched;
use std::alloc::{AllocError, Global};
use std::io::Write;

/// Writes all bytes, in as many writes as the writer needs, and flushes. Takes no memory.
///
/// Refused `Write` where the writer fails or takes no byte; a beginning of the bytes was written then, perhaps all of them.
///
/// ```rust
/// let mut writer = Watched::new(Vec::new(alloc));
/// write_output(&mut writer, b"1 inserted 2\n")?;
/// ```
pub fn write_output<W: Write>(writer: &mut Watched<W>, bytes: &[u8]) -> Result<(), RunFault>
    ensures ok { OnOk result (Appends (W.contents (inside writer.old)) (W.contents (inside writer.new)) bytes.now) }
    ensures fault { IfErr result (λ fault. (fault ≡ RunFault.Write) × (has_failed writer.new ≡ true)
        × (count : ℕ) × (count ≤ length bytes.now) × Appends (W.contents (inside writer.old)) (W.contents (inside writer.new)) (take count bytes.now)) }
{
    let mut rest = bytes;
    while !rest.is_empty() {
        match writer.write(rest) {
            Ok(count) if count > 0 => rest = &rest[count..],
            _ => return Err(RunFault::Write),
        }
    }
    if writer.flush().is_err() {
        return Err(RunFault::Write);
    }
    Ok(())
}

/// The line that the program prints for a fault of status 2, with its line feed; empty for other faults. `Err` is out of
/// memory.
pub fn fault_line(alloc: Global, fault: &RunFault) -> Result<String, AllocError>
    ensures { IfOk result (λ line. string_bytes line ≡ fault_text fault.now) }
{
    let mut line = String::new(alloc);
    match fault {
        RunFault::NoTable => write!(line, "script refused: no table\n")?,
        RunFault::NoEnd => write!(line, "script refused: no end\n")?,
        RunFault::Table(why) => {
            write!(line, "table refused ")?;
            push_table_fault(&mut line, *why)?;
            write!(line, "\n")?;
        }
        RunFault::Opening(why) => {
            write!(line, "opening refused ")?;
            push_core_fault(&mut line, *why)?;
            write!(line, "\n")?;
        }
        RunFault::Read
        | RunFault::Write
        | RunFault::TooLarge
        | RunFault::Memory
        | RunFault::Threads(_) => {}
    }
    Ok(line)
}

/// Writes a text, or the line of a fault, which is handed on then.
///
/// Refused `Write` as [`write_output`] is, and `Memory` where there is none for the line: nothing was written then.
pub fn write_result<W: Write>(
    alloc: Global,
    writer: &mut Watched<W>,
    returned: Result<String, RunFault>,
) -> Result<(), RunFault>
    requires { returned ≡ Err RunFault.Write → ⊥ }
    ensures { Wrote (sink_of W.contents writer.old writer.new) (in_bytes returned) result }
{
    match returned {
        Ok(text) => write_output(writer, text.as_bytes()),
        Err(fault) => {
            let line = fault_line(alloc, &fault)?;
            write_output(writer, line.as_bytes())?;
            Err(fault)
        }
    }
}

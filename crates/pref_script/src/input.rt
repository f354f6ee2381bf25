//! The whole input.
ghost use Rattle.std.specs.Prelude.{◌<◌, ◌≤◌, ◌+◌, ℕ, List, length, IfOk, IfErr};
ghost use Rattle.std.specs.Io.KnownBytes.{Consumes, IsAtEnd};
ghost use Rattle.pref_script.specs.Input.{InputFault};
ghost use Rattle.pref_script.specs.Watched.{has_failed, inside};

use crate::fault::RunFault;
use crate::watched::Watched;
use std::alloc::Global;
use std::io::Read;

/// The most bytes that an input has.
const MAX_INPUT: usize = 16_777_216;

/// How many bytes are read at a time.
const CHUNK: usize = 8192;

/// How many bytes the next read takes at most, after this many.
fn room_after(len: usize) -> usize
    requires { len ≤ 16777216 }
    ensures some { 0 < result }
    ensures chunk { result ≤ 8192 }
    ensures most { len + result ≤ 16777217 }
{
    CHUNK.min(MAX_INPUT + 1 - len)
}

/// Reads all bytes of a reader, which are at most 16,777,216, up to 8,192 at a time. It takes no more than these and one byte.
///
/// Refused `Read` where the reader fails, `TooLarge` where it has more bytes, and `Memory`. The bytes that were read
/// are lost then.
///
/// ```rust
/// let mut reader = Watched::new(b"table\nx\nend\n".as_slice());
/// let script = read_input(alloc, &mut reader)?;
/// ```
#[tactic(auto, using(crate::proofs::ExitLaws::exits))]
pub fn read_input<R: Read>(alloc: Global, reader: &mut Watched<R>) -> Result<Vec<u8>, RunFault>
    ensures most { (bytes : List ℕ) × Consumes (R.remaining (inside reader.old)) (R.remaining (inside reader.new)) bytes × (length bytes ≤ 16777217) }
    ensures ok { IfOk result (λ input. Consumes (R.remaining (inside reader.old)) (R.remaining (inside reader.new)) input.items × IsAtEnd (R.remaining (inside reader.new)) × (length input.items ≤ 16777216)) }
    ensures fault { IfErr result (λ fault. InputFault (R.remaining (inside reader.old)) (has_failed reader.new) fault) }
{
    let mut input = Vec::new(alloc);
    let mut chunk = [0; CHUNK];
    while input.len() <= MAX_INPUT {
        let room = room_after(input.len());
        let Ok(count) = reader.read(&mut chunk[..room]) else {
            return Err(RunFault::Read);
        };
        if count == 0 {
            return Ok(input);
        }
        input.extend_from_slice(&chunk[..count])?;
    }
    Err(RunFault::TooLarge)
}

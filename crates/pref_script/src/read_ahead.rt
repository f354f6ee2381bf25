//! Bytes of an input that are read ahead: what a reader gives is kept until its line is taken.
ghost use Rattle.std.specs.Prelude.{◌≡◌, ◌≤◌, ◌<◌, vec_len, IfOk, IfErr};

use crate::fault::RunFault;
use crate::watched::Watched;
use memchr::memchr;
use std::alloc::{AllocError, Global};
use std::io::Read;

/// The most bytes that the table block has, and that a command line has with its end.
const MAX_LINE: usize = 16_777_216;

/// How many bytes are read at a time.
const CHUNK: usize = 8192;

/// The bytes that were read and not taken yet, and whether the reader has come to its end.
#[derive(Drop)]
pub struct ReadAhead {
    bytes: Vec<u8>,
    start: usize,
    ended: bool,
    ghost in_bounds: { start ≤ vec_len bytes },
}

impl ReadAhead {
    ghost use Rattle.std.specs.Prelude.{◌≡◌, ◌≤◌, ◌<◌, ◌+◌, ◌++◌, [], true, false, length, drop, IfOk, IfErr, OnOk};
    ghost use Rattle.pref_script.specs.ReadAhead.{IsLineAt, IsLittle, LineFault, ReadBehind, ReadFault, ReadOnce, ReadSome, is_at_end, unread};
    ghost use Rattle.pref_script.specs.Run.{source_of};
    ghost use Rattle.pref_script.specs.Watched.{has_failed, inside};

    /// Nothing was read yet.
    pub fn new(alloc: Global) -> ReadAhead
        ensures unread { unread result ≡ [] }
        ensures ended { is_at_end result ≡ false }
    {
        ReadAhead {
            bytes: Vec::new(alloc),
            start: 0,
            ended: false,
        }
    }

    /// The bytes that were read and not taken.
    pub fn as_slice(&self) -> &[u8]
        ensures { result.now ≡ unread self.now }
    {
        let start = self.start;
        let all = self.bytes.as_slice();
        &all[start..]
    }

    /// Takes this many bytes from the front.
    pub fn take(&mut self, count: usize)
        requires { count ≤ length (unread self.old) }
        ensures unread { unread self.new ≡ drop count (unread self.old) }
        ensures ended { is_at_end self.new ≡ is_at_end self.old }
    {
        self.start += count;
    }

    /// Puts bytes behind those that are there. What was taken is let go.
    fn put(&mut self, alloc: Global, more: &[u8]) -> Result<(), AllocError>
        ensures ok { OnOk result (unread self.new ≡ unread self.old ++ more.now) }
        ensures ended { is_at_end self.new ≡ is_at_end self.old }
    {
        if self.start == 0 {
            return self.bytes.extend_from_slice(more);
        }
        let mut bytes = Vec::new(alloc);
        bytes.extend_from_slice(self.as_slice())?;
        bytes.extend_from_slice(more)?;
        self.start = 0;
        self.bytes = bytes;
        Ok(())
    }

    /// Reads some bytes more, as many as one read gives, unless the reader has come to its end.
    #[tactic(auto, using(crate::proofs::ExitLaws::exits))]
    fn read_more<R: Read>(&mut self, alloc: Global, reader: &mut Watched<R>) -> Result<(), RunFault>
        ensures ok { OnOk result (ReadBehind (R.remaining (inside reader.old)) (R.remaining (inside reader.new)) self.old self.new) }
        ensures grows { OnOk result (is_at_end self.new ≡ false → length (unread self.old) < length (unread self.new)) }
        ensures few { OnOk result (length (unread self.new) ≤ length (unread self.old) + 8192) }
        ensures fault { IfErr result (λ fault. ReadFault (has_failed reader.new) fault) }
        ensures read { ReadOnce (R.remaining (inside reader.old)) (R.remaining (inside reader.new)) self.old }
    {
        if self.ended {
            return Ok(());
        }
        let mut chunk = [0; CHUNK];
        let Ok(count) = reader.read(&mut chunk) else {
            return Err(RunFault::Read);
        };
        if count == 0 {
            self.ended = true;
            return Ok(());
        }
        self.put(alloc, &chunk[..count])?;
        Ok(())
    }

    /// Where the line ends that begins behind this many bytes: after its line feed, or where the input ends.
    ///
    /// No byte is read where the line is there already, and none after the read that brought its end, which brings at most 8,192 bytes.
    /// Refused `TooLarge` where the line ends behind 16,777,216 bytes.
    pub fn read_line<R: Read>(
        &mut self,
        alloc: Global,
        reader: &mut Watched<R>,
        from: usize,
    ) -> Result<usize, RunFault>
        requires { from ≤ length (unread self.old) }
        ensures behind { OnOk result (ReadBehind (R.remaining (inside reader.old)) (R.remaining (inside reader.new)) self.old self.new) }
        ensures line { IfOk result (λ end. IsLineAt from end self.new) }
        ensures inside { IfOk result (λ end. (from ≤ end) × (end ≤ length (unread self.new))) }
        ensures most { IfOk result (λ end. end ≤ 16777216) }
        ensures little { OnOk result (IsLittle from (unread self.old) → IsLittle from (unread self.new)) }
        ensures fault { IfErr result (λ fault. LineFault (source_of R.remaining reader.old reader.new) from self.old self.new fault) }
        ensures read { ReadSome (R.remaining (inside reader.old)) (R.remaining (inside reader.new)) from self.old }
    {
        let mut seen = from;
        loop {
            if let Some(place) = memchr(b'\n', &self.as_slice()[seen..]) {
                return end_within(seen + place + 1);
            }
            seen = self.as_slice().len();
            if self.ended || seen > MAX_LINE {
                return end_within(seen);
            }
            self.read_more(alloc, reader)?;
        }
    }
}

/// The end of a line, where it isn't too far away.
fn end_within(end: usize) -> Result<usize, RunFault>
    ensures ok { IfOk result (λ same. (same ≡ end) × (end ≤ 16777216)) }
    ensures fault { IfErr result (λ fault. (fault ≡ RunFault.TooLarge) × (16777216 < end)) }
{
    if end <= MAX_LINE {
        Ok(end)
    } else {
        Err(RunFault::TooLarge)
    }
}

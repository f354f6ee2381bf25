//! Readers and writers that remember whether they have failed.
ghost use Rattle.std.specs.Prelude.{◌≡◌, ◌<◌, ◌⊎◌, true, false, length, IfOk, OnErr, OnOk};
ghost use Rattle.std.specs.Io.{ReadsAtMost, WritesAtMost};
ghost use Rattle.std.specs.Io.KnownBytes.{Keeps, ReadConsumes, WriteAppends};
ghost use Rattle.pref_script.specs.Watched.{has_failed, inside};

use std::io;
use std::io::{Read, Write};

/// A reader or a writer that remembers whether it has failed: from its first error on, or from the first write that took none of its
/// bytes.
///
/// It is itself no `Read` or `Write`, so that all bytes go through its own calls.
#[derive(Drop)]
pub struct Watched<T> {
    inner: T,
    failed: bool,
}

impl<T> Watched<T> {
    /// Watches a reader or a writer, which counts as not failed.
    pub fn new(inner: T) -> Watched<T>
        ensures inner { inside result ≡ inner }
        ensures fresh { has_failed result ≡ false }
    {
        Watched {
            inner,
            failed: false,
        }
    }

    /// The reader or writer that was watched.
    pub fn into_inner(self) -> T
        ensures { result ≡ inside self }
    {
        let Watched { inner, .. } = self;
        inner
    }

    /// Whether it has failed so far.
    pub fn failed(&self) -> bool
        ensures { result ≡ has_failed self.now }
    {
        self.failed
    }
}

impl<R: Read> Watched<R> {
    /// Reads some bytes into `buf` and returns how many: 0 at the end, or where `buf` is empty. An error of the reader is
    /// returned as it is; then it took no byte.
    pub fn read(&mut self, buf: &mut [u8]) -> io::Result<usize>
        ensures bound { ReadsAtMost result buf.new }
        ensures bytes { ReadConsumes (R.remaining (inside self.old)) (R.remaining (inside self.new)) result buf.new }
        ensures fails { OnErr result (has_failed self.new ≡ true) }
        ensures goes { IfOk result (λ _. has_failed self.new ≡ has_failed self.old) }
    {
        let result = self.inner.read(buf);
        if result.is_err() {
            self.failed = true;
        }
        result
    }
}

impl<W: Write> Watched<W> {
    /// Writes a prefix of `buf` and returns how many bytes it has; 0 counts as a failure, but where `buf` is empty. An error
    /// of the writer is returned as it is; then no byte was written.
    pub fn write(&mut self, buf: &[u8]) -> io::Result<usize>
        ensures bound { WritesAtMost result buf.now }
        ensures bytes { WriteAppends (W.contents (inside self.old)) (W.contents (inside self.new)) result buf.now }
        ensures fails { OnErr result (has_failed self.new ≡ true) }
        ensures none { IfOk result (λ count. count ≡ 0 → 0 < length buf.now → has_failed self.new ≡ true) }
        ensures goes { IfOk result (λ count. (0 < count) ⊎ (length buf.now ≡ 0) → has_failed self.new ≡ has_failed self.old) }
    {
        let result = self.inner.write(buf);
        let took_none = matches!(result, Ok(0)) && !buf.is_empty();
        if took_none || result.is_err() {
            self.failed = true;
        }
        result
    }

    /// Flushes the writer. An error of the writer is returned as it is.
    pub fn flush(&mut self) -> io::Result<()>
        ensures bytes { Keeps (W.contents (inside self.old)) (W.contents (inside self.new)) }
        ensures fails { OnErr result (has_failed self.new ≡ true) }
        ensures goes { OnOk result (has_failed self.new ≡ has_failed self.old) }
    {
        let result = self.inner.flush();
        self.failed = self.failed || result.is_err();
        result
    }
}

//! Streams of two directions, and counts of what failed on them.

ghost use Rattle.std.specs.Prelude.{ℕ, Option, ◌≡◌, ◌<◌, ◌+◌, ◌-◌, ◌^◌, length, is_err, if◌then◌else◌, Ok, Some, None};
ghost use Rattle.std.specs.Io.{ReadsAtMost, WritesAtMost};
ghost use Rattle.std.specs.Io.KnownBytes.{Keeps, ReadConsumes, WriteAppends};
ghost use Rattle.replica.specs.Failing.{failed_to_write, cause_of, HaveFailed};

use std::io;
use std::io::{Read, Write};

/// A stream whose two directions are independent: reading leaves what was written as it is, and writing leaves what is
/// still to be read. It may report how many of its reads and writes have failed.
pub trait Duplex: Read + Write {
    // How many reads and how many writes have failed so far; `None` if the stream does not report them.
    ghost failures: { Self → Option (ℕ × ℕ) };

    /// Reads as `read` does. A read has failed exactly if this is an error.
    fn receive(&mut self, buf: &mut [u8]) -> io::Result<usize>
        ensures bound { ReadsAtMost result buf.new }
        ensures bytes { ReadConsumes (Self.Read.remaining self.old)
            (Self.Read.remaining self.new) result buf.new }
        ensures apart { Keeps (Self.Write.contents self.old) (Self.Write.contents self.new) }
        ensures reported { HaveFailed (failures self.old) (failures self.new) (if is_err result
            then 1 else 0) 0 };

    /// Writes as `write` does. A write has failed exactly if this is an error or nothing, of a non-empty slice.
    fn send(&mut self, buf: &[u8]) -> io::Result<usize>
        ensures bound { WritesAtMost result buf.now }
        ensures bytes { WriteAppends (Self.Write.contents self.old)
            (Self.Write.contents self.new) result buf.now }
        ensures apart { Keeps (Self.Read.remaining self.old) (Self.Read.remaining self.new) }
        ensures reported { HaveFailed (failures self.old) (failures self.new) 0
            (if failed_to_write result (length buf.now) then 1 else 0) };
}

/// A stream with the counts of its failed reads and failed writes. A write that takes nothing of a non-empty slice
/// counts as failed. A call with an empty slice is not passed on to the stream and changes no count.
#[derive(Drop)]
pub struct Counted<T> {
    stream: T,
    failed_reads: u64,
    failed_writes: u64,
    /// The cause of the last failure.
    failure: Option<io::ErrorKind>,
}

impl<T> Counted<T> {
    /// A stream with both counts 0.
    pub fn new(stream: T) -> Counted<T>
        ensures { result ≡ record {
          stream = stream;
          failed_reads = 0;
          failed_writes = 0;
          failure =
              None;
        } }
    {
        Counted {
            stream,
            failed_reads: 0,
            failed_writes: 0,
            failure: None,
        }
    }

    /// How many reads have failed.
    pub fn failed_reads(&self) -> u64
        ensures { result ≡ self.now.failed_reads }
    {
        self.failed_reads
    }

    /// How many writes have failed.
    pub fn failed_writes(&self) -> u64
        ensures { result ≡ self.now.failed_writes }
    {
        self.failed_writes
    }

    /// The cause of the last failure; `WriteZero` if it was a write that took nothing of a non-empty slice.
    pub fn failure(&self) -> Option<io::ErrorKind>
        ensures { result ≡ self.now.failure }
    {
        self.failure
    }

    /// Returns the stream.
    pub fn into_inner(self) -> T
        ensures { result ≡ self.stream }
    {
        let Counted { stream, .. } = self;
        stream
    }
}

impl<T: Duplex> Counted<T> {
    /// Reads some bytes; none at the end of the input.
    pub fn receive(&mut self, buf: &mut [u8]) -> io::Result<usize>
        requires { self.old.failed_reads < 2 ^ 64 - 1 }
        ensures bound { ReadsAtMost result buf.new }
        ensures bytes { ReadConsumes (T.Read.remaining self.old.stream)
            (T.Read.remaining self.new.stream) result buf.new }
        ensures apart { Keeps (T.Write.contents self.old.stream)
            (T.Write.contents self.new.stream) }
        ensures empty { length buf.old ≡ 0 → (result ≡ Ok 0) × (self.new ≡ self.old) }
        ensures reads { self.new.failed_reads ≡ self.old.failed_reads + (if is_err result then 1
            else 0) }
        ensures writes { self.new.failed_writes ≡ self.old.failed_writes }
        ensures cause { self.new.failure ≡ (if is_err result then Some (cause_of result)
            else self.old.failure) }
        // The stream's own failed reads rise exactly as the count does.
        ensures reported { HaveFailed (T.failures self.old.stream) (T.failures self.new.stream)
            (if is_err result then 1 else 0) 0 }
    {
        if buf.is_empty() {
            return Ok(0);
        }
        let result = self.stream.receive(buf);
        if let Err(cause) = &result {
            self.failed_reads += 1;
            self.failure = Some(cause.kind());
        }
        result
    }

    /// Writes some bytes. A write that takes nothing of a non-empty slice counts as failed.
    pub fn send(&mut self, buf: &[u8]) -> io::Result<usize>
        requires { self.old.failed_writes < 2 ^ 64 - 1 }
        ensures bound { WritesAtMost result buf.now }
        ensures bytes { WriteAppends (T.Write.contents self.old.stream)
            (T.Write.contents self.new.stream) result buf.now }
        ensures apart { Keeps (T.Read.remaining self.old.stream)
            (T.Read.remaining self.new.stream) }
        ensures empty { length buf.now ≡ 0 → (result ≡ Ok 0) × (self.new ≡ self.old) }
        ensures writes { self.new.failed_writes ≡ self.old.failed_writes +
            (if failed_to_write result (length buf.now) then 1 else 0) }
        ensures reads { self.new.failed_reads ≡ self.old.failed_reads }
        ensures cause { self.new.failure ≡ (if failed_to_write result (length buf.now)
            then Some (cause_of result) else self.old.failure) }
        // The stream's own failed writes rise exactly as the count does.
        ensures reported { HaveFailed (T.failures self.old.stream) (T.failures self.new.stream) 0
            (if failed_to_write result (length buf.now) then 1 else 0) }
    {
        if buf.is_empty() {
            return Ok(0);
        }
        let result = self.stream.send(buf);
        let failure = match &result {
            Ok(1..) => return result,
            Ok(_) => io::ErrorKind::WriteZero,
            Err(cause) => cause.kind(),
        };
        self.failed_writes += 1;
        self.failure = Some(failure);
        result
    }
}

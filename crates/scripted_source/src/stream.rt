//! A stream in memory.

ghost use Rattle.std.specs.Prelude.{◌≡◌, ◌-◌, ◌^◌, Some};
ghost use Rattle.std.specs.Io.{ReadsAtMost, WritesAtMost};
ghost use Rattle.std.specs.Io.KnownBytes.{ReadConsumes, WriteAppends};

use std::io;
use std::io::{Read, Write};

/// A stream that shows what is left to read and what was written. It can fail.
#[derive(Drop)]
pub struct Stream<'a> {
    left: &'a [u8],
    written: Vec<u8>,
    /// The most bytes that a read gives, or 0 for one packet at a time.
    gives: usize,
    /// The most bytes that a write takes.
    takes: usize,
    /// How many bytes can be read before a read fails, and how many can be written before a write fails.
    readable: usize,
    writable: usize,
    /// How many reads and how many writes have failed, unless these are too many to count. Who calls them counts.
    pub failures: Option<(u64, u64)>,
}

impl<'a> Stream<'a> {
    /// A stream with these bytes to read that does not fail, with the most bytes that a read gives and that a write
    /// takes.
    pub fn new(left: &'a [u8], written: Vec<u8>, gives: usize, takes: usize) -> Stream<'a>
        ensures { result ≡ record {
          left = left.entry;
          written = written;
          gives = gives;
          takes = takes;
          readable = 2 ^ 64 - 1;
          writable = 2 ^ 64 - 1;
          failures = Some (0, 0);
        } }
    {
        Stream {
            left,
            written,
            gives,
            takes,
            readable: usize::MAX,
            writable: usize::MAX,
            failures: Some((0, 0)),
        }
    }

    /// Makes it fail to read once this many bytes were read.
    pub fn fail_to_read_after(self, count: usize) -> Stream<'a>
        ensures { result ≡ record self.entry { readable = count } }
    {
        Stream {
            readable: count,
            ..self
        }
    }

    /// Makes it fail to write once this many bytes were written.
    pub fn fail_to_write_after(self, count: usize) -> Stream<'a>
        ensures { result ≡ record self.entry { writable = count } }
    {
        Stream {
            writable: count,
            ..self
        }
    }

    /// What is left to read.
    pub fn left(&self) -> &[u8]
        ensures { result ≡ self.now.left }
    {
        let Stream { left, .. } = self;
        left
    }

    /// What was written.
    pub fn written(&self) -> &[u8]
        ensures { result.now ≡ self.now.written.items }
    {
        &self.written
    }

    /// Returns what was written.
    pub fn into_written(self) -> Vec<u8>
        ensures { result ≡ self.entry.written }
    {
        let Stream { written, .. } = self;
        written
    }

    /// The most bytes that the next read gives.
    fn piece(&self) -> usize {
        match (self.gives, self.left) {
            (0, [low, mid, high, ..]) => {
                4 + (*low as usize) + (*mid as usize) * 256 + (*high as usize) * 65_536
            }
            (gives, _) => gives.max(1),
        }
    }
}

impl<'a> Read for Stream<'a> {
    ghost remaining = { λ s. Some s.left.now };

    /// Clauses:
    /// - `bound`, `bytes`, `apart`, `counted`: a read gives the next bytes, a write adds some; neither changes the
    ///   other's, nor how many have failed
    fn read(&mut self, buf: &mut [u8]) -> io::Result<usize>
        ensures bound { ReadsAtMost result buf.new }
        ensures bytes { ReadConsumes (Some self.old.left.now)
            (Some self.new.left.now) result buf.new }
        ensures apart { self.new.written ≡ self.old.written }
        ensures counted { self.new.failures ≡ self.old.failures }
    {
        if self.readable == 0 {
            return Err(io::Error::from(io::ErrorKind::ConnectionReset));
        }
        let most = self.piece().max(1).min(self.readable);
        let count = buf.len().min(self.left.len()).min(most);
        buf[..count].copy_from_slice(&self.left[..count]);
        self.left = &self.left[count..];
        self.readable -= count;
        Ok(count)
    }
}

impl<'a> Write for Stream<'a> {
    ghost contents = { λ s. Some s.written.items };

    /// Clauses: as [`Stream::read`]
    fn write(&mut self, buf: &[u8]) -> io::Result<usize>
        ensures bound { WritesAtMost result buf.now }
        ensures bytes { WriteAppends (Some self.old.written.items)
            (Some self.new.written.items) result buf.now }
        ensures apart { self.new.left ≡ self.old.left }
        ensures counted { self.new.failures ≡ self.old.failures }
    {
        if self.writable == 0 {
            return Err(io::Error::from(io::ErrorKind::BrokenPipe));
        }
        let count = buf.len().min(self.takes).min(self.writable);
        self.written.extend_from_slice(&buf[..count])?;
        self.writable -= count;
        Ok(count)
    }

    fn flush(&mut self) -> io::Result<()> {
        Ok(())
    }
}

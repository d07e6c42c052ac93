//! Lines that report how far a command has come.

use std::cell::Cell;
use std::io;
use std::io::Write;
use std::time::{Duration, Instant};

/// How long a line stands before the next one is written, at least, in seconds.
const PAUSE: u64 = 1;

/// How long a source has been quiet when it is reported how far a command has come.
pub fn pause() -> Duration {
    Duration::from_secs(PAUSE)
}

/// What a line says.
#[derive(Clone, Copy, PartialEq, Eq)]
struct Counts {
    bytes: u64,
    /// How many transactions were applied.
    applied: u64,
}

/// How far a command has come. A line is written at most once a second, and only if something has changed since the last
/// one. It is shared: who observes the reading counts and reports before more bytes are taken, and a socket reports once
/// the source has been quiet for a second.
#[derive(Drop)]
pub struct Progress {
    /// How many bytes are to be read, if that is known.
    total: Option<u64>,
    /// Whether standard error is a terminal, on which one line is written again and again.
    redraws: bool,
    now: Cell<Counts>,
    /// What the last line said, and when it was written.
    said: Cell<Counts>,
    printed: Cell<Option<Instant>>,
    /// Whether there was a line, and whether the last one has no line feed yet.
    has_line: Cell<bool>,
    open: Cell<bool>,
}

impl Progress {
    /// Nothing has been read.
    pub fn new(clock: &HostRuntime, total: Option<u64>, redraws: bool) -> Progress {
        let none = Counts {
            bytes: 0,
            applied: 0,
        };
        Progress {
            total,
            redraws,
            now: Cell::new(none),
            said: Cell::new(none),
            printed: Cell::new(Instant::now(clock).ok()),
            has_line: Cell::new(false),
            open: Cell::new(false),
        }
    }

    /// Counts a transaction that was applied.
    pub fn count(&self) {
        let Counts { bytes, applied } = self.now.get();
        self.now.set(Counts {
            bytes,
            applied: applied.saturating_add(1),
        });
    }

    /// Counts the bytes of a read.
    pub fn count_bytes(&self, count: usize) {
        let Counts { bytes, applied } = self.now.get();
        self.now.set(Counts {
            bytes: bytes.saturating_add(count as u64),
            applied,
        });
    }

    /// Whether something has changed since the last line.
    pub fn has_news(&self) -> bool {
        self.now.get() != self.said.get()
    }

    /// Writes a line if something has changed since the last one, and that was written a second ago. If the clock or the
    /// writing fails, nothing else is affected.
    pub fn report<E: Write>(&self, clock: &HostRuntime, err: &mut E) {
        if !self.has_news() {
            return;
        }
        let passed = self.passed(clock);
        if passed >= pause() {
            self.write_line(clock, passed, err);
        }
    }

    /// How long ago the last line was written.
    fn passed(&self, clock: &HostRuntime) -> Duration {
        match (Instant::now(clock), self.printed.get()) {
            (Ok(now), Some(printed)) => now.duration_since(printed),
            _ => Duration::ZERO,
        }
    }

    /// Writes a line.
    fn write_line<E: Write>(&self, clock: &HostRuntime, passed: Duration, err: &mut E) {
        let (now, said) = (self.now.get(), self.said.get());
        let tenths = tenths_per_second(now.applied.saturating_sub(said.applied), passed);
        self.printed.set(Instant::now(clock).ok());
        self.said.set(now);
        self.has_line.set(true);
        let _ = self.write(now, tenths, err);
    }

    fn write<E: Write>(&self, counts: Counts, tenths: u64, err: &mut E) -> io::Result<()> {
        if !self.redraws {
            write_counts(counts, self.total, tenths, err)?;
            return err.write_all(b"\n");
        }
        self.open.set(true);
        err.write_all(b"\r")?;
        write_counts(counts, self.total, tenths, err)?;
        err.write_all(b"\x1b[K")
    }

    /// Says how it stands at last, if there were lines before, and ends the line of a terminal, so that another can follow.
    pub fn finish<E: Write>(&self, clock: &HostRuntime, err: &mut E) {
        if self.has_line.get() && self.has_news() {
            self.write_line(clock, self.passed(clock), err);
        }
        if self.open.get() {
            self.open.set(false);
            let _ = writeln!(err);
        }
    }
}

/// Writes what a line says, where so many tenths of a transaction were applied in a second.
fn write_counts<E: Write>(
    counts: Counts,
    total: Option<u64>,
    tenths: u64,
    err: &mut E,
) -> io::Result<()> {
    let Counts { bytes, applied } = counts;
    match total {
        Some(total) => write!(err, "mrep: {bytes} of {total} bytes read")?,
        None => write!(err, "mrep: {bytes} bytes read")?,
    }
    let (whole, rest) = (tenths / 10, tenths % 10);
    write!(
        err,
        ", {applied} transactions applied, {whole}.{rest} a second"
    )
}

/// How many tenths there were in a second, on average.
fn tenths_per_second(count: u64, passed: Duration) -> u64 {
    let millis = u64::try_from(passed.as_millis()).unwrap_or(u64::MAX);
    count.saturating_mul(10_000) / millis.max(1)
}

//! What a status says, and when it is written.

use crate::numbers::{micros_since_1970, write_seconds};
use crate::status_file::StatusFile;
use gtid::{Gtid, GtidSet};
use rows::transactions_in;
use std::alloc::Global;
use std::cell::Cell;
use std::io;
use std::io::Write;
use std::time::{Duration, Instant};

/// How long a status stands before it is replaced, at least, in seconds.
const PAUSE: u64 = 1;

const CONNECTED: &str =
    "# HELP mrep_connected Whether the source is connected (1) or not (0).\n# TYPE mrep_connected gauge\nmrep_connected";

const APPLIED: &str =
    "# HELP mrep_applied_total Transactions that this run has applied.\n# TYPE mrep_applied_total counter\nmrep_applied_total";

const EXECUTED: &str =
    "# HELP mrep_executed_transactions Transactions of the executed GTID set.\n# TYPE mrep_executed_transactions gauge\nmrep_executed_transactions";

const COMMITTED: &str =
    "# HELP mrep_source_commit_seconds When the source committed the transaction that was applied last, since 1970-01-01 00:00:00 UTC.\n# TYPE mrep_source_commit_seconds gauge\nmrep_source_commit_seconds ";

const APPLIED_AT: &str =
    "# HELP mrep_applied_at_seconds When it was applied, since 1970-01-01 00:00:00 UTC.\n# TYPE mrep_applied_at_seconds gauge\nmrep_applied_at_seconds ";

const INFO: &str =
    "# HELP mrep_info How the last connection ended, or why there was none.\n# TYPE mrep_info gauge\nmrep_info{";

/// What a status says.
#[derive(Drop)]
struct StatusValues {
    is_connected: bool,
    /// The executed set, unless memory ran out for it.
    executed: Option<GtidSet>,
    /// How many transactions this run has applied.
    applied: u64,
    /// The last of them.
    last: Option<Gtid>,
    /// When the source committed it, and when it was applied here, in microseconds since 1970-01-01 00:00:00 UTC.
    committed_at: Option<u64>,
    applied_at: Option<u64>,
    /// The reason for which the last connection ended, or there was none.
    end: Option<String>,
}

/// The status of a command, in a file. It is shared: who observes the reading counts and reports before more bytes are taken,
/// and a socket reports once the source has been quiet for a second.
#[derive(Drop)]
pub struct Status {
    alloc: Global,
    file: StatusFile,
    /// What it says; taken out while it is changed or written.
    facts: Cell<Option<StatusValues>>,
    /// Whether something has changed since it was written.
    is_new: Cell<bool>,
    written: Cell<Option<Instant>>,
    /// Whether it could not be written once, which has been reported.
    has_failed: Cell<bool>,
}

impl Status {
    /// Nothing is known yet.
    pub fn new(alloc: Global, file: StatusFile) -> Status {
        Status {
            alloc,
            file,
            facts: Cell::new(Some(StatusValues {
                is_connected: false,
                executed: None,
                applied: 0,
                last: None,
                committed_at: None,
                applied_at: None,
                end: None,
            })),
            is_new: Cell::new(true),
            written: Cell::new(None),
            has_failed: Cell::new(false),
        }
    }

    /// The database was opened, with this executed set.
    pub fn opened(&self, executed: &GtidSet) {
        if let Some(mut facts) = self.facts.take() {
            facts.executed = executed.copy().ok();
            self.put(facts);
        }
    }

    /// The source has been reached.
    pub fn connected(&self) {
        if let Some(mut facts) = self.facts.take() {
            facts.is_connected = true;
            self.put(facts);
        }
    }

    /// A transaction was applied that the source committed at this time, if that is known.
    pub fn applied(&self, clock: &HostRuntime, gtid: Gtid, committed_at: Option<u64>) {
        if let Some(mut facts) = self.facts.take() {
            facts.applied = facts.applied.saturating_add(1);
            facts.last = Some(gtid);
            facts.committed_at = committed_at;
            facts.applied_at = micros_since_1970(clock);
            facts.executed = with(facts.executed, gtid);
            self.put(facts);
        }
    }

    /// A connection has ended for this reason, unless memory ran out for its name.
    pub fn ended(&self, end: Option<String>) {
        if let Some(mut facts) = self.facts.take() {
            facts.is_connected = false;
            facts.end = end;
            self.put(facts);
        }
    }

    /// No connection has begun, for this reason.
    pub fn not_begun(&self, why: &str) {
        self.ended(format!(in self.alloc; "{why}").ok());
    }

    fn put(&self, facts: StatusValues) {
        self.facts.set(Some(facts));
        self.is_new.set(true);
    }

    /// Whether something has changed since the status was written.
    pub fn has_news(&self) -> bool {
        self.is_new.get()
    }

    /// Replaces the file if something has changed since it was written, and that was a second ago. The first failure is
    /// answered, so that it is reported once; nothing else depends on it.
    pub fn report(&self, clock: &HostRuntime) -> io::Result<()> {
        if !self.has_news() {
            return Ok(());
        }
        if !self.is_due(clock) {
            return Ok(());
        }
        self.write(clock)
    }

    /// Whether the file was written a second ago, or never.
    fn is_due(&self, clock: &HostRuntime) -> bool {
        match (Instant::now(clock), self.written.get()) {
            (Ok(now), Some(written)) => now.duration_since(written) >= Duration::from_secs(PAUSE),
            _ => true,
        }
    }

    /// Replaces the file, whenever it was written. The first failure is answered.
    pub fn write(&self, clock: &HostRuntime) -> io::Result<()> {
        self.written.set(Instant::now(clock).ok());
        self.is_new.set(false);
        let Some(facts) = self.facts.take() else {
            return Ok(());
        };
        let text = text_of(self.alloc, &facts);
        self.facts.set(Some(facts));
        let done = match text {
            Ok(text) => self.file.replace(clock, &text),
            Err(cause) => Err(cause),
        };
        match done {
            Err(cause) if !self.has_failed.replace(true) => Err(cause),
            _ => Ok(()),
        }
    }
}

/// A set with one more GTID, unless memory runs out or has run out before.
fn with(executed: Option<GtidSet>, gtid: Gtid) -> Option<GtidSet> {
    let mut executed = executed?;
    match executed.insert(gtid) {
        Ok(_) => Some(executed),
        Err(_) => None,
    }
}

/// The text of a status.
fn text_of(alloc: Global, facts: &StatusValues) -> io::Result<Vec<u8>> {
    let mut text = Vec::new(alloc);
    writeln!(text, "{CONNECTED} {}", facts.is_connected as u8)?;
    writeln!(text, "{APPLIED} {}", facts.applied)?;
    write_count(facts, &mut text)?;
    write_time(COMMITTED, facts.committed_at, &mut text)?;
    write_time(APPLIED_AT, facts.applied_at, &mut text)?;
    write_info(facts, &mut text)?;
    write_set(alloc, facts, &mut text)?;
    Ok(text)
}

/// Writes how many transactions are executed, if the set is known.
fn write_count(facts: &StatusValues, out: &mut Vec<u8>) -> io::Result<()> {
    let Some(executed) = &facts.executed else {
        return Ok(());
    };
    writeln!(out, "{EXECUTED} {}", transactions_in(executed))
}

/// Writes a time, if it is known.
fn write_time(name: &str, micros: Option<u64>, out: &mut Vec<u8>) -> io::Result<()> {
    let Some(micros) = micros else {
        return Ok(());
    };
    out.write_all(name.as_bytes())?;
    write_seconds(micros, out)?;
    out.write_all(b"\n")
}

/// Writes the reason for the last end as a label, if it is known. It has neither quotes nor backslashes.
fn write_info(facts: &StatusValues, out: &mut Vec<u8>) -> io::Result<()> {
    match &facts.end {
        Some(end) => writeln!(out, "{INFO}end=\"{end}\"}} 1"),
        None => writeln!(out, "{INFO}}} 1"),
    }
}

/// Writes as comments what is another text after each transaction, which as a label would be a series of its own: the executed
/// set and the last transaction, if they are known.
fn write_set(alloc: Global, facts: &StatusValues, out: &mut Vec<u8>) -> io::Result<()> {
    if let Some(executed) = &facts.executed {
        let mut text = String::new(alloc);
        if executed.print(&mut text).is_err() {
            return Err(io::ErrorKind::OutOfMemory.into());
        }
        writeln!(out, "# executed {text}")?;
    }
    match facts.last {
        Some(last) => writeln!(out, "# last {last}"),
        None => Ok(()),
    }
}

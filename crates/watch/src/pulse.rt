//! What is reported of how far a command has come, whether bytes come or not: lines of progress, and the status.

use crate::progress::Progress;
use crate::status::Status;
use formats::Shown;
use gtid::{Gtid, GtidSet};
use messages::write_reason;
use replica::Ended;
use std::alloc::Global;
use std::cell::Cell;
use std::io::Write;

/// Lines of progress and the status, where they are asked for. It is shared by what observes the reading and the socket.
#[derive(Drop)]
pub struct Pulse {
    progress: Option<Progress>,
    status: Option<Status>,
    /// The name of the file of the status.
    file: String,
    /// Whether the database may not be used by the command.
    is_refused: Cell<bool>,
}

impl Pulse {
    /// These lines and this status, in a file of this name.
    pub fn new(progress: Option<Progress>, status: Option<Status>, file: String) -> Pulse {
        Pulse {
            progress,
            status,
            file,
            is_refused: Cell::new(false),
        }
    }

    /// The database was opened, and may not be used by the command.
    pub fn refuse(&self) {
        self.is_refused.set(true);
    }

    /// Whether that is so.
    pub fn is_refused(&self) -> bool {
        self.is_refused.get()
    }

    /// Whether there are lines of progress.
    pub fn has_lines(&self) -> bool {
        self.progress.is_some()
    }

    /// Whether there is a status.
    pub fn has_status(&self) -> bool {
        self.status.is_some()
    }

    /// Whether something has changed since it was last reported.
    pub fn has_news(&self) -> bool {
        let of_lines = match &self.progress {
            Some(progress) => progress.has_news(),
            None => false,
        };
        match &self.status {
            Some(status) => of_lines || status.has_news(),
            None => of_lines,
        }
    }

    /// Reports what has changed, if that is due.
    pub fn report<E: Write>(&self, rt: &HostRuntime, err: &mut E) {
        if let Some(progress) = &self.progress {
            progress.report(rt, err);
        }
        if let Some(status) = &self.status
            && let Err(cause) = status.report(rt)
        {
            let _ = writeln!(err, "mrep: {}: {cause}", Shown(self.file.as_str()));
        }
    }

    /// Writes the status at once.
    pub fn write_status<E: Write>(&self, rt: &HostRuntime, err: &mut E) {
        if let Some(status) = &self.status
            && let Err(cause) = status.write(rt)
        {
            let _ = writeln!(err, "mrep: {}: {cause}", Shown(self.file.as_str()));
        }
    }

    /// So many bytes have been read. What was read before is done with, so it may be reported first.
    pub fn received<E: Write>(&self, rt: &HostRuntime, count: usize, err: &mut E) {
        self.report(rt, err);
        if let Some(progress) = &self.progress {
            progress.count_bytes(count);
        }
    }

    /// The database was opened, with this executed set.
    pub fn opened(&self, executed: &GtidSet) {
        if let Some(status) = &self.status {
            status.opened(executed);
        }
    }

    /// The source has been reached.
    pub fn connected(&self) {
        if let Some(status) = &self.status {
            status.connected();
        }
    }

    /// A transaction was applied, which the source committed at this time, in microseconds, if that is known.
    pub fn applied(&self, rt: &HostRuntime, gtid: Gtid, committed_at: Option<u64>) {
        if let Some(progress) = &self.progress {
            progress.count();
        }
        if let Some(status) = &self.status {
            status.applied(rt, gtid, committed_at);
        }
    }

    /// No connection has begun, for this reason, which is written with the status.
    pub fn note_end(&self, why: &str) {
        if let Some(status) = &self.status {
            status.not_begun(why);
        }
    }

    /// The same, and the status is written.
    pub fn not_begun<E: Write>(&self, rt: &HostRuntime, why: &str, err: &mut E) {
        self.note_end(why);
        self.write_status(rt, err);
    }

    /// A connection has ended.
    pub fn ended<E: Write>(&self, rt: &HostRuntime, end: &Ended, err: &mut E) {
        if let Some(progress) = &self.progress {
            progress.finish(rt, err);
        }
        if let Some(status) = &self.status {
            status.ended(name_of(rt.alloc(), end));
        }
        self.write_status(rt, err);
    }
}

/// The name of the reason for an end, unless memory runs out.
fn name_of(alloc: Global, end: &Ended) -> Option<String> {
    let mut name = Vec::new(alloc);
    match write_reason(&end.reason, &mut name) {
        Ok(()) => String::from_utf8(name).ok(),
        Err(_) => None,
    }
}

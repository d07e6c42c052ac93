//! What a command reports while it reads: the line of each end, progress, and the change feed.

ghost use Rattle.std.specs.Prelude.{◌≡◌, true, false, not, is_some, None, Some};
ghost use Rattle.replica.specs.Marks.{NoneUnfinished};
ghost use Rattle.replica.specs.Noted.{KeepsNone};

use crate::map_names::names_in_map;
use crate::pulse::Pulse;
use binlog::{Event, Follow};
use feed::{Feed, FeedEntry, OUTPUT, Stamps};
use formats::{Shown, text_of};
use gather::Delivery;
use gtid::GtidSet;
use messages::{
    Details, Given, HaltCause, can_skip, write_advice, write_cause, write_end, write_refused,
};
use replica::{Ended, Observer, Reason, Refusal, unfinished_copy};
use rows::{Chosen, DescribedTables, Misfit, RowError};
use std::io;
use std::io::Write;

/// Why reading is stopped.
#[derive(Drop)]
pub enum WatchStop {
    /// The line of an end could not be written.
    Output(io::Error),
    /// The change feed could not be written.
    Feed(io::Error),
    /// A row does not fit the description of its columns.
    Misfit(Misfit),
    /// A first copy of tables has begun in the database, and not ended.
    Unfinished,
    /// The database keeps no rows, and the command is for one that does.
    KeepsNone,
    /// The database keeps rows, and the command is for one that does not.
    KeepsRows,
    /// The file of changes has nothing, and the database, which keeps no rows, has executed something.
    NewFeed,
}

impl WatchStop {
    /// What stops where the change feed was not written.
    fn of(error: RowError) -> WatchStop {
        match error {
            RowError::Output(cause) => WatchStop::Feed(cause),
            RowError::Misfit(misfit) => WatchStop::Misfit(misfit),
        }
    }
}

/// Whether a command is stopped by a set that says of a first copy that it has begun, and not that it has ended; loading a copy is not.
pub(crate) fn is_stopped_by(executed: &GtidSet, is_copy: bool) -> bool
    ensures { result ≡ false → is_copy ≡ false → NoneUnfinished executed.now }
{
    if is_copy {
        return false;
    }
    match unfinished_copy(executed) {
        Some(_) => true,
        None => false,
    }
}

/// What is read, and into which database file.
#[derive(Clone, Copy)]
pub struct Source<'a> {
    pub rt: &'a HostRuntime,
    /// The names of the streams.
    pub streams: &'a [&'a str],
    /// The port of a source that is followed; 0 if streams are read.
    pub port: u16,
    pub db: &'a str,
    /// The name of the change feed: `-` for standard output, also without one.
    pub changes: &'a str,
    /// Whether it is a first copy of tables, which alone may go on where one has begun and not ended.
    pub is_copy: bool,
    /// The table that is to lose all of its rows, where the command is for that.
    pub empties: Option<(&'a [u8], &'a [u8])>,
    /// Whether the database keeps no rows.
    pub feed_only: bool,
    /// Whether the file of changes may have nothing where such a database has executed something.
    pub new_feed: bool,
}

/// What is reported, where it is asked for.
#[derive(Drop)]
pub struct Reports {
    pub feed: Option<Feed>,
    /// The tables whose rows have names and types in the feed and in messages.
    pub tables: Option<DescribedTables>,
    /// The tables that are asked for of a new database, and which of them have come.
    pub chosen: Option<Chosen>,
}

/// An observer that reports.
#[derive(Drop)]
pub struct Watch<'a, O, E> {
    source: Source<'a>,
    out: &'a mut O,
    err: &'a mut E,
    pulse: &'a Pulse,
    feed: Option<Feed>,
    /// The tables whose rows have names and types in the feed and in messages.
    tables: Option<DescribedTables>,
    /// The executed set at the start, until the feed has it.
    executed: Option<String>,
    /// The tables that are asked for of a new database, and which of them have come.
    chosen: Option<Chosen>,
    /// Whether the store has failed: it applies nothing more, so nothing more is fed.
    has_failed: bool,
    /// Whether a transaction was applied.
    has_applied: bool,
    details: Details,
    /// What the events of the open transaction say of it besides its changes.
    stamps: Stamps,
    /// How many connections have ended.
    ended: usize,
    stop: Option<WatchStop>,
}

impl<'a, O: Write, E: Write> Watch<'a, O, E> {
    /// An observer that nothing has been reported to.
    pub fn new(
        source: Source<'a>,
        pulse: &'a Pulse,
        reports: Reports,
        out: &'a mut O,
        err: &'a mut E,
    ) -> Watch<'a, O, E> {
        let Reports {
            feed,
            tables,
            chosen,
        } = reports;
        Watch {
            source,
            out,
            err,
            pulse,
            feed,
            tables,
            executed: None,
            chosen,
            has_failed: false,
            has_applied: false,
            details: Details::new(source.rt.alloc()),
            stamps: Stamps::new(source.rt.alloc()),
            ended: 0,
            stop: None,
        }
    }

    /// Writes an entry of the change feed, after the executed set at the start, unless the feed has that.
    fn put(&mut self, entry: FeedEntry<'_>)
        ensures { is_some self.old.stop ≡ true → is_some self.new.stop ≡ true }
    {
        self.put_executed();
        self.write(entry);
    }

    /// Writes an entry of the change feed, unless reading is stopped or the store has failed.
    fn write(&mut self, entry: FeedEntry<'_>)
        ensures { is_some self.old.stop ≡ true → is_some self.new.stop ≡ true }
    {
        if self.stop.is_some() {
            return;
        }
        if self.has_failed {
            return;
        }
        let Some(feed) = &mut self.feed else {
            return;
        };
        if let Err(error) = feed.write(entry, &self.stamps, self.tables.as_ref(), self.out) {
            self.stop = Some(WatchStop::of(error));
        }
    }

    /// Writes the executed set at the start, unless the feed has it.
    fn put_executed(&mut self)
        ensures { is_some self.old.stop ≡ true → is_some self.new.stop ≡ true }
    {
        if let Some(text) = self.executed.take() {
            self.write(FeedEntry::Opened(text.as_str()));
        }
    }

    /// Why the command may not use the database, which keeps the rows of the tables of this filter, or its file of changes.
    fn refusal(&self, executed: &GtidSet, following: &Follow) -> Option<WatchStop>
        ensures none_kept { result ≡ None → self.now.source.feed_only ≡ true
            → KeepsNone following.now }
        ensures kept { result ≡ None → self.now.source.feed_only ≡ false
            → KeepsNone following.now → ⊥ }
    {
        match (self.source.feed_only, following.keeps_rows()) {
            (false, true) => None,
            (false, false) => Some(WatchStop::KeepsNone),
            (true, true) => Some(WatchStop::KeepsRows),
            (true, false) if self.would_begin_anew(executed) => Some(WatchStop::NewFeed),
            (true, false) => None,
        }
    }

    /// Whether the feed would begin in a new file, which was not asked for, after transactions whose changes another one has.
    fn would_begin_anew(&self, executed: &GtidSet) -> bool {
        // A copy adds its set before it reports the first one.
        if self.source.new_feed || self.source.is_copy {
            return false;
        }
        if executed.is_subset(&GtidSet::new(self.source.rt.alloc())) {
            return false;
        }
        match &self.feed {
            Some(feed) => feed.is_empty(),
            None => false,
        }
    }

    /// The table of which the database has no rows, and whoever reads the feed is to have none from now on.
    fn emptied(&self) -> Option<(&'a [u8], &'a [u8])> {
        if self.source.feed_only {
            return self.source.empties;
        }
        None
    }

    /// Takes the executed set at the start, which the feed has from here on where no source has to be reached.
    fn begin(&mut self, executed: &GtidSet)
        ensures { is_some self.old.stop ≡ true → is_some self.new.stop ≡ true }
    {
        self.details.note_executed(executed);
        if !executed.is_subset(&GtidSet::new(self.source.rt.alloc())) {
            self.chosen = None;
        }
        if self.feed.is_none() {
            return;
        }
        match text_of(self.source.rt.alloc(), executed) {
            Ok(text) => self.executed = Some(text),
            Err(_) => self.stop = Some(WatchStop::Feed(io::ErrorKind::OutOfMemory.into())),
        }
        // A source that cannot be reached adds nothing to the feed, however often it is tried.
        if self.source.port == 0 {
            self.put_executed();
        }
    }

    /// Notes the change of a transaction that is refused, with names and types where its table is described.
    fn note_refused(&mut self, delivery: &Delivery, at: usize, is_full: bool)
        ensures { self.new.stop ≡ self.old.stop }
    {
        let Some(change) = delivery.changes.iter().nth(at) else {
            return;
        };
        if let Some(tables) = &self.tables
            && write_refused(
                self.source.rt.alloc(),
                tables,
                &change,
                is_full,
                &mut self.details.lines,
            )
        {
            return;
        }
        self.details.refuse_change(&change, is_full);
    }

    /// Writes the line of an end at once: to standard error where the output has the change feed.
    fn print(&mut self, number: usize, end: &Ended) -> io::Result<()>
        ensures { self.new.stop ≡ self.old.stop }
    {
        let to_err = match &self.feed {
            Some(feed) => feed.is_output(),
            None => false,
        };
        if to_err {
            return write_end(number, end, self.err);
        }
        write_end(number, end, self.out)?;
        self.out.flush()
    }

    /// What has stopped a command before a transaction.
    fn halt(&self) -> HaltCause<'a> {
        match self.stop {
            Some(WatchStop::Misfit(_)) => HaltCause::Misfit,
            Some(WatchStop::Unfinished) => HaltCause::Unfinished,
            Some(WatchStop::KeepsNone | WatchStop::KeepsRows | WatchStop::NewFeed) => {
                HaltCause::Kept
            }
            Some(_) if self.source.changes == OUTPUT => HaltCause::Output,
            Some(_) => HaltCause::Feed(self.source.changes),
            None => HaltCause::Memory,
        }
    }

    /// What a command is given that answers an end.
    fn given(&self) -> Given<'a> {
        let feed = if self.source.feed_only {
            Some(self.source.changes)
        } else {
            None
        };
        let has_chain = match &self.feed {
            Some(feed) => feed.has_chain(),
            None => false,
        };
        Given {
            db: self.source.db,
            feed,
            has_chain,
        }
    }

    /// Writes the cause of an end to standard error, and in which transaction it was.
    fn explain(&mut self, stream: &str, reason: &Reason)
        ensures { self.new.stop ≡ self.old.stop }
    {
        let db = self.source.db;
        let _ = write_cause(stream, db, self.halt(), reason, self.err);
        let _ = write_advice(stream, reason, self.err);
        if let Some(can_skip) = can_skip(reason, self.source.port != 0) {
            let given = self.given();
            let _ = self.details.write(stream, given, can_skip, self.err);
        }
        self.details.clear();
    }

    /// Writes the line of an end and its cause. A failure of the stream is the cause if there is one.
    pub fn report(
        &mut self,
        number: usize,
        end: &Ended,
        failure: Option<io::ErrorKind>,
    ) -> io::Result<()>
        ensures { self.new.stop ≡ self.old.stop }
    {
        self.pulse.ended(self.source.rt, end, self.err);
        let printed = self.print(number, end);
        let name = self.source.streams.get(number.saturating_sub(1));
        let stream = name.copied().unwrap_or("");
        match failure {
            Some(kind) => {
                let _ = writeln!(self.err, "mrep: {}: {kind}", Shown(stream));
            }
            None => self.explain(stream, &end.reason),
        }
        printed
    }

    /// Gives the change feed to this file up: nothing was reported.
    pub fn discard(self, name: &str) {
        let rt = self.source.rt;
        let (feed, _) = self.into_parts();
        if let Some(feed) = feed {
            feed.discard(rt, name);
        }
    }

    /// The change feed, and why reading was stopped.
    fn into_parts(self) -> (Option<Feed>, Option<WatchStop>) {
        let Watch { feed, stop, .. } = self;
        (feed, stop)
    }

    /// Reports of which tables that are asked for of a new database it has no row, since none came with what was applied.
    pub fn note_missing(&mut self)
        ensures { self.new.stop ≡ self.old.stop }
    {
        if let Some(chosen) = &self.chosen
            && self.has_applied
        {
            let _ = chosen.note_missing(self.source.db, self.err);
        }
    }

    /// Says in the status that the source could not be reached.
    pub fn give_up(&mut self)
        ensures { self.new.stop ≡ self.old.stop }
    {
        self.pulse.write_status(self.source.rt, self.err);
    }

    /// Why reading was stopped, if it was. Where that was at once, the file that the change feed has made is removed.
    pub fn stop(self) -> Option<WatchStop> {
        let source = self.source;
        let (feed, stop) = self.into_parts();
        if let Some(WatchStop::KeepsNone | WatchStop::KeepsRows | WatchStop::NewFeed) = stop
            && let Some(feed) = feed
        {
            feed.discard(source.rt, source.changes);
        }
        stop
    }
}

impl<'a, O: Write, E: Write> Observer for Watch<'a, O, E> {
    ghost account = { λ w. record {
      noted = None;
      seen = None;
      has_stopped = is_some w.stop;
      waits = None;
      excludes = not w.source.is_copy;
      keeps = Some (not w.source.feed_only);
    } };

    fn opened(&mut self, executed: &GtidSet, following: &Follow) {
        self.pulse.opened(executed);
        if is_stopped_by(executed, self.source.is_copy) {
            self.stop = Some(WatchStop::Unfinished);
        } else if let Some(stop) = self.refusal(executed, following) {
            self.stop = Some(stop);
            self.pulse.refuse();
        } else {
            self.begin(executed);
        }
    }

    fn connected(&mut self) {
        self.put_executed();
        self.pulse.connected();
        if self.pulse.has_lines() {
            let name = self.source.streams.first().copied().unwrap_or("");
            let _ = writeln!(
                self.err,
                "mrep: connected to {} port {}",
                Shown(name),
                self.source.port
            );
        }
    }

    fn received(&mut self, count: usize) {
        self.pulse.received(self.source.rt, count, self.err);
    }

    fn event(&mut self, event: &Event<'_>, bytes: &[u8], pending: usize) {
        if self.feed.is_some() || self.pulse.has_status() {
            let stamped = self.stamps.event(event, bytes, pending);
            if stamped.is_err() && self.feed.is_some() {
                self.stop = Some(WatchStop::Feed(io::ErrorKind::OutOfMemory.into()));
            }
        }
        match event {
            Event::Gtid(gtid) => self.details.gtid = Some(*gtid),
            Event::TableMap(map) => {
                if let Some(chosen) = &mut self.chosen {
                    chosen.takes(map.schema, map.table);
                }
            }
            Event::OtherMap { .. } => {
                if let Some(chosen) = &mut self.chosen
                    && let Some((schema, table)) = names_in_map(bytes)
                {
                    chosen.takes(schema, table);
                }
            }
            Event::Format | Event::Rotate { .. } | Event::Stop => self.details.gtid = None,
            _ => {}
        }
    }

    fn before_apply(&mut self, delivery: &Delivery) -> bool {
        match self.emptied() {
            Some((schema, table)) => self.put(FeedEntry::Emptied {
                gtid: delivery.gtid,
                schema,
                table,
            }),
            None => self.put(FeedEntry::Changes(delivery)),
        }
        self.stop.is_none()
    }

    fn after_apply(&mut self, delivery: &Delivery, outcome: &Result<bool, Reason>) {
        match outcome {
            Ok(applied) => {
                self.details.gtid = None;
                if *applied {
                    self.details.note_applied(delivery.gtid);
                    self.has_applied = true;
                    let committed_at = self.stamps.committed_at();
                    self.pulse
                        .applied(self.source.rt, delivery.gtid, committed_at);
                    let lines = match self.emptied() {
                        Some(_) => 1,
                        None => delivery.changes.len(),
                    };
                    self.put(FeedEntry::Committed(delivery.gtid, lines));
                }
            }
            Err(reason) => {
                self.details.gtid = Some(delivery.gtid);
                match reason {
                    Reason::Refused(Refusal::NoSuchRow(at)) => {
                        self.note_refused(delivery, *at, false);
                    }
                    Reason::Refused(Refusal::CountFull(at)) => {
                        self.note_refused(delivery, *at, true);
                    }
                    _ => {}
                }
                // After a failure of the database the transaction may have been committed.
                if !matches!(reason, Reason::Database(_)) {
                    self.put(FeedEntry::RolledBack(delivery.gtid));
                }
                if matches!(reason, Reason::Database(_) | Reason::Memory) {
                    self.has_failed = true;
                }
            }
        }
    }

    fn refused(&mut self, payload: &[u8], reason: &Reason) {
        if let ([0, event @ ..], Reason::Event(fault)) = (payload, reason) {
            self.details.refuse_event(event, *fault);
        }
    }

    fn ended(&mut self, end: &Ended) -> bool {
        self.ended = self.ended.saturating_add(1);
        let printed = self.report(self.ended, end, None);
        if let Err(cause) = printed
            && self.stop.is_none()
        {
            self.stop = Some(WatchStop::Output(cause));
        }
        self.stop.is_none()
    }

    fn is_done(&self) -> bool {
        false
    }
}

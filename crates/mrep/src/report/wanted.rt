//! What `mrep replay` and `mrep follow` are asked for beside what they read.

use crate::database::description::read_tables;
use crate::database::reading::{Kept, kept_in};
use crate::report::failure::{
    Failure, of_argument, of_file, of_misfit, of_system, over_argument, over_file, unusable,
};
use binlog::Follow;
use clap::ArgMatches;
use command_line::{ArgumentFault, parse_encoding, parse_set, parse_tables, word};
use feed::{Feed, OUTPUT};
use formats::Format;
use gtid::GtidSet;
use messages::{KEEPS_NONE, KEEPS_ROWS, NEW_FEED, NO_FILE, UNFINISHED};
use rows::{Chosen, DescribedTables};
use std::alloc::Global;
use std::io::{IsTerminal, Write};
use watch::{Progress, Pulse, Reports, Source, Status, StatusFile, Watch, WatchStop};

/// The database and the tables whose rows are kept, and what is reported.
#[derive(Clone, Copy)]
pub struct Wanted<'g, 'a> {
    /// The database file.
    pub db: &'a str,
    /// The tables whose rows are kept.
    only: Option<&'g [&'a str]>,
    /// Whether to report how far the command has come.
    progress: bool,
    /// Where the change feed goes.
    changes: Option<&'a str>,
    /// How it has bytes.
    bytes: Option<&'a str>,
    /// The file with the description of the columns.
    columns: Option<&'a str>,
    /// The file of the status.
    status: Option<&'a str>,
    /// The text of the set that is waited for.
    until: Option<&'a str>,
    /// Whether no rows are kept.
    feed_only: bool,
    /// Whether the file of changes may be a new one, where none are kept.
    new_feed: bool,
    /// Whether the lines of commits in the file of changes have a chain.
    is_chained: bool,
}

/// What was waited for: nothing is known of it where memory ran out.
pub fn waited(is_out_of_memory: bool) -> Result<(), Failure> {
    if is_out_of_memory {
        return Err(Failure::Memory);
    }
    Ok(())
}

/// The filter of a database that keeps no rows, of the tables of this list.
fn not_kept(alloc: Global, names: &[(Vec<u8>, Vec<u8>)]) -> Result<Option<Follow>, Failure> {
    match Follow::not_kept(alloc, names) {
        Ok(filter) => Ok(Some(filter)),
        Err(_) => Err(Failure::Memory),
    }
}

/// Whether one of the names means all tables of a schema, where no rows are kept.
pub fn has_pattern(filter: &Follow) -> bool {
    filter
        .names()
        .iter()
        .any(|name| name.1.as_slice() == b"*".as_slice())
}

impl<'g, 'a> Wanted<'g, 'a> {
    /// What the arguments ask for. A form of bytes is that of a feed.
    pub fn of(alloc: Global, given: &'g ArgMatches<'a>) -> Result<Wanted<'g, 'a>, Failure> {
        let (changes, bytes) = (given.get_str("changes"), given.get_str("bytes"));
        if bytes.is_some() && changes.is_none() {
            return Err(of_argument(alloc, ArgumentFault::Bytes));
        }
        let (feed_only, new_feed) = (given.get_flag("feed-only"), given.get_flag("new-feed"));
        if feed_only && changes.unwrap_or(OUTPUT) == OUTPUT {
            return Err(of_argument(alloc, ArgumentFault::FeedOnly));
        }
        if new_feed && !feed_only {
            return Err(of_argument(alloc, ArgumentFault::NewFeed));
        }
        let is_chained = given.get_flag("chain");
        if is_chained && changes.unwrap_or(OUTPUT) == OUTPUT {
            return Err(of_argument(alloc, ArgumentFault::Chain));
        }
        Ok(Wanted {
            db: word(given, "db"),
            only: given.get_strs("only"),
            progress: given.get_flag("progress"),
            changes,
            bytes,
            columns: given.get_str("columns"),
            status: given.get_str("status"),
            until: given.get_str("until"),
            feed_only,
            new_feed,
            is_chained,
        })
    }

    /// The filter of the database: of the tables that are named, or, where no rows are kept, its own, which says so, and of all for
    /// a new one. None is that of the database.
    pub fn only(&self, rt: &HostRuntime) -> Result<Option<Follow>, Failure> {
        let (kept, own) = if self.feed_only {
            kept_in(rt, self.db)?
        } else {
            (Kept::Unknown, None)
        };
        self.only_for(rt.alloc(), kept, own)
    }

    /// The same, of a database that keeps this, by its own filter.
    pub fn only_for(
        &self,
        alloc: Global,
        kept: Kept,
        own: Option<Follow>,
    ) -> Result<Option<Follow>, Failure> {
        let named = self.filter(alloc)?;
        if !self.feed_only {
            return Ok(named);
        }
        match (kept, named) {
            (Kept::Rows, _) => Err(unusable(alloc, self.db, KEEPS_ROWS)),
            (Kept::None { .. }, None) => Ok(own),
            (_, Some(named)) => not_kept(alloc, named.names()),
            (_, None) => not_kept(alloc, &[]),
        }
    }

    /// What the database keeps into which a first copy is loaded, if it is what is asked for, as [`kept_in`] says it. The set of a
    /// copy is executed before anything is reported, so an observer would refuse it too late.
    pub fn kept_for_copy(&self, rt: &HostRuntime) -> Result<(Kept, Option<Follow>), Failure> {
        match kept_in(rt, self.db)? {
            (Kept::None { .. }, _) if !self.feed_only => {
                Err(unusable(rt.alloc(), self.db, KEEPS_NONE))
            }
            kept => Ok(kept),
        }
    }

    /// What is reported of a first copy that is loaded into a database that keeps this: its feed may not begin in a new file, which
    /// was not asked for, where rows are not kept and something is executed.
    pub fn unless_anew(
        &self,
        rt: &HostRuntime,
        kept: Kept,
        reports: Reports,
    ) -> Result<Reports, Failure> {
        let Reports {
            feed,
            tables,
            chosen,
        } = reports;
        let is_known = self.new_feed || kept != Kept::None { has_executed: true };
        match feed {
            Some(feed) if !is_known && feed.is_empty() => {
                feed.discard(rt, self.feed_name());
                Err(unusable(rt.alloc(), self.feed_name(), NEW_FEED))
            }
            feed => Ok(Reports {
                feed,
                tables,
                chosen,
            }),
        }
    }

    /// The filter that the tables make, if any are named.
    fn filter(&self, alloc: Global) -> Result<Option<Follow>, Failure> {
        match self.only {
            Some(words) => Ok(Some(over_argument(alloc, parse_tables(alloc, words))?)),
            None => Ok(None),
        }
    }

    /// The set that is waited for, if there is one.
    pub fn until(&self, alloc: Global) -> Result<Option<GtidSet>, Failure> {
        match self.until {
            Some(text) => {
                let set = parse_set(alloc, "--until", text);
                Ok(Some(over_argument(alloc, set)?))
            }
            None => Ok(None),
        }
    }

    /// These streams, or a source at this port, read as it is wanted.
    pub fn source<'s>(&self, rt: &'s HostRuntime, streams: &'s [&'s str], port: u16) -> Source<'s>
    where
        'a: 's,
    {
        Source {
            rt,
            streams,
            port,
            db: self.db,
            changes: self.feed_name(),
            is_copy: false,
            empties: None,
            feed_only: self.feed_only,
            new_feed: self.new_feed,
        }
    }

    /// A first copy of tables, as it is wanted.
    pub fn copy_source<'s>(&self, rt: &'s HostRuntime) -> Source<'s>
    where
        'a: 's,
    {
        Source {
            rt,
            streams: &[],
            port: 0,
            db: self.db,
            changes: self.feed_name(),
            is_copy: true,
            empties: None,
            feed_only: self.feed_only,
            new_feed: self.new_feed,
        }
    }

    /// A table that is to lose all of its rows, which may be those of a first copy, as it is wanted.
    pub fn clear_source<'s>(
        &self,
        rt: &'s HostRuntime,
        is_copy: bool,
        table: (&'s [u8], &'s [u8]),
    ) -> Source<'s>
    where
        'a: 's,
    {
        Source {
            rt,
            streams: &[],
            port: 0,
            db: self.db,
            changes: self.feed_name(),
            is_copy,
            empties: Some(table),
            feed_only: self.feed_only,
            new_feed: self.new_feed,
        }
    }

    /// All that is reported of a command that reads these files, with how many bytes, if that is known.
    pub fn reports<E: Write>(
        &self,
        rt: &HostRuntime,
        total: Option<u64>,
        read: &[&str],
        err: &mut E,
    ) -> Result<(Pulse, Reports), Failure> {
        let others = self.others(rt.alloc(), read)?;
        self.reports_beside(rt, total, &others, err)
    }

    /// The same, of a command that uses these other files.
    fn reports_beside<E: Write>(
        &self,
        rt: &HostRuntime,
        total: Option<u64>,
        others: &[&str],
        err: &mut E,
    ) -> Result<(Pulse, Reports), Failure> {
        let chosen = self.chosen(rt.alloc())?;
        let tables = self.tables(rt)?;
        let (pulse, feed) = self.pulse_and_feed(rt, total, others, err)?;
        let reports = Reports {
            feed,
            tables,
            chosen,
        };
        Ok((pulse, reports))
    }

    /// The tables whose columns are described, if any are.
    fn tables(&self, rt: &HostRuntime) -> Result<Option<DescribedTables>, Failure> {
        match self.columns {
            Some(name) => Ok(Some(read_tables(rt, name)?)),
            None => Ok(None),
        }
    }

    /// Lines of progress and the status, which is written first, and the change feed.
    fn pulse_and_feed<E: Write>(
        &self,
        rt: &HostRuntime,
        total: Option<u64>,
        others: &[&str],
        err: &mut E,
    ) -> Result<(Pulse, Option<Feed>), Failure> {
        let pulse = self.pulse(rt, total, others)?;
        pulse.write_status(rt, err);
        let feed = self.feed(rt, others)?;
        Ok((pulse, feed))
    }

    /// The files that the command uses besides the change feed: those that it reads, the description, and the status.
    fn others<'n>(&self, alloc: Global, read: &[&'n str]) -> Result<Vec<&'n str>, Failure>
    where
        'a: 'n,
    {
        let mut others = Vec::with_capacity(alloc, read.len().saturating_add(2))?;
        others.extend_from_slice(read)?;
        if let Some(columns) = self.columns {
            others.push(columns)?;
        }
        if let Some(status) = self.status {
            others.push(status)?;
        }
        Ok(others)
    }

    /// The tables, of which no row has come, if any are named.
    fn chosen(&self, alloc: Global) -> Result<Option<Chosen>, Failure> {
        match self.filter(alloc)? {
            Some(filter) if self.feed_only && has_pattern(&filter) => Ok(None),
            Some(filter) => Ok(Some(Chosen::new(alloc, filter)?)),
            None => Ok(None),
        }
    }

    /// Lines of progress, with how many bytes are to be read, if that is known, and the status, where they are asked for.
    fn pulse(
        &self,
        rt: &HostRuntime,
        total: Option<u64>,
        others: &[&str],
    ) -> Result<Pulse, Failure> {
        let progress = if self.progress {
            Some(Progress::new(rt, total, rt.stderr().is_terminal()))
        } else {
            None
        };
        let Some(name) = self.status else {
            return Ok(Pulse::new(progress, None, String::new(rt.alloc())));
        };
        let file = over_file(rt.alloc(), name, StatusFile::new(rt, name, self.db, others))?;
        let status = Status::new(rt.alloc(), file);
        let named = format!(in rt.alloc(); "{name}")?;
        Ok(Pulse::new(progress, Some(status), named))
    }

    /// The change feed, if one is asked for. Its file may be none of the others that the command uses.
    fn feed(&self, rt: &HostRuntime, others: &[&str]) -> Result<Option<Feed>, Failure> {
        let Some(name) = self.changes else {
            return Ok(None);
        };
        let encoding = parse_encoding(self.bytes, Format::Json, self.columns.is_some());
        let encoding = over_argument(rt.alloc(), encoding)?;
        if name == OUTPUT {
            return Ok(Some(Feed::to_output(rt.alloc(), encoding)));
        }
        let chained = self.is_chained;
        match Feed::to_file(rt, name, self.db, others, Some(encoding), chained) {
            Ok(feed) if self.feed_only && !feed.is_on_disk() => {
                feed.discard(rt, name);
                Err(unusable(rt.alloc(), name, NO_FILE))
            }
            Ok(feed) => Ok(Some(feed)),
            Err(fault) => Err(of_file(rt.alloc(), name, fault)),
        }
    }

    /// The name of the change feed: `-` for standard output, also without one.
    pub fn feed_name(&self) -> &'a str {
        self.changes.unwrap_or(OUTPUT)
    }

    /// Whether standard output has the change feed.
    pub fn feeds_output(&self) -> bool {
        self.changes == Some(OUTPUT)
    }

    /// What was done, with its observer. Where it failed, the file that the change feed has made is removed.
    pub fn unless_failed<'w, T, O: Write, E: Write>(
        &self,
        done: Result<T, Failure>,
        watch: Watch<'w, O, E>,
    ) -> Result<(T, Watch<'w, O, E>), Failure> {
        match done {
            Ok(done) => Ok((done, watch)),
            Err(failure) => {
                watch.discard(self.feed_name());
                Err(failure)
            }
        }
    }

    /// The failure that stopped the reading, if there is one.
    pub fn stopped(&self, alloc: Global, stop: Option<WatchStop>) -> Result<(), Failure> {
        match (stop, self.changes) {
            (None, _) => Ok(()),
            (Some(WatchStop::Feed(cause)), Some(name)) if name != OUTPUT => {
                Err(of_system(alloc, name, cause))
            }
            (Some(WatchStop::Feed(cause) | WatchStop::Output(cause)), _) => Err(Failure::Output(
                cause,
            )),
            (Some(WatchStop::Misfit(misfit)), _) => {
                Err(of_misfit(alloc, self.columns.unwrap_or(""), &misfit))
            }
            (Some(WatchStop::Unfinished), _) => Err(unusable(alloc, self.db, UNFINISHED)),
            (Some(WatchStop::KeepsNone), _) => Err(unusable(alloc, self.db, KEEPS_NONE)),
            (Some(WatchStop::KeepsRows), _) => Err(unusable(alloc, self.db, KEEPS_ROWS)),
            (Some(WatchStop::NewFeed), _) => Err(unusable(alloc, self.feed_name(), NEW_FEED)),
        }
    }
}

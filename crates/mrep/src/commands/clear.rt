//! `mrep clear`: all rows of a table out of a database.

ghost use Rattle.std.specs.Prelude.{◌≤◌, None, IfOk};
ghost use Rattle.sqlite_wal.specs.Files.{image_at};
ghost use Rattle.replica.specs.Clear.{clear_of};
ghost use Rattle.replica.specs.ClearFile.{ClearsFile};
ghost use Rattle.replica.specs.File.{OfHeld};

use crate::database::open::{closed, opening, unopened_database};
use crate::report::console::Console;
use crate::report::failure::{
    DONE, Failure, MEMORY, of_database, of_other_tables, over_argument, unusable, write_failure,
};
use crate::report::wanted::Wanted;
use clap::ArgMatches;
use command_line::{parse_gtid, parse_set, parse_table, word};
use formats::{Shown, write_table};
use gtid::{Gtid, GtidSet, Spans};
use replica::{ClearEnd, ClearedFile, Observer, Reason, clear_file};
use sqlite::{FileFrom, Start};
use sqlite_disk::Unknown;
use std::alloc::Global;
use std::io::Write;
use store::StoreFault;
use watch::Watch;

const OTHER_SET: &str =
    "it has not executed just the set of --at, and besides it copies alone, so that rows from before the statement would come back, or later ones go: follow --until exactly what the source had executed before it, or give that set";

const GAP: &str =
    "not all transactions of this source with lower numbers are executed: one of them that comes later puts rows back";

/// Takes all rows of a table out of a database and records a GTID as executed, in one commit, and prints how many rows went.
pub fn clear<W: Write, E: Write>(
    rt: &HostRuntime,
    given: &ArgMatches<'_>,
    console: &mut Console<W, E>,
) -> Result<u8, Failure>
    ensures { IfOk result (λ status. status ≤ MEMORY) }
{
    let alloc = rt.alloc();
    let gtid = over_argument(alloc, parse_gtid("--gtid", word(given, "gtid")))?;
    let table = parse_table(alloc, word(given, "SCHEMA.TABLE"));
    let (schema, name) = over_argument(alloc, table)?;
    let at = over_argument(alloc, parse_set(alloc, "--at", word(given, "at")))?;
    let wanted = Wanted::of(alloc, given)?;
    let clear = TableToClear {
        schema: &schema,
        name: &name,
        gtid,
        at: &at,
        is_copy: false,
    };
    let rows = clear_reported(rt, &wanted, clear, console)?;
    if rows.is_some() && has_gap_below(at.spans(), gtid) {
        let _ = writeln!(console.err, "mrep: {}: {GAP}", Shown(wanted.db));
    }
    if wanted.feeds_output() {
        print(rows, &mut console.err)?;
    } else {
        print(rows, &mut console.out)?;
    }
    Ok(DONE)
}

/// Whether a number of the source below a GTID is in none of the spans of a set.
fn has_gap_below(spans: Spans<'_>, gtid: Gtid) -> bool {
    let last = gtid.number.saturating_sub(1);
    if last == 0 {
        return false;
    }
    for span in spans {
        if span.source == gtid.source && span.lo == 1 && span.hi >= last {
            return false;
        }
    }
    true
}

/// A table, by its names, the GTID of the statement that has emptied it, and what the source had executed before.
#[derive(Clone, Copy)]
pub struct TableToClear<'t> {
    pub schema: &'t [u8],
    pub name: &'t [u8],
    pub gtid: Gtid,
    pub at: &'t GtidSet,
    /// Whether the rows are those of a first copy that is given up.
    pub is_copy: bool,
}

/// Takes all rows of a table out of a database, with the reports that are wanted. Returns how many went; none where the GTID was
/// executed.
pub fn clear_reported<W: Write, E: Write>(
    rt: &HostRuntime,
    wanted: &Wanted<'_, '_>,
    what: TableToClear<'_>,
    console: &mut Console<W, E>,
) -> Result<Option<u64>, Failure> {
    let (pulse, reports) = wanted.reports(rt, None, &[], &mut console.err)?;
    let source = wanted.clear_source(rt, what.is_copy, (what.schema, what.name));
    let mut watch = Watch::new(source, &pulse, reports, &mut console.out, &mut console.err);
    let done = clear_in(rt, wanted.db, Unknown, what, &mut watch);
    let (done, watch) = wanted.unless_failed(done, watch)?;
    let alloc = rt.alloc();
    let stopped = wanted.stopped(alloc, watch.stop());
    let ClearedFile { end, closed: files } = done;
    let cleared = closed(alloc, wanted.db, files);
    match rows_of(alloc, wanted.db, end, stopped) {
        Ok(rows) => cleared.map(|()| rows),
        Err(failure) => {
            write_failure(cleared, &mut console.err);
            Err(failure)
        }
    }
}

/// Takes all rows of a table out of the database in a file, which is opened with its own filter.
fn clear_in<P: Start, W: Observer>(
    rt: &HostRuntime,
    db: &str,
    start: P,
    what: TableToClear<'_>,
    observer: &mut W,
) -> Result<ClearedFile<FileFrom<P>>, Failure>
    ensures clears { IfOk result (λ done. OfHeld None (image_at P.Start) (λ names content.
        ClearsFile (clear_of what.entry.schema.now what.entry.name.now what.entry.gtid
        what.entry.at.now) names content done)) }
{
    let opening = opening(rt, db)?;
    let TableToClear {
        schema,
        name,
        gtid,
        at,
        ..
    } = what;
    match clear_file(rt, db, start, schema, name, gtid, at, observer) {
        Ok(done) => Ok(done),
        Err(unopened) => Err(unopened_database(rt, db, opening, unopened)),
    }
}

/// How many rows went; none where the GTID was executed.
fn rows_of(
    alloc: Global,
    db: &str,
    end: ClearEnd,
    stopped: Result<(), Failure>,
) -> Result<Option<u64>, Failure> {
    let rows = match end {
        ClearEnd::Cleared(rows) => return stopped.map(|()| Some(rows)),
        ClearEnd::Stopped(reason) => return stopped.and(Err(failure_of(alloc, db, reason))),
        ClearEnd::Repeat => Ok(None),
        ClearEnd::NotFollowed => return stopped.and(Err(of_other_tables(alloc, db))),
        ClearEnd::OtherSet => Err(unusable(alloc, db, OTHER_SET)),
        ClearEnd::Failed(cause) => Err(of_database(alloc, db, cause)),
    };
    drop(stopped);
    rows
}

/// The failure of a transaction that was not applied.
pub fn failure_of(alloc: Global, db: &str, reason: Reason) -> Failure {
    match reason {
        Reason::Database(cause) => of_database(alloc, db, cause),
        Reason::Memory => Failure::Memory,
        _ => of_database(alloc, db, StoreFault::Broken),
    }
}

/// Prints a table, and how many rows of it went; nothing where the GTID was executed.
pub fn print_table<W: Write>(
    schema: &[u8],
    name: &[u8],
    rows: Option<u64>,
    out: &mut W,
) -> std::io::Result<()> {
    let Some(rows) = rows else {
        return Ok(());
    };
    write_table(schema, name, out)?;
    writeln!(out, " {rows}")
}

/// Prints how many rows went, or that the GTID was executed.
fn print<W: Write>(rows: Option<u64>, out: &mut W) -> std::io::Result<()> {
    match rows {
        Some(rows) => writeln!(out, "Done {rows}"),
        None => writeln!(out, "Repeat"),
    }
}

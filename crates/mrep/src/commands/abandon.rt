//! `mrep abandon`: a first copy that has begun and not ended is given up, and its rows are taken out.

ghost use Rattle.std.specs.Prelude.{◌≡◌, IfOk};

use crate::commands::clear::{TableToClear, clear_reported, print_table};
use crate::commands::skip::{outcome, record};
use crate::database::open::closed;
use crate::database::reading::list_in;
use crate::report::console::Console;
use crate::report::failure::{DONE, Failure, over_argument, unusable};
use crate::report::wanted::Wanted;
use clap::ArgMatches;
use command_line::parse_table;
use gtid::{Gtid, GtidSet};
use replica::{ChangedFile, ended_mark, given_up_mark, unfinished_copy};
use rows::ExecutedSet;
use sqlite_disk::Unknown;
use std::io::Write;
use watch::Watch;

const FINISHED: &str = "no first copy of tables is unfinished";

/// Gives the first copy up that is unfinished in a database: takes all rows of the given tables out, which are those of the copy, and
/// prints how many went of each. It is recorded first that the copy is given up, so that it is not loaded again, and last that it has
/// ended, so that a command that was killed between is run once more.
pub fn abandon<W: Write, E: Write>(
    rt: &HostRuntime,
    given: &ArgMatches<'_>,
    console: &mut Console<W, E>,
) -> Result<u8, Failure>
    ensures { IfOk result (λ status. status ≡ DONE) }
{
    let wanted = Wanted::of(rt.alloc(), given)?;
    let tables = given.get_strs("SCHEMA.TABLE").unwrap_or(&[]);
    for word in tables {
        let _ = over_argument(rt.alloc(), parse_table(rt.alloc(), word))?;
    }
    let mut executed = ExecutedSet::new(rt.alloc());
    list_in(rt, wanted.db, &mut executed)??;
    give_up(rt, &wanted, &executed.found(), tables, console)?;
    Ok(DONE)
}

/// Gives the copy up that is unfinished by the executed set of the database.
fn give_up<W: Write, E: Write>(
    rt: &HostRuntime,
    wanted: &Wanted<'_, '_>,
    executed: &GtidSet,
    tables: &[&str],
    console: &mut Console<W, E>,
) -> Result<(), Failure> {
    let Some(source) = unfinished_copy(executed) else {
        return Err(unusable(rt.alloc(), wanted.db, FINISHED));
    };
    mark(rt, wanted, given_up_mark(source), console)?;
    let mut number = given_up_mark(source).number;
    for word in tables {
        number = free_below(executed, source, number);
        let Some(gtid) = Gtid::new(source, number) else {
            return Err(Failure::Memory);
        };
        clear_table(rt, wanted, word, gtid, executed, console)?;
    }
    mark(rt, wanted, ended_mark(source), console)
}

/// The greatest number below this one that is not executed of a source.
fn free_below(executed: &GtidSet, source: [u8; 16], number: u64) -> u64 {
    let mut below = number;
    // A `for`, since the prover asks that each loop ends.
    for _ in 0..number {
        below = below.saturating_sub(1);
        match Gtid::new(source, below) {
            Some(gtid) if executed.contains(gtid) => {}
            _ => return below,
        }
    }
    below
}

/// Takes the rows of a table out, with this GTID, and prints how many went.
fn clear_table<W: Write, E: Write>(
    rt: &HostRuntime,
    wanted: &Wanted<'_, '_>,
    word: &str,
    gtid: Gtid,
    at: &GtidSet,
    console: &mut Console<W, E>,
) -> Result<(), Failure> {
    let (schema, name) = over_argument(rt.alloc(), parse_table(rt.alloc(), word))?;
    let what = TableToClear {
        schema: &schema,
        name: &name,
        gtid,
        at,
        is_copy: true,
    };
    let rows = clear_reported(rt, wanted, what, console)?;
    if wanted.feeds_output() {
        print_table(&schema, &name, rows, &mut console.err)?;
    } else {
        print_table(&schema, &name, rows, &mut console.out)?;
    }
    Ok(())
}

/// Records a GTID as executed, which is a mark of the copy.
fn mark<W: Write, E: Write>(
    rt: &HostRuntime,
    wanted: &Wanted<'_, '_>,
    gtid: Gtid,
    console: &mut Console<W, E>,
) -> Result<(), Failure> {
    let (kept, _) = wanted.kept_for_copy(rt)?;
    let (pulse, reports) = wanted.reports(rt, None, &[], &mut console.err)?;
    let reports = wanted.unless_anew(rt, kept, reports)?;
    let mut watch = Watch::new(
        wanted.copy_source(rt),
        &pulse,
        reports,
        &mut console.out,
        &mut console.err,
    );
    let done = record(rt, wanted.db, Unknown, gtid, &mut watch);
    let (done, watch) = wanted.unless_failed(done, watch)?;
    let stopped = wanted.stopped(rt.alloc(), watch.stop());
    let ChangedFile {
        applied: _,
        end,
        closed: files,
    } = done;
    let files = closed(rt.alloc(), wanted.db, files);
    stopped.and(outcome(rt.alloc(), wanted.db, end)).and(files)
}

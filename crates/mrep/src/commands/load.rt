//! `mrep load`: a first copy of tables into a database.

ghost use Rattle.std.specs.Prelude.{◌≤◌, IfOk};
ghost use Rattle.sqlite_wal.specs.Files.{image_at};
ghost use Rattle.store.specs.Entering.{wanted_of, names_for};
ghost use Rattle.replica.specs.Copies.{copy_of};
ghost use Rattle.replica.specs.File.{OfHeld};
ghost use Rattle.replica.specs.LoadFile.{LoadsFile};

use crate::commands::clear::failure_of;
use crate::database::copied_rows::CopyFile;
use crate::database::open::{closed, opening, unopened_database};
use crate::report::console::Console;
use crate::report::failure::{
    DONE, Failure, MEMORY, of_copy, of_database, of_unloadable, unusable, write_failure,
};
use crate::report::wanted::Wanted;
use binlog::Follow;
use clap::ArgMatches;
use first_copy::{RowsFault, Summary};
use formats::Shown;
use gather::Deliveries;
use replica::{ChangeEnd, Ended, FirstCopy, LoadEnd, LoadedFile, Observer, Reason, load_file};
use sqlite::{File, FileFrom, Start};
use sqlite_disk::Unknown;
use std::alloc::Global;
use std::io::Write;
use watch::{Pulse, Watch};

const CHANGED: &str =
    "it was changed while it was loaded: give it up by `mrep abandon`, and load a copy that stays as it is";

/// Loads a first copy of tables, which is read to its end before the database is opened, and prints each table with the number
/// of its rows.
pub fn load<W: Write, E: Write>(
    rt: &HostRuntime,
    given: &ArgMatches<'_>,
    console: &mut Console<W, E>,
) -> Result<u8, Failure>
    ensures { IfOk result (λ status. status ≤ MEMORY) }
{
    let wanted = Wanted::of(rt.alloc(), given)?;
    let file = CopyFile::of(rt, given, "COPY")?;
    load_copy(rt, &wanted, &file, console)?;
    Ok(DONE)
}

/// Loads a copy, and prints its tables.
fn load_copy<W: Write, E: Write>(
    rt: &HostRuntime,
    wanted: &Wanted<'_, '_>,
    file: &CopyFile<'_>,
    console: &mut Console<W, E>,
) -> Result<(), Failure> {
    let (summary, size) = file.summary(rt)?;
    load_summary(rt, wanted, file, &summary, size, console)
}

/// Loads the copy that was read, and prints its tables.
fn load_summary<W: Write, E: Write>(
    rt: &HostRuntime,
    wanted: &Wanted<'_, '_>,
    file: &CopyFile<'_>,
    summary: &Summary,
    size: u64,
    console: &mut Console<W, E>,
) -> Result<(), Failure> {
    load_rows(rt, wanted, file, summary, size, console)?;
    if wanted.feeds_output() {
        summary.print(&mut console.err)?;
    } else {
        summary.print(&mut console.out)?;
    }
    Ok(())
}

/// Loads the copy that was read.
fn load_rows<W: Write, E: Write>(
    rt: &HostRuntime,
    wanted: &Wanted<'_, '_>,
    file: &CopyFile<'_>,
    summary: &Summary,
    size: u64,
    console: &mut Console<W, E>,
) -> Result<(), Failure> {
    let (kept, own) = wanted.kept_for_copy(rt)?;
    let only = wanted.only_for(rt.alloc(), kept, own)?;
    let (pulse, reports) = wanted.reports(rt, Some(size), &[file.name], &mut console.err)?;
    let reports = wanted.unless_anew(rt, kept, reports)?;
    let rows = file.rows(rt, summary, &pulse)?;
    let mut watch = Watch::new(
        wanted.copy_source(rt),
        &pulse,
        reports,
        &mut console.out,
        &mut console.err,
    );
    let done = load_into(
        rt,
        wanted.db,
        Unknown,
        only.as_ref(),
        summary.copy(),
        rows,
        &mut watch,
    );
    let (done, watch) = wanted.unless_failed(done, watch)?;
    let stopped = wanted.stopped(rt.alloc(), watch.stop());
    report_end(rt, &pulse, size, done.applied, &mut console.err);
    concluded(
        rt.alloc(),
        wanted.db,
        file.name,
        done,
        stopped,
        &mut console.err,
    )
}

/// What a load comes to: `db` is the name of the database, `name` that of the copy. If it was not done, a failure of closing the
/// database is only reported.
fn concluded<E: Write>(
    alloc: Global,
    db: &str,
    name: &str,
    done: LoadedFile<RowsFault, File>,
    stopped: Result<(), Failure>,
    err: &mut E,
) -> Result<(), Failure> {
    let LoadedFile {
        applied,
        end,
        closed: files,
    } = done;
    let files = closed(alloc, db, files);
    match outcome(alloc, db, name, end).and(stopped) {
        Ok(()) if applied == 0 => {
            let _ = writeln!(err, "mrep: {}: none of its rows is new", Shown(name));
            files
        }
        Ok(()) => files,
        Err(failure) => {
            write_failure(files, err);
            Err(failure)
        }
    }
}

/// Loads a copy into the database in a file.
fn load_into<P: Start, I: Deliveries + Drop, W: Observer>(
    rt: &HostRuntime,
    db: &str,
    start: P,
    only: Option<&Follow>,
    copy: FirstCopy<'_>,
    rows: I,
    observer: &mut W,
) -> Result<LoadedFile<I::Error, FileFrom<P>>, Failure>
    ensures loads { IfOk result (λ done. OfHeld (wanted_of only.entry) (image_at P.Start)
        (λ names content. LoadsFile (names_for (wanted_of only.entry)) names content
        (copy_of (I.supply rows) copy.entry) done)) }
{
    let opening = opening(rt, db)?;
    match load_file(rt, db, start, only, copy, rows, observer) {
        Ok(done) => Ok(done),
        Err(unopened) => Err(unopened_database(rt, db, opening, unopened)),
    }
}

/// Reports that a copy of so many bytes is done with, and how many of its transactions were applied.
fn report_end<E: Write>(rt: &HostRuntime, pulse: &Pulse, size: u64, applied: u64, err: &mut E) {
    let end = Ended {
        reason: Reason::EndOfInput,
        at: size,
        applied,
    };
    pulse.ended(rt, &end, err);
}

/// What the end of a load comes to.
fn outcome(alloc: Global, db: &str, name: &str, end: LoadEnd<RowsFault>) -> Result<(), Failure> {
    Err(match end {
        LoadEnd::Changed(ChangeEnd::AllGiven) | LoadEnd::HadEnded => return Ok(()),
        LoadEnd::Refused(why) => of_unloadable(alloc, db, &why),
        LoadEnd::Changed(ChangeEnd::NotGiven(RowsFault::Copy(fault))) => {
            of_copy(alloc, name, &fault)
        }
        LoadEnd::Changed(ChangeEnd::NotGiven(RowsFault::Changed)) => {
            unusable(alloc, name, CHANGED)
        }
        LoadEnd::Changed(ChangeEnd::Stopped(reason)) => failure_of(alloc, db, reason),
        LoadEnd::Changed(ChangeEnd::TooMany) => Failure::Memory,
        LoadEnd::Changed(ChangeEnd::NotAdopted(cause)) => of_database(alloc, db, cause),
    })
}

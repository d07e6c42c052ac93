//! `mrep admit`: more tables that a database follows.

ghost use Rattle.std.specs.Prelude.{◌≡◌, None, IfOk};
ghost use Rattle.sqlite_wal.specs.Files.{image_at};
ghost use Rattle.replica.specs.Admit.{AdmitsInFiles};
ghost use Rattle.replica.specs.File.{OfHeld};

use crate::database::copied_rows::CopyFile;
use crate::database::open::{closed, opening, unopened_database};
use crate::database::reading::{FOREIGN, Kept, kept_in};
use crate::report::failure::{
    DONE, Failure, of_database, of_followed, over_argument, unusable, write_asked,
};
use crate::report::wanted::has_pattern;
use binlog::Follow;
use clap::ArgMatches;
use command_line::{parse_tables, word};
use files::Found;
use messages::{GIVEN_UP, OTHER_SET, UNFINISHED};
use replica::{Admission, AdmitFault, CopyBegin, InFile, admit_file};
use sqlite::{FileFrom, Start};
use sqlite_disk::Unknown;
use std::alloc::Global;
use std::io;
use std::io::Write;

const NO_DATABASE: &str =
    "there is no database: follow, replay and load make one, of the tables of --only";

const ALL_FOLLOWED: &str = "it follows all tables, also those that are made later";

const BY_NAME: &str =
    "it keeps rows, and follows each table by its name: SCHEMA.* is for a database that was made with --feed-only";

const STAR: &str = "a table of the copy is named *, which would stand for all tables of its schema";

const HAS_ENDED: &str = "this copy was loaded to its end";

const HAS_BEGUN: &str = "this copy has begun: load it";

const NO_TABLES: &str = "the copy has no rows, and so no tables: admit them by their names";

/// Has a database follow more tables, and prints them.
pub fn admit<W: Write>(rt: &HostRuntime, given: &ArgMatches<'_>, out: &mut W) -> Result<u8, Failure>
    ensures { IfOk result (λ status. status ≡ DONE) }
{
    let db = word(given, "db");
    if given.get_str("copy").is_some() {
        admit_copied(rt, given, db, out)?;
        return Ok(DONE);
    }
    let alloc = rt.alloc();
    let words = given.get_strs("SCHEMA.TABLE").unwrap_or(&[]);
    let tables = over_argument(alloc, parse_tables(alloc, words))?;
    check(rt, db)?;
    if has_pattern(&tables) && !matches!(kept_in(rt, db)?.0, Kept::None { .. }) {
        return Err(unusable(alloc, db, BY_NAME));
    }
    admit_in(rt, db, &tables, None)?;
    print(&tables, out)?;
    Ok(DONE)
}

/// Has a database follow the tables of a copy, which is begun as they are admitted, and prints them.
fn admit_copied<W: Write>(
    rt: &HostRuntime,
    given: &ArgMatches<'_>,
    db: &str,
    out: &mut W,
) -> Result<(), Failure> {
    check(rt, db)?;
    let file = CopyFile::of(rt, given, "copy")?;
    let (summary, _) = file.summary(rt)?;
    let copy = summary.copy();
    if has_pattern(copy.tables) {
        return Err(unusable(rt.alloc(), file.name, STAR));
    }
    let begin = CopyBegin {
        gtids: copy.gtids,
        first: copy.first,
    };
    admit_in(rt, db, copy.tables, Some(begin))?;
    print(copy.tables, out)?;
    Ok(())
}

/// Whether there is a database of this name.
fn check(rt: &HostRuntime, db: &str) -> Result<(), Failure> {
    match Found::under(rt, db)? {
        Found::Nothing => Err(unusable(rt.alloc(), db, NO_DATABASE)),
        Found::Foreign => Err(unusable(rt.alloc(), db, FOREIGN)),
        _ => Ok(()),
    }
}

/// Adds tables to those that the database in a file follows, with the copy that they come with, if they come with one.
fn admit_in(
    rt: &HostRuntime,
    db: &str,
    tables: &Follow,
    copy: Option<CopyBegin<'_>>,
) -> Result<(), Failure> {
    let Ok(unkept) = Follow::not_kept(rt.alloc(), tables.names()) else {
        return Err(Failure::Memory);
    };
    let ask = Admission {
        tables,
        unkept: &unkept,
        copy,
    };
    let InFile {
        done: admitted,
        closed: files,
    } = admit_to(rt, db, Unknown, ask)?;
    let files = closed(rt.alloc(), db, files);
    match admitted {
        Ok(()) => files,
        Err(fault) => {
            drop(files);
            Err(unadmitted(rt.alloc(), db, fault))
        }
    }
}

/// Adds tables to those that the database in a file follows.
fn admit_to<P: Start>(
    rt: &HostRuntime,
    db: &str,
    start: P,
    ask: Admission<'_>,
) -> Result<InFile<Result<(), AdmitFault>, FileFrom<P>>, Failure>
    ensures admits { IfOk result (λ made. OfHeld None (image_at P.Start)
        (λ names content. AdmitsInFiles names content ask.entry.tables.now ask.entry.unkept.now
        ask.entry.copy made.done made.closed)) }
{
    let opening = opening(rt, db)?;
    match admit_file(rt, db, start, ask) {
        Ok(made) => Ok(made),
        Err(unopened) => Err(unopened_database(rt, db, opening, unopened)),
    }
}

/// Why tables were not admitted to the database of this name.
fn unadmitted(alloc: Global, db: &str, fault: AdmitFault) -> Failure {
    match fault {
        AdmitFault::Failed(cause) => of_database(alloc, db, cause),
        AdmitFault::Unfinished(_) => unusable(alloc, db, UNFINISHED),
        AdmitFault::AllFollowed => unusable(alloc, db, ALL_FOLLOWED),
        AdmitFault::Followed(table) => of_followed(alloc, db, &table),
        AdmitFault::GivenUp => unusable(alloc, db, GIVEN_UP),
        AdmitFault::HasEnded => unusable(alloc, db, HAS_ENDED),
        AdmitFault::HasBegun => unusable(alloc, db, HAS_BEGUN),
        AdmitFault::NoTables => unusable(alloc, db, NO_TABLES),
        AdmitFault::OtherSet => unusable(alloc, db, OTHER_SET),
    }
}

/// Prints the names of tables, each on a line.
fn print<W: Write>(tables: &Follow, out: &mut W) -> io::Result<()> {
    for name in tables.names() {
        write_asked(&name.0, &name.1, out)?;
        writeln!(out)?;
    }
    Ok(())
}

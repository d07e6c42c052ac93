//! `mrep gtids`, `mrep missing` and `mrep adopt`: the executed set of a database.

ghost use Rattle.std.specs.Prelude.{◌≡◌, None, IfOk};
ghost use Rattle.sqlite_wal.specs.Files.{image_at};
ghost use Rattle.replica.specs.Adopt.{AdoptsTo, IsLeftOfAdopt};
ghost use Rattle.replica.specs.File.{OfHeld};
ghost use Rattle.replica.specs.Work.{WorksInFiles};

use crate::database::open::{closed, opening, unopened_database};
use crate::database::reading::list_in;
use crate::report::failure::{DONE, Failure, of_database, over_argument, unusable};
use clap::ArgMatches;
use command_line::{parse_set, word};
use formats::text_of;
use gtid::GtidSet;
use messages::UNFINISHED;
use replica::{AdoptFault, Adopting, InFile, in_file};
use rows::{ExecutedSet, MissingSet};
use sqlite::{FileFrom, Start};
use sqlite_disk::Unknown;
use std::alloc::Global;
use std::io::Write;

const BEGINS: &str =
    "the set says that a first copy of tables has begun, and not that it has ended: adopt the whole set of the database that has it";

/// Prints the executed set.
pub fn gtids<W: Write>(
    rt: &HostRuntime,
    given: &ArgMatches<'_>,
    out: &mut W,
) -> Result<(), Failure> {
    let mut executed = ExecutedSet::new(rt.alloc());
    list_in(rt, word(given, "db"), &mut executed)??;
    print_set(rt.alloc(), &executed.found(), out)
}

/// Prints what of a set is not executed.
pub fn missing<W: Write>(
    rt: &HostRuntime,
    given: &ArgMatches<'_>,
    out: &mut W,
) -> Result<(), Failure> {
    let asked = asked(rt.alloc(), given)?;
    let mut missing = MissingSet::new(asked);
    list_in(rt, word(given, "db"), &mut missing)??;
    print_set(rt.alloc(), &missing.missing(), out)
}

/// Adds a set to the executed set, and prints what was new of it.
pub fn adopt<W: Write>(rt: &HostRuntime, given: &ArgMatches<'_>, out: &mut W) -> Result<u8, Failure>
    ensures { IfOk result (λ status. status ≡ DONE) }
{
    let asked = asked(rt.alloc(), given)?;
    let added = adopt_in(rt, word(given, "db"), &asked)?;
    print_set(rt.alloc(), &added, out)?;
    Ok(DONE)
}

/// The set that the arguments name.
fn asked(alloc: Global, given: &ArgMatches<'_>) -> Result<GtidSet, Failure> {
    over_argument(alloc, parse_set(alloc, "SET", word(given, "SET")))
}

/// Adds a set to the executed set of the database in a file, which is opened with its own filter. Returns what was new of it.
fn adopt_in(rt: &HostRuntime, db: &str, asked: &GtidSet) -> Result<GtidSet, Failure> {
    let InFile {
        done: added,
        closed: files,
    } = adopt_to(rt, db, Unknown, asked)?;
    let files = closed(rt.alloc(), db, files);
    match added {
        Ok(added) => files.map(|()| added),
        Err(fault) => {
            drop(files);
            Err(unadopted(rt.alloc(), db, fault))
        }
    }
}

/// Adds a set to the executed set of the database in a file.
fn adopt_to<P: Start>(
    rt: &HostRuntime,
    db: &str,
    start: P,
    asked: &GtidSet,
) -> Result<InFile<Result<GtidSet, AdoptFault>, FileFrom<P>>, Failure>
    ensures adopts { IfOk result (λ made. OfHeld None (image_at P.Start) (λ names content.
        WorksInFiles names (AdoptsTo content asked.now made.done)
        (IsLeftOfAdopt content asked.now made.done) made.closed)) }
{
    let opening = opening(rt, db)?;
    match in_file(rt, db, start, 0, None, &mut Adopting { gtids: asked }) {
        Ok(made) => Ok(made),
        Err(unopened) => Err(unopened_database(rt, db, opening, unopened)),
    }
}

/// Why a set was not added to the executed set of the database of this name.
fn unadopted(alloc: Global, db: &str, fault: AdoptFault) -> Failure {
    match fault {
        AdoptFault::Failed(cause) => of_database(alloc, db, cause),
        AdoptFault::Unfinished(_) => unusable(alloc, db, UNFINISHED),
        AdoptFault::Begins(_) => unusable(alloc, db, BEGINS),
    }
}

/// Prints the text of a set.
fn print_set<W: Write>(alloc: Global, ids: &GtidSet, out: &mut W) -> Result<(), Failure> {
    let text = text_of(alloc, ids)?;
    writeln!(out, "{text}")?;
    Ok(())
}

//! `mrep copy`: a copy of a database, made at any moment, also while another process writes it.
//!
//! The database is not opened and not locked, and nothing is written to it. [`files::CopyPart`] copies its files.
//! The copy is opened, and so tested, as any file is, and closed, which leaves one file; only then it gets its name.
//! `mrep export` makes its file in the same way, with another content.

ghost use Rattle.std.specs.Prelude.{◌≡◌, IfOk};

use crate::commands::export_file::fill_tables;
use crate::database::open::{lock, test};
use crate::report::failure::{DONE, Failure, of_system, over_file, unusable};
use clap::ArgMatches;
use command_line::word;
use export::Export;
use files::{CopyPart, FileNames, is_there, keep_one_name, lock_alone, make_part};

const TOO_FAST: &str = "no whole copy could be made, since its WAL file was begun anew each time";

/// A file that is made out of a database.
#[derive(Clone, Copy)]
pub struct Target<'a> {
    /// The database.
    pub db: &'a str,
    /// The name of the file.
    pub to: &'a str,
    /// Whether one that is there is replaced.
    pub force: bool,
}

impl<'a> Target<'a> {
    /// What the arguments name.
    pub fn of(given: &ArgMatches<'a>) -> Target<'a> {
        Target {
            db: word(given, "db"),
            to: word(given, "TO"),
            force: given.get_flag("force"),
        }
    }
}

/// Copies a database to a file. One that is there is replaced only if that is asked for, and no other process has it open
/// as a database or is about to open it. After a failure that file is as it was, and no other is left.
pub fn copy(rt: &HostRuntime, given: &ArgMatches<'_>) -> Result<u8, Failure>
    ensures { IfOk result (λ status. status ≡ DONE) }
{
    make_file(rt, Target::of(given), None)?;
    Ok(DONE)
}

/// Makes a file as [`copy`] does: a copy of the database, or tables with its rows. Returns what is to be reported of tables
/// without rows.
pub fn make_file(
    rt: &HostRuntime,
    target: Target<'_>,
    export: Option<Export>,
) -> Result<Vec<u8>, Failure> {
    let from = checked(rt, target)?;
    // What comes to have the name from now on is not replaced: it is not locked.
    let replaces = target.force && is_there(rt, target.to).unwrap_or(false);
    if replaces {
        replace(rt, target, &from, export)
    } else {
        make_beside(rt, target, &from, false, export)
    }
}

/// The names of a database that can be copied to its target, as far as that is known before.
fn checked(rt: &HostRuntime, target: Target<'_>) -> Result<FileNames, Failure> {
    let Target { db, to, force } = target;
    let alloc = rt.alloc();
    let from = over_file(alloc, db, FileNames::of(rt, db))?;
    over_file(alloc, db, from.check(rt))?;
    over_file(alloc, to, from.check_target(rt, to, force))?;
    keep_one_name(rt, to)?;
    Ok(from)
}

/// Makes a file of the name of one that is there, which no other process has open meanwhile.
fn replace(
    rt: &HostRuntime,
    target: Target<'_>,
    from: &FileNames,
    export: Option<Export>,
) -> Result<Vec<u8>, Failure> {
    let name_lock = over_file(rt.alloc(), target.to, lock_alone(rt, target.to))?;
    let replaced = lock(rt, target.to)?;
    let made = make_beside(rt, target, from, true, export);
    drop(replaced);
    drop(name_lock);
    made
}

/// Makes a file, after another look at its name once nobody else makes one of that name. No file is left after a failure.
fn make_beside(
    rt: &HostRuntime,
    target: Target<'_>,
    from: &FileNames,
    replaces: bool,
    export: Option<Export>,
) -> Result<Vec<u8>, Failure> {
    let Target { to, force, .. } = target;
    let part = over_file(rt.alloc(), to, make_part(rt, from, to))?;
    let made = match over_file(rt.alloc(), to, from.check_target(rt, to, force)) {
        Ok(()) => make(rt, target, from, &part, replaces, export),
        Err(failure) => Err(failure),
    };
    part.remove(rt, made.is_ok());
    made
}

/// Makes a file under another name, and gives it its own.
fn make(
    rt: &HostRuntime,
    target: Target<'_>,
    from: &FileNames,
    part: &CopyPart,
    replaces: bool,
    export: Option<Export>,
) -> Result<Vec<u8>, Failure> {
    let Target { db, to, .. } = target;
    let notes = match export {
        Some(export) => fill_tables(rt, target, from, part, export)?,
        None => {
            fill(rt, target, from, part)?;
            test(rt, part.names.file.as_str(), to, db)?;
            Vec::new(rt.alloc())
        }
    };
    over_file(rt.alloc(), to, part.put(rt, to, replaces))?;
    Ok(notes)
}

/// Copies the files of a database.
pub fn fill(
    rt: &HostRuntime,
    target: Target<'_>,
    from: &FileNames,
    part: &CopyPart,
) -> Result<(), Failure> {
    let Target { db, to, .. } = target;
    if let Err(cause) = from.try_read(rt) {
        return Err(of_system(rt.alloc(), db, cause));
    }
    match part.fill(rt, from) {
        Ok(true) => Ok(()),
        Ok(false) => Err(unusable(rt.alloc(), db, TOO_FAST)),
        Err(cause) => Err(of_system(rt.alloc(), to, cause)),
    }
}

//! `mrep export`: the rows of described tables as tables of a new SQLite database.
//!
//! The database is read as `mrep copy` reads it: its files are copied beside the file that is made, and the copy, which is opened
//! and closed, is removed afterwards.

ghost use Rattle.std.specs.Prelude.{◌≡◌, IfOk};

use crate::commands::copy::{Target, fill, make_file};
use crate::database::description::read_description;
use crate::database::exporter::{ExportedCopy, export_rows};
use crate::report::failure::{
    DONE, Failure, of_system, of_tables, over_argument, over_file, unusable,
};
use binlog::Follow;
use clap::ArgMatches;
use command_line::{parse_schema, parse_tables, word};
use export::{Export, ExportTables};
use files::{CopyPart, FileFault, FileNames, lead_to_one, make_part};
use rows::Chosen;
use std::io;
use std::io::Write;

const DESCRIPTION: &str = "it is the description of the columns";

const ROWS_PART: &str =
    "the file with .rows.part after this name cannot be made: it is in use, no copy, or the database itself";

/// Makes a database with the rows of described tables, and reports of which that are named there was none, and which the
/// filter leaves out. The file is made as that of a copy.
pub fn export<E: Write>(
    rt: &HostRuntime,
    given: &ArgMatches<'_>,
    err: &mut E,
) -> Result<u8, Failure>
    ensures { IfOk result (λ status. status ≡ DONE) }
{
    let target = Target::of(given);
    let name = word(given, "columns");
    if lead_to_one(rt, target.to, name) {
        return Err(unusable(rt.alloc(), target.to, DESCRIPTION));
    }
    let export = wanted(rt, given, name)?;
    let notes = make_file(rt, target, Some(export))?;
    let _ = err.write_all(&notes);
    Ok(DONE)
}

/// Which tables the arguments ask for, of the description in the file of this name.
fn wanted(rt: &HostRuntime, given: &ArgMatches<'_>, name: &str) -> Result<Export, Failure> {
    let alloc = rt.alloc();
    let only = given.get_strs("only").unwrap_or(&[]);
    let only = over_argument(alloc, parse_tables(alloc, only))?;
    let bare = match given.get_str("schema") {
        Some(word) => Some(over_argument(alloc, parse_schema(alloc, word))?),
        None => None,
    };
    let has_place = given.get_flag("place");
    let tables = tables(rt, name, &only, bare.as_deref(), has_place)?;
    Ok(Export {
        tables,
        chosen: Chosen::new(alloc, only)?,
    })
}

/// The tables of the description in the file of this name, as far as they are asked for.
fn tables(
    rt: &HostRuntime,
    name: &str,
    only: &Follow,
    bare: Option<&[u8]>,
    has_place: bool,
) -> Result<ExportTables, Failure> {
    let described = read_description(rt, name)?;
    match ExportTables::new(rt.alloc(), described, only, bare, has_place) {
        Ok(tables) => Ok(tables),
        Err(fault) => Err(of_tables(rt.alloc(), name, &fault)),
    }
}

/// Makes the tables of a file that is made, out of a copy of the database, which is removed. Returns what is to be reported of
/// tables without rows.
pub fn fill_tables(
    rt: &HostRuntime,
    target: Target<'_>,
    from: &FileNames,
    part: &CopyPart,
    export: Export,
) -> Result<Vec<u8>, Failure> {
    let to = target.to;
    let rows = format!(in rt.alloc(); "{to}.rows")?;
    let source = match make_part(rt, from, rows.as_str()) {
        Err(FileFault::Unusable(_)) => return Err(unusable(rt.alloc(), to, ROWS_PART)),
        made => over_file(rt.alloc(), to, made)?,
    };
    let done = fill_from(rt, target, from, part, &source, export);
    source.remove(rt, false);
    done
}

/// Copies a database, and makes the tables out of the copy. The file has no WAL file, and the mode of the database.
fn fill_from(
    rt: &HostRuntime,
    target: Target<'_>,
    from: &FileNames,
    part: &CopyPart,
    source: &CopyPart,
    export: Export,
) -> Result<Vec<u8>, Failure> {
    fill(rt, target, from, source)?;
    let Target { db, to, .. } = target;
    let copied = ExportedCopy {
        copy: source.names.file.as_str(),
        to,
        db,
        has_place: export.tables.has_place(),
    };
    let notes = export_rows(rt, copied, part.names.file.as_str(), export)?;
    match finish(part, source) {
        Ok(()) => Ok(notes),
        Err(cause) => Err(of_system(rt.alloc(), to, cause)),
    }
}

/// Makes a database one that is only read: without WAL mode, and with the file mode of another.
fn finish(part: &CopyPart, other: &CopyPart) -> io::Result<()> {
    part.leave_wal_mode()?;
    part.file
        .set_permissions(other.file.metadata()?.permissions())
}

//! `mrep verify`: the rows of a table beside those that the `mysql` client has printed.

ghost use Rattle.std.specs.Prelude.{◌≤◌, IfOk};

use crate::commands::note_if_absent;
use crate::commands::show::show_rows;
use crate::database::description::read_tables;
use crate::database::printer::Selection;
use crate::report::console::Console;
use crate::report::failure::{DONE, Failure, MEMORY, REFUSED, of_system, of_tables, over_argument};
use binlog::Follow;
use clap::ArgMatches;
use command_line::{parse_tables, word};
use export::check_named;
use files::Input;
use formats::{Encoding, Format};
use rows::{Chosen, DescribedTables, compare};
use std::io::{Read, Write};

/// Prints the rows that one side lacks: `<` before those that the file has alone, `>` before those that the database has
/// alone. The status is 0 if there are none, and 1 otherwise.
pub fn verify<W: Write, E: Write>(
    rt: &HostRuntime,
    given: &ArgMatches<'_>,
    console: &mut Console<W, E>,
) -> Result<u8, Failure>
    ensures { IfOk result (λ status. status ≤ MEMORY) }
{
    let (db, file) = (word(given, "db"), word(given, "ROWS"));
    let only = parse_tables(rt.alloc(), &[word(given, "SCHEMA.TABLE")]);
    let only = over_argument(rt.alloc(), only)?;
    let described = described(rt, word(given, "columns"), &only)?;
    let text = read_text(rt, file)?;
    let printed = printed(rt, db, only, described, console)?;
    let found = compare(rt.alloc(), &text, &printed, &mut console.out)?;
    if found.are_none() {
        return Ok(DONE);
    }
    found.note(file, db, &mut console.err);
    Ok(REFUSED)
}

/// The tables whose description a file has. These must be among them.
fn described(rt: &HostRuntime, name: &str, only: &Follow) -> Result<DescribedTables, Failure> {
    let described = read_tables(rt, name)?;
    match check_named(rt.alloc(), &described, only) {
        Ok(()) => Ok(described),
        Err(fault) => Err(of_tables(rt.alloc(), name, &fault)),
    }
}

/// The rows of a table, as `mrep show` prints them.
fn printed<W: Write, E: Write>(
    rt: &HostRuntime,
    db: &str,
    only: Follow,
    described: DescribedTables,
    console: &mut Console<W, E>,
) -> Result<Vec<u8>, Failure> {
    let selection = Selection {
        chosen: Chosen::new(rt.alloc(), only)?,
        format: Format::Tsv,
        encoding: Encoding::Base64,
    };
    let mut rows = Vec::new(rt.alloc());
    match show_rows(
        rt,
        db,
        selection,
        Some(&described),
        &mut rows,
        &mut console.err,
    ) {
        Ok(()) => {
            note_if_absent(rt, db, console);
            Ok(rows)
        }
        Err(failure) => Err(failure),
    }
}

/// All of a file, or of standard input.
fn read_text(rt: &HostRuntime, name: &str) -> Result<Vec<u8>, Failure> {
    let mut text = Vec::new(rt.alloc());
    let read = match Input::open(rt, name) {
        Ok(mut input) => input.read_to_end(&mut text),
        Err(cause) => Err(cause),
    };
    match read {
        Ok(_) => Ok(text),
        Err(cause) => Err(of_system(rt.alloc(), name, cause)),
    }
}

//! `mrep show`, `mrep tables` and `mrep info`: the rows of a database, how many there are of each table, and what else is known of it.

use crate::database::description::read_tables;
use crate::database::printer::{Selection, print_rows, print_tallies};
use crate::report::console::Console;
use crate::report::failure::{Failure, of_argument, over_argument};
use clap::ArgMatches;
use command_line::{ArgumentFault, parse_encoding, parse_tables, word};
use formats::{Format, format_of};
use rows::{Chosen, DescribedTables};
use std::fs;
use std::io::Write;

/// Prints the filter, and a line for each table with rows.
pub fn tables<W: Write>(
    rt: &HostRuntime,
    given: &ArgMatches<'_>,
    out: &mut W,
) -> Result<(), Failure> {
    print_tallies(rt, word(given, "db"), Format::Text, None, out)
}

/// Prints what is known of a database as a whole.
pub fn info<W: Write>(
    rt: &HostRuntime,
    given: &ArgMatches<'_>,
    out: &mut W,
) -> Result<(), Failure> {
    let name = word(given, "db");
    let wal = format!(in rt.alloc(); "{name}-wal")?;
    let sizes = [size_of(rt, name), size_of(rt, wal.as_str())];
    let format = format_of(given.get_str("format"));
    print_tallies(rt, name, format, Some(sizes), out)
}

/// The size of the file of a name; 0 where there is none.
fn size_of(rt: &HostRuntime, name: &str) -> u64 {
    match fs::metadata(rt, name) {
        Ok(metadata) => metadata.len(),
        Err(_) => 0,
    }
}

/// Prints the rows of the tables that the arguments name, in the format that they name.
pub fn show<W: Write, E: Write>(
    rt: &HostRuntime,
    given: &ArgMatches<'_>,
    console: &mut Console<W, E>,
) -> Result<(), Failure> {
    let alloc = rt.alloc();
    let format = format_of(given.get_str("format"));
    let described = given.get_str("columns");
    if described.is_none() && format.needs_columns() {
        return Err(of_argument(alloc, ArgumentFault::Columns));
    }
    let encoding = parse_encoding(given.get_str("bytes"), format, described.is_some());
    let encoding = over_argument(alloc, encoding)?;
    let only = given.get_strs("only").unwrap_or(&[]);
    let only = over_argument(alloc, parse_tables(alloc, only))?;
    let described = match described {
        Some(name) => Some(read_tables(rt, name)?),
        None => None,
    };
    let selection = Selection {
        chosen: Chosen::new(alloc, only)?,
        format,
        encoding,
    };
    show_rows(
        rt,
        word(given, "db"),
        selection,
        described.as_ref(),
        &mut console.out,
        &mut console.err,
    )
}

/// Prints the rows of a database, and reports of which of the tables that are named there was none.
pub fn show_rows<W: Write, E: Write>(
    rt: &HostRuntime,
    db: &str,
    selection: Selection,
    described: Option<&DescribedTables>,
    out: &mut W,
    err: &mut E,
) -> Result<(), Failure> {
    let chosen = print_rows(rt, db, selection, described, out)?;
    out.flush()?;
    let _ = chosen.note_missing(db, err);
    Ok(())
}

//! `mrep select`: the statements that print a first copy of tables.

ghost use Rattle.std.specs.Prelude.{◌≡◌, IfOk};

use crate::database::description::read_tables;
use crate::report::failure::{DONE, Failure, of_tables, over_argument};
use binlog::Follow;
use clap::ArgMatches;
use command_line::{parse_tables, word};
use export::{TablesFault, check_named, check_texts};
use first_copy::write_select;
use rows::DescribedTables;
use std::alloc::Global;
use std::io::Write;

/// Prints the statements for the tables that are named, or for all that are described if none is.
pub fn select<W: Write>(
    rt: &HostRuntime,
    given: &ArgMatches<'_>,
    out: &mut W,
) -> Result<u8, Failure>
    ensures { IfOk result (λ status. status ≡ DONE) }
{
    let alloc = rt.alloc();
    let name = word(given, "columns");
    let only = given.get_strs("only").unwrap_or(&[]);
    let only = over_argument(alloc, parse_tables(alloc, only))?;
    let mut described = read_tables(rt, name)?;
    print(alloc, name, &mut described, &only, out)
}

/// Prints the statements for these of the tables that a file describes, or for all if none is named.
fn print<W: Write>(
    alloc: Global,
    name: &str,
    described: &mut DescribedTables,
    only: &Follow,
    out: &mut W,
) -> Result<u8, Failure>
    ensures { IfOk result (λ status. status ≡ DONE) }
{
    if let Err(fault) = keep(alloc, described, only) {
        return Err(of_tables(alloc, name, &fault));
    }
    write_select(described, out)?;
    Ok(DONE)
}

/// Keeps these of the described tables, or all if none is named. The client has to print them as they are.
fn keep(alloc: Global, described: &mut DescribedTables, only: &Follow) -> Result<(), TablesFault> {
    check_named(alloc, described, only)?;
    described.keep(only, None);
    check_texts(alloc, described)
}

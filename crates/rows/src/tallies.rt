//! How many rows of each table a database has.

use crate::facts::{Facts, write_facts, write_filter, write_members};
use binlog::Follow;
use formats::{Format, write_table};
use std::alloc::Global;
use std::io;
use std::io::Write;

/// The rows of a table: how many distinct ones, and how many with their copies.
#[derive(Drop)]
struct Tally {
    schema: Vec<u8>,
    table: Vec<u8>,
    rows: u64,
    copies: u128,
}

/// Counts the rows of each table, and writes its line, or its object of JSON in a list, once the next table begins.
#[derive(Drop)]
pub struct Tallies<'o, W> {
    alloc: Global,
    format: Format,
    /// Whether the list has an object.
    has_one: bool,
    /// The table of the last row.
    last: Option<Tally>,
    out: &'o mut W,
}

impl<'o, W: Write> Tallies<'o, W> {
    /// Nothing is counted, and nothing written to this output.
    pub fn new(alloc: Global, format: Format, out: &'o mut W) -> Tallies<'o, W> {
        Tallies {
            alloc,
            format,
            has_one: false,
            last: None,
            out,
        }
    }

    /// Writes what is known of a database if that is given, and its filter, before its rows are counted.
    pub fn begin(&mut self, filter: &Follow, facts: Option<Facts<'_>>) -> io::Result<()> {
        if let Some(facts) = facts {
            write_facts(self.alloc, facts, self.format, self.out)?;
        }
        match self.format {
            Format::Json => Ok(()),
            _ => write_filter(filter, self.out),
        }
    }

    /// Counts a row of a table with this many copies. The rows of a table come one after the other.
    pub fn count(&mut self, schema: &[u8], table: &[u8], copies: u64) -> io::Result<()> {
        if self.add(schema, table, copies) {
            return Ok(());
        }
        self.write_last()?;
        self.last = Some(Tally {
            schema: Vec::from_slice(self.alloc, schema)?,
            table: Vec::from_slice(self.alloc, table)?,
            rows: 1,
            copies: copies as u128,
        });
        Ok(())
    }

    /// Writes the line of the last row's table, if there was a row, and ends the list.
    pub fn finish(&mut self) -> io::Result<()> {
        self.write_last()?;
        match self.format {
            Format::Json => self.out.write_all(b"]}\n"),
            _ => Ok(()),
        }
    }

    /// Writes the line or the object of the last row's table, if there was a row.
    fn write_last(&mut self) -> io::Result<()> {
        let Some(last) = &self.last else {
            return Ok(());
        };
        if self.format != Format::Json {
            return write_tally(last, self.out);
        }
        if self.has_one {
            self.out.write_all(b",")?;
        }
        self.has_one = true;
        write_members(self.alloc, &last.schema, &last.table, self.out)?;
        write!(
            self.out,
            ",\"rows\":{},\"copies\":{}}}",
            last.rows, last.copies
        )
    }

    /// Adds a row to the tally of the last row's table. Returns whether it is of that table.
    fn add(&mut self, schema: &[u8], table: &[u8], copies: u64) -> bool {
        match &mut self.last {
            Some(last) if is_of(last, schema, table) => {
                last.rows = last.rows.saturating_add(1);
                last.copies = last.copies.saturating_add(copies as u128);
                true
            }
            _ => false,
        }
    }
}

/// Whether a table is that of the tally.
fn is_of(tally: &Tally, schema: &[u8], table: &[u8]) -> bool {
    tally.schema.as_slice() == schema && tally.table.as_slice() == table
}

/// Writes the line of a table.
fn write_tally<W: Write>(tally: &Tally, out: &mut W) -> io::Result<()> {
    write_table(&tally.schema, &tally.table, out)?;
    writeln!(out, " {} {}", tally.rows, tally.copies)
}

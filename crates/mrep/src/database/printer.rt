//! The rows of a database, in one of the formats, and how many there are of each table.

use crate::database::reading::{list_in, list_rows_in};
use crate::report::failure::{Failure, of_row};
use binlog::Follow;
use formats::{Encoding, Format};
use gtid::{Gtid, GtidSet};
use replica::unfinished_copy;
use rows::{
    Chosen, DescribedTables, Facts, Layout, Records, RowError, Tallies, TextRows, TypedRows,
    write_object,
};
use std::alloc::Global;
use std::io;
use std::io::Write;
use store::{Listed, Lister, Visitor};

/// Which rows are printed, and how.
#[derive(Drop)]
pub struct Selection {
    /// The tables whose rows are printed.
    pub chosen: Chosen,
    pub format: Format,
    pub encoding: Encoding,
}

/// Prints rows, with the number of copies or as often as there are, those of described tables with names and types if there are any.
/// Returns of which of the tables there was a row.
pub fn print_rows<W: Write>(
    rt: &HostRuntime,
    name: &str,
    mut selection: Selection,
    described: Option<&DescribedTables>,
    out: &mut W,
) -> Result<Chosen, Failure> {
    let printed = match (described, selection.format) {
        (Some(tables), _) => print_typed(rt, name, tables, &mut selection, out),
        (None, Format::Json) => print_objects(rt, name, &mut selection, out),
        (None, Format::Csv) => return print_records(rt, name, selection, out),
        (None, _) => return print_lines(rt, name, selection.chosen, out),
    };
    match printed {
        Ok(()) => Ok(selection.chosen),
        Err(failure) => Err(failure),
    }
}

/// Prints a line of text for each row.
fn print_lines<W: Write>(
    rt: &HostRuntime,
    name: &str,
    chosen: Chosen,
    out: &mut W,
) -> Result<Chosen, Failure> {
    let mut rows = TextRows::new(chosen, out);
    list_rows_in(rt, name, &mut rows)??;
    Ok(rows.chosen())
}

/// Prints a JSON object for each row.
fn print_objects<W: Write>(
    rt: &HostRuntime,
    name: &str,
    selection: &mut Selection,
    out: &mut W,
) -> Result<(), Failure> {
    let mut objects = Objects::new(rt.alloc(), selection, out);
    list_rows_in(rt, name, &mut objects)??;
    Ok(())
}

/// Prints a record for each row.
fn print_records<W: Write>(
    rt: &HostRuntime,
    name: &str,
    selection: Selection,
    out: &mut W,
) -> Result<Chosen, Failure> {
    let mut all = CsvRows {
        alloc: rt.alloc(),
        selection,
        records: Records::new(out),
    };
    list_rows_in(rt, name, &mut all)??;
    let CsvRows {
        selection,
        mut records,
        ..
    } = all;
    records.flush()?;
    Ok(selection.chosen)
}

/// Prints the filter, and a line for each table with rows; where its sizes are given, what else is known of the database before that.
pub fn print_tallies<W: Write>(
    rt: &HostRuntime,
    name: &str,
    format: Format,
    sizes: Option<[u64; 2]>,
    out: &mut W,
) -> Result<(), Failure> {
    let mut counts = TableCounts {
        sizes,
        tallies: Tallies::new(rt.alloc(), format, out),
    };
    list_in(rt, name, &mut counts)??;
    counts.tallies.finish()?;
    Ok(())
}

/// Prints rows whose columns are described.
fn print_typed<W: Write>(
    rt: &HostRuntime,
    name: &str,
    tables: &DescribedTables,
    selection: &mut Selection,
    out: &mut W,
) -> Result<(), Failure> {
    let mut all = Typed::new(rt.alloc(), tables, selection, out);
    match list_rows_in(rt, name, &mut all)? {
        Ok(()) => Ok(()),
        Err(error) => Err(of_row(rt.alloc(), name, error)),
    }
}

/// Writes the lines of rows whose columns are described.
#[derive(Drop)]
struct Typed<'o, W> {
    chosen: &'o mut Chosen,
    rows: TypedRows<'o, 'o, W>,
}

impl<'o, W: Write> Typed<'o, W> {
    fn new(
        alloc: Global,
        tables: &'o DescribedTables,
        selection: &'o mut Selection,
        out: &'o mut W,
    ) -> Typed<'o, W> {
        let layout = Layout {
            format: selection.format,
            encoding: selection.encoding,
            is_one: selection.chosen.single().is_some(),
        };
        Typed {
            chosen: &mut selection.chosen,
            rows: TypedRows::new(alloc, tables, layout, out),
        }
    }
}

impl<W: Write> Visitor for Typed<'_, W> {
    type Error = RowError;

    ghost row_gives = { λ _ _ _ _. Unit {0} };

    fn row(&mut self, row: &Listed<'_>) -> Result<(), RowError> {
        if !self.chosen.takes(row.schema, row.table) {
            return Ok(());
        }
        self.rows.write(row)
    }
}

impl<W: Write> Lister for Typed<'_, W> {
    ghost begun = { λ _ _ _ _ _. Unit {0} };

    fn begin(&mut self, _executed: &GtidSet, _following: &Follow) -> Result<bool, RowError> {
        self.rows.begin(self.chosen.single())?;
        Ok(true)
    }
}

/// Writes a JSON object for each row.
#[derive(Drop)]
struct Objects<'o, W> {
    alloc: Global,
    selection: &'o mut Selection,
    out: &'o mut W,
}

impl<'o, W: Write> Objects<'o, W> {
    fn new(alloc: Global, selection: &'o mut Selection, out: &'o mut W) -> Objects<'o, W> {
        Objects {
            alloc,
            selection,
            out,
        }
    }
}

impl<W: Write> Visitor for Objects<'_, W> {
    type Error = io::Error;

    ghost row_gives = { λ _ _ _ _. Unit {0} };

    fn row(&mut self, row: &Listed<'_>) -> io::Result<()> {
        if !self.selection.chosen.takes(row.schema, row.table) {
            return Ok(());
        }
        write_object(self.alloc, row, self.selection.encoding, self.out)
    }
}

impl<W: Write> Lister for Objects<'_, W> {
    ghost begun = { λ _ _ _ _ _. Unit {0} };

    fn begin(&mut self, _executed: &GtidSet, _following: &Follow) -> io::Result<bool> {
        Ok(true)
    }
}

/// Writes a record for each row.
#[derive(Drop)]
struct CsvRows<'o, W: Write> {
    alloc: Global,
    selection: Selection,
    records: Records<&'o mut W>,
}

impl<W: Write> Visitor for CsvRows<'_, W> {
    type Error = io::Error;

    ghost row_gives = { λ _ _ _ _. Unit {0} };

    fn row(&mut self, row: &Listed<'_>) -> io::Result<()> {
        if !self.selection.chosen.takes(row.schema, row.table) {
            return Ok(());
        }
        self.records.write(self.alloc, row, self.selection.encoding)
    }
}

impl<W: Write> Lister for CsvRows<'_, W> {
    ghost begun = { λ _ _ _ _ _. Unit {0} };

    fn begin(&mut self, _executed: &GtidSet, _following: &Follow) -> io::Result<bool> {
        Ok(true)
    }
}

/// Counts the rows of each table.
#[derive(Drop)]
struct TableCounts<'o, W> {
    /// The sizes of the database's files, where more than its tables is asked for.
    sizes: Option<[u64; 2]>,
    tallies: Tallies<'o, W>,
}

impl<W: Write> Visitor for TableCounts<'_, W> {
    type Error = io::Error;

    ghost row_gives = { λ _ _ _ _. Unit {0} };

    fn row(&mut self, row: &Listed<'_>) -> io::Result<()> {
        self.tallies.count(row.schema, row.table, row.count)
    }
}

impl<W: Write> Lister for TableCounts<'_, W> {
    ghost begun = { λ _ _ _ _ _. Unit {0} };

    fn begin(&mut self, executed: &GtidSet, following: &Follow) -> io::Result<bool> {
        let facts = match self.sizes {
            Some(sizes) => Some(Facts {
                executed,
                following,
                unfinished: unfinished_copy(executed).map(|source| Gtid { source, number: 1 }),
                sizes,
            }),
            None => None,
        };
        self.tallies.begin(following, facts)?;
        Ok(true)
    }
}

//! Rows in one of the formats.

use crate::described_tables::{DescribedTables, LastTable};
use crate::json_lines::write_json_name;
use crate::misfit::{Fault, RowError, TextError, check_copies, check_count};
use crate::shown::show;
use crate::{csv_cells, json, sql, tsv};
use binlog::Cell;
use columns::{Column, DescribedTable, Escaped};
use formats::{Encoding, Format, write_table};
use gather::ImageRef;
use std::alloc::Global;
use std::io;
use std::io::Write;
use store::Listed;

/// How rows are printed.
#[derive(Clone, Copy)]
pub struct Layout {
    pub format: Format,
    /// The form of bytes in JSON.
    pub encoding: Encoding,
    /// Whether rows of one table alone are asked for: no line of TSV and CSV begins with its name then.
    pub is_one: bool,
}

/// Prints rows. Each is made whole before any of it is printed.
#[derive(Drop)]
pub struct TypedRows<'d, 'o, W> {
    alloc: Global,
    tables: &'d DescribedTables,
    layout: Layout,
    last: LastTable<'d>,
    /// A row as it is printed.
    line: Vec<u8>,
    out: &'o mut W,
}

impl<'d, 'o, W: Write> TypedRows<'d, 'o, W> {
    /// Nothing is printed yet.
    pub fn new(
        alloc: Global,
        tables: &'d DescribedTables,
        layout: Layout,
        out: &'o mut W,
    ) -> TypedRows<'d, 'o, W> {
        TypedRows {
            alloc,
            tables,
            layout,
            last: LastTable::new(tables),
            line: Vec::new(alloc),
            out,
        }
    }

    /// Prints what comes before the rows: the settings of SQL, or the names of the columns where CSV of one table is asked
    /// for.
    pub fn begin(&mut self, only: Option<(&[u8], &[u8])>) -> io::Result<()> {
        match (self.layout.format, only) {
            (Format::Sql, _) => self.out.write_all(sql::SETTINGS),
            (Format::Csv, Some((schema, table))) => match self.tables.find(schema, table) {
                Some(described) => write_header(described, self.out),
                None => Ok(()),
            },
            _ => Ok(()),
        }
    }

    /// Prints a row, with its copies.
    pub fn write(&mut self, row: &Listed<'_>) -> Result<(), RowError> {
        match self.make(row) {
            Ok(()) => {}
            Err(stop) => return Err(stop.in_table(self.alloc, row.schema, row.table)),
        }
        self.print(row.count)?;
        Ok(())
    }

    /// Makes the line of a row.
    fn make(&mut self, row: &Listed<'_>) -> Result<(), TextError<'d>> {
        let Some(described) = self.last.find(row.schema, row.table) else {
            return Err(TextError::Fault(None, Fault::Table));
        };
        check_copies(times(self.layout.format, row.count))?;
        self.line.clear();
        write_row(
            self.alloc,
            self.layout,
            described,
            row.count,
            &row.image,
            &mut self.line,
        )
    }

    /// Prints the line of a row.
    fn print(&mut self, count: u64) -> io::Result<()> {
        for _ in 0..times(self.layout.format, count) {
            self.out.write_all(&self.line)?;
        }
        Ok(())
    }
}

/// How often the line of a row is printed: as often as there are copies, or once where it has their number.
fn times(format: Format, count: u64) -> u64 {
    match format {
        Format::Text | Format::Json => 1,
        Format::Csv | Format::Tsv | Format::Sql => count,
    }
}

/// Writes the line of a row. The number of its cells is looked at first where it does not fit.
fn write_row<'d>(
    alloc: Global,
    layout: Layout,
    table: &'d DescribedTable,
    count: u64,
    image: &ImageRef<'_>,
    line: &mut Vec<u8>,
) -> Result<(), TextError<'d>> {
    write_front(alloc, layout, table, count, line)?;
    let mut cells = image.cells();
    let mut is_first = true;
    for column in &table.columns {
        let Some(cell) = cells.next() else {
            return check_count(table, image);
        };
        if !is_first {
            line.write_all(separator(layout.format))?;
        }
        if let Err(stop) = write_cell(alloc, layout, column, cell, line) {
            check_count(table, image)?;
            return Err(stop);
        }
        is_first = false;
    }
    if cells.next().is_some() {
        return check_count(table, image);
    }
    line.write_all(end(layout.format))?;
    Ok(())
}

/// What stands between the cells of a row.
fn separator(format: Format) -> &'static [u8] {
    match format {
        Format::Tsv => b"\t",
        Format::Sql => b", ",
        Format::Text | Format::Csv | Format::Json => b",",
    }
}

/// What stands after the cells of a row.
fn end(format: Format) -> &'static [u8] {
    match format {
        Format::Json => b"}}\n",
        Format::Sql => b");\n",
        Format::Text | Format::Csv | Format::Tsv => b"\n",
    }
}

/// Writes what stands before the cells of a row.
fn write_front(
    alloc: Global,
    layout: Layout,
    table: &DescribedTable,
    count: u64,
    line: &mut Vec<u8>,
) -> io::Result<()> {
    let schema = table.schema.as_str();
    let name = table.name.as_str();
    match layout.format {
        Format::Text => {
            write_table(schema.as_bytes(), name.as_bytes(), line)?;
            write!(line, " {count} ")
        }
        Format::Tsv if !layout.is_one => write!(line, "{}\t{}\t", Escaped(schema), Escaped(name)),
        Format::Csv if !layout.is_one => {
            csv_cells::write_text(schema, line)?;
            line.write_all(b",")?;
            csv_cells::write_text(name, line)?;
            line.write_all(b",")
        }
        Format::Tsv | Format::Csv => Ok(()),
        Format::Json => {
            line.write_all(b"{\"schema\":")?;
            write_json_name(alloc, schema.as_bytes(), line)?;
            line.write_all(b",\"table\":")?;
            write_json_name(alloc, name.as_bytes(), line)?;
            write!(line, ",\"count\":{count},\"row\":{{")
        }
        Format::Sql => write_insert(table, line),
    }
}

/// Writes an INSERT statement up to its values.
fn write_insert(table: &DescribedTable, line: &mut Vec<u8>) -> io::Result<()> {
    line.write_all(b"INSERT INTO ")?;
    sql::write_sql_name(table.schema.as_bytes(), line)?;
    line.write_all(b".")?;
    sql::write_sql_name(table.name.as_bytes(), line)?;
    line.write_all(b" (")?;
    let mut is_first = true;
    for column in &table.columns {
        if !is_first {
            line.write_all(b", ")?;
        }
        sql::write_sql_name(column.name.as_bytes(), line)?;
        is_first = false;
    }
    line.write_all(b") VALUES (")
}

/// Writes the names of a table's columns as a record of CSV.
fn write_header<W: Write>(table: &DescribedTable, out: &mut W) -> io::Result<()> {
    let mut is_first = true;
    for column in &table.columns {
        if !is_first {
            out.write_all(b",")?;
        }
        csv_cells::write_text(column.name.as_str(), out)?;
        is_first = false;
    }
    out.write_all(b"\n")
}

/// Writes a cell of a row.
fn write_cell<'d>(
    alloc: Global,
    layout: Layout,
    column: &'d Column,
    cell: Cell<'_>,
    line: &mut Vec<u8>,
) -> Result<(), TextError<'d>> {
    let shown = match show(alloc, column, cell) {
        Ok(shown) => shown,
        Err(error) => return Err(TextError::at(column, error)),
    };
    match layout.format {
        Format::Tsv => tsv::write_field(&shown, line)?,
        Format::Csv => csv_cells::write_field(&shown, line)?,
        Format::Sql => sql::write_value(cell, &shown, line)?,
        Format::Text => {
            write!(line, "{}=", Escaped(column.name.as_str()))?;
            tsv::write_field(&shown, line)?;
        }
        Format::Json => json::write_member(
            alloc,
            column.name.as_str(),
            &shown,
            layout.encoding,
            line,
        )?,
    }
    Ok(())
}

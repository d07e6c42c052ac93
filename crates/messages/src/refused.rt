//! The row of a change that is refused, in a message.

use crate::details::{SHOWN, row_of, write_place};
use binlog::Cell;
use columns::{Column, DescribedTable, Key};
use formats::Shown;
use gather::{Change, ImageRef};
use rows::{
    DescribedTables, ShownCell, TextError, check_count, has_key, show, write_bare, write_binary,
};
use std::alloc::Global;
use std::io;
use std::io::Write;

/// Writes a line with the table of a change that is refused, its key, and its row, of which no more is written than a message
/// has. `false`, and nothing is written, where the table is not described or the row does not fit its description.
pub fn write_refused(
    alloc: Global,
    tables: &DescribedTables,
    change: &Change<'_>,
    is_full: bool,
    out: &mut Vec<u8>,
) -> bool {
    let (table, row) = row_of(change, is_full);
    let Some(described) = tables.find(&table.schema, &table.table) else {
        return false;
    };
    let mut line = Vec::new(alloc);
    match write_row(alloc, described, row, &mut line) {
        Ok(()) => out.write_all(&line).is_ok(),
        Err(_) => false,
    }
}

/// Writes the line of a row.
fn write_row<'d>(
    alloc: Global,
    table: &'d DescribedTable,
    row: &ImageRef<'_>,
    line: &mut Vec<u8>,
) -> Result<(), TextError<'d>> {
    check_count(table, row)?;
    write_place(table.schema.as_bytes(), table.name.as_bytes(), line)?;
    if has_key(table) {
        write_cells(alloc, table, row, true, line)?;
    }
    write_cells(alloc, table, row, false, line)?;
    line.write_all(b"\n")?;
    Ok(())
}

/// Writes `row` or `key` and the first cells of it, with the names of their columns, until they have as many bytes as a message
/// has of a row. What is left out is `...`.
fn write_cells<'d>(
    alloc: Global,
    table: &'d DescribedTable,
    row: &ImageRef<'_>,
    is_key: bool,
    line: &mut Vec<u8>,
) -> Result<(), TextError<'d>> {
    line.write_all(if is_key { b", key " } else { b", row " })?;
    let end = line.len().saturating_add(SHOWN);
    let mut is_first = true;
    for (cell, column) in row.cells().zip(table.columns.iter()) {
        if is_key && column.key != Key::Pri {
            continue;
        }
        if !is_first {
            line.write_all(b",")?;
        }
        if line.len() >= end {
            line.write_all(b"...")?;
            return Ok(());
        }
        write_cell(alloc, column, cell, line)?;
        is_first = false;
    }
    Ok(())
}

/// Writes a cell after the name of its column.
fn write_cell<'d>(
    alloc: Global,
    column: &'d Column,
    cell: Cell<'_>,
    line: &mut Vec<u8>,
) -> Result<(), TextError<'d>> {
    write!(line, "{}=", Shown(column.name.as_str()))?;
    match show(alloc, column, cell) {
        Ok(shown) => Ok(write_short(&shown, line)?),
        Err(error) => Err(TextError::at(column, error)),
    }
}

/// Writes a cell, and of a long text or long bytes the first. What is left out is `...`.
fn write_short(shown: &ShownCell<'_>, line: &mut Vec<u8>) -> io::Result<()> {
    match shown {
        ShownCell::Null => line.write_all(b"NULL"),
        ShownCell::Text(text) => {
            let (shown, end) = match head_of(text.as_str()) {
                Some(head) => (head, "..."),
                None => (text.as_str(), ""),
            };
            write!(line, "{}{end}", Shown(shown))
        }
        ShownCell::Bytes { bytes, .. } if bytes.len() > SHOWN => {
            write_binary(bytes.get(..SHOWN).unwrap_or(bytes), 0, line)?;
            line.write_all(b"...")
        }
        other => write_bare(other, line),
    }
}

/// The first characters of a text that is longer than what a message has of it.
fn head_of(text: &str) -> Option<&str> {
    if text.len() <= SHOWN {
        return None;
    }
    for less in 0..4 {
        if let Some((head, _)) = text.split_at_checked(SHOWN - less) {
            return Some(head);
        }
    }
    None
}

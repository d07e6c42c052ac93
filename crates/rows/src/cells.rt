//! The cells of rows as they are printed.

ghost use Rattle.std.specs.Prelude.{OnOk};
ghost use Rattle.std.specs.Io.KnownBytes.{Appends};
ghost use Rattle.binlog.specs.Cell.{cell_value};
ghost use Rattle.rows.specs.RowText.{cell_text, after_comma, cells_text, row_text};

use binlog::Cell;
use formats::{write_hex, write_table};
use gather::ImageRef;
use std::io;
use std::io::Write;

/// Writes a cell: `null`; a number in decimal digits, `/` and its width; or bytes as `x` and hexadecimal digits.
fn write_cell<W: Write>(cell: Cell<'_>, out: &mut W) -> io::Result<()>
    ensures { OnOk result (Appends (W.contents out.old) (W.contents out.new)
        (cell_text (cell_value cell.entry))) }
{
    match cell {
        Cell::Null => write!(out, "null"),
        Cell::Number { value, width } => write!(out, "{value}/{width}"),
        Cell::Bytes(bytes) => {
            out.write_all(b"x")?;
            write_hex(bytes, out)
        }
    }
}

/// Writes a cell, after a comma if it is not the first.
fn write_next<W: Write>(cell: Cell<'_>, first: bool, out: &mut W) -> io::Result<()>
    ensures { OnOk result (Appends (W.contents out.old) (W.contents out.new)
        (after_comma first (cell_text (cell_value cell.entry)))) }
{
    if !first {
        write!(out, ",")?;
    }
    write_cell(cell, out)
}

/// Writes the cells of a row, separated by commas.
fn write_cells<W: Write>(row: &ImageRef<'_>, out: &mut W) -> io::Result<()>
    ensures { OnOk result (Appends (W.contents out.old) (W.contents out.new)
        (cells_text row.now)) }
{
    let mut first = true;
    for cell in row.cells() {
        write_next(cell, first, out)?;
        first = false;
    }
    Ok(())
}

/// Writes the first cells of a row, until they have as many bytes of text as this or more, and of a long cell as many
/// bytes. What is left out is `...`.
pub fn write_first_cells(row: &ImageRef<'_>, most: usize, out: &mut Vec<u8>) -> io::Result<()> {
    let end = out.len().saturating_add(most);
    let mut first = true;
    for cell in row.cells() {
        if out.len() >= end {
            return out.write_all(b",...");
        }
        if let Cell::Bytes(bytes) = cell
            && let Some((head, [_, ..])) = bytes.split_at_checked(most)
        {
            write_next(Cell::Bytes(head), first, out)?;
            return out.write_all(b"...");
        }
        write_next(cell, first, out)?;
        first = false;
    }
    Ok(())
}

/// Writes the line of a row.
///
/// Clauses:
/// - where it is done, an output whose contract gives its bytes has the line of the row after what it had: the name of
///   the table, the number of copies, and the cells (`specs/RowText.antt`)
pub fn write_row<W: Write>(
    schema: &[u8],
    table: &[u8],
    count: u64,
    image: &ImageRef<'_>,
    out: &mut W,
) -> io::Result<()>
    // Where it is done, the output has this line after what it had, if its contract gives its bytes.
    ensures { OnOk result (Appends (W.contents out.old) (W.contents out.new)
        (row_text schema.now table.now count image.now)) }
{
    write_table(schema, table, out)?;
    write!(out, " {count} ")?;
    write_cells(image, out)?;
    writeln!(out)
}

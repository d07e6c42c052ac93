//! Images written as bytes.

ghost use Rattle.std.specs.Prelude.{◌≡◌, ◌+◌, ◌≤◌, ◌<◌, ◌^◌, ◌/◌, ◌%◌, ◌++◌, ◌↔◌, length, set, IsTrue, OnOk, OnErr, Err, MatchOption, vec_len, vec_capacity};
ghost use Rattle.binlog.specs.Cell.{cell_value, number_cell};
ghost use Rattle.gather.specs.Image.{cell_image, image, HasCellImage, HasImage};
ghost use Rattle.gather.specs.ImageCells.{cell_values};
ghost use Rattle.gather.specs.declared.fault.GatherFault.TheVariants.{Memory};

use crate::fault::GatherFault;
use binlog::{Cell, Row, number_fits};

/// How many bytes the image of the cells takes, if they have one.
pub(crate) fn image_size(cells: &[Cell<'_>]) -> Option<usize>
    ensures { MatchOption result (HasImage (cell_values cells.now)
        → ⊥) (λ size. (size ≡ length (image (cell_values cells.now)))
        × HasImage (cell_values cells.now)) }
{
    if cells.len() > 65_535 {
        return None;
    }
    let mut size = 2;
    for cell in cells {
        if !has_image(*cell) {
            return None;
        }
        size += cell_size(*cell);
    }
    Some(size)
}

/// Appends the image of the cells, or a part of it.
pub(crate) fn write_cells(cells: &[Cell<'_>], out: &mut Vec<u8>) -> Result<(), GatherFault>
    requires { HasImage (cell_values cells.now) }
    ensures ok { OnOk result (out.new.items ≡ out.old.items ++ image (cell_values cells.now)) }
    ensures err { OnErr result (result ≡ Err Memory) }
    ensures full { OnErr result (vec_capacity out.old
        < vec_len out.old + length (image (cell_values cells.now))) }
{
    out.extend_from_slice(&(cells.len() as u16).to_le_bytes())?;
    for cell in cells {
        write_cell(*cell, out)?;
    }
    Ok(())
}

/// Appends the image of a row, or a part of it.
#[inline(always)]
pub(crate) fn write_row(row: &Row<'_>, out: &mut Vec<u8>) -> Result<(), GatherFault>
    requires { HasImage row.now }
    ensures ok { OnOk result (out.new.items ≡ out.old.items ++ image row.now) }
    ensures err { OnErr result (result ≡ Err Memory) }
    ensures capacity { vec_capacity out.old ≤ vec_capacity out.new }
    ensures full { OnErr result (vec_capacity out.old < vec_len out.old + length (image row.now)) }
{
    let start = out.len();
    out.extend_from_slice(&[0, 0])?;
    let mut count = 0;
    for cell in row.cells() {
        write_cell(cell, out)?;
        count += 1;
    }
    set_count(start, count, out);
    Ok(())
}

/// Sets the number of cells of an image that begins at this offset and whose cells are written.
fn set_count(start: usize, count: u16, out: &mut Vec<u8>)
    requires { start + 2 ≤ length out.old.items }
    ensures counts { out.new.items ≡ set (set out.old.items start (count % 256)) (start + 1)
        (count / 256 % 256) }
    ensures capacity { vec_capacity out.new ≡ vec_capacity out.old }
{
    let [low, high] = count.to_le_bytes();
    out[start] = low;
    out[start + 1] = high;
}

/// Whether a cell has an image.
fn has_image(cell: Cell<'_>) -> bool
    ensures { IsTrue result ↔ HasCellImage (cell_value cell.entry) }
{
    match cell {
        Cell::Null => true,
        Cell::Number { value, width } => number_fits(value, width),
        Cell::Bytes(bytes) => bytes.len() < 1 << 32,
    }
}

/// How many bytes the image of a cell takes.
fn cell_size(cell: Cell<'_>) -> usize
    requires { HasCellImage (cell_value cell) }
    ensures size { result ≡ length (cell_image (cell_value cell.entry)) }
    ensures bound { result ≤ 2 ^ 33 }
{
    match cell {
        Cell::Null => 1,
        Cell::Number { width, .. } => 2 + width as usize,
        Cell::Bytes(bytes) => 5 + bytes.len(),
    }
}

/// Appends the image of a cell, or a part of it.
#[inline(always)]
fn write_cell(cell: Cell<'_>, out: &mut Vec<u8>) -> Result<(), GatherFault>
    requires { HasCellImage (cell_value cell) }
    ensures ok { OnOk result (out.new.items ≡ out.old.items ++ cell_image (cell_value cell.entry)) }
    ensures err { OnErr result (result ≡ Err Memory) }
    ensures capacity { vec_capacity out.old ≤ vec_capacity out.new }
    ensures full { OnErr result (vec_capacity out.old
        < vec_len out.old + length (cell_image (cell_value cell.entry))) }
{
    match cell {
        Cell::Null => out.push(0)?,
        Cell::Number { value, width } => write_number(value, width, out)?,
        Cell::Bytes(bytes) => {
            let [a, b, c, d] = (bytes.len() as u32).to_le_bytes();
            out.extend_from_slice(&[2, a, b, c, d])?;
            out.extend_from_slice(bytes)?;
        }
    }
    Ok(())
}

/// Appends the image of a number, or a part of it. One of a usual width is written at once.
#[inline(always)]
fn write_number(value: u64, width: u8, out: &mut Vec<u8>) -> Result<(), GatherFault>
    requires { HasCellImage (number_cell value width) }
    ensures ok { OnOk result (out.new.items ≡ out.old.items ++ cell_image
        (number_cell value width)) }
    ensures err { OnErr result (result ≡ Err Memory) }
    ensures capacity { vec_capacity out.old ≤ vec_capacity out.new }
    ensures full { OnErr result (vec_capacity out.old
        < vec_len out.old + length (cell_image (number_cell value width))) }
{
    let bytes = value.to_le_bytes();
    let [a, b, c, d, e, f, g, h] = bytes;
    match width {
        1 => out.extend_from_slice(&[1, 1, a])?,
        2 => out.extend_from_slice(&[1, 2, a, b])?,
        4 => out.extend_from_slice(&[1, 4, a, b, c, d])?,
        8 => out.extend_from_slice(&[1, 8, a, b, c, d, e, f, g, h])?,
        _ => {
            out.extend_from_slice(&[1, width])?;
            out.extend_from_slice(&bytes[..width as usize])?;
        }
    }
    Ok(())
}

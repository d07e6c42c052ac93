//! Rows. MySQL Source Documentation, "Binlog Event", the page `binary_log::Rows_event`.

ghost use Rattle.std.specs.Prelude.{◌≡◌, ℕ, false, ◌≤◌, ◌++◌, List, length, take, IfOk, IfErr, MatchResult, Err, IsTrue, ◌+◌, vec_len, vec_capacity};
ghost use Rattle.std.specs.Iterator.{YieldsFirstBy, item_count};
ghost use Rattle.binlog.specs.Cell.{CellValue, cell_value, owned_values};
ghost use Rattle.binlog.specs.Row.{kinds, is_set, IsRow, row_end};
ghost use Rattle.binlog.specs.RowsWritten.{value_fits, row_fits, values_bytes, row_bytes};
ghost use Rattle.gtid.specs.Appending.{AppendsBytes, IsCapped};

use crate::bitmap::{has_set, is_set, write_bitmap};
use crate::cell::{Cell, OwnedCell};
use crate::column::kind::ColumnType;
use crate::column::value::{
    read_value, shape_of, value_end, value_fits, value_length, write_value,
};
use std::marker::Model;

/// A row image. It borrows from the event's bytes and takes no memory. In contracts it is the list of its cells.
#[derive(Debug, Drop)]
pub struct Row<'a> {
    types: &'a [ColumnType],
    /// The bitmap of the null cells.
    bitmap: &'a [u8],
    /// The values of the other cells.
    values: &'a [u8],
}

impl<'a> Model for Row<'a> {
    ghost use Rattle.std.specs.Prelude.{List};
    ghost use Rattle.binlog.specs.Cell.{CellValue};

    ghost Value = { List CellValue };

    ghost use Rattle.binlog.specs.Row.{kinds, cells_from};

    ghost view = { λ r. cells_from r.bitmap.now 0 (kinds r.types.now) r.values.now };
}

/// An iterator over the cells of a row. It takes no memory. In contracts it is the list of those that are still to
/// come.
#[derive(Debug, Drop)]
pub struct Cells<'a> {
    types: &'a [ColumnType],
    bitmap: &'a [u8],
    /// Whether a bit of it is set.
    some_null: bool,
    /// The index of the next column.
    index: usize,
    /// The values from the next column on.
    values: &'a [u8],
    ghost nulls: { (i : ℕ) → some_null ≡ false → is_set bitmap.now i ≡ false },
}

impl<'a> Model for Cells<'a> {
    ghost use Rattle.std.specs.Prelude.{List, drop};
    ghost use Rattle.binlog.specs.Cell.{CellValue};

    ghost Value = { List CellValue };

    ghost use Rattle.binlog.specs.Row.{kinds, cells_from};

    ghost view = { λ c. cells_from c.bitmap.now c.index (drop c.index (kinds c.types.now)) c.values.now };
}

impl<'a> Row<'a> {
    /// Reads the row at the front of the bytes, and returns it with the number of bytes that it takes. If its bitmap,
    /// or the length or the bytes of a value, does not fit, the error is the offset of that part.
    #[inline(always)]
    pub(crate) fn read(types: &'a [ColumnType], bytes: &'a [u8]) -> Result<(Row<'a>, usize), usize>
        ensures found { IfOk result (λ read. IsRow (kinds types.now) read.0
            (take read.1 bytes.now)) }
        ensures within { IfOk result (λ read. read.1 ≤ length bytes.now) }
        ensures only { (cells : List CellValue) (first rest : List ℕ) → bytes.now ≡ first ++ rest
            → IsRow (kinds types.now) cells first → MatchResult result (λ read. (read.0 ≡ cells)
            × (read.1 ≡ length first)) (λ _. ⊥) }
        ensures fault { IfErr result (λ place. row_end (kinds types.now) bytes.now ≡ Err place) }
    {
        let end = row_end(types, bytes)?;
        let (bitmap, values) = bytes[..end].split_at(types.len().div_ceil(8));
        let row = Row {
            types,
            bitmap,
            values,
        };
        Ok((row, end))
    }

    /// An iterator over the cells, in order.
    pub fn cells(&self) -> Cells<'a>
        ensures { result ≡ self.now }
    {
        Cells {
            types: self.types,
            bitmap: self.bitmap,
            some_null: has_set(self.bitmap),
            index: 0,
            values: self.values,
        }
    }
}

impl<'a> Iterator for Cells<'a> {
    type Item = Cell<'a>;

    ghost next_gives = { YieldsFirstBy cell_value (λ rest. rest) };

    ghost remaining = { item_count (λ rest. rest) };

    #[inline(always)]
    fn next(&mut self) -> Option<Cell<'a>> {
        let column = *self.types.get(self.index)?;
        if is_null(self.some_null, self.bitmap, self.index) {
            self.index += 1;
            return Some(Cell::Null);
        }
        let Ok((cell, size)) = read_value(shape_of(column), self.values) else {
            return None;
        };
        self.index += 1;
        self.values = &self.values[size..];
        Some(cell)
    }
}

/// Where the row at the front of the bytes ends, or the offset of the part that does not fit.
fn row_end(types: &[ColumnType], bytes: &[u8]) -> Result<usize, usize>
    ensures { result ≡ row_end (kinds types.now) bytes.now }
{
    let size = types.len().div_ceil(8);
    if bytes.len() < size {
        return Err(0);
    }
    let bitmap = &bytes[..size];
    let some_null = has_set(bitmap);
    let mut place = size;
    for i in 0..types.len() {
        if is_null(some_null, bitmap, i) {
            continue;
        }
        match value_end(shape_of(types[i]), &bytes[place..]) {
            Ok(size) => place += size,
            Err(at) => return Err(place + at),
        }
    }
    Ok(place)
}

/// Whether cell i is null, by the bitmap; `some_null` is false only where no bit of it is set.
#[inline(always)]
fn is_null(some_null: bool, bitmap: &[u8], i: usize) -> bool
    requires { (j : ℕ) → some_null ≡ false → is_set bitmap.now j ≡ false }
    ensures { result ≡ is_set bitmap.now i }
{
    if !some_null {
        return false;
    }
    is_set(bitmap, i)
}

/// Whether the row of the cells can be written.
pub(crate) fn row_fits(types: &[ColumnType], cells: &[OwnedCell]) -> bool
    ensures { result ≡ row_fits (kinds types.now) (owned_values cells.now) }
{
    if types.len() != cells.len() {
        return false;
    }
    for i in 0..types.len() {
        if !value_fits(shape_of(types[i]), &cells[i]) {
            return false;
        }
    }
    true
}

/// How many bytes the row of the cells takes, or `usize::MAX` if that is less.
pub(crate) fn row_length(types: &[ColumnType], cells: &[OwnedCell]) -> usize
    requires { IsTrue (row_fits (kinds types.now) (owned_values cells.now)) }
    ensures { IsCapped result (length (row_bytes (kinds types.now) (owned_values cells.now))) }
{
    let bitmap = cells.len().div_ceil(8);
    bitmap.saturating_add(values_length(types, cells))
}

/// How many bytes the values of the cells that are not null take, or `usize::MAX` if that is less.
fn values_length(types: &[ColumnType], cells: &[OwnedCell]) -> usize
    requires as_many { length cells.now ≡ length types.now }
    requires fit { IsTrue (row_fits (kinds types.now) (owned_values cells.now)) }
    ensures { IsCapped result (length (values_bytes (kinds types.now) (owned_values cells.now))) }
{
    let mut sum: usize = 0;
    for i in 0..types.len() {
        sum = sum.saturating_add(value_length(shape_of(types[i]), &cells[i]));
    }
    sum
}

/// Appends the row of the cells: the bitmap of the null cells, and the values of the others.
pub(crate) fn write_row(types: &[ColumnType], cells: &[OwnedCell], out: &mut Vec<u8>)
    requires fit { IsTrue (row_fits (kinds types.now) (owned_values cells.now)) }
    requires room { vec_len out.old + length (row_bytes (kinds types.now) (owned_values cells.now))
        ≤ vec_capacity out.old }
    ensures { AppendsBytes out.old out.new (row_bytes (kinds types.now) (owned_values cells.now)) }
{
    write_bitmap(cells, out);
    write_values(types, cells, out);
}

/// Appends the values of the cells that are not null.
fn write_values(types: &[ColumnType], cells: &[OwnedCell], out: &mut Vec<u8>)
    requires as_many { length cells.now ≡ length types.now }
    requires fit { IsTrue (row_fits (kinds types.now) (owned_values cells.now)) }
    requires room { vec_len out.old
        + length (values_bytes (kinds types.now) (owned_values cells.now)) ≤ vec_capacity out.old }
    ensures { AppendsBytes out.old out.new (values_bytes (kinds types.now)
        (owned_values cells.now)) }
{
    for i in 0..types.len() {
        write_value(shape_of(types[i]), &cells[i], out);
    }
}

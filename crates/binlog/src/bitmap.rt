//! Bitmaps of columns, the lowest bit of each byte first. MySQL Source Documentation, "Binlog Event", the pages
//! `binary_log::Table_map_event` and `binary_log::Rows_event`.

ghost use Rattle.std.specs.Prelude.{◌≡◌, ℕ, ◌≤◌, nat_lt, length, ◌*◌, false, map, slice_index_or, ◌+◌, vec_len, vec_capacity};
ghost use Rattle.binlog.specs.Table.{most_columns};
ghost use Rattle.binlog.specs.Row.{is_set};
ghost use Rattle.binlog.specs.RowsWritten.{bits_number, digit, bitmap_byte, bitmap_bytes};
ghost use Rattle.binlog.specs.Writing.{full_bitmap};
ghost use Rattle.gtid.specs.Appending.{AppendsBytes};
ghost use Rattle.binlog.specs.Cell.{is_null, owned_values};

use crate::cell::OwnedCell;

/// Bit i of a bitmap, the lowest bit of each byte first.
pub(crate) fn is_set(bitmap: &[u8], i: usize) -> bool
    ensures { result ≡ is_set bitmap.now i }
{
    match bitmap.get(i / 8) {
        Some(byte) => (byte >> (i % 8)) % 2 == 1,
        None => false,
    }
}

/// Whether a bit of a bitmap is set.
pub(crate) fn has_set(bitmap: &[u8]) -> bool
    ensures { (i : ℕ) → result ≡ false → is_set bitmap.now i ≡ false }
{
    for byte in bitmap {
        if *byte != 0 {
            return true;
        }
    }
    false
}

/// Appends a bitmap of n bits, all set. The unused bits of its last byte are 0.
pub(crate) fn write_full_bitmap(n: usize, out: &mut Vec<u8>)
    requires few { n ≤ most_columns }
    requires room { vec_len out.old + length (full_bitmap n) ≤ vec_capacity out.old }
    ensures { AppendsBytes out.old out.new (full_bitmap n) }
{
    for j in 0..n.div_ceil(8) {
        out.push(full_byte(n - 8 * j)).unwrap();
    }
}

/// A byte whose lowest n bits are set, or all eight.
fn full_byte(n: usize) -> u8
    ensures { result ≡ bits_number 8 (λ i. nat_lt i n) }
{
    match n {
        0 => 0,
        1 => 0x01,
        2 => 0x03,
        3 => 0x07,
        4 => 0x0f,
        5 => 0x1f,
        6 => 0x3f,
        7 => 0x7f,
        _ => 0xff,
    }
}

/// Appends the bitmap of the null cells.
pub(crate) fn write_bitmap(cells: &[OwnedCell], out: &mut Vec<u8>)
    requires { vec_len out.old + length (bitmap_bytes (map is_null (owned_values cells.now)))
        ≤ vec_capacity out.old }
    ensures { AppendsBytes out.old out.new (bitmap_bytes
        (map is_null (owned_values cells.now))) }
{
    for i in 0..cells.len().div_ceil(8) {
        out.push(null_byte(cells, i)).unwrap();
    }
}

/// Byte i of the bitmap of the null cells.
fn null_byte(cells: &[OwnedCell], i: usize) -> u8
    requires { 8 * i ≤ length cells.now }
    ensures { result ≡ bitmap_byte (map is_null (owned_values cells.now)) i }
{
    let low = null_bit(cells, 8 * i)
        + 2 * null_bit(cells, 8 * i + 1)
        + 4 * null_bit(cells, 8 * i + 2)
        + 8 * null_bit(cells, 8 * i + 3);
    let high = null_bit(cells, 8 * i + 4)
        + 2 * null_bit(cells, 8 * i + 5)
        + 4 * null_bit(cells, 8 * i + 6)
        + 8 * null_bit(cells, 8 * i + 7);
    low + 16 * high
}

/// 1 if cell i is null, otherwise 0.
fn null_bit(cells: &[OwnedCell], i: usize) -> u8
    ensures bit { result ≡ digit (slice_index_or (map is_null (owned_values cells.now)) i false) }
    ensures small { result ≤ 1 }
{
    match cells.get(i) {
        None => 0,
        Some(OwnedCell::Null) => 1,
        Some(OwnedCell::Number { .. }) => 0,
        Some(OwnedCell::Bytes(_)) => 0,
    }
}

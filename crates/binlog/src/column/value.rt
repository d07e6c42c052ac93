//! How values are stored in a row. MySQL Source Documentation, "Binlog Event", the page `binary_log::Rows_event`.

ghost use Rattle.std.specs.Prelude.{◌≡◌, ◌≤◌, length, IfOk, IfErr, Ok, Err, IsTrue, ◌<◌, ◌^◌, nat_lt, nat_le, ◌&&◌, ◌*◌, ◌+◌, vec_len, vec_capacity};
ghost use Rattle.byteorder.specs.Endian.{little_number};
ghost use Rattle.binlog.specs.Cell.{cell_value, owned_value};
ghost use Rattle.binlog.specs.Column.{is_lawful};
ghost use Rattle.binlog.specs.Shape.{shape, digits_size, prefix_of, is_readable, value_end, cell_of};
ghost use Rattle.binlog.specs.RowsWritten.{value_fits, value_bytes};
ghost use Rattle.gtid.specs.Appending.{AppendsBytes};

use crate::cell::{Cell, OwnedCell};
use crate::column::kind::{ColumnKind, ColumnType};
use byteorder::{ByteOrder, LittleEndian};

/// How the value of a column is stored in a row.
#[derive(Clone, Copy, Debug, PartialEq, Eq)]
pub(crate) enum Shape {
    /// A number of `width` bytes.
    Number { width: u8 },
    /// `size` bytes.
    Fixed { size: u8 },
    /// A length of `size` bytes, and then that many bytes.
    Prefixed { size: u8 },
}

/// The shape of a type's values.
#[inline]
pub(crate) fn shape_of(column: ColumnType) -> Shape
    ensures shape { result ≡ shape column.kind }
    ensures readable { IsTrue (is_readable result) }
{
    column.storage
}

/// The shape of the values of a kind whose metadata is in range.
pub(crate) fn shape_of_kind(kind: ColumnKind) -> Shape
    requires { IsTrue (is_lawful kind) }
    ensures shape { result ≡ shape kind }
    ensures readable { IsTrue (is_readable result) }
{
    match kind {
        ColumnKind::Tiny => Shape::Number { width: 1 },
        ColumnKind::Short => Shape::Number { width: 2 },
        ColumnKind::Int24 => Shape::Number { width: 3 },
        ColumnKind::Long => Shape::Number { width: 4 },
        ColumnKind::LongLong => Shape::Number { width: 8 },
        ColumnKind::Enum { width } => Shape::Number { width },
        ColumnKind::Set { width } => Shape::Number { width },
        ColumnKind::Varchar { maximum } => Shape::Prefixed {
            size: prefix_of(maximum),
        },
        ColumnKind::Char { maximum } => Shape::Prefixed {
            size: prefix_of(maximum),
        },
        ColumnKind::Blob { prefix } => Shape::Prefixed { size: prefix },
        ColumnKind::Bit { bits } => Shape::Fixed {
            size: ((bits as usize + 7) / 8) as u8,
        },
        ColumnKind::NewDecimal { precision, scale } => Shape::Fixed {
            size: digits_size(precision - scale) + digits_size(scale),
        },
        ColumnKind::Float => Shape::Fixed { size: 4 },
        ColumnKind::Double => Shape::Fixed { size: 8 },
        ColumnKind::Date => Shape::Fixed { size: 3 },
        ColumnKind::Year => Shape::Fixed { size: 1 },
        ColumnKind::Timestamp2 { fraction } => Shape::Fixed {
            size: 4 + (fraction + 1) / 2,
        },
        ColumnKind::Datetime2 { fraction } => Shape::Fixed {
            size: 5 + (fraction + 1) / 2,
        },
        ColumnKind::Time2 { fraction } => Shape::Fixed {
            size: 3 + (fraction + 1) / 2,
        },
    }
}

/// How many bytes the length takes in front of a text of at most `maximum` bytes.
fn prefix_of(maximum: u16) -> u8
    ensures { result ≡ prefix_of maximum }
{
    if maximum < 256 { 1 } else { 2 }
}

/// How many bytes this many decimal digits take.
fn digits_size(digits: u8) -> u8
    ensures size { result ≡ digits_size digits }
    ensures bound { result ≤ 116 }
{
    let digits = digits as usize;
    let size = 4 * (digits / 9) + (digits % 9 + 1) / 2;
    size as u8
}

/// How many bytes the value at the front of the bytes takes. If its length or its bytes do not fit, the error is the
/// offset of that part.
#[inline(always)]
pub(crate) fn value_end(shape: Shape, bytes: &[u8]) -> Result<usize, usize>
    requires { IsTrue (is_readable shape) }
    ensures end { result ≡ value_end shape bytes.now }
    ensures within { IfOk result (λ size. size ≤ length bytes.now) }
    ensures fault_within { IfErr result (λ place. place ≤ length bytes.now) }
{
    match shape {
        Shape::Number { width: size } | Shape::Fixed { size } => {
            if bytes.len() < size as usize {
                return Err(0);
            }
            Ok(size as usize)
        }
        Shape::Prefixed { size } => {
            let size = size as usize;
            if bytes.len() < size {
                return Err(0);
            }
            let length = stated_length(bytes, size);
            if bytes.len() - size < length {
                return Err(size);
            }
            Ok(size + length)
        }
    }
}

/// Reads the value at the front of the bytes: its cell, and how many bytes it takes. If its length or its bytes do not
/// fit, the error is the offset of that part.
#[inline(always)]
pub(crate) fn read_value(shape: Shape, bytes: &[u8]) -> Result<(Cell<'_>, usize), usize>
    requires { IsTrue (is_readable shape) }
    ensures cell { IfOk result (λ read. cell_value read.0 ≡ cell_of shape bytes.now) }
    ensures end { IfOk result (λ read. value_end shape bytes.now ≡ Ok read.1) }
    ensures within { IfOk result (λ read. read.1 ≤ length bytes.now) }
    ensures fault { IfErr result (λ place. value_end shape bytes.now ≡ Err place) }
{
    match shape {
        Shape::Number { width } => {
            let size = width as usize;
            if bytes.len() < size {
                return Err(0);
            }
            let value = stated_number(bytes, size);
            Ok((Cell::Number { value, width }, size))
        }
        Shape::Fixed { size } => {
            let size = size as usize;
            if bytes.len() < size {
                return Err(0);
            }
            Ok((Cell::Bytes(&bytes[..size]), size))
        }
        Shape::Prefixed { size } => {
            let size = size as usize;
            if bytes.len() < size {
                return Err(0);
            }
            let length = stated_length(bytes, size);
            if bytes.len() - size < length {
                return Err(size);
            }
            Ok((Cell::Bytes(&bytes[size..size + length]), size + length))
        }
    }
}

/// The number in the first `size` bytes. Those of a usual size are read at once.
#[inline(always)]
fn stated_number(bytes: &[u8], size: usize) -> u64
    requires low { 1 ≤ size }
    requires high { size ≤ 8 }
    requires within { size ≤ length bytes.now }
    ensures { result ≡ little_number size bytes.now }
{
    match size {
        1 => u64::from(bytes[0]),
        2 => u64::from(LittleEndian::read_u16(bytes)),
        3 => u64::from(LittleEndian::read_u24(bytes)),
        4 => u64::from(LittleEndian::read_u32(bytes)),
        8 => LittleEndian::read_u64(bytes),
        _ => LittleEndian::read_uint(bytes, size),
    }
}

/// The length in the first `size` bytes. Those of a text, of one or two bytes, are read at once.
#[inline(always)]
fn stated_length(bytes: &[u8], size: usize) -> usize
    requires low { 1 ≤ size }
    requires high { size ≤ 4 }
    requires within { size ≤ length bytes.now }
    ensures { result ≡ little_number size bytes.now }
{
    match size {
        1 => usize::from(bytes[0]),
        2 => usize::from(LittleEndian::read_u16(bytes)),
        _ => LittleEndian::read_uint(bytes, size) as usize,
    }
}

/// Whether the cell is null, or has a value of this shape.
pub(crate) fn value_fits(shape: Shape, cell: &OwnedCell) -> bool
    requires { IsTrue (is_readable shape) }
    ensures { result ≡ value_fits shape (owned_value cell.now) }
{
    match cell {
        OwnedCell::Null => true,
        OwnedCell::Number { value, width } => match shape {
            Shape::Number { width: size } => {
                if *width != size {
                    return false;
                }
                number_fits(*value, size)
            }
            _ => false,
        },
        OwnedCell::Bytes(bytes) => match shape {
            Shape::Number { .. } => false,
            Shape::Fixed { size } => bytes.len() == size as usize,
            Shape::Prefixed { size } => number_fits(bytes.len() as u64, size),
        },
    }
}

/// Whether a number can be written in this many bytes, 1 to 8.
pub fn number_fits(value: u64, width: u8) -> bool
    ensures { result ≡ (nat_le 1 width && nat_le width 8 && nat_lt value (256 ^ width)) }
{
    match width {
        1 => value < 0x100,
        2 => value < 0x1_0000,
        3 => value < 0x100_0000,
        4 => value < 0x1_0000_0000,
        5 => value < 0x100_0000_0000,
        6 => value < 0x1_0000_0000_0000,
        7 => value < 0x100_0000_0000_0000,
        8 => true,
        _ => false,
    }
}

/// How many bytes the value of a cell takes.
pub(crate) fn value_length(shape: Shape, cell: &OwnedCell) -> usize
    requires readable { IsTrue (is_readable shape) }
    requires fits { IsTrue (value_fits shape (owned_value cell.now)) }
    ensures { result ≡ length (value_bytes shape (owned_value cell.now)) }
{
    match cell {
        OwnedCell::Null => 0,
        OwnedCell::Number { width, .. } => usize::from(*width),
        OwnedCell::Bytes(bytes) => match shape {
            Shape::Prefixed { size } => usize::from(size) + bytes.len(),
            _ => bytes.len(),
        },
    }
}

/// Appends the value of a cell; nothing if the cell is null.
pub(crate) fn write_value(shape: Shape, cell: &OwnedCell, out: &mut Vec<u8>)
    requires readable { IsTrue (is_readable shape) }
    requires fits { IsTrue (value_fits shape (owned_value cell.now)) }
    requires room { vec_len out.old + length (value_bytes shape (owned_value cell.now))
        ≤ vec_capacity out.old }
    ensures { AppendsBytes out.old out.new (value_bytes shape (owned_value cell.now)) }
{
    match cell {
        OwnedCell::Null => {}
        OwnedCell::Number { value, width } => {
            out.extend_from_slice(&value.to_le_bytes()[..*width as usize])
                .unwrap();
        }
        OwnedCell::Bytes(bytes) => match shape {
            Shape::Prefixed { size } => {
                let length = (bytes.len() as u64).to_le_bytes();
                out.extend_from_slice(&length[..size as usize]).unwrap();
                out.extend_from_slice(bytes).unwrap();
            }
            _ => out.extend_from_slice(bytes).unwrap(),
        },
    }
}

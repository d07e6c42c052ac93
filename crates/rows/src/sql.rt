//! Rows as INSERT statements.

use crate::shown::ShownCell;
use crate::tsv::write_digits;
use binlog::Cell;
use columns::{Real, Scientific, ShortestReal, TypedValue};
use std::io;
use std::io::Write;

/// What the statements need of the session that runs them: names in UTF-8, dates that are in no calendar, ordinals 0, times
/// as they are, in UTC, and rows in any order.
pub const SETTINGS: &[u8] =
    b"SET NAMES utf8mb4; SET SESSION sql_mode='ALLOW_INVALID_DATES,NO_AUTO_VALUE_ON_ZERO,TIME_TRUNCATE_FRACTIONAL', time_zone='+00:00', foreign_key_checks=0;\n";

/// Writes a name in backquotes.
pub fn write_sql_name<W: Write>(name: &[u8], out: &mut W) -> io::Result<()> {
    out.write_all(b"`")?;
    let mut is_first = true;
    for part in name.split(|byte| *byte == b'`') {
        if !is_first {
            out.write_all(b"``")?;
        }
        out.write_all(part)?;
        is_first = false;
    }
    out.write_all(b"`")
}

/// Writes the literal that stands for a cell: texts and bytes as the column has them, in hexadecimal digits, and ENUM, SET
/// and BIT as numbers.
pub fn write_value<W: Write>(cell: Cell<'_>, shown: &ShownCell<'_>, out: &mut W) -> io::Result<()> {
    match shown {
        ShownCell::Null => out.write_all(b"NULL"),
        ShownCell::Bits { number, .. } => write!(out, "{number}"),
        ShownCell::Plain(plain) => match plain.value {
            TypedValue::Integer(integer) => write!(out, "{integer}"),
            TypedValue::Float(real) | TypedValue::Double(real) => write!(out, "{}", shortest(real)),
            TypedValue::Decimal(_) | TypedValue::Year(_) => write!(out, "{plain}"),
            _ => write!(out, "'{plain}'"),
        },
        ShownCell::Text(_) | ShownCell::Bytes { .. } | ShownCell::Joined(_) => write_stored(
            cell, out,
        ),
    }
}

/// A FLOAT or a DOUBLE in the fewest digits that read back as the same DOUBLE, with an exponent: without one SQL takes it for
/// a DECIMAL, which has no negative zero.
pub fn shortest(real: Real) -> ShortestReal {
    ShortestReal {
        real: Scientific::of_double(real.value),
    }
}

/// Writes a number as it is, and bytes in hexadecimal digits.
fn write_stored<W: Write>(cell: Cell<'_>, out: &mut W) -> io::Result<()> {
    match cell {
        Cell::Null => out.write_all(b"NULL"),
        Cell::Number { value, .. } => write!(out, "{value}"),
        Cell::Bytes(bytes) => {
            out.write_all(b"x'")?;
            write_digits(bytes, out)?;
            out.write_all(b"'")
        }
    }
}

//! Rows as JSON objects (RFC 8259).

use crate::json_lines::{write_json_bytes, write_json_text};
use crate::shown::{ShownCell, padded};
use crate::sql::shortest;
use columns::{Plain, TypedValue};
use formats::Encoding;
use std::alloc::Global;
use std::io;
use std::io::Write;

/// Writes a cell as a member of an object, which has the name of its column.
pub fn write_member<W: Write>(
    alloc: Global,
    name: &str,
    shown: &ShownCell<'_>,
    encoding: Encoding,
    out: &mut W,
) -> io::Result<()> {
    write_json_text(alloc, name, out)?;
    out.write_all(b":")?;
    write_value(alloc, shown, encoding, out)
}

/// Writes a cell as a value: integers, YEAR, BIT, FLOAT and DOUBLE as numbers, DECIMAL, dates, times and texts as strings,
/// bytes in this form.
fn write_value<W: Write>(
    alloc: Global,
    shown: &ShownCell<'_>,
    encoding: Encoding,
    out: &mut W,
) -> io::Result<()> {
    match shown {
        ShownCell::Null => out.write_all(b"null"),
        ShownCell::Plain(plain) => write_plain(plain, out),
        ShownCell::Bits { number, .. } => write!(out, "{number}"),
        ShownCell::Text(text) => write_json_text(alloc, text.as_str(), out),
        ShownCell::Bytes { bytes, zeros } => write_padded(alloc, bytes, *zeros, encoding, out),
        ShownCell::Joined(bytes) => write_json_bytes(alloc, bytes, encoding, out),
    }
}

/// Writes a number, a date or a time.
fn write_plain<W: Write>(plain: &Plain<'_>, out: &mut W) -> io::Result<()> {
    match plain.value {
        TypedValue::Integer(integer) => write!(out, "{integer}"),
        TypedValue::Float(real) | TypedValue::Double(real) => write!(out, "{}", shortest(real)),
        TypedValue::Year(year) => write!(out, "{}", year.year),
        _ => write!(out, "\"{plain}\""),
    }
}

/// Writes bytes with so many zeros after them.
fn write_padded<W: Write>(
    alloc: Global,
    bytes: &[u8],
    zeros: usize,
    encoding: Encoding,
    out: &mut W,
) -> io::Result<()> {
    if zeros == 0 {
        return write_json_bytes(alloc, bytes, encoding, out);
    }
    let all = padded(alloc, bytes, zeros)?;
    write_json_bytes(alloc, &all, encoding, out)
}

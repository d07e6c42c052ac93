//! Rows as JSON objects (RFC 8259).

use base64::engine::general_purpose::STANDARD;
use binlog::Cell;
use formats::{Encoding, write_hex, write_name};
use gather::ImageRef;
use std::alloc::Global;
use std::io::{ErrorKind, Write};
use std::{io, str};
use store::Listed;

/// Whether a text stands in a JSON string as it is (RFC 8259, section 7).
fn is_unescaped(text: &str) -> bool {
    text.as_bytes()
        .iter()
        .all(|byte| *byte >= b' ' && *byte != b'"' && *byte != b'\\')
}

/// Writes a text as a JSON string.
pub fn write_json_text<W: Write>(alloc: Global, text: &str, out: &mut W) -> io::Result<()> {
    if is_unescaped(text) {
        out.write_all(b"\"")?;
        out.write_all(text.as_bytes())?;
        return out.write_all(b"\"");
    }
    match serde_json::to_vec(alloc, &text) {
        Ok(json) => out.write_all(&json),
        Err(_) => Err(ErrorKind::OutOfMemory.into()),
    }
}

/// Writes a name as a JSON string; one that is not UTF-8 as the text format has it.
pub fn write_json_name<W: Write>(alloc: Global, name: &[u8], out: &mut W) -> io::Result<()> {
    if let Ok(text) = str::from_utf8(name) {
        return write_json_text(alloc, text, out);
    }
    out.write_all(b"\"")?;
    write_name(name, out)?;
    out.write_all(b"\"")
}

/// Writes bytes as a JSON string of hexadecimal digits.
fn write_digits<W: Write>(bytes: &[u8], out: &mut W) -> io::Result<()> {
    out.write_all(b"\"")?;
    write_hex(bytes, out)?;
    out.write_all(b"\"")
}

/// Writes bytes as a JSON string; those that are to be text and are not UTF-8 as an object with their digits.
pub fn write_json_bytes<W: Write>(
    alloc: Global,
    bytes: &[u8],
    encoding: Encoding,
    out: &mut W,
) -> io::Result<()> {
    match encoding {
        Encoding::Hex => write_digits(bytes, out),
        Encoding::Base64 => {
            let text = STANDARD.encode(alloc, bytes)?;
            write!(out, "\"{text}\"")
        }
        Encoding::Utf8 => {
            if let Ok(text) = str::from_utf8(bytes) {
                return write_json_text(alloc, text, out);
            }
            out.write_all(b"{\"hex\":")?;
            write_digits(bytes, out)?;
            out.write_all(b"}")
        }
    }
}

/// Writes a comma before each item but the first.
fn write_comma<W: Write>(first: bool, out: &mut W) -> io::Result<()> {
    if first {
        return Ok(());
    }
    out.write_all(b",")
}

/// Writes a cell: `null`, a number, or its bytes.
fn write_cell<W: Write>(
    alloc: Global,
    cell: Cell<'_>,
    encoding: Encoding,
    out: &mut W,
) -> io::Result<()> {
    match cell {
        Cell::Null => out.write_all(b"null"),
        Cell::Number { value, .. } => write!(out, "{value}"),
        Cell::Bytes(bytes) => write_json_bytes(alloc, bytes, encoding, out),
    }
}

/// Writes the cells of a row.
fn write_cells<W: Write>(
    alloc: Global,
    row: &ImageRef<'_>,
    encoding: Encoding,
    out: &mut W,
) -> io::Result<()> {
    let mut first = true;
    for cell in row.cells() {
        write_comma(first, out)?;
        write_cell(alloc, cell, encoding, out)?;
        first = false;
    }
    Ok(())
}

/// Writes how many bytes the source sent of each number of a row, and `null` for the other cells.
fn write_widths<W: Write>(row: &ImageRef<'_>, out: &mut W) -> io::Result<()> {
    let mut first = true;
    for cell in row.cells() {
        write_comma(first, out)?;
        match cell {
            Cell::Number { width, .. } => write!(out, "{width}")?,
            _ => out.write_all(b"null")?,
        }
        first = false;
    }
    Ok(())
}

/// Writes the members of an object for the cells of a row and their widths.
fn write_row<W: Write>(
    alloc: Global,
    row: &ImageRef<'_>,
    encoding: Encoding,
    out: &mut W,
) -> io::Result<()> {
    out.write_all(b"\"cells\":[")?;
    write_cells(alloc, row, encoding, out)?;
    out.write_all(b"],\"widths\":[")?;
    write_widths(row, out)?;
    out.write_all(b"]")
}

/// Writes an object with the cells of a row and their widths.
pub fn write_image<W: Write>(
    alloc: Global,
    row: &ImageRef<'_>,
    encoding: Encoding,
    out: &mut W,
) -> io::Result<()> {
    out.write_all(b"{")?;
    write_row(alloc, row, encoding, out)?;
    out.write_all(b"}")
}

/// Writes the object of a row, with the number of its copies, and a line feed.
pub fn write_object<W: Write>(
    alloc: Global,
    row: &Listed<'_>,
    encoding: Encoding,
    out: &mut W,
) -> io::Result<()> {
    let count = row.count;
    out.write_all(b"{\"schema\":")?;
    write_json_name(alloc, row.schema, out)?;
    out.write_all(b",\"table\":")?;
    write_json_name(alloc, row.table, out)?;
    write!(out, ",\"count\":{count},")?;
    write_row(alloc, &row.image, encoding, out)?;
    out.write_all(b"}\n")
}

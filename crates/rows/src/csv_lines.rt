//! Rows as records of comma-separated fields (RFC 4180).

use base64::engine::general_purpose::STANDARD;
use binlog::Cell;
use csv::{Error, ErrorKind, Writer, WriterBuilder};
use formats::{Encoding, write_hex, write_name};
use std::alloc::Global;
use std::io::Write;
use std::{io, str};
use store::Listed;

/// How a field begins that is no text: `\N` is NULL, and `\x` and digits are bytes.
const MARK: u8 = b'\\';

/// A writer of records with any number of fields.
#[derive(Drop)]
pub struct Records<W: Write + Drop> {
    records: Writer<W>,
}

impl<W: Write + Drop> Records<W> {
    /// A writer to this output, which has written nothing.
    pub fn new(out: W) -> Records<W> {
        let mut builder = WriterBuilder::new();
        builder.flexible(true);
        Records {
            records: builder.from_writer(out),
        }
    }

    /// Writes the record of a row: schema, table, the number of its copies, and the cells.
    pub fn write(&mut self, alloc: Global, row: &Listed<'_>, encoding: Encoding) -> io::Result<()> {
        let out = &mut self.records;
        put_name(alloc, row.schema, out)?;
        put_name(alloc, row.table, out)?;
        put_number(alloc, row.count, out)?;
        for cell in row.image.cells() {
            put_cell(alloc, cell, encoding, out)?;
        }
        match out.end_record() {
            Ok(()) => Ok(()),
            Err(error) => Err(cause_of(error)),
        }
    }

    /// Hands all that was written to the output, and flushes it.
    pub fn flush(&mut self) -> io::Result<()> {
        match self.records.flush() {
            Ok(()) => Ok(()),
            Err(error) => Err(cause_of(error)),
        }
    }
}

/// The error of the output, or of memory.
fn cause_of(error: Error) -> io::Error {
    match error.into_kind() {
        ErrorKind::Io(cause) => cause,
        ErrorKind::OutOfMemory => io::ErrorKind::OutOfMemory.into(),
        _ => io::ErrorKind::InvalidData.into(),
    }
}

fn put<W: Write + Drop>(field: &[u8], out: &mut Writer<W>) -> io::Result<()> {
    match out.write_field(field) {
        Ok(()) => Ok(()),
        Err(error) => Err(cause_of(error)),
    }
}

/// Writes a name as the text format has it.
fn put_name<W: Write + Drop>(alloc: Global, name: &[u8], out: &mut Writer<W>) -> io::Result<()> {
    let mut field = Vec::new(alloc);
    write_name(name, &mut field)?;
    put(&field, out)
}

fn put_number<W: Write + Drop>(alloc: Global, number: u64, out: &mut Writer<W>) -> io::Result<()> {
    let mut field = Vec::new(alloc);
    write!(field, "{number}")?;
    put(&field, out)
}

/// Writes bytes as `\x` and hexadecimal digits.
fn put_digits<W: Write + Drop>(alloc: Global, bytes: &[u8], out: &mut Writer<W>) -> io::Result<()> {
    let mut field = Vec::new(alloc);
    field.write_all(b"\\x")?;
    write_hex(bytes, &mut field)?;
    put(&field, out)
}

/// Writes bytes; those that are to be text and are not UTF-8, or begin with a backslash, as digits.
fn put_bytes<W: Write + Drop>(
    alloc: Global,
    bytes: &[u8],
    encoding: Encoding,
    out: &mut Writer<W>,
) -> io::Result<()> {
    match encoding {
        Encoding::Hex => put_digits(alloc, bytes, out),
        Encoding::Base64 => {
            let text = STANDARD.encode(alloc, bytes)?;
            put(text.as_bytes(), out)
        }
        Encoding::Utf8 => {
            if bytes.first() != Some(&MARK) && str::from_utf8(bytes).is_ok() {
                return put(bytes, out);
            }
            put_digits(alloc, bytes, out)
        }
    }
}

fn put_cell<W: Write + Drop>(
    alloc: Global,
    cell: Cell<'_>,
    encoding: Encoding,
    out: &mut Writer<W>,
) -> io::Result<()> {
    match cell {
        Cell::Null => put(b"\\N", out),
        Cell::Number { value, .. } => put_number(alloc, value, out),
        Cell::Bytes(bytes) => put_bytes(alloc, bytes, encoding, out),
    }
}

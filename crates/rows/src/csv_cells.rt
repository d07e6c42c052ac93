//! Rows as records of comma-separated fields (RFC 4180).

use crate::shown::ShownCell;
use crate::tsv::write_bare;
use std::io;
use std::io::Write;

/// Writes a cell as a field: `\N` for NULL, a text in quotes where it needs them, the others as the client prints them.
/// A text that begins with a backslash is in quotes, so that `\N` without them is NULL.
pub fn write_field<W: Write>(shown: &ShownCell<'_>, out: &mut W) -> io::Result<()> {
    match shown {
        ShownCell::Null => out.write_all(b"\\N"),
        ShownCell::Text(text) => write_text(text.as_str(), out),
        other => write_bare(other, out),
    }
}

/// Writes a text, in quotes where it needs them, as an empty one does: a record of one field would be an empty line.
pub fn write_text<W: Write>(text: &str, out: &mut W) -> io::Result<()> {
    let bytes = text.as_bytes();
    let needs_quotes = bytes
        .iter()
        .any(|byte| matches!(*byte, b',' | b'"' | b'\r' | b'\n'));
    if !needs_quotes && !matches!(bytes.first(), None | Some(b'\\')) {
        return out.write_all(bytes);
    }
    out.write_all(b"\"")?;
    let mut is_first = true;
    for part in bytes.split(|byte| *byte == b'"') {
        if !is_first {
            out.write_all(b"\"\"")?;
        }
        out.write_all(part)?;
        is_first = false;
    }
    out.write_all(b"\"")
}

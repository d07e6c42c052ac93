//! Names of schemas and tables, as they are printed and as an argument gives them; and the texts of arguments and of the source
//! in messages.

ghost use Rattle.std.specs.Prelude.{OnOk, flat_map};
ghost use Rattle.std.specs.Io.KnownBytes.{Appends};
ghost use Rattle.formats.specs.NameText.{name_byte, qualified_text};

use crate::hex::{byte_of, digits_of};
use std::alloc::{AllocError, Global};
use std::io::Write;
use std::{fmt, io};

/// The character that begins a byte written as two digits.
const MARK: u8 = b'%';

/// A file, a host or another argument in a message: a control character, one that turns the direction of a text, and the
/// backslash are printed as `\x` and hexadecimal digits, every other character as it is.
#[derive(Clone, Copy)]
pub struct Shown<'a>(pub &'a str);

impl fmt::Display for Shown<'_> {
    fn fmt<W: fmt::Write>(&self, f: &mut fmt::Formatter<W>) -> fmt::Result {
        for character in self.0.chars() {
            match character {
                '\0'..='\x1f'
                | '\\'
                | '\x7f'..='\u{9f}'
                | '\u{202a}'..='\u{202e}'
                | '\u{2066}'..='\u{2069}' => write!(f, "\\x{:02x}", character as u32)?,
                plain => f.write_char(plain)?,
            }
        }
        Ok(())
    }
}

/// Writes a byte of a name.
fn write_name_byte<W: Write>(byte: u8, out: &mut W) -> io::Result<()>
    ensures { OnOk result (Appends (W.contents out.old) (W.contents out.new) (name_byte byte)) }
{
    match byte {
        b'0'..=b'9' | b'A'..=b'Z' | b'a'..=b'z' | b'_' | b'$' => out.write_all(&[byte]),
        _ => {
            let [high, low] = digits_of(byte);
            out.write_all(&[MARK, high, low])
        }
    }
}

/// Writes a name: digits, letters, `_` and `$` as they are, every other byte as `%` and two hexadecimal digits.
pub fn write_name<W: Write>(name: &[u8], out: &mut W) -> io::Result<()>
    ensures { OnOk result (Appends (W.contents out.old) (W.contents out.new)
        (flat_map name_byte name.now)) }
{
    for byte in name {
        write_name_byte(*byte, out)?;
    }
    Ok(())
}

/// Writes the name of a table after that of its schema.
///
/// Clauses:
/// - where it is done, an output whose contract gives its bytes has the name of the table after what it had: every byte
///   but digits, letters, `_` and `$` is `%` and two digits (`specs/NameText.antt`)
pub fn write_table<W: Write>(schema: &[u8], table: &[u8], out: &mut W) -> io::Result<()>
    ensures { OnOk result (Appends (W.contents out.old) (W.contents out.new)
        (qualified_text schema.now table.now)) }
{
    write_name(schema, out)?;
    write!(out, ".")?;
    write_name(table, out)
}

/// The bytes of a name that is written as by `write_name`, in which any other byte may be written as itself too. `None`
/// if a `%` is not followed by two digits.
fn read_name(alloc: Global, text: &[u8]) -> Result<Option<Vec<u8>>, AllocError> {
    let mut name = Vec::new(alloc);
    let mut rest = text;
    for _ in text {
        match rest {
            [] => break,
            [MARK, high, low, after @ ..] => {
                let Some(byte) = byte_of(*high, *low) else {
                    return Ok(None);
                };
                name.push(byte)?;
                rest = after;
            }
            [MARK, ..] => return Ok(None),
            [byte, after @ ..] => {
                name.push(*byte)?;
                rest = after;
            }
        }
    }
    Ok(Some(name))
}

/// The schema and the table of `SCHEMA.TABLE`. `None` unless the text has exactly one `.`, and two digits after each
/// `%`.
pub fn read_table(alloc: Global, text: &str) -> Result<Option<(Vec<u8>, Vec<u8>)>, AllocError> {
    let mut parts = text.as_bytes().split(|byte| *byte == b'.');
    let (Some(schema), Some(table), None) = (parts.next(), parts.next(), parts.next()) else {
        return Ok(None);
    };
    let (Some(schema), Some(table)) = (read_name(alloc, schema)?, read_name(alloc, table)?) else {
        return Ok(None);
    };
    Ok(Some((schema, table)))
}

/// Writes a text of the source. Printable ASCII except the backslash is written as it is, any other byte as `\x` and two
/// hexadecimal digits.
pub fn write_escaped<W: Write>(text: &[u8], out: &mut W) -> io::Result<()> {
    for byte in text {
        match *byte {
            plain @ (b' '..=b'[' | b']'..=b'~') => out.write_all(&[plain])?,
            other => {
                let [high, low] = digits_of(other);
                out.write_all(&[b'\\', b'x', high, low])?;
            }
        }
    }
    Ok(())
}

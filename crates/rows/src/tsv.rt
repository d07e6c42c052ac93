//! Rows as the `mysql` client prints them with `--batch --binary-as-hex`.

use crate::shown::ShownCell;
use columns::Escaped;
use std::io;
use std::io::Write;

/// The digits by their value.
const DIGITS: [u8; 16] = *b"0123456789ABCDEF";

/// How many bytes have their digits written at once.
const AT_ONCE: usize = 32;

/// Writes bytes in hexadecimal digits, as the client does.
pub fn write_digits<W: Write>(bytes: &[u8], out: &mut W) -> io::Result<()> {
    let mut digits = [0; 2 * AT_ONCE];
    for part in bytes.chunks(AT_ONCE) {
        for (pair, byte) in digits.chunks_mut(2).zip(part.iter()) {
            if let [high, low] = pair {
                *high = DIGITS[usize::from(*byte / 16)];
                *low = DIGITS[usize::from(*byte % 16)];
            }
        }
        out.write_all(digits.get(..part.len().saturating_mul(2)).unwrap_or(&[]))?;
    }
    Ok(())
}

/// Writes `0x`, the digits of bytes, and those of zeros after them.
pub fn write_binary<W: Write>(bytes: &[u8], zeros: usize, out: &mut W) -> io::Result<()> {
    out.write_all(b"0x")?;
    write_digits(bytes, out)?;
    for _ in 0..zeros {
        out.write_all(b"00")?;
    }
    Ok(())
}

/// Writes `0x` and the digits of a number in so many bytes, at most eight, the highest first.
fn write_bits<W: Write>(number: u64, bytes: usize, out: &mut W) -> io::Result<()> {
    let all = number.to_be_bytes();
    let (_, low) = all.split_at(8usize.saturating_sub(bytes));
    write_binary(low, 0, out)
}

/// Writes a cell as a field of a line, without the tab or the line feed after it.
pub fn write_field<W: Write>(shown: &ShownCell<'_>, out: &mut W) -> io::Result<()> {
    match shown {
        ShownCell::Null => out.write_all(b"NULL"),
        ShownCell::Text(text) => write!(out, "{}", Escaped(text.as_str())),
        other => write_bare(other, out),
    }
}

/// Writes a cell that needs no escapes; NULL and a text are none, and nothing is written of them.
pub fn write_bare<W: Write>(shown: &ShownCell<'_>, out: &mut W) -> io::Result<()> {
    match shown {
        ShownCell::Null | ShownCell::Text(_) => Ok(()),
        ShownCell::Plain(plain) => write!(out, "{plain}"),
        ShownCell::Bits { number, bytes } => write_bits(*number, *bytes, out),
        ShownCell::Bytes { bytes, zeros } => write_binary(bytes, *zeros, out),
        ShownCell::Joined(bytes) => write_binary(bytes, 0, out),
    }
}

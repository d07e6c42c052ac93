//! Bytes as two hexadecimal digits each.

ghost use Rattle.std.specs.Prelude.{◌≡◌, ◌<◌, OnOk, flat_map};
ghost use Rattle.std.specs.Io.KnownBytes.{Appends};
ghost use Rattle.formats.specs.NameText.{hex_digit, byte_text};

use std::io;
use std::io::Write;

/// The digit of a number below 16.
fn digit_of(number: u8) -> u8
    requires { number < 16 }
    ensures { result ≡ hex_digit number }
{
    if number < 10 {
        b'0' + number
    } else {
        b'a' - 10 + number
    }
}

/// The digits of a byte.
pub fn digits_of(byte: u8) -> [u8; 2]
    ensures { result ≡ byte_text byte }
{
    [digit_of(byte / 16), digit_of(byte % 16)]
}

/// Writes the digits of bytes.
pub fn write_hex<W: Write>(bytes: &[u8], out: &mut W) -> io::Result<()>
    ensures { OnOk result (Appends (W.contents out.old) (W.contents out.new)
        (flat_map byte_text bytes.now)) }
{
    for byte in bytes {
        out.write_all(&digits_of(*byte))?;
    }
    Ok(())
}

/// The value of a digit, in either case.
fn value_of(digit: u8) -> Option<u8> {
    match digit {
        b'0'..=b'9' => Some(digit - b'0'),
        b'a'..=b'f' => Some(digit - b'a' + 10),
        b'A'..=b'F' => Some(digit - b'A' + 10),
        _ => None,
    }
}

/// The byte of two digits.
pub fn byte_of(high: u8, low: u8) -> Option<u8> {
    Some(value_of(high)? << 4 | value_of(low)?)
}

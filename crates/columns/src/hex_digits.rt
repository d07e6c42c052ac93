//! Bytes as hexadecimal digits in lower case.

ghost use Rattle.std.specs.Prelude.{◌≡◌, ◌<◌, ◌+◌, ◌*◌, ◌∷◌, ◌++◌, [], List, ℕ, Some, IfSome, IfNone, IfOk, length};
ghost use Rattle.std.specs.Char.{digit_char};
ghost use Rattle.columns.specs.Escapes.{hex_pair, hex_text, BeginsWithNoPair, AreBytes};

use std::alloc::{AllocError, Global};
use std::fmt;

/// Reads the bytes whose digits the text begins with, as far as there are any, and what follows them.
pub(crate) fn read_hex(alloc: Global, text: &[u8]) -> Result<(Vec<u8>, &[u8]), AllocError>
    ensures found { IfOk result (λ read. text.now ≡ hex_text read.0.items ++ read.1.now) }
    ensures bytes { IfOk result (λ read. AreBytes read.0.items) }
    ensures end { IfOk result (λ read. BeginsWithNoPair read.1.now) }
{
    let mut bytes = Vec::new(alloc);
    let mut left = text;
    while let Some((byte, rest)) = take_pair(left) {
        bytes.push(byte)?;
        left = rest;
    }
    Ok((bytes, left))
}

/// The byte whose two digits the text begins with, and what follows them.
fn take_pair(text: &[u8]) -> Option<(u8, &[u8])>
    ensures found { IfSome result (λ taken. text.now ≡ hex_pair taken.0 ++ taken.1.now) }
    ensures small { IfSome result (λ taken. taken.0 < 256) }
    ensures none { IfNone result (BeginsWithNoPair text.now) }
{
    let [first, second, rest @ ..] = text else {
        return None;
    };
    let high = digit_value(*first)?;
    let low = digit_value(*second)?;
    Some((high * 16 + low, rest))
}

/// The value of a hexadecimal digit in lower case.
fn digit_value(digit: u8) -> Option<u8>
    ensures small { IfSome result (λ value. value < 16) }
    ensures found { IfSome result (λ value. digit ≡ digit_char value) }
    ensures none { IfNone result ((value : ℕ) → value < 16 → digit ≡ digit_char value → ⊥) }
{
    match digit {
        b'0'..=b'9' => Some(digit - b'0'),
        b'a'..=b'f' => Some(digit - b'a' + 10),
        _ => None,
    }
}

/// The digit of a value below 16.
fn digit_of(value: u8) -> char
    requires { value < 16 }
    ensures { result ≡ digit_char value }
{
    if value < 10 {
        char::from(b'0' + value)
    } else {
        char::from(b'a' + (value - 10))
    }
}

/// Bytes that are written as hexadecimal digits.
#[derive(Clone, Copy)]
pub(crate) struct HexText<'a>(pub(crate) &'a [u8]);

/// Writes two digits for each byte. The only error is the writer's.
impl fmt::Display for HexText<'_> {
    ghost output = { λ shown. Some (hex_text shown.0.now) };

    fn fmt<W: fmt::Write>(&self, f: &mut fmt::Formatter<W>) -> fmt::Result {
        for byte in self.0 {
            f.write_char(digit_of(*byte / 16))?;
            f.write_char(digit_of(*byte % 16))?;
        }
        Ok(())
    }
}

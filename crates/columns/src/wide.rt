//! Texts whose characters take two or four bytes each.

ghost use Rattle.std.specs.Prelude.{◌≡◌, ◌++◌, ◌<◌, ◌+◌, List, ℕ, true, false, nat_lt, ◌&&◌, Some, string_bytes, IfSome, IsSomeAnd, IsTrue, IfOk, IfErr, Ok, length};
ghost use Rattle.columns.specs.CharacterSets.{unit_bytes, utf16_bytes, utf32_bytes, wide_bytes, has_character, is_scalar_value, IsSpelled};

use std::alloc::{AllocError, Global};

/// How the characters of a text are written.
#[derive(Clone, Copy, Debug, PartialEq, Eq)]
pub enum Wide {
    /// In two bytes, the higher first, so none above U+FFFF: ucs2.
    TwoBytes,
    /// In one or two units of two bytes, the higher first: utf16.
    Units,
    /// In one or two units of two bytes, the lower first: utf16le.
    LittleUnits,
    /// In four bytes, the highest first: utf32.
    FourBytes,
}

/// The text in UTF-8 of bytes in one of these forms; `None` if they are no text in it.
pub(crate) fn decode(alloc: Global, form: Wide, bytes: &[u8]) -> Result<Option<String>, AllocError>
    ensures found { IfOk result (λ made. IfSome made
        (λ text. IsSpelled form bytes.now (string_bytes text))) }
    ensures full { IfErr result (λ _. 0 < length bytes.now) }
    ensures only { (text : List ℕ) → IsSpelled form bytes.now text
        → IfOk result (λ made. IsSomeAnd made (λ found. string_bytes found ≡ text)) }
{
    let mut text = String::with_capacity(alloc, bytes.len())?;
    let mut rest = bytes;
    while !rest.is_empty() {
        let Some((character, after)) = next_character(form, rest) else {
            return Ok(None);
        };
        text.push(character)?;
        rest = after;
    }
    Ok(Some(text))
}

/// The character that the bytes begin with, and what follows it.
fn next_character(form: Wide, bytes: &[u8]) -> Option<(char, &[u8])>
    ensures is { IfSome result (λ next. IsTrue (has_character form next.0)) }
    ensures found { IfSome result (λ next. bytes.now ≡ wide_bytes form next.0 ++ next.1.now) }
    ensures shorter { IfSome result (λ next. length next.1.now < length bytes.now) }
    ensures only { (c : ℕ) (rest : List ℕ) → IsTrue (has_character form c)
        → bytes.now ≡ wide_bytes form c ++ rest → IsSomeAnd result (λ next. (next.0 ≡ c)
        × (next.1.now ≡ rest)) }
{
    match form {
        Wide::TwoBytes => next_of_two(bytes),
        Wide::Units => next_of_units(false, bytes),
        Wide::LittleUnits => next_of_units(true, bytes),
        Wide::FourBytes => next_of_four(bytes),
    }
}

/// The code unit that the bytes begin with, and what follows it.
fn next_unit(little: bool, bytes: &[u8]) -> Option<(u32, &[u8])>
    ensures small { IfSome result (λ next. next.0 < 65536) }
    ensures found { IfSome result (λ next. bytes.now ≡ unit_bytes little next.0 ++ next.1.now) }
    ensures shorter { IfSome result (λ next. length next.1.now + 2 ≡ length bytes.now) }
    ensures only { (unit : ℕ) (rest : List ℕ) → unit < 65536
        → bytes.now ≡ unit_bytes little unit ++ rest
        → IsSomeAnd result (λ next. (next.0 ≡ unit) × (next.1.now ≡ rest)) }
{
    let [a, b, rest @ ..] = bytes else {
        return None;
    };
    let unit = if little {
        u32::from(*b) * 256 + u32::from(*a)
    } else {
        u32::from(*a) * 256 + u32::from(*b)
    };
    Some((unit, rest))
}

/// The character of two bytes that the bytes begin with, and what follows it.
fn next_of_two(bytes: &[u8]) -> Option<(char, &[u8])>
    ensures is { IfSome result (λ next. IsTrue (is_scalar_value next.0 && nat_lt next.0 65536)) }
    ensures found { IfSome result (λ next. bytes.now ≡ unit_bytes false next.0 ++ next.1.now) }
    ensures shorter { IfSome result (λ next. length next.1.now < length bytes.now) }
    ensures only { (c : ℕ) (rest : List ℕ) → IsTrue (is_scalar_value c && nat_lt c 65536)
        → bytes.now ≡ unit_bytes false c ++ rest → IsSomeAnd result (λ next. (next.0 ≡ c)
        × (next.1.now ≡ rest)) }
{
    let (unit, rest) = next_unit(false, bytes)?;
    Some((char_of(unit)?, rest))
}

/// The character of this number.
fn char_of(number: u32) -> Option<char>
    ensures is { IfSome result (λ c. (c ≡ number) × IsTrue (is_scalar_value c)) }
    ensures only { IsTrue (is_scalar_value number) → result ≡ Some number }
{
    char::from_u32(number)
}

/// The character of one or two code units that the bytes begin with, and what follows it.
fn next_of_units(little: bool, bytes: &[u8]) -> Option<(char, &[u8])>
    ensures is { IfSome result (λ next. IsTrue (is_scalar_value next.0)) }
    ensures found { IfSome result (λ next. bytes.now ≡ utf16_bytes little next.0 ++ next.1.now) }
    ensures shorter { IfSome result (λ next. length next.1.now < length bytes.now) }
    ensures only { (c : ℕ) (rest : List ℕ) → IsTrue (is_scalar_value c)
        → bytes.now ≡ utf16_bytes little c ++ rest
        → IsSomeAnd result (λ next. (next.0 ≡ c) × (next.1.now ≡ rest)) }
{
    let (first, after) = next_unit(little, bytes)?;
    if let Some(character) = char_of(first) {
        return Some((character, after));
    }
    if first >= 0xdc00 {
        return None;
    }
    let (second, rest) = next_unit(little, after)?;
    if second < 0xdc00 || second >= 0xe000 {
        return None;
    }
    let character = char_of(0x10000 + (first - 0xd800) * 1024 + (second - 0xdc00))?;
    Some((character, rest))
}

/// The character of four bytes that the bytes begin with, and what follows it.
fn next_of_four(bytes: &[u8]) -> Option<(char, &[u8])>
    ensures is { IfSome result (λ next. IsTrue (is_scalar_value next.0)) }
    ensures found { IfSome result (λ next. bytes.now ≡ utf32_bytes next.0 ++ next.1.now) }
    ensures shorter { IfSome result (λ next. length next.1.now < length bytes.now) }
    ensures only { (c : ℕ) (rest : List ℕ) → IsTrue (is_scalar_value c)
        → bytes.now ≡ utf32_bytes c ++ rest → IsSomeAnd result (λ next. (next.0 ≡ c)
        × (next.1.now ≡ rest)) }
{
    let [0, a, b, c, rest @ ..] = bytes else {
        return None;
    };
    let character = char_of(u32::from(*a) * 65536 + u32::from(*b) * 256 + u32::from(*c))?;
    Some((character, rest))
}

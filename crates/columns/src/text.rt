//! Texts in UTF-8.

ghost use Rattle.std.specs.Prelude.{◌≡◌, List, ℕ, nat_lt, false, IfOk, IfErr, IfSome, IsSome, IsSomeAnd, IsTrue, MatchOption, Some, None};
ghost use Rattle.std.specs.List.{list_all};
ghost use Rattle.std.specs.Char.{encode_utf8};
ghost use Rattle.std.specs.Str.{IsUtf8};
ghost use Rattle.columns.specs.CharacterSets.{IsTextOf, IsConverted, latin1_character, written};
ghost use Rattle.columns.specs.TextBytes.{bytes_of};
ghost use Rattle.columns.specs.declared.text.Text.TheVariants.{Made};

use crate::character_set::CharacterSet;
use crate::wide::{Wide, decode};
use std::alloc::{AllocError, Global};
use std::str;

/// A text in UTF-8: the bytes of the column themselves, or others that were made of them.
#[derive(Debug, Drop)]
pub enum Text<'a> {
    Same(&'a str),
    Made(String),
}

impl<'a> Text<'a> {
    /// The text in UTF-8 of bytes of this character set. `None` if the bytes are no text of the set, or
    /// the set is another one. A half of a surrogate pair, which ucs2 may have, is no character of UTF-8.
    ///
    /// The only error is one of memory, and only latin1 with a byte of 128 or more, ucs2, utf16, utf16le and utf32 take any.
    pub fn read(
        alloc: Global,
        set: CharacterSet,
        bytes: &'a [u8],
    ) -> Result<Option<Text<'a>>, AllocError>
        ensures found { IfOk result (λ made. IfSome made
            (λ text. IsTextOf set bytes.now (bytes_of text))) }
        ensures full { IfErr result (λ _. IsConverted set bytes.now) }
        ensures only { (text : List ℕ) → IsTextOf set bytes.now text
            → IfOk result (λ made. IsSomeAnd made (λ found. bytes_of found ≡ text)) }
    {
        match set {
            CharacterSet::Utf8mb4 => Ok(same(bytes)),
            CharacterSet::Utf8mb3 => Ok(same_if(has_none_of_four(bytes), bytes)),
            CharacterSet::Ascii => Ok(same_if(is_ascii(bytes), bytes)),
            CharacterSet::Latin1 => Ok(Some(read_latin1(alloc, bytes)?)),
            CharacterSet::Ucs2 => Ok(made(decode(alloc, Wide::TwoBytes, bytes)?)),
            CharacterSet::Utf16 => Ok(made(decode(alloc, Wide::Units, bytes)?)),
            CharacterSet::Utf16le => Ok(made(decode(alloc, Wide::LittleUnits, bytes)?)),
            CharacterSet::Utf32 => Ok(made(decode(alloc, Wide::FourBytes, bytes)?)),
            CharacterSet::Other => Ok(None),
        }
    }

    /// The text.
    pub fn as_str(&self) -> &str
        ensures { result.now ≡ bytes_of self.now }
    {
        match self {
            Text::Same(text) => text,
            Text::Made(text) => text.as_str(),
        }
    }
}

/// The bytes, if they are UTF-8.
fn same(bytes: &[u8]) -> Option<Text<'_>>
    ensures found { IfSome result (λ text. (bytes_of text ≡ bytes.now) × IsUtf8 bytes.now) }
    ensures only { IsUtf8 bytes.now → IsSome result }
{
    match str::from_utf8(bytes) {
        Ok(text) => Some(Text::Same(text)),
        Err(_) => None,
    }
}

/// The bytes, if they are UTF-8 and this holds.
fn same_if(holds: bool, bytes: &[u8]) -> Option<Text<'_>>
    ensures found { IfSome result (λ text. (bytes_of text ≡ bytes.now) × IsUtf8 bytes.now
        × IsTrue holds) }
    ensures only { IsUtf8 bytes.now → IsTrue holds → IsSome result }
{
    if !holds {
        return None;
    }
    same(bytes)
}

/// The text that was made.
fn made<'a>(text: Option<String>) -> Option<Text<'a>>
    ensures { MatchOption text (result ≡ None) (λ bytes. result ≡ Some (Made bytes)) }
{
    match text {
        Some(bytes) => Some(Text::Made(bytes)),
        None => None,
    }
}

/// Whether all bytes are ASCII.
fn is_ascii(bytes: &[u8]) -> bool
    ensures { result ≡ list_all (λ byte. nat_lt byte 128) bytes.now }
{
    bytes.iter().all(|byte| *byte < 128)
}

/// Whether no byte begins a character of four bytes.
fn has_none_of_four(bytes: &[u8]) -> bool
    ensures { result ≡ list_all (λ byte. nat_lt byte 240) bytes.now }
{
    bytes.iter().all(|byte| *byte < 240)
}

/// The characters of the bytes 128 to 159 of latin1.
const LATIN1: [char; 32] = [
    '\u{20ac}', '\u{81}', '\u{201a}', '\u{192}', '\u{201e}', '\u{2026}', '\u{2020}', '\u{2021}',
    '\u{2c6}', '\u{2030}', '\u{160}', '\u{2039}', '\u{152}', '\u{8d}', '\u{17d}', '\u{8f}',
    '\u{90}', '\u{2018}', '\u{2019}', '\u{201c}', '\u{201d}', '\u{2022}', '\u{2013}', '\u{2014}',
    '\u{2dc}', '\u{2122}', '\u{161}', '\u{203a}', '\u{153}', '\u{9d}', '\u{17e}', '\u{178}',
];

/// The character of a byte of latin1.
fn character_of(byte: u8) -> char
    ensures { result ≡ latin1_character byte }
{
    if byte < 128 || byte >= 160 {
        return char::from(byte);
    }
    LATIN1[usize::from(byte) - 128]
}

/// The text of bytes of latin1.
fn read_latin1(alloc: Global, bytes: &[u8]) -> Result<Text<'_>, AllocError>
    ensures ok { IfOk result (λ text. bytes_of text
        ≡ written (λ byte. encode_utf8 (latin1_character byte)) bytes.now) }
    ensures full { IfErr result (λ _. list_all (λ byte. nat_lt byte 128) bytes.now ≡ false) }
{
    if let Some(text) = same_if(is_ascii(bytes), bytes) {
        return Ok(text);
    }
    let mut text = String::with_capacity(alloc, bytes.len())?;
    for byte in bytes {
        text.push(character_of(*byte))?;
    }
    Ok(Text::Made(text))
}

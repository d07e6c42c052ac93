//! Words of a command line that a message says to type.

use std::fmt;

/// A word of a command line for a shell: as it is, in quotes, or, if it has control characters, as what `printf` prints. Of the
/// end of that a shell takes line feeds away: a word that ends with one is in the quotes `$'..'` of bash, ksh and zsh.
#[derive(Clone, Copy)]
pub struct Quoted<'a>(pub &'a str);

/// How a word is quoted.
#[derive(Clone, Copy)]
enum Quotes {
    Single,
    Printf,
    Dollar,
}

impl fmt::Display for Quoted<'_> {
    fn fmt<W: fmt::Write>(&self, f: &mut fmt::Formatter<W>) -> fmt::Result {
        if !self.0.is_empty() && self.0.chars().all(is_plain) {
            return f.write_str(self.0);
        }
        let quotes = quotes_of(self.0);
        f.write_str(match quotes {
            Quotes::Single => "'",
            Quotes::Printf => "\"$(printf '",
            Quotes::Dollar => "$'",
        })?;
        for character in self.0.chars() {
            write_quoted(character, quotes, f)?;
        }
        f.write_str(match quotes {
            Quotes::Printf => "')\"",
            Quotes::Single | Quotes::Dollar => "'",
        })
    }
}

/// How a word has to be quoted.
fn quotes_of(word: &str) -> Quotes {
    if !word.chars().any(|character| character.is_control()) {
        return Quotes::Single;
    }
    if word.ends_with('\n') {
        return Quotes::Dollar;
    }
    Quotes::Printf
}

/// Writes a character between quotes.
fn write_quoted<W: fmt::Write>(
    character: char,
    quotes: Quotes,
    f: &mut fmt::Formatter<W>,
) -> fmt::Result {
    match (quotes, character) {
        (Quotes::Single, '\'') => f.write_str("'\\''"),
        (Quotes::Single, _) => f.write_char(character),
        (Quotes::Printf, '%') => f.write_str("%%"),
        (_, '\\') => f.write_str("\\\\"),
        (_, '\'') => f.write_str("\\047"),
        _ if character.is_control() => write_octal(character as u32, f),
        _ => f.write_char(character),
    }
}

/// Writes the bytes of a control character, which is below 0xA0, as octal digits.
fn write_octal<W: fmt::Write>(code: u32, f: &mut fmt::Formatter<W>) -> fmt::Result {
    if code >= 0x80 {
        f.write_str("\\302")?;
    }
    write!(f, "\\{}{}{}", code / 64 % 8, code / 8 % 8, code % 8)
}

/// Whether a character means itself to a shell.
fn is_plain(character: char) -> bool {
    matches!(character, 'a'..='z' | 'A'..='Z' | '0'..='9' | '_' | '-' | '.' | '/' | ',' | ':' | '@' | '%' | '+')
}

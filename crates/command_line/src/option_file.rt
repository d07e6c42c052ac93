//! What an option file of MySQL's clients says (MySQL Reference Manual, "Using Option Files").

use std::alloc::{AllocError, Global};

/// The value of an option, the last one that the sections `[client]` and `[mrep]` of a file have, without its quotes and with
/// what its escapes stand for.
pub fn option_of(alloc: Global, text: &[u8], name: &[u8]) -> Result<Option<Vec<u8>>, AllocError> {
    match last_value(text, name) {
        Some(raw) => Ok(Some(unescaped(alloc, raw)?)),
        None => Ok(None),
    }
}

/// The last value of an option in the sections that are read, as it stands there.
fn last_value<'t>(text: &'t [u8], name: &[u8]) -> Option<&'t [u8]> {
    let mut found = None;
    let mut is_read = false;
    for line in text.split(|byte| *byte == b'\n') {
        match line.trim_ascii() {
            [b'[', section @ .., b']'] => is_read = matches!(section, b"client" | b"mrep"),
            line if is_read => found = value_in(line, name).or(found),
            _ => {}
        }
    }
    found
}

/// The value of an option in a line, if the line is about it.
fn value_in<'t>(line: &'t [u8], name: &[u8]) -> Option<&'t [u8]> {
    let at = line.iter().position(|byte| *byte == b'=')?;
    let (option, value) = line.split_at_checked(at)?;
    if option.trim_ascii() != name {
        return None;
    }
    let [_, value @ ..] = value else {
        return None;
    };
    Some(unquoted(without_comment(value).trim_ascii()))
}

/// A value without the comment that may follow it, which begins at a `#` outside of quotes.
fn without_comment(value: &[u8]) -> &[u8] {
    let mut quote = None;
    for (at, byte) in value.iter().enumerate() {
        match (quote, *byte) {
            (None, b'#') => return value.get(..at).unwrap_or(value),
            (None, mark @ (b'"' | b'\'')) => quote = Some(mark),
            (Some(open), mark) if open == mark => quote = None,
            _ => {}
        }
    }
    value
}

/// A value without the quotes around it.
fn unquoted(value: &[u8]) -> &[u8] {
    match value {
        [b'"', inner @ .., b'"'] | [b'\'', inner @ .., b'\''] => inner,
        plain => plain,
    }
}

/// A value with what its escapes stand for; a backslash before another letter stays.
fn unescaped(alloc: Global, raw: &[u8]) -> Result<Vec<u8>, AllocError> {
    let mut value = Vec::new(alloc);
    let mut rest = raw;
    for _ in raw {
        match rest {
            [] => break,
            [b'\\', letter, after @ ..] if escape(*letter).is_some() => {
                value.push(escape(*letter).unwrap_or(*letter))?;
                rest = after;
            }
            [byte, after @ ..] => {
                value.push(*byte)?;
                rest = after;
            }
        }
    }
    Ok(value)
}

/// What a letter after a backslash stands for.
fn escape(letter: u8) -> Option<u8> {
    match letter {
        b'b' => Some(8),
        b't' => Some(b'\t'),
        b'n' => Some(b'\n'),
        b'r' => Some(b'\r'),
        b's' => Some(b' '),
        b'\\' => Some(b'\\'),
        _ => None,
    }
}

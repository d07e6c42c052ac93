//! Options as the clients of MySQL have them: `-h HOST`, `-u USER` and `-P PORT`, with a blank or without.

use crate::table::{Argument, arguments_of};
use std::alloc::{AllocError, Global};
use std::convert::AsStr;

/// The command that connects.
const FOLLOW: &str = "follow";

/// The words of a command line, with the long names of these options. `-h` with no word after it, and in another command, is
/// help. The value of an option is left as it is.
pub fn spelled_out<'a, S: AsStr>(
    alloc: Global,
    words: &'a [S],
) -> Result<Vec<&'a str>, AllocError> {
    let mut texts = Vec::with_capacity(alloc, words.len())?;
    let follows = match words {
        [_, name, ..] => name.as_str() == FOLLOW,
        _ => false,
    };
    let mut is_value = false;
    for (at, word) in words.iter().enumerate() {
        let word = word.as_str();
        let next = words.get(at.saturating_add(1)).map(|next| next.as_str());
        if is_value || !follows {
            texts.push(word)?;
            is_value = false;
        } else {
            is_value = push_option(word, next, &mut texts)?;
        }
    }
    Ok(texts)
}

/// Adds a word that is no value, before this one. Answers whether the next word is its value.
fn push_option<'a>(
    word: &'a str,
    next: Option<&str>,
    texts: &mut Vec<&'a str>,
) -> Result<bool, AllocError> {
    let Some((name, value)) = long_name(word, next) else {
        texts.push(word)?;
        return Ok(has_value(word));
    };
    texts.push(name)?;
    if !value.is_empty() {
        texts.push(value)?;
    }
    Ok(value.is_empty())
}

/// Whether a word is an option of the command whose value is the next word.
fn has_value(word: &str) -> bool {
    let Some(name) = word.strip_prefix("--") else {
        return false;
    };
    for Argument(option, kind, _) in arguments_of(FOLLOW) {
        if *option == name && kind.value().is_some() {
            return true;
        }
    }
    false
}

/// The long name of an option, and the value that stands in the same word.
fn long_name<'a>(word: &'a str, next: Option<&str>) -> Option<(&'static str, &'a str)> {
    if let Some(value) = word.strip_prefix("-u") {
        return Some(("--user", value));
    }
    if let Some(value) = word.strip_prefix("-P") {
        return Some(("--port", value));
    }
    match (word.strip_prefix("-h")?, next) {
        ("", None) => None,
        ("", Some(next)) if next.starts_with('-') => None,
        (value, _) => Some(("--host", value)),
    }
}

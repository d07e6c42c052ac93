//! Mistakes in the arguments.

use crate::table::{Argument, arguments_of, grammar};
use clap::Command;
use clap::error::ErrorKind;
use formats::Shown;
use std::alloc::{AllocError, Global};
use std::convert::AsStr;

const NO_COMMAND: &str = "a command is required";

const INPUT_AGAIN: &str = "standard input, `-`, is one stream, and cannot be given twice";

/// No command is given.
pub fn no_command(command: &mut Command<'_>) -> Result<clap::Error, AllocError> {
    command.error(ErrorKind::MissingSubcommand, NO_COMMAND)
}

/// Standard input is given as two streams.
pub fn input_again(command: &mut Command<'_>) -> Result<clap::Error, AllocError> {
    command.error(ErrorKind::ArgumentConflict, INPUT_AGAIN)
}

/// The error that words give, with their control characters escaped in its text. `raw` is that of the first parse.
pub fn escaped<S: AsStr>(
    alloc: Global,
    words: &[S],
    raw: clap::Error,
) -> Result<clap::Error, AllocError> {
    match second_error(alloc, words)? {
        Some(error) => Ok(error),
        None => Ok(raw),
    }
}

/// The error of a second parse, of words that are escaped, if it has one.
fn second_error<S: AsStr>(alloc: Global, words: &[S]) -> Result<Option<clap::Error>, AllocError> {
    let texts = texts_of(alloc, words)?;
    let mut command = grammar(alloc)?;
    Ok(command.try_get_matches_from_mut(texts.as_slice()).err())
}

/// Words with their control characters escaped.
fn texts_of<S: AsStr>(alloc: Global, words: &[S]) -> Result<Vec<String>, AllocError> {
    let mut texts = Vec::with_capacity(alloc, words.len())?;
    for word in words {
        texts.push(format!(in alloc; "{}", Shown(word.as_str()))?)?;
    }
    Ok(texts)
}

/// What a command is called elsewhere, and what to type.
static ELSEWHERE: [(&str, &str); 19] = [
    ("version", "mrep --version"),
    ("status", "mrep info --db F, or follow --status FILE"),
    ("start", "mrep follow"),
    ("run", "mrep follow"),
    ("sync", "mrep follow"),
    ("watch", "mrep follow --changes -"),
    ("tail", "mrep follow --changes -"),
    ("stream", "mrep follow --changes -"),
    ("init", "mrep replay --db F --only SCHEMA.TABLE /dev/null"),
    ("create", "mrep replay --db F --only SCHEMA.TABLE /dev/null"),
    ("snapshot", "mrep select, the mysql client, and mrep load"),
    (
        "import",
        "mrep load, of what the statements of mrep select print",
    ),
    (
        "restore",
        "mrep load, or a file of mrep copy under the name of the database",
    ),
    ("backup", "mrep copy --db F TO"),
    (
        "dump",
        "mrep show --db F, or mrep export for an SQLite file",
    ),
    (
        "query",
        "mrep export, and sqlite3 with the file that it makes",
    ),
    (
        "sql",
        "mrep export, and sqlite3 with the file that it makes",
    ),
    ("ls", "mrep tables --db F"),
    ("diff", "mrep verify"),
];

const DATABASE: &str = "the database is given by --db: --db F";

const PASSWORD: &str =
    "a password is given in a file, by --password-file W, or as password=.. in the section [client] of ~/.my.cnf";

/// What to type, of words that are no command line, if that is known.
pub fn tip<S: AsStr>(words: &[S]) -> Option<&'static str> {
    let [_, name, rest @ ..] = words else {
        return None;
    };
    let name = name.as_str();
    if let Some(typed) = called_elsewhere(name) {
        return Some(typed);
    }
    if name == "follow" && has_password(rest) {
        return Some(PASSWORD);
    }
    if takes_database(name) && !has_database(rest) {
        return Some(DATABASE);
    }
    None
}

/// What to type for a command that has this name elsewhere.
fn called_elsewhere(name: &str) -> Option<&'static str> {
    for (other, typed) in elsewhere() {
        if name == *other {
            return Some(*typed);
        }
    }
    None
}

fn elsewhere() -> &'static [(&'static str, &'static str)] {
    &ELSEWHERE
}

/// Whether a word is the option of a password, as the clients of MySQL have it.
fn is_password(word: &str) -> bool {
    word == "--password"
        || word.starts_with("--password=")
        || (word.starts_with("-p") && !word.starts_with("--"))
}

/// Whether one of these words is such an option.
fn has_password<S: AsStr>(words: &[S]) -> bool {
    for word in words {
        if is_password(word.as_str()) {
            return true;
        }
    }
    false
}

/// Whether one of these words is the option of a database.
fn has_database<S: AsStr>(words: &[S]) -> bool {
    for word in words {
        if word.as_str().starts_with("--db") {
            return true;
        }
    }
    false
}

/// Whether a command of this name takes a database.
fn takes_database(name: &str) -> bool {
    for Argument(argument, ..) in arguments_of(name) {
        if *argument == "db" {
            return true;
        }
    }
    false
}

//! How the files of an SQLite database begin, and which names it takes for others (SQLite, "Database File Format").

use crate::unsupported::unsupported_in;
use crate::what_is_named::read_head;
use std::os::unix::fs::FileExt;
use std::{fs, io};

/// How an SQLite file begins (section 1.3).
pub const MAGIC: [u8; 16] = *b"SQLite format 3\0";

/// Where the page number of the first frame stands in a WAL file, after that file's header (section 4.1), and where it
/// ends.
const FIRST_PAGE: usize = 32;

const FIRST_PAGE_END: usize = FIRST_PAGE + 4;

pub const NO_DATABASE: &str = "not an SQLite database";

const DAMAGED: &str =
    "the database is damaged: its pages or its schema cannot be read, or a row does not obey it";

/// Whether SQLite has another meaning for a name (SQLite, "Uniform Resource Identifiers", and "In-Memory Databases").
pub fn is_special(name: &str) -> bool {
    name == ":memory:" || name.starts_with("file:")
}

/// Whether a file begins as an SQLite file.
pub fn is_database(rt: &HostRuntime, name: &str) -> io::Result<bool> {
    Ok(read_head::<16>(rt, name)? == Some(MAGIC))
}

/// Whether a file is what is left of an SQLite file: it begins as one, but for bytes that are zeros or missing. A killed
/// export leaves its first byte zero, and a power failure sectors.
pub fn may_be_left(rt: &HostRuntime, name: &str) -> io::Result<bool> {
    let file = fs::open(rt, name)?;
    let mut found = [0u8; MAGIC.len()];
    let there = file.metadata()?.len().min(MAGIC.len() as u64);
    if let Some(found) = found.get_mut(..there as usize) {
        file.read_exact_at(found, 0)?;
    }
    Ok(
        found
            .iter()
            .zip(MAGIC.iter())
            .all(|(it, whole)| *it == *whole || *it == 0),
    )
}

/// Whether a WAL file has a first frame: its page number is there and is not 0.
pub fn has_frames(rt: &HostRuntime, wal: &str) -> io::Result<bool> {
    let Some(head) = read_head::<FIRST_PAGE_END>(rt, wal)? else {
        return Ok(false);
    };
    Ok(head[FIRST_PAGE..] != [0; 4])
}

/// Why a file that could be opened is not taken for a database.
pub fn reading_fault(rt: &HostRuntime, path: &str) -> &'static str {
    match is_database(rt, path) {
        Ok(false) => NO_DATABASE,
        _ => unsupported_in(rt, path).unwrap_or(DAMAGED),
    }
}

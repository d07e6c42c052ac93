//! What of SQLite's file format a sound file has that is not supported (SQLite, "Database File Format", sections 1.3, 1.6 and
//! 2.6).

use std::fs::File;
use std::os::unix::fs::FileExt;
use std::{fs, io};

/// How long the header of a file is, with that of the b-tree of its first page.
pub const HEAD: usize = 112;

/// Where the header has the size of a page, how many bytes of each are reserved, the largest root page where auto_vacuum is
/// on, and the encoding of texts.
pub const PAGE_SIZE: usize = 16;

const RESERVED: usize = 20;

const AUTO_VACUUM: usize = 52;

const ENCODING: usize = 56;

const UTF_8: u32 = 1;

/// Where the b-tree of the schema has its type, how many cells it has, and the page after these.
pub const TREE: usize = 100;

pub const CELLS: usize = 103;

pub const LAST_CHILD: usize = 108;

/// The type of a page of a table's b-tree that has others below it, and where the offsets of its cells begin.
pub const INTERIOR: u8 = 5;

/// How the text of a virtual table begins in the schema.
const VIRTUAL: &[u8] = b"CREATE VIRTUAL TABLE";

const HAS_AUTO_VACUUM: &str =
    "a database with auto_vacuum is not supported: in sqlite3, PRAGMA auto_vacuum = 0 and VACUUM take it away";

const HAS_UTF_16: &str = "a database with texts in UTF-16 is not supported";

const HAS_RESERVED: &str = "a database with reserved bytes in each page is not supported";

const HAS_VIRTUAL: &str = "a database with a virtual table is not supported";

/// What a file has that is not supported, if that is found.
pub fn unsupported_in(rt: &HostRuntime, path: &str) -> Option<&'static str> {
    match find(rt, path) {
        Ok(found) => found,
        Err(_) => None,
    }
}

fn find(rt: &HostRuntime, path: &str) -> io::Result<Option<&'static str>> {
    let file = fs::open(rt, path)?;
    let mut head = [0u8; HEAD];
    file.read_exact_at(&mut head, 0)?;
    if number_at(&head, AUTO_VACUUM) != 0 {
        return Ok(Some(HAS_AUTO_VACUUM));
    }
    if number_at(&head, ENCODING) > UTF_8 {
        return Ok(Some(HAS_UTF_16));
    }
    if head[RESERVED] != 0 {
        return Ok(Some(HAS_RESERVED));
    }
    if has_virtual_table(rt, &file, &head)? {
        return Ok(Some(HAS_VIRTUAL));
    }
    Ok(None)
}

/// The number of four bytes at a place of a page.
pub fn number_at(page: &[u8], at: usize) -> u32 {
    match page.get(at..) {
        Some([a, b, c, d, ..]) => u32::from_be_bytes([*a, *b, *c, *d]),
        _ => 0,
    }
}

/// The number of two bytes at a place of a page.
pub fn short_at(page: &[u8], at: usize) -> usize {
    match page.get(at..) {
        Some([a, b, ..]) => usize::from(u16::from_be_bytes([*a, *b])),
        _ => 0,
    }
}

/// Whether a page of the schema has a virtual table: its first page, or one of those directly below it.
fn has_virtual_table(rt: &HostRuntime, file: &File, head: &[u8; HEAD]) -> io::Result<bool> {
    let size = match short_at(head, PAGE_SIZE) {
        1 => 65_536,
        size => size,
    };
    let mut first = vec![in rt.alloc(); 0u8; size]?;
    file.read_exact_at(&mut first, 0)?;
    if head[TREE] != INTERIOR {
        return Ok(has_text(&first));
    }
    let mut page = vec![in rt.alloc(); 0u8; size]?;
    let cells = short_at(head, CELLS);
    for cell in 0..=cells {
        let at = if cell < cells {
            short_at(&first, HEAD.saturating_add(cell.saturating_mul(2)))
        } else {
            LAST_CHILD
        };
        let child = u64::from(number_at(&first, at));
        file.read_exact_at(
            &mut page,
            child.saturating_sub(1).saturating_mul(size as u64),
        )?;
        if has_text(&page) {
            return Ok(true);
        }
    }
    Ok(false)
}

/// Whether a page has the beginning of a virtual table's text.
fn has_text(page: &[u8]) -> bool {
    page.windows(VIRTUAL.len()).any(|text| text == VIRTUAL)
}

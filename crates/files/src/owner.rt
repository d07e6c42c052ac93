//! Whose tables a database file has, by the statements in its schema (SQLite, "Database File Format", sections 1.6 and 2.6).

use crate::unsupported::{CELLS, HEAD, INTERIOR, LAST_CHILD, PAGE_SIZE, TREE, number_at, short_at};
use std::fs::File;
use std::os::unix::fs::FileExt;
use std::{fs, io};

/// The type of a page of a table's b-tree that has cells alone.
const LEAF: u8 = 13;

/// Where a page below the first one has how many cells it has, and where the offsets of these begin.
const COUNT: usize = 3;

const OFFSETS: usize = 8;

/// How much stands in a cell beside its payload, at most.
const CELL_HEAD: usize = 18;

/// How a table's statement begins, as SQLite writes it.
const TABLE: &[u8] = b"CREATE TABLE ";

/// The tables of this program, of each layout.
const OWN: [&[u8]; 5] = [b"held", b"spans", b"meta", b"follow", b"executed"];

/// Whose tables a database file has, without those that stand in its WAL file alone.
#[derive(Clone, Copy, PartialEq, Eq)]
pub enum Owner {
    /// One of them has the name of one of this program.
    This,
    /// It has tables, and none of this program.
    Other,
    /// It has none.
    Nobody,
}

/// Whose tables a database file has: those of the first page of its schema, or of those directly below it.
pub fn owner_of(rt: &HostRuntime, path: &str) -> io::Result<Owner> {
    let file = fs::open(rt, path)?;
    let mut head = [0u8; HEAD];
    file.read_exact_at(&mut head, 0)?;
    let size = match short_at(&head, PAGE_SIZE) {
        1 => 65_536,
        size => size,
    };
    let mut first = vec![in rt.alloc(); 0u8; size]?;
    file.read_exact_at(&mut first, 0)?;
    if head[TREE] == INTERIOR {
        return owner_below(rt, &file, &first);
    }
    Ok(owner_in(&first, TREE))
}

/// Whose tables the pages below the first one have.
fn owner_below(rt: &HostRuntime, file: &File, first: &[u8]) -> io::Result<Owner> {
    let mut page = vec![in rt.alloc(); 0u8; first.len()]?;
    let mut owner = Owner::Nobody;
    let cells = short_at(first, CELLS);
    for cell in 0..=cells {
        let at = if cell < cells {
            short_at(first, HEAD.saturating_add(cell.saturating_mul(2)))
        } else {
            LAST_CHILD
        };
        let before = u64::from(number_at(first, at)).saturating_sub(1);
        file.read_exact_at(&mut page, before.saturating_mul(first.len() as u64))?;
        match owner_in(&page, 0) {
            Owner::This => return Ok(Owner::This),
            Owner::Other => owner = Owner::Other,
            Owner::Nobody => {}
        }
    }
    Ok(owner)
}

/// Whose tables a page has, whose b-tree begins at this place.
fn owner_in(page: &[u8], tree: usize) -> Owner {
    let mut owner = Owner::Nobody;
    if page.get(tree) != Some(&LEAF) {
        return owner;
    }
    for cell in 0..short_at(page, tree.saturating_add(COUNT)) {
        let offset = OFFSETS.saturating_add(cell.saturating_mul(2));
        let at = short_at(page, tree.saturating_add(offset));
        match owner_of_cell(page.get(at..).unwrap_or(&[])) {
            Owner::This => return Owner::This,
            Owner::Other => owner = Owner::Other,
            Owner::Nobody => {}
        }
    }
    owner
}

/// Whose the table of a cell is, if the cell has a table's statement; what stands after the cell is none of it.
fn owner_of_cell(rest: &[u8]) -> Owner {
    let end = payload_size(rest).saturating_add(CELL_HEAD);
    let cell = rest.get(..end).unwrap_or(rest);
    let Some(at) = cell.windows(TABLE.len()).position(|text| text == TABLE) else {
        return Owner::Nobody;
    };
    let name = cell.get(at.saturating_add(TABLE.len())..).unwrap_or(&[]);
    if is_own(name) {
        return Owner::This;
    }
    Owner::Other
}

/// The size of a cell's payload, which it begins with: seven bits a byte, up to the first byte without the highest bit.
fn payload_size(cell: &[u8]) -> usize {
    let mut size = 0usize;
    for byte in cell {
        size = size
            .saturating_mul(128)
            .saturating_add(usize::from(*byte & 0x7f));
        if *byte < 0x80 {
            break;
        }
    }
    size
}

/// Whether a text begins with the name of a table of this program, with quotes or without.
fn is_own(text: &[u8]) -> bool {
    let text = match text {
        [b'"' | b'\'' | b'`' | b'[', after @ ..] => after,
        plain => plain,
    };
    for own in OWN {
        if let Some((name, rest)) = text.split_at_checked(own.len())
            && name.eq_ignore_ascii_case(own)
            && !matches!(rest, [b'0'..=b'9' | b'A'..=b'Z' | b'a'..=b'z' | b'_' | b'$', ..])
        {
            return true;
        }
    }
    false
}

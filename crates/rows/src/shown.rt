//! What a cell is to a reader.

use crate::misfit::{CellError, Fault};
use binlog::Cell;
use columns::{
    CharacterSet, Column, ColumnType, DataType, Plain, Text, TypeName, TypedValue, joined_members,
    member_at, read_ordinal, read_set,
};
use std::alloc::{AllocError, Global};
use std::str;

/// A cell as a reader sees it.
#[derive(Drop)]
pub enum ShownCell<'a> {
    Null,
    /// A number, a date or a time.
    Plain(Plain<'a>),
    /// The number of a BIT, and how many bytes it takes.
    Bits { number: u64, bytes: usize },
    Text(Text<'a>),
    /// Bytes, and how many zeros follow them.
    Bytes { bytes: &'a [u8], zeros: usize },
    /// The bytes of several members of a SET, with commas between.
    Joined(Vec<u8>),
}

/// What the cell of a column is to a reader.
pub fn show<'a>(
    alloc: Global,
    column: &'a Column,
    cell: Cell<'a>,
) -> Result<ShownCell<'a>, CellError> {
    if cell == Cell::Null {
        return Ok(ShownCell::Null);
    }
    match &column.kind {
        ColumnType::Scalar(kind) => show_scalar(alloc, column, *kind, cell),
        ColumnType::Enum(list) => {
            let ordinal = read_ordinal(list.count(), cell)?;
            show_member(column, member_at(&list.members, ordinal))
        }
        ColumnType::Set(list) => {
            let bits = read_set(list.count(), cell)?;
            show_joined(column, joined_members(alloc, &list.members, bits)?)
        }
    }
}

/// What the cell of a column of another type than ENUM and SET is to a reader.
fn show_scalar<'a>(
    alloc: Global,
    column: &'a Column,
    kind: DataType,
    cell: Cell<'a>,
) -> Result<ShownCell<'a>, CellError> {
    let value = TypedValue::read(kind, cell)?;
    match value {
        TypedValue::Text(bytes) => show_text(alloc, column, kind, bytes),
        TypedValue::Bytes(bytes) => Ok(ShownCell::Bytes {
            bytes,
            zeros: kind.padding(bytes.len()),
        }),
        TypedValue::Bits(number) => Ok(ShownCell::Bits {
            number,
            bytes: (kind.numbers.first() as usize).saturating_add(7) / 8,
        }),
        _ => Ok(ShownCell::Plain(Plain { kind, value })),
    }
}

/// What bytes of a column with a character set are to a reader: a text, or bytes where the set is none of those that are
/// known here.
fn show_text<'a>(
    alloc: Global,
    column: &Column,
    kind: DataType,
    bytes: &'a [u8],
) -> Result<ShownCell<'a>, CellError> {
    let set = match &column.character_set {
        Some(name) => CharacterSet::of(name.as_str()),
        None => CharacterSet::Other,
    };
    if set == CharacterSet::Other {
        return Ok(ShownCell::Bytes { bytes, zeros: 0 });
    }
    let Some(text) = Text::read(alloc, set, bytes)? else {
        return Err(CellError::Fault(Fault::CharacterSet));
    };
    if matches!(kind.name, TypeName::Char | TypeName::Varchar)
        && !is_within(text.as_str(), kind.numbers.first() as usize)
    {
        return Err(CellError::Fault(Fault::Length));
    }
    Ok(ShownCell::Text(text))
}

/// Whether a text has at most so many characters.
fn is_within(text: &str, most: usize) -> bool {
    text.len() <= most || text.chars().count() <= most
}

/// What the member of an ENUM is to a reader: a text, or bytes where the column has no character set.
fn show_member<'a>(column: &Column, member: &'a [u8]) -> Result<ShownCell<'a>, CellError> {
    if column.character_set.is_none() {
        return Ok(ShownCell::Bytes {
            bytes: member,
            zeros: 0,
        });
    }
    match str::from_utf8(member) {
        Ok(text) => Ok(ShownCell::Text(Text::Same(text))),
        Err(_) => Err(CellError::Fault(Fault::CharacterSet)),
    }
}

/// What the members of a SET are to a reader: a text, or bytes where the column has no character set.
fn show_joined<'a>(column: &Column, all: Vec<u8>) -> Result<ShownCell<'a>, CellError> {
    if column.character_set.is_none() {
        return Ok(ShownCell::Joined(all));
    }
    match String::from_utf8(all) {
        Ok(text) => Ok(ShownCell::Text(Text::Made(text))),
        Err(_) => Err(CellError::Fault(Fault::CharacterSet)),
    }
}

/// Bytes with so many zeros after them.
pub fn padded(alloc: Global, bytes: &[u8], zeros: usize) -> Result<Vec<u8>, AllocError> {
    let mut all = Vec::from_slice(alloc, bytes)?;
    for _ in 0..zeros {
        all.push(0)?;
    }
    Ok(all)
}

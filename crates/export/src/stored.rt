//! What a cell is in SQLite.

use columns::{Integer, Plain, Text, TypedValue};
use rows::{ShownCell, padded};
use sqlite::types::ValueRef;
use std::alloc::{AllocError, Global};

/// What a cell is in SQLite: a value, or what it borrows from.
#[derive(Drop)]
pub enum Stored<'a> {
    Null,
    Integer(i64),
    Real(f64),
    Text(Text<'a>),
    /// Another text: of a date, a time, a DECIMAL, or of an integer that SQLite's do not hold.
    Made(String),
    Bytes(&'a [u8]),
    Joined(Vec<u8>),
}

impl Stored<'_> {
    /// The value.
    pub fn value(&self) -> ValueRef<'_> {
        match self {
            Stored::Null => ValueRef::Null,
            Stored::Integer(integer) => ValueRef::Int(*integer),
            Stored::Real(real) => ValueRef::Real(*real),
            Stored::Text(text) => ValueRef::Text(text.as_str().as_bytes()),
            Stored::Made(text) => ValueRef::Text(text.as_str().as_bytes()),
            Stored::Bytes(bytes) => ValueRef::Blob(bytes),
            Stored::Joined(bytes) => ValueRef::Blob(bytes),
        }
    }
}

/// What a cell that is shown is in SQLite.
pub fn store<'a>(alloc: Global, shown: ShownCell<'a>) -> Result<Stored<'a>, AllocError> {
    match shown {
        ShownCell::Null => Ok(Stored::Null),
        ShownCell::Plain(plain) => store_plain(alloc, plain),
        ShownCell::Bits { number, .. } => store_number(alloc, number),
        ShownCell::Text(text) => Ok(Stored::Text(text)),
        ShownCell::Bytes { bytes, zeros: 0 } => Ok(Stored::Bytes(bytes)),
        ShownCell::Bytes { bytes, zeros } => Ok(Stored::Joined(padded(alloc, bytes, zeros)?)),
        ShownCell::Joined(bytes) => Ok(Stored::Joined(bytes)),
    }
}

/// What a number, a date or a time is in SQLite: integers, FLOAT, DOUBLE and YEAR are numbers, and the others are as the client
/// prints them.
fn store_plain<'a>(alloc: Global, plain: Plain<'_>) -> Result<Stored<'a>, AllocError> {
    match plain.value {
        TypedValue::Integer(Integer::Signed(integer)) => Ok(Stored::Integer(integer)),
        TypedValue::Integer(Integer::Unsigned(number)) => store_number(alloc, number),
        TypedValue::Float(real) | TypedValue::Double(real) => Ok(Stored::Real(real.value)),
        TypedValue::Year(year) => Ok(Stored::Integer(i64::from(year.year))),
        _ => Ok(Stored::Made(format!(in alloc; "{plain}")?)),
    }
}

/// What a number is in SQLite: an integer if SQLite's hold it, else its digits.
fn store_number<'a>(alloc: Global, number: u64) -> Result<Stored<'a>, AllocError> {
    match i64::try_from(number) {
        Ok(integer) => Ok(Stored::Integer(integer)),
        Err(_) => Ok(Stored::Made(format!(in alloc; "{number}")?)),
    }
}

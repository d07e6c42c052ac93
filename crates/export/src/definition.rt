//! The statements that make a table of SQLite, and add a row to it.

use columns::{
    CharacterSet, Column, ColumnType, DataType, DescribedTable, IntegerWidth, Key, Shape, Sign,
};
use std::alloc::{AllocError, Global};

const INTEGER: &str = "INTEGER";

const TEXT: &str = "TEXT";

const BLOB: &str = "BLOB";

/// The type of columns whose values are as they were written, whatever they are.
const ANY: &str = "ANY";

/// How many bits an integer of SQLite has beside its sign.
const MOST_BITS: u8 = 63;

/// The type of a column in SQLite.
fn type_of(column: &Column) -> &'static str {
    match &column.kind {
        ColumnType::Scalar(kind) => type_of_scalar(*kind, column),
        ColumnType::Enum(_) | ColumnType::Set(_) if column.character_set.is_none() => BLOB,
        ColumnType::Enum(_) | ColumnType::Set(_) => TEXT,
    }
}

/// The type of a column in SQLite that has another type than ENUM and SET.
///
/// FLOAT and DOUBLE are ANY, since a REAL column makes -0.0 an integer, 0; and so are integers that SQLite's may not hold, and
/// types whose cells are never shown.
fn type_of_scalar(kind: DataType, column: &Column) -> &'static str {
    match kind.shape() {
        Shape::Integer(IntegerWidth::Eight) if kind.sign != Sign::Signed => ANY,
        Shape::Integer(_) | Shape::Year => INTEGER,
        Shape::Bits(bits) if bits <= MOST_BITS => INTEGER,
        Shape::Decimal { .. }
        | Shape::Date
        | Shape::Time(_)
        | Shape::Datetime(_)
        | Shape::Timestamp(_) => TEXT,
        Shape::Text(_) => type_of_text(column),
        Shape::Bytes(_) => BLOB,
        Shape::Bits(_) | Shape::Float | Shape::Double | Shape::Other => ANY,
    }
}

/// The type of a column of texts: bytes where its character set is none of those that are known here.
fn type_of_text(column: &Column) -> &'static str {
    match &column.character_set {
        Some(name) if CharacterSet::of(name.as_str()) != CharacterSet::Other => TEXT,
        _ => BLOB,
    }
}

/// Writes a name in double quotes.
fn push_name(text: &mut String, name: &str) -> Result<(), AllocError> {
    text.push_str("\"")?;
    let mut is_first = true;
    for part in name.split('"') {
        if !is_first {
            text.push_str("\"\"")?;
        }
        text.push_str(part)?;
        is_first = false;
    }
    text.push_str("\"")
}

/// Whether the key of a table is one column of integers, which is the rowid then.
fn has_rowid_key(table: &DescribedTable) -> bool {
    let mut key = None;
    for column in &table.columns {
        if column.key == Key::Pri {
            if key.is_some() {
                return false;
            }
            key = Some(column);
        }
    }
    match key {
        Some(column) => type_of(column) == INTEGER,
        None => false,
    }
}

/// The statement that makes a table of this name.
pub fn creation(alloc: Global, table: &DescribedTable, name: &str) -> Result<String, AllocError> {
    let mut text = String::from_str(alloc, "CREATE TABLE ")?;
    push_name(&mut text, name)?;
    let has_rowid = has_rowid_key(table);
    let mut before = " (";
    for column in &table.columns {
        text.push_str(before)?;
        push_column(&mut text, column, has_rowid)?;
        before = ", ";
    }
    if !has_rowid {
        push_key(&mut text, table)?;
    }
    text.push_str(") STRICT")?;
    Ok(text)
}

/// Writes the definition of a column.
fn push_column(text: &mut String, column: &Column, has_rowid: bool) -> Result<(), AllocError> {
    push_name(text, column.name.as_str())?;
    text.push_str(" ")?;
    text.push_str(type_of(column))?;
    if column.key != Key::Pri {
        return Ok(());
    }
    text.push_str(if has_rowid {
        " PRIMARY KEY"
    } else {
        " NOT NULL"
    })
}

/// Writes the key of a table, if it has one.
fn push_key(text: &mut String, table: &DescribedTable) -> Result<(), AllocError> {
    let mut before = ", PRIMARY KEY (";
    for column in &table.columns {
        if column.key == Key::Pri {
            text.push_str(before)?;
            push_name(text, column.name.as_str())?;
            before = ", ";
        }
    }
    if before == ", " {
        text.push_str(")")?;
    }
    Ok(())
}

/// The statement that adds a row to a table of this name.
pub fn insertion(alloc: Global, table: &DescribedTable, name: &str) -> Result<String, AllocError> {
    let mut text = String::from_str(alloc, "INSERT INTO ")?;
    push_name(&mut text, name)?;
    let mut before = " VALUES (?";
    for _ in &table.columns {
        text.push_str(before)?;
        before = ", ?";
    }
    text.push_str(")")?;
    Ok(text)
}

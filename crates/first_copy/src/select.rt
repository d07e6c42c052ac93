//! The statements that print a first copy of tables.

use crate::query::write_text;
use columns::{Column, ColumnType, DataType, DescribedTable, Shape};
use rows::{DescribedTables, write_sql_name};
use std::io;
use std::io::Write;

/// What is set before: names in UTF-8, texts as they are stored, times in UTC, and one moment for all that is read.
const SETTINGS: &[u8] =
    b"SET NAMES utf8mb4;\nSET SESSION sql_mode='', time_zone='+00:00';\nSET SESSION TRANSACTION ISOLATION LEVEL REPEATABLE READ;\n";

/// The moment: no transaction commits between the start of the snapshot and the reading of the executed set.
const MOMENT: &[u8] =
    b"FLUSH TABLES WITH READ LOCK;\nSTART TRANSACTION WITH CONSISTENT SNAPSHOT;\nSELECT 'mrep copy 1';\nSELECT REPLACE(@@GLOBAL.gtid_executed, CHAR(10), '');\nUNLOCK TABLES;\nSET @mrep_rows=0;\n";

const END: &[u8] = b"SELECT 'end', @mrep_rows;\nCOMMIT;\n";

/// What stands before and after the name of a column in the expression for its field.
type Around = (&'static str, &'static str);

const AS_IT_IS: Around = ("", "");

const AS_NUMBER: Around = ("", "+0");

const AS_DIGITS: Around = ("HEX(", ")");

/// The expression for the fields of a column: the text of it that stands for one value of the type alone. None for a type whose
/// cells are made of no text, as JSON.
fn expression(kind: &ColumnType) -> Option<Around> {
    match kind {
        ColumnType::Enum(_) => Some(AS_NUMBER),
        // `+0` would make it a DOUBLE, which has 53 bits.
        ColumnType::Set(_) => Some(("CAST(", " AS UNSIGNED)")),
        ColumnType::Scalar(kind) => expression_of(*kind),
    }
}

/// The same of a type without members.
fn expression_of(kind: DataType) -> Option<Around> {
    match kind.shape() {
        Shape::Integer(_)
        | Shape::Decimal { .. }
        | Shape::Year
        | Shape::Date
        | Shape::Time(_)
        | Shape::Datetime(_)
        | Shape::Timestamp(_) => Some(AS_IT_IS),
        Shape::Float | Shape::Double => Some(("CAST(", " AS DOUBLE)")),
        Shape::Bits(_) => Some(AS_NUMBER),
        Shape::Text(_) | Shape::Bytes(_) => Some(AS_DIGITS),
        Shape::Other => None,
    }
}

/// The first table with a column whose type has no such expression, if there is one.
pub fn unselectable(tables: &DescribedTables) -> Option<&DescribedTable> {
    tables
        .all()
        .iter()
        .find(|table| has_no_expression(&table.columns))
}

/// Whether the type of one of the columns has no such expression.
fn has_no_expression(columns: &[Column]) -> bool {
    columns
        .iter()
        .any(|column| expression(&column.kind).is_none())
}

/// Prints the statements that print a first copy of these tables, when the `mysql` client runs them with `--batch
/// --skip-column-names`: `mrep copy 1`, the executed set of the source at one moment, for each row as it was then the names of
/// schema and table and its fields, and at last `end` and the number of rows.
pub fn write_select<W: Write>(tables: &DescribedTables, out: &mut W) -> io::Result<()> {
    out.write_all(SETTINGS)?;
    out.write_all(MOMENT)?;
    for table in tables.all() {
        write_rows_of(table, out)?;
        out.write_all(b"SELECT @mrep_rows+COUNT(*) FROM ")?;
        write_table(table, out)?;
        out.write_all(b" INTO @mrep_rows;\n")?;
    }
    out.write_all(END)
}

/// Prints the statement that prints the rows of a table.
fn write_rows_of<W: Write>(table: &DescribedTable, out: &mut W) -> io::Result<()> {
    out.write_all(b"SELECT ")?;
    write_text(table.schema.as_bytes(), out)?;
    out.write_all(b", ")?;
    write_text(table.name.as_bytes(), out)?;
    for column in &table.columns {
        let (before, after) = expression(&column.kind).unwrap_or(AS_IT_IS);
        write!(out, ", {before}")?;
        write_sql_name(column.name.as_bytes(), out)?;
        out.write_all(after.as_bytes())?;
    }
    out.write_all(b" FROM ")?;
    write_table(table, out)?;
    out.write_all(b";\n")
}

/// Prints the name of a table with its schema, in backquotes.
fn write_table<W: Write>(table: &DescribedTable, out: &mut W) -> io::Result<()> {
    write_sql_name(table.schema.as_bytes(), out)?;
    out.write_all(b".")?;
    write_sql_name(table.name.as_bytes(), out)
}

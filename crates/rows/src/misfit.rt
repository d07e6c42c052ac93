//! Why a row does not fit the description of its table.

use columns::{CellFault, Column, DescribedTable};
use formats::{Shown, write_table};
use gather::ImageRef;
use std::alloc::{AllocError, Global};
use std::io;
use std::io::Write;
use thiserror::Error;

const FETCH: &str = "fetch the description of the columns again";

const CHARACTER_SET: &str =
    "fetch the description of the columns again; if it is the same, write longblob and NULL as the type and the character set of this column, and it has its bytes";

const KEY: &str =
    "fetch the description of the columns again; if it is the same, a statement that deletes rows, as TRUNCATE, was skipped";

const COUNTED: &str = "the formats text and json of `mrep show` have their number";

/// How many copies of a row are written one by one, at most: more are counted alone.
const MOST_COPIES: u64 = 1_000_000_000;

/// Why a row does not fit the description of its table.
#[derive(Clone, Copy, Debug, PartialEq, Eq, Error)]
pub enum Fault {
    /// Its table is not described.
    #[error("the table is not described")]
    Table,
    /// It has so many cells, and so many columns are described.
    #[error("a row has {0} cells, and {1} columns are described")]
    Cells(usize, usize),
    /// A cell is bytes where its column's type has a number, or a number where it has bytes.
    #[error("the row has bytes where this type has a number, or a number where it has bytes")]
    Kind,
    /// A cell has this many bytes, and no cell of its column's type has so many.
    #[error("a cell has {0} bytes, and none of this type has so many")]
    Size(usize),
    /// A cell's kind and size are right, and its column's type has no value for it.
    #[error("a cell has no value of this type")]
    Range,
    /// Bytes are no text of their column's character set.
    #[error("bytes are not a text of this character set")]
    CharacterSet,
    /// A text has more characters than its column's type.
    #[error("a text that is longer than the type")]
    Length,
    /// A column of the key is NULL.
    #[error("a key that is NULL")]
    NoKey,
    /// Another row has the same key.
    #[error("two rows have the same key")]
    SameKey,
    /// There are so many copies of it, more than are written one by one.
    #[error("a row is there {0} times, and no more than 1,000,000,000 copies are written")]
    Copies(u64),
}

impl Fault {
    /// What to do about it.
    pub fn advice(self) -> &'static str {
        match self {
            Fault::CharacterSet => CHARACTER_SET,
            Fault::NoKey | Fault::SameKey => KEY,
            Fault::Copies(_) => COUNTED,
            _ => FETCH,
        }
    }
}

/// Why a cell is not shown.
#[derive(Debug, Drop)]
pub enum CellError {
    Fault(Fault),
    Memory,
}

impl From<AllocError> for CellError {
    fn from(_error: AllocError) -> CellError {
        CellError::Memory
    }
}

impl From<CellFault> for CellError {
    fn from(fault: CellFault) -> CellError {
        CellError::Fault(match fault {
            CellFault::Kind => Fault::Kind,
            CellFault::Size(size) => Fault::Size(size),
            CellFault::Range => Fault::Range,
        })
    }
}

/// A row that does not fit the description.
#[derive(Debug, Drop)]
pub struct Misfit {
    pub schema: Vec<u8>,
    pub table: Vec<u8>,
    /// The name of the column that does not fit, if it is a column, and its type, with its character set if it has one.
    pub column: Option<(String, String)>,
    pub fault: Fault,
}

impl Misfit {
    /// Writes its table and column, why it does not fit, and what to do about that.
    pub fn write<W: Write>(&self, out: &mut W) -> io::Result<()> {
        write_table(&self.schema, &self.table, out)?;
        if let Some((column, kind)) = &self.column {
            write!(out, ", column {} {}", Shown(column), Shown(kind))?;
        }
        writeln!(out, ": {}: {}", self.fault, self.fault.advice())
    }
}

/// Why a row was not printed.
#[derive(Debug, Drop)]
pub enum RowError {
    Misfit(Misfit),
    Output(io::Error),
}

impl From<io::Error> for RowError {
    fn from(error: io::Error) -> RowError {
        RowError::Output(error)
    }
}

impl From<AllocError> for RowError {
    fn from(_error: AllocError) -> RowError {
        RowError::Output(io::ErrorKind::OutOfMemory.into())
    }
}

/// Why the text of a row is not there.
#[derive(Drop)]
pub enum TextError<'d> {
    /// The row, or the cell of this column, does not fit.
    Fault(Option<&'d Column>, Fault),
    Output(io::Error),
}

impl From<io::Error> for TextError<'_> {
    fn from(error: io::Error) -> Self {
        TextError::Output(error)
    }
}

impl<'d> TextError<'d> {
    /// Why the cell of a column is not shown.
    pub fn at(column: &'d Column, error: CellError) -> TextError<'d> {
        match error {
            CellError::Fault(fault) => TextError::Fault(Some(column), fault),
            CellError::Memory => TextError::Output(io::ErrorKind::OutOfMemory.into()),
        }
    }

    /// The error of a row of this table.
    pub fn in_table(self, alloc: Global, schema: &[u8], table: &[u8]) -> RowError {
        match self {
            TextError::Output(error) => RowError::Output(error),
            TextError::Fault(column, fault) => match copied(alloc, schema, table, column, fault) {
                Ok(misfit) => RowError::Misfit(misfit),
                Err(error) => error.into(),
            },
        }
    }
}

/// Refuses a row that has not as many cells as columns are described.
pub fn check_count<'d>(
    table: &'d DescribedTable,
    image: &ImageRef<'_>,
) -> Result<(), TextError<'d>> {
    // An image has at most 65,535 cells.
    let cells = image.cells().take(65_536).count();
    if cells != table.columns.len() {
        return Err(TextError::Fault(None, Fault::Cells(cells, table.columns.len())));
    }
    Ok(())
}

/// Refuses more copies of a row than are written one by one.
pub fn check_copies<'d>(count: u64) -> Result<(), TextError<'d>> {
    if count > MOST_COPIES {
        return Err(TextError::Fault(None, Fault::Copies(count)));
    }
    Ok(())
}

/// The row that does not fit, with names of its own.
pub fn copied(
    alloc: Global,
    schema: &[u8],
    table: &[u8],
    column: Option<&Column>,
    fault: Fault,
) -> Result<Misfit, AllocError> {
    let column = match column {
        Some(column) => Some((
            String::from_str(alloc, column.name.as_str())?,
            type_of(alloc, column)?,
        )),
        None => None,
    };
    Ok(Misfit {
        schema: Vec::from_slice(alloc, schema)?,
        table: Vec::from_slice(alloc, table)?,
        column,
        fault,
    })
}

/// The type of a column, and its character set if it has one.
fn type_of(alloc: Global, column: &Column) -> Result<String, AllocError> {
    match &column.character_set {
        Some(set) => format!(in alloc; "{} {}", column.kind, set.as_str()),
        None => format!(in alloc; "{}", column.kind),
    }
}

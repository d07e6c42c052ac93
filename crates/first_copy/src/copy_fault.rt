//! Why the text of a first copy cannot be read.

use crate::fault::RowFault;
use gtid::GtidFault;
use std::io;
use thiserror::Error;

/// Why the text of a first copy cannot be read. Lines are counted from 1.
#[derive(Debug, Drop, Error)]
pub enum CopyFault {
    /// The first line is not `mrep copy 1`.
    #[error("line 1: not `mrep copy 1`")]
    Version,
    /// The second line is not UTF-8.
    #[error("line 2: not UTF-8")]
    Encoding,
    /// The second line is not a set of GTIDs.
    #[error("line 2: {0}")]
    Executed(GtidFault),
    /// The text ends in this line, before the newline of the line at the end: it was cut.
    #[error("line {line}: the text ends before its end line")]
    Cut { line: u64 },
    /// This line is neither that of a row nor the one at the end.
    #[error("line {line}: {fault}")]
    Row { line: u64, fault: RowFault },
    /// The line at the end has another number than that of the rows before it.
    #[error("line {line}: the end line says {said} rows, and {rows} stand before it")]
    Count { line: u64, said: u64, rows: u64 },
    /// Something follows the line at the end, which is in front of this one.
    #[error("line {line}: something stands after the end line")]
    Trailing { line: u64 },
    /// The reader failed in this line.
    #[error("line {line}: {error}")]
    Reader { line: u64, error: io::Error },
    /// There are more rows or transactions than can be numbered.
    #[error("more rows than can be numbered")]
    TooMany,
    /// An allocation was refused.
    #[error("out of memory")]
    Memory,
    /// An earlier fault has ended the loader.
    #[error("the copy has ended with a fault")]
    Failed,
}

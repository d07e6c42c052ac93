//! Why a field of a line is no value of a column.

use thiserror::Error;

/// Why the field of a line, whose escapes are undone, is no value of a column.
#[derive(Clone, Copy, Debug, PartialEq, Eq, Error)]
pub enum FieldFault {
    /// It is not of the form that texts of the type have.
    #[error("not of the form that the column's type has")]
    Text,
    /// It is of that form, and no value of the type has this text.
    #[error("out of the range of the column's type")]
    Range,
    /// An allocation was refused.
    #[error("out of memory")]
    Memory,
}

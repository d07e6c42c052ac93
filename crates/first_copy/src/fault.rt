//! Why a line is not that of a row.

ghost use Rattle.std.specs.Prelude.{◌≡◌};
ghost use Rattle.first_copy.specs.declared.fault.RowFault.TheVariants.{Memory};

use columns::FieldFault;
use std::alloc::{AllocError, AllocFailed};
use thiserror::Error;

/// Why a line is not that of a row of a described table.
#[derive(Clone, Copy, Debug, PartialEq, Eq, Error)]
pub enum RowFault {
    /// It does not begin with the names of a described table, each with the client's escapes and a tab after it.
    #[error("no described table has the names in the first two fields")]
    Table,
    /// It has not as many fields after these names as the table has columns, with tabs between and a newline at the end.
    #[error("not as many fields as the table has columns")]
    Fields,
    /// The text ends before the newline at the end of the line.
    #[error("no newline at the end")]
    Unended,
    /// The field of this column, by its number from 1, is neither `NULL` nor the text of a value.
    #[error("column {column}: {fault}")]
    Field { column: usize, fault: FieldFault },
    /// The cells have no image: there are more than 65,535 of them, or one is larger than an image can hold.
    #[error("a row that no image can hold")]
    Image,
    /// An allocation was refused.
    #[error("out of memory")]
    Memory,
}

impl From<AllocError> for RowFault {
    ghost from_gives = { λ _ fault. fault ≡ Memory };

    fn from(_error: AllocError) -> RowFault {
        RowFault::Memory
    }
}

impl<T: Drop> From<AllocFailed<T>> for RowFault {
    ghost from_gives = { λ _ fault. fault ≡ Memory };

    fn from(_error: AllocFailed<T>) -> RowFault {
        RowFault::Memory
    }
}

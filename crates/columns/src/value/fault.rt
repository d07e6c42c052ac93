//! Why a cell is not one of a type.

ghost use Rattle.std.specs.Prelude.{◌≡◌, ◌==◌, if◌then◌else◌};
ghost use Rattle.columns.specs.declared.value.fault.CellFault.TheVariants.{Size, Range};

use thiserror::Error;

/// Why a cell is not one of a type.
#[derive(Clone, Copy, Debug, PartialEq, Eq, Error)]
pub enum CellFault {
    /// It is bytes where the type has a number, or a number where it has bytes, or null.
    #[error("the cell is not of the kind that the type has")]
    Kind,
    /// It takes this many bytes, and the type's cells another number.
    #[error("the cell has {0} bytes, and the cells of the type have another number")]
    Size(usize),
    /// Its kind and size are right, and the type has no value for it.
    #[error("the cell stands for no value of the type")]
    Range,
}

impl CellFault {
    /// What is wrong with so many bytes that are no value of a type whose cells have `due`.
    pub(crate) fn of_bytes(found: usize, due: usize) -> CellFault
        ensures { result ≡ (if found == due then Range else Size found) }
    {
        if found == due {
            CellFault::Range
        } else {
            CellFault::Size(found)
        }
    }
}

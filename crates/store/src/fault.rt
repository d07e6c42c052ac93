//! Answers of the store.

ghost use Rattle.std.specs.Prelude.{◌≡◌};
ghost use Rattle.store.specs.declared.fault.StoreFault.TheVariants.{Memory, Database};

use sqlite::Error;
use std::alloc::{AllocError, AllocFailed};

/// What a transaction that was not refused did.
#[derive(Clone, Copy, Debug, PartialEq, Eq)]
pub enum Applied {
    /// Its changes were made, and its GTID is now in the executed set.
    Done,
    /// Its GTID was in the executed set before, and nothing has changed.
    Repeat,
}

/// Why a call of the store failed.
#[derive(Clone, Copy, Debug, PartialEq, Eq, thiserror::Error)]
pub enum StoreFault {
    /// The change with this index in the transaction, from 0, removes a row that is not there.
    #[error("change {0}: the row is not there")]
    NoSuchRow(usize),
    /// The change with this index, from 0, adds a row of which there are 2^63 - 1 copies.
    #[error("change {0}: the count of the row is at its maximum")]
    CountFull(usize),
    /// The database failed with this error.
    #[error("{0}")]
    Database(Error),
    /// An allocation was refused.
    #[error("out of memory")]
    Memory,
    /// A table is missing, or the rows break the rules of their layout.
    #[error("the tables are damaged")]
    Damaged,
    /// The tables have this layout, which is not supported.
    #[error("the tables have layout {0}, which is not supported")]
    Layout(i64),
    /// An earlier failure has made the store unusable. The database must be opened again.
    #[error("the store must be opened again after a failure")]
    Broken,
    /// The database was made for other tables than the given ones.
    #[error("the database was made for other tables")]
    Follows,
}

impl From<Error> for StoreFault {
    ghost from_gives = { λ cause fault. fault ≡ Database cause };

    fn from(cause: Error) -> StoreFault {
        StoreFault::Database(cause)
    }
}

impl From<AllocError> for StoreFault {
    ghost from_gives = { λ _ fault. fault ≡ Memory };

    fn from(_error: AllocError) -> StoreFault {
        StoreFault::Memory
    }
}

impl<T: Drop> From<AllocFailed<T>> for StoreFault {
    ghost from_gives = { λ _ fault. fault ≡ Memory };

    fn from(_error: AllocFailed<T>) -> StoreFault {
        StoreFault::Memory
    }
}

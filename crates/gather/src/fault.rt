//! Why a sequence of events is invalid.

ghost use Rattle.std.specs.Prelude.{◌≡◌};
ghost use Rattle.gather.specs.declared.fault.GatherFault.TheVariants.{Memory, Event};

use binlog::EventFault;
use std::alloc::{AllocError, AllocFailed};
use thiserror::Error;

/// Why a sequence of events is invalid, found at the first event that may not follow those before it.
#[derive(Clone, Copy, Debug, PartialEq, Eq, Error)]
pub enum GatherFault {
    /// An event of a transaction came before any format description.
    #[error("no format description has come")]
    NoFormat,
    /// An event of this type is out of place: BEGIN must come right after the GTID, and table maps, rows events, XID
    /// and COMMIT must come between BEGIN and the end of the transaction. Neutral events may come anywhere.
    #[error("an event of type {0} out of place")]
    Misplaced(u8),
    /// A rows event uses this table number, and no table map of its transaction gave the number before.
    #[error("no table map has the number {0}")]
    UnknownTable(u64),
    /// The rows of a rows event cannot be read: `Columns` or `Truncated`. It is the only fault that carries an
    /// [`EventFault`].
    #[error("{0}")]
    Event(EventFault),
    /// An allocation was refused.
    #[error("out of memory")]
    Memory,
    /// An earlier fault has ended the gatherer.
    #[error("the events have ended with a fault")]
    Ended,
}

impl From<EventFault> for GatherFault {
    ghost from_gives = { λ cause fault. fault ≡ Event cause };

    fn from(cause: EventFault) -> GatherFault {
        GatherFault::Event(cause)
    }
}

impl From<AllocError> for GatherFault {
    ghost from_gives = { λ _ fault. fault ≡ Memory };

    fn from(_error: AllocError) -> GatherFault {
        GatherFault::Memory
    }
}

impl<T: Drop> From<AllocFailed<T>> for GatherFault {
    ghost from_gives = { λ _ fault. fault ≡ Memory };

    fn from(_error: AllocFailed<T>) -> GatherFault {
        GatherFault::Memory
    }
}

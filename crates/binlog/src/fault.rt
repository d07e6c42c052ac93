//! Why an event could not be read or written.

ghost use Rattle.std.specs.Prelude.{◌≡◌};
ghost use Rattle.binlog.specs.declared.fault.EventFaultKind.TheVariants.{Memory, Truncated};

use std::alloc::{AllocError, AllocFailed};
use thiserror::Error;

/// Why an event is refused.
#[derive(Clone, Copy, Debug, PartialEq, Eq, Error)]
pub enum EventFaultKind {
    /// A field does not fit the bytes.
    #[error("the event ends early")]
    Truncated,
    /// The event's size field is not the number of its bytes, or the extra data of a rows event has a length below 2,
    /// which is less than the length field itself.
    #[error("a size field is wrong")]
    Size,
    /// A format description with a version other than 4.
    #[error("the version of the binlog format is not 4")]
    FormatVersion,
    /// A format description with this checksum algorithm, which is not 0 (no checksums).
    #[error("the checksum algorithm is {0}, not 0 (none)")]
    Checksum(u8),
    /// A format description with an unexpected header length, too few post-header lengths, or one that differs for a
    /// type that is supported.
    #[error("unexpected header lengths")]
    HeaderLengths,
    /// An event of this type, which is not supported.
    #[error("event type {0} is not supported")]
    TypeCode(u8),
    /// A QUERY event whose text is neither BEGIN nor COMMIT.
    #[error("a statement that is neither BEGIN nor COMMIT")]
    Statement,
    /// A column of this type, which is not supported.
    #[error("column type {0} is not supported")]
    ColumnType(u8),
    /// A column's metadata is out of range, or the length of all metadata is not the sum of the columns' lengths.
    #[error("wrong column metadata")]
    Metadata,
    /// A number of columns is malformed, is not from 1 to 4,096, or is not that of the table.
    #[error("wrong number of columns")]
    Columns,
    /// A row image leaves out columns (`binlog_row_image` is not `FULL`).
    #[error("a partial row image")]
    Partial,
    /// A GTID's transaction number is outside 1 to 2^63 - 2.
    #[error("a transaction number outside 1 to 9223372036854775806")]
    Number,
    /// Bytes follow the event's last field.
    #[error("bytes after the event's end")]
    Trailing,
    /// An allocation was refused.
    #[error("out of memory")]
    Memory,
    /// A transaction without a GTID (ANONYMOUS_GTID).
    #[error("a transaction without a GTID")]
    Anonymous,
}

/// Why an event is refused, and at which offset.
#[derive(Clone, Copy, Debug, PartialEq, Eq, Error)]
#[error("{kind} at {at}")]
pub struct EventFault {
    pub kind: EventFaultKind,
    /// The offset in bytes of the field at fault, counted from the event's first byte; 0 for `Memory`.
    pub at: usize,
}

impl EventFault {
    /// An allocation was refused.
    pub(crate) const MEMORY: EventFault = EventFault {
        kind: EventFaultKind::Memory,
        at: 0,
    };

    /// A fault of this kind at this offset.
    pub(crate) fn new(kind: EventFaultKind, at: usize) -> EventFault
        ensures { result ≡ record { kind = kind; at = at } }
    {
        EventFault { kind, at }
    }

    /// The field at this offset does not fit.
    pub(crate) fn truncated(at: usize) -> EventFault
        ensures { result ≡ record { kind = Truncated; at = at } }
    {
        EventFault {
            kind: EventFaultKind::Truncated,
            at,
        }
    }
}

impl From<AllocError> for EventFault {
    ghost from_gives = { λ _ fault. fault ≡ record { kind = Memory; at = 0 } };

    fn from(_error: AllocError) -> EventFault {
        EventFault::MEMORY
    }
}

impl<T: Drop> From<AllocFailed<T>> for EventFault {
    ghost from_gives = { λ _ fault. fault ≡ record { kind = Memory; at = 0 } };

    fn from(_error: AllocFailed<T>) -> EventFault {
        EventFault::MEMORY
    }
}

//! Where and when an event was written. MySQL Source Documentation, "Binlog Event", the pages
//! `binary_log::Log_event_header` and `binary_log::Gtid_event`. Nothing that is applied depends on it.

ghost use Rattle.std.specs.Prelude.{◌≡◌, ℕ, IfSome, Some};
ghost use Rattle.binlog.specs.Origin.{IsWrittenAt, IsCommittedAt};

use crate::event_type;
use crate::header::HEADER_LENGTH;
use byteorder::{ByteOrder, LittleEndian};

/// LOGICAL_TIMESTAMP_TYPECODE: the code before the numbers of the transaction that a transaction comes after and of itself.
const LOGICAL_TIMESTAMPS: u8 = 2;

/// Where that code stands in a GTID event, and the time of the commit, which has 7 bytes.
const CODE_AT: usize = 44;

const TIME_AT: usize = 61;

const TIME_END: usize = 68;

/// The highest bit of the time: the time of the original commit follows.
const ORIGINAL_FOLLOWS: u64 = 1 << 55;

/// What the header of an event says of where and when it was written.
#[derive(Clone, Copy, Debug, PartialEq, Eq)]
pub struct Origin {
    /// Seconds since 1970-01-01 00:00:00 UTC: of a rows event, when its statement began.
    pub seconds: u32,
    /// The id of the server that wrote it first.
    pub server_id: u32,
}

impl Origin {
    /// Reads the two fields of a whole event; `None` if it is shorter than a header. Nothing that is applied depends on
    /// them.
    ///
    /// Clauses:
    /// - `found`, `only`: seconds and server id of a header, exactly where there is one
    pub fn read(event: &[u8]) -> Option<Origin>
        ensures found { IfSome result (λ origin. IsWrittenAt origin.seconds origin.server_id
            event.now) }
        ensures only { (seconds server_id : ℕ) → IsWrittenAt seconds server_id event.now
            → result ≡ Some (record { seconds = seconds; server_id = server_id }) }
    {
        if event.len() < HEADER_LENGTH {
            return None;
        }
        Some(Origin {
            seconds: LittleEndian::read_u32(event),
            server_id: LittleEndian::read_u32(&event[5..]),
        })
    }
}

/// When the transaction of a GTID event was committed on the server that sends it, in microseconds since 1970-01-01
/// 00:00:00 UTC. `None` for another event, and where the event does not have it: servers write it from MySQL 8.0.1 on.
/// Nothing that is applied depends on it.
///
/// Clauses:
/// - `found`, `only`: the time of the commit, exactly where the event has it
pub fn committed_micros(event: &[u8]) -> Option<u64>
    ensures found { IfSome result (λ micros. IsCommittedAt micros event.now) }
    ensures only { (micros : ℕ) → IsCommittedAt micros event.now → result ≡ Some micros }
{
    if event.len() < TIME_END {
        return None;
    }
    if event[4] != event_type::GTID {
        return None;
    }
    if event[CODE_AT] != LOGICAL_TIMESTAMPS {
        return None;
    }
    let time = LittleEndian::read_uint(&event[TIME_AT..], 7);
    if time >= ORIGINAL_FOLLOWS {
        return Some(time - ORIGINAL_FOLLOWS);
    }
    Some(time)
}

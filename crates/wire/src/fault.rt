//! Why packets could not be read or written.

ghost use Rattle.std.specs.Prelude.{◌≡◌};
ghost use Rattle.wire.specs.declared.fault.WireFault.TheVariants.{Memory};

use std::alloc::{AllocError, AllocFailed};
use thiserror::Error;

/// Why packets could not be read or written.
#[derive(Clone, Copy, Debug, PartialEq, Eq, Error)]
pub enum WireFault {
    /// A packet has the sequence id `got` instead of the expected `want`.
    #[error("a packet with sequence id {got} came where {want} was expected")]
    Sequence { want: u8, got: u8 },
    /// A payload that is read is longer than the reader's limit, or one to be written is longer than
    /// [`LARGEST_PAYLOAD`](crate::LARGEST_PAYLOAD).
    #[error("a payload is longer than the limit")]
    TooLarge,
    /// An allocation was refused.
    #[error("out of memory")]
    Memory,
    /// An earlier fault has ended the reader.
    #[error("an earlier fault has ended the stream")]
    Ended,
}

impl From<AllocError> for WireFault {
    ghost from_gives = { λ _ fault. fault ≡ Memory };

    fn from(_error: AllocError) -> WireFault {
        WireFault::Memory
    }
}

impl<T: Drop> From<AllocFailed<T>> for WireFault {
    ghost from_gives = { λ _ fault. fault ≡ Memory };

    fn from(_error: AllocFailed<T>) -> WireFault {
        WireFault::Memory
    }
}

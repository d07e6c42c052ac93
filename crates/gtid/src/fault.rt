//! Why a set could not be read or changed.

ghost use Rattle.std.specs.Prelude.{◌≡◌};
ghost use Rattle.gtid.specs.declared.fault.GtidFault.TheVariants.{Memory};

use std::alloc::{AllocError, AllocFailed};
use thiserror::Error;

/// Why a set could not be read or changed.
#[derive(Clone, Copy, Debug, PartialEq, Eq, Error)]
pub enum GtidFault {
    /// The text is not a GTID set. The value is the length in bytes of the longest prefix that begins some valid text:
    /// the place of the first wrong byte, or the length of the text if it ends too early.
    #[error("not a GTID set: the text is wrong at byte {0}")]
    Text(usize),
    /// A transaction number is outside 1 to 2^63 - 2.
    #[error("a transaction number is outside 1 to 9223372036854775806")]
    Number,
    /// An interval is empty, or an encoded source has no interval.
    #[error("an interval is empty")]
    Interval,
    /// The bytes end early.
    #[error("the bytes end early")]
    Truncated,
    /// The sources or the intervals of a source are not in ascending order, or two intervals touch.
    #[error("the sources or intervals do not ascend")]
    Order,
    /// An allocation was refused.
    #[error("out of memory")]
    Memory,
}

impl From<AllocError> for GtidFault {
    ghost from_gives = { λ _ fault. fault ≡ Memory };

    fn from(_error: AllocError) -> GtidFault {
        GtidFault::Memory
    }
}

impl<T: Drop> From<AllocFailed<T>> for GtidFault {
    ghost from_gives = { λ _ fault. fault ≡ Memory };

    fn from(_error: AllocFailed<T>) -> GtidFault {
        GtidFault::Memory
    }
}

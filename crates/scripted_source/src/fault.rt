//! Why a scripted source sends nothing, or refuses what it was sent.

ghost use Rattle.std.specs.Prelude.{◌≡◌};
ghost use Rattle.scripted_source.specs.declared.fault.ForgeFault.TheVariants.{Memory};

use std::alloc::{AllocError, AllocFailed};
use thiserror::Error;

/// Why a scripted source sends nothing, or refuses what it was sent.
#[derive(Clone, Copy, Debug, PartialEq, Eq, Error)]
pub enum ForgeFault {
    /// The bytes are not the expected messages.
    #[error("not the messages of a replica")]
    Request,
    /// The script with this index in the history, from 0, has a part that cannot be encoded.
    #[error("script {0} does not fit its tables")]
    Unfit(usize),
    /// An event is longer than a payload may be.
    #[error("a payload is too large")]
    TooLarge,
    /// An allocation was refused.
    #[error("out of memory")]
    Memory,
}

impl From<AllocError> for ForgeFault {
    ghost from_gives = { λ _ fault. fault ≡ Memory };

    fn from(_error: AllocError) -> ForgeFault {
        ForgeFault::Memory
    }
}

impl<T: Drop> From<AllocFailed<T>> for ForgeFault {
    ghost from_gives = { λ _ fault. fault ≡ Memory };

    fn from(_error: AllocFailed<T>) -> ForgeFault {
        ForgeFault::Memory
    }
}

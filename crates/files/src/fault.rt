//! Why a file cannot be used.

ghost use Rattle.std.specs.Prelude.{◌≡◌};
ghost use Rattle.files.specs.declared.fault.FileFault.TheVariants as variants;

use std::alloc::AllocError;
use std::io;

/// Why a file cannot be used.
#[derive(Drop)]
pub enum FileFault {
    /// For this reason, which a message says after the file's name.
    Unusable(&'static str),
    /// The system refused a call over it.
    System(io::Error),
    /// An allocation was refused.
    Memory,
}

impl From<io::Error> for FileFault {
    ghost from_gives = { λ cause fault. fault ≡ variants.System cause };

    fn from(cause: io::Error) -> Self {
        FileFault::System(cause)
    }
}

impl From<AllocError> for FileFault {
    ghost from_gives = { λ _ fault. fault ≡ variants.Memory };

    fn from(_error: AllocError) -> Self {
        FileFault::Memory
    }
}

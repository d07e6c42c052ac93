//! Why a message could not be read or written.

ghost use Rattle.std.specs.Prelude.{◌≡◌};
ghost use Rattle.greet.specs.declared.fault.GreetFault.TheVariants.{Memory};

use std::alloc::{AllocError, AllocFailed};
use thiserror::Error;

/// Why a message could not be read or written.
#[derive(Debug, Drop, Error)]
pub enum GreetFault {
    /// The source sent an ERR instead of the message.
    #[error("the source answered error {code}")]
    ServerError {
        code: u16,
        /// The SQL state, if the ERR has one.
        state: Option<[u8; 5]>,
        /// The first 512 bytes of the message.
        message: Vec<u8>,
    },
    /// A byte differs from the layout's: the protocol version, or one of the leading 32 bytes of a response.
    #[error("unexpected protocol byte {0}")]
    Protocol(u8),
    /// A field does not fit the payload, or bytes are left over where none may follow.
    #[error("a field of the message does not fit, or bytes are left over")]
    Truncated,
    /// The source lacks these of the needed capability flags.
    #[error("the source lacks the capability flags {0:#x}")]
    Capabilities(u32),
    /// An authentication plugin other than `mysql_native_password`.
    #[error("the authentication plugin is not mysql_native_password")]
    Plugin,
    /// The source asks for the authentication from before version 4.1.
    #[error("the source asks for the authentication from before MySQL 4.1")]
    OldAuth,
    /// The payload begins with a byte that begins none of the expected messages.
    #[error("a payload that begins with the byte {0} was not expected")]
    Unexpected(u8),
    /// An allocation was refused.
    #[error("out of memory")]
    Memory,
}

impl From<AllocError> for GreetFault {
    ghost from_gives = { λ _ fault. fault ≡ Memory };

    fn from(_error: AllocError) -> GreetFault {
        GreetFault::Memory
    }
}

impl<T: Drop> From<AllocFailed<T>> for GreetFault {
    ghost from_gives = { λ _ fault. fault ≡ Memory };

    fn from(_error: AllocFailed<T>) -> GreetFault {
        GreetFault::Memory
    }
}

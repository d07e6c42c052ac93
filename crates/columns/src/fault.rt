//! Why a text is not that of a type.

use thiserror::Error;

/// Why a text is not that of a type.
#[derive(Clone, Copy, Debug, PartialEq, Eq, Error)]
pub enum TypeFault {
    /// The lower-case letters at its front are no type's name.
    #[error("no type has this name")]
    Name,
    /// What stands after the name, from this offset on, is not the rest of such a type: its numbers in parentheses are
    /// missing, out of range or too many, or something else than a sign that it can have follows.
    #[error("not a type's numbers and sign, at byte {0}")]
    Rest(usize),
}

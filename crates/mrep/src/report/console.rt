//! Where a command prints.

/// The output of a command, and its errors.
#[derive(Drop)]
pub struct Console<W, E> {
    pub out: W,
    pub err: E,
}

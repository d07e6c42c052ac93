//! The cell of a value that was written.

/// The cell of a value: its number, or bytes that were appended.
#[derive(Clone, Copy, Debug, PartialEq, Eq)]
pub enum WrittenCell {
    /// The number of an integer, and how many bytes it takes in the row. Nothing was appended.
    Number { value: u64, width: u8 },
    /// The bytes of any other value, which were appended.
    Bytes,
}

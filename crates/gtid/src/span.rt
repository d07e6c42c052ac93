//! The intervals of a set, as callers see them.

/// The transaction numbers of a source from `lo` up to but not including `hi`: `hi` is one past the last number.
#[derive(Clone, Copy, Debug, PartialEq, Eq)]
pub struct Span {
    /// The sixteen bytes of the source's UUID.
    pub source: [u8; 16],
    pub lo: u64,
    pub hi: u64,
}

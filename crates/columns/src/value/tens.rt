//! Powers of ten.

/// A power of ten, by which a number is multiplied or divided.
#[derive(Clone, Copy, Debug, PartialEq, Eq)]
pub enum Tens {
    /// Times so many tens.
    Up(u16),
    /// Divided by so many tens.
    Down(u16),
}

//! A moment in UTC.

ghost use Rattle.std.specs.Prelude.{IsTrue};
ghost use Rattle.columns.specs.StampRange.{is_stamp};

use crate::value::fraction::Fraction;

/// Seconds since 1970-01-01 00:00:00 UTC with a fraction, up to 2038-01-19 03:14:07.999999. 0 seconds are the zero date,
/// `0000-00-00 00:00:00`, and have no fraction.
#[derive(Clone, Copy, Debug, PartialEq, Eq)]
pub struct Timestamp {
    pub seconds: u32,
    pub fraction: Fraction,
    ghost lawful: { IsTrue (is_stamp seconds fraction.number) },
}

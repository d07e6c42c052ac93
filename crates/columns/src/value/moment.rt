//! A date with a time of day.

ghost use Rattle.std.specs.Prelude.{IsTrue};
ghost use Rattle.columns.specs.Times.{is_clock};

use crate::value::date::Date;
use crate::value::fraction::Fraction;

/// A date and a time of day, with a fraction of a second.
#[derive(Clone, Copy, Debug, PartialEq, Eq)]
pub struct Datetime {
    pub date: Date,
    pub hour: u8,
    pub minute: u8,
    pub second: u8,
    pub fraction: Fraction,
    ghost lawful: { IsTrue (is_clock hour minute second) },
}

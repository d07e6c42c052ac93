//! A span of time, or a time of day.

ghost use Rattle.std.specs.Prelude.{IsTrue};
ghost use Rattle.columns.specs.TimeRange.{is_time};

use crate::value::fraction::Fraction;

/// Hours, minutes and seconds of either sign, with a fraction of a second: from -838:59:59 to 838:59:59. No zero is
/// negative.
#[derive(Clone, Copy, Debug, PartialEq, Eq)]
pub struct Time {
    pub negative: bool,
    pub hour: u16,
    pub minute: u8,
    pub second: u8,
    pub fraction: Fraction,
    ghost lawful: { IsTrue (is_time negative hour minute second fraction.number) },
}

//! TIMESTAMP in the fields of lines.

ghost use Rattle.std.specs.Prelude.{◌≡◌, ◌≤◌, ◌<◌, ◌^◌, ◌↔◌, ℕ, IfOk, IfErr, IfSome, IsOkAnd, IsSomeAnd, IsTrue};
ghost use Rattle.columns.specs.Fields.{IsFormFault};
ghost use Rattle.columns.specs.FieldForms.{IsMomentForm};
ghost use Rattle.columns.specs.Stamps.{stamp_text, IsSameStamp};
ghost use Rattle.columns.specs.StampParts.{AreNone, IsClockOf, IsStampOf};

use crate::value::calendar::find_days;
use crate::value::field_fault::FieldFault;
use crate::value::field_parts::{DateParts, MomentParts, read_moment};
use crate::value::stamp::Timestamp;

impl Timestamp {
    /// The value that a field is in a column with so many digits after the point: `YYYY-MM-DD HH:MM:SS` in UTC, and a point
    /// and these digits if there are any; `0000-00-00 00:00:00` with no other digits than zeros after the point is the zero
    /// date. `Text` of anything else. `Range` of numbers that are no value of the type: no date of the calendar or no time
    /// of day, or none from 1970-01-01 00:00:01 to 2038-01-19 03:14:07.999999.
    pub fn read_field(digits: u8, field: &[u8]) -> Result<Timestamp, FieldFault>
        requires { digits ≤ 6 }
        ensures digits { IfOk result (λ made. made.fraction.digits ≡ digits) }
        ensures found { IfOk result (λ made. field.now ≡ stamp_text made) }
        ensures only { (other : Timestamp) → other.fraction.digits ≡ digits →
            field.now ≡ stamp_text other →
            IsOkAnd result (λ made. IsSameStamp made other) }
        ensures fault { IfErr result (IsFormFault (IsMomentForm digits) field.now) }
    {
        let Some(parts) = read_moment(digits, field) else {
            return Err(FieldFault::Text);
        };
        let Some(seconds) = find_seconds(parts) else {
            return Err(FieldFault::Range);
        };
        match Timestamp::new(seconds, parts.fraction) {
            Some(made) => Ok(made),
            None => Err(FieldFault::Range),
        }
    }
}

/// The seconds of the value that has these numbers.
fn find_seconds(parts: MomentParts) -> Option<u32>
    ensures found { IfSome result (λ seconds. IsStampOf seconds
        parts.date.year parts.date.month parts.date.day
        parts.hour parts.minute parts.second) }
    ensures only { (seconds : ℕ) → seconds < 2 ^ 31 →
        IsStampOf seconds parts.date.year parts.date.month parts.date.day
        parts.hour parts.minute parts.second →
        IsSomeAnd result (λ found. found ≡ seconds) }
{
    let date = parts.date;
    if is_none(date, parts.hour, parts.minute, parts.second) {
        return Some(0);
    }
    let days = find_days(date.year, date.month, date.day)?;
    let clock = find_clock(parts.hour, parts.minute, parts.second)?;
    let seconds = u64::from(days) * 86_400 + u64::from(clock);
    if seconds == 0 {
        return None;
    }
    if seconds >= 1 << 31 {
        return None;
    }
    Some(seconds as u32)
}

/// Whether all numbers are zero.
fn is_none(date: DateParts, hour: u8, minute: u8, second: u8) -> bool
    ensures { IsTrue result ↔ AreNone date.year date.month date.day hour minute second }
{
    date.year == 0 && date.month == 0 && date.day == 0 && hour == 0 && minute == 0 && second == 0
}

/// The seconds from midnight to a time of day.
fn find_clock(hour: u8, minute: u8, second: u8) -> Option<u32>
    ensures small { IfSome result (λ clock. clock < 86400) }
    ensures found { IfSome result (λ clock. IsClockOf clock hour minute second) }
    ensures only { (clock : ℕ) → clock < 86400 → IsClockOf clock hour minute second →
        IsSomeAnd result (λ found. found ≡ clock) }
{
    if hour > 23 {
        return None;
    }
    if minute > 59 {
        return None;
    }
    if second > 59 {
        return None;
    }
    Some(u32::from(hour) * 3600 + u32::from(minute) * 60 + u32::from(second))
}

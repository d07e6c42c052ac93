//! Dates and times in the fields of lines.

ghost use Rattle.std.specs.Prelude.{◌≡◌, ◌≤◌, ◌<◌, ◌++◌, ◌∷◌, ℕ, Bool, List, IfOk, IfErr, IfSome, IsOkAnd, IsSomeAnd, IsTrue};
ghost use Rattle.columns.specs.Dates.{is_date, date_text};
ghost use Rattle.columns.specs.Moments.{moment_text, IsSameMoment};
ghost use Rattle.columns.specs.Spans.{span_text, IsSameSpan};
ghost use Rattle.columns.specs.Text.{zero_padded};
ghost use Rattle.columns.specs.Times.{is_fraction, clock_text};
ghost use Rattle.columns.specs.Fields.{IsFormFault};
ghost use Rattle.columns.specs.FieldForms.{IsDateRange, IsClockRange, IsDateForm, IsMomentForm, IsSpanForm};
ghost use Rattle.columns.specs.Reals.{minus_part};
ghost use Rattle.std.specs.Str.{byte};

use crate::value::date::Date;
use crate::value::field_fault::FieldFault;
use crate::value::field_parts::{DateParts, read_minutes, read_moment, take_date, take_digits};
use crate::value::fraction::Fraction;
use crate::value::moment::Datetime;
use crate::value::span::Time;

impl Date {
    /// The date that a field is: `YYYY-MM-DD`. `Text` of anything else, `Range` of numbers that are no date of the type.
    pub fn read_field(field: &[u8]) -> Result<Date, FieldFault>
        ensures found { IfOk result (λ made. field.now ≡ date_text made.year made.month made.day) }
        ensures only { (year month day : ℕ) → IsTrue (is_date year month day) →
            field.now ≡ date_text year month day →
            IsOkAnd result (λ made. (made.year ≡ year) × (made.month ≡ month) × (made.day ≡ day)) }
        ensures fault { IfErr result (IsFormFault IsDateForm field.now) }
    {
        let Some(parts) = read_date(field) else {
            return Err(FieldFault::Text);
        };
        match Date::new(parts.year, parts.month, parts.day) {
            Some(date) => Ok(date),
            None => Err(FieldFault::Range),
        }
    }
}

/// `YYYY-MM-DD`, if the text is that.
fn read_date(text: &[u8]) -> Option<DateParts>
    ensures small { IfSome result (λ read. IsDateRange read.year read.month read.day) }
    ensures found { IfSome result (λ read. text.now ≡ date_text read.year read.month read.day) }
    ensures only { (year month day : ℕ) → IsDateRange year month day →
        text.now ≡ date_text year month day →
        IsSomeAnd result (λ read. (read.year ≡ year) × (read.month ≡ month) × (read.day ≡ day)) }
{
    let (date, rest) = take_date(text)?;
    if rest.len() > 0 {
        return None;
    }
    Some(date)
}

impl Datetime {
    /// The value that a field is in a column with so many digits after the point: `YYYY-MM-DD HH:MM:SS`, and a point and
    /// these digits if there are any. `Text` of anything else, `Range` of numbers that are no value of the type.
    pub fn read_field(digits: u8, field: &[u8]) -> Result<Datetime, FieldFault>
        requires { digits ≤ 6 }
        ensures digits { IfOk result (λ made. made.fraction.digits ≡ digits) }
        ensures found { IfOk result (λ made. field.now ≡ moment_text made) }
        ensures only { (other : Datetime) → other.fraction.digits ≡ digits →
            field.now ≡ moment_text other →
            IsOkAnd result (λ made. IsSameMoment made other) }
        ensures fault { IfErr result (IsFormFault (IsMomentForm digits) field.now) }
    {
        let Some(parts) = read_moment(digits, field) else {
            return Err(FieldFault::Text);
        };
        let Some(date) = Date::new(parts.date.year, parts.date.month, parts.date.day) else {
            return Err(FieldFault::Range);
        };
        let made = Datetime::new(date, parts.hour, parts.minute, parts.second, parts.fraction);
        match made {
            Some(made) => Ok(made),
            None => Err(FieldFault::Range),
        }
    }
}

impl Time {
    /// The time that a field is in a column with so many digits after the point: `[-]HH:MM:SS` with three digits of hours
    /// from 100 on, and a point and these digits if there are any. `Text` of anything else, `Range` of numbers that are no
    /// time of the type, a zero with a minus sign among them.
    pub fn read_field(digits: u8, field: &[u8]) -> Result<Time, FieldFault>
        requires { digits ≤ 6 }
        ensures digits { IfOk result (λ made. made.fraction.digits ≡ digits) }
        ensures found { IfOk result (λ made. field.now ≡ span_text made) }
        ensures only { (other : Time) → other.fraction.digits ≡ digits →
            field.now ≡ span_text other →
            IsOkAnd result (λ made. IsSameSpan made other) }
        ensures fault { IfErr result (IsFormFault (IsSpanForm digits) field.now) }
    {
        let (negative, text) = split_sign(field);
        let Some((hour, minute, second, fraction)) = read_clock(digits, text) else {
            return Err(FieldFault::Text);
        };
        match Time::new(negative, hour, minute, second, fraction) {
            Some(made) => Ok(made),
            None => Err(FieldFault::Range),
        }
    }
}

/// Whether a minus sign stands at the front of a text, and what follows it.
pub(crate) fn split_sign(text: &[u8]) -> (bool, &[u8])
    ensures found { text.now ≡ minus_part result.0 ++ result.1.now }
    ensures only { (negative : Bool) (rest : List ℕ) → ((more : List ℕ) →
        rest ≡ byte "-" ∷ more → ⊥) →
        text.now ≡ minus_part negative ++ rest → (result.0 ≡ negative) × (result.1.now ≡ rest) }
{
    match text {
        [b'-', rest @ ..] => (true, rest),
        _ => (false, text),
    }
}

/// `HH:MM:SS`, with two digits of hours or three, and the fraction with so many digits that a text is.
fn read_clock(digits: u8, text: &[u8]) -> Option<(u16, u8, u8, Fraction)>
    requires { digits ≤ 6 }
    ensures hour { IfSome result (λ read. read.0 < 1000) }
    ensures clock { IfSome result (λ read. IsClockRange read.1 read.2) }
    ensures digits { IfSome result (λ read. read.3.digits ≡ digits) }
    ensures found { IfSome result (λ read. text.now
        ≡ clock_text read.0 read.1 read.2 digits read.3.number) }
    ensures only { (hour minute second number : ℕ) → hour < 1000 → IsClockRange minute second →
        IsTrue (is_fraction digits number) →
        text.now ≡ clock_text hour minute second digits number →
        IsSomeAnd result (λ read. (read.0 ≡ hour) × (read.1 ≡ minute) × (read.2 ≡ second) ×
        (read.3.number ≡ number)) }
{
    let (hour, rest) = take_hours(text)?;
    let (minute, second, fraction) = read_minutes(digits, rest)?;
    Some((hour, minute, second, fraction))
}

/// The hours at the front of a text, with a colon behind them, in two digits, or in three from 100 on; and what follows.
fn take_hours(text: &[u8]) -> Option<(u16, &[u8])>
    ensures small { IfSome result (λ taken. taken.0 < 1000) }
    ensures found { IfSome result (λ taken. text.now ≡ zero_padded 2 taken.0 ++ taken.1.now) }
    ensures only { (hour : ℕ) (rest : List ℕ) → hour < 1000 → text.now ≡ zero_padded 2 hour ++
        byte ":" ∷ rest →
        IsSomeAnd result (λ taken. (taken.0 ≡ hour) × (taken.1.now ≡ byte ":" ∷ rest)) }
{
    if let Some((hour, rest)) = take_digits(3, text) {
        if hour < 100 {
            return None;
        }
        return Some((hour as u16, rest));
    }
    let (hour, rest) = take_digits(2, text)?;
    Some((hour as u16, rest))
}

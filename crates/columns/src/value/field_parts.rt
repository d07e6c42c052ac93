//! The parts of dates and times in the fields of lines.

ghost use Rattle.std.specs.Prelude.{◌≡◌, ◌≤◌, ◌<◌, ◌^◌, ◌∷◌, ◌++◌, ℕ, List, IfSome, IsSomeAnd, IsTrue};
ghost use Rattle.columns.specs.Dates.{date_text};
ghost use Rattle.columns.specs.Text.{zero_padded};
ghost use Rattle.std.specs.Str.{byte};
ghost use Rattle.columns.specs.Times.{is_fraction, fraction_text, clock_text};
ghost use Rattle.columns.specs.FieldForms.{IsDateRange, IsClockRange, clock_front};

use crate::value::fraction::Fraction;
use crate::value::whole::read_whole;
use crate::word::after_byte;

/// The number of so many decimal digits that a text begins with, and what follows them.
pub(crate) fn take_digits(count: usize, text: &[u8]) -> Option<(u32, &[u8])>
    requires some { 1 ≤ count }
    requires few { count ≤ 6 }
    ensures small { IfSome result (λ taken. taken.0 < 10 ^ count) }
    ensures found { IfSome result (λ taken. text.now ≡ zero_padded count taken.0 ++ taken.1.now) }
    ensures only { (n : ℕ) (rest : List ℕ) → n < 10 ^ count → text.now ≡ zero_padded count n ++
        rest →
        IsSomeAnd result (λ taken. (taken.0 ≡ n) × (taken.1.now ≡ rest)) }
{
    let (front, rest) = text.split_at_checked(count)?;
    match read_whole(front) {
        Ok(number) => Some((number as u32, rest)),
        Err(_) => None,
    }
}

/// The number of so many decimal digits that a text is.
fn read_digits(count: usize, text: &[u8]) -> Option<u32>
    requires some { 1 ≤ count }
    requires few { count ≤ 6 }
    ensures small { IfSome result (λ number. number < 10 ^ count) }
    ensures found { IfSome result (λ number. text.now ≡ zero_padded count number) }
    ensures only { (n : ℕ) → n < 10 ^ count → text.now ≡ zero_padded count n →
        IsSomeAnd result (λ number. number ≡ n) }
{
    let (number, rest) = take_digits(count, text)?;
    if rest.len() > 0 {
        return None;
    }
    Some(number)
}

/// Two digits, this byte in front of them.
fn take_two(byte: u8, text: &[u8]) -> Option<(u8, &[u8])>
    ensures small { IfSome result (λ taken. taken.0 < 100) }
    ensures found { IfSome result (λ taken. text.now ≡ byte ∷ (zero_padded 2 taken.0 ++
        taken.1.now)) }
    ensures only { (n : ℕ) (rest : List ℕ) → n < 100 → text.now ≡ byte ∷ (zero_padded 2 n ++ rest) →
        IsSomeAnd result (λ taken. (taken.0 ≡ n) × (taken.1.now ≡ rest)) }
{
    let rest = after_byte(byte, text)?;
    let (number, rest) = take_digits(2, rest)?;
    Some((number as u8, rest))
}

/// The numbers of year, month and day.
#[derive(Clone, Copy)]
pub(crate) struct DateParts {
    pub(crate) year: u16,
    pub(crate) month: u8,
    pub(crate) day: u8,
}

/// `YYYY-MM-DD` at the front of a text, and what follows it.
pub(crate) fn take_date(text: &[u8]) -> Option<(DateParts, &[u8])>
    ensures small { IfSome result (λ taken. IsDateRange taken.0.year taken.0.month taken.0.day) }
    ensures found { IfSome result (λ taken. text.now
        ≡ date_text taken.0.year taken.0.month taken.0.day ++ taken.1.now) }
    ensures only { (year month day : ℕ) (rest : List ℕ) → IsDateRange year month day →
        text.now ≡ date_text year month day ++ rest →
        IsSomeAnd result (λ taken. (taken.0.year ≡ year) × (taken.0.month ≡ month) ×
        (taken.0.day ≡ day) × (taken.1.now ≡ rest)) }
{
    let (year, rest) = take_digits(4, text)?;
    let (month, rest) = take_two(b'-', rest)?;
    let (day, rest) = take_two(b'-', rest)?;
    Some((
        DateParts {
            year: year as u16,
            month,
            day,
        },
        rest,
    ))
}

/// `:MM:SS` at the front of a text, and what follows it.
pub(crate) fn take_minutes(text: &[u8]) -> Option<(u8, u8, &[u8])>
    ensures small { IfSome result (λ taken. IsClockRange taken.0 taken.1) }
    ensures found { IfSome result (λ taken. text.now ≡ clock_front taken.0 taken.1 ++ taken.2.now) }
    ensures only { (minute second : ℕ) (rest : List ℕ) → IsClockRange minute second →
        text.now ≡ clock_front minute second ++ rest →
        IsSomeAnd result (λ taken. (taken.0 ≡ minute) × (taken.1 ≡ second) × (taken.2.now ≡ rest)) }
{
    let (minute, rest) = take_two(b':', text)?;
    let (second, rest) = take_two(b':', rest)?;
    Some((minute, second, rest))
}

/// The fraction with so many digits that a text is.
pub(crate) fn read_fraction(digits: u8, text: &[u8]) -> Option<Fraction>
    requires { digits ≤ 6 }
    ensures digits { IfSome result (λ made. made.digits ≡ digits) }
    ensures found { IfSome result (λ made. text.now ≡ fraction_text digits made.number) }
    ensures only { (number : ℕ) → IsTrue (is_fraction digits number) →
        text.now ≡ fraction_text digits number →
        IsSomeAnd result (λ made. made.number ≡ number) }
{
    if digits == 0 {
        if text.len() > 0 {
            return None;
        }
        return Fraction::new(0, 0);
    }
    let rest = after_byte(b'.', text)?;
    let number = read_digits(usize::from(digits), rest)?;
    Fraction::new(digits, number)
}

/// `:MM:SS` and the fraction with so many digits that a text is.
pub(crate) fn read_minutes(digits: u8, text: &[u8]) -> Option<(u8, u8, Fraction)>
    requires { digits ≤ 6 }
    ensures small { IfSome result (λ read. IsClockRange read.0 read.1) }
    ensures digits { IfSome result (λ read. read.2.digits ≡ digits) }
    ensures found { IfSome result (λ read. text.now ≡ clock_front read.0 read.1 ++
        fraction_text digits read.2.number) }
    ensures only { (minute second number : ℕ) → IsClockRange minute second →
        IsTrue (is_fraction digits number) →
        text.now ≡ clock_front minute second ++ fraction_text digits number →
        IsSomeAnd result (λ read. (read.0 ≡ minute) × (read.1 ≡ second) ×
        (read.2.number ≡ number)) }
{
    let (minute, second, rest) = take_minutes(text)?;
    let fraction = read_fraction(digits, rest)?;
    Some((minute, second, fraction))
}

/// The numbers of a date and of a time of day.
#[derive(Clone, Copy)]
pub(crate) struct MomentParts {
    pub(crate) date: DateParts,
    pub(crate) hour: u8,
    pub(crate) minute: u8,
    pub(crate) second: u8,
    pub(crate) fraction: Fraction,
}

/// `YYYY-MM-DD HH:MM:SS` and the fraction with so many digits that a text is.
pub(crate) fn read_moment(digits: u8, text: &[u8]) -> Option<MomentParts>
    requires { digits ≤ 6 }
    ensures date { IfSome result (λ read. IsDateRange read.date.year read.date.month
        read.date.day) }
    ensures hour { IfSome result (λ read. read.hour < 100) }
    ensures clock { IfSome result (λ read. IsClockRange read.minute read.second) }
    ensures digits { IfSome result (λ read. read.fraction.digits ≡ digits) }
    ensures found { IfSome result (λ read. text.now
        ≡ date_text read.date.year read.date.month read.date.day ++ byte " "
        ∷ clock_text read.hour read.minute read.second digits read.fraction.number) }
    ensures only { (year month day hour minute second number : ℕ) → IsDateRange year month day →
        hour < 100 →
        IsClockRange minute second → IsTrue (is_fraction digits number) →
        text.now ≡ date_text year month day ++
        byte " " ∷ clock_text hour minute second digits number →
        IsSomeAnd result (λ read. (read.date.year ≡ year) × (read.date.month ≡ month) ×
        (read.date.day ≡ day) ×
        (read.hour ≡ hour) × (read.minute ≡ minute) × (read.second ≡ second) ×
        (read.fraction.number ≡ number)) }
{
    let (date, rest) = take_date(text)?;
    let (hour, rest) = take_two(b' ', rest)?;
    let (minute, second, fraction) = read_minutes(digits, rest)?;
    Some(MomentParts {
        date,
        hour,
        minute,
        second,
        fraction,
    })
}

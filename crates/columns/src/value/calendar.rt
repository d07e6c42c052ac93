//! Days since 1970-01-01 as dates.

ghost use Rattle.std.specs.Prelude.{◌≡◌, ◌≤◌, ◌*◌, ◌-◌, ℕ, Some, IfSome, IsSomeAnd};
ghost use Rattle.columns.specs.Calendar as spec;
ghost use Rattle.columns.specs.Calendar.{year_of, month_of, day_text};
ghost use Rattle.columns.specs.CalendarDays.{IsDayOf, years_days, months_days};

use std::fmt;

/// A day, by how many days it lies after 1970-01-01.
#[derive(Clone, Copy)]
pub(crate) struct Day {
    pub(crate) days: u32,
}

/// Writes `YYYY-MM-DD`. The only error is the writer's.
impl fmt::Display for Day {
    ghost output = { λ day. Some (day_text day.days) };

    fn fmt<W: fmt::Write>(&self, f: &mut fmt::Formatter<W>) -> fmt::Result {
        let (year, left) = find_year(self.days);
        let (month, rest) = find_month(year, left);
        let day = u64::from(rest) + 1;
        write!(f, "{year:04}-{month:02}-{day:02}")
    }
}

/// The year of a day that lies so many days after 1970-01-01, and how many days it lies after the first of its year.
fn find_year(days: u32) -> (u16, u32)
    ensures found { (result.0, result.1) ≡ year_of days }
    ensures days { result.1 ≤ days }
{
    let mut left = days;
    for year in 1970..2038u16 {
        let length = year_length(year);
        if left < length {
            return (year, left);
        }
        left -= length;
    }
    (2038, left)
}

/// The month of a day that lies so many days after the first of its year, and how many days it lies after the first of
/// its month.
fn find_month(year: u16, days: u32) -> (u8, u32)
    ensures found { (result.0, result.1) ≡ month_of year days }
    ensures days { result.1 ≤ days }
{
    let mut left = days;
    for month in 1..12u8 {
        let length = month_length(year, month);
        if left < length {
            return (month, left);
        }
        left -= length;
    }
    (12, left)
}

/// How many days a date lies after 1970-01-01, if it is one that the calendar has, of the years 1970 to 2038.
pub(crate) fn find_days(year: u16, month: u8, day: u8) -> Option<u32>
    ensures found { IfSome result (λ days. IsDayOf days year month day) }
    ensures only { (days : ℕ) → IsDayOf days year month day →
        IsSomeAnd result (λ found. found ≡ days) }
{
    if day == 0 {
        return None;
    }
    let after = u32::from(day - 1);
    let days = days_before_year(year) + days_before_month(year, month) + after;
    let (found_year, left) = find_year(days);
    let (found_month, rest) = find_month(found_year, left);
    if found_year != year {
        return None;
    }
    if found_month != month {
        return None;
    }
    if rest != after {
        return None;
    }
    Some(days)
}

/// How many days the years from 1970 on have before this one.
fn days_before_year(year: u16) -> u32
    ensures days { result ≡ years_days (year - 1970) 1970 }
    ensures few { result ≤ 366 * year }
{
    let mut days = 0;
    for earlier in 1970..year {
        days += year_length(earlier);
    }
    days
}

/// How many days the months of a year have before this one.
fn days_before_month(year: u16, month: u8) -> u32
    ensures days { result ≡ months_days year (month - 1) 1 }
    ensures few { result ≤ 31 * month }
{
    let mut days = 0;
    for earlier in 1..month {
        days += month_length(year, earlier);
    }
    days
}

fn year_length(year: u16) -> u32
    ensures { result ≡ spec.year_length year }
{
    if is_leap(year) { 366 } else { 365 }
}

fn month_length(year: u16, month: u8) -> u32
    ensures { result ≡ spec.month_length year month }
{
    if month == 2 {
        return if is_leap(year) { 29 } else { 28 };
    }
    if month == 4 || month == 6 || month == 9 || month == 11 {
        return 30;
    }
    31
}

fn is_leap(year: u16) -> bool
    ensures { result ≡ spec.is_leap year }
{
    year % 4 == 0 && (year % 100 != 0 || year % 400 == 0)
}

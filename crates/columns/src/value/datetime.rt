//! DATETIME.

ghost use Rattle.std.specs.Prelude.{◌≡◌, ◌↔◌, ◌≤◌, ◌+◌, ◌*◌, ◌^◌, ◌<◌, ◌++◌, ℕ, Some, IfOk, IfErr, IfSome, IsOkAnd, IsSome, IsSomeAnd, IsTrue, OnOk, OnErr, length, vec_len, vec_capacity};
ghost use Rattle.binlog.specs.Cell.{cell_value, bytes_cell};
ghost use Rattle.columns.specs.Cells.{bytes_fault};
ghost use Rattle.columns.specs.Dates.{is_date};
ghost use Rattle.columns.specs.Times.{is_clock, fraction_size, clock_number, moment_number};
ghost use Rattle.columns.specs.Moments.{moment_bytes, moment_text, IsSameMoment, IsSameClock};

use crate::value::bytes::read_big;
use crate::value::date::Date;
use crate::value::fault::CellFault;
use crate::value::fraction::Fraction;
use crate::value::moment::Datetime;
use binlog::Cell;
use std::alloc::AllocError;
use std::fmt;

impl Datetime {
    /// The value, if the time is one of a day.
    pub fn new(date: Date, hour: u8, minute: u8, second: u8, fraction: Fraction) -> Option<Datetime>
        ensures lawful { IsSome result ↔ IsTrue (is_clock hour minute second) }
        ensures parts { IfSome result (λ made. (made.date ≡ date)
            × IsSameClock made hour minute second × (made.fraction ≡ fraction)) }
    {
        if hour <= 23 && minute <= 59 && second <= 59 {
            Some(Datetime {
                date,
                hour,
                minute,
                second,
                fraction,
            })
        } else {
            None
        }
    }

    /// The value that a cell stands for in a column with so many digits after the point: five bytes with date and time,
    /// and the fraction in 0 to 3 more.
    pub fn read(digits: u8, cell: Cell<'_>) -> Result<Datetime, CellFault>
        requires { digits ≤ 6 }
        ensures digits { IfOk result (λ made. made.fraction.digits ≡ digits) }
        ensures found { IfOk result (λ made. cell_value cell.entry
            ≡ bytes_cell (moment_bytes made)) }
        ensures only { (other : Datetime) → other.fraction.digits ≡ digits
            → cell_value cell.entry ≡ bytes_cell (moment_bytes other)
            → IsOkAnd result (λ made. IsSameMoment made other) }
        ensures fault { IfErr result (λ fault. fault
            ≡ bytes_fault (5 + fraction_size digits) (cell_value cell.entry)) }
    {
        let Cell::Bytes(bytes) = cell else {
            return Err(CellFault::Kind);
        };
        match of_bytes(digits, bytes) {
            Some(found) => Ok(found),
            None => Err(CellFault::of_bytes(bytes.len(), 5 + Fraction::size(digits))),
        }
    }

    /// Appends the bytes of the value in a cell. The only error is that the vector lacks the room and cannot grow. It
    /// leaves the vector as it was.
    pub fn write(self, out: &mut Vec<u8>) -> Result<(), AllocError>
        ensures ok { OnOk result (out.new.items ≡ out.old.items ++ moment_bytes self) }
        ensures err { OnErr result (out.new.items ≡ out.old.items) }
        ensures full { OnErr result (vec_capacity out.old
            < vec_len out.old + length (moment_bytes self)) }
    {
        let date = (u64::from(self.date.year) * 13 + u64::from(self.date.month)) * 32
            + u64::from(self.date.day);
        let clock = u64::from(self.hour) * 4096
            + u64::from(self.minute) * 64
            + u64::from(self.second);
        let [_, _, _, a, b, c, d, e] = ((1 << 39) + (date * 131_072 + clock)).to_be_bytes();
        let [_, x, y, z] = self.fraction.stored().to_be_bytes();
        match self.fraction.byte_count() {
            0 => out.extend_from_slice(&[a, b, c, d, e])?,
            1 => out.extend_from_slice(&[a, b, c, d, e, z])?,
            2 => out.extend_from_slice(&[a, b, c, d, e, y, z])?,
            _ => out.extend_from_slice(&[a, b, c, d, e, x, y, z])?,
        }
        Ok(())
    }
}

/// Writes `YYYY-MM-DD HH:MM:SS`, and then a point and the fraction if it has digits. The only error is the writer's.
impl fmt::Display for Datetime {
    ghost output = { λ made. Some (moment_text made) };

    fn fmt<W: fmt::Write>(&self, f: &mut fmt::Formatter<W>) -> fmt::Result {
        let date = self.date;
        let hour = self.hour;
        let minute = self.minute;
        let second = self.second;
        let fraction = self.fraction;
        write!(f, "{date} {hour:02}:{minute:02}:{second:02}{fraction}")
    }
}

/// The value of bytes, with so many digits after the point.
fn of_bytes(digits: u8, bytes: &[u8]) -> Option<Datetime>
    requires { digits ≤ 6 }
    ensures digits { IfSome result (λ made. made.fraction.digits ≡ digits) }
    ensures found { IfSome result (λ made. bytes.now ≡ moment_bytes made) }
    ensures only { (other : Datetime) → other.fraction.digits ≡ digits
        → bytes.now ≡ moment_bytes other → IsSomeAnd result (λ made. IsSameMoment made other) }
{
    let (front, end) = bytes.split_at_checked(5)?;
    let fraction = Fraction::of_bytes(digits, end)?;
    of_number(read_big(front), fraction)
}

/// The value of the number in the first five bytes, and of a fraction.
fn of_number(number: u64, fraction: Fraction) -> Option<Datetime>
    requires { number < 2 ^ 40 }
    ensures fraction { IfSome result (λ made. made.fraction ≡ fraction) }
    ensures found { IfSome result (λ made. number
        ≡ moment_number made.date.year made.date.month made.date.day
        (clock_number made.hour made.minute made.second)) }
    ensures only { (year month day hour minute second : ℕ) → IsTrue (is_date year month day)
        → IsTrue (is_clock hour minute second) → number
        ≡ moment_number year month day (clock_number hour minute second)
        → IsSomeAnd result (λ made. (made.date.year ≡ year) × (made.date.month ≡ month)
        × (made.date.day ≡ day) × IsSameClock made hour minute second) }
{
    let packed = number.checked_sub(1 << 39)?;
    let date = date_of(packed / 131_072)?;
    of_clock(date, (packed % 131_072) as u32, fraction)
}

/// The date of the number above the time of day.
fn date_of(number: u64) -> Option<Date>
    requires { number < 2 ^ 22 }
    ensures found { IfSome result (λ made. number ≡ (made.year * 13 + made.month) * 32 + made.day) }
    ensures only { (year month day : ℕ) → IsTrue (is_date year month day)
        → number ≡ (year * 13 + month) * 32 + day
        → IsSomeAnd result (λ made. (made.year ≡ year) × (made.month ≡ month) × (made.day ≡ day)) }
{
    let day = (number % 32) as u8;
    let months = number / 32;
    let month = (months % 13) as u8;
    let year = (months / 13) as u16;
    Date::new(year, month, day)
}

/// The value of a date, the number of a time of day, and a fraction.
fn of_clock(date: Date, clock: u32, fraction: Fraction) -> Option<Datetime>
    requires { clock < 2 ^ 17 }
    ensures date { IfSome result (λ made. made.date ≡ date) }
    ensures fraction { IfSome result (λ made. made.fraction ≡ fraction) }
    ensures found { IfSome result (λ made. clock ≡ clock_number made.hour made.minute made.second) }
    ensures only { (hour minute second : ℕ) → IsTrue (is_clock hour minute second)
        → clock ≡ clock_number hour minute second
        → IsSomeAnd result (λ made. IsSameClock made hour minute second) }
{
    let hour = (clock / 4096) as u8;
    let minute = (clock / 64 % 64) as u8;
    let second = (clock % 64) as u8;
    Datetime::new(date, hour, minute, second, fraction)
}

//! TIME.

ghost use Rattle.std.specs.Prelude.{◌≡◌, ◌≢◌, ◌↔◌, ◌≤◌, ◌+◌, ◌*◌, ◌^◌, ◌<◌, ◌++◌, ℕ, [], ◌∷◌, if◌then◌else◌, true, Some, IfOk, IfErr, IfSome, IsOkAnd, IsSome, IsSomeAnd, IsTrue, OnOk, OnErr, length, vec_len, vec_capacity};
ghost use Rattle.std.specs.Str.{byte};
ghost use Rattle.binlog.specs.Cell.{cell_value, bytes_cell};
ghost use Rattle.columns.specs.Cells.{bytes_fault};
ghost use Rattle.columns.specs.Times.{fraction_size, clock_number, even_digits};
ghost use Rattle.columns.specs.TimeRange.{is_time};
ghost use Rattle.columns.specs.Spans.{around, span_number, span_bytes, span_text, IsSameSpan, HasClock};

use crate::value::bytes::read_big;
use crate::value::fault::CellFault;
use crate::value::fraction::Fraction;
use crate::value::span::Time;
use binlog::Cell;
use std::alloc::AllocError;
use std::fmt;

impl Time {
    /// The time, if it is in range.
    pub fn new(
        negative: bool,
        hour: u16,
        minute: u8,
        second: u8,
        fraction: Fraction,
    ) -> Option<Time>
        ensures lawful { IsSome result ↔ IsTrue (is_time negative hour minute second
            fraction.number) }
        ensures parts { IfSome result (λ made. (made.negative ≡ negative)
            × HasClock made hour minute second × (made.fraction ≡ fraction)) }
    {
        if hour > 838 || minute > 59 || second > 59 {
            return None;
        }
        if hour == 838 && minute == 59 && second == 59 && fraction.number > 0 {
            return None;
        }
        if negative && hour == 0 && minute == 0 && second == 0 && fraction.number == 0 {
            return None;
        }
        Some(Time {
            negative,
            hour,
            minute,
            second,
            fraction,
        })
    }

    /// The time that a cell stands for in a column with so many digits after the point: three bytes and 0 to 3 more, one
    /// number with its sign around the middle of its range.
    pub fn read(digits: u8, cell: Cell<'_>) -> Result<Time, CellFault>
        requires { digits ≤ 6 }
        ensures digits { IfOk result (λ made. made.fraction.digits ≡ digits) }
        ensures found { IfOk result (λ made. cell_value cell.entry
            ≡ bytes_cell (span_bytes (fraction_size digits) made)) }
        ensures only { (other : Time) → other.fraction.digits ≡ digits
            → cell_value cell.entry ≡ bytes_cell (span_bytes (fraction_size digits) other)
            → IsOkAnd result (λ made. IsSameSpan made other) }
        ensures fault { IfErr result (λ fault. fault
            ≡ bytes_fault (3 + fraction_size digits) (cell_value cell.entry)) }
    {
        let Cell::Bytes(bytes) = cell else {
            return Err(CellFault::Kind);
        };
        match of_bytes(digits, bytes) {
            Some(found) => Ok(found),
            None => Err(CellFault::of_bytes(bytes.len(), 3 + Fraction::size(digits))),
        }
    }

    /// Appends the bytes of the time in a cell. The only error is that the vector lacks the room and cannot grow. It
    /// leaves the vector as it was.
    pub fn write(self, out: &mut Vec<u8>) -> Result<(), AllocError>
        ensures ok { OnOk result (out.new.items ≡ out.old.items ++ span_bytes
            (fraction_size self.fraction.digits) self) }
        ensures err { OnErr result (out.new.items ≡ out.old.items) }
        ensures full { OnErr result (vec_capacity out.old
            < vec_len out.old + length (span_bytes (fraction_size self.fraction.digits) self)) }
    {
        let size = self.fraction.byte_count();
        let [_, _, a, b, c, d, e, f] = number_of(self, size).to_be_bytes();
        match size {
            0 => out.extend_from_slice(&[d, e, f])?,
            1 => out.extend_from_slice(&[c, d, e, f])?,
            2 => out.extend_from_slice(&[b, c, d, e, f])?,
            _ => out.extend_from_slice(&[a, b, c, d, e, f])?,
        }
        Ok(())
    }
}

/// Writes `[-]HH:MM:SS` with at least two digits of hours, and then a point and the fraction if it has digits. The only
/// error is the writer's.
impl fmt::Display for Time {
    ghost output = { λ made. Some (span_text made) };

    fn fmt<W: fmt::Write>(&self, f: &mut fmt::Formatter<W>) -> fmt::Result {
        let sign = sign_of(self.negative);
        let hour = self.hour;
        let minute = self.minute;
        let second = self.second;
        let fraction = self.fraction;
        write!(f, "{sign}{hour:02}:{minute:02}:{second:02}{fraction}")
    }
}

/// The number of a time, whose fraction takes so many bytes.
fn number_of(time: Time, size: usize) -> u64
    requires size { size ≡ fraction_size time.fraction.digits }
    requires few { size ≤ 3 }
    ensures { result ≡ around (2 ^ 23 * 256 ^ size) time.negative (span_number size time) }
{
    let unit = unit_of(size);
    let clock = u64::from(time.hour) * 4096 + u64::from(time.minute) * 64 + u64::from(time.second);
    let amount = clock * unit + u64::from(time.fraction.stored());
    join_sign(8_388_608 * unit, time.negative, amount)
}

/// The number that lies so far from the middle of its range.
fn join_sign(middle: u64, negative: bool, amount: u64) -> u64
    requires amount { amount ≤ middle }
    requires middle { middle ≤ 2 ^ 47 }
    ensures { result ≡ around middle negative amount }
{
    if negative {
        middle - amount
    } else {
        middle + amount
    }
}

/// What stands in front of a time.
fn sign_of(negative: bool) -> &'static str
    ensures { result.now ≡ (if negative then byte "-" ∷ [] else []) }
{
    if negative { "-" } else { "" }
}

/// The time of bytes, with so many digits after the point.
fn of_bytes(digits: u8, bytes: &[u8]) -> Option<Time>
    requires { digits ≤ 6 }
    ensures digits { IfSome result (λ made. made.fraction.digits ≡ digits) }
    ensures found { IfSome result (λ made. bytes.now ≡ span_bytes (fraction_size digits) made) }
    ensures only { (other : Time) → other.fraction.digits ≡ digits
        → bytes.now ≡ span_bytes (fraction_size digits) other
        → IsSomeAnd result (λ made. IsSameSpan made other) }
{
    let size = Fraction::size(digits);
    if bytes.len() != 3 + size {
        return None;
    }
    let unit = unit_of(size);
    let (negative, amount) = split_sign(read_big(bytes), 8_388_608 * unit);
    let fraction = Fraction::of_stored(digits, (amount % unit) as u32)?;
    of_clock(negative, amount / unit, fraction)
}

/// The value of one second in the number with a fraction of so many bytes.
fn unit_of(size: usize) -> u64
    requires { size ≤ 3 }
    ensures value { result ≡ 256 ^ size }
    ensures some { 0 < result }
    ensures small { result ≤ 2 ^ 24 }
{
    match size {
        0 => 1,
        1 => 256,
        2 => 65_536,
        _ => 16_777_216,
    }
}

/// The sign of a number around the middle of its range, and how far it lies from it.
fn split_sign(number: u64, middle: u64) -> (bool, u64)
    requires range { number < 2 * middle }
    requires middle { middle ≤ 2 ^ 47 }
    ensures number { number ≡ around middle result.0 result.1 }
    ensures amount { result.1 ≤ middle }
    ensures zero { result.0 ≡ true → result.1 ≢ 0 }
{
    if number < middle {
        (true, middle - number)
    } else {
        (false, number - middle)
    }
}

/// The time of a sign, the number of hours, minutes and seconds, and a fraction.
fn of_clock(negative: bool, clock: u64, fraction: Fraction) -> Option<Time>
    requires { clock ≤ 2 ^ 23 }
    ensures negative { IfSome result (λ made. made.negative ≡ negative) }
    ensures fraction { IfSome result (λ made. made.fraction ≡ fraction) }
    ensures found { IfSome result (λ made. clock ≡ clock_number made.hour made.minute made.second) }
    ensures only { (hour minute second : ℕ) → IsTrue
        (is_time negative hour minute second fraction.number)
        → clock ≡ clock_number hour minute second
        → IsSomeAnd result (λ made. HasClock made hour minute second) }
{
    let hour = (clock / 4096) as u16;
    let minute = (clock / 64 % 64) as u8;
    let second = (clock % 64) as u8;
    Time::new(negative, hour, minute, second, fraction)
}

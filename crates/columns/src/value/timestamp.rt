//! TIMESTAMP.

ghost use Rattle.std.specs.Prelude.{◌≡◌, ◌↔◌, ◌≤◌, ◌+◌, ◌/◌, ◌<◌, ◌++◌, ℕ, Some, IfOk, IfErr, IfSome, IsOkAnd, IsSome, IsSomeAnd, IsTrue, OnOk, OnErr, length, vec_len, vec_capacity};
ghost use Rattle.binlog.specs.Cell.{cell_value, bytes_cell};
ghost use Rattle.columns.specs.Cells.{bytes_fault};
ghost use Rattle.columns.specs.Times.{fraction_size};
ghost use Rattle.columns.specs.StampRange.{is_stamp};
ghost use Rattle.columns.specs.Stamps.{stamp_bytes, stamp_text, IsSameStamp};

use crate::value::bytes::read_big;
use crate::value::calendar::Day;
use crate::value::fault::CellFault;
use crate::value::fraction::Fraction;
use crate::value::stamp::Timestamp;
use binlog::Cell;
use std::alloc::AllocError;
use std::fmt;

impl Timestamp {
    /// The value, if it is in range.
    pub fn new(seconds: u32, fraction: Fraction) -> Option<Timestamp>
        ensures lawful { IsSome result ↔ IsTrue (is_stamp seconds fraction.number) }
        ensures parts { IfSome result (λ made. (made.seconds ≡ seconds)
            × (made.fraction ≡ fraction)) }
    {
        if seconds >= 1 << 31 {
            return None;
        }
        if seconds == 0 && fraction.number != 0 {
            return None;
        }
        Some(Timestamp { seconds, fraction })
    }

    /// The value that a cell stands for in a column with so many digits after the point: four bytes of seconds, the
    /// highest first, and the fraction in 0 to 3 more.
    pub fn read(digits: u8, cell: Cell<'_>) -> Result<Timestamp, CellFault>
        requires { digits ≤ 6 }
        ensures digits { IfOk result (λ made. made.fraction.digits ≡ digits) }
        ensures found { IfOk result (λ made. cell_value cell.entry
            ≡ bytes_cell (stamp_bytes made)) }
        ensures only { (other : Timestamp) → other.fraction.digits ≡ digits
            → cell_value cell.entry ≡ bytes_cell (stamp_bytes other)
            → IsOkAnd result (λ made. IsSameStamp made other) }
        ensures fault { IfErr result (λ fault. fault
            ≡ bytes_fault (4 + fraction_size digits) (cell_value cell.entry)) }
    {
        let Cell::Bytes(bytes) = cell else {
            return Err(CellFault::Kind);
        };
        match of_bytes(digits, bytes) {
            Some(found) => Ok(found),
            None => Err(CellFault::of_bytes(bytes.len(), 4 + Fraction::size(digits))),
        }
    }

    /// Appends the bytes of the value in a cell. The only error is that the vector lacks the room and cannot grow. It
    /// leaves the vector as it was.
    pub fn write(self, out: &mut Vec<u8>) -> Result<(), AllocError>
        ensures ok { OnOk result (out.new.items ≡ out.old.items ++ stamp_bytes self) }
        ensures err { OnErr result (out.new.items ≡ out.old.items) }
        ensures full { OnErr result (vec_capacity out.old
            < vec_len out.old + length (stamp_bytes self)) }
    {
        let [a, b, c, d] = self.seconds.to_be_bytes();
        let [_, x, y, z] = self.fraction.stored().to_be_bytes();
        match self.fraction.byte_count() {
            0 => out.extend_from_slice(&[a, b, c, d])?,
            1 => out.extend_from_slice(&[a, b, c, d, z])?,
            2 => out.extend_from_slice(&[a, b, c, d, y, z])?,
            _ => out.extend_from_slice(&[a, b, c, d, x, y, z])?,
        }
        Ok(())
    }
}

/// Writes `YYYY-MM-DD HH:MM:SS` in UTC, and then a point and the fraction if it has digits; of 0 seconds the zero date.
/// The only error is the writer's.
impl fmt::Display for Timestamp {
    ghost output = { λ made. Some (stamp_text made) };

    fn fmt<W: fmt::Write>(&self, f: &mut fmt::Formatter<W>) -> fmt::Result {
        let seconds = self.seconds;
        let fraction = self.fraction;
        if seconds == 0 {
            return write!(f, "0000-00-00 00:00:00{fraction}");
        }
        let day = Day {
            days: seconds / 86_400,
        };
        let hour = seconds / 3600 % 24;
        let minute = seconds / 60 % 60;
        let second = seconds % 60;
        write!(f, "{day} {hour:02}:{minute:02}:{second:02}{fraction}")
    }
}

/// The value of bytes, with so many digits after the point.
fn of_bytes(digits: u8, bytes: &[u8]) -> Option<Timestamp>
    requires { digits ≤ 6 }
    ensures digits { IfSome result (λ made. made.fraction.digits ≡ digits) }
    ensures found { IfSome result (λ made. bytes.now ≡ stamp_bytes made) }
    ensures only { (other : Timestamp) → other.fraction.digits ≡ digits
        → bytes.now ≡ stamp_bytes other → IsSomeAnd result (λ made. IsSameStamp made other) }
{
    let (front, end) = bytes.split_at_checked(4)?;
    let fraction = Fraction::of_bytes(digits, end)?;
    Timestamp::new(read_big(front) as u32, fraction)
}

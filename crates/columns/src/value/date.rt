//! DATE.

ghost use Rattle.std.specs.Prelude.{◌≡◌, ◌↔◌, ℕ, Some, IfOk, IfErr, IfSome, IsOkAnd, IsSome, IsSomeAnd, IsTrue, ◌+◌, ◌*◌, ◌<◌, ◌^◌};
ghost use Rattle.binlog.specs.Cell.{cell_value, bytes_cell};
ghost use Rattle.columns.specs.Cells.{bytes_fault};
ghost use Rattle.columns.specs.Dates.{is_date, date_bytes, date_text};

use crate::value::fault::CellFault;
use binlog::Cell;
use byteorder::{ByteOrder, LittleEndian};
use std::fmt;

/// A date as columns have it: the year is at most 9999, the month at most 12, the day at most 31. Month and day may be
/// 0, and a month need not have the day, as under the SQL mode `ALLOW_INVALID_DATES`.
#[derive(Clone, Copy, Debug, PartialEq, Eq)]
pub struct Date {
    pub year: u16,
    pub month: u8,
    pub day: u8,
    ghost lawful: { IsTrue (is_date year month day) },
}

impl Date {
    /// The date, if its parts are in range.
    pub fn new(year: u16, month: u8, day: u8) -> Option<Date>
        ensures lawful { IsSome result ↔ IsTrue (is_date year month day) }
        ensures parts { IfSome result (λ made. (made.year ≡ year) × (made.month ≡ month)
            × (made.day ≡ day)) }
    {
        if year <= 9999 && month <= 12 && day <= 31 {
            Some(Date { year, month, day })
        } else {
            None
        }
    }

    /// The date that a cell stands for: three bytes, the lowest first, with the day in the lowest 5 bits, the month in
    /// 4, and then the year.
    pub fn read(cell: Cell<'_>) -> Result<Date, CellFault>
        ensures found { IfOk result (λ made. cell_value cell.entry
            ≡ bytes_cell (date_bytes made.year made.month made.day)) }
        ensures only { (year month day : ℕ) → IsTrue (is_date year month day)
            → cell_value cell.entry ≡ bytes_cell (date_bytes year month day)
            → IsOkAnd result (λ made. (made.year ≡ year) × (made.month ≡ month)
            × (made.day ≡ day)) }
        ensures fault { IfErr result (λ fault. fault ≡ bytes_fault 3 (cell_value cell.entry)) }
    {
        let Cell::Bytes(bytes) = cell else {
            return Err(CellFault::Kind);
        };
        match of_bytes(bytes) {
            Some(found) => Ok(found),
            None => Err(CellFault::of_bytes(bytes.len(), 3)),
        }
    }

    /// The bytes of the date in a cell.
    pub fn bytes(self) -> [u8; 3]
        ensures { result ≡ date_bytes self.year self.month self.day }
    {
        let number = u32::from(self.year) * 512 + u32::from(self.month) * 32 + u32::from(self.day);
        let [low, middle, high, _] = number.to_le_bytes();
        [low, middle, high]
    }
}

/// Writes `YYYY-MM-DD`. The only error is the writer's.
impl fmt::Display for Date {
    ghost output = { λ made. Some (date_text made.year made.month made.day) };

    fn fmt<W: fmt::Write>(&self, f: &mut fmt::Formatter<W>) -> fmt::Result {
        let year = self.year;
        let month = self.month;
        let day = self.day;
        write!(f, "{year:04}-{month:02}-{day:02}")
    }
}

/// The date of three bytes.
fn of_bytes(bytes: &[u8]) -> Option<Date>
    ensures found { IfSome result (λ made. bytes.now ≡ date_bytes made.year made.month made.day) }
    ensures only { (year month day : ℕ) → IsTrue (is_date year month day)
        → bytes.now ≡ date_bytes year month day → IsSomeAnd result (λ made. (made.year ≡ year)
        × (made.month ≡ month) × (made.day ≡ day)) }
{
    if bytes.len() != 3 {
        return None;
    }
    let number = LittleEndian::read_u24(bytes);
    of_number(number)
}

/// The date of a number of three bytes.
fn of_number(number: u32) -> Option<Date>
    requires { number < 256 ^ 3 }
    ensures found { IfSome result (λ made. number ≡ made.year * 512 + made.month * 32 + made.day) }
    ensures only { (year month day : ℕ) → IsTrue (is_date year month day)
        → number ≡ year * 512 + month * 32 + day → IsSomeAnd result (λ made. (made.year ≡ year)
        × (made.month ≡ month) × (made.day ≡ day)) }
{
    let day = (number % 32) as u8;
    let month = (number / 32 % 16) as u8;
    let year = (number / 512) as u16;
    Date::new(year, month, day)
}

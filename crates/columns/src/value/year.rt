//! YEAR.

ghost use Rattle.std.specs.Prelude.{◌≡◌, ◌↔◌, ℕ, Some, IfOk, IfErr, IfSome, IsOkAnd, IsSome, IsTrue};
ghost use Rattle.binlog.specs.Cell.{cell_value, bytes_cell};
ghost use Rattle.columns.specs.Cells.{bytes_fault};
ghost use Rattle.columns.specs.Dates.{is_year, year_bytes, year_text};

use crate::value::fault::CellFault;
use binlog::Cell;
use std::fmt;

/// A year: 0, or one from 1901 to 2155.
#[derive(Clone, Copy, Debug, PartialEq, Eq)]
pub struct Year {
    pub year: u16,
    ghost lawful: { IsTrue (is_year year) },
}

impl Year {
    /// The year, if columns of the type YEAR have it.
    pub fn new(year: u16) -> Option<Year>
        ensures lawful { IsSome result ↔ IsTrue (is_year year) }
        ensures year { IfSome result (λ made. made.year ≡ year) }
    {
        if year == 0 || (1901 <= year && year <= 2155) {
            Some(Year { year })
        } else {
            None
        }
    }

    /// The year that a cell stands for: its byte is 0 for the year 0, else how many years it lies after 1900.
    pub fn read(cell: Cell<'_>) -> Result<Year, CellFault>
        ensures found { IfOk result (λ made. cell_value cell.entry
            ≡ bytes_cell (year_bytes made.year)) }
        ensures only { (year : ℕ) → IsTrue (is_year year)
            → cell_value cell.entry ≡ bytes_cell (year_bytes year)
            → IsOkAnd result (λ made. made.year ≡ year) }
        ensures fault { IfErr result (λ fault. fault ≡ bytes_fault 1 (cell_value cell.entry)) }
    {
        let Cell::Bytes(bytes) = cell else {
            return Err(CellFault::Kind);
        };
        let [byte] = bytes else {
            return Err(CellFault::Size(bytes.len()));
        };
        let year = if *byte == 0 {
            0
        } else {
            1900 + u16::from(*byte)
        };
        Ok(Year { year })
    }

    /// The bytes of the year in a cell.
    pub fn bytes(self) -> [u8; 1]
        ensures { result ≡ year_bytes self.year }
    {
        if self.year == 0 {
            return [0];
        }
        [(self.year - 1900) as u8]
    }
}

/// Writes the year in four digits. The only error is the writer's.
impl fmt::Display for Year {
    ghost output = { λ made. Some (year_text made.year) };

    fn fmt<W: fmt::Write>(&self, f: &mut fmt::Formatter<W>) -> fmt::Result {
        let year = self.year;
        write!(f, "{year:04}")
    }
}

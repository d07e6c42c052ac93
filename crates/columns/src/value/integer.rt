//! Integers: TINYINT, SMALLINT, MEDIUMINT, INT and BIGINT, with and without sign.

ghost use Rattle.std.specs.Prelude.{◌≡◌, ◌↔◌, ◌<◌, ◌≤◌, ◌*◌, ◌^◌, IfOk, IfErr, IfSome, IsSome, Ok, Some};
ghost use Rattle.binlog.specs.Cell.{cell_value, number_cell};
ghost use Rattle.columns.specs.Text.{zero_padded};
ghost use Rattle.columns.specs.Cells.{number_fault};
ghost use Rattle.columns.specs.Integers.{byte_count, IsIntegerCell, IsInRange, IsWithin, HasSign, stored, integer_text};
ghost use Rattle.columns.specs.Integers as spec;

use crate::sign::Sign;
use crate::value::fault::CellFault;
use binlog::Cell;
use std::fmt;

/// How many bytes an integer takes.
#[derive(Clone, Copy, Debug, PartialEq, Eq)]
pub enum IntegerWidth {
    /// TINYINT.
    One,
    /// SMALLINT.
    Two,
    /// MEDIUMINT.
    Three,
    /// INT.
    Four,
    /// BIGINT.
    Eight,
}

impl IntegerWidth {
    /// The number of bytes.
    pub fn bytes(self) -> u8
        ensures { result ≡ byte_count self }
    {
        match self {
            IntegerWidth::One => 1,
            IntegerWidth::Two => 2,
            IntegerWidth::Three => 3,
            IntegerWidth::Four => 4,
            IntegerWidth::Eight => 8,
        }
    }

    /// The least number that is too great for the signed type: the value of its sign bit.
    pub(crate) fn half(self) -> u64
        ensures { result ≡ spec.half self }
    {
        match self {
            IntegerWidth::One => 0x80,
            IntegerWidth::Two => 0x8000,
            IntegerWidth::Three => 0x80_0000,
            IntegerWidth::Four => 0x8000_0000,
            IntegerWidth::Eight => 0x8000_0000_0000_0000,
        }
    }
}

/// An integer of a signed or an unsigned type.
#[derive(Clone, Copy, Debug, PartialEq, Eq)]
pub enum Integer {
    Signed(i64),
    Unsigned(u64),
}

impl Integer {
    /// The integer that a cell stands for in a column of this width and sign: two's complement, unless the type is
    /// unsigned.
    pub fn read(width: IntegerWidth, sign: Sign, cell: Cell<'_>) -> Result<Integer, CellFault>
        ensures found { IfOk result (λ integer. IsIntegerCell width sign integer
            (cell_value cell.entry)) }
        ensures only { (integer : Integer) → IsIntegerCell width sign integer
            (cell_value cell.entry) → result ≡ Ok integer }
        ensures fault { IfErr result (λ fault. number_fault (byte_count width)
            (cell_value cell.entry) ≡ Some fault) }
    {
        let value = read_number(width, cell)?;
        Ok(of_number(width, sign, value))
    }

    /// The number that stands for the integer in a cell of this width, if it is in range.
    pub fn number(self, width: IntegerWidth) -> Option<u64>
        ensures some { IsSome result ↔ IsInRange width self }
        ensures number { IfSome result (λ number. number ≡ stored width self) }
    {
        match self {
            Integer::Signed(value) => complement(value, width.half()),
            Integer::Unsigned(value) => (value / 2 < width.half()).then_some(value),
        }
    }
}

/// Writes the integer in decimal digits, with a minus sign in front of one below zero. The only error is the writer's.
impl fmt::Display for Integer {
    ghost output = { λ integer. Some (integer_text integer) };

    fn fmt<W: fmt::Write>(&self, f: &mut fmt::Formatter<W>) -> fmt::Result {
        match self {
            Integer::Signed(value) => write!(f, "{value}"),
            Integer::Unsigned(value) => write!(f, "{value}"),
        }
    }
}

/// A number of a type with ZEROFILL, and the type's display width.
#[derive(Clone, Copy, Debug, PartialEq, Eq)]
pub struct Zerofilled {
    pub number: u64,
    pub width: u8,
}

/// Writes the number in at least as many digits as the width says, with zeros in front. The only error is the writer's.
impl fmt::Display for Zerofilled {
    ghost output = { λ filled. Some (zero_padded filled.width filled.number) };

    fn fmt<W: fmt::Write>(&self, f: &mut fmt::Formatter<W>) -> fmt::Result {
        let number = self.number;
        let width = usize::from(self.width);
        write!(f, "{number:0width$}")
    }
}

/// The number of a cell of this width.
fn read_number(width: IntegerWidth, cell: Cell<'_>) -> Result<u64, CellFault>
    ensures found { IfOk result (λ value. cell_value cell.entry
        ≡ number_cell value (byte_count width)) }
    ensures small { IfOk result (λ value. value < 2 * spec.half width) }
    ensures fault { IfErr result (λ fault. number_fault (byte_count width) (cell_value cell.entry)
        ≡ Some fault) }
{
    let Cell::Number {
        value,
        width: found,
    } = cell
    else {
        return Err(CellFault::Kind);
    };
    if found != width.bytes() {
        return Err(CellFault::Size(usize::from(found)));
    }
    if value / 2 >= width.half() {
        return Err(CellFault::Range);
    }
    Ok(value)
}

/// The integer of a number in a cell.
fn of_number(width: IntegerWidth, sign: Sign, value: u64) -> Integer
    requires { value < 2 * spec.half width }
    ensures sign { HasSign sign result }
    ensures range { IsInRange width result }
    ensures stored { stored width result ≡ value }
{
    match sign {
        Sign::Signed => Integer::Signed(of_complement(value, width.half())),
        Sign::Unsigned | Sign::Zerofill => Integer::Unsigned(value),
    }
}

/// The integer of a number in two's complement, whose highest bit has the value `top`.
fn of_complement(value: u64, top: u64) -> i64
    requires top { top ≤ 2 ^ 63 }
    requires value { value < 2 * top }
    ensures range { IsWithin top result }
    ensures value { spec.complement top result ≡ value }
{
    if value < top {
        return value.cast_signed();
    }
    -1 - (top - 1 - (value - top)).cast_signed()
}

/// An integer in two's complement, where the highest bit has the value `top`; `None` if it is out of range.
fn complement(value: i64, top: u64) -> Option<u64>
    requires top { top ≤ 2 ^ 63 }
    ensures some { IsSome result ↔ IsWithin top value }
    ensures value { IfSome result (λ number. number ≡ spec.complement top value) }
{
    if value >= 0 {
        let number = value.cast_unsigned();
        return (number < top).then_some(number);
    }
    let below = (-1 - value).cast_unsigned();
    if below >= top {
        return None;
    }
    Some(top + (top - 1 - below))
}

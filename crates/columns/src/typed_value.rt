//! The value of a cell, of any type.

ghost use Rattle.std.specs.Prelude.{◌≡◌, ◌≤◌, ℕ, List, length, Some, IfOk, IfErr, IsOk};
ghost use Rattle.binlog.specs.Cell.{cell_value, bytes_cell};
ghost use Rattle.columns.specs.Shapes.{IsShape};
ghost use Rattle.columns.specs.TypedValues.{IsValueOf, IsOfShape, IsIntegerOf, IsDecimalOf, IsFloatOf, IsDoubleOf, IsTextWithin, AreBytesWithin, IsCellFault, IsShapeFault};
ghost use Rattle.columns.specs.Cells.{number_fault, bytes_fault, within_fault};
ghost use Rattle.columns.specs.Integers.{byte_count};
ghost use Rattle.columns.specs.Decimals.{decimal_size};

use crate::data_type::DataType;
use crate::shape::Shape;
use crate::sign::Sign;
use crate::type_name::TypeName;
use crate::value::bit::read_bits;
use crate::value::date::Date;
use crate::value::decimal::Decimal;
use crate::value::fault::CellFault;
use crate::value::finite::Real;
use crate::value::float::{read_double, read_float};
use crate::value::integer::{Integer, IntegerWidth};
use crate::value::moment::Datetime;
use crate::value::span::Time;
use crate::value::stamp::Timestamp;
use crate::value::year::Year;
use binlog::Cell;

/// The value of a cell that is not NULL. It borrows from the bytes of the row.
#[derive(Clone, Copy, Debug)]
pub enum TypedValue<'a> {
    Integer(Integer),
    Decimal(Decimal),
    Float(Real),
    Double(Real),
    /// The number of a BIT.
    Bits(u64),
    Year(Year),
    Date(Date),
    Time(Time),
    Datetime(Datetime),
    Timestamp(Timestamp),
    /// A text in the column's character set.
    Text(&'a [u8]),
    Bytes(&'a [u8]),
}

impl<'a> TypedValue<'a> {
    /// The value that a cell stands for in a column of this type, which is none of ENUM and SET. NULL is no value.
    /// `Kind` if the cell is bytes where the type has a number, a number where it has bytes, or NULL, and of each cell in a
    /// column of JSON, GEOMETRY, VECTOR or their like; `Size` if it has another number of bytes than the type's cells, or
    /// more; `Range` if it stands for no value.
    pub fn read(kind: DataType, cell: Cell<'a>) -> Result<TypedValue<'a>, CellFault>
        ensures found { IfOk result (λ value. IsValueOf kind.name kind.numbers kind.sign value
            (cell_value cell.entry)) }
        ensures only { (value : TypedValue) → IsValueOf kind.name kind.numbers kind.sign value
            (cell_value cell.entry) → IsOk result }
        ensures fault { IfErr result (IsCellFault kind.name kind.numbers (cell_value cell.entry)) }
    {
        read_of_shape(kind.shape(), kind.sign, cell)
    }
}

impl DataType {
    ghost use Rattle.columns.specs.TypedValues.{zeros_after};

    /// How many zeros follow bytes of this number in a column of this type: a BINARY is as long as its type says, and the
    /// log leaves out the zeros at its end.
    pub fn padding(self, length: usize) -> usize
        ensures { result ≡ zeros_after self.name self.numbers length }
    {
        match self.name {
            TypeName::Binary => (self.numbers.first() as usize).saturating_sub(length),
            _ => 0,
        }
    }
}

/// The value that a cell stands for in a column of this shape.
fn read_of_shape<'a>(shape: Shape, sign: Sign, cell: Cell<'a>) -> Result<TypedValue<'a>, CellFault>
    requires { IsShape shape }
    ensures found { IfOk result (λ value. IsOfShape shape sign value (cell_value cell.entry)) }
    ensures only { (value : TypedValue) → IsOfShape shape sign value (cell_value cell.entry)
        → IsOk result }
    ensures fault { IfErr result (IsShapeFault shape (cell_value cell.entry)) }
{
    match shape {
        Shape::Integer(width) => read_integer(width, sign, cell),
        Shape::Decimal { precision, scale } => read_decimal(precision, scale, cell),
        Shape::Float => read_float_cell(cell),
        Shape::Double => read_double_cell(cell),
        Shape::Bits(bits) => Ok(TypedValue::Bits(read_bits(bits, cell)?)),
        Shape::Year => Ok(TypedValue::Year(Year::read(cell)?)),
        Shape::Date => Ok(TypedValue::Date(Date::read(cell)?)),
        Shape::Time(digits) => Ok(TypedValue::Time(Time::read(digits, cell)?)),
        Shape::Datetime(digits) => Ok(TypedValue::Datetime(Datetime::read(digits, cell)?)),
        Shape::Timestamp(digits) => Ok(TypedValue::Timestamp(Timestamp::read(digits, cell)?)),
        Shape::Text(most) => read_text(most, cell),
        Shape::Bytes(most) => read_bytes(most, cell),
        Shape::Other => Err(CellFault::Kind),
    }
}

/// The value of an integer's cell.
fn read_integer<'a>(
    width: IntegerWidth,
    sign: Sign,
    cell: Cell<'a>,
) -> Result<TypedValue<'a>, CellFault>
    ensures found { IfOk result (λ value. IsIntegerOf width sign value (cell_value cell.entry)) }
    ensures only { (value : TypedValue) → IsIntegerOf width sign value (cell_value cell.entry)
        → IsOk result }
    ensures fault { IfErr result (λ fault. number_fault (byte_count width) (cell_value cell.entry)
        ≡ Some fault) }
{
    Ok(TypedValue::Integer(Integer::read(width, sign, cell)?))
}

/// The value of a decimal's cell.
fn read_decimal<'a>(precision: u8, scale: u8, cell: Cell<'a>) -> Result<TypedValue<'a>, CellFault>
    requires some { 1 ≤ precision }
    requires few { precision ≤ 65 }
    requires within { scale ≤ precision }
    requires short { scale ≤ 30 }
    ensures found { IfOk result (λ value. IsDecimalOf precision scale value
        (cell_value cell.entry)) }
    ensures only { (value : TypedValue) → IsDecimalOf precision scale value (cell_value cell.entry)
        → IsOk result }
    ensures fault { IfErr result (λ fault. fault ≡ bytes_fault (decimal_size precision scale)
        (cell_value cell.entry)) }
{
    Ok(TypedValue::Decimal(Decimal::read(precision, scale, cell)?))
}

/// The value of a FLOAT's cell.
fn read_float_cell<'a>(cell: Cell<'a>) -> Result<TypedValue<'a>, CellFault>
    ensures found { IfOk result (λ value. IsFloatOf value (cell_value cell.entry)) }
    ensures only { (value : TypedValue) → IsFloatOf value (cell_value cell.entry) → IsOk result }
    ensures fault { IfErr result (λ fault. fault ≡ bytes_fault 4 (cell_value cell.entry)) }
{
    let value = f64::from(read_float(cell)?);
    Ok(TypedValue::Float(Real { value }))
}

/// The value of a DOUBLE's cell.
fn read_double_cell<'a>(cell: Cell<'a>) -> Result<TypedValue<'a>, CellFault>
    ensures found { IfOk result (λ value. IsDoubleOf value (cell_value cell.entry)) }
    ensures only { (value : TypedValue) → IsDoubleOf value (cell_value cell.entry) → IsOk result }
    ensures fault { IfErr result (λ fault. fault ≡ bytes_fault 8 (cell_value cell.entry)) }
{
    let value = read_double(cell)?;
    Ok(TypedValue::Double(Real { value }))
}

/// The text of a cell, if it has at most so many bytes.
fn read_text<'a>(most: usize, cell: Cell<'a>) -> Result<TypedValue<'a>, CellFault>
    ensures found { IfOk result (λ value. IsTextWithin most value (cell_value cell.entry)) }
    ensures only { (value : TypedValue) → IsTextWithin most value (cell_value cell.entry)
        → IsOk result }
    ensures fault { IfErr result (λ fault. fault ≡ within_fault (cell_value cell.entry)) }
{
    Ok(TypedValue::Text(bytes_within(most, cell)?))
}

/// The bytes of a cell, if there are at most so many.
fn read_bytes<'a>(most: usize, cell: Cell<'a>) -> Result<TypedValue<'a>, CellFault>
    ensures found { IfOk result (λ value. AreBytesWithin most value (cell_value cell.entry)) }
    ensures only { (value : TypedValue) → AreBytesWithin most value (cell_value cell.entry)
        → IsOk result }
    ensures fault { IfErr result (λ fault. fault ≡ within_fault (cell_value cell.entry)) }
{
    Ok(TypedValue::Bytes(bytes_within(most, cell)?))
}

/// The bytes of a cell, if there are at most so many.
fn bytes_within<'a>(most: usize, cell: Cell<'a>) -> Result<&'a [u8], CellFault>
    ensures found { IfOk result (λ bytes. (length bytes.now ≤ most)
        × (cell_value cell.entry ≡ bytes_cell bytes.now)) }
    ensures only { (bytes : List ℕ) → length bytes ≤ most → cell_value cell.entry ≡ bytes_cell bytes
        → IsOk result }
    ensures fault { IfErr result (λ fault. fault ≡ within_fault (cell_value cell.entry)) }
{
    let Cell::Bytes(bytes) = cell else {
        return Err(CellFault::Kind);
    };
    if bytes.len() > most {
        return Err(CellFault::Size(bytes.len()));
    }
    Ok(bytes)
}

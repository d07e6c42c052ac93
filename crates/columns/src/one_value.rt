//! A cell is that of one value at most, type by type.

ghost use Rattle.std.specs.Prelude.{◌≤◌};
ghost use Rattle.binlog.specs.Cell.{cell_value};
ghost use Rattle.columns.specs.Shapes.{IsShape};
ghost use Rattle.columns.specs.TypedValues.{IsOfShape, IsIntegerOf, IsDecimalOf, IsFloatOf, IsDoubleOf, IsBitsOf, IsYearOf, IsDateOf, IsTimeOf, IsDatetimeOf, IsTimestampOf, IsSameValue};
ghost use Rattle.columns.specs.declared.typed_value.TypedValue.{TypedValue};

use crate::shape::Shape;
use crate::sign::Sign;
use crate::value::bit::read_bits;
use crate::value::date::Date;
use crate::value::decimal::Decimal;
use crate::value::float::{read_double, read_float};
use crate::value::integer::{Integer, IntegerWidth};
use crate::value::moment::Datetime;
use crate::value::span::Time;
use crate::value::stamp::Timestamp;
use crate::value::year::Year;
use binlog::Cell;

/// A cell in a column of this shape is that of one value.
pub(crate) fn one_of_shape(shape: Shape, sign: Sign, cell: Cell<'_>)
    requires { IsShape shape }
    ensures { (a b : TypedValue) → IsOfShape shape sign a (cell_value cell.entry) →
        IsOfShape shape sign b (cell_value cell.entry) → IsSameValue a b }
{
    match shape {
        Shape::Integer(width) => one_integer(width, sign, cell),
        Shape::Decimal { precision, scale } => one_decimal(precision, scale, cell),
        Shape::Float => one_float(cell),
        Shape::Double => one_double(cell),
        Shape::Bits(bits) => one_bits(bits, cell),
        Shape::Year => one_year(cell),
        Shape::Date => one_date(cell),
        Shape::Time(digits) => one_time(digits, cell),
        Shape::Datetime(digits) => one_datetime(digits, cell),
        Shape::Timestamp(digits) => one_timestamp(digits, cell),
        Shape::Text(_) => {}
        Shape::Bytes(_) => {}
        Shape::Other => {}
    }
}

/// An integer's cell is that of one.
fn one_integer(width: IntegerWidth, sign: Sign, cell: Cell<'_>)
    ensures { (a b : TypedValue) → IsIntegerOf width sign a (cell_value cell.entry) →
        IsIntegerOf width sign b (cell_value cell.entry) → IsSameValue a b }
{
    let _found = Integer::read(width, sign, cell);
}

/// A decimal's cell is that of one.
fn one_decimal(precision: u8, scale: u8, cell: Cell<'_>)
    requires some { 1 ≤ precision }
    requires few { precision ≤ 65 }
    requires within { scale ≤ precision }
    requires short { scale ≤ 30 }
    ensures { (a b : TypedValue) → IsDecimalOf precision scale a (cell_value cell.entry) →
        IsDecimalOf precision scale b (cell_value cell.entry) → IsSameValue a b }
{
    let _found = Decimal::read(precision, scale, cell);
}

/// A FLOAT's cell is that of one.
fn one_float(cell: Cell<'_>)
    ensures { (a b : TypedValue) → IsFloatOf a (cell_value cell.entry) →
        IsFloatOf b (cell_value cell.entry) → IsSameValue a b }
{
    let _found = read_float(cell);
}

/// A DOUBLE's cell is that of one.
fn one_double(cell: Cell<'_>)
    ensures { (a b : TypedValue) → IsDoubleOf a (cell_value cell.entry) →
        IsDoubleOf b (cell_value cell.entry) → IsSameValue a b }
{
    let _found = read_double(cell);
}

/// The cell of a BIT is that of one.
fn one_bits(bits: u8, cell: Cell<'_>)
    requires some { 1 ≤ bits }
    requires few { bits ≤ 64 }
    ensures { (a b : TypedValue) → IsBitsOf bits a (cell_value cell.entry) →
        IsBitsOf bits b (cell_value cell.entry) → IsSameValue a b }
{
    let _found = read_bits(bits, cell);
}

/// A year's cell is that of one.
fn one_year(cell: Cell<'_>)
    ensures { (a b : TypedValue) → IsYearOf a (cell_value cell.entry) →
        IsYearOf b (cell_value cell.entry) → IsSameValue a b }
{
    let _found = Year::read(cell);
}

/// A date's cell is that of one.
fn one_date(cell: Cell<'_>)
    ensures { (a b : TypedValue) → IsDateOf a (cell_value cell.entry) →
        IsDateOf b (cell_value cell.entry) → IsSameValue a b }
{
    let _found = Date::read(cell);
}

/// The cell of a TIME is that of one.
fn one_time(digits: u8, cell: Cell<'_>)
    requires { digits ≤ 6 }
    ensures { (a b : TypedValue) → IsTimeOf digits a (cell_value cell.entry) →
        IsTimeOf digits b (cell_value cell.entry) → IsSameValue a b }
{
    let _found = Time::read(digits, cell);
}

/// The cell of a DATETIME is that of one.
fn one_datetime(digits: u8, cell: Cell<'_>)
    requires { digits ≤ 6 }
    ensures { (a b : TypedValue) → IsDatetimeOf digits a (cell_value cell.entry) →
        IsDatetimeOf digits b (cell_value cell.entry) → IsSameValue a b }
{
    let _found = Datetime::read(digits, cell);
}

/// The cell of a TIMESTAMP is that of one.
fn one_timestamp(digits: u8, cell: Cell<'_>)
    requires { digits ≤ 6 }
    ensures { (a b : TypedValue) → IsTimestampOf digits a (cell_value cell.entry) →
        IsTimestampOf digits b (cell_value cell.entry) → IsSameValue a b }
{
    let _found = Timestamp::read(digits, cell);
}

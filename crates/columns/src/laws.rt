//! Laws about the texts of types and the cells of values, for readers of this crate's definitions.

ghost use Rattle.std.specs.Prelude.{◌≡◌, ◌≤◌, ◌<◌, ◌^◌, IsTrue, IsOkAnd, Ok};
ghost use Rattle.std.specs.Float.{float_is_finite};
ghost use Rattle.columns.specs.DataType.{is_type};
ghost use Rattle.columns.specs.TypeText.{type_text};
ghost use Rattle.std.specs.List.{AllByRecursion};
ghost use Rattle.columns.specs.Escapes.{AreBytes};
ghost use Rattle.columns.specs.Members.{member_bytes};
ghost use Rattle.columns.specs.ColumnTypes.{TypeValue, type_value, column_type_text, IsType};
ghost use Rattle.columns.specs.declared.type_name.TypeName.{TypeName};
ghost use Rattle.columns.specs.declared.arguments.Arguments.{Arguments};
ghost use Rattle.columns.specs.declared.sign.Sign.{Sign};
ghost use Rattle.columns.specs.Integers.{HasSign, IsInRange};
ghost use Rattle.columns.specs.Moments.{moment_bytes, IsSameMoment};
ghost use Rattle.columns.specs.Spans.{span_bytes, IsSameSpan};
ghost use Rattle.columns.specs.Stamps.{stamp_bytes, IsSameStamp};
ghost use Rattle.columns.specs.Times.{fraction_size};
ghost use Rattle.columns.specs.Decimals.{decimal_bytes};
ghost use Rattle.binlog.specs.Cell.{cell_value};
ghost use Rattle.columns.specs.TypedValues.{IsValueOf, IsSameValue};
ghost use Rattle.columns.specs.declared.typed_value.TypedValue.{TypedValue};

use crate::column_type::ColumnType;
use crate::data_type::DataType;
use crate::member::Member;
use crate::one_value::one_of_shape;
use crate::sign::Sign as TypeSign;
use crate::value::choice::{ordinal_width, read_ordinal, read_set, set_width};
use crate::value::date::Date;
use crate::value::decimal::Decimal;
use crate::value::fault::CellFault;
use crate::value::float::{double_bytes, float_bytes, read_double, read_float};
use crate::value::integer::{Integer, IntegerWidth};
use crate::value::moment::Datetime;
use crate::value::span::Time;
use crate::value::stamp::Timestamp;
use crate::value::year::Year;
use binlog::Cell;

/// A text is that of one type at most.
pub fn one_type(text: &[u8])
    ensures { (name other : TypeName) (numbers others : Arguments) (sign that : Sign) →
        IsTrue (is_type name numbers sign) → IsTrue (is_type other others that) →
        text.now ≡ type_text name numbers sign → text.now ≡ type_text other others that →
        (name ≡ other) × (numbers ≡ others) × (sign ≡ that) }
{
    let _found = DataType::read(text);
}

/// A text is that of one type of a column at most.
pub fn one_column_type(text: &[u8])
    ensures { (value other : TypeValue) → IsType value → IsType other
        → text.now ≡ column_type_text value → text.now ≡ column_type_text other → value ≡ other }
{
    let _found = DataType::read(text);
}

/// Each type of a column is one whose text is read.
pub fn each_column_type(kind: &ColumnType)
    ensures { IsType (type_value kind.now) }
{
    match kind {
        ColumnType::Scalar(made) => {
            let _made = *made;
        }
        ColumnType::Enum(list) => are_members(&list.members),
        ColumnType::Set(list) => are_members(&list.members),
    }
}

/// The texts of members are bytes.
fn are_members(members: &[Member])
    ensures { AllByRecursion AreBytes (member_bytes members.now) }
{
    if let [member, rest @ ..] = members {
        are_bytes(&member.text);
        are_members(rest);
    }
}

/// Bytes are numbers below 256.
fn are_bytes(bytes: &[u8])
    ensures { AreBytes bytes.now }
{
    if let [_, rest @ ..] = bytes {
        are_bytes(rest);
    }
}

/// What is read of the cell of an integer is that integer.
pub fn integer_reads_back(
    width: IntegerWidth,
    sign: TypeSign,
    integer: Integer,
) -> Result<Integer, CellFault>
    requires sign { HasSign sign integer }
    requires range { IsInRange width integer }
    ensures { result ≡ Ok integer }
{
    let value = integer.number(width).unwrap();
    Integer::read(
        width,
        sign,
        Cell::Number {
            value,
            width: width.bytes(),
        },
    )
}

/// What is read of the cell of a year is that year.
pub fn year_reads_back(year: Year) -> Result<Year, CellFault>
    ensures { IsOkAnd result (λ made. made.year ≡ year.year) }
{
    let bytes = year.bytes();
    Year::read(Cell::Bytes(&bytes))
}

/// What is read of the cell of a date is that date.
pub fn date_reads_back(date: Date) -> Result<Date, CellFault>
    ensures { IsOkAnd result (λ made. (made.year ≡ date.year) × (made.month ≡ date.month)
        × (made.day ≡ date.day)) }
{
    let bytes = date.bytes();
    Date::read(Cell::Bytes(&bytes))
}

/// Bytes are a DATETIME with so many digits in one way at most, so what is read of what was written is the value.
pub fn one_datetime(digits: u8, bytes: &[u8])
    requires { digits ≤ 6 }
    ensures { (a b : Datetime) → a.fraction.digits ≡ digits → b.fraction.digits ≡ digits →
        bytes.now ≡ moment_bytes a → bytes.now ≡ moment_bytes b → IsSameMoment a b }
{
    let _found = Datetime::read(digits, Cell::Bytes(bytes));
}

/// Bytes are a TIME with so many digits in one way at most, so what is read of what was written is the value.
pub fn one_time(digits: u8, bytes: &[u8])
    requires { digits ≤ 6 }
    ensures { (a b : Time) → a.fraction.digits ≡ digits → b.fraction.digits ≡ digits
        → bytes.now ≡ span_bytes (fraction_size digits) a
        → bytes.now ≡ span_bytes (fraction_size digits) b → IsSameSpan a b }
{
    let _found = Time::read(digits, Cell::Bytes(bytes));
}

/// Bytes are a TIMESTAMP with so many digits in one way at most, so what is read of what was written is the value.
pub fn one_timestamp(digits: u8, bytes: &[u8])
    requires { digits ≤ 6 }
    ensures { (a b : Timestamp) → a.fraction.digits ≡ digits → b.fraction.digits ≡ digits →
        bytes.now ≡ stamp_bytes a → bytes.now ≡ stamp_bytes b → IsSameStamp a b }
{
    let _found = Timestamp::read(digits, Cell::Bytes(bytes));
}

/// Bytes are a DECIMAL with so many digits, and so many of them after the point, in one way at most, so what is read of
/// what was written is the value.
pub fn one_decimal(precision: u8, scale: u8, bytes: &[u8])
    requires some { 1 ≤ precision }
    requires few { precision ≤ 65 }
    requires within { scale ≤ precision }
    requires short { scale ≤ 30 }
    ensures { (a b : Decimal) → a.precision ≡ precision → b.precision ≡ precision → a.scale ≡ scale
        → b.scale ≡ scale → bytes.now ≡ decimal_bytes a.negative precision scale a.digits
        → bytes.now ≡ decimal_bytes b.negative precision scale b.digits
        → (a.negative ≡ b.negative) × (a.digits ≡ b.digits) }
{
    let _found = Decimal::read(precision, scale, Cell::Bytes(bytes));
}

/// What is read of the cell of a FLOAT is that number.
pub fn float_reads_back(value: f32) -> Result<f32, CellFault>
    requires { IsTrue (float_is_finite value) }
    ensures { result ≡ Ok value }
{
    let bytes = float_bytes(value);
    read_float(Cell::Bytes(&bytes))
}

/// What is read of the cell of a DOUBLE is that number.
pub fn double_reads_back(value: f64) -> Result<f64, CellFault>
    requires { IsTrue (float_is_finite value) }
    ensures { result ≡ Ok value }
{
    let bytes = double_bytes(value);
    read_double(Cell::Bytes(&bytes))
}

/// What is read of the cell of an ENUM's ordinal is that ordinal.
pub fn ordinal_reads_back(members: u16, ordinal: u16) -> Result<u16, CellFault>
    requires { ordinal ≤ members }
    ensures { result ≡ Ok ordinal }
{
    read_ordinal(
        members,
        Cell::Number {
            value: u64::from(ordinal),
            width: ordinal_width(members),
        },
    )
}

/// What is read of the cell of a SET's bits is these bits.
pub fn set_reads_back(members: u8, bits: u64) -> Result<u64, CellFault>
    requires members { members ≤ 64 }
    requires bits { bits < 2 ^ members }
    ensures { result ≡ Ok bits }
{
    read_set(
        members,
        Cell::Number {
            value: bits,
            width: set_width(members),
        },
    )
}

/// A cell is that of one value at most in a column of a type, so what is read of a cell that was written is the value.
pub fn one_value(kind: DataType, cell: Cell<'_>)
    ensures { (a b : TypedValue) →
        IsValueOf kind.name kind.numbers kind.sign a (cell_value cell.entry) →
        IsValueOf kind.name kind.numbers kind.sign b (cell_value cell.entry) → IsSameValue a b }
{
    one_of_shape(kind.shape(), kind.sign, cell);
}

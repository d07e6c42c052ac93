//! The cell of the value that a field of a line is, of any type.

ghost use Rattle.std.specs.Prelude.{◌≡◌, ◌≤◌, ◌<◌, ◌++◌, ℕ, List, length, Ok, Err, ⊤, IfOk, IfErr, OnErr, MatchBool, MatchResult};
ghost use Rattle.std.specs.Str.Parse.{IsNumeral};
ghost use Rattle.binlog.specs.Cell.{CellValue};
ghost use Rattle.columns.specs.Shapes.{IsShape};
ghost use Rattle.columns.specs.WrittenCells.{IsWritten};
ghost use Rattle.columns.specs.Fields.{IsSignedNumeral, AreFourDigits};
ghost use Rattle.columns.specs.FieldForms.{IsDateForm, IsMomentForm, IsSpanForm};
ghost use Rattle.columns.specs.FieldDecimals.{IsDecimalForm};
ghost use Rattle.columns.specs.FieldCells.{IsIntegerFieldCell, IsDecimalFieldCell, IsFloatFieldCell, IsDoubleFieldCell, IsBitsFieldCell, IsYearFieldCell, IsDateFieldCell, IsTimeFieldCell, IsDatetimeFieldCell, IsTimestampFieldCell, HasLength, IsHexFieldCell, AreHexDigits, IsReal, IsFieldCell, IsFieldForm, IsShapeFieldCell, IsShapeForm, IsCellFieldFault};
ghost use Rattle.columns.specs.FieldWrites.{WritesField};
ghost use Rattle.columns.specs.declared.value.field_fault.FieldFault.TheVariants as fault;
ghost use Rattle.columns.specs.declared.written_cell.WrittenCell.TheVariants as written;

use crate::character_set::CharacterSet;
use crate::data_type::DataType;
use crate::field_bytes::read_hex_field;
use crate::shape::Shape;
use crate::sign::Sign;
use crate::type_name::TypeName;
use crate::value::bit::write_bits;
use crate::value::bytes::append;
use crate::value::date::Date;
use crate::value::decimal::Decimal;
use crate::value::field_fault::FieldFault;
use crate::value::field_numbers::read_bits_field;
use crate::value::field_reals::{read_double_field, read_float_field};
use crate::value::float::{double_bytes, float_bytes};
use crate::value::integer::{Integer, IntegerWidth};
use crate::value::moment::Datetime;
use crate::value::span::Time;
use crate::value::stamp::Timestamp;
use crate::value::year::Year;
use crate::written_cell::WrittenCell;
use std::alloc::{AllocError, Global};

impl DataType {
    /// Writes the cell that a server sends for the value that a field of a line is, in a column of this type, which is none
    /// of ENUM and SET, and of this character set, which counts for CHAR alone: the number of an integer is answered, the
    /// bytes of another value are appended. The field is a number, a date or a time as the client prints it, a BIT as its
    /// number in decimal digits, and a text or bytes as their hexadecimal digits, as `HEX()` gives them; NULL is none.
    /// `Text` if the field is not of the form that the type has, and of each field of a column of JSON, GEOMETRY, VECTOR
    /// or their like; `Range` if it is, and is no value of the type; `Memory` if the bytes lack the room. An error leaves
    /// the vector as it was.
    pub fn write_field(
        self,
        set: CharacterSet,
        alloc: Global,
        field: &[u8],
        out: &mut Vec<u8>,
    ) -> Result<WrittenCell, FieldFault>
        ensures found { IfOk result (λ made. (cell : CellValue) ×
            IsWritten made out.old.items out.new.items cell ×
            IsFieldCell self.name self.numbers self.sign set field.now cell) }
        ensures only { (cell : CellValue) →
            IsFieldCell self.name self.numbers self.sign set field.now cell →
            MatchResult result (λ _. ⊤) (λ wrong. wrong ≡ fault.Memory) }
        ensures err { OnErr result (out.new.items ≡ out.old.items) }
        ensures fault { IfErr result (IsCellFieldFault
            (IsFieldForm self.name self.numbers field.now)) }
    {
        write_any(self, set, alloc, field, out)
    }
}

/// Writes the cell of a field in a column of this type.
pub(crate) fn write_any(
    kind: DataType,
    set: CharacterSet,
    alloc: Global,
    field: &[u8],
    out: &mut Vec<u8>,
) -> Result<WrittenCell, FieldFault>
    ensures { WritesField (IsFieldCell kind.name kind.numbers kind.sign set field.now)
        (IsFieldForm kind.name kind.numbers field.now) result out.old.items out.new.items }
{
    write_of_shape(kind.shape(), kind, set, alloc, field, out)
}

/// Writes the cell of a field in a column of this shape and this type.
fn write_of_shape(
    shape: Shape,
    kind: DataType,
    set: CharacterSet,
    alloc: Global,
    field: &[u8],
    out: &mut Vec<u8>,
) -> Result<WrittenCell, FieldFault>
    requires { IsShape shape }
    ensures { WritesField (IsShapeFieldCell shape kind.name kind.sign set field.now)
        (IsShapeForm shape field.now) result out.old.items out.new.items }
{
    match shape {
        Shape::Integer(width) => integer_cell(width, kind.sign, field),
        Shape::Decimal { precision, scale } => write_decimal(precision, scale, field, out),
        Shape::Float => write_float(field, out),
        Shape::Double => write_double(field, out),
        Shape::Bits(bits) => write_bit(bits, field, out),
        Shape::Year => write_year(field, out),
        Shape::Date => write_date(field, out),
        Shape::Time(digits) => write_time(digits, field, out),
        Shape::Datetime(digits) => write_datetime(digits, field, out),
        Shape::Timestamp(digits) => write_timestamp(digits, field, out),
        Shape::Text(most) | Shape::Bytes(most) => write_hex(most, kind, set, alloc, field, out),
        Shape::Other => Err(FieldFault::Text),
    }
}

/// The cell of an integer's field.
fn integer_cell(width: IntegerWidth, sign: Sign, field: &[u8]) -> Result<WrittenCell, FieldFault>
    ensures { (old : List ℕ) →
        WritesField (IsIntegerFieldCell width sign field.now) (IsSignedNumeral field.now)
        result old old }
{
    let integer = match Integer::read_field(width, sign, field) {
        Ok(integer) => integer,
        Err(wrong) => return Err(wrong),
    };
    let Some(value) = integer.number(width) else {
        unreachable!();
    };
    Ok(WrittenCell::Number {
        value,
        width: width.bytes(),
    })
}

/// What is answered of bytes that were appended, or were not.
fn appended(done: Result<(), AllocError>) -> Result<WrittenCell, FieldFault>
    ensures { MatchResult done (λ _. result ≡ Ok written.Bytes) (λ _. result ≡ Err fault.Memory) }
{
    match done {
        Ok(()) => Ok(WrittenCell::Bytes),
        Err(_) => Err(FieldFault::Memory),
    }
}

/// Writes the cell of a decimal's field.
fn write_decimal(
    precision: u8,
    scale: u8,
    field: &[u8],
    out: &mut Vec<u8>,
) -> Result<WrittenCell, FieldFault>
    requires some { 1 ≤ precision }
    requires few { precision ≤ 65 }
    requires within { scale ≤ precision }
    requires short { scale ≤ 30 }
    ensures { WritesField (IsDecimalFieldCell precision scale field.now)
        (IsDecimalForm scale field.now) result out.old.items out.new.items }
{
    match Decimal::read_field(precision, scale, field) {
        Ok(value) => appended(value.write(out)),
        Err(wrong) => Err(wrong),
    }
}

/// Writes the cell of the field of a FLOAT.
fn write_float(field: &[u8], out: &mut Vec<u8>) -> Result<WrittenCell, FieldFault>
    ensures { WritesField (IsFloatFieldCell field.now)
        (IsReal field.now) result out.old.items out.new.items }
{
    match read_float_field(field) {
        Ok(value) => appended(append(&float_bytes(value), out)),
        Err(wrong) => Err(wrong),
    }
}

/// Writes the cell of the field of a DOUBLE.
fn write_double(field: &[u8], out: &mut Vec<u8>) -> Result<WrittenCell, FieldFault>
    ensures { WritesField (IsDoubleFieldCell field.now)
        (IsReal field.now) result out.old.items out.new.items }
{
    match read_double_field(field) {
        Ok(value) => appended(append(&double_bytes(value), out)),
        Err(wrong) => Err(wrong),
    }
}

/// Writes the cell of the field of a BIT of so many bits.
fn write_bit(bits: u8, field: &[u8], out: &mut Vec<u8>) -> Result<WrittenCell, FieldFault>
    requires some { 1 ≤ bits }
    requires few { bits ≤ 64 }
    ensures { WritesField (IsBitsFieldCell bits field.now)
        (IsNumeral 10 field.now) result out.old.items out.new.items }
{
    match read_bits_field(bits, field) {
        Ok(number) => appended(write_bits(number, bits, out)),
        Err(wrong) => Err(wrong),
    }
}

/// Writes the cell of a year's field.
fn write_year(field: &[u8], out: &mut Vec<u8>) -> Result<WrittenCell, FieldFault>
    ensures { WritesField (IsYearFieldCell field.now)
        (AreFourDigits field.now) result out.old.items out.new.items }
{
    match Year::read_field(field) {
        Ok(year) => appended(append(&year.bytes(), out)),
        Err(wrong) => Err(wrong),
    }
}

/// Writes the cell of a date's field.
fn write_date(field: &[u8], out: &mut Vec<u8>) -> Result<WrittenCell, FieldFault>
    ensures { WritesField (IsDateFieldCell field.now)
        (IsDateForm field.now) result out.old.items out.new.items }
{
    match Date::read_field(field) {
        Ok(date) => appended(append(&date.bytes(), out)),
        Err(wrong) => Err(wrong),
    }
}

/// Writes the cell of the field of a TIME with so many digits after the point.
fn write_time(digits: u8, field: &[u8], out: &mut Vec<u8>) -> Result<WrittenCell, FieldFault>
    requires { digits ≤ 6 }
    ensures { WritesField (IsTimeFieldCell digits field.now)
        (IsSpanForm digits field.now) result out.old.items out.new.items }
{
    match Time::read_field(digits, field) {
        Ok(at) => appended(at.write(out)),
        Err(wrong) => Err(wrong),
    }
}

/// Writes the cell of the field of a DATETIME with so many digits after the point.
fn write_datetime(digits: u8, field: &[u8], out: &mut Vec<u8>) -> Result<WrittenCell, FieldFault>
    requires { digits ≤ 6 }
    ensures { WritesField (IsDatetimeFieldCell digits field.now)
        (IsMomentForm digits field.now) result out.old.items out.new.items }
{
    match Datetime::read_field(digits, field) {
        Ok(at) => appended(at.write(out)),
        Err(wrong) => Err(wrong),
    }
}

/// Writes the cell of the field of a TIMESTAMP with so many digits after the point.
fn write_timestamp(digits: u8, field: &[u8], out: &mut Vec<u8>) -> Result<WrittenCell, FieldFault>
    requires { digits ≤ 6 }
    ensures { WritesField (IsTimestampFieldCell digits field.now)
        (IsMomentForm digits field.now) result out.old.items out.new.items }
{
    match Timestamp::read_field(digits, field) {
        Ok(at) => appended(at.write(out)),
        Err(wrong) => Err(wrong),
    }
}

/// Writes the cell of the field of a text or of bytes, of at most so many bytes, or a BINARY of just as many.
fn write_hex(
    most: usize,
    kind: DataType,
    set: CharacterSet,
    alloc: Global,
    field: &[u8],
    out: &mut Vec<u8>,
) -> Result<WrittenCell, FieldFault>
    ensures { WritesField (IsHexFieldCell most kind.name set field.now)
        (AreHexDigits field.now) result out.old.items out.new.items }
{
    let bytes = match read_hex_field(alloc, field) {
        Ok(bytes) => bytes,
        Err(wrong) => return Err(wrong),
    };
    if !has_length(kind.name, most, bytes.len()) {
        return Err(FieldFault::Range);
    }
    appended(append(kind.unpadded(set, &bytes), out))
}

/// Whether a field of a column of this type may stand for so many bytes.
fn has_length(name: TypeName, most: usize, length: usize) -> bool
    ensures { MatchBool result (HasLength name most length) (HasLength name most length → ⊥) }
{
    match name {
        TypeName::Binary => length == most,
        _ => length <= most,
    }
}

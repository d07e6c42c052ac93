//! Laws about the fields of lines: what is read of the text of a value is the value.

ghost use Rattle.std.specs.Prelude.{◌≡◌, ◌≤◌, ◌<◌, ◌^◌, ◌⊎◌, ℕ, List, false, decimal, IsOkAnd, IfOk, IfErr, MatchResult, Ok};
ghost use Rattle.hex.specs.Hex.{encode_upper, encode_lower};
ghost use Rattle.columns.specs.Dates.{year_text, date_text};
ghost use Rattle.columns.specs.Moments.{moment_text, IsSameMoment};
ghost use Rattle.columns.specs.Spans.{span_text, IsSameSpan};
ghost use Rattle.columns.specs.Stamps.{stamp_text, IsSameStamp};
ghost use Rattle.columns.specs.Escapes.{AreBytes};
ghost use Rattle.columns.specs.Integers.{HasSign, IsInRange};
ghost use Rattle.columns.specs.PlainTexts.{shown_integer, shown_decimal};
ghost use Rattle.columns.specs.FieldDecimals.{IsNoMinusZero};
ghost use Rattle.columns.specs.declared.sign.Sign.TheVariants.{Zerofill};
ghost use Rattle.columns.specs.declared.value.field_fault.FieldFault.TheVariants.{Memory};

use crate::arguments::Arguments;
use crate::field_bytes::read_hex_field;
use crate::sign::Sign;
use crate::value::date::Date;
use crate::value::decimal::Decimal;
use crate::value::field_fault::FieldFault;
use crate::value::field_numbers::{read_bits_field, read_ordinal_field, read_set_field};
use crate::value::integer::{Integer, IntegerWidth};
use crate::value::moment::Datetime;
use crate::value::span::Time;
use crate::value::stamp::Timestamp;
use crate::value::year::Year;
use std::alloc::Global;

/// What is read of the text of an integer, with the zeros of ZEROFILL or without, is that integer.
pub fn integer_text_reads_back(
    width: IntegerWidth,
    numbers: Arguments,
    sign: Sign,
    integer: Integer,
    field: &[u8],
) -> Result<Integer, FieldFault>
    requires sign { HasSign sign integer }
    requires range { IsInRange width integer }
    requires text { field.now ≡ shown_integer numbers sign integer }
    ensures { result ≡ Ok integer }
{
    Integer::read_field(width, sign, field)
}

/// What is read of the text of a DECIMAL, with the zeros of ZEROFILL or without, is that value; but a zero with a minus
/// sign, which no server stores, has the text of zero.
pub fn decimal_text_reads_back(
    sign: Sign,
    decimal: Decimal,
    field: &[u8],
) -> Result<Decimal, FieldFault>
    requires plain { IsNoMinusZero decimal }
    requires filled { sign ≡ Zerofill → decimal.negative ≡ false }
    requires text { field.now ≡ shown_decimal sign decimal }
    ensures { IsOkAnd result (λ made. (made.precision ≡ decimal.precision) ×
        (made.scale ≡ decimal.scale) × (made.negative ≡ decimal.negative) ×
        (made.digits ≡ decimal.digits)) }
{
    Decimal::read_field(decimal.precision, decimal.scale, field)
}

/// What is read of the text of a year is that year.
pub fn year_text_reads_back(year: Year, field: &[u8]) -> Result<Year, FieldFault>
    requires { field.now ≡ year_text year.year }
    ensures { IsOkAnd result (λ made. made.year ≡ year.year) }
{
    Year::read_field(field)
}

/// What is read of the text of a date is that date.
pub fn date_text_reads_back(date: Date, field: &[u8]) -> Result<Date, FieldFault>
    requires { field.now ≡ date_text date.year date.month date.day }
    ensures { IsOkAnd result (λ made. (made.year ≡ date.year) × (made.month ≡ date.month) ×
        (made.day ≡ date.day)) }
{
    Date::read_field(field)
}

/// What is read of the text of a DATETIME is that value.
pub fn datetime_text_reads_back(moment: Datetime, field: &[u8]) -> Result<Datetime, FieldFault>
    requires { field.now ≡ moment_text moment }
    ensures { IsOkAnd result (λ made. IsSameMoment made moment) }
{
    Datetime::read_field(moment.fraction.digits, field)
}

/// What is read of the text of a TIMESTAMP is that value.
pub fn timestamp_text_reads_back(stamp: Timestamp, field: &[u8]) -> Result<Timestamp, FieldFault>
    requires { field.now ≡ stamp_text stamp }
    ensures { IsOkAnd result (λ made. IsSameStamp made stamp) }
{
    Timestamp::read_field(stamp.fraction.digits, field)
}

/// What is read of the text of a TIME is that time.
pub fn time_text_reads_back(time: Time, field: &[u8]) -> Result<Time, FieldFault>
    requires { field.now ≡ span_text time }
    ensures { IsOkAnd result (λ made. IsSameSpan made time) }
{
    Time::read_field(time.fraction.digits, field)
}

/// What is read of the number of a BIT in decimal digits is that number.
pub fn bits_text_reads_back(bits: u8, number: u64, field: &[u8]) -> Result<u64, FieldFault>
    requires few { bits ≤ 64 }
    requires small { number < 2 ^ bits }
    requires text { field.now ≡ decimal number }
    ensures { result ≡ Ok number }
{
    read_bits_field(bits, field)
}

/// What is read of the ordinal of an ENUM in decimal digits is that ordinal.
pub fn ordinal_text_reads_back(members: u16, ordinal: u16, field: &[u8]) -> Result<u16, FieldFault>
    requires few { ordinal ≤ members }
    requires text { field.now ≡ decimal ordinal }
    ensures { result ≡ Ok ordinal }
{
    read_ordinal_field(members, field)
}

/// What is read of the bits of a SET, as one number in decimal digits, is these bits.
pub fn set_text_reads_back(members: u8, bits: u64, field: &[u8]) -> Result<u64, FieldFault>
    requires few { members ≤ 64 }
    requires small { bits < 2 ^ members }
    requires text { field.now ≡ decimal bits }
    ensures { result ≡ Ok bits }
{
    read_set_field(members, field)
}

/// What is read of the hexadecimal digits of bytes, all in capitals or none, is these bytes, unless memory is refused.
pub fn hex_text_reads_back(alloc: Global, bytes: &[u8], field: &[u8]) -> Result<Vec<u8>, FieldFault>
    requires { (field.now ≡ encode_upper bytes.now) ⊎ (field.now ≡ encode_lower bytes.now) }
    ensures { MatchResult result (λ read. read.items ≡ bytes.now) (λ fault. fault ≡ Memory) }
{
    read_hex_field(alloc, field)
}

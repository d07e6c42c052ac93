//! Whole numbers in the fields of lines.

ghost use Rattle.std.specs.Prelude.{◌≡◌, ◌≤◌, ◌<◌, ◌^◌, ◌*◌, ◌∷◌, ℕ, ℤ, List, Ok, IfOk, IfErr, IfSome, IfNone, IsTrue, ◌↔◌};
ghost use Rattle.std.specs.Char.{digit_value};
ghost use Rattle.std.specs.Str.{byte};
ghost use Rattle.std.specs.Str.Parse.{AllDigits, IsNumeral};
ghost use Rattle.columns.specs.Integers.{HasSign, IsInRange, IsWithin};
ghost use Rattle.columns.specs.Integers as spec;
ghost use Rattle.columns.specs.Word.{Are, Ends, is_decimal_digit};
ghost use Rattle.columns.specs.Fields.{IsDigitsOf, IsWithSign, IsSignedNumeral, IsFormFault, number_of};

use crate::sign::Sign;
use crate::value::field_fault::FieldFault;
use crate::value::integer::{Integer, IntegerWidth};

impl Integer {
    /// The integer that a field is in a column of this width and sign: decimal digits, with a minus sign in front of one
    /// below zero, and with any zeros in front, as a column with ZEROFILL has them. `Text` if it is no such number;
    /// `Range` if it is one, and none of the type, or a zero with a minus sign.
    pub fn read_field(width: IntegerWidth, sign: Sign, field: &[u8]) -> Result<Integer, FieldFault>
        ensures sign { IfOk result (HasSign sign) }
        ensures range { IfOk result (IsInRange width) }
        ensures found { IfOk result (λ integer. IsWithSign (number_of integer) field.now) }
        ensures only { (integer : Integer) → HasSign sign integer → IsInRange width integer →
            IsWithSign (number_of integer) field.now → result ≡ Ok integer }
        ensures fault { IfErr result (IsFormFault IsSignedNumeral field.now) }
    {
        match sign {
            Sign::Signed => Ok(Integer::Signed(read_signed(width.half(), field)?)),
            Sign::Unsigned | Sign::Zerofill => {
                Ok(Integer::Unsigned(read_unsigned(width.half(), field)?))
            }
        }
    }
}

/// The number from `-top` to `top - 1` that a field is.
fn read_signed(top: u64, field: &[u8]) -> Result<i64, FieldFault>
    requires { top ≤ 2 ^ 63 }
    ensures range { IfOk result (IsWithin top) }
    ensures found { IfOk result (λ number. IsWithSign number field.now) }
    ensures only { (number : ℤ) → IsWithin top number → IsWithSign number field.now →
        result ≡ Ok number }
    ensures fault { IfErr result (IsFormFault IsSignedNumeral field.now) }
{
    let Some(digits) = after_minus(field) else {
        let number = read_whole(field)?;
        if number >= top {
            return Err(FieldFault::Range);
        }
        return Ok(number.cast_signed());
    };
    let number = read_whole(digits)?;
    if number == 0 || number > top {
        return Err(FieldFault::Range);
    }
    Ok(-1 - (number - 1).cast_signed())
}

/// The number below `2 * half` that a field is.
fn read_unsigned(half: u64, field: &[u8]) -> Result<u64, FieldFault>
    requires { half ≤ 2 ^ 63 }
    ensures range { IfOk result (λ number. number < 2 * half) }
    ensures found { IfOk result (λ number. IsDigitsOf number field.now) }
    ensures only { (number : ℕ) → number < 2 * half → IsDigitsOf number field.now →
        result ≡ Ok number }
    ensures fault { IfErr result (IsFormFault IsSignedNumeral field.now) }
{
    let Some(digits) = after_minus(field) else {
        let number = read_whole(field)?;
        if number / 2 >= half {
            return Err(FieldFault::Range);
        }
        return Ok(number);
    };
    let _below = read_whole(digits)?;
    Err(FieldFault::Range)
}

/// What follows a minus sign at the front.
fn after_minus(field: &[u8]) -> Option<&[u8]>
    ensures some { IfSome result (λ digits. field.now ≡ byte "-" ∷ digits.now) }
    ensures none { IfNone result ((digits : List ℕ) → field.now ≡ byte "-" ∷ digits → ⊥) }
{
    match field {
        [b'-', digits @ ..] => Some(digits),
        _ => None,
    }
}

/// The number below 2^64 that decimal digits are.
pub(crate) fn read_whole(field: &[u8]) -> Result<u64, FieldFault>
    ensures found { IfOk result (λ number. IsDigitsOf number field.now) }
    ensures only { (number : ℕ) → number < 2 ^ 64 → IsDigitsOf number field.now →
        result ≡ Ok number }
    ensures fault { IfErr result (IsFormFault (IsNumeral 10) field.now) }
{
    if !is_numeral(field) {
        return Err(FieldFault::Text);
    }
    match fast_float::parse_u64(field) {
        Ok(number) => Ok(number),
        Err(_) => Err(FieldFault::Range),
    }
}

/// Whether the field is decimal digits, at least one.
pub(crate) fn is_numeral(field: &[u8]) -> bool
    ensures { IsTrue result ↔ IsNumeral 10 field.now }
{
    field.len() > 0 && are_digits(field)
}

/// Whether each byte is a decimal digit.
pub(crate) fn are_digits(field: &[u8]) -> bool
    ensures { IsTrue result ↔ AllDigits 10 field.now }
{
    for digit in field {
        if !is_digit(*digit) {
            return false;
        }
    }
    true
}

/// Whether the byte is a decimal digit.
pub(crate) fn is_digit(byte: u8) -> bool
    ensures { IsTrue result ↔ (digit_value byte < 10) }
{
    matches!(byte, b'0'..=b'9')
}

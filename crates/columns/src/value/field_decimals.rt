//! DECIMAL in the fields of lines.

ghost use Rattle.std.specs.Prelude.{◌≡◌, ◌≤◌, ◌<◌, ◌+◌, ◌-◌, ◌++◌, ◌&&◌, ℕ, List, length, replicate, IfOk, IfErr, IfSome, IsOkAnd, IsSomeAnd};
ghost use Rattle.columns.specs.Decimals.{are_zeros};
ghost use Rattle.columns.specs.Fields.{IsFormFault};
ghost use Rattle.columns.specs.FieldDecimals.{point_part, IsPointed, IsDecimalForm, IsDecimalField};
ghost use Rattle.columns.specs.FieldPoints as spec;
ghost use Rattle.columns.specs.FieldPoints.{digit_values};

use crate::value::decimal::Decimal;
use crate::value::digits::is_zero;
use crate::value::field_dates::split_sign;
use crate::value::field_fault::FieldFault;
use crate::value::whole::{are_digits, is_numeral};
use crate::word::after_byte;

impl Decimal {
    /// The value that a field is in a column with so many digits, and so many of them after the point: digits, at least
    /// one, and, if any stand after the point, the point and all of these. A minus sign stands in front of a value below
    /// zero, and any zeros in front of its digits, as a column with ZEROFILL has them. `Text` of anything else. `Range` if
    /// more digits stand in front of the point than the column has there, but for zeros at the front, and of a zero with a
    /// minus sign: a server stores none, and prints none of DECIMAL.
    pub fn read_field(precision: u8, scale: u8, field: &[u8]) -> Result<Decimal, FieldFault>
        requires some { 1 ≤ precision }
        requires few { precision ≤ 65 }
        requires within { scale ≤ precision }
        requires short { scale ≤ 30 }
        ensures precision { IfOk result (λ made. made.precision ≡ precision) }
        ensures scale { IfOk result (λ made. made.scale ≡ scale) }
        ensures found { IfOk result (λ made. IsDecimalField made field.now) }
        ensures only { (other : Decimal) → other.precision ≡ precision → other.scale ≡ scale →
            IsDecimalField other field.now →
            IsOkAnd result (λ made. (made.negative ≡ other.negative) ×
            (made.digits ≡ other.digits)) }
        ensures fault { IfErr result (IsFormFault (IsDecimalForm scale) field.now) }
    {
        let (negative, text) = split_sign(field);
        let Some((whole, fraction)) = split_point(scale, text) else {
            return Err(FieldFault::Text);
        };
        let significant = without_zeros(whole);
        let room = usize::from(precision - scale);
        if significant.len() > room {
            return Err(FieldFault::Range);
        }
        let digits = join_digits(room - significant.len(), significant, fraction);
        if is_minus_zero(negative, &digits) {
            return Err(FieldFault::Range);
        }
        Ok(Decimal {
            negative,
            precision,
            scale,
            digits,
        })
    }
}

/// The digits in front of the point and those after it, of a text with so many after it.
fn split_point(scale: u8, text: &[u8]) -> Option<(&[u8], &[u8])>
    ensures found { IfSome result (λ cut. IsPointed scale cut.0.now cut.1.now text.now) }
    ensures only { (whole fraction : List ℕ) → IsPointed scale whole fraction text.now →
        IsSomeAnd result (λ cut. (cut.0.now ≡ whole) × (cut.1.now ≡ fraction)) }
{
    let (whole, fraction) = cut_point(scale, text)?;
    if !is_numeral(whole) {
        return None;
    }
    if !are_digits(fraction) {
        return None;
    }
    Some((whole, fraction))
}

/// What stands in front of the point and the bytes after it, of a text with so many after it; no point where there are
/// none.
fn cut_point(scale: u8, text: &[u8]) -> Option<(&[u8], &[u8])>
    ensures scale { IfSome result (λ cut. length cut.1.now ≡ scale) }
    ensures found { IfSome result (λ cut. text.now ≡ cut.0.now ++ point_part cut.1.now) }
    ensures only { (whole fraction : List ℕ) → length fraction ≡ scale →
        text.now ≡ whole ++ point_part fraction →
        IsSomeAnd result (λ cut. (cut.0.now ≡ whole) × (cut.1.now ≡ fraction)) }
{
    if scale == 0 {
        return Some((text, &[]));
    }
    let place = text.len().checked_sub(usize::from(scale) + 1)?;
    let (whole, rest) = text.split_at(place);
    let fraction = after_byte(b'.', rest)?;
    Some((whole, fraction))
}

/// The text without zeros in front.
fn without_zeros(text: &[u8]) -> &[u8]
    ensures { result.now ≡ spec.without_zeros text.now }
{
    match text {
        [b'0', rest @ ..] => without_zeros(rest),
        _ => text,
    }
}

/// So many zeros, the digits that two texts are, and zeros up to the end.
fn join_digits(zeros: usize, whole: &[u8], fraction: &[u8]) -> [u8; 65]
    requires { zeros + (length whole.now + length fraction.now) ≤ 65 }
    ensures { result ≡ replicate zeros 0 ++ (digit_values whole.now ++ (digit_values fraction.now ++
        replicate (65 - (zeros + (length whole.now + length fraction.now))) 0)) }
{
    let mut digits = [0; 65];
    let (_, rest) = digits.split_at_mut(zeros);
    let (front, rest) = rest.split_at_mut(whole.len());
    let (back, _) = rest.split_at_mut(fraction.len());
    set_digits(whole, front);
    set_digits(fraction, back);
    digits
}

/// Sets digits to those that a text is.
fn set_digits(text: &[u8], digits: &mut [u8])
    requires { length text.now ≡ length digits.old }
    ensures { digits.new ≡ digit_values text.now }
{
    digits.copy_from_slice(text);
    for digit in digits.iter_mut() {
        *digit = digit.saturating_sub(b'0');
    }
}

/// Whether it is a zero with a minus sign.
fn is_minus_zero(negative: bool, digits: &[u8]) -> bool
    ensures { result ≡ (negative && are_zeros digits.now) }
{
    negative && is_zero(digits)
}

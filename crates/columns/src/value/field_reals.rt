//! Numbers of FLOAT and DOUBLE in the fields of lines.

ghost use Rattle.std.specs.Prelude.{◌≡◌, ℕ, Some, Ok, IfOk, IfErr, IsTrue, from_bits};
ghost use Rattle.std.specs.Float.{float_is_finite, binary32, binary64};
ghost use Rattle.std.specs.Float.Ieee.{Float};
ghost use Rattle.fast_float.specs.Parse.{parse_float};
ghost use Rattle.columns.specs.FieldReals.{IsRealFault};

use crate::value::field_fault::FieldFault;
use crate::value::float::narrow;

/// The DOUBLE that a field is: the nearest one of a decimal number with or without an exponent; a zero keeps its sign.
/// `Text` if it is no number, `Range` if it is none that is finite.
pub fn read_double_field(field: &[u8]) -> Result<f64, FieldFault>
    ensures finite { IfOk result (λ value. IsTrue (float_is_finite value)) }
    ensures found { IfOk result (λ value. parse_float binary64 field.now ≡ Some value) }
    ensures only { (value : Float) → IsTrue (float_is_finite value) →
        parse_float binary64 field.now ≡ Some value → result ≡ Ok value }
    ensures fault { IfErr result (IsRealFault field.now) }
{
    let parsed: Result<f64, fast_float::Error> = fast_float::parse(field);
    match parsed {
        Ok(value) => {
            if value.is_finite() {
                Ok(value)
            } else {
                Err(FieldFault::Range)
            }
        }
        Err(_) => Err(FieldFault::Text),
    }
}

/// The FLOAT that a field is, as [`read_double_field`] reads the number, which has to be a FLOAT's to the bit. `Text` if it
/// is no number, `Range` if no finite FLOAT is it.
pub fn read_float_field(field: &[u8]) -> Result<f32, FieldFault>
    ensures finite { IfOk result (λ value. IsTrue (float_is_finite value)) }
    ensures found { IfOk result (λ value. parse_float binary64 field.now ≡ Some value) }
    ensures only { (bits : ℕ) → IsTrue (float_is_finite (from_bits binary32 bits)) →
        parse_float binary64 field.now ≡ Some (from_bits binary32 bits) →
        result ≡ Ok (from_bits binary32 bits) }
    ensures fault { IfErr result (IsRealFault field.now) }
{
    let value = read_double_field(field)?;
    match narrow(value) {
        Some(float) => Ok(float),
        None => Err(FieldFault::Range),
    }
}

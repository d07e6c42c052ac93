//! Numbers in the fields of lines: YEAR, BIT, ENUM and SET.

ghost use Rattle.std.specs.Prelude.{◌≡◌, ◌≤◌, ◌<◌, ◌^◌, ℕ, Ok, IfOk, IfErr, IsOkAnd, IsTrue};
ghost use Rattle.std.specs.Str.Parse.{IsNumeral};
ghost use Rattle.columns.specs.Dates.{is_year, year_text};
ghost use Rattle.columns.specs.Fields.{IsDigitsOf, AreFourDigits, IsFormFault};

use crate::value::bit::has_bits;
use crate::value::field_fault::FieldFault;
use crate::value::whole::read_whole;
use crate::value::year::Year;

impl Year {
    /// The year that a field is: four digits. `Text` of anything else, `Range` of four digits that are no year of the type.
    pub fn read_field(field: &[u8]) -> Result<Year, FieldFault>
        ensures found { IfOk result (λ made. field.now ≡ year_text made.year) }
        ensures only { (year : ℕ) → IsTrue (is_year year) → field.now ≡ year_text year →
            IsOkAnd result (λ made. made.year ≡ year) }
        ensures fault { IfErr result (IsFormFault AreFourDigits field.now) }
    {
        if field.len() != 4 {
            return Err(FieldFault::Text);
        }
        let number = read_whole(field)?;
        match Year::new(number as u16) {
            Some(year) => Ok(year),
            None => Err(FieldFault::Range),
        }
    }
}

/// The number that a field is in a column of a BIT of so many bits: decimal digits, with any zeros in front. `Text` if it
/// is none, `Range` if it has more bits.
pub fn read_bits_field(bits: u8, field: &[u8]) -> Result<u64, FieldFault>
    requires { bits ≤ 64 }
    ensures small { IfOk result (λ number. number < 2 ^ bits) }
    ensures found { IfOk result (λ number. IsDigitsOf number field.now) }
    ensures only { (number : ℕ) → number < 2 ^ bits → IsDigitsOf number field.now →
        result ≡ Ok number }
    ensures fault { IfErr result (IsFormFault (IsNumeral 10) field.now) }
{
    let number = read_whole(field)?;
    if !has_bits(number, bits) {
        return Err(FieldFault::Range);
    }
    Ok(number)
}

/// The ordinal that a field is in a column of an ENUM with so many members, as decimal digits: from 1 for the first one,
/// and 0 for the empty text that the server keeps in place of a value that is no member. `Text` if it is no number,
/// `Range` if it is beyond the members.
pub fn read_ordinal_field(members: u16, field: &[u8]) -> Result<u16, FieldFault>
    ensures few { IfOk result (λ ordinal. ordinal ≤ members) }
    ensures found { IfOk result (λ ordinal. IsDigitsOf ordinal field.now) }
    ensures only { (ordinal : ℕ) → ordinal ≤ members → IsDigitsOf ordinal field.now →
        result ≡ Ok ordinal }
    ensures fault { IfErr result (IsFormFault (IsNumeral 10) field.now) }
{
    let number = read_whole(field)?;
    if number > u64::from(members) {
        return Err(FieldFault::Range);
    }
    Ok(number as u16)
}

/// The bits that a field is in a column of a SET with so many members, as the decimal digits of one number, the lowest bit
/// for the first member. `Text` if it is no number, `Range` if a bit is beyond the members.
pub fn read_set_field(members: u8, field: &[u8]) -> Result<u64, FieldFault>
    requires { members ≤ 64 }
    ensures small { IfOk result (λ bits. bits < 2 ^ members) }
    ensures found { IfOk result (λ bits. IsDigitsOf bits field.now) }
    ensures only { (bits : ℕ) → bits < 2 ^ members → IsDigitsOf bits field.now → result ≡ Ok bits }
    ensures fault { IfErr result (IsFormFault (IsNumeral 10) field.now) }
{
    read_bits_field(members, field)
}

//! The type of a column.

ghost use Rattle.std.specs.Prelude.{◌≡◌, ◌++◌, ◌↔◌, List, ℕ, Some, IfSome, IsSomeAnd, IfOk, IfErr, IsOkAnd, IsTrue, IsSome};
ghost use Rattle.columns.specs.DataType as spec;
ghost use Rattle.columns.specs.DataType.{is_type};
ghost use Rattle.columns.specs.TypeText.{type_text, arguments_text, sign_text, IsTypeFault};

use crate::arguments::{Arguments, read_arguments};
use crate::fault::TypeFault;
use crate::sign::Sign;
use crate::type_name::TypeName;
use crate::word::split_word;
use std::fmt;

/// The type of a column: its name, its numbers, its sign.
#[derive(Clone, Copy, Debug, PartialEq, Eq)]
pub struct DataType {
    pub name: TypeName,
    pub numbers: Arguments,
    pub sign: Sign,
    ghost lawful: { IsTrue (is_type name numbers sign) },
}

impl DataType {
    /// The type, if one of this name has these numbers and this sign.
    pub fn new(name: TypeName, numbers: Arguments, sign: Sign) -> Option<DataType>
        ensures lawful { IsSome result ↔ IsTrue (is_type name numbers sign) }
        ensures parts { IfSome result (λ made. (made.name ≡ name) × (made.numbers ≡ numbers)
            × (made.sign ≡ sign)) }
    {
        if !takes(name, numbers) {
            return None;
        }
        if !signs(name, numbers, sign) {
            return None;
        }
        Some(DataType {
            name,
            numbers,
            sign,
        })
    }

    /// Reads the text of a type, as the column `COLUMN_TYPE` of `INFORMATION_SCHEMA.COLUMNS` has it. The whole text is
    /// read.
    pub fn read(text: &[u8]) -> Result<DataType, TypeFault>
        ensures found { IfOk result (λ made. text.now
            ≡ type_text made.name made.numbers made.sign) }
        ensures only { (name : TypeName) (numbers : Arguments) (sign : Sign)
            → IsTrue (is_type name numbers sign) → text.now ≡ type_text name numbers sign
            → IsOkAnd result (λ made. (made.name ≡ name) × (made.numbers ≡ numbers)
            × (made.sign ≡ sign)) }
        ensures fault { IfErr result (IsTypeFault text.now) }
    {
        let (word, rest) = split_word(text);
        let Some(name) = TypeName::find(word) else {
            return Err(TypeFault::Name);
        };
        let Some(found) = read_rest(name, rest) else {
            return Err(TypeFault::Rest(word.len()));
        };
        Ok(found)
    }
}

/// Writes the text of the type, which [`DataType::read`] reads back. The only error is the writer's.
impl fmt::Display for DataType {
    ghost output = { λ made. Some (type_text made.name made.numbers made.sign) };

    fn fmt<W: fmt::Write>(&self, f: &mut fmt::Formatter<W>) -> fmt::Result {
        let name = self.name;
        let numbers = self.numbers;
        let sign = self.sign;
        write!(f, "{name}{numbers}{sign}")
    }
}

/// Reads the numbers and the sign that follow the name of a type.
fn read_rest(name: TypeName, text: &[u8]) -> Option<DataType>
    ensures name { IfSome result (λ made. made.name ≡ name) }
    ensures found { IfSome result (λ made. text.now
        ≡ arguments_text made.numbers ++ sign_text made.sign) }
    ensures only { (numbers : Arguments) (sign : Sign) → IsTrue (is_type name numbers sign)
        → text.now ≡ arguments_text numbers ++ sign_text sign
        → IsSomeAnd result (λ made. (made.numbers ≡ numbers) × (made.sign ≡ sign)) }
{
    let (numbers, end) = read_arguments(text)?;
    let sign = Sign::find(end)?;
    DataType::new(name, numbers, sign)
}

/// Whether a type of this name has these numbers.
fn takes(name: TypeName, numbers: Arguments) -> bool
    ensures { result ≡ spec.takes name numbers }
{
    match name {
        TypeName::Tinyint
        | TypeName::Smallint
        | TypeName::Mediumint
        | TypeName::Int
        | TypeName::Bigint => is_none(numbers) || is_one_between(1, 255, numbers),
        TypeName::Decimal => is_digits(65, numbers),
        TypeName::Float | TypeName::Double => is_none(numbers) || is_digits(255, numbers),
        TypeName::Bit => is_one_between(1, 64, numbers),
        TypeName::Year => is_none(numbers) || is_one_between(4, 4, numbers),
        TypeName::Time | TypeName::Datetime | TypeName::Timestamp => is_none(numbers)
            || is_one_between(1, 6, numbers),
        TypeName::Char | TypeName::Binary => is_one_between(0, 255, numbers),
        TypeName::Varchar | TypeName::Varbinary => is_one_between(0, 65_535, numbers),
        TypeName::Vector => is_one_between(1, 16_383, numbers),
        _ => is_none(numbers),
    }
}

fn is_none(numbers: Arguments) -> bool
    ensures { result ≡ spec.is_none numbers }
{
    matches!(numbers, Arguments::NoNumber)
}

/// Whether it is one number from `low` to `high`.
fn is_one_between(low: u32, high: u32, numbers: Arguments) -> bool
    ensures { result ≡ spec.is_one_between low high numbers }
{
    match numbers {
        Arguments::OneNumber(number) => low <= number && number <= high,
        _ => false,
    }
}

/// Whether it is a number of digits up to `most`, and how many of them stand after the point.
fn is_digits(most: u32, numbers: Arguments) -> bool
    ensures { result ≡ spec.is_digits most numbers }
{
    match numbers {
        Arguments::TwoNumbers(digits, scale) => 1 <= digits
            && digits <= most
            && scale <= digits
            && scale <= 30,
        _ => false,
    }
}

/// Whether such a type has this sign.
fn signs(name: TypeName, numbers: Arguments, sign: Sign) -> bool
    ensures { result ≡ spec.signs name numbers sign }
{
    match sign {
        Sign::Signed => true,
        Sign::Unsigned => is_numeric(name),
        Sign::Zerofill => is_numeric(name) && !(is_integer(name) && is_none(numbers)),
    }
}

fn is_integer(name: TypeName) -> bool
    ensures { result ≡ spec.is_integer name }
{
    matches!(
        name,
        TypeName::Tinyint
            | TypeName::Smallint
            | TypeName::Mediumint
            | TypeName::Int
            | TypeName::Bigint
    )
}

fn is_numeric(name: TypeName) -> bool
    ensures { result ≡ spec.is_numeric name }
{
    is_integer(name) || matches!(name, TypeName::Decimal | TypeName::Float | TypeName::Double)
}

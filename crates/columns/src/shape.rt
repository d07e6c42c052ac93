//! What the cells of a column hold, by its type.

ghost use Rattle.std.specs.Prelude.{◌≡◌, ◌≤◌, ◌||◌, IsTrue};
ghost use Rattle.columns.specs.DataType.{is_none, is_one_between, is_digits};
ghost use Rattle.columns.specs.TypeText.{first_number, second_number};
ghost use Rattle.columns.specs.Shapes.{shape_of, IsShape};
ghost use Rattle.columns.specs.declared.shape.Shape.TheVariants as variant;

use crate::arguments::Arguments;
use crate::data_type::DataType;
use crate::type_name::TypeName;
use crate::value::integer::IntegerWidth;

/// What the cells of a column hold, and how much of it.
#[derive(Clone, Copy, Debug, PartialEq, Eq)]
pub enum Shape {
    Integer(IntegerWidth),
    /// So many digits, and so many of them after the point.
    Decimal { precision: u8, scale: u8 },
    Float,
    Double,
    /// So many bits.
    Bits(u8),
    Year,
    Date,
    /// So many digits after the point of a second, as in the next two.
    Time(u8),
    Datetime(u8),
    Timestamp(u8),
    /// A text of at most so many bytes.
    Text(usize),
    /// At most so many bytes.
    Bytes(usize),
    /// What is no value here, as of JSON, GEOMETRY and VECTOR.
    Other,
}

impl DataType {
    /// What the cells of a column of this type hold. A character takes at most four bytes in each character set.
    pub fn shape(self) -> Shape
        ensures shape { result ≡ shape_of self.name self.numbers }
        ensures lawful { IsShape result }
    {
        match self.name {
            TypeName::Tinyint => Shape::Integer(IntegerWidth::One),
            TypeName::Smallint => Shape::Integer(IntegerWidth::Two),
            TypeName::Mediumint => Shape::Integer(IntegerWidth::Three),
            TypeName::Int => Shape::Integer(IntegerWidth::Four),
            TypeName::Bigint => Shape::Integer(IntegerWidth::Eight),
            TypeName::Decimal => decimal_of(self.numbers),
            TypeName::Float => Shape::Float,
            TypeName::Double => Shape::Double,
            TypeName::Bit => Shape::Bits(bits_of(self.numbers)),
            TypeName::Year => Shape::Year,
            TypeName::Date => Shape::Date,
            TypeName::Time => Shape::Time(digits_of(self.numbers)),
            TypeName::Datetime => Shape::Datetime(digits_of(self.numbers)),
            TypeName::Timestamp => Shape::Timestamp(digits_of(self.numbers)),
            TypeName::Char | TypeName::Varchar => Shape::Text(4 * self.numbers.first() as usize),
            TypeName::Tinytext => Shape::Text(0xff),
            TypeName::Text => Shape::Text(0xffff),
            TypeName::Mediumtext => Shape::Text(0xff_ffff),
            TypeName::Longtext => Shape::Text(0xffff_ffff),
            TypeName::Binary | TypeName::Varbinary => Shape::Bytes(self.numbers.first() as usize),
            TypeName::Tinyblob => Shape::Bytes(0xff),
            TypeName::Blob => Shape::Bytes(0xffff),
            TypeName::Mediumblob => Shape::Bytes(0xff_ffff),
            TypeName::Longblob => Shape::Bytes(0xffff_ffff),
            _ => Shape::Other,
        }
    }
}

/// A DECIMAL with these numbers.
fn decimal_of(numbers: Arguments) -> Shape
    requires { IsTrue (is_digits 65 numbers) }
    ensures shape { result ≡ variant.Decimal (first_number numbers) (second_number numbers) }
    ensures lawful { IsShape result }
{
    match numbers {
        Arguments::TwoNumbers(precision, scale) => Shape::Decimal {
            precision: precision as u8,
            scale: scale as u8,
        },
        _ => unreachable!(),
    }
}

/// The first number of a type with digits after the point of a second, and 0 where it has none.
fn digits_of(numbers: Arguments) -> u8
    requires { IsTrue (is_none numbers || is_one_between 1 6 numbers) }
    ensures number { result ≡ first_number numbers }
    ensures few { result ≤ 6 }
{
    match numbers {
        Arguments::OneNumber(digits) => digits as u8,
        _ => 0,
    }
}

/// The number of bits of a BIT.
fn bits_of(numbers: Arguments) -> u8
    requires { IsTrue (is_one_between 1 64 numbers) }
    ensures number { result ≡ first_number numbers }
    ensures some { 1 ≤ result }
    ensures few { result ≤ 64 }
{
    match numbers {
        Arguments::OneNumber(bits) => bits as u8,
        _ => unreachable!(),
    }
}

//! FLOAT and DOUBLE with ZEROFILL.

ghost use Rattle.std.specs.Prelude.{◌≡◌, ◌+◌, ◌-◌, ◌^◌, ◌<◌, ◌≤◌, length, Some};
ghost use Rattle.columns.specs.Decimals.{zero_filled};
ghost use Rattle.columns.specs.Tens.{tens_size};
ghost use Rattle.columns.specs.Reals.{point_text, exponent_text, scientific_text, near_text, plain_text, fixed_text, with_decimals};

use crate::value::digits::Zeros;
use crate::value::real::{FixedReal, PlainReal, is_far, minus};
use crate::value::scientific::{Scientific, digit_count};
use crate::value::tens::Tens as PowerOfTen;
use std::fmt;

/// A value of a type with ZEROFILL and without (M,D).
#[derive(Clone, Copy, Debug, PartialEq, Eq)]
pub struct ZerofilledPlainReal {
    pub plain: PlainReal,
    /// How many bytes its text has at least: 12 of a FLOAT, 22 of a DOUBLE.
    pub width: u8,
}

/// Writes the text with zeros in front, also of its sign. The only error is the writer's.
impl fmt::Display for ZerofilledPlainReal {
    ghost output = { λ filled. Some (zero_filled filled.width (plain_text filled.plain.real.negative filled.plain.real.number filled.plain.real.tens)) };

    fn fmt<W: fmt::Write>(&self, f: &mut fmt::Formatter<W>) -> fmt::Result {
        let plain = self.plain;
        let zeros = Zeros(usize::from(self.width).saturating_sub(plain_length(plain.real)));
        write!(f, "{zeros}{plain}")
    }
}

/// A value of a type with ZEROFILL and (M,D).
#[derive(Clone, Copy, Debug, PartialEq, Eq)]
pub struct ZerofilledFixedReal {
    pub fixed: FixedReal,
    /// How many bytes its text has at least: M.
    pub width: u8,
}

/// Writes the text with zeros in front, also of its sign. The only error is the writer's.
impl fmt::Display for ZerofilledFixedReal {
    ghost output = { λ filled. Some (zero_filled filled.width (fixed_text filled.fixed.decimals filled.fixed.real.negative filled.fixed.real.number filled.fixed.real.tens)) };

    fn fmt<W: fmt::Write>(&self, f: &mut fmt::Formatter<W>) -> fmt::Result {
        let fixed = self.fixed;
        let zeros = Zeros(usize::from(self.width).saturating_sub(fixed_length(fixed)));
        write!(f, "{zeros}{fixed}")
    }
}

/// How long the text of a column without (M,D) is.
fn plain_length(real: Scientific) -> usize
    ensures length { result ≡ length (plain_text real.negative real.number real.tens) }
{
    let sign = minus(real.negative).len();
    if is_far(digit_count(real.number), real.tens) {
        return sign + power_length(real);
    }
    sign + near_length(real)
}

/// How long the text of a column with (M,D) is.
fn fixed_length(fixed: FixedReal) -> usize
    ensures length { result ≡ length (fixed_text fixed.decimals fixed.real.negative
        fixed.real.number fixed.real.tens) }
{
    minus(fixed.real.negative).len() + decimals_length(fixed.decimals, fixed.real)
}

/// How long the text with so many digits after the point is, without its sign.
fn decimals_length(decimals: u8, real: Scientific) -> usize
    ensures length { result ≡ length (with_decimals decimals real.number real.tens) }
    ensures short { result ≤ 3000 }
{
    let decimals = usize::from(decimals);
    match real.tens {
        PowerOfTen::Up(tens) => {
            let front = usize::from(digit_count(real.number)) + usize::from(tens);
            if decimals == 0 {
                front
            } else {
                front + (1 + decimals)
            }
        }
        PowerOfTen::Down(tens) => {
            pointed_length(real.number, tens) + decimals.saturating_sub(usize::from(tens))
        }
    }
}

/// How long a number with an exponent is.
fn power_length(real: Scientific) -> usize
    ensures length { result ≡ length (scientific_text real.number real.tens) }
    ensures short { result ≤ 3000 }
{
    let count = digit_count(real.number);
    pointed_length(real.number, u16::from(count - 1)) + (1 + exponent_length(count, real.tens))
}

/// How long a number without an exponent is.
fn near_length(real: Scientific) -> usize
    ensures length { result ≡ length (near_text real.number real.tens) }
    ensures short { result ≤ 3000 }
{
    match real.tens {
        PowerOfTen::Up(tens) => usize::from(digit_count(real.number)) + usize::from(tens),
        PowerOfTen::Down(tens) => pointed_length(real.number, tens),
    }
}

/// How long a whole number with a point in front of its last digits is.
fn pointed_length(number: u64, behind: u16) -> usize
    requires number { number < 10 ^ 17 }
    requires behind { behind ≤ 2000 }
    ensures length { result ≡ length (point_text behind number) }
    ensures short { result ≤ 2020 }
{
    let places = usize::from(behind);
    if behind == 0 {
        return usize::from(digit_count(number));
    }
    if behind > 17 {
        return 1 + (1 + places);
    }
    let whole = number / 10u64.pow(u32::from(behind));
    usize::from(digit_count(whole)) + (1 + places)
}

/// How long the exponent of the first of so many digits is.
fn exponent_length(count: u8, tens: PowerOfTen) -> usize
    requires some { 1 ≤ count }
    requires few { count ≤ 17 }
    requires near { tens_size tens ≤ 2000 }
    ensures length { result ≡ length (exponent_text count tens) }
    ensures short { result ≤ 18 }
{
    let count = u64::from(count);
    match tens {
        PowerOfTen::Up(tens) => usize::from(digit_count(u64::from(tens) + count - 1)),
        PowerOfTen::Down(tens) => {
            let tens = u64::from(tens);
            if tens < count {
                return usize::from(digit_count(count - 1 - tens));
            }
            1 + usize::from(digit_count(tens + 1 - count))
        }
    }
}

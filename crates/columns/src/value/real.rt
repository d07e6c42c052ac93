//! FLOAT and DOUBLE.

ghost use Rattle.std.specs.Prelude.{◌≡◌, ℕ, ◌+◌, ◌-◌, ◌%◌, ◌^◌, ◌<◌, ◌≤◌, Some, IsTrue};
ghost use Rattle.std.specs.Float.{float_is_finite};
ghost use Rattle.columns.specs.Tens.{tens_size};
ghost use Rattle.columns.specs.declared.value.tens.Tens.TheVariants.{Down};
ghost use Rattle.columns.specs.Reals as spec;
ghost use Rattle.columns.specs.Reals.{point_text, exponent_text, scientific_text, plain_text, shortest_text, fixed_text, near_text, minus_part};

use crate::value::digits::Zeros;
use crate::value::scientific::{Scientific, digit_count};
use crate::value::tens::Tens as PowerOfTen;
use ryu::Buffer;
use std::fmt;

impl Scientific {
    /// The fewest digits that read back as the same DOUBLE, without zeros at the end.
    pub fn of_double(value: f64) -> Scientific
        requires { IsTrue (float_is_finite value) }
        ensures trimmed { result.number % 10 ≡ 0 → result.number ≡ 0 }
    {
        let mut buffer = Buffer::new();
        of_text(buffer.format_finite(value).as_bytes())
    }

    /// The DOUBLE of the same value as a FLOAT, in at most six digits without zeros at the end: those of the text in a
    /// column without (M,D). The seventh of the fewest digits is never a last 5 that stands for more or less than a half.
    pub fn six_digits(value: f64) -> Scientific
        requires { IsTrue (float_is_finite value) }
        ensures trimmed { result.number % 10 ≡ 0 → result.number ≡ 0 }
    {
        let mut buffer = Buffer::new();
        of_text(buffer.format_finite(value).as_bytes())
            .cut(6)
            .trimmed()
    }
}

/// The text of a FLOAT or a DOUBLE in a column without (M,D).
#[derive(Clone, Copy, Debug, PartialEq, Eq)]
pub struct PlainReal {
    /// The digits, without zeros at the end, as [`Scientific::of_double`] and [`Scientific::six_digits`] leave them.
    pub real: Scientific,
    pub ghost trimmed: { real.number % 10 ≡ 0 → real.number ≡ 0 },
}

/// Writes the number with a point where it belongs, or with an exponent if more than 15 digits and zeros would stand in
/// front of the point with nothing after it, or more than 14 zeros between it and the first digit. The only error is the
/// writer's.
impl fmt::Display for PlainReal {
    ghost output = { λ plain. Some (plain_text plain.real.negative plain.real.number plain.real.tens) };

    fn fmt<W: fmt::Write>(&self, f: &mut fmt::Formatter<W>) -> fmt::Result {
        let real = self.real;
        let sign = minus(real.negative);
        if is_far(digit_count(real.number), real.tens) {
            let power = Power { real };
            return write!(f, "{sign}{power}");
        }
        let near = Near { real };
        write!(f, "{sign}{near}")
    }
}

/// The text of a FLOAT or a DOUBLE with its exponent, as SQL and JSON read it.
#[derive(Clone, Copy, Debug, PartialEq, Eq)]
pub struct ShortestReal {
    pub real: Scientific,
}

/// Writes one digit, a point and the others if there are any, and the exponent. The only error is the writer's.
impl fmt::Display for ShortestReal {
    ghost output = { λ shortest. Some (shortest_text shortest.real.negative shortest.real.number shortest.real.tens) };

    fn fmt<W: fmt::Write>(&self, f: &mut fmt::Formatter<W>) -> fmt::Result {
        let real = self.real;
        let sign = minus(real.negative);
        let scientific = Power { real };
        write!(f, "{sign}{scientific}")
    }
}

/// The text of a FLOAT or a DOUBLE in a column with (M,D).
#[derive(Clone, Copy, Debug, PartialEq, Eq)]
pub struct FixedReal {
    /// The digits, rounded so that no more of them stand after the point, as [`Scientific::rounded`] does.
    pub real: Scientific,
    /// How many digits stand after the point.
    pub decimals: u8,
    pub ghost within: { (behind : ℕ) → real.tens ≡ Down behind → behind ≤ decimals },
}

/// Writes the number with so many digits after the point, with zeros at its end. The only error is the writer's.
impl fmt::Display for FixedReal {
    ghost output = { λ fixed. Some (fixed_text fixed.decimals fixed.real.negative fixed.real.number fixed.real.tens) };

    fn fmt<W: fmt::Write>(&self, f: &mut fmt::Formatter<W>) -> fmt::Result {
        let number = self.real.number;
        let sign = minus(self.real.negative);
        match self.real.tens {
            PowerOfTen::Up(tens) => {
                let tens = Zeros(usize::from(tens));
                let decimals = Zeros(usize::from(self.decimals));
                if self.decimals == 0 {
                    return write!(f, "{sign}{number}{tens}");
                }
                write!(f, "{sign}{number}{tens}.{decimals}")
            }
            PowerOfTen::Down(tens) => {
                let pointed = Pointed {
                    number,
                    behind: tens,
                };
                let zeros = Zeros(usize::from(self.decimals).saturating_sub(usize::from(tens)));
                write!(f, "{sign}{pointed}{zeros}")
            }
        }
    }
}

/// A number as one digit, the others after a point, and an exponent.
#[derive(Clone, Copy)]
struct Power {
    real: Scientific,
}

impl fmt::Display for Power {
    ghost output = { λ power. Some (scientific_text power.real.number power.real.tens) };

    fn fmt<W: fmt::Write>(&self, f: &mut fmt::Formatter<W>) -> fmt::Result {
        let number = self.real.number;
        let tens = self.real.tens;
        let count = digit_count(number);
        let pointed = Pointed {
            number,
            behind: u16::from(count - 1),
        };
        let exponent = Exponent { count, tens };
        write!(f, "{pointed}e{exponent}")
    }
}

/// A number without an exponent.
#[derive(Clone, Copy)]
struct Near {
    real: Scientific,
}

impl fmt::Display for Near {
    ghost output = { λ near. Some (near_text near.real.number near.real.tens) };

    fn fmt<W: fmt::Write>(&self, f: &mut fmt::Formatter<W>) -> fmt::Result {
        let number = self.real.number;
        match self.real.tens {
            PowerOfTen::Up(tens) => {
                let zeros = Zeros(usize::from(tens));
                write!(f, "{number}{zeros}")
            }
            PowerOfTen::Down(tens) => {
                let pointed = Pointed {
                    number,
                    behind: tens,
                };
                write!(f, "{pointed}")
            }
        }
    }
}

/// A whole number with a point in front of its last digits.
#[derive(Clone, Copy)]
struct Pointed {
    number: u64,
    behind: u16,
    ghost small: { number < 10 ^ 17 },
}

impl fmt::Display for Pointed {
    ghost output = { λ pointed. Some (point_text pointed.behind pointed.number) };

    fn fmt<W: fmt::Write>(&self, f: &mut fmt::Formatter<W>) -> fmt::Result {
        let number = self.number;
        let behind = usize::from(self.behind);
        if behind == 0 {
            return write!(f, "{number}");
        }
        if behind > 17 {
            return write!(f, "0.{number:0behind$}");
        }
        let unit = 10u64.pow(u32::from(self.behind));
        let whole = number / unit;
        let part = number % unit;
        write!(f, "{whole}.{part:0behind$}")
    }
}

/// The exponent of the first of so many digits.
#[derive(Clone, Copy)]
struct Exponent {
    count: u8,
    tens: PowerOfTen,
    ghost some: { 1 ≤ count },
    ghost few: { count ≤ 17 },
    ghost near: { tens_size tens ≤ 2000 },
}

impl fmt::Display for Exponent {
    ghost output = { λ exponent. Some (exponent_text exponent.count exponent.tens) };

    fn fmt<W: fmt::Write>(&self, f: &mut fmt::Formatter<W>) -> fmt::Result {
        let count = u16::from(self.count);
        match self.tens {
            PowerOfTen::Up(tens) => {
                let exponent = tens + count - 1;
                write!(f, "{exponent}")
            }
            PowerOfTen::Down(tens) => {
                if tens < count {
                    let exponent = count - 1 - tens;
                    return write!(f, "{exponent}");
                }
                let exponent = tens + 1 - count;
                write!(f, "-{exponent}")
            }
        }
    }
}

/// The minus sign of a negative number, or nothing.
pub(crate) fn minus(negative: bool) -> &'static str
    ensures { result.now ≡ minus_part negative }
{
    if negative { "-" } else { "" }
}

/// Whether a number of so many digits is written with an exponent.
pub(crate) fn is_far(count: u8, tens: PowerOfTen) -> bool
    requires few { count ≤ 17 }
    requires near { tens_size tens ≤ 2000 }
    ensures { result ≡ spec.is_far count tens }
{
    match tens {
        PowerOfTen::Up(tens) => u16::from(count) + tens > 15,
        PowerOfTen::Down(tens) => tens > u16::from(count) + 14,
    }
}

/// The number of a text of at most 17 digits, perhaps with a point and an exponent, without zeros at its end.
fn of_text(text: &[u8]) -> Scientific
    ensures near { tens_size result.tens ≤ 1200 }
    ensures trimmed { result.number % 10 ≡ 0 → result.number ≡ 0 }
{
    let negative = matches!(text, [b'-', ..]);
    let mut number = 0;
    let mut behind = 0;
    let mut exponent = 0;
    let mut is_behind = false;
    let mut is_exponent = false;
    let mut is_below = false;
    for byte in text {
        let byte = *byte;
        if byte == b'.' {
            is_behind = true;
        } else if byte == b'e' {
            is_exponent = true;
        } else if byte == b'-' {
            is_below = is_exponent;
        } else if is_exponent {
            exponent = more_exponent(exponent, byte);
        } else {
            number = more_digits(number, byte);
            behind = one_behind(behind, is_behind);
        }
    }
    Scientific {
        negative,
        number,
        tens: tens_of(behind, exponent, is_below),
    }
    .trimmed()
}

/// A number with one more digit, if it has fewer than 17.
fn more_digits(number: u64, byte: u8) -> u64
    requires { number < 10 ^ 17 }
    ensures { result < 10 ^ 17 }
{
    let digit = byte.wrapping_sub(b'0');
    if digit > 9 || number >= 10_000_000_000_000_000 {
        return number;
    }
    number * 10 + u64::from(digit)
}

/// An exponent with one more digit, if it has fewer than three.
fn more_exponent(exponent: u16, byte: u8) -> u16
    requires { exponent ≤ 999 }
    ensures { result ≤ 999 }
{
    let digit = byte.wrapping_sub(b'0');
    if digit > 9 || exponent > 99 {
        return exponent;
    }
    exponent * 10 + u16::from(digit)
}

/// How many digits stand after the point.
fn one_behind(behind: u16, is_behind: bool) -> u16
    requires { behind ≤ 100 }
    ensures { result ≤ 100 }
{
    if is_behind && behind < 100 {
        behind + 1
    } else {
        behind
    }
}

/// The power of ten of a number with so many digits after the point and an exponent.
fn tens_of(behind: u16, exponent: u16, is_below: bool) -> PowerOfTen
    requires behind { behind ≤ 100 }
    requires exponent { exponent ≤ 999 }
    ensures { tens_size result ≤ 1100 }
{
    if is_below {
        PowerOfTen::Down(behind + exponent)
    } else if exponent < behind {
        PowerOfTen::Down(behind - exponent)
    } else {
        PowerOfTen::Up(exponent - behind)
    }
}

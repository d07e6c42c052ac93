//! Decimal numbers with a power of ten.

ghost use Rattle.std.specs.Prelude.{◌≡◌, ℕ, ◌+◌, ◌-◌, ◌*◌, ◌%◌, ◌^◌, ◌<◌, ◌≤◌, ◌==◌, if◌then◌else◌, length, decimal};
ghost use Rattle.columns.specs.declared.value.tens.Tens.{Tens};
ghost use Rattle.columns.specs.declared.value.tens.Tens.TheVariants.{Up, Down};
ghost use Rattle.columns.specs.Tens as spec;
ghost use Rattle.columns.specs.Tens.{tens_size, IsRounded, IsSameNumber};

use crate::value::tens::Tens as PowerOfTen;

/// A decimal number: a sign, a whole number of at most 17 digits, and a power of ten.
#[derive(Clone, Copy, Debug, PartialEq, Eq)]
pub struct Scientific {
    pub negative: bool,
    pub number: u64,
    pub tens: PowerOfTen,
    pub ghost small: { number < 10 ^ 17 },
    pub ghost near: { tens_size tens ≤ 2000 },
}

impl Scientific {
    /// The number with at most so many digits: the nearest one, and of two the even one.
    pub(crate) fn cut(self, digits: u8) -> Scientific
        requires near { tens_size self.tens ≤ 1500 }
        ensures negative { result.negative ≡ self.negative }
        ensures near { tens_size result.tens ≤ tens_size self.tens + 17 }
        ensures kept { length (decimal self.number) ≤ digits → result ≡ self }
        ensures rounded { digits < length (decimal self.number)
            → IsRounded self.number (10 ^ (length (decimal self.number) - digits)) result.number }
        ensures tens { digits < length (decimal self.number)
            → result.tens ≡ spec.raised (length (decimal self.number) - digits) self.tens }
    {
        let count = digit_count(self.number);
        if count <= digits {
            return self;
        }
        let cut = count - digits;
        let number = nearest(self.number, 10u64.pow(u32::from(cut)));
        Scientific {
            negative: self.negative,
            number,
            tens: raised(u16::from(cut), self.tens),
        }
    }

    /// The number without zeros at its end; 0 without a power of ten.
    pub(crate) fn trimmed(self) -> Scientific
        requires near { tens_size self.tens ≤ 1800 }
        ensures negative { result.negative ≡ self.negative }
        ensures trimmed { result.number % 10 ≡ 0 → result.number ≡ 0 }
        ensures value { IsSameNumber self.number self.tens result.number result.tens }
        ensures near { tens_size result.tens ≤ tens_size self.tens + 17 }
    {
        let (number, zeros) = split_zeros(self.number);
        if number == 0 {
            return Scientific {
                negative: self.negative,
                number: 0,
                tens: PowerOfTen::Up(0),
            };
        }
        Scientific {
            negative: self.negative,
            number,
            tens: raised(u16::from(zeros), self.tens),
        }
    }

    /// The number with at most so many digits after the point: the nearest one, and of two the even one.
    pub fn rounded(self, decimals: u8) -> Scientific
        ensures negative { result.negative ≡ self.negative }
        ensures within { (tens : ℕ) → result.tens ≡ Down tens → tens ≤ decimals }
        ensures whole { (tens : ℕ) → self.tens ≡ Up tens → result ≡ self }
        ensures kept { (tens : ℕ) → self.tens ≡ Down tens → tens ≤ decimals → result ≡ self }
        ensures rounded { (tens : ℕ) → self.tens ≡ Down tens → decimals < tens
            → IsRounded self.number (10 ^ (tens - decimals)) result.number }
        ensures tens { (tens : ℕ) → self.tens ≡ Down tens → decimals < tens
            → result.tens ≡ (if decimals == 0 then Up 0 else Down decimals) }
    {
        let PowerOfTen::Down(tens) = self.tens else {
            return self;
        };
        let decimals = u16::from(decimals);
        if tens <= decimals {
            return self;
        }
        Scientific {
            negative: self.negative,
            number: divided(self.number, tens - decimals),
            tens: behind(decimals),
        }
    }
}

/// The number without the zeros at its end, and how many these are.
fn split_zeros(number: u64) -> (u64, u8)
    requires { number < 10 ^ 17 }
    ensures parts { number ≡ result.0 * 10 ^ result.1 }
    ensures trimmed { result.0 % 10 ≡ 0 → result.0 ≡ 0 }
    ensures few { result.1 ≤ 17 }
    ensures small { result.0 ≤ number }
{
    let mut left = number;
    for zeros in 0..17 {
        if left % 10 != 0 {
            return (left, zeros);
        }
        left /= 10;
    }
    (left, 17)
}

/// How many decimal digits the number has.
pub(crate) fn digit_count(number: u64) -> u8
    requires { number < 10 ^ 17 }
    ensures count { result ≡ length (decimal number) }
    ensures some { 1 ≤ result }
    ensures few { result ≤ 17 }
{
    let mut count = 1;
    let mut left = number;
    while left >= 10 {
        left /= 10;
        count += 1;
    }
    count
}

/// The whole number of units that is nearest to a number, the even one of two.
fn nearest(number: u64, unit: u64) -> u64
    requires some { 1 ≤ unit }
    requires unit { unit ≤ 10 ^ 17 }
    requires number { number < 10 ^ 17 }
    ensures rounded { IsRounded number unit result }
    ensures small { result ≤ number }
{
    let down = number / unit;
    let rest = number % unit;
    if rest * 2 > unit {
        return down + 1;
    }
    if rest * 2 == unit {
        return down + down % 2;
    }
    down
}

/// The nearest whole number to one that is divided by so many tens.
fn divided(number: u64, tens: u16) -> u64
    requires number { number < 10 ^ 17 }
    ensures rounded { IsRounded number (10 ^ tens) result }
    ensures small { result < 10 ^ 17 }
{
    if tens > 17 {
        return 0;
    }
    nearest(number, 10u64.pow(u32::from(tens)))
}

/// The power of ten of a number with so many digits after the point.
fn behind(decimals: u16) -> PowerOfTen
    ensures { result ≡ (if decimals == 0 then Up 0 else Down decimals) }
{
    if decimals == 0 {
        PowerOfTen::Up(0)
    } else {
        PowerOfTen::Down(decimals)
    }
}

/// So many tens more.
fn raised(by: u16, tens: PowerOfTen) -> PowerOfTen
    requires by { by ≤ 17 }
    requires near { tens_size tens ≤ 2000 }
    ensures { result ≡ spec.raised by tens }
{
    match tens {
        PowerOfTen::Up(tens) => PowerOfTen::Up(tens + by),
        PowerOfTen::Down(tens) => {
            if by < tens {
                PowerOfTen::Down(tens - by)
            } else {
                PowerOfTen::Up(by - tens)
            }
        }
    }
}

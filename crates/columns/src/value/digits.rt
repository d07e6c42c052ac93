//! Digits in the texts of numbers.

ghost use Rattle.std.specs.Prelude.{◌≡◌, replicate, Some};
ghost use Rattle.columns.specs.Decimals as spec;
ghost use Rattle.columns.specs.Decimals.{are_zeros, digits_text};

use std::fmt;

/// Digits that are written one after the other.
#[derive(Clone, Copy)]
pub(crate) struct Digits<'a>(pub(crate) &'a [u8]);

impl fmt::Display for Digits<'_> {
    ghost output = { λ digits. Some (digits_text digits.0.now) };

    fn fmt<W: fmt::Write>(&self, f: &mut fmt::Formatter<W>) -> fmt::Result {
        for digit in self.0 {
            write!(f, "{digit}")?;
        }
        Ok(())
    }
}

/// So many zeros.
#[derive(Clone, Copy)]
pub(crate) struct Zeros(pub(crate) usize);

impl fmt::Display for Zeros {
    ghost output = { λ zeros. Some (replicate zeros.0 48) };

    fn fmt<W: fmt::Write>(&self, f: &mut fmt::Formatter<W>) -> fmt::Result {
        for _i in 0..self.0 {
            write!(f, "0")?;
        }
        Ok(())
    }
}

/// The digits without zeros in front, or one zero if there are no others.
pub(crate) fn significant(digits: &[u8]) -> &[u8]
    ensures { result.now ≡ spec.significant digits.now }
{
    match digits {
        [] => &[0],
        [0, rest @ ..] => significant(rest),
        _ => digits,
    }
}

/// Whether each digit is zero.
pub(crate) fn is_zero(digits: &[u8]) -> bool
    ensures { result ≡ are_zeros digits.now }
{
    match digits {
        [] => true,
        [first, rest @ ..] => *first == 0 && is_zero(rest),
    }
}

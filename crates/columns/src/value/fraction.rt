//! Fractions of a second.

ghost use Rattle.std.specs.Prelude.{◌≡◌, ◌↔◌, ◌+◌, ◌*◌, ◌^◌, ◌≤◌, ◌<◌, ℕ, length, Some, IfSome, IsSome, IsSomeAnd, IsTrue};
ghost use Rattle.columns.specs.Times as spec;
ghost use Rattle.columns.specs.Times.{is_fraction, fraction_size, even_digits, fraction_bytes, fraction_text};

use crate::value::bytes::read_big;
use std::fmt;

/// A fraction of a second: how many digits stand after the point, at most six, and the number that they are.
#[derive(Clone, Copy, Debug, PartialEq, Eq)]
pub struct Fraction {
    pub digits: u8,
    pub number: u32,
    ghost lawful: { IsTrue (is_fraction digits number) },
}

impl Fraction {
    /// The fraction, if there are at most six digits and the number has no more.
    pub fn new(digits: u8, number: u32) -> Option<Fraction>
        ensures lawful { IsSome result ↔ IsTrue (is_fraction digits number) }
        ensures parts { IfSome result (λ made. (made.digits ≡ digits) × (made.number ≡ number)) }
    {
        if digits > 6 {
            return None;
        }
        if number >= 10u32.pow(u32::from(digits)) {
            return None;
        }
        Some(Fraction { digits, number })
    }

    /// The fraction that is stored as a number of so many digits, and one more where they are odd.
    pub(crate) fn of_stored(digits: u8, stored: u32) -> Option<Fraction>
        ensures digits { IfSome result (λ made. made.digits ≡ digits) }
        ensures found { IfSome result (λ made. stored ≡ even_digits digits made.number) }
        ensures only { (number : ℕ) → IsTrue (is_fraction digits number)
            → stored ≡ even_digits digits number → IsSomeAnd result (λ made. made.number ≡ number) }
    {
        if digits % 2 == 0 {
            return Fraction::new(digits, stored);
        }
        if stored % 10 != 0 {
            return None;
        }
        Fraction::new(digits, stored / 10)
    }

    /// The fraction of so many digits that these bytes are.
    pub(crate) fn of_bytes(digits: u8, bytes: &[u8]) -> Option<Fraction>
        requires { digits ≤ 6 }
        ensures digits { IfSome result (λ made. made.digits ≡ digits) }
        ensures found { IfSome result (λ made. bytes.now ≡ fraction_bytes digits made.number) }
        ensures only { (number : ℕ) → IsTrue (is_fraction digits number)
            → bytes.now ≡ fraction_bytes digits number
            → IsSomeAnd result (λ made. made.number ≡ number) }
    {
        if bytes.len() != Fraction::size(digits) {
            return None;
        }
        let stored = u32::try_from(read_big(bytes)).ok()?;
        Fraction::of_stored(digits, stored)
    }

    /// How many bytes a fraction of so many digits takes.
    pub(crate) fn size(digits: u8) -> usize
        requires { digits ≤ 6 }
        ensures { result ≡ fraction_size digits }
    {
        usize::from(digits + 1) / 2
    }

    /// How many bytes the fraction takes.
    pub(crate) fn byte_count(self) -> usize
        ensures size { result ≡ fraction_size self.digits }
        ensures few { result ≤ 3 }
    {
        Fraction::size(self.digits)
    }

    /// The number that is stored.
    pub(crate) fn stored(self) -> u32
        ensures { result ≡ even_digits self.digits self.number }
    {
        if self.digits % 2 == 0 {
            self.number
        } else {
            self.number * 10
        }
    }
}

/// Writes nothing if there are no digits, else a point and all of them. The only error is the writer's.
impl fmt::Display for Fraction {
    ghost output = { λ made. Some (fraction_text made.digits made.number) };

    fn fmt<W: fmt::Write>(&self, f: &mut fmt::Formatter<W>) -> fmt::Result {
        if self.digits == 0 {
            return Ok(());
        }
        let digits = usize::from(self.digits);
        let number = self.number;
        write!(f, ".{number:0digits$}")
    }
}

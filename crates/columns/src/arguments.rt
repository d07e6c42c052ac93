//! The numbers of a type.

ghost use Rattle.std.specs.Prelude.{◌≡◌, ◌++◌, List, ℕ, Some, IfSome, IsSomeAnd};
ghost use Rattle.columns.specs.Word.{Ends, is_opening};
ghost use Rattle.columns.specs.TypeText.{arguments_text, AreSmall, first_number};

use crate::numeral::{read_last_number, read_number};
use std::fmt;

/// The numbers in parentheses after the name of a type.
#[derive(Clone, Copy, Debug, PartialEq, Eq)]
pub enum Arguments {
    /// None.
    NoNumber,
    /// One, as of `char(10)`.
    OneNumber(u32),
    /// Two, as of `decimal(10,2)`.
    TwoNumbers(u32, u32),
}

impl Arguments {
    /// The first number, and 0 where there is none.
    pub fn first(self) -> u32
        ensures { result ≡ first_number self }
    {
        match self {
            Arguments::NoNumber => 0,
            Arguments::OneNumber(first) | Arguments::TwoNumbers(first, _) => first,
        }
    }
}

/// Reads the numbers in parentheses that the text begins with, and what follows them.
pub(crate) fn read_arguments(text: &[u8]) -> Option<(Arguments, &[u8])>
    ensures found { IfSome result (λ found. text.now ≡ arguments_text found.0 ++ found.1.now) }
    ensures only { (numbers : Arguments) (rest : List ℕ) → AreSmall numbers → Ends is_opening rest
        → text.now ≡ arguments_text numbers ++ rest
        → IsSomeAnd result (λ found. (found.0 ≡ numbers) × (found.1.now ≡ rest)) }
{
    let [b'(', inner @ ..] = text else {
        return Some((Arguments::NoNumber, text));
    };
    let (first, after) = read_number(inner)?;
    match after {
        [b')', rest @ ..] => Some((Arguments::OneNumber(first), rest)),
        [b',', more @ ..] => {
            let (second, rest) = read_last_number(more)?;
            Some((Arguments::TwoNumbers(first, second), rest))
        }
        _ => None,
    }
}

/// Writes nothing, `(n)` or `(n,m)`. The only error is the writer's.
impl fmt::Display for Arguments {
    ghost output = { λ numbers. Some (arguments_text numbers) };

    fn fmt<W: fmt::Write>(&self, f: &mut fmt::Formatter<W>) -> fmt::Result {
        match self {
            Arguments::NoNumber => Ok(()),
            Arguments::OneNumber(number) => write!(f, "({number})"),
            Arguments::TwoNumbers(first, second) => write!(f, "({first},{second})"),
        }
    }
}

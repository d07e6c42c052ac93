//! The sign of a number's type.

ghost use Rattle.std.specs.Prelude.{◌≡◌, IfSome, Some};
ghost use Rattle.columns.specs.TypeText.{sign_text};

use std::fmt;

/// The sign of a number's type.
#[derive(Clone, Copy, Debug, PartialEq, Eq)]
pub enum Sign {
    /// Numbers of both signs. It is the sign of types that are no numbers, too.
    Signed,
    /// No number below zero.
    Unsigned,
    /// No number below zero, and its text has zeros in front.
    Zerofill,
}

impl Sign {
    /// What stands for it at the end of a type's text.
    pub fn as_str(self) -> &'static str
        ensures { result.now ≡ sign_text self }
    {
        match self {
            Sign::Signed => "",
            Sign::Unsigned => " unsigned",
            Sign::Zerofill => " unsigned zerofill",
        }
    }

    /// The sign that this text stands for.
    pub(crate) fn find(text: &[u8]) -> Option<Sign>
        ensures found { IfSome result (λ sign. sign_text sign ≡ text.now) }
        ensures only { (sign : Sign) → sign_text sign ≡ text.now → result ≡ Some sign }
    {
        [Sign::Signed, Sign::Unsigned, Sign::Zerofill]
            .into_iter()
            .find(|sign| sign.as_str().as_bytes() == text)
    }
}

/// Writes what stands for the sign at the end of a type's text. The only error is the writer's.
impl fmt::Display for Sign {
    ghost output = { λ sign. Some (sign_text sign) };

    fn fmt<W: fmt::Write>(&self, f: &mut fmt::Formatter<W>) -> fmt::Result {
        f.write_str(self.as_str())
    }
}

//! One GTID as text.

ghost use Rattle.std.specs.Prelude.{◌≡◌, Some, IfSome, IsSomeAnd};
ghost use Rattle.gtid.specs.Identifier.{Id, id};
ghost use Rattle.gtid.specs.Text.{IsGtidText, gtid_text};

use crate::identifier::Gtid;
use std::fmt;
use uuid::Uuid;
use uuid::fmt::Hyphenated;

impl Gtid {
    /// Reads the text of one GTID: its source as a hyphenated UUID of 36 characters in either case, `:`, and its number
    /// in at least one decimal digit, from 1 to 2^63 - 2. Zeros may stand before the number. Any other text is refused,
    /// as one with blanks or with a second number.
    ///
    /// The form is that of the MySQL Reference Manual, "GTID Format and Storage".
    ///
    /// Clauses:
    /// - `found`, `only`: a GTID exactly where the text is one; no memory
    pub fn parse(text: &str) -> Option<Gtid>
        ensures found { IfSome result (λ gtid. IsGtidText text.now (id gtid)) }
        ensures only { (q : Id) → IsGtidText text.now q → IsSomeAnd result (λ gtid. id gtid ≡ q) }
    {
        let (source, number) = text.split_once(':')?;
        if number.starts_with('+') {
            return None;
        }
        let source = source.parse::<Hyphenated>().ok()?;
        let number = number.parse::<u64>().ok()?;
        Gtid::new(source.into_uuid().into_bytes(), number)
    }
}

/// Writes the source as a hyphenated UUID in lower case, `:`, and the number in decimal digits: the form of the MySQL
/// Reference Manual, "GTID Format and Storage", which [`Gtid::parse`] reads back. The only error is the writer's.
impl fmt::Display for Gtid {
    ghost output = { λ gtid. Some (gtid_text (id gtid)) };

    fn fmt<W: fmt::Write>(&self, f: &mut fmt::Formatter<W>) -> fmt::Result {
        let source = Uuid::from_bytes(self.source);
        let number = self.number;
        write!(f, "{source}:{number}")
    }
}

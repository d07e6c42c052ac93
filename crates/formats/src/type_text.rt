//! The type of a column as a text.

ghost use Rattle.std.specs.Prelude.{◌≡◌, Some};
ghost use Rattle.formats.specs.TypeText.{blob_text, fractional_text, kind_text};

use binlog::ColumnKind;
use std::fmt;

/// The type of a column, as its table map has it: what SQL calls it, with what is in its metadata.
#[derive(Clone, Copy, Debug)]
pub struct TypeText(pub ColumnKind);

/// What SQL calls a BLOB or TEXT whose values have a length of so many bytes.
fn blob_name(prefix: u8) -> &'static str
    ensures { result.now ≡ blob_text prefix }
{
    match prefix {
        1 => "TINYBLOB",
        2 => "BLOB",
        3 => "MEDIUMBLOB",
        _ => "LONGBLOB",
    }
}

/// The name of a type of times and, if there are any, how many digits a second's fraction has.
#[derive(Clone, Copy)]
struct Moment {
    name: &'static str,
    fraction: u8,
}

/// The type of times of this name, with so many digits of a second's fraction.
fn with_fraction(name: &'static str, fraction: u8) -> Moment
    ensures { (result.name.now ≡ name.now) × (result.fraction ≡ fraction) }
{
    Moment { name, fraction }
}

impl fmt::Display for Moment {
    ghost output = { λ moment. Some (fractional_text moment.name.now moment.fraction) };

    fn fmt<W: fmt::Write>(&self, f: &mut fmt::Formatter<W>) -> fmt::Result {
        let name = self.name;
        let fraction = self.fraction;
        if fraction == 0 {
            return f.write_str(name);
        }
        write!(f, "{name}({fraction})")
    }
}

/// Writes the text. The only error is the writer's.
impl fmt::Display for TypeText {
    ghost output = { λ text. Some (kind_text text.0) };

    /// Clauses:
    /// - what `{}` writes: the text of the type (`specs/TypeText.antt`), its name in SQL and the numbers of its
    ///   metadata
    fn fmt<W: fmt::Write>(&self, f: &mut fmt::Formatter<W>) -> fmt::Result {
        match self.0 {
            ColumnKind::Tiny => f.write_str("TINYINT"),
            ColumnKind::Short => f.write_str("SMALLINT"),
            ColumnKind::Int24 => f.write_str("MEDIUMINT"),
            ColumnKind::Long => f.write_str("INT"),
            ColumnKind::LongLong => f.write_str("BIGINT"),
            ColumnKind::Varchar { maximum } => write!(f, "VARCHAR({maximum})"),
            ColumnKind::Blob { prefix } => f.write_str(blob_name(prefix)),
            ColumnKind::Bit { bits } => write!(f, "BIT({bits})"),
            ColumnKind::NewDecimal { precision, scale } => write!(
                f,
                "DECIMAL({precision},{scale})"
            ),
            ColumnKind::Float => f.write_str("FLOAT"),
            ColumnKind::Double => f.write_str("DOUBLE"),
            ColumnKind::Date => f.write_str("DATE"),
            ColumnKind::Year => f.write_str("YEAR"),
            ColumnKind::Timestamp2 { fraction } => write!(
                f,
                "{}",
                with_fraction("TIMESTAMP", fraction)
            ),
            ColumnKind::Datetime2 { fraction } => write!(
                f,
                "{}",
                with_fraction("DATETIME", fraction)
            ),
            ColumnKind::Time2 { fraction } => write!(f, "{}", with_fraction("TIME", fraction)),
            ColumnKind::Char { maximum } => write!(f, "CHAR({maximum})"),
            ColumnKind::Enum { .. } => f.write_str("ENUM"),
            ColumnKind::Set { .. } => f.write_str("SET"),
        }
    }
}

//! Column types. MySQL Source Documentation, "Binlog Event", the page `binary_log::Table_map_event`.

ghost use Rattle.std.specs.Prelude.{◌≡◌, ◌↔◌, IsTrue, IsSome, IfSome};
ghost use Rattle.binlog.specs.Column.{type_code, is_lawful};
ghost use Rattle.binlog.specs.Shape.{shape, is_readable};

use crate::column::codes;
use crate::column::value::{Shape, shape_of_kind};

/// The type of a column, with what its metadata says. In a table map it is a type code and 0 to 2 bytes of metadata.
#[derive(Clone, Copy, Debug, PartialEq, Eq)]
pub enum ColumnKind {
    /// TINY, code 1: 1 byte.
    Tiny,
    /// SHORT, code 2: 2 bytes.
    Short,
    /// INT24, code 9: 3 bytes.
    Int24,
    /// LONG, code 3: 4 bytes.
    Long,
    /// LONGLONG, code 8: 8 bytes.
    LongLong,
    /// VARCHAR, code 15, of at most this many bytes.
    Varchar { maximum: u16 },
    /// BLOB, code 252: a value's length is stored in this many bytes, 1 to 4.
    Blob { prefix: u8 },
    /// BIT, code 16, of 1 to 64 bits.
    Bit { bits: u8 },
    /// NEWDECIMAL, code 246: 1 to 65 digits, of which `scale` follow the point, at most 30.
    NewDecimal { precision: u8, scale: u8 },
    /// FLOAT, code 4: 4 bytes.
    Float,
    /// DOUBLE, code 5: 8 bytes.
    Double,
    /// DATE, code 10: 3 bytes.
    Date,
    /// YEAR, code 13: 1 byte.
    Year,
    /// TIMESTAMP2, code 17, with 0 to 6 digits of a second's fraction.
    Timestamp2 { fraction: u8 },
    /// DATETIME2, code 18, with 0 to 6 digits of a second's fraction.
    Datetime2 { fraction: u8 },
    /// TIME2, code 19, with 0 to 6 digits of a second's fraction.
    Time2 { fraction: u8 },
    /// STRING, code 254, with the real type 254 (CHAR), of at most this many bytes, 0 to 1,023.
    Char { maximum: u16 },
    /// STRING, code 254, with the real type 247 (ENUM): 1 or 2 bytes.
    Enum { width: u8 },
    /// STRING, code 254, with the real type 248 (SET): 1 to 8 bytes.
    Set { width: u8 },
}

/// A column type whose metadata is in range.
#[derive(Clone, Copy, Debug, PartialEq, Eq)]
pub struct ColumnType {
    pub kind: ColumnKind,
    /// How its values are stored in a row, which the kind determines.
    pub(crate) storage: Shape,
    ghost lawful: { IsTrue (is_lawful kind) },
    ghost stored: { storage ≡ shape kind },
    ghost readable: { IsTrue (is_readable storage) },
}

impl ColumnType {
    /// The type, exactly where its metadata is in range.
    ///
    /// Clauses: `lawful`, `kind`: the above.
    pub fn new(kind: ColumnKind) -> Option<ColumnType>
        ensures lawful { IsSome result ↔ IsTrue (is_lawful kind) }
        ensures kind { IfSome result (λ column. column.kind ≡ kind) }
    {
        let lawful = match kind {
            ColumnKind::Blob { prefix } => (1..=4).contains(&prefix),
            ColumnKind::Bit { bits } => (1..=64).contains(&bits),
            ColumnKind::NewDecimal { precision, scale } => {
                (1..=65).contains(&precision) && scale <= 30 && scale <= precision
            }
            ColumnKind::Timestamp2 { fraction }
            | ColumnKind::Datetime2 { fraction }
            | ColumnKind::Time2 { fraction } => fraction <= 6,
            ColumnKind::Char { maximum } => maximum < 1024,
            ColumnKind::Enum { width } => (1..=2).contains(&width),
            ColumnKind::Set { width } => (1..=8).contains(&width),
            _ => true,
        };
        if lawful {
            Some(ColumnType::of(kind))
        } else {
            None
        }
    }

    /// The type of a kind whose metadata is in range.
    pub(crate) fn of(kind: ColumnKind) -> ColumnType
        requires { IsTrue (is_lawful kind) }
        ensures { result.kind ≡ kind }
    {
        ColumnType {
            kind,
            storage: shape_of_kind(kind),
        }
    }

    /// The type's code in a table map. CHAR, ENUM and SET share one.
    pub(crate) fn code(self) -> u8
        ensures { result ≡ type_code self.kind }
    {
        match self.kind {
            ColumnKind::Tiny => codes::TINY,
            ColumnKind::Short => codes::SHORT,
            ColumnKind::Long => codes::LONG,
            ColumnKind::Float => codes::FLOAT,
            ColumnKind::Double => codes::DOUBLE,
            ColumnKind::LongLong => codes::LONGLONG,
            ColumnKind::Int24 => codes::INT24,
            ColumnKind::Date => codes::DATE,
            ColumnKind::Year => codes::YEAR,
            ColumnKind::Varchar { .. } => codes::VARCHAR,
            ColumnKind::Bit { .. } => codes::BIT,
            ColumnKind::Timestamp2 { .. } => codes::TIMESTAMP2,
            ColumnKind::Datetime2 { .. } => codes::DATETIME2,
            ColumnKind::Time2 { .. } => codes::TIME2,
            ColumnKind::NewDecimal { .. } => codes::NEWDECIMAL,
            ColumnKind::Blob { .. } => codes::BLOB,
            ColumnKind::Char { .. } | ColumnKind::Enum { .. } | ColumnKind::Set { .. } =>
                codes::STRING,
        }
    }
}

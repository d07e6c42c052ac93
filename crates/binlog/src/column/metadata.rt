//! A column's metadata. MySQL Source Documentation, "Binlog Event", the page `binary_log::Table_map_event`.

ghost use Rattle.std.specs.Prelude.{◌≡◌, ℕ, ◌+◌, ◌<◌, List, [], ◌∷◌, not, IfOk, IfErr, MatchResult, Some, length, vec_len, vec_capacity, ◌≤◌};
ghost use Rattle.binlog.specs.ColumnCode as column_code;
ghost use Rattle.binlog.specs.Column.{type_code, metadata, is_lawful, IsColumn, metadata_size, metadata_fault, string_fault, real_type, string_length, when, column_fault};
ghost use Rattle.binlog.specs.declared.fault.EventFaultKind.TheVariants.{Metadata};
ghost use Rattle.gtid.specs.Appending.{AppendsBytes};

use crate::column::codes;
use crate::column::kind::{ColumnKind, ColumnType};
use crate::fault::EventFaultKind;

impl ColumnType {
    /// Reads the type of this code, whose metadata is at the front of the bytes, and returns it with the bytes after
    /// its metadata.
    ///
    /// The first of these is reported: a type that is not supported as `ColumnType`; metadata that does not fit the
    /// bytes as `Truncated`; metadata out of range as `Metadata`, or a STRING of a real type that is not supported as
    /// `ColumnType`.
    pub(crate) fn read(code: u8, bytes: &[u8]) -> Result<(ColumnType, &[u8]), EventFaultKind>
        ensures found { IfOk result (λ read. IsColumn read.0.kind code read.1.now bytes.now) }
        ensures only { (kind : ColumnKind) (rest : List ℕ) → IsColumn kind code rest bytes.now
            → MatchResult result (λ read. (read.0.kind ≡ kind) × (read.1.now ≡ rest)) (λ _. ⊥) }
        ensures fault { IfErr result (λ kind. column_fault code bytes.now ≡ Some kind) }
    {
        match metadata_size(code) {
            None => Err(EventFaultKind::ColumnType(code)),
            Some(0) => Ok((plain(code), bytes)),
            Some(1) => {
                let [first, rest @ ..] = bytes else {
                    return Err(EventFaultKind::Truncated);
                };
                Ok((by_byte(code, *first)?, rest))
            }
            Some(_) => {
                let [first, second, rest @ ..] = bytes else {
                    return Err(EventFaultKind::Truncated);
                };
                Ok((by_bytes(code, *first, *second)?, rest))
            }
        }
    }

    /// Appends the type's metadata.
    pub(crate) fn write_metadata(self, out: &mut Vec<u8>)
        requires { vec_len out.old + length (metadata self.kind) ≤ vec_capacity out.old }
        ensures { AppendsBytes out.old out.new (metadata self.kind) }
    {
        match self.kind {
            ColumnKind::Varchar { maximum } => {
                out.extend_from_slice(&maximum.to_le_bytes()).unwrap()
            }
            ColumnKind::Blob { prefix } => out.push(prefix).unwrap(),
            ColumnKind::Bit { bits } => out.extend_from_slice(&[bits % 8, bits / 8]).unwrap(),
            ColumnKind::NewDecimal { precision, scale } => {
                out.extend_from_slice(&[precision, scale]).unwrap()
            }
            ColumnKind::Float => out.push(4).unwrap(),
            ColumnKind::Double => out.push(8).unwrap(),
            ColumnKind::Timestamp2 { fraction }
            | ColumnKind::Datetime2 { fraction }
            | ColumnKind::Time2 { fraction } => out.push(fraction).unwrap(),
            ColumnKind::Char { maximum } => {
                out.extend_from_slice(&[
                    codes::STRING - 16 * (maximum / 256) as u8,
                    (maximum % 256) as u8,
                ])
                .unwrap()
            }
            ColumnKind::Enum { width } => { out.extend_from_slice(&[codes::ENUM, width]).unwrap() }
            ColumnKind::Set { width } => out.extend_from_slice(&[codes::SET, width]).unwrap(),
            ColumnKind::Tiny
            | ColumnKind::Short
            | ColumnKind::Int24
            | ColumnKind::Long
            | ColumnKind::LongLong
            | ColumnKind::Date
            | ColumnKind::Year => {}
        }
    }
}

/// How many bytes of metadata a supported type has.
#[tactic(auto, unfolding(crate::specs::Column::metadata_size))]
pub(crate) fn metadata_size(code: u8) -> Option<usize>
    ensures { result ≡ metadata_size code }
{
    match code {
        codes::TINY
        | codes::SHORT
        | codes::LONG
        | codes::LONGLONG
        | codes::INT24
        | codes::DATE
        | codes::YEAR => Some(0),
        codes::FLOAT
        | codes::DOUBLE
        | codes::TIMESTAMP2
        | codes::DATETIME2
        | codes::TIME2
        | codes::BLOB => Some(1),
        codes::VARCHAR | codes::BIT | codes::NEWDECIMAL | codes::STRING => Some(2),
        _ => None,
    }
}

/// The type of a code without metadata.
fn plain(code: u8) -> ColumnType
    requires { metadata_size code ≡ Some 0 }
    ensures code { type_code result.kind ≡ code }
    ensures metadata { metadata result.kind ≡ [] }
{
    match code {
        codes::TINY => ColumnType::of(ColumnKind::Tiny),
        codes::SHORT => ColumnType::of(ColumnKind::Short),
        codes::LONG => ColumnType::of(ColumnKind::Long),
        codes::LONGLONG => ColumnType::of(ColumnKind::LongLong),
        codes::INT24 => ColumnType::of(ColumnKind::Int24),
        codes::DATE => ColumnType::of(ColumnKind::Date),
        codes::YEAR => ColumnType::of(ColumnKind::Year),
        _ => unreachable!(),
    }
}

/// The type of a code with one byte of metadata.
fn by_byte(code: u8, first: u8) -> Result<ColumnType, EventFaultKind>
    requires { metadata_size code ≡ Some 1 }
    ensures code { IfOk result (λ column. type_code column.kind ≡ code) }
    ensures metadata { IfOk result (λ column. metadata column.kind ≡ first ∷ []) }
    ensures fault { IfErr result (λ kind. (second : ℕ)
        → metadata_fault code first second ≡ Some kind) }
{
    match code {
        codes::FLOAT if first == 4 => Ok(ColumnType::of(ColumnKind::Float)),
        codes::DOUBLE if first == 8 => Ok(ColumnType::of(ColumnKind::Double)),
        codes::FLOAT | codes::DOUBLE => Err(EventFaultKind::Metadata),
        codes::TIMESTAMP2 => in_range(ColumnKind::Timestamp2 { fraction: first }),
        codes::DATETIME2 => in_range(ColumnKind::Datetime2 { fraction: first }),
        codes::TIME2 => in_range(ColumnKind::Time2 { fraction: first }),
        codes::BLOB => in_range(ColumnKind::Blob { prefix: first }),
        _ => unreachable!(),
    }
}

/// The type of a code with two bytes of metadata.
fn by_bytes(code: u8, first: u8, second: u8) -> Result<ColumnType, EventFaultKind>
    requires { metadata_size code ≡ Some 2 }
    ensures code { IfOk result (λ column. type_code column.kind ≡ code) }
    ensures metadata { IfOk result (λ column. metadata column.kind ≡ first ∷ second ∷ []) }
    ensures fault { IfErr result (λ kind. metadata_fault code first second ≡ Some kind) }
{
    match code {
        codes::VARCHAR => Ok(ColumnType::of(ColumnKind::Varchar {
            maximum: u16::from_le_bytes([first, second]),
        })),
        codes::BIT if first > 7 => Err(EventFaultKind::Metadata),
        codes::BIT if second > 8 => Err(EventFaultKind::Metadata),
        codes::BIT => in_range(ColumnKind::Bit {
            bits: 8 * second + first,
        }),
        codes::NEWDECIMAL => in_range(ColumnKind::NewDecimal {
            precision: first,
            scale: second,
        }),
        codes::STRING => string(first, second),
        _ => unreachable!(),
    }
}

/// The type of a STRING by its metadata: the real type in the first byte, with bits 8 and 9 of the length flipped in
/// its bits 4 and 5, and the length's low byte.
fn string(first: u8, second: u8) -> Result<ColumnType, EventFaultKind>
    ensures code { IfOk result (λ column. type_code column.kind ≡ column_code.string) }
    ensures metadata { IfOk result (λ column. metadata column.kind ≡ first ∷ second ∷ []) }
    ensures fault { IfErr result (λ kind. string_fault (real_type first)
        (string_length first second) ≡ Some kind) }
{
    let size = u16::from(second) + 16 * u16::from((first & 0x30) ^ 0x30);
    match first | 0x30 {
        codes::STRING => Ok(ColumnType::of(ColumnKind::Char { maximum: size })),
        codes::ENUM => match u8::try_from(size) {
            Ok(width) => in_range(ColumnKind::Enum { width }),
            Err(_) => Err(EventFaultKind::Metadata),
        },
        codes::SET => match u8::try_from(size) {
            Ok(width) => in_range(ColumnKind::Set { width }),
            Err(_) => Err(EventFaultKind::Metadata),
        },
        real => Err(EventFaultKind::ColumnType(real)),
    }
}

/// The type, if its metadata is in range.
fn in_range(kind: ColumnKind) -> Result<ColumnType, EventFaultKind>
    ensures ok { IfOk result (λ column. column.kind ≡ kind) }
    ensures err { IfErr result (λ fault. when (not (is_lawful kind)) Metadata ≡ Some fault) }
{
    ColumnType::new(kind).ok_or(EventFaultKind::Metadata)
}

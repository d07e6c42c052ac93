//! The fields of a line.

ghost use Rattle.std.specs.Prelude.{◌≡◌, ◌↔◌, ◌++◌, ◌∷◌, [], List, ℕ, Some, Option, IsTrue, IfSome, IfNone, IfOk, IfErr, MatchResult, length, is_some, string_bytes};
ghost use Rattle.std.specs.Str.{is_utf8};
ghost use Rattle.columns.specs.Word.{Are, Ends};
ghost use Rattle.columns.specs.Escapes.{escaped};
ghost use Rattle.columns.specs.ColumnTypes.{TypeValue, type_value, column_type_text, IsType};
ghost use Rattle.columns.specs.Lines.{is_inner, is_separator, field, set_text, option_bytes, ColumnValue, column_text, column_value, IsName, FitsSet, IsSet, IsDescribedColumn};
ghost use Rattle.columns.specs.LineFaults.{IsFieldFault, IsFaultOf, IsColumnFault, a_name, a_type, a_key};
ghost use Rattle.columns.specs.Lines as spec;
ghost use Rattle.columns.specs.Keys.{key_text};
ghost use Rattle.columns.specs.declared.column.Key.{Key as KeyValue};
ghost use Rattle.columns.specs.declared.escape.Layer.TheVariants.{Client};
ghost use Rattle.columns.specs.declared.fields.LineFault.TheVariants.{Memory};

use crate::column::{Column, Key};
use crate::column_type::{ColumnType, ColumnTypeFault};
use crate::escape::{EscapeFault, unescape};
use crate::member::is_text;
use crate::type_name::TypeName;
use crate::word::after_byte;
use std::alloc::{AllocError, AllocFailed, Global};
use thiserror::Error;

/// What stands for no character set.
const NONE: &[u8] = b"NULL";

const TAB: u8 = b'\t';

const NEWLINE: u8 = b'\n';

/// What is wrong with a line.
#[derive(Clone, Copy, Debug, PartialEq, Eq, Error)]
pub enum LineFault {
    /// There are not six fields with tabs between.
    #[error("not six fields with tabs between")]
    Fields,
    /// The text ends before the newline at the end of the line.
    #[error("the last line has no newline at its end")]
    Unended,
    /// A field has a NUL, or a backslash that no `t`, `n`, `0` or backslash follows.
    #[error("a field with a NUL, or a backslash without t, n, 0 or a backslash after it")]
    Escape,
    /// The name of the schema, the table, the column or the character set is empty or not UTF-8.
    #[error("a name that is empty or not UTF-8")]
    Name,
    /// The type is none.
    #[error("the type: {0}")]
    Kind(ColumnTypeFault),
    /// A CHAR, VARCHAR or TEXT has no character set, or another type than these, ENUM and SET has one.
    #[error("a character set is missing, or given for a type that has none")]
    CharacterSet,
    /// The key is not empty, `PRI`, `UNI` or `MUL`. Where the lines end with CR LF, the carriage return is part of the key.
    #[error("the key is not empty, PRI, UNI or MUL, or the line ends with a carriage return")]
    Key,
    /// The table has a column of this name already.
    #[error("a second column of this name in its table")]
    ColumnTwice,
    /// Another table stands between this line and those of its table before.
    #[error("the lines of its table do not stand together")]
    TableApart,
    /// There is no line.
    #[error("no line at all")]
    NoLine,
    /// An allocation was refused.
    #[error("out of memory")]
    Memory,
}

impl From<AllocError> for LineFault {
    ghost from_gives = { λ _ fault. fault ≡ Memory };

    fn from(_error: AllocError) -> LineFault {
        LineFault::Memory
    }
}

impl<T: Drop> From<AllocFailed<T>> for LineFault {
    ghost from_gives = { λ _ fault. fault ≡ Memory };

    fn from(_error: AllocFailed<T>) -> LineFault {
        LineFault::Memory
    }
}

/// What stands in front of the first tab or newline, and the rest from there on.
pub fn split_field(text: &[u8]) -> (&[u8], &[u8])
    ensures whole { text.now ≡ result.0.now ++ result.1.now }
    ensures inner { Are is_inner result.0.now }
    ensures end { Ends is_inner result.1.now }
{
    for (i, byte) in text.iter().enumerate() {
        if !stands_within(*byte) {
            return text.split_at(i);
        }
    }
    (text, &[])
}

fn stands_within(byte: u8) -> bool
    ensures { result ≡ spec.is_inner byte }
{
    !(byte == TAB || byte == NEWLINE)
}

/// Reads the field that the text begins with, and the byte that ends it: the field's bytes, and what follows.
pub(crate) fn read_field(alloc: Global, end: u8, text: &[u8]) -> Result<(Vec<u8>, &[u8]), LineFault>
    ensures found { IfOk result (λ read. text.now ≡ field read.0.items end ++ read.1.now) }
    ensures fault { IfErr result (IsFieldFault end text.now) }
    ensures only { (bytes rest : List ℕ) → IsTrue (is_separator end)
        → text.now ≡ field bytes end ++ rest → MatchResult result (λ read. (read.0.items ≡ bytes)
        × (read.1.now ≡ rest)) (λ fault. fault ≡ LineFault.Memory) }
{
    let (field, behind) = split_field(text);
    let Some(rest) = after_byte(end, behind) else {
        if behind.is_empty() {
            return Err(LineFault::Unended);
        }
        return Err(LineFault::Fields);
    };
    match unescape(alloc, field) {
        Ok(bytes) => Ok((bytes, rest)),
        Err(EscapeFault::Escape(_)) => Err(LineFault::Escape),
        Err(EscapeFault::Memory) => Err(LineFault::Memory),
    }
}

/// Reads a field that is a name, and the tab after it.
#[tactic(auto, using(crate::proofs::LineFaults::of_name))]
pub(crate) fn read_name(alloc: Global, text: &[u8]) -> Result<(String, &[u8]), LineFault>
    ensures found { IfOk result (λ read. text.now ≡ field (string_bytes read.0) 9 ++ read.1.now) }
    ensures fault { IfErr result (IsFaultOf a_name text.now) }
    ensures name { IfOk result (λ read. IsName (string_bytes read.0)) }
    ensures only { (name rest : List ℕ) → IsName name → text.now ≡ field name 9 ++ rest
        → MatchResult result (λ read. (string_bytes read.0 ≡ name)
        × (read.1.now ≡ rest)) (λ fault. fault ≡ LineFault.Memory) }
{
    let (bytes, rest) = read_field(alloc, TAB, text)?;
    let Some(name) = name_of(bytes) else {
        return Err(LineFault::Name);
    };
    Ok((name, rest))
}

/// The name of these bytes, if they are one.
fn name_of(bytes: Vec<u8>) -> Option<String>
    ensures found { IfSome result (λ name. string_bytes name ≡ bytes.items) }
    ensures name { IfSome result (λ name. IsName (string_bytes name)) }
    ensures none { IfNone result (IsName bytes.items → ⊥) }
{
    if bytes.is_empty() {
        return None;
    }
    if !is_text(&bytes) {
        return None;
    }
    match String::from_utf8(bytes) {
        Ok(name) => Some(name),
        Err(_) => None,
    }
}

/// Reads the field of a type, and the tab after it.
#[tactic(auto, using(crate::proofs::LineFaults::of_type))]
fn read_kind(alloc: Global, text: &[u8]) -> Result<(ColumnType, &[u8]), LineFault>
    ensures found { IfOk result (λ read. text.now
        ≡ field (column_type_text (type_value read.0)) 9 ++ read.1.now) }
    ensures fault { IfErr result (IsFaultOf a_type text.now) }
    ensures lawful { IfOk result (λ read. IsType (type_value read.0)) }
    ensures only { (value : TypeValue) (rest : List ℕ) → IsType value
        → text.now ≡ field (column_type_text value) 9 ++ rest
        → MatchResult result (λ read. (type_value read.0 ≡ value)
        × (read.1.now ≡ rest)) (λ fault. fault ≡ LineFault.Memory) }
{
    let (bytes, rest) = read_field(alloc, TAB, text)?;
    match ColumnType::read(alloc, &bytes) {
        Ok(kind) => Ok((kind, rest)),
        Err(ColumnTypeFault::Memory) => Err(LineFault::Memory),
        Err(fault) => Err(LineFault::Kind(fault)),
    }
}

/// Reads the field of a character set, or the word for none, and the tab after it.
fn read_set(alloc: Global, text: &[u8]) -> Result<(Option<String>, &[u8]), LineFault>
    ensures found { IfOk result (λ read. text.now
        ≡ field (set_text (option_bytes read.0)) 9 ++ read.1.now) }
    ensures fault { IfErr result (IsFaultOf a_name text.now) }
    ensures lawful { IfOk result (λ read. IsSet (option_bytes read.0)) }
    ensures only { (set : Option (List ℕ)) (rest : List ℕ) → IsSet set
        → text.now ≡ field (set_text set) 9 ++ rest
        → MatchResult result (λ read. (option_bytes read.0 ≡ set)
        × (read.1.now ≡ rest)) (λ fault. fault ≡ LineFault.Memory) }
{
    match read_name(alloc, text) {
        Ok((name, rest)) => {
            if name.as_bytes() == NONE {
                return Ok((None, rest));
            }
            Ok((Some(name), rest))
        }
        Err(fault) => Err(fault),
    }
}

/// Reads the field of a key, and the newline after it.
#[tactic(auto, using(crate::proofs::LineFaults::of_key))]
fn read_key(alloc: Global, text: &[u8]) -> Result<(Key, &[u8]), LineFault>
    ensures found { IfOk result (λ read. text.now ≡ field (key_text read.0) 10 ++ read.1.now) }
    ensures fault { IfErr result (IsFaultOf a_key text.now) }
    ensures only { (key : KeyValue) (rest : List ℕ) → text.now ≡ field (key_text key) 10 ++ rest
        → MatchResult result (λ read. (read.0 ≡ key)
        × (read.1.now ≡ rest)) (λ fault. fault ≡ LineFault.Memory) }
{
    let (bytes, rest) = read_field(alloc, NEWLINE, text)?;
    let Some(key) = Key::find(&bytes) else {
        return Err(LineFault::Key);
    };
    Ok((key, rest))
}

/// Reads the last four fields of a line: the column, and what follows the line.
#[tactic(auto, using(crate::proofs::LineFaults::at_name, crate::proofs::LineFaults::at_type, crate::proofs::LineFaults::at_set, crate::proofs::LineFaults::at_key))]
pub(crate) fn read_column(alloc: Global, text: &[u8]) -> Result<(Column, &[u8]), LineFault>
    ensures found { IfOk result (λ read. text.now
        ≡ column_text (column_value read.0) ++ read.1.now) }
    ensures fault { IfErr result (IsColumnFault text.now) }
    ensures lawful { IfOk result (λ read. IsDescribedColumn (column_value read.0)) }
    ensures only { (column : ColumnValue) (rest : List ℕ) → IsDescribedColumn column
        → text.now ≡ column_text column ++ rest → MatchResult result (λ read. (column_value read.0
        ≡ column) × (read.1.now ≡ rest)) (λ fault. fault ≡ LineFault.Memory) }
{
    let (name, rest) = read_name(alloc, text)?;
    let (kind, rest) = read_kind(alloc, rest)?;
    let (character_set, rest) = read_set(alloc, rest)?;
    let (key, rest) = read_key(alloc, rest)?;
    if !fits_set(&kind, character_set.is_some()) {
        return Err(LineFault::CharacterSet);
    }
    let column = Column {
        name,
        kind,
        character_set,
        key,
    };
    Ok((column, rest))
}

/// Whether a column of this type may have a character set, or may have none.
fn fits_set(kind: &ColumnType, given: bool) -> bool
    ensures { IsTrue result ↔ FitsSet (type_value kind.now) given }
{
    match kind {
        ColumnType::Scalar(made) => given == has_set(made.name),
        ColumnType::Enum(_) => true,
        ColumnType::Set(_) => true,
    }
}

/// Whether a column of a type of this name has a character set.
fn has_set(name: TypeName) -> bool
    ensures { result ≡ spec.has_set name }
{
    matches!(
        name,
        TypeName::Char
            | TypeName::Varchar
            | TypeName::Tinytext
            | TypeName::Text
            | TypeName::Mediumtext
            | TypeName::Longtext
    )
}

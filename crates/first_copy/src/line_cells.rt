//! The cells of the fields of a line.

ghost use Rattle.std.specs.Prelude.{◌≡◌, ◌≢◌, ◌+◌, ◌++◌, ◌∷◌, [], ℕ, List, ⊤, IfOk, IfErr, OnOk, MatchResult, vec_len, length, drop, ◌<◌, ◌^◌};
ghost use Rattle.binlog.specs.Cell.{CellValue};
ghost use Rattle.columns.specs.Word.{Are};
ghost use Rattle.columns.specs.Lines.{is_inner, is_separator};
ghost use Rattle.first_copy.specs.CellPlaces.{places_size, placed_cells};
ghost use Rattle.first_copy.specs.FieldSteps.{IsPut, IsFieldRead};
ghost use Rattle.first_copy.specs.RowFields.{set_of_name, field_end, IsFieldOf, AreFields, IsNoValue, IsWrongField, IsWrongAmong};
ghost use Rattle.first_copy.specs.declared.fault.RowFault.TheVariants as row;
ghost use Rattle.columns.specs.declared.value.field_fault.FieldFault.TheVariants as value;
ghost use Rattle.std.specs.Prelude.{IsTrue};

use crate::fault::RowFault;
use crate::places::Place;
use columns::{
    CharacterSet, Column, FieldFault, WrittenCell, after_byte, is_null_field, split_field,
};
use std::alloc::Global;

const TAB: u8 = b'\t';

const NEWLINE: u8 = b'\n';

/// Reads a field for each column, with tabs between and a newline at the end: where their cells stand, and the bytes of
/// these.
pub(crate) fn read_fields(
    alloc: Global,
    columns: &[Column],
    text: &[u8],
    places: &mut Vec<Place>,
    bytes: &mut Vec<u8>,
) -> Result<(), RowFault>
    requires places { places.old.items ≡ [] }
    requires bytes { bytes.old.items ≡ [] }
    ensures size { OnOk result (places_size places.new.items ≡ length bytes.new.items) }
    ensures found { OnOk result (AreFields columns.now text.now
        (placed_cells places.new.items bytes.new.items)) }
    ensures only { (cells : List CellValue) → AreFields columns.now text.now cells
        → MatchResult result (λ _. ⊤) (λ fault. fault ≡ row.Memory) }
    ensures fault { IfErr result (IsWrongAmong 1 columns.now text.now) }
{
    let mut rest = text;
    for (i, column) in columns.iter().enumerate() {
        rest = read_field(alloc, column, end_at(columns, i), rest, places, bytes)?;
    }
    if rest.len() > 0 {
        return Err(RowFault::Fields);
    }
    Ok(())
}

/// The byte that ends the field of the column at this place.
fn end_at(columns: &[Column], place: usize) -> u8
    requires { place < length columns.now }
    ensures { result ≡ field_end (drop (place + 1) columns.now) }
{
    if place + 1 < columns.len() {
        return TAB;
    }
    NEWLINE
}

/// Reads the field of a column that the text begins with, and the byte that ends it: what follows.
fn read_field<'a>(
    alloc: Global,
    column: &Column,
    end: u8,
    text: &'a [u8],
    places: &mut Vec<Place>,
    bytes: &mut Vec<u8>,
) -> Result<&'a [u8], RowFault>
    ensures found { IfOk result (λ rest. IsFieldRead column.now end text.now rest.now
        places.old.items places.new.items bytes.old.items bytes.new.items) }
    ensures only { (field rest : List ℕ) (cell : CellValue) → IsTrue (is_separator end)
        → IsFieldOf column.now field cell → text.now ≡ field ++ end ∷ rest
        → MatchResult result (λ read. read.now ≡ rest) (λ fault. fault ≡ row.Memory) }
    ensures fault { IfErr result (IsWrongField (vec_len places.old + 1) column.now end text.now) }
{
    let (field, behind) = split_field(text);
    let Some(rest) = after_byte(end, behind) else {
        if behind.is_empty() {
            return Err(RowFault::Unended);
        }
        return Err(RowFault::Fields);
    };
    let place = match put_field(alloc, column, field, bytes) {
        Ok(place) => place,
        Err(FieldFault::Text) => return Err(wrong_value(places.len(), FieldFault::Text)),
        Err(FieldFault::Range) => return Err(wrong_value(places.len(), FieldFault::Range)),
        Err(FieldFault::Memory) => return Err(RowFault::Memory),
    };
    places.push(place)?;
    Ok(rest)
}

/// The fault of a field after so many others.
fn wrong_value(before: usize, fault: FieldFault) -> RowFault
    requires { before < 2 ^ 63 }
    ensures { result ≡ row.Field (before + 1) fault }
{
    RowFault::Field {
        column: before + 1,
        fault,
    }
}

/// Puts the cell of a field at the end of the bytes.
fn put_field(
    alloc: Global,
    column: &Column,
    field: &[u8],
    bytes: &mut Vec<u8>,
) -> Result<Place, FieldFault>
    requires { Are is_inner field.now }
    ensures found { IfOk result (λ place. IsPut column.now field.now place
        bytes.old.items bytes.new.items) }
    ensures only { (cell : CellValue) → IsFieldOf column.now field.now cell →
        MatchResult result (λ _. ⊤) (λ fault. fault ≡ value.Memory) }
    ensures fault { IfErr result (λ fault. fault ≢ value.Memory
        → IsNoValue column.now field.now fault) }
{
    if is_null_field(field) {
        return Ok(Place::Null);
    }
    let start = bytes.len();
    match column.kind.write_field(set_of(column), alloc, field, bytes) {
        Ok(WrittenCell::Number { value, width }) => Ok(Place::Number { value, width }),
        Ok(WrittenCell::Bytes) => Ok(Place::Bytes(bytes.len() - start)),
        Err(fault) => Err(fault),
    }
}

/// The character set of a column.
fn set_of(column: &Column) -> CharacterSet
    ensures { result ≡ set_of_name column.now.character_set }
{
    match &column.character_set {
        Some(name) => CharacterSet::of(name.as_str()),
        None => CharacterSet::Other,
    }
}

//! The cell of the value that a field of a line is, in a column with members too.

ghost use Rattle.std.specs.Prelude.{◌≡◌, ◌≤◌, ℕ, List, ⊤, IfOk, IfErr, OnErr, MatchResult};
ghost use Rattle.std.specs.Str.Parse.{IsNumeral};
ghost use Rattle.binlog.specs.Cell.{CellValue};
ghost use Rattle.columns.specs.WrittenCells.{IsWritten};
ghost use Rattle.columns.specs.FieldCells.{IsCellFieldFault};
ghost use Rattle.columns.specs.ColumnFields.{IsOrdinalFieldCell, IsSetFieldCell, IsColumnFieldCell, IsColumnFieldForm};
ghost use Rattle.columns.specs.FieldWrites.{WritesField};
ghost use Rattle.columns.specs.declared.value.field_fault.FieldFault.TheVariants as fault;

use crate::character_set::CharacterSet;
use crate::column_type::ColumnType;
use crate::field_cell::write_any;
use crate::value::choice::{ordinal_width, set_width};
use crate::value::field_fault::FieldFault;
use crate::value::field_numbers::{read_ordinal_field, read_set_field};
use crate::written_cell::WrittenCell;
use std::alloc::Global;

impl ColumnType {
    /// Writes the cell that a server sends for the value that a field of a line is, in a column of this type and of this
    /// character set: as [`DataType::write_field`](crate::DataType::write_field) does, and of an ENUM the ordinal of its
    /// member, of a SET the number of its bits, which the field has in decimal digits, and which are answered. `Text` if the
    /// field is not of the form that the type has, `Range` if it is, and is no value of the type, `Memory` if bytes lack the
    /// room. An error leaves the vector as it was.
    pub fn write_field(
        &self,
        set: CharacterSet,
        alloc: Global,
        field: &[u8],
        out: &mut Vec<u8>,
    ) -> Result<WrittenCell, FieldFault>
        ensures found { IfOk result (λ made. (cell : CellValue) ×
            IsWritten made out.old.items out.new.items cell ×
            IsColumnFieldCell self.now set field.now cell) }
        ensures only { (cell : CellValue) → IsColumnFieldCell self.now set field.now cell →
            MatchResult result (λ _. ⊤) (λ wrong. wrong ≡ fault.Memory) }
        ensures err { OnErr result (out.new.items ≡ out.old.items) }
        ensures fault { IfErr result (IsCellFieldFault (IsColumnFieldForm self.now field.now)) }
    {
        write_column(self, set, alloc, field, out)
    }
}

/// Writes the cell of a field in a column of this type.
fn write_column(
    kind: &ColumnType,
    set: CharacterSet,
    alloc: Global,
    field: &[u8],
    out: &mut Vec<u8>,
) -> Result<WrittenCell, FieldFault>
    ensures { WritesField (IsColumnFieldCell kind.now set field.now)
        (IsColumnFieldForm kind.now field.now) result out.old.items out.new.items }
{
    match kind {
        ColumnType::Scalar(made) => write_any(*made, set, alloc, field, out),
        ColumnType::Enum(list) => ordinal_of(list.count(), field),
        ColumnType::Set(list) => choices_of(list.count(), field),
    }
}

/// The cell of the field of an ENUM with so many members.
fn ordinal_of(members: u16, field: &[u8]) -> Result<WrittenCell, FieldFault>
    ensures { (old : List ℕ) →
        WritesField (IsOrdinalFieldCell members field.now) (IsNumeral 10 field.now)
        result old old }
{
    match read_ordinal_field(members, field) {
        Ok(ordinal) => Ok(WrittenCell::Number {
            value: u64::from(ordinal),
            width: ordinal_width(members),
        }),
        Err(wrong) => Err(wrong),
    }
}

/// The cell of the field of a SET with so many members.
fn choices_of(members: u8, field: &[u8]) -> Result<WrittenCell, FieldFault>
    requires { members ≤ 64 }
    ensures { (old : List ℕ) →
        WritesField (IsSetFieldCell members field.now) (IsNumeral 10 field.now)
        result old old }
{
    match read_set_field(members, field) {
        Ok(bits) => Ok(WrittenCell::Number {
            value: bits,
            width: set_width(members),
        }),
        Err(wrong) => Err(wrong),
    }
}

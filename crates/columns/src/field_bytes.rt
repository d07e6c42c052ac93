//! Bytes and NULL in the fields of lines.

ghost use Rattle.std.specs.Prelude.{◌≡◌, ◌<◌, ◌↔◌, ℕ, List, Ok, IfOk, IfErr, IsTrue, codes, length};
ghost use Rattle.hex.specs.Hex.{decode_of};
ghost use Rattle.columns.specs.Fields.{IsHexFault};

use crate::value::field_fault::FieldFault;
use hex::FromHexError;
use std::alloc::Global;

/// The bytes whose hexadecimal digits a field is, two for each byte, the higher first, in capitals or not. The whole field
/// is read, and an empty one is no bytes. `Text` if it is none. `Memory` comes only of a
/// field of an even number of bytes, and not of an empty one.
pub fn read_hex_field(alloc: Global, field: &[u8]) -> Result<Vec<u8>, FieldFault>
    ensures found { IfOk result (λ bytes. decode_of field.now ≡ Ok bytes.items) }
    ensures fault { IfErr result (IsHexFault field.now) }
{
    if field.len() == 0 {
        return Ok(Vec::new(alloc));
    }
    match hex::decode(alloc, field) {
        Ok(bytes) => Ok(bytes),
        Err(FromHexError::OutOfMemory) => Err(FieldFault::Memory),
        Err(_) => Err(FieldFault::Text),
    }
}

/// Whether a field is NULL: these four letters, which are no number, no date, no time and no hexadecimal digits.
pub fn is_null_field(field: &[u8]) -> bool
    ensures { IsTrue result ↔ (field.now ≡ codes "NULL") }
{
    field == b"NULL".as_slice()
}

//! The cells of FLOAT and DOUBLE.

ghost use Rattle.std.specs.Prelude.{◌≡◌, ◌<◌, ◌^◌, ℕ, length, IsTrue, IfOk, IfErr, IfSome, IfNone, Ok, to_bits, from_bits};
ghost use Rattle.std.specs.Float.{float_is_finite, binary32, binary64};
ghost use Rattle.byteorder.specs.Endian.{little_bytes, little_number};
ghost use Rattle.binlog.specs.Cell.{cell_value, bytes_cell};
ghost use Rattle.columns.specs.Cells.{bytes_fault};
ghost use Rattle.columns.specs.RealCells.{is_float, is_double, IsFloatCell, IsDoubleCell, IsFloatValue, IsDoubleValue};

use crate::value::fault::CellFault;
use binlog::Cell;
use byteorder::{ByteOrder, LittleEndian};
use std::num::{f64_to_bits_with_nan, nearest_f64_to_f32};

/// The FLOAT that a cell stands for: four bytes, the lowest first. Infinities, and what is no number, are out of range.
pub fn read_float(cell: Cell<'_>) -> Result<f32, CellFault>
    ensures cell { IfOk result (λ value. IsFloatCell (cell_value cell.entry)) }
    ensures finite { IfOk result (λ value. IsTrue (float_is_finite value)) }
    ensures bits { IfOk result (λ value. IsFloatValue value (cell_value cell.entry)) }
    ensures found { (bits : ℕ) → bits < 2 ^ 32 → cell_value cell.entry
        ≡ bytes_cell (little_bytes 4 bits) → IsTrue (is_float bits)
        → result ≡ Ok (from_bits binary32 bits) }
    ensures none { IfErr result (λ _. IsFloatCell (cell_value cell.entry) → ⊥) }
    ensures fault { IfErr result (λ fault. fault ≡ bytes_fault 4 (cell_value cell.entry)) }
{
    let Cell::Bytes(bytes) = cell else {
        return Err(CellFault::Kind);
    };
    if bytes.len() != 4 {
        return Err(CellFault::Size(bytes.len()));
    }
    let bits = read_four(bytes);
    if bits % 0x8000_0000 >= 0x7f80_0000 {
        return Err(CellFault::Range);
    }
    Ok(f32::from_bits(bits))
}

/// The DOUBLE that a cell stands for: eight bytes, the lowest first. Infinities, and what is no number, are out of range.
pub fn read_double(cell: Cell<'_>) -> Result<f64, CellFault>
    ensures cell { IfOk result (λ value. IsDoubleCell (cell_value cell.entry)) }
    ensures finite { IfOk result (λ value. IsTrue (float_is_finite value)) }
    ensures bits { IfOk result (λ value. IsDoubleValue value (cell_value cell.entry)) }
    ensures found { (bits : ℕ) → bits < 2 ^ 64 → cell_value cell.entry
        ≡ bytes_cell (little_bytes 8 bits) → IsTrue (is_double bits)
        → result ≡ Ok (from_bits binary64 bits) }
    ensures none { IfErr result (λ _. IsDoubleCell (cell_value cell.entry) → ⊥) }
    ensures fault { IfErr result (λ fault. fault ≡ bytes_fault 8 (cell_value cell.entry)) }
{
    let Cell::Bytes(bytes) = cell else {
        return Err(CellFault::Kind);
    };
    if bytes.len() != 8 {
        return Err(CellFault::Size(bytes.len()));
    }
    let bits = read_eight(bytes);
    if bits % 0x8000_0000_0000_0000 >= 0x7ff0_0000_0000_0000 {
        return Err(CellFault::Range);
    }
    Ok(f64::from_bits(bits))
}

/// The number that four bytes are, the lowest first.
fn read_four(bytes: &[u8]) -> u32
    requires { length bytes.now ≡ 4 }
    ensures number { result ≡ little_number 4 bytes.now }
    ensures bytes { bytes.now ≡ little_bytes 4 result }
{
    LittleEndian::read_u32(bytes)
}

/// The number that eight bytes are, the lowest first.
fn read_eight(bytes: &[u8]) -> u64
    requires { length bytes.now ≡ 8 }
    ensures number { result ≡ little_number 8 bytes.now }
    ensures bytes { bytes.now ≡ little_bytes 8 result }
{
    LittleEndian::read_u64(bytes)
}

/// The bytes of a FLOAT in a cell.
pub fn float_bytes(float: f32) -> [u8; 4]
    requires { IsTrue (float_is_finite float) }
    ensures bytes { result ≡ little_bytes 4 (to_bits binary32 float) }
    ensures cell { IsFloatValue float (bytes_cell result) }
{
    float.to_le_bytes()
}

/// The bytes of a DOUBLE in a cell.
pub fn double_bytes(double: f64) -> [u8; 8]
    requires { IsTrue (float_is_finite double) }
    ensures bytes { result ≡ little_bytes 8 (to_bits binary64 double) }
    ensures cell { IsDoubleValue double (bytes_cell result) }
{
    double.to_le_bytes()
}

/// The FLOAT of the same value as a DOUBLE, if there is one.
pub(crate) fn narrow(value: f64) -> Option<f32>
    requires { IsTrue (float_is_finite value) }
    ensures some { IfSome result (λ found. found ≡ value) }
    ensures none { IfNone result ((bits : ℕ) → value ≡ from_bits binary32 bits → ⊥) }
{
    let found = nearest_f64_to_f32(value);
    if f64_to_bits_with_nan(f64::from(found)) != value.to_bits() {
        return None;
    }
    Some(found)
}

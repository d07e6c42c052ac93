//! BIT.

ghost use Rattle.std.specs.Prelude.{◌≡◌, ◌≤◌, ◌<◌, ◌+◌, ◌^◌, ◌++◌, ◌↔◌, ℕ, Ok, Some, IsTrue, length, vec_len, vec_capacity, IfOk, IfErr, IfSome, OnOk, OnErr};
ghost use Rattle.binlog.specs.Cell.{cell_value, bytes_cell};
ghost use Rattle.columns.specs.Cells.{bytes_fault};
ghost use Rattle.columns.specs.Bits.{bit_size, bit_bytes};

use crate::value::bytes::read_big;
use crate::value::fault::CellFault;
use binlog::Cell;
use std::alloc::AllocError;

/// The number that a cell stands for in a column of so many bits: as many bytes as they need, the highest first.
pub fn read_bits(bits: u8, cell: Cell<'_>) -> Result<u64, CellFault>
    requires some { 1 ≤ bits }
    requires few { bits ≤ 64 }
    ensures small { IfOk result (λ number. number < 2 ^ bits) }
    ensures found { IfOk result (λ number. cell_value cell.entry
        ≡ bytes_cell (bit_bytes bits number)) }
    ensures only { (number : ℕ) → number < 2 ^ bits
        → cell_value cell.entry ≡ bytes_cell (bit_bytes bits number) → result ≡ Ok number }
    ensures fault { IfErr result (λ fault. fault
        ≡ bytes_fault (bit_size bits) (cell_value cell.entry)) }
{
    let Cell::Bytes(bytes) = cell else {
        return Err(CellFault::Kind);
    };
    match of_bytes(bits, bytes) {
        Some(found) => Ok(found),
        None => Err(CellFault::of_bytes(bytes.len(), size_of_bits(bits))),
    }
}

/// The number of bytes.
fn of_bytes(bits: u8, bytes: &[u8]) -> Option<u64>
    requires some { 1 ≤ bits }
    requires few { bits ≤ 64 }
    ensures small { IfSome result (λ number. number < 2 ^ bits) }
    ensures found { IfSome result (λ number. bytes.now ≡ bit_bytes bits number) }
    ensures only { (number : ℕ) → number < 2 ^ bits → bytes.now ≡ bit_bytes bits number
        → result ≡ Some number }
{
    if bytes.len() != size_of_bits(bits) {
        return None;
    }
    let number = read_big(bytes);
    if bits == 64 {
        return Some(number);
    }
    if number >= power(bits) {
        return None;
    }
    Some(number)
}

/// Appends the bytes of the number in a cell of so many bits. The only error is that the vector lacks the room and cannot
/// grow. It leaves the vector as it was.
pub(crate) fn write_bits(number: u64, bits: u8, out: &mut Vec<u8>) -> Result<(), AllocError>
    requires some { 1 ≤ bits }
    requires few { bits ≤ 64 }
    ensures ok { OnOk result (out.new.items ≡ out.old.items ++ bit_bytes bits number) }
    ensures err { OnErr result (out.new.items ≡ out.old.items) }
    ensures full { OnErr result (vec_capacity out.old
        < vec_len out.old + length (bit_bytes bits number)) }
{
    let all = number.to_be_bytes();
    let (_, low) = all.split_at(8 - size_of_bits(bits));
    out.extend_from_slice(low)
}

/// Whether the number has at most so many bits.
pub(crate) fn has_bits(number: u64, bits: u8) -> bool
    requires { bits ≤ 64 }
    ensures { IsTrue result ↔ (number < 2 ^ bits) }
{
    bits == 64 || number < power(bits)
}

/// How many bytes so many bits take.
fn size_of_bits(bits: u8) -> usize
    ensures { result ≡ bit_size bits }
{
    (usize::from(bits) + 7) / 8
}

/// Two to this power.
fn power(bits: u8) -> u64
    requires { bits < 64 }
    ensures { result ≡ 2 ^ bits }
{
    2u64.pow(u32::from(bits))
}

//! ENUM and SET.

ghost use Rattle.std.specs.Prelude.{◌≡◌, ◌≤◌, ◌<◌, ◌^◌, ℕ, Ok, IfOk, IfErr};
ghost use Rattle.binlog.specs.Cell.{cell_value, number_cell};
ghost use Rattle.columns.specs.Choices.{ordinal_size, set_size, counted_fault};

use crate::value::fault::CellFault;
use binlog::Cell;

/// How many bytes the ordinal of a member takes in a column of an ENUM with so many members: one up to 255 of them.
pub fn ordinal_width(members: u16) -> u8
    ensures { result ≡ ordinal_size members }
{
    if members < 256 { 1 } else { 2 }
}

/// The ordinal that a cell stands for in a column of an ENUM with so many members: from 1 for the first one, and 0 for
/// the empty text that the server keeps in place of a value that is no member.
pub fn read_ordinal(members: u16, cell: Cell<'_>) -> Result<u16, CellFault>
    ensures few { IfOk result (λ ordinal. ordinal ≤ members) }
    ensures found { IfOk result (λ ordinal. cell_value cell.entry
        ≡ number_cell ordinal (ordinal_size members)) }
    ensures only { (ordinal : ℕ) → ordinal ≤ members
        → cell_value cell.entry ≡ number_cell ordinal (ordinal_size members) → result ≡ Ok ordinal }
    ensures fault { IfErr result (λ fault. fault
        ≡ counted_fault (ordinal_size members) (cell_value cell.entry)) }
{
    let value = number_of(ordinal_width(members), cell)?;
    if value > u64::from(members) {
        return Err(CellFault::Range);
    }
    Ok(value as u16)
}

/// How many bytes the bits of a SET with so many members take: as many as hold them, and eight for more than four.
pub fn set_width(members: u8) -> u8
    requires { members ≤ 64 }
    ensures { result ≡ set_size members }
{
    if members > 32 {
        return 8;
    }
    (members + 7) / 8
}

/// The bits that a cell stands for in a column of a SET with so many members, the lowest for the first one.
pub fn read_set(members: u8, cell: Cell<'_>) -> Result<u64, CellFault>
    requires { members ≤ 64 }
    ensures small { IfOk result (λ bits. bits < 2 ^ members) }
    ensures found { IfOk result (λ bits. cell_value cell.entry
        ≡ number_cell bits (set_size members)) }
    ensures only { (bits : ℕ) → bits < 2 ^ members
        → cell_value cell.entry ≡ number_cell bits (set_size members) → result ≡ Ok bits }
    ensures fault { IfErr result (λ fault. fault
        ≡ counted_fault (set_size members) (cell_value cell.entry)) }
{
    let value = number_of(set_width(members), cell)?;
    if members == 64 {
        return Ok(value);
    }
    if value >= 2u64.pow(u32::from(members)) {
        return Err(CellFault::Range);
    }
    Ok(value)
}

/// The number in a cell of so many bytes.
fn number_of(width: u8, cell: Cell<'_>) -> Result<u64, CellFault>
    ensures found { IfOk result (λ value. cell_value cell.entry ≡ number_cell value width) }
    ensures only { (value : ℕ) → cell_value cell.entry ≡ number_cell value width
        → result ≡ Ok value }
    ensures fault { IfErr result (λ fault. fault ≡ counted_fault width (cell_value cell.entry)) }
{
    let Cell::Number {
        value,
        width: found,
    } = cell
    else {
        return Err(CellFault::Kind);
    };
    if found != width {
        return Err(CellFault::Size(usize::from(found)));
    }
    Ok(value)
}

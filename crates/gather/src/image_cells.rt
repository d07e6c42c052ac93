//! The cells of a stored image.

ghost use Rattle.std.specs.Prelude.{◌≡◌, ◌+◌, ◌≤◌, length, IfSome};
ghost use Rattle.std.specs.Option.{option_map};
ghost use Rattle.std.specs.Iterator.{YieldsFirstBy, item_count};
ghost use Rattle.binlog.specs.Cell.{cell_value};
ghost use Rattle.gather.specs.ImageCells.{cell_front, number_front, bytes_front, front_value};

use binlog::Cell;
use byteorder::{ByteOrder, LittleEndian};
use std::marker::Model;

/// An iterator over the cells of a stored image, which borrow from its bytes. In contracts it is the list of those that
/// are still to come.
#[derive(Debug, Drop)]
pub struct ImageCells<'a> {
    pub(crate) left: &'a [u8],
}

impl<'a> Model for ImageCells<'a> {
    ghost use Rattle.std.specs.Prelude.{List};
    ghost use Rattle.binlog.specs.Cell.{CellValue};

    ghost Value = { List CellValue };

    ghost use Rattle.gather.specs.ImageCells.{cells_in};

    ghost view = { λ c. cells_in c.left.now };
}

impl<'a> Iterator for ImageCells<'a> {
    type Item = Cell<'a>;

    ghost next_gives = { YieldsFirstBy cell_value (λ rest. rest) };

    ghost remaining = { item_count (λ rest. rest) };

    fn next(&mut self) -> Option<Cell<'a>> {
        let (cell, size) = cell_front(self.left)?;
        self.left = &self.left[size..];
        Some(cell)
    }
}

/// The cell whose image is at the front of the bytes, and how many bytes the image takes; `None` if there is no such
/// cell.
pub(crate) fn cell_front(bytes: &[u8]) -> Option<(Cell<'_>, usize)>
    ensures front { option_map front_value result ≡ cell_front bytes.now }
    ensures within { IfSome result (λ front. (1 ≤ front.1) × (front.1 ≤ length bytes.now)) }
{
    match bytes {
        [0, ..] => Some((Cell::Null, 1)),
        [1, rest @ ..] => number_front(rest),
        [2, rest @ ..] => bytes_front(rest),
        _ => None,
    }
}

/// The number whose image begins one byte before these bytes, and how many bytes the image takes.
fn number_front(bytes: &[u8]) -> Option<(Cell<'_>, usize)>
    ensures front { option_map front_value result ≡ number_front bytes.now }
    ensures within { IfSome result (λ front. (1 ≤ front.1) × (front.1 ≤ 1 + length bytes.now)) }
{
    let [width, rest @ ..] = bytes else {
        return None;
    };
    let width = *width;
    let size = width as usize;
    if size < 1 {
        return None;
    }
    if size > 8 {
        return None;
    }
    if rest.len() < size {
        return None;
    }
    let value = LittleEndian::read_uint(rest, size);
    Some((Cell::Number { value, width }, 2 + size))
}

/// The bytes whose image begins one byte before these bytes, and how many bytes the image takes.
fn bytes_front(bytes: &[u8]) -> Option<(Cell<'_>, usize)>
    ensures front { option_map front_value result ≡ bytes_front bytes.now }
    ensures within { IfSome result (λ front. (1 ≤ front.1) × (front.1 ≤ 1 + length bytes.now)) }
{
    if bytes.len() < 4 {
        return None;
    }
    let size = LittleEndian::read_u32(bytes) as usize;
    if bytes.len() - 4 < size {
        return None;
    }
    Some((Cell::Bytes(&bytes[4..4 + size]), 5 + size))
}

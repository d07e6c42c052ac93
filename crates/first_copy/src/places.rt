//! Where the cells of a line stand.

ghost use Rattle.std.specs.Prelude.{◌≡◌, ◌≤◌, length, drop, IfOk};
ghost use Rattle.binlog.specs.Cell.{cell_value};
ghost use Rattle.gather.specs.ImageCells.{cell_values};
ghost use Rattle.first_copy.specs.CellPlaces.{place_size, place_cell, places_size, placed_cells};

use binlog::Cell;
use std::alloc::{AllocError, Global};

/// A cell of a line whose bytes stand in a buffer, after those of the cells before it.
#[derive(Clone, Copy, Debug)]
pub(crate) enum Place {
    Null,
    Number { value: u64, width: u8 },
    /// So many bytes of the buffer.
    Bytes(usize),
}

/// The cells of places whose bytes stand one after another.
pub(crate) fn cells_at<'a>(
    alloc: Global,
    places: &[Place],
    bytes: &'a [u8],
) -> Result<Vec<Cell<'a>>, AllocError>
    requires { places_size places.now ≤ length bytes.now }
    ensures { IfOk result (λ cells. cell_values cells.items ≡ placed_cells places.now bytes.now) }
{
    let mut cells = Vec::with_capacity(alloc, places.len())?;
    let mut places = places;
    let mut bytes = bytes;
    while let [place, others @ ..] = places {
        let (cell, rest) = cell_at(*place, bytes);
        cells.push(cell)?;
        places = others;
        bytes = rest;
    }
    Ok(cells)
}

/// The cell of a place whose bytes stand at the front, and the bytes after them.
fn cell_at(place: Place, bytes: &[u8]) -> (Cell<'_>, &[u8])
    requires { place_size place ≤ length bytes.now }
    ensures cell { cell_value result.0 ≡ place_cell place bytes.now }
    ensures rest { result.1.now ≡ drop (place_size place) bytes.now }
{
    match place {
        Place::Null => (Cell::Null, bytes),
        Place::Number { value, width } => (Cell::Number { value, width }, bytes),
        Place::Bytes(size) => {
            let (own, rest) = bytes.split_at(size);
            (Cell::Bytes(own), rest)
        }
    }
}

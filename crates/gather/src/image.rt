//! The stored form of a row.

ghost use Rattle.std.specs.Prelude.{◌≡◌, List, IfOk, OnErr, Err, MatchOption};
ghost use Rattle.binlog.specs.Cell.{CellValue};
ghost use Rattle.gather.specs.Image.{HasImage, IsImage, IsSomeImage};
ghost use Rattle.gather.specs.ImageCells.{cell_values};

use crate::fault::GatherFault;
use crate::image_cells::ImageCells;
use crate::image_check::is_image;
use crate::image_writing::{image_size, write_cells};
use binlog::Cell;
use std::alloc::Global;
use std::marker::Model;

/// The stored image of a row: the number of its cells in two bytes, and for each cell 0 for null; 1, the width in one
/// byte and a number in that many bytes; or 2, the length in four bytes and the bytes. All numbers are little-endian.
///
/// It is one allocation. Equal cells have equal images, and different cells have different ones. In contracts it is the
/// list of its cells.
#[derive(Debug, Drop)]
pub struct Image {
    bytes: Vec<u8>,
}

impl Model for Image {
    ghost use Rattle.std.specs.Prelude.{List, drop};
    ghost use Rattle.binlog.specs.Cell.{CellValue};

    ghost Value = { List CellValue };

    ghost use Rattle.gather.specs.Image.{IsImage};
    ghost use Rattle.gather.specs.ImageCells.{cells_in};

    ghost view = { λ i. cells_in (drop 2 i.bytes.items) };

    ghost invariant = { λ i. IsImage (cells_in (drop 2 i.bytes.items)) i.bytes.items };
}

impl Image {
    /// The image of the cells. `None` if there are more than 65,535 cells, a number has a width other than 1 to 8 bytes
    /// or does not fit its width, or a cell has 4 GiB or more.
    ///
    /// Clauses:
    /// - `found`, `err`, `memory`: the image of the cells, or that the bytes are, exactly where there is one; the only
    ///   error is `Memory`, which comes only there
    pub fn new(alloc: Global, cells: &[Cell<'_>]) -> Result<Option<Image>, GatherFault>
        ensures found { IfOk result (λ found. MatchOption found
            (HasImage (cell_values cells.now) → ⊥)
            (λ made. (made ≡ cell_values cells.now) × HasImage (cell_values cells.now))) }
        ensures memory { OnErr result (HasImage (cell_values cells.now)) }
        ensures err { OnErr result (result ≡ Err GatherFault.Memory) }
    {
        let Some(size) = image_size(cells) else {
            return Ok(None);
        };
        let mut bytes = Vec::with_capacity(alloc, size)?;
        write_cells(cells, &mut bytes)?;
        Ok(Some(Image { bytes }))
    }

    /// The image that these bytes are, or `None` if they are not one.
    ///
    /// Clauses: as [`Image::new`]
    pub fn read(alloc: Global, bytes: &[u8]) -> Result<Option<Image>, GatherFault>
        ensures found { IfOk result (λ found. MatchOption found
            ((cells : List CellValue) → IsImage cells bytes.now → ⊥)
            (λ made. IsImage made bytes.now)) }
        ensures memory { OnErr result (IsSomeImage bytes.now) }
        ensures err { OnErr result (result ≡ Err GatherFault.Memory) }
    {
        let Some(image) = ImageRef::read(bytes) else {
            return Ok(None);
        };
        let bytes = Vec::from_slice(alloc, image.bytes())?;
        Ok(Some(Image { bytes }))
    }

    /// The image, borrowed.
    pub fn borrowed(&self) -> ImageRef<'_>
        ensures { result ≡ self.now }
    {
        ImageRef {
            stored: self.bytes.as_slice(),
        }
    }

    /// An iterator over the cells, in order. It takes no memory.
    pub fn cells(&self) -> ImageCells<'_>
        ensures { result ≡ self.now }
    {
        self.borrowed().cells()
    }

    /// The stored bytes.
    pub fn bytes(&self) -> &[u8]
        ensures { IsImage self.now result.now }
    {
        self.borrowed().bytes()
    }
}

/// A borrowed [`Image`]. In contracts it is the list of its cells.
#[derive(Debug, Drop)]
pub struct ImageRef<'a> {
    pub(crate) stored: &'a [u8],
}

impl<'a> Model for ImageRef<'a> {
    ghost use Rattle.std.specs.Prelude.{List, drop};
    ghost use Rattle.binlog.specs.Cell.{CellValue};

    ghost Value = { List CellValue };

    ghost use Rattle.gather.specs.Image.{IsImage};
    ghost use Rattle.gather.specs.ImageCells.{cells_in};

    ghost view = { λ i. cells_in (drop 2 i.stored.now) };

    ghost invariant = { λ i. IsImage (cells_in (drop 2 i.stored.now)) i.stored.now };
}

impl<'a> ImageRef<'a> {
    /// The image that these bytes are, or `None` if they are not one. It takes no memory.
    pub fn read(bytes: &'a [u8]) -> Option<ImageRef<'a>>
        ensures { MatchOption result ((cells : List CellValue) → IsImage cells bytes.now
            → ⊥) (λ made. IsImage made bytes.now) }
    {
        if !is_image(bytes) {
            return None;
        }
        Some(ImageRef { stored: bytes })
    }

    /// An iterator over the cells, in order. It takes no memory.
    pub fn cells(&self) -> ImageCells<'a>
        ensures { result ≡ self.now }
    {
        ImageCells {
            left: &self.bytes()[2..],
        }
    }

    /// The stored bytes.
    pub fn bytes(&self) -> &'a [u8]
        ensures { IsImage self.now result.now }
    {
        self.stored
    }
}

//! Checks of stored images.

ghost use Rattle.std.specs.Prelude.{◌≡◌};
ghost use Rattle.gather.specs.ImageCells.{are_images, is_image};

use crate::image_cells::cell_front;
use byteorder::{ByteOrder, LittleEndian};

/// Whether the bytes are the image of some cells.
pub(crate) fn is_image(bytes: &[u8]) -> bool
    ensures { result ≡ is_image bytes.now }
{
    if bytes.len() < 2 {
        return false;
    }
    are_images(LittleEndian::read_u16(bytes), &bytes[2..])
}

/// Whether the bytes are the images of `count` cells, and nothing follows them.
fn are_images(count: u16, bytes: &[u8]) -> bool
    ensures { result ≡ are_images count bytes.now }
{
    let mut left = bytes;
    for _ in 0..count {
        let Some((_, size)) = cell_front(left) else {
            return false;
        };
        left = &left[size..];
    }
    left.is_empty()
}

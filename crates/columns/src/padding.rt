//! What a server leaves out at the end of a cell.

ghost use Rattle.std.specs.Prelude.{◌≡◌, ◌<◌, length, Some};
ghost use Rattle.columns.specs.Padding.{blank_bytes, padding, IsUnpadded, IsPadded};

use crate::character_set::CharacterSet;
use crate::data_type::DataType;
use crate::type_name::TypeName;

/// What a BINARY is padded with.
const ZERO: &[u8] = &[0];

impl CharacterSet {
    /// The bytes of a blank.
    pub fn blank(self) -> &'static [u8]
        ensures { result.now ≡ blank_bytes self }
    {
        match self {
            CharacterSet::Ucs2 | CharacterSet::Utf16 => &[0, b' '],
            CharacterSet::Utf16le => &[b' ', 0],
            CharacterSet::Utf32 => &[0, 0, 0, b' '],
            _ => b" ",
        }
    }
}

impl DataType {
    /// What a server sends of bytes in a column of this type and this character set: it leaves out the zeros at the end of
    /// a BINARY and the blanks at the end of a CHAR, and sends the bytes of other types as they are.
    pub fn unpadded<'a>(self, set: CharacterSet, bytes: &'a [u8]) -> &'a [u8]
        ensures sent { IsUnpadded (padding self.name set) result.now }
        ensures padded { IsPadded (padding self.name set) result.now bytes.now }
    {
        match self.name {
            TypeName::Binary => front_of(bytes, ZERO),
            TypeName::Char => front_of(bytes, set.blank()),
            _ => bytes,
        }
    }
}

/// The bytes without these at their end, as often as they stand there.
fn front_of<'a>(bytes: &'a [u8], pad: &[u8]) -> &'a [u8]
    requires { 0 < length pad.now }
    ensures sent { IsUnpadded (Some pad.now) result.now }
    ensures padded { IsPadded (Some pad.now) result.now bytes.now }
{
    let mut left = bytes;
    while let Some(front) = left.strip_suffix(pad) {
        left = front;
    }
    left
}

//! Character sets.

ghost use Rattle.std.specs.Prelude.{◌≡◌};
ghost use Rattle.columns.specs.CharacterSets.{set_named};

/// The character set of a column, as far as its texts are known here.
#[derive(Clone, Copy, Debug, PartialEq, Eq)]
pub enum CharacterSet {
    Utf8mb4,
    /// Without characters above U+FFFF; older servers call it `utf8`.
    Utf8mb3,
    Ascii,
    /// Windows-1252, with its five unused bytes as the characters of their numbers.
    Latin1,
    /// Characters up to U+FFFF, in two bytes each, the higher first.
    Ucs2,
    /// In two or four bytes each, the higher first.
    Utf16,
    /// In two or four bytes each, of which two at a time have the lower first.
    Utf16le,
    /// In four bytes each, the highest first.
    Utf32,
    /// Another one: its texts are bytes here.
    Other,
}

impl CharacterSet {
    /// The set of this name.
    pub fn of(name: &str) -> CharacterSet
        ensures { result ≡ set_named name.now }
    {
        if name == "utf8mb4" {
            return CharacterSet::Utf8mb4;
        }
        if name == "utf8mb3" {
            return CharacterSet::Utf8mb3;
        }
        if name == "utf8" {
            return CharacterSet::Utf8mb3;
        }
        if name == "ascii" {
            return CharacterSet::Ascii;
        }
        if name == "latin1" {
            return CharacterSet::Latin1;
        }
        if name == "ucs2" {
            return CharacterSet::Ucs2;
        }
        if name == "utf16" {
            return CharacterSet::Utf16;
        }
        if name == "utf16le" {
            return CharacterSet::Utf16le;
        }
        if name == "utf32" {
            return CharacterSet::Utf32;
        }
        CharacterSet::Other
    }
}

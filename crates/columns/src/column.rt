//! A described column.

ghost use Rattle.std.specs.Prelude.{◌≡◌, Some, IfSome, find};
ghost use Rattle.std.specs.Str.{bytes_eq};
ghost use Rattle.columns.specs.Keys.{key_text};

use crate::column_type::ColumnType;

/// Whether a column is part of a key, as `COLUMN_KEY` of `INFORMATION_SCHEMA.COLUMNS` has it.
#[derive(Clone, Copy, Debug, PartialEq, Eq)]
pub enum Key {
    /// Of none, or of one that begins with another column and is not the primary one.
    NotAKey,
    /// Of the primary key, or of what stands for it.
    Pri,
    /// The only column of a unique key.
    Uni,
    /// The first column of another key.
    Mul,
}

impl Key {
    /// What stands for it in a description.
    pub fn as_str(self) -> &'static str
        ensures { result.now ≡ key_text self }
    {
        match self {
            Key::NotAKey => "",
            Key::Pri => "PRI",
            Key::Uni => "UNI",
            Key::Mul => "MUL",
        }
    }

    /// The key that this text stands for.
    pub(crate) fn find(text: &[u8]) -> Option<Key>
        ensures found { IfSome result (λ key. key_text key ≡ text.now) }
        ensures only { (key : Key) → key_text key ≡ text.now → result ≡ Some key }
    {
        find_among(&KEYS, text)
    }
}

/// Every key.
const KEYS: [Key; 4] = [Key::NotAKey, Key::Pri, Key::Uni, Key::Mul];

/// The first of the keys that this text stands for.
fn find_among(keys: &[Key], text: &[u8]) -> Option<Key>
    ensures first { result ≡ find (λ key. bytes_eq (key_text key) text.now) keys.now }
    ensures found { IfSome result (λ key. key_text key ≡ text.now) }
{
    keys.iter()
        .copied()
        .find(|key| key.as_str().as_bytes() == text)
}

/// A described column.
#[derive(Debug, PartialEq, Eq, Drop)]
pub struct Column {
    pub name: String,
    pub kind: ColumnType,
    pub character_set: Option<String>,
    pub key: Key,
}

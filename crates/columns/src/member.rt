//! A member of an ENUM or a SET.

ghost use Rattle.std.specs.Prelude.{◌≡◌, not};
ghost use Rattle.std.specs.Str.{is_utf8};

/// A member of an ENUM or a SET: its bytes. In the text of a type it stands in quotes where they are UTF-8, otherwise in
/// hexadecimal digits.
#[derive(Debug, PartialEq, Eq, Drop)]
pub struct Member {
    pub text: Vec<u8>,
    /// Whether they are not UTF-8.
    pub hex: bool,
    ghost lawful: { hex ≡ not (is_utf8 text.items) },
}

/// Whether the bytes are UTF-8.
pub(crate) fn is_text(bytes: &[u8]) -> bool
    ensures { result ≡ is_utf8 bytes.now }
{
    match str::from_utf8(bytes) {
        Ok(_) => true,
        Err(_) => false,
    }
}

//! The word, or the byte, at the front of a text.

ghost use Rattle.std.specs.Prelude.{◌≡◌, ◌++◌, ◌∷◌, ◌==◌, List, ℕ, IfSome, IfNone, IsSomeAnd};
ghost use Rattle.columns.specs.Word.{Are, Ends, is_letter};

/// The lower-case letters at the front of the text, and what follows them.
pub(crate) fn split_word(text: &[u8]) -> (&[u8], &[u8])
    ensures whole { text.now ≡ result.0.now ++ result.1.now }
    ensures letters { Are is_letter result.0.now }
    ensures end { Ends is_letter result.1.now }
{
    for (i, letter) in text.iter().enumerate() {
        if !letter.is_ascii_lowercase() {
            return text.split_at(i);
        }
    }
    (text, &[])
}

/// What follows this byte, if the text begins with it.
pub fn after_byte(byte: u8, text: &[u8]) -> Option<&[u8]>
    ensures some { IfSome result (λ rest. text.now ≡ byte ∷ rest.now) }
    ensures none { IfNone result (Ends (λ b. b == byte) text.now) }
    ensures only { (rest : List ℕ) → text.now ≡ byte ∷ rest
        → IsSomeAnd result (λ found. found.now ≡ rest) }
{
    let [first, rest @ ..] = text else {
        return None;
    };
    if *first != byte {
        return None;
    }
    Some(rest)
}

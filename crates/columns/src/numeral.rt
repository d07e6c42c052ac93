//! Decimal numbers in the text of a type.

ghost use Rattle.std.specs.Prelude.{◌≡◌, ℕ, ◌<◌, ◌∷◌, ◌++◌, ◌+◌, List, true, decimal, IfSome, IfNone, IsSomeAnd};
ghost use Rattle.std.specs.Str.{byte};
ghost use Rattle.columns.specs.Word.{Ends, is_decimal_digit};

/// Reads the decimal number of at most five digits, without zeros in front, that the text begins with: the number, and
/// what follows it.
pub(crate) fn read_number(text: &[u8]) -> Option<(u32, &[u8])>
    ensures found { IfSome result (λ found. text.now ≡ decimal found.0 ++ found.1.now) }
    ensures small { IfSome result (λ found. found.0 < 100000) }
    ensures only { (n : ℕ) (rest : List ℕ) → n < 100000 → Ends is_decimal_digit rest
        → text.now ≡ decimal n ++ rest → IsSomeAnd result (λ found. (found.0 ≡ n)
        × (found.1.now ≡ rest)) }
{
    let (first, rest) = take_digit(text)?;
    let mut number = u32::from(first);
    let mut left = rest;
    while let Some((digit, rest)) = take_digit(left) {
        if number == 0 {
            return None;
        }
        if number >= 10_000 {
            return None;
        }
        number = number * 10 + u32::from(digit);
        left = rest;
    }
    Some((number, left))
}

/// Reads the number that the text begins with and the closing parenthesis after it: the number, and what follows.
pub(crate) fn read_last_number(text: &[u8]) -> Option<(u32, &[u8])>
    ensures found { IfSome result (λ found. text.now ≡ decimal found.0 ++ byte ")" ∷ found.1.now) }
    ensures small { IfSome result (λ found. found.0 < 100000) }
    ensures only { (n : ℕ) (rest : List ℕ) → n < 100000 → text.now ≡ decimal n ++ byte ")" ∷ rest →
        IsSomeAnd result (λ found. (found.0 ≡ n) × (found.1.now ≡ rest)) }
{
    let (number, after) = read_number(text)?;
    let [b')', rest @ ..] = after else {
        return None;
    };
    Some((number, rest))
}

/// The value of the digit at the front, and what follows it.
fn take_digit(text: &[u8]) -> Option<(u8, &[u8])>
    ensures some { IfSome result (λ taken. (text.now ≡ (48 + taken.0) ∷ taken.1.now)
        × (taken.0 < 10)) }
    ensures none { IfNone result (Ends is_decimal_digit text.now) }
{
    match text {
        [digit @ b'0'..=b'9', rest @ ..] => Some((*digit - b'0', rest)),
        _ => None,
    }
}

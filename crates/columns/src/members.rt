//! The members of an ENUM or a SET in the text of its type.

ghost use Rattle.std.specs.Prelude.{◌≡◌, ◌≤◌, ◌<◌, ◌+◌, ◌-◌, ◌∷◌, ◌++◌, ◌==◌, ◌↔◌, [], IsTrue, List, ℕ, Some, IfSome, IfOk, IfErr, IsSomeAnd, MatchResult, length, not, drop};
ghost use Rattle.std.specs.Str.{is_utf8, byte};
ghost use Rattle.columns.specs.Word.{Ends};
ghost use Rattle.columns.specs.Escapes.{AreBytes};
ghost use Rattle.columns.specs.Members.{is_quote, member_text, members_text, member_bytes, AreMembers, IsMembersFault};
ghost use Rattle.columns.specs.declared.members.MembersFault.TheVariants.{Memory};

use crate::escape::{Layer, WithEscapes, unescape_front};
use crate::hex_digits::{HexText, read_hex};
use crate::member::{Member, is_text};
use crate::word::after_byte;
use std::alloc::{AllocError, AllocFailed, Global};
use std::fmt;

/// Why a list of members could not be read.
#[derive(Clone, Copy, Debug, PartialEq, Eq)]
pub(crate) enum MembersFault {
    /// What stands so many bytes before the end is no member where one is due, or neither a comma and no member too many
    /// nor the closing parenthesis at the end.
    Text(usize),
    Memory,
}

impl From<AllocError> for MembersFault {
    ghost from_gives = { λ _ fault. fault ≡ Memory };

    fn from(_error: AllocError) -> MembersFault {
        MembersFault::Memory
    }
}

impl<T: Drop> From<AllocFailed<T>> for MembersFault {
    ghost from_gives = { λ _ fault. fault ≡ Memory };

    fn from(_error: AllocFailed<T>) -> MembersFault {
        MembersFault::Memory
    }
}

/// Reads members in parentheses, with commas between, at most so many. The whole text is read.
pub(crate) fn read_members(
    alloc: Global,
    most: usize,
    text: &[u8],
) -> Result<Vec<Member>, MembersFault>
    requires { 0 < most }
    ensures found { IfOk result (λ members. text.now ≡ members_text (member_bytes members.items)) }
    ensures lawful { IfOk result (λ members. AreMembers most (member_bytes members.items)) }
    ensures only { (members : List (List ℕ)) → AreMembers most members
        → text.now ≡ members_text members → MatchResult result (λ read. member_bytes read.items
        ≡ members) (λ fault. fault ≡ MembersFault.Memory) }
    ensures fault { IfErr result (IsMembersFault most text.now) }
{
    let Some(inner) = after_byte(b'(', text) else {
        return Err(MembersFault::Text(text.len()));
    };
    let Some((first, rest)) = read_member(alloc, inner)? else {
        return Err(MembersFault::Text(inner.len()));
    };
    let mut members = Vec::new(alloc);
    members.push(first)?;
    let mut left = rest;
    while let Some(more) = after_byte(b',', left) {
        if members.len() >= most {
            return Err(MembersFault::Text(left.len()));
        }
        let Some((member, rest)) = read_member(alloc, more)? else {
            return Err(MembersFault::Text(more.len()));
        };
        members.push(member)?;
        left = rest;
    }
    if !is_end(left) {
        return Err(MembersFault::Text(left.len()));
    }
    Ok(members)
}

/// Whether the closing parenthesis is all that is left.
fn is_end(text: &[u8]) -> bool
    ensures { IsTrue result ↔ (text.now ≡ byte ")" ∷ []) }
{
    matches!(text, [b')'])
}

/// Reads the member that the text begins with, and what follows it.
fn read_member(alloc: Global, text: &[u8]) -> Result<Option<(Member, &[u8])>, AllocError>
    ensures found { IfOk result (λ read. IfSome read (λ r. text.now
        ≡ member_text r.0.text.items ++ r.1.now)) }
    ensures bytes { IfOk result (λ read. IfSome read (λ r. AreBytes r.0.text.items)) }
    ensures end { IfOk result (λ read. IfSome read (λ r. Ends is_quote r.1.now)) }
    ensures only { (bytes rest : List ℕ) → AreBytes bytes → Ends is_quote rest
        → text.now ≡ member_text bytes ++ rest → IfOk result
        (λ read. IsSomeAnd read (λ r. (r.0.text.items ≡ bytes) × (r.1.now ≡ rest))) }
{
    match text {
        [b'\'', inner @ ..] => read_quoted(alloc, inner),
        [b'x', inner @ ..] => read_digits(alloc, inner),
        _ => Ok(None),
    }
}

/// Reads the member whose opening quote stands in front of the text, and what follows it.
fn read_quoted(alloc: Global, text: &[u8]) -> Result<Option<(Member, &[u8])>, AllocError>
    ensures found { IfOk result (λ read. IfSome read (λ r. 39 ∷ text.now
        ≡ member_text r.0.text.items ++ r.1.now)) }
    ensures bytes { IfOk result (λ read. IfSome read (λ r. AreBytes r.0.text.items)) }
    ensures end { IfOk result (λ read. IfSome read (λ r. Ends is_quote r.1.now)) }
    ensures only { (bytes rest : List ℕ) → AreBytes bytes → Ends is_quote rest
        → 39 ∷ text.now ≡ member_text bytes ++ rest
        → IfOk result (λ read. IsSomeAnd read (λ r. (r.0.text.items ≡ bytes) × (r.1.now ≡ rest))) }
{
    let (bytes, rest) = unescape_front(alloc, Layer::Quoted, text)?;
    Ok(end_member(false, bytes, rest))
}

/// Reads the member whose letter `x` stands in front of the text, and what follows it.
fn read_digits(alloc: Global, text: &[u8]) -> Result<Option<(Member, &[u8])>, AllocError>
    ensures found { IfOk result (λ read. IfSome read (λ r. byte "x" ∷ text.now
        ≡ member_text r.0.text.items ++ r.1.now)) }
    ensures bytes { IfOk result (λ read. IfSome read (λ r. AreBytes r.0.text.items)) }
    ensures end { IfOk result (λ read. IfSome read (λ r. Ends is_quote r.1.now)) }
    ensures only { (bytes rest : List ℕ) → AreBytes bytes → Ends is_quote rest
        → byte "x" ∷ text.now ≡ member_text bytes ++ rest
        → IfOk result (λ read. IsSomeAnd read (λ r. (r.0.text.items ≡ bytes) × (r.1.now ≡ rest))) }
{
    let [b'\'', digits @ ..] = text else {
        return Ok(None);
    };
    let (bytes, rest) = read_hex(alloc, digits)?;
    Ok(end_member(true, bytes, rest))
}

/// The member of these bytes, if a closing quote stands after them and they are UTF-8 unless they stood in digits; and
/// what follows the quote.
fn end_member(hex: bool, text: Vec<u8>, rest: &[u8]) -> Option<(Member, &[u8])>
    ensures text { IfSome result (λ made. made.0.text ≡ text) }
    ensures form { IfSome result (λ made. is_utf8 text.items ≡ not hex) }
    ensures found { IfSome result (λ made. rest.now ≡ 39 ∷ made.1.now) }
    ensures end { IfSome result (λ made. Ends is_quote made.1.now) }
    ensures only { (tail : List ℕ) → is_utf8 text.items ≡ not hex → rest.now ≡ 39 ∷ tail
        → Ends is_quote tail → IsSomeAnd result (λ made. (made.0.text ≡ text)
        × (made.1.now ≡ tail)) }
{
    let [b'\'', tail @ ..] = rest else {
        return None;
    };
    if tail.first() == Some(&b'\'') {
        return None;
    }
    if is_text(&text) == hex {
        return None;
    }
    Some((Member { text, hex }, tail))
}

/// Writes the member in quotes with escapes, or in hexadecimal digits. The only error is the writer's.
impl fmt::Display for Member {
    ghost output = { λ member. Some (member_text member.text.items) };

    fn fmt<W: fmt::Write>(&self, f: &mut fmt::Formatter<W>) -> fmt::Result {
        match str::from_utf8(&self.text) {
            Ok(text) => {
                let text = WithEscapes {
                    layer: Layer::Quoted,
                    text,
                };
                write!(f, "'{text}'")
            }
            Err(_) => {
                let digits = HexText(&self.text);
                write!(f, "x'{digits}'")
            }
        }
    }
}

/// Members of an ENUM or a SET, as they stand in the text of its type.
#[derive(Clone, Copy)]
pub(crate) struct Members<'a>(pub(crate) &'a [Member]);

/// Writes the members in parentheses, with commas between. The only error is the writer's.
impl fmt::Display for Members<'_> {
    ghost output = { λ shown. Some (members_text (member_bytes shown.0.now)) };

    fn fmt<W: fmt::Write>(&self, f: &mut fmt::Formatter<W>) -> fmt::Result {
        let [first, others @ ..] = self.0 else {
            return f.write_str("()");
        };
        write!(f, "({first}")?;
        for member in others {
            write!(f, ",{member}")?;
        }
        f.write_str(")")
    }
}

//! Bytes that stand for one byte, and texts made of them.

ghost use Rattle.std.specs.Prelude.{◌≡◌, ◌++◌, ◌∷◌, [], List, ℕ, length, Some, IfSome, IfNone, IfOk, IfErr, MatchOption, MatchResult};
ghost use Rattle.columns.specs.Escapes.{escape, escaped, BeginsWithCode, BeginsWithNone, IsEscapeFault, AreBytes};
ghost use Rattle.columns.specs.declared.escape.EscapeFault.TheVariants.{Memory};

use std::alloc::{AllocError, AllocFailed, Global};
use std::fmt;
use thiserror::Error;

/// Where the escapes come from.
#[derive(Clone, Copy, Debug, PartialEq, Eq)]
pub(crate) enum Layer {
    /// A field of a line of the `mysql` client.
    Client,
    /// A text in quotes within the type of a column.
    Quoted,
}

/// Why a field could not be read.
#[derive(Clone, Copy, Debug, PartialEq, Eq, Error)]
pub enum EscapeFault {
    /// At this offset stands a tab, a newline or a NUL, or a backslash that no `t`, `n`, `0` or backslash follows.
    #[error("not a byte of a field, at byte {0}")]
    Escape(usize),
    /// An allocation was refused.
    #[error("out of memory")]
    Memory,
}

impl From<AllocError> for EscapeFault {
    ghost from_gives = { λ _ fault. fault ≡ Memory };

    fn from(_error: AllocError) -> EscapeFault {
        EscapeFault::Memory
    }
}

/// Reads a field of a line of the `mysql` client (`--batch`): `\t`, `\n`, `\\` and `\0` are a tab, a newline, a
/// backslash and a NUL, and each other byte is itself. The whole field is read. `Memory` is answered only where it begins
/// with a byte.
pub fn unescape(alloc: Global, field: &[u8]) -> Result<Vec<u8>, EscapeFault>
    ensures found { IfOk result (λ bytes. field.now ≡ escaped Layer.Client bytes.items) }
    ensures only { (bytes : List ℕ) → field.now ≡ escaped Layer.Client bytes →
        MatchResult result (λ read. read.items ≡ bytes) (λ fault. fault ≡ EscapeFault.Memory) }
    ensures fault { IfErr result (IsEscapeFault field.now) }
{
    let (bytes, rest) = unescape_front(alloc, Layer::Client, field)?;
    if rest.len() > 0 {
        return Err(EscapeFault::Escape(field.len() - rest.len()));
    }
    Ok(bytes)
}

/// Reads the bytes that the text begins with, as far as there are any, and what follows them.
pub(crate) fn unescape_front(
    alloc: Global,
    layer: Layer,
    text: &[u8],
) -> Result<(Vec<u8>, &[u8]), AllocError>
    ensures found { IfOk result (λ read. text.now ≡ escaped layer read.0.items ++ read.1.now) }
    ensures bytes { IfOk result (λ read. AreBytes read.0.items) }
    ensures end { IfOk result (λ read. BeginsWithNone layer read.1.now) }
    ensures full { IfErr result (λ _. BeginsWithCode layer text.now) }
{
    let mut bytes = Vec::new(alloc);
    let mut left = text;
    while let Some((byte, rest)) = take_byte(layer, left) {
        bytes.push(byte)?;
        left = rest;
    }
    Ok((bytes, left))
}

/// The byte that the text begins with, and what follows what stands for it.
fn take_byte(layer: Layer, text: &[u8]) -> Option<(u8, &[u8])>
    ensures found { IfSome result (λ taken. text.now ≡ escape layer taken.0 ++ taken.1.now) }
    ensures none { IfNone result (BeginsWithNone layer text.now) }
{
    let [first, rest @ ..] = text else {
        return None;
    };
    let Some(_) = escape_of(layer, *first) else {
        return Some((*first, rest));
    };
    let [second, rest @ ..] = rest else {
        return None;
    };
    let byte = undo(layer, *first, *second)?;
    Some((byte, rest))
}

/// The byte that these two stand for.
fn undo(layer: Layer, first: u8, second: u8) -> Option<u8>
    ensures found { IfSome result (λ b. escape layer b ≡ first ∷ second ∷ []) }
    ensures only { (b : ℕ) → escape layer b ≡ first ∷ second ∷ [] → result ≡ Some b }
{
    match layer {
        Layer::Client => undo_client(first, second),
        Layer::Quoted => undo_quoted(first, second),
    }
}

fn undo_client(first: u8, second: u8) -> Option<u8>
    ensures found { IfSome result (λ b. escape Layer.Client b ≡ first ∷ second ∷ []) }
    ensures only { (b : ℕ) → escape Layer.Client b ≡ first ∷ second ∷ [] → result ≡ Some b }
{
    match [first, second] {
        [b'\\', b't'] => Some(b'\t'),
        [b'\\', b'n'] => Some(b'\n'),
        [b'\\', b'\\'] => Some(b'\\'),
        [b'\\', b'0'] => Some(0),
        _ => None,
    }
}

fn undo_quoted(first: u8, second: u8) -> Option<u8>
    ensures found { IfSome result (λ b. escape Layer.Quoted b ≡ first ∷ second ∷ []) }
    ensures only { (b : ℕ) → escape Layer.Quoted b ≡ first ∷ second ∷ [] → result ≡ Some b }
{
    match [first, second] {
        [b'\'', b'\''] => Some(b'\''),
        [b'\\', b'n'] => Some(b'\n'),
        [b'\\', b'r'] => Some(b'\r'),
        [b'\\', b'\\'] => Some(b'\\'),
        [b'\\', b'0'] => Some(0),
        _ => None,
    }
}

/// What stands for the byte, if it does not stand for itself.
pub(crate) fn escape_of(layer: Layer, byte: u8) -> Option<&'static str>
    ensures { MatchOption result (escape layer byte
        ≡ byte ∷ []) (λ pair. (escape layer byte ≡ pair.now) × (length pair.now ≡ 2)) }
{
    match (layer, byte) {
        (Layer::Client, b'\t') => Some("\\t"),
        (_, b'\n') => Some("\\n"),
        (Layer::Quoted, b'\r') => Some("\\r"),
        (Layer::Quoted, b'\'') => Some("''"),
        (_, b'\\') => Some("\\\\"),
        (_, 0) => Some("\\0"),
        _ => None,
    }
}

/// A text with its escapes.
#[derive(Clone, Copy)]
pub(crate) struct WithEscapes<'a> {
    pub(crate) layer: Layer,
    pub(crate) text: &'a str,
}

/// Writes the text, each run of bytes that stand for themselves at once. The only error is the writer's.
impl fmt::Display for WithEscapes<'_> {
    ghost output = { λ shown. Some (escaped shown.layer shown.text.now) };

    fn fmt<W: fmt::Write>(&self, f: &mut fmt::Formatter<W>) -> fmt::Result {
        let layer = self.layer;
        let text = self.text;
        let mut start = 0;
        for (i, byte) in text.as_bytes().iter().enumerate() {
            let Some(pair) = escape_of(layer, *byte) else {
                continue;
            };
            f.write_str(&text[start..i])?;
            f.write_str(pair)?;
            start = i + 1;
        }
        f.write_str(&text[start..])
    }
}

/// A text as a field of a line of the `mysql` client (`--batch`): [`unescape`] reads it back.
#[derive(Clone, Copy)]
pub struct Escaped<'a>(pub &'a str);

/// Writes the field, each run of bytes that stand for themselves at once. The only error is the writer's.
impl fmt::Display for Escaped<'_> {
    ghost use Rattle.columns.specs.declared.escape.Layer.TheVariants.{Client};

    ghost output = { λ shown. Some (escaped Client shown.0.now) };

    fn fmt<W: fmt::Write>(&self, f: &mut fmt::Formatter<W>) -> fmt::Result {
        WithEscapes {
            layer: Layer::Client,
            text: self.0,
        }
        .fmt(f)
    }
}

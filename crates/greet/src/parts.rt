//! Parts of messages.

ghost use Rattle.std.specs.Prelude.{◌≡◌, ◌<◌, ◌+◌, ◌-◌, ◌^◌, min, ◌++◌, ◌∷◌, length, flat_map, IfSome, IfNone, IsTrue, ◌↔◌, OnOk, OnErr, Err, vec_len, vec_capacity};
ghost use Rattle.greet.specs.Message.{IsText};

use crate::fault::GreetFault;

/// The plugin that authenticates the replica.
pub(crate) const PLUGIN_NAME: &[u8] = b"mysql_native_password";

/// The text before the first zero byte, and the bytes after that byte.
pub(crate) fn split_text(bytes: &[u8]) -> Option<(&[u8], &[u8])>
    ensures text { IfSome result (λ split. IsText split.0.now) }
    ensures bytes { IfSome result (λ split. bytes.now ≡ split.0.now ++ 0 ∷ split.1.now) }
    ensures none { IfNone result (IsText bytes.now) }
{
    let end = bytes.iter().position(|byte| *byte == 0)?;
    Some((&bytes[..end], &bytes[end + 1..]))
}

/// Whether a text has no zero byte.
pub(crate) fn is_text(bytes: &[u8]) -> bool
    ensures { IsTrue result ↔ IsText bytes.now }
{
    !bytes.contains(&0)
}

/// Appends the parts, one after the other. The only error is `Memory`: the vector lacks the room for
/// them and cannot grow. It leaves the vector as it was.
pub(crate) fn append(parts: &[&[u8]], out: &mut Vec<u8>) -> Result<(), GreetFault>
    ensures ok { OnOk result (out.new.items ≡ out.old.items ++ flat_map
        (λ part. part.now) parts.now) }
    ensures err { OnErr result ((result ≡ Err GreetFault.Memory)
        × (out.new.items ≡ out.old.items)) }
    ensures full { OnErr result (vec_capacity out.old
        < vec_len out.old + length (flat_map (λ part. part.now) parts.now)) }
{
    out.reserve(parts_length(parts))?;
    for part in parts {
        out.extend_from_slice(part).unwrap();
    }
    Ok(())
}

/// How many bytes the parts have, or `usize::MAX` if that is less.
fn parts_length(parts: &[&[u8]]) -> usize
    ensures { result ≡ min (length (flat_map (λ part. part.now) parts.now)) (2 ^ 64 - 1) }
{
    let mut sum: usize = 0;
    for part in parts {
        sum = sum.saturating_add(part.len());
    }
    sum
}

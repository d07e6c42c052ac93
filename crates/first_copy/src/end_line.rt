//! The line at the end of a copy.

ghost use Rattle.std.specs.Prelude.{IfSome};
ghost use Rattle.first_copy.specs.CopyLines.{IsEndLine};

use columns::{after_byte, read_bits_field, split_field};

/// The number that the line says, if it is the one at the end.
pub(crate) fn read_end(line: &[u8]) -> Option<u64>
    ensures { IfSome result (λ number. IsEndLine number line.now) }
{
    let rest = after_byte(b'e', line)?;
    let rest = after_byte(b'n', rest)?;
    let rest = after_byte(b'd', rest)?;
    let rest = after_byte(b'\t', rest)?;
    let (digits, behind) = split_field(rest);
    let tail = after_byte(b'\n', behind)?;
    if tail.len() > 0 {
        return None;
    }
    match read_bits_field(64, digits) {
        Ok(number) => Some(number),
        Err(_) => None,
    }
}

//! Length-encoded integers.

ghost use Rattle.std.specs.Prelude.{◌≡◌, ℕ, ◌+◌, ◌≤◌, ◌<◌, ◌++◌, length, take, IfSome, IfNone, OnOk, OnErr, vec_len, vec_capacity};
ghost use Rattle.wire.specs.Integer.{IsLengthEncoded, length_encoded};

use crate::fault::WireFault;
use crate::lenenc::{EIGHT_BYTES, MOST_IN_ONE_BYTE, THREE_BYTES, TWO_BYTES};
use byteorder::{ByteOrder, LittleEndian};

/// Reads the length-encoded integer at the front of the bytes: its value, and the 1, 3, 4 or 9 bytes that it takes. The
/// encoding need not be the shortest, and bytes may follow it.
///
/// `None` if it is cut short, or the first byte is 0xFB or 0xFF.
///
/// Clauses:
/// - `found`, `length`, `none`: the value and the length of a length-encoded integer at the front, of any width; none
///   only where there is none
pub fn read_int(bytes: &[u8]) -> Option<(u64, usize)>
    ensures length { IfSome result (λ found. found.1 ≤ length bytes.now) }
    ensures found { IfSome result (λ found. IsLengthEncoded found.0 (take found.1 bytes.now)) }
    ensures none { IfNone result ((n len : ℕ) → IsLengthEncoded n (take len bytes.now) → ⊥) }
{
    match bytes {
        [first @ 0..=MOST_IN_ONE_BYTE, ..] => Some((u64::from(*first), 1)),
        [TWO_BYTES, rest @ ..] if rest.len() >= 2 => Some((
            u64::from(LittleEndian::read_u16(rest)),
            3,
        )),
        [THREE_BYTES, rest @ ..] if rest.len() >= 3 => Some((
            u64::from(LittleEndian::read_u24(rest)),
            4,
        )),
        [EIGHT_BYTES, rest @ ..] if rest.len() >= 8 => Some((LittleEndian::read_u64(rest), 9)),
        _ => None,
    }
}

/// Appends the shortest length-encoded integer of the value.
///
/// Clauses:
/// - `ok`, `err`, `full`: the shortest spelling, or by [`write_payload`] the packing, is appended; an error leaves the
///   vector as it was, and `Memory` comes only without room
/// - `capacity`: the vector's room does not shrink
pub fn write_int(value: u64, out: &mut Vec<u8>) -> Result<(), WireFault>
    ensures ok { OnOk result (out.new.items ≡ out.old.items ++ length_encoded value) }
    ensures err { OnErr result ((result ≡ Err WireFault.Memory) × (out.new.items ≡ out.old.items)) }
    ensures full { OnErr result (vec_capacity out.old
        < vec_len out.old + length (length_encoded value)) }
    ensures capacity { vec_capacity out.old ≤ vec_capacity out.new }
{
    let [a, b, c, d, e, f, g, h] = value.to_le_bytes();
    match value {
        0..=0xfa => out.push(a)?,
        0xfb..=0xffff => out.extend_from_slice(&[TWO_BYTES, a, b])?,
        0x1_0000..=0xff_ffff => out.extend_from_slice(&[THREE_BYTES, a, b, c])?,
        _ => out.extend_from_slice(&[EIGHT_BYTES, a, b, c, d, e, f, g, h])?,
    }
    Ok(())
}

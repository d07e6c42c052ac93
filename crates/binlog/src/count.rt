//! Counts: length-encoded integers inside an event.

ghost use Rattle.std.specs.Prelude.{◌≡◌, ◌+◌, ◌≤◌, length, take, drop, IfOk, IfErr, Some, None, ◌-◌, ◌<◌, ◌^◌, vec_len, vec_capacity};
ghost use Rattle.wire.specs.Integer as lenenc;
ghost use Rattle.wire.specs.Integer.{IsLengthEncoded, length_encoded};
ghost use Rattle.binlog.specs.Table.{most_columns};
ghost use Rattle.binlog.specs.Count.{count_width, count_at, no_count};
ghost use Rattle.binlog.specs.Writing.{count_bytes};
ghost use Rattle.gtid.specs.Appending.{AppendsBytes};

use crate::fault::{EventFault, EventFaultKind};
use wire::lenenc::{EIGHT_BYTES, MOST_IN_ONE_BYTE, THREE_BYTES, TWO_BYTES};
use wire::{read_int, write_int};

/// Reads the count at an offset: its value, and how many bytes it takes.
///
/// A count that does not fit the bytes is `Truncated`; one that begins with 0xFB or 0xFF is reported as `kind`.
#[tactic(auto, unfolding(crate::specs::Count::no_count))]
pub(crate) fn read_count(
    bytes: &[u8],
    at: usize,
    kind: EventFaultKind,
) -> Result<(u64, usize), EventFault>
    requires { at ≤ length bytes.now }
    ensures value { IfOk result (λ read. (read.0 ≡ count_at bytes.now at)
        × (read.1 ≡ count_width bytes.now at)) }
    ensures found { IfOk result (λ read. IsLengthEncoded read.0 (take read.1 (drop at bytes.now))) }
    ensures within { IfOk result (λ read. at + read.1 ≤ length bytes.now) }
    ensures whole { IfOk result (λ _. no_count bytes.now at kind ≡ None) }
    ensures fault { IfErr result (λ fault. no_count bytes.now at kind ≡ Some fault) }
{
    if let Some(read) = read_int(&bytes[at..]) {
        return Ok(read);
    }
    if at == bytes.len() {
        return Err(EventFault::truncated(at));
    }
    match bytes[at] {
        0xfb => Err(EventFault::new(kind, at)),
        0xff => Err(EventFault::new(kind, at)),
        _ => Err(EventFault::truncated(at)),
    }
}

/// How many bytes the shortest count takes.
pub(crate) fn count_width(count: usize) -> usize
    requires { count < 2 ^ 16 }
    ensures width { result ≡ length (length_encoded count) }
    ensures bound { result ≤ 3 }
{
    if count <= MOST_IN_ONE_BYTE as usize {
        1
    } else {
        3
    }
}

/// Appends a count.
pub(crate) fn write_count(count: usize, out: &mut Vec<u8>)
    requires { vec_len out.old + length (length_encoded count) ≤ vec_capacity out.old }
    ensures { AppendsBytes out.old out.new (length_encoded count) }
{
    write_int(count as u64, out).unwrap();
}

/// Appends a count in `width` bytes.
pub(crate) fn write_padded_count(width: usize, count: usize, out: &mut Vec<u8>)
    requires small { count ≤ most_columns }
    requires fits { width ≡ 1 → count ≤ lenenc.most_in_one_byte }
    requires room { vec_len out.old + length (count_bytes width count) ≤ vec_capacity out.old }
    ensures { AppendsBytes out.old out.new (count_bytes width count) }
{
    let [a, b, ..] = count.to_le_bytes();
    match width {
        1 => out.push(a).unwrap(),
        3 => out.extend_from_slice(&[TWO_BYTES, a, b]).unwrap(),
        4 => out.extend_from_slice(&[THREE_BYTES, a, b, 0]).unwrap(),
        _ => out
            .extend_from_slice(&[EIGHT_BYTES, a, b, 0, 0, 0, 0, 0, 0])
            .unwrap(),
    }
}

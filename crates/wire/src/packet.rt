//! Payloads written as packets.

ghost use Rattle.std.specs.Prelude.{◌≡◌, ◌+◌, ◌*◌, ◌/◌, ◌^◌, ◌≤◌, ◌<◌, ◌++◌, ◌⊎◌, ◌↔◌, length, IfOk, IfErr, OnErr, vec_len, vec_capacity};
ghost use Rattle.wire.specs.Packet as spec;
ghost use Rattle.wire.specs.Packet.{packet, largest_payload, AppendsPacking};

use crate::fault::WireFault;

/// The longest payload that is written, in bytes, and the highest limit that a reader may have: 1 GiB,
/// the highest `max_allowed_packet` of a server.
pub const LARGEST_PAYLOAD: usize = 1_073_741_824;

/// The length in bytes of a full chunk, which another packet of the same payload follows: 2^24 - 1.
pub(crate) const FULL_CHUNK: usize = 16_777_215;

/// The length in bytes of a packet's header: three bytes of length and the sequence id.
pub const HEADER_LENGTH: usize = 4;

/// How many bytes the packets of a payload of `payload` bytes take: four more for each packet.
#[tactic(auto, unfolding(crate::specs::Packet::full_chunk))]
pub fn packing_length(payload: usize) -> usize
    requires { payload < 2 ^ 63 }
    ensures { result ≡ spec.packing_length payload }
{
    payload + HEADER_LENGTH * (payload / FULL_CHUNK + 1)
}

fn push_packet(id: u8, chunk: &[u8], out: &mut Vec<u8>)
    requires size { length chunk.now ≤ FULL_CHUNK }
    requires room { vec_len out.old + HEADER_LENGTH + length chunk.now ≤ vec_capacity out.old }
    ensures packet { out.new.items ≡ out.old.items ++ packet id chunk.now }
    ensures len { vec_len out.new ≡ vec_len out.old + HEADER_LENGTH + length chunk.now }
    ensures capacity { vec_capacity out.old ≤ vec_capacity out.new }
{
    let [a, b, c, _] = (chunk.len() as u32).to_le_bytes();
    out.extend_from_slice(&[a, b, c, id]).unwrap();
    out.extend_from_slice(chunk).unwrap();
}

#[tactic(auto, unfolding(crate::specs::Packet::full_chunk))]
fn push_packets(sequence: u8, payload: &[u8], out: &mut Vec<u8>) -> u8
    requires size { length payload.now ≤ largest_payload }
    requires room { vec_len out.old + spec.packing_length (length payload.now)
        ≤ vec_capacity out.old }
    ensures { AppendsPacking sequence payload.now out.old.items out.new.items result }
{
    let mut id = sequence;
    let mut rest = payload;
    while rest.len() >= FULL_CHUNK {
        let (chunk, others) = rest.split_at(FULL_CHUNK);
        push_packet(id, chunk, out);
        id = id.wrapping_add(1);
        rest = others;
    }
    push_packet(id, rest, out);
    id.wrapping_add(1)
}

/// Appends the packets of the payload, the first with the given sequence id, and returns the id that the next packet
/// must have. `TooLarge` if the payload is longer than [`LARGEST_PAYLOAD`].
///
/// Clauses: as [`write_int`], and:
/// - `too_large`, `only`: `TooLarge` exactly above 1 GiB; otherwise `Memory`
pub fn write_payload(sequence: u8, payload: &[u8], out: &mut Vec<u8>) -> Result<u8, WireFault>
    ensures ok { IfOk result (λ next. AppendsPacking sequence payload.now out.old.items
        out.new.items next) }
    ensures too_large { (result ≡ Err WireFault.TooLarge) ↔ (largest_payload < length payload.now) }
    ensures only { IfErr result (λ fault. (fault ≡ WireFault.TooLarge)
        ⊎ (fault ≡ WireFault.Memory)) }
    ensures full { result ≡ Err WireFault.Memory
        → vec_capacity out.old < vec_len out.old + spec.packing_length (length payload.now) }
    ensures err { OnErr result (out.new.items ≡ out.old.items) }
{
    if payload.len() > LARGEST_PAYLOAD {
        return Err(WireFault::TooLarge);
    }
    out.reserve(packing_length(payload.len()))?;
    Ok(push_packets(sequence, payload, out))
}

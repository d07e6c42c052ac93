//! The current payload, taken out of its packets as their bytes come.

ghost use Rattle.std.specs.Prelude.{◌≡◌, ◌≢◌, ℕ, ◌+◌, ◌≤◌, ◌<◌, ◌++◌, [], ◌↔◌, length, take, IfOk, IfErr, IsTrue};
ghost use Rattle.wire.specs.Header.{IsHeader};
ghost use Rattle.wire.specs.Packet.{largest_payload};

use crate::fault::WireFault;
use crate::packet::{FULL_CHUNK, HEADER_LENGTH, LARGEST_PAYLOAD};
use byteorder::{ByteOrder, LittleEndian};
use std::alloc::Global;
use std::mem;

/// The current payload, as far as its bytes have come.
#[derive(Drop)]
pub(crate) struct Unpacker {
    /// The longest payload that is taken, in bytes.
    pub(crate) limit: usize,
    /// The sequence id of the payload's first packet.
    pub(crate) due: u8,
    /// How many full packets of the payload have come.
    pub(crate) full: u8,
    /// The header of the current packet, of which the first `filled` bytes have come.
    pub(crate) header: [u8; HEADER_LENGTH],
    pub(crate) filled: usize,
    /// How many bytes of the current chunk are still to come, once its header is complete.
    pub(crate) left: usize,
    /// The chunks so far, without their headers.
    pub(crate) payload: Vec<u8>,
}

/// Copies bytes into the missing part of a header, and returns how many.
fn fill(header: &mut [u8], filled: usize, bytes: &[u8]) -> usize
    requires { filled ≤ length header.old }
    ensures used { result ≤ length bytes.now }
    ensures full { filled + result ≤ length header.old }
    ensures most { result < length bytes.now → filled + result ≡ length header.old }
    ensures filled { take (filled + result) header.new
        ≡ take filled header.old ++ take result bytes.now }
{
    let count = bytes.len().min(header.len() - filled);
    for i in 0..count {
        header[filled + i] = bytes[i];
    }
    count
}

/// The length in a header, which must have this sequence id and a length of at most `room`.
fn read_header(header: &[u8], id: u8, room: usize) -> Result<usize, WireFault>
    requires { length header.now ≡ HEADER_LENGTH }
    ensures ok { IfOk result (λ size. IsHeader size id header.now × (size ≤ room)) }
    ensures sequence { (want got : ℕ) → result ≡ Err (WireFault.Sequence want got)
        → (want ≡ id) × (got ≢ id) × (size : ℕ) × IsHeader size got header.now }
    ensures too_large { result ≡ Err WireFault.TooLarge
        → (size : ℕ) × (room < size) × IsHeader size id header.now }
    ensures only { IfErr result (λ fault. (fault ≢ WireFault.Memory) × (fault ≢ WireFault.Ended)) }
{
    let got = header[3];
    if got != id {
        return Err(WireFault::Sequence { want: id, got });
    }
    let size = LittleEndian::read_u24(header) as usize;
    if size > room {
        return Err(WireFault::TooLarge);
    }
    Ok(size)
}

impl Unpacker {
    ghost use Rattle.std.specs.Prelude.{◌≡◌, ◌≢◌, ℕ, ◌+◌, ◌≤◌, ◌<◌, ◌++◌, [], ◌↔◌, length, take, IfOk, IfErr, IsTrue};
    ghost use Rattle.wire.specs.Payload.{IsOutOfSequence, IsTooLarge, IsWholePayload, NeedsRoom};
    ghost use Rattle.wire.specs.Held.{held_of, IsInHeader, IsInChunk, IsUnpacking, IsComplete, Consumes};

    /// Between payloads: the next packet must have the sequence id `due`.
    pub(crate) fn new(alloc: Global, limit: usize, due: u8) -> Unpacker
        ensures limit { result.limit ≡ limit }
        ensures due { result.due ≡ due }
        ensures held { held_of result ≡ [] }
        ensures stands { IsInHeader result }
    {
        Unpacker {
            limit,
            due,
            full: 0,
            header: [0; HEADER_LENGTH],
            filled: 0,
            left: 0,
            payload: Vec::new(alloc),
        }
    }

    /// Whether nothing of the payload has come.
    pub(crate) fn is_empty(&self) -> bool
        requires { IsUnpacking self.now }
        ensures { IsTrue result ↔ (held_of self.now ≡ []) }
    {
        self.filled == 0 && self.payload.is_empty()
    }

    /// Whether the last packet of the payload has come.
    pub(crate) fn is_complete(&self) -> bool
        ensures { IsTrue result ↔ IsComplete self.now }
    {
        self.filled == HEADER_LENGTH && self.left == 0
    }

    /// Consumes bytes of the current header. Once it is complete it is checked, and room is made for its
    /// chunk.
    fn take_header(&mut self, bytes: &[u8]) -> Result<usize, WireFault>
        requires header { IsInHeader self.old }
        requires limit { self.old.limit ≤ largest_payload }
        ensures ok { IfOk result (λ used. Consumes self.old self.new bytes.now used) }
        ensures progress { IfOk result (λ used. 0 < length bytes.now → 0 < used) }
        ensures limit { self.new.limit ≡ self.old.limit }
        ensures sequence { (want got : ℕ) → result ≡ Err (WireFault.Sequence want got)
            → IsOutOfSequence self.old.due self.old.limit (held_of self.old ++ bytes.now) want got }
        ensures too_large { result ≡ Err WireFault.TooLarge
            → IsTooLarge self.old.due self.old.limit (held_of self.old ++ bytes.now) }
        ensures memory { result ≡ Err WireFault.Memory
            → NeedsRoom self.old.due self.old.limit (held_of self.old) bytes.now }
        ensures only { IfErr result (λ fault. fault ≢ WireFault.Ended) }
    {
        let used = fill(&mut self.header, self.filled, bytes);
        self.filled += used;
        if self.filled < HEADER_LENGTH {
            return Ok(used);
        }
        let id = self.due.wrapping_add(self.full);
        self.left = read_header(&self.header, id, self.limit - self.payload.len())?;
        self.payload.reserve(self.left)?;
        Ok(used)
    }

    /// Consumes bytes of the current chunk, for which there is room.
    fn take_chunk(&mut self, bytes: &[u8]) -> usize
        requires chunk { IsInChunk self.old }
        requires open { 0 < self.old.left }
        requires limit { self.old.limit ≤ largest_payload }
        ensures takes { Consumes self.old self.new bytes.now result }
        ensures progress { 0 < length bytes.now → 0 < result }
    {
        let used = self.left.min(bytes.len());
        self.payload.extend_from_slice(&bytes[..used]).unwrap();
        self.left -= used;
        if self.payload.len() == (usize::from(self.full) + 1) * FULL_CHUNK {
            self.full += 1;
            self.filled = 0;
        }
        used
    }

    /// Consumes bytes up to the end of the payload, or all of them, and returns how many.
    pub(crate) fn advance(&mut self, bytes: &[u8]) -> Result<usize, WireFault>
        requires stands { IsUnpacking self.old }
        requires open { IsComplete self.old → ⊥ }
        requires limit { self.old.limit ≤ largest_payload }
        ensures ok { IfOk result (λ used. Consumes self.old self.new bytes.now used) }
        ensures end { IfOk result (λ used. used < length bytes.now → IsComplete self.new) }
        ensures progress { IfOk result (λ used. IsComplete self.new → 0 < used) }
        ensures limit { self.new.limit ≡ self.old.limit }
        ensures sequence { (want got : ℕ) → result ≡ Err (WireFault.Sequence want got)
            → IsOutOfSequence self.old.due self.old.limit (held_of self.old ++ bytes.now) want got }
        ensures too_large { result ≡ Err WireFault.TooLarge
            → IsTooLarge self.old.due self.old.limit (held_of self.old ++ bytes.now) }
        ensures memory { result ≡ Err WireFault.Memory
            → NeedsRoom self.old.due self.old.limit (held_of self.old) bytes.now }
        ensures only { IfErr result (λ fault. fault ≢ WireFault.Ended) }
    {
        let mut used = 0;
        while used < bytes.len() && !self.is_complete() {
            let rest = &bytes[used..];
            used += if self.filled < HEADER_LENGTH {
                self.take_header(rest)?
            } else {
                self.take_chunk(rest)
            };
        }
        Ok(used)
    }

    /// Hands out the payload, and is between payloads again.
    pub(crate) fn hand_out(&mut self) -> Vec<u8>
        requires chunk { IsInChunk self.old }
        requires complete { IsComplete self.old }
        ensures payload { IsWholePayload self.old.due self.old.limit
            (held_of self.old) result.items self.new.due }
        ensures limit { self.new.limit ≡ self.old.limit }
        ensures held { held_of self.new ≡ [] }
        ensures stands { IsInHeader self.new }
    {
        let next = self.due.wrapping_add(self.full).wrapping_add(1);
        let fresh = Unpacker::new(*self.payload.allocator(), self.limit, next);
        let Unpacker { payload, .. } = mem::replace(self, fresh);
        payload
    }
}

//! The payloads of a stream whose first packets may have any sequence id.

ghost use Rattle.std.specs.Prelude.{◌≡◌, ◌≢◌, ◌<◌, ◌≤◌, [], false, length, get_or};
ghost use Rattle.wire.specs.Packet.{largest_payload};

use arrayvec::ArrayVec;
use std::alloc::Global;
use wire::{Assembler, HEADER_LENGTH, LARGEST_PAYLOAD, Step, WireFault};

/// A payload of a stream: the offset of its first packet, that packet's sequence id, and its bytes.
#[derive(Debug, PartialEq, Eq, Drop)]
pub struct PayloadEntry {
    pub offset: u64,
    pub sequence: u8,
    pub payload: Vec<u8>,
}

/// A reader of a stream that comes in pieces of any size. The first packet of each payload may have any sequence id, so
/// its header is collected before the assembler gets it.
#[derive(Drop)]
pub struct Listing {
    pub(crate) assembler: Assembler,
    /// The part of the header of a payload's first packet that has come, until it is complete.
    pub(crate) header: ArrayVec<u8, HEADER_LENGTH>,
    /// The sequence id of the first packet of the current payload.
    pub(crate) sequence: u8,
    /// The offset of the current payload in the stream, and how many bytes of the stream have come.
    pub(crate) begin: u64,
    pub(crate) seen: u64,
    ghost open_header: { length header.items < 4 },
    ghost gathering: { header.items ≢ [] → (assembler.held ≡ []) × (assembler.ended ≡ false) },
    ghost limit: { assembler.ended ≡ false → assembler.limit ≡ largest_payload },
    ghost first: { assembler.ended ≡ false → assembler.held ≢ [] → (assembler.due ≡ sequence) × (4 ≤ length assembler.held) × (get_or assembler.held 3 0 ≡ sequence) },
}

impl Listing {
    ghost use Rattle.mrep.specs.Listing.{held_bytes, with_entry, Advances, RefusesPayload, ListsSoFar, Faults};
    ghost use Rattle.std.specs.Prelude.{◌≡◌, ◌≢◌, ℕ, ◌+◌, ◌^◌, ◌≤◌, ◌<◌, ◌++◌, [], List, false, length, take, IfOk, IfErr, IfNone, MatchResult};
    ghost use Rattle.mrep.specs.declared.payloads.listing.PayloadEntry.{PayloadEntry};

    /// A reader at the beginning of a stream.
    pub fn new(alloc: Global) -> Listing
        ensures { ListsSoFar result [] [] }
    {
        Listing {
            assembler: Assembler::new(alloc, LARGEST_PAYLOAD),
            header: ArrayVec::new(),
            sequence: 0,
            begin: 0,
            seen: 0,
        }
    }

    /// Consumes bytes of the header that is being collected, and gives the header to the assembler once it is complete.
    fn gather(&mut self, bytes: &[u8]) -> Result<Step, WireFault>
        requires between { (self.old.assembler.held ≡ []) × (self.old.assembler.ended ≡ false) }
        requires some { 0 < length bytes.now }
        ensures takes { IfOk result (λ step. Advances self.old self.new bytes.now step) }
        ensures refuses { IfErr result (λ fault. RefusesPayload self.old self.new bytes.now fault) }
    {
        let used = bytes.len().min(HEADER_LENGTH - self.header.len());
        self.header.try_extend_from_slice(&bytes[..used]).unwrap();
        if self.header.len() < HEADER_LENGTH {
            return Ok(Step {
                used,
                payload: None,
            });
        }
        self.sequence = self.header.as_slice()[HEADER_LENGTH - 1];
        self.assembler.expect(self.sequence);
        let step = self.assembler.step(self.header.as_slice());
        self.header.clear();
        let Step { payload, .. } = step?;
        Ok(Step { used, payload })
    }

    /// Begins a payload with bytes that have its whole first header.
    fn start(&mut self, bytes: &[u8]) -> Result<Step, WireFault>
        requires between { (self.old.assembler.held ≡ []) × (self.old.assembler.ended ≡ false) }
        requires fresh { self.old.header.items ≡ [] }
        requires whole { 4 ≤ length bytes.now }
        ensures takes { IfOk result (λ step. Advances self.old self.new bytes.now step) }
        ensures refuses { IfErr result (λ fault. RefusesPayload self.old self.new bytes.now fault) }
    {
        self.sequence = bytes[HEADER_LENGTH - 1];
        self.assembler.expect(self.sequence);
        let step = self.assembler.step(bytes)?;
        Ok(step)
    }

    /// Consumes bytes up to the end of the current payload, or some of them.
    fn take(&mut self, bytes: &[u8]) -> Result<Step, WireFault>
        requires { 0 < length bytes.now }
        ensures takes { IfOk result (λ step. Advances self.old self.new bytes.now step) }
        ensures refuses { IfErr result (λ fault. RefusesPayload self.old self.new bytes.now fault) }
    {
        if !self.assembler.between() {
            let step = self.assembler.step(bytes)?;
            Ok(step)
        } else if self.header.is_empty() && bytes.len() >= HEADER_LENGTH {
            self.start(bytes)
        } else {
            self.gather(bytes)
        }
    }

    /// Consumes bytes of a piece of the stream, up to the end of the current payload or all of them, and returns how
    /// many were consumed, and the payload if it is complete now. The rest of the piece is to be fed next.
    ///
    /// After a fault the listing has ended.
    ///
    /// Clauses:
    /// - `stands`, `within`, `progress`, `all`: for any pieces: the stream so far is the packings of payloads, each
    ///   with an entry that has its offset, its first sequence id and its bytes, and then bytes that are no payload yet
    pub fn feed(&mut self, piece: &[u8]) -> Result<(usize, Option<PayloadEntry>), WireFault>
        ensures within { IfOk result (λ fed. fed.0 ≤ length piece.now) }
        ensures progress { 0 < length piece.now → IfOk result (λ fed. 0 < fed.0) }
        ensures all { IfOk result (λ fed. IfNone fed.1 (fed.0 ≡ length piece.now)) }
        ensures stands { (stream : List ℕ) (entries : List PayloadEntry)
            → length stream + length piece.now < 2 ^ 64 → ListsSoFar self.old stream entries
            → MatchResult result (λ fed. ListsSoFar self.new (stream ++ take fed.0 piece.now)
            (with_entry entries fed.1)) (λ fault. Faults self.new
            (stream ++ piece.now) entries fault) }
    {
        let mut rest = piece;
        while !rest.is_empty() {
            let Step { used, payload } = self.take(rest)?;
            rest = &rest[used..];
            self.seen = self.seen.saturating_add(used as u64);
            if let Some(payload) = payload {
                let entry = PayloadEntry {
                    offset: self.begin,
                    sequence: self.sequence,
                    payload,
                };
                self.begin = self.seen;
                return Ok((piece.len() - rest.len(), Some(entry)));
            }
        }
        Ok((piece.len(), None))
    }

    /// The number of bytes after the last whole payload.
    ///
    /// Clauses: the above.
    pub fn rest(&self) -> u64
        ensures { (stream : List ℕ) (entries : List PayloadEntry) → ListsSoFar self.now stream entries
            → result ≡ length (held_bytes self.now) }
    {
        self.seen.saturating_sub(self.begin)
    }
}

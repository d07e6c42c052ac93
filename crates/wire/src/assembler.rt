//! Payloads read from a stream of packets, whose bytes come in pieces of any size.

ghost use Rattle.std.specs.Prelude.{◌≡◌, ℕ, ◌+◌, ◌^◌, ◌≤◌, ◌<◌, ◌++◌, ◌↔◌, [], length, take, true, false, IsTrue, IfOk, IfSome, IfNone, OnOk, OnErr};
ghost use Rattle.wire.specs.Packet.{largest_payload, packing_length};
ghost use Rattle.wire.specs.Payload.{IsWholePayload, IsUnfinished, IsOutOfSequence, IsTooLarge, NeedsRoom};

use crate::fault::WireFault;
use crate::packet::LARGEST_PAYLOAD;
use crate::unpacker::Unpacker;
use std::alloc::Global;
use std::marker::Model;

/// What one call of [`Assembler::step`] took of its bytes, and the payload that they completed.
#[derive(Debug, Drop)]
pub struct Step {
    /// How many of the bytes belong to the current payload: those up to the end of its last packet if it
    /// is complete now, otherwise all of them.
    pub used: usize,
    /// The payload, if it is complete now.
    pub payload: Option<Vec<u8>>,
}

/// Reads payloads from the packets of a stream, whose bytes come in pieces of any size.
///
/// It keeps what has come of the current payload, and copies each byte once. The packets must come in
/// sequence: the first with the sequence id 0, each later one with the id after that of the packet
/// before it, and 0 after 255. `expect` sets another id, as at the start of a command.
#[derive(Drop)]
pub struct Assembler {
    unpacker: Unpacker,
    ended: bool,
}

impl Model for Assembler {
    ghost use Rattle.std.specs.Prelude.{◌≡◌, ◌≤◌, false};
    ghost use Rattle.wire.specs.Payload.{ReaderState};
    ghost use Rattle.wire.specs.Packet.{largest_payload};

    ghost Value = { ReaderState };

    ghost use Rattle.wire.specs.Held.{held_of, IsUnpacking, IsComplete};

    ghost view = { λ a. record { limit = a.unpacker.limit; due = a.unpacker.due; held = held_of a.unpacker; ended = a.ended } };

    ghost invariant = { λ a. (a.unpacker.limit ≤ largest_payload) × (a.ended ≡ false → IsUnpacking a.unpacker × (IsComplete a.unpacker → ⊥)) };
}

impl Assembler {
    /// A reader of payloads of at most `limit` bytes. The first expected sequence id is 0.
    pub fn new(alloc: Global, limit: usize) -> Assembler
        requires { limit ≤ largest_payload }
        ensures { result ≡ record { limit = limit; due = 0; held = []; ended = false } }
    {
        Assembler {
            unpacker: Unpacker::new(alloc, limit, 0),
            ended: false,
        }
    }

    /// Whether nothing of the next payload has come and no fault has occurred.
    pub fn between(&self) -> bool
        ensures { IsTrue result ↔ ((self.now.held ≡ []) × (self.now.ended ≡ false)) }
    {
        !self.ended && self.unpacker.is_empty()
    }

    /// Sets the sequence id that the next packet must have.
    pub fn expect(&mut self, sequence: u8)
        requires { (self.old.held ≡ []) × (self.old.ended ≡ false) }
        ensures { self.new ≡ record self.old { due = sequence } }
    {
        self.unpacker.due = sequence;
    }

    /// Consumes bytes up to the end of the current payload, or all of them.
    ///
    /// `Sequence` and `TooLarge` are reported as soon as the four bytes of the wrong header have come, `Sequence` if
    /// the header is wrong in both ways. After any refusal nothing more is promised of the reader.
    ///
    /// Clauses:
    /// - `payload`, `used`, `length`, `progress`: a payload is handed out only where the bytes held and those used are
    ///   its packing from the expected id, within the limit; no byte after it is used
    /// - `unfinished`, `held`: without a payload all bytes are used and held; no header among them is wrong, and no
    ///   prefix of them is a payload
    /// - `sequence`, `too_large`: a fault is that of the first wrong header
    /// - `memory`, `ended`, `ok`, `err`: `Memory` comes only where a right header that announces bytes is complete;
    ///   after any refusal each later step is `Ended`
    pub fn step(&mut self, bytes: &[u8]) -> Result<Step, WireFault>
        // A payload: the bytes held and those used are its packets, and the reader holds nothing.
        ensures used { IfOk result (λ step. step.used ≤ length bytes.now) }
        ensures payload { IfOk result (λ step. IfSome step.payload
            (λ payload. IsWholePayload self.old.due self.old.limit
            (self.old.held ++ take step.used bytes.now) payload.items self.new.due
            × (self.new ≡ record self.old { due = self.new.due; held = [] }))) }
        ensures length { IfOk result (λ step. IfSome step.payload
            (λ payload. length self.old.held + step.used ≡ packing_length (length payload.items))) }
        ensures progress { IfOk result (λ step. IfSome step.payload (λ _. 0 < step.used)) }

        // No payload yet: all bytes are held, and they are neither a payload nor wrong.
        ensures unfinished { IfOk result (λ step. IfNone step.payload (
            (step.used ≡ length bytes.now)
            × IsUnfinished self.old.due self.old.limit (self.old.held ++ bytes.now)
            × (self.new ≡ record self.old { held = self.old.held ++ bytes.now }))) }
        ensures held { OnOk result (length self.new.held < 2 ^ 31) }

        // A fault, which ends the reader.
        ensures sequence { (want got : ℕ) → result ≡ Err (WireFault.Sequence want got) →
            IsOutOfSequence self.old.due self.old.limit (self.old.held ++ bytes.now) want got }
        ensures too_large { result ≡ Err WireFault.TooLarge
            → IsTooLarge self.old.due self.old.limit (self.old.held ++ bytes.now) }
        ensures memory { result ≡ Err WireFault.Memory
            → NeedsRoom self.old.due self.old.limit self.old.held bytes.now }
        ensures ended { (result ≡ Err WireFault.Ended) ↔ (self.old.ended ≡ true) }
        ensures ok { OnOk result (self.new.ended ≡ false) }
        ensures err { OnErr result (self.new.ended ≡ true) }
    {
        if self.ended {
            return Err(WireFault::Ended);
        }
        self.ended = true;
        let used = self.unpacker.advance(bytes)?;
        self.ended = false;
        if !self.unpacker.is_complete() {
            return Ok(Step {
                used,
                payload: None,
            });
        }
        let payload = self.unpacker.hand_out();
        Ok(Step {
            used,
            payload: Some(payload),
        })
    }
}

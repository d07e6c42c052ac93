//! The payloads of a stream, read piece by piece.

ghost use Rattle.std.specs.Prelude.{◌≡◌, ◌≢◌, ℕ, ◌≤◌, [], List, map, Some, IfOk, IfErr, IfNone};
ghost use Rattle.wire.specs.Packet.{largest_payload};
ghost use Rattle.wire.specs.Stream as stream;
ghost use Rattle.wire.specs.Stream.{Held, OutOfSequence, Runs};

use std::alloc::Global;
use wire::{Assembler, Step, WireFault};

/// What a reader made of a stream: the payloads that it handed out, and then the stream's fault, if it came to one.
#[derive(Drop)]
pub struct Reading {
    pub payloads: Vec<Vec<u8>>,
    pub fault: Option<WireFault>,
}

/// The reading of a stream that comes in these pieces, from the id 0 on, up to its end or its fault: its payloads, and
/// after them its fault if there is one.
///
/// Clauses:
/// - `whole`, `sequence`, `too_large`, `only`, `err`: the stream's one reading, by the clauses of `wire` alone; the
///   only error is `Memory`
pub fn payloads(alloc: Global, limit: usize, pieces: &[&[u8]]) -> Result<Reading, WireFault>
    requires { limit ≤ largest_payload }
    ensures whole { IfOk result (λ read. IfNone read.fault ((id : ℕ) × (held : List ℕ)
        × Runs 0 limit [] (map (λ piece. piece.now) pieces.now)
        (map (λ payload. payload.items) read.payloads.items) (Held id held))) }
    ensures sequence { IfOk result (λ read. (want got : ℕ)
        → read.fault ≡ Some (WireFault.Sequence want got)
        → Runs 0 limit [] (map (λ piece. piece.now) pieces.now)
        (map (λ payload. payload.items) read.payloads.items) (OutOfSequence want got)) }
    ensures too_large { IfOk result (λ read. read.fault ≡ Some WireFault.TooLarge
        → Runs 0 limit [] (map (λ piece. piece.now) pieces.now)
        (map (λ payload. payload.items) read.payloads.items) stream.TooLarge) }
    ensures only { IfOk result (λ read. (read.fault ≢ Some WireFault.Memory)
        × (read.fault ≢ Some WireFault.Ended)) }
    ensures err { IfErr result (λ fault. fault ≡ WireFault.Memory) }
{
    let mut assembler = Assembler::new(alloc, limit);
    let mut payloads = Vec::new(alloc);
    for piece in pieces {
        let mut rest = *piece;
        loop {
            let Step { used, payload } = match assembler.step(rest) {
                Ok(step) => step,
                Err(WireFault::Sequence { want, got }) => {
                    let fault = Some(WireFault::Sequence { want, got });
                    return Ok(Reading { payloads, fault });
                }
                Err(WireFault::TooLarge) => {
                    let fault = Some(WireFault::TooLarge);
                    return Ok(Reading { payloads, fault });
                }
                Err(WireFault::Memory) => return Err(WireFault::Memory),
                Err(WireFault::Ended) => unreachable!(),
            };
            let Some(payload) = payload else {
                break;
            };
            payloads.push(payload)?;
            rest = &rest[used..];
        }
    }
    Ok(Reading {
        payloads,
        fault: None,
    })
}

//! What a replica sends to a source. MySQL Source Documentation, "Client/Server Protocol", the pages "Connection Phase"
//! and `COM_QUERY`, and "Replication Protocol", the page `COM_BINLOG_DUMP_GTID`.

ghost use Rattle.std.specs.Prelude.{◌≡◌, ◌⊎◌, ◌↔◌, List, ℕ, MatchResult, IfOk, IfErr, IsTrue, OnErr, Err};
ghost use Rattle.greet.specs.Message.{checksum_query};
ghost use Rattle.greet.specs.Complete.{HasResponse};
ghost use Rattle.gtid.specs.Identifier.{Ids};
ghost use Rattle.scripted_source.specs.Source.{TakesPayload, packets_fault, IsLastSent, AreLastSent, AreSent};
ghost use Rattle.scripted_source.specs.declared.fault.ForgeFault.TheVariants.{Request, Memory};

use crate::answering::read_request;
use crate::fault::ForgeFault;
use greet::{GreetFault, Response};
use gtid::GtidSet;
use std::alloc::Global;
use wire::{Assembler, LARGEST_PAYLOAD, Step, WireFault};

/// The payload of the query by which a replica asks for events without checksums.
const CHECKSUM_QUERY: &[u8] = b"\x03SET @master_binlog_checksum='NONE'";

/// Maps a fault of reading packets: any is `Request`, except `Memory`.
fn packets_fault(fault: WireFault) -> ForgeFault
    ensures { result ≡ packets_fault fault }
{
    match fault {
        WireFault::Memory => ForgeFault::Memory,
        _ => ForgeFault::Request,
    }
}

/// The payload at the front of the bytes, whose first packet must have this sequence id, and the bytes after its
/// packets.
fn take(alloc: Global, sequence: u8, bytes: &[u8]) -> Result<(Vec<u8>, &[u8]), ForgeFault>
    ensures found { IfOk result (λ taken. TakesPayload sequence bytes.now taken.0.items
        taken.1.now) }
    ensures only { (payload rest : List ℕ) → TakesPayload sequence bytes.now payload rest
        → MatchResult result (λ taken. (taken.0.items ≡ payload)
        × (taken.1.now ≡ rest)) (λ fault. fault ≡ Memory) }
    ensures err { IfErr result (λ fault. (fault ≡ Request) ⊎ (fault ≡ Memory)) }
{
    let mut assembler = Assembler::new(alloc, LARGEST_PAYLOAD);
    assembler.expect(sequence);
    match assembler.step(bytes) {
        Ok(step) => {
            let Step { used, payload } = step;
            match payload {
                Some(payload) => Ok((payload, &bytes[used..])),
                None => Err(ForgeFault::Request),
            }
        }
        Err(fault) => Err(packets_fault(fault)),
    }
}

/// Whether the payload is a response, with any content. The only error is `Memory`.
fn is_response(alloc: Global, payload: &[u8]) -> Result<bool, ForgeFault>
    ensures ok { IfOk result (λ is. IsTrue is ↔ HasResponse payload.now) }
    ensures err { OnErr result (result ≡ Err Memory) }
{
    match Response::read(alloc, payload) {
        Ok(_) => Ok(true),
        Err(GreetFault::Memory) => Err(ForgeFault::Memory),
        Err(_) => Ok(false),
    }
}

/// Whether the payload is the query for events without checksums.
fn is_query(payload: &[u8]) -> bool
    ensures { IsTrue result ↔ (payload.now ≡ checksum_query) }
{
    payload == CHECKSUM_QUERY
}

/// The set of the dump command whose packets these bytes are.
fn check_dump(alloc: Global, bytes: &[u8]) -> Result<GtidSet, ForgeFault>
    ensures found { IfOk result (IsLastSent bytes.now) }
    ensures only { (executed : Ids) → IsLastSent bytes.now executed
        → MatchResult result (λ found. found ≡ executed) (λ fault. fault ≡ Memory) }
    ensures err { IfErr result (λ fault. (fault ≡ Request) ⊎ (fault ≡ Memory)) }
{
    let (command, rest) = take(alloc, 0, bytes)?;
    if rest.len() > 0 {
        return Err(ForgeFault::Request);
    }
    let (_, executed) = read_request(alloc, &command)?;
    Ok(executed)
}

/// The set of the dump command, from the packets of the query and then those of the command.
fn check_commands(alloc: Global, bytes: &[u8]) -> Result<GtidSet, ForgeFault>
    ensures found { IfOk result (AreLastSent bytes.now) }
    ensures only { (executed : Ids) → AreLastSent bytes.now executed
        → MatchResult result (λ found. found ≡ executed) (λ fault. fault ≡ Memory) }
    ensures err { IfErr result (λ fault. (fault ≡ Request) ⊎ (fault ≡ Memory)) }
{
    let (query, rest) = take(alloc, 0, bytes)?;
    if !is_query(&query) {
        return Err(ForgeFault::Request);
    }
    check_dump(alloc, rest)
}

/// The set of the dump command in what a replica sent: the packets of a response, of the query for events without
/// checksums, and of the command, with nothing after them. The user and the answer to the scramble are not checked.
///
/// Clauses:
/// - `found`, `only`, `err`: the set is that of the dump command exactly if the bytes are a response, the query and the
///   command, else `Request`; or `Memory`
pub fn check(alloc: Global, bytes: &[u8]) -> Result<GtidSet, ForgeFault>
    ensures found { IfOk result (AreSent bytes.now) }
    ensures only { (executed : Ids) → AreSent bytes.now executed
        → MatchResult result (λ found. found ≡ executed) (λ fault. fault ≡ Memory) }
    ensures err { IfErr result (λ fault. (fault ≡ Request) ⊎ (fault ≡ Memory)) }
{
    let (login, rest) = take(alloc, 1, bytes)?;
    if !is_response(alloc, &login)? {
        return Err(ForgeFault::Request);
    }
    check_commands(alloc, rest)
}

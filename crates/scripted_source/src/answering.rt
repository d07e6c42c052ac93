//! What a source sends for a dump command. MySQL Source Documentation, "Replication Protocol", the page
//! `COM_BINLOG_DUMP_GTID`.

ghost use Rattle.std.specs.Prelude.{◌≡◌, ◌⊎◌, [], MatchResult, flat_map, IfOk, IfErr, OnOk, OnErr, Err};
ghost use Rattle.std.specs.List.{AllByRecursion};
ghost use Rattle.greet.specs.Message.{DumpValue};
ghost use Rattle.gtid.specs.Identifier.{Ids};
ghost use Rattle.gtid.specs.Encoding.{IsEncoding};
ghost use Rattle.scripted_source.specs.Script.{script_values, script_events};
ghost use Rattle.scripted_source.specs.Source.{AppendsPackings, set_fault, payloads_of, end_payloads, Asks, AsksFor, CanSend, due, IsScriptsFault, IsAnswer, IsAnswerFault};
ghost use Rattle.scripted_source.specs.declared.fault.ForgeFault.TheVariants.{Request, Memory};

use crate::fault::ForgeFault;
use crate::script::Script;
use crate::sending::{send_eof, send_script, send_short};
use binlog::Event;
use greet::Dump;
use gtid::{GtidFault, GtidSet};
use std::alloc::Global;

/// Maps a fault of reading the set: any is `Request`, except `Memory`.
fn set_fault(fault: GtidFault) -> ForgeFault
    ensures { result ≡ set_fault fault }
{
    match fault {
        GtidFault::Memory => ForgeFault::Memory,
        _ => ForgeFault::Request,
    }
}

/// The set that all of the bytes encode.
fn read_set(alloc: Global, bytes: &[u8]) -> Result<GtidSet, ForgeFault>
    ensures found { IfOk result (λ set. IsEncoding set bytes.now) }
    ensures only { (ids : Ids) → IsEncoding ids bytes.now
        → MatchResult result (λ set. set ≡ ids) (λ fault. fault ≡ Memory) }
    ensures err { IfErr result (λ fault. (fault ≡ Request) ⊎ (fault ≡ Memory)) }
{
    match GtidSet::decode(alloc, bytes) {
        Ok((set, used)) => {
            if used < bytes.len() {
                return Err(ForgeFault::Request);
            }
            Ok(set)
        }
        Err(fault) => Err(set_fault(fault)),
    }
}

/// Whether a dump command asks for an EOF at the end of the log, and its set. `Request` if the payload is not such a
/// command, or its set is not an encoded set; otherwise the only error is `Memory`.
pub(crate) fn read_request(alloc: Global, payload: &[u8]) -> Result<(bool, GtidSet), ForgeFault>
    ensures found { IfOk result (λ request. AsksFor payload.now request.0 request.1) }
    ensures only { (dump : DumpValue) (ids : Ids) → Asks payload.now dump ids
        → MatchResult result (λ request. request.1 ≡ ids) (λ fault. fault ≡ Memory) }
    ensures err { IfErr result (λ fault. (fault ≡ Request) ⊎ (fault ≡ Memory)) }
{
    let dump = match Dump::read(payload) {
        Ok(dump) => dump,
        Err(_) => return Err(ForgeFault::Request),
    };
    let set = read_set(alloc, dump.set)?;
    Ok((dump.flags % 2 == 1, set))
}

/// Appends the packets of the scripts that are not in the set, in their order.
fn send_due(
    alloc: Global,
    history: &[Script],
    executed: &GtidSet,
    sequence: u8,
    out: &mut Vec<u8>,
) -> Result<u8, ForgeFault>
    ensures ok { IfOk result (λ next. AppendsPackings sequence
        (payloads_of (flat_map script_events (due executed.now (script_values history.now))))
        out.old.items out.new.items next) }
    ensures can { OnOk result (AllByRecursion CanSend
        (due executed.now (script_values history.now))) }
    ensures err { IfErr result (λ fault. IsScriptsFault executed.now 0
        (script_values history.now) fault ⊎ (fault ≡ Memory)) }
{
    let mut next = sequence;
    for at in 0..history.len() {
        let script = &history[at];
        if executed.contains(script.gtid) {
            continue;
        }
        next = send_script(alloc, at, script, next, out)?;
    }
    Ok(next)
}

/// Appends the packet of an EOF, if one is asked for. The only error is `Memory`.
fn send_last(once: bool, sequence: u8, out: &mut Vec<u8>) -> Result<u8, ForgeFault>
    ensures ok { IfOk result (λ next. AppendsPackings sequence
        (end_payloads once) out.old.items out.new.items next) }
    ensures err { OnErr result (result ≡ Err Memory) }
{
    if once {
        send_eof(sequence, out)
    } else {
        Ok(sequence)
    }
}

/// What a source with this history sends in reply to a dump command, the payload `request`. The first packet has the
/// sequence id 1.
///
/// `Unfit`, with the script's index, if a part of it has cells that are not of its table's types, or a table that
/// cannot be encoded; `TooLarge` if an event of it is longer than a payload may be.
///
/// Clauses:
/// - `ok`: the bytes are a format description, the events of each script whose GTID the command lacks, in order, and,
///   if it asks for it, an EOF
/// - `err`: `Request` exactly if the payload is no such command or its set is not an encoded set; `Unfit` or `TooLarge`
///   for the first script that cannot be sent; or `Memory`
pub fn answer(alloc: Global, history: &[Script], request: &[u8]) -> Result<Vec<u8>, ForgeFault>
    ensures ok { IfOk result (λ bytes. IsAnswer
        (script_values history.now) request.now bytes.items) }
    ensures err { IfErr result (IsAnswerFault (script_values history.now) request.now) }
{
    let (once, executed) = read_request(alloc, request)?;
    let mut out = Vec::new(alloc);
    let next = send_short(alloc, &Event::Format, 1, &mut out)?;
    let next = send_due(alloc, history, &executed, next, &mut out)?;
    send_last(once, next, &mut out)?;
    Ok(out)
}

//! Events as packets. MySQL Source Documentation, "Client/Server Protocol", the page "MySQL Packets", and "Replication
//! Protocol", the page `COM_BINLOG_DUMP_GTID`.

ghost use Rattle.std.specs.Prelude.{◌≡◌, ◌<◌, ◌≤◌, ◌⊎◌, ◌↔◌, IsTrue, flat_map, [], ◌∷◌, length, IfOk, IfErr, OnOk, OnErr, Err};
ghost use Rattle.std.specs.List.{AllByRecursion};
ghost use Rattle.wire.specs.Packet.{largest_payload};
ghost use Rattle.binlog.specs.Event.{gtid, begin, table_map, rows};
ghost use Rattle.binlog.specs.RowsWritten.{rows_bytes};
ghost use Rattle.binlog.specs.EventView.{event_value};
ghost use Rattle.binlog.specs.Writing.{IsWritable};
ghost use Rattle.scripted_source.specs.Script.{part_value, part_values, part_events, rows_of, script_value, script_events, end_event};
ghost use Rattle.scripted_source.specs.Source.{AppendsPackings, payload_of, payloads_of, eof_payload, FitsPart, CanSendPart, CanSend, IsPartFault, IsPartsFault};
ghost use Rattle.scripted_source.specs.declared.fault.ForgeFault.TheVariants.{TooLarge, Memory};

use crate::fault::ForgeFault;
use crate::script::{Ending, Part, Script};
use binlog::{Event, RowsEvent, rows_fit, write_rows};
use greet::packet_header;
use gtid::Gtid;
use std::alloc::Global;
use wire::{WireFault, write_payload};

/// SERVER_STATUS_AUTOCOMMIT.
pub(crate) const AUTOCOMMIT: u16 = 2;

/// An EOF without warnings, in autocommit.
const EOF: &[u8] = &[packet_header::EOF, 0, 0, AUTOCOMMIT as u8, 0];

/// Appends the packets of a payload.
fn send(sequence: u8, payload: &[u8], out: &mut Vec<u8>) -> Result<u8, ForgeFault>
    ensures ok { IfOk result (λ next. AppendsPackings sequence
        (payload.now ∷ []) out.old.items out.new.items next) }
    ensures short { OnOk result (length payload.now ≤ largest_payload) }
    ensures err { IfErr result (λ fault. ((fault ≡ TooLarge)
        × (largest_payload < length payload.now)) ⊎ (fault ≡ Memory)) }
{
    match write_payload(sequence, payload, out) {
        Ok(next) => Ok(next),
        Err(WireFault::TooLarge) => Err(ForgeFault::TooLarge),
        Err(_) => Err(ForgeFault::Memory),
    }
}

/// Appends the packet of an EOF. The only error is `Memory`.
pub(crate) fn send_eof(sequence: u8, out: &mut Vec<u8>) -> Result<u8, ForgeFault>
    ensures ok { IfOk result (λ next. AppendsPackings sequence
        (eof_payload ∷ []) out.old.items out.new.items next) }
    ensures err { OnErr result (result ≡ Err Memory) }
{
    match write_payload(sequence, EOF, out) {
        Ok(next) => Ok(next),
        Err(_) => Err(ForgeFault::Memory),
    }
}

/// The payload of an event. The only error is `Memory`.
fn payload_of(alloc: Global, event: &Event<'_>) -> Result<Vec<u8>, ForgeFault>
    requires { IsWritable (event_value event.now) }
    ensures ok { IfOk result (λ payload. payload.items ≡ payload_of (event_value event.now)) }
    ensures err { OnErr result (result ≡ Err Memory) }
{
    let mut payload = Vec::new(alloc);
    payload.push(0)?;
    match event.write(&mut payload) {
        Ok(()) => Ok(payload),
        Err(_) => Err(ForgeFault::Memory),
    }
}

/// Appends the packets of an event.
fn send_event(
    alloc: Global,
    event: &Event<'_>,
    sequence: u8,
    out: &mut Vec<u8>,
) -> Result<u8, ForgeFault>
    requires { IsWritable (event_value event.now) }
    ensures ok { IfOk result (λ next. AppendsPackings sequence
        (payloads_of (event_value event.now ∷ [])) out.old.items out.new.items next) }
    ensures short { OnOk result (length (payload_of (event_value event.now)) ≤ largest_payload) }
    ensures err { IfErr result (λ fault. ((fault ≡ TooLarge)
        × (largest_payload < length (payload_of (event_value event.now)))) ⊎ (fault ≡ Memory)) }
{
    let payload = payload_of(alloc, event)?;
    send(sequence, &payload, out)
}

/// Appends the packets of a short event. The only error is `Memory`.
pub(crate) fn send_short(
    alloc: Global,
    event: &Event<'_>,
    sequence: u8,
    out: &mut Vec<u8>,
) -> Result<u8, ForgeFault>
    requires event { IsWritable (event_value event.now) }
    requires short { length (payload_of (event_value event.now)) ≤ largest_payload }
    ensures ok { IfOk result (λ next. AppendsPackings sequence
        (payloads_of (event_value event.now ∷ [])) out.old.items out.new.items next) }
    ensures err { OnErr result (result ≡ Err Memory) }
{
    match send_event(alloc, event, sequence, out) {
        Ok(next) => Ok(next),
        Err(_) => Err(ForgeFault::Memory),
    }
}

/// Whether the part's table map and the rows of its pairs can be written.
fn fits(part: &Part) -> bool
    ensures { IsTrue result ↔ FitsPart (part_value part.now) }
{
    map_fits(part) && rows_fit(part.kind, &part.table.types, &part.pairs)
}

/// Whether the part's table map can be written.
fn map_fits(part: &Part) -> bool
    ensures { IsTrue result ↔ IsWritable (table_map (part_value part.now).table) }
{
    Event::TableMap(part.table.map(part.id)).fits()
}

/// Appends the packets of a part's table map.
fn send_map(alloc: Global, part: &Part, sequence: u8, out: &mut Vec<u8>) -> Result<u8, ForgeFault>
    requires { FitsPart (part_value part.now) }
    ensures ok { IfOk result (λ next. AppendsPackings sequence
        (payloads_of (table_map (part_value part.now).table ∷ [])) out.old.items out.new.items
        next) }
    ensures short { OnOk result (length (payload_of (table_map (part_value part.now).table))
        ≤ largest_payload) }
    ensures err { IfErr result (λ fault. ((fault ≡ TooLarge)
        × (largest_payload < length (payload_of (table_map (part_value part.now).table))))
        ⊎ (fault ≡ Memory)) }
{
    send_event(
        alloc,
        &Event::TableMap(part.table.map(part.id)),
        sequence,
        out,
    )
}

/// The bytes of a part's rows. The only error is `Memory`.
fn rows_of(alloc: Global, part: &Part) -> Result<Vec<u8>, ForgeFault>
    requires { FitsPart (part_value part.now) }
    ensures ok { IfOk result (λ bytes. bytes.items
        ≡ rows_bytes (part_value part.now).table.columns (part_value part.now).pairs) }
    ensures err { OnErr result (result ≡ Err Memory) }
{
    let mut bytes = Vec::new(alloc);
    match write_rows(part.kind, &part.table.types, &part.pairs, &mut bytes) {
        Ok(()) => Ok(bytes),
        Err(_) => Err(ForgeFault::Memory),
    }
}

/// Appends the packets of a part's rows event.
fn send_rows(alloc: Global, part: &Part, sequence: u8, out: &mut Vec<u8>) -> Result<u8, ForgeFault>
    requires { FitsPart (part_value part.now) }
    ensures ok { IfOk result (λ next. AppendsPackings sequence
        (payloads_of (rows (rows_of (part_value part.now)) ∷ [])) out.old.items out.new.items
        next) }
    ensures event { OnOk result (IsWritable (rows (rows_of (part_value part.now)))) }
    ensures short { OnOk result (length (payload_of (rows (rows_of (part_value part.now))))
        ≤ largest_payload) }
    ensures err { IfErr result (λ fault. ((fault ≡ TooLarge)
        × (largest_payload < length (payload_of (rows (rows_of (part_value part.now))))))
        ⊎ (fault ≡ Memory)) }
{
    let bytes = rows_of(alloc, part)?;
    match RowsEvent::new(part.id, part.kind, part.table.types.len(), &bytes) {
        Some(event) => send_event(alloc, &Event::Rows(event), sequence, out),
        None => Err(ForgeFault::TooLarge),
    }
}

/// Appends the packets of a part of the script with this index.
fn send_part(
    alloc: Global,
    at: usize,
    part: &Part,
    sequence: u8,
    out: &mut Vec<u8>,
) -> Result<u8, ForgeFault>
    ensures ok { IfOk result (λ next. AppendsPackings sequence
        (payloads_of (part_events (part_value part.now))) out.old.items out.new.items next) }
    ensures can { OnOk result (CanSendPart (part_value part.now)) }
    ensures err { IfErr result (λ fault. IsPartFault at (part_value part.now) fault
        ⊎ (fault ≡ Memory)) }
{
    if !fits(part) {
        return Err(ForgeFault::Unfit(at));
    }
    let next = send_map(alloc, part, sequence, out)?;
    send_rows(alloc, part, next, out)
}

/// Appends the packets of the parts of the script with this index.
fn send_parts(
    alloc: Global,
    at: usize,
    parts: &[Part],
    sequence: u8,
    out: &mut Vec<u8>,
) -> Result<u8, ForgeFault>
    ensures ok { IfOk result (λ next. AppendsPackings sequence
        (payloads_of (flat_map part_events (part_values parts.now))) out.old.items out.new.items
        next) }
    ensures can { OnOk result (AllByRecursion CanSendPart (part_values parts.now)) }
    ensures err { IfErr result (λ fault. IsPartsFault at (part_values parts.now) fault
        ⊎ (fault ≡ Memory)) }
{
    let mut next = sequence;
    for part in parts {
        next = send_part(alloc, at, part, next, out)?;
    }
    Ok(next)
}

/// Appends the packets of a transaction's beginning. The only error is `Memory`.
fn announce(alloc: Global, id: Gtid, sequence: u8, out: &mut Vec<u8>) -> Result<u8, ForgeFault>
    ensures ok { IfOk result (λ next. AppendsPackings sequence
        (payloads_of (gtid id.source id.number ∷ begin ∷ [])) out.old.items out.new.items next) }
    ensures event { OnOk result (IsWritable (gtid id.source id.number)) }
    ensures err { OnErr result (result ≡ Err Memory) }
{
    let next = send_short(alloc, &Event::Gtid(id), sequence, out)?;
    send_short(alloc, &Event::Begin, next, out)
}

/// Appends the packets of a transaction's end. The only error is `Memory`.
fn send_end(
    alloc: Global,
    ending: Ending,
    number: u64,
    sequence: u8,
    out: &mut Vec<u8>,
) -> Result<u8, ForgeFault>
    ensures ok { IfOk result (λ next. AppendsPackings sequence
        (payloads_of (end_event ending number ∷ [])) out.old.items out.new.items next) }
    ensures event { OnOk result (IsWritable (end_event ending number)) }
    ensures err { OnErr result (result ≡ Err Memory) }
{
    match ending {
        Ending::Xid => send_short(alloc, &Event::Xid { number }, sequence, out),
        Ending::Commit => send_short(alloc, &Event::Commit, sequence, out),
    }
}

/// Appends the packets of the script with this index.
pub(crate) fn send_script(
    alloc: Global,
    at: usize,
    script: &Script,
    sequence: u8,
    out: &mut Vec<u8>,
) -> Result<u8, ForgeFault>
    ensures ok { IfOk result (λ next. AppendsPackings sequence
        (payloads_of (script_events (script_value script.now))) out.old.items out.new.items next) }
    ensures can { OnOk result (CanSend (script_value script.now)) }
    ensures err { IfErr result (λ fault. IsPartsFault at (script_value script.now).parts fault
        ⊎ (fault ≡ Memory)) }
{
    let next = announce(alloc, script.gtid, sequence, out)?;
    let next = send_parts(alloc, at, &script.parts, next, out)?;
    send_end(alloc, script.ending, script.gtid.number, next, out)
}

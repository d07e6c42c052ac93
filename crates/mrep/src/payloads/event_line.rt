//! The line of a payload that has an event.

use binlog::{Event, EventFault, Header, RowsEvent, RowsKind, TableMap, read_event};
use formats::write_table;
use messages::event_reason;
use std::io;
use std::io::Write;

/// The first byte of a payload that has an event.
const EVENT: u8 = 0;

/// Writes the line of a payload: its offset, its sequence id, and the event's type, size and kind. If it does not have
/// a valid event, the line says what is wrong. Returns whether it does.
pub fn write_event<W: Write>(
    offset: u64,
    sequence: u8,
    payload: &[u8],
    out: &mut W,
) -> io::Result<bool> {
    match payload {
        [] => write_fault("Greet.Truncated", 0, out),
        [EVENT, bytes @ ..] => match read(bytes) {
            Ok((header, event)) => write_line(offset, sequence, header, &event, out),
            Err(fault) => write_fault(event_reason(fault.kind), fault.at, out),
        },
        _ => write_fault("Greet.Unexpected", 0, out),
    }
}

/// Writes what is wrong with a payload, and returns that something is.
fn write_fault<W: Write>(reason: &str, at: usize, out: &mut W) -> io::Result<bool> {
    writeln!(out, "fault {reason} at {at}")?;
    Ok(false)
}

/// Writes the line of an event, and returns that nothing is wrong with it.
fn write_line<W: Write>(
    offset: u64,
    sequence: u8,
    header: Header,
    event: &Event<'_>,
    out: &mut W,
) -> io::Result<bool> {
    write!(out, "{offset} {sequence} {} {} ", header.code, header.size)?;
    write_kind(event, out)?;
    writeln!(out)?;
    Ok(true)
}

fn read(bytes: &[u8]) -> Result<(Header, Event<'_>), EventFault> {
    let header = Header::read(bytes)?;
    let event = read_event(bytes)?;
    Ok((header, event))
}

/// The name of an event's kind.
fn kind(event: &Event<'_>) -> &'static str {
    match event {
        Event::Format => "Format",
        Event::Begin => "Begin",
        Event::Commit => "Commit",
        Event::Neutral => "Neutral",
        Event::Stop => "Stop",
        Event::Rotate { .. } => "Rotate",
        Event::Gtid(_) => "Gtid",
        Event::TableMap(_) => "TableMap",
        Event::OtherMap { .. } => "OtherMap",
        Event::Rows(_) => "Rows",
        Event::Xid { .. } => "Xid",
    }
}

/// Writes the kind of an event, and what it is about.
fn write_kind<W: Write>(event: &Event<'_>, out: &mut W) -> io::Result<()> {
    out.write_all(kind(event).as_bytes())?;
    match event {
        Event::Gtid(gtid) => write!(out, " {gtid}"),
        Event::TableMap(map) => write_map(map, out),
        Event::OtherMap { id } => write!(out, " {id}"),
        Event::Rows(rows) => write_rows(rows, out),
        _ => Ok(()),
    }
}

fn write_map<W: Write>(map: &TableMap<'_>, out: &mut W) -> io::Result<()> {
    write!(out, " {} ", map.id)?;
    write_table(map.schema, map.table, out)?;
    write!(out, " {}", map.types.len())
}

fn write_rows<W: Write>(rows: &RowsEvent<'_>, out: &mut W) -> io::Result<()> {
    let kind = match rows.kind {
        RowsKind::Write => "write",
        RowsKind::Update => "update",
        RowsKind::Delete => "delete",
    };
    write!(out, " {} {kind}", rows.id)
}

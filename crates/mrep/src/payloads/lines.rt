//! The lines of payloads.

use crate::payloads::event_line::write_event;
use crate::payloads::listing::{Listing, PayloadEntry};
use messages::wire_reason;
use std::io;
use std::io::Write;
use wire::WireFault;

/// What is printed of a payload.
#[derive(Clone, Copy, Debug, PartialEq, Eq)]
pub enum Lines {
    /// Its length.
    Packets,
    /// Its event.
    Events,
}

/// Why no more lines can be written.
#[derive(Debug, Drop)]
pub enum ListFault {
    /// The output could not be written.
    Output(io::Error),
    /// Memory ran out for a payload.
    Memory,
}

/// Writes a line for each payload that a piece of the stream completes, each at once, and returns whether there was no
/// fault. The line of a fault is the last one.
pub fn list_piece<W: Write>(
    listing: &mut Listing,
    lines: Lines,
    piece: &[u8],
    out: &mut W,
) -> Result<bool, ListFault> {
    let mut rest = piece;
    while !rest.is_empty() {
        match listing.feed(rest) {
            Ok((used, Some(entry))) => {
                rest = &rest[used..];
                if !write_entry(lines, &entry, out).map_err(ListFault::Output)? {
                    return Ok(false);
                }
            }
            Ok((_, None)) => return Ok(true),
            Err(WireFault::Memory) => return Err(ListFault::Memory),
            Err(fault) => {
                write_fault(fault, listing.begin, out).map_err(ListFault::Output)?;
                return Ok(false);
            }
        }
    }
    Ok(true)
}

/// Writes the line of a fault of the packets.
fn write_fault<W: Write>(fault: WireFault, begin: u64, out: &mut W) -> io::Result<()> {
    let reason = wire_reason(fault);
    writeln!(out, "fault {reason} at {begin}")
}

/// Writes the line of a payload, and returns whether it is without a fault.
fn write_entry<W: Write>(lines: Lines, entry: &PayloadEntry, out: &mut W) -> io::Result<bool> {
    let PayloadEntry {
        offset,
        sequence,
        ..
    } = entry;
    match lines {
        Lines::Packets => {
            let length = entry.payload.len();
            writeln!(out, "{offset} {sequence} {length}")?;
            Ok(true)
        }
        Lines::Events => write_event(*offset, *sequence, &entry.payload, out),
    }
}

//! FORMAT_DESCRIPTION: the format of the events that follow it. MySQL Source Documentation, "Binlog Event", the page
//! `binary_log::Format_description_event`.

ghost use Rattle.std.specs.Prelude.{◌≡◌, ◌≤◌, length, drop, IfErr, IfSome, IfNone, OnOk, IsOk, Ok, Some, None, ◌+◌, vec_len, vec_capacity};
ghost use Rattle.binlog.specs.Header.{header_length};
ghost use Rattle.binlog.specs.Body.{IsFormat, format_fault, length_refusals, read_lengths};
ghost use Rattle.binlog.specs.Fault.{first_of};
ghost use Rattle.binlog.specs.Writing.{format_body};
ghost use Rattle.gtid.specs.Appending.{AppendsBytes};

use crate::event_type;
use crate::fault::{EventFault, EventFaultKind};
use crate::header::HEADER_LENGTH;
use byteorder::{ByteOrder, LittleEndian};

/// The supported types with post-headers, and the lengths of these.
const LENGTHS: [(usize, u8); 6] = [
    (event_type::QUERY as usize, 13),
    (event_type::ROTATE as usize, 8),
    (event_type::TABLE_MAP as usize, 8),
    (event_type::WRITE_ROWS as usize, 10),
    (event_type::UPDATE_ROWS as usize, 10),
    (event_type::DELETE_ROWS as usize, 10),
];

/// The body that is written: version 4, server 8.0.36, and the post-header lengths of 35 types, which are 0 for
/// types that are not supported.
pub(crate) const FORMAT: &[u8] = &[
    4, 0, 56, 46, 48, 46, 51, 54, 0, 0, 0, 0, 0, 0, 0, 0, 0, 0, 0, 0, 0, 0, 0, 0, 0, 0, 0, 0, 0, 0,
    0, 0, 0, 0, 0, 0, 0, 0, 0, 0, 0, 0, 0, 0, 0, 0, 0, 0, 0, 0, 0, 0, 0, 0, 0, 0, 19, 0, 13, 0, 8,
    0, 0, 0, 0, 0, 0, 0, 0, 0, 0, 0, 0, 0, 0, 8, 0, 0, 0, 0, 0, 0, 0, 0, 0, 0, 10, 10, 10, 0, 0, 0,
    0, 0, 0, 0, 0,
];

/// Reads a format description: version 4, the expected post-header lengths of the supported types, and no checksums.
#[tactic(auto, unfolding(crate::specs::Body::format_fault))]
pub(crate) fn read_format(bytes: &[u8]) -> Result<(), EventFault>
    ensures found { OnOk result (IsFormat (drop header_length bytes.now)) }
    ensures only { IsFormat (drop header_length bytes.now) → IsOk result }
    ensures fault { IfErr result (λ fault. format_fault bytes.now ≡ Some fault) }
{
    match bytes.len() {
        0..21 => return Err(EventFault::truncated(19)),
        21..71 => return Err(EventFault::truncated(21)),
        71..75 => return Err(EventFault::truncated(71)),
        75 => return Err(EventFault::truncated(75)),
        76 => return Err(EventFault::truncated(76)),
        77..81 => return Err(EventFault::truncated(77)),
        _ => {}
    }
    if LittleEndian::read_u16(&bytes[19..]) != 4 {
        return Err(EventFault::new(EventFaultKind::FormatVersion, 19));
    }
    if bytes[75] != HEADER_LENGTH as u8 {
        return Err(EventFault::new(EventFaultKind::HeaderLengths, 75));
    }
    if bytes.len() < 116 {
        return Err(EventFault::new(EventFaultKind::HeaderLengths, 76));
    }
    if let Some(at) = wrong_length(bytes) {
        return Err(EventFault::new(EventFaultKind::HeaderLengths, at));
    }
    let at = bytes.len() - 5;
    let algorithm = bytes[at];
    if algorithm != 0 {
        return Err(EventFault::new(EventFaultKind::Checksum(algorithm), at));
    }
    Ok(())
}

/// The offset of the first post-header length that is not the expected one.
fn wrong_length(bytes: &[u8]) -> Option<usize>
    requires { 116 ≤ length bytes.now }
    ensures some { IfSome result (λ at. first_of (length_refusals bytes.now read_lengths)
        ≡ Some (record { kind = EventFaultKind.HeaderLengths; at = at })) }
    ensures none { IfNone result (first_of (length_refusals bytes.now read_lengths) ≡ None) }
{
    for (code, length) in LENGTHS {
        if bytes[75 + code] != length {
            return Some(75 + code);
        }
    }
    None
}

/// Appends the body of a format description.
pub(crate) fn write_format(out: &mut Vec<u8>)
    requires { vec_len out.old + length format_body ≤ vec_capacity out.old }
    ensures { AppendsBytes out.old out.new format_body }
{
    out.extend_from_slice(FORMAT).unwrap();
}

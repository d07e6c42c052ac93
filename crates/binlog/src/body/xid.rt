//! XID: the end of a transaction. MySQL Source Documentation, "Binlog Event", the page `binary_log::Xid_event`.

ghost use Rattle.std.specs.Prelude.{◌≡◌, ℕ, drop, IfOk, IfErr, Ok, Some, ◌↔◌, IsTrue, length, ◌+◌, vec_len, vec_capacity, ◌≤◌};
ghost use Rattle.binlog.specs.Body.{IsXid, xid_fault};
ghost use Rattle.binlog.specs.Event.{xid};
ghost use Rattle.binlog.specs.Writing.{IsWritable};
ghost use Rattle.byteorder.specs.Endian.{little_bytes};
ghost use Rattle.binlog.specs.Header.{header_length};
ghost use Rattle.gtid.specs.Appending.{AppendsBytes};

use crate::fault::{EventFault, EventFaultKind};
use byteorder::{ByteOrder, LittleEndian};

/// Reads an XID event: its number.
#[tactic(auto, unfolding(crate::specs::Body::xid_fault))]
pub(crate) fn read_xid(bytes: &[u8]) -> Result<u64, EventFault>
    ensures found { IfOk result (λ number. IsXid number (drop header_length bytes.now)) }
    ensures only { (number : ℕ) → IsXid number (drop header_length bytes.now) → result ≡ Ok number }
    ensures fault { IfErr result (λ fault. xid_fault bytes.now ≡ Some fault) }
{
    if bytes.len() < 27 {
        return Err(EventFault::truncated(19));
    }
    if bytes.len() > 27 {
        return Err(EventFault::new(EventFaultKind::Trailing, 27));
    }
    Ok(LittleEndian::read_u64(&bytes[19..]))
}

/// Whether the end of a transaction can be written: every one can.
pub(crate) fn xid_fits(number: u64) -> bool
    ensures { IsTrue result ↔ IsWritable (xid number) }
{
    true
}

/// Appends the body of an XID event.
pub(crate) fn write_xid(number: u64, out: &mut Vec<u8>)
    requires { vec_len out.old + length (little_bytes 8 number) ≤ vec_capacity out.old }
    ensures { AppendsBytes out.old out.new (little_bytes 8 number) }
{
    out.extend_from_slice(&number.to_le_bytes()).unwrap();
}

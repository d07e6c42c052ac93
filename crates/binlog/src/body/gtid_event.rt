//! GTID: the GTID of the transaction that begins. MySQL Source Documentation, "Binlog Event", the page
//! `binary_log::Gtid_event`.

ghost use Rattle.std.specs.Prelude.{◌≡◌, ℕ, List, drop, IfOk, IfErr, Ok, Some, None, ◌↔◌, IsTrue, length, ◌+◌, vec_len, vec_capacity, ◌≤◌};
ghost use Rattle.binlog.specs.Header.{header_length};
ghost use Rattle.binlog.specs.Body.{IsGtidBody, gtid_fault};
ghost use Rattle.binlog.specs.Event.{gtid};
ghost use Rattle.binlog.specs.Writing.{IsWritable};
ghost use Rattle.binlog.specs.Writing.{gtid_body};
ghost use Rattle.gtid.specs.Appending.{AppendsBytes};

use crate::fault::{EventFault, EventFaultKind};
use byteorder::{ByteOrder, LittleEndian};
use gtid::Gtid;

/// Reads the GTID of a GTID event.
#[tactic(auto, unfolding(crate::specs::Body::gtid_fault))]
pub(crate) fn read_gtid(bytes: &[u8]) -> Result<Gtid, EventFault>
    ensures found { IfOk result (λ gtid. IsGtidBody gtid.source gtid.number
        (drop header_length bytes.now)) }
    ensures only { (source : List ℕ) (number : ℕ)
        → IsGtidBody source number (drop header_length bytes.now)
        → IfOk result (λ gtid. (gtid.source ≡ source) × (gtid.number ≡ number)) }
    ensures fault { IfErr result (λ fault. gtid_fault bytes.now ≡ Some fault) }
{
    match bytes.len() {
        0..20 => return Err(EventFault::truncated(19)),
        20..36 => return Err(EventFault::truncated(20)),
        36..44 => return Err(EventFault::truncated(36)),
        _ => {}
    }
    let mut source = [0; 16];
    source.copy_from_slice(&bytes[20..36]);
    let number = LittleEndian::read_u64(&bytes[36..]);
    match Gtid::new(source, number) {
        Some(gtid) => Ok(gtid),
        None => Err(EventFault::new(EventFaultKind::Number, 36)),
    }
}

/// Whether a GTID can be written: every GTID can.
pub(crate) fn gtid_fits(id: Gtid) -> bool
    ensures { IsTrue result ↔ IsWritable (gtid id.source id.number) }
{
    true
}

/// How many bytes the body of a GTID event takes.
pub(crate) const GTID_LENGTH: usize = 25;

/// Appends the body of a GTID event.
pub(crate) fn write_gtid(id: Gtid, out: &mut Vec<u8>)
    requires { vec_len out.old + length (gtid_body id.source id.number) ≤ vec_capacity out.old }
    ensures { AppendsBytes out.old out.new (gtid_body id.source id.number) }
{
    out.push(0).unwrap();
    out.extend_from_slice(&id.source).unwrap();
    out.extend_from_slice(&id.number.to_le_bytes()).unwrap();
}

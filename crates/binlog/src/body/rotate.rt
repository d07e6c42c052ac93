//! ROTATE: the log goes on in another file. MySQL Source Documentation, "Binlog Event", the page
//! `binary_log::Rotate_event`.

ghost use Rattle.std.specs.Prelude.{◌≡◌, ℕ, List, drop, IfOk, IfErr, Ok, Some, ◌↔◌, IsTrue, ◌++◌, length, ◌+◌, vec_len, vec_capacity, ◌≤◌};
ghost use Rattle.binlog.specs.Body.{IsRotate, rotate_fault};
ghost use Rattle.binlog.specs.Event.{rotate};
ghost use Rattle.binlog.specs.Writing.{IsWritable};
ghost use Rattle.byteorder.specs.Endian.{little_bytes};
ghost use Rattle.binlog.specs.Header.{header_length};
ghost use Rattle.gtid.specs.Appending.{AppendsBytes};

use crate::fault::EventFault;
use byteorder::{ByteOrder, LittleEndian};

/// Reads a rotation: the position in the next file, and the file's name.
#[tactic(auto, unfolding(crate::specs::Body::rotate_fault))]
pub(crate) fn read_rotate(bytes: &[u8]) -> Result<(u64, &[u8]), EventFault>
    ensures found { IfOk result (λ read. IsRotate read.0 read.1.now
        (drop header_length bytes.now)) }
    ensures only { (position : ℕ) (name : List ℕ)
        → IsRotate position name (drop header_length bytes.now)
        → IfOk result (λ read. (read.0 ≡ position) × (read.1.now ≡ name)) }
    ensures fault { IfErr result (λ fault. rotate_fault bytes.now ≡ Some fault) }
{
    if bytes.len() < 27 {
        return Err(EventFault::truncated(19));
    }
    Ok((LittleEndian::read_u64(&bytes[19..]), &bytes[27..]))
}

/// Whether a rotation can be written: the file's name is short enough.
pub(crate) fn rotate_fits(position: u64, name: &[u8]) -> bool
    ensures { IsTrue result ↔ IsWritable (rotate position name.now) }
{
    name.len() < (1 << 32) - 27
}

/// Appends the body of a rotation.
pub(crate) fn write_rotate(position: u64, name: &[u8], out: &mut Vec<u8>)
    requires { vec_len out.old + length (little_bytes 8 position ++ name.now) ≤ vec_capacity out.old }
    ensures { AppendsBytes out.old out.new (little_bytes 8 position ++ name.now) }
{
    out.extend_from_slice(&position.to_le_bytes()).unwrap();
    out.extend_from_slice(name).unwrap();
}

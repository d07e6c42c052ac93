//! The header of an event. MySQL Source Documentation, "Binlog Event", the page
//! `binary_log::Log_event_header`.

ghost use Rattle.std.specs.Prelude.{◌≡◌, ℕ, Bool, List, length, drop, IfOk, IfErr, Ok, Some};
ghost use Rattle.binlog.specs.Header.{header_length, IsFramed, header_fault};
ghost use Rattle.binlog.specs.Writing.{header_bytes};

use crate::fault::{EventFault, EventFaultKind};
use byteorder::{ByteOrder, LittleEndian};

/// The length in bytes of a header.
pub(crate) const HEADER_LENGTH: usize = 19;

/// LOG_EVENT_IGNORABLE_F, in the low byte of the flags: of these bits it is the highest.
const IGNORABLE_FLAG: u8 = 0x80;

/// The fields of a header that are read.
#[derive(Clone, Copy, Debug, PartialEq, Eq)]
pub struct Header {
    /// The event's type code.
    pub code: u8,
    /// The length in bytes of the whole event, header included.
    pub size: u32,
    /// Whether the flag LOG_EVENT_IGNORABLE_F (0x0080) is set: a reader that does not know the type may ignore the
    /// event.
    pub may_ignore: bool,
}

impl Header {
    /// Reads the header of an event. `bytes` must be the whole event, since the size that the header states has to be
    /// their number: for the 19 bytes of a header alone that is an event without a body.
    ///
    /// A field that does not fit the bytes is reported as `Truncated` at its first byte; then a size other than the
    /// number of the bytes as `Size`.
    ///
    /// Clauses: as [`read_event`], and:
    /// - `size`: the size is the number of the bytes
    #[tactic(auto, unfolding(crate::specs::Header::header_fault))]
    pub fn read(bytes: &[u8]) -> Result<Header, EventFault>
        ensures found { IfOk result (λ header. IsFramed header.code header.may_ignore
            (drop header_length bytes.now) bytes.now) }
        ensures size { IfOk result (λ header. header.size ≡ length bytes.now) }
        ensures only { (code : ℕ) (may_ignore : Bool) (body : List ℕ)
            → IsFramed code may_ignore body bytes.now
            → result ≡ Ok (record {
              code = code;
              size = length bytes.now;
              may_ignore =
                  may_ignore;
            }) }
        ensures fault { IfErr result (λ fault. header_fault bytes.now ≡ Some fault) }
    {
        match bytes.len() {
            0..4 => return Err(EventFault::truncated(0)),
            4 => return Err(EventFault::truncated(4)),
            5..9 => return Err(EventFault::truncated(5)),
            9..13 => return Err(EventFault::truncated(9)),
            13..17 => return Err(EventFault::truncated(13)),
            17..19 => return Err(EventFault::truncated(17)),
            _ => {}
        }
        let size = LittleEndian::read_u32(&bytes[9..]);
        if size as usize != bytes.len() {
            return Err(EventFault::new(EventFaultKind::Size, 9));
        }
        Ok(Header {
            code: bytes[4],
            size,
            may_ignore: bytes[17] >= IGNORABLE_FLAG,
        })
    }
}

/// A header with time 0, server 1, next position 0 and no flags.
pub(crate) fn header_bytes(code: u8, size: u32) -> [u8; HEADER_LENGTH]
    ensures { result ≡ header_bytes code size }
{
    let [a, b, c, d] = size.to_le_bytes();
    [0, 0, 0, 0, code, 1, 0, 0, 0, a, b, c, d, 0, 0, 0, 0, 0, 0]
}

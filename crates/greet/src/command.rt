//! The replica's commands. MySQL Source Documentation, "Client/Server Protocol", the page `COM_QUERY`, and
//! "Replication Protocol", the page `COM_BINLOG_DUMP_GTID`.

ghost use Rattle.std.specs.Prelude.{◌≡◌, ◌≢◌, ◌<◌, ◌+◌, [], ◌++◌, length, drop, IsTrue, ◌↔◌, IfOk, IfErr, MatchResult, OnOk, OnErr, Ok, Err, vec_len, vec_capacity};
ghost use Rattle.byteorder.specs.Endian.{little_bytes, little_number};
ghost use Rattle.greet.specs.Message.{DumpValue, IsDump, FitsDump, dump_bytes, query_bytes};
ghost use Rattle.greet.specs.Refusal.{dump_refusal, dump_name_size, dump_set_size};
ghost use Rattle.greet.specs.View.{dump_value, Refuses};

use crate::fault::GreetFault;
use crate::packet_header::{COM_BINLOG_DUMP_GTID, COM_QUERY};
use crate::parts::append;
use byteorder::{ByteOrder, LittleEndian};

/// The position of the first event in a binary log file.
const FIRST_POSITION: u64 = 4;

/// Appends a COM_QUERY with this text.
///
/// Clauses: as [`Greeting::write`]
pub fn query(text: &[u8], out: &mut Vec<u8>) -> Result<(), GreetFault>
    ensures ok { OnOk result (out.new.items ≡ out.old.items ++ query_bytes text.now) }
    ensures err { OnErr result ((result ≡ Err GreetFault.Memory)
        × (out.new.items ≡ out.old.items)) }
    ensures full { OnErr result (vec_capacity out.old
        < vec_len out.old + length (query_bytes text.now)) }
{
    append(&[&[COM_QUERY], text], out)
}

/// COM_BINLOG_DUMP_GTID: asks the source for the transactions that are not in a set.
#[derive(Clone, Copy, Debug)]
pub struct Dump<'a> {
    /// `BINLOG_THROUGH_GTID` (0x0004), and `BINLOG_DUMP_NON_BLOCK` (0x0001) if the source is to send an EOF at the end
    /// of its log instead of waiting there.
    pub flags: u16,
    /// The replica's server id.
    pub server_id: u32,
    /// The set of GTIDs that the replica has, encoded as this command carries it.
    pub set: &'a [u8],
}

impl<'a> Dump<'a> {
    /// Whether the command can be written: the set has fewer than 2^32 bytes.
    pub fn fits(&self) -> bool
        ensures { IsTrue result ↔ FitsDump (dump_value self.now) }
    {
        self.set.len() <= u32::MAX as usize
    }

    /// Appends the command, with an empty file name and position 4.
    ///
    /// Clauses: as [`Greeting::write`]
    pub fn write(&self, out: &mut Vec<u8>) -> Result<(), GreetFault>
        requires { FitsDump (dump_value self.now) }
        ensures ok { OnOk result (out.new.items ≡ out.old.items ++ dump_bytes
            (dump_value self.now) [] (little_bytes 8 4)) }
        ensures err { OnErr result ((result ≡ Err GreetFault.Memory)
            × (out.new.items ≡ out.old.items)) }
        ensures full { OnErr result (vec_capacity out.old
            < vec_len out.old + length (dump_bytes (dump_value self.now) [] (little_bytes 8 4))) }
    {
        let size = self.set.len() as u32;
        append(
            &[
                &[COM_BINLOG_DUMP_GTID],
                &self.flags.to_le_bytes(),
                &self.server_id.to_le_bytes(),
                &[0; 4],
                &FIRST_POSITION.to_le_bytes(),
                &size.to_le_bytes(),
                self.set,
            ],
            out,
        )
    }

    /// Reads a dump command with any file name and position.
    ///
    /// `Truncated` if the payload is empty, a field does not fit or bytes are left over; `Unexpected` if the first byte
    /// is not that of the command.
    ///
    /// Clauses: as [`Greeting::read`], and:
    /// - `no_memory`: it takes no memory
    pub fn read(payload: &'a [u8]) -> Result<Dump<'a>, GreetFault>
        ensures found { IfOk result (λ dump. IsDump (dump_value dump) payload.now) }
        ensures only { (d : DumpValue) → IsDump d payload.now
            → MatchResult result (λ dump. dump_value dump ≡ d) (λ _. ⊥) }
        ensures fault { IfErr result (Refuses (dump_refusal payload.now)) }
        ensures no_memory { IfErr result (λ fault. fault ≢ GreetFault.Memory) }
    {
        match payload {
            [] => Err(GreetFault::Truncated),
            [COM_BINLOG_DUMP_GTID, body @ ..] => Dump::read_fields(body),
            [other, ..] => Err(GreetFault::Unexpected(*other)),
        }
    }

    /// Reads the fields after the first byte, if they have exactly the lengths that they state.
    fn read_fields(body: &'a [u8]) -> Result<Dump<'a>, GreetFault>
        ensures flags { IfOk result (λ dump. dump.flags ≡ little_number 2 body.now) }
        ensures server_id { IfOk result (λ dump. dump.server_id
            ≡ little_number 4 (drop 2 body.now)) }
        ensures set { IfOk result (λ dump. dump.set.now
            ≡ drop (22 + dump_name_size body.now) body.now) }
        ensures whole { IfOk result (λ _. length body.now
            ≡ 22 + dump_name_size body.now + dump_set_size body.now) }
        ensures fault { IfErr result (λ fault. (fault ≡ GreetFault.Truncated)
            × (length body.now ≢ 22 + dump_name_size body.now + dump_set_size body.now)) }
    {
        if body.len() < 22 {
            return Err(GreetFault::Truncated);
        }
        let name_size = LittleEndian::read_u32(&body[6..]) as usize;
        if body.len() < 22 + name_size {
            return Err(GreetFault::Truncated);
        }
        let set_size = LittleEndian::read_u32(&body[18 + name_size..]) as usize;
        let set = &body[22 + name_size..];
        if set.len() != set_size {
            return Err(GreetFault::Truncated);
        }
        Ok(Dump {
            flags: LittleEndian::read_u16(body),
            server_id: LittleEndian::read_u32(&body[2..]),
            set,
        })
    }
}

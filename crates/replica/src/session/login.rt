//! Messages that a replica sends.

ghost use Rattle.std.specs.Prelude.{◌≡◌, ◌⊎◌, ◌+◌, ◌≤◌, length, [], IfOk, OnOk, OnErr, IfErr, Err, Ok};
ghost use Rattle.byteorder.specs.Endian.{little_bytes};
ghost use Rattle.wire.specs.Packet.{largest_payload};
ghost use Rattle.greet.specs.Message.{response, dump_bytes, checksum_query};
ghost use Rattle.gtid.specs.Encoding.{IsEncoding};
ghost use Rattle.replica.specs.Conn.{dump_lead, IsDumpTooLong};
ghost use Rattle.replica.specs.Sent.{auth_bytes, flags_of};
ghost use Rattle.replica.specs.PayloadStep.{Sends, SendsDump};
ghost use Rattle.wire.specs.declared.fault.WireFault.TheVariants as wire;
ghost use Rattle.replica.specs.declared.session.end.Reason.TheVariants.{Memory, Wire};

use crate::session::config::Config;
use crate::session::end::Reason;
use greet::{Dump, Response, native, query};
use gtid::GtidSet;
use std::alloc::{AllocError, Global};
use wire::{LARGEST_PAYLOAD, WireFault, write_payload};

/// The query that makes a source send its events without checksums.
const CHECKSUM_QUERY: &[u8] = b"SET @master_binlog_checksum='NONE'";

/// BINLOG_THROUGH_GTID: the command has a set of GTIDs.
const THROUGH_GTID: u16 = 0x0004;

/// BINLOG_DUMP_NON_BLOCK: the source sends an EOF at the end of its log.
const NON_BLOCK: u16 = 0x0001;

/// The length in bytes of a dump command without its set.
const DUMP_LEAD: usize = 23;

/// The response to a scramble: empty for the empty password.
fn auth(alloc: Global, password: &[u8], scramble: &[u8; 20]) -> Result<Vec<u8>, AllocError>
    ensures bytes { IfOk result (λ bytes. bytes.items ≡ auth_bytes password.now scramble.now) }
    ensures short { IfOk result (λ bytes. length bytes.items ≤ 20) }
{
    if password.is_empty() {
        return Ok(Vec::new(alloc));
    }
    native(password, scramble).to_vec(alloc)
}

/// Appends the packing of a payload. The only error is `Memory`.
fn send(sequence: u8, payload: &[u8], out: &mut Vec<u8>) -> Result<(), Reason>
    ensures ok { OnOk result (Sends sequence payload.now out.old.items out.new.items) }
    ensures err { OnErr result (result ≡ Err Memory) }
    ensures kept { OnErr result (out.new.items ≡ out.old.items) }
{
    match write_payload(sequence, payload, out) {
        Ok(_) => Ok(()),
        Err(_) => Err(Reason::Memory),
    }
}

/// The response to a greeting with this scramble.
fn response_to(config: &Config, scramble: &[u8; 20]) -> Result<Vec<u8>, Reason>
    ensures ok { IfOk result (λ payload. payload.items
        ≡ response (record {
          user = config.now.user;
          auth = auth_bytes config.now.password
              scramble.now;
        })) }
    ensures err { IfErr result (λ reason. reason ≡ Memory) }
{
    let Ok(auth) = auth(config.alloc(), &config.password, scramble) else {
        return Err(Reason::Memory);
    };
    let Ok(user) = config.user.clone() else {
        return Err(Reason::Memory);
    };
    let response = Response { user, auth };
    let mut payload = Vec::new(config.alloc());
    match response.write(&mut payload) {
        Ok(()) => Ok(payload),
        Err(_) => Err(Reason::Memory),
    }
}

/// Appends the response to a greeting with this scramble.
pub(crate) fn log_in(config: &Config, scramble: &[u8; 20], out: &mut Vec<u8>) -> Result<(), Reason>
    ensures ok { OnOk result (Sends 1 (response
        (record { user = config.now.user; auth = auth_bytes config.now.password scramble.now }))
        out.old.items out.new.items) }
    ensures err { OnErr result (result ≡ Err Memory) }
    ensures kept { OnErr result (out.new.items ≡ out.old.items) }
{
    match response_to(config, scramble) {
        Ok(payload) => send(1, &payload, out),
        Err(reason) => Err(reason),
    }
}

/// Appends the response to the scramble of a switch.
pub(crate) fn log_in_again(
    config: &Config,
    scramble: &[u8; 20],
    out: &mut Vec<u8>,
) -> Result<(), Reason>
    ensures ok { OnOk result (Sends 3 (auth_bytes config.now.password scramble.now) out.old.items
        out.new.items) }
    ensures err { OnErr result (result ≡ Err Memory) }
    ensures kept { OnErr result (out.new.items ≡ out.old.items) }
{
    let Ok(auth) = auth(config.alloc(), &config.password, scramble) else {
        return Err(Reason::Memory);
    };
    send(3, &auth, out)
}

/// Appends the query that turns checksums off.
pub(crate) fn turn_checksums_off(alloc: Global, out: &mut Vec<u8>) -> Result<(), Reason>
    ensures ok { OnOk result (Sends 0 checksum_query out.old.items out.new.items) }
    ensures err { OnErr result (result ≡ Err Memory) }
    ensures kept { OnErr result (out.new.items ≡ out.old.items) }
{
    let mut payload = Vec::new(alloc);
    match query(CHECKSUM_QUERY, &mut payload) {
        Ok(()) => send(0, &payload, out),
        Err(_) => Err(Reason::Memory),
    }
}

/// The flags of the dump command.
fn flags(once: bool) -> u16
    ensures { result ≡ flags_of once }
{
    if once {
        THROUGH_GTID | NON_BLOCK
    } else {
        THROUGH_GTID
    }
}

/// The executed set as encoded for the dump command. `TooLarge` if the command would be longer than a payload may be.
fn encoded(alloc: Global, executed: &GtidSet) -> Result<Vec<u8>, Reason>
    ensures ok { IfOk result (λ set. IsEncoding executed.now set.items
        × (dump_lead + length set.items ≤ largest_payload)) }
    ensures err { IfErr result (λ reason. (reason ≡ Memory)
        ⊎ ((reason ≡ Wire wire.TooLarge) × IsDumpTooLong executed.now)) }
{
    let mut set = Vec::new(alloc);
    match executed.encode(&mut set) {
        Ok(()) if set.len() <= LARGEST_PAYLOAD - DUMP_LEAD => Ok(set),
        Ok(()) => Err(Reason::Wire(WireFault::TooLarge)),
        Err(_) => Err(Reason::Memory),
    }
}

/// The dump command with this set.
fn dump_with(config: &Config, set: &[u8]) -> Result<Vec<u8>, Reason>
    requires { dump_lead + length set.now ≤ largest_payload }
    ensures ok { IfOk result (λ payload. payload.items
        ≡ dump_bytes (record {
          flags = flags_of config.now.once;
          server_id = config.now.server_id;
          set = set.now;
        }) [] (little_bytes 8 4)) }
    ensures err { IfErr result (λ reason. reason ≡ Memory) }
{
    let dump = Dump {
        flags: flags(config.once),
        server_id: config.server_id,
        set,
    };
    let mut payload = Vec::new(config.alloc());
    match dump.write(&mut payload) {
        Ok(()) => Ok(payload),
        Err(_) => Err(Reason::Memory),
    }
}

/// Appends the dump command with the executed set. `TooLarge` if it would be longer than a payload may be.
pub(crate) fn ask(config: &Config, executed: &GtidSet, out: &mut Vec<u8>) -> Result<(), Reason>
    ensures ok { OnOk result (SendsDump config.now executed.now out.old.items out.new.items) }
    ensures short { OnOk result (IsDumpTooLong executed.now → ⊥) }
    ensures err { IfErr result (λ reason. (reason ≡ Memory)
        ⊎ ((reason ≡ Wire wire.TooLarge) × IsDumpTooLong executed.now)) }
    ensures kept { OnErr result (out.new.items ≡ out.old.items) }
{
    let set = encoded(config.alloc(), executed)?;
    let payload = dump_with(config, &set)?;
    send(0, &payload, out)
}

//! What a source sends before the dump. MySQL Source Documentation, "Client/Server Protocol", the page "Connection
//! Phase".

ghost use Rattle.std.specs.Prelude.{◌≡◌, IfOk, OnOk, OnErr, Err};
ghost use Rattle.scripted_source.specs.Source.{IsOpening, AppendsPayload, greeting_payload};
ghost use Rattle.scripted_source.specs.declared.fault.ForgeFault.TheVariants.{Memory};

use crate::fault::ForgeFault;
use crate::sending::AUTOCOMMIT;
use greet::{Greeting, packet_header};
use std::alloc::Global;
use wire::write_payload;

/// The server version of a scripted source.
const VERSION: &[u8] = b"8.0.36";

/// CLIENT_LONG_PASSWORD, CLIENT_LONG_FLAG, CLIENT_PROTOCOL_41, CLIENT_TRANSACTIONS, CLIENT_SECURE_CONNECTION and
/// CLIENT_PLUGIN_AUTH.
const CAPABILITIES: u32 = 0x0008_a205;

/// An OK without rows, insert id and warnings, in autocommit.
const OK: &[u8] = &[packet_header::OK, 0, 0, AUTOCOMMIT as u8, 0, 0, 0];

/// What a source sends before the dump command.
///
/// Clauses:
/// - `ok`, `err`: the bytes are a greeting with the scramble and two OKs, to the login and to the query; the only error
///   is `Memory`
pub fn opening(alloc: Global, scramble: &[u8; 20]) -> Result<Vec<u8>, ForgeFault>
    ensures ok { IfOk result (λ bytes. IsOpening scramble.now bytes.items) }
    ensures err { OnErr result (result ≡ Err Memory) }
{
    let mut out = Vec::new(alloc);
    let greeting = greeting(alloc, scramble)?;
    send(0, &greeting, &mut out)?;
    send(2, OK, &mut out)?;
    send(1, OK, &mut out)?;
    Ok(out)
}

/// The payload of a greeting with this scramble.
fn greeting(alloc: Global, scramble: &[u8; 20]) -> Result<Vec<u8>, ForgeFault>
    ensures ok { IfOk result (λ payload. payload.items ≡ greeting_payload scramble.now) }
    ensures err { OnErr result (result ≡ Err Memory) }
{
    let greeting = Greeting {
        version: Vec::from_slice(alloc, VERSION)?,
        thread: 8,
        scramble: *scramble,
        capabilities: CAPABILITIES,
        charset: 0x21,
        status: AUTOCOMMIT,
    };
    let mut payload = Vec::new(alloc);
    match greeting.write(&mut payload) {
        Ok(()) => Ok(payload),
        Err(_) => Err(ForgeFault::Memory),
    }
}

/// Appends the packets of a short payload. The only error is `Memory`.
fn send(sequence: u8, payload: &[u8], out: &mut Vec<u8>) -> Result<(), ForgeFault>
    ensures ok { OnOk result (AppendsPayload sequence payload.now out.old.items out.new.items) }
    ensures err { OnErr result (result ≡ Err Memory) }
{
    match write_payload(sequence, payload, out) {
        Ok(_) => Ok(()),
        Err(_) => Err(ForgeFault::Memory),
    }
}

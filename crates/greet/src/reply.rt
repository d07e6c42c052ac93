//! The source's replies: OK, a request to switch the authentication method, and EOF. MySQL Source Documentation,
//! "Client/Server Protocol": the pages `OK_Packet`, `EOF_Packet`, `ERR_Packet` and `Protocol::AuthSwitchRequest`.

ghost use Rattle.std.specs.Prelude.{◌≡◌, ◌≢◌, ℕ, ◌∷◌, List, true, false, IfOk, IfErr, IfSome, IfNone, MatchResult, ⊤, OnOk, OnErr, Ok, Err, Some, None};
ghost use Rattle.greet.specs.PacketHeader.{auth_switch};
ghost use Rattle.greet.specs.Message.{IsOkPacket, IsSwitch, IsEofPacket};
ghost use Rattle.greet.specs.Refusal.{reply_refusal, ok_refusal, eof_refusal, switch_refusal, after_int, has_insert_id};
ghost use Rattle.greet.specs.View.{Refuses};
ghost use Rattle.greet.specs.Complete.{HasErr};

use crate::error::server_error;
use crate::fault::GreetFault;
use crate::packet_header::{EOF, ERR, OK};
use crate::parts::{PLUGIN_NAME, split_text};
use std::alloc::Global;
use wire::read_int;

/// An EOF has fewer bytes than this.
const EOF_END: usize = 9;

/// The reply to a [`Response`](crate::Response).
#[derive(Clone, Copy, Debug, PartialEq, Eq)]
pub enum AuthReply {
    /// The replica is logged in.
    Ok,
    /// The source wants native authentication with another scramble.
    Switch { scramble: [u8; 20] },
}

impl AuthReply {
    /// Reads the reply.
    ///
    /// An empty payload, or an OK whose fields do not fit, is reported as `Truncated`, an ERR as `ServerError` (as
    /// `Truncated` if it is shorter than three bytes), and another first byte as `Unexpected`. For a switch the first
    /// of these is reported: one byte alone as `OldAuth`, a plugin name without its zero byte as `Truncated`, another
    /// plugin as `Plugin`, and a scramble of fewer than 20 bytes as `Truncated`. `Memory` if an allocation was refused.
    ///
    /// Clauses:
    /// - `ok`, `switch`, `only_ok`, `only_switch`, `fault`: the OK, or the switch, that the payload is, always where it
    ///   is one; otherwise its first fault
    /// - `memory`: only for an ERR, whose message is kept
    pub fn read(alloc: Global, payload: &[u8]) -> Result<AuthReply, GreetFault>
        ensures ok { result ≡ Ok AuthReply.Ok → IsOkPacket payload.now }
        ensures switch { (scramble : List ℕ) → result ≡ Ok (AuthReply.Switch scramble)
            → IsSwitch scramble payload.now }
        ensures only_ok { IsOkPacket payload.now → MatchResult result (λ reply. reply
            ≡ AuthReply.Ok) (λ fault. fault ≡ GreetFault.Memory) }
        ensures only_switch { (scramble : List ℕ) → IsSwitch scramble payload.now
            → MatchResult result (λ reply. reply ≡ AuthReply.Switch scramble) (λ fault. fault
            ≡ GreetFault.Memory) }
        ensures fault { IfErr result (Refuses (reply_refusal payload.now)) }
        ensures memory { result ≡ Err GreetFault.Memory → HasErr payload.now }
    {
        let [first, body @ ..] = payload else {
            return Err(GreetFault::Truncated);
        };
        if *first == EOF {
            let scramble = read_switch(body)?;
            return Ok(AuthReply::Switch { scramble });
        }
        read_ok(alloc, payload)?;
        Ok(AuthReply::Ok)
    }
}

/// The scramble of a switch, from the bytes after its first. It takes no memory.
fn read_switch(body: &[u8]) -> Result<[u8; 20], GreetFault>
    ensures found { IfOk result (λ scramble. IsSwitch scramble (auth_switch ∷ body.now)) }
    ensures fault { IfErr result (Refuses (switch_refusal body.now)) }
    ensures no_memory { IfErr result (λ fault. fault ≢ GreetFault.Memory) }
{
    if body.is_empty() {
        return Err(GreetFault::OldAuth);
    }
    let Some((name, rest)) = split_text(body) else {
        return Err(GreetFault::Truncated);
    };
    if name != PLUGIN_NAME {
        return Err(GreetFault::Plugin);
    }
    if rest.len() < 20 {
        return Err(GreetFault::Truncated);
    }
    let mut scramble = [0; 20];
    scramble.copy_from_slice(&rest[..20]);
    Ok(scramble)
}

/// Reads an OK.
///
/// An empty payload, or an OK whose fields do not fit, is reported as `Truncated`, an ERR as `ServerError` (as
/// `Truncated` if it is shorter than three bytes), and another first byte as `Unexpected`. `Memory` if an allocation
/// was refused.
///
/// Clauses:
/// - `ok`, `only`, `fault`: done exactly where the payload is the message; otherwise its first fault
/// - `memory`: only for an ERR, whose message is kept
pub fn read_ok(alloc: Global, payload: &[u8]) -> Result<(), GreetFault>
    ensures ok { OnOk result (IsOkPacket payload.now) }
    ensures only { IsOkPacket payload.now → MatchResult result (λ _. ⊤) (λ fault. fault
        ≡ GreetFault.Memory) }
    ensures fault { IfErr result (Refuses (ok_refusal payload.now)) }
    ensures memory { result ≡ Err GreetFault.Memory → HasErr payload.now }
{
    match payload {
        [] => Err(GreetFault::Truncated),
        [ERR, body @ ..] => Err(server_error(alloc, body)),
        [OK, body @ ..] => read_counters(body),
        [other, ..] => Err(GreetFault::Unexpected(*other)),
    }
}

/// Checks the bytes after the first of an OK: two length-encoded integers and four bytes.
fn read_counters(body: &[u8]) -> Result<(), GreetFault>
    ensures ok { OnOk result (has_insert_id (after_int body.now) ≡ true) }
    ensures err { OnErr result ((result ≡ Err GreetFault.Truncated)
        × (has_insert_id (after_int body.now) ≡ false)) }
{
    let Some(body) = after_int(body) else {
        return Err(GreetFault::Truncated);
    };
    let Some(body) = after_int(body) else {
        return Err(GreetFault::Truncated);
    };
    if body.len() < 4 {
        return Err(GreetFault::Truncated);
    }
    Ok(())
}

/// The bytes after the length-encoded integer at the front.
fn after_int(bytes: &[u8]) -> Option<&[u8]>
    ensures some { IfSome result (λ rest. after_int bytes.now ≡ Some rest.now) }
    ensures none { IfNone result (after_int bytes.now ≡ None) }
{
    let (_, size) = read_int(bytes)?;
    Some(&bytes[size..])
}

/// Reads an EOF.
///
/// An empty payload, or an EOF that is cut short, is reported as `Truncated`, an ERR as `ServerError` (as `Truncated`
/// if it is shorter than three bytes), and another first byte, or a payload of nine bytes or more, as `Unexpected`.
/// `Memory` if an allocation was refused.
///
/// Clauses: as [`read_ok`]
pub fn read_eof(alloc: Global, payload: &[u8]) -> Result<(), GreetFault>
    ensures ok { OnOk result (IsEofPacket payload.now) }
    ensures only { IsEofPacket payload.now → MatchResult result (λ _. ⊤) (λ fault. fault
        ≡ GreetFault.Memory) }
    ensures fault { IfErr result (Refuses (eof_refusal payload.now)) }
    ensures memory { result ≡ Err GreetFault.Memory → HasErr payload.now }
{
    match payload {
        [] => Err(GreetFault::Truncated),
        [ERR, body @ ..] => Err(server_error(alloc, body)),
        [EOF, ..] if payload.len() >= EOF_END => Err(GreetFault::Unexpected(EOF)),
        [EOF, body @ ..] if body.len() < 4 => Err(GreetFault::Truncated),
        [EOF, ..] => Ok(()),
        [other, ..] => Err(GreetFault::Unexpected(*other)),
    }
}

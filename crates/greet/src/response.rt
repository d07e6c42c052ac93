//! The replica's response to a greeting. MySQL Source Documentation, "Client/Server Protocol", the page
//! `Protocol::HandshakeResponse41`.

ghost use Rattle.std.specs.Prelude.{◌≡◌, ◌≢◌, ◌<◌, ◌+◌, ◌++◌, ◌∷◌, [], length, ◌↔◌, Some, IsTrue, IfOk, IfErr, IfSome, IfNone, MatchResult, OnOk, OnErr, Err, vec_len, vec_capacity};
ghost use Rattle.greet.specs.Message.{ResponseValue, IsResponse, FitsResponse, response, response_lead, plugin_name};
ghost use Rattle.greet.specs.Refusal.{response_refusal, end_refusal, first_difference, protocol};
ghost use Rattle.greet.specs.Complete.{HasResponse};
ghost use Rattle.greet.specs.View.{response_value, Refuses};

use crate::fault::GreetFault;
use crate::parts::{PLUGIN_NAME, append, is_text, split_text};
use std::alloc::Global;

/// The first 32 bytes of a response: the replica's capability flags, the largest packet that it takes (16 MiB), its
/// character set (33, utf8mb3) and 23 zero bytes.
const LEAD: [u8; 32] = [
    0x05, 0xa2, 0x08, 0x00, 0x00, 0x00, 0x00, 0x01, 0x21, 0, 0, 0, 0, 0, 0, 0, 0, 0, 0, 0, 0, 0, 0,
    0, 0, 0, 0, 0, 0, 0, 0, 0,
];

/// The replica's answer to a greeting: a user name and the response to the scramble.
#[derive(Debug, Drop)]
pub struct Response {
    pub user: Vec<u8>,
    /// Empty for the empty password, otherwise the 20 bytes of [`native`](crate::native).
    pub auth: Vec<u8>,
}

impl Response {
    /// Whether the response can be written: `user` has no zero byte, and `auth` fewer than 256 bytes.
    pub fn fits(&self) -> bool
        ensures { IsTrue result ↔ FitsResponse (response_value self.now) }
    {
        is_text(&self.user) && self.auth.len() < 256
    }

    /// Appends the payload.
    ///
    /// Clauses: as [`Greeting::write`]
    pub fn write(&self, out: &mut Vec<u8>) -> Result<(), GreetFault>
        requires { FitsResponse (response_value self.now) }
        ensures ok { OnOk result (out.new.items ≡ out.old.items ++ response
            (response_value self.now)) }
        ensures err { OnErr result ((result ≡ Err GreetFault.Memory)
            × (out.new.items ≡ out.old.items)) }
        ensures full { OnErr result (vec_capacity out.old
            < vec_len out.old + length (response (response_value self.now))) }
    {
        let size = self.auth.len() as u8;
        append(
            &[&LEAD, &self.user, &[0, size], &self.auth, PLUGIN_NAME, &[0]],
            out,
        )
    }

    /// Reads a response, with a `user` and an `auth` of any length that fits.
    ///
    /// The first of these is reported: a field that does not fit, or bytes left over, as `Truncated`; another plugin as
    /// `Plugin`; the first of the leading 32 bytes that differs from what the replica sends as `Protocol`. `Memory` if
    /// an allocation was refused, for a whole response alone.
    ///
    /// Clauses: as [`Greeting::read`]
    pub fn read(alloc: Global, payload: &[u8]) -> Result<Response, GreetFault>
        ensures found { IfOk result (λ read. IsResponse (response_value read) payload.now) }
        ensures only { (r : ResponseValue) → IsResponse r payload.now
            → MatchResult result (λ read. response_value read ≡ r) (λ fault. fault
            ≡ GreetFault.Memory) }
        ensures fault { IfErr result (Refuses (response_refusal payload.now)) }
        ensures memory { result ≡ Err GreetFault.Memory → HasResponse payload.now }
    {
        let (user, auth) = read_parts(payload)?;
        let user = Vec::from_slice(alloc, user)?;
        let auth = Vec::from_slice(alloc, auth)?;
        Ok(Response { user, auth })
    }
}

/// The `user` and the `auth`. It takes no memory.
fn read_parts(payload: &[u8]) -> Result<(&[u8], &[u8]), GreetFault>
    ensures found { IfOk result (λ parts. IsResponse
        (record { user = parts.0.now; auth = parts.1.now }) payload.now) }
    ensures fault { IfErr result (Refuses (response_refusal payload.now)) }
    ensures no_memory { IfErr result (λ fault. fault ≢ GreetFault.Memory) }
{
    if payload.len() < LEAD.len() {
        return Err(GreetFault::Truncated);
    }
    let (lead, rest) = payload.split_at(LEAD.len());
    let Some((user, rest)) = split_text(rest) else {
        return Err(GreetFault::Truncated);
    };
    let [size, rest @ ..] = rest else {
        return Err(GreetFault::Truncated);
    };
    let size = usize::from(*size);
    if rest.len() < size {
        return Err(GreetFault::Truncated);
    }
    let (auth, rest) = rest.split_at(size);
    read_end(lead, rest)?;
    Ok((user, auth))
}

/// Reads the bytes after the `auth`, and then the leading bytes.
#[tactic(auto, unfolding(crate::specs::Refusal::end_refusal))]
fn read_end(lead: &[u8], rest: &[u8]) -> Result<(), GreetFault>
    requires { length lead.now ≡ 32 }
    ensures lead { OnOk result (lead.now ≡ response_lead) }
    ensures rest { OnOk result (rest.now ≡ plugin_name ++ 0 ∷ []) }
    ensures fault { IfErr result (Refuses (end_refusal lead.now rest.now)) }
    ensures no_memory { IfErr result (λ fault. fault ≢ GreetFault.Memory) }
{
    let Some((name, rest)) = split_text(rest) else {
        return Err(GreetFault::Truncated);
    };
    if !rest.is_empty() {
        return Err(GreetFault::Truncated);
    }
    if name != PLUGIN_NAME {
        return Err(GreetFault::Plugin);
    }
    match difference(lead) {
        Some(byte) => Err(GreetFault::Protocol(byte)),
        None => Ok(()),
    }
}

/// The first byte that differs from that of `LEAD`.
fn difference(lead: &[u8]) -> Option<u8>
    requires { length lead.now ≡ 32 }
    ensures some { IfSome result (λ byte. first_difference lead.now response_lead
        ≡ Some (protocol byte)) }
    ensures none { IfNone result (lead.now ≡ response_lead) }
{
    for at in 0..LEAD.len() {
        if lead[at] != LEAD[at] {
            return Some(lead[at]);
        }
    }
    None
}

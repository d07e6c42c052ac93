//! The source's greeting. MySQL Source Documentation, "Client/Server Protocol", the page
//! `Protocol::HandshakeV10`.

ghost use Rattle.std.specs.Prelude.{◌≡◌, ◌≢◌, ◌⊎◌, ◌<◌, ◌≤◌, ◌+◌, ◌*◌, ◌/◌, ◌^◌, replicate, ◌++◌, ◌∷◌, length, take, drop, slice_index, bit_and, ◌↔◌, IsTrue, IfOk, IfErr, MatchResult, OnOk, OnErr, Err, vec_len, vec_capacity};
ghost use Rattle.byteorder.specs.Endian.{little_bytes, little_number};
ghost use Rattle.greet.specs.PacketHeader.{handshake_v10};
ghost use Rattle.greet.specs.Message.{GreetingValue, IsGreeting, FitsGreeting, greeting_bytes, needed};
ghost use Rattle.greet.specs.Refusal.{greeting_refusal, fields_refusal, after_zero};
ghost use Rattle.greet.specs.Complete.{HasErr, HasGreeting};
ghost use Rattle.greet.specs.View.{greeting_value, Refuses};

use crate::error::server_error;
use crate::fault::GreetFault;
use crate::packet_header::{ERR, VERSION};
use crate::parts::{append, is_text, split_text};
use byteorder::{ByteOrder, LittleEndian};
use std::alloc::Global;

const CLIENT_PROTOCOL_41: u32 = 0x0000_0200;

const CLIENT_SECURE_CONNECTION: u32 = 0x0000_8000;

const CLIENT_PLUGIN_AUTH: u32 = 0x0008_0000;

/// The capability flags that a source must have.
const NEEDED: u32 = CLIENT_PROTOCOL_41 | CLIENT_SECURE_CONNECTION | CLIENT_PLUGIN_AUTH;

/// The length in bytes of the fields from the thread id to the end of the reserved bytes.
const FIXED: usize = 31;

/// The least length in bytes of the second part of the scramble.
const SECOND: usize = 13;

/// The length of a written greeting's authentication data: the scramble and a zero byte.
const AUTH_SIZE: u8 = 21;

/// The end of a written greeting: the scramble's zero byte, and the plugin's name with its own.
const END: &[u8] = b"\0mysql_native_password\0";

/// The source's first message: what it says about itself, and the scramble.
#[derive(Debug, Drop)]
pub struct Greeting {
    /// The server's version, without a zero byte.
    pub version: Vec<u8>,
    /// The connection's thread id.
    pub thread: u32,
    pub scramble: [u8; 20],
    /// The source's capability flags, both halves.
    pub capabilities: u32,
    /// The server's character set.
    pub charset: u8,
    /// The server's status flags.
    pub status: u16,
}

impl Greeting {
    /// Whether the greeting can be written: its version has no zero byte, and it has the needed capability flags.
    pub fn fits(&self) -> bool
        ensures { IsTrue result ↔ FitsGreeting (greeting_value self.now) }
    {
        is_text(&self.version) && self.capabilities & NEEDED == NEEDED
    }

    /// Reads a greeting.
    ///
    /// The first of these is reported: an empty payload as `Truncated`; an ERR as `ServerError`, or as `Truncated` if
    /// it is shorter than three bytes; another protocol version as `Protocol`; a field up to the reserved bytes that is
    /// not there as `Truncated`; needed capability flags that are missing as `Capabilities`; a second part of the
    /// scramble that is too short as `Truncated`. `Memory` if an allocation was refused, for an ERR or a whole
    /// greeting.
    ///
    /// Clauses:
    /// - `found`, `only`, `fault`: the message that the payload is, always where it is one; otherwise its first fault
    /// - `memory`: memory is taken only where a text is kept
    pub fn read(alloc: Global, payload: &[u8]) -> Result<Greeting, GreetFault>
        ensures found { IfOk result (λ greeting. IsGreeting (greeting_value greeting) payload.now) }
        ensures only { (g : GreetingValue) → IsGreeting g payload.now
            → MatchResult result (λ greeting. greeting_value greeting ≡ g) (λ fault. fault
            ≡ GreetFault.Memory) }
        ensures fault { IfErr result (Refuses (greeting_refusal payload.now)) }
        ensures memory { result ≡ Err GreetFault.Memory
            → HasErr payload.now ⊎ HasGreeting payload.now }
    {
        match payload {
            [] => Err(GreetFault::Truncated),
            [ERR, body @ ..] => Err(server_error(alloc, body)),
            [VERSION, body @ ..] => read_body(alloc, body),
            [other, ..] => Err(GreetFault::Protocol(*other)),
        }
    }

    /// Appends the greeting's payload.
    ///
    /// Clauses:
    /// - `ok`, `err`, `full`: the message is appended; the only error is `Memory`, only without room, and leaves the
    ///   vector as it was
    pub fn write(&self, out: &mut Vec<u8>) -> Result<(), GreetFault>
        requires { FitsGreeting (greeting_value self.now) }
        ensures ok { OnOk result (out.new.items ≡ out.old.items ++ greeting_bytes
            (greeting_value self.now)) }
        ensures err { OnErr result ((result ≡ Err GreetFault.Memory)
            × (out.new.items ≡ out.old.items)) }
        ensures full { OnErr result (vec_capacity out.old
            < vec_len out.old + length (greeting_bytes (greeting_value self.now))) }
    {
        let [a, b, c, d] = self.thread.to_le_bytes();
        let (first, second) = self.scramble.split_at(8);
        append(
            &[
                &[VERSION],
                &self.version,
                &[0, a, b, c, d],
                first,
                &self.middle(),
                second,
                END,
            ],
            out,
        )
    }

    /// The bytes between the two parts of the scramble.
    fn middle(&self) -> [u8; 19]
        ensures { result ≡ 0 ∷ little_bytes 2 self.now.capabilities ++ self.now.charset
            ∷ little_bytes 2 self.now.status ++ little_bytes 2
            (self.now.capabilities / 2 ^ 16) ++ 21 ∷ replicate 10 0 }
    {
        let [a, b, c, d] = self.capabilities.to_le_bytes();
        let [e, f] = self.status.to_le_bytes();
        let charset = self.charset;
        [
            0, a, b, charset, e, f, c, d, AUTH_SIZE, 0, 0, 0, 0, 0, 0, 0, 0, 0, 0,
        ]
    }
}

/// Reads the bytes after the first.
fn read_body(alloc: Global, body: &[u8]) -> Result<Greeting, GreetFault>
    ensures found { IfOk result (λ greeting. IsGreeting (greeting_value greeting)
        (handshake_v10 ∷ body.now)) }
    ensures fault { IfErr result (Refuses (fields_refusal (after_zero body.now))) }
    ensures memory { result ≡ Err GreetFault.Memory → HasGreeting (handshake_v10 ∷ body.now) }
{
    let Some((version, fields)) = split_text(body) else {
        return Err(GreetFault::Truncated);
    };
    let fixed = Fixed::read(fields)?;
    let second = &fields[FIXED..];
    if second.len() < SECOND.max(usize::from(fixed.size).saturating_sub(8)) {
        return Err(GreetFault::Truncated);
    }
    Ok(Greeting {
        version: Vec::from_slice(alloc, version)?,
        thread: fixed.thread,
        scramble: join(fixed.first, second),
        capabilities: fixed.capabilities,
        charset: fixed.charset,
        status: fixed.status,
    })
}

/// The fields of fixed length.
#[derive(Drop)]
struct Fixed<'a> {
    thread: u32,
    /// The first part of the scramble.
    first: &'a [u8],
    capabilities: u32,
    charset: u8,
    status: u16,
    /// The length of the authentication data: both parts of the scramble.
    size: u8,
}

impl<'a> Fixed<'a> {
    /// Reads the fields from the thread id to the end of the reserved bytes. The needed capability flags must be set.
    #[tactic(auto, unfolding(crate::specs::Refusal::fields_refusal))]
    fn read(fields: &'a [u8]) -> Result<Fixed<'a>, GreetFault>
        ensures long { IfOk result (λ _. 31 ≤ length fields.now) }
        ensures thread { IfOk result (λ fixed. fixed.thread ≡ little_number 4 fields.now) }
        ensures first { IfOk result (λ fixed. fixed.first.now ≡ take 8 (drop 4 fields.now)) }
        ensures capabilities { IfOk result (λ fixed. fixed.capabilities
            ≡ little_number 2 (drop 13 fields.now) + 2 ^ 16 * little_number 2
            (drop 18 fields.now)) }
        ensures has_needed { IfOk result (λ fixed. bit_and fixed.capabilities needed ≡ needed) }
        ensures charset { IfOk result (λ fixed. fixed.charset ≡ slice_index fields.now 15) }
        ensures status { IfOk result (λ fixed. fixed.status
            ≡ little_number 2 (drop 16 fields.now)) }
        ensures size { IfOk result (λ fixed. fixed.size ≡ slice_index fields.now 20) }
        ensures fault { IfErr result (Refuses (fields_refusal fields.now)) }
        ensures no_memory { IfErr result (λ fault. fault ≢ GreetFault.Memory) }
    {
        if fields.len() < FIXED {
            return Err(GreetFault::Truncated);
        }
        let low = LittleEndian::read_u16(&fields[13..]);
        let high = LittleEndian::read_u16(&fields[18..]);
        let capabilities = u32::from(low) + u32::from(high) * 0x1_0000;
        let has = capabilities & NEEDED;
        if has != NEEDED {
            return Err(GreetFault::Capabilities(NEEDED - has));
        }
        Ok(Fixed {
            thread: LittleEndian::read_u32(fields),
            first: &fields[4..12],
            capabilities,
            charset: fields[15],
            status: LittleEndian::read_u16(&fields[16..]),
            size: fields[20],
        })
    }
}

/// The scramble from its two parts, of which only the first 12 bytes of the second count.
fn join(first: &[u8], second: &[u8]) -> [u8; 20]
    requires first { length first.now ≡ 8 }
    requires second { 12 ≤ length second.now }
    ensures { result ≡ first.now ++ take 12 second.now }
{
    let mut scramble = [0; 20];
    let (front, back) = scramble.split_at_mut(8);
    front.copy_from_slice(first);
    back.copy_from_slice(&second[..12]);
    scramble
}

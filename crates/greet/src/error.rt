//! ERR packets that a source sends.

ghost use Rattle.std.specs.Prelude.{◌≡◌, ◌≤◌, length, Some};
ghost use Rattle.greet.specs.Refusal.{error_of, state_of, message_of};
ghost use Rattle.greet.specs.View.{Refuses};

use crate::fault::GreetFault;
use byteorder::{ByteOrder, LittleEndian};
use std::alloc::Global;

/// How many bytes of an ERR's message are kept.
const KEPT: usize = 512;

/// The fault of an ERR, from the bytes after its first.
#[tactic(auto, unfolding(crate::specs::Refusal::error_of))]
pub(crate) fn server_error(alloc: Global, bytes: &[u8]) -> GreetFault
    ensures fault { Refuses (Some (error_of bytes.now)) result }
    ensures memory { result ≡ GreetFault.Memory → 2 ≤ length bytes.now }
{
    if bytes.len() < 2 {
        return GreetFault::Truncated;
    }
    let (code, text) = bytes.split_at(2);
    let code = LittleEndian::read_u16(code);
    let (state, message) = split_state(text);
    let kept = &message[..KEPT.min(message.len())];
    match Vec::from_slice(alloc, kept) {
        Ok(message) => GreetFault::ServerError {
            code,
            state,
            message,
        },
        Err(_) => GreetFault::Memory,
    }
}

/// The SQL state, if the text has one, and the message.
fn split_state(text: &[u8]) -> (Option<[u8; 5]>, &[u8])
    ensures state { result.0 ≡ state_of text.now }
    ensures message { result.1.now ≡ message_of text.now }
{
    match text {
        [b'#', a, b, c, d, e, message @ ..] => (Some([*a, *b, *c, *d, *e]), message),
        _ => (None, text),
    }
}

//! The state of a connection.
//!
//! The methods of a session are in `feed.rt` and `payload.rt`: the struct has a fact that definitions are stated over, and
//! the prover takes no file that both has such a struct and names these definitions.

ghost use Rattle.std.specs.Prelude.{◌≤◌};

pub(crate) mod config;
pub(crate) mod dump;
pub(crate) mod end;
pub(crate) mod feed;
pub(crate) mod login;
pub(crate) mod message;
pub(crate) mod payload;
pub(crate) mod phase;

use crate::session::config::Config;
use crate::session::end::Ended;
use crate::session::phase::Phase;
use gather::Gatherer;
use wire::Assembler;

/// One connection to a source: what is kept of the bytes read so far, and the pending output.
#[derive(Drop)]
pub struct Session {
    pub(crate) config: Config,
    pub(crate) assembler: Assembler,
    pub(crate) gatherer: Gatherer,
    pub(crate) phase: Phase,
    /// The pending output.
    pub(crate) out: Vec<u8>,
    /// How many of the bytes read belong to payloads that were taken.
    pub(crate) at: u64,
    /// How many transactions were applied.
    pub(crate) applied: u64,
    pub(crate) ended: Option<Ended>,
    ghost counted: { applied ≤ at },
}

//! A scripted source: what a server sends to a replica for a given history of transactions.
//!
//! [`opening`] is what it sends before the dump command, [`answer`] what it sends in reply to one, and [`check`] reads
//! what a replica sent to it. None of these reads from a socket or writes to one: [`Stream`] is one in memory, and [`payloads`]
//! reads the payloads of one that comes in pieces.
//!
//! The layouts are those of the MySQL Source Documentation, "Client/Server Protocol", "Replication Protocol" and
//! "Binlog Event". `specs/` defines what is sent and what is read, and [`laws`] states what follows.
#![tactic(auto)]

mod answering;
mod checking;
mod connecting;
mod fault;
pub mod laws;
mod reading;
mod script;
mod sending;
mod stream;

pub use answering::answer;
pub use checking::check;
pub use connecting::opening;
pub use fault::ForgeFault;
pub use reading::{Reading, payloads};
pub use script::{Ending, Part, Script};
pub use stream::Stream;

//! How a connection ends.

use binlog::EventFault;
use gather::GatherFault;
use greet::GreetFault;
use store::StoreFault;
use wire::WireFault;

/// Which change of a transaction is refused, by its index from 0, and why.
#[derive(Clone, Copy, Debug, PartialEq, Eq)]
pub enum Refusal {
    /// It removes a row that is not there.
    NoSuchRow(usize),
    /// It adds a row of which there are 2^63 - 1 copies.
    CountFull(usize),
}

/// Why a connection ends.
#[derive(Debug, Drop)]
pub enum Reason {
    /// No more bytes come.
    EndOfInput,
    /// The source sent an EOF at the end of its log.
    SourceEof,
    /// The source sent an error.
    SourceError {
        code: u16,
        /// The SQL state, if the error has one.
        state: Option<[u8; 5]>,
        /// The first 512 bytes of its message.
        message: Vec<u8>,
    },
    /// A packet's header is wrong; or the packets of the payloads take more than 2^64 - 1 bytes, or the dump command
    /// would be longer than a payload may be (both `TooLarge`).
    Wire(WireFault),
    /// A payload is not the expected message.
    Greet(GreetFault),
    /// The event in a payload cannot be read.
    Event(EventFault),
    /// An event may not follow those before it.
    Gather(GatherFault),
    /// The store refused a transaction.
    Refused(Refusal),
    /// The database failed, or the store had failed before.
    Database(StoreFault),
    /// An allocation was refused.
    Memory,
    /// A read of the stream failed.
    ReadFailed,
    /// A write to the stream failed.
    WriteFailed,
    /// The observer stopped before a transaction, which was not applied.
    Halted,
    /// The observer waits for nothing more: what it waits for had been executed before, or the last payload taken ended a
    /// transaction that was applied, after which nothing was missing.
    Until,
}

/// How a connection ended.
#[derive(Debug, Drop)]
pub struct Ended {
    pub reason: Reason,
    /// How many of the connection's bytes belong to payloads that were taken.
    pub at: u64,
    /// How many transactions were applied. Those that had been executed before do not count.
    pub applied: u64,
}

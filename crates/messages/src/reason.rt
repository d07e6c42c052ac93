//! The printed names of the reasons for which a stream or a connection ends.

use crate::advice::{event_advice, greet_advice};
use crate::fault_name::{event_reason, gather_reason, greet_reason, wire_reason};
use formats::{Shown, write_escaped, write_named};
use gather::GatherFault;
use replica::{Ended, Reason, Refusal};
use std::io;
use std::io::Write;

/// The name of a reason without a number in it.
fn plain_reason(reason: &Reason) -> &'static str {
    match reason {
        Reason::EndOfInput => "EndOfInput",
        Reason::SourceEof => "SourceEof",
        Reason::SourceError { .. } => "SourceError",
        Reason::Wire(fault) => wire_reason(*fault),
        Reason::Greet(fault) => greet_reason(fault),
        Reason::Event(fault) => event_reason(fault.kind),
        Reason::Gather(fault) => gather_reason(fault),
        Reason::Refused(Refusal::NoSuchRow(_)) => "Refused.NoSuchRow",
        Reason::Refused(Refusal::CountFull(_)) => "Refused.CountFull",
        Reason::Database(_) => "Database",
        Reason::Memory => "Memory",
        Reason::ReadFailed => "ReadFailed",
        Reason::WriteFailed => "WriteFailed",
        Reason::Halted => "Halted",
        Reason::Until => "Until",
    }
}

/// Writes the name of a reason.
pub fn write_reason<W: Write>(reason: &Reason, out: &mut W) -> io::Result<()> {
    match reason {
        Reason::SourceError { code, .. } => write!(out, "SourceError.{code}"),
        Reason::Gather(GatherFault::Event(fault)) => {
            write!(out, "Gather.{}", event_reason(fault.kind))
        }
        other => out.write_all(plain_reason(other).as_bytes()),
    }
}

/// Writes the line of a connection's end.
pub fn write_end<W: Write>(number: usize, end: &Ended, out: &mut W) -> io::Result<()> {
    write!(out, "{number} ")?;
    write_reason(&end.reason, out)?;
    writeln!(out, " at {} applied {}", end.at, end.applied)
}

/// What has stopped a command before a transaction.
#[derive(Clone, Copy)]
pub enum HaltCause<'a> {
    /// Its change feed could not be written to standard output.
    Output,
    /// Its change feed could not be written to the file of this name.
    Feed(&'a str),
    /// A row of it does not fit the description of its columns.
    Misfit,
    /// Memory ran out for what is waited for.
    Memory,
    /// A first copy of tables has begun and not ended.
    Unfinished,
    /// The database keeps rows or none, or its file of changes is new, other than the command asks for.
    Kept,
}

/// Writes the cause to standard error if the line of an end leaves it out: the stream or the database file, and the
/// cause.
pub fn write_cause<W: Write>(
    stream: &str,
    file: &str,
    halt: HaltCause<'_>,
    reason: &Reason,
    out: &mut W,
) -> io::Result<()> {
    match reason {
        Reason::SourceError { message, .. } => write_message(Shown(stream), message, out),
        Reason::Wire(fault) => write_named(stream, fault, out),
        Reason::Greet(fault) => write_named(stream, fault, out),
        Reason::Event(fault) => write_named(stream, fault, out),
        Reason::Gather(fault) => write_named(stream, fault, out),
        Reason::Refused(refusal) => write_refusal(Shown(stream), *refusal, out),
        Reason::Database(fault) => write_named(file, fault, out),
        Reason::Memory => write_named(stream, &"out of memory", out),
        Reason::Halted => write_halted(Shown(stream), halt, out),
        Reason::EndOfInput
        | Reason::SourceEof
        | Reason::ReadFailed
        | Reason::WriteFailed
        | Reason::Until => Ok(()),
    }
}

/// Writes which change is refused, and why.
fn write_refusal<W: Write>(stream: Shown<'_>, refusal: Refusal, out: &mut W) -> io::Result<()> {
    let (at, why) = match refusal {
        Refusal::NoSuchRow(at) => (at, "the row is not there"),
        Refusal::CountFull(at) => (at, "the count of the row is at its maximum"),
    };
    writeln!(out, "mrep: {stream}: change {at}: {why}")
}

/// Writes what has stopped the command before a transaction.
fn write_halted<W: Write>(stream: Shown<'_>, halt: HaltCause<'_>, out: &mut W) -> io::Result<()> {
    let (why, feed) = match halt {
        HaltCause::Output => ("its changes could not be written to standard output", ""),
        HaltCause::Feed(feed) => ("its changes could not be written to ", feed),
        HaltCause::Misfit => (
            "a row of it does not fit the description of its columns",
            "",
        ),
        HaltCause::Memory => ("memory ran out for the set that is waited for", ""),
        HaltCause::Unfinished => ("a first copy of tables is unfinished", ""),
        HaltCause::Kept => (
            "the database or its file of changes is another than asked for",
            "",
        ),
    };
    writeln!(
        out,
        "mrep: {stream}: stopped before a transaction, since {why}{}",
        Shown(feed)
    )
}

/// Writes the message of a source.
fn write_message<W: Write>(stream: Shown<'_>, message: &[u8], out: &mut W) -> io::Result<()> {
    write!(out, "mrep: {stream}: the source says: ")?;
    write_escaped(message, out)?;
    writeln!(out)
}

/// Writes what to do about an end, if there is something besides what the message says.
pub fn write_advice<E: Write>(stream: &str, reason: &Reason, err: &mut E) -> io::Result<()> {
    let advice = match reason {
        Reason::Event(fault) => event_advice(fault.kind),
        Reason::Greet(fault) => greet_advice(fault),
        _ => None,
    };
    match advice {
        Some(advice) => writeln!(err, "mrep: {}: {advice}", Shown(stream)),
        None => Ok(()),
    }
}

/// Whether the transaction in which a connection has ended can be left out, if a transaction is the cause: a source that is
/// followed does not send it again, and a stream does, whose events are read all the same.
pub fn can_skip(reason: &Reason, is_live: bool) -> Option<bool> {
    match reason {
        Reason::Gather(GatherFault::NoFormat) => Some(false),
        Reason::Event(_) | Reason::Gather(_) => Some(is_live),
        Reason::Refused(_) => Some(true),
        Reason::Database(_) | Reason::Memory | Reason::Halted => Some(false),
        _ => None,
    }
}

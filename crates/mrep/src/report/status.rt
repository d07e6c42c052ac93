//! The exit status of the connections that a command has read.

ghost use Rattle.std.specs.Prelude.{◌≡◌, ◌≤◌, Err, IsOk, IfOk, IfErr};
ghost use Rattle.mrep.specs.Reason.{status_of, first_status, IsCounted};

use crate::report::failure::{DONE, FILES, Failure, FailureKind, MEMORY, REFUSED};
use replica::{Ended, Reason};
use std::io::Write;

/// The exit status of a reason.
fn status_of(reason: &Reason) -> u8
    ensures status { result ≡ status_of reason.now }
    ensures range { result ≤ MEMORY }
{
    match reason {
        Reason::EndOfInput | Reason::SourceEof | Reason::Until => DONE,
        Reason::SourceError { .. }
        | Reason::Wire(_)
        | Reason::Greet(_)
        | Reason::Event(_)
        | Reason::Gather(_)
        | Reason::Refused(_) => REFUSED,
        Reason::Database(_) | Reason::ReadFailed | Reason::WriteFailed | Reason::Halted => FILES,
        Reason::Memory => MEMORY,
    }
}

/// The exit status of connections in order.
///
/// Clauses:
/// - `status`, `range`: the first that is not 0, or 0
fn first_status(ends: &[Ended]) -> u8
    ensures status { result ≡ first_status ends.now }
    ensures range { result ≤ MEMORY }
{
    for end in ends {
        let status = status_of(&end.reason);
        if status != DONE {
            return status;
        }
    }
    DONE
}

/// The connections whose status counts: not the last one where it was stopped for a row that does not fit, or since memory ran
/// out, whose failure has a status of its own.
pub fn counted<'e>(ends: &'e [Ended], done: &Result<(), Failure>) -> &'e [Ended]
    ensures counted { IsCounted ends.now done.now result.now }
{
    match (ends, done) {
        (
            [before @ .., last],
            Err(
                Failure::Told {
                    kind: FailureKind::Misfit,
                    ..
                }
                | Failure::Memory,
            ),
        ) if matches!(last.reason, Reason::Halted) => before,
        _ => ends,
    }
}

/// The first status of the connections that is not 0, otherwise that of any other failure.
///
/// Clauses:
/// - `first`, `failed`, `range`: the first status that is not 0; a failure is answered only where each connection's
///   status is 0
pub fn status_after<E: Write>(
    ends: &[Ended],
    done: Result<(), Failure>,
    err: &mut E,
) -> Result<u8, Failure>
    ensures first { IfOk result (λ status. status ≡ first_status ends.now) }
    ensures failed { IfErr result (λ failure. (first_status ends.now ≡ DONE)
        × (done ≡ Err failure)) }
    ensures range { IfOk result (λ status. status ≤ MEMORY) }
{
    let status = first_status(ends);
    match done {
        Err(failure) if status == DONE => Err(failure),
        Err(failure) => {
            let _ = failure.write(err);
            Ok(status)
        }
        Ok(()) => Ok(status),
    }
}

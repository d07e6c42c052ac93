//! Following a source over a stream.

ghost use Rattle.std.specs.Prelude.{◌≡◌, ◌≢◌, ◌<◌, ◌≤◌, ◌+◌, ◌-◌, ◌^◌, ◌++◌, ℕ, List, [], Bool, true, length, take, if◌then◌else◌, None};
ghost use Rattle.std.specs.Io.KnownBytes.{Appends, Consumes, Keeps, IsAtEnd};
ghost use Rattle.sqlite.specs.State.{HasCleanDisk};
ghost use Rattle.sqlite_schema.specs.declared.schema.Schema.{Schema};
ghost use Rattle.store.specs.State.{Content};
ghost use Rattle.store.specs.Store.{HoldsAs, database};
ghost use Rattle.replica.specs.Standing.{Position, reads_on, end_of};
ghost use Rattle.replica.specs.Over.{StandsOver};
ghost use Rattle.replica.specs.Noted.{IsAsked, MayEnd};
ghost use Rattle.replica.specs.Missing.{waits_for_none};
ghost use Rattle.replica.specs.Failing.{HaveFailed};
ghost use Rattle.replica.specs.Follow.{Follows, HandsOut, exchange, sends_no_more_after, reads_failed, turns_left, ReportsFailures};
ghost use Rattle.replica.specs.Keeps.{KeepsStore, KeepsObserved};

use crate::observer::{Observer, Unobserved};
use crate::session::Session;
use crate::session::config::Config;
use crate::session::end::{Ended, Reason};
use crate::source::counted::{Counted, Duplex};
use sqlite::Alter;
use std::alloc::Global;
use store::Store;

/// How many bytes a read of a stream asks for, at most: 64 KiB.
pub const PIECE: usize = 65_536;

/// Whether the connection was ended by the database, by running out of memory or by the observer. Then nothing more is
/// sent.
fn sends_no_more(session: &Session) -> bool
    ensures { result ≡ sends_no_more_after (end_of session.now).reason }
{
    match session.ended() {
        Some(end) => matches!(
            end.reason,
            Reason::Memory | Reason::Database(_) | Reason::Halted | Reason::Until
        ),
        None => false,
    }
}

/// Sends the bytes, and returns whether no write has failed.
fn send_all<T: Duplex>(stream: &mut Counted<T>, bytes: &[u8]) -> bool
    requires { stream.old.failed_writes < 2 ^ 64 - 1 }
    ensures sent { (n : ℕ) × (n ≤ length bytes.now)
        × Appends (T.Write.contents stream.old.stream) (T.Write.contents stream.new.stream)
        (take n bytes.now) × (result ≡ true → n ≡ length bytes.now) }
    ensures apart { Keeps (T.Read.remaining stream.old.stream)
        (T.Read.remaining stream.new.stream) }
    ensures writes { stream.new.failed_writes ≡ stream.old.failed_writes + (if result then 0
        else 1) }
    ensures reads { stream.new.failed_reads ≡ stream.old.failed_reads }
    ensures reported { HaveFailed (T.failures stream.old.stream) (T.failures stream.new.stream) 0
        (if result then 0 else 1) }
{
    let mut at = 0;
    while at < bytes.len() {
        match stream.send(&bytes[at..]) {
            Ok(taken @ 1..) => at += taken,
            _ => return false,
        }
    }
    true
}

/// Sends the session's pending output, and returns whether no write has failed.
fn send_pending<T: Duplex>(session: &mut Session, stream: &mut Counted<T>) -> bool
    requires { stream.old.failed_writes < 2 ^ 64 - 1 }
    // What was sent, and what could not be sent.
    ensures sent { (y : List ℕ) × (z : List ℕ) × Appends (T.Write.contents stream.old.stream)
        (T.Write.contents stream.new.stream) y × (result ≡ true → z ≡ [])
        × HandsOut session.old session.new (y ++ z) }
    ensures apart { Keeps (T.Read.remaining stream.old.stream)
        (T.Read.remaining stream.new.stream) }
    ensures writes { stream.new.failed_writes ≡ stream.old.failed_writes + (if result then 0
        else 1) }
    ensures reads { stream.new.failed_reads ≡ stream.old.failed_reads }
    ensures reported { HaveFailed (T.failures stream.old.stream) (T.failures stream.new.stream) 0
        (if result then 0 else 1) }
{
    let out = session.take_out();
    send_all(stream, out.as_slice())
}

/// The outcome of a read.
#[derive(Clone, Copy, Debug, PartialEq, Eq)]
enum Turn {
    Read,
    AtEnd,
    Failed,
}

/// Reads some bytes of the stream into the session.
fn read_piece<T: Duplex, S: Alter, W: Observer>(
    session: &mut Session,
    stream: &mut Counted<T>,
    store: &mut Store<S>,
    buffer: &mut [u8],
    observer: &mut W,
) -> Turn
    requires room { stream.old.failed_reads < 2 ^ 64 - 1 }
    requires going { session.old.ended ≡ None }
    requires some { 0 < length buffer.old }
    ensures buffer { length buffer.new ≡ length buffer.old }
    ensures read { result ≡ Turn.Read → (x : List ℕ) × (length x ≤ length buffer.old)
        × Consumes (T.Read.remaining stream.old.stream) (T.Read.remaining stream.new.stream) x
        × (HasCleanDisk (database S.Store store.new)
        → (schema : Schema) (pos : Position)
        → StandsOver S.Store session.old store.old schema pos
        → StandsOver S.Store session.new store.new schema (reads_on pos x)) }
    ensures apart { Keeps (T.Write.contents stream.old.stream)
        (T.Write.contents stream.new.stream) }
    ensures reads { stream.new.failed_reads ≡ stream.old.failed_reads + reads_failed result }
    ensures writes { stream.new.failed_writes ≡ stream.old.failed_writes }
    ensures reported { HaveFailed (T.failures stream.old.stream) (T.failures stream.new.stream)
        (reads_failed result) 0 }
    ensures keeps { KeepsObserved S.Store store.old store.new (W.account observer.old)
        (W.account observer.new) [] }
    ensures config { session.new.config ≡ session.old.config }
    ensures may_end { MayEnd (end_of session.old).reason (W.account observer.old)
        → MayEnd (end_of session.new).reason (W.account observer.new) }
    ensures turns { result ≡ Turn.Read → turns_left session.new < turns_left session.old }
    ensures still { result ≢ Turn.Read → (session.new ≡ session.old) × (store.new ≡ store.old)
        × (observer.new ≡ observer.old)
        × Keeps (T.Read.remaining stream.old.stream) (T.Read.remaining stream.new.stream) }
    ensures at_end { result ≡ Turn.AtEnd → IsAtEnd (T.Read.remaining stream.new.stream) }
{
    match stream.receive(buffer) {
        Err(_) => Turn::Failed,
        Ok(0) => Turn::AtEnd,
        Ok(n) => {
            observer.received(n);
            // `Stopped` only if the session had ended; the caller asks for that.
            let _ = session.feed_observed(store, &buffer[..n], observer);
            Turn::Read
        }
    }
}

/// The end of the session, with another reason.
fn ended_with(session: Session, reason: Reason) -> Ended
    ensures { result ≡ record {
      reason = reason;
      at = (end_of session).at;
      applied =
          (end_of session).applied;
    } }
{
    let Ended { at, applied, .. } = session.finish();
    Ended {
        reason,
        at,
        applied,
    }
}

/// Follows a source over a stream until the connection ends. All pending output is sent before each read, and each read
/// asks for 64 KiB.
///
/// Every error of the stream is a failure, and so is a write that takes nothing of a non-empty slice; a read of no
/// bytes is the end of the input. After a failure of the database, or when memory runs out, nothing more is sent.
///
/// Clauses:
/// - `follows`, `failures`: end and content are those of exactly the bytes that were read, and the bytes written are
///   what the payloads taken ask for; failures are reported exactly where one was counted
/// - `going`, `keeps`: nothing halts the connection; the tables that are followed and a store that has failed stay
pub fn follow<T: Duplex, S: Alter>(
    alloc: Global,
    stream: &mut Counted<T>,
    store: &mut Store<S>,
    config: Config,
) -> Ended
    requires reads { stream.old.failed_reads < 2 ^ 64 - 1 }
    requires writes { stream.old.failed_writes < 2 ^ 64 - 1 }
    // The content of the store afterwards and the end are those of the bytes read, and the bytes sent are due in reply
    // to them.
    ensures follows { HasCleanDisk (database S.Store store.new) → (was : Bool) (old : Content)
        → HoldsAs S.Store was old store.old → Follows S.Store config store.old store.new was old
        (exchange T.Read.remaining T.Write.contents stream.old.stream stream.new.stream) result }
    // Nothing halts the connection.
    ensures going { result.reason ≢ Reason.Halted }
    // A failure of the stream is reported exactly if there was one, and at most one call has failed.
    ensures failures { ReportsFailures T.failures stream.old stream.new result.reason }
    // It follows the same tables, and a store that has failed stays as it is.
    ensures keeps { KeepsStore S.Store store.old store.new }
{
    follow_observed(alloc, stream, store, config, &mut Unobserved)
}

/// As [`follow`], and reports what is read to an observer, which may stop it before a transaction, or once it waits for nothing
/// more. After that nothing more is sent; and nothing is read or sent where it waits for nothing at the start.
pub fn follow_observed<T: Duplex, S: Alter, W: Observer>(
    alloc: Global,
    stream: &mut Counted<T>,
    store: &mut Store<S>,
    config: Config,
    observer: &mut W,
) -> Ended
    requires reads { stream.old.failed_reads < 2 ^ 64 - 1 }
    requires writes { stream.old.failed_writes < 2 ^ 64 - 1 }
    ensures follows { HasCleanDisk (database S.Store store.new) → (was : Bool) (old : Content)
        → HoldsAs S.Store was old store.old → Follows S.Store config store.old store.new was old
        (exchange T.Read.remaining T.Write.contents stream.old.stream stream.new.stream) result }
    // The connection is halted, or ended with `Until`, only if the observer asked for that.
    ensures asked { IsAsked result.reason (W.account observer.new) }
    // What was reported to the observer leads from the content before to the one afterwards; once it has stopped, the store
    // stays as it is.
    ensures keeps { KeepsObserved S.Store store.old store.new (W.account observer.old)
        (W.account observer.new) [] }
    // If it waits for nothing, nothing is read or sent.
    ensures until { waits_for_none (W.account observer.old).waits ≡ true
        → (result ≡ record { reason = Reason.Until; at = 0; applied = 0 })
        × (stream.new ≡ stream.old) × (store.new ≡ store.old) × (observer.new ≡ observer.old) }
    ensures failures { ReportsFailures T.failures stream.old stream.new result.reason }
{
    let mut session = Session::new(config);
    if observer.is_done() {
        return ended_with(session, Reason::Until);
    }
    let Ok(mut buffer) = vec![in alloc; 0u8; PIECE] else {
        return ended_with(session, Reason::Memory);
    };
    'turns: loop {
        if sends_no_more(&session) {
            return session.finish();
        }
        if !send_pending(&mut session, stream) {
            return ended_with(session, Reason::WriteFailed);
        }
        if session.ended().is_some() {
            return session.finish();
        }
        match read_piece(&mut session, stream, store, &mut buffer, observer) {
            Turn::Read => {}
            Turn::AtEnd => return session.finish(),
            Turn::Failed => return ended_with(session, Reason::ReadFailed),
        }
    }
}

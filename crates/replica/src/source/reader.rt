//! A connection that is read from a file.

ghost use Rattle.std.specs.Prelude.{◌≡◌, ◌<◌, [], Bool, length, IfOk, IfErr};
ghost use Rattle.std.specs.Io.{ReadsAtMost};
ghost use Rattle.std.specs.Io.KnownBytes.{ReadConsumes, IsAtEnd};
ghost use Rattle.sqlite.specs.State.{HasCleanDisk};
ghost use Rattle.store.specs.State.{Content};
ghost use Rattle.store.specs.Store.{HoldsAs, database};
ghost use Rattle.replica.specs.declared.session.end.Reason.TheVariants.{EndOfInput};
ghost use Rattle.replica.specs.declared.session.end.Ended.{Ended as End};
ghost use Rattle.replica.specs.Over.{HasReadOf, taken_from};
ghost use Rattle.replica.specs.Noted.{MayEnd};
ghost use Rattle.replica.specs.Keeps.{KeepsObserved};

use crate::observer::Observer;
use crate::session::Session;
use crate::session::config::Config;
use crate::session::end::Ended;
use sqlite::Alter;
use std::io;
use std::io::Read;
use store::Store;

/// Reads some bytes, and tries again if a signal interrupted the read.
pub fn read_some<R: Read>(reader: &mut R, piece: &mut [u8]) -> io::Result<usize>
    ensures bound { ReadsAtMost result piece.new }
    ensures bytes { ReadConsumes (R.remaining reader.old)
        (R.remaining reader.new) result piece.new }
{
    // A `for`, since the prover asks that each loop ends.
    for _ in 0..u64::MAX {
        match reader.read(piece) {
            Ok(count) => return Ok(count),
            Err(cause) if cause.kind() == io::ErrorKind::Interrupted => {}
            Err(cause) => return Err(cause),
        }
    }
    Err(io::Error::from(io::ErrorKind::Interrupted))
}

/// Reads one connection to its end: its first bytes, and then those that the reader gives, a piece at a time. It reads
/// no further than the piece in which the connection ends. After an error of the reader, the store keeps what was
/// applied before it.
///
/// Clauses:
/// - `read`, `all`, `failed`: end and content are those of exactly the bytes that were read, which are all where the
///   input has ended; those before an error did not end the connection
/// - `keeps`, `may_end`, `piece`: what was reported leads from the content before to that afterwards; the connection is
///   halted only if the observer has stopped; the piece is as long as before
pub fn read_stream<R: Read, S: Alter, W: Observer>(
    config: Config,
    store: &mut Store<S>,
    first: &[u8],
    reader: &mut R,
    piece: &mut [u8],
    observer: &mut W,
) -> io::Result<Ended>
    requires { 0 < length piece.old }
    ensures piece { length piece.new ≡ length piece.old }
    // The end and the content of the store are those of exactly the bytes that were read, and none were read after the
    // piece in which the connection ended.
    ensures read { IfOk result (λ end. HasCleanDisk (database S.Store store.new)
        → (was : Bool) (old : Content) → HoldsAs S.Store was old store.old
        → HasReadOf S.Store config.limit store.old store.new was old
        (taken_from R.remaining first.now (length piece.old) reader.old reader.new) end) }
    // If the input has ended, nothing is left unread.
    ensures all { IfOk result (λ end. HasCleanDisk (database S.Store store.new)
        → (was : Bool) (old : Content) → HoldsAs S.Store was old store.old → end.reason ≡ EndOfInput
        → IsAtEnd (R.remaining reader.new)) }
    // The bytes that were read before the error did not end the connection.
    ensures failed { IfErr result (λ _. HasCleanDisk (database S.Store store.new)
        → (was : Bool) (old : Content) → HoldsAs S.Store was old store.old
        → (end : End) × (end.reason ≡ EndOfInput)
        × HasReadOf S.Store config.limit store.old store.new was old
        (taken_from R.remaining first.now (length piece.old) reader.old reader.new) end) }
    // The connection is halted only if the observer has stopped.
    ensures may_end { IfOk result (λ end. MayEnd end.reason (W.account observer.new)) }
    // What was reported to the observer leads from the content before to the one afterwards; once it has stopped, the store
    // stays as it is.
    ensures keeps { KeepsObserved S.Store store.old store.new (W.account observer.old)
        (W.account observer.new) [] }
{
    let mut session = Session::new(config);
    observer.received(first.len());
    let _ = session.feed_observed(store, first, observer);
    while session.ended().is_none() {
        match read_some(reader, piece) {
            Ok(0) => return Ok(session.finish()),
            Ok(count) => {
                observer.received(count);
                let _ = session.feed_observed(store, &piece[..count], observer);
            }
            Err(cause) => return Err(cause),
        }
    }
    Ok(session.finish())
}

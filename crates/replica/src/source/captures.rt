//! Captured connections, read in order.

ghost use Rattle.std.specs.Prelude.{◌≡◌, ◌<◌, ◌≤◌, [], Bool, length, vec_capacity, IfOk, IfErr, Ok, Err};
ghost use Rattle.sqlite.specs.State.{HasCleanDisk};
ghost use Rattle.store.specs.State.{Content};
ghost use Rattle.store.specs.Store.{HoldsAs, database};
ghost use Rattle.replica.specs.Capture.{HasReadOne, HasBrokenOff, Reads, HeedsObserver};
ghost use Rattle.replica.specs.Over.{HasReadAll};
ghost use Rattle.replica.specs.Noted.{MayEnd};
ghost use Rattle.replica.specs.Keeps.{KeepsObserved, KeepsSinceOpening};

use crate::observer::Observer;
use crate::session::config::Config;
use crate::session::end::{Ended, Reason};
use crate::source::reader::read_stream;
use sqlite::Alter;
use std::io;
use std::io::Read;
use store::Store;

/// A captured connection: its first byte, if that has been read, and a reader that gives the others.
#[derive(Drop)]
pub struct Capture<R> {
    pub first: Option<u8>,
    pub reader: R,
    /// How many bytes the connection has; 0 if that is not known.
    pub size: u64,
}

/// Why connections are left unread.
#[derive(Drop)]
pub enum Halt {
    /// A reader failed before its connection had ended.
    Reader(io::Error),
    /// The observer stopped: [`Observer::ended`] returned `false`, or it waited for nothing at the start.
    Observer,
}

/// Reads a captured connection to its end.
fn read_capture<R: Read + Drop, S: Alter, W: Observer>(
    config: &Config,
    store: &mut Store<S>,
    capture: Capture<R>,
    piece: &mut [u8],
    observer: &mut W,
) -> io::Result<Ended>
    requires { 0 < length piece.old }
    ensures piece { length piece.new ≡ length piece.old }
    ensures read { IfOk result (λ end. HasCleanDisk (database S.Store store.new)
        → (was : Bool) (old : Content) → HoldsAs S.Store was old store.old
        → HasReadOne S.Store R.Read.remaining config.now.limit store.old store.new
        (record { broken = was; content = old }) capture end) }
    ensures failed { IfErr result (λ _. HasCleanDisk (database S.Store store.new)
        → (was : Bool) (old : Content) → HoldsAs S.Store was old store.old
        → HasBrokenOff S.Store R.Read.remaining config.now.limit store.old store.new was old
        capture) }
    ensures may_end { IfOk result (λ end. MayEnd end.reason (W.account observer.new)) }
    ensures keeps { KeepsObserved S.Store store.old store.new (W.account observer.old)
        (W.account observer.new) [] }
{
    let Capture {
        first,
        mut reader,
        ..
    } = capture;
    match config.copy() {
        Ok(config) => {
            let first = first.as_slice();
            read_stream(config, store, first, &mut reader, piece, observer)
        }
        Err(_) => Ok(Ended {
            reason: Reason::Memory,
            at: 0,
            applied: 0,
        }),
    }
}

/// Reads captured connections in order into a store that was opened for them, which is reported first, and then each as soon
/// as it has ended. `ends` has the ends of those that were reported.
pub(crate) fn read_captures<R: Read + Drop, S: Alter, W: Observer>(
    config: &Config,
    store: &mut Store<S>,
    captures: Vec<Capture<R>>,
    piece: &mut [u8],
    ends: &mut Vec<Ended>,
    observer: &mut W,
) -> Result<(), Halt>
    requires piece { 0 < length piece.old }
    requires none { ends.old.items ≡ [] }
    requires room { length captures.items ≤ vec_capacity ends.old }
    // The content of the store and the ends are those of taking the captures in order, each once.
    ensures reads { HasCleanDisk (database S.Store store.new) → (was : Bool) (old : Content)
        → HoldsAs S.Store was old store.old → Reads R.Read.remaining
        (HasReadAll S.Store config.now.limit store.new
        (database S.Store store.old).now.schema was old) captures.items ends.new.items result }
    ensures heeded { HeedsObserver (W.account observer.old) (W.account observer.new)
        ends.new.items result }
    // What was reported to it leads from the content before to the one afterwards, with the ends of the connections; if it had
    // stopped before, the store stays as it is.
    ensures keeps { KeepsSinceOpening S.Store store.old store.new (W.account observer.old)
        (W.account observer.new) ends.new.items }
{
    observer.opened(store.executed(), store.following());
    if observer.is_done() {
        return Err(Halt::Observer);
    }
    for capture in captures {
        let end = match read_capture(config, store, capture, piece, observer) {
            Ok(end) => end,
            Err(cause) => return Err(Halt::Reader(cause)),
        };
        let goes_on = observer.ended(&end);
        ends.push_reserved(end);
        if !goes_on {
            return Err(Halt::Observer);
        }
    }
    Ok(())
}

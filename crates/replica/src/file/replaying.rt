//! Replaying captured connections into a database file.

ghost use Rattle.std.specs.Prelude.{◌≡◌, Some, IfOk, IfErr, IsErr, Ok, Err, All};
ghost use Rattle.sqlite_wal.specs.Files.{image_at};
ghost use Rattle.gtid.specs.Identifier.{Ids};
ghost use Rattle.store.specs.Entering.{wanted_of};
ghost use Rattle.replica.specs.NotedFile.{HaveReached, AreNoted};
ghost use Rattle.replica.specs.File.{OfHeld, IsTurnedAway, ClosesAs};
ghost use Rattle.replica.specs.Replay.{Replays};
ghost use Rattle.replica.specs.declared.session.end.Reason.TheVariants.{Until};
ghost use Rattle.replica.specs.Capture.{HeedsObserver};

use crate::file::not_opened::{NO_MEMORY, give_up};
use crate::file::{Unopened, close_file, open_file};
use crate::observer::Observer;
use crate::session::config::Config;
use crate::session::end::Ended;
use crate::source::captures::{Capture, Halt, read_captures};
use crate::source::following::PIECE;
use binlog::Follow;
use sqlite::{Error, FileFrom, FileStore, Files, Start};
use sqlite_disk::Disk;
use std::io::Read;

/// How many bytes a database is expected to grow by from connections: an eighth of theirs, as it does where the transactions
/// are small. More than any database if of no connection is known how long it is.
fn growth<R>(captures: &[Capture<R>]) -> u64 {
    let mut size = 0u64;
    for capture in captures {
        size = size.saturating_add(capture.size);
    }
    if size == 0 { u64::MAX } else { size / 8 }
}

/// What a replay has done.
pub struct Replayed<D: Disk> {
    /// How the connections ended that were read to their end.
    pub ends: Vec<Ended>,
    /// Why the others were not, if there are others.
    pub read: Result<(), Halt>,
    /// The files, which are closed; or why they could not be closed, and what is left of them.
    pub closed: Result<Files<D>, (Error, FileStore<D>)>,
}

/// Opens the database in a file, reads captured connections into it in order, and closes it. Each end is reported as soon
/// as its connection has ended. Memory is allocated first: 64 KiB, and room for the ends.
///
/// `start` stands for what the files held before (see [`open_file`]).
///
/// Clauses: as [`in_file`], and:
/// - `replays`: the headline (`docs/THEOREMS.md`)
/// - `noted`: what was reported leads from the one content to the other; if the observer had stopped before, nothing is
///   applied
/// - `heeded`, `until`: a connection is halted, or ended with `Until`, only for the observer; with `Until` the files
///   hold the first content in which all that it waited for is executed
pub fn replay<P: Start, R: Read + Drop, W: Observer>(
    rt: &HostRuntime,
    path: &str,
    start: P,
    only: Option<&Follow>,
    config: &Config,
    captures: Vec<Capture<R>>,
    observer: &mut W,
) -> Result<Replayed<FileFrom<P>>, Unopened<FileFrom<P>>>
    // If the files held a database that stands for a content, or none was there, the ends are those of taking the
    // connections in order, each once, from that content, and the closed files hold a database that stands for the content
    // that they lead to.
    ensures replays { IfOk result (λ done. OfHeld (wanted_of only.entry) (image_at P.Start)
        (λ names content. Replays R.Read.remaining config.now.limit names content
        captures.items done)) }
    // Such a database was made for the given tables; any other whose tables are known stood for a content too. Why the files
    // could not be closed is what they met.
    ensures closing { IfOk result (λ done. ClosesAs (wanted_of only.entry) (image_at P.Start)
        done.closed) }
    // Captures are left unread for the observer only if that has stopped, and a connection is halted, or ended with `Until`,
    // only if it asked for that.
    ensures heeded { IfOk result (λ done. HeedsObserver (W.account observer.old)
        (W.account observer.new) done.ends.items done.read) }
    // What was reported to the observer leads from that content to the one that the closed files hold, with the ends; and if it
    // had stopped before, nothing is applied.
    ensures noted { IfOk result (λ done. AreNoted (wanted_of only.entry) (image_at P.Start)
        (λ content. content) (W.account observer.old) (W.account observer.new)
        done.ends.items done.closed) }
    // Where one is ended with `Until`, the files hold the first content in which all that the observer waited for is executed.
    ensures until { IfOk result (λ done. (wanted : Ids)
        → (W.account observer.old).waits ≡ Some wanted
        → OfHeld (wanted_of only.entry) (image_at P.Start) (λ names content.
        All (λ end. end.reason ≡ Until → HaveReached names content wanted done.closed)
        done.ends.items)) }
    // A database that stands for a content is refused only if it was made for other tables, fails, or memory runs out, and is
    // left with that content. Any other is refused with its reason and left as it is, and so are files that cannot be opened.
    ensures turned { IfErr result (IsTurnedAway (wanted_of only.entry) (image_at P.Start)) }
    // Then nothing was read or reported.
    ensures untouched { IsErr result → observer.new ≡ observer.old }
{
    let alloc = rt.alloc();
    let Ok(mut ends) = Vec::with_capacity(alloc, captures.len()) else {
        return Err(Unopened::NotOpened(give_up(start, NO_MEMORY)));
    };
    let Ok(mut piece) = vec![in alloc; 0; PIECE] else {
        return Err(Unopened::NotOpened(give_up(start, NO_MEMORY)));
    };
    let mut store = open_file(rt, path, start, growth(&captures), only)?;
    let read = read_captures(
        config, &mut store, captures, &mut piece, &mut ends, observer,
    );
    let closed = close_file(store);
    Ok(Replayed { ends, read, closed })
}

//! Changing a database in a file by transactions that no connection carries.

ghost use Rattle.std.specs.Prelude.{◌≡◌, [], IfOk, IfErr, IsErr};
ghost use Rattle.sqlite_wal.specs.Files.{image_at};
ghost use Rattle.store.specs.Changes.{adopted};
ghost use Rattle.store.specs.Entering.{wanted_of};
ghost use Rattle.replica.specs.NotedFile.{AreNoted};
ghost use Rattle.replica.specs.File.{OfHeld, IsTurnedAway, ClosesAs};
ghost use Rattle.replica.specs.Change.{IsAdopted, UnlessAdopted, MayStop};
ghost use Rattle.replica.specs.ChangeFile.{ChangesFile};

use crate::change::changing::{ChangeEnd, change};
use crate::file::{Unopened, close_file, open_file};
use crate::observer::Observer;
use binlog::Follow;
use gather::Deliveries;
use gtid::GtidSet;
use sqlite::{Error, FileFrom, FileStore, Files, Start};
use sqlite_disk::Disk;

/// What a change of a file has done.
pub struct ChangedFile<E, D: Disk> {
    /// How many transactions were applied. Those that had been executed before do not count.
    pub applied: u64,
    /// How that ended.
    pub end: ChangeEnd<E>,
    /// The files, which are closed; or why they could not be closed, and what is left of them.
    pub closed: Result<Files<D>, (Error, FileStore<D>)>,
}

/// Opens the database in a file, adds the set `gtids` to its executed set in one commit, applies the transactions that
/// `deliveries` gives, in order, each once and in a commit of its own, and closes the database. A transaction that is executed
/// then changes nothing. It stops at the first one that is refused, and where the observer has stopped or waits for nothing.
///
/// The executed set is reported once the set is added, so with that set in it. If the set is not added
/// ([`ChangeEnd::NotAdopted`]), nothing is reported, and no transaction is asked for.
///
/// `start` stands for what the files held before (see [`open_file`]).
///
/// Clauses: as [`in_file`], and:
/// - `changes`: the closed files hold what the set and the first of the transactions, each once, make of what they
///   held; all of them, if the end says so
/// - `noted`, `unreported`: what was reported leads from the content with the set to the one that the files hold; where
///   the set was not added, nothing was reported
/// - `asked`: it stops for the observer only if that has stopped, or waits for nothing
pub fn change_file<P: Start, I: Deliveries + Drop, W: Observer>(
    rt: &HostRuntime,
    path: &str,
    start: P,
    only: Option<&Follow>,
    gtids: &GtidSet,
    mut deliveries: I,
    observer: &mut W,
) -> Result<ChangedFile<I::Error, FileFrom<P>>, Unopened<FileFrom<P>>>
    // If the files held a database that stands for a content, or none was there, the closed files hold what the first of the
    // transactions, in order, each once, make of that content with the set added; all of them, if the end says so.
    ensures changes { IfOk result (λ done. OfHeld (wanted_of only.entry) (image_at P.Start)
        (λ names content. ChangesFile (I.supply deliveries) names content gtids.now done)) }
    // Such a database was made for the given tables; any other whose tables are known stood for a content too. Why the files
    // could not be closed is what they met.
    ensures closing { IfOk result (λ done. ClosesAs (wanted_of only.entry) (image_at P.Start)
        done.closed) }
    // It stops for the observer only if that has stopped, or waits for nothing.
    ensures asked { IfOk result (λ done. MayStop done.end (W.account observer.new)) }
    // If the set was added, what was reported to the observer leads from the content with it to the one that the closed files
    // hold; and if it had stopped before, no transaction is applied.
    ensures noted { IfOk result (λ done. IsAdopted done.end → AreNoted (wanted_of only.entry)
        (image_at P.Start) (λ content. adopted content gtids.now) (W.account observer.old)
        (W.account observer.new) [] done.closed) }
    // If the set was not added, nothing was reported.
    ensures unreported { IfOk result (λ done. UnlessAdopted done.end
        (observer.new ≡ observer.old)) }
    // A database that stands for a content is refused only if it was made for other tables, fails, or memory runs out, and is
    // left with that content. Any other is refused with its reason and left as it is, and so are files that cannot be opened.
    ensures turned { IfErr result (IsTurnedAway (wanted_of only.entry) (image_at P.Start)) }
    // Then nothing was reported.
    ensures untouched { IsErr result → observer.new ≡ observer.old }
{
    let mut store = open_file(rt, path, start, u64::MAX, only)?;
    let (applied, end) = change(&mut store, gtids, &mut deliveries, observer);
    let closed = close_file(store);
    Ok(ChangedFile {
        applied,
        end,
        closed,
    })
}

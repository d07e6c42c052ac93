//! Loading a first copy of tables into a database in a file.

ghost use Rattle.std.specs.Prelude.{◌≡◌, IfOk, IfErr, IsErr};
ghost use Rattle.sqlite_wal.specs.Files.{image_at};
ghost use Rattle.store.specs.Entering.{wanted_of, names_for};
ghost use Rattle.replica.specs.File.{OfHeld, IsTurnedAway, ClosesAs};
ghost use Rattle.replica.specs.Copies.{copy_of};
ghost use Rattle.replica.specs.LoadFile.{LoadsFile, IsNotedOfLoad, UnlessLoaded, MayStopLoad};

use crate::change::loading::{FirstCopy, LoadEnd, load};
use crate::change::marks::ended_mark;
use crate::change::then_last::ThenLast;
use crate::file::{Unopened, close_file, open_file};
use crate::observer::Observer;
use binlog::Follow;
use gather::Deliveries;
use sqlite::{Error, FileFrom, FileStore, Files, Start};
use sqlite_disk::Disk;

/// What loading a copy into a file has done.
pub struct LoadedFile<E, D: Disk> {
    /// How many of its transactions were applied, with the one that says that it has ended. Those that had been executed before do
    /// not count.
    pub applied: u64,
    /// How that ended.
    pub end: LoadEnd<E>,
    /// The files, which are closed; or why they could not be closed, and what is left of them.
    pub closed: Result<Files<D>, (Error, FileStore<D>)>,
}

/// Opens the database in a file and loads a first copy of tables, whose transactions with rows `deliveries` gives: adds the set
/// at which its rows were read, with the copy's first GTID and the mark that it has begun, to the executed set in one commit, and
/// applies the transactions in order, each once and in a commit of its own, as [`change_file`](crate::change_file) does; then one
/// that changes nothing, whose GTID, the last one of the copy's source, says that the copy has ended. Then it closes the database. A
/// copy that was begun goes on where it stopped; one that has ended changes nothing.
///
/// While a copy has begun and not ended, no other one is loaded. A copy that was not begun is refused, and nothing is changed and
/// nothing reported, unless the database has executed nothing, or exactly the set and besides it copies alone; the tables are
/// read, and their rows are kept or nothing is executed; and none of them has rows. Of tables that are read and not kept the rows
/// are reported alone.
///
/// `start` stands for what the files held before (see [`open_file`]).
///
/// Clauses: as [`in_file`], [`change_file`], and:
/// - `loads`: the same as `changes` of [`change_file`], of a first copy; what may not be done changes nothing, for the
///   first reason in an order
/// - `notes`, `unreported`: what was reported leads from the content with the copy's set to the one that the files
///   hold; where the set was not added, nothing was reported
pub fn load_file<P: Start, I: Deliveries + Drop, W: Observer>(
    rt: &HostRuntime,
    path: &str,
    start: P,
    only: Option<&Follow>,
    copy: FirstCopy<'_>,
    deliveries: I,
    observer: &mut W,
) -> Result<LoadedFile<I::Error, FileFrom<P>>, Unopened<FileFrom<P>>>
    // If the files held a database that stands for a content, or none was there, the copy is loaded if it may be, and the closed
    // files hold what its set with its marks and the first of its transactions, in order, each once, make of that content; all of
    // them and the one that says that it has ended, if the end says so. If it had ended, or may not be loaded, they hold the content
    // of before.
    ensures loads { IfOk result (λ done. OfHeld (wanted_of only.entry) (image_at P.Start)
        (λ names content. LoadsFile (names_for (wanted_of only.entry)) names content
        (copy_of (I.supply deliveries) copy.entry) done)) }
    // Such a database was made for the given tables; any other whose tables are known stood for a content too. Why the files
    // could not be closed is what they met.
    ensures closing { IfOk result (λ done. ClosesAs (wanted_of only.entry) (image_at P.Start)
        done.closed) }
    // It stops for the observer only if that has stopped, or waits for nothing.
    ensures asked { IfOk result (λ done. MayStopLoad done.end (W.account observer.new)) }
    // If the set was added, what was reported to the observer leads from the content with it to the one that the closed files
    // hold. Files that could not be closed are left with that content, or with one transaction more, which was reported before it.
    ensures notes { IfOk result (λ done. OfHeld (wanted_of only.entry) (image_at P.Start)
        (λ names content. IsNotedOfLoad names content (copy_of (I.supply deliveries) copy.entry)
        (W.account observer.old) (W.account observer.new) done.end done.closed)) }
    // If the copy had ended or was refused, or the set was not added, nothing was reported.
    ensures unreported { IfOk result (λ done. UnlessLoaded done.end
        (observer.new ≡ observer.old)) }
    // A database that stands for a content is not opened only if it was made for other tables, fails, or memory runs out, and is
    // left with that content. Any other is refused with its reason and left as it is, and so are files that cannot be opened.
    ensures turned { IfErr result (IsTurnedAway (wanted_of only.entry) (image_at P.Start)) }
    // Then nothing was reported.
    ensures untouched { IsErr result → observer.new ≡ observer.old }
{
    let mut store = open_file(rt, path, start, u64::MAX, only)?;
    let mut all = ThenLast::new(rt.alloc(), deliveries, ended_mark(copy.first.source));
    let (applied, end) = load(rt.alloc(), &mut store, &copy, &mut all, observer);
    let closed = close_file(store);
    Ok(LoadedFile {
        applied,
        end,
        closed,
    })
}

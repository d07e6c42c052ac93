//! Taking all rows of one table out of a database in a file.

ghost use Rattle.std.specs.Prelude.{◌≡◌, [], None, IfOk, IfErr, IsErr};
ghost use Rattle.sqlite_wal.specs.Files.{image_at};
ghost use Rattle.replica.specs.NotedFile.{AreNoted};
ghost use Rattle.replica.specs.File.{OfHeld, IsTurnedAway, ClosesAs};
ghost use Rattle.replica.specs.Clear.{MayEndClear, clear_of};
ghost use Rattle.replica.specs.ClearFile.{ClearsFile};

use crate::change::clearing::{ClearEnd, clear};
use crate::file::{Unopened, close_file, open_file};
use crate::observer::Observer;
use gtid::{Gtid, GtidSet};
use sqlite::{Error, FileFrom, FileStore, Files, Start};
use sqlite_disk::Disk;

/// What taking the rows of a table out of a file has done.
pub struct ClearedFile<D: Disk> {
    /// How it ended.
    pub end: ClearEnd,
    /// The files, which are closed; or why they could not be closed, and what is left of them.
    pub closed: Result<Files<D>, (Error, FileStore<D>)>,
}

/// Opens the database in a file, which is made for all tables if it is not there, takes all rows of one table out of it and
/// adds a GTID to its executed set, in one commit, and closes it. Nothing is changed if the GTID is executed, if the database was
/// made for other tables than this one, or if it has not executed `at` and besides it copies alone: `at` is what the source had
/// executed before the GTID, and a transaction of it that came later would put rows back.
///
/// Of a table that is read and not kept there are no rows, and the GTID alone is added.
///
/// The observer is always noticed of the executed set, and then of the transaction, with a delete for each copy of each row. All
/// of these are in memory at once.
///
/// `start` stands for what the files held before (see [`open_file`]).
///
/// Clauses: as [`in_file`], [`replay`], and:
/// - `clears`: the closed files hold what they held, without the rows of the table if the end says so; what may not be
///   done changes nothing, for the first reason in an order
/// - `asked`: it stops for the observer only if that has stopped
pub fn clear_file<P: Start, W: Observer>(
    rt: &HostRuntime,
    path: &str,
    start: P,
    schema: &[u8],
    table: &[u8],
    gtid: Gtid,
    at: &GtidSet,
    observer: &mut W,
) -> Result<ClearedFile<FileFrom<P>>, Unopened<FileFrom<P>>>
    // If the files held a database that stands for a content, or none was there, the closed files hold that content without the
    // rows of the table, if the end says so (with all its rows where the filter does not admit the table), and otherwise the
    // content itself.
    ensures clears { IfOk result (λ done. OfHeld None (image_at P.Start) (λ names content.
        ClearsFile (clear_of schema.now table.now gtid at.now) names content done)) }
    // Any other database whose tables are known stood for a content too. Why the files could not be closed is what they met.
    ensures closing { IfOk result (λ done. ClosesAs None (image_at P.Start) done.closed) }
    // It stops for the observer only if that has stopped.
    ensures asked { IfOk result (λ done. MayEndClear done.end (W.account observer.new)) }
    // What was reported to the observer, from the executed set on, leads from the content to the one that the closed files hold;
    // and if it had stopped before, nothing is changed.
    ensures noted { IfOk result (λ done. AreNoted None (image_at P.Start) (λ content. content)
        (W.account observer.old) (W.account observer.new) [] done.closed) }
    // A database that stands for a content is refused only if it fails, or memory runs out, and is left with that content. Any
    // other is refused with its reason and left as it is, and so are files that cannot be opened.
    ensures turned { IfErr result (IsTurnedAway None (image_at P.Start)) }
    // Then nothing was reported.
    ensures untouched { IsErr result → observer.new ≡ observer.old }
{
    let mut store = open_file(rt, path, start, u64::MAX, None)?;
    let end = clear(rt.alloc(), &mut store, schema, table, gtid, at, observer);
    let closed = close_file(store);
    Ok(ClearedFile { end, closed })
}

//! What is done with a database in a file.

ghost use Rattle.std.specs.Prelude.{◌≡◌, IfOk, IfErr, IsErr};
ghost use Rattle.sqlite.specs.State.{HasCleanDisk};
ghost use Rattle.sqlite_wal.specs.Files.{image_at};
ghost use Rattle.binlog.specs.Filter.{Names};
ghost use Rattle.store.specs.State.{Content};
ghost use Rattle.store.specs.Store.{Holds, database, names_of};
ghost use Rattle.store.specs.Entering.{wanted_of};
ghost use Rattle.replica.specs.Keeps.{KeepsStore};
ghost use Rattle.replica.specs.File.{OfHeld, IsTurnedAway, ClosesAs};
ghost use Rattle.replica.specs.Work.{HasWorked, WorksInFiles};

use crate::file::{Unopened, close_file, open_file};
use binlog::Follow;
use sqlite::{Alter, Error, FileFrom, FileStore, Files, Start};
use sqlite_disk::Disk;
use store::Store;

/// What is done with the store of a database while its files are open.
pub trait Work {
    /// What it comes to.
    type Done;

    // To which content it leads from the one of a database with these tables. `leads was is names old done new`: `was` and `is` are
    // the work before and afterwards.
    ghost leads: { Self → Self → Names → Content → Self.Done → Content → Type 0 };

    // Which contents a crash may leave then: `leaves was is names old done new left`.
    ghost leaves: { Self → Self → Names → Content → Self.Done → Content → Content → Type 0 };

    /// Does it.
    fn work<S: Alter>(&mut self, store: &mut Store<S>) -> Self::Done
        ensures works { HasCleanDisk (database S.Store store.new) → (old : Content)
            → Holds S.Store store.old old → HasWorked S.Store
            (leads self.old self.new (names_of S.Store store.old) old result)
            (leaves self.old self.new (names_of S.Store store.old) old result) store.new }
        ensures keeps { KeepsStore S.Store store.old store.new };
}

/// What working on a file has come to.
pub struct InFile<T, D: Disk> {
    /// What the work has come to.
    pub done: T,
    /// The files, which are closed; or why they could not be closed, and what is left of them.
    pub closed: Result<Files<D>, (Error, FileStore<D>)>,
}

/// Opens the database in a file, does something with its store, and closes it.
///
/// `start` stands for what the files held before, and `expected` is how many bytes are about to be written (see [`open_file`]).
///
/// Clauses:
/// - `works`: the closed files hold a content to which the work leads from what they held
/// - `closing`, `turned`, `untouched`: where a database is refused, why, and that it is left as it was, with nothing
///   done or reported; what files that were closed, or could not be, had held
pub fn in_file<P: Start, K: Work>(
    rt: &HostRuntime,
    path: &str,
    start: P,
    expected: u64,
    only: Option<&Follow>,
    work: &mut K,
) -> Result<InFile<K::Done, FileFrom<P>>, Unopened<FileFrom<P>>>
    // If the files held a database that stands for a content, or none was there, the closed files hold a content to which the
    // work leads from that one. Files that could not be closed may be left with one that the work leaves.
    ensures works { IfOk result (λ made. OfHeld (wanted_of only.entry) (image_at P.Start)
        (λ names content. WorksInFiles names (K.leads work.old work.new names content made.done)
        (K.leaves work.old work.new names content made.done) made.closed)) }
    // Such a database was made for the given tables; any other whose tables are known stood for a content too. Why the files
    // could not be closed is what they met.
    ensures closing { IfOk result (λ made. ClosesAs (wanted_of only.entry) (image_at P.Start)
        made.closed) }
    // A database that stands for a content is refused only if it was made for other tables, fails, or memory runs out, and is
    // left with that content. Any other is refused with its reason and left as it is, and so are files that cannot be opened.
    ensures turned { IfErr result (IsTurnedAway (wanted_of only.entry) (image_at P.Start)) }
    // Then nothing was done.
    ensures untouched { IsErr result → work.new ≡ work.old }
{
    let mut store = open_file(rt, path, start, expected, only)?;
    let done = work.work(&mut store);
    let closed = close_file(store);
    Ok(InFile { done, closed })
}

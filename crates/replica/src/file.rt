//! Databases in files.

ghost use Rattle.std.specs.Prelude.{◌≡◌, codes, IfOk, IfErr, IsErrAnd};
ghost use Rattle.sqlite_wal.specs.Files.{image_at};
ghost use Rattle.sqlite_wal.specs.Reads.{AreClean};
ghost use Rattle.sqlite_trees.specs.View.{IsClean};
ghost use Rattle.sqlite_store.specs.FileStore.{view};
ghost use Rattle.sqlite.specs.declared.error.ErrorCode.TheVariants.{CannotOpen};
ghost use Rattle.sqlite.specs.State.{HasCleanDisk};
ghost use Rattle.sqlite.specs.Files.{over_files, IsClosed, FailsToClose};
ghost use Rattle.sqlite.specs.Closing.{IsCopied};
ghost use Rattle.store.specs.Store.{Holds, connection, database, names_of};
ghost use Rattle.store.specs.Entering.{IsWanted, wanted_of, names_for};
ghost use Rattle.replica.specs.File.{OfHeld, LeavesContent, IsOpenedIn, IsTurnedAway, IsNotOpened};

pub(crate) mod admitting;
pub(crate) mod adopting;
pub(crate) mod changed;
pub(crate) mod cleared;
pub(crate) mod connection;
pub(crate) mod followed;
pub(crate) mod listing;
pub(crate) mod loaded;
pub(crate) mod not_opened;
pub(crate) mod pair;
pub(crate) mod replaying;
pub(crate) mod work;

use crate::file::connection::connect_to;
use crate::file::not_opened::{NotOpened, give_up};
use crate::file::pair::{CANNOT_OPEN, open_pair};
use binlog::Follow;
use sqlite::{Connection, Error, FileFrom, FileStore, Files, Leftover, Start};
use sqlite_disk::Disk;
use std::hash::{BuildHasher, RandomState};
use store::{Store, StoreFault};

/// Why the database in a file was not opened.
pub enum Unopened<D: Disk> {
    /// The files were not opened: memory ran out before, or they could not be.
    NotOpened(NotOpened<D>),
    /// The files were opened, and hold no database, or fail, or memory ran out; what is left of them.
    Files(Error, Leftover<D>),
    /// The database was refused. Its connection is still there, and the file is locked.
    Database(StoreFault, Connection<FileStore<D>>),
}

/// Opens the database in a file, which is made if it is not there. It is opened for the given tables, for which a new
/// one is made and an older one must have been made; without a list, its own list holds.
///
/// `start` stands for what the files held before: the clauses say of each content of them what follows from it. They say
/// nothing of which file the path names, and of a file that another program writes. `expected` is how many bytes are about
/// to be written, as far as is known: the more, the more pages are kept in memory, from 4 to 16 MiB; by a list of which no rows are
/// kept 4 MiB.
///
/// Clauses:
/// - `opens`, `entered`, `leaves`: the store holds what the files held, and a crash leaves it
/// - `turned`, `memory`: where a database is refused, why, and that it is left as it was; `:memory:` is refused
pub fn open_file<P: Start>(
    rt: &HostRuntime,
    path: &str,
    start: P,
    expected: u64,
    only: Option<&Follow>,
) -> Result<Store<FileStore<FileFrom<P>>>, Unopened<FileFrom<P>>>
    // If the files held a database that stands for a content, the store holds that content, and it was made for the given
    // tables; if there was none, the empty one.
    ensures opens { IfOk result (λ store. HasCleanDisk (database over_files store)
        → OfHeld (wanted_of only.entry) (image_at P.Start) (λ names content.
        Holds over_files store content × (names_of over_files store ≡ names)
        × IsWanted (wanted_of only.entry) names)) }
    // Whatever database they held, if its tables are known, the store holds what it stood for.
    ensures entered { IfOk result (λ store. HasCleanDisk (database over_files store)
        → IsOpenedIn (wanted_of only.entry) (image_at P.Start) store) }
    // A crash after it leaves that content.
    ensures leaves { IfOk result (λ store. OfHeld (wanted_of only.entry) (image_at P.Start)
        (λ names content. LeavesContent (names_for (wanted_of only.entry)) names content
        (database over_files store))) }
    // `:memory:`, which SQLite takes for no file, is refused.
    ensures memory { path.now ≡ codes ":memory:"
        → IsErrAnd result (IsNotOpened (Error.SqliteFailure CannotOpen)) }
    // A database that stands for a content is refused only if it was made for other tables, fails, or memory runs out, and is
    // left with that content. Any other is refused with its reason and left as it is, and so are files that cannot be opened.
    ensures turned { IfErr result (IsTurnedAway (wanted_of only.entry) (image_at P.Start)) }
{
    let Ok(random) = RandomState::new(rt) else {
        return Err(Unopened::NotOpened(give_up(start, CANNOT_OPEN)));
    };
    let files = match open_pair(rt, path, start) {
        Ok(files) => files,
        Err(why) => return Err(Unopened::NotOpened(why)),
    };
    let expected = growth(only, expected);
    let conn = match connect_to(rt, path, files, expected, random.hash_one(&0u8)) {
        Ok(conn) => conn,
        Err((cause, left)) => return Err(Unopened::Files(cause, left)),
    };
    match Store::open_for(rt.alloc(), conn, only) {
        Ok(store) => Ok(store),
        Err((cause, conn)) => Err(Unopened::Database(cause, conn)),
    }
}

/// How many bytes a database of these tables is expected to grow by: by none where it keeps no rows.
fn growth(only: Option<&Follow>, expected: u64) -> u64 {
    match only {
        Some(filter) if !filter.keeps_rows() => 0,
        _ => expected,
    }
}

/// Closes a store and its files: the WAL file is copied into the database file.
///
/// Clauses:
/// - `copied`, `err`: if the disks are clean, the last commit is in the database file; an error comes with what is left
///   of the files
pub fn close_file<D: Disk + Drop>(
    store: Store<FileStore<D>>,
) -> Result<Files<D>, (Error, FileStore<D>)>
    ensures copied { IfOk result (λ files. AreClean D.Disk files.log files.db
        → IsCopied (connection over_files store) files) }
    ensures err { IfErr result (λ e. IsClosed (connection over_files store) e.1
        × (IsClean (view e.1) → FailsToClose (connection over_files store) e.1 e.0)) }
{
    store.close().close_files()
}

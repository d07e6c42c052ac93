//! Following a source into a database file.

ghost use Rattle.std.specs.Prelude.{◌≡◌, [], IfOk, IfErr, IsErr};
ghost use Rattle.sqlite_wal.specs.Files.{image_at};
ghost use Rattle.sqlite.specs.State.{HasCleanDisk};
ghost use Rattle.store.specs.Store.{HoldsAs, database};
ghost use Rattle.store.specs.Entering.{wanted_of, names_for};
ghost use Rattle.replica.specs.NotedFile.{AreNoted, EndsInFiles};
ghost use Rattle.replica.specs.File.{OfHeld, IsTurnedAway, ClosesAs};
ghost use Rattle.replica.specs.Noted.{BeginsConnected, IsAsked};
ghost use Rattle.replica.specs.Conn.{StoreState};
ghost use Rattle.replica.specs.FollowFile.{Connects, FollowsFile, CountsFailures};
ghost use Rattle.replica.specs.Keeps.{KeepsSinceOpening};

use crate::file::{Unopened, close_file, open_file};
use crate::observer::Observer;
use crate::session::config::Config;
use crate::session::end::Ended;
use crate::source::connect::Connect;
use crate::source::counted::{Counted, Duplex};
use crate::source::following::follow_observed;
use binlog::Follow;
use sqlite::{Alter, Error, FileFrom, FileStore, Files, Start};
use sqlite_disk::Disk;
use std::alloc::Global;
use store::Store;

/// What following a source into a file has done.
pub struct FollowedFile<T, E, D: Disk> {
    /// How the connection ended, and its stream; or why there is no connection.
    pub connection: Result<(Ended, Counted<T>), E>,
    /// The files, which are closed; or why they could not be closed, and what is left of them.
    pub closed: Result<Files<D>, (Error, FileStore<D>)>,
}

/// Reports the store as opened, connects with its executed set, and follows the source over the stream until the connection
/// ends. Without a stream the store stays as it is.
fn connect_and_follow<
    T: Duplex + Drop,
    E: Drop,
    C: Connect<Stream = T, Error = E> + Drop,
    S: Alter,
    W: Observer,
>(
    alloc: Global,
    store: &mut Store<S>,
    config: Config,
    connect: C,
    observer: &mut W,
) -> Result<(Ended, Counted<T>), E>
    ensures connects { HasCleanDisk (database S.Store store.new) → (held : StoreState)
        → HoldsAs S.Store held.broken held.content store.old → Connects S.Store
        (record { left = T.Read.remaining; written = T.Write.contents; failures = T.failures })
        (C.gives connect) config store.old store.new held result }
    ensures counts { IfOk result (λ done. CountsFailures done.0 done.1) }
    ensures asked { IfOk result (λ done. IsAsked done.0.reason (W.account observer.new)) }
    ensures keeps { KeepsSinceOpening S.Store store.old store.new (W.account observer.old)
        (W.account observer.new) [] }
    ensures reached { BeginsConnected (W.account observer.old) (W.account observer.new) result }
{
    let executed = store.executed();
    observer.opened(executed, store.following());
    match connect.connect(executed) {
        Ok(stream) => {
            observer.connected();
            let mut counted = Counted::new(stream);
            let end = follow_observed(alloc, &mut counted, store, config, observer);
            Ok((end, counted))
        }
        Err(cause) => Err(cause),
    }
}

/// Opens the database in a file, connects to a source, follows it until the connection ends, and closes the database. The
/// database is opened before anything is asked of the source, which is reached with its executed set.
///
/// `start` stands for what the files held before (see [`open_file`]).
///
/// Clauses: as [`in_file`], [`replay`], and:
/// - `follows`: the same as the headline, of following a source
/// - `ends`: as `heeded` and `until` of [`replay`]
/// - `reached`: the second notice is that the source was reached; where it was not, there is none
pub fn follow_file<
    P: Start,
    T: Duplex + Drop,
    E: Drop,
    C: Connect<Stream = T, Error = E> + Drop,
    W: Observer,
>(
    rt: &HostRuntime,
    path: &str,
    start: P,
    only: Option<&Follow>,
    config: Config,
    connect: C,
    observer: &mut W,
) -> Result<FollowedFile<T, E, FileFrom<P>>, Unopened<FileFrom<P>>>
    // If the files held a database that stands for a content, or none was there, `connect` was given the executed set of
    // that content, so the database was opened first. The end is that of following the source from that content over the
    // stream that it gave, and the closed files hold a database that stands for the content that this leads to. If it gave
    // none, they hold the content from before.
    ensures follows { IfOk result (λ done. OfHeld (wanted_of only.entry) (image_at P.Start)
        (λ names content. FollowsFile
        (record { left = T.Read.remaining; written = T.Write.contents; failures = T.failures })
        (C.gives connect) config (names_for (wanted_of only.entry)) names content done)) }
    // Such a database was made for the given tables; any other whose tables are known stood for a content too. Why the files
    // could not be closed is what they met.
    ensures closing { IfOk result (λ done. ClosesAs (wanted_of only.entry) (image_at P.Start)
        done.closed) }
    // The end says whether the stream failed. The connection is halted, or ended with `Until`, only if the observer asked for
    // that, and then the files hold the first content in which all that it waited for is executed.
    ensures ends { IfOk result (λ done. IfOk done.connection (EndsInFiles
        (wanted_of only.entry) (image_at P.Start) (W.account observer.old)
        (W.account observer.new) done.closed)) }
    // What was reported to the observer leads from that content to the one that the closed files hold; and if it had stopped
    // before, nothing is applied.
    ensures noted { IfOk result (λ done. AreNoted (wanted_of only.entry) (image_at P.Start)
        (λ content. content) (W.account observer.old) (W.account observer.new) [] done.closed) }
    // It begins with the opening, and then that the source was reached, if it was.
    ensures reached { IfOk result (λ done. BeginsConnected (W.account observer.old)
        (W.account observer.new) done.connection) }
    // A database that stands for a content is refused only if it was made for other tables, fails, or memory runs out, and is
    // left with that content. Any other is refused with its reason and left as it is, and so are files that cannot be opened.
    ensures turned { IfErr result (IsTurnedAway (wanted_of only.entry) (image_at P.Start)) }
    // Then nothing was read or reported.
    ensures untouched { IsErr result → observer.new ≡ observer.old }
{
    let mut store = open_file(rt, path, start, u64::MAX, only)?;
    let connection = connect_and_follow(rt.alloc(), &mut store, config, connect, observer);
    let closed = close_file(store);
    Ok(FollowedFile { connection, closed })
}

//! The two files of a database, which are opened once in a call.

ghost use Rattle.std.specs.Prelude.{◌≡◌, true, false, codes, IsTrue, IfOk, IsErrAnd};
ghost use Rattle.sqlite_std_file.specs.File.{file_is_usable, IsFresh};

use crate::file::not_opened::{NotOpened, give_up, open_both};
use sqlite::{Error, ErrorCode, FileFrom, Files, Start};

pub(crate) const CANNOT_OPEN: Error = Error::SqliteFailure(ErrorCode::CannotOpen);

/// Opens the database file and its WAL file, which are made if they are not there, and locks them. It refuses `:memory:`, which
/// SQLite takes for no file, and a URI, as `Connection::open_from` does.
pub(crate) fn open_pair<P: Start>(
    rt: &HostRuntime,
    path: &str,
    start: P,
) -> Result<Files<FileFrom<P>>, NotOpened<FileFrom<P>>>
    ensures usable { IfOk result (λ files. IsTrue (file_is_usable P.Start files.log)
        × IsTrue (file_is_usable P.Start files.db)) }
    ensures fresh { IfOk result (λ files. IsFresh true files.log × IsFresh false files.db) }
    ensures memory { path.now ≡ codes ":memory:"
        → IsErrAnd result (λ why. why.cause ≡ Error.SqliteFailure ErrorCode.CannotOpen) }
{
    if path == ":memory:" || path.starts_with("file:") {
        return Err(give_up(start, CANNOT_OPEN));
    }
    open_both(rt, path, start)
}

//! That the files of a database were not opened. Nothing but the two functions here says so: one uses up what stands for what they held
//! before, and the other is one call.

ghost use Rattle.std.specs.Prelude.{◌≡◌, true, false, IsTrue, IfOk};
ghost use Rattle.sqlite_std_file.specs.File.{file_is_usable, IsFresh};

use sqlite::{Error, ErrorCode, FileFrom, Files, Start};
use sqlite_std_file::OpenError;
use std::io::ErrorKind;
use std::marker::PhantomData;

pub(crate) const NO_MEMORY: Error = Error::SqliteFailure(ErrorCode::OutOfMemory);

/// The files of a database were not opened.
#[derive(Drop)]
pub struct NotOpened<D> {
    /// Why they were not.
    pub cause: Error,
    files: PhantomData<D>,
}

impl<D> NotOpened<D> {
    fn because(cause: Error) -> NotOpened<D>
        ensures { result.cause ≡ cause }
    {
        NotOpened {
            cause,
            files: PhantomData,
        }
    }

    fn of(error: OpenError) -> NotOpened<D> {
        NotOpened::because(match error {
            OpenError::OutOfMemory => NO_MEMORY,
            OpenError::Busy => Error::SqliteFailure(ErrorCode::DatabaseBusy),
            OpenError::Io(error) if error.kind() == ErrorKind::OutOfMemory => NO_MEMORY,
            _ => Error::SqliteFailure(ErrorCode::CannotOpen),
        })
    }
}

/// Gives up before the files are opened.
pub(crate) fn give_up<P: Start>(_start: P, cause: Error) -> NotOpened<FileFrom<P>>
    ensures { result.cause ≡ cause }
{
    NotOpened::because(cause)
}

/// Opens the two files, or says why it could not.
pub(crate) fn open_both<P: Start>(
    rt: &HostRuntime,
    path: &str,
    start: P,
) -> Result<Files<FileFrom<P>>, NotOpened<FileFrom<P>>>
    ensures usable { IfOk result (λ files. IsTrue (file_is_usable P.Start files.log)
        × IsTrue (file_is_usable P.Start files.db)) }
    ensures fresh { IfOk result (λ files. IsFresh true files.log × IsFresh false files.db) }
{
    match sqlite_std_file::open(rt, path, start) {
        Ok(files) => Ok(files),
        Err(error) => Err(NotOpened::of(error)),
    }
}

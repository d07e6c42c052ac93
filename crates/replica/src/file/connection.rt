//! A connection to the files of a database, with room for more pages than the crate `sqlite` takes by itself.

ghost use Rattle.std.specs.Prelude.{true, false, IsTrue, IfOk, IfErr};
ghost use Rattle.sqlite_wal.specs.Files.{image_at};
ghost use Rattle.sqlite_std_file.specs.File.{file_is_usable, IsFresh};
ghost use Rattle.sqlite.specs.State.{HasCleanDisk};
ghost use Rattle.sqlite.specs.Held.{IsNew};
ghost use Rattle.sqlite.specs.Start.{FindsIn};
ghost use Rattle.sqlite.specs.Files.{file_state, IsOpened};
ghost use Rattle.replica.specs.File.{IsLeftOver};

use sqlite::{Connection, Error, FileFrom, FileStore, Files, Leftover, Start};
use sqlite_pager::Options;
use std::io::Read;
use std::{fs, io};

/// The least of the pages that were read and are kept in memory, and the most, in bytes. They are allocated when a database is
/// opened, so a small one is opened in less time and memory with fewer; with 8 MB, the crate's own number, an opening of a
/// large one reads more of them again.
const LEAST_CACHE: u64 = 4_096_000;

const MOST_CACHE: u64 = 16_384_000;

/// The size of a page where the file does not say it, in bytes: the crate gives it to a database that it makes in an empty file.
const PAGE: u64 = 4_096;

/// How many bytes in pages that a transaction has written are kept in memory before they go to the WAL. A page that is
/// written again after that goes to the WAL again, so with fewer pages the WAL of a large transaction grows faster.
const SPILL: u64 = 49_152_000;

/// How many bytes in pages the WAL may have before it is copied back: as many as 1,000 of 4,096 bytes, SQLite's own number.
const CHECKPOINT: u64 = 4_096_000;

/// Where the header of a file has the size of its pages, where that ends, and the least there is (SQLite, "Database File
/// Format", section 1.3.2).
const PAGE_SIZE: usize = 16;

const HEAD: usize = PAGE_SIZE + 2;

const LEAST_PAGE: u64 = 512;

/// How long a database file is, and the size of its pages, both in bytes.
fn sizes(rt: &HostRuntime, path: &str) -> io::Result<(u64, u64)> {
    let mut file = fs::open(rt, path)?;
    let length = file.metadata()?.len();
    let mut head = [0u8; HEAD];
    file.read_exact(&mut head)?;
    let stated = u16::from_be_bytes([head[PAGE_SIZE], head[PAGE_SIZE + 1]]);
    Ok((length, if stated == 1 { 65_536 } else { stated as u64 }))
}

/// The options of a connection to a file: as many pages are kept in memory as it has, and as `expected` bytes more take, within
/// the limits. The WAL's salts begin with `salt`.
fn options(rt: &HostRuntime, path: &str, expected: u64, salt: u64) -> Options {
    let (length, page) = match sizes(rt, path) {
        Ok((length, page)) if page >= LEAST_PAGE => (length, page),
        _ => (0, PAGE),
    };
    let cache = length
        .saturating_add(expected)
        .max(LEAST_CACHE)
        .min(MOST_CACHE);
    let mut options = Options::new(salt);
    options.cache_pages = (cache / page) as usize;
    options.spill_pages = (SPILL / page) as usize;
    options.checkpoint_frames = (CHECKPOINT / page) as usize;
    options
}

/// A connection to the files at a path, as `Connection::open_from` makes it. An error comes with what is left of them.
/// `expected` is how many bytes are about to be written, as far as is known.
pub(crate) fn connect_to<P: Start>(
    rt: &HostRuntime,
    path: &str,
    files: Files<FileFrom<P>>,
    expected: u64,
    salt: u64,
) -> Result<Connection<FileStore<FileFrom<P>>>, (Error, Leftover<FileFrom<P>>)>
    requires usable { IsTrue (file_is_usable P.Start files.log)
        × IsTrue (file_is_usable P.Start files.db) }
    requires fresh { IsFresh true files.log × IsFresh false files.db }
    ensures opened { IfOk result (λ c. HasCleanDisk (file_state c) → IsOpened c) }
    ensures found { IfOk result (λ c. HasCleanDisk (file_state c)
        → FindsIn (image_at P.Start) (file_state c)) }
    ensures fresh { IfOk result IsNew }
    // The error is what the files met, and they are left as they were, unless there was no database in them.
    ensures cause { IfErr result (λ e. IsLeftOver (image_at P.Start) e.0 e.1) }
{
    let options = options(rt, path, expected, salt);
    match Connection::open_files_with(rt.alloc(), files, options, false) {
        Ok(conn) => Ok(conn),
        Err((error, left)) => Err((error, left)),
    }
}

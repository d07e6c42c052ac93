//! A database that a command only reads: it changes no byte of a file that is none of this program, and makes none.
//!
//! Where another process has the database open, or its tables stand in its WAL file alone, a copy is read as `mrep copy` makes
//! one, F.readN.part beside it, which is removed.

ghost use Rattle.std.specs.Prelude.{◌≡◌, None, IfOk};
ghost use Rattle.sqlite_wal.specs.Files.{image_at};
ghost use Rattle.store.specs.Listing.{IsListed};
ghost use Rattle.replica.specs.File.{OfHeld};
ghost use Rattle.replica.specs.Work.{WorksInFiles};

use crate::commands::copy::{Target, fill};
use crate::database::open::{listed, opening, unopened_copy, unopened_database};
use crate::report::failure::{Failure, MEMORY, over_file, unusable};
use binlog::Follow;
use files::{CopyPart, FileFault, FileNames, Found, Opening, Owner, make_part, owner_of};
use gtid::GtidSet;
use messages::KEEPS_NONE;
use replica::{InFile, Unopened, in_file};
use sqlite::{Connection, Error, ErrorCode, FileFrom, Start};
use sqlite_disk::{Disk, Unknown};
use std::alloc::{AllocError, Global};
use store::{ListError, Listed, Lister, Visitor};

/// How many processes may read copies of one database at a time.
const READERS: u32 = 64;

/// Of a database without tables of this program.
pub const FOREIGN: &str =
    "it has tables, and none of mrep: name the file that follow, replay or load has made";

const READ_BY_MANY: &str =
    "no copy can be made to be read: the files with .read1.part and so on after its name are in use, or none of mrep";

/// Gives the database of this name, with its own filter, to a lister. Where that ends with an error of the lister, that is the
/// result. Where there is no database, it is given what a new one has.
pub fn list_in<L: Lister>(
    rt: &HostRuntime,
    name: &str,
    lister: &mut L,
) -> Result<Result<(), L::Error>, Failure> {
    match Found::under(rt, name)? {
        Found::Nothing => Ok(list_nothing(rt.alloc(), lister)),
        Found::Database => list_database(rt, name, lister),
        Found::Unmerged => list_copy(rt, name, lister),
        Found::Foreign => Err(unusable(rt.alloc(), name, FOREIGN)),
    }
}

/// What a database keeps.
#[derive(Clone, Copy, PartialEq, Eq)]
pub enum Kept {
    /// Rows.
    Rows,
    /// None, since it was made so, and whether it has executed anything.
    None { has_executed: bool },
    /// Nothing is known: it is new, or cannot be opened.
    Unknown,
}

/// What the database of this name keeps, as it was before a command opens it, and its own filter where it keeps no rows. The only
/// failure is that memory ran out: why it cannot be opened its opening says.
pub fn kept_in(rt: &HostRuntime, name: &str) -> Result<(Kept, Option<Follow>), Failure> {
    let mut keeping = Keeping {
        alloc: rt.alloc(),
        kept: Kept::Unknown,
        own: None,
    };
    match list_in(rt, name, &mut keeping) {
        Ok(Ok(())) => {
            let Keeping { kept, own, .. } = keeping;
            Ok((kept, own))
        }
        Ok(Err(AllocError)) => Err(Failure::Memory),
        Err(failure) if failure.status() == MEMORY => Err(failure),
        Err(_) => Ok((Kept::Unknown, None)),
    }
}

/// What a database keeps, once it is listed.
#[derive(Drop)]
struct Keeping {
    alloc: Global,
    kept: Kept,
    /// Its filter, where it keeps no rows.
    own: Option<Follow>,
}

impl Visitor for Keeping {
    type Error = AllocError;

    ghost row_gives = { λ _ _ _ _. Unit {0} };

    fn row(&mut self, _row: &Listed<'_>) -> Result<(), AllocError> {
        Ok(())
    }
}

impl Lister for Keeping {
    ghost begun = { λ _ _ _ _ _. Unit {0} };

    fn begin(&mut self, executed: &GtidSet, following: &Follow) -> Result<bool, AllocError> {
        let has_executed = executed.spans().next().is_some();
        self.kept = match following.keeps_rows() {
            false => Kept::None { has_executed },
            // One that has nothing yet may be a new one.
            true if following.names().is_empty() && !has_executed => Kept::Unknown,
            true => Kept::Rows,
        };
        if let Kept::None { .. } = self.kept {
            match Follow::new(self.alloc, following.names()) {
                Ok(own) => self.own = Some(own),
                Err(_) => return Err(AllocError),
            }
        }
        Ok(false)
    }
}

/// The same, of a lister of rows: a database that keeps none is refused.
pub fn list_rows_in<L: Lister>(
    rt: &HostRuntime,
    name: &str,
    lister: &mut L,
) -> Result<Result<(), L::Error>, Failure> {
    let mut rows = RowsOf::new(lister);
    let listed = list_in(rt, name, &mut rows)?;
    rows.are_kept(rt.alloc(), name)?;
    Ok(listed)
}

/// A lister of rows, which asks for none where a database keeps none.
#[derive(Drop)]
pub struct RowsOf<'l, L> {
    lister: &'l mut L,
    keeps_none: bool,
}

impl<'l, L> RowsOf<'l, L> {
    pub fn new(lister: &'l mut L) -> RowsOf<'l, L> {
        RowsOf {
            lister,
            keeps_none: false,
        }
    }

    /// The failure of a database of this name that keeps none.
    pub fn are_kept(&self, alloc: Global, name: &str) -> Result<(), Failure> {
        if self.keeps_none {
            return Err(unusable(alloc, name, KEEPS_NONE));
        }
        Ok(())
    }
}

impl<L: Lister> Visitor for RowsOf<'_, L> {
    type Error = L::Error;

    ghost row_gives = { λ _ _ _ _. Unit {0} };

    fn row(&mut self, row: &Listed<'_>) -> Result<(), L::Error> {
        self.lister.row(row)
    }
}

impl<L: Lister> Lister for RowsOf<'_, L> {
    ghost begun = { λ _ _ _ _ _. Unit {0} };

    fn begin(&mut self, executed: &GtidSet, following: &Follow) -> Result<bool, L::Error> {
        if !following.keeps_rows() {
            self.keeps_none = true;
            return Ok(false);
        }
        self.lister.begin(executed, following)
    }
}

/// Gives what a new database has to a lister: no transaction, and no rows.
fn list_nothing<L: Lister>(alloc: Global, lister: &mut L) -> Result<(), L::Error> {
    match lister.begin(&GtidSet::new(alloc), &Follow::all(alloc)) {
        Ok(_) => Ok(()),
        Err(error) => Err(error),
    }
}

/// Gives a database to a lister, or a copy of it where another process has it open.
fn list_database<L: Lister>(
    rt: &HostRuntime,
    name: &str,
    lister: &mut L,
) -> Result<Result<(), L::Error>, Failure> {
    match list_from(rt, name, Unknown, lister) {
        Ok(done) => listed(rt.alloc(), name, name, done),
        Err(NotListed::InUse) => list_copy(rt, name, lister),
        Err(NotListed::Failed(failure)) => Err(failure),
    }
}

/// Why a database was not given to a lister.
enum NotListed {
    /// Another process has it open.
    InUse,
    Failed(Failure),
}

/// Gives the database in a file to a lister.
fn list_from<P: Start, L: Lister>(
    rt: &HostRuntime,
    name: &str,
    start: P,
    lister: &mut L,
) -> Result<InFile<Result<(), ListError<L::Error>>, FileFrom<P>>, NotListed>
    ensures lists { IfOk result (λ made. OfHeld None (image_at P.Start) (λ names content.
        WorksInFiles names (λ new. IsListed L.begun L.Visitor.row_gives names content lister.old
        lister.new made.done × (new ≡ content)) (λ new left. left ≡ new) made.closed)) }
{
    let opening = match opening(rt, name) {
        Ok(opening) => opening,
        Err(failure) => return Err(NotListed::Failed(failure)),
    };
    match in_file(rt, name, start, 0, None, lister) {
        Ok(done) => Ok(done),
        Err(unopened) => Err(unlisted(rt, name, opening, unopened)),
    }
}

/// Why the database of this name, which could not be opened, was not given to a lister.
fn unlisted<D: Disk + Drop>(
    rt: &HostRuntime,
    name: &str,
    opening: Opening,
    unopened: Unopened<D>,
) -> NotListed {
    let is_in_use = is_in_use(&unopened);
    let failure = unopened_database(rt, name, opening, unopened);
    if is_in_use {
        return NotListed::InUse;
    }
    NotListed::Failed(failure)
}

/// Whether a database was not opened since another process has it open.
fn is_in_use<D: Disk>(unopened: &Unopened<D>) -> bool {
    match unopened {
        Unopened::NotOpened(why) => {
            matches!(why.cause, Error::SqliteFailure(ErrorCode::DatabaseBusy))
        }
        _ => false,
    }
}

/// Gives a copy of a database to a lister.
fn list_copy<L: Lister>(
    rt: &HostRuntime,
    name: &str,
    lister: &mut L,
) -> Result<Result<(), L::Error>, Failure> {
    let from = over_file(rt.alloc(), name, FileNames::of(rt, name))?;
    over_file(rt.alloc(), name, from.check(rt))?;
    let part = reading_part(rt, &from, name)?;
    let done = list_part(rt, name, &from, &part, lister);
    part.remove(rt, false);
    done
}

/// The file of a copy that no other process reads.
fn reading_part(rt: &HostRuntime, from: &FileNames, name: &str) -> Result<CopyPart, Failure> {
    for reader in 1..=READERS {
        let to = format!(in rt.alloc(); "{name}.read{reader}")?;
        match make_part(rt, from, to.as_str()) {
            Err(FileFault::Unusable(_)) => {}
            made => return over_file(rt.alloc(), name, made),
        }
    }
    Err(unusable(rt.alloc(), name, READ_BY_MANY))
}

/// Copies a database and gives the copy to a lister, unless it is one of another program.
fn list_part<L: Lister>(
    rt: &HostRuntime,
    name: &str,
    from: &FileNames,
    part: &CopyPart,
    lister: &mut L,
) -> Result<Result<(), L::Error>, Failure> {
    let target = Target {
        db: name,
        to: name,
        force: false,
    };
    fill(rt, target, from, part)?;
    let copy = part.names.file.as_str();
    // Its WAL file is copied back, so that its schema stands in the file.
    if let Ok(conn) = Connection::open(rt, copy) {
        let _ = conn.close();
    }
    if matches!(owner_of(rt, copy), Ok(Owner::Other)) {
        return Err(unusable(rt.alloc(), name, FOREIGN));
    }
    match in_file(rt, copy, Unknown, 0, None, lister) {
        Ok(done) => listed(rt.alloc(), name, name, done),
        Err(unopened) => Err(unopened_copy(rt, copy, name, name, unopened)),
    }
}

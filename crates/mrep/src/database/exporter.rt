//! The rows of a database as those of tables of another.

use crate::database::open::{listed, unopened_copy};
use crate::database::reading::RowsOf;
use crate::report::failure::{Failure, of_database, of_misfit};
use binlog::Follow;
use export::{Export, ExportTables, ExportedRows, TableError, note_left_out};
use formats::{Shown, text_of};
use gtid::GtidSet;
use replica::in_file;
use rows::Chosen;
use sqlite::{Alter, Connection, Error, ErrorCode};
use sqlite_disk::Unknown;
use std::alloc::{AllocError, Global};
use std::io;
use std::io::Write;
use store::{Listed, Lister, StoreFault, Visitor};

/// A copy of a database: its path, and the names of the file that is made and of the database in failures.
#[derive(Clone, Copy)]
pub struct ExportedCopy<'p, 'a> {
    pub copy: &'p str,
    pub to: &'a str,
    pub db: &'a str,
    /// Whether the table of the place is made too.
    pub has_place: bool,
}

/// Makes tables of a new database in an empty file, whose path is `part`, with the rows of a copy of a database, and closes both.
/// Returns what is to be reported: that the database has no transaction, which tables its filter leaves out, and of which that are
/// named there was no row.
pub fn export_rows(
    rt: &HostRuntime,
    source: ExportedCopy<'_, '_>,
    part: &str,
    export: Export,
) -> Result<Vec<u8>, Failure> {
    let Export { tables, chosen } = export;
    let found = fill(rt, source, part, &tables, chosen)?;
    let mut notes = Vec::new(rt.alloc());
    found.note(&tables, source.db, &mut notes)?;
    Ok(notes)
}

/// Makes tables of a new database in an empty file, with the rows of a copy of a database, and closes both.
fn fill(
    rt: &HostRuntime,
    source: ExportedCopy<'_, '_>,
    part: &str,
    tables: &ExportTables,
    chosen: Chosen,
) -> Result<Exported, Failure> {
    let mut conn = match Connection::open(rt, part) {
        Ok(conn) => conn,
        Err(cause) => return Err(of_sqlite(rt.alloc(), source.to, cause)),
    };
    let found = add_rows(rt, source, tables, chosen, &mut conn);
    match conn.close() {
        Ok(()) => found,
        Err(cause) => found.and(Err(of_sqlite(rt.alloc(), source.to, cause))),
    }
}

/// Makes tables and adds the rows of a copy of a database to them. It is generic in the storage, which costs a check less than
/// the one of a file.
fn add_rows<T: Alter>(
    rt: &HostRuntime,
    source: ExportedCopy<'_, '_>,
    tables: &ExportTables,
    chosen: Chosen,
    conn: &mut Connection<T>,
) -> Result<Exported, Failure> {
    let alloc = rt.alloc();
    if !conn.is_autocommit() {
        let cause = Error::SqliteFailure(ErrorCode::TransactionState);
        return Err(of_sqlite(alloc, source.to, cause));
    }
    match ExportedRows::begin(alloc, tables, chosen, conn) {
        Ok(rows) => fill_tables(rt, source, rows),
        Err(cause) => Err(of_sqlite(alloc, source.to, cause)),
    }
}

/// Adds the rows of a copy of a database to tables that were made, and commits them.
fn fill_tables<T: Alter>(
    rt: &HostRuntime,
    source: ExportedCopy<'_, '_>,
    rows: ExportedRows<'_, '_, T>,
) -> Result<Exported, Failure> {
    let alloc = rt.alloc();
    let mut added = Added {
        alloc,
        rows,
        has_place: source.has_place,
        is_empty: true,
        executed: String::new(alloc),
        following: Follow::all(alloc),
    };
    // Where that fails, the file is removed, with what is committed here.
    let given = give_rows(rt, source, &mut added);
    let found = added.finish();
    given?;
    match found {
        Ok(found) => Ok(found),
        Err(error) => Err(of_table(alloc, [source.db, source.to], error)),
    }
}

/// Gives a copy of a database to what adds its rows to tables.
fn give_rows<T: Alter>(
    rt: &HostRuntime,
    source: ExportedCopy<'_, '_>,
    added: &mut Added<'_, '_, T>,
) -> Result<(), Failure> {
    let ExportedCopy { copy, to, db, .. } = source;
    let mut rows = RowsOf::new(added);
    let done = match in_file(rt, copy, Unknown, 0, None, &mut rows) {
        Ok(done) => done,
        Err(unopened) => return Err(unopened_copy(rt, copy, to, db, unopened)),
    };
    let given = listed(rt.alloc(), db, to, done)?;
    rows.are_kept(rt.alloc(), db)?;
    match given {
        Ok(()) => Ok(()),
        Err(error) => Err(of_table(rt.alloc(), [db, to], error)),
    }
}

/// What a database was found to have.
#[derive(Drop)]
struct Exported {
    /// Of which tables there was a row.
    chosen: Chosen,
    /// Whether it has no transaction.
    is_empty: bool,
    following: Follow,
}

impl Exported {
    /// Reports of which tables there was no row, and why.
    fn note<W: Write>(&self, tables: &ExportTables, db: &str, out: &mut W) -> io::Result<()> {
        if self.is_empty {
            writeln!(out, "mrep: {}: it has no transaction", Shown(db))?;
        } else {
            note_left_out(tables, db, &self.following, out)?;
        }
        self.chosen.note_missing(db, out)
    }
}

/// Adds the rows of a list to tables.
#[derive(Drop)]
struct Added<'d, 'c, T: Alter> {
    alloc: Global,
    rows: ExportedRows<'d, 'c, T>,
    has_place: bool,
    is_empty: bool,
    /// The executed set as a text, where it is asked for.
    executed: String,
    following: Follow,
}

impl<T: Alter> Added<'_, '_, T> {
    /// Commits what was added, with the executed set in the table of the place where there is one.
    fn finish(self) -> Result<Exported, TableError> {
        let Added {
            rows,
            has_place,
            is_empty,
            executed,
            following,
            ..
        } = self;
        let done = if has_place {
            rows.finish(Some(executed.as_str()))
        } else {
            rows.finish(None)
        };
        match done {
            Ok(chosen) => Ok(Exported {
                chosen,
                is_empty,
                following,
            }),
            Err(error) => Err(error),
        }
    }

    /// Keeps what the database has executed.
    fn keep(&mut self, executed: &GtidSet, following: &Follow) -> Result<(), AllocError> {
        self.is_empty = executed.is_subset(&GtidSet::new(self.alloc));
        if self.has_place {
            self.executed = text_of(self.alloc, executed)?;
        }
        match Follow::new(self.alloc, following.names()) {
            Ok(following) => {
                self.following = following;
                Ok(())
            }
            Err(_) => Err(AllocError),
        }
    }
}

impl<T: Alter> Visitor for Added<'_, '_, T> {
    type Error = TableError;

    ghost row_gives = { λ _ _ _ _. Unit {0} };

    fn row(&mut self, row: &Listed<'_>) -> Result<(), TableError> {
        self.rows.row(row)
    }
}

impl<T: Alter> Lister for Added<'_, '_, T> {
    ghost begun = { λ _ _ _ _ _. Unit {0} };

    fn begin(&mut self, executed: &GtidSet, following: &Follow) -> Result<bool, TableError> {
        match self.keep(executed, following) {
            Ok(()) => Ok(true),
            Err(_) => Err(TableError::Database(Error::SqliteFailure(ErrorCode::OutOfMemory))),
        }
    }
}

/// The failure of adding rows to tables. The names are those of the database and of the file that is made.
fn of_table(alloc: Global, names: [&str; 2], error: TableError) -> Failure {
    let [name, to] = names;
    match error {
        TableError::Database(cause) => of_sqlite(alloc, to, cause),
        TableError::Misfit(misfit) => of_misfit(alloc, name, &misfit),
    }
}

/// The failure of the database that is made.
fn of_sqlite(alloc: Global, name: &str, cause: Error) -> Failure {
    match cause {
        Error::SqliteFailure(ErrorCode::OutOfMemory) => Failure::Memory,
        _ => of_database(alloc, name, StoreFault::Database(cause)),
    }
}

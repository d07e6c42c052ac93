//! Rows as those of tables of SQLite.

ghost use Rattle.std.specs.Prelude.{◌≡◌, false};

use crate::collected::Collected;
use crate::definition::{creation, insertion};
use crate::stored::{Stored, store};
use crate::tables::{ExportTables, TableName, named};
use columns::{Column, DescribedTable, Key};
use gather::ImageRef;
use rows::{Fault, Misfit, TextError, check_copies, check_count, copied, has_key, show};
use sqlite::types::ValueRef;
use sqlite::{Alter, Connection, Constraint, Error, ErrorCode, Statement, Transaction};
use std::alloc::{AllocError, AllocFailed, Global};
use store::Listed;

/// The table that says what is executed: a text that is empty here, in which a program keeps its place in a change feed, and the
/// set.
const PLACE: &str = "CREATE TABLE \"mrep_place\" (\"place\" TEXT, \"executed\" TEXT) STRICT";

const NO_MEMORY: Error = Error::SqliteFailure(ErrorCode::OutOfMemory);

/// Why a row is not written.
#[derive(Drop)]
pub enum TableError {
    Misfit(Misfit),
    Database(Error),
}

impl From<Error> for TableError {
    fn from(error: Error) -> TableError {
        TableError::Database(error)
    }
}

impl From<AllocError> for TableError {
    fn from(_error: AllocError) -> TableError {
        TableError::Database(NO_MEMORY)
    }
}

/// Makes tables and adds rows to them, in one transaction of a database.
#[derive(Drop)]
pub struct TableWriter<'d, 'c, T: Alter> {
    alloc: Global,
    tables: &'d ExportTables,
    tx: Transaction<'c, T>,
    /// The table of the last row, and the statement that adds one to it.
    last: Option<(&'d DescribedTable, Statement)>,
    /// The table of the last row, where that is not made.
    left_out: Option<TableName>,
}

impl<'d, 'c, T: Alter> TableWriter<'d, 'c, T> {
    /// Makes the tables, without rows.
    pub fn begin(
        alloc: Global,
        tables: &'d ExportTables,
        conn: &'c mut Connection<T>,
    ) -> Result<TableWriter<'d, 'c, T>, Error>
        requires { conn.old.in_transaction ≡ false }
    {
        let mut tx = conn.transaction();
        make_all(alloc, tables, &mut tx)?;
        Ok(TableWriter {
            alloc,
            tables,
            tx,
            last: None,
            left_out: None,
        })
    }

    /// Adds a row as often as there are copies of it, or collects it to be added in the order of its key. A row of a table that
    /// is not made is left out.
    pub fn write(&mut self, collected: &mut Collected, row: &Listed<'_>) -> Result<(), TableError> {
        if !self.is_at(row.schema, row.table) {
            self.add_collected(collected)?;
            self.turn_to(row.schema, row.table)?;
        }
        let done = self.put(collected, row.count, &row.image);
        fault_in(self.alloc, done, row.schema, row.table)?;
        if collected.is_full() {
            self.add_collected(collected)?;
        }
        Ok(())
    }

    /// Adds the table of the place, with the printed set of what is executed.
    pub fn add_place(&mut self, executed: &str) -> Result<(), Error> {
        self.tx.execute(PLACE, &[])?;
        self.tx.execute(
            "INSERT INTO \"mrep_place\" VALUES ('', ?)",
            &[ValueRef::Text(executed.as_bytes())],
        )?;
        Ok(())
    }

    /// Commits the tables and their rows.
    pub fn commit(self) -> Result<(), Error> {
        let TableWriter { tx, .. } = self;
        tx.commit()
    }

    /// Whether the last row was of this table. Rows of a table come one after the other.
    fn is_at(&self, schema: &[u8], table: &[u8]) -> bool {
        match &self.last {
            Some((last, _)) => last.name.as_bytes() == table && last.schema.as_bytes() == schema,
            None => match &self.left_out {
                Some(last) => last.table.as_slice() == table && last.schema.as_slice() == schema,
                None => false,
            },
        }
    }

    /// Prepares for the rows of a table, if it is made.
    fn turn_to(&mut self, schema: &[u8], table: &[u8]) -> Result<(), TableError> {
        self.last = None;
        self.left_out = None;
        let Some(table) = self.tables.table(schema, table) else {
            self.left_out = Some(named(self.alloc, schema, table)?);
            return Ok(());
        };
        let name = self.tables.name_of(self.alloc, table)?;
        let text = insertion(self.alloc, table, name.as_str())?;
        self.last = Some((table, self.tx.prepare(text.as_str())?));
        Ok(())
    }

    /// Adds a row of a table without a key, and collects one of another.
    fn put(
        &mut self,
        collected: &mut Collected,
        count: u64,
        image: &ImageRef<'_>,
    ) -> Result<(), AddError<'d>> {
        let Some((table, statement)) = &self.last else {
            return Ok(());
        };
        check_copies(count)?;
        let row = values_of(self.alloc, table, image)?;
        if has_key(table) {
            collected.push(table, &row, count, image)?;
            return Ok(());
        }
        add(self.alloc, &mut self.tx, statement, count, &row)
    }

    /// Adds the rows that are collected.
    pub fn add_collected(&mut self, collected: &mut Collected) -> Result<(), TableError> {
        let Some((table, statement)) = &self.last else {
            return Ok(());
        };
        let done = add_sorted(self.alloc, &mut self.tx, table, statement, collected);
        let (schema, name) = (table.schema.as_bytes(), table.name.as_bytes());
        fault_in(self.alloc, done, schema, name)
    }
}

/// The error of what was done with the rows of a table.
fn fault_in(
    alloc: Global,
    done: Result<(), AddError<'_>>,
    schema: &[u8],
    table: &[u8],
) -> Result<(), TableError> {
    match done {
        Ok(()) => Ok(()),
        Err(AddError::Database(error)) => Err(TableError::Database(error)),
        Err(AddError::Fault(column, fault)) => {
            let misfit = copied(alloc, schema, table, column, fault)?;
            Err(TableError::Misfit(misfit))
        }
    }
}

/// Adds the rows that are collected, in the order of their keys.
fn add_sorted<'d, T: Alter>(
    alloc: Global,
    tx: &mut Transaction<'_, T>,
    table: &'d DescribedTable,
    statement: &Statement,
    collected: &mut Collected,
) -> Result<(), AddError<'d>> {
    collected.sort();
    for at in 0..collected.len() {
        if let Some((count, image)) = collected.get(at) {
            let row = values_of(alloc, table, &image)?;
            add(alloc, tx, statement, count, &row)?;
        }
    }
    collected.clear();
    Ok(())
}

/// Makes the tables.
fn make_all<T: Alter>(
    alloc: Global,
    tables: &ExportTables,
    tx: &mut Transaction<'_, T>,
) -> Result<(), Error> {
    for table in tables.all() {
        let name = tables.name_of(alloc, table)?;
        let text = creation(alloc, table, name.as_str())?;
        tx.execute(text.as_str(), &[])?;
    }
    Ok(())
}

/// Why a row is not added.
enum AddError<'d> {
    /// The row, or the cell of this column, does not fit.
    Fault(Option<&'d Column>, Fault),
    Database(Error),
}

impl From<Error> for AddError<'_> {
    fn from(error: Error) -> Self {
        AddError::Database(error)
    }
}

impl<'d> From<TextError<'d>> for AddError<'d> {
    fn from(error: TextError<'d>) -> AddError<'d> {
        match error {
            TextError::Fault(column, fault) => AddError::Fault(column, fault),
            TextError::Output(_) => AddError::Database(NO_MEMORY),
        }
    }
}

impl From<AllocError> for AddError<'_> {
    fn from(_error: AllocError) -> Self {
        AddError::Database(NO_MEMORY)
    }
}

impl<T: Drop> From<AllocFailed<T>> for AddError<'_> {
    fn from(_error: AllocFailed<T>) -> Self {
        AddError::Database(NO_MEMORY)
    }
}

/// The values of a row.
fn values_of<'d, 'a>(
    alloc: Global,
    table: &'d DescribedTable,
    image: &ImageRef<'a>,
) -> Result<Vec<Stored<'a>>, AddError<'d>>
where
    'd: 'a,
{
    check_count(table, image)?;
    let mut row = Vec::with_capacity(alloc, table.columns.len())?;
    for (cell, column) in image.cells().zip(table.columns.iter()) {
        let shown = match show(alloc, column, cell) {
            Ok(shown) => shown,
            Err(error) => return Err(TextError::at(column, error).into()),
        };
        let stored = store(alloc, shown)?;
        if column.key == Key::Pri && matches!(stored, Stored::Null) {
            return Err(AddError::Fault(Some(column), Fault::NoKey));
        }
        row.push(stored)?;
    }
    Ok(row)
}

/// Adds a row of these values as often as there are copies of it.
fn add<'d, T: Alter>(
    alloc: Global,
    tx: &mut Transaction<'_, T>,
    statement: &Statement,
    count: u64,
    row: &[Stored<'_>],
) -> Result<(), AddError<'d>> {
    let mut values = Vec::with_capacity(alloc, row.len())?;
    for stored in row {
        values.push(stored.value())?;
    }
    for _ in 0..count {
        if !is_added(tx, statement, &values)? {
            return Err(AddError::Fault(None, Fault::SameKey));
        }
    }
    Ok(())
}

/// Adds a row of these values: whether none has its key.
fn is_added<T: Alter>(
    tx: &mut Transaction<'_, T>,
    statement: &Statement,
    values: &[ValueRef<'_>],
) -> Result<bool, Error> {
    match tx.execute_prepared(statement, values) {
        Ok(_) => Ok(true),
        Err(
            Error::SqliteFailure(
                ErrorCode::ConstraintViolation(Constraint::PrimaryKey | Constraint::Unique),
            ),
        ) => Ok(false),
        Err(error) => Err(error),
    }
}

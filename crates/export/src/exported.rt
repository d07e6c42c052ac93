//! The rows of the tables that are asked for as rows of tables of SQLite.

ghost use Rattle.std.specs.Prelude.{◌≡◌, false};

use crate::collected::Collected;
use crate::table_rows::{TableError, TableWriter};
use crate::tables::ExportTables;
use binlog::Follow;
use formats::{Shown, write_table};
use rows::Chosen;
use sqlite::{Alter, Connection, Error};
use std::alloc::Global;
use std::io;
use std::io::Write;
use store::Listed;

/// Which tables are made.
#[derive(Drop)]
pub struct Export {
    pub tables: ExportTables,
    /// The tables that are named.
    pub chosen: Chosen,
}

/// Reports of which tables that are made a database keeps no rows, since its filter leaves them out.
pub fn note_left_out<W: Write>(
    tables: &ExportTables,
    db: &str,
    following: &Follow,
    out: &mut W,
) -> io::Result<()> {
    for table in tables.all() {
        let (schema, name) = (table.schema.as_bytes(), table.name.as_bytes());
        if !following.follows(schema, name) {
            write!(out, "mrep: {}: it does not keep the rows of ", Shown(db))?;
            write_table(schema, name, out)?;
            out.write_all(b"\n")?;
        }
    }
    Ok(())
}

/// Makes tables and adds rows to those that are asked for, in one transaction of a database.
#[derive(Drop)]
pub struct ExportedRows<'d, 'c, T: Alter> {
    chosen: Chosen,
    collected: Collected,
    rows: TableWriter<'d, 'c, T>,
}

impl<'d, 'c, T: Alter> ExportedRows<'d, 'c, T> {
    /// Makes the tables, without rows.
    pub fn begin(
        alloc: Global,
        tables: &'d ExportTables,
        chosen: Chosen,
        conn: &'c mut Connection<T>,
    ) -> Result<ExportedRows<'d, 'c, T>, Error>
        requires { conn.old.in_transaction ≡ false }
    {
        let rows = TableWriter::begin(alloc, tables, conn)?;
        Ok(ExportedRows {
            chosen,
            collected: Collected::new(alloc),
            rows,
        })
    }

    /// Adds a row as often as there are copies of it, if its table is asked for. A row of a table that is not made is left out.
    pub fn row(&mut self, row: &Listed<'_>) -> Result<(), TableError> {
        if !self.chosen.takes(row.schema, row.table) {
            return Ok(());
        }
        self.rows.write(&mut self.collected, row)
    }

    /// Commits the tables and their rows, and the table of the place with this set. Returns of which of the tables there was a row.
    pub fn finish(self, executed: Option<&str>) -> Result<Chosen, TableError> {
        let ExportedRows {
            chosen,
            mut collected,
            mut rows,
        } = self;
        rows.add_collected(&mut collected)?;
        if let Some(executed) = executed {
            rows.add_place(executed)?;
        }
        rows.commit()?;
        Ok(chosen)
    }
}

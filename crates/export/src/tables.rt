//! Which tables of a description are made in an SQLite database, and under which names.

use binlog::Follow;
use columns::{DescribedTable, Description};
use first_copy::unselectable;
use formats::write_table;
use rows::DescribedTables;
use std::alloc::{AllocError, AllocFailed, Global};
use std::collections::{BTreeMap, BTreeSet};
use std::io;
use std::io::Write;
use thiserror::Error;

/// How many columns a table of SQLite has at most (SQLite, "Implementation Limits For SQLite").
const MOST_COLUMNS: usize = 2_000;

/// How the names begin that SQLite keeps for itself (SQLite, "CREATE TABLE", section 2).
const RESERVED: &[u8] = b"sqlite_";

/// The name of the table of the place.
const PLACE: &[u8] = b"mrep_place";

/// The name of a table.
#[derive(Drop)]
pub struct TableName {
    pub schema: Vec<u8>,
    pub table: Vec<u8>,
}

/// Why a described table is not made.
#[derive(Clone, Copy, Debug, Error)]
pub enum TableFault {
    /// It is asked for and not described.
    #[error("the table is not described")]
    Missing,
    /// It is asked for, and is not in the schema that is asked for.
    #[error("it is not in the schema that is asked for")]
    Elsewhere,
    /// Its name or the name of a column has a NUL.
    #[error("a name with a NUL, which SQLite does not take")]
    Nul,
    /// Its name begins as those that SQLite keeps for itself.
    #[error("a name that begins with sqlite_, which SQLite keeps for itself")]
    Reserved,
    /// Its name is that of the table of the place, which is asked for.
    #[error("its name is that of the table that --place makes")]
    Place,
    /// It has so many columns, which are too many.
    #[error("it has {0} columns, and a table of SQLite has at most 2000")]
    Columns(usize),
    /// The names of two columns differ in case alone.
    #[error("SQLite takes the names of two of its columns for the same")]
    SameColumn,
    /// A column of it has a type whose cells are made of no text.
    #[error("it has a column of JSON, GEOMETRY, VECTOR or their like, of whose texts no rows are made")]
    NoText,
}

/// Why no tables are made of a description.
#[derive(Drop)]
pub enum TablesFault {
    /// This table cannot be made.
    Table(TableName, TableFault),
    /// SQLite takes the names of these two tables for the same.
    Same(TableName, TableName),
    /// No table of the schema that is asked for is described.
    NoTable,
    /// An allocation was refused.
    Memory,
}

impl TableName {
    fn write<W: Write>(&self, out: &mut W) -> io::Result<()> {
        write_table(&self.schema, &self.table, out)
    }
}

impl TablesFault {
    /// Writes which table is meant, and what is wrong with it.
    pub fn write<W: Write>(&self, out: &mut W) -> io::Result<()> {
        match self {
            TablesFault::Table(table, fault) => {
                table.write(out)?;
                writeln!(out, ": {fault}")
            }
            TablesFault::Same(first, second) => {
                first.write(out)?;
                out.write_all(b" and ")?;
                second.write(out)?;
                out.write_all(b": SQLite takes their names for the same\n")
            }
            TablesFault::NoTable => {
                out.write_all(b"no table of the schema that is asked for is described\n")
            }
            TablesFault::Memory => out.write_all(b"out of memory\n"),
        }
    }
}

/// Refuses tables that are named and not described.
pub fn check_named(
    alloc: Global,
    tables: &DescribedTables,
    only: &Follow,
) -> Result<(), TablesFault> {
    for (schema, table) in only.names() {
        if tables.find(schema, table).is_none() {
            return Err(fault_of(alloc, schema, table, TableFault::Missing));
        }
    }
    Ok(())
}

/// Refuses tables of which no copy is made, since no text stands for the values of one of their types.
pub fn check_texts(alloc: Global, tables: &DescribedTables) -> Result<(), TablesFault> {
    match unselectable(tables) {
        Some(table) => Err(fault_of(
            alloc,
            table.schema.as_bytes(),
            table.name.as_bytes(),
            TableFault::NoText,
        )),
        None => Ok(()),
    }
}

impl From<AllocError> for TablesFault {
    fn from(_error: AllocError) -> TablesFault {
        TablesFault::Memory
    }
}

impl<T: Drop> From<AllocFailed<T>> for TablesFault {
    fn from(_error: AllocFailed<T>) -> TablesFault {
        TablesFault::Memory
    }
}

/// Which tables of a description are made in an SQLite database, and whether under their bare names.
#[derive(Drop)]
pub struct ExportTables {
    tables: DescribedTables,
    is_bare: bool,
    has_place: bool,
}

impl ExportTables {
    /// The tables of a description that are asked for: all, or those that are named; of a schema alone if one is given, under
    /// their names without it. Each is described, and SQLite takes its name and those of its columns. None has the name of the table of
    /// the place, where that is made too.
    pub fn new(
        alloc: Global,
        description: Description,
        only: &Follow,
        schema: Option<&[u8]>,
        has_place: bool,
    ) -> Result<ExportTables, TablesFault> {
        let mut tables = DescribedTables::new(description);
        for (of, table) in only.names() {
            if let Some(fault) = missing(&tables, of, table, schema) {
                return Err(fault_of(alloc, of, table, fault));
            }
        }
        tables.keep(only, schema);
        if tables.all().is_empty() {
            return Err(TablesFault::NoTable);
        }
        let found = ExportTables {
            tables,
            is_bare: schema.is_some(),
            has_place,
        };
        judge_all(alloc, &found)?;
        Ok(found)
    }

    /// Whether the table of the place is made beside them.
    pub fn has_place(&self) -> bool {
        self.has_place
    }

    /// The described table of this name, if it is made.
    pub(crate) fn table(&self, schema: &[u8], table: &[u8]) -> Option<&DescribedTable> {
        self.tables.find(schema, table)
    }

    /// The tables that are made, in the order of the names of their schemas and their own.
    pub fn all(&self) -> &[DescribedTable] {
        self.tables.all()
    }

    /// The name of a table in SQLite.
    pub(crate) fn name_of(
        &self,
        alloc: Global,
        table: &DescribedTable,
    ) -> Result<String, AllocError> {
        name_in(alloc, table, self.is_bare)
    }
}

/// Why a table that is named is not among these, of one schema if that is given.
fn missing(
    tables: &DescribedTables,
    of: &[u8],
    table: &[u8],
    schema: Option<&[u8]>,
) -> Option<TableFault> {
    match schema {
        Some(wanted) if wanted != of => return Some(TableFault::Elsewhere),
        _ => {}
    }
    match tables.find(of, table) {
        Some(_) => None,
        None => Some(TableFault::Missing),
    }
}

/// The fault of a table.
fn fault_of(alloc: Global, schema: &[u8], table: &[u8], fault: TableFault) -> TablesFault {
    match named(alloc, schema, table) {
        Ok(name) => TablesFault::Table(name, fault),
        Err(_) => TablesFault::Memory,
    }
}

/// The name of a table, with bytes of its own.
pub(crate) fn named(alloc: Global, schema: &[u8], table: &[u8]) -> Result<TableName, AllocError> {
    Ok(TableName {
        schema: Vec::from_slice(alloc, schema)?,
        table: Vec::from_slice(alloc, table)?,
    })
}

/// Refuses tables that SQLite does not take, alone or beside each other.
fn judge_all(alloc: Global, tables: &ExportTables) -> Result<(), TablesFault> {
    let mut seen = BTreeMap::new(alloc);
    for (place, table) in tables.all().iter().enumerate() {
        let (schema, name) = (table.schema.as_bytes(), table.name.as_bytes());
        let in_sqlite = lowered(alloc, tables.name_of(alloc, table)?.as_str())?;
        if tables.has_place && in_sqlite.as_slice() == PLACE {
            return Err(fault_of(alloc, schema, name, TableFault::Place));
        }
        if let Some(fault) = fault_in(alloc, table, in_sqlite.as_slice())? {
            return Err(fault_of(alloc, schema, name, fault));
        }
        let before: Option<usize> = seen.insert(in_sqlite, place)?;
        if let Some(at) = before
            && let Some(other) = tables.all().get(at)
        {
            let first = named(alloc, other.schema.as_bytes(), other.name.as_bytes())?;
            return Err(TablesFault::Same(first, named(alloc, schema, name)?));
        }
    }
    Ok(())
}

/// Why SQLite does not take a table of this name, if it does not.
fn fault_in(
    alloc: Global,
    table: &DescribedTable,
    in_sqlite: &[u8],
) -> Result<Option<TableFault>, TablesFault> {
    if in_sqlite.contains(&0) {
        return Ok(Some(TableFault::Nul));
    }
    if in_sqlite.starts_with(RESERVED) {
        return Ok(Some(TableFault::Reserved));
    }
    if table.columns.len() > MOST_COLUMNS {
        return Ok(Some(TableFault::Columns(table.columns.len())));
    }
    let mut seen = BTreeSet::new(alloc);
    for column in &table.columns {
        let name = lowered(alloc, column.name.as_str())?;
        if name.contains(&0) {
            return Ok(Some(TableFault::Nul));
        }
        if !seen.insert(name)? {
            return Ok(Some(TableFault::SameColumn));
        }
    }
    Ok(None)
}

/// The name of a table in SQLite: its own, with that of its schema and a point in front unless it is bare.
fn name_in(alloc: Global, table: &DescribedTable, is_bare: bool) -> Result<String, AllocError> {
    if is_bare {
        return String::from_str(alloc, table.name.as_str());
    }
    format!(in alloc; "{}.{}", table.schema.as_str(), table.name.as_str())
}

/// A name as SQLite compares it: without the case of ASCII.
fn lowered(alloc: Global, name: &str) -> Result<Vec<u8>, AllocError> {
    let mut low = Vec::with_capacity(alloc, name.len())?;
    for byte in name.as_bytes() {
        low.push(byte.to_ascii_lowercase())?;
    }
    Ok(low)
}

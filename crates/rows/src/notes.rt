//! What a command reports on standard error beside its lines, and ends as it does without it.

ghost use Rattle.std.specs.Prelude.{◌≡◌};
ghost use Rattle.binlog.specs.Filter.{admits};

use binlog::Follow;
use formats::{Shown, write_table};
use std::alloc::{AllocError, Global};
use std::cmp::Ordering;
use std::io;
use std::io::Write;

/// Reports that a command which reads a database has found none.
pub fn note_absent<E: Write>(file: &str, err: &mut E) {
    let _ = writeln!(
        err,
        "mrep: {}: there is no database: what is printed is that of a new one",
        Shown(file)
    );
}

/// Reports of each name of a table with a `*` that it is no pattern.
pub fn note_patterns<E: Write>(words: &[&str], err: &mut E) {
    for word in words {
        if word.contains('*') && word.contains('.') {
            let _ = writeln!(
                err,
                "mrep: {}: `*` stands for itself: name each table, by an --only of its own",
                Shown(word)
            );
        }
    }
}

/// Tables that are asked for, all if none is named, and of which of them a row was there.
#[derive(Drop)]
pub struct Chosen {
    tables: Follow,
    /// For each name whether there was a row.
    seen: Vec<bool>,
    /// Tables that had a row, and whose names differ from one that is asked for in the case of letters alone.
    near: Vec<(Vec<u8>, Vec<u8>)>,
    alloc: Global,
}

impl Chosen {
    /// Tables of which no row was there yet.
    pub fn new(alloc: Global, tables: Follow) -> Result<Chosen, AllocError> {
        let seen = vec![in alloc; false; tables.names().len()]?;
        Ok(Chosen {
            tables,
            seen,
            near: Vec::new(alloc),
            alloc,
        })
    }

    /// The one table that is named, if it is one.
    pub fn single(&self) -> Option<(&[u8], &[u8])> {
        match self.tables.names() {
            [name] => Some((&name.0, &name.1)),
            _ => None,
        }
    }

    /// Whether a row is of one of these tables, which then had one.
    pub fn takes(&mut self, schema: &[u8], table: &[u8]) -> bool
        ensures takes { result ≡ admits self.old.tables schema.now table.now }
        ensures same { self.new.tables ≡ self.old.tables }
    {
        if !self.tables.follows(schema, table) {
            self.note_near(schema, table);
            return false;
        }
        self.note(schema, table);
        true
    }

    /// Records that there was a row of a table, if that is named.
    fn note(&mut self, schema: &[u8], table: &[u8])
        ensures { self.new.tables ≡ self.old.tables }
    {
        let names = self.tables.names();
        let Ok(place) = names.binary_search_by(|name| compare(name, schema, table)) else {
            return;
        };
        if let Some(seen) = self.seen.get_mut(place) {
            *seen = true;
        }
    }

    /// Keeps the name of a table that is like one that is asked for, if memory is there for it.
    fn note_near(&mut self, schema: &[u8], table: &[u8])
        ensures { self.new.tables ≡ self.old.tables }
    {
        if self.near.len() < self.tables.names().len()
            && has_like(self.tables.names(), schema, table)
            && !has(&self.near, schema, table)
        {
            let _ = push_name(self.alloc, schema, table, &mut self.near);
        }
    }

    /// Reports of which tables that are named there was no row.
    pub fn note_missing<E: Write>(&self, file: &str, err: &mut E) -> io::Result<()> {
        for (name, seen) in self.tables.names().iter().zip(self.seen.iter()) {
            if !*seen {
                write_missing(file, name, &self.near, err)?;
            }
        }
        Ok(())
    }
}

/// Reports that a file has no row of a table, and which table may be meant.
fn write_missing<E: Write>(
    file: &str,
    name: &(Vec<u8>, Vec<u8>),
    near: &[(Vec<u8>, Vec<u8>)],
    err: &mut E,
) -> io::Result<()> {
    write!(err, "mrep: {}: it has no row of ", Shown(file))?;
    write_table(&name.0, &name.1, err)?;
    for (schema, table) in near {
        if is_like(name, schema, table) {
            err.write_all(b"; did you mean ")?;
            write_table(schema, table, err)?;
        }
    }
    writeln!(err)
}

/// Adds the name of a table to a list.
fn push_name(
    alloc: Global,
    schema: &[u8],
    table: &[u8],
    names: &mut Vec<(Vec<u8>, Vec<u8>)>,
) -> Result<(), AllocError> {
    let schema = copied(alloc, schema)?;
    let table = copied(alloc, table)?;
    names.push((schema, table))?;
    Ok(())
}

fn copied(alloc: Global, bytes: &[u8]) -> Result<Vec<u8>, AllocError> {
    let mut copy = Vec::new(alloc);
    copy.extend_from_slice(bytes)?;
    Ok(copy)
}

/// Whether a list has the name of a table.
fn has(names: &[(Vec<u8>, Vec<u8>)], schema: &[u8], table: &[u8]) -> bool {
    names.iter().any(|name| name.0.as_slice() == schema && name.1.as_slice() == table)
}

/// Whether a list has a name that is like that of a table.
fn has_like(names: &[(Vec<u8>, Vec<u8>)], schema: &[u8], table: &[u8]) -> bool {
    names.iter().any(|name| is_like(name, schema, table))
}

/// Whether a name and that of a table are the same but for the case of letters.
fn is_like(name: &(Vec<u8>, Vec<u8>), schema: &[u8], table: &[u8]) -> bool {
    name.0.as_slice().eq_ignore_ascii_case(schema) && name.1.as_slice().eq_ignore_ascii_case(table)
}

/// How a name compares with that of a table.
fn compare(name: &(Vec<u8>, Vec<u8>), schema: &[u8], table: &[u8]) -> Ordering {
    match name.0.as_slice().cmp(schema) {
        Ordering::Equal => name.1.as_slice().cmp(table),
        unlike => unlike,
    }
}

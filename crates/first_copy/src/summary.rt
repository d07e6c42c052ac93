//! What a copy says that was read to its end.

ghost use Rattle.std.specs.Prelude.{◌≡◌, ◌++◌, ℕ, List, true, false, IfOk, IfSome, OnOk};
ghost use Rattle.std.specs.Io.KnownBytes.{prepend_known};
ghost use Rattle.sha1.specs.Sha1.{Holds};
ghost use Rattle.first_copy.specs.CopySources.{IsMadeOf};
ghost use Rattle.first_copy.specs.Heads.{HasCopySource, FollowsHead};

use crate::copied_rows::CopiedRows;
use crate::copy_fault::CopyFault;
use crate::head::read_head;
use crate::loader::Loader;
use crate::source::copy_source;
use binlog::Follow;
use columns::Description;
use formats::{text_of, write_table};
use gather::Delivery;
use gtid::{Gtid, GtidSet};
use replica::FirstCopy;
use std::alloc::{AllocError, Global};
use std::io;
use std::io::{BufRead, Write};
use std::rc::Rc;

/// The rows of a table in a copy.
#[derive(Drop)]
struct TableCount {
    schema: Vec<u8>,
    table: Vec<u8>,
    rows: u64,
}

/// How many rows of each table there are, and the digests of the lines.
#[derive(Drop)]
struct Tallied {
    alloc: Global,
    /// The tables, in the order in which they come.
    tables: Vec<TableCount>,
    /// The digest of the lines after each transaction, and after the line at the end.
    digests: Vec<[u8; 20]>,
}

impl Tallied {
    /// Counts a row of a table.
    fn add(&mut self, schema: &[u8], table: &[u8]) -> Result<(), AllocError> {
        let found = self.tables.iter_mut().rev().find(|count| count.schema.as_slice() == schema
            && count.table.as_slice() == table);
        if let Some(count) = found {
            count.rows = count.rows.saturating_add(1);
            return Ok(());
        }
        self.tables.push(TableCount {
            schema: Vec::from_slice(self.alloc, schema)?,
            table: Vec::from_slice(self.alloc, table)?,
            rows: 1,
        })?;
        Ok(())
    }

    /// Counts the rows of a transaction, if one came, after whose lines this is the digest.
    fn add_all(&mut self, next: Option<&Delivery>, digest: [u8; 20]) -> Result<(), AllocError> {
        self.digests.push(digest)?;
        let Some(delivery) = next else {
            return Ok(());
        };
        for change in delivery.changes.iter() {
            let table = change.table();
            self.add(&table.schema, &table.table)?;
        }
        Ok(())
    }

    /// Takes all that a loader gives, up to its end.
    fn take<R: BufRead>(&mut self, loader: &mut Loader<R>) -> Result<(), CopyFault>
        ensures ended { OnOk result (loader.new.ended ≡ true) }
        // All that was left is hashed.
        ensures hashed { OnOk result ((m : List ℕ) → loader.old.ended ≡ false
            → Holds loader.old.hasher m → IfSome (prepend_known loader.old.line.items
            (R.Read.remaining loader.old.reader)) (λ rest. Holds loader.new.hasher (m ++ rest))) }
    {
        // A `for`, since the prover asks that each loop ends.
        for _ in 0..u64::MAX {
            let next = loader.next()?;
            if self.add_all(next.as_ref(), loader.digest()).is_err() {
                return Err(CopyFault::Memory);
            }
            if next.is_none() {
                return Ok(());
            }
        }
        Err(CopyFault::TooMany)
    }

    /// The names of the tables.
    fn names(&self) -> Result<Follow, CopyFault> {
        let Ok(names) = names_of(self.alloc, &self.tables) else {
            return Err(CopyFault::Memory);
        };
        match Follow::new(self.alloc, &names) {
            Ok(names) => Ok(names),
            Err(_) => Err(CopyFault::Memory),
        }
    }
}

/// The names of these tables.
fn names_of(alloc: Global, tables: &[TableCount]) -> Result<Vec<(Vec<u8>, Vec<u8>)>, AllocError> {
    let mut names = Vec::with_capacity(alloc, tables.len())?;
    for count in tables {
        names.push((count.schema.clone()?, count.table.clone()?))?;
    }
    Ok(names)
}

/// The same names of tables.
fn copy_of(alloc: Global, names: &Follow) -> Result<Follow, CopyFault>
    ensures { IfOk result (λ copy. copy ≡ names.now) }
{
    match Follow::new(alloc, names.names()) {
        Ok(copy) => Ok(copy),
        Err(_) => Err(CopyFault::Memory),
    }
}

/// The same description once more.
fn same(description: &Rc<Description>) -> Result<Rc<Description>, CopyFault>
    ensures { IfOk result (λ copy. copy.value ≡ description.now.value) }
{
    match description.clone() {
        Ok(copy) => Ok(copy),
        Err(_) => Err(CopyFault::Memory),
    }
}

/// The first GTID of the source of a copy with this executed set, this digest of the lines after its head, and this one of its
/// description.
fn first_gtid(
    alloc: Global,
    executed: &GtidSet,
    digest: &[u8; 20],
    described: &[u8; 20],
) -> Result<Gtid, CopyFault>
    ensures first { IfOk result (λ gtid. gtid.number ≡ 1) }
    ensures source { IfOk result (λ gtid. IsMadeOf executed.now gtid.source digest.now
        described.now) }
{
    let Ok(text) = text_of(alloc, executed) else {
        return Err(CopyFault::Memory);
    };
    let Ok(source) = copy_source(alloc, text.as_str(), digest, described) else {
        return Err(CopyFault::Memory);
    };
    match Gtid::new(source, 1) {
        Some(gtid) => Ok(gtid),
        None => Err(CopyFault::TooMany),
    }
}

/// What a copy says that was read to its end: the set, how many rows of each table there are, and after each of its transactions
/// the digest of the lines so far.
#[derive(Drop)]
pub struct Summary {
    /// The tables that were described as it was read.
    description: Rc<Description>,
    executed: GtidSet,
    /// The first GTID of its source.
    first: Gtid,
    names: Follow,
    tables: Vec<TableCount>,
    digests: Vec<[u8; 20]>,
}

impl Summary {
    /// Reads a copy of described tables to its end. `described` is the SHA-1 of the text of their description.
    ///
    /// Clauses:
    /// - `source`, `first`: the source of the transactions is the UUID of version 5 of the set, of the lines' SHA-1 and of
    ///   `described` (`copy_source`); its first number is 1
    /// - `described`: it keeps the description
    pub fn of<R: BufRead + Drop>(
        alloc: Global,
        description: Rc<Description>,
        described: &[u8; 20],
        mut reader: R,
    ) -> Result<Summary, CopyFault>
        ensures source { IfOk result (λ made. HasCopySource made.executed made.first.source
            described.now (R.Read.remaining reader)) }
        ensures first { IfOk result (λ made. made.first.number ≡ 1) }
        ensures described { IfOk result (λ made. made.description ≡ description) }
    {
        let executed = read_head(alloc, &mut reader)?;
        let again = same(&description)?;
        let mut loader = Loader::new(alloc, again, [0; 16], reader)?;
        let mut tallied = Tallied {
            alloc,
            tables: Vec::new(alloc),
            digests: Vec::new(alloc),
        };
        tallied.take(&mut loader)?;
        let first = first_gtid(alloc, &executed, &loader.digest(), described)?;
        let names = tallied.names()?;
        let Tallied {
            tables,
            digests,
            ..
        } = tallied;
        Ok(Summary {
            description,
            executed,
            first,
            names,
            tables,
            digests,
        })
    }

    /// The copy, without its rows.
    ///
    /// Clauses:
    /// - `gtids`, `first`, `tables`: the set, the first transaction and the tables
    pub fn copy(&self) -> FirstCopy<'_>
        ensures gtids { result.gtids.now ≡ self.now.executed }
        ensures first { result.first ≡ self.now.first }
        ensures tables { result.tables.now ≡ self.now.names }
    {
        FirstCopy {
            gtids: &self.executed,
            first: self.first,
            tables: &self.names,
        }
    }

    /// Prints each table with the number of its rows, in the order in which the tables come.
    pub fn print<W: Write>(&self, out: &mut W) -> io::Result<()> {
        for count in &self.tables {
            write_table(&count.schema, &count.table, out)?;
            writeln!(out, " {}", count.rows)?;
        }
        Ok(())
    }

    /// Its transactions, read once more, by the same description. They are those of the copy that was read before, or not given.
    ///
    /// Clauses:
    /// - `begin`, `names`, `described`, `text`: a loader of the same that has given nothing
    pub fn rows<R: BufRead + Drop>(
        &self,
        alloc: Global,
        mut reader: R,
    ) -> Result<CopiedRows<R>, CopyFault>
        // No transaction was given yet, and the first one that comes is the copy's.
        ensures begin { IfOk result (λ made. (made.changed ≡ false) × (made.loader.failed ≡ false)
            × (made.loader.ended ≡ false) × (made.loader.given ≡ 1) × (made.loader.rows ≡ 0)
            × (made.loader.source ≡ self.now.first.source)) }
        // Their rows are of the tables of the copy.
        ensures names { IfOk result (λ made. made.names ≡ self.now.names) }
        ensures described { IfOk result (λ made. made.loader.taker.description.value
            ≡ self.now.description.value) }
        ensures text { IfOk result (λ made. FollowsHead (R.Read.remaining reader)
            (prepend_known made.loader.line.items (R.Read.remaining made.loader.reader))) }
    {
        let _ = read_head(alloc, &mut reader)?;
        let description = same(&self.description)?;
        let loader = Loader::new(alloc, description, self.first.source, reader)?;
        let names = copy_of(alloc, &self.names)?;
        let mut digests = Vec::new(alloc);
        match digests.extend_from_slice(&self.digests) {
            Ok(()) => Ok(CopiedRows::new(loader, names, digests)),
            Err(_) => Err(CopyFault::Memory),
        }
    }
}

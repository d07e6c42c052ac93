//! The transactions of a copy that was read before.

ghost use Rattle.std.specs.Prelude.{◌≡◌, ◌||◌, true, false, IfSome};
ghost use Rattle.std.specs.Io.KnownBytes.{prepend_known};
ghost use Rattle.gather.specs.View.{delivery_value};
ghost use Rattle.first_copy.specs.Supplied.{AreOfTables, within, supply_of};

use crate::copy_fault::CopyFault;
use crate::loader::Loader;
use binlog::Follow;
use gather::{Changes, Deliveries, Delivery};
use std::io::BufRead;

/// Why the transactions of a copy do not come.
#[derive(Debug, Drop)]
pub enum RowsFault {
    /// The copy is none, or cannot be read.
    Copy(CopyFault),
    /// Its lines are other ones than when it was read before, or of another table.
    Changed,
}

/// Whether the changes are of these tables.
fn are_of_tables(names: &Follow, changes: &Changes) -> bool
    ensures { result ≡ true → AreOfTables names.now changes.now }
{
    if names.names().is_empty() {
        return changes.is_empty();
    }
    for change in changes.iter() {
        let table = change.table();
        if !names.follows(&table.schema, &table.table) {
            return false;
        }
    }
    true
}

/// Whether the changes of a transaction, if there is one, are of these tables.
fn is_of_tables(names: &Follow, next: &Option<Delivery>) -> bool
    ensures { result ≡ true
        → IfSome next.now (λ d. AreOfTables names.now (delivery_value d).changes) }
{
    match next {
        Some(delivery) => are_of_tables(names, &delivery.changes),
        None => true,
    }
}

/// The transactions of a copy that was read to its end before. Each is given only if all lines up to its last one are those of
/// that time, and its rows are of the tables that were read then.
#[derive(Drop)]
pub struct CopiedRows<R> {
    loader: Loader<R>,
    /// The tables of the copy, when it was read before.
    names: Follow,
    /// The digests of the lines, after each transaction, when they were read before.
    digests: Vec<[u8; 20]>,
    /// How many of them have come again.
    same: usize,
    changed: bool,
}

impl<R: BufRead> CopiedRows<R> {
    /// The transactions that a loader gives, with rows of these tables, whose digests these were: [`Loader::digest`] after each call of [`Loader::next`], the
    /// last one of which gave none.
    pub fn new(loader: Loader<R>, names: Follow, digests: Vec<[u8; 20]>) -> CopiedRows<R>
        ensures loader { result.loader ≡ loader }
        ensures names { result.names ≡ names }
        ensures same { result.changed ≡ false }
    {
        CopiedRows {
            loader,
            names,
            digests,
            same: 0,
            changed: false,
        }
    }
}

/// It gives the transactions of its text, as far as that is known, and of its tables.
impl<R: BufRead> Deliveries for CopiedRows<R> {
    type Error = RowsFault;

    ghost supply = { λ c. within c.names (supply_of (c.changed || c.loader.failed) c.loader.ended
        c.loader.taker.description.value.tables.items c.loader.source c.loader.given c.loader.rows
        (prepend_known c.loader.line.items (R.Read.remaining c.loader.reader))) };

    /// Clauses:
    /// - what `gather::Deliveries` asks: all transactions are those of all lines
    fn next(&mut self) -> Result<Option<Delivery>, RowsFault> {
        if self.changed {
            return Err(RowsFault::Changed);
        }
        let next = match self.loader.next() {
            Ok(next) => next,
            Err(fault) => return Err(RowsFault::Copy(fault)),
        };
        if self.digests.get(self.same) != Some(&self.loader.digest()) {
            self.changed = true;
            return Err(RowsFault::Changed);
        }
        if !is_of_tables(&self.names, &next) {
            self.changed = true;
            return Err(RowsFault::Changed);
        }
        self.same = self.same.saturating_add(1);
        Ok(next)
    }
}

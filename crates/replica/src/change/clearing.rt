//! Taking all rows of one table out of a store, in one transaction.

ghost use Rattle.std.specs.Prelude.{◌≡◌, ◌++◌, true, length, replicate, OnOk, IfOk, MatchBool};
ghost use Rattle.sqlite.specs.State.{HasCleanDisk};
ghost use Rattle.binlog.specs.Filter.{admits};
ghost use Rattle.gather.specs.Transaction.{delete};
ghost use Rattle.store.specs.State.{Content};
ghost use Rattle.store.specs.Listing.{entry_of};
ghost use Rattle.store.specs.Store.{Holds, database, names_of};
ghost use Rattle.replica.specs.Clear.{is_in_table, MayEndClear, clear_of};
ghost use Rattle.replica.specs.Over.{HasStayed};
ghost use Rattle.replica.specs.Clearing.{TakesRow, gathered_of, ListsDeletes, end_by, HasCleared, IsClearedSinceOpening};
ghost use Rattle.replica.specs.Keeps.{KeepsStore};

use crate::change::loading::has_just;
use crate::observer::Observer;
use crate::session::dump::apply;
use crate::session::end::Reason;
use crate::source::connections::NoMemory;
use binlog::{Follow, TableDef};
use gather::{Changes, Delivery, Image};
use gtid::{Gtid, GtidSet};
use sqlite::Alter;
use std::alloc::{AllocError, Global};
use std::rc::Rc;
use store::{ListError, Listed, Store, StoreFault, Visitor};

/// How taking the rows of a table out has ended.
#[derive(Debug, Drop)]
pub enum ClearEnd {
    /// They were taken out, so many with their copies, and the GTID is executed. Of a table that is read and not kept none
    /// are.
    Cleared(u64),
    /// Nothing has changed: the GTID was executed.
    Repeat,
    /// Nothing has changed: the table is not read, so that there are no rows of it.
    NotFollowed,
    /// Nothing has changed: the executed set is not the one before the GTID, and besides it copies alone.
    OtherSet,
    /// Nothing has changed: the sets could not be compared or the rows not be listed, since the database failed (`Database`) or
    /// memory ran out (`Memory`). It has no other fault.
    Failed(StoreFault),
    /// The transaction was not applied: the database failed (`Database`), memory ran out (`Memory`), or the observer
    /// stopped before it (`Halted`). It has no other reason.
    Stopped(Reason),
}

/// Gathers the deletes of the rows of a table.
#[derive(Drop)]
struct TableRows {
    alloc: Global,
    table: Rc<TableDef>,
    changes: Changes,
}

/// Whether a row is one of the table.
fn is_of(row: &Listed<'_>, table: &TableDef) -> bool
    ensures { result ≡ is_in_table table.now.schema.items table.now.table.items
        (entry_of row.now).0 }
{
    row.schema == table.schema.as_slice() && row.table == table.table.as_slice()
}

/// Appends as many deletes of a row of the table as it has copies.
fn delete_copies(
    table: &Rc<TableDef>,
    row: &Image,
    copies: u64,
    changes: &mut Changes,
) -> Result<(), NoMemory>
    ensures ok { OnOk result (changes.new ≡ changes.old ++ replicate copies
        (delete table.now.value.schema.items table.now.value.table.items row.now)) }
{
    for _copy in 0..copies {
        match changes.delete(table, row) {
            Ok(()) => {}
            Err(_) => return Err(NoMemory),
        }
    }
    Ok(())
}

impl Visitor for TableRows {
    type Error = NoMemory;

    ghost row_gives = { TakesRow };

    fn row(&mut self, row: &Listed<'_>) -> Result<(), NoMemory> {
        if !is_of(row, &self.table) {
            return Ok(());
        }
        match Image::read(self.alloc, row.image.bytes()) {
            Ok(Some(image)) => delete_copies(&self.table, &image, row.count, &mut self.changes),
            // It is never `None`: the bytes are an image.
            _ => Err(NoMemory),
        }
    }
}

/// A table of these names, without columns.
fn table_named(alloc: Global, schema: &[u8], table: &[u8]) -> Result<Rc<TableDef>, AllocError>
    ensures schema { IfOk result (λ made. made.value.schema.items ≡ schema.now) }
    ensures table { IfOk result (λ made. made.value.table.items ≡ table.now) }
{
    let schema = Vec::from_slice(alloc, schema)?;
    let table = Vec::from_slice(alloc, table)?;
    let table = TableDef::new(schema, table, Vec::new(alloc));
    Ok(Rc::new(alloc, table)?)
}

/// The deletes that were gathered, or why the list was not read to its end.
fn gathered(listed: Result<(), ListError<NoMemory>>, rows: TableRows) -> Result<Changes, StoreFault>
    ensures { result ≡ gathered_of listed rows.changes }
{
    match listed {
        Ok(()) => Ok(rows.changes),
        Err(ListError::Store(fault)) => Err(fault),
        Err(ListError::Visitor(_)) => Err(StoreFault::Memory),
    }
}

/// Lists the rows of a table, as a delete for each copy of each.
fn list_deletes<S: Alter>(
    alloc: Global,
    store: &mut Store<S>,
    schema: &[u8],
    table: &[u8],
) -> Result<Changes, StoreFault>
    ensures lists { HasCleanDisk (database S.Store store.new) → (content : Content)
        → Holds S.Store store.old content
        → ListsDeletes S.Store schema.now table.now content store.new result }
    ensures keeps { KeepsStore S.Store store.old store.new }
{
    let table = match table_named(alloc, schema, table) {
        Ok(table) => table,
        Err(_) => return Err(StoreFault::Memory),
    };
    let mut rows = TableRows {
        alloc,
        table,
        changes: Changes::new(alloc),
    };
    let listed = store.list(&mut rows);
    gathered(listed, rows)
}

/// How many rows deletes of a table take out: none where its rows are not kept.
fn rows_out(following: &Follow, schema: &[u8], table: &[u8], changes: &Changes) -> u64
    ensures { MatchBool (admits following.now schema.now table.now)
        (result ≡ length changes.now) (result ≡ 0) }
{
    if !following.follows(schema, table) {
        return 0;
    }
    changes.len() as u64
}

/// The end, by what came of a transaction that takes so many rows out.
fn end_of_clear(rows: u64, answer: Result<bool, Reason>) -> ClearEnd
    ensures { result ≡ end_by rows answer }
{
    match answer {
        Ok(true) => ClearEnd::Cleared(rows),
        Ok(false) => ClearEnd::Repeat,
        Err(reason) => ClearEnd::Stopped(reason),
    }
}

/// Reports the store as opened, and takes the rows of a table out in a transaction with this GTID, a delete for each copy
/// of each row; unless the GTID is executed, or the table is not read. Of a table that is read and not kept there are none.
pub(crate) fn clear<S: Alter, W: Observer>(
    alloc: Global,
    store: &mut Store<S>,
    schema: &[u8],
    table: &[u8],
    gtid: Gtid,
    at: &GtidSet,
    observer: &mut W,
) -> ClearEnd
    ensures clears { HasCleanDisk (database S.Store store.new) → (old : Content)
        → Holds S.Store store.old old
        → HasCleared S.Store (names_of S.Store store.old) (clear_of schema.now table.now gtid at.now)
        store.new old result }
    ensures notes { HasCleanDisk (database S.Store store.new) → (old : Content)
        → Holds S.Store store.old old
        → IsClearedSinceOpening S.Store (names_of S.Store store.old) store.new old
        (W.account observer.old) (W.account observer.new) }
    ensures asked { MayEndClear result (W.account observer.new) }
    ensures heeds { HasCleanDisk (database S.Store store.new) → (old : Content)
        → Holds S.Store store.old old → (W.account observer.old).has_stopped ≡ true
        → HasStayed S.Store store.new old (λ left. left ≡ old) }
    ensures keeps { KeepsStore S.Store store.old store.new }
{
    observer.opened(store.executed(), store.following());
    if store.executed().contains(gtid) {
        return ClearEnd::Repeat;
    }
    if !store.following().reads(schema, table) {
        return ClearEnd::NotFollowed;
    }
    match has_just(store.executed(), at) {
        Ok(true) => {}
        Ok(false) => return ClearEnd::OtherSet,
        Err(_) => return ClearEnd::Failed(StoreFault::Memory),
    }
    let changes = match list_deletes(alloc, store, schema, table) {
        Ok(changes) => changes,
        Err(fault) => return ClearEnd::Failed(fault),
    };
    let rows = rows_out(store.following(), schema, table, &changes);
    let delivery = Delivery { gtid, changes };
    end_of_clear(rows, apply(store, &delivery, observer))
}

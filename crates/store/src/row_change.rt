//! Row changes, inside a transaction.

ghost use Rattle.std.specs.Prelude.{◌≡◌, ◌≢◌, IfOk};
ghost use Rattle.gather.specs.Image.{IsSomeImage};
ghost use Rattle.store.specs.Rows.{key_in, held_rows, count};
ghost use Rattle.gather.specs.Transaction.{insert, delete};
ghost use Rattle.gather.specs.View.{change_value};
ghost use Rattle.store.specs.Changes.{is_admitted};
ghost use Rattle.store.specs.Inside.{added, removed, Counted, Makes, Does, DoesAll, Stays, Within};

use crate::table::held::{RowKey, delete, insert, read, update};
use crate::table::row::MOST;
use binlog::{Follow, TableDef};
use gather::{Change, Changes, ImageRef};
use sqlite::{Alter, Error, Transaction};

/// Why a change is refused.
#[derive(Clone, Copy, Debug, PartialEq, Eq)]
pub enum Refusal {
    /// The row to be removed is not there.
    NoSuchRow,
    /// The row is to be added, and its count is at the maximum, 2^63 - 1.
    CountFull,
}

/// Adds one more copy of a row that is there.
fn raise<S: Alter>(tx: &mut Transaction<'_, S>, row: &RowKey<'_>) -> Result<Option<Refusal>, Error>
    ensures counted { Within S.Store tx.old.conn tx.new.conn (λ old new.
        IfOk result (Counted old new (added (key_in row.now) (count (held_rows old.now))))) }
    ensures stays { Stays S.Store tx.old.conn tx.new.conn result }
{
    let Some(n) = read(tx, row)? else {
        return Err(Error::InvalidQuery);
    };
    if n >= MOST {
        return Ok(Some(Refusal::CountFull));
    }
    update(tx, row, (n + 1) as i64)?;
    Ok(None)
}

/// Adds one copy of a row.
pub(crate) fn add<S: Alter>(
    tx: &mut Transaction<'_, S>,
    row: &RowKey<'_>,
) -> Result<Option<Refusal>, Error>
    ensures counted { Within S.Store tx.old.conn tx.new.conn (λ old new.
        IsSomeImage row.now.image.now
        → IfOk result (Counted old new (added (key_in row.now) (count (held_rows old.now))))) }
    ensures stays { Stays S.Store tx.old.conn tx.new.conn result }
{
    if insert(tx, row)? {
        return Ok(None);
    }
    raise(tx, row)
}

/// Removes one of several copies of a row.
fn lower<S: Alter>(tx: &mut Transaction<'_, S>, row: &RowKey<'_>) -> Result<Option<Refusal>, Error>
    ensures counted { Within S.Store tx.old.conn tx.new.conn (λ old new.
        count (held_rows old.now) (key_in row.now) ≢ 1
        → IfOk result (Counted old new (removed (key_in row.now) (count (held_rows old.now))))) }
    ensures stays { Stays S.Store tx.old.conn tx.new.conn result }
{
    let Some(n) = read(tx, row)? else {
        return Ok(Some(Refusal::NoSuchRow));
    };
    if n == 0 {
        return Ok(Some(Refusal::NoSuchRow));
    }
    update(tx, row, (n - 1) as i64)?;
    Ok(None)
}

/// Removes one copy of a row.
pub(crate) fn remove<S: Alter>(
    tx: &mut Transaction<'_, S>,
    row: &RowKey<'_>,
) -> Result<Option<Refusal>, Error>
    ensures counted { Within S.Store tx.old.conn tx.new.conn (λ old new.
        IfOk result (Counted old new (removed (key_in row.now) (count (held_rows old.now))))) }
    ensures stays { Stays S.Store tx.old.conn tx.new.conn result }
{
    if delete(tx, row)? {
        return Ok(None);
    }
    lower(tx, row)
}

/// Adds one copy of a row of a table.
fn add_row<S: Alter>(
    tx: &mut Transaction<'_, S>,
    table: &TableDef,
    image: &ImageRef<'_>,
) -> Result<Option<Refusal>, Error>
    ensures makes { Within S.Store tx.old.conn tx.new.conn (λ old new.
        IfOk result (Makes (insert table.now.schema.items table.now.table.items image.now)
        old new)) }
    ensures stays { Stays S.Store tx.old.conn tx.new.conn result }
{
    add(tx, &RowKey::of(table, image))
}

/// Removes one copy of a row of a table.
fn remove_row<S: Alter>(
    tx: &mut Transaction<'_, S>,
    table: &TableDef,
    image: &ImageRef<'_>,
) -> Result<Option<Refusal>, Error>
    ensures makes { Within S.Store tx.old.conn tx.new.conn (λ old new.
        IfOk result (Makes (delete table.now.schema.items table.now.table.items image.now)
        old new)) }
    ensures stays { Stays S.Store tx.old.conn tx.new.conn result }
{
    remove(tx, &RowKey::of(table, image))
}

/// Makes one change, or returns why it is refused.
fn make<S: Alter>(
    tx: &mut Transaction<'_, S>,
    change: &Change<'_>,
) -> Result<Option<Refusal>, Error>
    ensures makes { Within S.Store tx.old.conn tx.new.conn (λ old new.
        IfOk result (Makes (change_value change.now) old new)) }
    ensures stays { Stays S.Store tx.old.conn tx.new.conn result }
{
    match change {
        Change::Insert { table, after } => add_row(tx, table, after),
        Change::Delete { table, before } => remove_row(tx, table, before),
        Change::Update {
            table,
            before,
            after,
        } => {
            if let Some(why) = remove_row(tx, table, before)? {
                return Ok(Some(why));
            }
            add_row(tx, table, after)
        }
    }
}

/// Whether the filter admits the table of a change.
fn is_admitted(filter: &Follow, change: &Change<'_>) -> bool
    ensures { result ≡ is_admitted filter.now (change_value change.now) }
{
    let table = change.table();
    filter.follows(&table.schema, &table.table)
}

/// Makes one change of a table that the filter admits, and skips any other.
fn step<S: Alter>(
    tx: &mut Transaction<'_, S>,
    filter: &Follow,
    change: &Change<'_>,
) -> Result<Option<Refusal>, Error>
    ensures does { Within S.Store tx.old.conn tx.new.conn (λ old new.
        IfOk result (Does filter.now (change_value change.now) old new)) }
    ensures stays { Stays S.Store tx.old.conn tx.new.conn result }
{
    if !is_admitted(filter, change) {
        return Ok(None);
    }
    make(tx, change)
}

/// Makes the changes in order, or returns the index of the one that is refused, and why.
pub(crate) fn make_all<S: Alter>(
    tx: &mut Transaction<'_, S>,
    filter: &Follow,
    changes: &Changes,
) -> Result<Option<(usize, Refusal)>, Error>
    ensures does { Within S.Store tx.old.conn tx.new.conn (λ old new.
        IfOk result (DoesAll filter.now changes.now old new)) }
    ensures stays { Stays S.Store tx.old.conn tx.new.conn result }
{
    // For the prover: an index is less than this, so it has a successor.
    let _count = changes.len();
    let mut at = 0;
    for change in changes.iter() {
        if let Some(why) = step(tx, filter, &change)? {
            return Ok(Some((at, why)));
        }
        at += 1;
    }
    Ok(None)
}

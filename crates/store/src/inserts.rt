//! Transactions that only add rows to one table, whose rows are inserted in the order of their keys.

ghost use Rattle.std.specs.Prelude.{true, false, IsTrue, IfOk, IfSome, map, []};
ghost use Rattle.std.specs.List.{All};
ghost use Rattle.gather.specs.Image.{IsSomeImage};
ghost use Rattle.gather.specs.View.{change_value};
ghost use Rattle.store.specs.Rows.{key_of};
ghost use Rattle.store.specs.Inside.{Adds, Stays, Within};
ghost use Rattle.store.specs.AnyOrder.{AddsRow, AddsRows, AreInserts};

use crate::row_change::add;
use crate::table::held::{RowKey, insert_eight};
use binlog::Follow;
use gather::{Change, Changes};
use sqlite::{Alter, Error, Transaction};
use std::alloc::Global;

/// The rows that a transaction adds to a table, by their images in ascending order.
#[derive(Drop)]
pub(crate) struct SortedInserts<'a> {
    pub(crate) schema: &'a [u8],
    pub(crate) table: &'a [u8],
    pub(crate) images: Vec<&'a [u8]>,
}

/// How many rows a statement inserts, and from how many changes on the rows are sorted.
const PER_STATEMENT: usize = 8;

/// The image of the row, if the change adds one to the table.
fn image_for<'a>(change: &Change<'a>, schema: &[u8], table: &[u8]) -> Option<&'a [u8]>
    ensures { IfSome result (λ bytes. AddsRow schema.now table.now bytes.now
        (change_value change.now)) }
{
    let Change::Insert { table: def, after } = change else {
        return None;
    };
    if def.schema.as_slice() != schema {
        return None;
    }
    if def.table.as_slice() != table {
        return None;
    }
    Some(after.bytes())
}

/// The images of the rows in the order of the changes, if each change adds one to the table and there is memory for it.
fn images_of<'a>(
    alloc: Global,
    changes: &'a Changes,
    schema: &[u8],
    table: &[u8],
) -> Option<Vec<&'a [u8]>>
    ensures { IfSome result (λ images. AddsRows schema.now table.now changes.now []
        (map (λ r. r.now) images.items)) }
{
    let Ok(mut images) = Vec::with_capacity(alloc, changes.len()) else {
        return None;
    };
    for change in changes.iter() {
        let bytes = image_for(&change, schema, table)?;
        if images.push(bytes).is_err() {
            return None;
        }
    }
    Some(images)
}

/// The rows of the changes, sorted, if there are many changes, which all add rows to the same table, and the filter
/// admits it. If there is no memory for this, `None`.
pub(crate) fn sorted_inserts<'a>(
    alloc: Global,
    filter: &Follow,
    changes: &'a Changes,
) -> Option<SortedInserts<'a>>
    ensures { IfSome result (λ sorted. AreInserts filter.now changes.now sorted) }
{
    if changes.len() < PER_STATEMENT {
        return None;
    }
    let Some(Change::Insert { table, .. }) = changes.iter().next() else {
        return None;
    };
    let schema = table.schema.as_slice();
    let table = table.table.as_slice();
    if !filter.follows(schema, table) {
        return None;
    }
    let mut images = images_of(alloc, changes, schema, table)?;
    images.sort_unstable();
    Some(SortedInserts {
        schema,
        table,
        images,
    })
}

/// Adds the rows in turn, one by one, and returns whether all were added. It stops at the first that is refused.
fn insert_each<S: Alter>(
    tx: &mut Transaction<'_, S>,
    schema: &[u8],
    table: &[u8],
    images: &[&[u8]],
) -> Result<bool, Error>
    requires { All (λ r. IsSomeImage r.now) images.now }
    ensures adds { Within S.Store tx.old.conn tx.new.conn (λ old new.
        IfOk result (λ all. IsTrue all → Adds (map (λ r. key_of schema.now table.now r.now)
        images.now) old new)) }
    ensures stays { Stays S.Store tx.old.conn tx.new.conn result }
{
    for image in images {
        let row = RowKey {
            schema,
            table,
            image,
        };
        if let Some(_) = add(tx, &row)? {
            return Ok(false);
        }
    }
    Ok(true)
}

/// Adds the rows in turn, and returns whether all were added: eight at a time, and one by one from the first eight on of
/// which one is there or two are the same, or where fewer than eight are left. It stops at the first that is refused.
pub(crate) fn insert_all<S: Alter>(
    tx: &mut Transaction<'_, S>,
    schema: &[u8],
    table: &[u8],
    images: &[&[u8]],
) -> Result<bool, Error>
    requires { All (λ r. IsSomeImage r.now) images.now }
    ensures adds { Within S.Store tx.old.conn tx.new.conn (λ old new.
        IfOk result (λ all. IsTrue all → Adds (map (λ r. key_of schema.now table.now r.now)
        images.now) old new)) }
    ensures stays { Stays S.Store tx.old.conn tx.new.conn result }
{
    let mut done = 0;
    for some in images.chunks(PER_STATEMENT) {
        if !insert_eight(tx, schema, table, some)? {
            return insert_each(tx, schema, table, &images[done..]);
        }
        done += some.len();
    }
    Ok(true)
}

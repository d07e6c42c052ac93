//! The table `follow`: the tables whose rows are kept.

ghost use Rattle.std.specs.Prelude.{◌≡◌, [], pos, map, None, ◌<◌, OnOk, MatchOption, MatchResult};
ghost use Rattle.sqlite.specs.Held.{state};
ghost use Rattle.binlog.specs.Filter.{Names};
ghost use Rattle.binlog.specs.FilterView.{name_list};
ghost use Rattle.store.specs.State.{Content};
ghost use Rattle.store.specs.Changes.{widened};
ghost use Rattle.store.specs.Inside.{StoresNames, Stays, TurnsInto, Within};
ghost use Rattle.store.specs.Making.{with_spans, new_layout, IsMaking, IsNaming};
ghost use Rattle.store.specs.Migrating.{made_spans, HasTables, HasBare, IsMigrating};
ghost use Rattle.std.specs.List.{AllByRecursion};
ghost use Rattle.store.specs.Rows.{IsFollowRow, AreNames, follow_rows, name_in};
ghost use Rattle.store.specs.Load.{ReadsAll, Judges, all_follow_text};
ghost use Rattle.store.specs.declared.fault.StoreFault.TheVariants.{Memory};
ghost use Rattle.sqlite_value.specs.declared.value.Value.TheVariants.{Int};
ghost use Rattle.store.specs.Faults.{IsFailure};
ghost use Rattle.std.specs.FinSet as set;

use crate::fault::StoreFault;
use crate::table::row::{FORM, read_all};
use binlog::Follow;
use sqlite::types::ValueRef;
use sqlite::{Alter, Connection, Error, Row, Transaction};
use std::alloc::Global;

/// All rows, in the order in which they are read.
pub(crate) const ALL: &str = "SELECT rowid, schema_name, table_name FROM follow ORDER BY rowid";

pub(crate) fn make_follow<S: Alter>(tx: &mut Transaction<'_, S>) -> Result<usize, Error>
    ensures made { TurnsInto S.Store tx.old.conn tx.new.conn result
        (IsMaking with_spans) (IsMaking new_layout) }
    ensures migrated { (content : Content) → TurnsInto S.Store tx.old.conn tx.new.conn result
        (IsMigrating (HasTables made_spans) (pos 1) content) (IsMigrating HasBare (pos 1) content) }
    ensures stays { Stays S.Store tx.old.conn tx.new.conn result }
{
    tx.execute(
        "CREATE TABLE follow (schema_name BLOB NOT NULL, table_name BLOB NOT NULL, PRIMARY KEY (schema_name, table_name))",
        &[],
    )
}

/// Inserts the names of the tables that the filter admits.
pub(crate) fn add_names<S: Alter>(
    tx: &mut Transaction<'_, S>,
    names: &[(Vec<u8>, Vec<u8>)],
) -> Result<(), Error>
    ensures named { TurnsInto S.Store tx.old.conn tx.new.conn result
        (IsNaming set.empty) (IsNaming (set.from_list (name_list names.now))) }
    ensures stays { Stays S.Store tx.old.conn tx.new.conn result }
{
    for name in names {
        add_name(tx, name.0.as_slice(), name.1.as_slice())?;
    }
    Ok(())
}

/// Inserts the name of a table that the filter admits.
fn add_name<S: Alter>(
    tx: &mut Transaction<'_, S>,
    schema: &[u8],
    table: &[u8],
) -> Result<usize, Error>
    ensures named { (names : Names) → TurnsInto S.Store tx.old.conn tx.new.conn result
        (IsNaming names) (IsNaming (set.insert names (schema.now, table.now))) }
    ensures added { (names : Names) → Within S.Store tx.old.conn tx.new.conn (λ old new.
        AreNames (follow_rows old.now) names
        → OnOk result (StoresNames old new (set.insert names (schema.now, table.now)))) }
    ensures stays { Stays S.Store tx.old.conn tx.new.conn result }
{
    tx.execute(
        "INSERT INTO follow VALUES (?1, ?2)",
        &[ValueRef::Blob(schema), ValueRef::Blob(table)],
    )
}

/// Inserts the names that a filter does not admit, where it is the one that is stored.
pub(crate) fn add_missing<S: Alter>(
    tx: &mut Transaction<'_, S>,
    following: &Follow,
    names: &[(Vec<u8>, Vec<u8>)],
) -> Result<(), Error>
    ensures named { Within S.Store tx.old.conn tx.new.conn (λ old new.
        AreNames (follow_rows old.now) following.now
        → OnOk result (StoresNames old new (widened following.now (set.from_list
        (name_list names.now))))) }
    ensures stays { Stays S.Store tx.old.conn tx.new.conn result }
{
    for name in names {
        add_if_missing(tx, following, name.0.as_slice(), name.1.as_slice())?;
    }
    Ok(())
}

/// Inserts the name of a table, unless a filter admits it.
fn add_if_missing<S: Alter>(
    tx: &mut Transaction<'_, S>,
    following: &Follow,
    schema: &[u8],
    table: &[u8],
) -> Result<(), Error>
    ensures named { (so_far : Names) → Within S.Store tx.old.conn tx.new.conn (λ old new.
        AreNames (follow_rows old.now) (widened following.now so_far)
        → OnOk result (StoresNames old new (widened following.now (set.insert so_far
        (schema.now, table.now))))) }
    ensures stays { Stays S.Store tx.old.conn tx.new.conn result }
{
    if following.follows(schema, table) {
        return Ok(());
    }
    add_name(tx, schema, table)?;
    Ok(())
}

/// The filter in `follow`.
pub(crate) fn load_follow<S: Alter>(
    alloc: Global,
    conn: &mut Connection<S>,
) -> Result<Follow, StoreFault>
    ensures { ReadsAll all_follow_text (state S.Store conn.old)
        (state S.Store conn.new) result AreNames (AllByRecursion IsFollowRow) }
{
    let rows = read_all(conn, ALL)?;
    filter_from(alloc, &rows)
}

/// The filter in the rows of `follow`.
pub(crate) fn filter_from(alloc: Global, rows: &[Row]) -> Result<Follow, StoreFault>
    ensures { Judges result (AreNames rows.now) (AllByRecursion IsFollowRow rows.now) }
{
    let Some(names) = names_in(alloc, rows)? else {
        return Err(StoreFault::Damaged);
    };
    match Follow::new(alloc, &names) {
        Ok(filter) => Ok(filter),
        Err(_) => Err(StoreFault::Memory),
    }
}

/// The names of tables in the rows, if all are lawful rows of `follow`.
pub(crate) fn names_in(
    alloc: Global,
    rows: &[Row],
) -> Result<Option<Vec<(Vec<u8>, Vec<u8>)>>, StoreFault>
    ensures { MatchResult result (λ o. MatchOption o (¬ AllByRecursion IsFollowRow rows.now)
        (λ names. AllByRecursion IsFollowRow rows.now
        × (name_list names.items ≡ map name_in rows.now))) IsFailure }
{
    let mut names = Vec::new(alloc);
    for row in rows {
        let Ok(name) = name_of(alloc, row)? else {
            return Ok(None);
        };
        names.push(name)?;
    }
    Ok(Some(names))
}

/// The name of a table in a row, or the rule of `follow` that the row breaks.
pub(crate) fn name_of(
    alloc: Global,
    row: &Row,
) -> Result<Result<(Vec<u8>, Vec<u8>), &'static str>, StoreFault>
    ensures { MatchResult result (λ o. MatchResult o (λ name. IsFollowRow row.now
        × ((name.0.items, name.1.items) ≡ name_in row.now)) (λ _. ¬ IsFollowRow row.now))
        IsFailure }
{
    if row.column_count() != 3 {
        return Ok(Err(FORM));
    }
    let ValueRef::Int(_) = row.get_ref(0)? else {
        return Ok(Err(FORM));
    };
    let ValueRef::Blob(schema) = row.get_ref(1)? else {
        return Ok(Err("schema_name is not a BLOB"));
    };
    let ValueRef::Blob(table) = row.get_ref(2)? else {
        return Ok(Err("table_name is not a BLOB"));
    };
    Ok(Ok((
        Vec::from_slice(alloc, schema)?,
        Vec::from_slice(alloc, table)?,
    )))
}

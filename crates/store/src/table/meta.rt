//! The table `meta`: which layout the tables have.

ghost use Rattle.std.specs.Prelude.{◌≡◌, [], pos, true, false, IfOk, None, ◌<◌, MatchBool, MatchOption, codes};
ghost use Rattle.sqlite.specs.State.{HasCleanDisk};
ghost use Rattle.sqlite.specs.Held.{state};
ghost use Rattle.store.specs.State.{Content};
ghost use Rattle.store.specs.Inside.{Stays, TurnsInto};
ghost use Rattle.store.specs.Making.{with_meta, new_layout, IsMaking, IsNaming};
ghost use Rattle.store.specs.Migrating.{HasBare, IsMigrating};
ghost use Rattle.std.specs.List.{AllByRecursion};
ghost use Rattle.store.specs.Layout.{HasMeta};
ghost use Rattle.store.specs.Rows.{meta_rows, IsMetaRow, is_text};
ghost use Rattle.store.specs.Judge.{IsMeta, IsOnly, layouts};
ghost use Rattle.store.specs.Load.{IsCalm, Looks};
ghost use Rattle.sqlite_value.specs.Order.{column};
ghost use Rattle.sqlite_value.specs.declared.value.Value.TheVariants.{Int};
ghost use Rattle.std.specs.FinSet as set;

use crate::table::row::{FORM, check_rowids, read_all};
use sqlite::types::ValueRef;
use sqlite::{Alter, Connection, Error, Row, Transaction};

/// All rows, in the order in which they are read.
pub(crate) const ALL: &str = "SELECT rowid, k, v FROM meta ORDER BY rowid";

/// What the rows of `meta` say.
#[derive(Clone, Copy, Debug)]
pub(crate) struct Meta {
    /// The layout number. `None` unless exactly one row has the key `layout`, with a whole number.
    pub(crate) layout: Option<i64>,
    /// Whether all rows are lawful rows of `meta`.
    pub(crate) lawful: bool,
}

pub(crate) fn make_meta<S: Alter>(tx: &mut Transaction<'_, S>) -> Result<usize, Error>
    ensures made { TurnsInto S.Store tx.old.conn tx.new.conn result
        (IsMaking []) (IsMaking with_meta) }
    ensures stays { Stays S.Store tx.old.conn tx.new.conn result }
{
    tx.execute(
        "CREATE TABLE meta (k TEXT PRIMARY KEY, v INTEGER NOT NULL)",
        &[],
    )
}

/// Records that the tables have layout 2.
pub(crate) fn set_layout<S: Alter>(tx: &mut Transaction<'_, S>) -> Result<usize, Error>
    ensures made { TurnsInto S.Store tx.old.conn tx.new.conn result
        (IsMaking new_layout) (IsNaming set.empty) }
    ensures stays { Stays S.Store tx.old.conn tx.new.conn result }
{
    tx.execute("INSERT INTO meta VALUES ('layout', 2)", &[])
}

/// Records that the tables have layout 2. Other rows of `meta` stay.
pub(crate) fn raise_layout<S: Alter>(tx: &mut Transaction<'_, S>) -> Result<usize, Error>
    ensures migrated { (content : Content) → TurnsInto S.Store tx.old.conn tx.new.conn result
        (IsMigrating HasBare (pos 1) content) (IsMigrating HasBare (pos 2) content) }
    ensures stays { Stays S.Store tx.old.conn tx.new.conn result }
{
    tx.execute("UPDATE meta SET v = 2 WHERE k = 'layout'", &[])
}

/// What the rows of `meta` say.
pub(crate) fn read_meta<S: Alter>(conn: &mut Connection<S>) -> Result<Meta, Error>
    ensures says { HasCleanDisk (state S.Store conn.new)
        → HasMeta (state S.Store conn.old).now.schema
        → IfOk result (IsMeta (meta_rows (state S.Store conn.old).now)) }
    ensures looks { Looks (HasMeta (state S.Store conn.old).now.schema)
        (state S.Store conn.old) (state S.Store conn.new) result }
    ensures calm { IsCalm (state S.Store conn.old) (state S.Store conn.new) }
{
    let rows = read_all(conn, ALL)?;
    meta_in(&rows)
}

/// What rows of `meta` say.
pub(crate) fn meta_in(rows: &[Row]) -> Result<Meta, Error>
    ensures { IfOk result (IsMeta rows.now) }
{
    check_rowids(rows)?;
    let layout = layout_in(rows)?;
    let lawful = are_meta(rows)?;
    Ok(Meta { layout, lawful })
}

/// The number in the one row with the key `layout`.
pub(crate) fn layout_in(rows: &[Row]) -> Result<Option<i64>, Error>
    ensures { IfOk result (IsOnly (layouts rows.now)) }
{
    let mut found = None;
    for row in rows {
        if !is_layout(row)? {
            continue;
        }
        if found.is_some() {
            return Ok(None);
        }
        let ValueRef::Int(n) = row.get_ref(2)? else {
            return Ok(None);
        };
        found = Some(n);
    }
    Ok(found)
}

const LAYOUT: &[u8] = b"layout";

/// Whether a row of `meta` has the key `layout`.
pub(crate) fn is_layout(row: &Row) -> Result<bool, Error>
    ensures { IfOk result (λ b. b ≡ is_text (codes "layout") (column row.now 1)) }
{
    let ValueRef::Text(key) = row.get_ref(1)? else {
        return Ok(false);
    };
    Ok(key == LAYOUT)
}

/// Whether all rows are lawful rows of `meta`.
pub(crate) fn are_meta(rows: &[Row]) -> Result<bool, Error>
    ensures { IfOk result (λ b. MatchBool b (AllByRecursion IsMetaRow rows.now)
        (¬ AllByRecursion IsMetaRow rows.now)) }
{
    for row in rows {
        if let Some(_) = meta_rule(row)? {
            return Ok(false);
        }
    }
    Ok(true)
}

/// The rule of `meta` that a row breaks, if it breaks one.
pub(crate) fn meta_rule(row: &Row) -> Result<Option<&'static str>, Error>
    ensures { IfOk result (λ o. MatchOption o (IsMetaRow row.now) (λ _. ¬ IsMetaRow row.now)) }
{
    if row.column_count() != 3 {
        return Ok(Some(FORM));
    }
    let ValueRef::Int(_) = row.get_ref(0)? else {
        return Ok(Some(FORM));
    };
    let ValueRef::Text(_) = row.get_ref(1)? else {
        return Ok(Some("k is not a text"));
    };
    let ValueRef::Int(_) = row.get_ref(2)? else {
        return Ok(Some("v is not a whole number"));
    };
    Ok(None)
}

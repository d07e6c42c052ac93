//! The table `executed`, which layout 1 has in place of `spans`: a row for each GTID.

ghost use Rattle.std.specs.Prelude.{◌≡◌, pos, map, IfOk, None, ◌<◌, MatchOption, MatchResult, []};
ghost use Rattle.std.specs.List.{AllByRecursion};
ghost use Rattle.sqlite.specs.Held.{state};
ghost use Rattle.store.specs.Rows.{IsExecutedRow, id_in};
ghost use Rattle.store.specs.Load.{ReadsAll, Judges, all_executed_text};
ghost use Rattle.gtid.specs.declared.span.Span.{Span};
ghost use Rattle.sqlite_value.specs.declared.value.Value.TheVariants.{Int};
ghost use Rattle.store.specs.Faults.{IsFailure};
ghost use Rattle.store.specs.Judge.{span_of_id};
ghost use Rattle.store.specs.State.{Content};
ghost use Rattle.store.specs.Inside.{Stays, TurnsInto};
ghost use Rattle.store.specs.Migrating.{HasTables, IsFirstInside, IsMigrating};
ghost use Rattle.std.specs.FinSet as set;

use crate::fault::StoreFault;
use crate::table::row::{FORM, MOST, SOURCE, number_at, read_all, source_of};
use crate::table::spans::union_of;
use gtid::{GtidSet, Span};
use sqlite::types::ValueRef;
use sqlite::{Alter, Connection, Error, Row, Transaction};
use std::alloc::Global;

/// All rows, in the order in which they are read.
pub(crate) const ALL: &str = "SELECT rowid, source, number FROM executed ORDER BY rowid";

const NUMBER: &str = "number is not from 1 to 9223372036854775806";

/// The set in `executed`.
pub(crate) fn load_executed<S: Alter>(
    alloc: Global,
    conn: &mut Connection<S>,
) -> Result<GtidSet, StoreFault>
    ensures { ReadsAll all_executed_text (state S.Store conn.old)
        (state S.Store conn.new) result (λ rows ids. AllByRecursion IsExecutedRow rows
        × (ids ≡ set.from_list (map id_in rows))) (AllByRecursion IsExecutedRow) }
{
    let rows = read_all(conn, ALL)?;
    executed_from(alloc, &rows)
}

/// The set of the rows of `executed`.
pub(crate) fn executed_from(alloc: Global, rows: &[Row]) -> Result<GtidSet, StoreFault>
    ensures { Judges result (λ ids. AllByRecursion IsExecutedRow rows.now
        × (ids ≡ set.from_list (map id_in rows.now))) (AllByRecursion IsExecutedRow rows.now) }
{
    let Some(spans) = ids_of(alloc, rows)? else {
        return Err(StoreFault::Damaged);
    };
    union_of(alloc, spans)
}

/// The GTIDs of the rows as spans, if all are lawful rows of `executed`.
pub(crate) fn ids_of(alloc: Global, rows: &[Row]) -> Result<Option<Vec<Span>>, StoreFault>
    ensures { MatchResult result (λ o. MatchOption o (¬ AllByRecursion IsExecutedRow rows.now)
        (λ spans. AllByRecursion IsExecutedRow rows.now
        × (spans.items ≡ map (λ r. span_of_id (id_in r)) rows.now))) IsFailure }
{
    let mut spans = Vec::new(alloc);
    for row in rows {
        let Ok(span) = id_of(row)? else {
            return Ok(None);
        };
        spans.push(span)?;
    }
    Ok(Some(spans))
}

/// The GTID of a row as a span, or the rule of `executed` that the row breaks.
pub(crate) fn id_of(row: &Row) -> Result<Result<Span, &'static str>, Error>
    ensures { IfOk result (λ o. MatchResult o (λ s. IsExecutedRow row.now
        × (s ≡ span_of_id (id_in row.now))) (λ _. ¬ IsExecutedRow row.now)) }
{
    if row.column_count() != 3 {
        return Ok(Err(FORM));
    }
    let ValueRef::Int(_) = row.get_ref(0)? else {
        return Ok(Err(FORM));
    };
    let ValueRef::Blob(source) = row.get_ref(1)? else {
        return Ok(Err(SOURCE));
    };
    let Some(source) = source_of(source) else {
        return Ok(Err(SOURCE));
    };
    let Some(lo) = number_at(row, 2)? else {
        return Ok(Err(NUMBER));
    };
    if lo >= MOST {
        return Ok(Err(NUMBER));
    }
    Ok(Ok(Span {
        source,
        lo,
        hi: lo + 1,
    }))
}

pub(crate) fn drop_executed<S: Alter>(tx: &mut Transaction<'_, S>) -> Result<usize, Error>
    ensures migrated { (content : Content) → TurnsInto S.Store tx.old.conn tx.new.conn result
        (IsFirstInside content) (IsMigrating (HasTables []) (pos 1) content) }
    ensures stays { Stays S.Store tx.old.conn tx.new.conn result }
{
    tx.execute("DROP TABLE executed", &[])
}

//! The changes of a transaction of the source, as one transaction of the database.

ghost use Rattle.std.specs.Prelude.{◌≡◌, true, false, is_none, IfOk, IfSome, OnOk, Ok, None};
ghost use Rattle.sqlite.specs.State.{HasCleanDisk, IsUnchanged, Survives};
ghost use Rattle.sqlite.specs.Held.{state};
ghost use Rattle.gather.specs.View.{delivery_value};
ghost use Rattle.gtid.specs.Span.{IsLawfulSpan};
ghost use Rattle.store.specs.State.{Content};
ghost use Rattle.store.specs.Inside.{DoesIn, WasOpen, Stays, Within};
ghost use Rattle.store.specs.Apply.{Fills, IsNew, IsRun, Rests};
ghost use Rattle.store.specs.AnyOrder.{AreInserts};

use crate::inserts::{SortedInserts, insert_all, sorted_inserts};
use crate::row_change::{Refusal, make_all};
use crate::table::spans::record;
use binlog::Follow;
use gather::{Changes, Delivery};
use gtid::Beside;
use sqlite::{Alter, Connection, Error, Transaction};
use std::alloc::Global;

/// Makes the changes in order, or adds the sorted rows, which comes to the same where none is refused. Returns which change
/// is refused and why; of sorted rows only that one is, and nothing of which and why.
fn make_changes<S: Alter>(
    tx: &mut Transaction<'_, S>,
    filter: &Follow,
    changes: &Changes,
    sorted: Option<&SortedInserts<'_>>,
) -> Result<Option<(usize, Refusal)>, Error>
    requires { IfSome sorted (λ s. AreInserts filter.now changes.now s.now) }
    ensures does { Within S.Store tx.old.conn tx.new.conn (λ old new.
        IfOk result (DoesIn (is_none sorted.entry) filter.now changes.now old new)) }
    ensures stays { Stays S.Store tx.old.conn tx.new.conn result }
{
    let Some(sorted) = sorted else {
        return make_all(tx, filter, changes);
    };
    if !insert_all(tx, sorted.schema, sorted.table, sorted.images.as_slice())? {
        return Ok(Some((0, Refusal::CountFull)));
    }
    Ok(None)
}

/// Makes the changes and records the GTID, or returns which change is refused and why, as `make_changes` does.
fn fill<S: Alter>(
    tx: &mut Transaction<'_, S>,
    filter: &Follow,
    delivery: &Delivery,
    beside: &Beside,
    sorted: Option<&SortedInserts<'_>>,
) -> Result<Option<(usize, Refusal)>, Error>
    requires sorted { IfSome sorted (λ s. AreInserts filter.now delivery.now.changes s.now) }
    requires below { IfSome beside.now.below IsLawfulSpan }
    requires above { IfSome beside.now.above IsLawfulSpan }
    ensures fills { Within S.Store tx.old.conn tx.new.conn (λ old new.
        (content : Content)
        → IsNew old.now filter.now content (delivery_value delivery.now) beside.now
        → IfOk result (Fills (is_none sorted.entry) filter.now content (delivery_value delivery.now)
        old new)) }
    ensures stays { Stays S.Store tx.old.conn tx.new.conn result }
{
    if let Some(refused) = make_changes(tx, filter, &delivery.changes, sorted)? {
        return Ok(Some(refused));
    }
    record(tx, delivery.gtid, beside)?;
    Ok(None)
}

/// Runs `fill` in a transaction of its own, which is rolled back if a change is refused or a statement fails.
fn run_once<S: Alter>(
    conn: &mut Connection<S>,
    filter: &Follow,
    delivery: &Delivery,
    beside: &Beside,
    sorted: Option<&SortedInserts<'_>>,
) -> Result<Option<(usize, Refusal)>, Error>
    requires autocommit { conn.old.in_transaction ≡ false }
    requires sorted { IfSome sorted (λ s. AreInserts filter.now delivery.now.changes s.now) }
    requires below { IfSome beside.now.below IsLawfulSpan }
    requires above { IfSome beside.now.above IsLawfulSpan }
    ensures { IsRun (is_none sorted.entry) filter.now (delivery_value delivery.now) beside.now
        (state S.Store conn.old) (state S.Store conn.new) result }
{
    let mut tx = conn.transaction();
    if let Some(refused) = fill(&mut tx, filter, delivery, beside, sorted)? {
        return Ok(Some(refused));
    }
    tx.commit()?;
    Ok(None)
}

/// Fails if the connection is not open, as it may be after a roll back.
pub(crate) fn check_open<S: Alter>(conn: &mut Connection<S>) -> Result<(), Error>
    ensures same { HasCleanDisk (state S.Store conn.new)
        → OnOk result (IsUnchanged (state S.Store conn.old) (state S.Store conn.new)) }
    ensures rests { HasCleanDisk (state S.Store conn.new)
        → (state S.Store conn.old).now ≡ (state S.Store conn.old).committed
        → Rests (state S.Store conn.old) (state S.Store conn.new) }
    ensures opened { HasCleanDisk (state S.Store conn.new)
        → WasOpen (state S.Store conn.old) (state S.Store conn.new) }
    ensures survives { Survives (state S.Store conn.old) (state S.Store conn.new) (λ _. ⊥) }
    ensures autocommit { conn.old.in_transaction ≡ false → conn.new.in_transaction ≡ false }
{
    if let Err(error) = conn.prepare("SELECT n FROM held") {
        return Err(error);
    }
    Ok(())
}

/// Makes the changes and records the GTID in one transaction, or changes nothing and returns which change is refused and
/// why. Eight rows and more that are only added to one table, which the filter admits, are inserted in the order of their
/// keys, if there is memory to sort them. If one of them is refused, that transaction is rolled back, and another one makes
/// the changes in order, up to the one that is refused.
pub(crate) fn run<S: Alter>(
    alloc: Global,
    conn: &mut Connection<S>,
    filter: &Follow,
    delivery: &Delivery,
    beside: &Beside,
) -> Result<Option<(usize, Refusal)>, Error>
    requires autocommit { conn.old.in_transaction ≡ false }
    requires below { IfSome beside.now.below IsLawfulSpan }
    requires above { IfSome beside.now.above IsLawfulSpan }
    ensures { IsRun true filter.now (delivery_value delivery.now) beside.now
        (state S.Store conn.old) (state S.Store conn.new) result }
{
    let Some(sorted) = sorted_inserts(alloc, filter, &delivery.changes) else {
        return run_once(conn, filter, delivery, beside, None);
    };
    if run_once(conn, filter, delivery, beside, Some(&sorted))?.is_none() {
        return Ok(None);
    }
    drop(sorted); // its memory may be needed now
    check_open(conn)?;
    run_once(conn, filter, delivery, beside, None)
}

//! What the row tests of the tables share.

ghost use Rattle.std.specs.Prelude.{◌≡◌, true, ◌<◌, ◌≤◌, pos, ℕ, IfOk, OnOk, IfSome, IfNone, MatchOption, [], false};
ghost use Rattle.std.specs.List.{AllByRecursion};
ghost use Rattle.store.specs.Changes.{most};
ghost use Rattle.gtid.specs.Identifier.{IsSource, id};
ghost use Rattle.store.specs.Rows.{HasRowids};
ghost use Rattle.sqlite_value.specs.Order.{column};
ghost use Rattle.sqlite_value.specs.declared.value.Value.TheVariants.{Int};
ghost use Rattle.store.specs.Judge.{IsAfter};
ghost use Rattle.sqlite.specs.Held.{state};
ghost use Rattle.store.specs.Load.{ReadsRows};

use sqlite::types::ValueRef;
use sqlite::{Alter, Connection, Error, ErrorCode, Row};

/// What is said of a row with other columns than its statement asks for. No database gives one.
pub(crate) const FORM: &str = "it has other columns";

/// What is said of a source that is no UUID.
pub(crate) const SOURCE: &str = "source is not a BLOB of 16 bytes";

/// The greatest number that a table has: 2^63 - 1.
pub(crate) const MOST: u64 = 9_223_372_036_854_775_807;

/// The number in a column, if it is from 1 to 2^63 - 1.
pub(crate) fn number_at(row: &Row, at: usize) -> Result<Option<u64>, Error>
    ensures { IfOk result (λ o. MatchOption o ((k : ℕ) → column row.now at ≡ Int (pos k) → 1 ≤ k
        → k ≤ most → ⊥) (λ k. (column row.now at ≡ Int (pos k)) × (1 ≤ k) × (k ≤ most))) }
{
    let number: u64 = match row.get(at) {
        Ok(number) => number,
        Err(Error::SqliteFailure(ErrorCode::OutOfMemory)) => {
            return Err(Error::SqliteFailure(ErrorCode::OutOfMemory));
        }
        Err(_) => return Ok(None),
    };
    if number == 0 {
        return Ok(None);
    }
    if number > MOST {
        return Ok(None);
    }
    Ok(Some(number))
}

/// The source with these bytes, if there are sixteen.
pub(crate) fn source_of(bytes: &[u8]) -> Option<[u8; 16]>
    ensures some { IfSome result (λ source. (source ≡ bytes.now) × IsSource bytes.now) }
    ensures none { IfNone result (¬ IsSource bytes.now) }
{
    let Ok(source) = <[u8; 16]>::try_from(bytes) else {
        return None;
    };
    is_source(source);
    Some(source)
}

/// For the prover: a source has sixteen bytes, each below 256. It does nothing at run time.
pub(crate) fn is_source(source: [u8; 16])
    ensures { IsSource source }
{
    are_bytes(&source);
}

/// For the prover: each item of a byte slice is below 256. It does nothing at run time.
fn are_bytes(bytes: &[u8])
    ensures { AllByRecursion (λ b. b < 256) bytes.now }
{
    let _len = bytes.len();
}

/// Checks that the rowids are integers and ascend. No file that the `sqlite` crate opens breaks this.
pub(crate) fn check_rowids(rows: &[Row]) -> Result<(), Error>
    ensures { OnOk result (HasRowids rows.now) }
{
    if ascend(rows)? {
        Ok(())
    } else {
        Err(Error::SqliteFailure(ErrorCode::DatabaseCorrupt))
    }
}

/// Whether the rowids are integers and ascend.
fn ascend(rows: &[Row]) -> Result<bool, Error>
    ensures { IfOk result (λ b. b ≡ true → HasRowids rows.now) }
{
    let mut last = None;
    for row in rows {
        let ValueRef::Int(id) = row.get_ref(0)? else {
            return Ok(false);
        };
        if !is_after(last, id) {
            return Ok(false);
        }
        last = Some(id);
    }
    Ok(true)
}

/// Whether a rowid is above the last one, if there is one.
pub(crate) fn is_after(last: Option<i64>, id: i64) -> bool
    ensures { result ≡ true → IsAfter last id }
{
    match last {
        Some(last) => last < id,
        None => true,
    }
}

/// All rows of a table, read by this statement.
pub(crate) fn read_all<S: Alter>(conn: &mut Connection<S>, sql: &str) -> Result<Vec<Row>, Error>
    ensures { ReadsRows sql.now (state S.Store conn.old) (state S.Store conn.new) result
        (λ rows. rows.items) }
{
    // For the prover: it names the schema in the proof. The call does nothing at run time.
    conn.schema();
    conn.query_all(sql, &[])
}

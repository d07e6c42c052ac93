//! The table `held`: the rows of the source, each with the number of its copies.

ghost use Rattle.std.specs.Prelude.{◌≡◌, ◌+◌, ◌<◌, ◌≤◌, ◌^◌, pos, ℕ, true, false, Ok, Err, IsOk, IfOk, IfErr, IfSome, OnOk, IsPermutation, map, filter, [], ◌∷◌, Some, ◌++◌, List, MatchBool, MatchOption, MatchResult};
ghost use Rattle.sqlite.specs.State.{HasCleanDisk, IsUnchanged, IsLive};
ghost use Rattle.sqlite.specs.Held.{state};
ghost use Rattle.sqlite_value.specs.Order.{column, Row as RowValue};
ghost use Rattle.store.specs.Changes.{most};
ghost use Rattle.store.specs.Rows.{key_in, key_of, Finds, IsCount, held_rows, count, with_one, without_one, is_at, HasRowids, IsHeldRow};
ghost use Rattle.store.specs.Inside.{HasCounts, Inserts, Deletes, Stays, Within, TurnsInto};
ghost use Rattle.store.specs.Making.{with_meta, with_held, IsMaking};
ghost use Rattle.std.specs.List.{AllByRecursion};
ghost use Rattle.store.specs.Layout.{IsLaidOut};
ghost use Rattle.store.specs.Load.{ReadsAll, Rested, Judges, IsLoadFault, all_held_text, HasJudged, Looks, ReadsOn};
ghost use Rattle.sqlite.specs.Given.{HasGiven};
ghost use Rattle.store.specs.Faults.{IsFailure};
ghost use Rattle.store.specs.Judge.{HasVerdict, HasOrder};
ghost use Rattle.gather.specs.Image.{IsSomeImage};
ghost use Rattle.sqlite_value.specs.declared.value.Value.TheVariants.{Int};

use crate::fault::StoreFault;
use crate::table::row::{FORM, is_after, number_at};
use binlog::TableDef;
use gather::ImageRef;
use sqlite::types::ValueRef;
use sqlite::{Alter, Connection, Error, ErrorCode, Row, Rows, Transaction};
use sqlite_schema::schema::Constraint;

/// All rows, in the order in which they are read.
pub(crate) const ALL: &str =
    "SELECT rowid, schema_name, table_name, image, n FROM held ORDER BY rowid";

/// The count of the row with a key.
const COUNT_OF: &str =
    "SELECT n FROM held WHERE schema_name = ?1 AND table_name = ?2 AND image = ?3";

/// The key of a row of `held`: the names of schema and table, and the stored image.
#[derive(Clone, Copy)]
pub(crate) struct RowKey<'a> {
    pub(crate) schema: &'a [u8],
    pub(crate) table: &'a [u8],
    pub(crate) image: &'a [u8],
}

impl<'a> RowKey<'a> {
    ghost use Rattle.std.specs.Prelude.{◌≡◌};
    ghost use Rattle.gather.specs.Image.{IsImage};

    /// The key of a row of a table.
    pub(crate) fn of(table: &'a TableDef, image: &ImageRef<'a>) -> RowKey<'a>
        ensures schema { result.schema.now ≡ table.now.schema.items }
        ensures table { result.table.now ≡ table.now.table.items }
        ensures image { IsImage image.now result.image.now }
    {
        RowKey {
            schema: table.schema.as_slice(),
            table: table.table.as_slice(),
            image: image.bytes(),
        }
    }
}

pub(crate) fn make_held<S: Alter>(tx: &mut Transaction<'_, S>) -> Result<usize, Error>
    ensures made { TurnsInto S.Store tx.old.conn tx.new.conn result
        (IsMaking with_meta) (IsMaking with_held) }
    ensures stays { Stays S.Store tx.old.conn tx.new.conn result }
{
    tx.execute(
        "CREATE TABLE held (schema_name BLOB NOT NULL, table_name BLOB NOT NULL, image BLOB NOT NULL, n INTEGER NOT NULL CHECK (n > 0), PRIMARY KEY (schema_name, table_name, image))",
        &[],
    )
}

/// Checks the rows of `held`, one at a time.
pub(crate) fn load_held<S: Alter>(conn: &mut Connection<S>) -> Result<(), StoreFault>
    ensures { ReadsAll all_held_text (state S.Store conn.old) (state S.Store conn.new) result
        (λ rows _. AllByRecursion IsHeldRow rows × HasRowids rows)
        (AllByRecursion IsHeldRow) }
{
    // For the prover: what the connection shows is a database. The call does nothing at run time.
    conn.schema();
    let mut rows = conn.query(ALL, &[])?;
    let verdict = judge_rows(&mut rows)?;
    answer(verdict)
}

/// What was found in the rows of `held` so far.
#[derive(Clone, Copy, Debug)]
pub(crate) enum Verdict {
    /// All are lawful, and their rowids ascend up to this one. `None` before the first row.
    Lawful(Option<i64>),
    /// All are lawful, but a rowid is not above the one before it.
    Unordered,
    /// One is not a lawful row of `held`.
    Unlawful,
}

/// The verdict on all rows of a query, which are read one at a time, up to the last one.
pub(crate) fn judge_rows<S: Alter>(rows: &mut Rows<'_, S>) -> Result<Verdict, StoreFault>
    ensures reads { ReadsOn S.Store rows.old.conn rows.new.conn }
    ensures judged { HasCleanDisk (state S.Store rows.new.conn.now) → (sql : _)
        → HasGiven S.Store sql [] rows.old.conn.now [] → IsLive (state S.Store rows.old.conn.now)
        → IfOk result (HasJudged sql (state S.Store rows.old.conn.now)
        (state S.Store rows.new.conn.now)) }
    ensures rested { HasCleanDisk (state S.Store rows.new.conn.now)
        → Rested (state S.Store rows.old.conn.now) (state S.Store rows.new.conn.now) }
    ensures fault { IfErr result IsFailure }
{
    let mut verdict = Verdict::Lawful(None);
    // A `for`, since the prover asks that each loop ends.
    'rows: for _ in 0..u64::MAX {
        rows.advance()?;
        let Some(row) = rows.get() else {
            return Ok(verdict);
        };
        verdict = with_row(verdict, row)?;
    }
    Err(StoreFault::Database(Error::SqliteFailure(ErrorCode::DatabaseCorrupt)))
}

/// The verdict on the rows so far and one more. After an unlawful row no other is looked at.
fn with_row(verdict: Verdict, row: &Row) -> Result<Verdict, StoreFault>
    ensures judged { (rows : List RowValue) → HasVerdict verdict rows
        → IfOk result (λ after. HasVerdict after (rows ++ row.now ∷ [])) }
    ensures fault { IfErr result IsFailure }
{
    if let Verdict::Unlawful = verdict {
        return Ok(Verdict::Unlawful);
    }
    if let Some(_) = held_rule(row)? {
        return Ok(Verdict::Unlawful);
    }
    Ok(with_lawful(verdict, row)?)
}

/// The verdict on the rows so far and a lawful one.
fn with_lawful(verdict: Verdict, row: &Row) -> Result<Verdict, Error>
    ensures { (rows : List RowValue) → HasVerdict verdict rows → IsHeldRow row.now
        → IfOk result (λ after. HasVerdict after (rows ++ row.now ∷ [])) }
{
    match verdict {
        Verdict::Lawful(last) => ordered(last, row),
        Verdict::Unordered => Ok(Verdict::Unordered),
        Verdict::Unlawful => Ok(Verdict::Unlawful),
    }
}

/// The verdict on a lawful row, after lawful ones up to this rowid.
fn ordered(last: Option<i64>, row: &Row) -> Result<Verdict, Error>
    ensures { IfOk result (HasOrder last row.now) }
{
    let ValueRef::Int(id) = row.get_ref(0)? else {
        return Ok(Verdict::Unordered);
    };
    if !is_after(last, id) {
        return Ok(Verdict::Unordered);
    }
    Ok(Verdict::Lawful(Some(id)))
}

/// What an opening reports of the rows. No file that the `sqlite` crate opens is `Unordered`.
pub(crate) fn answer(verdict: Verdict) -> Result<(), StoreFault>
    ensures judged { (rows : List RowValue) → HasVerdict verdict rows
        → Judges result (λ _. AllByRecursion IsHeldRow rows
        × HasRowids rows) (AllByRecursion IsHeldRow rows) }
    ensures fault { IfErr result IsLoadFault }
{
    match verdict {
        Verdict::Lawful(_) => Ok(()),
        Verdict::Unordered => Err(StoreFault::Database(Error::SqliteFailure(
            ErrorCode::DatabaseCorrupt,
        ))),
        Verdict::Unlawful => Err(StoreFault::Damaged),
    }
}

/// The rule of `held` that a row breaks, if it breaks one.
pub(crate) fn held_rule(row: &Row) -> Result<Option<&'static str>, StoreFault>
    ensures { MatchResult result (λ o. MatchOption o (IsHeldRow row.now)
        (λ _. ¬ IsHeldRow row.now)) IsFailure }
{
    if row.column_count() != 5 {
        return Ok(Some(FORM));
    }
    let ValueRef::Int(_) = row.get_ref(0)? else {
        return Ok(Some(FORM));
    };
    let ValueRef::Blob(_) = row.get_ref(1)? else {
        return Ok(Some("schema_name is not a BLOB"));
    };
    let ValueRef::Blob(_) = row.get_ref(2)? else {
        return Ok(Some("table_name is not a BLOB"));
    };
    let ValueRef::Blob(image) = row.get_ref(3)? else {
        return Ok(Some("image is not a BLOB"));
    };
    let Some(_) = number_at(row, 4)? else {
        return Ok(Some("n is not from 1 to 9223372036854775807"));
    };
    if !is_image(image) {
        return Ok(Some("image is not a stored image"));
    }
    Ok(None)
}

/// Whether the bytes are a stored image.
fn is_image(bytes: &[u8]) -> bool
    ensures { MatchBool result (IsSomeImage bytes.now) (¬ IsSomeImage bytes.now) }
{
    ImageRef::read(bytes).is_some()
}

/// The rows with the count of a key: one, or none.
fn look_up<S: Alter>(tx: &mut Transaction<'_, S>, row: &RowKey<'_>) -> Result<Vec<Row>, Error>
    ensures shown { Within S.Store tx.old.conn tx.new.conn (λ old _.
        IfOk result (λ rows. IsPermutation (map (λ r. column r 4 ∷ []) (filter (is_at (key_in
        row.now)) (held_rows old.now))) rows.items)) }
    ensures same { Within S.Store tx.old.conn tx.new.conn (λ old new.
        OnOk result (IsUnchanged old new)) }
    ensures stays { Stays S.Store tx.old.conn tx.new.conn result }
{
    tx.query_all(
        COUNT_OF,
        &[
            ValueRef::Blob(row.schema),
            ValueRef::Blob(row.table),
            ValueRef::Blob(row.image),
        ],
    )
}

/// The rows with the count of a key: one, or none.
fn find<S: Alter>(conn: &mut Connection<S>, row: &RowKey<'_>) -> Result<Vec<Row>, Error>
    ensures shown { HasCleanDisk (state S.Store conn.new)
        → IsLaidOut (state S.Store conn.old).now.schema
        → IfOk result (λ rows. IsPermutation (map (λ r. column r 4 ∷ [])
        (filter (is_at (key_in row.now)) (held_rows (state S.Store conn.old).now))) rows.items) }
    ensures looks { Looks (IsLaidOut (state S.Store conn.old).now.schema)
        (state S.Store conn.old) (state S.Store conn.new) result }
{
    conn.query_all(
        COUNT_OF,
        &[
            ValueRef::Blob(row.schema),
            ValueRef::Blob(row.table),
            ValueRef::Blob(row.image),
        ],
    )
}

/// The count in the rows of an answer, of which there is at most one.
pub(crate) fn one_count(rows: &[Row]) -> Result<Option<u64>, Error>
    ensures is { IfOk result (IsCount rows.now) }
    ensures fits { IfOk result (λ found. IfSome found (λ n. n < 2 ^ 63)) }
{
    match rows {
        [] => Ok(None),
        [row] => {
            let n: i64 = row.get(0)?;
            match u64::try_from(n) {
                Ok(n) => Ok(Some(n)),
                Err(_) => Err(Error::IntegralValueOutOfRange(0)),
            }
        }
        _ => Err(Error::InvalidQuery),
    }
}

/// The count of a row, if it is there.
pub(crate) fn read<S: Alter>(
    tx: &mut Transaction<'_, S>,
    row: &RowKey<'_>,
) -> Result<Option<u64>, Error>
    ensures fits { IfOk result (λ found. IfSome found (λ n. n < 2 ^ 63)) }
    ensures found { Within S.Store tx.old.conn tx.new.conn (λ old _.
        IfOk result (Finds (key_in row.now) (held_rows old.now))) }
    ensures same { Within S.Store tx.old.conn tx.new.conn (λ old new.
        OnOk result (IsUnchanged old new)) }
    ensures stays { Stays S.Store tx.old.conn tx.new.conn result }
{
    let rows = look_up(tx, row)?;
    one_count(rows.as_slice())
}

/// The number of copies of a row that is stored; 0 if it is not there.
pub(crate) fn count<S: Alter>(conn: &mut Connection<S>, row: &RowKey<'_>) -> Result<u64, Error>
    ensures counts { HasCleanDisk (state S.Store conn.new)
        → IsLaidOut (state S.Store conn.old).now.schema
        → IfOk result (λ n. n ≡ count (held_rows (state S.Store conn.old).now) (key_in row.now)) }
    ensures fits { IfOk result (λ n. n < 2 ^ 63) }
    ensures looks { Looks (IsLaidOut (state S.Store conn.old).now.schema)
        (state S.Store conn.old) (state S.Store conn.new) result }
{
    let rows = find(conn, row)?;
    let found = one_count(rows.as_slice())?;
    Ok(found.unwrap_or(0))
}

/// Inserts a row with the count 1 if it is not there, and returns whether it did.
pub(crate) fn insert<S: Alter>(tx: &mut Transaction<'_, S>, row: &RowKey<'_>) -> Result<bool, Error>
    ensures inserts { Within S.Store tx.old.conn tx.new.conn (λ old new.
        IfOk result (Inserts (key_in row.now ∷ []) old new)) }
    ensures stays { Stays S.Store tx.old.conn tx.new.conn result }
{
    let outcome = tx.execute(
        "INSERT INTO held VALUES (?1, ?2, ?3, 1)",
        &[
            ValueRef::Blob(row.schema),
            ValueRef::Blob(row.table),
            ValueRef::Blob(row.image),
        ],
    );
    inserted(outcome)
}

/// Whether an INSERT inserted its rows. If it did not, the key of the table refused one of them.
fn inserted(outcome: Result<usize, Error>) -> Result<bool, Error>
    ensures ok { result ≡ Ok true → IsOk outcome }
    ensures taken { result ≡ Ok false → outcome
        ≡ Err (Error.SqliteFailure (ErrorCode.ConstraintViolation Constraint.Unique)) }
    ensures err { IfErr result (λ error. outcome ≡ Err error) }
{
    match outcome {
        Ok(_) => Ok(true),
        Err(Error::SqliteFailure(ErrorCode::ConstraintViolation(Constraint::Unique))) => Ok(false),
        Err(error) => Err(error),
    }
}

/// Inserts eight rows of a table with the count 1 each, if none of them is there and no two are the same, and returns
/// whether it did. Any other number of rows it does not insert.
pub(crate) fn insert_eight<S: Alter>(
    tx: &mut Transaction<'_, S>,
    schema: &[u8],
    table: &[u8],
    images: &[&[u8]],
) -> Result<bool, Error>
    ensures inserts { Within S.Store tx.old.conn tx.new.conn (λ old new.
        IfOk result (Inserts (map (λ r. key_of schema.now table.now r.now) images.now) old new)) }
    ensures stays { Stays S.Store tx.old.conn tx.new.conn result }
{
    let [a, b, c, d, e, f, g, h] = images else {
        return Ok(false);
    };
    inserted(tx.execute(
        "INSERT INTO held VALUES (?1, ?2, ?3, 1), (?1, ?2, ?4, 1), (?1, ?2, ?5, 1), (?1, ?2, ?6, 1), (?1, ?2, ?7, 1), (?1, ?2, ?8, 1), (?1, ?2, ?9, 1), (?1, ?2, ?10, 1)",
        &[
            ValueRef::Blob(schema),
            ValueRef::Blob(table),
            ValueRef::Blob(a),
            ValueRef::Blob(b),
            ValueRef::Blob(c),
            ValueRef::Blob(d),
            ValueRef::Blob(e),
            ValueRef::Blob(f),
            ValueRef::Blob(g),
            ValueRef::Blob(h),
        ],
    ))
}

/// Deletes a row if its count is 1, and returns whether it did.
pub(crate) fn delete<S: Alter>(tx: &mut Transaction<'_, S>, row: &RowKey<'_>) -> Result<bool, Error>
    ensures deletes { Within S.Store tx.old.conn tx.new.conn (λ old new.
        IfOk result (Deletes (key_in row.now) old new)) }
    ensures stays { Stays S.Store tx.old.conn tx.new.conn result }
{
    let deleted = tx.execute(
        "DELETE FROM held WHERE schema_name = ?1 AND table_name = ?2 AND image = ?3 AND n = ?4",
        &[
            ValueRef::Blob(row.schema),
            ValueRef::Blob(row.table),
            ValueRef::Blob(row.image),
            ValueRef::Int(1),
        ],
    )?;
    Ok(deleted > 0)
}

/// Sets the count of a row.
pub(crate) fn update<S: Alter>(
    tx: &mut Transaction<'_, S>,
    row: &RowKey<'_>,
    n: i64,
) -> Result<usize, Error>
    ensures raised { Within S.Store tx.old.conn tx.new.conn (λ old new.
        (m : ℕ) → m + 1 ≤ most → Finds (key_in row.now) (held_rows old.now) (Some m)
        → n ≡ pos (m + 1)
        → OnOk result (HasCounts old new (with_one (key_in row.now) (count (held_rows old.now))))) }
    ensures lowered { Within S.Store tx.old.conn tx.new.conn (λ old new.
        (m : ℕ) → 1 ≤ m → m ≤ most → Finds (key_in row.now) (held_rows old.now) (Some (m + 1))
        → n ≡ pos m
        → OnOk result (HasCounts old new (without_one (key_in row.now) (count (held_rows
        old.now))))) }
    ensures stays { Stays S.Store tx.old.conn tx.new.conn result }
{
    tx.execute(
        "UPDATE held SET n = ?4 WHERE schema_name = ?1 AND table_name = ?2 AND image = ?3",
        &[
            ValueRef::Blob(row.schema),
            ValueRef::Blob(row.table),
            ValueRef::Blob(row.image),
            ValueRef::Int(n),
        ],
    )
}

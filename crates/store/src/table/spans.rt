//! The table `spans`: the executed set.

ghost use Rattle.std.specs.Prelude.{◌≡◌, [], pos, true, false, OnOk, map, IfOk, IfErr, IsPermutation, None, ◌<◌, IfSome, MatchOption, MatchResult, ℤ, List, ◌∷◌, ◌++◌};
ghost use Rattle.sqlite.specs.Held.{state};
ghost use Rattle.store.specs.State.{Content};
ghost use Rattle.store.specs.Making.{with_held, with_spans, IsMaking};
ghost use Rattle.store.specs.Migrating.{made_spans, HasTables, IsMigrating};
ghost use Rattle.std.specs.List.{AllByRecursion, IsDistinct};
ghost use Rattle.store.specs.Rows.{HasRowids, IsSpanRow, AreSpans, touches, span_in, span_rows, shown_spans, stored_span};
ghost use Rattle.store.specs.Load.{ReadsAll, Judges, all_spans_text};
ghost use Rattle.gtid.specs.Identifier.{id_cmp, IsSource, Ids, id, IsGtid, AreGtids};
ghost use Rattle.gtid.specs.Gathering.{start, SpansRise};
ghost use Rattle.gtid.specs.declared.span.Span.{Span};
ghost use Rattle.store.specs.Judge.{apart_from, touches_last};
ghost use Rattle.gtid.specs.Span.{Covers, IsLawfulSpan};
ghost use Rattle.store.specs.declared.fault.StoreFault.TheVariants.{Memory};
ghost use Rattle.sqlite_value.specs.declared.value.Value.TheVariants.{Int, Blob};
ghost use Rattle.store.specs.Faults.{IsFailure};
ghost use Rattle.sqlite_value.specs.Order.{Row as Stored};
ghost use Rattle.store.specs.Inside.{StaysOpen, Moves, Begins, AreRowsOf, Shows, Records, Stays, HasLeft, Within, TurnsInto};
ghost use Rattle.gtid.specs.Beside.{one_or_none, Joins};
ghost use Rattle.std.specs.FinSet as set;

use crate::fault::StoreFault;
use crate::table::row::{
    FORM, MOST, SOURCE, check_rowids, is_source, number_at, read_all, source_of,
};
use gtid::laws::numbers_in_range;
use gtid::{Beside, Gtid, GtidSet, Span, Spans};
use sqlite::types::ValueRef;
use sqlite::{Alter, Connection, Error, Row, Transaction};
use std::alloc::Global;
use std::cmp::Ordering;

/// All rows, in the order in which they are read.
pub(crate) const ALL: &str = "SELECT rowid, source, lo, hi FROM spans ORDER BY rowid";

const LO: &str = "lo is not from 1 to 9223372036854775806";

const HI: &str = "hi is not above lo and at most 9223372036854775807";

pub(crate) fn make_spans<S: Alter>(tx: &mut Transaction<'_, S>) -> Result<usize, Error>
    ensures made { TurnsInto S.Store tx.old.conn tx.new.conn result
        (IsMaking with_held) (IsMaking with_spans) }
    ensures migrated { (content : Content) → TurnsInto S.Store tx.old.conn tx.new.conn result
        (IsMigrating (HasTables []) (pos 1) content)
        (IsMigrating (HasTables made_spans) (pos 1) content) }
    ensures stays { Stays S.Store tx.old.conn tx.new.conn result }
{
    tx.execute(
        "CREATE TABLE spans (source BLOB NOT NULL, lo INTEGER NOT NULL, hi INTEGER NOT NULL, PRIMARY KEY (source, lo))",
        &[],
    )
}

/// The set in `spans`.
pub(crate) fn load_spans<S: Alter>(
    alloc: Global,
    conn: &mut Connection<S>,
) -> Result<GtidSet, StoreFault>
    ensures { ReadsAll all_spans_text (state S.Store conn.old) (state S.Store conn.new) result
        (λ rows ids. AreSpans rows ids × HasRowids rows)
        (λ rows. AllByRecursion IsSpanRow rows × IsDistinct touches (map span_in rows)) }
{
    let rows = read_all(conn, ALL)?;
    spans_from(alloc, &rows)
}

/// The set of the rows of `spans`.
pub(crate) fn spans_from(alloc: Global, rows: &[Row]) -> Result<GtidSet, StoreFault>
    ensures { Judges result (λ ids. AreSpans rows.now ids
        × HasRowids rows.now) (AllByRecursion IsSpanRow rows.now
        × IsDistinct touches (map span_in rows.now)) }
{
    let Some(spans) = spans_of(alloc, rows)? else {
        return Err(StoreFault::Damaged);
    };
    check_rowids(rows)?;
    set_of(alloc, spans)
}

/// The spans of the rows, if all are lawful rows of `spans`.
pub(crate) fn spans_of(alloc: Global, rows: &[Row]) -> Result<Option<Vec<Span>>, StoreFault>
    ensures { MatchResult result (λ o. MatchOption o (¬ AllByRecursion IsSpanRow rows.now)
        (λ spans. AllByRecursion IsSpanRow rows.now × (spans.items ≡ map span_in rows.now)))
        IsFailure }
{
    let mut spans = Vec::new(alloc);
    for row in rows {
        let Ok(span) = span_of(row)? else {
            return Ok(None);
        };
        spans.push(span)?;
    }
    Ok(Some(spans))
}

/// The span of a row, or the rule of `spans` that the row breaks.
pub(crate) fn span_of(row: &Row) -> Result<Result<Span, &'static str>, Error>
    ensures { IfOk result (λ o. MatchResult o (λ s. IsSpanRow row.now
        × (s ≡ span_in row.now)) (λ _. ¬ IsSpanRow row.now)) }
{
    if row.column_count() != 4 {
        return Ok(Err(FORM));
    }
    let ValueRef::Int(_) = row.get_ref(0)? else {
        return Ok(Err(FORM));
    };
    let ValueRef::Blob(source) = row.get_ref(1)? else {
        return Ok(Err(SOURCE));
    };
    let Some(source) = source_of(source) else {
        return Ok(Err(SOURCE));
    };
    let Some(lo) = number_at(row, 2)? else {
        return Ok(Err(LO));
    };
    if lo >= MOST {
        return Ok(Err(LO));
    }
    let Some(hi) = number_at(row, 3)? else {
        return Ok(Err(HI));
    };
    if hi <= lo {
        return Ok(Err(HI));
    }
    Ok(Ok(Span { source, lo, hi }))
}

/// The set of the spans. `Damaged` if two overlap or touch.
fn set_of(alloc: Global, spans: Vec<Span>) -> Result<GtidSet, StoreFault>
    requires { AllByRecursion IsLawfulSpan spans.items }
    ensures judged { Judges result (Covers spans.items) (IsDistinct touches spans.items) }
    ensures apart { OnOk result (IsDistinct touches spans.items) }
{
    let spans = in_order(spans);
    if !are_apart(&spans) {
        return Err(StoreFault::Damaged);
    }
    union_of(alloc, spans)
}

/// Sorts the spans by where they begin.
fn in_order(spans: Vec<Span>) -> Vec<Span>
    ensures same { IsPermutation spans.items result.items }
    ensures rise { SpansRise result.items }
{
    let mut spans = spans;
    spans.sort_unstable_by(|a, b| order(a, b));
    spans
}

/// Compares two spans by where they begin.
fn order(a: &Span, b: &Span) -> Ordering
    ensures { result ≡ id_cmp (start a.now) (start b.now) }
{
    if a.source == b.source {
        return a.lo.cmp(&b.lo);
    }
    a.source.cmp(&b.source)
}

/// Whether no two consecutive spans touch or overlap.
fn are_apart(spans: &[Span]) -> bool
    ensures { result ≡ apart_from None spans.now }
{
    let mut last = None;
    for span in spans {
        if touches_last(last, span) {
            return false;
        }
        last = Some(*span);
    }
    true
}

/// Whether a span touches or overlaps the last one, if there is one.
pub(crate) fn touches_last(last: Option<Span>, span: &Span) -> bool
    ensures { result ≡ touches_last last span.now }
{
    match last {
        Some(last) => last.source == span.source && last.lo <= span.hi && span.lo <= last.hi,
        None => false,
    }
}

/// The set of the spans. The only error is `Memory`.
pub(crate) fn union_of(alloc: Global, spans: Vec<Span>) -> Result<GtidSet, StoreFault>
    requires { AllByRecursion IsLawfulSpan spans.items }
    ensures ok { IfOk result (Covers spans.items) }
    ensures err { IfErr result (λ fault. fault ≡ Memory) }
{
    match GtidSet::of_spans(alloc, spans) {
        Ok(set) => Ok(set),
        Err(_) => Err(StoreFault::Memory),
    }
}

/// Inserts the span from `lo` up to but not including `hi`.
pub(crate) fn add_span<S: Alter>(
    tx: &mut Transaction<'_, S>,
    source: &[u8],
    lo: i64,
    hi: i64,
) -> Result<usize, Error>
    ensures moves { Within S.Store tx.old.conn tx.new.conn (λ old new.
        OnOk result (Moves old new ((Blob source.now ∷ Int lo ∷ Int hi ∷ []) ∷ shown_spans
        (span_rows old.now)))) }
    ensures stays { Stays S.Store tx.old.conn tx.new.conn result }
{
    tx.execute(
        "INSERT INTO spans VALUES (?1, ?2, ?3)",
        &[ValueRef::Blob(source), ValueRef::Int(lo), ValueRef::Int(hi)],
    )
}

/// Deletes the span that begins at `lo`.
pub(crate) fn drop_span<S: Alter>(
    tx: &mut Transaction<'_, S>,
    source: &[u8],
    lo: i64,
) -> Result<usize, Error>
    ensures moves { Within S.Store tx.old.conn tx.new.conn (λ old new.
        (span : Stored) → (others : List Stored)
        → Begins source.now lo (shown_spans (span_rows old.now)) span others
        → OnOk result (Moves old new others)) }
    ensures goes { Within S.Store tx.old.conn tx.new.conn (λ old new.
        OnOk result (StaysOpen old new)) }
    ensures stays { Stays S.Store tx.old.conn tx.new.conn result }
{
    tx.execute(
        "DELETE FROM spans WHERE source = ?1 AND lo = ?2",
        &[ValueRef::Blob(source), ValueRef::Int(lo)],
    )
}

/// Sets the end of the span that begins at `lo`.
fn set_end<S: Alter>(
    tx: &mut Transaction<'_, S>,
    source: &[u8],
    lo: i64,
    hi: i64,
) -> Result<usize, Error>
    ensures moves { Within S.Store tx.old.conn tx.new.conn (λ old new.
        (end : ℤ) → (others : List Stored)
        → Begins source.now lo (shown_spans (span_rows old.now)) (Blob source.now ∷ Int lo ∷ Int end
        ∷ []) others
        → OnOk result (Moves old new ((Blob source.now ∷ Int lo ∷ Int hi ∷ []) ∷ others))) }
    ensures stays { Stays S.Store tx.old.conn tx.new.conn result }
{
    tx.execute(
        "UPDATE spans SET hi = ?3 WHERE source = ?1 AND lo = ?2",
        &[ValueRef::Blob(source), ValueRef::Int(lo), ValueRef::Int(hi)],
    )
}

/// Deletes the span, if there is one.
fn drop_neighbour<S: Alter>(
    tx: &mut Transaction<'_, S>,
    neighbour: Option<Span>,
) -> Result<(), Error>
    requires { IfSome neighbour IsLawfulSpan }
    ensures moves { Within S.Store tx.old.conn tx.new.conn (λ old new.
        (front : List Span) → (rest : List Span)
        → AreRowsOf (span_rows old.now) (front ++ (one_or_none neighbour ++ rest))
        → OnOk result (Moves old new (map stored_span (front ++ rest)))) }
    ensures goes { Within S.Store tx.old.conn tx.new.conn (λ old new.
        OnOk result (StaysOpen old new)) }
    ensures stays { Stays S.Store tx.old.conn tx.new.conn result }
{
    let Some(span) = neighbour else {
        return Ok(());
    };
    drop_span(tx, &span.source, span.lo as i64)?;
    Ok(())
}

/// Records a GTID: its number and its neighbours become one span. The span below is made longer; where there is none,
/// one is inserted.
pub(crate) fn record<S: Alter>(
    tx: &mut Transaction<'_, S>,
    gtid: Gtid,
    beside: &Beside,
) -> Result<usize, Error>
    requires below { IfSome beside.now.below IsLawfulSpan }
    requires above { IfSome beside.now.above IsLawfulSpan }
    ensures lawful { IsGtid (id gtid) }
    ensures records { Within S.Store tx.old.conn tx.new.conn (λ old new.
        (ids : Ids) → (spans : List Span) → Shows (span_rows old.now) spans ids
        → Joins ids (id gtid) beside.now spans
        → OnOk result (Records old new (set.insert ids (id gtid)))) }
    ensures stays { Stays S.Store tx.old.conn tx.new.conn result }
{
    is_source(gtid.source);
    let span = beside.joined(gtid);
    drop_neighbour(tx, beside.above)?;
    match beside.below {
        Some(below) => set_end(tx, &below.source, below.lo as i64, span.hi as i64),
        None => add_span(tx, &span.source, span.lo as i64, span.hi as i64),
    }
}

/// Inserts a span. One that the columns cannot hold is refused.
fn add<S: Alter>(tx: &mut Transaction<'_, S>, span: Span) -> Result<usize, Error>
    ensures source { IsSource span.source }
    ensures moves { Within S.Store tx.old.conn tx.new.conn (λ old new.
        OnOk result (Moves old new (stored_span span ∷ shown_spans (span_rows old.now)))) }
    ensures stays { Stays S.Store tx.old.conn tx.new.conn result }
{
    is_source(span.source);
    if span.lo > MOST {
        return Err(Error::IntegralValueOutOfRange(0));
    }
    if span.hi > MOST {
        return Err(Error::IntegralValueOutOfRange(0));
    }
    add_span(tx, &span.source, span.lo as i64, span.hi as i64)
}

/// Inserts the spans.
pub(crate) fn add_all<S: Alter>(tx: &mut Transaction<'_, S>, spans: Spans<'_>) -> Result<(), Error>
    ensures sources { OnOk result (AllByRecursion (λ s. IsSource s.source) spans.entry) }
    ensures moves { Within S.Store tx.old.conn tx.new.conn (λ old new.
        OnOk result (HasLeft old new spans.entry [])) }
    ensures stays { Stays S.Store tx.old.conn tx.new.conn result }
{
    for span in spans {
        add(tx, span)?;
    }
    Ok(())
}

/// Deletes a span. One that the columns cannot hold is refused.
fn remove<S: Alter>(tx: &mut Transaction<'_, S>, span: Span) -> Result<usize, Error>
    ensures moves { Within S.Store tx.old.conn tx.new.conn (λ old new.
        (rest : List Span) → AreRowsOf (span_rows old.now) (span ∷ rest)
        → OnOk result (Moves old new (map stored_span rest))) }
    ensures goes { Within S.Store tx.old.conn tx.new.conn (λ old new.
        OnOk result (StaysOpen old new)) }
    ensures stays { Stays S.Store tx.old.conn tx.new.conn result }
{
    if span.lo > MOST {
        return Err(Error::IntegralValueOutOfRange(0));
    }
    drop_span(tx, &span.source, span.lo as i64)
}

/// Deletes the spans, where these are all that are stored.
fn remove_all<S: Alter>(tx: &mut Transaction<'_, S>, spans: Spans<'_>) -> Result<(), Error>
    ensures moves { Within S.Store tx.old.conn tx.new.conn (λ old new.
        AreRowsOf (span_rows old.now) spans.entry → OnOk result (Moves old new [])) }
    ensures goes { Within S.Store tx.old.conn tx.new.conn (λ old new.
        OnOk result (StaysOpen old new)) }
    ensures stays { Stays S.Store tx.old.conn tx.new.conn result }
{
    for span in spans {
        remove(tx, span)?;
    }
    Ok(())
}

/// Stores the spans of a set instead of those of the executed set, where the latter are all that are stored.
pub(crate) fn replace_all<S: Alter>(
    tx: &mut Transaction<'_, S>,
    executed: &GtidSet,
    after: &GtidSet,
) -> Result<(), Error>
    ensures lawful { OnOk result (AreGtids after.now) }
    ensures records { Within S.Store tx.old.conn tx.new.conn (λ old new.
        (spans : List Span) → Shows (span_rows old.now) spans executed.now
        → OnOk result (Records old new after.now)) }
    ensures stays { Stays S.Store tx.old.conn tx.new.conn result }
{
    numbers_in_range(after);
    remove_all(tx, executed.spans())?;
    add_all(tx, after.spans())
}

//! Whether a first copy of tables may be loaded, and loading it into a store.

ghost use Rattle.std.specs.Prelude.{◌≡◌, ◌≢◌, [], Bool, true, false, IsTrue, IfOk, IfErr, IfSome, IfNone, List, ℕ};
ghost use Rattle.std.specs.FinSet as set;
ghost use Rattle.std.specs.List.{list_all};
ghost use Rattle.sqlite.specs.State.{HasCleanDisk};
ghost use Rattle.gtid.specs.Identifier.{id};
ghost use Rattle.store.specs.State.{Content};
ghost use Rattle.store.specs.Store.{AreOf, Holds, database, names_of};
ghost use Rattle.replica.specs.Marks.{is_of_copy};
ghost use Rattle.replica.specs.Copies.{AreOfCopies, HasJust, IsAtSet, IsNotGivenUp, AreHad, MayBeCopied, IsNotHad, is_had, was_begun, with_marks, loaded_by};
ghost use Rattle.replica.specs.Loading.{IsLookedAt, JudgesCopy, HasLoaded, IsLedByLoad};
ghost use Rattle.replica.specs.LoadFile.{MayStopLoad, UnlessLoaded};
ghost use Rattle.replica.specs.Keeps.{KeepsStore};

use crate::change::changing::{ChangeEnd, change};
use crate::change::marks::{
    begun_mark, ended_mark, given_up_mark, is_of_copy, is_unfinished, other_unfinished,
};
use crate::observer::Observer;
use binlog::Follow;
use gather::Deliveries;
use gtid::{Gtid, GtidFault, GtidSet, Spans};
use sqlite::Alter;
use std::alloc::{AllocError, Global};
use store::{ListError, Listed, Store, StoreFault, Visitor};

/// The name of a table.
#[derive(Debug, Drop)]
pub struct QualifiedName {
    pub schema: Vec<u8>,
    pub table: Vec<u8>,
}

/// Why a first copy of tables may not be loaded.
#[derive(Debug, Drop)]
pub enum Unloadable {
    /// The copy was given up.
    GivenUp,
    /// A copy of this source has begun and not ended, and is another one, or is not there as it was begun.
    Unfinished([u8; 16]),
    /// The database has executed something, and that is not the set, and besides it copies alone.
    OtherSet,
    /// The database was made for other tables than this one.
    LeftOut(QualifiedName),
    /// The rows of this table are reported and not kept, and the database has executed something, so that nothing says whether
    /// the table was copied before.
    NotFirst(QualifiedName),
    /// This table has rows.
    HasRows(QualifiedName),
    /// That could not be found out: the database failed, or memory ran out.
    Failed(StoreFault),
}

/// How a load has ended.
#[derive(Debug, Drop)]
pub enum LoadEnd<E> {
    /// The copy may be loaded, and this is how its transactions have ended. The last of them says that all of its rows are there.
    Changed(ChangeEnd<E>),
    /// It was loaded to its end before, and nothing has changed.
    HadEnded,
    /// It may not be, and nothing has changed.
    Refused(Unloadable),
}

/// A first copy of tables, without its rows.
#[derive(Clone, Copy)]
pub struct FirstCopy<'a> {
    /// What the source had executed when the rows were read.
    pub gtids: &'a GtidSet,
    /// The first GTID of its source, which is executed as soon as the copy is begun, with the set and a mark: the last GTID but one
    /// of the source. No transaction has these two.
    pub first: Gtid,
    /// The tables that it has rows of, each by its name; none where it has no rows.
    pub tables: &'a Follow,
}

/// What stops a search for rows.
#[derive(Debug, Drop)]
pub(crate) enum FoundRow {
    /// A row of this table.
    Row(QualifiedName),
    /// Memory ran out.
    Memory,
}

/// Whether the sources of all these spans are copies.
fn are_spans_of_copies(spans: Spans<'_>) -> bool
    ensures { result ≡ list_all (λ s. is_of_copy s.source) spans.entry }
{
    for span in spans {
        if !is_of_copy(&span.source) {
            return false;
        }
    }
    true
}

/// Whether a set has GTIDs of copies alone.
fn are_of_copies(gtids: &GtidSet) -> bool
    ensures all { result ≡ true → AreOfCopies gtids.now }
    ensures some { result ≡ false → ¬ AreOfCopies gtids.now }
{
    are_spans_of_copies(gtids.spans())
}

/// Whether the set is executed, and besides it nothing but copies. The only error is `Memory`.
pub(crate) fn has_just(executed: &GtidSet, gtids: &GtidSet) -> Result<bool, GtidFault>
    ensures { IfOk result (λ just. (just ≡ true → HasJust executed.now gtids.now)
        × (just ≡ false → ¬ HasJust executed.now gtids.now)) }
{
    if !gtids.is_subset(executed) {
        return Ok(false);
    }
    let mut others = executed.copy()?;
    others.subtract(gtids)?;
    Ok(are_of_copies(&others))
}

/// Whether nothing is executed, or just the set. The only error is `Memory`.
pub(crate) fn is_at(alloc: Global, executed: &GtidSet, gtids: &GtidSet) -> Result<bool, GtidFault>
    ensures { IfOk result (λ at. (at ≡ true → IsAtSet executed.now gtids.now)
        × (at ≡ false → ¬ IsAtSet executed.now gtids.now)) }
{
    if executed.is_subset(&GtidSet::new(alloc)) {
        return Ok(true);
    }
    has_just(executed, gtids)
}

/// Whether a table is one of these.
fn is_one_of(tables: &Follow, schema: &[u8], table: &[u8]) -> bool
    ensures { result ≡ set.contains tables.now (schema.now, table.now) }
{
    if tables.names().is_empty() {
        return false;
    }
    tables.follows(schema, table)
}

/// Whether rows of a table are kept, or, if that is not asked, whether it is read.
fn is_had(following: &Follow, kept: bool, schema: &[u8], table: &[u8]) -> bool
    ensures { result ≡ is_had kept following.now schema.now table.now }
{
    if kept {
        return following.follows(schema, table);
    }
    following.reads(schema, table)
}

/// The first of the tables whose rows are not kept, or, if that is not asked, which is not read, if there is one.
fn first_left_out<'a>(
    following: &Follow,
    kept: bool,
    tables: &'a Follow,
) -> Option<&'a (Vec<u8>, Vec<u8>)>
    ensures some { IfSome result (λ name. (set.contains tables.now
        (name.now.0.items, name.now.1.items) ≡ true)
        × (is_had kept following.now name.now.0.items name.now.1.items ≡ false)) }
    ensures none { IfNone result (AreHad kept following.now tables.now) }
{
    for name in tables.names() {
        if !is_had(following, kept, &name.0, &name.1) {
            return Some(name);
        }
    }
    None
}

/// Why tables may not be copied into a database that reads these and has executed so much, if they may not be.
fn why_not_had(
    alloc: Global,
    following: &Follow,
    executed: &GtidSet,
    tables: &Follow,
) -> Option<Unloadable>
    ensures some { IfSome result (λ why. IsNotHad following.now executed.now tables.now why) }
    ensures none { IfNone result (MayBeCopied following.now executed.now tables.now) }
{
    if let Some(name) = first_left_out(following, false, tables) {
        return match name_of(alloc, &name.0, &name.1) {
            Ok(name) => Some(Unloadable::LeftOut(name)),
            Err(_) => Some(Unloadable::Failed(StoreFault::Memory)),
        };
    }
    let is_first = executed.is_subset(&GtidSet::new(alloc));
    if is_first {
        return None;
    }
    let name = first_left_out(following, true, tables)?;
    match name_of(alloc, &name.0, &name.1) {
        Ok(name) => Some(Unloadable::NotFirst(name)),
        Err(_) => Some(Unloadable::Failed(StoreFault::Memory)),
    }
}

/// A copy of the name of a table.
pub(crate) fn name_of(
    alloc: Global,
    schema: &[u8],
    table: &[u8],
) -> Result<QualifiedName, AllocError>
    ensures schema { IfOk result (λ name. name.schema.items ≡ schema.now) }
    ensures table { IfOk result (λ name. name.table.items ≡ table.now) }
{
    Ok(QualifiedName {
        schema: Vec::from_slice(alloc, schema)?,
        table: Vec::from_slice(alloc, table)?,
    })
}

/// What stops at the first row of one of the tables.
#[derive(Drop)]
struct NoRows<'a> {
    alloc: Global,
    tables: &'a Follow,
}

impl Visitor for NoRows<'_> {
    type Error = FoundRow;

    ghost row_gives = { λ v entry result w. (w ≡ v) × IsLookedAt v.tables.now entry result };

    fn row(&mut self, row: &Listed<'_>) -> Result<(), FoundRow> {
        if !is_one_of(self.tables, row.schema, row.table) {
            return Ok(());
        }
        match name_of(self.alloc, row.schema, row.table) {
            Ok(name) => Err(FoundRow::Row(name)),
            Err(_) => Err(FoundRow::Memory),
        }
    }
}

/// Whether a copy was begun, by its set and its first GTID.
pub(crate) fn was_begun(executed: &GtidSet, gtids: &GtidSet, first: Gtid) -> bool
    ensures { result ≡ was_begun executed.now gtids.now (id first) }
{
    gtids.is_subset(executed) && executed.contains(first)
}

/// Whether a copy that is kept and has not ended may be loaded, that was read at this set, whose first GTID is this, and which has rows of these
/// tables.
fn may_load<S: Alter>(
    alloc: Global,
    store: &mut Store<S>,
    gtids: &GtidSet,
    first: Gtid,
    tables: &Follow,
) -> Result<(), Unloadable>
    ensures judges { HasCleanDisk (database S.Store store.new) → (content : Content)
        → Holds S.Store store.old content
        → IsNotGivenUp content.executed (id first) false
        → JudgesCopy S.Store (names_of S.Store store.old) content
        gtids.now (id first) tables.now store.new result }
    ensures crash { HasCleanDisk (database S.Store store.new) → (content : Content)
        → Holds S.Store store.old content → (trees : _)
        → (database S.Store store.new).may_leave trees
        → AreOf (database S.Store store.old).now.schema
        (names_of S.Store store.old) content trees }
    ensures keeps { KeepsStore S.Store store.old store.new }
{
    if let Some(source) = other_unfinished(store.executed(), &first.source) {
        return Err(Unloadable::Unfinished(source));
    }
    if was_begun(store.executed(), gtids, first) {
        return Ok(());
    }
    if is_unfinished(store.executed(), &first.source) {
        return Err(Unloadable::Unfinished(first.source));
    }
    match is_at(alloc, store.executed(), gtids) {
        Ok(true) => {}
        Ok(false) => return Err(Unloadable::OtherSet),
        Err(_) => return Err(Unloadable::Failed(StoreFault::Memory)),
    }
    if let Some(why) = why_not_had(alloc, store.following(), store.executed(), tables) {
        return Err(why);
    }
    match store.list(&mut NoRows { alloc, tables }) {
        Ok(()) => Ok(()),
        Err(ListError::Store(fault)) => Err(Unloadable::Failed(fault)),
        Err(ListError::Visitor(FoundRow::Row(name))) => Err(Unloadable::HasRows(name)),
        Err(ListError::Visitor(FoundRow::Memory)) => Err(Unloadable::Failed(StoreFault::Memory)),
    }
}

/// What a copy with this set and this first GTID adds to the executed set when it begins. The only error is `Memory`.
pub(crate) fn set_of(gtids: &GtidSet, first: Gtid) -> Result<GtidSet, GtidFault>
    ensures { IfOk result (λ ids. ids ≡ with_marks gtids.now (id first)) }
{
    let mut ids = gtids.copy()?;
    ids.insert(first)?;
    ids.insert(begun_mark(first.source))?;
    Ok(ids)
}

/// Loads a copy, if that may be done: adopts its set with its marks, and applies the transactions that are given as [`change`]
/// does. Returns how many were applied, and how that ended. A copy that has ended is not loaded again.
pub(crate) fn load<S: Alter, I: Deliveries, W: Observer>(
    alloc: Global,
    store: &mut Store<S>,
    copy: &FirstCopy<'_>,
    deliveries: &mut I,
    observer: &mut W,
) -> (u64, LoadEnd<I::Error>)
    ensures loads { HasCleanDisk (database S.Store store.new) → (old : Content)
        → Holds S.Store store.old old → HasLoaded S.Store (names_of S.Store store.old) store.new
        old (loaded_by (I.supply deliveries.old) copy.now) result.0 result.1 }
    ensures notes { HasCleanDisk (database S.Store store.new) → (old : Content)
        → Holds S.Store store.old old → IsLedByLoad S.Store store.old store.new old
        (loaded_by (I.supply deliveries.old) copy.now) (W.account observer.old)
        (W.account observer.new) result.1 }
    ensures asked { MayStopLoad result.1 (W.account observer.new) }
    ensures unreported { UnlessLoaded result.1 (observer.new ≡ observer.old) }
    ensures keeps { KeepsStore S.Store store.old store.new }
{
    if store.executed().contains(given_up_mark(copy.first.source)) {
        return (0, LoadEnd::Refused(Unloadable::GivenUp));
    }
    if store.executed().contains(ended_mark(copy.first.source)) {
        return (0, LoadEnd::HadEnded);
    }
    match may_load(alloc, store, copy.gtids, copy.first, copy.tables) {
        Ok(()) => {
            let Ok(gtids) = set_of(copy.gtids, copy.first) else {
                return (
                    0,
                    LoadEnd::Changed(ChangeEnd::NotAdopted(StoreFault::Memory)),
                );
            };
            let (applied, end) = change(store, &gtids, deliveries, observer);
            (applied, LoadEnd::Changed(end))
        }
        Err(why) => (0, LoadEnd::Refused(why)),
    }
}

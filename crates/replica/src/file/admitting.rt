//! Following more tables.

ghost use Rattle.std.specs.Prelude.{◌≡◌, None, Some, IfOk, IfErr, IfSome, IfNone, true};
ghost use Rattle.std.specs.FinSet as set;
ghost use Rattle.sqlite.specs.State.{HasCleanDisk};
ghost use Rattle.sqlite_wal.specs.Files.{image_at};
ghost use Rattle.binlog.specs.Filter.{is_read};
ghost use Rattle.store.specs.State.{Content};
ghost use Rattle.store.specs.Store.{Holds, database, names_of};
ghost use Rattle.replica.specs.File.{OfHeld, IsTurnedAway, ClosesAs};
ghost use Rattle.store.specs.Changes.{adopted};
ghost use Rattle.replica.specs.Admit.{AreNew, MayAdmit, IsNotAdmitted, with_copy_begun, StandFor, HasAdmitted, AdmitsInFiles};

use crate::change::loading::{QualifiedName, is_at, name_of, set_of, was_begun};
use crate::change::marks::{ended_mark, given_up_mark, unfinished_copy};
use crate::file::work::InFile;
use crate::file::{Unopened, close_file, open_file};
use binlog::Follow;
use gtid::{Gtid, GtidFault, GtidSet};
use sqlite::{Alter, FileFrom, Start};
use std::alloc::Global;
use store::{Store, StoreFault};

/// Why tables were not admitted.
#[derive(Debug, Drop)]
pub enum AdmitFault {
    /// A first copy of this source has begun and not ended.
    Unfinished([u8; 16]),
    /// The database follows all tables.
    AllFollowed,
    /// This table is read by now.
    Followed(QualifiedName),
    /// The database failed (`Database`) or memory ran out (`Memory`). It has no other fault.
    Failed(StoreFault),
    /// The copy was given up.
    GivenUp,
    /// The copy was loaded to its end.
    HasEnded,
    /// The copy has begun: it is to be loaded.
    HasBegun,
    /// The copy has no tables.
    NoTables,
    /// The database has executed something, and that is not the set of the copy, and besides it copies alone.
    OtherSet,
}

/// A first copy of tables, with which they are admitted.
#[derive(Clone, Copy)]
pub struct CopyBegin<'a> {
    /// What the source had executed when the rows were read.
    pub gtids: &'a GtidSet,
    /// The first GTID of its source.
    pub first: Gtid,
}

/// Tables that a database is to follow too.
#[derive(Clone, Copy)]
pub struct Admission<'a> {
    /// The tables, each by its name; where no rows are kept, `*` means all tables of a schema.
    pub tables: &'a Follow,
    /// The filter that reads these tables and keeps no row of them ([`Follow::not_kept`]). Its names are added where no rows are
    /// kept.
    pub unkept: &'a Follow,
    /// A first copy of these tables, which is begun as they are admitted; if none is given, the executed set stays.
    pub copy: Option<CopyBegin<'a>>,
}

/// The first of the tables that is read, if there is one.
fn first_read<'a>(following: &Follow, tables: &'a Follow) -> Option<&'a (Vec<u8>, Vec<u8>)>
    ensures some { IfSome result (λ name. (set.contains tables.now
        (name.now.0.items, name.now.1.items) ≡ true)
        × (is_read following.now name.now.0.items name.now.1.items ≡ true)) }
    ensures none { IfNone result (AreNew following.now tables.now) }
{
    for name in tables.names() {
        if following.reads(&name.0, &name.1) {
            return Some(name);
        }
    }
    None
}

/// Why tables may not be admitted to a database that follows these and has executed so much, if they may not be, whether they come
/// with a copy or not.
fn why_not_new(
    alloc: Global,
    following: &Follow,
    executed: &GtidSet,
    tables: &Follow,
) -> Option<AdmitFault>
    ensures some { IfSome result (λ why. IsNotAdmitted following.now executed.now tables.now None why) }
    ensures none { IfNone result (MayAdmit following.now executed.now tables.now None) }
{
    if let Some(source) = unfinished_copy(executed) {
        return Some(AdmitFault::Unfinished(source));
    }
    if follows_all(following) {
        return Some(AdmitFault::AllFollowed);
    }
    let name = first_read(following, tables)?;
    match name_of(alloc, &name.0, &name.1) {
        Ok(name) => Some(AdmitFault::Followed(name)),
        Err(_) => Some(AdmitFault::Failed(StoreFault::Memory)),
    }
}

/// Why they may not be admitted with this copy, if they may not be.
fn why_not_with(
    alloc: Global,
    following: &Follow,
    executed: &GtidSet,
    tables: &Follow,
    copy: &CopyBegin<'_>,
) -> Option<AdmitFault>
    ensures some { IfSome result (λ why. IsNotAdmitted following.now executed.now tables.now
        (Some copy.now) why) }
    ensures none { IfNone result (MayAdmit following.now executed.now tables.now (Some copy.now)) }
{
    if executed.contains(given_up_mark(copy.first.source)) {
        return Some(AdmitFault::GivenUp);
    }
    if executed.contains(ended_mark(copy.first.source)) {
        return Some(AdmitFault::HasEnded);
    }
    if was_begun(executed, copy.gtids, copy.first) {
        return Some(AdmitFault::HasBegun);
    }
    if follows_all(tables) {
        return Some(AdmitFault::NoTables);
    }
    if let Some(why) = why_not_new(alloc, following, executed, tables) {
        return Some(why);
    }
    match is_at(alloc, executed, copy.gtids) {
        Ok(true) => None,
        Ok(false) => Some(AdmitFault::OtherSet),
        Err(_) => Some(AdmitFault::Failed(StoreFault::Memory)),
    }
}

/// Why tables may not be admitted, if they may not be.
fn why_not(
    alloc: Global,
    following: &Follow,
    executed: &GtidSet,
    ask: &Admission<'_>,
) -> Option<AdmitFault>
    ensures some { IfSome result (λ why. IsNotAdmitted following.now executed.now ask.now.tables.now
        ask.now.copy why) }
    ensures none { IfNone result (MayAdmit following.now executed.now ask.now.tables.now ask.now.copy) }
{
    match &ask.copy {
        Some(copy) => why_not_with(alloc, following, executed, ask.tables, copy),
        None => why_not_new(alloc, following, executed, ask.tables),
    }
}

/// What is executed too where tables are admitted: nothing, or what their copy adds when it begins. The only error is `Memory`.
fn begun_set(alloc: Global, ask: &Admission<'_>) -> Result<GtidSet, GtidFault>
    ensures { IfOk result (λ ids. (old : Content) → adopted old ids ≡ with_copy_begun ask.now.copy old) }
{
    match &ask.copy {
        Some(copy) => set_of(copy.gtids, copy.first),
        None => Ok(GtidSet::new(alloc)),
    }
}

/// Whether a filter admits all tables.
fn follows_all(following: &Follow) -> bool
    ensures { result ≡ set.is_subset following.now set.empty }
{
    following.names().len() == 0
}

/// The names that a filter is to have for tables.
fn standing<'a>(following: &Follow, ask: &Admission<'a>) -> &'a Follow
    ensures { StandFor following.now ask.now.tables.now ask.now.unkept.now result.now }
{
    if following.keeps_rows() {
        return ask.tables;
    }
    ask.unkept
}

/// Adds tables to those that a store follows, and begins the copy that they come with, in one commit.
fn admit<S: Alter>(
    alloc: Global,
    store: &mut Store<S>,
    ask: &Admission<'_>,
) -> Result<(), AdmitFault>
    ensures admits { HasCleanDisk (database S.Store store.new) → (old : Content)
        → Holds S.Store store.old old → HasAdmitted S.Store (names_of S.Store store.old) old
        ask.now.tables.now ask.now.unkept.now ask.now.copy result store.new }
    ensures clean { HasCleanDisk (database S.Store store.new)
        → HasCleanDisk (database S.Store store.old) }
{
    if let Some(why) = why_not(alloc, store.following(), store.executed(), ask) {
        return Err(why);
    }
    let Ok(gtids) = begun_set(alloc, ask) else {
        return Err(AdmitFault::Failed(StoreFault::Memory));
    };
    let names = standing(store.following(), ask);
    match store.admit(names, &gtids) {
        Ok(()) => Ok(()),
        Err(fault) => Err(AdmitFault::Failed(fault)),
    }
}

/// Opens the database in a file, adds tables to those that it follows, in one commit, and closes it. It is for tables of which no
/// executed transaction has changed a row: rows that they had before are not added. With a copy of them that was read at the executed
/// set this is begun too, so that it can be loaded ([`load_file`](crate::load_file)), also where no rows are kept.
///
/// Tables are not admitted while a first copy has begun and not ended, where all tables are followed, and where one of them is read
/// by now; with a copy also not where this has begun, has ended or was given up, has no tables, or was read at another set.
///
/// `start` stands for what the files held before (see [`open_file`]).
///
/// Clauses:
/// - `admits`: the closed files hold the content of before, in which the copy is begun, and the filter with the names; or both as
///   before, for a reason
/// - `closing`, `turned`: as of [`in_file`]
pub fn admit_file<P: Start>(
    rt: &HostRuntime,
    path: &str,
    start: P,
    ask: Admission<'_>,
) -> Result<InFile<Result<(), AdmitFault>, FileFrom<P>>, Unopened<FileFrom<P>>>
    // If the files held a database that stands for a content, or none was there, the closed files hold that content, in which the
    // copy is begun, and its filter with the names; or both as before, if the tables were not admitted. Files that could not be
    // closed may be left with either.
    ensures admits { IfOk result (λ made. OfHeld None (image_at P.Start)
        (λ names content. AdmitsInFiles names content ask.entry.tables.now ask.entry.unkept.now
        ask.entry.copy made.done made.closed)) }
    // If the tables of the database were known, it stood for a content. Why the files could not be closed is what they met.
    ensures closing { IfOk result (λ made. ClosesAs None (image_at P.Start) made.closed) }
    // A database that stands for a content is not opened only if it fails, or memory runs out, and is left with that content. Any
    // other is refused with its reason and left as it is, and so are files that cannot be opened.
    ensures turned { IfErr result (IsTurnedAway None (image_at P.Start)) }
{
    let mut store = open_file(rt, path, start, 0, None)?;
    let done = admit(rt.alloc(), &mut store, &ask);
    let closed = close_file(store);
    Ok(InFile { done, closed })
}
